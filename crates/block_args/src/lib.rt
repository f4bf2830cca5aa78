//! The graph over block arguments that a graph over variables becomes, where each block but block 0 gets the variables
//! that a table lists for it: definitions, and laws of them.
#![tactic(auto)]

mod block;
mod graph;
mod laws;
mod live;
mod numbers;
mod tables;
mod walk;

pub use graph::arguments;
pub use laws::{
    live_variables_serve, served_graphs_are_well_formed, served_graphs_run_the_same, sizes_are_kept,
};
pub use live::live_variables;
