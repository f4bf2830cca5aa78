//! Blocks of a graph over variables that read only the variables that they use, and write only those that they change.
#![tactic(auto)]

mod laws;
mod marks;
mod numbers;
mod trimming;
mod writes;

pub use ir::{Cfg, Memory};
pub use laws::{
    trimmed_blocks_are_trim, trimmed_graphs_fit, trimmed_graphs_run_the_same,
    trimmed_sizes_are_kept,
};
pub use trimming::trim;
