//! From the typed tree of a kernel to its block graph, in one call over the layers of the middle: which graph that is, and
//! that a kernel has one; which arrays a kernel assigns to, and that its block graph stores to these and to no others.
#![tactic(auto)]

mod count;
mod graph;
mod laws;
mod passes;

pub use graph::block_graph;
pub use laws::{graphs_are_one, optimized_graphs_pass, stores_are_assignments};
