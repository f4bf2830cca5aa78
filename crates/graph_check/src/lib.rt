//! Block graphs from their parts: whether the parts are a well-formed graph, and the graph that they are.
#![tactic(auto)]

mod blocks;
mod graph;
mod steps;

pub use graph::checked_graph;
pub use ir::{Array, Block, Instr, Ir, Jump, List, Memory, Name, Op1, Op2, Scalar, To, Ty};
