//! Graphs by their edges: the rows of targets, the strongly connected parts, and topological orders, all in linear time.
#![tactic(auto)]

mod marking;
mod order;
mod searching;
mod tables;
mod topological;

pub use marking::parts;
pub use tables::rows;
pub use topological::topological_order;
