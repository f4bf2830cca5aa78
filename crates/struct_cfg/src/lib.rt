//! From normal forms to graphs over variables: the blocks of statements, and the steps of their expressions.
//! The graph is a definition, in `specs/`; `laws` says what holds of it, and `cfg` makes it.
#![tactic(auto)]

mod closes;
mod draft;
mod exprs;
mod graph;
mod header;
mod joins;
pub mod laws;
mod operators;
mod statements;

pub use graph::cfg;
