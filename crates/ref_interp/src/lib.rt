//! The plain interpreter: runs a typed tree itself, on patterns, and names the first undefined operation.
#![tactic(auto)]

mod cells;
mod expressions;
mod header;
mod kernel;
mod laws;
mod machine;
mod operators;
mod statements;
mod targets;
mod turn_laws;

pub use header::{flat_arrays, names_of_parameters_differ, scalars};
pub use kernel::{Outcome, interpret};
pub use turn_laws::ends_need_only_their_turns;
