//! The mark of queues, by which a load may take the data of a store that has not been written: each run of a circuit without
//! it is one of the circuit with it.
//!
//! `specs/Marked` has the net with the mark on every queue, and its states. [`mark_queues`] makes that net. The laws are
//! contracts of functions that do nothing.
#![tactic(auto)]

mod laws;
mod marking;

pub use laws::{marks_allow_runs, marks_keep_rules, queues_have_the_mark};
pub use marking::mark_queues;
