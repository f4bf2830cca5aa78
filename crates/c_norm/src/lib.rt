//! From typed trees to normal forms: the normal form of a kernel is a definition, in `specs/`; `normal` makes it, and `laws`
//! says what holds of it.
#![tactic(auto)]

mod assignments;
mod expand;
mod forms;
mod kernel;
pub mod laws;
mod settings;
mod types;

pub use kernel::normal;
