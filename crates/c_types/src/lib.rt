//! The type checker: the first rule that a kernel's tree or a program breaks, or its typed tree or
//! typed program.
#![tactic(auto)]

mod calls;
mod checker;
mod fault;
mod faults;
mod known;
mod laws;
mod parameters;
mod program_casts;
mod program_conversions;
mod programs;
mod scopes;
mod sort;
mod typed_parts;

pub use checker::{check, check_program, check_program_rules, check_rules};
pub use fault::{Fault, Rule, TypeRefusal};
pub use laws::trees_are_checked_as_programs;
