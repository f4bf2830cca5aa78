//! Rules by which a pure step of a block is a value that the block has already, or some other steps: constants, identities,
//! products and quotients by powers of two, tests of tests, choices. Each rule's law is one of the table's.
#![tactic(auto)]

mod change;
mod conditions;
mod division;
mod kind;
mod laws;
mod of_one;
mod of_select;
mod of_two;
mod reading;
mod rewriting;
mod top;

pub use conditions::strip;
pub use ir::{Instr, List, Memory, Op1, Op2};
pub use laws::{rewritings_are_right, values_are_bounded};
pub use rewriting::{Condition, Rewriting, rewrite};
