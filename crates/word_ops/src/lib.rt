//! Operations on patterns: what each gives, on all numbers below 2 ^ 64.
//! Each operand is first reduced modulo two to its width. Every operation is a fixed number of machine operations and takes no memory.
//! What the operations mean on whole numbers is said by `laws`.
#![tactic(auto)]

mod apply;
mod arithmetic;
mod division;
pub mod laws;
mod reading;
mod shifts;

pub use apply::{apply1, apply2};
pub use el_base::{Op1, Op2};
