//! Rules by which operations on patterns are replaced by others that give the same.
//! Each rule is a law: the contract of a function that does nothing.
#![tactic(auto)]

pub mod amounts;
pub mod bounds;
pub mod existence;
pub mod quotients;
pub mod worked;
