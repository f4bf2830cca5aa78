//! Copies of blocks behind the blocks that lead to them, where conditions are constants then: short loops of constant length
//! are unrolled, and a test of what is known already is left out.
#![tactic(auto)]

mod copying;
mod counting;
mod growing;
mod laws;
mod searching;

pub use copying::copy;
pub use ir::{Ir, Memory};
pub use laws::copied_graphs_pass;
