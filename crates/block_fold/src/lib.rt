//! Each block of a graph made anew from left to right: constants and identities by rules, equal pure steps once, loads of
//! what is known to stand at an address, jumps that are decided; and without what nothing needs then.
#![tactic(auto)]

mod folding;
mod jumps;
mod known;
mod laws;
mod making;
mod numbers;
mod table;

pub use folding::{fold, fold_block};
pub use ir::{Block, Ir, Memory};
pub use laws::{folded_blocks_keep, folded_graphs_pass, simplified_blocks_keep};
