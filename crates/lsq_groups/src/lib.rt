//! The accesses of a block graph by blocks and arrays: what becomes a load-store queue, and what is only read.
#![tactic(auto)]

mod accesses;
mod grouping;
mod read_only;

pub use grouping::groups;
pub use ir::{Access, Groups, Ir, List, Memory};
