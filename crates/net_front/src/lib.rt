//! From the bytes of a netlist to a checked net, in one call.
//!
//! [`read_net`] is the whole call. What it refuses is one type over the refusals of the text's reader and of the rules.
#![tactic(auto)]

mod reading;
mod refusal;

pub use reading::read_net;
pub use refusal::NetlistRefusal;
