//! From the bytes of a kernel to its circuit, in one call: a checked net that computes the kernel with whatever slots and
//! delays, and the only one by the same options.
#![tactic(auto)]

mod compiling;
mod laws;

pub use compiling::{Compiled, compile};
pub use laws::{
    circuits_are_one, circuits_are_within_depth, circuits_come_to_rest, good_nets_stay_good,
    inputs_are_patterns, kernel_nets_are_good,
};
