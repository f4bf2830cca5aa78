//! The slots and the delays of the channels of a net, by what its units do.
#![tactic(auto)]

mod cuts;
mod edges;
mod laws;
mod levels;
mod placing;
mod timing;

pub use laws::{
    a_net_is_placed_in_one_way, cycles_have_registers, registers_are_needed, walks_are_within_depth,
};
pub use placing::place;
pub use timing::{Class, Timing, class_of};
