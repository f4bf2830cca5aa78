//! From block graphs to nets: a value that is used more than once is a fork with an output for each use, and each jump an
//! edge to the head of its target.
#![tactic(auto)]

mod blocks;
mod building;
mod draft;
mod edges;
mod endings;
mod follow_laws;
mod fronts;
mod jumps;
mod laws;
mod port_laws;
mod queues;
mod steps;
mod uses;

pub use building::build;
pub use follow_laws::circuits_follow;
pub use ir::{Groups, Ir, List, Memory};
pub use laws::{
    arrays_are_served, headers_are_met, nets_are_plain, nets_are_small, units_are_shaped,
    units_have_their_shape, units_stand_once,
};
pub use net_types::Net;
pub use port_laws::{nets_keep_rules, ports_agree};
