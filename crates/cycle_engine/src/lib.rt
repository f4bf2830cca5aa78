//! Runs of nets by cycles: what a cycle is, laws of cycles, and the engine that runs a net by them.
//!
//! [`run_cycles`] runs a net to rest or to a limit, and counts the cycles.
#![tactic(auto)]

mod broken;
mod cells;
mod control;
mod dates;
mod engine;
mod fed;
mod feeds;
mod forks;
mod freed;
mod laws;
mod marks;
mod notes;
mod numbers;
mod pending;
mod places;
mod runs;
mod stack;
mod straight;
mod trial;
mod turns;
mod used;

pub use laws::{
    cycles_are_few, cycles_are_one, cycles_are_runs, firings_rouse, firings_rouse_their_unit,
    next_cycles_rouse, worked_net_cycles,
};
pub use runs::{Timed, run_cycles};
