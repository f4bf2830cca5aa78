//! Runs of nets by several workers.
//!
//! [`workers`] makes a crew, [`gather`] turns the logs of workers, whatever threads swept them, into one run, and
//! [`run_workers`] does both, with each worker in a thread of its own between, or in turn where threads do not pay.
#![tactic(auto)]

mod awake;
mod crew;
mod gathering;
mod handing;
mod laws;
mod making;
mod order;
mod running;
mod settling;
mod sweeping;

pub use crew::{Crew, Report};
pub use gathering::{gather, merged_log};
pub use laws::crew_gathers;
pub use making::workers;
pub use running::run_workers;
