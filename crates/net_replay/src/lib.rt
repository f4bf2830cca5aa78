//! Given lists of firings, and the plain runner.
//!
//! [`replay`] makes a given list of firings from the opening state, [`finish`] goes on from any state to rest or to a limit,
//! and [`judge`] tells whether a state at rest has exited, and without strays.
#![tactic(auto)]

mod fault;
mod judging;
mod laws;
mod marks;
mod outcome;
mod replayer;
mod runner;
mod schedule_printer;
mod schedule_reader;
mod schedule_refusal;
mod schedule_words;
mod skips;
mod visits;

pub use fault::{ReplayFault, RunFault};
pub use judging::judge;
pub use laws::{one_answer, one_end, one_schedule};
pub use outcome::Replay;
pub use replayer::replay;
pub use runner::{Ended, finish};
pub use schedule_printer::print_schedule;
pub use schedule_reader::read_schedule;
pub use schedule_refusal::ScheduleRefusal;
