//! Runs of a checked net on a text of inputs, to the text of their results.
//!
//! [`run_text`] runs by cycles or by workers from text to text, and [`replay_text`] makes the firings of a schedule.
//! [`save_text`] writes a state of a run, and [`resume_text`] goes on from one.
#![tactic(auto)]

mod given;
mod laws;
mod options;
mod refusal;
mod replays;
mod results;
mod resume_refusal;
mod resumes;
mod runs;
mod saves;

pub use laws::{
    resumes_show_runs, sound_runs_are_not_refused, told_schedules_replay, workers_change_no_answer,
};
pub use options::{DEFAULT_FIRINGS, RunOptions};
pub use refusal::RunRefusal;
pub use replays::replay_text;
pub use resume_refusal::ResumeRefusal;
pub use resumes::resume_text;
pub use runs::run_text;
pub use saves::save_text;
