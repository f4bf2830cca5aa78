//! The laws of runs, as contracts of functions that do nothing.
ghost use Rattle.net_runs.specs.Laws.{RefusedRunsAreOne, ResumesShowRuns, RunTextsAreOne, RunsAreComplete, RunsAreOne, SavedRunsResume, ToldSchedulesReplay};

use inputs_text::inputs_texts_have_one_reading;
use net_core::completion;
use net_replay::one_answer;
use snapshot::{resumed_as_run, texts_spell_one_state};

/// Where the bytes give inputs on which no run of a checked net is longer than the limit, and some run rests with its exit
/// fired and no stray, nothing but want of memory is refused.
pub fn sound_runs_are_not_refused()
    ensures { RunsAreComplete }
{}

/// By however many workers, or by cycles, a run has one answer, but for want of memory, where neither cycles nor firings are
/// told; where they are, refusals are one, and texts show the same results and as many firings.
pub fn workers_change_no_answer()
    ensures runs { RunsAreOne }
    ensures refused { RefusedRunsAreOne }
    ensures texts { RunTextsAreOne }
{
    inputs_texts_have_one_reading();
}

/// The schedule that a text of a run tells is replayed to the results of the text, by however many workers the run was made.
pub fn told_schedules_replay()
    ensures { ToldSchedulesReplay }
{
    inputs_texts_have_one_reading();
    one_answer();
}

/// What goes on from a saved state of a run, as `save_text` gives it, has the answer of the run with the same limit and count,
/// but for want of memory, where neither cycles nor firings are told.
pub fn resumes_show_runs()
    ensures runs { ResumesShowRuns }
    ensures saved { SavedRunsResume }
{
    inputs_texts_have_one_reading();
    completion();
    resumed_as_run();
    texts_spell_one_state();
}
