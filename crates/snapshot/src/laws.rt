//! Laws, as contracts of functions that do nothing.
ghost use Rattle.snapshot.specs.Laws.{FitsStay, OneForm, OpeningFits, PartsFit, ResumesAsRun, RunsFit, SavedCountsFit, SnapshotsHaveOneAnswer, TextsSpellOneState};

use lsq_core::acts_keep_a_queue;
use net_core::{completion, limit_decides};
use word_ops::laws::results_are_patterns;

/// The opening state of a net on inputs has data that may be saved.
pub fn opening_fits()
    ensures { OpeningFits }
{}

/// A firing leads from a state that has data that may be saved to one that has, where its counts are within the limit.
pub fn fits_stay()
    ensures { FitsStay }
{
    results_are_patterns();
    acts_keep_a_queue();
}

/// A state that a run leads to has data that may be saved.
pub fn runs_fit()
    ensures { RunsFit }
{
    results_are_patterns();
    acts_keep_a_queue();
}

/// A state has one form of data, which may be saved where any data of it may.
pub fn one_form()
    ensures one { OneForm }
    ensures fit { PartsFit }
{}

/// The serial numbers and strays of a state that may be saved are within what is saved.
pub fn saved_counts_fit()
    ensures { SavedCountsFit }
{}

/// What is resumed from a state of a run goes as the run.
pub fn resumed_as_run()
    ensures { ResumesAsRun }
{
    completion();
    limit_decides();
}

/// A text is that of one state of a net that may be saved, and the reader has one answer to it, want of memory aside.
pub fn texts_spell_one_state()
    ensures one { TextsSpellOneState }
    ensures answer { SnapshotsHaveOneAnswer }
{}
