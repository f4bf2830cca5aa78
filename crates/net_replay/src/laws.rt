//! Laws of replays and of the runner, as contracts of functions that do nothing.
ghost use Rattle.net_replay.specs.Laws.{OneAnswer, OneEnd, LimitIsOfTheNet};
ghost use Rattle.net_replay.specs.Readings.{OneSchedule};

use net_core::{completion, limit_decides};

/// A list of firings is a run, or it fails at one firing: never both, and at no other firing.
pub fn one_answer()
    ensures { OneAnswer }
{}

/// Where some run of a checked net ends at rest, each run that is finished within as many firings rests in that state after
/// as many firings, and is cut by each lower limit. And whether a limit cuts depends on the net and its inputs alone.
pub fn one_end()
    ensures rest { OneEnd }
    ensures limit { LimitIsOfTheNet }
{
    completion();
    limit_decides();
}

/// A text is the schedule of one list of firings at most.
pub fn one_schedule()
    ensures { OneSchedule }
{}
