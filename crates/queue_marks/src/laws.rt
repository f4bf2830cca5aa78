//! Laws of the mark, each as the contract of a function that does nothing.
ghost use Rattle.queue_marks.specs.Laws.{
  MarksAllowRuns,
  MarksEndAlike,
  MarksKeepChecked,
  MarksKeepRules,
  MarksKeepUntimed,
  QueuesHaveMark,
};

use net_check::all_rules_make_a_checked_net;

/// Each list of firings that a net goes along is one that the net with the mark on every queue goes along, to the same
/// state but for the marks. Where that state leaves nothing to do in the one it does so in the other, and the exit took the
/// same.
pub fn marks_allow_runs()
    ensures runs { MarksAllowRuns }
    ensures ends { MarksEndAlike }
{}

/// The net with the mark on every queue keeps each rule that the net keeps.
pub fn marks_keep_rules()
    ensures rules { MarksKeepRules }
    ensures untimed { MarksKeepUntimed }
    ensures checked { MarksKeepChecked }
{
    all_rules_make_a_checked_net();
}

/// In the net with the mark on every queue each queue has it.
pub fn queues_have_the_mark()
    ensures { QueuesHaveMark }
{}
