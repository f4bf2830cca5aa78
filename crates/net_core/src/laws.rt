//! Laws of runs, as contracts of functions that do nothing.
ghost use Rattle.net_core.specs.Laws.{OneToken, OneTaker, EitherOrder, Completion, LimitIsLong, RestIsNotLong, Settled};
ghost use Rattle.net_core.specs.Laws.{MoreSlots, SameOpening, OneSlotServes, StaysAtRest, SpentIsAtRest, RowsUseOnly, PlansUse};
ghost use Rattle.net_core.specs.Unchecked.{LawsNeedRules};
ghost use Rattle.net_core.specs.Worked.{WorkedNetsRun};

use lsq_core::{acts_join, acts_keep_a_queue};

/// In every reachable state of a checked net at most one effective control token is left: so at most one input of any
/// control merge, and one group or end of any queue, can be taken next.
pub fn one_token()
    ensures count { OneToken }
    ensures taker { OneTaker }
{
    acts_join();
    acts_keep_a_queue();
}

/// Two different enabled firings of a reachable state of a checked net stay enabled after each other, and both orders
/// lead to one state.
pub fn either_order()
    ensures { EitherOrder }
{
    acts_join();
    acts_keep_a_queue();
}

/// Where one run of a checked net ends at rest, none is longer, and each goes on to as many firings and to that state.
/// There are runs of more than k firings exactly where k is below that number.
pub fn completion()
    ensures { Completion }
{
    acts_join();
    acts_keep_a_queue();
}

/// There is a longer run than a limit allows where as many firings are made and one is enabled, and there is none where
/// a run of a checked net ends at rest within the limit.
pub fn limit_decides()
    ensures long { LimitIsLong }
    ensures short { RestIsNotLong }
{
    acts_join();
    acts_keep_a_queue();
}

/// Once the exit of a checked net has fired, no firing changes an array.
pub fn settled()
    ensures { Settled }
{
    acts_join();
    acts_keep_a_queue();
}

/// A list of firings that is enabled with fewer slots is enabled with more, and leads to the same state; delays ask
/// nothing. So a run of a net of one slot a channel is one of every checked net that is equal but for slots and delays.
pub fn more_slots()
    ensures leads { MoreSlots }
    ensures opening { SameOpening }
    ensures one_slot { OneSlotServes }
    ensures rest { StaysAtRest }
{}

/// A state without tokens on channels and entries in queues, in which the entry and all parameters have fired, is at rest.
pub fn spent_is_at_rest()
    ensures { SpentIsAtRest }
{}

/// What a firing does rests on the heads that it uses.
pub fn rows_use_only()
    ensures { RowsUseOnly }
{}

/// Nets that break a rule, for which laws of checked nets fail: with two entries two merges are enabled of which one
/// shuts the other out, and runs end in different states and after different numbers of firings; with an exit beside the
/// queue an array changes after the exit has fired.
pub fn laws_need_rules()
    ensures { LawsNeedRules }
{}

/// Two worked nets run to rest by the definitions alone: one of operations and a fork, one of a queue, without the
/// mark and with it, within its array and past it.
pub fn worked_nets_run()
    ensures { WorkedNetsRun }
{}

/// A firing looks at the heads that its plan takes; a fork looks at its one input, taken or not.
pub fn plans_use()
    ensures { PlansUse }
{}
