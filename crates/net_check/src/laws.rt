//! Laws of the rules, for every net: each is the contract of a function that does nothing.
ghost use Rattle.net_check.specs.Laws.{AllRulesCheck, CheckedKeepsAll, CyclesAreEndless, EndlessHasCycle, NoCycleIsNoneEndless, OneRefusal, CheckedIsNotRefused, EndsAreOfUnits, TimesBreakTwoRules, TwoRulesCheckAgain};

/// A net that keeps the eight rules is what [`crate::check_net`] makes a [`crate::Checked`] of, and no other is.
pub fn all_rules_make_a_checked_net()
    ensures checked { AllRulesCheck }
    ensures kept { CheckedKeepsAll }
{}

/// The cycles of channels of delay 0 are there where one can walk backward over such channels without end.
pub fn cycles_are_endless_walks()
    ensures endless { CyclesAreEndless }
    ensures cycle { EndlessHasCycle }
    ensures none { NoCycleIsNoneEndless }
{}

/// A net is refused by one rule at most, which names one thing, and not at all where it is a checked one.
pub fn a_net_has_one_refusal()
    ensures one { OneRefusal }
    ensures none { CheckedIsNotRefused }
{}

/// Slots and delays are read by C3 and C4 alone: two nets that are equal but for these keep the other rules together. So a
/// checked net with other slots and delays is a checked one where it keeps C3 and C4.
pub fn slots_and_delays_break_two_rules()
    ensures other { TimesBreakTwoRules }
    ensures again { TwoRulesCheckAgain }
{}

/// Where C1 is kept, both units of each channel are units of the net.
pub fn channels_end_at_units()
    ensures { EndsAreOfUnits }
{}
