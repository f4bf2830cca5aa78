//! What a choice becomes.
ghost use Rattle.std.specs.Prelude.{◌≡◌, ◌==◌, ◌&&◌};
ghost use Rattle.block_rules.specs.Reading.{const_at};
ghost use Rattle.block_rules.specs.SelectRules.{chosen_by, chosen_on, select_change};

use crate::change::Change;
use crate::conditions::{is, strip};
use crate::reading::{constant, test};
use crate::rewriting::Condition;
use ir::{Instr, Op1};

/// What the choice of a width between two values becomes.
#[tactic(auto, unfolding(crate::specs::SelectRules::select_change))]
pub(crate) fn change_select(
    args: u32,
    steps: &[Instr],
    width: u32,
    cond: u32,
    yes: u32,
    no: u32,
) -> Change
    ensures { result ≡ select_change args steps.now width cond yes no }
{
    choose_on(args, steps, width, cond, strip(args, steps, cond), yes, no)
}

/// By a stripped condition; it was `old`.
#[tactic(auto, unfolding(crate::specs::SelectRules::chosen_on))]
fn choose_on(
    args: u32,
    steps: &[Instr],
    width: u32,
    old: u32,
    cond: Condition,
    yes: u32,
    no: u32,
) -> Change
    ensures { result ≡ chosen_on args steps.now width old cond yes no }
{
    let one = if cond.turned { no } else { yes };
    let other = if cond.turned { yes } else { no };
    match constant(args, steps, cond.value) {
        Some(value) => Change::Is(if value == 0 { other } else { one }),
        None => choose(args, steps, width, old, cond.value, one, other),
    }
}

/// By a condition that is no constant; it was `old`.
#[tactic(auto, unfolding(crate::specs::SelectRules::chosen_by))]
fn choose(args: u32, steps: &[Instr], width: u32, old: u32, cond: u32, yes: u32, no: u32) -> Change
    ensures { result ≡ chosen_by args steps.now width old cond yes no }
{
    let one = constant(args, steps, yes);
    let other = constant(args, steps, no);
    if yes == no {
        Change::Is(yes)
    } else if width == 32 && is(one, 1) && is(other, 0) && test(args, steps, cond) {
        Change::Is(cond)
    } else if width == 32 && is(one, 0) && is(other, 1) {
        Change::Becomes(Instr::One(Op1::Zero32, cond))
    } else if cond == old {
        Change::Stays
    } else {
        Change::Becomes(Instr::Select {
            width,
            cond,
            yes,
            no,
        })
    }
}
