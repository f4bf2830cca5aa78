//! Which value or which steps a pure step becomes.
ghost use Rattle.std.specs.Prelude.{◌≡◌, ◌+◌, IfOk, length};
ghost use Rattle.el_base.specs.Limits.{IsNumbered};
ghost use Rattle.block_rules.specs.Rules.{rewritten, changed, two_change, division_of, divided_by};

use crate::change::{Change, rewriting};
use crate::division::{Division, divide};
use crate::kind::{Kind, Word};
use crate::of_one::change_one;
use crate::of_select::change_select;
use crate::of_two::change_two;
use crate::reading::{constant, test};
use crate::top::{narrow, top};
use ir::{Instr, List, Memory, Op2};
use std::alloc::Global;

/// What a pure step becomes.
#[derive(Drop)]
pub enum Rewriting {
    /// No rule applies: the step stays.
    Kept,
    /// It is that value of the block.
    Value(u32),
    /// It is the last of these steps. Values numbered past those of the block are those of the steps themselves, in order.
    Steps(List<Instr>),
}

/// A condition that decides as another does, with its sides changed where `turned`.
#[derive(Clone, Copy)]
pub struct Condition {
    pub value: u32,
    pub turned: bool,
}

/// What a pure step behind the steps of a block with that many arguments becomes.
///
/// # Errors
///
/// [`Memory`] where memory is wanting.
#[tactic(auto, unfolding(crate::specs::Rules::rewritten))]
pub fn rewrite(alloc: Global, args: u32, steps: &[Instr], step: Instr) -> Result<Rewriting, Memory>
    requires { IsNumbered (args + length steps.now) }
    ensures { IfOk result (λ r. r ≡ rewritten args steps.now step) }
{
    match change(args, steps, step) {
        Change::Stays => divide_step(alloc, args, steps, step),
        Change::Is(value) => rewriting(alloc, Change::Is(value)),
        Change::Becomes(new) => rewriting(alloc, Change::Becomes(new)),
        Change::BecomesTwo(first, second) => rewriting(alloc, Change::BecomesTwo(first, second)),
    }
}

#[tactic(auto, unfolding(crate::specs::Rules::changed))]
fn change(args: u32, steps: &[Instr], step: Instr) -> Change
    requires { IsNumbered (args + length steps.now) }
    ensures { result ≡ changed args steps.now step }
{
    match step {
        Instr::Const { .. } | Instr::Load { .. } | Instr::Store { .. } => Change::Stays,
        Instr::One(op, operand) => change_one(args, steps, op, operand),
        Instr::Two(op, left, right) => by_two(args, steps, op, left, right),
        Instr::Select {
            width,
            cond,
            yes,
            no,
        } => change_select(args, steps, width, cond, yes, no),
    }
}

#[tactic(auto, unfolding(crate::specs::Rules::two_change))]
fn by_two(args: u32, steps: &[Instr], op: Op2, left: u32, right: u32) -> Change
    requires { IsNumbered (args + length steps.now) }
    ensures { result ≡ two_change args steps.now op left right }
{
    let next = args + steps.len() as u32;
    let x = constant(args, steps, left);
    let y = constant(args, steps, right);
    change_two(op, next, left, right, x, y, test(args, steps, left))
}

/// A division by a constant, to which no other rule applies.
#[tactic(auto, unfolding(crate::specs::Rules::division_of))]
fn divide_step(alloc: Global, args: u32, steps: &[Instr], step: Instr) -> Result<Rewriting, Memory>
    requires { IsNumbered (args + length steps.now) }
    ensures { IfOk result (λ r. r ≡ division_of args steps.now step) }
{
    match step {
        Instr::Two(op, left, right) => match constant(args, steps, right) {
            None => Ok(Rewriting::Kept),
            Some(divisor) => divide_by(alloc, args, steps, op, left, right, divisor),
        },
        Instr::Const { .. }
        | Instr::One(_, _)
        | Instr::Select { .. }
        | Instr::Load { .. }
        | Instr::Store { .. } => Ok(Rewriting::Kept),
    }
}

/// By the constant that the value `right` is.
#[tactic(auto, unfolding(crate::specs::Rules::divided_by))]
fn divide_by(
    alloc: Global,
    args: u32,
    steps: &[Instr],
    op: Op2,
    left: u32,
    right: u32,
    divisor: u64,
) -> Result<Rewriting, Memory>
    requires { IsNumbered (args + length steps.now) }
    ensures { IfOk result (λ r. r ≡ divided_by args steps.now op left right divisor) }
{
    let kind = Kind::of(op);
    let word = Word::of(op.operand_width());
    let next = args + steps.len() as u32;
    if kind.is_division() && 1 < divisor && divisor < word.half() && next < 0xffff_fff0 {
        let top = narrow(word.bits(), top(8, args, steps, left));
        divide(
            alloc,
            kind,
            word,
            Division {
                next,
                left,
                right,
                divisor,
                top,
            },
        )
    } else {
        Ok(Rewriting::Kept)
    }
}
