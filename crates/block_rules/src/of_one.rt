//! What an operation on one value becomes.
ghost use Rattle.std.specs.Prelude.{◌≡◌};
ghost use Rattle.block_rules.specs.OneRules.{zero_of_kind, zero_of_step, one_change};

use crate::change::Change;
use crate::kind::{Kind, Word, is_zero_test};
use crate::reading::{constant, step_of, test};
use ir::{Instr, Op1};
use word_ops::apply1;

/// What an operation on one value becomes.
#[tactic(auto, unfolding(crate::specs::OneRules::one_change))]
pub(crate) fn change_one(args: u32, steps: &[Instr], op: Op1, operand: u32) -> Change
    ensures { result ≡ one_change args steps.now op operand }
{
    match constant(args, steps, operand) {
        Some(value) => Change::Becomes(Instr::Const {
            width: op.result_width(),
            value: apply1(op, value),
        }),
        None => if is_zero_test(op) {
            change_zero(args, steps, step_of(args, steps, operand))
        } else {
            Change::Stays
        },
    }
}

/// The test for 0 of the value of a step.
fn change_zero(args: u32, steps: &[Instr], step: Option<Instr>) -> Change
    ensures { result ≡ zero_of_step args steps.now step }
{
    match step {
        Some(Instr::One(op, operand)) => if is_zero_test(op) && test(args, steps, operand) {
            Change::Is(operand)
        } else {
            Change::Stays
        },
        Some(Instr::Two(op, left, right)) => change_zero_of(
            Kind::of(op),
            Word::of(op.operand_width()),
            left,
            right,
        ),
        None
        | Some(Instr::Const { .. })
        | Some(Instr::Select { .. })
        | Some(Instr::Load { .. })
        | Some(Instr::Store { .. }) => Change::Stays,
    }
}

/// The test for 0 of a comparison.
#[tactic(auto, unfolding(crate::specs::OneRules::zero_of_kind))]
fn change_zero_of(kind: Kind, word: Word, left: u32, right: u32) -> Change
    ensures { result ≡ zero_of_kind kind word left right }
{
    match kind {
        Kind::Eq => Change::Becomes(Instr::Two(Kind::Ne.on(word), left, right)),
        Kind::Ne => Change::Becomes(Instr::Two(Kind::Eq.on(word), left, right)),
        Kind::Ltu => Change::Becomes(Instr::Two(Kind::Leu.on(word), right, left)),
        Kind::Leu => Change::Becomes(Instr::Two(Kind::Ltu.on(word), right, left)),
        Kind::Lts => Change::Becomes(Instr::Two(Kind::Les.on(word), right, left)),
        Kind::Les => Change::Becomes(Instr::Two(Kind::Lts.on(word), right, left)),
        Kind::Add
        | Kind::Sub
        | Kind::Mul
        | Kind::And
        | Kind::Or
        | Kind::Xor
        | Kind::Shl
        | Kind::Shru
        | Kind::Shrs
        | Kind::Divu
        | Kind::Remu
        | Kind::Divs
        | Kind::Rems => Change::Stays,
    }
}
