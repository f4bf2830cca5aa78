//! Conditions without tests around them that only turn them or leave them as they are.
ghost use Rattle.std.specs.Prelude.{◌≡◌};
ghost use Rattle.block_rules.specs.Reading.{step_at, const_at};
ghost use Rattle.block_rules.specs.Conditions.{is_constant, inside, within, peeled, stripped};

use crate::kind::{Kind, is_zero_test};
use crate::reading::{constant, step_of};
use crate::rewriting::Condition;
use ir::Instr;

/// Whether it is that constant.
pub(crate) fn is(constant: Option<u64>, number: u64) -> bool
    ensures { result ≡ is_constant number constant }
{
    match constant {
        None => false,
        Some(value) => value == number,
    }
}

/// The condition inside a test that only turns it or leaves it as it is.
fn condition_inside(args: u32, steps: &[Instr], step: Option<Instr>) -> Option<Condition>
    ensures { result ≡ inside args steps.now step }
{
    match step {
        Some(Instr::One(op, value)) if is_zero_test(op) && op.operand_width() == 32 => Some(
            Condition {
                value,
                turned: true,
            },
        ),
        Some(Instr::Two(op, value, other))
            if Kind::of(op).is_unequal()
                && op.operand_width() == 32
                && is(constant(args, steps, other), 0) => Some(Condition {
            value,
            turned: false,
        }),
        _ => None,
    }
}

/// The condition without the outermost test around it.
#[tactic(auto, unfolding(crate::specs::Conditions::peeled))]
fn peel(args: u32, steps: &[Instr], condition: Condition) -> Condition
    ensures { result ≡ peeled args steps.now condition }
{
    match condition_inside(args, steps, step_of(args, steps, condition.value)) {
        None => condition,
        Some(inside) => Condition {
            value: inside.value,
            turned: if inside.turned {
                !condition.turned
            } else {
                condition.turned
            },
        },
    }
}

/// The condition without the first eight tests around it that only turn it or leave it as it is.
#[tactic(auto, using(crate::proofs::Peeling::one_more, crate::proofs::Peeling::none_left), unfolding(crate::specs::Conditions::stripped))]
pub fn strip(args: u32, steps: &[Instr], condition: u32) -> Condition
    ensures { result ≡ stripped args steps.now condition }
{
    let mut stripped = Condition {
        value: condition,
        turned: false,
    };
    for _ in 0..8u32 {
        stripped = peel(args, steps, stripped);
    }
    stripped
}
