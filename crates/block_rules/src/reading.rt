//! What the steps of a block say of its values.
ghost use Rattle.std.specs.Prelude.{◌≡◌};
ghost use Rattle.block_rules.specs.Reading.{step_at, const_at, is_test};

use crate::kind::{Kind, is_zero_test};
use ir::Instr;

/// The step that makes a value; an argument has none.
pub(crate) fn step_of(args: u32, steps: &[Instr], value: u32) -> Option<Instr>
    ensures { result ≡ step_at args steps.now value }
{
    if value < args {
        return None;
    }
    steps.get((value - args) as usize).copied()
}

/// The constant that a value is, if it is one.
#[tactic(auto, unfolding(crate::specs::Reading::const_at))]
pub(crate) fn constant(args: u32, steps: &[Instr], value: u32) -> Option<u64>
    ensures { result ≡ const_at args steps.now value }
{
    match step_of(args, steps, value) {
        Some(Instr::Const { width: _, value }) => Some(value),
        None
        | Some(Instr::One(_, _))
        | Some(Instr::Two(_, _, _))
        | Some(Instr::Select { .. })
        | Some(Instr::Load { .. })
        | Some(Instr::Store { .. }) => None,
    }
}

/// Whether a value is a comparison's or a test's for 0.
#[tactic(auto, unfolding(crate::specs::Reading::is_test))]
pub(crate) fn test(args: u32, steps: &[Instr], value: u32) -> bool
    ensures { result ≡ is_test args steps.now value }
{
    match step_of(args, steps, value) {
        Some(Instr::One(op, _)) => is_zero_test(op),
        Some(Instr::Two(op, _, _)) => Kind::of(op).is_comparison(),
        None
        | Some(Instr::Const { .. })
        | Some(Instr::Select { .. })
        | Some(Instr::Load { .. })
        | Some(Instr::Store { .. }) => false,
    }
}
