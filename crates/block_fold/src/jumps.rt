//! Jumps on values under new numbers, decided where their conditions are constants.
ghost use Rattle.std.specs.Prelude.{◌≡◌, ◌+◌, length, map, IfOk};
ghost use Rattle.el_base.specs.Limits.{IsNumbered};
ghost use Rattle.block_merge.specs.Renamed.{renamed_to};
ghost use Rattle.block_fold.specs.Numbers.{renumbered};
ghost use Rattle.block_fold.specs.Jumps.{same_target, decided, decided_by, folded_jump};

use crate::numbers::{const_at, renumbered};
use block_rules::{Condition, strip};
use ir::{Instr, Jump, List, Memory, To};
use std::alloc::Global;

/// The jump of a block with so many arguments and these steps, where its old values have these numbers.
pub(crate) fn folded_jump(
    alloc: Global,
    args: u32,
    steps: &[Instr],
    numbers: &[u32],
    jump: &Jump,
) -> Result<Jump, Memory>
    requires { IsNumbered (args + length steps.now) }
    ensures { IfOk result (λ j. j ≡ folded_jump args steps.now (renumbered args numbers.now) jump.now) }
{
    match jump {
        Jump::Go(to) => Ok(Jump::Go(target(alloc, args, numbers, to)?)),
        Jump::Two { cond, yes, no } => {
            let condition = strip(args, steps, renumbered(args, numbers, *cond));
            let yes = target(alloc, args, numbers, yes)?;
            let no = target(alloc, args, numbers, no)?;
            Ok(decided_by(args, steps, condition, yes, no))
        }
        Jump::Return(Some(value)) => Ok(Jump::Return(Some(renumbered(args, numbers, *value)))),
        Jump::Return(None) => Ok(Jump::Return(None)),
    }
}

/// The target with what it is handed under new numbers.
fn target(alloc: Global, args: u32, numbers: &[u32], to: &To) -> Result<To, Memory>
    ensures { IfOk result (λ t. t ≡ renamed_to (renumbered args numbers.now) to.now) }
{
    Ok(To {
        block: to.block,
        with: values(alloc, args, numbers, to.with.as_slice())?,
    })
}

/// The values under their new numbers.
fn values(alloc: Global, args: u32, numbers: &[u32], values: &[u32]) -> Result<List<u32>, Memory>
    ensures { IfOk result (λ vs. vs ≡ map (renumbered args numbers.now) values.now) }
{
    let mut all = List::new(alloc);
    for value in values {
        all.push(renumbered(args, numbers, *value))?;
    }
    Ok(all)
}

/// Whether two targets are the same block with the same values.
fn same_target(a: &To, b: &To) -> bool
    ensures { result ≡ same_target a.now b.now }
{
    a.block == b.block && a.with.as_slice() == b.with.as_slice()
}

/// The jump on a condition that may be this constant.
fn decided(cond: u32, yes: To, no: To, constant: Option<u64>) -> Jump
    ensures { result ≡ decided cond yes no constant }
{
    match constant {
        Some(0) => Jump::Go(no),
        Some(_) => Jump::Go(yes),
        None => {
            if same_target(&yes, &no) {
                Jump::Go(yes)
            } else {
                Jump::Two { cond, yes, no }
            }
        }
    }
}

/// The jump on a stripped condition.
fn decided_by(args: u32, steps: &[Instr], condition: Condition, yes: To, no: To) -> Jump
    ensures { result ≡ decided_by args steps.now condition yes no }
{
    let constant = const_at(args, steps, condition.value);
    if condition.turned {
        decided(condition.value, no, yes, constant)
    } else {
        decided(condition.value, yes, no, constant)
    }
}
