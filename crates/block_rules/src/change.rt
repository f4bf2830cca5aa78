//! What a rule makes of a pure step.
ghost use Rattle.std.specs.Prelude.{◌≡◌, IfOk};
ghost use Rattle.block_rules.specs.Changes.{rewriting_of};

use crate::rewriting::Rewriting;
use ir::{Instr, List, Memory};
use std::alloc::Global;

/// What a rule makes of a pure step.
#[derive(Clone, Copy)]
pub(crate) enum Change {
    /// The step stays.
    Stays,
    /// It is that value.
    Is(u32),
    /// It is that step.
    Becomes(Instr),
    /// It is the second of these steps, behind the first.
    BecomesTwo(Instr, Instr),
}

/// The change as a rewriting.
///
/// # Errors
///
/// [`Memory`] where memory is wanting.
pub(crate) fn rewriting(alloc: Global, change: Change) -> Result<Rewriting, Memory>
    ensures { IfOk result (λ r. r ≡ rewriting_of change) }
{
    match change {
        Change::Stays => Ok(Rewriting::Kept),
        Change::Is(value) => Ok(Rewriting::Value(value)),
        Change::Becomes(step) => {
            let mut steps = List::new(alloc);
            steps.push(step)?;
            Ok(Rewriting::Steps(steps))
        }
        Change::BecomesTwo(first, second) => {
            let mut steps = List::new(alloc);
            steps.push(first)?;
            steps.push(second)?;
            Ok(Rewriting::Steps(steps))
        }
    }
}
