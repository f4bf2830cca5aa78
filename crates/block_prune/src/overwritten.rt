//! Marks on the steps of a block that are no overwritten stores.
ghost use Rattle.std.specs.Prelude.{◌≡◌, IfOk, OnOk};
ghost use Rattle.block_prune.specs.Overwritten.{lasting_marks};
ghost use Rattle.block_prune.specs.Code.{is_pending, lasts, noted};

use ir::{Instr, Memory};
use std::alloc::Global;

/// An array and the value that is an address of it.
#[derive(Clone, Copy)]
struct Place {
    array: u32,
    addr: u32,
}

/// For each step whether it stays: it is no store, or none of the steps behind it overwrites it.
///
/// The time is as the number of steps, and for each load and store as the number of stores behind it.
///
/// # Errors
///
/// [`Memory`] where memory is wanting.
pub(crate) fn lasting_marks(alloc: Global, steps: &[Instr]) -> Result<Vec<bool>, Memory>
    ensures { IfOk result (λ marks. marks.items ≡ lasting_marks steps.now) }
{
    let count = steps.len();
    let mut marks = vec![in alloc; true; count]?;
    let mut pending = Vec::new(alloc);
    for place in (0..count).rev() {
        marks[place] = note(&mut pending, &steps[place])?;
    }
    Ok(marks)
}

// Whether the step stays, where later steps store to these places; notes its own, and forgets those of an array that it loads.
fn note(pending: &mut Vec<Place>, step: &Instr) -> Result<bool, Memory>
    ensures lasts { IfOk result (λ b. b ≡ lasts step.now pending.old.items) }
    ensures noted { OnOk result (pending.new.items ≡ noted step.now pending.old.items) }
{
    match *step {
        Instr::Store {
            array,
            addr,
            value: _,
        } => {
            let lasts = !is_pending(pending, array, addr);
            pending.push(Place { array, addr })?;
            Ok(lasts)
        }
        Instr::Load { array, addr: _ } => {
            pending.retain(|place| place.array != array);
            Ok(true)
        }
        Instr::Const { width: _, value: _ }
        | Instr::One(_, _)
        | Instr::Two(_, _, _)
        | Instr::Select {
            width: _,
            cond: _,
            yes: _,
            no: _,
        } => Ok(true),
    }
}

fn is_pending(pending: &[Place], array: u32, addr: u32) -> bool
    ensures { result ≡ is_pending pending.now array addr }
{
    pending
        .iter()
        .any(|place| place.array == array && place.addr == addr)
}
