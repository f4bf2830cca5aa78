//! States as plain data.

ghost use Rattle.std.specs.Prelude.{◌≡◌, ◌<◌, ◌++◌, ℕ, false, true, get_or, length, map, IfOk, OnOk};
ghost use Rattle.el_base.specs.Limits.{IsNumbered};
ghost use Rattle.net_types.specs.declared.net.Unit.TheVariants.{Sink};
ghost use Rattle.net_core.specs.declared.cell.Cell.TheVariants.{Plain};
ghost use Rattle.net_core.specs.Fire.{opened};
ghost use Rattle.net_core.specs.Parts.{OwnStands, SentFits, with_bits};
ghost use Rattle.net_core.specs.Plans.{keeps, own_of, IsShaped};
ghost use Rattle.net_core.specs.States.{queue_array};
ghost use Rattle.net_core.specs.private.Restores.{AreOfUnits, AreRestored, HasFewBits, IsRestored, fired_in, queue_part, sent_part};

use crate::cell::Cell;
use crate::sent::Sent;
use lsq_core::QueuePart;
use net_types::{Inputs, List, Memory, Unit};
use std::alloc::Global;

/// A state as plain data.
///
/// `given` has the scalars of the inputs, and the arrays as they stand. Tokens go by channel, oldest first. `sent` has for each
/// fork the numbers of the outputs that its head was sent on, ascending; `fired` tells of each entry, parameter and exit
/// whether it has; `queues` has the entries of each queue. These three go by unit, and are empty or `false` of other units.
/// `value` is the result that the exit took. `strays` go by array.
pub struct Parts {
    pub given: Inputs,
    pub tokens: List<List<u64>>,
    pub sent: List<List<u32>>,
    pub fired: List<bool>,
    pub value: Option<u64>,
    pub queues: List<QueuePart>,
    pub strays: List<u64>,
}

// By hand, so that to let go of one is a call.
impl Drop for Parts {
    fn drop(self) {
        let Parts {
            given: _given,
            tokens: _tokens,
            sent: _sent,
            fired: _fired,
            value: _value,
            queues: _queues,
            strays: _strays,
        } = self;
    }
}

impl Cell {
    /// Gives a cell in its opening state what its unit keeps by these data. It takes no memory.
    fn restore(&mut self, parts: &Parts, unit: &Unit, number: u32)
        requires kept { keeps unit.now self.old ≡ true }
        requires shaped { IsShaped unit.now self.old (queue_array self.old) }
        requires own { own_of self.old ≡ opened unit.now }
        requires stands { OwnStands unit.now parts.now number }
        ensures { IsRestored parts.now number unit.now self.old self.new }
    {
        let at = number as usize;
        match self {
            Cell::Plain => {}
            Cell::Start { fired } => *fired = flag_at(parts.fired.as_slice(), at),
            Cell::Exit { fired, value } => {
                *fired = flag_at(parts.fired.as_slice(), at);
                *value = parts.value;
            }
            Cell::Fork(sent) => {
                if at < parts.sent.len() {
                    send_all(sent, parts.sent.as_slice()[at].as_slice());
                }
            }
            Cell::Queue(queue) => {
                if at < parts.queues.len() {
                    queue.restore(&parts.queues.as_slice()[at]);
                }
            }
        }
    }

    /// The outputs that a fork has sent its head on, ascending; none of another unit.
    fn sent_outs(&self, alloc: Global) -> Result<List<u32>, Memory>
        requires { HasFewBits self.now }
        ensures { IfOk result (λ l. l ≡ sent_part self.now) }
    {
        match self {
            Cell::Fork(sent) => sent.outs(alloc),
            _ => Ok(List::new(alloc)),
        }
    }

    /// The entries of a queue; none of another unit.
    fn part(&self, alloc: Global) -> Result<QueuePart, Memory>
        ensures { IfOk result (λ p. p ≡ queue_part self.now) }
    {
        match self {
            Cell::Queue(queue) => queue.part(alloc),
            _ => Ok(QueuePart {
                next: 0,
                entries: List::new(alloc),
            }),
        }
    }
}

/// The flag at a place; `false` past the flags.
fn flag_at(flags: &[bool], at: usize) -> bool
    ensures { result ≡ get_or flags.now at false }
{
    at < flags.len() && flags[at]
}

/// Sends on these outputs, of which none has been sent on.
fn send_all(sent: &mut Sent, outs: &[u32])
    requires none { (j : ℕ) → get_or sent.old j false ≡ false }
    requires fits { SentFits (length sent.old) outs.now }
    ensures { sent.new ≡ with_bits outs.now sent.old }
{
    for out in outs {
        sent.send(*out);
    }
}

/// Gives cells in their opening state what their units keep by these data. It takes no memory.
pub(crate) fn restore_cells(cells: &mut Vec<Cell>, units: &[Unit], parts: &Parts)
    requires numbered { IsNumbered (length units.now) }
    requires of { AreOfUnits units.now cells.old.items }
    requires own { map own_of cells.old.items ≡ map opened units.now }
    requires stands { (u : ℕ) → u < length units.now
        → OwnStands (get_or units.now u (Sink 0)) parts.now u }
    ensures { AreRestored parts.now units.now cells.old.items cells.new.items }
{
    for at in 0..units.len() {
        cells[at].restore(parts, &units[at], at as u32);
    }
}

/// Of each unit the outputs that it has sent its head on.
///
/// # Errors
///
/// [`Memory`] where memory is wanting.
pub(crate) fn sent_parts(alloc: Global, cells: &[Cell]) -> Result<List<List<u32>>, Memory>
    requires { (u : ℕ) → HasFewBits (get_or cells.now u Plain) }
    ensures { IfOk result (λ l. l ≡ map sent_part cells.now) }
{
    let mut parts = List::new(alloc);
    for cell in cells {
        parts.push(cell.sent_outs(alloc)?)?;
    }
    Ok(parts)
}

/// Of each unit whether it has fired, where it notes that.
///
/// # Errors
///
/// [`Memory`] where memory is wanting.
pub(crate) fn fired_flags(alloc: Global, cells: &[Cell]) -> Result<List<bool>, Memory>
    ensures { IfOk result (λ l. l ≡ map fired_in cells.now) }
{
    let mut flags = List::new(alloc);
    for cell in cells {
        flags.push(cell.fired())?;
    }
    Ok(flags)
}

/// Of each unit its queue.
///
/// # Errors
///
/// [`Memory`] where memory is wanting.
pub(crate) fn queue_parts(alloc: Global, cells: &[Cell]) -> Result<List<QueuePart>, Memory>
    ensures { IfOk result (λ l. l ≡ map queue_part cells.now) }
{
    let mut parts = List::new(alloc);
    for cell in cells {
        parts.push(cell.part(alloc)?)?;
    }
    Ok(parts)
}

/// Adds items at the end of a list.
///
/// # Errors
///
/// [`Memory`] where memory is wanting.
pub(crate) fn append(list: &mut List<u64>, items: &[u64]) -> Result<(), Memory>
    ensures { OnOk result (list.new ≡ list.old ++ items.now) }
{
    for item in items {
        list.push(*item)?;
    }
    Ok(())
}

/// The items of one slice and then those of another.
///
/// # Errors
///
/// [`Memory`] where memory is wanting.
pub(crate) fn joined(alloc: Global, first: &[u64], second: &[u64]) -> Result<List<u64>, Memory>
    ensures { IfOk result (λ l. l ≡ first.now ++ second.now) }
{
    let mut list = List::new(alloc);
    append(&mut list, first)?;
    append(&mut list, second)?;
    Ok(list)
}
