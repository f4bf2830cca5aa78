//! The state that the lines of a text have told so far.
ghost use Rattle.std.specs.Prelude.{◌≡◌, ◌∷◌, ◌+◌, ◌-◌, ◌<◌, [], false, IfOk, length, map, replicate, set};
ghost use Rattle.net_core.specs.Parts.{no_part};
ghost use Rattle.snapshot.specs.declared.draft.Stage.TheVariants.{First};
ghost use Rattle.snapshot.specs.private.Words.{fresh_run};
ghost use Rattle.snapshot.specs.private.Drafts.{blank_parts, zero_elements};

use crate::saved::Saved;
use el_base::{Array, List, Memory};
use lsq_core::{Entry, QueuePart};
use net_core::Parts;
use net_types::{Inputs, Net};
use std::alloc::Global;

/// How far a text has come: which line may be next.
#[derive(Clone, Copy)]
pub(crate) enum Stage {
    /// The first line.
    First,
    /// That of the firings made.
    Made,
    /// That of the scalar of this number.
    Scalars(usize),
    /// That of a unit that has fired, from this number on, or a later one.
    Fired(usize),
    /// That of the tokens of a channel, from this number on, or a later one.
    Chans(usize),
    /// That of a fork, from this number on, or a later one.
    Forks(usize),
    /// That of the next queue, from this unit on, or a later one where there is none.
    Queues(usize),
    /// That of the first entry of this queue, or a later one.
    Opened(usize),
    /// That of the entry of this place of this queue, or a later one where it has none there.
    Entries(usize, usize),
    /// That of the array of this number.
    Arrays(usize),
    /// That of the strays of the array of this number.
    Strays(usize),
    /// None.
    Ended,
}

/// The stage, and the state of the lines so far. Of what they have not told it has the plainest: it may be saved at each stage,
/// and its text begins with these lines.
#[derive(Drop)]
pub(crate) struct Draft {
    pub stage: Stage,
    pub saved: Saved,
}

/// The draft before the first line.
///
/// # Errors
///
/// [`Memory`] where memory is wanting.
pub(crate) fn blank(alloc: Global, net: &Net) -> Result<Draft, Memory>
    ensures stage { IfOk result (λ d. d.stage ≡ First) }
    ensures saved { IfOk result
        (λ d. d.saved ≡ record { made = 0; parts = blank_parts net.now }) }
{
    let given = zero_inputs(alloc, net)?;
    let tokens = empty_lists(alloc, net.chans.as_slice().len())?;
    let strays = zeros(alloc, net.arrays.as_slice().len() as u64)?;
    let (sent, fired, queues) = blank_units(alloc, net.units.as_slice().len())?;
    let parts = Parts {
        given,
        tokens,
        sent,
        fired,
        value: None,
        queues,
        strays,
    };
    Ok(Draft {
        stage: Stage::First,
        saved: Saved { made: 0, parts },
    })
}

/// Inputs that are zeros.
fn zero_inputs(alloc: Global, net: &Net) -> Result<Inputs, Memory>
    ensures scalars { IfOk result (λ i. i.scalars ≡ replicate (length net.now.scalars) 0) }
    ensures arrays { IfOk result (λ i. i.arrays ≡ map zero_elements net.now.arrays) }
{
    let scalars = zeros(alloc, net.scalars.as_slice().len() as u64)?;
    let arrays = zero_arrays(alloc, net.arrays.as_slice())?;
    Ok(Inputs { scalars, arrays })
}

/// Of so many units that nothing was sent, that none has fired, and that each queue is empty.
fn blank_units(
    alloc: Global,
    count: usize,
) -> Result<(List<List<u32>>, List<bool>, List<QueuePart>), Memory>
    ensures sent { IfOk result (λ t. t.0 ≡ replicate count []) }
    ensures fired { IfOk result (λ t. t.1 ≡ replicate count false) }
    ensures queues { IfOk result (λ t. t.2 ≡ replicate count no_part) }
{
    let sent = empty_lists(alloc, count)?;
    let fired = flags(alloc, count)?;
    let queues = empty_queues(alloc, count)?;
    Ok((sent, fired, queues))
}

fn zeros(alloc: Global, count: u64) -> Result<List<u64>, Memory>
    ensures { IfOk result (λ l. l ≡ replicate count 0) }
{
    let mut list = List::new(alloc);
    for _ in 0..count {
        list.push(0)?;
    }
    Ok(list)
}

fn flags(alloc: Global, count: usize) -> Result<List<bool>, Memory>
    ensures { IfOk result (λ l. l ≡ replicate count false) }
{
    let mut list = List::new(alloc);
    for _ in 0..count {
        list.push(false)?;
    }
    Ok(list)
}

fn empty_lists<T: Drop>(alloc: Global, count: usize) -> Result<List<List<T>>, Memory>
    ensures { IfOk result (λ l. l ≡ replicate count []) }
{
    let mut list = List::new(alloc);
    for _ in 0..count {
        list.push(List::new(alloc))?;
    }
    Ok(list)
}

fn empty_queues(alloc: Global, count: usize) -> Result<List<QueuePart>, Memory>
    ensures { IfOk result (λ l. l ≡ replicate count no_part) }
{
    let mut list = List::new(alloc);
    for _ in 0..count {
        list.push(QueuePart {
            next: 0,
            entries: List::new(alloc),
        })?;
    }
    Ok(list)
}

fn zero_arrays(alloc: Global, arrays: &[Array]) -> Result<List<List<u64>>, Memory>
    ensures { IfOk result (λ l. l ≡ map zero_elements arrays.now) }
{
    let mut list = List::new(alloc);
    for array in arrays {
        list.push(zeros(alloc, array.len)?)?;
    }
    Ok(list)
}

/// An entry and new ones after it, of port 0, up to the next serial number.
///
/// # Errors
///
/// [`Memory`] where memory is wanting.
pub(crate) fn entries_from(
    alloc: Global,
    first: Entry,
    next: u64,
    store: bool,
) -> Result<List<Entry>, Memory>
    requires { first.serial < next }
    ensures { IfOk result (λ l. l
        ≡ first ∷ fresh_run (first.serial + 1) (next - (first.serial + 1)) store) }
{
    let mut entries = List::new(alloc);
    entries.push(first)?;
    for serial in first.serial + 1..next {
        entries.push(Entry {
            serial,
            port: 0,
            store,
            addr: None,
            datum: None,
            done: false,
            value: 0,
            replied: false,
        })?;
    }
    Ok(entries)
}

/// Puts an entry at a place of a queue.
pub(crate) fn set_entry(queue: &mut QueuePart, at: usize, entry: Entry)
    requires { at < length queue.old.entries }
    ensures { queue.new ≡ record queue.old { entries = set queue.old.entries at entry } }
{
    queue.entries.set(at, entry);
}
