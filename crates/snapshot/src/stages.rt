//! Which line may be next, and what it makes of the draft. A line that is none of its stage is tried at the next one, where
//! nothing must come before.
ghost use Rattle.std.specs.Prelude.{◌≡◌, ◌≤◌, ◌<◌, ◌≢◌, ◌↔◌, ℕ, [], IfOk, IsTrue, get_or, length, map};
ghost use Rattle.el_base.specs.Limits.{IsNumbered};
ghost use Rattle.net_types.specs.Nets.{into, kind_of};
ghost use Rattle.net_check.specs.Checks.{IsChecked};
ghost use Rattle.net_check.specs.Ends.{is_lsq};
ghost use Rattle.net_text.specs.Reads.{Reads};
ghost use Rattle.snapshot.specs.Refusals.{MaySave};
ghost use Rattle.snapshot.specs.private.Words.{AreWords, EntryOf, IsFirstQueue, depth_of, entry_words, first_stores, value_after};
ghost use Rattle.snapshot.specs.private.Drafts.{SaysOfLine, BlankChans, BlankFired, BlankForks, BlankScalars, IsOpened, IsQueueAt, Shares, Stands, ToArrays, ToChans, ToEntries, ToFired, ToForks, ToOpened, ToQueues, ToScalars, ToStrays, ToValue, at_arrays, at_chans, at_entries, at_fired, at_forks, at_queues, at_scalars, at_strays, at_value, left_at, line_of_words};

use crate::draft::{Draft, Stage, entries_from, set_entry};
use crate::fields::{after_word, is_store, read_entry};
use crate::lines::{
    is_end, is_exit, is_first, read_array, read_chan, read_fired, read_fork, read_made, read_queue,
    read_scalar, read_stray, read_value,
};
use crate::printer::is_queue;
use el_base::Memory;
use lsq_core::{Entry, QueuePart};
use net_check::Checked;
use net_types::{List, Ty, Unit};
use std::alloc::Global;

/// Adds a line to the draft, by its words, where it may be next; else the draft stays as it is.
///
/// # Errors
///
/// [`Memory`] where memory is wanting.
pub(crate) fn take_line(
    alloc: Global,
    net: &Checked,
    draft: &mut Draft,
    words: &[&[u8]],
) -> Result<bool, Memory>
    requires words { AreWords (map (λ w. w.now) words.now) }
    requires checked { IsChecked net.now }
    requires stands { Stands net.now draft.old }
    ensures { IfOk result (λ t. SaysOfLine net.now (Shares net.now draft.old.stage draft.old.saved)
        (left_at net.now draft.old.stage) (line_of_words (map (λ w. w.now) words.now)) t draft.new) }
{
    match draft.stage {
        Stage::First => {
            if !is_first(words) {
                return Ok(false);
            }
            draft.stage = Stage::Made;
            Ok(true)
        }
        Stage::Made => {
            let Some(made) = read_made(words) else {
                return Ok(false);
            };
            draft.saved.made = made;
            draft.stage = Stage::Scalars(0);
            Ok(true)
        }
        Stage::Scalars(next) => take_scalar(alloc, net, draft, next, words),
        Stage::Fired(from) => take_fired(alloc, net, draft, from, words),
        Stage::Chans(from) => take_chan(alloc, net, draft, from, words),
        Stage::Forks(from) => take_fork(alloc, net, draft, from, words),
        Stage::Queues(from) => take_queue(alloc, net, draft, from, words),
        Stage::Opened(queue) => take_opened(alloc, net, draft, queue, words),
        Stage::Entries(queue, read) => take_entry(alloc, net, draft, queue, read, words),
        Stage::Arrays(next) => take_array(alloc, net, draft, next, words),
        Stage::Strays(next) => Ok(take_stray(net, draft, next, words)),
        Stage::Ended => Ok(false),
    }
}

fn take_scalar(
    alloc: Global,
    net: &Checked,
    draft: &mut Draft,
    next: usize,
    words: &[&[u8]],
) -> Result<bool, Memory>
    requires words { AreWords (map (λ w. w.now) words.now) }
    requires checked { IsChecked net.now }
    requires may { MaySave net.now draft.old.saved }
    requires blank { BlankScalars net.now next draft.old.saved }
    ensures { IfOk result (λ t. SaysOfLine net.now (ToScalars next draft.old.saved)
        (at_scalars net.now next) (line_of_words (map (λ w. w.now) words.now)) t draft.new) }
{
    let scalars = net.net().scalars.as_slice();
    if next >= scalars.len() {
        return take_fired(alloc, net, draft, 0, words);
    }
    let Some(pattern) = read_scalar(&scalars[next], words) else {
        return Ok(false);
    };
    draft.saved.parts.given.scalars.set(next, pattern);
    draft.stage = Stage::Scalars(next + 1);
    Ok(true)
}

fn take_fired(
    alloc: Global,
    net: &Checked,
    draft: &mut Draft,
    from: usize,
    words: &[&[u8]],
) -> Result<bool, Memory>
    requires words { AreWords (map (λ w. w.now) words.now) }
    requires checked { IsChecked net.now }
    requires may { MaySave net.now draft.old.saved }
    requires blank { BlankFired net.now from draft.old.saved }
    ensures { IfOk result (λ t. SaysOfLine net.now (ToFired net.now from draft.old.saved)
        (at_fired net.now from) (line_of_words (map (λ w. w.now) words.now)) t draft.new) }
{
    let units = net.net().units.as_slice();
    let Some(unit) = read_fired(units, from, words) else {
        return take_value(alloc, net, draft, words);
    };
    draft.saved.parts.fired.set(unit, true);
    let value = value_after(net.net().result, &units[unit], draft.saved.parts.value);
    draft.saved.parts.value = value;
    draft.stage = Stage::Fired(unit + 1);
    Ok(true)
}

/// The result after a unit has fired: that of the exit is 0 where it is told by no line yet.
fn value_after(ty: Option<Ty>, unit: &Unit, value: Option<u64>) -> Option<u64>
    ensures { result ≡ value_after ty unit.now value }
{
    if is_exit(unit) && ty.is_some() {
        return Some(0);
    }
    value
}

fn take_value(
    alloc: Global,
    net: &Checked,
    draft: &mut Draft,
    words: &[&[u8]],
) -> Result<bool, Memory>
    requires words { AreWords (map (λ w. w.now) words.now) }
    requires checked { IsChecked net.now }
    requires may { MaySave net.now draft.old.saved }
    requires blank { BlankChans net.now 0 draft.old.saved }
    ensures { IfOk result (λ t. SaysOfLine net.now (ToValue net.now draft.old.saved)
        (at_value net.now) (line_of_words (map (λ w. w.now) words.now)) t draft.new) }
{
    let Some(_) = draft.saved.parts.value else {
        return take_chan(alloc, net, draft, 0, words);
    };
    let Some(value) = read_value(net.net().result, words) else {
        return Ok(false);
    };
    draft.saved.parts.value = Some(value);
    draft.stage = Stage::Chans(0);
    Ok(true)
}

fn take_chan(
    alloc: Global,
    net: &Checked,
    draft: &mut Draft,
    from: usize,
    words: &[&[u8]],
) -> Result<bool, Memory>
    requires words { AreWords (map (λ w. w.now) words.now) }
    requires checked { IsChecked net.now }
    requires may { MaySave net.now draft.old.saved }
    requires blank { BlankChans net.now from draft.old.saved }
    ensures { IfOk result (λ t. SaysOfLine net.now (ToChans net.now from draft.old.saved)
        (at_chans net.now from) (line_of_words (map (λ w. w.now) words.now)) t draft.new) }
{
    let Some((chan, tokens)) = read_chan(alloc, net.net().chans.as_slice(), from, words)? else {
        return take_fork(alloc, net, draft, 0, words);
    };
    draft.saved.parts.tokens.set(chan, tokens);
    draft.stage = Stage::Chans(chan + 1);
    Ok(true)
}

fn take_fork(
    alloc: Global,
    net: &Checked,
    draft: &mut Draft,
    from: usize,
    words: &[&[u8]],
) -> Result<bool, Memory>
    requires words { AreWords (map (λ w. w.now) words.now) }
    requires checked { IsChecked net.now }
    requires may { MaySave net.now draft.old.saved }
    requires blank { BlankForks net.now from draft.old.saved }
    ensures { IfOk result (λ t. SaysOfLine net.now (ToForks net.now from draft.old.saved)
        (at_forks net.now from) (line_of_words (map (λ w. w.now) words.now)) t draft.new) }
{
    let Some((unit, outs)) = read_fork(alloc, net.net().units.as_slice(), from, words)? else {
        return take_queue(alloc, net, draft, 0, words);
    };
    if !has_head(net, draft, unit) {
        return Ok(false);
    }
    draft.saved.parts.sent.set(unit, outs);
    draft.stage = Stage::Forks(unit + 1);
    Ok(true)
}

/// Whether a token stands at the first input of a unit.
fn has_head(net: &Checked, draft: &Draft, unit: usize) -> bool
    requires { IsNumbered unit }
    ensures { IsTrue result
        ↔ get_or draft.now.saved.parts.tokens (into unit 0 net.now.chans) [] ≢ [] }
{
    let chan = net.into_place(unit as u32, 0) as usize;
    let tokens = draft.saved.parts.tokens.as_slice();
    chan < tokens.len() && !tokens[chan].is_empty()
}

/// The first queue from a unit on; the number of units where there is none.
fn queue_from(units: &[Unit], from: usize) -> usize
    requires { from ≤ length units.now }
    ensures { IsFirstQueue units.now from result }
{
    for at in from..units.len() {
        if is_queue(&units[at]) {
            return at;
        }
    }
    units.len()
}

fn take_queue(
    alloc: Global,
    net: &Checked,
    draft: &mut Draft,
    from: usize,
    words: &[&[u8]],
) -> Result<bool, Memory>
    requires words { AreWords (map (λ w. w.now) words.now) }
    requires checked { IsChecked net.now }
    requires may { MaySave net.now draft.old.saved }
    requires within { from ≤ length net.now.units }
    ensures { IfOk result (λ t. SaysOfLine net.now (ToQueues net.now from draft.old.saved)
        (at_queues net.now from) (line_of_words (map (λ w. w.now) words.now)) t draft.new) }
{
    let units = net.net().units.as_slice();
    let queue = queue_from(units, from);
    if queue >= units.len() {
        return take_array(alloc, net, draft, 0, words);
    }
    let Some(next) = read_queue(queue, words) else {
        return Ok(false);
    };
    let entries = List::new(alloc);
    let part = QueuePart { next, entries };
    draft.saved.parts.queues.set(queue, part);
    draft.stage = Stage::Opened(queue);
    Ok(true)
}

/// The entry that words tell of a unit, if that is a queue.
fn read_entry_of(net: &Checked, unit: usize, words: &[&[u8]]) -> Option<Entry>
    requires { unit < length net.now.units }
    ensures { Reads (EntryOf net.now (kind_of net.now unit)) entry_words (map (λ w. w.now) words.now) result }
{
    let net = net.net();
    let rest = after_word(words, b"entry")?;
    match &net.units.as_slice()[unit] {
        Unit::Lsq { array, ports, .. } => {
            let width = net.arrays.as_slice()[*array as usize].ty.width();
            read_entry(width, ports.as_slice(), rest)
        }
        _ => None,
    }
}

/// How many entries a queue may have; 0 of another unit.
fn depth_of(unit: &Unit) -> u64
    ensures { result ≡ depth_of unit.now }
{
    match unit {
        Unit::Lsq { depth, .. } => u64::from(*depth),
        _ => 0,
    }
}

/// Whether the first port of a queue stores.
fn first_stores(unit: &Unit) -> bool
    ensures { result ≡ first_stores unit.now }
{
    match unit {
        Unit::Lsq { ports, .. } => match ports.as_slice().first() {
            Some(port) => is_store(*port),
            None => false,
        },
        _ => false,
    }
}

fn take_opened(
    alloc: Global,
    net: &Checked,
    draft: &mut Draft,
    queue: usize,
    words: &[&[u8]],
) -> Result<bool, Memory>
    requires words { AreWords (map (λ w. w.now) words.now) }
    requires checked { IsChecked net.now }
    requires may { MaySave net.now draft.old.saved }
    requires opened { IsOpened net.now queue draft.old.saved }
    ensures { IfOk result (λ t. SaysOfLine net.now (ToOpened net.now queue draft.old.saved)
        (at_entries net.now queue 0) (line_of_words (map (λ w. w.now) words.now)) t draft.new) }
{
    let Some(entry) = read_entry_of(net, queue, words) else {
        return take_queue(alloc, net, draft, queue + 1, words);
    };
    let unit = &net.net().units.as_slice()[queue];
    let next = draft.saved.parts.queues.as_slice()[queue].next;
    if entry.serial >= next || next - entry.serial > depth_of(unit) {
        return Ok(false);
    }
    let entries = entries_from(alloc, entry, next, first_stores(unit))?;
    let part = QueuePart { next, entries };
    draft.saved.parts.queues.set(queue, part);
    draft.stage = Stage::Entries(queue, 1);
    Ok(true)
}

fn take_entry(
    alloc: Global,
    net: &Checked,
    draft: &mut Draft,
    queue: usize,
    read: usize,
    words: &[&[u8]],
) -> Result<bool, Memory>
    requires words { AreWords (map (λ w. w.now) words.now) }
    requires checked { IsChecked net.now }
    requires may { MaySave net.now draft.old.saved }
    requires queue { IsQueueAt net.now queue }
    ensures { IfOk result (λ t. SaysOfLine net.now (ToEntries net.now queue read draft.old.saved)
        (at_entries net.now queue read) (line_of_words (map (λ w. w.now) words.now)) t draft.new) }
{
    let entries = draft.saved.parts.queues.as_slice()[queue]
        .entries
        .as_slice();
    if read >= entries.len() {
        return take_queue(alloc, net, draft, queue + 1, words);
    }
    let serial = entries[read].serial;
    let Some(entry) = read_entry_of(net, queue, words) else {
        return Ok(false);
    };
    if entry.serial != serial {
        return Ok(false);
    }
    set_entry(
        &mut draft.saved.parts.queues.as_mut_slice()[queue],
        read,
        entry,
    );
    draft.stage = Stage::Entries(queue, read + 1);
    Ok(true)
}

fn take_array(
    alloc: Global,
    net: &Checked,
    draft: &mut Draft,
    next: usize,
    words: &[&[u8]],
) -> Result<bool, Memory>
    requires words { AreWords (map (λ w. w.now) words.now) }
    requires checked { IsChecked net.now }
    requires may { MaySave net.now draft.old.saved }
    requires within { next ≤ length net.now.arrays }
    ensures { IfOk result (λ t. SaysOfLine net.now (ToArrays net.now next draft.old.saved)
        (at_arrays net.now next) (line_of_words (map (λ w. w.now) words.now)) t draft.new) }
{
    let arrays = net.net().arrays.as_slice();
    if next >= arrays.len() {
        return Ok(take_stray(net, draft, 0, words));
    }
    let Some(elements) = read_array(alloc, &arrays[next], words)? else {
        return Ok(false);
    };
    draft.saved.parts.given.arrays.set(next, elements);
    draft.stage = Stage::Arrays(next + 1);
    Ok(true)
}

fn take_stray(net: &Checked, draft: &mut Draft, next: usize, words: &[&[u8]]) -> bool
    requires words { AreWords (map (λ w. w.now) words.now) }
    requires checked { IsChecked net.now }
    requires may { MaySave net.now draft.old.saved }
    requires within { next ≤ length net.now.arrays }
    ensures { SaysOfLine net.now (ToStrays net.now next draft.old.saved)
        (at_strays net.now next) (line_of_words (map (λ w. w.now) words.now)) result draft.new }
{
    let arrays = net.net().arrays.as_slice();
    if next >= arrays.len() {
        if !is_end(words) {
            return false;
        }
        draft.stage = Stage::Ended;
        return true;
    }
    let Some(count) = read_stray(&arrays[next], words) else {
        return false;
    };
    draft.saved.parts.strays.set(next, count);
    draft.stage = Stage::Strays(next + 1);
    true
}
