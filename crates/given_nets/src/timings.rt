//! Placements of timings and changes of checked nets.
ghost use Rattle.std.specs.Prelude.{◌≡◌, ◌<◌, ℕ, Some, IfOk, length};
ghost use Rattle.net_types.specs.Numbered.{AreNumbered};
ghost use Rattle.net_types.specs.Rules.{KeepsC1};
ghost use Rattle.net_check.specs.Retimed.{NameChannels};
ghost use Rattle.buffer_place.specs.Timings.{IsTiming};

use crate::nets::net_of;
use crate::runs::put_cause;
use anyhow::{Result, bail, ensure};
use buffer_place::{Timing, place};
use el_base::{MAX_DELAY, MAX_SLOTS, MAX_SUM_OF_SLOTS};
use net_check::{At, Change, Checked, NetRefusal};
use net_types::{Chan, Net};
use row_fields::{Output, numbers_of};
use std::alloc::Global;

/// Writes the slots and the delay of each channel of a net where a timing is placed.
pub fn put_placed(alloc: Global, net: &str, timing: &str, out: &mut Output) -> Result<()> {
    let timing = timing_of(alloc, timing)?;
    let net = net_of(alloc, net)?;
    put_copied(alloc, &net, timing, out)
}

/// The same, on a copy of a net.
fn put_copied(alloc: Global, net: &Checked, timing: Timing, out: &mut Output) -> Result<()>
    requires { IsTiming timing }
{
    match net.net().copy(alloc) {
        Ok(mut net) => put_timed(alloc, &mut net, timing, out),
        Err(_) => bail!("want of memory"),
    }
}

/// Places a timing, and writes the slots and the delays that the net then has.
fn put_timed(alloc: Global, net: &mut Net, timing: Timing, out: &mut Output) -> Result<()>
    requires numbered { AreNumbered net.old }
    requires wired { KeepsC1 net.old }
    requires timing { IsTiming timing }
{
    ensure!(
        net.chans.as_slice().len() as u64 <= MAX_SUM_OF_SLOTS,
        "too many channels"
    );
    if place(alloc, net, timing).is_err() {
        bail!("want of memory");
    }
    put_times(net.chans.as_slice(), out);
    Ok(())
}

/// Writes `ok` or the refusal of changes of a net, and the slots and the delays that the net then has.
pub fn put_retimed(alloc: Global, net: &str, changes: &str, out: &mut Output) -> Result<()> {
    let mut net = net_of(alloc, net)?;
    put_changed(alloc, &mut net, changes, out)
}

/// The same, on a net.
fn put_changed(alloc: Global, net: &mut Checked, changes: &str, out: &mut Output) -> Result<()> {
    let changes = changes_of(alloc, changes, net)?;
    match net.retime(alloc, changes.as_slice()) {
        Ok(()) => out.word("ok"),
        Err(refusal) => put_refusal(&refusal, out)?,
    }
    out.word(" / ");
    put_times(net.net().chans.as_slice(), out);
    Ok(())
}

/// Writes the number and the word of a broken rule, and what it names.
fn put_refusal(refusal: &NetRefusal, out: &mut Output) -> Result<()> {
    let Some(at) = refusal.at() else {
        bail!("want of memory");
    };
    put_cause(refusal.number(), refusal.word(), out);
    match at {
        At::Unit(unit) => {
            out.word(" unit ");
            out.number(unit);
        }
        At::Chan(chan) => {
            out.word(" chan ");
            out.number(chan);
        }
        At::Net => out.word(" net"),
    }
    Ok(())
}

/// The timing that a field tells: `usual`, or the delays of logic, multiplications, divisions, reads and queues, the slots,
/// and the depth, if any.
fn timing_of(alloc: Global, field: &str) -> Result<Timing>
    ensures { IfOk result IsTiming }
{
    if field == "usual" {
        return Ok(Timing::usual());
    }
    let numbers = words_as_numbers(alloc, field)?;
    timing_by(numbers.as_slice())
}

/// The timing that six numbers and a depth, if any, tell.
fn timing_by(numbers: &[u32]) -> Result<Timing>
    ensures { IfOk result IsTiming }
{
    let [logic, mul, div, read, lsq, slots, rest @ ..] = numbers else {
        bail!("a timing is six numbers and a depth");
    };
    let (logic, mul, div) = (*logic, *mul, *div);
    let (read, lsq, slots) = (*read, *lsq, *slots);
    let depth = depth_of(rest)?;
    ensure!(
        logic <= MAX_DELAY && mul <= MAX_DELAY && div <= MAX_DELAY && read <= MAX_DELAY,
        "a delay is too great"
    );
    ensure!(
        0 < lsq && lsq <= MAX_DELAY,
        "a delay of queues is 1 and more"
    );
    ensure!(0 < slots && slots <= MAX_SLOTS, "slots are 1 and more");
    Ok(Timing {
        logic,
        mul,
        div,
        read,
        lsq,
        slots,
        depth,
    })
}

/// The depth that the words after the slots tell: none, or a number of 1 and more.
fn depth_of(rest: &[u32]) -> Result<Option<u32>>
    ensures { IfOk result (λ depth. (d : ℕ) → depth ≡ Some d → 0 < d) }
{
    match rest {
        [] => Ok(None),
        [depth] => {
            ensure!(0 < *depth, "a depth is 1 and more");
            Ok(Some(*depth))
        }
        _ => bail!("a timing is six numbers and a depth"),
    }
}

/// The changes of a net's channels that a field tells, each a channel, slots and a delay, with `;` between two.
fn changes_of(alloc: Global, field: &str, net: &Checked) -> Result<Vec<Change>>
    ensures { IfOk result (λ changes. NameChannels changes.items net.now) }
{
    let mut changes = Vec::new(alloc);
    for words in field.split(';') {
        let change = change_of(alloc, words, net)?;
        changes.push(change)?;
    }
    Ok(changes)
}

/// The change of a net's channel that a channel, slots and a delay tell.
fn change_of(alloc: Global, words: &str, net: &Checked) -> Result<Change>
    ensures { IfOk result (λ (x : Change). x.chan < length net.now.chans) }
{
    let numbers = words_as_numbers(alloc, words)?;
    change_by(numbers.as_slice(), net)
}

/// The same of numbers.
fn change_by(numbers: &[u32], net: &Checked) -> Result<Change>
    ensures { IfOk result (λ (x : Change). x.chan < length net.now.chans) }
{
    let [chan, slots, delay] = *numbers else {
        bail!("a change is three numbers");
    };
    let count = net.net().chans.as_slice().len();
    ensure!((chan as usize) < count, "no such channel");
    Ok(Change { chan, slots, delay })
}

/// Numbers with a space between two.
fn words_as_numbers(alloc: Global, text: &str) -> Result<Vec<u32>> {
    let words: Vec<&str> = text.split(' ').collect(alloc)?;
    Ok(numbers_of(alloc, words.as_slice())?)
}

/// Writes the slots and the delay of each channel, with `;` between two.
fn put_times(chans: &[Chan], out: &mut Output) {
    let mut mark = "";
    for chan in chans {
        out.word(mark);
        out.number(chan.slots);
        out.word(" ");
        out.number(chan.delay);
        mark = "; ";
    }
}
