ghost use Rattle.std.specs.Prelude.{◌≡◌, ◌↔◌, ◌+◌, ◌^◌, ◌<◌, [], IfOk, OnOk, IsTrue, MatchOption, slice_index, true, vec_len};
ghost use Rattle.std.specs.List.{All};
ghost use Rattle.net_types.specs.Numbered.{AreNumbered};
ghost use Rattle.net_check.specs.Cycles.{IsDelayed, IsEndless, KeepsC4, CulpritC4};
ghost use Rattle.net_check.specs.Lowest.{IsLowest, ChanLacks};
ghost use Rattle.net_check.specs.private.Peels.{AreDelayed, NoneEndless, IsLinked, AreTargets, target_added, AreWaits, wait_added, wait_taken, ready_added, AreReady, IsAwaited, IsReleased, IsPeeled, IsFirstUnset};

use crate::refusal::{At, chan_at, unit_at};
use net_types::{Chan, List, Memory, Net, Unit};
use std::alloc::Global;

/// Rule C4, delays: `None` where it is kept, else the culprit. Both units of each channel have to exist.
///
/// It costs time and memory in proportion to the units and the channels.
///
/// # Errors
///
/// [`Memory`] where memory is wanting.
pub(crate) fn check_cycles(alloc: Global, net: &Net) -> Result<Option<At>, Memory>
    requires linked { IsLinked net.now }
    requires numbered { AreNumbered net.now }
    ensures { IfOk result (λ o. MatchOption o (KeepsC4 net.now) (CulpritC4 net.now)) }
{
    if let Some(c) = first_undelayed(net) {
        return Ok(Some(chan_at(c)));
    }
    match first_endless(alloc, net)? {
        Some(u) => Ok(Some(unit_at(u))),
        None => Ok(None),
    }
}

/// The lowest channel of delay 0 out of a queue.
fn first_undelayed(net: &Net) -> Option<usize>
    ensures { MatchOption result (AreDelayed net.now)
        (IsLowest (ChanLacks net.now (IsDelayed net.now))) }
{
    for (c, chan) in net.chans.as_slice().iter().enumerate() {
        if !is_delayed(net, *chan) {
            return Some(c);
        }
    }
    None
}

fn is_delayed(net: &Net, chan: Chan) -> bool
    ensures { IsTrue result ↔ IsDelayed net.now chan }
{
    match net.units.as_slice().get(chan.from.unit as usize) {
        Some(Unit::Lsq { .. }) => 0 < chan.delay,
        _ => true,
    }
}

/// The lowest unit from which channels of delay 0 can be walked backward without end.
fn first_endless(alloc: Global, net: &Net) -> Result<Option<usize>, Memory>
    requires { IsLinked net.now }
    ensures { IfOk result
        (λ o. MatchOption o (NoneEndless net.now) (IsLowest (IsEndless net.now))) }
{
    let peeled = peel(alloc, net)?;
    Ok(first_unset(peeled.as_slice()))
}

fn first_unset(marks: &[bool]) -> Option<usize>
    ensures { MatchOption result (All (λ mark. mark ≡ true) marks.now) (IsFirstUnset marks.now) }
{
    for (u, mark) in marks.iter().enumerate() {
        if !*mark {
            return Some(u);
        }
    }
    None
}

/// Marks the units that can be taken off, one by one, each once no channel of delay 0 comes from a unit that stays.
fn peel(alloc: Global, net: &Net) -> Result<Vec<bool>, Memory>
    requires { IsLinked net.now }
    ensures { IfOk result (λ peeled. IsPeeled net.now peeled.items) }
{
    let targets = instant_targets(alloc, net)?;
    let mut waits = arrivals(alloc, net)?;
    let mut ready = ready_units(alloc, waits.as_slice())?;
    let mut peeled = vec![in alloc; false; waits.len()]?;
    'units: while let Some(unit) = ready.pop() {
        peeled[unit] = true;
        release(targets[unit].as_slice(), &mut waits, &mut ready)?;
    }
    Ok(peeled)
}

/// For each unit the targets of the channels of delay 0 out of it.
fn instant_targets(alloc: Global, net: &Net) -> Result<Vec<List<usize>>, Memory>
    requires { IsLinked net.now }
    ensures { IfOk result (λ targets. AreTargets net.now targets.items) }
{
    let mut targets = no_targets(alloc, net.units.as_slice().len())?;
    for chan in net.chans.as_slice() {
        add_target(&mut targets, *chan)?;
    }
    Ok(targets)
}

fn no_targets(alloc: Global, count: usize) -> Result<Vec<List<usize>>, Memory>
    ensures len { IfOk result (λ targets. vec_len targets ≡ count) }
    ensures none { IfOk result (λ targets. All (λ list. list ≡ []) targets.items) }
{
    let mut targets = Vec::new(alloc);
    for _ in 0..count {
        targets.push(List::new(alloc))?;
    }
    Ok(targets)
}

fn add_target(targets: &mut Vec<List<usize>>, chan: Chan) -> Result<(), Memory>
    requires { chan.from.unit < vec_len targets.old }
    ensures { OnOk result (targets.new.items ≡ target_added targets.old.items chan) }
{
    if chan.delay == 0 {
        targets[chan.from.unit as usize].push(chan.to.unit as usize)?;
    }
    Ok(())
}

/// For each unit the number of channels of delay 0 into it.
fn arrivals(alloc: Global, net: &Net) -> Result<Vec<usize>, Memory>
    requires { IsLinked net.now }
    ensures { IfOk result (λ waits. AreWaits net.now waits.items) }
{
    let mut waits: Vec<usize> = vec![in alloc; 0; net.units.as_slice().len()]?;
    for chan in net.chans.as_slice() {
        add_arrival(&mut waits, *chan);
    }
    Ok(waits)
}

fn add_arrival(waits: &mut Vec<usize>, chan: Chan)
    requires within { chan.to.unit < vec_len waits.old }
    requires room { slice_index waits.old.items chan.to.unit + 1 < 2 ^ 64 }
    ensures { waits.new.items ≡ wait_added waits.old.items chan }
{
    if chan.delay == 0 {
        waits[chan.to.unit as usize] += 1;
    }
}

/// The units that wait for nothing.
fn ready_units(alloc: Global, waits: &[usize]) -> Result<Vec<usize>, Memory>
    ensures { IfOk result (λ ready. AreReady waits.now ready.items) }
{
    let mut ready = Vec::new(alloc);
    for (u, wait) in waits.iter().enumerate() {
        if *wait == 0 {
            ready.push(u)?;
        }
    }
    Ok(ready)
}

/// Takes one from the wait of each target, and adds those that then wait for nothing.
fn release(targets: &[usize], waits: &mut Vec<usize>, ready: &mut Vec<usize>) -> Result<(), Memory>
    requires { IsAwaited targets.now waits.old.items }
    ensures { OnOk result
        (IsReleased targets.now waits.old.items ready.old.items waits.new.items ready.new.items) }
{
    for target in targets {
        release_one(*target, waits, ready)?;
    }
    Ok(())
}

fn release_one(target: usize, waits: &mut Vec<usize>, ready: &mut Vec<usize>) -> Result<(), Memory>
    requires within { target < vec_len waits.old }
    requires some { 0 < slice_index waits.old.items target }
    ensures wait { OnOk result (waits.new.items ≡ wait_taken waits.old.items target) }
    ensures ready { OnOk result
        (ready.new.items ≡ ready_added waits.old.items target ready.old.items) }
{
    waits[target] -= 1;
    if waits[target] == 0 {
        ready.push(target)?;
    }
    Ok(())
}
