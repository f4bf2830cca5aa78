//! The acts of units, one after another.

ghost use Rattle.std.specs.Prelude.{◌≡◌, ◌+◌, ◌*◌, ◌^◌, ◌<◌, ◌≤◌, true, false, is_some, MatchOption};
ghost use Rattle.net_types.specs.Nets.{kind_of};
ghost use Rattle.net_check.specs.Ends.{is_lsq};
ghost use Rattle.net_core.specs.Fire.{head_at};
ghost use Rattle.net_core.specs.States.{IsOf, state_of};
ghost use Rattle.cycle_engine.specs.private.Marking.{IsStarved, asks_first, is_merge};
ghost use Rattle.net_types.specs.declared.firing.Act.TheVariants as acts;
ghost use Rattle.cycle_engine.specs.private.Places.{HasView, HasNoExec, HasNoneFrom, IsFirstExec, IsNextNumber, IsViewOf, KeepsControl, TakesControl, count_in, inputs_in, outputs_in, numbered};
ghost use Rattle.cycle_engine.specs.private.Control.{control_places_in, groups_in, ports_in};

use crate::control::{next_control_place, next_end};
use lsq_core::Queue;
use net_check::Checked;
use net_core::{State, UnitQueue};
use net_types::{Act, Unit};

/// Whether a unit is a queue.
#[inline(always)]
pub(crate) fn is_queue(net: &Checked, unit: u32) -> bool
    ensures { result ≡ is_lsq (kind_of net.now unit) }
{
    let units = net.net().units.as_slice();
    (unit as usize) < units.len() && is_queue_kind(&units[unit as usize])
}

/// Whether a kind of units is that of queues.
#[inline(always)]
pub(crate) fn is_queue_kind(kind: &Unit) -> bool
    ensures { result ≡ is_lsq kind.now }
{
    match kind {
        Unit::Lsq { .. } => true,
        _ => false,
    }
}

/// Whether a unit is a control merge.
#[inline(always)]
pub(crate) fn is_merge(net: &Checked, unit: u32) -> bool
    ensures { result ≡ is_merge (kind_of net.now unit) }
{
    let units = net.net().units.as_slice();
    if (unit as usize) < units.len() {
        match &units[unit as usize] {
            Unit::Cmerge { .. } => true,
            _ => false,
        }
    } else {
        false
    }
}

/// Whether a unit does not fire without a token at its first input.
#[inline(always)]
pub(crate) fn asks_first(net: &Checked, unit: u32) -> bool
    ensures { result ≡ asks_first (kind_of net.now unit) }
{
    let units = net.net().units.as_slice();
    if (unit as usize) < units.len() {
        match &units[unit as usize] {
            Unit::Entry => false,
            Unit::Param(_) => false,
            Unit::Cmerge { .. } => false,
            Unit::Lsq { .. } => false,
            Unit::Exit => false,
            _ => true,
        }
    } else {
        true
    }
}

/// Whether a unit wants a token at its first input.
#[inline(always)]
pub(crate) fn is_starved(net: &Checked, state: &State, unit: u32) -> bool
    requires { IsOf net.now state.now }
    ensures { result ≡ true → IsStarved net.now (state_of state.now) unit }
{
    if !asks_first(net, unit) {
        return false;
    }
    match state.head(net, net.into_place(unit, 0)) {
        None => true,
        Some(_) => false,
    }
}

/// How many acts a unit may have of the kind of an act.
#[inline(always)]
pub(crate) fn count_acts(net: &Checked, unit: u32, act: Act) -> u32
    ensures { result ≡ count_in (kind_of net.now unit) act }
{
    match act {
        Act::From(_) => inputs_of(net, unit),
        Act::Send(_) => outputs_of(net, unit),
        Act::Alloc(_) => groups_of(net, unit),
        Act::Addr(_) => ports_of(net, unit),
        Act::Data(_) => ports_of(net, unit),
        Act::Reply(_) => ports_of(net, unit),
        Act::Go => 1,
        Act::Exec(_) => 1,
        Act::Retire => 1,
        Act::End => 1,
    }
}

/// The inputs of a control merge; none of another unit.
fn inputs_of(net: &Checked, unit: u32) -> u32
    ensures { result ≡ inputs_in (kind_of net.now unit) }
{
    let units = net.net().units.as_slice();
    if (unit as usize) < units.len() {
        match &units[unit as usize] {
            Unit::Cmerge { ins } => *ins,
            _ => 0,
        }
    } else {
        0
    }
}

/// The outputs of a fork; none of another unit.
fn outputs_of(net: &Checked, unit: u32) -> u32
    ensures { result ≡ outputs_in (kind_of net.now unit) }
{
    let units = net.net().units.as_slice();
    if (unit as usize) < units.len() {
        match &units[unit as usize] {
            Unit::Fork { outs, .. } => *outs,
            _ => 0,
        }
    } else {
        0
    }
}

/// How many groups a queue has; another unit has none.
fn groups_of(net: &Checked, unit: u32) -> u32
    ensures { result ≡ groups_in (kind_of net.now unit) }
{
    let units = net.net().units.as_slice();
    if (unit as usize) < units.len() {
        match &units[unit as usize] {
            Unit::Lsq { groups, .. } => groups.as_slice().len() as u32,
            _ => 0,
        }
    } else {
        0
    }
}

/// How many control places a unit has whose tokens are taken by acts with a place each: those of a control merge, and of a queue.
#[inline(always)]
pub(crate) fn control_places_of(net: &Checked, unit: u32) -> u64
    ensures { result ≡ control_places_in (kind_of net.now unit) }
{
    let units = net.net().units.as_slice();
    if (unit as usize) < units.len() {
        match &units[unit as usize] {
            Unit::Cmerge { ins } => u64::from(*ins),
            Unit::Lsq { groups, .. } => groups.as_slice().len() as u64 + 1,
            _ => 0,
        }
    } else {
        0
    }
}

/// How many ports a queue has; another unit has none.
pub(crate) fn ports_of(net: &Checked, unit: u32) -> u32
    ensures { result ≡ ports_in (kind_of net.now unit) }
{
    let units = net.net().units.as_slice();
    if (unit as usize) < units.len() {
        match &units[unit as usize] {
            Unit::Lsq { ports, .. } => ports.as_slice().len() as u32,
            _ => 0,
        }
    } else {
        0
    }
}

/// The act of a number, of the kind of another act.
#[inline(always)]
pub(crate) fn numbered(act: Act, number: u32) -> Act
    ensures { result ≡ numbered act number }
{
    match act {
        Act::Go => Act::Go,
        Act::From(_) => Act::From(number),
        Act::Send(_) => Act::Send(number),
        Act::Alloc(_) => Act::Alloc(number),
        Act::Addr(_) => Act::Addr(number),
        Act::Data(_) => Act::Data(number),
        Act::Exec(_) => Act::Exec(u64::from(number)),
        Act::Reply(_) => Act::Reply(number),
        Act::Retire => Act::Retire,
        Act::End => Act::End,
    }
}

/// The queue of a unit; none of a unit that is none.
#[inline(always)]
pub(crate) fn queue_of<'a>(net: &Checked, state: &'a State, unit: u32) -> Option<&'a UnitQueue>
    requires { IsOf net.now state.now }
    ensures { MatchOption result (is_lsq (kind_of net.now unit) ≡ false)
        (λ q. IsViewOf net.now (state_of state.now) unit q.now) }
{
    if unit as usize >= net.net().units.as_slice().len() {
        return None;
    }
    let queue = state.queue(net, unit)?;
    let _ = queue.len();
    Some(queue)
}

/// The least port from a number on at which a queue allows an address.
#[inline(always)]
pub(crate) fn next_told_addr(
    net: &Checked,
    state: &State,
    unit: u32,
    queue: &UnitQueue,
    from: u32,
) -> Option<u32>
    requires of { IsOf net.now state.now }
    requires view { IsViewOf net.now (state_of state.now) unit queue.now }
    ensures { MatchOption result (HasNoneFrom net.now (state_of state.now) unit (acts.Addr 0) from)
        (IsNextNumber net.now (state_of state.now) unit (acts.Addr 0) from) }
{
    let _ = net;
    let _ = state;
    let _ = unit;
    queue.next_addr(from)
}

/// The least port from a number on at which a queue allows data.
#[inline(always)]
pub(crate) fn next_told_data(
    net: &Checked,
    state: &State,
    unit: u32,
    queue: &UnitQueue,
    from: u32,
) -> Option<u32>
    requires of { IsOf net.now state.now }
    requires view { IsViewOf net.now (state_of state.now) unit queue.now }
    ensures { MatchOption result (HasNoneFrom net.now (state_of state.now) unit (acts.Data 0) from)
        (IsNextNumber net.now (state_of state.now) unit (acts.Data 0) from) }
{
    let _ = net;
    let _ = state;
    let _ = unit;
    queue.next_data(from)
}

/// Whether there is no token at one of the two places of a port, where those of the first port begin at `first`. It is not told of the
/// last number that a port may have.
#[inline(always)]
pub(crate) fn lacks_token(
    net: &Checked,
    state: &State,
    unit: u32,
    first: u64,
    beside: u64,
    port: u32,
) -> bool
    requires of { IsOf net.now state.now }
    requires beside { beside ≤ 1 }
    ensures lacks { result ≡ true
        → is_some (head_at net.now (state_of state.now) unit (first + beside + 2 * port)) ≡ false }
    ensures small { result ≡ true → port + 1 < 2 ^ 32 }
{
    if port == u32::MAX || first > u64::from(u32::MAX) {
        return false;
    }
    let place = first + beside + 2 * u64::from(port);
    match state.head(net, net.into_place(unit, place)) {
        None => true,
        Some(_) => false,
    }
}

/// The least port from a number on at which a queue allows a reply.
pub(crate) fn next_reply(net: &Checked, state: &State, unit: u32, from: u32) -> Option<u32>
    requires { IsOf net.now state.now }
    ensures { MatchOption result (HasNoneFrom net.now (state_of state.now) unit (acts.Reply 0) from)
        (IsNextNumber net.now (state_of state.now) unit (acts.Reply 0) from) }
{
    let Some(queue) = queue_of(net, state, unit) else {
        return None;
    };
    queue.next_reply(from)
}

/// The least number from one on of an act of a kind that takes the control token and may be enabled, as far as the channel that is
/// noted for it tells.
#[inline(always)]
pub(crate) fn next_control(
    net: &Checked,
    state: &State,
    noted: u32,
    unit: u32,
    kind: Act,
    from: u32,
) -> Option<u32>
    requires of { IsOf net.now state.now }
    requires takes { TakesControl kind }
    ensures { KeepsControl net.now (state_of state.now) noted
        → MatchOption result (HasNoneFrom net.now (state_of state.now) unit kind from)
        (IsNextNumber net.now (state_of state.now) unit kind from) }
{
    if state.head(net, noted).is_none() {
        return None;
    }
    match kind {
        Act::End => next_end(net, noted, unit, groups_of(net, unit), from),
        _ => next_control_place(net, noted, unit, from),
    }
}

/// The execution of the oldest entry that may execute, of a unit that is a queue; none where no entry may.
pub(crate) fn oldest(net: &Checked, state: &State, unit: u32) -> Option<Act>
    requires { IsOf net.now state.now }
    ensures { MatchOption result (HasNoExec net.now (state_of state.now) unit)
        (IsFirstExec net.now (state_of state.now) unit) }
{
    if unit as usize >= net.net().units.as_slice().len() {
        return None;
    }
    let Some(queue) = state.queue(net, unit) else {
        return None;
    };
    let _ = queue.len();
    match queue.oldest() {
        None => None,
        Some(serial) => Some(Act::Exec(serial)),
    }
}

/// Looks at the queue of a unit: its entries are in order, and of its ports.
pub(crate) fn look_at_queue(net: &Checked, state: &State, unit: u32)
    requires { IsOf net.now state.now }
    ensures { is_lsq (kind_of net.now unit) ≡ true
        → HasView net.now (state_of state.now) unit }
{
    if unit as usize >= net.net().units.as_slice().len() {
        return;
    }
    if let Some(queue) = state.queue(net, unit) {
        let _ = queue.len();
    }
}
