//! Marks at the units that may be able to fire after a firing.
ghost use Rattle.std.specs.Prelude.{◌<◌, length};
ghost use Rattle.net_core.specs.States.{IsOf};
ghost use Rattle.net_worker.specs.MovesHere.{AreTakenHere, IsInIfAny, IsLaidHere, IsOutIfAny};
ghost use Rattle.net_worker.specs.Portions.{HasPins};
ghost use Rattle.net_worker.specs.Views.{net_of};

use crate::portion::Portion;
use crate::ready::Ready;
use crate::tables::Tables;
use net_check::{Checked, Pins};
use net_core::{Change, Moves, Plan, Taken, Takes};

/// Marks the units of a worker that a firing may have let fire.
pub(crate) fn wake(
    ready: &mut Ready,
    portion: &Portion,
    tables: &Tables,
    number: u32,
    unit: u32,
    plan: Plan,
)
    requires of { IsOf (net_of tables.now) portion.now.state }
    requires here { HasPins (net_of tables.now) portion.now unit }
{
    if let Change::Act { .. } = plan.change {
        ready.mark(unit);
    }
    match plan.takes {
        Takes::None => {}
        Takes::One(p) => wake_taken(ready, portion, tables, number, unit, p),
        Takes::Two(p, q) => {
            wake_taken(ready, portion, tables, number, unit, p);
            wake_taken(ready, portion, tables, number, unit, q);
        }
        Takes::Three(p, q, r) => {
            wake_taken(ready, portion, tables, number, unit, p);
            wake_taken(ready, portion, tables, number, unit, q);
            wake_taken(ready, portion, tables, number, unit, r);
        }
    }
    if let Some(put) = plan.put {
        wake_put(ready, portion, tables, number, unit, put.place);
    }
}

/// Marks the unit to which an output goes, where the token that was put there is the first.
fn wake_put(
    ready: &mut Ready,
    portion: &Portion,
    tables: &Tables,
    number: u32,
    unit: u32,
    place: u64,
)
    requires of { IsOf (net_of tables.now) portion.now.state }
    requires here { HasPins (net_of tables.now) portion.now unit }
{
    let at = tables.net.out_of_place(unit, place);
    let chans = tables.net.net().chans.as_slice();
    if (at as usize) >= chans.len() {
        return;
    }
    let chan = &chans[at as usize];
    ready.note(at, chan);
    if portion.held_out(tables.net, at) <= 1 {
        mark_own(ready, tables, number, chan.to.unit);
    }
}

/// Marks the unit where another token lies at the place from which it took, and the unit that puts there where that was full.
fn wake_taken(
    ready: &mut Ready,
    portion: &Portion,
    tables: &Tables,
    number: u32,
    unit: u32,
    place: u64,
)
    requires of { IsOf (net_of tables.now) portion.now.state }
    requires here { HasPins (net_of tables.now) portion.now unit }
{
    let at = tables.net.into_place(unit, place);
    let chans = tables.net.net().chans.as_slice();
    if (at as usize) >= chans.len() {
        return;
    }
    let held = portion.held_in(tables.net, at);
    if held > 0 {
        ready.mark(unit);
    }
    if held as u64 + 1 >= chans[at as usize].slots as u64 {
        mark_own(ready, tables, number, chans[at as usize].from.unit);
    }
}

/// Marks a unit, where the worker owns it.
fn mark_own(ready: &mut Ready, tables: &Tables, number: u32, unit: u32)
    requires { unit < length (net_of tables.now).units }
{
    if tables.owner(unit) == number {
        ready.mark(unit);
    }
}

/// Marks the units that the firing of a unit may have let fire all of whose channels stay in the worker: the unit itself where it
/// took and another token lies at its first place, the sources of the channels that it took from where those were full, and
/// the target of the one on which it laid a token where that is the first. No owner is asked.
#[inline(always)]
pub(crate) fn wake_inside(
    ready: &mut Ready,
    portion: &Portion,
    net: &Checked,
    unit: u32,
    pins: Pins,
    moves: Moves,
)
    requires of { IsOf net.now portion.now.state }
    requires first { IsInIfAny net.now portion.now pins.first }
    requires taken { AreTakenHere net.now portion.now moves.taken }
    requires laid { IsLaidHere net.now portion.now moves.laid }
{
    match moves.taken {
        Taken::None => {}
        Taken::One(c) => {
            wake_again(ready, portion, net, unit, c);
            wake_source(ready, portion, net, c);
        }
        Taken::Two(c, d) => {
            wake_again(ready, portion, net, unit, pins.first);
            wake_source(ready, portion, net, c);
            wake_source(ready, portion, net, d);
        }
        Taken::Three(c, d, e) => {
            wake_again(ready, portion, net, unit, pins.first);
            wake_source(ready, portion, net, c);
            wake_source(ready, portion, net, d);
            wake_source(ready, portion, net, e);
        }
    }
    if let Some(laid) = moves.laid {
        wake_target(ready, portion, net, laid.chan);
    }
}

/// Marks a unit again, where a token lies on a channel into it.
#[inline(always)]
fn wake_again(ready: &mut Ready, portion: &Portion, net: &Checked, unit: u32, chan: u32)
    requires of { IsOf net.now portion.now.state }
    requires here { IsInIfAny net.now portion.now chan }
{
    if portion.head(net, chan).is_some() {
        ready.mark(unit);
    }
}

/// Marks the unit from which a channel comes, where it was full before a token was taken.
#[inline(always)]
fn wake_source(ready: &mut Ready, portion: &Portion, net: &Checked, at: u32)
    requires of { IsOf net.now portion.now.state }
    requires here { IsInIfAny net.now portion.now at }
{
    let chans = net.net().chans.as_slice();
    if (at as usize) < chans.len() {
        let chan = &chans[at as usize];
        if portion.held_in(net, at).saturating_add(1) >= chan.slots {
            ready.mark(chan.from.unit);
        }
    }
}

/// Marks the unit to which a channel goes, where the token that was laid there is the first.
#[inline(always)]
fn wake_target(ready: &mut Ready, portion: &Portion, net: &Checked, at: u32)
    requires of { IsOf net.now portion.now.state }
    requires here { IsOutIfAny net.now portion.now at }
{
    let chans = net.net().chans.as_slice();
    if (at as usize) < chans.len() {
        let chan = &chans[at as usize];
        ready.note(at, chan);
        if portion.held_out(net, at) <= 1 {
            ready.mark(chan.to.unit);
        }
    }
}

/// Marks the units that the firing of a unit with channels from or to other workers may have let fire, as [`wake_inside`], but
/// for the sources and the target that are others' units.
#[inline(always)]
pub(crate) fn wake_crossing(
    ready: &mut Ready,
    portion: &Portion,
    tables: &Tables,
    unit: u32,
    pins: Pins,
    moves: Moves,
)
    requires of { IsOf (net_of tables.now) portion.now.state }
    requires first { IsInIfAny (net_of tables.now) portion.now pins.first }
    requires taken { AreTakenHere (net_of tables.now) portion.now moves.taken }
    requires laid { IsLaidHere (net_of tables.now) portion.now moves.laid }
{
    let net = tables.net;
    match moves.taken {
        Taken::None => {}
        Taken::One(c) => {
            wake_again(ready, portion, net, unit, c);
            wake_own_source(ready, portion, tables, c);
        }
        Taken::Two(c, d) => {
            wake_again(ready, portion, net, unit, pins.first);
            wake_own_source(ready, portion, tables, c);
            wake_own_source(ready, portion, tables, d);
        }
        Taken::Three(c, d, e) => {
            wake_again(ready, portion, net, unit, pins.first);
            wake_own_source(ready, portion, tables, c);
            wake_own_source(ready, portion, tables, d);
            wake_own_source(ready, portion, tables, e);
        }
    }
    if let Some(laid) = moves.laid {
        if tables.end_places(laid.chan).is_none() {
            wake_target(ready, portion, net, laid.chan);
        }
    }
}

/// As [`wake_source`], where the channel stays in the worker.
#[inline(always)]
fn wake_own_source(ready: &mut Ready, portion: &Portion, tables: &Tables, at: u32)
    requires of { IsOf (net_of tables.now) portion.now.state }
    requires here { IsInIfAny (net_of tables.now) portion.now at }
{
    if tables.end_places(at).is_none() {
        wake_source(ready, portion, tables.net, at);
    }
}
