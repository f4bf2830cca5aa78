ghost use Rattle.std.specs.Prelude.{◌≡◌, ◌↔◌, nat_lt, IfOk, IsTrue, MatchOption};
ghost use Rattle.std.specs.List.{All};
ghost use Rattle.net_types.specs.Numbered.{AreNumbered};
ghost use Rattle.net_types.specs.Rules.{KeepsC1};
ghost use Rattle.net_check.specs.declared.wires.Side.TheVariants.{In, Out};
ghost use Rattle.net_check.specs.Lowest.{IsLowest, ChanLacks};
ghost use Rattle.net_check.specs.Places.{HasEnds, IsUnjoined, CulpritC1};
ghost use Rattle.net_check.specs.Shapes.{KeepsC7};
ghost use Rattle.net_check.specs.private.Bounds.{IsBounded, IsCrowded};
ghost use Rattle.net_check.specs.private.Joins.{placed, knows, IsGathered, AreKnown, AreKnownOn, IsMissing, lowest};

use crate::refusal::{At, chan_at};
use crate::widths::{in_width_of, out_width_of};
use crate::wires::{Side, bound, end_of};
use net_types::{Chan, Memory, Net, Unit};
use std::alloc::Global;
use std::collections::BTreeSet;

/// Rule C1, each place has one channel: `None` where it is kept, else the culprit. The net has to keep C7.
///
/// It costs time in proportion to the units, the ports of queues and the channels, times a logarithm, and memory in
/// proportion to the channels, whatever numbers of places the units name.
///
/// # Errors
///
/// [`Memory`] where memory is wanting.
pub(crate) fn check_places(alloc: Global, net: &Net) -> Result<Option<At>, Memory>
    requires numbered { AreNumbered net.now }
    requires shapes { KeepsC7 net.now }
    ensures { IfOk result (λ o. MatchOption o (KeepsC1 net.now) (CulpritC1 net.now)) }
{
    if let Some(chan) = first_stray(net) {
        return Ok(Some(chan_at(chan)));
    }
    match first_unjoined(alloc, net)? {
        None => Ok(None),
        Some(unit) => Ok(Some(At::Unit(unit))),
    }
}

/// The lowest channel with an end that is no place.
pub(crate) fn first_stray(net: &Net) -> Option<usize>
    ensures { MatchOption result (All (HasEnds net.now) net.now.chans)
        (IsLowest (ChanLacks net.now (HasEnds net.now))) }
{
    for (c, chan) in net.chans.as_slice().iter().enumerate() {
        if !has_ends(net, *chan) {
            return Some(c);
        }
    }
    None
}

/// Whether both ends of the channel are places.
fn has_ends(net: &Net, chan: Chan) -> bool
    ensures { IsTrue result ↔ HasEnds net.now chan }
{
    if !is_place(net, chan.from.unit, chan.from.place as u64, Side::Out) {
        return false;
    }
    is_place(net, chan.to.unit, chan.to.place as u64, Side::In)
}

/// Whether the unit has this place on the side.
pub(crate) fn is_place(net: &Net, unit: u32, place: u64, side: Side) -> bool
    ensures { result ≡ nat_lt 0 (placed side net.now unit place) }
{
    if unit as usize >= net.units.as_slice().len() {
        return false;
    }
    match side {
        Side::In => in_width_of(net, unit, place).is_some(),
        Side::Out => out_width_of(net, unit, place).is_some(),
    }
}

/// The lowest unit with a place that has no channel, or more than one.
///
/// # Errors
///
/// [`Memory`] where memory is wanting.
fn first_unjoined(alloc: Global, net: &Net) -> Result<Option<u32>, Memory>
    requires ends { All (HasEnds net.now) net.now.chans }
    requires numbered { AreNumbered net.now }
    requires shapes { KeepsC7 net.now }
    ensures { IfOk result (λ o. MatchOption o (KeepsC1 net.now) (IsLowest (IsUnjoined net.now))) }
{
    let ins = gather(alloc, net.chans.as_slice(), Side::In)?;
    let outs = gather(alloc, net.chans.as_slice(), Side::Out)?;
    let missing = first_missing(net, &ins, &outs);
    Ok(lowest(lowest(ins.twice, outs.twice), missing))
}

/// The ends of channels on one side of units, each as its unit and place, and the lowest unit with a place at which two
/// channels end.
#[derive(Drop)]
struct Gathered {
    known: BTreeSet<(u32, u64)>,
    twice: Option<u32>,
}

/// The ends of the channels on the side.
///
/// # Errors
///
/// [`Memory`] where memory is wanting.
fn gather(alloc: Global, chans: &[Chan], side: Side) -> Result<Gathered, Memory>
    ensures { IfOk result (λ g. IsGathered side chans.now g.known g.twice) }
{
    let mut known = BTreeSet::new(alloc);
    let mut twice = None;
    for chan in chans {
        let end = end_of(chan, side);
        if !known.insert((end.unit, end.place as u64))? {
            twice = lowest(twice, Some(end.unit));
        }
    }
    Ok(Gathered { known, twice })
}

/// The lowest unit with a place that is no end of a channel.
///
/// It stops at the first such place, so it looks at no more places than there are ends and one more, and at the numbers
/// of queues without a place, at most two a port.
fn first_missing(net: &Net, ins: &Gathered, outs: &Gathered) -> Option<u32>
    requires numbered { AreNumbered net.now }
    requires shapes { KeepsC7 net.now }
    requires ins { IsGathered In net.now.chans ins.now.known ins.now.twice }
    ensures { IsMissing net.now ins.now.known outs.now.known result }
{
    for (u, unit) in net.units.as_slice().iter().enumerate() {
        let number = u as u32;
        if is_crowded(unit, net.chans.as_slice().len()) {
            return Some(number);
        }
        if !is_known_unit(net, number, unit, ins, outs) {
            return Some(number);
        }
    }
    None
}

/// Whether the unit is a queue with more ports or groups, and so more inputs, than there are channels.
pub(crate) fn is_crowded(unit: &Unit, chans: usize) -> bool
    ensures { IsTrue result ↔ IsCrowded unit.now chans }
{
    match unit {
        Unit::Lsq { ports, groups, .. } => {
            ports.as_slice().len() > chans || groups.as_slice().len() > chans
        }
        Unit::Entry => false,
        Unit::Param(_) => false,
        Unit::Const { .. } => false,
        Unit::Op1(_) => false,
        Unit::Op2(_) => false,
        Unit::Select { .. } => false,
        Unit::Fork { .. } => false,
        Unit::Mux { .. } => false,
        Unit::Cmerge { .. } => false,
        Unit::Branch { .. } => false,
        Unit::Sink { .. } => false,
        Unit::Read(_) => false,
        Unit::Exit => false,
    }
}

/// Whether each place of the unit is an end of a channel.
fn is_known_unit(net: &Net, number: u32, unit: &Unit, ins: &Gathered, outs: &Gathered) -> bool
    requires ins { IsBounded In unit.now }
    requires outs { IsBounded Out unit.now }
    ensures { IsTrue result ↔ AreKnownOn net.now ins.now.known outs.now.known number unit.now }
{
    are_known(net, number, bound(unit, Side::In), Side::In, &ins.known)
        && are_known(net, number, bound(unit, Side::Out), Side::Out, &outs.known)
}

/// Whether the places of the unit with a number below this one are ends of channels.
fn are_known(net: &Net, unit: u32, places: usize, side: Side, known: &BTreeSet<(u32, u64)>) -> bool
    ensures { IsTrue result ↔ AreKnown side net.now known.now unit places }
{
    for p in 0..places {
        let place = p as u64;
        if is_place(net, unit, place, side) && !is_known(known, unit, place) {
            return false;
        }
    }
    true
}

fn is_known(known: &BTreeSet<(u32, u64)>, unit: u32, place: u64) -> bool
    ensures { result ≡ knows known.now unit place }
{
    known.contains(&(unit, place))
}

/// The lower of two numbers, where there are.
fn lowest(a: Option<u32>, b: Option<u32>) -> Option<u32>
    ensures { result ≡ lowest a b }
{
    match (a, b) {
        (None, b) => b,
        (Some(a), None) => Some(a),
        (Some(a), Some(b)) => { if b < a { Some(b) } else { Some(a) } }
    }
}
