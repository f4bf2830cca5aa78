ghost use Rattle.std.specs.Prelude.{IfOk, IsTrue};
ghost use Rattle.std.specs.List.{All};
ghost use Rattle.std.specs.Option.{IfSome};
ghost use Rattle.net_types.specs.Numbered.{AreNumbered};
ghost use Rattle.net_check.specs.Places.{HasEnds};
ghost use Rattle.net_check.specs.Shapes.{KeepsC7};
ghost use Rattle.net_check.specs.private.Bounds.{HasRoom};
ghost use Rattle.net_check.specs.private.Steers.{IsTableOf};
ghost use Rattle.net_check.specs.private.Wires.{IsTable};
ghost use Rattle.net_check.specs.private.JoinTables.{IsJoinTable, AreJoinTables};
ghost use Rattle.net_check.specs.private.Joins.{AreAlone, AreMet, AreMetBelow};

use crate::places::{first_stray, is_crowded, is_place};
use crate::wires::{Side, Wires, bound, end_of};
use net_types::{Chan, Memory, Net};
use std::alloc::Global;

/// The tables of the channels at places, where they show that each place has one channel; else `None`.
///
/// It costs time and memory in proportion to the units and the channels, whatever numbers of places the units name.
///
/// # Errors
///
/// [`Memory`] where memory is wanting.
pub(crate) fn joined_tables(alloc: Global, net: &Net) -> Result<Option<(Wires, Wires)>, Memory>
    requires numbered { AreNumbered net.now }
    requires shapes { KeepsC7 net.now }
    ensures { IfOk result (λ o. IfSome o (AreJoinTables net.now)) }
{
    if first_stray(net).is_some() {
        return Ok(None);
    }
    match joined_table(alloc, net, Side::In)? {
        None => Ok(None),
        Some(into) => match joined_table(alloc, net, Side::Out)? {
            None => Ok(None),
            Some(out_of) => Ok(Some((into, out_of))),
        },
    }
}

/// The table of one side, where it shows that each place of the side has one channel; else `None`.
///
/// # Errors
///
/// [`Memory`] where memory is wanting.
fn joined_table(alloc: Global, net: &Net, side: Side) -> Result<Option<Wires>, Memory>
    requires ends { All (HasEnds net.now) net.now.chans }
    requires numbered { AreNumbered net.now }
    requires shapes { KeepsC7 net.now }
    ensures { IfOk result (λ o. IfSome o (IsJoinTable side net.now)) }
{
    if !has_room(net, side) {
        return Ok(None);
    }
    let wires = Wires::new(alloc, net, side)?;
    if are_alone(net.chans.as_slice(), side, &wires) && are_met(net, side, &wires) {
        Ok(Some(wires))
    } else {
        Ok(None)
    }
}

/// Whether the numbers of places are at most two for each channel, as they are where each place has a channel.
fn has_room(net: &Net, side: Side) -> bool
    requires numbered { AreNumbered net.now }
    requires shapes { KeepsC7 net.now }
    ensures { IsTrue result → HasRoom side net.now.units }
{
    let chans = net.chans.as_slice().len();
    let mut left = 2 * chans;
    for unit in net.units.as_slice() {
        if is_crowded(unit, chans) {
            return false;
        }
        let places = bound(unit, side);
        if places > left {
            return false;
        }
        left -= places;
    }
    true
}

/// Whether the table tells each channel at its own end, so that no two end at one place.
fn are_alone(chans: &[Chan], side: Side, wires: &Wires) -> bool
    requires { IsTable side wires.now.starts.items wires.now.chans.items wires.now.none chans.now }
    ensures { IsTrue result → AreAlone side chans.now }
{
    for (c, chan) in chans.iter().enumerate() {
        let end = end_of(chan, side);
        if wires.at(end.unit, end.place as u64) as usize != c {
            return false;
        }
    }
    true
}

/// Whether the table tells a channel at each place.
fn are_met(net: &Net, side: Side, wires: &Wires) -> bool
    requires numbered { AreNumbered net.now }
    requires room { HasRoom side net.now.units }
    requires table { IsTableOf side net.now wires.now }
    ensures { IsTrue result → AreMet side net.now }
{
    for (u, unit) in net.units.as_slice().iter().enumerate() {
        if !is_met(net, u as u32, bound(unit, side), side, wires) {
            return false;
        }
    }
    true
}

/// Whether the table tells a channel at each place of the unit with a number below this one.
fn is_met(net: &Net, unit: u32, places: usize, side: Side, wires: &Wires) -> bool
    requires { IsTableOf side net.now wires.now }
    ensures { IsTrue result → AreMetBelow side net.now unit places }
{
    for p in 0..places {
        let place = p as u64;
        if wires.at(unit, place) == wires.none && is_place(net, unit, place, side) {
            return false;
        }
    }
    true
}
