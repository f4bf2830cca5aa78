ghost use Rattle.std.specs.Prelude.{◌≡◌, ◌↔◌, ℕ, IfOk, IsTrue, MatchOption, count_by, length, true};
ghost use Rattle.net_types.specs.Nets.{kind_of, chan_at, out_of};
ghost use Rattle.net_types.specs.Numbered.{AreNumbered};
ghost use Rattle.net_types.specs.Rules.{KeepsC1};
ghost use Rattle.net_check.specs.declared.wires.Side.TheVariants.{In, Out};
ghost use Rattle.net_check.specs.Ends.{is_lsq, end_place, IsEnd, IsAtExit, EachEndsWell, EndsWell, IsAstray, IsUnmet, source_of, KeepsC6, CulpritC6};
ghost use Rattle.net_check.specs.private.Firsts.{IsFirst};
ghost use Rattle.net_check.specs.Headers.{is_exit};
ghost use Rattle.net_check.specs.Lowest.{IsLowest};
ghost use Rattle.net_check.specs.Shapes.{KeepsC7};
ghost use Rattle.net_check.specs.private.Walks.{IsMet, AreMet, IsFirstUnmet, AreAllMet};
ghost use Rattle.net_check.specs.private.Steers.{IsTableOf};

use crate::firsts::first_exit;
use crate::refusal::{At, unit_at};
use crate::wires::Wires;
use net_types::{Memory, Net, Place, Unit};
use std::alloc::Global;

/// Rule C6, the chain of Ends: `None` where it is kept, else the culprit.
///
/// The net has to keep C1 and C7 and to have one exit; the tables are those of its input and its output places.
/// It costs time in proportion to the units and the channels, and a mark for each unit.
///
/// # Errors
///
/// [`Memory`] where memory is wanting.
pub(crate) fn check_ends(
    alloc: Global,
    net: &Net,
    ins: &Wires,
    outs: &Wires,
) -> Result<Option<At>, Memory>
    requires numbered { AreNumbered net.now }
    requires places { KeepsC1 net.now }
    requires shapes { KeepsC7 net.now }
    requires exit { count_by is_exit net.now.units ≡ 1 }
    requires ins { IsTableOf In net.now ins.now }
    requires outs { IsTableOf Out net.now outs.now }
    ensures { IfOk result (λ o. MatchOption o (KeepsC6 net.now) (CulpritC6 net.now)) }
{
    if let Some(astray) = first_astray(net, outs) {
        return Ok(Some(At::Unit(astray)));
    }
    match first_left(alloc, net, ins)? {
        Some(left) => Ok(Some(unit_at(left))),
        None => Ok(None),
    }
}

/// The lowest queue whose End's channel goes neither to an End nor to the exit.
fn first_astray(net: &Net, outs: &Wires) -> Option<u32>
    requires numbered { AreNumbered net.now }
    requires outs { IsTableOf Out net.now outs.now }
    ensures { MatchOption result (EachEndsWell net.now) (IsLowest (IsAstray net.now)) }
{
    for (u, unit) in net.units.as_slice().iter().enumerate() {
        let number = u as u32;
        if is_lsq(unit) && !ends_well(net, outs, number) {
            return Some(number);
        }
    }
    None
}

fn is_lsq(unit: &Unit) -> bool
    ensures { result ≡ is_lsq unit.now }
{
    matches!(unit, Unit::Lsq { .. })
}

/// Whether the channel out of the End of the queue goes to an End or to the exit.
fn ends_well(net: &Net, outs: &Wires, queue: u32) -> bool
    requires { IsTableOf Out net.now outs.now }
    ensures { IsTrue result ↔ EndsWell net.now queue }
{
    let target = target(net, outs, queue, end_place(net, queue));
    is_end(net, target) || is_at_exit(net, target)
}

/// The number of the End's places at a queue; 0 at another unit.
fn end_place(net: &Net, unit: u32) -> u64
    ensures { result ≡ end_place (kind_of net.now unit) }
{
    match net.units.as_slice().get(unit as usize) {
        Some(Unit::Lsq { groups, .. }) => groups.as_slice().len() as u64,
        _ => 0,
    }
}

/// Whether the place is the End of a queue.
fn is_end(net: &Net, place: Place) -> bool
    ensures { IsTrue result ↔ IsEnd net.now place }
{
    match net.units.as_slice().get(place.unit as usize) {
        Some(Unit::Lsq { groups, .. }) => place.place as usize == groups.as_slice().len(),
        _ => false,
    }
}

fn is_at_exit(net: &Net, place: Place) -> bool
    ensures { IsTrue result ↔ IsAtExit net.now place }
{
    matches!(
        net.units.as_slice().get(place.unit as usize),
        Some(Unit::Exit)
    )
}

/// Where the channel out of an output place goes.
fn target(net: &Net, outs: &Wires, unit: u32, place: u64) -> Place
    requires { IsTableOf Out net.now outs.now }
    ensures { result ≡ (chan_at net.now (out_of unit place net.now.chans)).to }
{
    match net.chans.as_slice().get(outs.at(unit, place) as usize) {
        Some(chan) => chan.to,
        None => Place { unit: 0, place: 0 },
    }
}

/// Where the channel into an input place comes from.
fn source(net: &Net, ins: &Wires, unit: u32, place: u64) -> Place
    requires { IsTableOf In net.now ins.now }
    ensures { result ≡ source_of net.now unit place }
{
    match net.chans.as_slice().get(ins.at(unit, place) as usize) {
        Some(chan) => chan.from,
        None => Place { unit: 0, place: 0 },
    }
}

/// The lowest queue that the walk back from input 0 of the exit through Ends does not meet.
fn first_left(alloc: Global, net: &Net, ins: &Wires) -> Result<Option<usize>, Memory>
    requires numbered { AreNumbered net.now }
    requires places { KeepsC1 net.now }
    requires shapes { KeepsC7 net.now }
    requires exit { count_by is_exit net.now.units ≡ 1 }
    requires ins { IsTableOf In net.now ins.now }
    ensures { IfOk result (λ o. MatchOption o (AreAllMet net.now) (IsLowest (IsUnmet net.now))) }
{
    let Some(exit) = the_exit(net) else {
        return Ok(None);
    };
    let met = met_queues(alloc, net, ins, exit)?;
    Ok(first_unmet(net.units.as_slice(), met.as_slice()))
}

fn the_exit(net: &Net) -> Option<u32>
    requires { AreNumbered net.now }
    ensures { IsFirst is_exit net.now.units (length net.now.units) result }
{
    match first_exit(net.units.as_slice()) {
        Some(exit) => Some(exit as u32),
        None => None,
    }
}

/// Marks the queues that the walk back from input 0 of the exit through Ends meets.
fn met_queues(alloc: Global, net: &Net, ins: &Wires, exit: u32) -> Result<Vec<bool>, Memory>
    requires places { KeepsC1 net.now }
    requires shapes { KeepsC7 net.now }
    requires exit { is_exit (kind_of net.now exit) ≡ true }
    requires ins { IsTableOf In net.now ins.now }
    ensures { IfOk result (λ met. IsMet net.now exit met.items) }
{
    let mut met = vec![in alloc; false; net.units.as_slice().len()]?;
    let mut from = source(net, ins, exit, 0);
    'queues: while is_end(net, from) {
        met[from.unit as usize] = true;
        from = source(net, ins, from.unit, u64::from(from.place));
    }
    Ok(met)
}

/// The lowest queue without a mark.
fn first_unmet(units: &[Unit], met: &[bool]) -> Option<usize>
    requires { length met.now ≡ length units.now }
    ensures { MatchOption result (AreMet units.now met.now) (IsFirstUnmet units.now met.now) }
{
    for (u, unit) in units.iter().enumerate() {
        if is_lsq(unit) && !met[u] {
            return Some(u);
        }
    }
    None
}
