ghost use Rattle.std.specs.Prelude.{◌≡◌, ℕ, [], ◌<◌, ◌≤◌, ◌^◌, IfOk, OnOk, length, replicate, slice_get, slice_index};
ghost use Rattle.net_types.specs.Numbered.{AreNumbered};
ghost use Rattle.net_types.specs.Nets.{kind_of};
ghost use Rattle.net_check.specs.Checks.{EndsWithin};
ghost use Rattle.buffer_place.specs.Chains.{op1_weight, weight};
ghost use Rattle.buffer_place.specs.Cuts.{AreSourceRows, AreUnitLevels, level_of, levels_by, raised, raised_by};
ghost use Rattle.buffer_place.specs.Edges.{AreUnitParts};

use crate::edges::staying_edges;
use crate::timing::Timing;
use el_base::Op1;
use graph_parts::{rows, topological_order};
use net_types::{List, Memory, Net, Unit};
use std::alloc::Global;

/// The level of each unit: the greatest weight of a walk to it over channels that get no delay. The units are taken in an order
/// in which the channels that may stay without delay lead from earlier units to later ones.
pub(crate) fn unit_levels(
    alloc: Global,
    net: &Net,
    timing: Timing,
    marks: &[usize],
    depth: u32,
) -> Result<Vec<u32>, Memory>
    requires numbered { AreNumbered net.now }
    requires within { EndsWithin net.now }
    requires parts { AreUnitParts timing net.now marks.now }
    ensures { IfOk result (λ levels.
        AreUnitLevels timing depth net.now marks.now levels.items) }
{
    let rows = source_rows(alloc, net, timing, marks)?;
    let order = topological_order(alloc, rows.as_slice())?;
    levels_by(alloc, net, rows.as_slice(), order.as_slice(), depth)
}

/// For each unit the units that the channels into it leave, over those that may stay without delay.
fn source_rows(
    alloc: Global,
    net: &Net,
    timing: Timing,
    marks: &[usize],
) -> Result<Vec<List<usize>>, Memory>
    requires numbered { AreNumbered net.now }
    requires within { EndsWithin net.now }
    requires each { length marks.now ≡ length net.now.units }
    ensures { IfOk result (λ rows. AreSourceRows timing net.now marks.now rows.items) }
{
    let edges = staying_edges(alloc, net, timing, marks)?;
    let units = net.units.as_slice().len();
    rows(alloc, units, edges.to.as_slice(), edges.from.as_slice())
}

/// The levels of units, found one after the other in the order.
fn levels_by(
    alloc: Global,
    net: &Net,
    rows: &[List<usize>],
    order: &[usize],
    depth: u32,
) -> Result<Vec<u32>, Memory>
    requires { (i : ℕ) → i < length order.now → slice_index order.now i < length rows.now }
    ensures { IfOk result (λ levels. levels.items ≡
        levels_by depth net.now rows.now order.now (replicate (length rows.now) 0)) }
{
    let mut levels = vec![in alloc; 0u32; rows.len()]?;
    for unit in order {
        let row = rows[*unit].as_slice();
        levels[*unit] = level_of(net, levels.as_slice(), *unit, row, depth);
    }
    Ok(levels)
}

/// The level of a unit, from the units that channels into it leave.
fn level_of(net: &Net, levels: &[u32], unit: usize, sources: &[usize], depth: u32) -> u32
    ensures { result ≡ level_of depth net.now levels.now unit sources.now }
{
    let weight = weight_at(net, unit);
    raised(weight, levels, sources, depth)
}

fn raised(weight: u32, levels: &[u32], sources: &[usize], depth: u32) -> u32
    ensures { result ≡ raised depth weight levels.now sources.now weight }
{
    let mut level = weight;
    for source in sources {
        level = raised_by(level, weight, levels, *source, depth);
    }
    level
}

/// The level, or that of a unit before with the weight, where this is greater and at most the depth.
fn raised_by(level: u32, weight: u32, levels: &[u32], source: usize, depth: u32) -> u32
    ensures { result ≡ raised_by depth weight level (slice_get levels.now source) }
{
    let Some(before) = levels.get(source) else {
        return level;
    };
    let reached = u64::from(*before) + u64::from(weight);
    if reached <= u64::from(depth) && u64::from(level) < reached {
        reached as u32
    } else {
        level
    }
}

/// The weight of a unit; of none 0.
pub(crate) fn weight_at(net: &Net, unit: usize) -> u32
    ensures { result ≡ weight (kind_of net.now unit) }
{
    match net.units.as_slice().get(unit) {
        Some(unit) => weight(unit),
        None => 0,
    }
}

/// 1 for a unit that works on tokens or chooses among them; 0 for one that is wires alone, as a conversion of widths, and for the
/// ends of the net.
fn weight(unit: &Unit) -> u32
    ensures { result ≡ weight unit.now }
{
    match unit {
        Unit::Op1(op) => op1_weight(*op),
        Unit::Op2(_)
        | Unit::Select { .. }
        | Unit::Mux { .. }
        | Unit::Cmerge { .. }
        | Unit::Branch { .. }
        | Unit::Read(_)
        | Unit::Lsq { .. } => 1,
        Unit::Entry
        | Unit::Param(_)
        | Unit::Const { .. }
        | Unit::Fork { .. }
        | Unit::Sink { .. }
        | Unit::Exit => 0,
    }
}

/// 1 for an operation that computes, 0 for one that converts widths.
fn op1_weight(op: Op1) -> u32
    ensures { result ≡ op1_weight op }
{
    match op {
        Op1::Neg32 | Op1::Neg64 | Op1::Not32 | Op1::Not64 | Op1::Zero32 | Op1::Zero64 => 1,
        Op1::S8to16
        | Op1::S8to32
        | Op1::S8to64
        | Op1::S16to32
        | Op1::S16to64
        | Op1::S32to64
        | Op1::U8to16
        | Op1::U8to32
        | Op1::U8to64
        | Op1::U16to32
        | Op1::U16to64
        | Op1::U32to64
        | Op1::Cut16to8
        | Op1::Cut32to8
        | Op1::Cut32to16
        | Op1::Cut64to8
        | Op1::Cut64to16
        | Op1::Cut64to32 => 0,
    }
}
