ghost use Rattle.std.specs.Prelude.{◌≡◌, ◌<◌, ◌^◌, IfOk, length};
ghost use Rattle.net_types.specs.Numbered.{AreNumbered};
ghost use Rattle.net_check.specs.Checks.{EndsWithin};
ghost use Rattle.buffer_place.specs.Cuts.{AreCutsFor, AreCutsOf, chain_delay, cut_delay, level_at};
ghost use Rattle.buffer_place.specs.Edges.{AreUnitParts, marked_delay};

use crate::edges::{instant_edges, is_ahead, is_joined, source_delay};
use crate::levels::{unit_levels, weight_at};
use crate::timing::Timing;
use graph_parts::parts;
use net_types::{Chan, Memory, Net};
use std::alloc::Global;

/// What tells which channels get a delay that their classes have not.
#[derive(Drop)]
pub(crate) enum Cuts {
    /// A mark for each unit: two units have one mark where each can be reached from the other.
    Cycles(Vec<usize>),
    /// A depth, such marks, and for each unit the weight of the heaviest walk to it that has no delay.
    Chains {
        depth: u32,
        marks: Vec<usize>,
        levels: Vec<u32>,
    },
}

/// The marks of units, and their levels where the timing has a depth.
pub(crate) fn unit_cuts(alloc: Global, net: &Net, timing: Timing) -> Result<Cuts, Memory>
    requires numbered { AreNumbered net.now }
    requires within { EndsWithin net.now }
    ensures cuts { IfOk result (AreCutsFor timing timing.depth net.now) }
    ensures each { IfOk result (AreCutsOf (length net.now.units)) }
{
    let marks = unit_parts(alloc, net, timing)?;
    match timing.depth {
        None => Ok(Cuts::Cycles(marks)),
        Some(depth) => {
            let levels = unit_levels(alloc, net, timing, marks.as_slice(), depth)?;
            Ok(Cuts::Chains {
                depth,
                marks,
                levels,
            })
        }
    }
}

/// A mark for each unit: two units have one mark exactly where each can be reached from the other along channels whose
/// classes have delay 0.
fn unit_parts(alloc: Global, net: &Net, timing: Timing) -> Result<Vec<usize>, Memory>
    requires numbered { AreNumbered net.now }
    requires within { EndsWithin net.now }
    ensures { IfOk result (λ marks. AreUnitParts timing net.now marks.items) }
{
    let edges = instant_edges(alloc, net, timing)?;
    let units = net.units.as_slice().len();
    parts(alloc, units, edges.from.as_slice(), edges.to.as_slice())
}

/// The delay of a channel.
pub(crate) fn cut_delay(net: &Net, timing: Timing, cuts: &Cuts, chan: Chan) -> u32
    requires from { chan.from.unit < length net.now.units }
    requires to { chan.to.unit < length net.now.units }
    requires each { AreCutsOf (length net.now.units) cuts.now }
    ensures { result ≡ cut_delay timing net.now cuts.now chan }
{
    match cuts {
        Cuts::Cycles(marks) => marked_delay(net, timing, marks.as_slice(), chan),
        Cuts::Chains {
            depth,
            marks,
            levels,
        } => {
            let (marks, levels) = (marks.as_slice(), levels.as_slice());
            chain_delay(net, timing, *depth, marks, levels, chan)
        }
    }
}

fn marked_delay(net: &Net, timing: Timing, marks: &[usize], chan: Chan) -> u32
    requires from { chan.from.unit < length marks.now }
    requires to { chan.to.unit < length marks.now }
    ensures { result ≡ marked_delay timing net.now marks.now chan }
{
    let delay = source_delay(net, timing, chan);
    if delay == 0 && is_joined(marks, chan) {
        1
    } else {
        delay
    }
}

fn chain_delay(
    net: &Net,
    timing: Timing,
    depth: u32,
    marks: &[usize],
    levels: &[u32],
    chan: Chan,
) -> u32
    requires from { chan.from.unit < length marks.now }
    requires to { chan.to.unit < length marks.now }
    requires level { chan.from.unit < length levels.now }
    ensures { result ≡ chain_delay timing depth marks.now (level_at levels.now) net.now chan }
{
    let delay = source_delay(net, timing, chan);
    if delay > 0 {
        return delay;
    }
    let level = u64::from(levels[chan.from.unit as usize]);
    let reached = level + u64::from(weight_at(net, chan.to.unit as usize));
    if is_ahead(marks, chan) && reached <= u64::from(depth) {
        0
    } else {
        1
    }
}
