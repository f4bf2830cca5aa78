ghost use Rattle.std.specs.Prelude.{◌≡◌, ◌==◌, ◌<◌, ◌++◌, ◌∷◌, [], IfOk, OnOk, length};
ghost use Rattle.net_check.specs.Checks.{EndsWithin};
ghost use Rattle.buffer_place.specs.Edges.{instant, is_ahead, is_joined, sources, staying, targets};
ghost use Rattle.buffer_place.specs.Timings.{source_delay};

use crate::timing::{Timing, class_of};
use net_types::{Chan, Memory, Net};
use std::alloc::Global;

/// The units that edges come from, and those that they go to.
#[derive(Drop)]
pub(crate) struct Edges {
    pub from: Vec<usize>,
    pub to: Vec<usize>,
}

/// The channels out of units whose class has delay 0, as edges between units.
pub(crate) fn instant_edges(alloc: Global, net: &Net, timing: Timing) -> Result<Edges, Memory>
    ensures from { IfOk result (λ e. e.from.items ≡
        sources (instant timing net.now net.now.chans)) }
    ensures to { IfOk result (λ e. e.to.items ≡
        targets (instant timing net.now net.now.chans)) }
{
    let mut edges = Edges {
        from: Vec::new(alloc),
        to: Vec::new(alloc),
    };
    for chan in net.chans.as_slice() {
        if source_delay(net, timing, *chan) == 0 {
            add(&mut edges, *chan)?;
        }
    }
    Ok(edges)
}

/// The channels that may stay without delay, as edges between units: those out of units whose class has delay 0, but not those
/// within a part that do not lead to a unit of a greater number.
pub(crate) fn staying_edges(
    alloc: Global,
    net: &Net,
    timing: Timing,
    marks: &[usize],
) -> Result<Edges, Memory>
    requires within { EndsWithin net.now }
    requires each { length marks.now ≡ length net.now.units }
    ensures from { IfOk result (λ e. e.from.items ≡
        sources (staying timing net.now marks.now net.now.chans)) }
    ensures to { IfOk result (λ e. e.to.items ≡
        targets (staying timing net.now marks.now net.now.chans)) }
{
    let mut edges = Edges {
        from: Vec::new(alloc),
        to: Vec::new(alloc),
    };
    for chan in net.chans.as_slice() {
        if source_delay(net, timing, *chan) == 0 && is_ahead(marks, *chan) {
            add(&mut edges, *chan)?;
        }
    }
    Ok(edges)
}

/// Adds the units of a channel.
fn add(edges: &mut Edges, chan: Chan) -> Result<(), Memory>
    ensures from { OnOk result (edges.new.from.items ≡
        edges.old.from.items ++ chan.from.unit ∷ []) }
    ensures to { OnOk result (edges.new.to.items ≡
        edges.old.to.items ++ chan.to.unit ∷ []) }
{
    edges.from.push(chan.from.unit as usize)?;
    edges.to.push(chan.to.unit as usize)?;
    Ok(())
}

/// Whether a channel leads to a unit of a greater number or of another mark.
pub(crate) fn is_ahead(marks: &[usize], chan: Chan) -> bool
    requires from { chan.from.unit < length marks.now }
    requires to { chan.to.unit < length marks.now }
    ensures { result ≡ is_ahead marks.now chan }
{
    chan.from.unit < chan.to.unit || !is_joined(marks, chan)
}

/// Whether the units of a channel have one mark.
pub(crate) fn is_joined(marks: &[usize], chan: Chan) -> bool
    requires from { chan.from.unit < length marks.now }
    requires to { chan.to.unit < length marks.now }
    ensures { result ≡ is_joined marks.now chan }
{
    marks[chan.from.unit as usize] == marks[chan.to.unit as usize]
}

/// The delay, in cycles, of the class of the unit that a channel comes from.
pub(crate) fn source_delay(net: &Net, timing: Timing, chan: Chan) -> u32
    ensures { result ≡ source_delay timing net.now chan }
{
    match net.units.as_slice().get(chan.from.unit as usize) {
        Some(unit) => timing.delay(class_of(unit)),
        None => 0,
    }
}
