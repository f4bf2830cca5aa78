//! The net of a block graph.
ghost use Rattle.std.specs.Prelude.{◌≡◌, [], IfOk, OnOk};
ghost use Rattle.ir.specs.declared.groups.Groups.{Groups as GroupsValue};
ghost use Rattle.circuit_build.specs.Built.{front_of, with_blocks, whole_draft, built};
ghost use Rattle.circuit_build.specs.Edges.{edge_counts};
ghost use Rattle.circuit_build.specs.Follows.{CompletesIfAsked, FollowsIfAsked};
ghost use Rattle.circuit_build.specs.Kept.{SharesIfAsked};

use crate::blocks::ins_of;
use crate::draft::{Draft, number};
use crate::edges::{count_at, edge_counts};
use crate::fronts::start;
use el_base::{List, Memory, copy_arrays, copy_scalars};
use ir::{Groups, Ir};
use net_core::spent_is_at_rest;
use net_types::Net;
use std::alloc::Global;

// What stands before the blocks.
fn lay_front(alloc: Global, graph: &Ir, groups: &Groups) -> Result<Draft, Memory>
    ensures { IfOk result (λ d. d ≡ front_of graph.now groups.now) }
{
    let blocks = graph.blocks.as_slice();
    let mut draft = start(alloc, blocks.len() + 1)?;
    draft.enter(alloc, graph.scalars.as_slice())?;
    draft.lay_queues(alloc, blocks, groups.of.as_slice(), graph.arrays.as_slice())?;
    Ok(draft)
}

// That and the blocks, by the counts of edges.
fn lay_to_blocks(
    alloc: Global,
    graph: &Ir,
    groups: &Groups,
    counts: &[u32],
) -> Result<Draft, Memory>
    requires { counts.now ≡ edge_counts graph.now.blocks }
    ensures { IfOk result (λ d. d ≡ with_blocks graph.now groups.now) }
{
    let blocks = graph.blocks.as_slice();
    let arrays = graph.arrays.as_slice();
    let join = number(blocks.len());
    let mut draft = lay_front(alloc, graph, groups)?;
    draft.lay_blocks(alloc, arrays, join, counts, blocks, groups.of.as_slice())?;
    Ok(draft)
}

// What stands behind the blocks, and the channels of the edges to merges.
fn lay_end(alloc: Global, draft: &mut Draft, graph: &Ir, counts: &[u32]) -> Result<(), Memory>
    requires { counts.now ≡ edge_counts graph.now.blocks }
    ensures { (groups : GroupsValue) → draft.old ≡ with_blocks graph.now groups
        → OnOk result (draft.new ≡ whole_draft graph.now groups) }
{
    let blocks = graph.blocks.as_slice();
    let join = number(blocks.len());
    draft.lay_feeders(alloc, counts, blocks)?;
    draft.lay_last_feeder(alloc, count_at(counts, join), join, graph.result)?;
    draft.lay_join(alloc, ins_of(counts, join), join, graph.result)?;
    draft.connect(alloc, blocks.len() + 1)
}

// All units and channels, by the counts of edges.
fn lay_counted(alloc: Global, graph: &Ir, groups: &Groups, counts: &[u32]) -> Result<Draft, Memory>
    requires { counts.now ≡ edge_counts graph.now.blocks }
    ensures { IfOk result (λ d. d ≡ whole_draft graph.now groups.now) }
{
    let mut draft = lay_to_blocks(alloc, graph, groups, counts)?;
    lay_end(alloc, &mut draft, graph, counts)?;
    Ok(draft)
}

// All units and channels.
fn lay_all(alloc: Global, graph: &Ir, groups: &Groups) -> Result<Draft, Memory>
    ensures { IfOk result (λ d. d ≡ whole_draft graph.now groups.now) }
{
    let counts = edge_counts(alloc, graph.blocks.as_slice())?;
    lay_counted(alloc, graph, groups, counts.as_slice())
}

// The header of a graph, before any unit.
fn header(alloc: Global, graph: &Ir) -> Result<Net, Memory>
    ensures { IfOk result (λ net. net ≡ record {
      name = graph.now.name;
      scalars = graph.now.scalars;
      arrays = graph.now.arrays;
      result = graph.now.result;
      units = [];
      chans = [];
    }) }
{
    Ok(Net {
        name: graph.name.copy()?,
        scalars: copy_scalars(alloc, graph.scalars.as_slice())?,
        arrays: copy_arrays(alloc, graph.arrays.as_slice())?,
        result: graph.result,
        units: List::new(alloc),
        chans: List::new(alloc),
    })
}

/// The net of a block graph, with the accesses of its blocks in order.
///
/// Each channel has one slot and delay 1. An array that some access names has a queue, and of another each load is a
/// unit of its own that reads it. Where a number passes 32 bits the greatest stands for it; no graph of a kernel comes
/// to that. The net of a graph that can be built keeps all rules but C3 and C4, and has at most 8 channels for each unit of
/// the graph's size, each scalar and each array, and 64 more. It follows the visits of the graph, and where these return it
/// comes to rest with the graph's arrays and result.
///
/// # Errors
///
/// [`Memory`] where memory is wanting.
pub fn build(alloc: Global, graph: &Ir, groups: &Groups) -> Result<Net, Memory>
    ensures net { IfOk result (λ net. net ≡ built graph.now groups.now) }
    ensures share { IfOk result (SharesIfAsked graph.now groups.now) }
    ensures follows { IfOk result (FollowsIfAsked graph.now groups.now) }
    ensures completes { IfOk result (CompletesIfAsked graph.now groups.now) }
{
    spent_is_at_rest();
    let mut net = header(alloc, graph)?;
    let (units, chans) = lay_all(alloc, graph, groups)?.into_parts();
    net.units = units;
    net.chans = chans;
    Ok(net)
}
