//! Edges into blocks that only lead on lead one further.
ghost use Rattle.std.specs.Prelude.{◌≡◌, length, option_map, IfOk, OnOk};
ghost use Rattle.std.specs.Option.{option_copied};
ghost use Rattle.block_merge.specs.Merged.{rounds};
ghost use Rattle.block_merge.specs.Threaded.{
  onward_of_parts,
  only_onward,
  threaded_to,
  threaded_jump,
  threaded_once,
  threaded,
};
ghost use Rattle.block_merge.specs.Jumps.{is_some_to, leads_by_way, some_lead_by_way};
ghost use Rattle.block_merge.specs.OutEdges.{to_of, jump_along, with_edges};

use crate::edges::{Edge, OutEdges, out_edges, with_edges};
use ir::{Block, Jump, List, Memory};
use std::alloc::Global;
use std::mem;

/// How often edges lead one further: each time an edge passes twice as many blocks in a row as before.
const ROUNDS: u32 = 16;

/// The edge along which a block of that number only leads on to another.
fn onward_along<'a>(block: &Block, along: &'a OutEdges, number: u32) -> Option<&'a Edge>
    ensures { option_map to_of (option_copied result) ≡ onward_of_parts
        number (length block.now.args) block.now.steps (jump_along along.now block.now.jump) }
{
    let to = &along.yes;
    match &block.jump {
        Jump::Go(_) => {
            if block.steps.is_empty() && to.block != number && to.with.len() <= block.args.len() {
                Some(to)
            } else {
                None
            }
        }
        Jump::Two {
            cond: _,
            yes: _,
            no: _,
        }
        | Jump::Return(_) => None,
    }
}

/// Where a block only leads on to another.
#[tactic(auto, using(crate::proofs::Onward::onward_here, crate::proofs::Onward::past_blocks, crate::proofs::Onward::past_edges,))]
fn only_onward<'a>(blocks: &[Block], edges: &'a [OutEdges], number: u32) -> Option<&'a Edge>
    ensures { option_map to_of (option_copied result)
        ≡ only_onward (with_edges blocks.now edges.now) number }
{
    let at = number as usize;
    if at >= blocks.len() || at >= edges.len() {
        return None;
    }
    onward_along(&blocks[at], &edges[at], number)
}

/// Fills `into` with an edge, one further if its target only leads on.
fn thread_edge(
    blocks: &[Block],
    edges: &[OutEdges],
    edge: &Edge,
    into: &mut Edge,
) -> Result<(), Memory>
    ensures { OnOk result (to_of into.new
        ≡ threaded_to (with_edges blocks.now edges.now) (to_of edge.now)) }
{
    match only_onward(blocks, edges, edge.block) {
        Some(next) => into.fill_past(edge, next),
        None => into.fill(edge),
    }
}

/// Fills `into` with the edges of a jump, each one further.
fn thread_jump(
    blocks: &[Block],
    edges: &[OutEdges],
    jump: &Jump,
    along: &OutEdges,
    into: &mut OutEdges,
) -> Result<(), Memory>
    ensures { OnOk result (jump_along into.new jump.now
        ≡ threaded_jump (with_edges blocks.now edges.now) (jump_along along.now jump.now)) }
{
    match jump {
        Jump::Go(_) => thread_edge(blocks, edges, &along.yes, &mut into.yes),
        Jump::Two {
            cond: _,
            yes: _,
            no: _,
        } => {
            thread_edge(blocks, edges, &along.yes, &mut into.yes)?;
            thread_edge(blocks, edges, &along.no, &mut into.no)
        }
        Jump::Return(_) => Ok(()),
    }
}

/// Fills `into` with the edges of all blocks, each one further.
#[tactic(auto, using(crate::proofs::WithEdges::none_threaded, crate::proofs::WithEdges::more_threaded, crate::proofs::WithEdges::all_threaded,))]
fn thread_once(blocks: &[Block], edges: &[OutEdges], into: &mut [OutEdges]) -> Result<(), Memory>
    requires edges { length edges.now ≡ length blocks.now }
    requires into { length into.old ≡ length blocks.now }
    ensures long { length into.new ≡ length into.old }
    ensures threaded { OnOk result (with_edges blocks.now into.new
        ≡ threaded_once (with_edges blocks.now edges.now)) }
{
    let count = blocks.len();
    for at in 0..count {
        thread_jump(blocks, edges, &blocks[at].jump, &edges[at], &mut into[at])?;
    }
    Ok(())
}

/// Whether an edge leads into a block that only leads on.
fn leads_by_way(blocks: &[Block], edges: &[OutEdges], jump: &Jump, along: &OutEdges) -> bool
    ensures { result
        ≡ leads_by_way (with_edges blocks.now edges.now) (jump_along along.now jump.now) }
{
    match jump {
        Jump::Go(_) => only_onward(blocks, edges, along.yes.block).is_some(),
        Jump::Two {
            cond: _,
            yes: _,
            no: _,
        } => {
            only_onward(blocks, edges, along.yes.block).is_some()
                || only_onward(blocks, edges, along.no.block).is_some()
        }
        Jump::Return(_) => false,
    }
}

/// Whether an edge of some block does.
#[tactic(auto, using(crate::proofs::WithEdges::next_along, crate::proofs::WithEdges::none_left))]
fn some_lead_by_way(blocks: &[Block], edges: &[OutEdges]) -> bool
    requires { length edges.now ≡ length blocks.now }
    ensures { result ≡ some_lead_by_way (with_edges blocks.now edges.now) }
{
    let count = blocks.len();
    for at in 0..count {
        if leads_by_way(blocks, edges, &blocks[at].jump, &edges[at]) {
            return true;
        }
    }
    false
}

/// Takes all edges one further, by way of a second list of edges that is filled.
fn advance(
    blocks: &[Block],
    edges: &mut Vec<OutEdges>,
    further: &mut Vec<OutEdges>,
) -> Result<(), Memory>
    requires edges { length edges.old.items ≡ length blocks.now }
    requires further { length further.old.items ≡ length blocks.now }
    ensures edges { OnOk result (length edges.new.items ≡ length blocks.now) }
    ensures further { OnOk result (length further.new.items ≡ length blocks.now) }
    ensures threaded { OnOk result (with_edges blocks.now edges.new.items
        ≡ threaded_once (with_edges blocks.now edges.old.items)) }
{
    thread_once(blocks, edges.as_slice(), further.as_mut_slice())?;
    mem::swap(edges, further);
    Ok(())
}

/// The edges of all blocks, each past the blocks that only lead on.
#[tactic(auto, using(crate::proofs::Rounds::first_round))]
fn threaded_edges(alloc: Global, blocks: &[Block]) -> Result<Vec<OutEdges>, Memory>
    ensures long { IfOk result (λ edges. length edges.items ≡ length blocks.now) }
    ensures threaded { IfOk result (λ edges. with_edges blocks.now edges.items
        ≡ threaded rounds blocks.now) }
{
    let mut edges = out_edges(alloc, blocks)?;
    let mut further = out_edges(alloc, blocks)?;
    for round in 0..ROUNDS {
        if !some_lead_by_way(blocks, edges.as_slice()) {
            return Ok(edges);
        }
        advance(blocks, &mut edges, &mut further)?;
    }
    Ok(edges)
}

/// The blocks with each edge past the blocks that only lead on.
pub(crate) fn threaded(alloc: Global, blocks: &[Block]) -> Result<List<Block>, Memory>
    ensures { IfOk result (λ bs. bs ≡ threaded rounds blocks.now) }
{
    let edges = threaded_edges(alloc, blocks)?;
    with_edges(alloc, blocks, edges.as_slice())
}
