//! Copied joins of a graph.
ghost use Rattle.std.specs.Prelude.{◌≡◌, ◌≤◌, ◌<◌, nat_le, length, set, sum_by, Some, IfOk};
ghost use Rattle.std.specs.Option.{option_map_or};
ghost use Rattle.ir.specs.Graphs.{block_weight, size};
ghost use Rattle.block_pass.specs.Shares.{PassShare, VisitsBack};
ghost use Rattle.block_copy.specs.Copied.{
  ends_inside,
  is_small,
  with_row,
  copied_at,
  copied_blocks,
  copied,
};
ghost use Rattle.block_copy.specs.Fits.{AreSmall};

use crate::counting::{accesses_in, nonconstants_in};
use crate::growing::{Row, best_row};
use crate::laws::copied_graphs_pass;
use crate::searching::leads_to;
use block_fold::folded_blocks_keep;
use block_pass::{block_by_block, copy_blocks, passes_go_on};
use el_base::{copy_arrays, copy_scalars};
use ir::{Block, Ir, Jump, List, Memory};
use std::alloc::Global;

/// A row that is taken has at most so many more steps that are no constants than its block.
const MAX_MORE: u128 = 96;
/// A row that is taken has at most so many loads and stores.
const MAX_ACCESSES: usize = 1024;
/// The blocks weigh at most so much together.
const MAX_SIZE: u128 = 8_000_000;

/// The graph in which copies of blocks stand behind the blocks that lead to them without a condition, where conditions are
/// constants then. All blocks once, in order; a block that would weigh more than `most` stays. Blocks to which nothing leads any
/// more stay too.
///
/// It asks that the size of the graph, which [`Ir::has_size_within`] tests, is at most 8,000,000. The blocks that are looked at
/// for one block weigh at most 4,096 together; for each of them what stands then is folded anew.
///
/// # Errors
///
/// [`Memory`] where memory is wanting.
pub fn copy(alloc: Global, graph: &Ir, most: u64) -> Result<Ir, Memory>
    requires { size graph.now ≤ 8000000 }
    ensures copied { IfOk result (λ g. g ≡ copied most graph.now) }
    ensures share { IfOk result (PassShare graph.now) }
    ensures back { IfOk result (VisitsBack graph.now) }
{
    copied_graphs_pass();
    let blocks = copy_blocks(alloc, graph.look())?;
    Ok(Ir {
        name: graph.name.copy()?,
        scalars: copy_scalars(alloc, graph.scalars.as_slice())?,
        arrays: copy_arrays(alloc, graph.arrays.as_slice())?,
        result: graph.result,
        blocks: copied_blocks(alloc, blocks, most)?,
    })
}

/// The blocks, each with the best part of its row, where that is taken, one after the other.
fn copied_blocks(alloc: Global, blocks: List<Block>, most: u64) -> Result<List<Block>, Memory>
    requires { AreSmall blocks }
    ensures { IfOk result (λ bs. bs ≡ copied_blocks most (length blocks) blocks 0) }
{
    folded_blocks_keep();
    block_by_block();
    passes_go_on();
    let mut blocks = blocks;
    let count = blocks.len();
    for at in 0..count {
        match copied_at(alloc, blocks.as_slice(), at, most)? {
            Some(block) => blocks.set(at, block),
            None => {}
        }
    }
    Ok(blocks)
}

/// The best part of the row of the block at a place, where that is taken.
fn copied_at(alloc: Global, blocks: &[Block], at: usize, most: u64) -> Result<Option<Block>, Memory>
    requires blocks { AreSmall blocks.now }
    requires within { at < length blocks.now }
    ensures { IfOk result (λ new. option_map_or (λ b. set blocks.now at b) new blocks.now
        ≡ copied_at most blocks.now at) }
{
    match &blocks[at].jump {
        Jump::Go(_) => match best_row(alloc, blocks, at)? {
            Some(row) => taken_block(alloc, blocks, at, row, most),
            None => Ok(None),
        },
        Jump::Two {
            cond: _,
            yes: _,
            no: _,
        }
        | Jump::Return(_) => Ok(None),
    }
}

/// The block of a row, where it is taken.
fn taken_block(
    alloc: Global,
    blocks: &[Block],
    at: usize,
    row: Row,
    most: u64,
) -> Result<Option<Block>, Memory>
    requires { at < length blocks.now }
    ensures { IfOk result (λ new. option_map_or (λ b. set blocks.now at b) new blocks.now
        ≡ with_row most blocks.now at (Some row)) }
{
    if is_small(blocks, at, &row.block, most) && !ends_inside(alloc, blocks, at, &row)? {
        let Row {
            block,
            taken: _taken,
        } = row;
        Ok(Some(block))
    } else {
        Ok(None)
    }
}

/// Whether the row of the block at a place ends inside a loop that it entered.
fn ends_inside(alloc: Global, blocks: &[Block], at: usize, row: &Row) -> Result<bool, Memory>
    ensures { IfOk result (λ r. r ≡ ends_inside blocks.now at row.now.taken row.now.block.jump) }
{
    match &row.block.jump {
        Jump::Go(to) => leads_to(alloc, blocks, row.taken.as_slice(), at, to.block),
        Jump::Two {
            cond: _,
            yes: _,
            no: _,
        }
        | Jump::Return(_) => Ok(false),
    }
}

/// Whether a block is small enough in the place of another.
fn is_small(blocks: &[Block], at: usize, block: &Block, most: u64) -> bool
    requires { at < length blocks.now }
    ensures { result ≡ is_small most blocks.now at block.now }
{
    let before = nonconstants_in(blocks[at].steps.as_slice()) as u128;
    nonconstants_in(block.steps.as_slice()) as u128 <= before + MAX_MORE
        && block.weight() <= most as u128
        && accesses_in(block.steps.as_slice()) <= MAX_ACCESSES
        && weigh_within(blocks, at, block, MAX_SIZE)
}

/// Whether the blocks weigh at most so much together, where another stands in the place of one.
#[tactic(auto, using(crate::proofs::Weighing::weighs_more))]
fn weigh_within(blocks: &[Block], at: usize, block: &Block, limit: u128) -> bool
    requires { at < length blocks.now }
    ensures { result ≡ nat_le (sum_by block_weight (set blocks.now at block.now)) limit }
{
    let mut left = limit;
    let count = blocks.len();
    for place in 0..count {
        let weight = if place == at {
            block.weight()
        } else {
            blocks[place].weight()
        };
        if left < weight {
            return false;
        }
        left -= weight;
    }
    true
}
