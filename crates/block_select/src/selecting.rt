//! Blocks that make the steps of both sides of their condition, and choose.
ghost use Rattle.std.specs.Prelude.{◌≡◌, ◌+◌, ◌≤◌, ◌<◌, length, set, Some, IfOk};
ghost use Rattle.std.specs.Option.{option_map_or};
ghost use Rattle.el_base.specs.Limits.{IsNumbered};
ghost use Rattle.ir.specs.declared.graph.Jump.TheVariants.{Two};
ghost use Rattle.ir.specs.Graphs.{size};
ghost use Rattle.block_merge.specs.Renamed.{block_of};
ghost use Rattle.block_merge.specs.Joined.{values_of};
ghost use Rattle.block_merge.specs.Parts.{given_on};
ghost use Rattle.block_pass.specs.Shares.{PassShare, VisitsBack};
ghost use Rattle.block_select.specs.Arms.{meeting};
ghost use Rattle.block_select.specs.Selected.{
  along,
  choosing,
  selected_block,
  selected_at,
  selected_blocks,
  selected,
};
ghost use Rattle.block_select.specs.Light.{AreLight, CanGoAlong, SidesMeet};

use crate::arms::{Meeting, Way, meeting_of};
use crate::choices::{add_selects, choices, chosen_values};
use block_merge::join;
use block_pass::{copy_block, copy_blocks, copy_edge};
use el_base::{copy_arrays, copy_scalars};
use ir::{Block, Ir, Jump, List, Memory, To};
use std::alloc::Global;

/// The graph in which a block whose sides only compute before they meet makes the steps of both, and chooses by its condition.
/// All blocks once, in order; a block that would weigh more than `most` stays. Blocks to which nothing leads any more stay too.
///
/// It asks that the size of the graph, which [`Ir::has_size_within`] tests, is at most 8,000,000, and so `most`. The time is that of
/// copying the graph, and for each new block the square of the number of its choices.
///
/// # Errors
///
/// [`Memory`] where memory is wanting.
pub fn select(alloc: Global, graph: &Ir, most: u64) -> Result<Ir, Memory>
    requires small { size graph.now ≤ 8000000 }
    requires light { most ≤ 8000000 }
    ensures selected { IfOk result (λ g. g ≡ selected most graph.now) }
    ensures share { IfOk result (PassShare graph.now) }
    ensures back { IfOk result (VisitsBack graph.now) }
{
    let blocks = copy_blocks(alloc, graph.look())?;
    Ok(Ir {
        name: graph.name.copy()?,
        scalars: copy_scalars(alloc, graph.scalars.as_slice())?,
        arrays: copy_arrays(alloc, graph.arrays.as_slice())?,
        result: graph.result,
        blocks: selected_blocks(alloc, blocks, most)?,
    })
}

/// The blocks, each made anew where its sides meet, one after the other.
fn selected_blocks(alloc: Global, blocks: List<Block>, most: u64) -> Result<List<Block>, Memory>
    requires blocks { AreLight blocks }
    requires light { most ≤ 8000000 }
    ensures { IfOk result (λ bs. bs ≡ selected_blocks most (length blocks) blocks 0) }
{
    let mut blocks = blocks;
    let count = blocks.len();
    for at in 0..count {
        let block = selected_at(alloc, blocks.as_slice(), at, most)?;
        blocks = with_block(blocks, at, block);
    }
    Ok(blocks)
}

/// The blocks, at a place with another, where there is one.
fn with_block(blocks: List<Block>, at: usize, block: Option<Block>) -> List<Block>
    requires { at < length blocks }
    ensures { result ≡ option_map_or (λ b. set blocks at b) block blocks }
{
    let mut blocks = blocks;
    match block {
        Some(block) => blocks.set(at, block),
        None => {}
    }
    blocks
}

/// The block at a place made anew, where its sides meet and it weighs no more than `most`.
fn selected_at(
    alloc: Global,
    blocks: &[Block],
    at: usize,
    most: u64,
) -> Result<Option<Block>, Memory>
    requires blocks { AreLight blocks.now }
    requires within { at < length blocks.now }
    ensures { IfOk result (λ new. option_map_or (λ b. set blocks.now at b) new blocks.now
        ≡ selected_at most blocks.now at) }
{
    match &blocks[at].jump {
        Jump::Two { cond, yes, no } => match meeting_of(blocks, at, yes, no) {
            Some(found) => {
                let block = selected_block(alloc, blocks, at, *cond, yes, no, found)?;
                if block.weight() <= most as u128 {
                    Ok(Some(block))
                } else {
                    Ok(None)
                }
            }
            None => Ok(None),
        },
        Jump::Go(_) | Jump::Return(_) => Ok(None),
    }
}

/// The block at a place, which leads to the block where both its sides meet.
fn selected_block(
    alloc: Global,
    blocks: &[Block],
    at: usize,
    cond: u32,
    yes: &To,
    no: &To,
    found: Meeting,
) -> Result<Block, Memory>
    requires { SidesMeet blocks.now at cond yes.now no.now found }
    ensures { IfOk result (λ b. b
        ≡ selected_block blocks.now (block_of blocks.now at) cond yes.now no.now found) }
{
    let block = copy_block(&blocks[at])?;
    let first = along(alloc, blocks, block, yes, found.yes)?;
    let yes_values = given_on(alloc, &first.jump)?;
    let both = along(alloc, blocks, first, no, found.no)?;
    let no_values = given_on(alloc, &both.jump)?;
    let widths = blocks[found.block as usize].args.as_slice();
    choosing(
        alloc,
        both,
        cond,
        found.block,
        widths,
        yes_values.as_slice(),
        no_values.as_slice(),
    )
}

/// A block where it leads along one side alone, with the arm taken in where it leads by one.
fn along(alloc: Global, blocks: &[Block], block: Block, to: &To, way: Way) -> Result<Block, Memory>
    requires { CanGoAlong blocks.now block to.now way }
    ensures { IfOk result (λ b. b ≡ along blocks.now block to.now way) }
{
    let Block {
        args,
        steps,
        jump: _jump,
    } = block;
    let jump = Jump::Go(copy_edge(to)?);
    let led = Block { args, steps, jump };
    match way {
        Way::Direct => Ok(led),
        Way::ByArm => join(alloc, led, &blocks[to.block as usize]),
    }
}

/// What a jump without a condition hands on.
fn given_on(alloc: Global, jump: &Jump) -> Result<List<u32>, Memory>
    ensures { IfOk result (λ values. values ≡ given_on jump.now) }
{
    match jump {
        Jump::Go(to) => to.with.copy(),
        Jump::Two {
            cond: _,
            yes: _,
            no: _,
        }
        | Jump::Return(_) => Ok(List::new(alloc)),
    }
}

/// A block that chooses by its value `cond` between what both sides hand on, and leads to the block of that number.
fn choosing(
    alloc: Global,
    block: Block,
    cond: u32,
    number: u32,
    widths: &[u32],
    yes: &[u32],
    no: &[u32],
) -> Result<Block, Memory>
    requires few { IsNumbered (values_of block + length widths.now) }
    requires yes { length yes.now ≡ length widths.now }
    requires no { length no.now ≡ length widths.now }
    ensures { IfOk result (λ b. b ≡ choosing block cond number widths.now yes.now no.now) }
{
    let Block {
        args,
        steps,
        jump: _jump,
    } = block;
    let first = (args.len() + steps.len()) as u32;
    let choices = choices(alloc, widths, yes, no)?;
    let with = chosen_values(alloc, first, choices.as_slice(), widths, yes, no)?;
    let steps = add_selects(steps, cond, choices.as_slice())?;
    let jump = Jump::Go(To {
        block: number,
        with,
    });
    Ok(Block { args, steps, jump })
}
