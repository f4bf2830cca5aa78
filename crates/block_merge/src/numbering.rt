//! The found blocks under new numbers.
ghost use Rattle.std.specs.Prelude.{◌≡◌, ◌<◌, length, get_or, replicate, All, IfOk};
ghost use Rattle.el_base.specs.Limits.{IsNumbered};
ghost use Rattle.block_merge.specs.Numbered.{numbered_to, numbered_jump, numbered, listed, reached};
ghost use Rattle.block_merge.specs.Orders.{IsWithin, StoresWithin, placed};
ghost use Rattle.block_merge.specs.Parts.{AreBlocks};

use crate::walking::found_blocks;
use ir::{Block, Jump, List, Memory, To};
use std::alloc::Global;

/// For each of so many blocks its place in a list, and 0 where it is not in the list.
fn places(alloc: Global, count: usize, found: &[u32]) -> Result<Vec<u32>, Memory>
    requires few { IsNumbered (length found.now) }
    requires within { All (λ t. t < count) found.now }
    ensures { IfOk result (λ table. table.items ≡ placed (replicate count 0) 0 found.now) }
{
    let mut table: Vec<u32> = vec![in alloc; 0; count]?;
    let mut place = 0;
    for number in found {
        table[*number as usize] = place;
        place += 1;
    }
    Ok(table)
}

/// The edge to the block under its new number.
fn numbered_to(places: &[u32], to: &To) -> Result<To, Memory>
    ensures { IfOk result (λ t. t ≡ numbered_to (λ n. get_or places.now n 0) to.now) }
{
    Ok(To {
        block: places.get(to.block as usize).copied().unwrap_or(0),
        with: to.with.copy()?,
    })
}

/// The jump to blocks under their new numbers.
fn numbered_jump(places: &[u32], jump: &Jump) -> Result<Jump, Memory>
    ensures { IfOk result (λ j. j ≡ numbered_jump (λ n. get_or places.now n 0) jump.now) }
{
    match jump {
        Jump::Go(to) => Ok(Jump::Go(numbered_to(places, to)?)),
        Jump::Two { cond, yes, no } => Ok(Jump::Two {
            cond: *cond,
            yes: numbered_to(places, yes)?,
            no: numbered_to(places, no)?,
        }),
        Jump::Return(value) => Ok(Jump::Return(*value)),
    }
}

/// The block with its jump to blocks under their new numbers.
fn numbered(places: &[u32], block: &Block) -> Result<Block, Memory>
    ensures { IfOk result (λ b. b ≡ numbered (λ n. get_or places.now n 0) block.now) }
{
    Ok(Block {
        args: block.args.copy()?,
        steps: block.steps.copy()?,
        jump: numbered_jump(places, &block.jump)?,
    })
}

/// The blocks of a list, in its order, under new numbers.
fn listed(
    alloc: Global,
    blocks: &[Block],
    found: &[u32],
    places: &[u32],
) -> Result<List<Block>, Memory>
    requires { IsWithin blocks.now found.now }
    ensures { IfOk result (λ bs. bs
        ≡ listed blocks.now found.now (λ n. get_or places.now n 0)) }
{
    let mut made = List::new(alloc);
    for number in found {
        made.push(numbered(places, &blocks[*number as usize])?)?;
    }
    Ok(made)
}

/// The blocks that a walk finds, in the order in which it finds them, where there are so many arrays.
pub(crate) fn reached(alloc: Global, blocks: &[Block], arrays: usize) -> Result<List<Block>, Memory>
    requires blocks { AreBlocks blocks.now }
    requires arrays { StoresWithin arrays blocks.now }
    ensures { IfOk result (λ bs. bs ≡ reached blocks.now) }
{
    let found = found_blocks(alloc, blocks, arrays)?;
    let places = places(alloc, blocks.len(), found.as_slice())?;
    listed(alloc, blocks, found.as_slice(), places.as_slice())
}
