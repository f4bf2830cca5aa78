//! Tables of the blocks by the numbers that they name: the variables that they read or write, and the blocks that they jump to.
ghost use Rattle.std.specs.Prelude.{◌≡◌, ◌∷◌, [], length, map, replicate, IfOk, OnOk};
ghost use Rattle.el_base.specs.Limits.{IsNumbered};
ghost use Rattle.block_args.specs.Live.{targets};
ghost use Rattle.block_args.specs.Walks.{
  read_vars,
  written_vars,
  target_blocks,
  put_at,
  put_at_all,
  with_blocks,
};

use ir::{CfgBlock, CfgJump, List, Memory, Write};
use std::alloc::Global;

/// So many empty lists.
pub(crate) fn empty_lists(alloc: Global, count: usize) -> Result<List<List<u32>>, Memory>
    ensures { IfOk result (λ table. table ≡ replicate count []) }
{
    let mut table = List::new(alloc);
    for _ in 0..count {
        table.push(List::new(alloc))?;
    }
    Ok(table)
}

/// For each variable the blocks that read it.
pub(crate) fn readers(
    alloc: Global,
    count: usize,
    blocks: &[CfgBlock],
) -> Result<List<List<u32>>, Memory>
    requires { IsNumbered (length blocks.now) }
    ensures { IfOk result (λ table. table
        ≡ with_blocks read_vars (replicate count []) 0 blocks.now) }
{
    let mut table = empty_lists(alloc, count)?;
    let mut number = 0;
    for block in blocks {
        put_at_all(&mut table, block.reads.as_slice(), number)?;
        number += 1;
    }
    Ok(table)
}

/// For each variable the blocks that write it.
pub(crate) fn writers(
    alloc: Global,
    count: usize,
    blocks: &[CfgBlock],
) -> Result<List<List<u32>>, Memory>
    requires { IsNumbered (length blocks.now) }
    ensures { IfOk result (λ table. table
        ≡ with_blocks written_vars (replicate count []) 0 blocks.now) }
{
    let mut table = empty_lists(alloc, count)?;
    let mut number = 0;
    for block in blocks {
        put_at_written(&mut table, block.writes.as_slice(), number)?;
        number += 1;
    }
    Ok(table)
}

/// For each block the blocks that jump to it.
pub(crate) fn blocks_before(alloc: Global, blocks: &[CfgBlock]) -> Result<List<List<u32>>, Memory>
    requires { IsNumbered (length blocks.now) }
    ensures { IfOk result (λ table. table
        ≡ with_blocks target_blocks (replicate (length blocks.now) []) 0 blocks.now) }
{
    let mut table = empty_lists(alloc, blocks.len())?;
    let mut number = 0;
    for block in blocks {
        put_at_targets(&mut table, block.jump, number)?;
        number += 1;
    }
    Ok(table)
}

/// Adds a block at each of the numbers.
fn put_at_all(table: &mut List<List<u32>>, numbers: &[u32], block: u32) -> Result<(), Memory>
    ensures { OnOk result (table.new ≡ put_at_all table.old numbers.now block) }
{
    for number in numbers {
        put_at(table, *number as usize, block)?;
    }
    Ok(())
}

/// Adds a block at each variable that is written.
fn put_at_written(table: &mut List<List<u32>>, writes: &[Write], block: u32) -> Result<(), Memory>
    ensures { OnOk result
        (table.new ≡ put_at_all table.old (map (λ x. x.var) writes.now) block) }
{
    for write in writes {
        put_at(table, write.var as usize, block)?;
    }
    Ok(())
}

/// Adds a block at each block that it jumps to.
fn put_at_targets(table: &mut List<List<u32>>, jump: CfgJump, block: u32) -> Result<(), Memory>
    ensures { OnOk result (table.new ≡ put_at_all table.old (targets jump) block) }
{
    match jump {
        CfgJump::Go(to) => {
            put_at(table, to as usize, block)?;
        }
        CfgJump::Two { cond: _, yes, no } => {
            put_at(table, yes as usize, block)?;
            put_at(table, no as usize, block)?;
        }
        CfgJump::Return(_) => {}
    }
    Ok(())
}

/// Adds a number to the list at a place, where the table has it.
#[tactic(auto, using(std::proofs::lemmas::List::set_past))]
fn put_at(table: &mut List<List<u32>>, place: usize, number: u32) -> Result<(), Memory>
    ensures { OnOk result (table.new ≡ put_at table.old place number) }
{
    if place < table.len() {
        table.as_mut_slice()[place].push(number)?;
    }
    Ok(())
}
