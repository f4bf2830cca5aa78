//! A search of a few blocks for wanted ones.
ghost use Rattle.std.specs.Prelude.{◌≡◌, [], ◌∷◌, OnOk, IfOk};
ghost use Rattle.block_merge.specs.Renamed.{block_of};
ghost use Rattle.block_merge.specs.Found.{is_in, targets};
ghost use Rattle.block_copy.specs.Searches.{
  is_new,
  seen_more,
  all_seen,
  finds,
  leads_to,
  search_of,
};

use ir::{Block, Jump, Memory};
use std::alloc::Global;

/// A search sees at most so many blocks.
const MAX_NEAR: usize = 16;
/// Each block that is seen is looked at once.
const MAX_LOOKS: u32 = 16;

/// The blocks that are seen, and those of them that are still to be looked at, the last seen last.
#[derive(Drop)]
pub struct Near {
    pub seen: Vec<u32>,
    pub left: Vec<u32>,
}

/// Whether a number is among others.
fn is_in(items: &[u32], item: u32) -> bool
    ensures { result ≡ is_in items.now item }
{
    items.contains(&item)
}

/// Whether a block is one that a search round the block at a place sees now.
fn is_new(at: usize, seen: &[u32], block: u32) -> bool
    ensures { result ≡ is_new at seen.now block }
{
    !is_in(seen, block) && block as usize != at && seen.len() < MAX_NEAR
}

impl Near {
    /// The search that has seen one block.
    fn from(alloc: Global, block: u32) -> Result<Near, Memory>
        ensures seen { IfOk result (λ s. s.seen.items ≡ block ∷ []) }
        ensures left { IfOk result (λ s. s.left.items ≡ block ∷ []) }
    {
        let mut seen = Vec::new(alloc);
        let mut left = Vec::new(alloc);
        seen.push(block)?;
        left.push(block)?;
        Ok(Near { seen, left })
    }

    /// Sees a block, where it is new.
    fn see(&mut self, at: usize, block: u32) -> Result<(), Memory>
        ensures { OnOk result (search_of self.new ≡ seen_more at (search_of self.old) block) }
    {
        if is_new(at, self.seen.as_slice(), block) {
            self.seen.push(block)?;
            self.left.push(block)?;
        }
        Ok(())
    }

    /// Sees the blocks to which a jump leads.
    fn see_targets(&mut self, at: usize, jump: &Jump) -> Result<(), Memory>
        ensures { OnOk result (search_of self.new
            ≡ all_seen at (search_of self.old) (targets jump.now)) }
    {
        match jump {
            Jump::Go(to) => self.see(at, to.block),
            Jump::Two { cond: _, yes, no } => {
                self.see(at, yes.block)?;
                self.see(at, no.block)
            }
            Jump::Return(_) => Ok(()),
        }
    }

    /// Sees the blocks to which a block leads.
    fn see_behind(&mut self, at: usize, blocks: &[Block], block: u32) -> Result<(), Memory>
        ensures { OnOk result (search_of self.new
            ≡ all_seen at (search_of self.old) (targets (block_of blocks.now block).jump)) }
    {
        match blocks.get(block as usize) {
            Some(found) => self.see_targets(at, &found.jump),
            None => Ok(()),
        }
    }

    /// Whether one of the next blocks, so many, is a wanted one.
    fn finds(self, blocks: &[Block], wanted: &[u32], at: usize, looks: u32) -> Result<bool, Memory>
        ensures { IfOk result (λ r. r ≡ finds looks blocks.now wanted.now at (search_of self)) }
    {
        let mut near = self;
        for look in 0..looks {
            match near.left.pop() {
                Some(next) => {
                    if is_in(wanted, next) {
                        return Ok(true);
                    }
                    near.see_behind(at, blocks, next)?;
                }
                None => return Ok(false),
            }
        }
        Ok(false)
    }
}

/// Whether a block is a wanted one or leads to one, round the block at a place, as far as a search of a few blocks finds.
pub(crate) fn leads_to(
    alloc: Global,
    blocks: &[Block],
    wanted: &[u32],
    at: usize,
    block: u32,
) -> Result<bool, Memory>
    ensures { IfOk result (λ r. r ≡ leads_to blocks.now wanted.now at block) }
{
    let near = Near::from(alloc, block)?;
    near.finds(blocks, wanted, at, MAX_LOOKS)
}
