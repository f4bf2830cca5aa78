//! The pruned block.
ghost use Rattle.std.specs.Prelude.{◌≡◌, ◌+◌, length, IfOk};
ghost use Rattle.el_base.specs.Limits.{IsNumbered};
ghost use Rattle.block_prune.specs.Overwritten.{without_overwritten};
ghost use Rattle.block_prune.specs.Dead.{without_dead};
ghost use Rattle.block_prune.specs.Pruned.{pruned};

use crate::keeping::kept_block;
use crate::live::live_marks;
use crate::overwritten::lasting_marks;
use ir::{Block, Memory};
use std::alloc::Global;

/// The block without the stores that a later store of it overwrites, and without the pure steps that nothing then needs.
///
/// It asks that a `u32` can number the block's values. The time is as the block's weight, and for each load and store as the
/// number of stores behind it.
///
/// # Errors
///
/// [`Memory`] where memory is wanting.
#[tactic(auto, unfolding(crate::specs::Pruned::pruned))]
pub fn prune_block(alloc: Global, block: &Block) -> Result<Block, Memory>
    requires { IsNumbered (length block.now.args + length block.now.steps) }
    ensures { IfOk result (λ b. b ≡ pruned block.now) }
{
    let lasting = without_overwritten(alloc, block)?;
    without_dead(alloc, &lasting)
}

// The block without its overwritten stores.
fn without_overwritten(alloc: Global, block: &Block) -> Result<Block, Memory>
    requires { IsNumbered (length block.now.args + length block.now.steps) }
    ensures { IfOk result (λ b. b ≡ without_overwritten block.now) }
{
    let marks = lasting_marks(alloc, block.steps.as_slice())?;
    kept_block(alloc, marks.as_slice(), block)
}

// The block without its dead steps.
fn without_dead(alloc: Global, block: &Block) -> Result<Block, Memory>
    requires { IsNumbered (length block.now.args + length block.now.steps) }
    ensures { IfOk result (λ b. b ≡ without_dead block.now) }
{
    let marks = live_marks(alloc, block)?;
    kept_block(alloc, marks.as_slice(), block)
}
