//! Whether blocks fit, with their jumps.
ghost use Rattle.std.specs.Prelude.{◌≡◌, slice_get, IfOk};
ghost use Rattle.graph_check.specs.Fits.{
  handed_fit,
  takes,
  target_fits,
  return_fits,
  jump_fits,
  widths_fit,
  block_fits,
  blocks_fit,
};

use crate::steps::{has_width, is_width, shape};
use ir::{Array, Block, Jump, Memory, To, Ty};
use std::alloc::Global;

// Whether each argument gets a value of its width.
#[tactic(auto, using(crate::proofs::Walking::handed_apart))]
fn handed_fit(widths: &[Option<u32>], values: &[u32], args: &[u32]) -> bool
    ensures { result ≡ handed_fit widths.now values.now args.now }
{
    if values.len() != args.len() {
        return false;
    }
    for at in 0..values.len() {
        if !has_width(widths, values[at], args[at]) {
            return false;
        }
    }
    true
}

// Whether a target exists, is not block 0, and gets its arguments.
fn target_fits(blocks: &[Block], widths: &[Option<u32>], to: &To) -> bool
    ensures { result ≡ target_fits blocks.now widths.now to.now }
{
    if to.block == 0 {
        return false;
    }
    match blocks.get(to.block as usize) {
        Some(block) => handed_fit(widths, to.with.as_slice(), block.args.as_slice()),
        None => false,
    }
}

// Whether a block returns a value of the result's type, or none where there is no result.
fn return_fits(of: Option<Ty>, widths: &[Option<u32>], value: Option<u32>) -> bool
    ensures { result ≡ return_fits of widths.now value }
{
    match (of, value) {
        (None, None) => true,
        (Some(ty), Some(value)) => has_width(widths, value, ty.width()),
        (None, Some(_)) | (Some(_), None) => false,
    }
}

fn jump_fits(of: Option<Ty>, blocks: &[Block], widths: &[Option<u32>], jump: &Jump) -> bool
    ensures { result ≡ jump_fits of blocks.now widths.now jump.now }
{
    match jump {
        Jump::Go(to) => target_fits(blocks, widths, to),
        Jump::Two { cond, yes, no } => {
            has_width(widths, *cond, 32)
                && target_fits(blocks, widths, yes)
                && target_fits(blocks, widths, no)
        }
        Jump::Return(value) => return_fits(of, widths, *value),
    }
}

fn widths_fit(widths: &[u32]) -> bool
    ensures { result ≡ widths_fit widths.now }
{
    for width in widths {
        if !is_width(*width) {
            return false;
        }
    }
    true
}

// Whether a block fits among all blocks.
fn block_fits(
    alloc: Global,
    arrays: &[Array],
    of: Option<Ty>,
    blocks: &[Block],
    block: &Block,
) -> Result<bool, Memory>
    ensures { IfOk result (λ b. b ≡ block_fits arrays.now of blocks.now block.now) }
{
    if !widths_fit(block.args.as_slice()) {
        return Ok(false);
    }
    match shape(alloc, arrays, block.args.as_slice(), block.steps.as_slice())? {
        Some(widths) => Ok(jump_fits(of, blocks, widths.as_slice(), &block.jump)),
        None => Ok(false),
    }
}

/// Whether all blocks fit.
pub(crate) fn blocks_fit(
    alloc: Global,
    arrays: &[Array],
    of: Option<Ty>,
    blocks: &[Block],
) -> Result<bool, Memory>
    ensures { IfOk result (λ b. b ≡ blocks_fit arrays.now of blocks.now blocks.now) }
{
    for block in blocks {
        if !block_fits(alloc, arrays, of, blocks, block)? {
            return Ok(false);
        }
    }
    Ok(true)
}
