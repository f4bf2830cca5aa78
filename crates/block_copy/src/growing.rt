//! The row of a block: copies of the blocks to which it leads, folded behind it one after the other.
ghost use Rattle.std.specs.Prelude.{◌≡◌, ◌≤◌, ◌<◌, ◌+◌, ◌++◌, [], ◌∷◌, length, IfOk};
ghost use Rattle.ir.specs.Graphs.{block_weight};
ghost use Rattle.block_merge.specs.Renamed.{block_of};
ghost use Rattle.block_copy.specs.Growing.{
  has_condition,
  is_return,
  next_of,
  folded_behind,
  can_take_in,
  best_with,
  turn_with,
  turn_of,
  grown,
  first_growth,
  best_row,
};
ghost use Rattle.block_copy.specs.Fits.{AreSmall, FitsAmong, CanFollow};

use crate::counting::nonconstants_in;
use block_fold::{fold_block, folded_blocks_keep};
use block_merge::join;
use block_pass::copy_block;
use ir::{Block, Jump, List, Memory};
use std::alloc::Global;

/// The blocks that are looked at for a row weigh at most so much together.
const MAX_SEEN: u128 = 4096;
/// So there are at most that many turns, each block weighing at least 1.
const MAX_TURNS: u32 = 4097;
/// A row that is made has at most so many more steps that are no constants than its block.
const MAX_UNFINISHED: u128 = 192;
/// A block weighs at most so much, so that its values can be numbered.
const MAX_WEIGHT: u128 = 8_000_000;

/// A block with copies of others behind it, and the numbers of those.
#[derive(Drop)]
pub struct Row {
    pub block: Block,
    pub taken: List<u32>,
}

/// A row that is made: what stands, its best part so far, and how much the blocks may weigh that are still looked at.
#[derive(Drop)]
pub struct Growth {
    pub row: Row,
    pub best: Option<Row>,
    pub unseen: u128,
}

/// One copy more, or the end with the best part of the row.
#[derive(Drop)]
pub enum Turn {
    Ends(Option<Row>),
    Goes(Growth),
}

/// Whether a jump has a condition.
fn has_condition(jump: &Jump) -> bool
    ensures { result ≡ has_condition jump.now }
{
    match jump {
        Jump::Two {
            cond: _,
            yes: _,
            no: _,
        } => true,
        Jump::Go(_) | Jump::Return(_) => false,
    }
}

/// Whether a jump is a return.
fn is_return(jump: &Jump) -> bool
    ensures { result ≡ is_return jump.now }
{
    match jump {
        Jump::Return(_) => true,
        Jump::Go(_)
        | Jump::Two {
            cond: _,
            yes: _,
            no: _,
        } => false,
    }
}

/// The block other than the one at a place to which a jump leads without a condition.
fn next_of(at: usize, jump: &Jump) -> Option<u32>
    ensures { result ≡ next_of at jump.now }
{
    match jump {
        Jump::Go(to) => {
            if to.block as usize == at {
                None
            } else {
                Some(to.block)
            }
        }
        Jump::Two {
            cond: _,
            yes: _,
            no: _,
        }
        | Jump::Return(_) => None,
    }
}

/// Whether a row can take in a block.
fn can_take_in(growth: &Growth, limit: u128, block: &Block) -> bool
    ensures { result ≡ can_take_in limit growth.now block.now }
{
    let weight = block.weight();
    weight <= growth.unseen
        && nonconstants_in(growth.row.block.steps.as_slice()) as u128 <= limit
        && growth.row.block.weight() + weight <= MAX_WEIGHT
        && (growth.best.is_some() || growth.row.taken.is_empty())
}

/// An equal row.
fn copy_row(row: &Row) -> Result<Row, Memory>
    ensures { IfOk result (λ r. r ≡ row.now) }
{
    Ok(Row {
        block: copy_block(&row.block)?,
        taken: row.taken.copy()?,
    })
}

/// A block folded with a copy of another behind it.
#[tactic(auto, using(block_merge::proofs::JoinedRuns::joined_weight), unfolding(crate::specs::Growing::folded_behind))]
fn folded_behind(alloc: Global, block: Block, next: &Block) -> Result<Block, Memory>
    requires { CanFollow block next.now }
    ensures { IfOk result (λ b. b ≡ folded_behind block next.now) }
{
    let joined = join(alloc, block, next)?;
    fold_block(alloc, &joined)
}

/// The row with a copy of a block of that number behind it.
fn row_behind(alloc: Global, row: Row, number: u32, next: &Block) -> Result<Row, Memory>
    requires { CanFollow row.block next.now }
    ensures block { IfOk result (λ r. r.block ≡ folded_behind row.block next.now) }
    ensures taken { IfOk result (λ r. r.taken ≡ row.taken ++ number ∷ []) }
{
    let Row { block, taken } = row;
    let mut taken = taken;
    taken.push(number)?;
    Ok(Row {
        block: folded_behind(alloc, block, next)?,
        taken,
    })
}

/// The best part of a row, where it took in a block.
fn best_with(best: Option<Row>, next: &Block, row: &Row) -> Result<Option<Row>, Memory>
    ensures { IfOk result (λ b. b ≡ best_with best next.now row.now) }
{
    if has_condition(&next.jump) || (is_return(&row.block.jump) && best.is_some()) {
        Ok(Some(copy_row(row)?))
    } else {
        Ok(best)
    }
}

/// What becomes of a row with a copy of a block of that number behind it.
fn take_in(alloc: Global, growth: Growth, number: u32, next: &Block) -> Result<Turn, Memory>
    requires follows { CanFollow growth.row.block next.now }
    requires unseen { block_weight next.now ≤ growth.unseen }
    ensures { IfOk result (λ t. t ≡ turn_with growth next.now (record {
      block = folded_behind growth.row.block next.now;
      taken = growth.row.taken ++ number ∷ [];
    })) }
{
    let Growth { row, best, unseen } = growth;
    let unseen = unseen - next.weight();
    let row = row_behind(alloc, row, number, next)?;
    if has_condition(&next.jump) && has_condition(&row.block.jump) {
        return Ok(Turn::Ends(best));
    }
    let best = best_with(best, next, &row)?;
    Ok(Turn::Goes(Growth { row, best, unseen }))
}

/// One copy more.
fn take_turn(
    alloc: Global,
    blocks: &[Block],
    at: usize,
    limit: u128,
    growth: Growth,
) -> Result<Turn, Memory>
    requires { FitsAmong blocks.now growth.row.block }
    ensures { IfOk result (λ t. t ≡ turn_of blocks.now at limit growth) }
{
    match next_of(at, &growth.row.block.jump) {
        Some(number) => {
            let next = &blocks[number as usize];
            if can_take_in(&growth, limit, next) {
                take_in(alloc, growth, number, next)
            } else {
                Ok(Turn::Ends(None))
            }
        }
        None => {
            let Growth {
                row: _row,
                best,
                unseen: _unseen,
            } = growth;
            Ok(Turn::Ends(best))
        }
    }
}

/// The best part of a row, after so many copies more at most.
fn grown(
    alloc: Global,
    blocks: &[Block],
    at: usize,
    limit: u128,
    growth: Growth,
    turns: u32,
) -> Result<Option<Row>, Memory>
    requires { FitsAmong blocks.now growth.row.block }
    ensures { IfOk result (λ r. r ≡ grown turns blocks.now at limit growth) }
{
    folded_blocks_keep();
    let mut growth = growth;
    for count in 0..turns {
        match take_turn(alloc, blocks, at, limit, growth)? {
            Turn::Ends(best) => return Ok(best),
            Turn::Goes(next) => growth = next,
        }
    }
    Ok(None)
}

/// The row of a block, before anything is copied.
#[tactic(auto, unfolding(crate::specs::Growing::first_growth))]
fn first_growth(alloc: Global, block: &Block) -> Result<Growth, Memory>
    requires { block_weight block.now ≤ 8000000 }
    ensures { IfOk result (λ s. s ≡ first_growth block.now) }
{
    Ok(Growth {
        row: Row {
            block: fold_block(alloc, block)?,
            taken: List::new(alloc),
        },
        best: None,
        unseen: MAX_SEEN,
    })
}

/// The best part of the row of the block at a place.
pub(crate) fn best_row(alloc: Global, blocks: &[Block], at: usize) -> Result<Option<Row>, Memory>
    requires blocks { AreSmall blocks.now }
    requires within { at < length blocks.now }
    ensures { IfOk result (λ r. r ≡ best_row blocks.now at) }
{
    folded_blocks_keep();
    let block = &blocks[at];
    let limit = nonconstants_in(block.steps.as_slice()) as u128 + MAX_UNFINISHED;
    let growth = first_growth(alloc, block)?;
    grown(alloc, blocks, at, limit, growth, MAX_TURNS)
}
