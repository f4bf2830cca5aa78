//! Blocks in a row as one.
ghost use Rattle.std.specs.Prelude.{
  ◌≡◌,
  ◌<◌,
  ◌==◌,
  length,
  set,
  get_or,
  slice_set,
  replicate,
  option_map,
  IfOk,
};
ghost use Rattle.ir.specs.declared.graph.To.{To};
ghost use Rattle.block_merge.specs.declared.joining.Edges.TheVariants.{Zero};
ghost use Rattle.block_merge.specs.Renamed.{block_of};
ghost use Rattle.block_merge.specs.Joined.{
  joined,
  idle,
  joined_at,
  edges_to,
  next_in_row,
  row_joined,
  all_joined,
};
ghost use Rattle.block_merge.specs.Edges.{
  more_edges,
  counted_edge,
  counted_jump,
  counted_all,
  CountsEdges,
};
ghost use Rattle.block_merge.specs.Parts.{AreBlocks, CanBeJoined, given_on, TakesIn};

use crate::moving::Numbers;
use ir::{Block, Jump, List, Memory, To};
use std::alloc::Global;
use std::mem;

/// How many edges lead to a block.
#[derive(Clone, Copy, PartialEq, Eq)]
enum Edges {
    Zero,
    One,
    More,
}

impl Edges {
    /// One more.
    fn more(self) -> Edges
        ensures { result ≡ more_edges self }
    {
        match self {
            Edges::Zero => Edges::One,
            Edges::One | Edges::More => Edges::More,
        }
    }
}

/// Counts an edge at its target.
#[tactic(auto, using(std::proofs::lemmas::List::set_past))]
fn count_edge(counts: &mut Vec<Edges>, to: &To)
    ensures { counts.new.items ≡ counted_edge counts.old.items to.now }
{
    let at = to.block as usize;
    if at < counts.len() {
        counts[at] = counts[at].more();
    }
}

/// Counts the edges of a jump.
fn count_jump(counts: &mut Vec<Edges>, jump: &Jump)
    ensures { counts.new.items ≡ counted_jump counts.old.items jump.now }
{
    match jump {
        Jump::Go(to) => count_edge(counts, to),
        Jump::Two { cond: _, yes, no } => {
            count_edge(counts, yes);
            count_edge(counts, no);
        }
        Jump::Return(_) => {}
    }
}

/// How many edges lead to each block.
fn edge_counts(alloc: Global, blocks: &[Block]) -> Result<Vec<Edges>, Memory>
    ensures { IfOk result (λ counts. counts.items
        ≡ counted_all (replicate (length blocks.now) Zero) blocks.now) }
{
    let mut counts: Vec<Edges> = vec![in alloc; Edges::Zero; blocks.len()]?;
    for block in blocks {
        count_jump(&mut counts, &block.jump);
    }
    Ok(counts)
}

/// Whether one edge leads to a block.
fn has_one_edge(counts: &[Edges], block: usize, blocks: &[Block]) -> bool
    requires { CountsEdges blocks.now counts.now }
    ensures { result ≡ (edges_to blocks.now block == 1) }
{
    match counts.get(block) {
        Some(count) => *count == Edges::One,
        None => false,
    }
}

/// The next block of the row in which a block stands.
fn next_in_row(blocks: &[Block], counts: &[Edges], at: usize) -> Option<usize>
    requires { CountsEdges blocks.now counts.now }
    ensures { result ≡ option_map (λ to. to.block) (next_in_row blocks.now at) }
{
    match &blocks.get(at)?.jump {
        Jump::Go(to) => {
            let next = to.block as usize;
            if next != at && has_one_edge(counts, next, blocks) {
                Some(next)
            } else {
                None
            }
        }
        Jump::Two {
            cond: _,
            yes: _,
            no: _,
        }
        | Jump::Return(_) => None,
    }
}

/// What a jump without a condition hands on.
fn given_on(alloc: Global, jump: Jump) -> List<u32>
    ensures { result ≡ given_on jump }
{
    match jump {
        Jump::Go(to) => to.with,
        Jump::Two {
            cond: _,
            yes: _,
            no: _,
        }
        | Jump::Return(_) => List::new(alloc),
    }
}

/// A block and behind it the one that it leads to, which it leads to without a condition.
///
/// # Errors
///
/// [`Memory`] where memory is wanting.
pub fn join(alloc: Global, block: Block, next: &Block) -> Result<Block, Memory>
    requires { CanBeJoined block next.now }
    ensures { IfOk result (λ b. b ≡ joined block (given_on block.jump) next.now) }
{
    let Block { args, steps, jump } = block;
    let numbers = Numbers {
        args: given_on(alloc, jump),
        steps: (args.len() + steps.len()) as u32,
    };
    let jump = numbers.jump(alloc, &next.jump)?;
    let steps = numbers.add_steps(steps, next.steps.as_slice())?;
    Ok(Block { args, steps, jump })
}

/// A block that leads to itself and does nothing.
fn idle(alloc: Global, number: u32) -> Block
    ensures { result ≡ idle number }
{
    Block {
        args: List::new(alloc),
        steps: List::new(alloc),
        jump: Jump::Go(To {
            block: number,
            with: List::new(alloc),
        }),
    }
}

/// Takes a block out of its place, where another is put.
fn replace(blocks: &mut List<Block>, at: usize, block: Block) -> Block
    requires { at < length blocks.old }
    ensures taken { result ≡ block_of blocks.old at }
    ensures others { blocks.new ≡ slice_set blocks.old at block }
{
    mem::replace(&mut blocks.as_mut_slice()[at], block)
}

/// The blocks where the block at a place takes in the next of its row.
fn take_in(
    alloc: Global,
    blocks: List<Block>,
    at: usize,
    next: usize,
) -> Result<List<Block>, Memory>
    requires { TakesIn blocks at next }
    ensures { IfOk result (λ bs. (to : To) → next_in_row blocks at ≡ Some to
        → bs ≡ joined_at blocks at to) }
{
    let mut blocks = blocks;
    let block = replace(&mut blocks, at, idle(alloc, next as u32));
    let joined = join(alloc, block, &blocks.as_slice()[next])?;
    blocks.set(at, joined);
    blocks.set(next, idle(alloc, next as u32));
    Ok(blocks)
}

/// The blocks where the block at a place takes in all of the row behind it.
fn row_joined(
    alloc: Global,
    blocks: List<Block>,
    counts: &[Edges],
    at: usize,
) -> Result<List<Block>, Memory>
    requires blocks { AreBlocks blocks }
    requires counts { CountsEdges blocks counts.now }
    ensures { IfOk result (λ bs. bs ≡ row_joined (length blocks) blocks at) }
{
    let mut blocks = blocks;
    let count = blocks.len();
    for joins in 0..count {
        match next_in_row(blocks.as_slice(), counts, at) {
            Some(next) => blocks = take_in(alloc, blocks, at, next)?,
            None => return Ok(blocks),
        }
    }
    Ok(blocks)
}

/// The blocks where each takes in the row behind it, one after the other.
pub(crate) fn all_joined(alloc: Global, blocks: List<Block>) -> Result<List<Block>, Memory>
    requires { AreBlocks blocks }
    ensures { IfOk result (λ bs. bs ≡ all_joined blocks) }
{
    let counts = edge_counts(alloc, blocks.as_slice())?;
    let mut blocks = blocks;
    let count = blocks.len();
    for at in 0..count {
        blocks = row_joined(alloc, blocks, counts.as_slice(), at)?;
    }
    Ok(blocks)
}
