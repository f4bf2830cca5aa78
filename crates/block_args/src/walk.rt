//! Walks back along the jumps: which blocks come to one of some blocks with no closed block on the way.
ghost use Rattle.std.specs.Prelude.{◌≡◌, ◌<◌, set, length, replicate, true, false, IsTrue, IfOk, OnOk};
ghost use Rattle.block_args.specs.Tables.{listed_at};
ghost use Rattle.block_args.specs.Walks.{
  marked,
  walk,
  is_new,
  visited,
  visited_all,
  AreReached,
};

use ir::{List, Memory};
use std::alloc::Global;

/// The marks of the blocks, so many, that are in a list.
pub(crate) fn marks(alloc: Global, count: usize, blocks: &[u32]) -> Result<Vec<bool>, Memory>
    ensures { IfOk result (λ marks. marks.items ≡ marked (replicate count false) blocks.now) }
{
    let mut marks: Vec<bool> = vec![in alloc; false; count]?;
    for block in blocks {
        mark(&mut marks, *block);
    }
    Ok(marks)
}

#[tactic(auto, using(std::proofs::lemmas::List::set_past))]
fn mark(marks: &mut Vec<bool>, block: u32)
    ensures { marks.new.items ≡ set marks.old.items block true }
{
    let at = block as usize;
    if at < marks.len() {
        marks[at] = true;
    }
}

/// Marks the blocks from which a way along the jumps leads to one of the starts, with none that is closed before that.
///
/// `before` are the blocks that jump to each. Each block is gone on from once.
pub(crate) fn reached(
    alloc: Global,
    before: &[List<u32>],
    closed: &[bool],
    starts: &[u32],
) -> Result<Vec<bool>, Memory>
    ensures { IfOk result (λ seen. AreReached before.now closed.now starts.now seen.items) }
{
    let mut seen: Vec<bool> = vec![in alloc; false; before.len()]?;
    let mut ahead = Vec::new(alloc);
    visit_all(starts, &[], &mut seen, &mut ahead)?;
    'walk: while let Some(block) = ahead.pop() {
        visit_before(before, block, closed, &mut seen, &mut ahead)?;
    }
    Ok(seen)
}

/// Visits the blocks that jump to a block.
fn visit_before(
    before: &[List<u32>],
    block: u32,
    closed: &[bool],
    seen: &mut Vec<bool>,
    ahead: &mut Vec<u32>,
) -> Result<(), Memory>
    ensures { OnOk result (walk seen.new.items ahead.new.items
        ≡ visited_all closed.now (walk seen.old.items ahead.old.items)
        (listed_at before.now block)) }
{
    match before.get(block as usize) {
        Some(blocks) => visit_all(blocks.as_slice(), closed, seen, ahead),
        None => Ok(()),
    }
}

/// Marks those of the blocks that are neither closed nor seen, and keeps them to go on from.
fn visit_all(
    blocks: &[u32],
    closed: &[bool],
    seen: &mut Vec<bool>,
    ahead: &mut Vec<u32>,
) -> Result<(), Memory>
    ensures { OnOk result (walk seen.new.items ahead.new.items
        ≡ visited_all closed.now (walk seen.old.items ahead.old.items) blocks.now) }
{
    for block in blocks {
        visit(*block, closed, seen, ahead)?;
    }
    Ok(())
}

fn visit(
    block: u32,
    closed: &[bool],
    seen: &mut Vec<bool>,
    ahead: &mut Vec<u32>,
) -> Result<(), Memory>
    ensures { OnOk result (walk seen.new.items ahead.new.items
        ≡ visited closed.now (walk seen.old.items ahead.old.items) block) }
{
    let at = block as usize;
    if is_new(closed, seen.as_slice(), at) {
        seen[at] = true;
        ahead.push(block)?;
    }
    Ok(())
}

fn is_new(closed: &[bool], seen: &[bool], at: usize) -> bool
    ensures is { result ≡ is_new closed.now seen.now at }
    ensures within { IsTrue result → at < length seen.now }
{
    let is_closed = closed.get(at).copied().unwrap_or(false);
    let is_seen = seen.get(at).copied().unwrap_or(true);
    !(is_closed || is_seen)
}
