//! Which variables are live at each block.
ghost use Rattle.std.specs.Prelude.{◌≡◌, ◌+◌, ◌≤◌, ◌<◌, ◌^◌, length, set, IfOk, OnOk};
ghost use Rattle.el_base.specs.Limits.{IsNumbered};
ghost use Rattle.block_args.specs.Tables.{ListsLive, listed_at};
ghost use Rattle.block_args.specs.Indexes.{
  AreLiveAt,
  AreLiveFrom,
  ArePushed,
  IsIndexOf,
  ListsBelow,
  with_found,
};

use crate::tables::{blocks_before, empty_lists, readers, writers};
use crate::walk::{marks, reached};
use ir::{Cfg, List, Memory};
use std::alloc::Global;

/// For so many variables at once the blocks are found: so each block's list is come to once for all of them.
const AT_ONCE: u32 = 64;

/// The blocks of a graph by the variables that they read, by those that they write, and by the blocks that they jump to.
struct Index {
    readers: List<List<u32>>,
    writers: List<List<u32>>,
    before: List<List<u32>>,
}

// By hand, so that to let go of one is a call.
impl Drop for Index {
    fn drop(self) {
        let Index {
            readers: _readers,
            writers: _writers,
            before: _before,
        } = self;
    }
}

/// The variables that are live at each block, in order: a table with a list for each block.
///
/// For each variable the jumps are gone back from the blocks that read it, once from each block, so the time is that of
/// the blocks times the variables, and of the graph. Beside the table it takes 64 bytes for each block.
///
/// # Errors
///
/// [`Memory`] where memory is wanting.
pub fn live_variables(alloc: Global, cfg: &Cfg) -> Result<List<List<u32>>, Memory>
    requires vars { IsNumbered (length cfg.now.vars) }
    requires blocks { IsNumbered (length cfg.now.blocks) }
    ensures { IfOk result (ListsLive cfg.now) }
{
    let blocks = cfg.look();
    let index = make_index(alloc, cfg)?;
    let mut table = empty_lists(alloc, blocks.len())?;
    let count = cfg.vars.len() as u32;
    let mut first = 0;
    while first < count {
        let end = first + AT_ONCE.min(count - first);
        list_between(alloc, cfg, &index, first, end, &mut table)?;
        first = end;
    }
    Ok(table)
}

/// Adds at each block the variables from the first one up to the end that are live at it, behind those before them.
fn list_between(
    alloc: Global,
    cfg: &Cfg,
    index: &Index,
    first: u32,
    end: u32,
    table: &mut List<List<u32>>,
) -> Result<(), Memory>
    requires index { IsIndexOf cfg.now index.now }
    requires order { first ≤ end }
    requires within { end ≤ length cfg.now.vars }
    requires few { IsNumbered (length cfg.now.vars) }
    requires below { ListsBelow cfg.now first table.old }
    ensures { OnOk result (ListsBelow cfg.now end table.new) }
{
    let found = live_between(alloc, cfg, index, first, end)?;
    push_all(table, found.as_slice(), first)?;
    Ok(())
}

fn make_index(alloc: Global, cfg: &Cfg) -> Result<Index, Memory>
    requires { IsNumbered (length cfg.now.blocks) }
    ensures { IfOk result (IsIndexOf cfg.now) }
{
    let blocks = cfg.look();
    let readers = readers(alloc, cfg.vars.len(), blocks)?;
    let writers = writers(alloc, cfg.vars.len(), blocks)?;
    let before = blocks_before(alloc, blocks)?;
    Ok(Index {
        readers,
        writers,
        before,
    })
}

/// For each variable from the first one up to the end the marks of the blocks that it is live at.
fn live_between(
    alloc: Global,
    cfg: &Cfg,
    index: &Index,
    first: u32,
    end: u32,
) -> Result<Vec<Vec<bool>>, Memory>
    requires index { IsIndexOf cfg.now index.now }
    requires order { first ≤ end }
    requires within { end ≤ length cfg.now.vars }
    ensures live { IfOk result (λ found. AreLiveFrom cfg.now first found.items) }
    ensures many { IfOk result (λ found. first + length found.items ≡ end) }
{
    let mut found = Vec::new(alloc);
    for variable in first..end {
        found.push(live_at(alloc, cfg, index, variable)?)?;
    }
    Ok(found)
}

/// The marks of the blocks that a variable is live at.
fn live_at(alloc: Global, cfg: &Cfg, index: &Index, variable: u32) -> Result<Vec<bool>, Memory>
    requires index { IsIndexOf cfg.now index.now }
    requires variable { variable < length cfg.now.vars }
    ensures { IfOk result (λ live. AreLiveAt cfg.now variable live.items) }
{
    let _blocks = cfg.look();
    let readers = listed_at(index.readers.as_slice(), variable);
    let writers = listed_at(index.writers.as_slice(), variable);
    let closed = marks(alloc, index.before.len(), writers)?;
    let live = reached(alloc, index.before.as_slice(), closed.as_slice(), readers)?;
    Ok(live)
}

/// What a table lists at a number, and nothing past the table.
pub(crate) fn listed_at(table: &[List<u32>], number: u32) -> &[u32]
    ensures { result.now ≡ listed_at table.now number }
{
    match table.get(number as usize) {
        Some(list) => list.as_slice(),
        None => &[],
    }
}

/// Adds at each block the variables, numbered from the first one on, whose marks have it.
fn push_all(table: &mut List<List<u32>>, found: &[Vec<bool>], first: u32) -> Result<(), Memory>
    requires { first + length found.now < 2 ^ 32 }
    ensures { OnOk result (ArePushed found.now first table.old table.new) }
{
    for block in 0..table.len() {
        push_found(&mut table.as_mut_slice()[block], found, first, block)?;
    }
    Ok(())
}

/// Adds the variables, numbered from the first one on, whose marks have the block.
fn push_found(
    list: &mut List<u32>,
    found: &[Vec<bool>],
    first: u32,
    block: usize,
) -> Result<(), Memory>
    requires { first + length found.now < 2 ^ 32 }
    ensures { OnOk result (list.new ≡ with_found found.now first block list.old) }
{
    let mut variable = first;
    for marks in found {
        if marks.get(block).copied().unwrap_or(false) {
            list.push(variable)?;
        }
        variable += 1;
    }
    Ok(())
}
