//! Which arrays are only read.
ghost use Rattle.std.specs.Prelude.{◌≡◌, IfOk};
ghost use Rattle.el_base.specs.Limits.{IsNumbered};
ghost use Rattle.lsq_groups.specs.Stores.{is_store_to, has_store_to, is_stored_to, TellsReadOnly};

use ir::{Block, Instr, List, Memory};
use std::alloc::Global;

/// Of the first arrays, so many, whether no step stores to them.
///
/// # Errors
///
/// [`Memory`] where memory is wanting.
pub fn read_only(alloc: Global, count: u32, blocks: &[Block]) -> Result<List<bool>, Memory>
    ensures { IfOk result (TellsReadOnly blocks.now count) }
{
    let mut list = List::new(alloc);
    for array in 0..count {
        list.push(!is_stored_to(array, blocks))?;
    }
    Ok(list)
}

// Whether some step of some block stores to an array.
fn is_stored_to(array: u32, blocks: &[Block]) -> bool
    ensures { result ≡ is_stored_to array blocks.now }
{
    for block in blocks {
        if has_store_to(array, block) {
            return true;
        }
    }
    false
}

// Whether some step of the block stores to an array.
fn has_store_to(array: u32, block: &Block) -> bool
    ensures { result ≡ has_store_to array block.now }
{
    for step in block.steps.as_slice() {
        if is_store_to(array, step) {
            return true;
        }
    }
    false
}

fn is_store_to(array: u32, step: &Instr) -> bool
    ensures { result ≡ is_store_to array step.now }
{
    match *step {
        Instr::Store {
            array: stored,
            addr: _,
            value: _,
        } => stored == array,
        Instr::Const { width: _, value: _ }
        | Instr::One(_, _)
        | Instr::Two(_, _, _)
        | Instr::Select {
            width: _,
            cond: _,
            yes: _,
            no: _,
        }
        | Instr::Load { array: _, addr: _ } => false,
    }
}
