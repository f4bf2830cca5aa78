//! The accesses of blocks.
ghost use Rattle.std.specs.Prelude.{◌≡◌, ◌++◌, All, IfOk, OnOk, length};
ghost use Rattle.el_base.specs.Limits.{IsNumbered};
ghost use Rattle.ir.specs.Accesses.{is_on, places_from, access_if, block_accesses, accesses_from};

use ir::{Access, Block, Instr, List, Memory};
use std::alloc::Global;

/// The accesses of the blocks, in order, to each array that is not only read.
///
/// # Errors
///
/// [`Memory`] where memory is wanting.
pub fn accesses(alloc: Global, read_only: &[bool], blocks: &[Block]) -> Result<List<Access>, Memory>
    requires arrays { IsNumbered (length read_only.now) }
    requires blocks { IsNumbered (length blocks.now) }
    requires steps { All (λ b. IsNumbered (length b.steps)) blocks.now }
    ensures { IfOk result (λ found. found ≡ accesses_from read_only.now 0 blocks.now) }
{
    let mut found = List::new(alloc);
    let mut number = 0;
    for block in blocks {
        add_block(alloc, number, block.steps.as_slice(), read_only, &mut found)?;
        number += 1;
    }
    Ok(found)
}

// Adds the accesses of a block.
fn add_block(
    alloc: Global,
    block: u32,
    steps: &[Instr],
    read_only: &[bool],
    found: &mut List<Access>,
) -> Result<(), Memory>
    requires arrays { IsNumbered (length read_only.now) }
    requires steps { IsNumbered (length steps.now) }
    ensures { OnOk result (found.new ≡ found.old
        ++ block_accesses block steps.now 0 read_only.now) }
{
    let mut array = 0;
    for is_read_only in read_only {
        if !*is_read_only {
            add_access(alloc, block, array, steps, found)?;
        }
        array += 1;
    }
    Ok(())
}

// Adds the access of a block to an array, where there is one.
fn add_access(
    alloc: Global,
    block: u32,
    array: u32,
    steps: &[Instr],
    found: &mut List<Access>,
) -> Result<(), Memory>
    requires { IsNumbered (length steps.now) }
    ensures { OnOk result (found.new ≡ found.old
        ++ access_if block array (places_from array 0 steps.now)) }
{
    let places = places(alloc, array, steps)?;
    if places.is_empty() {
        return Ok(());
    }
    found.push(Access {
        block,
        array,
        steps: places,
    })?;
    Ok(())
}

// The places of the steps that load from an array or store to it.
fn places(alloc: Global, array: u32, steps: &[Instr]) -> Result<List<u32>, Memory>
    requires { IsNumbered (length steps.now) }
    ensures { IfOk result (λ places. places ≡ places_from array 0 steps.now) }
{
    let mut places = List::new(alloc);
    let mut place = 0;
    for step in steps {
        if is_on(array, step) {
            places.push(place)?;
        }
        place += 1;
    }
    Ok(places)
}

// Whether a step loads from an array or stores to it.
fn is_on(array: u32, step: &Instr) -> bool
    ensures { result ≡ is_on array step.now }
{
    match *step {
        Instr::Load {
            array: loaded,
            addr: _,
        } => loaded == array,
        Instr::Store {
            array: stored,
            addr: _,
            value: _,
        } => stored == array,
        Instr::Const { width: _, value: _ }
        | Instr::One(_, _)
        | Instr::Two(_, _, _)
        | Instr::Select {
            width: _,
            cond: _,
            yes: _,
            no: _,
        } => false,
    }
}
