//! Whether steps fit the values before them.
ghost use Rattle.std.specs.Prelude.{◌≡◌, ◌^◌, ◌&&◌, nat_lt, slice_get, map, Some, IfOk};
ghost use Rattle.net_types.specs.Rules.{is_width};
ghost use Rattle.ir.specs.Shapes.{element_width, step_width};
ghost use Rattle.graph_check.specs.Fits.{has_width, load_fits, store_fits, step_fits, shape_if};

use ir::{Array, Instr, List, Memory};
use std::alloc::Global;

pub(crate) fn is_width(width: u32) -> bool
    ensures { result ≡ is_width width }
{
    width == 8 || width == 16 || width == 32 || width == 64
}

// Whether the width is one of the four, and the value is below 2 to its power.
fn is_pattern(width: u32, value: u64) -> bool
    ensures { result ≡ (is_width width && nat_lt value (2 ^ width)) }
{
    match width {
        8 => value < 0x100,
        16 => value < 0x1_0000,
        32 => value < 0x1_0000_0000,
        64 => true,
        _ => false,
    }
}

/// Whether a value has a width, by the widths of the values so far.
pub(crate) fn has_width(widths: &[Option<u32>], value: u32, width: u32) -> bool
    ensures { result ≡ has_width widths.now value width }
{
    match widths.get(value as usize) {
        Some(Some(other)) => *other == width,
        Some(None) | None => false,
    }
}

// The width of the elements of an array.
fn element_width(arrays: &[Array], array: u32) -> Option<u32>
    ensures { result ≡ element_width (slice_get arrays.now array) }
{
    match arrays.get(array as usize) {
        Some(array) => Some(array.ty.width()),
        None => None,
    }
}

fn load_fits(element: Option<u32>, widths: &[Option<u32>], addr: u32) -> bool
    ensures { result ≡ load_fits element widths.now addr }
{
    match element {
        Some(_) => has_width(widths, addr, 64),
        None => false,
    }
}

fn store_fits(element: Option<u32>, widths: &[Option<u32>], addr: u32, value: u32) -> bool
    ensures { result ≡ store_fits element widths.now addr value }
{
    match element {
        Some(width) => has_width(widths, addr, 64) && has_width(widths, value, width),
        None => false,
    }
}

// Whether a step fits the values before it.
fn step_fits(arrays: &[Array], widths: &[Option<u32>], step: &Instr) -> bool
    ensures { result ≡ step_fits arrays.now widths.now step.now }
{
    match *step {
        Instr::Const { width, value } => is_pattern(width, value),
        Instr::One(op, a) => has_width(widths, a, op.operand_width()),
        Instr::Two(op, a, b) => {
            let width = op.operand_width();
            has_width(widths, a, width) && has_width(widths, b, width)
        }
        Instr::Select {
            width,
            cond,
            yes,
            no,
        } => {
            is_width(width)
                && has_width(widths, cond, 32)
                && has_width(widths, yes, width)
                && has_width(widths, no, width)
        }
        Instr::Load { array, addr } => load_fits(element_width(arrays, array), widths, addr),
        Instr::Store { array, addr, value } => {
            store_fits(element_width(arrays, array), widths, addr, value)
        }
    }
}

// The width of the value of a step, where it has one.
fn step_width(arrays: &[Array], step: &Instr) -> Option<u32>
    ensures { result ≡ step_width arrays.now step.now }
{
    match *step {
        Instr::Const { width, value: _ } => Some(width),
        Instr::One(op, _) => Some(op.result_width()),
        Instr::Two(op, _, _) => Some(op.result_width()),
        Instr::Select {
            width,
            cond: _,
            yes: _,
            no: _,
        } => Some(width),
        Instr::Load { array, addr: _ } => element_width(arrays, array),
        Instr::Store {
            array: _,
            addr: _,
            value: _,
        } => None,
    }
}

// The widths of the arguments.
fn argument_widths(alloc: Global, args: &[u32]) -> Result<List<Option<u32>>, Memory>
    ensures { IfOk result (λ ws. ws ≡ map Some args.now) }
{
    let mut widths = List::new(alloc);
    for width in args {
        widths.push(Some(*width))?;
    }
    Ok(widths)
}

/// The widths of the values of a block, where each step fits the values before it.
pub(crate) fn shape(
    alloc: Global,
    arrays: &[Array],
    args: &[u32],
    steps: &[Instr],
) -> Result<Option<List<Option<u32>>>, Memory>
    ensures { IfOk result (λ found. found ≡ shape_if arrays.now (map Some args.now) steps.now) }
{
    let mut widths = argument_widths(alloc, args)?;
    for step in steps {
        if !step_fits(arrays, widths.as_slice(), step) {
            return Ok(None);
        }
        widths.push(step_width(arrays, step))?;
    }
    Ok(Some(widths))
}
