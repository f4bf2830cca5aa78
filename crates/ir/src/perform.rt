//! What one step of a block does with values and arrays.
ghost use Rattle.std.specs.Prelude.{◌≡◌, ◌≤◌, set};
ghost use Rattle.ir.specs.Steps.{
  value_at,
  cells,
  chosen_of,
  step_value,
  step_arrays,
  step_strays,
  strays_past,
};

use crate::instr::Instr;
use el_base::List;
use word_ops::{apply1, apply2};

/// The value of that number, and 0 where there is none.
pub(crate) fn value_at(values: &[u64], number: u32) -> u64
    ensures { result ≡ value_at values.now number }
{
    values.get(number as usize).copied().unwrap_or(0)
}

/// The element at an address of an array, and 0 past the array.
fn element(arrays: &[List<u64>], array: u32, addr: u64) -> u64
    ensures { result ≡ value_at (cells arrays.now array) addr }
{
    match arrays.get(array as usize) {
        Some(cells) => cells.as_slice().get(addr as usize).copied().unwrap_or(0),
        None => 0,
    }
}

/// Whether an address is past an array: 1 or 0.
fn stray(arrays: &[List<u64>], array: u32, addr: u64) -> u64
    ensures is { result ≡ strays_past (cells arrays.now array) addr }
    ensures one { result ≤ 1 }
{
    match arrays.get(array as usize) {
        Some(cells) => { if addr < cells.len() as u64 { 0 } else { 1 } }
        None => 1,
    }
}

/// The value of a step.
pub(crate) fn step_value(step: &Instr, values: &[u64], arrays: &[List<u64>]) -> u64
    ensures { result ≡ step_value step.now values.now arrays.now }
{
    match *step {
        Instr::Const { width: _, value } => value,
        Instr::One(op, a) => apply1(op, value_at(values, a)),
        Instr::Two(op, a, b) => apply2(op, value_at(values, a), value_at(values, b)),
        Instr::Select {
            width: _,
            cond,
            yes,
            no,
        } => {
            if value_at(values, cond) == 0 {
                value_at(values, no)
            } else {
                value_at(values, yes)
            }
        }
        Instr::Load { array, addr } => element(arrays, array, value_at(values, addr)),
        Instr::Store {
            array: _,
            addr: _,
            value: _,
        } => 0,
    }
}

/// How many accesses past an array a step makes.
pub(crate) fn step_strays(step: &Instr, values: &[u64], arrays: &[List<u64>]) -> u64
    ensures is { result ≡ step_strays step.now values.now arrays.now }
    ensures one { result ≤ 1 }
{
    match *step {
        Instr::Load { array, addr } => stray(arrays, array, value_at(values, addr)),
        Instr::Store {
            array,
            addr,
            value: _,
        } => stray(arrays, array, value_at(values, addr)),
        Instr::Const { width: _, value: _ }
        | Instr::One(_, _)
        | Instr::Two(_, _, _)
        | Instr::Select {
            width: _,
            cond: _,
            yes: _,
            no: _,
        } => 0,
    }
}

/// Makes the store of a step, where it is one.
pub(crate) fn store(step: &Instr, values: &[u64], arrays: &mut List<List<u64>>)
    ensures { arrays.new ≡ step_arrays step.now values.now arrays.old }
{
    match *step {
        Instr::Store { array, addr, value } => {
            let addr = value_at(values, addr);
            let value = value_at(values, value);
            put(arrays, array, addr, value);
        }
        Instr::Const { width: _, value: _ }
        | Instr::One(_, _)
        | Instr::Two(_, _, _)
        | Instr::Select {
            width: _,
            cond: _,
            yes: _,
            no: _,
        }
        | Instr::Load { array: _, addr: _ } => {}
    }
}

/// Sets the element at an address of an array, and nothing past the array.
#[tactic(auto, using(crate::proofs::Performed::set_beyond))]
fn put(arrays: &mut List<List<u64>>, array: u32, addr: u64, value: u64)
    ensures { arrays.new ≡ set arrays.old array (set (cells arrays.old array) addr value) }
{
    let at = array as usize;
    if at < arrays.len() {
        put_element(&mut arrays.as_mut_slice()[at], addr, value);
    }
}

/// Sets the element at an address, and nothing past the array.
#[tactic(auto, using(crate::proofs::Performed::set_beyond))]
fn put_element(cells: &mut List<u64>, addr: u64, value: u64)
    ensures { cells.new ≡ set cells.old addr value }
{
    if addr < cells.len() as u64 {
        cells.set(addr as usize, value);
    }
}
