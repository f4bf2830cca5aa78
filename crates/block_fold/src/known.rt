//! What is known of arrays while a block is made: values that stand at addresses.
ghost use Rattle.std.specs.Prelude.{◌≡◌, ◌==◌, ◌&&◌, IfOk};
ghost use Rattle.std.specs.List.{filter};
ghost use Rattle.block_fold.specs.Addresses.{
  known_value,
  sum_at,
  sum_with,
  same_base,
  differ,
  stays_known,
};

use crate::numbers::{const_at, step_at};
use ir::{Instr, List, Memory, Op2};
use std::alloc::Global;

/// A value stands at an address of an array, by their numbers.
#[derive(Clone, Copy)]
pub(crate) struct Known {
    pub(crate) array: u32,
    pub(crate) addr: u32,
    pub(crate) value: u32,
}

/// An address as a value, if any, and a constant that is added to it.
#[derive(Clone, Copy)]
struct Sum {
    base: Option<u32>,
    constant: u64,
}

/// The value that is known to stand at an address of an array.
#[tactic(auto, using(crate::proofs::CodeLemmas::known_here, crate::proofs::CodeLemmas::known_behind))]
pub(crate) fn known_value(known: &[Known], array: u32, addr: u32) -> Option<u32>
    ensures { result ≡ known_value known.now array addr }
{
    for entry in known {
        if is_at(entry, array, addr) {
            return Some(entry.value);
        }
    }
    None
}

/// Whether an entry is of that address of that array.
fn is_at(entry: &Known, array: u32, addr: u32) -> bool
    ensures { result ≡ ((entry.now.array == array) && (entry.now.addr == addr)) }
{
    entry.array == array && entry.addr == addr
}

/// A value as a sum of 64 bits.
fn sum_at(args: u32, steps: &[Instr], value: u32) -> Sum
    ensures { result ≡ sum_at args steps.now value }
{
    let alone = Sum {
        base: Some(value),
        constant: 0,
    };
    match step_at(args, steps, value) {
        Some(Instr::Const { width: _, value: c }) => Sum {
            base: None,
            constant: c,
        },
        Some(Instr::Two(op, x, y)) => {
            if op == Op2::Add64 {
                sum_with(value, x, const_at(args, steps, y))
            } else {
                alone
            }
        }
        Some(Instr::One(_, _))
        | Some(
            Instr::Select {
                width: _,
                cond: _,
                yes: _,
                no: _,
            },
        )
        | Some(Instr::Load { array: _, addr: _ })
        | Some(
            Instr::Store {
                array: _,
                addr: _,
                value: _,
            },
        )
        | None => alone,
    }
}

/// A value that is the sum of another and a constant, if that is one.
fn sum_with(value: u32, base: u32, constant: Option<u64>) -> Sum
    ensures { result ≡ sum_with value base constant }
{
    match constant {
        Some(constant) => Sum {
            base: Some(base),
            constant,
        },
        None => Sum {
            base: Some(value),
            constant: 0,
        },
    }
}

/// Whether two sums have one base.
fn same_base(a: Option<u32>, b: Option<u32>) -> bool
    ensures { result ≡ same_base a b }
{
    match (a, b) {
        (None, None) => true,
        (Some(x), Some(y)) => x == y,
        (None, Some(_)) | (Some(_), None) => false,
    }
}

/// Whether two addresses are surely not equal.
fn differ(args: u32, steps: &[Instr], a: u32, b: u32) -> bool
    ensures { result ≡ differ args steps.now a b }
{
    let a = sum_at(args, steps, a);
    let b = sum_at(args, steps, b);
    same_base(a.base, b.base) && a.constant != b.constant
}

/// Whether an entry stays known over a store.
fn stays_known(args: u32, steps: &[Instr], array: u32, addr: u32, entry: Known) -> bool
    ensures { result ≡ stays_known args steps.now array addr entry }
{
    entry.array != array || differ(args, steps, entry.addr, addr)
}

/// The entries that stay known over a store.
pub(crate) fn known_over(
    alloc: Global,
    args: u32,
    steps: &[Instr],
    array: u32,
    addr: u32,
    known: &[Known],
) -> Result<List<Known>, Memory>
    ensures { IfOk result (λ ks. ks ≡ filter (stays_known args steps.now array addr) known.now) }
{
    let mut kept = List::new(alloc);
    for entry in known {
        if stays_known(args, steps, array, addr, *entry) {
            kept.push(*entry)?;
        }
    }
    Ok(kept)
}
