//! What a run of statements works on.
ghost use Rattle.std.specs.Prelude.{◌≡◌, ◌+◌, ◌^◌, ◌<◌, length, true, false, set};
ghost use Rattle.ref_interp.specs.Machines.{cell_list};

use crate::cells::{Cells, Trace};
use el_base::List;

/// How a statement ends. Where it is undefined, the trace has the place; where it returns, the machine has the value.
#[derive(Clone, Copy)]
pub(crate) enum Ending {
    Normally,
    Break,
    Continue,
    Return,
    Undefined,
    OutOfTurns,
}

/// What a condition gives.
#[derive(Clone, Copy)]
pub(crate) enum Test {
    Holds,
    Fails,
    Undefined,
    OutOfTurns,
}

/// The cells, the trace of the statement that runs, the turns that are left, and the value that was returned.
#[derive(Drop)]
pub(crate) struct Machine {
    pub(crate) cells: Cells,
    pub(crate) trace: Trace,
    pub(crate) left: u64,
    pub(crate) value: Option<u64>,
}

impl Machine {
    /// Takes turns; where fewer are left, it takes all.
    pub(crate) fn take(&mut self, turns: u64) -> bool
        ensures yes { result ≡ true → self.new.left + turns ≡ self.old.left }
        ensures no { result ≡ false → (self.old.left < turns) × (self.new.left ≡ 0) }
        ensures cells { self.new.cells ≡ self.old.cells }
        ensures trace { self.new.trace ≡ self.old.trace }
        ensures range { self.old.left < 2 ^ 64 }
    {
        if turns <= self.left {
            self.left -= turns;
            true
        } else {
            self.left = 0;
            false
        }
    }
}

/// Sets what a variable holds, where there is one of this number.
#[tactic(auto, using(crate::proofs::Written::set_beyond))]
pub(crate) fn put_var(vars: &mut List<Option<u64>>, var: u32, cell: Option<u64>)
    ensures { vars.new ≡ set vars.old var cell }
{
    let at = var as usize;
    if at < vars.len() {
        vars.set(at, cell);
    }
}

/// Sets an element of an array, and nothing past the array.
#[tactic(auto, using(crate::proofs::Written::set_beyond))]
pub(crate) fn put_element(arrays: &mut List<List<u64>>, array: u32, place: u64, pattern: u64)
    ensures put { arrays.new
        ≡ set arrays.old array (set (cell_list arrays.old array) place pattern) }
    ensures few { length (cell_list arrays.old array) < 2 ^ 64 }
{
    let at = array as usize;
    if at < arrays.len() {
        put_cell(&mut arrays.as_mut_slice()[at], place, pattern);
    }
}

#[tactic(auto, using(crate::proofs::Written::set_beyond))]
fn put_cell(cells: &mut List<u64>, place: u64, pattern: u64)
    ensures put { cells.new ≡ set cells.old place pattern }
    ensures few { length cells.old < 2 ^ 64 }
{
    if place < cells.len() as u64 {
        cells.set(place as usize, pattern);
    }
}
