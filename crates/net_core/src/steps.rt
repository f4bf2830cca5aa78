//! The steps of a firing beside its tokens: the unit's cell is changed, and a stray is counted.

ghost use Rattle.std.specs.Prelude.{◌≡◌, ◌≤◌, ◌^◌, ℕ, get_or, set, true};
ghost use Rattle.net_types.specs.Nets.{kind_of, uses};
ghost use Rattle.lsq_core.specs.Views.{count_of};
ghost use Rattle.net_core.specs.declared.cell.Cell.TheVariants.{Plain};
ghost use Rattle.net_core.specs.Fire.{counted, raised};
ghost use Rattle.net_core.specs.Plans.{admits, next_of, cell_after, strays_after};

use crate::cell::Cell;
use crate::plan::Change;
use net_check::Checked;
use net_types::Unit;

/// Makes a change of the cell of a unit, and tells whether an address lay past the array.
#[inline(always)]
pub(crate) fn change_cell(cells: &mut Vec<Cell>, unit: u32, change: Change) -> bool
    requires admits { admits (get_or cells.old.items unit Plain) change ≡ true }
    requires serial { next_of (get_or cells.old.items unit Plain) ≤ 2 ^ 62 }
    ensures cells { cells.new.items
        ≡ set cells.old.items unit (cell_after change (get_or cells.old.items unit Plain)) }
    ensures stray { count_of result ≡ strays_after change (get_or cells.old.items unit Plain) }
{
    let at = unit as usize;
    if at < cells.len() {
        let cell = &mut cells[at];
        cell.change(change)
    } else {
        Cell::Plain.change(change)
    }
}

/// Counts a stray of the array that a unit works on, where there is one.
#[inline(always)]
pub fn count_strays(strays: &mut Vec<u64>, net: &Checked, unit: u32, stray: bool)
    requires { (a : ℕ) → get_or strays.old.items a 0 ≤ 2 ^ 62 }
    ensures { strays.new.items
        ≡ counted (uses (kind_of net.now unit)) (count_of stray) strays.old.items }
{
    if stray {
        count_stray(strays, net, unit);
    }
}

/// Counts a stray of the array that a unit works on.
fn count_stray(strays: &mut Vec<u64>, net: &Checked, unit: u32)
    requires { (a : ℕ) → get_or strays.old.items a 0 ≤ 2 ^ 62 }
    ensures { strays.new.items ≡ counted (uses (kind_of net.now unit)) 1 strays.old.items }
{
    let units = net.net().units.as_slice();
    if (unit as usize) < units.len() {
        match &units[unit as usize] {
            Unit::Read(array) => raise(strays, *array),
            Unit::Lsq { array, .. } => raise(strays, *array),
            _ => {}
        }
    }
}

fn raise(strays: &mut Vec<u64>, array: u32)
    requires { (a : ℕ) → get_or strays.old.items a 0 ≤ 2 ^ 62 }
    ensures { strays.new.items ≡ raised 1 strays.old.items array }
{
    let at = array as usize;
    if at < strays.len() {
        strays[at] += 1;
    }
}
