//! What the opening state is made of.

ghost use Rattle.std.specs.Prelude.{◌≡◌, ◌<◌, ℕ, Some, get_or, set, length, IfOk};
ghost use Rattle.el_base.specs.Limits.{IsNumbered};
ghost use Rattle.net_types.specs.declared.net.Unit.TheVariants.{Sink};
ghost use Rattle.net_types.specs.Nets.{owns};
ghost use Rattle.net_check.specs.Shapes.{HasShape};
ghost use Rattle.net_core.specs.private.Openings.{AreFresh, AreOwners, AreHomes, IsExitIn, home_by, owners_with};

use crate::cell::Cell;
use net_types::{List, Memory, Unit};
use std::alloc::Global;

/// Where an array lies.
#[derive(Drop)]
pub enum Home {
    /// Here: its elements, which no firing writes.
    Here(List<u64>),
    /// In the queue of the unit of this number.
    Queue(u32),
}

/// What the units keep at first.
///
/// # Errors
///
/// [`Memory`] where memory is wanting.
pub(crate) fn fresh_cells(
    alloc: Global,
    units: &[Unit],
    arrays: &[List<u64>],
) -> Result<Vec<Cell>, Memory>
    requires { (u : ℕ) → HasShape (get_or units.now u (Sink 0)) }
    ensures { IfOk result (λ cells. AreFresh arrays.now units.now cells.items) }
{
    let mut cells = Vec::with_capacity(alloc, units.len())?;
    for unit in units {
        cells.push(Cell::new(alloc, unit, arrays)?)?;
    }
    Ok(cells)
}

/// Of each array the queue that works on it.
///
/// # Errors
///
/// [`Memory`] where memory is wanting.
pub(crate) fn owners(
    alloc: Global,
    units: &[Unit],
    arrays: usize,
) -> Result<Vec<Option<u32>>, Memory>
    requires { IsNumbered (length units.now) }
    ensures len { IfOk result (λ owners. length owners.items ≡ arrays) }
    ensures all { IfOk result (λ owners. AreOwners units.now (length units.now) owners.items) }
{
    let mut owners: Vec<Option<u32>> = vec![in alloc; None; arrays]?;
    for at in 0..units.len() {
        note_owner(&mut owners, &units[at], at as u32);
    }
    Ok(owners)
}

/// Notes a unit that is a queue.
fn note_owner(owners: &mut Vec<Option<u32>>, unit: &Unit, number: u32)
    ensures { owners.new.items ≡ owners_with (owns unit.now) number owners.old.items }
{
    if let Unit::Lsq { array, .. } = unit {
        set_owner(owners, *array, number);
    }
}

fn set_owner(owners: &mut Vec<Option<u32>>, array: u32, unit: u32)
    ensures { owners.new.items ≡ set owners.old.items array (Some unit) }
{
    let at = array as usize;
    if at < owners.len() {
        owners[at] = Some(unit);
    }
}

/// Where the arrays lie.
///
/// # Errors
///
/// [`Memory`] where memory is wanting.
pub(crate) fn homes(
    alloc: Global,
    owners: &[Option<u32>],
    arrays: &[List<u64>],
) -> Result<Vec<Home>, Memory>
    requires { length owners.now ≡ length arrays.now }
    ensures len { IfOk result (λ homes. length homes.items ≡ length arrays.now) }
    ensures all { IfOk result (λ homes. AreHomes owners.now arrays.now homes.items) }
{
    let mut homes = Vec::new(alloc);
    for array in arrays {
        let owner = owners[homes.len()];
        homes.push(home_of(owner, array)?)?;
    }
    Ok(homes)
}

/// Where an array lies.
///
/// # Errors
///
/// [`Memory`] where memory is wanting.
fn home_of(owner: Option<u32>, array: &List<u64>) -> Result<Home, Memory>
    ensures { IfOk result (λ h. h ≡ home_by owner array.now) }
{
    match owner {
        None => Ok(Home::Here(array.copy()?)),
        Some(unit) => Ok(Home::Queue(unit)),
    }
}

/// The number of the exit; 0 where there is none.
pub(crate) fn exit_of(units: &[Unit]) -> u32
    requires { IsNumbered (length units.now) }
    ensures { IsExitIn units.now result }
{
    for at in 0..units.len() {
        if matches!(units[at], Unit::Exit) {
            return at as u32;
        }
    }
    0
}
