ghost use Rattle.std.specs.Prelude.{◌≡◌, ◌↔◌, ℕ, ◌<◌, List, length, get_or, IfOk, IsTrue, vec_len, Bool, None, Some, MatchOption, true};
ghost use Rattle.net_types.specs.declared.net.Unit.{Unit as Kind};
ghost use Rattle.net_check.specs.private.Firsts.{IsFirst};
ghost use Rattle.net_check.specs.Headers.{is_entry, is_exit};
ghost use Rattle.net_check.specs.private.Roles.{AreFirsts, number_of, noted, noted_if};

use net_types::{Memory, Unit};
use std::alloc::Global;

/// A sort of unit that a net has once for each scalar, or once at most for each array.
#[derive(Clone, Copy)]
pub(crate) enum Role {
    Param,
    Queue,
}

/// The scalar or array that a unit of this role names.
fn number_of(role: Role, unit: &Unit) -> Option<u32>
    ensures { result ≡ number_of role unit.now }
{
    match role {
        Role::Param => match unit {
            Unit::Param(scalar) => Some(*scalar),
            _ => None,
        },
        Role::Queue => match unit {
            Unit::Lsq { array, .. } => Some(*array),
            _ => None,
        },
    }
}

/// The first Entry.
pub(crate) fn first_entry(units: &[Unit]) -> Option<usize>
    ensures { IsFirst is_entry units.now (length units.now) result }
{
    for (u, unit) in units.iter().enumerate() {
        if is_entry(unit) {
            return Some(u);
        }
    }
    None
}

fn is_entry(unit: &Unit) -> bool
    ensures { result ≡ is_entry unit.now }
{
    matches!(unit, Unit::Entry)
}

/// The first exit.
pub(crate) fn first_exit(units: &[Unit]) -> Option<usize>
    ensures { IsFirst is_exit units.now (length units.now) result }
{
    for (u, unit) in units.iter().enumerate() {
        if is_exit(unit) {
            return Some(u);
        }
    }
    None
}

fn is_exit(unit: &Unit) -> bool
    ensures { result ≡ is_exit unit.now }
{
    matches!(unit, Unit::Exit)
}

/// The first unit of the role for each number below the count.
///
/// # Errors
///
/// [`Memory`] where memory is wanting.
pub(crate) fn firsts(
    alloc: Global,
    units: &[Unit],
    role: Role,
    count: usize,
) -> Result<Vec<Option<usize>>, Memory>
    ensures len { IfOk result (λ table. vec_len table ≡ count) }
    ensures first { IfOk result (λ table. AreFirsts role units.now count table.items) }
{
    let mut table = vec![in alloc; None; count]?;
    for (u, unit) in units.iter().enumerate() {
        note(&mut table, number_of(role, unit), u);
    }
    Ok(table)
}

/// Notes the unit at its number, where the table has the number and no unit there.
fn note(table: &mut Vec<Option<usize>>, number: Option<u32>, unit: usize)
    ensures { table.new.items ≡ noted_if table.old.items number unit }
{
    if let Some(number) = number {
        note_at(table, number, unit);
    }
}

fn note_at(table: &mut Vec<Option<usize>>, number: u32, unit: usize)
    ensures { table.new.items ≡ noted table.old.items number unit }
{
    let at = number as usize;
    if at < table.len() && table[at].is_none() {
        table[at] = Some(unit);
    }
}
