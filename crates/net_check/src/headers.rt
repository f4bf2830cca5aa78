ghost use Rattle.std.specs.Prelude.{◌≡◌, ◌≢◌, ◌↔◌, ℕ, ◌<◌, IfOk, IsTrue, MatchOption, length, Option, None, Some};
ghost use Rattle.std.specs.List.{AllPairs};
ghost use Rattle.net_types.specs.Nets.{kind_of};
ghost use Rattle.net_types.specs.Numbered.{AreNumbered};
ghost use Rattle.net_check.specs.Headers.{AreSized, IsHeader, header_names, IsNamed, IsFaultyC8, KeepsC8, CulpritC8};
ghost use Rattle.net_check.specs.private.Tallies.{IsComplete, IsTallied, is_faulty, is_second, is_second_at, is_taken};

use crate::firsts::{Role, first_entry, first_exit, firsts};
use crate::refusal::{At, unit_at};
use el_base::MAX_ELEMENTS;
use net_types::{Array, List, Memory, Name, Net, Unit};
use std::alloc::Global;
use std::collections::HashSet;

/// Rule C8, the header and the units that it asks for: `None` where it is kept, else the culprit.
///
/// It costs time in proportion to the units and the header.
///
/// # Errors
///
/// [`Memory`] where memory is wanting.
pub fn check_header(alloc: Global, net: &Net) -> Result<Option<At>, Memory>
    requires { AreNumbered net.now }
    ensures { IfOk result (λ o. MatchOption o (KeepsC8 net.now) (CulpritC8 net.now)) }
{
    let tally = tally_of(alloc, net)?;
    for (u, unit) in net.units.as_slice().iter().enumerate() {
        if is_faulty(&tally, u, unit) {
            return Ok(Some(unit_at(u)));
        }
    }
    if !is_complete(&tally) {
        return Ok(Some(At::Net));
    }
    if !is_header(alloc, net)? {
        return Ok(Some(At::Net));
    }
    Ok(None)
}

/// The first units of the sorts that a net has once.
#[derive(Drop)]
pub(crate) struct Tally {
    pub(crate) entry: Option<usize>,
    pub(crate) exit: Option<usize>,
    pub(crate) params: Vec<Option<usize>>,
    pub(crate) queues: Vec<Option<usize>>,
}

/// The tally of a net.
///
/// # Errors
///
/// [`Memory`] where memory is wanting.
fn tally_of(alloc: Global, net: &Net) -> Result<Tally, Memory>
    ensures { IfOk result (λ t. IsTallied net.now t.entry t.exit t.params.items t.queues.items) }
{
    let units = net.units.as_slice();
    Ok(Tally {
        entry: first_entry(units),
        exit: first_exit(units),
        params: firsts(alloc, units, Role::Param, net.scalars.as_slice().len())?,
        queues: firsts(alloc, units, Role::Queue, net.arrays.as_slice().len())?,
    })
}

/// Whether the unit names nothing of the header, is a second of its sort, or reads an array that has a queue.
fn is_faulty(tally: &Tally, u: usize, unit: &Unit) -> bool
    ensures { result ≡ is_faulty tally.now.entry tally.now.exit tally.now.params.items
        tally.now.queues.items u unit.now }
{
    match unit {
        Unit::Entry => is_second(tally.entry, u),
        Unit::Exit => is_second(tally.exit, u),
        Unit::Param(scalar) => is_second_at(tally.params.as_slice(), *scalar, u),
        Unit::Lsq { array, .. } => is_second_at(tally.queues.as_slice(), *array, u),
        Unit::Read(array) => is_taken(tally.queues.as_slice(), *array),
        Unit::Const { .. } => false,
        Unit::Op1(_) => false,
        Unit::Op2(_) => false,
        Unit::Select { .. } => false,
        Unit::Fork { .. } => false,
        Unit::Mux { .. } => false,
        Unit::Cmerge { .. } => false,
        Unit::Branch { .. } => false,
        Unit::Sink { .. } => false,
    }
}

fn is_second(first: Option<usize>, u: usize) -> bool
    ensures { result ≡ is_second first u }
{
    match first {
        None => false,
        Some(f) => f < u,
    }
}

fn is_second_at(table: &[Option<usize>], number: u32, u: usize) -> bool
    ensures { result ≡ is_second_at table.now number u }
{
    let at = number as usize;
    at >= table.len() || is_second(table[at], u)
}

fn is_taken(table: &[Option<usize>], number: u32) -> bool
    ensures { result ≡ is_taken table.now number }
{
    let at = number as usize;
    at >= table.len() || table[at].is_some()
}

/// The names of the header, in order.
fn header_names(alloc: Global, net: &Net) -> Result<List<Name>, Memory>
    ensures { IfOk result (λ names. names ≡ header_names net.now) }
{
    let mut names = List::new(alloc);
    for scalar in net.scalars.as_slice() {
        names.push(scalar.name.copy()?)?;
    }
    for array in net.arrays.as_slice() {
        names.push(array.name.copy()?)?;
    }
    Ok(names)
}

/// Whether each array has an element, and all together have [`MAX_ELEMENTS`] at most.
fn are_sized(arrays: &[Array]) -> bool
    ensures { IsTrue result ↔ AreSized arrays.now }
{
    let mut rest = MAX_ELEMENTS;
    for array in arrays {
        if array.len == 0 || array.len > rest {
            return false;
        }
        rest -= array.len;
    }
    true
}

/// Whether no two names are equal.
fn are_distinct(alloc: Global, names: &[Name]) -> Result<bool, Memory>
    ensures { IfOk result (λ b. IsTrue b ↔ AllPairs (λ x y. x ≢ y) names.now) }
{
    let mut known = HashSet::new(alloc);
    for name in names {
        if !known.insert(name.copy()?)? {
            return Ok(false);
        }
    }
    Ok(true)
}

fn is_header(alloc: Global, net: &Net) -> Result<bool, Memory>
    ensures { IfOk result (λ b. IsTrue b ↔ IsHeader net.now) }
{
    if !are_sized(net.arrays.as_slice()) {
        return Ok(false);
    }
    let names = header_names(alloc, net)?;
    are_distinct(alloc, names.as_slice())
}

/// Whether there are an Entry and an Exit, and a Param of each scalar.
fn is_complete(tally: &Tally) -> bool
    ensures { IsTrue result ↔ IsComplete tally.now.entry tally.now.exit tally.now.params.items }
{
    tally.entry.is_some()
        && tally.exit.is_some()
        && tally.params.iter().all(|first| first.is_some())
}
