//! New numbers of the values of a block that holds certain variables.
ghost use Rattle.std.specs.Prelude.{◌≡◌, ◌<◌, length, map, set, replicate, All, IfOk, OnOk};
ghost use Rattle.el_base.specs.Limits.{IsNumbered};
ghost use Rattle.ir.specs.Renaming.{renamed, operands};
ghost use Rattle.block_args.specs.Numbers.{
  with_places,
  HasPlaces,
  AreOf,
  entries,
  number_in,
  IsRenumbered,
  AreRenumbered,
  with_writes,
};

use ir::{Instr, List, Memory, Write};
use std::alloc::Global;

/// The new numbers of a block's values: those of its reads, and of the first step, which is the number of variables that
/// it holds.
#[derive(Drop)]
pub(crate) struct Numbers {
    pub(crate) reads: List<u32>,
    pub(crate) held: u32,
}

impl Numbers {
    /// The new number of a value.
    pub(crate) fn number(&self, value: u32) -> u32
        requires { IsRenumbered self.now value }
        ensures { result ≡ number_in self.now value }
    {
        let at = value as usize;
        if at < self.reads.len() {
            self.reads.as_slice()[at]
        } else {
            self.held + (at - self.reads.len()) as u32
        }
    }

    /// The step on the same values under their new numbers.
    pub(crate) fn renamed(&self, step: &Instr) -> Instr
        requires { AreRenumbered self.now (operands step.now) }
        ensures { result ≡ renamed (number_in self.now) step.now }
    {
        match *step {
            Instr::Const { width, value } => Instr::Const { width, value },
            Instr::One(op, a) => Instr::One(op, self.number(a)),
            Instr::Two(op, a, b) => Instr::Two(op, self.number(a), self.number(b)),
            Instr::Select {
                width,
                cond,
                yes,
                no,
            } => Instr::Select {
                width,
                cond: self.number(cond),
                yes: self.number(yes),
                no: self.number(no),
            },
            Instr::Load { array, addr } => Instr::Load {
                array,
                addr: self.number(addr),
            },
            Instr::Store { array, addr, value } => Instr::Store {
                array,
                addr: self.number(addr),
                value: self.number(value),
            },
        }
    }
}

/// For each variable, so many, its place among those that are held, and their number where it is not held.
pub(crate) fn places(alloc: Global, count: usize, held: &[u32]) -> Result<Vec<u32>, Memory>
    requires { IsNumbered (length held.now) }
    ensures { IfOk result (λ table. table.items
        ≡ with_places (replicate count (length held.now)) 0 held.now) }
{
    let mut table: Vec<u32> = vec![in alloc; held.len() as u32; count]?;
    let mut place = 0;
    for variable in held {
        put(&mut table, *variable, place);
        place += 1;
    }
    Ok(table)
}

/// The numbers of a block that holds these variables, which have these places, and reads those.
pub(crate) fn numbers_of(
    alloc: Global,
    places: &[u32],
    held: &[u32],
    reads: &[u32],
) -> Result<Numbers, Memory>
    requires few { IsNumbered (length held.now) }
    requires places { HasPlaces held.now places.now }
    ensures { IfOk result (AreOf held.now reads.now) }
{
    let held = held.len() as u32;
    let reads = entries(alloc, places, held, reads)?;
    Ok(Numbers { reads, held })
}

/// Notes the values that the variables have after the writes.
pub(crate) fn put_writes(table: &mut Vec<u32>, writes: &[Write], numbers: &Numbers)
    requires { All (λ x. IsRenumbered numbers.now x.value) writes.now }
    ensures { table.new.items ≡ with_writes (number_in numbers.now) table.old.items writes.now }
{
    for write in writes {
        put(table, write.var, numbers.number(write.value));
    }
}

#[tactic(auto, using(std::proofs::lemmas::List::set_past))]
fn put(table: &mut Vec<u32>, variable: u32, number: u32)
    ensures { table.new.items ≡ set table.old.items variable number }
{
    let at = variable as usize;
    if at < table.len() {
        table[at] = number;
    }
}

/// The entries of a table for these variables; one past the table has the entry `past`.
pub(crate) fn entries(
    alloc: Global,
    table: &[u32],
    past: u32,
    variables: &[u32],
) -> Result<List<u32>, Memory>
    ensures { IfOk result (λ found. found ≡ entries table.now past variables.now) }
{
    let mut found = List::new(alloc);
    for variable in variables {
        found.push(table.get(*variable as usize).copied().unwrap_or(past))?;
    }
    Ok(found)
}
