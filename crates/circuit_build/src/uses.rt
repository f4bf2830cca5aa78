//! How many uses each value of a block has.
ghost use Rattle.std.specs.Prelude.{◌≡◌, ◌+◌, ◌<◌, ◌^◌, get_or, length, IfOk, OnOk};
ghost use Rattle.circuit_build.specs.Drafts.{number};
ghost use Rattle.circuit_build.specs.Uses.{
  is_pure,
  added,
  all_added,
  handed_often,
  branch_added,
  branches_added,
  jump_added,
  step_added,
  steps_added,
  uses,
  constant_of,
  constants,
};
ghost use Rattle.ir.specs.Renaming.{operands};
ghost use Rattle.ir.specs.declared.graph.Jump.TheVariants.{Two};

use crate::draft::number;
use crate::edges::{count_at, zeros};
use el_base::{List, Memory};
use ir::{Block, Instr, Jump, To};
use std::alloc::Global;

/// Whether a step does nothing but make its value.
pub(crate) fn is_pure(step: &Instr) -> bool
    ensures { result ≡ is_pure step.now }
{
    match *step {
        Instr::Const { width: _, value: _ }
        | Instr::One(_, _)
        | Instr::Two(_, _, _)
        | Instr::Select {
            width: _,
            cond: _,
            yes: _,
            no: _,
        } => true,
        Instr::Load { array: _, addr: _ }
        | Instr::Store {
            array: _,
            addr: _,
            value: _,
        } => false,
    }
}

// How many uses a value has.
fn uses_at(table: &[u32], value: usize) -> u32
    ensures { result ≡ get_or table.now value 0 }
{
    table.get(value).copied().unwrap_or(0)
}

// So many uses more of a value.
#[tactic(auto, using(std::proofs::lemmas::List::set_past))]
fn add(table: &mut List<u32>, value: u32, more: u32)
    ensures { table.new ≡ added value more table.old }
{
    let count = count_at(table.as_slice(), value);
    if (value as usize) < table.len() {
        table.set(value as usize, count.saturating_add(more));
    }
}

// A use more of each of these values.
fn add_all(table: &mut List<u32>, values: &[u32])
    ensures { table.new ≡ all_added values.now table.old }
{
    for value in values {
        add(table, *value, 1);
    }
}

/// How often a side hands on each of so many values.
pub(crate) fn handed(alloc: Global, values: usize, to: &To) -> Result<List<u32>, Memory>
    ensures { IfOk result (λ table. table ≡ handed_often values to.now) }
{
    let mut table = zeros(alloc, values)?;
    add_all(&mut table, to.with.as_slice());
    Ok(table)
}

fn add_operands(table: &mut List<u32>, step: &Instr)
    ensures { table.new ≡ all_added (operands step.now) table.old }
{
    match *step {
        Instr::Const { width: _, value: _ } => {}
        Instr::One(_, a) => add(table, a, 1),
        Instr::Two(_, a, b) => {
            add(table, a, 1);
            add(table, b, 1);
        }
        Instr::Select {
            width: _,
            cond,
            yes,
            no,
        } => {
            add(table, cond, 1);
            add(table, yes, 1);
            add(table, no, 1);
        }
        Instr::Load { array: _, addr } => add(table, addr, 1),
        Instr::Store {
            array: _,
            addr,
            value,
        } => {
            add(table, addr, 1);
            add(table, value, 1);
        }
    }
}

// The uses by the branch of a value that the sides hand on so often.
fn add_branch(table: &mut List<u32>, cond: u32, value: u32, for_yes: u32, for_no: u32)
    ensures { table.new ≡ branch_added cond value for_yes for_no table.old }
{
    if for_yes > 0 || for_no > 0 {
        add(table, value, 1);
        add(table, cond, 1);
    }
}

fn add_branches(table: &mut List<u32>, cond: u32, for_yes: &[u32], for_no: &[u32])
    ensures { table.new ≡ branches_added cond 0 for_yes.now for_no.now table.old }
{
    let mut value: u32 = 0;
    for count in for_yes {
        add_branch(table, cond, value, *count, count_at(for_no, value));
        value = value.saturating_add(1);
    }
}

// A branch for each value that either side hands on, and one for the control token.
fn add_sides(
    alloc: Global,
    table: &mut List<u32>,
    cond: u32,
    yes: &To,
    no: &To,
) -> Result<(), Memory>
    ensures { OnOk result (table.new ≡ jump_added (Two cond yes.now no.now) table.old) }
{
    let for_yes = handed(alloc, table.len(), yes)?;
    let for_no = handed(alloc, table.len(), no)?;
    add_branches(table, cond, for_yes.as_slice(), for_no.as_slice());
    add(table, cond, 1);
    Ok(())
}

fn add_jump(alloc: Global, table: &mut List<u32>, jump: &Jump) -> Result<(), Memory>
    ensures { OnOk result (table.new ≡ jump_added jump.now table.old) }
{
    match jump {
        Jump::Go(to) => {
            add_all(table, to.with.as_slice());
            Ok(())
        }
        Jump::Two { cond, yes, no } => add_sides(alloc, table, *cond, yes, no),
        Jump::Return(Some(value)) => {
            add(table, *value, 1);
            Ok(())
        }
        Jump::Return(None) => Ok(()),
    }
}

// The uses by the step of a value, where it is laid.
fn add_step(table: &mut List<u32>, value: usize, step: &Instr)
    ensures { table.new ≡ step_added value step.now table.old }
{
    if !is_pure(step) || uses_at(table.as_slice(), value) > 0 {
        add_operands(table, step);
    }
}

// The uses by the steps of the values from one on, the last step first.
fn add_steps(table: &mut List<u32>, first: usize, steps: &[Instr])
    requires { first + length steps.now < 2 ^ 64 }
    ensures { table.new ≡ steps_added first steps.now table.old }
{
    let count = steps.len();
    for done in 0..count {
        let place = count - done - 1;
        add_step(table, first + place, &steps[place]);
    }
}

/// The uses of the values of a block by its jump and by the steps that are laid.
pub(crate) fn uses(alloc: Global, block: &Block) -> Result<List<u32>, Memory>
    ensures { IfOk result (λ table. table ≡ uses block.now) }
{
    let args = block.args.as_slice().len();
    let steps = block.steps.as_slice();
    let mut table = zeros(alloc, args + steps.len())?;
    add_jump(alloc, &mut table, &block.jump)?;
    add_steps(&mut table, args, steps);
    Ok(table)
}

// 1 for a constant that is used.
fn constant_of(step: &Instr, uses: u32) -> usize
    ensures { result ≡ constant_of step.now uses }
{
    match *step {
        Instr::Const { width: _, value: _ } => usize::from(uses > 0),
        Instr::One(_, _)
        | Instr::Two(_, _, _)
        | Instr::Select {
            width: _,
            cond: _,
            yes: _,
            no: _,
        }
        | Instr::Load { array: _, addr: _ }
        | Instr::Store {
            array: _,
            addr: _,
            value: _,
        } => 0,
    }
}

/// How many constants of a block are used, by the uses of its values.
pub(crate) fn constants(block: &Block, uses: &[u32]) -> u32
    ensures { result ≡ number (constants (length block.now.args) block.now.steps uses.now) }
{
    let first = block.args.as_slice().len();
    let mut count: usize = 0;
    let mut place: usize = 0;
    for step in block.steps.as_slice() {
        count += constant_of(step, uses_at(uses, first + place));
        place += 1;
    }
    number(count)
}
