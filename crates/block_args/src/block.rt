//! The block over arguments that a block over variables becomes.
ghost use Rattle.std.specs.Prelude.{◌≡◌, ◌≤◌, ◌++◌, [], length, map, get_or, All, IfOk, OnOk};
ghost use Rattle.el_base.specs.Limits.{IsNumbered};
ghost use Rattle.ir.specs.Renaming.{renamed, operands};
ghost use Rattle.block_args.specs.Tables.{count_from, held_at, listed_at};
ghost use Rattle.block_args.specs.Arguments.{zeros, new_block};
ghost use Rattle.block_args.specs.Numbers.{
  entries,
  number_in,
  AreRenumbered,
  jump_values,
  jump_by,
  Renumbers,
  block_with,
};

use crate::live::listed_at;
use crate::numbers::{Numbers, entries, numbers_of, places, put_writes};
use ir::{Block, CfgBlock, CfgJump, Instr, Jump, List, Memory, To};
use std::alloc::Global;

/// The block of that number, where the first variables, so many, are the scalars.
pub(crate) fn new_block(
    alloc: Global,
    scalars: usize,
    vars: &[u32],
    table: &[List<u32>],
    number: u32,
    block: &CfgBlock,
) -> Result<Block, Memory>
    requires scalars { scalars ≤ length vars.now }
    requires fits { Renumbers (length vars.now)
        (held_at (length vars.now) table.now number) block.now }
    ensures { IfOk result (λ b. b ≡ new_block scalars vars.now table.now number block.now) }
{
    if number == 0 {
        entry(alloc, scalars, vars, table, block)
    } else {
        inner(alloc, vars, table, number, block)
    }
}

/// Block 0: it gets the scalars, and makes a 0 for each other variable.
fn entry(
    alloc: Global,
    scalars: usize,
    vars: &[u32],
    table: &[List<u32>],
    block: &CfgBlock,
) -> Result<Block, Memory>
    requires scalars { scalars ≤ length vars.now }
    requires fits { Renumbers (length vars.now) (count_from 0 (length vars.now)) block.now }
    ensures { IfOk result (λ b. b ≡ new_block scalars vars.now table.now 0 block.now) }
{
    let held = all_variables(alloc, vars.len())?;
    let args = listed(alloc, &vars[..scalars])?;
    let steps = zeros(alloc, &vars[scalars..])?;
    let made = with_arguments(
        alloc,
        args,
        steps,
        vars.len(),
        table,
        held.as_slice(),
        block,
    )?;
    Ok(made)
}

/// Another block: it gets the variables that the table lists.
fn inner(
    alloc: Global,
    vars: &[u32],
    table: &[List<u32>],
    number: u32,
    block: &CfgBlock,
) -> Result<Block, Memory>
    requires { Renumbers (length vars.now) (listed_at table.now number) block.now }
    ensures { IfOk result (λ b. b ≡ block_with
        (map (λ v. get_or vars.now v 0) (listed_at table.now number))
        [] table.now (listed_at table.now number) block.now) }
{
    let held = listed_at(table, number);
    let args = entries(alloc, vars, 0, held)?;
    with_arguments(
        alloc,
        args,
        List::new(alloc),
        vars.len(),
        table,
        held,
        block,
    )
}

/// The numbers of all variables.
fn all_variables(alloc: Global, count: usize) -> Result<List<u32>, Memory>
    requires { IsNumbered count }
    ensures { IfOk result (λ all. all ≡ count_from 0 count) }
{
    let mut all = List::new(alloc);
    for variable in 0..count as u32 {
        all.push(variable)?;
    }
    Ok(all)
}

/// A 0 for each of the widths.
fn zeros(alloc: Global, widths: &[u32]) -> Result<List<Instr>, Memory>
    ensures { IfOk result (λ steps. steps ≡ zeros widths.now) }
{
    let mut steps = List::new(alloc);
    for width in widths {
        steps.push(Instr::Const {
            width: *width,
            value: 0,
        })?;
    }
    Ok(steps)
}

/// An equal list.
fn listed(alloc: Global, items: &[u32]) -> Result<List<u32>, Memory>
    ensures { IfOk result (λ list. list ≡ items.now) }
{
    let mut list = List::new(alloc);
    for item in items {
        list.push(*item)?;
    }
    Ok(list)
}

/// The block with these arguments and first steps, which hold the values of certain variables, of so many.
fn with_arguments(
    alloc: Global,
    args: List<u32>,
    first: List<Instr>,
    count: usize,
    table: &[List<u32>],
    held: &[u32],
    block: &CfgBlock,
) -> Result<Block, Memory>
    requires { Renumbers count held.now block.now }
    ensures { IfOk result (λ b. b ≡ block_with args first table.now held.now block.now) }
{
    let mut now = places(alloc, count, held)?;
    let numbers = numbers_of(alloc, now.as_slice(), held, block.reads.as_slice())?;
    let steps = add_steps(first, block.steps.as_slice(), &numbers)?;
    put_writes(&mut now, block.writes.as_slice(), &numbers);
    let jump = new_jump(alloc, table, now.as_slice(), &numbers, block.jump)?;
    Ok(Block { args, steps, jump })
}

/// Steps, and behind them others under their new numbers.
fn add_steps(first: List<Instr>, steps: &[Instr], numbers: &Numbers) -> Result<List<Instr>, Memory>
    requires { All (λ i. AreRenumbered numbers.now (operands i)) steps.now }
    ensures { IfOk result (λ all. all ≡ first
        ++ map (renamed (number_in numbers.now)) steps.now) }
{
    let mut all = first;
    for step in steps {
        all.push(numbers.renamed(step))?;
    }
    Ok(all)
}

/// The jump, which hands the variables that each target gets.
fn new_jump(
    alloc: Global,
    table: &[List<u32>],
    now: &[u32],
    numbers: &Numbers,
    jump: CfgJump,
) -> Result<Jump, Memory>
    requires { AreRenumbered numbers.now (jump_values jump) }
    ensures { IfOk result (λ j. j ≡ jump_by table.now (number_in numbers.now)
        (λ v. get_or now.now v numbers.now.held) jump) }
{
    match jump {
        CfgJump::Go(to) => Ok(Jump::Go(target(alloc, table, now, numbers.held, to)?)),
        CfgJump::Two { cond, yes, no } => Ok(Jump::Two {
            cond: numbers.number(cond),
            yes: target(alloc, table, now, numbers.held, yes)?,
            no: target(alloc, table, now, numbers.held, no)?,
        }),
        CfgJump::Return(None) => Ok(Jump::Return(None)),
        CfgJump::Return(Some(value)) => Ok(Jump::Return(Some(numbers.number(value)))),
    }
}

/// A target with the values of the variables that it gets.
fn target(alloc: Global, table: &[List<u32>], now: &[u32], past: u32, to: u32) -> Result<To, Memory>
    ensures { IfOk result (λ t. t ≡ record {
      block = to;
      with = entries now.now past (listed_at table.now to);
    }) }
{
    let with = entries(alloc, now, past, listed_at(table, to))?;
    Ok(To { block: to, with })
}
