//! A block made anew from left to right.
ghost use Rattle.std.specs.Prelude.{◌≡◌, ◌+◌, ◌<◌, ◌≤◌, ◌^◌, length, None, IfOk, OnOk};
ghost use Rattle.el_base.specs.Limits.{IsNumbered};
ghost use Rattle.ir.specs.Graphs.{block_weight};
ghost use Rattle.block_fold.specs.Simplified.{nothing_made, loaded_as, stored_at, taken, taken_all, simplified};
ghost use Rattle.block_fold.specs.Addresses.{known_value};
ghost use Rattle.block_fold.specs.Code.{values_in, PlacesAreRight, made_of, IsMade};

use crate::jumps::folded_jump;
use crate::known::{Known, known_over, known_value};
use crate::numbers::renamed;
use crate::table::StepTable;
use ir::{Block, Instr, List, Memory};
use std::alloc::Global;

/// A block under construction: its steps, the new numbers of the values of the old steps, and what is known of arrays.
#[derive(Drop)]
pub(crate) struct Maker {
    pub(crate) table: StepTable,
    numbers: List<u32>,
    known: List<Known>,
}

impl Maker {
    // Nothing made.
    fn new(alloc: Global, args: u32) -> Maker
        ensures args { result.table.args ≡ args }
        ensures made { made_of result ≡ nothing_made }
        ensures places { PlacesAreRight result.table }
    {
        Maker {
            table: StepTable::new(alloc, args),
            numbers: List::new(alloc),
            known: List::new(alloc),
        }
    }

    // A step on new values.
    fn take(&mut self, alloc: Global, step: Instr) -> Result<(), Memory>
        requires places { PlacesAreRight self.old.table }
        requires few { IsNumbered (values_in self.old.table) }
        ensures { OnOk result (IsMade self.old self.new
            (taken self.old.table.args (made_of self.old) step)) }
    {
        match step {
            Instr::Load { array, addr } => self.load(array, addr),
            Instr::Store { array, addr, value } => self.store(alloc, array, addr, value),
            Instr::Const { width: _, value: _ }
            | Instr::One(_, _)
            | Instr::Two(_, _, _)
            | Instr::Select {
                width: _,
                cond: _,
                yes: _,
                no: _,
            } => {
                let number = self.table.put_pure(alloc, step)?;
                self.numbers.push(number)
            }
        }
    }

    // A load: of what is known to stand there, else one more step, whose value then does.
    fn load(&mut self, array: u32, addr: u32) -> Result<(), Memory>
        requires places { PlacesAreRight self.old.table }
        requires few { IsNumbered (values_in self.old.table) }
        ensures { OnOk result (IsMade self.old self.new (loaded_as self.old.table.args
            (made_of self.old) array addr (known_value self.old.known array addr))) }
    {
        match known_value(self.known.as_slice(), array, addr) {
            Some(value) => self.numbers.push(value),
            None => self.load_anew(array, addr),
        }
    }

    // A load of what is not known.
    fn load_anew(&mut self, array: u32, addr: u32) -> Result<(), Memory>
        requires places { PlacesAreRight self.old.table }
        requires few { IsNumbered (values_in self.old.table) }
        ensures { OnOk result (IsMade self.old self.new
            (loaded_as self.old.table.args (made_of self.old) array addr None)) }
    {
        let value = self.table.append(Instr::Load { array, addr })?;
        self.numbers.push(value)?;
        self.known.push(Known { array, addr, value })
    }

    // A store, whose value then stands there, and what may stand at the same address is known no more.
    fn store(&mut self, alloc: Global, array: u32, addr: u32, value: u32) -> Result<(), Memory>
        requires places { PlacesAreRight self.old.table }
        requires few { IsNumbered (values_in self.old.table) }
        ensures { OnOk result (IsMade self.old self.new
            (stored_at self.old.table.args (made_of self.old) array addr value)) }
    {
        let mut known = known_over(
            alloc,
            self.table.args,
            self.table.steps.as_slice(),
            array,
            addr,
            self.known.as_slice(),
        )?;
        known.push(Known { array, addr, value })?;
        self.known = known;
        let number = self.table.append(Instr::Store { array, addr, value })?;
        self.numbers.push(number)
    }
}

// These steps of a block with so many arguments, made anew.
fn made(alloc: Global, args: u32, steps: &[Instr]) -> Result<Maker, Memory>
    requires { args + length steps.now < 2 ^ 30 }
    ensures args { IfOk result (λ m. m.table.args ≡ args) }
    ensures made { IfOk result (λ m. made_of m ≡ taken_all args nothing_made steps.now) }
    ensures few { IfOk result (λ m. IsNumbered (values_in m.table)) }
{
    let mut maker = Maker::new(alloc, args);
    for step in steps {
        let step = renamed(args, maker.numbers.as_slice(), step);
        maker.take(alloc, step)?;
    }
    Ok(maker)
}

/// The block made anew from left to right.
///
/// # Errors
///
/// [`Memory`] where memory is wanting.
pub(crate) fn simplify_block(alloc: Global, block: &Block) -> Result<Block, Memory>
    requires { block_weight block.now < 2 ^ 30 }
    ensures is { IfOk result (λ b. b ≡ simplified block.now) }
    ensures few { IfOk result (λ b. IsNumbered (length b.args + length b.steps)) }
{
    let args = block.args.len() as u32;
    let Maker {
        table,
        numbers,
        known: _known,
    } = made(alloc, args, block.steps.as_slice())?;
    let jump = folded_jump(
        alloc,
        args,
        table.steps.as_slice(),
        numbers.as_slice(),
        &block.jump,
    )?;
    Ok(Block {
        args: block.args.copy()?,
        steps: table.into_steps(),
        jump,
    })
}
