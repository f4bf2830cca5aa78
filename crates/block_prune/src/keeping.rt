//! A block of which the marked steps stay.
ghost use Rattle.std.specs.Prelude.{◌≡◌, ◌+◌, length, map, IfOk};
ghost use Rattle.el_base.specs.Limits.{IsNumbered};
ghost use Rattle.block_prune.specs.Kept.{kept_block};

use ir::{Block, Instr, Jump, List, Memory, To};
use std::alloc::Global;
use std::marker::Model;

/// The new number of each value: arguments stay, and a step's value stands behind those of the marked steps before it.
#[derive(Drop)]
struct Numbers {
    args: u32,
    of_steps: Vec<u32>,
    end: u32,
}

impl Model for Numbers {
    ghost use Rattle.block_prune.specs.Code.{Numbering};

    ghost Value = { Numbering };

    ghost view = { λ n. record { args = n.args; of_steps = n.of_steps.items; end = n.end } };
}

impl Numbers {
    ghost use Rattle.ir.specs.Renaming.{renamed};
    ghost use Rattle.block_merge.specs.Renamed.{renamed_to, renamed_jump};
    ghost use Rattle.block_prune.specs.Kept.{kept_steps};
    ghost use Rattle.block_prune.specs.Code.{numbering, number_by};

    // The numbers behind so many arguments where the marked steps stay.
    fn new(alloc: Global, args: u32, marks: &[bool]) -> Result<Numbers, Memory>
        requires { IsNumbered (args + length marks.now) }
        ensures { IfOk result (λ n. n ≡ numbering args marks.now) }
    {
        let mut of_steps = Vec::new(alloc);
        let mut end = args;
        for is_kept in marks {
            of_steps.push(end)?;
            if *is_kept {
                end += 1;
            }
        }
        Ok(Numbers {
            args,
            of_steps,
            end,
        })
    }

    // The new number of a value.
    fn of(&self, value: u32) -> u32
        ensures { result ≡ number_by self.now value }
    {
        if value < self.args {
            value
        } else {
            let step = (value - self.args) as usize;
            self.of_steps.get(step).copied().unwrap_or(self.end)
        }
    }

    // The step on the same values under their new numbers.
    fn step(&self, step: &Instr) -> Instr
        ensures { result ≡ renamed (number_by self.now) step.now }
    {
        match *step {
            Instr::Const { width, value } => Instr::Const { width, value },
            Instr::One(op, a) => Instr::One(op, self.of(a)),
            Instr::Two(op, a, b) => Instr::Two(op, self.of(a), self.of(b)),
            Instr::Select {
                width,
                cond,
                yes,
                no,
            } => Instr::Select {
                width,
                cond: self.of(cond),
                yes: self.of(yes),
                no: self.of(no),
            },
            Instr::Load { array, addr } => Instr::Load {
                array,
                addr: self.of(addr),
            },
            Instr::Store { array, addr, value } => Instr::Store {
                array,
                addr: self.of(addr),
                value: self.of(value),
            },
        }
    }

    // The marked steps under new numbers.
    fn kept_steps(
        &self,
        alloc: Global,
        marks: &[bool],
        steps: &[Instr],
    ) -> Result<List<Instr>, Memory>
        requires { length marks.now ≡ length steps.now }
        ensures { IfOk result (λ kept. kept
            ≡ map (renamed (number_by self.now)) (kept_steps marks.now steps.now)) }
    {
        let mut kept = List::new(alloc);
        for (place, step) in steps.iter().enumerate() {
            if marks[place] {
                kept.push(self.step(step))?;
            }
        }
        Ok(kept)
    }

    // The values under their new numbers.
    fn values(&self, alloc: Global, values: &[u32]) -> Result<List<u32>, Memory>
        ensures { IfOk result (λ all. all ≡ map (number_by self.now) values.now) }
    {
        let mut all = List::new(alloc);
        for value in values {
            all.push(self.of(*value))?;
        }
        Ok(all)
    }

    // The target with what it is handed under new numbers.
    fn target(&self, alloc: Global, to: &To) -> Result<To, Memory>
        ensures { IfOk result (λ t. t ≡ renamed_to (number_by self.now) to.now) }
    {
        Ok(To {
            block: to.block,
            with: self.values(alloc, to.with.as_slice())?,
        })
    }

    // The jump with its condition and with what its targets are handed under new numbers.
    fn jump(&self, alloc: Global, jump: &Jump) -> Result<Jump, Memory>
        ensures { IfOk result (λ j. j ≡ renamed_jump (number_by self.now) jump.now) }
    {
        match jump {
            Jump::Go(to) => Ok(Jump::Go(self.target(alloc, to)?)),
            Jump::Two { cond, yes, no } => Ok(Jump::Two {
                cond: self.of(*cond),
                yes: self.target(alloc, yes)?,
                no: self.target(alloc, no)?,
            }),
            Jump::Return(Some(value)) => Ok(Jump::Return(Some(self.of(*value)))),
            Jump::Return(None) => Ok(Jump::Return(None)),
        }
    }
}

/// The block of which the marked steps stay, under new numbers.
pub(crate) fn kept_block(alloc: Global, marks: &[bool], block: &Block) -> Result<Block, Memory>
    requires marks { length marks.now ≡ length block.now.steps }
    requires few { IsNumbered (length block.now.args + length block.now.steps) }
    ensures { IfOk result (λ b. b ≡ kept_block marks.now block.now) }
{
    let numbers = Numbers::new(alloc, block.args.len() as u32, marks)?;
    Ok(Block {
        args: block.args.copy()?,
        steps: numbers.kept_steps(alloc, marks, block.steps.as_slice())?,
        jump: numbers.jump(alloc, &block.jump)?,
    })
}
