//! Steps and jumps of a block whose arguments become the values that another block hands on for them.
ghost use Rattle.std.specs.Prelude.{◌≡◌, ◌++◌, ◌+◌, ◌-◌, length, map, IfOk};
ghost use Rattle.el_base.specs.Limits.{IsNumbered};
ghost use Rattle.ir.specs.Renaming.{renamed, operands};
ghost use Rattle.block_merge.specs.Renamed.{moved_to, renamed_to, renamed_jump};
ghost use Rattle.block_merge.specs.Moves.{
  new_number,
  IsMovable,
  AreMovable,
  StepsAreMovable,
  JumpIsMovable,
};

use ir::{Instr, Jump, List, Memory, To};
use std::alloc::Global;

/// The new number of a value, where an argument is what is handed on for it, and the values of steps stand from one on.
pub(crate) fn moved(args: &[u32], steps: u32, value: u32) -> u32
    requires { IsNumbered (steps + (value - length args.now)) }
    ensures { result ≡ moved_to args.now steps value }
{
    let at = value as usize;
    if at < args.len() {
        args[at]
    } else {
        steps + (at - args.len()) as u32
    }
}

/// The new numbers of a block's values: those of its arguments, and of its first step.
#[derive(Drop)]
pub(crate) struct Numbers {
    pub(crate) args: List<u32>,
    pub(crate) steps: u32,
}

impl Numbers {
    /// The new number of a value.
    pub(crate) fn number(&self, value: u32) -> u32
        requires { IsMovable self.now value }
        ensures { result ≡ new_number self.now value }
    {
        moved(self.args.as_slice(), self.steps, value)
    }

    /// The step on the same values under their new numbers.
    pub(crate) fn renamed(&self, step: &Instr) -> Instr
        requires { AreMovable self.now (operands step.now) }
        ensures { result ≡ renamed (new_number self.now) step.now }
    {
        match *step {
            Instr::Const { width, value } => Instr::Const { width, value },
            Instr::One(op, a) => Instr::One(op, self.number(a)),
            Instr::Two(op, a, b) => Instr::Two(op, self.number(a), self.number(b)),
            Instr::Select {
                width,
                cond,
                yes,
                no,
            } => Instr::Select {
                width,
                cond: self.number(cond),
                yes: self.number(yes),
                no: self.number(no),
            },
            Instr::Load { array, addr } => Instr::Load {
                array,
                addr: self.number(addr),
            },
            Instr::Store { array, addr, value } => Instr::Store {
                array,
                addr: self.number(addr),
                value: self.number(value),
            },
        }
    }

    /// The target with what it is handed under new numbers.
    pub(crate) fn target(&self, alloc: Global, to: &To) -> Result<To, Memory>
        requires { AreMovable self.now to.now.with }
        ensures { IfOk result (λ t. t ≡ renamed_to (new_number self.now) to.now) }
    {
        Ok(To {
            block: to.block,
            with: self.values(alloc, to.with.as_slice())?,
        })
    }

    /// The values under their new numbers.
    fn values(&self, alloc: Global, values: &[u32]) -> Result<List<u32>, Memory>
        requires { AreMovable self.now values.now }
        ensures { IfOk result (λ all. all ≡ map (new_number self.now) values.now) }
    {
        let mut all = List::new(alloc);
        for value in values {
            all.push(self.number(*value))?;
        }
        Ok(all)
    }

    /// The jump with its condition and with what its targets are handed under new numbers.
    pub(crate) fn jump(&self, alloc: Global, jump: &Jump) -> Result<Jump, Memory>
        requires { JumpIsMovable self.now jump.now }
        ensures { IfOk result (λ j. j ≡ renamed_jump (new_number self.now) jump.now) }
    {
        match jump {
            Jump::Go(to) => Ok(Jump::Go(self.target(alloc, to)?)),
            Jump::Two { cond, yes, no } => Ok(Jump::Two {
                cond: self.number(*cond),
                yes: self.target(alloc, yes)?,
                no: self.target(alloc, no)?,
            }),
            Jump::Return(Some(value)) => Ok(Jump::Return(Some(self.number(*value)))),
            Jump::Return(None) => Ok(Jump::Return(None)),
        }
    }

    /// Steps, and behind them others under their new numbers.
    pub(crate) fn add_steps(
        &self,
        first: List<Instr>,
        steps: &[Instr],
    ) -> Result<List<Instr>, Memory>
        requires { StepsAreMovable self.now steps.now }
        ensures { IfOk result (λ all. all ≡ first ++ map (renamed (new_number self.now)) steps.now) }
    {
        let mut all = first;
        for step in steps {
            all.push(self.renamed(step))?;
        }
        Ok(all)
    }
}
