//! The numbers of values where only some of the reads are kept.
ghost use Rattle.std.specs.Prelude.{◌≡◌, map, length, IfOk, option_map};

use ir::{CfgJump, Instr, List, Memory, Write};
use std::alloc::Global;
use std::marker::Model;

/// The new number of each read, and how many are kept: a step's value moves by as many as there are fewer reads.
#[derive(Drop)]
pub(crate) struct Numbers {
    of_reads: Vec<usize>,
    kept: usize,
}

impl Model for Numbers {
    ghost use Rattle.block_trim.specs.Code.{Numbering, IsLow};

    ghost Value = { Numbering };

    ghost view = { λ n. record { of_reads = n.of_reads.items; kept = n.kept } };

    ghost invariant = { λ n. IsLow (record { of_reads = n.of_reads.items; kept = n.kept }) };
}

impl Numbers {
    ghost use Rattle.block_trim.specs.Code.{numbering, number_by};
    ghost use Rattle.block_trim.specs.Trimming.{renamed_write, renamed_jump};
    ghost use Rattle.ir.specs.Renaming.{renamed};

    /// The numbers where the reads that are marked are kept.
    pub(crate) fn new(alloc: Global, marks: &[bool]) -> Result<Numbers, Memory>
        ensures { IfOk result (λ n. n ≡ numbering marks.now) }
    {
        let mut of_reads = Vec::new(alloc);
        let mut kept = 0;
        for is_used in marks {
            of_reads.push(kept)?;
            if *is_used {
                kept += 1;
            }
        }
        Ok(Numbers { of_reads, kept })
    }

    // The new number of a value.
    fn of(&self, value: u32) -> u32
        ensures { result ≡ number_by self.now value }
    {
        let value = value as usize;
        let reads = self.of_reads.len();
        if value < reads {
            self.of_reads[value] as u32
        } else {
            (self.kept + (value - reads)) as u32
        }
    }

    /// The steps with new numbers.
    pub(crate) fn steps(&self, alloc: Global, steps: &[Instr]) -> Result<List<Instr>, Memory>
        ensures { IfOk result (λ new. new ≡ map (renamed (number_by self.now)) steps.now) }
    {
        let mut renamed = List::new(alloc);
        for step in steps {
            renamed.push(self.step(step))?;
        }
        Ok(renamed)
    }

    /// The writes with new numbers.
    pub(crate) fn writes(&self, alloc: Global, writes: &[Write]) -> Result<List<Write>, Memory>
        ensures { IfOk result (λ new. new ≡ map (renamed_write (number_by self.now)) writes.now) }
    {
        let mut renamed = List::new(alloc);
        for write in writes {
            renamed.push(Write {
                var: write.var,
                value: self.of(write.value),
            })?;
        }
        Ok(renamed)
    }

    /// The jump with new numbers.
    pub(crate) fn jump(&self, jump: CfgJump) -> CfgJump
        ensures { result ≡ renamed_jump (number_by self.now) jump }
    {
        match jump {
            CfgJump::Go(to) => CfgJump::Go(to),
            CfgJump::Two { cond, yes, no } => CfgJump::Two {
                cond: self.of(cond),
                yes,
                no,
            },
            CfgJump::Return(None) => CfgJump::Return(None),
            CfgJump::Return(Some(value)) => CfgJump::Return(Some(self.of(value))),
        }
    }

    fn step(&self, step: &Instr) -> Instr
        ensures { result ≡ renamed (number_by self.now) step.now }
    {
        match *step {
            Instr::Const { width, value } => Instr::Const { width, value },
            Instr::One(op, operand) => Instr::One(op, self.of(operand)),
            Instr::Two(op, left, right) => Instr::Two(op, self.of(left), self.of(right)),
            Instr::Select {
                width,
                cond,
                yes,
                no,
            } => Instr::Select {
                width,
                cond: self.of(cond),
                yes: self.of(yes),
                no: self.of(no),
            },
            Instr::Load { array, addr } => Instr::Load {
                array,
                addr: self.of(addr),
            },
            Instr::Store { array, addr, value } => Instr::Store {
                array,
                addr: self.of(addr),
                value: self.of(value),
            },
        }
    }
}
