//! Marks on the reads of a block that it uses.
ghost use Rattle.std.specs.Prelude.{◌≡◌, [], ◌∷◌, map, length, false, replicate, IfOk};
ghost use Rattle.std.specs.List.{flat_map};
ghost use Rattle.ir.specs.declared.cfg.Write.{Write};
ghost use Rattle.ir.specs.Renaming.{operands};
ghost use Rattle.block_trim.specs.Trimming.{jump_operands, uses};
ghost use Rattle.block_trim.specs.Code.{marked};

use ir::{CfgJump, Instr, Memory, Write};
use std::alloc::Global;

/// For each read, so many, whether the steps, the writes or the jump use it.
///
/// # Errors
///
/// [`Memory`] where memory is wanting.
pub(crate) fn used_reads(
    alloc: Global,
    reads: usize,
    steps: &[Instr],
    writes: &[Write],
    jump: CfgJump,
) -> Result<Vec<bool>, Memory>
    ensures many { IfOk result (λ marks. length marks.items ≡ reads) }
    ensures marks { IfOk result (λ marks. marks.items
        ≡ marked (replicate reads false) (uses steps.now writes.now jump)) }
{
    let mut marks = vec![in alloc; false; reads]?;
    mark_all(&mut marks, steps, writes, jump);
    Ok(marks)
}

#[tactic(auto, using(crate::proofs::Marking::marked_append))]
fn mark_all(marks: &mut [bool], steps: &[Instr], writes: &[Write], jump: CfgJump)
    ensures { marks.new ≡ marked marks.old (uses steps.now writes.now jump) }
{
    mark_steps(marks, steps);
    mark_writes(marks, writes);
    mark_jump(marks, jump);
}

#[tactic(auto, using(crate::proofs::Marking::marked_append))]
fn mark_steps(marks: &mut [bool], steps: &[Instr])
    ensures { marks.new ≡ marked marks.old (flat_map operands steps.now) }
{
    for step in steps {
        mark_step(marks, step);
    }
}

fn mark_writes(marks: &mut [bool], writes: &[Write])
    ensures { marks.new ≡ marked marks.old (map (λ x. x.value) writes.now) }
{
    for write in writes {
        mark(marks, write.value);
    }
}

fn mark_step(marks: &mut [bool], step: &Instr)
    ensures { marks.new ≡ marked marks.old (operands step.now) }
{
    match *step {
        Instr::Const { width: _, value: _ } => {}
        Instr::One(_, operand) => mark(marks, operand),
        Instr::Two(_, left, right) => {
            mark(marks, left);
            mark(marks, right);
        }
        Instr::Select {
            width: _,
            cond,
            yes,
            no,
        } => {
            mark(marks, cond);
            mark(marks, yes);
            mark(marks, no);
        }
        Instr::Load { array: _, addr } => mark(marks, addr),
        Instr::Store {
            array: _,
            addr,
            value,
        } => {
            mark(marks, addr);
            mark(marks, value);
        }
    }
}

fn mark_jump(marks: &mut [bool], jump: CfgJump)
    ensures { marks.new ≡ marked marks.old (jump_operands jump) }
{
    match jump {
        CfgJump::Go(_) | CfgJump::Return(None) => {}
        CfgJump::Two {
            cond,
            yes: _,
            no: _,
        } => mark(marks, cond),
        CfgJump::Return(Some(value)) => mark(marks, value),
    }
}

// Marks a value that is a read; others are values of steps.
#[tactic(auto, using(std::proofs::lemmas::List::set_past))]
fn mark(marks: &mut [bool], value: u32)
    ensures { marks.new ≡ marked marks.old (value ∷ []) }
{
    let place = value as usize;
    if place < marks.len() {
        marks[place] = true;
    }
}
