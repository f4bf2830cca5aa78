//! Marks on the steps of a block that are not dead.
ghost use Rattle.std.specs.Prelude.{◌≡◌, ◌<◌, ◌+◌, ◌∷◌, [], ◌||◌, not, length, get_or, false, IfOk, if◌then◌else◌};
ghost use Rattle.el_base.specs.Limits.{IsNumbered};
ghost use Rattle.ir.specs.Renaming.{operands};
ghost use Rattle.block_prune.specs.Dead.{is_pure, jump_operands, block_live_marks};
ghost use Rattle.block_prune.specs.Code.{marked};

use ir::{Block, Instr, Jump, Memory};
use std::alloc::Global;

/// For each step whether it stays: it is a load or a store, or the jump or a step that stays needs its value.
///
/// The time is as the numbers of arguments, steps and values that the jump hands on.
///
/// # Errors
///
/// [`Memory`] where memory is wanting.
pub(crate) fn live_marks(alloc: Global, block: &Block) -> Result<Vec<bool>, Memory>
    requires { IsNumbered (length block.now.args + length block.now.steps) }
    ensures { IfOk result (λ marks. marks.items ≡ block_live_marks block.now) }
{
    let args = block.args.len();
    let steps = block.steps.as_slice();
    let count = steps.len();
    let mut needed = vec![in alloc; false; args + count]?;
    need_jump(&mut needed, &block.jump);
    let mut marks = vec![in alloc; false; count]?;
    for place in (0..count).rev() {
        marks[place] = note(&mut needed, args + place, &steps[place]);
    }
    Ok(marks)
}

// Whether the step of that number stays, where those values are needed behind it; notes what it needs.
fn note(needed: &mut Vec<bool>, number: usize, step: &Instr) -> bool
    requires { number < length needed.old.items }
    ensures live { result ≡ (not (is_pure step.now) || get_or needed.old.items number false) }
    ensures needed { needed.new.items
        ≡ (if result then marked needed.old.items (operands step.now) else needed.old.items) }
{
    let live = !is_pure(step) || needed[number];
    if live {
        need_operands(needed, step);
    }
    live
}

// Whether the step neither reads nor writes an array.
fn is_pure(step: &Instr) -> bool
    ensures { result ≡ is_pure step.now }
{
    match *step {
        Instr::Load { array: _, addr: _ }
        | Instr::Store {
            array: _,
            addr: _,
            value: _,
        } => false,
        Instr::Const { width: _, value: _ }
        | Instr::One(_, _)
        | Instr::Two(_, _, _)
        | Instr::Select {
            width: _,
            cond: _,
            yes: _,
            no: _,
        } => true,
    }
}

fn need_operands(needed: &mut Vec<bool>, step: &Instr)
    ensures { needed.new.items ≡ marked needed.old.items (operands step.now) }
{
    match *step {
        Instr::Const { width: _, value: _ } => {}
        Instr::One(_, a) => need(needed, a),
        Instr::Two(_, a, b) => {
            need(needed, a);
            need(needed, b);
        }
        Instr::Select {
            width: _,
            cond,
            yes,
            no,
        } => {
            need(needed, cond);
            need(needed, yes);
            need(needed, no);
        }
        Instr::Load { array: _, addr } => need(needed, addr),
        Instr::Store {
            array: _,
            addr,
            value,
        } => {
            need(needed, addr);
            need(needed, value);
        }
    }
}

#[tactic(auto, using(crate::proofs::Marks::marked_append))]
fn need_jump(needed: &mut Vec<bool>, jump: &Jump)
    ensures { needed.new.items ≡ marked needed.old.items (jump_operands jump.now) }
{
    match jump {
        Jump::Go(to) => need_all(needed, to.with.as_slice()),
        Jump::Two { cond, yes, no } => {
            need(needed, *cond);
            need_all(needed, yes.with.as_slice());
            need_all(needed, no.with.as_slice());
        }
        Jump::Return(Some(value)) => need(needed, *value),
        Jump::Return(None) => {}
    }
}

fn need_all(needed: &mut Vec<bool>, values: &[u32])
    ensures { needed.new.items ≡ marked needed.old.items values.now }
{
    for value in values {
        need(needed, *value);
    }
}

// Marks a value of the block as needed.
#[tactic(auto, using(std::proofs::lemmas::List::set_past))]
fn need(needed: &mut Vec<bool>, value: u32)
    ensures { needed.new.items ≡ marked needed.old.items (value ∷ []) }
{
    let number = value as usize;
    if number < needed.len() {
        needed[number] = true;
    }
}
