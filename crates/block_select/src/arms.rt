//! The sides of a condition, and the block where both meet.
ghost use Rattle.std.specs.Prelude.{◌≡◌, ◌==◌, nat_le, sum_by, not};
ghost use Rattle.ir.specs.Accesses.{is_access, accesses_in};
ghost use Rattle.block_select.specs.declared.arms.Way.TheVariants.{ByArm};
ghost use Rattle.block_select.specs.Arms.{
  op2_cost,
  step_cost,
  are_arm_steps,
  side_end,
  meeting_by,
  meeting,
};

use ir::{Block, Instr, Jump, Op2, To};

/// The steps of an arm cost at most so much.
const ARM_COST: u32 = 12;

/// How a side of a condition leads to the block where both sides meet.
#[derive(Clone, Copy, PartialEq, Eq)]
pub enum Way {
    Direct,
    /// Through the block to which it leads, which only computes and leads on without a condition.
    ByArm,
}

/// The block where both sides of a condition meet, and the way of each.
#[derive(Clone, Copy)]
pub struct Meeting {
    pub block: u32,
    pub yes: Way,
    pub no: Way,
}

/// What an operation costs.
fn op2_cost(op: Op2) -> u32
    ensures { result ≡ op2_cost op }
{
    match op {
        Op2::Mul32 | Op2::Mul64 => 4,
        Op2::Divu32
        | Op2::Divu64
        | Op2::Remu32
        | Op2::Remu64
        | Op2::Divs32
        | Op2::Divs64
        | Op2::Rems32
        | Op2::Rems64 => 36,
        Op2::Add32
        | Op2::Add64
        | Op2::Sub32
        | Op2::Sub64
        | Op2::And32
        | Op2::And64
        | Op2::Or32
        | Op2::Or64
        | Op2::Xor32
        | Op2::Xor64
        | Op2::Shl32
        | Op2::Shl64
        | Op2::Shru32
        | Op2::Shru64
        | Op2::Shrs32
        | Op2::Shrs64
        | Op2::Eq32
        | Op2::Eq64
        | Op2::Ne32
        | Op2::Ne64
        | Op2::Ltu32
        | Op2::Ltu64
        | Op2::Leu32
        | Op2::Leu64
        | Op2::Lts32
        | Op2::Lts64
        | Op2::Les32
        | Op2::Les64 => 1,
    }
}

/// What a step costs.
fn step_cost(step: &Instr) -> u32
    ensures { result ≡ step_cost step.now }
{
    match *step {
        Instr::Const { width: _, value: _ } => 0,
        Instr::Two(op, _, _) => op2_cost(op),
        Instr::One(_, _)
        | Instr::Select {
            width: _,
            cond: _,
            yes: _,
            no: _,
        }
        | Instr::Load { array: _, addr: _ }
        | Instr::Store {
            array: _,
            addr: _,
            value: _,
        } => 1,
    }
}

/// Whether a step reads or writes an array.
fn is_access(step: &Instr) -> bool
    ensures { result ≡ not (is_access step.now == 0) }
{
    match *step {
        Instr::Const { width: _, value: _ }
        | Instr::One(_, _)
        | Instr::Two(_, _, _)
        | Instr::Select {
            width: _,
            cond: _,
            yes: _,
            no: _,
        } => false,
        Instr::Load { array: _, addr: _ }
        | Instr::Store {
            array: _,
            addr: _,
            value: _,
        } => true,
    }
}

/// Whether some step does.
#[tactic(auto, using(crate::proofs::Arming::more_accesses, crate::proofs::Arming::no_accesses))]
fn has_access(steps: &[Instr]) -> bool
    ensures { result ≡ not (accesses_in steps.now == 0) }
{
    for step in steps {
        if is_access(step) {
            return true;
        }
    }
    false
}

/// Whether the steps together cost at most so much.
#[tactic(auto, using(crate::proofs::Arming::more_cost))]
fn cost_at_most(steps: &[Instr], limit: u32) -> bool
    ensures { result ≡ nat_le (sum_by step_cost steps.now) limit }
{
    let mut left = limit;
    for step in steps {
        let cost = step_cost(step);
        if left < cost {
            return false;
        }
        left -= cost;
    }
    true
}

/// Whether steps can be those of an arm.
fn are_arm_steps(steps: &[Instr]) -> bool
    ensures { result ≡ are_arm_steps steps.now }
{
    !has_access(steps) && cost_at_most(steps, ARM_COST)
}

/// The block to which a side of a block leads by its arm, where it has one.
fn arm_end(blocks: &[Block], at: usize, side: &To) -> Option<u32>
    ensures { result ≡ side_end blocks.now at side.now ByArm }
{
    let arm = blocks.get(side.block as usize)?;
    match &arm.jump {
        Jump::Go(next) => {
            if side.block as usize != at && are_arm_steps(arm.steps.as_slice()) {
                Some(next.block)
            } else {
                None
            }
        }
        Jump::Two {
            cond: _,
            yes: _,
            no: _,
        }
        | Jump::Return(_) => None,
    }
}

/// The block to which a side of a block leads by that way.
fn side_end(blocks: &[Block], at: usize, side: &To, way: Way) -> Option<u32>
    ensures { result ≡ side_end blocks.now at side.now way }
{
    match way {
        Way::Direct => Some(side.block),
        Way::ByArm => arm_end(blocks, at, side),
    }
}

/// Where both sides of a block lead to one block by these ways.
fn meeting_by(
    blocks: &[Block],
    at: usize,
    yes: &To,
    no: &To,
    yes_way: Way,
    no_way: Way,
) -> Option<Meeting>
    ensures { result ≡ meeting_by blocks.now at yes.now no.now yes_way no_way }
{
    let first = side_end(blocks, at, yes, yes_way)?;
    let second = side_end(blocks, at, no, no_way)?;
    if first == second {
        Some(Meeting {
            block: first,
            yes: yes_way,
            no: no_way,
        })
    } else {
        None
    }
}

/// Where both sides of a block meet.
pub(crate) fn meeting_of(blocks: &[Block], at: usize, yes: &To, no: &To) -> Option<Meeting>
    ensures { result ≡ meeting blocks.now at yes.now no.now }
{
    let by_both = meeting_by(blocks, at, yes, no, Way::ByArm, Way::ByArm);
    let by_second = meeting_by(blocks, at, yes, no, Way::Direct, Way::ByArm);
    let by_first = meeting_by(blocks, at, yes, no, Way::ByArm, Way::Direct);
    let directly = meeting_by(blocks, at, yes, no, Way::Direct, Way::Direct);
    directly.or(by_first.or(by_second.or(by_both)))
}
