//! How many steps are of a kind.
ghost use Rattle.std.specs.Prelude.{◌≡◌, ◌≤◌, length};
ghost use Rattle.ir.specs.Accesses.{is_access, accesses_in};
ghost use Rattle.block_copy.specs.Nonconstants.{is_nonconstant, nonconstants_in};

use ir::Instr;

/// 1 for a step that is no constant.
fn is_nonconstant(step: &Instr) -> usize
    ensures { result ≡ is_nonconstant step.now }
{
    match *step {
        Instr::Const { width: _, value: _ } => 0,
        Instr::One(_, _)
        | Instr::Two(_, _, _)
        | Instr::Select {
            width: _,
            cond: _,
            yes: _,
            no: _,
        }
        | Instr::Load { array: _, addr: _ }
        | Instr::Store {
            array: _,
            addr: _,
            value: _,
        } => 1,
    }
}

/// How many of the steps are no constants.
#[tactic(auto, using(crate::proofs::StepCounts::more_nonconstants, crate::proofs::StepCounts::no_nonconstants, crate::proofs::StepCounts::one_nonconstant))]
pub(crate) fn nonconstants_in(steps: &[Instr]) -> usize
    ensures { result ≡ nonconstants_in steps.now }
{
    let mut count = 0;
    for step in steps {
        count += is_nonconstant(step);
    }
    count
}

/// 1 for a step that is a load or a store.
fn is_access(step: &Instr) -> usize
    ensures { result ≡ is_access step.now }
{
    match *step {
        Instr::Const { width: _, value: _ }
        | Instr::One(_, _)
        | Instr::Two(_, _, _)
        | Instr::Select {
            width: _,
            cond: _,
            yes: _,
            no: _,
        } => 0,
        Instr::Load { array: _, addr: _ }
        | Instr::Store {
            array: _,
            addr: _,
            value: _,
        } => 1,
    }
}

/// How many of the steps are loads and stores.
#[tactic(auto, using(crate::proofs::StepCounts::more_accesses, crate::proofs::StepCounts::no_accesses, crate::proofs::StepCounts::one_access))]
pub(crate) fn accesses_in(steps: &[Instr]) -> usize
    ensures { result ≡ accesses_in steps.now }
{
    let mut count = 0;
    for step in steps {
        count += is_access(step);
    }
    count
}
