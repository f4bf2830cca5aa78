//! New numbers of values, and what steps say of a value.
ghost use Rattle.std.specs.Prelude.{◌≡◌};
ghost use Rattle.ir.specs.Renaming.{renamed};
ghost use Rattle.block_rules.specs.Reading.{step_at, const_at};
ghost use Rattle.block_fold.specs.Numbers.{renumbered};

use ir::Instr;

/// The new number of a value: each of the first ones stays, and those behind them have these numbers.
pub(crate) fn renumbered(first: u32, numbers: &[u32], value: u32) -> u32
    ensures { result ≡ renumbered first numbers.now value }
{
    if value < first {
        value
    } else {
        numbers.get((value - first) as usize).copied().unwrap_or(0)
    }
}

/// The step on the same values under their new numbers.
pub(crate) fn renamed(first: u32, numbers: &[u32], step: &Instr) -> Instr
    ensures { result ≡ renamed (renumbered first numbers.now) step.now }
{
    match *step {
        Instr::Const { width, value } => Instr::Const { width, value },
        Instr::One(op, a) => Instr::One(op, renumbered(first, numbers, a)),
        Instr::Two(op, a, b) => Instr::Two(
            op,
            renumbered(first, numbers, a),
            renumbered(first, numbers, b),
        ),
        Instr::Select {
            width,
            cond,
            yes,
            no,
        } => Instr::Select {
            width,
            cond: renumbered(first, numbers, cond),
            yes: renumbered(first, numbers, yes),
            no: renumbered(first, numbers, no),
        },
        Instr::Load { array, addr } => Instr::Load {
            array,
            addr: renumbered(first, numbers, addr),
        },
        Instr::Store { array, addr, value } => Instr::Store {
            array,
            addr: renumbered(first, numbers, addr),
            value: renumbered(first, numbers, value),
        },
    }
}

/// The step whose value it is; an argument has none.
pub(crate) fn step_at(args: u32, steps: &[Instr], value: u32) -> Option<Instr>
    ensures { result ≡ step_at args steps.now value }
{
    if value < args {
        None
    } else {
        steps.get((value - args) as usize).copied()
    }
}

/// The constant that a value is, if it is one.
#[tactic(auto, unfolding(block_rules::specs::Reading::const_at))]
pub(crate) fn const_at(args: u32, steps: &[Instr], value: u32) -> Option<u64>
    ensures { result ≡ const_at args steps.now value }
{
    match step_at(args, steps, value) {
        Some(Instr::Const { width: _, value }) => Some(value),
        Some(Instr::One(_, _))
        | Some(Instr::Two(_, _, _))
        | Some(
            Instr::Select {
                width: _,
                cond: _,
                yes: _,
                no: _,
            },
        )
        | Some(Instr::Load { array: _, addr: _ })
        | Some(
            Instr::Store {
                array: _,
                addr: _,
                value: _,
            },
        )
        | None => None,
    }
}
