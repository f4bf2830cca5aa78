//! Whole kernels.
ghost use Rattle.std.specs.Prelude.{◌≡◌, List, length, slice_get, IfOk};
ghost use Rattle.el_base.specs.declared.ty.Ty.{Ty};
ghost use Rattle.c_meaning.specs.Lawful.{Lawful};
ghost use Rattle.c_meaning.specs.Statements.{objects};
ghost use Rattle.ref_interp.specs.Outcomes.{InputsFit, input_numbers, Says, IsOnly, HasResults};
ghost use Rattle.ref_interp.specs.Kernels.{BodyGives, IsOpening, OutcomeGives, opened};

use crate::cells::{Cells, Trace};
use crate::expressions::Interpreter;
use crate::laws::{parts_are_known, patterns_follow_numbers};
use crate::machine::{Ending, Machine};
use crate::statements::enter;
use crate::turn_laws::ends_need_only_their_turns;
use c_ast::Typed;
use c_meaning::Profile;
use c_meaning::laws::{ends_are_one, larger_bounds_keep_ends};
use c_meaning::range_laws::numbers_stay_in_range;
use el_base::{
    List, Memory, Span, patterns_are_those_of_their_numbers, patterns_have_their_width,
    patterns_stand_for_numbers_in_range,
};
use net_types::Inputs;
use std::alloc::Global;

/// What the run of a kernel comes to.
#[derive(Drop)]
pub enum Outcome {
    /// It ends in so many turns, with the patterns of its arrays and of its result.
    Ends {
        arrays: List<List<u64>>,
        value: Option<u64>,
        turns: u64,
    },
    /// The operation at this place is the first one that is undefined.
    Undefined {
        span: Span,
    },
    /// It is not over within its turns.
    OutOfTurns,
}

/// Runs a lawful kernel on inputs that fit, within so many turns.
///
/// # Errors
///
/// [`Memory`] where memory is wanting to copy the inputs; the run itself takes none.
pub fn interpret(
    alloc: Global,
    typed: &Typed,
    profile: Profile,
    inputs: &Inputs,
    turns: u64,
) -> Result<Outcome, Memory>
    requires lawful { Lawful typed.now }
    requires fit { InputsFit typed.now inputs.now }
    ensures says { IfOk result
        (Says typed.now profile (input_numbers typed.now inputs.now) turns) }
    ensures only { IfOk result
        (IsOnly typed.now profile (input_numbers typed.now inputs.now) turns) }
    ensures results { IfOk result (HasResults typed.now) }
{
    patterns_follow_numbers();
    parts_are_known();
    ends_are_one();
    larger_bounds_keep_ends();
    ends_need_only_their_turns();
    patterns_are_those_of_their_numbers();
    patterns_have_their_width();
    patterns_stand_for_numbers_in_range();
    numbers_stay_in_range();
    let cells = opening(alloc, typed, inputs)?;
    let trace = Trace {
        failed: false,
        at: typed.at,
        turns: 0,
    };
    let mut m = Machine {
        cells,
        trace,
        left: turns,
        value: None,
    };
    let ending = run_body(typed, profile, &mut m);
    Ok(concluded(typed, m, ending, turns))
}

/// The cells before a run: the parameters set, all other variables unset.
fn opening(alloc: Global, typed: &Typed, inputs: &Inputs) -> Result<Cells, Memory>
    ensures { IfOk result (IsOpening typed.now inputs.now) }
{
    let vars = first_cells(alloc, typed.vars.len(), inputs.scalars.as_slice())?;
    let arrays = copies(alloc, inputs.arrays.as_slice())?;
    Ok(Cells { vars, arrays })
}

/// So many cells, of which the first ones are set.
fn first_cells(alloc: Global, count: usize, scalars: &[u64]) -> Result<List<Option<u64>>, Memory>
    ensures { (ts : List Ty) → length ts ≡ count
        → IfOk result (λ cells. cells ≡ opened ts scalars.now) }
{
    let mut cells = List::new(alloc);
    for i in 0..count {
        let cell = pattern_at(scalars, i);
        cells.push(cell)?;
    }
    Ok(cells)
}

/// A pattern of a list, and none past its end.
#[tactic(auto, using(std::proofs::lemmas::Option::gets))]
fn pattern_at(patterns: &[u64], i: usize) -> Option<u64>
    ensures { result ≡ slice_get patterns.now i }
{
    match patterns.get(i) {
        Some(pattern) => Some(*pattern),
        None => None,
    }
}

/// Equal arrays.
fn copies(alloc: Global, arrays: &[List<u64>]) -> Result<List<List<u64>>, Memory>
    ensures { IfOk result (λ made. made ≡ arrays.now) }
{
    let mut made = List::new(alloc);
    for elements in arrays {
        let copy = elements.copy()?;
        made.push(copy)?;
    }
    Ok(made)
}

/// Runs the block of a kernel.
fn run_body(typed: &Typed, profile: Profile, m: &mut Machine) -> Ending
    ensures { BodyGives typed.now profile m.old result m.new }
{
    if !m.take(1) {
        return Ending::OutOfTurns;
    }
    enter(m, typed.body.as_slice());
    let interpreter = Interpreter { typed, profile };
    interpreter.exec_all(m, typed.body.as_slice())
}

/// What a run of the block comes to, that ended so with a bound of turns.
fn concluded(typed: &Typed, m: Machine, ending: Ending, turns: u64) -> Outcome
    ensures { OutcomeGives typed.now m ending turns result }
{
    let Machine {
        cells,
        trace,
        left,
        value,
    } = m;
    match ending {
        Ending::Return => Outcome::Ends {
            arrays: cells.arrays,
            value,
            turns: turns.saturating_sub(left),
        },
        Ending::Normally => match typed.result {
            None => Outcome::Ends {
                arrays: cells.arrays,
                value: None,
                turns: turns.saturating_sub(left),
            },
            Some(_) => Outcome::Undefined { span: typed.at },
        },
        Ending::Undefined => Outcome::Undefined { span: trace.at },
        Ending::OutOfTurns => Outcome::OutOfTurns,
        // No block of a lawful kernel ends so.
        Ending::Break => Outcome::OutOfTurns,
        Ending::Continue => Outcome::OutOfTurns,
    }
}
