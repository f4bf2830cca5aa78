//! The results of a kernel on inputs.
ghost use Rattle.std.specs.Prelude.{◌≡◌, ◌++◌, map, IfOk, IfErr, OnOk};
ghost use Rattle.c_meaning.specs.Headers.{flat};
ghost use Rattle.c_meaning.specs.Lawful.{Lawful};
ghost use Rattle.ref_interp.specs.Outcomes.{InputsFit};
ghost use Rattle.kernel_ref.specs.Results.{EndsWith, turns_line};
ghost use Rattle.kernel_ref.specs.Faults.{IsEndFault};

use crate::options::InterpretOptions;
use crate::refusal::InterpretRefusal;
use c_ast::Typed;
use el_base::{Array, Memory, put_u64};
use inputs_text::print_results_of;
use net_types::Inputs;
use ref_interp::{Outcome, interpret};
use std::alloc::Global;

/// The text of the results that a kernel ends with, and of the turns that it took, where they are asked for.
pub(crate) fn results_of(
    alloc: Global,
    typed: &Typed,
    arrays: &[Array],
    inputs: &Inputs,
    options: InterpretOptions,
) -> Result<Vec<u8>, InterpretRefusal>
    requires lawful { Lawful typed.now }
    requires header { arrays.now ≡ map flat typed.now.arrays }
    requires fit { InputsFit typed.now inputs.now }
    ensures ok { IfOk result (λ text. EndsWith options text.items typed.now inputs.now) }
    ensures err { IfErr result (IsEndFault typed.now inputs.now options) }
{
    match interpret(alloc, typed, options.profile, inputs, options.turns) {
        Ok(
            Outcome::Ends {
                arrays: values,
                value,
                turns,
            },
        ) => {
            let mut text = print_results_of(alloc, arrays, typed.result, values.as_slice(), value)?;
            put_turns(&mut text, options.count, turns)?;
            Ok(text)
        }
        Ok(Outcome::Undefined { span }) => Err(InterpretRefusal::Undefined { span }),
        Ok(Outcome::OutOfTurns) => Err(InterpretRefusal::OutOfTurns {
            turns: options.turns,
        }),
        Err(Memory) => Err(InterpretRefusal::Memory),
    }
}

/// Appends the line of the turns, where it is asked for.
fn put_turns(text: &mut Vec<u8>, asked: bool, turns: u64) -> Result<(), Memory>
    ensures { OnOk result (text.new.items ≡ text.old.items ++ turns_line asked turns) }
{
    if !asked {
        return Ok(());
    }
    text.extend_from_slice(b"# turns ")?;
    put_u64(text, turns)?;
    text.push(b'\n')?;
    Ok(())
}
