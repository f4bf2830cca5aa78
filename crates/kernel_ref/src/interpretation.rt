//! From a kernel and the bytes of its inputs to the text of its results.
ghost use Rattle.std.specs.Prelude.{length, Ok, Err, IfOk, IfErr};
ghost use Rattle.el_base.specs.Limits.{IsNumbered};
ghost use Rattle.c_meaning.specs.Lawful.{Lawful};
ghost use Rattle.kernel_ref.specs.Texts.{On};
ghost use Rattle.kernel_ref.specs.Results.{EndsWith};
ghost use Rattle.kernel_ref.specs.Faults.{IsRunFault};
ghost use Rattle.kernel_ref.specs.Answers.{Interprets, IsOnly};

use crate::given::inputs_fault;
use crate::laws::inputs_have_one_answer;
use crate::options::InterpretOptions;
use crate::refusal::InterpretRefusal;
use crate::results::results_of;
use c_ast::Typed;
use inputs_text::read_inputs_of;
use ref_interp::{flat_arrays, names_of_parameters_differ, scalars};
use std::alloc::Global;

/// The text of the results that a lawful kernel ends with on its inputs, run by the plain interpreter, and the number of
/// turns that it took, where that is asked for.
///
/// The bytes have to be fewer than 2^32.
///
/// # Errors
///
/// `Inputs` where the bytes are no text of inputs of the kernel. `Undefined` exactly where an operation is undefined within
/// the turns, with the place of the first, and `OutOfTurns` exactly where the kernel is not over within them, with their
/// number. `Memory` where memory ran out.
pub fn interpret_text(
    alloc: Global,
    typed: &Typed,
    bytes: &[u8],
    options: InterpretOptions,
) -> Result<Vec<u8>, InterpretRefusal>
    requires lawful { Lawful typed.now }
    requires short { IsNumbered (length bytes.now) }
    ensures ok { IfOk result (λ text. Interprets typed.now bytes.now options (Ok text.items)) }
    ensures err { IfErr result (λ refused. Interprets typed.now bytes.now options (Err refused)) }
    ensures only_text { IfOk result (λ text. IsOnly typed.now bytes.now options (Ok text.items)) }
    ensures only_refusal { IfErr result (λ refused.
        IsOnly typed.now bytes.now options (Err refused)) }
{
    inputs_have_one_answer();
    text_on(alloc, typed, bytes, options)
}

/// The same answer, without that it is the only one.
fn text_on(
    alloc: Global,
    typed: &Typed,
    bytes: &[u8],
    options: InterpretOptions,
) -> Result<Vec<u8>, InterpretRefusal>
    requires lawful { Lawful typed.now }
    requires short { IsNumbered (length bytes.now) }
    ensures ok { IfOk result (λ text. On typed.now bytes.now (EndsWith options text.items typed.now)) }
    ensures err { IfErr result (IsRunFault typed.now bytes.now options) }
{
    names_of_parameters_differ();
    let scalars = scalars(alloc, typed.params.as_slice())?;
    let arrays = flat_arrays(alloc, typed)?;
    match read_inputs_of(alloc, scalars.as_slice(), arrays.as_slice(), bytes) {
        Ok(inputs) => results_of(alloc, typed, arrays.as_slice(), &inputs, options),
        Err(refused) => Err(inputs_fault(refused)),
    }
}
