//! Refusals of the two texts.
ghost use Rattle.std.specs.Prelude.{Err};
ghost use Rattle.c_ast.specs.declared.typed.Typed.{Typed};
ghost use Rattle.kernel_ref.specs.Texts.{Bytes, SaysInputs};
ghost use Rattle.kernel_ref.specs.Faults.{IsInputsFault};

use crate::refusal::InterpretRefusal;
use inputs_text::InputRefusal;

/// The refusal of the bytes of a kernel's inputs.
pub(crate) fn inputs_fault(refused: InputRefusal) -> InterpretRefusal
    ensures { (k : Typed) (bytes : Bytes) → SaysInputs k bytes (Err refused)
        → IsInputsFault k bytes result }
{
    match refused {
        InputRefusal::Line { .. } => InterpretRefusal::Inputs(refused),
        InputRefusal::Unknown { .. } => InterpretRefusal::Inputs(refused),
        InputRefusal::Twice { .. } => InterpretRefusal::Inputs(refused),
        InputRefusal::Missing { .. } => InterpretRefusal::Inputs(refused),
        InputRefusal::Count { .. } => InterpretRefusal::Inputs(refused),
        InputRefusal::Range { .. } => InterpretRefusal::Inputs(refused),
        InputRefusal::Memory => InterpretRefusal::Memory,
    }
}
