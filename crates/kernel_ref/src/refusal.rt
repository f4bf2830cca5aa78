ghost use Rattle.std.specs.Prelude.{◌≡◌};
ghost use Rattle.kernel_ref.specs.Refusals.{interpret_number, interpret_word};

use el_base::{Memory, Span};
use inputs_text::InputRefusal;

/// Why a kernel has no text of results.
#[derive(Debug, Drop)]
pub enum InterpretRefusal {
    /// The bytes are no text of inputs of the kernel.
    Inputs(InputRefusal),
    /// The operation at this place is the first one that is undefined.
    Undefined { span: Span },
    /// The run is not over within so many turns.
    OutOfTurns { turns: u64 },
    /// Memory ran out.
    Memory,
}

impl InterpretRefusal {
    /// The number by which it is printed: 50 to 55 of inputs, 80 and 81 of a run; none for want of memory.
    pub fn number(&self) -> Option<u32>
        ensures { result ≡ interpret_number self.now }
    {
        match self {
            InterpretRefusal::Inputs(refused) => refused.number(),
            InterpretRefusal::Undefined { .. } => Some(80),
            InterpretRefusal::OutOfTurns { .. } => Some(81),
            InterpretRefusal::Memory => None,
        }
    }

    /// The word by which it is printed.
    pub fn word(&self) -> &'static str
        ensures { result.now ≡ interpret_word self.now }
    {
        match self {
            InterpretRefusal::Inputs(refused) => refused.word(),
            InterpretRefusal::Undefined { .. } => "Undefined",
            InterpretRefusal::OutOfTurns { .. } => "Turns",
            InterpretRefusal::Memory => "Memory",
        }
    }
}

impl From<Memory> for InterpretRefusal {
    ghost use Rattle.kernel_ref.specs.declared.refusal.InterpretRefusal.TheVariants as refusal;

    ghost from_gives = { λ _ e. e ≡ refusal.Memory };

    fn from(_: Memory) -> InterpretRefusal {
        InterpretRefusal::Memory
    }
}
