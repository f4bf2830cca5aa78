ghost use Rattle.std.specs.Prelude.{◌≡◌};
ghost use Rattle.snapshot.specs.Refusals.{refusal_number, refusal_word, refusal_line};

use el_base::Memory;
use thiserror::Error;

/// Why bytes are not the text of a state of a net.
#[derive(Clone, Copy, Debug, PartialEq, Eq, Error)]
pub enum SnapRefusal {
    /// The complete line of this number, from 1, is the first that may not stand after the lines before it, or is after `end`.
    #[error("line {number} may not stand here in the text of a saved state")]
    Line { number: u32 },
    /// The text ends before the complete line `end`.
    #[error("the text of the saved state ends before the line `end`")]
    Ends,
    /// Memory ran out.
    #[error("out of memory")]
    Memory,
}

impl SnapRefusal {
    /// The number by which the refusal is printed; none for want of memory.
    pub fn number(&self) -> Option<u32>
        ensures { result ≡ refusal_number self.now }
    {
        match self {
            SnapRefusal::Line { .. } => Some(90),
            SnapRefusal::Ends => Some(91),
            SnapRefusal::Memory => None,
        }
    }

    /// The word by which the refusal is printed.
    pub fn word(&self) -> &'static str
        ensures { result.now ≡ refusal_word self.now }
    {
        match self {
            SnapRefusal::Line { .. } => "Line",
            SnapRefusal::Ends => "Ends",
            SnapRefusal::Memory => "Memory",
        }
    }

    /// The number of the line that is refused, from 1; none where it is no line.
    pub fn line(&self) -> Option<u32>
        ensures { result ≡ refusal_line self.now }
    {
        match self {
            SnapRefusal::Line { number } => Some(*number),
            SnapRefusal::Ends | SnapRefusal::Memory => None,
        }
    }
}

impl From<Memory> for SnapRefusal {
    ghost use Rattle.snapshot.specs.declared.refusal.SnapRefusal.TheVariants as refusal;

    ghost from_gives = { λ _ e. e ≡ refusal.Memory };

    fn from(_: Memory) -> SnapRefusal {
        SnapRefusal::Memory
    }
}
