ghost use Rattle.std.specs.Prelude.{◌≡◌};
ghost use Rattle.net_text.specs.Refusals.{refusal_number, refusal_word, refusal_line};

use net_types::Memory;
use thiserror::Error;

/// Why bytes are not the text of a net.
#[derive(Clone, Copy, Debug, PartialEq, Eq, Error)]
pub enum TextRefusal {
    /// The complete line of this number, from 1, is the first that may not stand where it stands, or is after `end`.
    #[error("line {number} may not stand here in the text of a net")]
    Line { number: u32 },
    /// The text ends before the complete line `end`.
    #[error("the text of the net ends before the line `end`")]
    Ends,
    /// The first line names a version other than 1 and 2.
    #[error("the first line names a version that is not known")]
    Version,
    /// Memory ran out.
    #[error("out of memory")]
    Memory,
}

impl TextRefusal {
    /// The number by which the refusal is printed; none for want of memory.
    pub fn number(&self) -> Option<u32>
        ensures { result ≡ refusal_number self.now }
    {
        match self {
            TextRefusal::Line { .. } => Some(40),
            TextRefusal::Ends => Some(41),
            TextRefusal::Version => Some(42),
            TextRefusal::Memory => None,
        }
    }

    /// The word by which the refusal is printed.
    pub fn word(&self) -> &'static str
        ensures { result.now ≡ refusal_word self.now }
    {
        match self {
            TextRefusal::Line { .. } => "Line",
            TextRefusal::Ends => "Ends",
            TextRefusal::Version => "Version",
            TextRefusal::Memory => "Memory",
        }
    }

    /// The number of the line that is refused, from 1; none where it is no line.
    pub fn line(&self) -> Option<u32>
        ensures { result ≡ refusal_line self.now }
    {
        match self {
            TextRefusal::Line { number } => Some(*number),
            TextRefusal::Ends | TextRefusal::Version | TextRefusal::Memory => None,
        }
    }
}

impl From<Memory> for TextRefusal {
    ghost use Rattle.net_text.specs.declared.refusal.TextRefusal.TheVariants as refusal;

    ghost from_gives = { λ _ e. e ≡ refusal.Memory };

    fn from(_: Memory) -> TextRefusal {
        TextRefusal::Memory
    }
}
