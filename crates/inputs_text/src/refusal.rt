ghost use Rattle.std.specs.Prelude.{◌≡◌, option_map};
ghost use Rattle.inputs_text.specs.Refusals.{refusal_by, refusal_number, refusal_word, refusal_line, refusal_name};

use el_base::{Memory, Name};
use thiserror::Error;

/// Why bytes are no text of inputs.
#[derive(Debug, Drop, Error)]
pub enum InputRefusal {
    /// The line of this number, from 1, has not the form `NAME = n n ..`.
    #[error("line {number} is not of the form `NAME = n n ..`")]
    Line { number: u32 },
    /// No scalar or array has the name of this line.
    #[error("line {number} names no input")]
    Unknown { number: u32 },
    /// An earlier line has the name of this one.
    #[error("line {number} has the name of an earlier line")]
    Twice { number: u32 },
    /// No line has this name.
    #[error("no line has the name of an input")]
    Missing { name: Name },
    /// This line has more numbers or fewer than its name asks for.
    #[error("line {number} has another number of values than its name asks for")]
    Count { number: u32 },
    /// A number of this line is outside the type of its name.
    #[error("a value of line {number} is outside the type of its name")]
    Range { number: u32 },
    /// Memory ran out.
    #[error("out of memory")]
    Memory,
}

impl InputRefusal {
    /// The number by which the refusal is printed; none for want of memory.
    pub fn number(&self) -> Option<u32>
        ensures { result ≡ refusal_number self.now }
    {
        match self {
            InputRefusal::Line { .. } => Some(50),
            InputRefusal::Unknown { .. } => Some(51),
            InputRefusal::Twice { .. } => Some(52),
            InputRefusal::Missing { .. } => Some(53),
            InputRefusal::Count { .. } => Some(54),
            InputRefusal::Range { .. } => Some(55),
            InputRefusal::Memory => None,
        }
    }

    /// The word by which the refusal is printed.
    pub fn word(&self) -> &'static str
        ensures { result.now ≡ refusal_word self.now }
    {
        match self {
            InputRefusal::Line { .. } => "Line",
            InputRefusal::Unknown { .. } => "Unknown",
            InputRefusal::Twice { .. } => "Twice",
            InputRefusal::Missing { .. } => "Missing",
            InputRefusal::Count { .. } => "Count",
            InputRefusal::Range { .. } => "Range",
            InputRefusal::Memory => "Memory",
        }
    }

    /// The number of the line that is refused, from 1; none where it is no line.
    pub fn line(&self) -> Option<u32>
        ensures { result ≡ refusal_line self.now }
    {
        match self {
            InputRefusal::Line { number }
            | InputRefusal::Unknown { number }
            | InputRefusal::Twice { number }
            | InputRefusal::Count { number }
            | InputRefusal::Range { number } => Some(*number),
            InputRefusal::Missing { .. } | InputRefusal::Memory => None,
        }
    }

    /// The name that no line has; none where a line is refused.
    pub fn name(&self) -> Option<&Name>
        ensures { option_map (λ name. name.now) result ≡ refusal_name self.now }
    {
        match self {
            InputRefusal::Missing { name } => Some(name),
            InputRefusal::Line { .. }
            | InputRefusal::Unknown { .. }
            | InputRefusal::Twice { .. }
            | InputRefusal::Count { .. }
            | InputRefusal::Range { .. }
            | InputRefusal::Memory => None,
        }
    }
}

impl From<Memory> for InputRefusal {
    ghost use Rattle.inputs_text.specs.declared.refusal.InputRefusal.TheVariants as refusal;

    ghost from_gives = { λ _ e. e ≡ refusal.Memory };

    fn from(_: Memory) -> InputRefusal {
        InputRefusal::Memory
    }
}

/// A rule of lines, in the order in which they are tried.
#[derive(Clone, Copy, PartialEq, Eq)]
pub(crate) enum Rule {
    /// A line has the form.
    Form,
    /// Its name is one of the header.
    Unknown,
    /// No earlier line has its name.
    Twice,
    /// Its numbers are as many as are asked for.
    Count,
    /// The type of its name holds each of them.
    Range,
}

impl Rule {
    /// The refusal of a line that breaks the rule.
    pub fn refusal(self, number: u32) -> InputRefusal
        ensures { result ≡ refusal_by self number }
    {
        match self {
            Rule::Form => InputRefusal::Line { number },
            Rule::Unknown => InputRefusal::Unknown { number },
            Rule::Twice => InputRefusal::Twice { number },
            Rule::Count => InputRefusal::Count { number },
            Rule::Range => InputRefusal::Range { number },
        }
    }
}
