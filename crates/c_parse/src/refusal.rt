//! What a list of tokens is refused for.
ghost use Rattle.std.specs.Prelude.{◌≡◌};

use c_ast::Span;
use el_base::Memory;
use thiserror::Error;

/// Why tokens give no tree, with the place.
#[derive(Debug, Drop, Error)]
pub enum ParseRefusal {
    /// A token that no kernel text has there.
    #[error("expected another token here")]
    Unexpected { span: Span },
    /// The tokens end too early; the place is the one after them.
    #[error("the text ends where more tokens are expected")]
    EndOfText { span: Span },
    /// A construct nests too deep; the place is its first token.
    #[error("constructs are nested too deep")]
    TooDeep { span: Span },
    /// The kernel has too many syntax nodes; the place is its name.
    #[error("the kernel has {nodes} syntax nodes, more than the limit")]
    TooLarge { span: Span, nodes: u64 },
    /// Memory ran out.
    #[error("out of memory")]
    Memory,
}

impl ParseRefusal {
    ghost use Rattle.c_parse.specs.Printed.{refusal_number, refusal_word, refusal_span};

    /// The number by which it is printed, 10 to 13; none for want of memory.
    pub fn number(&self) -> Option<u32>
        ensures { result ≡ refusal_number self.now }
    {
        match self {
            ParseRefusal::Unexpected { .. } => Some(10),
            ParseRefusal::EndOfText { .. } => Some(11),
            ParseRefusal::TooDeep { .. } => Some(12),
            ParseRefusal::TooLarge { .. } => Some(13),
            ParseRefusal::Memory => None,
        }
    }

    /// The word by which it is printed.
    pub fn word(&self) -> &'static str
        ensures { result.now ≡ refusal_word self.now }
    {
        match self {
            ParseRefusal::Unexpected { .. } => "Unexpected",
            ParseRefusal::EndOfText { .. } => "EndOfText",
            ParseRefusal::TooDeep { .. } => "TooDeep",
            ParseRefusal::TooLarge { .. } => "TooLarge",
            ParseRefusal::Memory => "Memory",
        }
    }

    /// Its place in the text; none for want of memory.
    pub fn span(&self) -> Option<Span>
        ensures { result ≡ refusal_span self.now }
    {
        match self {
            ParseRefusal::Unexpected { span } => Some(*span),
            ParseRefusal::EndOfText { span } => Some(*span),
            ParseRefusal::TooDeep { span } => Some(*span),
            ParseRefusal::TooLarge { span, .. } => Some(*span),
            ParseRefusal::Memory => None,
        }
    }
}

impl From<Memory> for ParseRefusal {
    ghost use Rattle.c_parse.specs.declared.refusal.ParseRefusal.TheVariants as refusal;

    ghost from_gives = { λ _ e. e ≡ refusal.Memory };

    fn from(_: Memory) -> ParseRefusal {
        ParseRefusal::Memory
    }
}

/// Where the tokens stop to be a kernel text; [`ParseRefusal`] without what is known only of all of them.
#[derive(Drop)]
pub enum Stop {
    Unexpected { span: Span },
    EndOfText,
    TooDeep { span: Span },
    Memory,
}

impl From<Memory> for Stop {
    ghost use Rattle.c_parse.specs.declared.refusal.Stop.TheVariants as stop;

    ghost from_gives = { λ _ e. e ≡ stop.Memory };

    fn from(_: Memory) -> Stop {
        Stop::Memory
    }
}
