//! Why a text has no tokens.
ghost use Rattle.std.specs.Prelude.{◌≡◌};
ghost use Rattle.c_lex.specs.Refusals.{refusal_number, refusal_word, refusal_span, refusal_by};

use el_base::{Memory, Span};
use thiserror::Error;

/// A rule that a text can break.
#[derive(Clone, Copy, PartialEq, Eq)]
pub enum Rule {
    Byte,
    Comment,
    Number,
    Width,
    Directive,
    Redefinition,
}

/// A broken rule with its place.
#[derive(Clone, Copy, PartialEq, Eq)]
pub struct Broken {
    pub rule: Rule,
    pub at: Span,
}

/// Why a text has no tokens, with the first place from the left at which a rule is broken.
#[derive(Clone, Copy, Debug, PartialEq, Eq, Error)]
pub enum LexRefusal {
    /// A byte that may stand outside comments at no token; also a backslash directly before a line's end in a comment.
    #[error("a byte that no token may have here")]
    BadByte(Span),
    /// `/*` that no `*/` follows.
    #[error("a comment that is not closed")]
    OpenComment(Span),
    /// A number that is no integer constant.
    #[error("a number that is no integer constant")]
    BadNumber(Span),
    /// An integer constant that none of its types holds.
    #[error("an integer constant that no type holds")]
    WideNumber(Span),
    /// A `#` that begins no accepted directive.
    #[error("a directive that is not accepted")]
    Directive(Span),
    /// A name that is defined again with another spelling of its number.
    #[error("a name is defined again with another spelling of its number")]
    Redefined(Span),
    /// Memory ran out.
    #[error("out of memory")]
    Memory,
}

impl LexRefusal {
    /// The refusal of a broken rule.
    pub fn of(broken: Broken) -> LexRefusal
        ensures { result ≡ refusal_by broken }
    {
        match broken.rule {
            Rule::Byte => LexRefusal::BadByte(broken.at),
            Rule::Comment => LexRefusal::OpenComment(broken.at),
            Rule::Number => LexRefusal::BadNumber(broken.at),
            Rule::Width => LexRefusal::WideNumber(broken.at),
            Rule::Directive => LexRefusal::Directive(broken.at),
            Rule::Redefinition => LexRefusal::Redefined(broken.at),
        }
    }

    /// The number by which the refusal is printed; none for want of memory.
    pub fn number(&self) -> Option<u32>
        ensures { result ≡ refusal_number self.now }
    {
        match self {
            LexRefusal::BadByte(_) => Some(1),
            LexRefusal::OpenComment(_) => Some(2),
            LexRefusal::BadNumber(_) => Some(3),
            LexRefusal::WideNumber(_) => Some(4),
            LexRefusal::Directive(_) => Some(5),
            LexRefusal::Redefined(_) => Some(6),
            LexRefusal::Memory => None,
        }
    }

    /// The word by which the refusal is printed.
    pub fn word(&self) -> &'static str
        ensures { result.now ≡ refusal_word self.now }
    {
        match self {
            LexRefusal::BadByte(_) => "BadByte",
            LexRefusal::OpenComment(_) => "OpenComment",
            LexRefusal::BadNumber(_) => "BadNumber",
            LexRefusal::WideNumber(_) => "WideNumber",
            LexRefusal::Directive(_) => "Directive",
            LexRefusal::Redefined(_) => "Redefined",
            LexRefusal::Memory => "Memory",
        }
    }

    /// The place at which the rule is broken; none for want of memory.
    pub fn span(&self) -> Option<Span>
        ensures { result ≡ refusal_span self.now }
    {
        match self {
            LexRefusal::BadByte(span)
            | LexRefusal::OpenComment(span)
            | LexRefusal::BadNumber(span)
            | LexRefusal::WideNumber(span)
            | LexRefusal::Directive(span)
            | LexRefusal::Redefined(span) => Some(*span),
            LexRefusal::Memory => None,
        }
    }
}

impl From<Memory> for LexRefusal {
    ghost use Rattle.c_lex.specs.declared.refusal.LexRefusal.TheVariants as refusal;

    ghost from_gives = { λ _ e. e ≡ refusal.Memory };

    fn from(_: Memory) -> LexRefusal {
        LexRefusal::Memory
    }
}
