//! Why the bytes of a kernel have no typed tree.
ghost use Rattle.std.specs.Prelude.{◌≡◌};
ghost use Rattle.kernel_front.specs.Refusals.{refusal_number, refusal_word, refusal_span};

use c_inline::InlineRefusal;
use c_lex::LexRefusal;
use c_parse::ParseRefusal;
use c_types::TypeRefusal;
use el_base::{Memory, Span};
use thiserror::Error;

/// Why the bytes of a kernel have no typed tree: what the first of lexer, parser, type checker and
/// inliner to refuse it says. Want of memory is [`KernelRefusal::Memory`] whichever of them wanted it.
#[derive(Debug, Drop, Error)]
pub enum KernelRefusal {
    /// The text has no tokens.
    #[error(transparent)]
    Lex(LexRefusal),
    /// Its tokens have no program.
    #[error(transparent)]
    Parse(ParseRefusal),
    /// Its program has no typed program.
    #[error(transparent)]
    Types(TypeRefusal),
    /// Its typed program has no tree without calls that is small enough.
    #[error(transparent)]
    Inline(InlineRefusal),
    /// Memory ran out.
    #[error("out of memory")]
    Memory,
}

impl KernelRefusal {
    /// The number by which it is printed: 1 to 6 from the lexer, 10 to 13 from the parser, 17 and 20 to 29
    /// from the type checker, 15 from the inliner; none for want of memory.
    pub fn number(&self) -> Option<u32>
        ensures { result ≡ refusal_number self.now }
    {
        match self {
            KernelRefusal::Lex(refusal) => refusal.number(),
            KernelRefusal::Parse(refusal) => refusal.number(),
            KernelRefusal::Types(refusal) => refusal.number(),
            KernelRefusal::Inline(refusal) => refusal.number(),
            KernelRefusal::Memory => None,
        }
    }

    /// The word by which it is printed.
    pub fn word(&self) -> &'static str
        ensures { result.now ≡ refusal_word self.now }
    {
        match self {
            KernelRefusal::Lex(refusal) => refusal.word(),
            KernelRefusal::Parse(refusal) => refusal.word(),
            KernelRefusal::Types(refusal) => refusal.word(),
            KernelRefusal::Inline(refusal) => refusal.word(),
            KernelRefusal::Memory => "Memory",
        }
    }

    /// Its place in the text; none for want of memory.
    pub fn span(&self) -> Option<Span>
        ensures { result ≡ refusal_span self.now }
    {
        match self {
            KernelRefusal::Lex(refusal) => refusal.span(),
            KernelRefusal::Parse(refusal) => refusal.span(),
            KernelRefusal::Types(refusal) => refusal.span(),
            KernelRefusal::Inline(refusal) => refusal.span(),
            KernelRefusal::Memory => None,
        }
    }
}

impl From<Memory> for KernelRefusal {
    ghost use Rattle.kernel_front.specs.declared.refusal.KernelRefusal.TheVariants as refusal;

    ghost from_gives = { λ _ e. e ≡ refusal.Memory };

    fn from(_: Memory) -> KernelRefusal {
        KernelRefusal::Memory
    }
}

impl From<LexRefusal> for KernelRefusal {
    ghost use Rattle.kernel_front.specs.Refusals.{of_lexer};

    ghost from_gives = { λ r e. e ≡ of_lexer r };

    fn from(refusal: LexRefusal) -> KernelRefusal {
        match refusal {
            LexRefusal::Memory => KernelRefusal::Memory,
            _ => KernelRefusal::Lex(refusal),
        }
    }
}

impl From<ParseRefusal> for KernelRefusal {
    ghost use Rattle.kernel_front.specs.Refusals.{of_parser};

    ghost from_gives = { λ r e. e ≡ of_parser r };

    fn from(refusal: ParseRefusal) -> KernelRefusal {
        match refusal {
            ParseRefusal::Memory => KernelRefusal::Memory,
            _ => KernelRefusal::Parse(refusal),
        }
    }
}

impl From<TypeRefusal> for KernelRefusal {
    ghost use Rattle.kernel_front.specs.Refusals.{of_types};

    ghost from_gives = { λ r e. e ≡ of_types r };

    fn from(refusal: TypeRefusal) -> KernelRefusal {
        match refusal {
            TypeRefusal::Memory => KernelRefusal::Memory,
            _ => KernelRefusal::Types(refusal),
        }
    }
}

impl From<InlineRefusal> for KernelRefusal {
    ghost use Rattle.kernel_front.specs.Refusals.{of_inliner};

    ghost from_gives = { λ r e. e ≡ of_inliner r };

    fn from(refusal: InlineRefusal) -> KernelRefusal {
        match refusal {
            InlineRefusal::Memory => KernelRefusal::Memory,
            _ => KernelRefusal::Inline(refusal),
        }
    }
}
