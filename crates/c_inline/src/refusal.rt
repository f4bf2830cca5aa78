//! What a program is refused for when its calls are inlined.
ghost use Rattle.std.specs.Prelude.{◌≡◌};

use c_ast::Span;
use el_base::Memory;
use thiserror::Error;

/// Why a program gives no kernel without calls, with the place.
#[derive(Debug, Drop, Error)]
pub enum InlineRefusal {
    /// The kernel without calls has so many syntax nodes, or 2^64 - 1 where it has more: too many. The place is the
    /// kernel's name.
    #[error("the kernel without calls has {nodes} syntax nodes, more than the limit")]
    Grown { span: Span, nodes: u64 },
    /// Memory ran out.
    #[error("out of memory")]
    Memory,
}

impl InlineRefusal {
    ghost use Rattle.c_inline.specs.Printed.{refusal_number, refusal_word, refusal_span};

    /// The number by which it is printed, 15; none for want of memory.
    pub fn number(&self) -> Option<u32>
        ensures { result ≡ refusal_number self.now }
    {
        match self {
            InlineRefusal::Grown { .. } => Some(15),
            InlineRefusal::Memory => None,
        }
    }

    /// The word by which it is printed.
    pub fn word(&self) -> &'static str
        ensures { result.now ≡ refusal_word self.now }
    {
        match self {
            InlineRefusal::Grown { .. } => "Grown",
            InlineRefusal::Memory => "Memory",
        }
    }

    /// Its place in the text; none for want of memory.
    pub fn span(&self) -> Option<Span>
        ensures { result ≡ refusal_span self.now }
    {
        match self {
            InlineRefusal::Grown { span, .. } => Some(*span),
            InlineRefusal::Memory => None,
        }
    }
}

impl From<Memory> for InlineRefusal {
    ghost use Rattle.c_inline.specs.declared.refusal.InlineRefusal.TheVariants as refusal;

    ghost from_gives = { λ _ e. e ≡ refusal.Memory };

    fn from(_: Memory) -> InlineRefusal {
        InlineRefusal::Memory
    }
}
