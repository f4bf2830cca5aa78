//! Broken rules with their places, and what is refused.
ghost use Rattle.std.specs.Prelude.{◌≡◌, Some, None};
ghost use Rattle.c_types.specs.Places.{earlier, is_before, first_bytes};
ghost use Rattle.c_types.specs.Refusals.{rule_number, rule_word, number_of, word_of, span_of};

use el_base::{Memory, Span};
use thiserror::Error;

/// A rule on names, arrays, returns, loops and calls.
#[derive(Clone, Copy, Debug, PartialEq, Eq, Error)]
pub enum Rule {
    /// A name is used where it is not declared.
    #[error("a name is used where it is not declared")]
    Undeclared,
    /// A name is declared twice in one scope.
    #[error("a name is declared twice in one scope")]
    Redeclared,
    /// A scalar has indices.
    #[error("a scalar has indices")]
    NotArray,
    /// An array has no index, or a helper is not called.
    #[error("an array has no index, or a helper is not called")]
    NotScalar,
    /// An array has another number of indices than dimensions, or more dimensions than an array
    /// may have.
    #[error("an array has another number of indices than dimensions, or too many dimensions")]
    Dimensions,
    /// A dimension is 0, or the arrays so far have more elements together than a kernel may.
    #[error("a dimension is 0, or the arrays have too many elements")]
    Length,
    /// A value is returned where there is no result, or none where there is one.
    #[error("a value is returned where there is no result, or none where there is one")]
    ReturnKind,
    /// `break` or `continue` stands outside of a loop.
    #[error("`break` or `continue` stands outside of a loop")]
    OutsideLoop,
    /// A variable or an array is called.
    #[error("a variable or an array is called")]
    NotHelper,
    /// A call stands where it is not evaluated exactly once for each time that its statement is.
    #[error("a call stands where it may not be evaluated exactly once")]
    CallPlace,
    /// A helper is called with another number of arguments than it has parameters.
    #[error("a call has another number of arguments than the helper has parameters")]
    Arguments,
}

impl Rule {
    /// Its number, from 20 to 27, and of calls 17, 28 and 29. Takes no memory.
    pub fn number(self) -> u32
        ensures { result ≡ rule_number self }
    {
        self.number_and_word().0
    }

    /// Its word, as it is printed. Takes no memory.
    pub fn word(self) -> &'static str
        ensures { result.now ≡ rule_word self }
    {
        self.number_and_word().1
    }

    // Its number and its word: the one place that pairs them.
    fn number_and_word(self) -> (u32, &'static str)
        ensures number { result.0 ≡ rule_number self }
        ensures word { result.1.now ≡ rule_word self }
    {
        match self {
            Rule::Undeclared => (20, "Undeclared"),
            Rule::Redeclared => (21, "Redeclared"),
            Rule::NotArray => (22, "NotArray"),
            Rule::NotScalar => (23, "NotScalar"),
            Rule::Dimensions => (24, "Dimensions"),
            Rule::Length => (25, "Length"),
            Rule::ReturnKind => (26, "ReturnKind"),
            Rule::OutsideLoop => (27, "OutsideLoop"),
            Rule::NotHelper => (17, "NotHelper"),
            Rule::CallPlace => (28, "CallPlace"),
            Rule::Arguments => (29, "Arguments"),
        }
    }
}

/// A broken rule, and the place where it is broken.
#[derive(Clone, Copy, Debug, PartialEq, Eq)]
pub struct Fault {
    pub rule: Rule,
    pub span: Span,
}

/// Why a tree has no typed tree, or a program no typed program.
#[derive(Clone, Copy, Debug, PartialEq, Eq, Error)]
pub enum TypeRefusal {
    /// The rule that is broken first, with its place.
    #[error("{rule}", rule = .0.rule)]
    Broken(Fault),
    /// Memory is wanting.
    #[error("out of memory")]
    Memory,
}

impl TypeRefusal {
    /// The number of the broken rule, as of [`Rule::number`]; `None` for want of memory.
    pub fn number(&self) -> Option<u32>
        ensures { result ≡ number_of self.now }
    {
        match self {
            TypeRefusal::Broken(fault) => Some(fault.rule.number()),
            TypeRefusal::Memory => None,
        }
    }

    /// The word of the broken rule, as `Undeclared`; `Memory` for want of memory.
    pub fn word(&self) -> &'static str
        ensures { result.now ≡ word_of self.now }
    {
        match self {
            TypeRefusal::Broken(fault) => fault.rule.word(),
            TypeRefusal::Memory => "Memory",
        }
    }

    /// The place where the rule is broken; `None` for want of memory.
    pub fn span(&self) -> Option<Span>
        ensures { result ≡ span_of self.now }
    {
        match self {
            TypeRefusal::Broken(fault) => Some(fault.span),
            TypeRefusal::Memory => None,
        }
    }
}

impl From<Memory> for TypeRefusal {
    ghost use Rattle.c_types.specs.declared.fault.TypeRefusal.TheVariants as refusal;
    ghost use Rattle.std.specs.Prelude.{◌≡◌};

    ghost from_gives = { λ _ e. e ≡ refusal.Memory };

    fn from(_: Memory) -> TypeRefusal {
        TypeRefusal::Memory
    }
}

// Whether the first fault goes before the second: it begins earlier, or at one place has the lower
// number.
fn is_before(first: Fault, second: Fault) -> bool
    ensures { result ≡ is_before first second }
{
    first.span.start < second.span.start
        || (first.span.start == second.span.start && first.rule.number() < second.rule.number())
}

// The one of two that goes first; the first of them where neither goes before the other.
pub(crate) fn earlier(first: Option<Fault>, second: Option<Fault>) -> Option<Fault>
    ensures { result ≡ earlier first second }
{
    match (first, second) {
        (None, second) => second,
        (Some(first), None) => Some(first),
        (Some(first), Some(second)) => {
            if is_before(second, first) {
                Some(second)
            } else {
                Some(first)
            }
        }
    }
}

// The place of the first bytes of a place, as those of the name that an element begins with.
pub(crate) fn first_bytes(count: usize, span: Span) -> Span
    ensures { result ≡ first_bytes count span }
{
    let room = span.end.saturating_sub(span.start) as usize;
    let end = if count < room {
        span.start + count as u32
    } else {
        span.end
    };
    Span { end, ..span }
}
