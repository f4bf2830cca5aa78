//! Words that may not stand in a part of a text.
ghost use Rattle.std.specs.Prelude.{◌≡◌};
ghost use Rattle.c_parse.specs.Symbols.{bars};

use c_ast::{Key, Mark, Word};

/// What a part of a text may not hold.
#[derive(Clone, Copy, Drop)]
pub enum Bar {
    /// The word `return`.
    Returns,
    /// An opening bracket.
    Brackets,
}

impl Bar {
    /// Whether it bars a word.
    pub fn bars(self, word: &Word) -> bool
        ensures { result ≡ bars self word.now }
    {
        match self {
            Bar::Returns => matches!(word, Word::Key(Key::Return)),
            Bar::Brackets => matches!(word, Word::Mark(Mark::OpenBracket)),
        }
    }
}
