//! Tokens.
use crate::key::Key;
use crate::mark::Mark;
use el_base::{Name, Span, Ty};

/// A token of a kernel text, with its place.
#[derive(Drop)]
pub struct Token {
    pub word: Word,
    pub span: Span,
}

/// What a token is.
#[derive(Drop)]
pub enum Word {
    /// A name that is not reserved.
    Name(Name),
    /// An integer constant with its type (ISO/IEC 9899:1999 6.4.4.1).
    Number { value: u64, ty: Ty },
    Key(Key),
    Mark(Mark),
}
