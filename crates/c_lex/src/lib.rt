//! The tokens of a kernel text, and why a text has none.
#![tactic(auto)]

mod comment;
mod cursor;
mod define;
mod directive;
mod lexer;
mod numeral;
mod piece;
mod refusal;
mod turn;

pub use lexer::{end_of, lex, texts_have_one_reading};
pub use refusal::LexRefusal;
