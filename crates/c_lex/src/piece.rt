//! The words, numbers and punctuators with which a text begins.
ghost use Rattle.std.specs.Prelude.{◌≡◌, ◌≤◌, ◌<◌, ℕ, List, ◌∷◌, length, IfSome};
ghost use Rattle.std.specs.List.{prefix_len, find};
ghost use Rattle.c_ast.specs.Numerals.{begins};
ghost use Rattle.c_ast.specs.Texts.{mark_text};
ghost use Rattle.el_base.specs.Words.{is_word};
ghost use Rattle.c_ast.specs.Pieces.{is_white, is_blank, is_number_byte, word_of, number_token, after_blanks, key_of, mark_of, marks};

use crate::comment::begins;
use c_ast::{Key, Mark};
use el_base::is_word;

/// The punctuators, the longest first.
const MARKS: [Mark; 43] = [
    Mark::ShlAssign,
    Mark::ShrAssign,
    Mark::Increment,
    Mark::Decrement,
    Mark::AddAssign,
    Mark::SubAssign,
    Mark::MulAssign,
    Mark::DivAssign,
    Mark::RemAssign,
    Mark::AndAssign,
    Mark::OrAssign,
    Mark::XorAssign,
    Mark::Shl,
    Mark::Shr,
    Mark::LessEqual,
    Mark::GreaterEqual,
    Mark::EqualEqual,
    Mark::NotEqual,
    Mark::AndAnd,
    Mark::OrOr,
    Mark::Plus,
    Mark::Minus,
    Mark::Star,
    Mark::Slash,
    Mark::Percent,
    Mark::Ampersand,
    Mark::Bar,
    Mark::Caret,
    Mark::Tilde,
    Mark::Bang,
    Mark::Less,
    Mark::Greater,
    Mark::Assign,
    Mark::Question,
    Mark::Colon,
    Mark::Semicolon,
    Mark::Comma,
    Mark::Open,
    Mark::Close,
    Mark::OpenBracket,
    Mark::CloseBracket,
    Mark::OpenBrace,
    Mark::CloseBrace,
];

/// Whether a byte is white space.
pub fn is_white(byte: u8) -> bool
    ensures { result ≡ is_white byte }
{
    byte == b' ' || byte == b'\t' || byte == b'\n' || byte == b'\r' || byte == 11 || byte == 12
}

fn is_blank(byte: u8) -> bool
    ensures { result ≡ is_blank byte }
{
    byte == b' ' || byte == b'\t'
}

fn is_number_byte(byte: u8) -> bool
    ensures { result ≡ is_number_byte byte }
{
    is_word(byte) || byte == b'.'
}

fn word_len(text: &[u8]) -> usize
    ensures len { result ≡ prefix_len is_word text.now }
    ensures within { result ≤ length text.now }
{
    text.iter().take_while(|b| is_word(**b)).count()
}

fn number_len(text: &[u8]) -> usize
    ensures len { result ≡ prefix_len is_number_byte text.now }
    ensures within { result ≤ length text.now }
{
    text.iter().take_while(|b| is_number_byte(**b)).count()
}

fn blank_len(text: &[u8]) -> usize
    ensures len { result ≡ prefix_len is_blank text.now }
    ensures within { result ≤ length text.now }
{
    text.iter().take_while(|b| is_blank(**b)).count()
}

/// The letters, digits and underscores with which a text begins.
#[tactic(auto, unfolding(c_ast::specs::Pieces::word_of))]
pub fn word_of(text: &[u8]) -> &[u8]
    ensures word { result.now ≡ word_of text.now }
    ensures within { length result.now ≤ length text.now }
{
    &text[..word_len(text)]
}

/// The letters, digits, underscores and points with which a text begins.
#[tactic(auto, unfolding(c_ast::specs::Pieces::number_token))]
pub fn number_token(text: &[u8]) -> &[u8]
    ensures token { result.now ≡ number_token text.now }
    ensures within { length result.now ≤ length text.now }
{
    &text[..number_len(text)]
}

/// What follows the blanks at the front of a text.
#[tactic(auto, unfolding(c_ast::specs::Pieces::after_blanks))]
pub fn after_blanks(text: &[u8]) -> &[u8]
    ensures rest { result.now ≡ after_blanks text.now }
    ensures within { length result.now ≤ length text.now }
{
    &text[blank_len(text)..]
}

/// The reserved word that some bytes spell.
pub fn key_of(word: &[u8]) -> Option<Key>
    ensures { result ≡ key_of word.now }
{
    Key::of_text(word)
}

/// How many bytes a punctuator has.
pub fn mark_len(mark: Mark) -> usize
    ensures len { result ≡ length (mark_text mark) }
    ensures some { 0 < result }
{
    mark.text().len()
}

/// The longest punctuator with which a text begins.
#[tactic(auto, unfolding(c_ast::specs::Pieces::mark_of))]
pub fn mark_of(text: &[u8]) -> Option<Mark>
    ensures mark { result ≡ mark_of text.now }
    ensures within { IfSome result (λ m. length (mark_text m) ≤ length text.now) }
{
    match text.split_first() {
        None => None,
        Some((byte, _)) => first_mark(text, marks_from(*byte)),
    }
}

// The punctuators that a byte begins, the longest first; of a byte that begins none, all.
#[tactic(auto, unfolding(c_ast::specs::Pieces::mark_of))]
fn marks_from(byte: u8) -> &'static [Mark]
    ensures { (rest : List ℕ)
        → find (λ m. begins (mark_text m) (byte ∷ rest)) result.now ≡ mark_of (byte ∷ rest) }
{
    match byte {
        b'+' => &[Mark::Increment, Mark::AddAssign, Mark::Plus],
        b'-' => &[Mark::Decrement, Mark::SubAssign, Mark::Minus],
        b'*' => &[Mark::MulAssign, Mark::Star],
        b'/' => &[Mark::DivAssign, Mark::Slash],
        b'%' => &[Mark::RemAssign, Mark::Percent],
        b'&' => &[Mark::AndAssign, Mark::AndAnd, Mark::Ampersand],
        b'|' => &[Mark::OrAssign, Mark::OrOr, Mark::Bar],
        b'^' => &[Mark::XorAssign, Mark::Caret],
        b'<' => &[Mark::ShlAssign, Mark::Shl, Mark::LessEqual, Mark::Less],
        b'>' => &[
            Mark::ShrAssign,
            Mark::Shr,
            Mark::GreaterEqual,
            Mark::Greater,
        ],
        b'=' => &[Mark::EqualEqual, Mark::Assign],
        b'!' => &[Mark::NotEqual, Mark::Bang],
        b'~' => &[Mark::Tilde],
        b'?' => &[Mark::Question],
        b':' => &[Mark::Colon],
        b';' => &[Mark::Semicolon],
        b',' => &[Mark::Comma],
        b'(' => &[Mark::Open],
        b')' => &[Mark::Close],
        b'[' => &[Mark::OpenBracket],
        b']' => &[Mark::CloseBracket],
        b'{' => &[Mark::OpenBrace],
        b'}' => &[Mark::CloseBrace],
        _ => &MARKS,
    }
}

// The first of these punctuators with which a text begins.
fn first_mark(text: &[u8], all: &[Mark]) -> Option<Mark>
    ensures mark { result ≡ find (λ m. begins (mark_text m) text.now) all.now }
    ensures within { IfSome result (λ m. length (mark_text m) ≤ length text.now) }
{
    for mark in all {
        if begins(mark.text().as_bytes(), text) {
            return Some(*mark);
        }
    }
    None
}
