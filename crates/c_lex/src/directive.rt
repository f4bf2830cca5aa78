//! Directives, in a text whose comments are blanks.
ghost use Rattle.std.specs.Prelude.{◌≡◌, ◌≤◌, ◌<◌, ◌&&◌, length, true, Some, None, IfSome};
ghost use Rattle.el_base.specs.Words.{is_identifier};
ghost use Rattle.c_ast.specs.Numerals.{is_numeral};
ghost use Rattle.c_ast.specs.Pieces.{ends_line, is_definable, include_of, define_of, directive_of, begins_with_letter};
ghost use Rattle.c_lex.specs.Turns.{shown, DirectiveFits};

use crate::comment::begins;
use crate::numeral::{is_numeral, number_of};
use crate::piece::{after_blanks, key_of, number_token, word_of};
use el_base::{Ty, is_letter};

/// An accepted directive, with its length up to the line's end.
#[derive(Clone, Copy, Drop)]
pub enum Directive<'a> {
    Include {
        len: usize,
    },
    Define {
        name: &'a [u8],
        at: usize,
        spelling: &'a [u8],
        value: u64,
        ty: Ty,
        len: usize,
    },
}

#[tactic(auto, unfolding(c_ast::specs::Pieces::ends_line))]
fn ends_line(text: &[u8]) -> bool
    ensures { result ≡ ends_line text.now }
{
    text.is_empty() || begins(b"\n", text) || begins(b"\r\n", text)
}

fn begins_with_letter(word: &[u8]) -> bool
    ensures { result ≡ begins_with_letter word.now }
{
    match word.split_first() {
        Some((first, _)) => is_letter(*first),
        None => false,
    }
}

#[tactic(auto, unfolding(c_ast::specs::Pieces::is_definable))]
fn is_definable(word: &[u8]) -> bool
    ensures { result ≡ is_definable word.now }
{
    begins_with_letter(word) && key_of(word).is_none()
}

// What stands after the word `include` and blanks, of a directive of this length.
#[tactic(auto, unfolding(c_ast::specs::Pieces::include_of))]
fn include_of(all: usize, text: &[u8]) -> Option<Directive<'_>>
    requires { length text.now < all }
    ensures shown { shown result ≡ include_of all text.now }
    ensures fits { IfSome result (DirectiveFits all) }
{
    if !begins(b"<stdint.h>", text) {
        return None;
    }
    let tail = after_blanks(&text[10..]);
    if ends_line(tail) {
        Some(Directive::Include {
            len: all - tail.len(),
        })
    } else {
        None
    }
}

// Whether these are a name, a number and a line's end.
fn is_definition(name: &[u8], spelling: &[u8], tail: &[u8]) -> bool
    ensures { result ≡ (is_definable name.now && is_numeral spelling.now && ends_line tail.now) }
{
    is_definable(name) && is_numeral(spelling) && ends_line(tail)
}

// What stands after the word `define` and blanks, of a directive of this length.
#[tactic(auto, unfolding(c_ast::specs::Pieces::define_of, c_ast::specs::Pieces::defines_of))]
fn define_of(all: usize, text: &[u8]) -> Option<Directive<'_>>
    requires { length text.now < all }
    ensures shown { shown result ≡ define_of all text.now }
    ensures fits { IfSome result (DirectiveFits all) }
{
    let name = word_of(text);
    let number = after_blanks(&text[name.len()..]);
    let spelling = number_token(number);
    let tail = after_blanks(&number[spelling.len()..]);
    if !is_definition(name, spelling, tail) {
        return None;
    }
    match number_of(spelling) {
        Some((value, ty)) => Some(Directive::Define {
            name,
            at: all - text.len(),
            spelling,
            value,
            ty,
            len: all - tail.len(),
        }),
        None => None,
    }
}

/// The accepted directive with which a text begins, whose first byte is the `#`.
#[tactic(auto, unfolding(c_ast::specs::Pieces::directive_of))]
pub fn directive_of(text: &[u8]) -> Option<Directive<'_>>
    requires { 0 < length text.now }
    ensures shown { shown result ≡ directive_of text.now }
    ensures fits { IfSome result (DirectiveFits (length text.now)) }
{
    let first = after_blanks(&text[1..]);
    let word = word_of(first);
    let second = after_blanks(&first[word.len()..]);
    if word == b"include".as_slice() {
        include_of(text.len(), second)
    } else if word == b"define".as_slice() {
        define_of(text.len(), second)
    } else {
        None
    }
}
