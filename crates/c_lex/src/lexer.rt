//! The tokens of a kernel text.
ghost use Rattle.std.specs.Prelude.{◌≡◌, ◌≤◌, ◌<◌, length, [], true, List, ℕ, IfOk};
ghost use Rattle.std.specs.List.{All};
ghost use Rattle.c_ast.specs.Constants.{NumberFits};
ghost use Rattle.el_base.specs.Limits.{max_kernel_bytes};
ghost use Rattle.c_ast.specs.Tokens.{Lexed, first_end, span_at};
ghost use Rattle.c_lex.specs.Cursors.{IsAt};
ghost use Rattle.c_lex.specs.Refusals.{Says, IsOnly, IsReadInOneWay, end_of};
ghost use Rattle.c_lex.specs.Turns.{defines_of, LexedSoFar, IsTaken};

use crate::comment::without_comments;
use crate::cursor::Cursor;
use crate::define::Defines;
use crate::refusal::{Broken, LexRefusal};
use crate::turn::{Position, Turn, turn_at};
use c_ast::{Span, Token};
use el_base::{List, Memory};
use std::alloc::Global;

/// The tokens of a kernel text; the value of a number lies in its type. Linear in the text but for looking up names.
///
/// # Errors
///
/// The rule that is broken at the first place from the left, with its span. `Memory` where memory ran out.
pub fn lex(alloc: Global, bytes: &[u8]) -> Result<List<Token>, LexRefusal>
    requires { length bytes.now ≤ max_kernel_bytes }
    ensures says { Says bytes.now result }
    ensures only { IsOnly bytes.now result }
    ensures fits { IfOk result (All NumberFits) }
{
    lex_text(alloc, bytes)
}

/// The place after the last byte of a kernel text: an empty span.
pub fn end_of(bytes: &[u8]) -> Span
    requires { length bytes.now ≤ max_kernel_bytes }
    ensures { result ≡ span_at bytes.now (length bytes.now) 0 }
{
    Cursor::first().on(bytes, bytes.len()).span(0)
}

/// A text gives one list of tokens and ends in one way, whole or at one broken rule.
pub fn texts_have_one_reading()
    ensures { (bytes : List ℕ) → IsReadInOneWay bytes }
{}

// Tokens up to the end of a text, or to a broken rule.
#[derive(Drop)]
struct Reading {
    tokens: List<Token>,
    broken: Option<Broken>,
}

// The tokens of a text, or the first broken rule of its comments and its tokens.
fn lex_text(alloc: Global, bytes: &[u8]) -> Result<List<Token>, LexRefusal>
    requires { length bytes.now ≤ max_kernel_bytes }
    ensures { Says bytes.now result }
{
    let plain = without_comments(alloc, bytes)?;
    let reading = read(alloc, bytes, plain.text.as_slice())?;
    match first_broken(plain.broken, reading.broken) {
        Some(broken) => Err(LexRefusal::of(broken)),
        None => Ok(reading.tokens),
    }
}

// Of two broken rules the one that stands first.
fn first_broken(one: Option<Broken>, other: Option<Broken>) -> Option<Broken>
    ensures { end_of result ≡ first_end (end_of one) (end_of other) }
{
    match (one, other) {
        (Some(one), Some(other)) => {
            if one.at.start < other.at.start {
                Some(one)
            } else {
                Some(other)
            }
        }
        (Some(one), None) => Some(one),
        (None, other) => other,
    }
}

// Where a piece leads: to the piece behind it, or to the rule that it breaks.
#[derive(Clone, Copy)]
enum Next {
    Piece(Position),
    Broken(Broken),
}

// Takes in the piece at a place: its token goes behind the tokens so far, and what it defines
// behind the names that stand for numbers.
fn take(
    alloc: Global,
    bytes: &[u8],
    text: &[u8],
    position: Position,
    tokens: &mut List<Token>,
    defines: &mut Defines,
) -> Result<Next, Memory>
    requires short { length bytes.now ≤ max_kernel_bytes }
    requires same { length text.now ≡ length bytes.now }
    requires inside { position.cursor.offset < length text.now }
    requires at { IsAt bytes.now position.cursor }
    requires so_far { LexedSoFar bytes.now text.now position.cursor.offset position.first
        (defines_of defines.old) tokens.old }
    ensures { IfOk result
        (IsTaken bytes.now text.now position.cursor.offset (defines_of defines.new) tokens.new) }
{
    let cursor = position.cursor;
    let rest = &text[cursor.offset as usize..];
    let turn = turn_at(alloc, bytes, rest, position, defines)?;
    match turn {
        Turn::Skips { len, first } => Ok(Next::Piece(Position {
            cursor: cursor.on(bytes, len),
            first,
        })),
        Turn::Gives { len, word } => {
            let span = cursor.span(len);
            tokens.push(Token { word, span })?;
            Ok(Next::Piece(Position {
                cursor: cursor.on(bytes, len),
                first: false,
            }))
        }
        Turn::Defines { len, name, number } => {
            defines.add(name, number)?;
            Ok(Next::Piece(Position {
                cursor: cursor.on(bytes, len),
                first: false,
            }))
        }
        Turn::Breaks(broken) => Ok(Next::Broken(broken)),
    }
}

// The tokens of a text whose comments are blanks.
fn read(alloc: Global, bytes: &[u8], text: &[u8]) -> Result<Reading, Memory>
    requires short { length bytes.now ≤ max_kernel_bytes }
    requires same { length text.now ≡ length bytes.now }
    ensures { IfOk result (λ r. Lexed bytes.now 0 true [] text.now r.tokens (end_of r.broken)) }
{
    let mut tokens = List::new(alloc);
    let mut defines = Defines::new(alloc);
    let mut position = Position {
        cursor: Cursor::first(),
        first: true,
    };
    'pieces: while (position.cursor.offset as usize) < text.len() {
        let next = take(alloc, bytes, text, position, &mut tokens, &mut defines)?;
        match next {
            Next::Piece(behind) => position = behind,
            Next::Broken(broken) => {
                return Ok(Reading {
                    tokens,
                    broken: Some(broken),
                });
            }
        }
    }
    Ok(Reading {
        tokens,
        broken: None,
    })
}
