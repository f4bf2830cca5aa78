//! What the piece does with which a text begins.
ghost use Rattle.std.specs.Prelude.{◌≡◌, ◌≤◌, ◌<◌, ◌+◌, ◌-◌, ◌^◌, length, true, bytes_eq, List, ℕ, Some, IfOk};
ghost use Rattle.el_base.specs.Limits.{max_kernel_bytes};
ghost use Rattle.c_ast.specs.Pieces.{begins_with_letter, begins_with_digit, number_token, mark_of, directive_of};
ghost use Rattle.c_ast.specs.Tokens.{turn, number_turn, mark_turn, directive_turn, directive_by, Defined, fails, span_at};
ghost use Rattle.c_ast.specs.Pieces.{word_of, after_blanks};
ghost use Rattle.c_lex.specs.Cursors.{IsAt};
ghost use Rattle.c_lex.specs.Refusals.{fault_of};
ghost use Rattle.c_lex.specs.Turns.{turn_of, defines_of, shown, DirectiveFits, IsWordTurn, TurnFits};

use crate::cursor::Cursor;
use crate::define::{Defines, Numeral};
use crate::directive::{Directive, directive_of};
use crate::numeral::{is_numeral, number_of};
use crate::piece::{is_white, mark_len, mark_of, number_token, word_of};
use crate::refusal::{Broken, Rule};
use c_ast::Word;
use el_base::{Memory, Name, is_letter};
use std::alloc::Global;

/// Where a piece begins.
#[derive(Clone, Copy)]
pub struct Position {
    pub cursor: Cursor,
    /// Whether it is first on its line.
    pub first: bool,
}

/// What a piece does. Each but the last goes on by so many bytes.
#[derive(Drop)]
pub enum Turn {
    /// It is no token, and what follows is first on its line or not.
    Skips {
        len: usize,
        first: bool,
    },
    /// It is a token.
    Gives {
        len: usize,
        word: Word,
    },
    /// From here on a name stands for a number.
    Defines {
        len: usize,
        name: Name,
        number: Numeral,
    },
    /// It breaks a rule.
    Breaks(Broken),
}

fn breaks(rule: Rule, cursor: Cursor, len: usize) -> Turn
    requires { cursor.offset + len < 2 ^ 32 }
    ensures turn { (bytes : List ℕ) (k : ℕ) (ds : Defined) → IsAt bytes cursor
        → turn_of bytes k ds result ≡ fails (fault_of rule) (span_at bytes cursor.offset len) }
    ensures fits { (all : ℕ) (ds : Defined) → TurnFits all ds result }
{
    Turn::Breaks(Broken {
        rule,
        at: cursor.span(len),
    })
}

// The number with which a text begins.
#[tactic(auto, unfolding(c_ast::specs::Tokens::number_turn))]
fn number_turn(text: &[u8], cursor: Cursor) -> Turn
    requires digit { begins_with_digit text.now ≡ true }
    requires short { cursor.offset + length text.now ≤ max_kernel_bytes }
    ensures turn { (bytes : List ℕ) (ds : Defined) → IsAt bytes cursor
        → turn_of bytes cursor.offset ds result
        ≡ number_turn bytes cursor.offset ds (number_token text.now) }
    ensures fits { (ds : Defined) → TurnFits (length text.now) ds result }
{
    let token = number_token(text);
    if !is_numeral(token) {
        return breaks(Rule::Number, cursor, token.len());
    }
    match number_of(token) {
        Some((value, ty)) => Turn::Gives {
            len: token.len(),
            word: Word::Number { value, ty },
        },
        None => breaks(Rule::Width, cursor, token.len()),
    }
}

// The punctuator with which a text begins.
fn mark_turn(text: &[u8], cursor: Cursor) -> Turn
    requires some { 0 < length text.now }
    requires short { cursor.offset + length text.now ≤ max_kernel_bytes }
    ensures turn { (bytes : List ℕ) (ds : Defined) → IsAt bytes cursor
        → turn_of bytes cursor.offset ds result
        ≡ mark_turn bytes cursor.offset ds (mark_of text.now) }
    ensures fits { (ds : Defined) → TurnFits (length text.now) ds result }
{
    match mark_of(text) {
        Some(mark) => Turn::Gives {
            len: mark_len(mark),
            word: Word::Mark(mark),
        },
        None => breaks(Rule::Byte, cursor, 1),
    }
}

// The word with which a text begins.
fn word_turn(alloc: Global, text: &[u8], defines: &Defines) -> Result<Turn, Memory>
    requires letter { begins_with_letter text.now ≡ true }
    ensures turn { IfOk result (IsWordTurn (defines_of defines.now) (word_of text.now)) }
    ensures fits { IfOk result (TurnFits (length text.now) (defines_of defines.now)) }
{
    let word = word_of(text);
    Ok(Turn::Gives {
        len: word.len(),
        word: defines.meaning_of(alloc, word)?,
    })
}

fn is_same(one: &[u8], other: &[u8]) -> bool
    ensures { result ≡ bytes_eq one.now other.now }
{
    one == other
}

// An accepted directive.
fn accepted_turn(
    alloc: Global,
    bytes: &[u8],
    directive: Directive<'_>,
    cursor: Cursor,
    defines: &Defines,
) -> Result<Turn, Memory>
    requires at { IsAt bytes.now cursor }
    requires short { length bytes.now ≤ max_kernel_bytes }
    requires fits { DirectiveFits (length bytes.now - cursor.offset) directive }
    ensures turn { let ds = defines_of defines.now in
        IfOk result (λ t. turn_of bytes.now cursor.offset ds t
        ≡ directive_by bytes.now cursor.offset ds (shown (Some directive.entry))) }
    ensures fits { IfOk result
        (TurnFits (length bytes.now - cursor.offset) (defines_of defines.now)) }
{
    match directive {
        Directive::Include { len } => Ok(Turn::Skips { len, first: false }),
        Directive::Define {
            name,
            at,
            spelling,
            value,
            ty,
            len,
        } => {
            let Some(name) = Name::new(alloc, name)? else {
                unreachable!()
            };
            match defines.number_for(&name) {
                None => Ok(Turn::Defines {
                    len,
                    name,
                    number: Numeral {
                        spelling: Vec::from_slice(alloc, spelling)?,
                        value,
                        ty,
                    },
                }),
                Some(known) => {
                    if is_same(known.spelling.as_slice(), spelling) {
                        Ok(Turn::Skips { len, first: false })
                    } else {
                        Ok(breaks(
                            Rule::Redefinition,
                            cursor.on(bytes, at),
                            name.as_slice().len(),
                        ))
                    }
                }
            }
        }
    }
}

// The `#` with which a text begins.
#[tactic(auto, unfolding(c_ast::specs::Tokens::directive_turn))]
fn directive_turn(
    alloc: Global,
    bytes: &[u8],
    text: &[u8],
    position: Position,
    defines: &Defines,
) -> Result<Turn, Memory>
    requires at { IsAt bytes.now position.cursor }
    requires some { 0 < length text.now }
    requires rest { position.cursor.offset + length text.now ≡ length bytes.now }
    requires short { length bytes.now ≤ max_kernel_bytes }
    ensures turn { let ds = defines_of defines.now in
        IfOk result (λ t. turn_of bytes.now position.cursor.offset ds t
        ≡ directive_turn bytes.now position.cursor.offset position.first ds text.now) }
    ensures fits { IfOk result (TurnFits (length text.now) (defines_of defines.now)) }
{
    if !position.first {
        return Ok(breaks(Rule::Directive, position.cursor, 1));
    }
    match directive_of(text) {
        Some(directive) => accepted_turn(alloc, bytes, directive, position.cursor, defines),
        None => Ok(breaks(Rule::Directive, position.cursor, 1)),
    }
}

/// What the piece does with which the rest of a text begins, where its comments are blanks.
///
/// # Errors
///
/// [`Memory`] where memory is wanting.
#[tactic(auto, unfolding(c_ast::specs::Tokens::turn))]
pub fn turn_at(
    alloc: Global,
    bytes: &[u8],
    text: &[u8],
    position: Position,
    defines: &Defines,
) -> Result<Turn, Memory>
    requires at { IsAt bytes.now position.cursor }
    requires some { 0 < length text.now }
    requires rest { position.cursor.offset + length text.now ≡ length bytes.now }
    requires short { length bytes.now ≤ max_kernel_bytes }
    ensures turn { let ds = defines_of defines.now in
        IfOk result (λ t. turn_of bytes.now position.cursor.offset ds t
        ≡ turn bytes.now position.cursor.offset position.first ds text.now) }
    ensures fits { IfOk result (TurnFits (length text.now) (defines_of defines.now)) }
{
    let byte = text[0];
    if is_white(byte) {
        let first = position.first || byte == b'\n';
        Ok(Turn::Skips { len: 1, first })
    } else if byte == b'#' {
        directive_turn(alloc, bytes, text, position, defines)
    } else if is_letter(byte) {
        word_turn(alloc, text, defines)
    } else if byte.is_ascii_digit() {
        Ok(number_turn(text, position.cursor))
    } else {
        Ok(mark_turn(text, position.cursor))
    }
}
