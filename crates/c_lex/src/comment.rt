//! Comments of a text, which become blanks.
ghost use Rattle.std.specs.Prelude.{true, codes, ◌≡◌, ◌≤◌, ◌<◌, ◌+◌, ◌++◌, ◌^◌, length, replicate, IfOk, OnOk, IfSome, Some};
ghost use Rattle.std.specs.List.{prefix_len};
ghost use Rattle.el_base.specs.Limits.{max_kernel_bytes};
ghost use Rattle.c_ast.specs.Numerals.{begins};
ghost use Rattle.c_ast.specs.Pieces.{first_place, closes, splices, close_of, block_len, comment_len, is_not_line_feed};
ghost use Rattle.c_ast.specs.Tokens.{Blanked, end_or, is_open, splice_in};
ghost use Rattle.c_lex.specs.Cursors.{IsAt};
ghost use Rattle.c_lex.specs.Refusals.{end_of, end_at};

use crate::cursor::Cursor;
use crate::refusal::{Broken, Rule};
use el_base::{List, Memory};
use std::alloc::Global;

/// A text with blanks for its comments, byte for byte, and the first rule that they break.
#[derive(Drop)]
pub struct Uncommented {
    pub text: List<u8>,
    pub broken: Option<Broken>,
}

/// Whether a text begins with these bytes.
pub fn begins(front: &[u8], text: &[u8]) -> bool
    ensures { result ≡ begins front.now text.now }
{
    text.starts_with(front)
}

fn closes(text: &[u8]) -> bool
    ensures { result ≡ closes text.now }
{
    begins(b"*/", text)
}

fn splices(text: &[u8]) -> bool
    ensures { result ≡ splices text.now }
{
    begins(b"\\\n", text) || begins(b"\\\r\n", text)
}

// The place of the first `*/`.
fn first_closing(text: &[u8]) -> Option<usize>
    ensures place { result ≡ first_place closes text.now }
    ensures within { IfSome result (λ n. n + 2 ≤ length text.now) }
{
    for i in 0..text.len() {
        if closes(&text[i..]) {
            return Some(i);
        }
    }
    None
}

// The place of the first backslash directly before a line's end.
fn first_splice(text: &[u8]) -> Option<usize>
    ensures place { result ≡ first_place splices text.now }
    ensures within { IfSome result (λ n. n + 1 < length text.now) }
{
    for i in 0..text.len() {
        if splices(&text[i..]) {
            return Some(i);
        }
    }
    None
}

// The place of the `*/` of the comment with which a text begins.
#[tactic(auto, unfolding(c_ast::specs::Pieces::close_of))]
fn close_of(text: &[u8]) -> Option<usize>
    requires { 2 ≤ length text.now }
    ensures place { result ≡ close_of text.now }
    ensures within { IfSome result (λ n. n + 4 ≤ length text.now) }
{
    first_closing(&text[2..])
}

fn block_len(text: &[u8]) -> usize
    requires { 2 ≤ length text.now }
    ensures len { result ≡ block_len (length text.now) (close_of text.now) }
    ensures within { result ≤ length text.now }
    ensures some { 2 ≤ result }
{
    match close_of(text) {
        Some(n) => n + 4,
        None => text.len(),
    }
}

fn line_len(text: &[u8]) -> usize
    requires { begins (codes "//") text.now ≡ true }
    ensures len { result ≡ prefix_len is_not_line_feed text.now }
    ensures within { result ≤ length text.now }
    ensures some { 2 ≤ result }
{
    text.iter().take_while(|b| **b != b'\n').count()
}

// How long the comment is with which a text begins.
#[tactic(auto, unfolding(c_ast::specs::Pieces::comment_len))]
fn comment_len(text: &[u8]) -> Option<usize>
    ensures len { result ≡ comment_len text.now }
    ensures within { IfSome result (λ n. n ≤ length text.now) }
    ensures some { IfSome result (λ n. 2 ≤ n) }
{
    if begins(b"/*", text) {
        Some(block_len(text))
    } else if begins(b"//", text) {
        Some(line_len(text))
    } else {
        None
    }
}

// The first backslash before a line's end in a comment of this length.
#[tactic(auto, unfolding(c_ast::specs::Tokens::splice_in))]
fn splice_in(text: &[u8], len: usize) -> Option<usize>
    requires { len ≤ length text.now }
    ensures place { result ≡ splice_in text.now len }
    ensures within { IfSome result (λ n. n + 1 ≤ len) }
{
    if len < text.len() {
        first_splice(&text[..len + 1])
    } else {
        first_splice(text)
    }
}

// Whether the comment has no end with which a text begins.
#[tactic(auto, unfolding(c_ast::specs::Tokens::is_open))]
fn is_open(text: &[u8]) -> bool
    ensures { result ≡ is_open text.now }
{
    begins(b"/*", text) && close_of(text).is_none()
}

// The first rule that the comment of this length breaks which stands at the cursor.
fn comment_fault(bytes: &[u8], cursor: Cursor, len: usize) -> Option<Broken>
    requires at { IsAt bytes.now cursor }
    requires within { cursor.offset + len ≤ length bytes.now }
    requires two { 2 ≤ len }
    requires short { length bytes.now ≤ max_kernel_bytes }
    ensures { end_of result ≡ end_at bytes.now cursor.offset len }
{
    let text = &bytes[cursor.offset as usize..];
    if is_open(text) {
        let opening = cursor.span(2);
        return Some(Broken {
            rule: Rule::Comment,
            at: opening,
        });
    }
    match splice_in(text, len) {
        Some(n) => {
            let place = cursor.on(bytes, n);
            let backslash = place.span(1);
            Some(Broken {
                rule: Rule::Byte,
                at: backslash,
            })
        }
        None => None,
    }
}

// The first rule that is broken, or else that of the comment which stands at the cursor.
fn or_comment_fault(
    broken: Option<Broken>,
    bytes: &[u8],
    cursor: Cursor,
    len: usize,
) -> Option<Broken>
    requires at { IsAt bytes.now cursor }
    requires within { cursor.offset + len ≤ length bytes.now }
    requires two { 2 ≤ len }
    requires short { length bytes.now ≤ max_kernel_bytes }
    ensures { end_of result ≡ end_or (end_of broken) (end_at bytes.now cursor.offset len) }
{
    match broken {
        Some(broken) => Some(broken),
        None => comment_fault(bytes, cursor, len),
    }
}

fn push_blanks(text: &mut List<u8>, len: usize) -> Result<(), Memory>
    ensures { OnOk result (text.new ≡ text.old ++ replicate len 32) }
{
    for _blank in 0..len {
        text.push(b' ')?;
    }
    Ok(())
}

/// A text with blanks for its comments.
///
/// # Errors
///
/// [`Memory`] where memory is wanting.
pub fn without_comments(alloc: Global, bytes: &[u8]) -> Result<Uncommented, Memory>
    requires { length bytes.now ≤ max_kernel_bytes }
    ensures blanked { IfOk result (λ b. Blanked bytes.now 0 bytes.now b.text (end_of b.broken)) }
    ensures same { IfOk result (λ b. length b.text ≡ length bytes.now) }
{
    let mut text = List::new(alloc);
    let mut broken = None;
    let mut cursor = Cursor::first();
    'pieces: while (cursor.offset as usize) < bytes.len() {
        let at = cursor.offset as usize;
        match comment_len(&bytes[at..]) {
            Some(len) => {
                broken = or_comment_fault(broken, bytes, cursor, len);
                push_blanks(&mut text, len)?;
                cursor = cursor.on(bytes, len);
            }
            None => {
                text.push(bytes[at])?;
                cursor = cursor.on(bytes, 1);
            }
        }
    }
    Ok(Uncommented { text, broken })
}
