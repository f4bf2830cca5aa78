//! Places in a text.
ghost use Rattle.std.specs.Prelude.{◌≡◌, ◌≤◌, ◌<◌, ◌+◌, ◌^◌, List, ℕ, length};
ghost use Rattle.el_base.specs.Limits.{max_kernel_bytes};
ghost use Rattle.c_ast.specs.Tokens.{span_at};
ghost use Rattle.c_lex.specs.Cursors.{IsAt, cursor_after};

use el_base::Span;

/// A place in a text: the bytes before it, and its line and column, from 1.
#[derive(Clone, Copy)]
pub struct Cursor {
    pub offset: u32,
    pub line: u32,
    pub column: u32,
}

impl Cursor {
    /// The place of a text's first byte.
    #[tactic(auto, unfolding(c_ast::specs::Tokens::place_after))]
    pub fn first() -> Cursor
        ensures at { (bytes : List ℕ) → IsAt bytes result }
        ensures offset { result.offset ≡ 0 }
    {
        Cursor {
            offset: 0,
            line: 1,
            column: 1,
        }
    }

    /// The place of the byte that stands so many bytes on.
    pub fn on(self, bytes: &[u8], len: usize) -> Cursor
        requires at { IsAt bytes.now self }
        requires within { self.offset + len ≤ length bytes.now }
        requires short { length bytes.now ≤ max_kernel_bytes }
        ensures at { IsAt bytes.now result }
        ensures offset { result.offset ≡ self.offset + len }
    {
        let mut next = self;
        let start = self.offset as usize;
        for i in start..start + len {
            next = next.after(bytes[i]);
        }
        next
    }

    // The place after a byte that stands here.
    fn after(self, byte: u8) -> Cursor
        requires offset { self.offset < max_kernel_bytes }
        requires line { self.line ≤ max_kernel_bytes + 1 }
        requires column { self.column ≤ max_kernel_bytes + 1 }
        ensures { result ≡ cursor_after byte self }
    {
        if byte == b'\n' {
            Cursor {
                offset: self.offset + 1,
                line: self.line + 1,
                column: 1,
            }
        } else {
            Cursor {
                offset: self.offset + 1,
                line: self.line,
                column: self.column + 1,
            }
        }
    }

    /// The span of so many bytes from here on.
    #[tactic(auto, unfolding(c_ast::specs::Tokens::span_at))]
    pub fn span(self, len: usize) -> Span
        requires { self.offset + len < 2 ^ 32 }
        ensures { (bytes : List ℕ) → IsAt bytes self → result ≡ span_at bytes self.offset len }
    {
        Span {
            start: self.offset,
            end: self.offset + len as u32,
            line: self.line,
            column: self.column,
        }
    }
}
