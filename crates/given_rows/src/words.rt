//! The words of tokens as text.
use crate::kernels::tokens_of;
use anyhow::Result;
use c_ast::Word;
use row_fields::Output;
use std::alloc::Global;

/// Writes the words of the tokens of a kernel text with a space between two, each number with its type.
pub fn put_words(alloc: Global, text: &[u8], out: &mut Output) -> Result<()> {
    let tokens = tokens_of(alloc, text)?;
    let mut before = "";
    for token in tokens.as_slice() {
        out.word(before);
        put(&token.word, out);
        before = " ";
    }
    Ok(())
}

/// Writes a word.
fn put(word: &Word, out: &mut Output) {
    match word {
        Word::Name(name) => out.bytes(name.as_slice()),
        Word::Number { value, ty } => {
            out.number(*value);
            out.word(":");
            out.word(ty.name());
        }
        Word::Key(key) => out.word(key.text()),
        Word::Mark(mark) => out.word(mark.text()),
    }
}
