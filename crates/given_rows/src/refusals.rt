//! The number and the word of a refusal.
use anyhow::{Context, Result};
use row_fields::Output;

/// Writes the number and the word that a refusal tells; one without a number is want of memory.
pub fn put_cause(number: Option<u32>, word: &str, out: &mut Output) -> Result<()> {
    out.number(number.context("memory ran out")?);
    out.word(" ");
    out.word(word);
    Ok(())
}
