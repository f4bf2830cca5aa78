//! Kernel texts that repeat a piece, so that they nest deep or are long.
use anyhow::{Result, bail};
use el_base::MAX_KERNEL_BYTES;
use row_fields::text_within;
use std::alloc::Global;

/// The text that a line describes by a number and five parts: the opening, the piece so many times, the middle, as many
/// times the return piece, and the closing.
pub fn text_of(alloc: Global, line: &str) -> Result<Vec<u8>> {
    let fields: Vec<&str> = line.split('\t').collect(alloc)?;
    let mut text = Vec::new(alloc);
    add_parts(alloc, fields.as_slice(), &mut text)?;
    Ok(text)
}

/// Adds what the fields of a line stand for.
fn add_parts(alloc: Global, fields: &[&str], text: &mut Vec<u8>) -> Result<()> {
    let [times, opening, piece, middle, back, closing] = fields else {
        bail!("a line is a number and five parts");
    };
    let times: u32 = times.parse()?;
    add_times(alloc, 1, opening, text)?;
    add_times(alloc, times, piece, text)?;
    add_times(alloc, 1, middle, text)?;
    add_times(alloc, times, back, text)?;
    add_times(alloc, 1, closing, text)
}

/// Adds what a field stands for so many times.
fn add_times(alloc: Global, times: u32, field: &str, text: &mut Vec<u8>) -> Result<()> {
    let part = text_within(alloc, field, MAX_KERNEL_BYTES)?;
    for _ in 0..times {
        text.extend_from_slice(part.as_slice())?;
    }
    Ok(())
}
