//! Calls whose status and outputs are told.
use crate::calls::{Answered, Failing, SOUND, add_file, answer};
use anyhow::{Context, Result, bail};
use el_base::MAX_NETLIST_BYTES;
use el_io::{Gate, MemFiles, Open};
use row_fields::{Output, escaped, text_within};
use std::alloc::Global;
use std::thread::Threads;

/// The line between a circuit and the results, and between results and a schedule.
const BETWEEN: &str = "%%\n";

/// What is told of an output.
#[derive(Clone, Copy, Debug, PartialEq, Eq)]
pub enum Told {
    Whole,
    /// What stands after the line `%%`, the first one.
    AfterCircuit,
}

/// Writes what a call on sound devices answers: the status, what was written to the output, and what to the error output.
pub fn put_try<R: Threads + Sync>(
    rt: &R,
    alloc: Global,
    fields: &[&str],
    told: Told,
    out: &mut Output,
) -> Result<()> {
    let [words, files @ ..] = fields else {
        bail!("a line is the words of a call, and files");
    };
    let answered = answer_on(rt, alloc, words, files, &SOUND, &Open)?;
    put_answered(alloc, &answered, told, out)
}

/// The answer of a call on the files of fields.
pub fn answer_on<R: Threads + Sync, G: Gate + Sync>(
    rt: &R,
    alloc: Global,
    words: &str,
    files: &[&str],
    failing: &Failing,
    gate: &G,
) -> Result<Answered> {
    let mut held = held_files(alloc, files)?;
    answer(rt, alloc, words, &mut held, failing, gate)
}

/// Writes what a call on sound devices answers on the files of fields and one more.
pub fn put_call_with<R: Threads + Sync>(
    rt: &R,
    alloc: Global,
    words: &str,
    files: &[&str],
    (name, content): (&str, &[u8]),
    out: &mut Output,
) -> Result<()> {
    let mut held = held_files(alloc, files)?;
    add_file(&mut held, name, content)?;
    let answered = answer(rt, alloc, words, &mut held, &SOUND, &Open)?;
    put_answered(alloc, &answered, Told::Whole, out)
}

/// The same of a call on devices that fail: at a read, at a write or at a told line, where the output takes pieces of bytes.
pub fn put_failing<R: Threads + Sync>(
    rt: &R,
    alloc: Global,
    fields: &[&str],
    out: &mut Output,
) -> Result<()> {
    let [read, piece, put, told, words, files @ ..] = fields else {
        bail!("a line is the calls that fail, the words of a call, and files");
    };
    let failing = failing_of(&[*read, *piece, *put, *told]).context("a piece is a number")?;
    let answered = answer_on(rt, alloc, words, files, &failing, &Open)?;
    put_answered(alloc, &answered, Told::Whole, out)
}

/// The devices that four fields tell, of which all but the piece may be no number.
fn failing_of(failing: &[&str; 4]) -> Option<Failing> {
    let [read, piece, put, told] = failing;
    Some(Failing {
        read: read.parse().ok(),
        piece: piece.parse().ok()?,
        put: put.parse().ok(),
        told: told.parse().ok(),
    })
}

/// The same of a call on sound devices, one of whose files is long.
pub fn put_long<R: Threads + Sync>(
    rt: &R,
    alloc: Global,
    fields: &[&str],
    out: &mut Output,
) -> Result<()> {
    let [words, long, files @ ..] = fields else {
        bail!("a line is the words of a call, a long file, and files");
    };
    let (name, content) = long.split_once(':').context("a file is NAME:CONTENT")?;
    let content = long_text(alloc, content)?;
    put_call_with(rt, alloc, words, files, (name, content.as_slice()), out)
}

/// A text, so many letters x, and another text, with stars between them.
fn long_text(alloc: Global, field: &str) -> Result<Vec<u8>> {
    let (front, count, back) = long_parts(field).context("FRONT*COUNT*BACK")?;
    let mut text = text_within(alloc, front, MAX_NETLIST_BYTES)?;
    let back = text_within(alloc, back, MAX_NETLIST_BYTES)?;
    text.resize(text.len().saturating_add(count as usize), b'x')?;
    text.extend_from_slice(back.as_slice())?;
    Ok(text)
}

/// What stands before, between and after the stars of a field, which is a number between them.
fn long_parts(field: &str) -> Option<(&str, u32, &str)> {
    let (front, rest) = field.split_once('*')?;
    let (count, back) = rest.split_once('*')?;
    Some((front, count.parse().ok()?, back))
}

/// The files of fields `NAME:CONTENT`.
pub fn held_files(alloc: Global, files: &[&str]) -> Result<MemFiles> {
    let mut held = MemFiles::new(alloc);
    for file in files {
        hold(alloc, file, &mut held)?;
    }
    Ok(held)
}

/// Adds the file of a field `NAME:CONTENT`.
fn hold(alloc: Global, file: &str, held: &mut MemFiles) -> Result<()> {
    let (name, content) = file.split_once(':').context("a file is NAME:CONTENT")?;
    let content = text_within(alloc, content, MAX_NETLIST_BYTES)?;
    add_file(held, name, content.as_slice())
}

/// Writes a status, what is told of the output, and the error output.
pub fn put_answered(
    alloc: Global,
    answered: &Answered,
    told: Told,
    out: &mut Output,
) -> Result<()> {
    let text = told_of(told, answered.out.bytes())?;
    put_parts(alloc, answered.code, text, answered.err.bytes(), out)
}

/// Writes a status, a text and the error output, with tabs between them.
pub fn put_parts(
    alloc: Global,
    code: u8,
    text: &[u8],
    lines: &[u8],
    out: &mut Output,
) -> Result<()> {
    out.number(code);
    out.word("\t");
    put_escaped(alloc, text, out)?;
    out.word("\t");
    put_escaped(alloc, lines, out)
}

/// Writes bytes as a text with escapes.
pub fn put_escaped(alloc: Global, bytes: &[u8], out: &mut Output) -> Result<()> {
    let text = escaped(alloc, bytes)?;
    out.bytes(text.as_slice());
    Ok(())
}

/// The part of an output that is told.
fn told_of(told: Told, text: &[u8]) -> Result<&[u8]> {
    if told == Told::Whole {
        return Ok(text);
    }
    match parted(text)? {
        None => Ok(text),
        Some((_, after)) => Ok(after),
    }
}

/// What stands before and after the line `%%`, the first one; none where there is no such line.
pub fn parted(text: &[u8]) -> Result<Option<(&[u8], &[u8])>> {
    let text = std::str::from_utf8(text).ok().context("other bytes")?;
    match text.split_once(BETWEEN) {
        None => Ok(None),
        Some((before, after)) => Ok(Some((before.as_bytes(), after.as_bytes()))),
    }
}
