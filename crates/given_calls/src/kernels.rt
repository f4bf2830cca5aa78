//! Calls on kernels, whose circuits are free as long as they are right.
use crate::calls::{Answered, SOUND, add_file, answer};
use anyhow::{Context, Result, bail};
use el_base::{MAX_INPUTS_BYTES, MAX_KERNEL_BYTES};
use el_io::{MemFiles, Open};
use row_fields::{Output, text_within};
use std::alloc::Global;
use std::thread::Threads;

/// Runs a kernel by `go` and writes whether all is as it has to be: the results are those by C, the text is the same with
/// `--wrap`, and the circuit is read and printed as it was.
pub fn put_agreement<R: Threads + Sync>(
    rt: &R,
    alloc: Global,
    fields: &[&str],
    out: &mut Output,
) -> Result<()> {
    let [kernel, inputs, results] = fields else {
        bail!("a line is a kernel, inputs and results");
    };
    let kernel = text_within(alloc, kernel, MAX_KERNEL_BYTES)?;
    let inputs = text_within(alloc, inputs, MAX_INPUTS_BYTES)?;
    let files = [("k", kernel.as_slice()), ("i", inputs.as_slice())];
    put_results(rt, alloc, &files, results, out)
}

/// The same of the files of a kernel and of inputs.
fn put_results<R: Threads + Sync>(
    rt: &R,
    alloc: Global,
    files: &[(&str, &[u8])],
    results: &str,
    out: &mut Output,
) -> Result<()> {
    let plain = sound(rt, alloc, "go k i --limit 2000000", files)?;
    let results = text_within(alloc, results, MAX_INPUTS_BYTES)?;
    let circuit = without_results(plain.out.bytes(), results.as_slice());
    put_word(plain.code == 0 && !circuit.is_empty(), "results", out);
    put_wrap(rt, alloc, files, &plain, out)?;
    put_circuit(rt, alloc, circuit, out)
}

/// Writes whether a run with `--wrap` answers as one without it did.
fn put_wrap<R: Threads + Sync>(
    rt: &R,
    alloc: Global,
    files: &[(&str, &[u8])],
    plain: &Answered,
    out: &mut Output,
) -> Result<()> {
    let wrap = sound(rt, alloc, "go k i --limit 2000000 --wrap", files)?;
    let is_alike = wrap.code == plain.code && wrap.out.bytes() == plain.out.bytes();
    put_word(is_alike, " wrap", out);
    Ok(())
}

/// Writes whether a circuit is read and printed as it was.
fn put_circuit<R: Threads + Sync>(
    rt: &R,
    alloc: Global,
    circuit: &[u8],
    out: &mut Output,
) -> Result<()> {
    let again = sound(rt, alloc, "upgrade n", &[("n", circuit)])?;
    let is_back = again.code == 0 && again.out.bytes() == circuit;
    put_word(is_back, " circuit", out);
    Ok(())
}

/// Writes a word, or that it is otherwise.
fn put_word(holds: bool, word: &str, out: &mut Output) {
    out.word(word);
    if !holds {
        out.word(" differs");
    }
}

/// Writes how many lines of what a call on a kernel writes begin with these words.
pub fn put_count<R: Threads + Sync>(
    rt: &R,
    alloc: Global,
    fields: &[&str],
    out: &mut Output,
) -> Result<()> {
    let [words, front, kernel] = fields else {
        bail!("a line is the words of a call, a beginning and a kernel");
    };
    let compiled = answer_on_kernel(rt, alloc, words, kernel)?;
    put_lines(compiled.code, compiled.out.bytes(), front, out)
}

/// The answer of a call on sound devices with the kernel of a field.
fn answer_on_kernel<R: Threads + Sync>(
    rt: &R,
    alloc: Global,
    words: &str,
    kernel: &str,
) -> Result<Answered> {
    let kernel = text_within(alloc, kernel, MAX_KERNEL_BYTES)?;
    sound(rt, alloc, words, &[("k", kernel.as_slice())])
}

/// Writes a status, and how many lines of a text begin with these words.
fn put_lines(code: u8, text: &[u8], front: &str, out: &mut Output) -> Result<()> {
    let text = std::str::from_utf8(text)
        .ok()
        .context("a text of other bytes")?;
    out.number(code);
    out.word(": ");
    out.number(lines_of(text, front));
    out.word(" lines of '");
    out.word(front);
    out.word("'");
    Ok(())
}

/// How many lines of a text begin with these words.
fn lines_of(text: &str, front: &str) -> u64 {
    let mut count: u64 = 0;
    for line in text.lines() {
        if line.starts_with(front) {
            count = count.saturating_add(1);
        }
    }
    count
}

/// The answer of a call on sound devices with these files.
fn sound<R: Threads + Sync>(
    rt: &R,
    alloc: Global,
    words: &str,
    files: &[(&str, &[u8])],
) -> Result<Answered> {
    let mut held = MemFiles::new(alloc);
    for (name, content) in files {
        add_file(&mut held, name, content)?;
    }
    answer(rt, alloc, words, &mut held, &SOUND, &Open)
}

/// The text of a circuit: what stands before the line `%%` and these results. It is empty where a text does not end so.
fn without_results<'a>(text: &'a [u8], results: &[u8]) -> &'a [u8] {
    match text.strip_suffix(results) {
        None => b"",
        Some(rest) => rest.strip_suffix(b"%%\n").unwrap_or(b""),
    }
}
