//! Processes, with what their hosts hand over.
use crate::calls::{parted, sound_sink};
use crate::tries::{held_files, put_escaped};
use anyhow::{Result, bail};
use el_io::{MemFiles, Open};
use elastic_top::process;
use row_fields::Output;
use std::alloc::Global;
use std::env::Args;
use std::io;
use std::thread::Threads;

/// Writes the exit code of a process on sound devices, what was written to the output, and what to the error output.
pub fn put_process<R: Threads + Sync>(
    rt: &R,
    alloc: Global,
    fields: &[&str],
    out: &mut Output,
) -> Result<()> {
    let [error, words, files @ ..] = fields else {
        bail!("a line is an error, the words of a call, and files");
    };
    let mut files = held_files(alloc, files)?;
    put_process_on(rt, alloc, error, words, &mut files, out)
}

/// The same of a process on these files.
fn put_process_on<R: Threads + Sync>(
    rt: &R,
    alloc: Global,
    error: &str,
    words: &str,
    files: &mut MemFiles,
    out: &mut Output,
) -> Result<()> {
    let mut text = sound_sink(alloc)?;
    let mut lines = sound_sink(alloc)?;
    let args = handed_over(alloc, error, words)?;
    let code = process(rt, alloc, args, files, &mut text, &mut lines, &Open);
    out.debug(&code);
    out.word("\t");
    put_escaped(alloc, text.bytes(), out)?;
    out.word("\t");
    put_escaped(alloc, lines.bytes(), out)
}

/// What a host hands over: the words, where there is no error, or the error of a kind.
fn handed_over(alloc: Global, error: &str, words: &str) -> Result<io::Result<Args>> {
    let kind = match error {
        "-" => return Ok(Ok(parted(alloc, words)?.into_iter())),
        "OutOfMemory" => io::ErrorKind::OutOfMemory,
        "InvalidData" => io::ErrorKind::InvalidData,
        "Interrupted" => io::ErrorKind::Interrupted,
        _ => bail!("an error of another kind"),
    };
    Ok(Err(io::Error::from(kind)))
}
