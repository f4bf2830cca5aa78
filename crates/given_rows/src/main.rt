//! Answers given rows: kernel texts, net texts, operations, acts of queues, inputs and lists of words, one a line of the files
//! of its folder.
//!
//! With no word it answers all files in turn, each below its name. With the path of a file it answers that one.
#![tactic(auto)]

mod inputs;
mod kernels;
mod lists;
mod nets;
mod operations;
mod pairs;
mod queues;
mod refusals;
mod repeats;
mod rows;
mod trees;
mod words;

use crate::rows::{FILES, Rows, rows_of};
use anyhow::{Context, Result};
use row_fields::Output;
use std::io::Write;
use std::path::Path;
use std::{env, fs, io};

fn main(rt: HostRuntime) -> Result<()> {
    let mut out = Output::new(rt.alloc());
    match env::args(&rt)?.nth(1) {
        None => answer_all(&rt, &mut out)?,
        Some(path) => answer_one(&rt, path.as_str(), &mut out)?,
    }
    io::writer(&rt).write_all(out.finish()?.as_slice())?;
    Ok(())
}

/// Writes the answers to all files in turn.
fn answer_all(rt: &HostRuntime, out: &mut Output) -> Result<()> {
    for (name, rows) in FILES {
        answer(rt, name, name, rows, out)?;
    }
    Ok(())
}

/// Writes the answers to the file of a path.
fn answer_one(rt: &HostRuntime, path: &str, out: &mut Output) -> Result<()> {
    let name = Path::new(path).file_name().unwrap_or("");
    let rows = rows_of(name).context("no file of rows has that name")?;
    answer(rt, path, name, rows, out)
}

/// Writes the answers to a file below its name.
fn answer(rt: &HostRuntime, path: &str, name: &str, rows: Rows, out: &mut Output) -> Result<()> {
    let text = fs::read_to_string(rt, path)?;
    out.word("== ");
    out.word(name);
    out.word("\n");
    rows.answer(rt.alloc(), text.as_str(), out)
}
