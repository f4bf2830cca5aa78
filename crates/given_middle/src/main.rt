//! Answers given rows on kernels and on block graphs, one a line of the files of its folder, each file below its name: normal
//! forms as text, walks along block graphs, ends by the plain interpreter, runs of circuits, and what passes make of graphs.
#![tactic(auto)]

mod circuits;
mod ends;
mod exprs;
mod forms;
mod graphs;
mod kernels;
mod merged;
mod rows;
mod stmts;
mod walks;

use crate::rows::{FILES, Rows};
use anyhow::Result;
use row_fields::Output;
use std::io::Write;
use std::thread::Threads;
use std::{fs, io};

fn main(rt: HostRuntime) -> Result<()> {
    let mut out = Output::new(rt.alloc());
    for (name, rows) in FILES {
        put_file(&rt, &rt, name, rows, &mut out)?;
    }
    io::writer(&rt).write_all(out.finish()?.as_slice())?;
    Ok(())
}

/// Writes the answers to a file below its name.
fn put_file<R: Threads + Sync>(
    threads: &R,
    rt: &HostRuntime,
    name: &str,
    rows: Rows,
    out: &mut Output,
) -> Result<()> {
    let text = fs::read_to_string(rt, name)?;
    out.word("== ");
    out.word(name);
    out.word("\n");
    rows.put_answers(threads, rt.alloc(), text.as_str(), out)
}
