//! Answers given calls of the program on files in memory, one a line of the files of its folder, each file below its name;
//! and at last its own words as those of the program, which name a file that is not there, so that the exit code is 2.
#![tactic(auto)]

mod calls;
mod gates;
mod kernels;
mod processes;
mod rows;
mod states;
mod tries;
mod workers;

use crate::rows::{FILES, Rows};
use anyhow::Result;
use elastic_top::run;
use row_fields::Output;
use std::alloc::AllocGlobal;
use std::io::Write;
use std::process::ExitCode;
use std::rt::Files;
use std::thread::Threads;
use std::{fs, io};

fn main(rt: HostRuntime) -> Result<()> {
    let mut out = Output::new(rt.alloc());
    for (name, rows) in FILES {
        put_file(&rt, name, rows, &mut out)?;
    }
    put_code(&run(&rt, rt.stdout(), rt.stderr()), &mut out);
    io::writer(&rt).write_all(out.finish()?.as_slice())?;
    Ok(())
}

/// Writes the name of a file and the answers to its lines.
fn put_file<R>(rt: &R, name: &str, rows: Rows, out: &mut Output) -> Result<()>
where
    R: Threads + Sync + Files + AllocGlobal,
{
    let text = fs::read_to_string(rt, name)?;
    out.word("== ");
    out.word(name);
    out.word("\n");
    for line in text.as_str().lines().skip(1) {
        rows.put_answer(rt, rt.alloc(), line, out)?;
        out.word("\n");
    }
    Ok(())
}

/// Writes the exit code of the program on this program's own words and the real files.
fn put_code(code: &ExitCode, out: &mut Output) {
    out.word("== the words of this program\n");
    out.debug(code);
    out.word("\n");
}
