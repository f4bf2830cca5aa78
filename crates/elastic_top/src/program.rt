//! The body of the program: the words of the command line, the real files and streams.
ghost use Rattle.std.specs.Prelude.{Contains};
ghost use Rattle.std.specs.Process.{exit_status};
ghost use Rattle.elastic_top.specs.Statuses.{statuses};

use crate::exits::process;
use el_io::{HostFiles, HostSink, Open};
use std::env;
use std::env::Env;
use std::io::Write;
use std::process::ExitCode;
use std::rt::Files;
use std::thread::Threads;

/// Runs the command that the words after the program's name spell, on the real files: its text goes to `out`, and
/// the line of a fault to `err`. The exit code is the one that [`process`] answers.
pub fn run<R, O, E>(rt: &R, out: O, err: E) -> ExitCode
where
    R: Threads + Sync + Env + Files + AllocGlobal,
    O: Write + Drop,
    E: Write + Drop,
    ensures { Contains statuses (exit_status result) }
{
    process(
        rt,
        rt.alloc(),
        env::args(rt),
        &mut HostFiles::new(rt),
        &mut HostSink::new(out),
        &mut HostSink::new(err),
        &Open,
    )
}
