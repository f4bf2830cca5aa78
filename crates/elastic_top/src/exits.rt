//! The process, whatever host it has: from the words that the host hands over to the exit code.
ghost use Rattle.std.specs.Prelude.{◌≡◌, IfOk, IfErr, drop};
ghost use Rattle.std.specs.Process.{exit_status};
ghost use Rattle.std.specs.Vec.Iter.{into_iter_items};
ghost use Rattle.command_words.specs.Commands.{texts};
ghost use Rattle.elastic_top.specs.Ends.{CallEnds, WordlessEnds};
ghost use Rattle.elastic_top.specs.Faults.{IsTold, fault_code, fault_line};
ghost use Rattle.elastic_top.specs.Words.{IsErrorFault};

use crate::call::top;
use crate::fault::Fault;
use crate::status::Status;
use crate::telling::tell;
use el_io::{Files, Gate, Sink};
use std::alloc::{AllocError, Global};
use std::env::Args;
use std::io;
use std::process::ExitCode;
use std::thread::Threads;

/// Runs the command that the words after the first, the program's name, spell, as [`top`] does, over any files, outputs and
/// gate, and answers the exit code of the process, which is the code of `top`'s status.
///
/// What holds of `top`'s status and devices holds of the exit code and the devices. Memory that the words take is wanted as that
/// of `top` is: 11. Where the host hands over no words, the exit code is 11 if it wants memory, and else 1, since one of the words
/// is not UTF-8; the line is told, and files and output are as they were.
pub fn process<R: Threads + Sync, F: Files, O: Sink, E: Sink, G: Gate + Sync>(
    rt: &R,
    alloc: Global,
    args: io::Result<Args>,
    files: &mut F,
    out: &mut O,
    err: &mut E,
    gate: &G,
) -> ExitCode
    ensures words { IfOk args (λ all. CallEnds (texts (drop 1 (into_iter_items all)))
        (exit_status result)
        (record {
          holds = F.holds;
          faults = F.faults;
          longs = F.longs;
          long = F.long;
          steady = F.steady;
        }) files.old files.new
        (record { written = O.written; faults = O.faults }) out.old out.new
        (record { written = E.written; faults = E.faults }) err.old err.new) }
    ensures no_words { IfErr args (λ error. WordlessEnds error (exit_status result)
        (IsTold (E.written err.old) (E.written err.new) (E.faults err.old) (E.faults err.new))) }
    ensures unread_files { IfErr args (λ _. files.new ≡ files.old) }
    ensures out_same { IfErr args (λ _. out.new ≡ out.old) }
{
    match args {
        Ok(all) => match after_the_first(alloc, all) {
            Ok(words) => exit_code(top(rt, alloc, &words, files, out, err, gate)),
            Err(AllocError) => refuse(err, &Fault::Memory),
        },
        Err(error) => refuse(err, &words_fault(&error)),
    }
}

/// The words after the first.
fn after_the_first(alloc: Global, all: Args) -> Result<Vec<String>, AllocError>
    ensures { IfOk result (λ words. words.items ≡ drop 1 (into_iter_items all)) }
{
    let mut rest = all;
    let _name = rest.next();
    let mut words = Vec::new(alloc);
    for word in rest {
        words.push(word)?;
    }
    Ok(words)
}

/// Why there are no words: want of memory, or words that are not UTF-8, which are no command.
fn words_fault(error: &io::Error) -> Fault<'static>
    ensures { IsErrorFault error.now result }
{
    match error.kind() {
        io::ErrorKind::OutOfMemory => Fault::Memory,
        _ => Fault::Usage,
    }
}

/// Tells a fault, and answers the exit code of its status.
fn refuse<E: Sink>(err: &mut E, fault: &Fault<'_>) -> ExitCode
    ensures told { IsTold (E.written err.old) (E.written err.new) (E.faults err.old) (E.faults err.new)
        (fault_line fault.now) }
    ensures code { exit_status result ≡ fault_code fault.now }
{
    tell(err, fault);
    exit_code(Status { code: fault.code() })
}

/// The exit code of a status.
fn exit_code(status: Status) -> ExitCode
    ensures { exit_status result ≡ status.code }
{
    ExitCode::from(status.code)
}
