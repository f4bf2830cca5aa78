//! The outside, once for every command.
ghost use Rattle.std.specs.Prelude.{◌≡◌, ◌≢◌, ◌<◌, ℕ, List, length, map, Contains, ◌∷◌, [], OnOk, IfErr};
ghost use Rattle.std.specs.Io.KnownBytes.{append_known};
ghost use Rattle.el_io.specs.Outside.{Rose, IsCut};
ghost use Rattle.command_words.specs.Tables.{plain_of};
ghost use Rattle.command_words.specs.Commands as commands;
ghost use Rattle.command_words.specs.Commands.{IsSeed, texts, asked, word_texts, Asked};
ghost use Rattle.elastic_top.specs.Files.{files_of as wanted_of};
ghost use Rattle.elastic_top.specs.Options.{IsWithin};
ghost use Rattle.elastic_top.specs.Reading.{code_of, file_of};
ghost use Rattle.elastic_top.specs.Faults.{IsTold, usage_line, write_line, memory_line};
ghost use Rattle.elastic_top.specs.Statuses.{statuses, statuses_of};
ghost use Rattle.elastic_top.specs.Causes.{Writes, IsCauseOf, Unread, TooLong, RefusesWith, IsOwn, AreSound};

use crate::answer::answer;
use crate::fault::{Fault, call_fault};
use crate::reading::{File, files_of, read_all};
use crate::status::Status;
use crate::telling::tell;
use command_words::{Command, read_words, words_spell_one_command};
use el_base::Memory;
use el_io::{Files, Gate, Sink, WriteFault, write_all};
use std::alloc::Global;
use std::thread::Threads;

/// Runs the command that the words spell: reads its files, writes its text to `out`, and answers a status.
///
/// At status 0 `out` has grown by the command's text for the contents of its files; at status 3 by a proper prefix of
/// such a text; at every other status it is unchanged. At every status but 0 the status's line is written to `err`,
/// whose faults change no status. Threads are started, and the gate is asked, where workers are asked for, and then alone: one
/// thread a worker, which ends before the status is answered. However many workers there are, and whatever the gate answers, the
/// results are the same. Want of memory (11) is the one free answer; it comes before the first byte of `out`.
pub fn top<R: Threads + Sync, F: Files, O: Sink, E: Sink, G: Gate + Sync>(
    rt: &R,
    alloc: Global,
    words: &[String],
    files: &mut F,
    out: &mut O,
    err: &mut E,
    gate: &G,
) -> Status
    // What the words spell, and which statuses it has.
    ensures usage { result.code ≡ 1 → (c : Asked) → commands.Command (texts words.now) c → ⊥ }
    ensures no_command { ((c : Asked) → commands.Command (texts words.now) c → ⊥)
        → Contains (1 ∷ 11 ∷ []) result.code }
    ensures statuses { (c : Asked) → commands.Command (texts words.now) c
        → Contains (statuses_of c.verb) result.code }
    ensures codes { Contains statuses result.code }

    // The files: 2 and 12.
    ensures unread_files { result.code ≡ 1 → files.new ≡ files.old }
    ensures read { result.code ≡ 2 → Rose (F.faults files.old) (F.faults files.new) }
    ensures unread { result.code ≡ 2 → (c : Asked) → commands.Command (texts words.now) c
        → Unread (F.holds files.old) (F.steady files.old) c
        (IsTold (E.written err.old) (E.written err.new) (E.faults err.old) (E.faults err.new)) }
    ensures long { result.code ≡ 12 → Rose (F.longs files.old) (F.longs files.new) }
    ensures long_file { result.code ≡ 12 → (c : Asked) → commands.Command (texts words.now) c
        → TooLong (F.holds files.old) (F.long files.new) c
        (IsTold (E.written err.old) (E.written err.new) (E.faults err.old) (E.faults err.new)) }
    ensures long_always { F.longs files.old < F.longs files.new → result.code ≡ 12 }

    // The output: 0 and 3.
    ensures done { result.code ≡ 0 → (c : Asked) → commands.Command (texts words.now) c
        → Writes (F.holds files.old) c
        (λ text. O.written out.new ≡ append_known (O.written out.old) text) }
    ensures write { result.code ≡ 3 → Rose (O.faults out.old) (O.faults out.new) }
    ensures cut { result.code ≡ 3 → (c : Asked) → commands.Command (texts words.now) c
        → Writes (F.holds files.old) c (IsCut (O.written out.old) (O.written out.new)) }
    ensures out_same { result.code ≢ 0 → result.code ≢ 3 → O.written out.new ≡ O.written out.old }

    // All other statuses, with their lines; and that none comes without its cause.
    ensures refused { IsOwn result.code → (c : Asked) → commands.Command (texts words.now) c
        → RefusesWith (F.holds files.old) c result.code
        (IsTold (E.written err.old) (E.written err.new) (E.faults err.old) (E.faults err.new)) }
    ensures complete { (c : Asked) → commands.Command (texts words.now) c
        → AreSound (F.holds files.old) (F.steady files.old) c
        → (Rose (O.faults out.old) (O.faults out.new) → ⊥) → Contains (0 ∷ 11 ∷ []) result.code }

    // The error output.
    ensures err_same { result.code ≡ 0 → E.written err.new ≡ E.written err.old }
    ensures err_usage { result.code ≡ 1
        → IsTold (E.written err.old) (E.written err.new) (E.faults err.old) (E.faults err.new)
        usage_line }
    ensures err_write { result.code ≡ 3
        → IsTold (E.written err.old) (E.written err.new) (E.faults err.old) (E.faults err.new)
        write_line }
    ensures err_memory { result.code ≡ 11
        → IsTold (E.written err.old) (E.written err.new) (E.faults err.old) (E.faults err.new)
        memory_line }
{
    words_spell_one_command();
    let command = match read_words(alloc, words) {
        Ok(Some(command)) => command,
        Ok(None) => {
            tell(err, &Fault::Usage);
            return Status { code: 1 };
        }
        Err(Memory) => {
            tell(err, &Fault::Memory);
            return Status { code: 11 };
        }
    };
    match run_command(rt, alloc, &command, files, out, gate) {
        Ok(()) => Status { code: 0 },
        Err(fault) => {
            tell(err, &fault);
            Status { code: fault.code() }
        }
    }
}

// Runs a command.
fn run_command<'a, R: Threads + Sync, F: Files, O: Sink, G: Gate + Sync>(
    rt: &R,
    alloc: Global,
    command: &Command<'a>,
    files: &mut F,
    out: &mut O,
    gate: &G,
) -> Result<(), Fault<'a>>
    requires plain { length command.now.plain.items ≡ length (plain_of command.now.verb) }
    requires seed { IsSeed (plain_of command.now.verb) (word_texts command.now.plain.items)
        command.now.chosen.seed }
    requires chosen { IsWithin command.now.chosen }
    ensures done { OnOk result (Writes (F.holds files.old) (asked command.now)
        (λ text. O.written out.new ≡ append_known (O.written out.old) text)) }
    ensures failed { code_of result ≡ 2 → Rose (F.faults files.old) (F.faults files.new) }
    ensures write { code_of result ≡ 3 → Rose (O.faults out.old) (O.faults out.new) }
    ensures long { code_of result ≡ 12 → Rose (F.longs files.old) (F.longs files.new) }
    ensures longs { code_of result ≢ 12 → F.longs files.new ≡ F.longs files.old }
    ensures fault { IfErr result (IsCauseOf (F.holds files.old) (F.steady files.old)
        (F.long files.new) (IsCut (O.written out.old) (O.written out.new))
        (asked command.now)) }
    ensures out_same { code_of result ≢ 0 → code_of result ≢ 3
        → O.written out.new ≡ O.written out.old }
{
    match files_of(alloc, command.verb.plain(), command.plain.as_slice()) {
        Ok(plan) => run_files(rt, alloc, command, plan.as_slice(), files, out, gate),
        Err(Memory) => Err(Fault::Memory),
    }
}

// Reads the files, makes the text, and writes it.
fn run_files<'a, R: Threads + Sync, F: Files, O: Sink, G: Gate + Sync>(
    rt: &R,
    alloc: Global,
    command: &Command<'a>,
    plan: &[File<'a>],
    files: &mut F,
    out: &mut O,
    gate: &G,
) -> Result<(), Fault<'a>>
    requires plain { length command.now.plain.items ≡ length (plain_of command.now.verb) }
    requires seed { IsSeed (plain_of command.now.verb) (word_texts command.now.plain.items)
        command.now.chosen.seed }
    requires chosen { IsWithin command.now.chosen }
    requires plan { map file_of plan.now ≡ wanted_of (asked command.now) }
    ensures done { OnOk result (Writes (F.holds files.old) (asked command.now)
        (λ text. O.written out.new ≡ append_known (O.written out.old) text)) }
    ensures failed { code_of result ≡ 2 → Rose (F.faults files.old) (F.faults files.new) }
    ensures write { code_of result ≡ 3 → Rose (O.faults out.old) (O.faults out.new) }
    ensures long { code_of result ≡ 12 → Rose (F.longs files.old) (F.longs files.new) }
    ensures longs { code_of result ≢ 12 → F.longs files.new ≡ F.longs files.old }
    ensures fault { IfErr result (IsCauseOf (F.holds files.old) (F.steady files.old)
        (F.long files.new) (IsCut (O.written out.old) (O.written out.new))
        (asked command.now)) }
    ensures out_same { code_of result ≢ 0 → code_of result ≢ 3
        → O.written out.new ≡ O.written out.old }
{
    match read_all(alloc, files, plan) {
        Err(fault) => Err(fault),
        Ok(contents) => match answer(rt, alloc, command, contents.as_slice(), gate) {
            Err(refusal) => Err(call_fault(refusal)),
            Ok(text) => match write_all(out, text.as_slice()) {
                Ok(()) => Ok(()),
                Err(WriteFault) => Err(Fault::Write),
            },
        },
    }
}
