//! What each command answers, without an outside.
ghost use Rattle.std.specs.Prelude.{◌≡◌, length, Ok, Err, IfOk, IfErr};
ghost use Rattle.command_words.specs.Tables.{plain_of};
ghost use Rattle.command_words.specs.Commands.{IsSeed, asked, word_texts};
ghost use Rattle.elastic_top.specs.Answers.{IsSaid};
ghost use Rattle.elastic_top.specs.Files.{limits_of, AreWithin};
ghost use Rattle.elastic_top.specs.Options.{IsWithin};
ghost use Rattle.elastic_top.specs.Reading.{contents_of};

use crate::benches::bench;
use crate::compiling::compile;
use crate::fault::Refusal;
use crate::going::go;
use crate::interpretation::interpret;
use crate::options::{at_or, circuit_of, interpretation_of, limit_or, options_of};
use crate::runs::{replay, run};
use crate::states::{resume, save};
use crate::upgrade::upgraded;
use command_words::{Command, Verb};
use el_io::Gate;
use std::alloc::Global;
use std::thread::Threads;

/// The text that the command writes for the contents of its files, or why there is none.
pub fn answer<'a, R: Threads + Sync, G: Gate + Sync>(
    rt: &R,
    alloc: Global,
    command: &Command<'a>,
    contents: &[Vec<u8>],
    gate: &G,
) -> Result<Vec<u8>, Refusal<'a>>
    requires plain { length command.now.plain.items ≡ length (plain_of command.now.verb) }
    requires seed { IsSeed (plain_of command.now.verb) (word_texts command.now.plain.items)
        command.now.chosen.seed }
    requires chosen { IsWithin command.now.chosen }
    requires count { length contents.now ≡ length (limits_of (plain_of command.now.verb)) }
    requires within { AreWithin (limits_of (plain_of command.now.verb)) (contents_of contents.now) }
    ensures ok { IfOk result (λ text.
        IsSaid (asked command.now) (contents_of contents.now) (Ok text.items)) }
    ensures err { IfErr result (λ refusal.
        IsSaid (asked command.now) (contents_of contents.now) (Err refusal)) }
{
    let words = command.plain.as_slice();
    match command.verb {
        Verb::Compile => compile(
            alloc,
            words[0],
            contents[0].as_slice(),
            circuit_of(&command.chosen),
        ),
        Verb::Go => go(
            rt,
            alloc,
            words[0],
            words[1],
            contents[0].as_slice(),
            contents[1].as_slice(),
            circuit_of(&command.chosen),
            options_of(&command.chosen),
            gate,
        ),
        Verb::Run => run(
            rt,
            alloc,
            words[0],
            words[1],
            contents[0].as_slice(),
            contents[1].as_slice(),
            options_of(&command.chosen),
            gate,
        ),
        Verb::Replay => replay(
            alloc,
            words[0],
            words[1],
            words[2],
            contents[0].as_slice(),
            contents[1].as_slice(),
            contents[2].as_slice(),
        ),
        Verb::Ref => interpret(
            alloc,
            words[0],
            words[1],
            contents[0].as_slice(),
            contents[1].as_slice(),
            interpretation_of(&command.chosen),
        ),
        Verb::Upgrade => upgraded(alloc, words[0], contents[0].as_slice()),
        Verb::Bench => bench(alloc, command.chosen.seed),
        Verb::Save => save(
            alloc,
            words[0],
            words[1],
            contents[0].as_slice(),
            contents[1].as_slice(),
            at_or(command.chosen.at),
        ),
        Verb::Resume => resume(
            alloc,
            words[0],
            words[1],
            contents[0].as_slice(),
            contents[1].as_slice(),
            limit_or(command.chosen.limit),
            command.chosen.count,
        ),
    }
}
