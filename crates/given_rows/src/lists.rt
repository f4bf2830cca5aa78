//! Lists of words: what they spell, and whether `clap` alone takes them otherwise.
use anyhow::{Result, bail};
use command_words::{Candidate, Chosen, Command, read_by_clap, read_words};
use el_base::Memory;
use row_fields::Output;
use std::alloc::Global;

/// Writes what the words of a line spell: the command with its plain words and its options in the order of the table.
pub fn put_list(alloc: Global, line: &str, out: &mut Output) -> Result<()> {
    let words = words_of(alloc, line)?;
    put_words(alloc, words.as_slice(), out)
}

/// The words of a line, but for its first field.
fn words_of(alloc: Global, line: &str) -> Result<Vec<String>> {
    let mut words = Vec::new(alloc);
    for word in line.split('\t').skip(1) {
        words.push(String::from_str(alloc, word)?)?;
    }
    Ok(words)
}

/// Writes what words spell; where `clap` alone takes them otherwise, what they spell by it; and where it reads what they do
/// not confirm, that.
fn put_words(alloc: Global, words: &[String], out: &mut Output) -> Result<()> {
    let spelled = given(read_words(alloc, words))?;
    let candidate = given(read_by_clap(alloc, words))?;
    let by_clap = by_clap(alloc, &candidate)?;
    put_both(alloc, &spelled, &by_clap, out)?;
    if candidate.is_some_and(|candidate| !candidate.is_confirmed(words)) {
        out.word(" and not confirmed");
    }
    Ok(())
}

/// Writes what words spell, and what they spell by `clap` alone where that is something else.
fn put_both(
    alloc: Global,
    spelled: &Option<Command<'_>>,
    by_clap: &Option<Command<'_>>,
    out: &mut Output,
) -> Result<()> {
    let first = told(alloc, spelled)?;
    let second = told(alloc, by_clap)?;
    out.bytes(first.as_slice());
    if first != second {
        out.word(" and otherwise by clap: ");
        out.bytes(second.as_slice());
    }
    Ok(())
}

/// The command of what `clap` reads.
fn by_clap<'a>(alloc: Global, candidate: &Option<Candidate<'a>>) -> Result<Option<Command<'a>>> {
    match candidate {
        Some(candidate) => given(candidate.command(alloc)),
        None => Ok(None),
    }
}

/// What there was memory for.
fn given<T: Drop>(answer: Result<T, Memory>) -> Result<T> {
    match answer {
        Ok(value) => Ok(value),
        Err(Memory) => bail!("want of memory"),
    }
}

/// A command as text; `usage` where there is none.
fn told(alloc: Global, command: &Option<Command<'_>>) -> Result<Vec<u8>> {
    let mut out = Output::new(alloc);
    match command {
        Some(command) => put_command(command, &mut out),
        None => out.word("usage"),
    }
    Ok(out.finish()?)
}

fn put_command(command: &Command<'_>, out: &mut Output) {
    out.word(command.verb.word());
    for word in command.plain.iter() {
        out.word(" ");
        out.word(word);
    }
    put_delays(&command.chosen, out);
    put_numbers(&command.chosen, out);
    put_flags(&command.chosen, out);
}

fn put_delays(chosen: &Chosen, out: &mut Output) {
    if let Some(delays) = &chosen.delay {
        let mut before = " delay ";
        for delay in delays.as_slice() {
            out.word(before);
            out.word(delay.class.word());
            out.word("=");
            out.number(delay.cycles);
            before = ",";
        }
    }
}

fn put_numbers(chosen: &Chosen, out: &mut Output) {
    let numbers = [
        (" seed ", chosen.seed),
        (" slots ", chosen.slots),
        (" depth ", chosen.depth),
        (" workers ", chosen.workers),
        (" limit ", chosen.limit),
        (" turns ", chosen.turns),
        (" at ", chosen.at),
    ];
    for (word, number) in numbers {
        if let Some(number) = number {
            out.word(word);
            out.number(number);
        }
    }
}

fn put_flags(chosen: &Chosen, out: &mut Output) {
    let flags = [
        (" count", chosen.count),
        (" cycles", chosen.cycles),
        (" log", chosen.log),
        (" forward", chosen.forward),
        (" wrap", chosen.wrap),
    ];
    for (word, is_used) in flags {
        if is_used {
            out.word(word);
        }
    }
}
