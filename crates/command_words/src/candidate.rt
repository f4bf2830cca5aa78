//! What `clap` reads of the words. It counts only where the words confirm it.
ghost use Rattle.std.specs.Prelude.{◌≡◌, ◌≤◌, ◌+◌, length, IfOk, IfSome, IsNone, IsTrue, OnOk};
ghost use Rattle.command_words.specs.Tables.{choices_of, plain_of};
ghost use Rattle.command_words.specs.Items.{items_of};
ghost use Rattle.command_words.specs.Commands.{AreFew, AreWordsOf, Asked, ItemsSpell, asked, texts};

use crate::choice::{Choice, ValueKind, choices};
use crate::command::Command;
use crate::confirming::are_words;
use crate::items::Written;
use crate::reading::command_of;
use crate::verb::{VERBS, Verb};
use clap::error::ErrorKind;
use clap::{Arg, ArgAction, ArgMatches, Command as Program};
use el_base::Memory;
use std::alloc::Global;

/// A command with its items, in the order of the words.
#[derive(Drop)]
pub struct Candidate<'a> {
    verb: Verb,
    items: Vec<Written<'a>>,
}

impl<'a> Candidate<'a> {
    /// Whether the words are the word of its command and then its items.
    pub fn is_confirmed(&self, words: &[String]) -> bool
        ensures { IsTrue result → AreWordsOf self.now.verb (items_of self.now.items.items)
            (texts words.now) }
    {
        are_words(self.verb, self.items.as_slice(), words)
    }

    /// The command that its items spell; `None` exactly where they spell none.
    pub fn command(&self, alloc: Global) -> Result<Option<Command<'a>>, Memory>
        ensures some { IfOk result (λ r. IfSome r (λ c. (c.verb ≡ self.now.verb)
            × ItemsSpell (items_of self.now.items.items) (asked c))) }
        ensures none { IfOk result (λ r. IsNone r → (c : Asked) → c.verb ≡ self.now.verb
            → ItemsSpell (items_of self.now.items.items) c → ⊥) }
    {
        command_of(alloc, self.verb, self.items.as_slice())
    }
}

// An item, and the number by which `clap` orders what it found.
#[derive(Clone, Copy)]
struct Found<'a> {
    place: usize,
    item: Written<'a>,
}

/// What `clap` reads of the words, an item at most for each plain word and each option of its command; `None` where it
/// refuses them.
pub fn read_by_clap<'a>(alloc: Global, words: &'a [String]) -> Result<Option<Candidate<'a>>, Memory>
    ensures { IfOk result (λ r. IfSome r (λ c. AreFew c.verb c.items.items)) }
{
    match program(alloc)?.try_get_matches_from(words) {
        Ok(matches) => candidate_of(alloc, &matches),
        Err(error) if error.kind() == ErrorKind::OutOfMemory => Err(Memory),
        Err(_) => Ok(None),
    }
}

fn candidate_of<'a>(
    alloc: Global,
    matches: &ArgMatches<'a>,
) -> Result<Option<Candidate<'a>>, Memory>
    ensures { IfOk result (λ r. IfSome r (λ c. AreFew c.verb c.items.items)) }
{
    let Some((name, matches)) = matches.subcommand() else {
        return Ok(None);
    };
    let Some(verb) = Verb::of_word(name) else {
        return Ok(None);
    };
    let items = items(alloc, verb, matches)?;
    Ok(Some(Candidate { verb, items }))
}

// The items of the command, in the order of the words.
fn items<'a>(
    alloc: Global,
    verb: Verb,
    matches: &ArgMatches<'a>,
) -> Result<Vec<Written<'a>>, Memory>
    ensures { IfOk result (λ items. AreFew verb items.items) }
{
    let mut found = Vec::new(alloc);
    find_plain(&mut found, verb, matches)?;
    find_uses(&mut found, verb, matches)?;
    found.sort_unstable_by_key(|found| found.place);
    only_items(alloc, found.as_slice())
}

fn only_items<'a>(alloc: Global, found: &[Found<'a>]) -> Result<Vec<Written<'a>>, Memory>
    ensures { IfOk result (λ items. length items.items ≡ length found.now) }
{
    let mut items = Vec::new(alloc);
    for i in 0..found.len() {
        items.push(found[i].item)?;
    }
    Ok(items)
}

// Adds the plain words of the command.
fn find_plain<'a>(
    found: &mut Vec<Found<'a>>,
    verb: Verb,
    matches: &ArgMatches<'a>,
) -> Result<(), Memory>
    ensures { OnOk result (length found.new.items
        ≤ length found.old.items + length (plain_of verb)) }
{
    for at in 0..verb.plain().len() {
        let name = plain_name(at);
        if let Some(word) = matches.get_str(name) {
            push(found, matches.index_of(name), Written::Plain(word))?;
        }
    }
    Ok(())
}

// Adds the uses of its options.
fn find_uses<'a>(
    found: &mut Vec<Found<'a>>,
    verb: Verb,
    matches: &ArgMatches<'a>,
) -> Result<(), Memory>
    ensures { OnOk result (length found.new.items
        ≤ length found.old.items + length (choices_of verb)) }
{
    for choice in choices(verb) {
        let name = name_of(*choice);
        if let Some(value) = value_of(*choice, matches) {
            push(found, matches.index_of(name), Written::Use(*choice, value))?;
        }
    }
    Ok(())
}

fn push<'a>(
    found: &mut Vec<Found<'a>>,
    place: Option<usize>,
    item: Written<'a>,
) -> Result<(), Memory>
    ensures { OnOk result (length found.new.items ≤ length found.old.items + 1) }
{
    if let Some(place) = place {
        found.push(Found { place, item })?;
    }
    Ok(())
}

// The value of an option that is used; of a flag the empty one.
fn value_of<'a>(choice: Choice, matches: &ArgMatches<'a>) -> Option<&'a str> {
    match choice.kind() {
        ValueKind::Flag => {
            if matches.get_flag(name_of(choice)) {
                Some("")
            } else {
                None
            }
        }
        ValueKind::Number(_, _) | ValueKind::Delays => matches.get_str(name_of(choice)),
    }
}

// The commands as `clap` takes them: each value of an option is a text.
fn program<'a>(alloc: Global) -> Result<Program<'a>, Memory> {
    let mut program = Program::new(alloc, "elastic")
        .no_binary_name(true)
        .disable_help_flag(true)
        .disable_help_subcommand(true)
        .subcommand_required(true);
    for verb in VERBS {
        let command = command(alloc, verb)?;
        program = program.subcommand(command)?;
    }
    Ok(program)
}

fn command<'a>(alloc: Global, verb: Verb) -> Result<Program<'a>, Memory> {
    let command = with_plain(alloc, Program::new(alloc, verb_name(verb)), verb)?;
    with_options(alloc, command, verb)
}

fn with_plain<'a>(alloc: Global, command: Program<'a>, verb: Verb) -> Result<Program<'a>, Memory> {
    let mut command = command;
    for at in 0..verb.plain().len() {
        let plain = Arg::new(alloc, plain_name(at)).required(true);
        command = command.arg(plain)?;
    }
    Ok(command)
}

fn with_options<'a>(
    alloc: Global,
    command: Program<'a>,
    verb: Verb,
) -> Result<Program<'a>, Memory> {
    let mut command = command;
    for choice in choices(verb) {
        command = command.arg(option(alloc, name_of(*choice), choice.kind()))?;
    }
    Ok(command)
}

fn option<'a>(alloc: Global, name: &'a str, kind: ValueKind) -> Arg<'a> {
    match kind {
        ValueKind::Flag => Arg::new(alloc, name).long(name).action(ArgAction::SetTrue),
        ValueKind::Number(_, _) | ValueKind::Delays => Arg::new(alloc, name).long(name),
    }
}

// The word of a command, for as long as its builder needs it.
fn verb_name<'a>(verb: Verb) -> &'a str {
    verb.word()
}

// The word of an option without its dashes.
fn name_of<'a>(choice: Choice) -> &'a str {
    match choice.word().strip_prefix("--") {
        Some(name) => name,
        None => "",
    }
}

// By what name the plain word at a place is known.
fn plain_name<'a>(at: usize) -> &'a str {
    match at {
        0 => "first",
        1 => "second",
        _ => "third",
    }
}
