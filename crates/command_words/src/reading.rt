//! Reading the words as a command.
ghost use Rattle.std.specs.Prelude.{◌≡◌, ◌++◌, ◌∷◌, [], ℕ, List, Option, IfOk, IfSome, IsNone, IsTrue, OnOk};
ghost use Rattle.command_words.specs.Items.{given, items_of, item_of, plain_words};
ghost use Rattle.command_words.specs.Commands.{Asked, AreChosen, ArePlain, GoTogether, IsPlainWord, IsSeed, IsValue, ItemsSpell, asked, texts, word_texts};
ghost use Rattle.command_words.specs.Commands as commands;
ghost use Rattle.command_words.specs.declared.command.Chosen.{Chosen};
ghost use Rattle.command_words.specs.declared.choice.Choice.TheVariants.{Delay};
ghost use Rattle.command_words.specs.declared.choice.ClassDelay.{ClassDelay};
ghost use Rattle.command_words.specs.Values.{AreDelays};
ghost use Rattle.command_words.specs.Steps.{with_delay};

use crate::candidate::read_by_clap;
use crate::choice::Choice;
use crate::command::{Chosen, Command};
use crate::items::{Written, item_at, read_items};
use crate::values::{delays, flag, number, numeral};
use crate::verb::{PlainKind, Verb};
use el_base::{MAX_SHARED_FIRINGS, Memory};
use std::alloc::Global;

/// Reads the whole list of words as a command; `None` exactly where they spell none.
/// `clap` reads them, and where they confirm what it reads, that is answered.
pub fn read_words<'a>(alloc: Global, words: &'a [String]) -> Result<Option<Command<'a>>, Memory>
    ensures some { IfOk result (λ r. IfSome r (λ c.
        commands.Command (texts words.entry.now) (asked c))) }
    ensures none { IfOk result (λ r. IsNone r → (c : Asked)
        → commands.Command (texts words.entry.now) c → ⊥) }
{
    if let Some(candidate) = read_by_clap(alloc, words)? {
        if candidate.is_confirmed(words) {
            return candidate.command(alloc);
        }
    }
    read_by_definition(alloc, words)
}

// Reads the words one by one, for those that `clap` reads otherwise.
fn read_by_definition<'a>(alloc: Global, words: &'a [String]) -> Result<Option<Command<'a>>, Memory>
    ensures some { IfOk result (λ r. IfSome r (λ c.
        commands.Command (texts words.entry.now) (asked c))) }
    ensures none { IfOk result (λ r. IsNone r → (c : Asked)
        → commands.Command (texts words.entry.now) c → ⊥) }
{
    let [first, rest @ ..] = words else {
        return Ok(None);
    };
    let Some(verb) = Verb::of_word(first.as_str()) else {
        return Ok(None);
    };
    let Some(items) = read_items(alloc, verb, rest)? else {
        return Ok(None);
    };
    command_of(alloc, verb, items.as_slice())
}

/// The command that the items after its word spell.
pub(crate) fn command_of<'a>(
    alloc: Global,
    verb: Verb,
    items: &[Written<'a>],
) -> Result<Option<Command<'a>>, Memory>
    ensures some { IfOk result (λ r. IfSome r (λ c.
        (c.verb ≡ verb) × ItemsSpell (items_of items.now) (asked c))) }
    ensures none { IfOk result (λ r. IsNone r → (c : Asked) → c.verb ≡ verb
        → ItemsSpell (items_of items.now) c → ⊥) }
{
    let plain = plain_of(alloc, items)?;
    if !are_plain(verb.plain(), plain.as_slice()) {
        return Ok(None);
    }
    let seed = seed_of(verb.plain(), plain.as_slice());
    let Some(chosen) = values(alloc, items, seed)? else {
        return Ok(None);
    };
    if !go_together(&chosen) {
        return Ok(None);
    }
    Ok(Some(Command {
        verb,
        plain,
        chosen,
    }))
}

// The plain words among the items.
fn plain_of<'a>(alloc: Global, items: &[Written<'a>]) -> Result<Vec<&'a str>, Memory>
    ensures { IfOk result (λ words.
        word_texts words.items ≡ plain_words (items_of items.now)) }
{
    let mut words = Vec::new(alloc);
    for i in 0..items.len() {
        push_plain(&mut words, item_at(items, i))?;
    }
    Ok(words)
}

fn push_plain<'a>(words: &mut Vec<&'a str>, item: Written<'a>) -> Result<(), Memory>
    ensures { OnOk result (word_texts words.new.items
        ≡ word_texts words.old.items ++ plain_words (item_of item.entry ∷ [])) }
{
    match item {
        Written::Plain(word) => words.push(word)?,
        Written::Use(_, _) => {}
    }
    Ok(())
}

// Whether the words are as many as the command has, and each is what it is to be.
fn are_plain(kinds: &[PlainKind], words: &[&str]) -> bool
    ensures yes { IsTrue result → ArePlain kinds.now (word_texts words.now) }
    ensures no { ArePlain kinds.now (word_texts words.now) → IsTrue result }
{
    if words.len() != kinds.len() {
        return false;
    }
    for i in 0..kinds.len() {
        if !is_plain_word(kinds[i], words[i]) {
            return false;
        }
    }
    true
}

fn is_plain_word(kind: PlainKind, word: &str) -> bool
    ensures yes { IsTrue result → IsPlainWord kind word.now }
    ensures no { IsPlainWord kind word.now → IsTrue result }
{
    match kind {
        PlainKind::File(_) => true,
        PlainKind::Seed => numeral(word).is_some(),
    }
}

// The number that the plain word of kind `Seed` spells; `None` where the command has no such word.
fn seed_of(kinds: &[PlainKind], words: &[&str]) -> Option<u64>
    requires { ArePlain kinds.now (word_texts words.now) }
    ensures { IsSeed kinds.now (word_texts words.now) result }
{
    let Some((kind, other_kinds)) = kinds.split_first() else {
        return None;
    };
    let Some((word, other_words)) = words.split_first() else {
        return None;
    };
    match kind {
        PlainKind::Seed => numeral(*word),
        PlainKind::File(_) => seed_of(other_kinds, other_words),
    }
}

// The values of the options, with this seed; `None` where an option is used twice, or its value is none that it takes.
fn values(alloc: Global, items: &[Written<'_>], seed: Option<u64>) -> Result<Option<Chosen>, Memory>
    ensures some { IfOk result (λ r. IfSome r (AreChosen (items_of items.now))) }
    ensures seed { IfOk result (λ r. IfSome r (λ c. c.seed ≡ seed)) }
    ensures none { IfOk result (λ r. IsNone r → (c : Chosen)
        → AreChosen (items_of items.now) c → ⊥) }
{
    let Some(delay) = delays(alloc, items)? else {
        return Ok(None);
    };
    let Some(chosen) = others(items, seed) else {
        return Ok(None);
    };
    Ok(Some(Chosen { delay, ..chosen }))
}

// The same of the options but `--delay`, which has no value in the answer.
fn others(items: &[Written<'_>], seed: Option<u64>) -> Option<Chosen>
    ensures some { IfSome result (λ c. (d : Option (List ClassDelay))
        → IsValue AreDelays (given Delay (items_of items.now)) d
        → AreChosen (items_of items.now) (with_delay d c)) }
    ensures seed { IfSome result (λ c. c.seed ≡ seed) }
    ensures none { IsNone result → (c : Chosen) → AreChosen (items_of items.now) c → ⊥ }
{
    let slots = number(items, Choice::Slots)?;
    let depth = number(items, Choice::Depth)?;
    let workers = number(items, Choice::Workers)?;
    let limit = number(items, Choice::Limit)?;
    let turns = number(items, Choice::Turns)?;
    let at = number(items, Choice::At)?;
    let count = flag(items, Choice::Count)?;
    let cycles = flag(items, Choice::Cycles)?;
    let log = flag(items, Choice::Log)?;
    let forward = flag(items, Choice::Forward)?;
    let wrap = flag(items, Choice::Wrap)?;
    Some(Chosen {
        seed,
        delay: None,
        slots,
        depth,
        workers,
        limit,
        turns,
        at,
        count,
        cycles,
        log,
        forward,
        wrap,
    })
}

// Whether the options may stand beside each other.
fn go_together(chosen: &Chosen) -> bool
    ensures yes { IsTrue result → GoTogether chosen.now }
    ensures no { GoTogether chosen.now → IsTrue result }
{
    if chosen.cycles && chosen.workers.is_some() {
        return false;
    }
    match chosen.limit {
        Some(limit) if limit > MAX_SHARED_FIRINGS => !chosen.log && chosen.workers.is_none(),
        Some(_) | None => true,
    }
}
