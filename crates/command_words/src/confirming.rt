//! Whether words are a given command with given items: each word is compared, and none is searched for.
ghost use Rattle.std.specs.Prelude.{◌≡◌, ◌≢◌, ◌∷◌, ◌++◌, List, map, IfSome, IsTrue};
ghost use Rattle.command_words.specs.Tables.{choice_word, is_own, kind_of};
ghost use Rattle.command_words.specs.declared.choice.ValueKind.TheVariants.{Flag};
ghost use Rattle.command_words.specs.Items.{AreWritten, Begins, IsPlain, item_of, items_of, option, plain};
ghost use Rattle.command_words.specs.Commands.{AreWordsOf, texts};

use crate::choice::{Choice, ValueKind};
use crate::items::{Written, is_plain, value_after};
use crate::verb::Verb;

/// Whether the words are the word of the command and then these items of it.
pub(crate) fn are_words(verb: Verb, items: &[Written<'_>], words: &[String]) -> bool
    ensures { IsTrue result → AreWordsOf verb (items_of items.now) (texts words.now) }
{
    match after_word(verb.word(), words) {
        Some(rest) => are_written(verb, items, rest),
        None => false,
    }
}

// Whether the words are these items of the command. The calls are as deep as there are items, of which `clap` gives few.
fn are_written(verb: Verb, items: &[Written<'_>], words: &[String]) -> bool
    ensures { IsTrue result → AreWritten verb (items_of items.now) (texts words.now) }
{
    if words.is_empty() {
        return items.is_empty();
    }
    if let Some(rest) = after_word("--", words) {
        return are_plain(items, rest);
    }
    let Some((item, others)) = items.split_first() else {
        return false;
    };
    match after_item(verb, *item, words) {
        Some(rest) => are_written(verb, others, rest),
        None => false,
    }
}

// Whether the items are these words, all plain.
fn are_plain(items: &[Written<'_>], words: &[String]) -> bool
    ensures { IsTrue result → items_of items.now ≡ map plain (texts words.now) }
{
    let Some((item, others)) = items.split_first() else {
        return words.is_empty();
    };
    match item {
        Written::Plain(word) => match after_word(*word, words) {
            Some(rest) => are_plain(others, rest),
            None => false,
        },
        Written::Use(_, _) => false,
    }
}

// The words after the item, where they begin with it.
fn after_item<'a>(verb: Verb, item: Written<'_>, words: &'a [String]) -> Option<&'a [String]>
    ensures { IfSome result (λ rest. Begins verb (texts words.entry.now) (texts rest.now)
        (item_of item.entry)) }
{
    match item {
        Written::Plain(word) if is_plain(word) => after_word(word, words),
        Written::Use(choice, value) if choice.is_own(verb) => after_use(verb, choice, value, words),
        Written::Plain(_) | Written::Use(_, _) => None,
    }
}

// The words after an option of the command with this value.
fn after_use<'a>(
    verb: Verb,
    choice: Choice,
    value: &str,
    words: &'a [String],
) -> Option<&'a [String]>
    requires { IsTrue (is_own verb choice) }
    ensures { IfSome result (λ rest. Begins verb (texts words.entry.now) (texts rest.now)
        (option choice value.now)) }
{
    match choice.kind() {
        ValueKind::Flag if value.is_empty() => after_word(choice.word(), words),
        ValueKind::Flag => None,
        ValueKind::Number(_, _) | ValueKind::Delays => after_valued(verb, choice, value, words),
    }
}

fn after_valued<'a>(
    verb: Verb,
    choice: Choice,
    value: &str,
    words: &'a [String],
) -> Option<&'a [String]>
    requires own { IsTrue (is_own verb choice) }
    requires valued { kind_of choice ≢ Flag }
    ensures { IfSome result (λ rest. Begins verb (texts words.entry.now) (texts rest.now)
        (option choice value.now)) }
{
    match after_word(choice.word(), words) {
        Some(rest) => after_word(value, rest),
        None => after_joined(choice, value, words),
    }
}

// The words after the first, where that is `--x=v`.
fn after_joined<'a>(choice: Choice, value: &str, words: &'a [String]) -> Option<&'a [String]>
    ensures { IfSome result (λ rest. texts words.entry.now
        ≡ (choice_word choice ++ (61 ∷ value.now)) ∷ texts rest.now) }
{
    let (first, rest) = words.split_first()?;
    match value_after(first.as_str(), choice.word()) {
        Some(given) if given == value => Some(rest),
        Some(_) | None => None,
    }
}

// The words after the first, where that is this word.
fn after_word<'a>(word: &str, words: &'a [String]) -> Option<&'a [String]>
    ensures { IfSome result (λ rest. texts words.entry.now ≡ word.now ∷ texts rest.now) }
{
    let (first, rest) = words.split_first()?;
    if first.as_str() == word {
        Some(rest)
    } else {
        None
    }
}
