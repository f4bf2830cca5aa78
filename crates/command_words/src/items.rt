//! The words after a command, cut into plain words and uses of options.
ghost use Rattle.std.specs.Prelude.{◌≡◌, ◌<◌, ◌++◌, ◌∷◌, List, length, get_or, IfOk, IfSome, IsNone, IsTrue, OnOk};
ghost use Rattle.command_words.specs.Tables.{Text, choice_word};
ghost use Rattle.command_words.specs.declared.items.State.TheVariants as state;
ghost use Rattle.command_words.specs.Items.{AreWritten, IsPlain, Item, items_of};
ghost use Rattle.command_words.specs.Steps.{IsSort, IsNoUse, Moves, GoOn, step_items};
ghost use Rattle.command_words.specs.Commands.{texts};

use crate::choice::{CHOICES, Choice, ValueKind};
use crate::verb::Verb;
use el_base::Memory;
use std::alloc::Global;

/// A plain word, or an option with its value; a flag has the empty value.
#[derive(Clone, Copy)]
pub(crate) enum Written<'a> {
    Plain(&'a str),
    Use(Choice, &'a str),
}

/// The item at a place.
pub(crate) fn item_at<'a>(items: &[Written<'a>], i: usize) -> Written<'a>
    requires { i < length items.now }
    ensures { result ≡ get_or items.now i result }
{
    items[i]
}

// What one word is, where no option waits for its value.
#[derive(Clone, Copy)]
enum WordSort<'a> {
    // It is `--`.
    End,
    Plain,
    Alone(Choice),
    Joined(Choice, &'a str),
    Unknown,
}

// The state between two words.
#[derive(Clone, Copy)]
enum State {
    Open,
    // This option waits for its value.
    Waits(Choice),
    // After `--`.
    Ended,
}

// What one word adds, and the state after it.
#[derive(Clone, Copy)]
struct Step<'a> {
    item: Option<Written<'a>>,
    state: State,
}

/// Cuts the words after a command into items; `None` exactly where they are no items of the command.
pub(crate) fn read_items<'a>(
    alloc: Global,
    verb: Verb,
    words: &'a [String],
) -> Result<Option<Vec<Written<'a>>>, Memory>
    ensures some { IfOk result (λ r. IfSome r (λ items.
        AreWritten verb (items_of items.items) (texts words.entry.now))) }
    ensures none { IfOk result (λ r. IsNone r → (is : List Item)
        → AreWritten verb is (texts words.entry.now) → ⊥) }
{
    let mut items = Vec::new(alloc);
    let mut state = State::Open;
    for word in words {
        let Some(step) = next_step(verb, state, word.as_str()) else {
            return Ok(None);
        };
        push_item(&mut items, step.item)?;
        state = step.state;
    }
    match state {
        State::Open | State::Ended => Ok(Some(items)),
        State::Waits(_) => Ok(None),
    }
}

fn push_item<'a>(items: &mut Vec<Written<'a>>, item: Option<Written<'a>>) -> Result<(), Memory>
    ensures { OnOk result (items_of items.new.items
        ≡ items_of items.old.items ++ step_items item.entry) }
{
    if let Some(item) = item {
        items.push(item)?;
    }
    Ok(())
}

fn next_step<'a>(verb: Verb, state: State, word: &'a str) -> Option<Step<'a>>
    ensures some { IfSome result (λ s.
        Moves verb state word.entry.now (step_items s.item) s.state) }
    ensures none { IsNone result → (is : List Item) (ws : List Text)
        → GoOn verb state is (word.entry.now ∷ ws) → ⊥ }
{
    match state {
        State::Open => open_step(verb, word),
        State::Waits(choice) => Some(Step {
            item: Some(Written::Use(choice, word)),
            state: State::Open,
        }),
        State::Ended => Some(Step {
            item: Some(Written::Plain(word)),
            state: State::Ended,
        }),
    }
}

fn open_step<'a>(verb: Verb, word: &'a str) -> Option<Step<'a>>
    ensures some { IfSome result (λ s.
        Moves verb state.Open word.entry.now (step_items s.item) s.state) }
    ensures none { IsNone result → (is : List Item) (ws : List Text)
        → AreWritten verb is (word.entry.now ∷ ws) → ⊥ }
{
    match sort(word) {
        WordSort::End => Some(Step {
            item: None,
            state: State::Ended,
        }),
        WordSort::Plain => Some(Step {
            item: Some(Written::Plain(word)),
            state: State::Open,
        }),
        WordSort::Alone(choice) => alone_step(verb, choice, word),
        WordSort::Joined(choice, value) => joined_step(verb, choice, word, value),
        WordSort::Unknown => None,
    }
}

fn alone_step<'a>(verb: Verb, choice: Choice, word: &'a str) -> Option<Step<'a>>
    requires { word.now ≡ choice_word choice }
    ensures some { IfSome result (λ s.
        Moves verb state.Open word.entry.now (step_items s.item) s.state) }
    ensures none { IsNone result → (is : List Item) (ws : List Text)
        → AreWritten verb is (word.entry.now ∷ ws) → ⊥ }
{
    if !choice.is_own(verb) {
        return None;
    }
    match choice.kind() {
        ValueKind::Flag => Some(Step {
            item: Some(Written::Use(choice, "")),
            state: State::Open,
        }),
        ValueKind::Number(_, _) | ValueKind::Delays => Some(Step {
            item: None,
            state: State::Waits(choice),
        }),
    }
}

fn joined_step<'a>(verb: Verb, choice: Choice, word: &'a str, value: &'a str) -> Option<Step<'a>>
    requires { word.now ≡ choice_word choice ++ (61 ∷ value.now) }
    ensures some { IfSome result (λ s.
        Moves verb state.Open word.entry.now (step_items s.item) s.state) }
    ensures none { IsNone result → (is : List Item) (ws : List Text)
        → AreWritten verb is (word.entry.now ∷ ws) → ⊥ }
{
    if !choice.is_own(verb) {
        return None;
    }
    match choice.kind() {
        ValueKind::Flag => None,
        ValueKind::Number(_, _) | ValueKind::Delays => Some(Step {
            item: Some(Written::Use(choice, value)),
            state: State::Open,
        }),
    }
}

fn sort(word: &str) -> WordSort<'_>
    ensures { IsSort word.now result }
{
    if word == "--" {
        return WordSort::End;
    }
    if is_plain(word) {
        return WordSort::Plain;
    }
    for choice in CHOICES {
        if let Some(sort) = use_of(word, choice) {
            return sort;
        }
    }
    WordSort::Unknown
}

/// Whether a word is plain before `--`.
pub(crate) fn is_plain(word: &str) -> bool
    ensures plain { IsTrue result → IsPlain word.now }
    ensures others { IsPlain word.now → IsTrue result }
{
    word.len() < 2 || word.as_bytes()[0] != b'-'
}

fn use_of(word: &str, choice: Choice) -> Option<WordSort<'_>>
    ensures some { IfSome result (IsSort word.now) }
    ensures none { IsNone result → IsNoUse word.now choice }
{
    if word == choice.word() {
        return Some(WordSort::Alone(choice));
    }
    match value_after(word, choice.word()) {
        Some(value) => Some(WordSort::Joined(choice, value)),
        None => None,
    }
}

/// The value of `--x=v`, where the word is this option with a value.
pub(crate) fn value_after<'a>(word: &'a str, name: &str) -> Option<&'a str>
    ensures some { IfSome result (λ v. word.entry.now ≡ name.now ++ (61 ∷ v.now)) }
    ensures none { IsNone result → (v : Text) → word.entry.now ≡ name.now ++ (61 ∷ v) → ⊥ }
{
    match after_prefix(word, name) {
        Some(rest) => after_equals(rest),
        None => None,
    }
}

fn after_prefix<'a>(word: &'a str, prefix: &str) -> Option<&'a str>
    ensures some { IfSome result (λ rest. word.entry.now ≡ prefix.now ++ rest.now) }
    ensures none { IsNone result → (rest : Text) → word.entry.now ≡ prefix.now ++ rest → ⊥ }
{
    word.strip_prefix(prefix)
}

fn after_equals(word: &str) -> Option<&str>
    ensures some { IfSome result (λ rest. word.entry.now ≡ 61 ∷ rest.now) }
    ensures none { IsNone result → (rest : Text) → word.entry.now ≡ 61 ∷ rest → ⊥ }
{
    word.strip_prefix('=')
}
