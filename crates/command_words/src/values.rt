//! The values of options among items.
ghost use Rattle.std.specs.Prelude.{◌≡◌, ◌<◌, ◌≤◌, ◌^◌, ◌++◌, ◌∷◌, [], ℕ, Bool, List, Option, IfOk, IfSome, IsNone};
ghost use Rattle.command_words.specs.declared.choice.ClassDelay.{ClassDelay};
ghost use Rattle.command_words.specs.declared.choice.Choice.TheVariants.{Delay};
ghost use Rattle.command_words.specs.Tables.{Text, is_choice, kind_of};
ghost use Rattle.command_words.specs.Values.{IsNumeral, IsNumber, AreDelays};
ghost use Rattle.command_words.specs.Items.{given, item_of, items_of};
ghost use Rattle.command_words.specs.Steps.{IsGiven};
ghost use Rattle.command_words.specs.Commands.{IsValue, IsFlag};

use crate::choice::{Choice, ClassDelay, ValueKind};
use crate::delays::read_delays;
use crate::items::{Written, item_at};
use el_base::{List, Memory};
use std::alloc::Global;

// How often a value is given to an option.
#[derive(Clone, Copy)]
enum Given<'a> {
    Nothing,
    Once(&'a str),
    Again,
}

/// The value of an option that takes a number, `None` inside where it is not used; `None` where it is used twice or its
/// value is no number in its range.
pub(crate) fn number(items: &[Written<'_>], choice: Choice) -> Option<Option<u64>>
    ensures some { IfSome result
        (IsValue (IsNumber (kind_of choice)) (given choice (items_of items.now))) }
    ensures none { IsNone result → (value : Option ℕ)
        → IsValue (IsNumber (kind_of choice)) (given choice (items_of items.now)) value → ⊥ }
{
    match values_of(items, choice) {
        Given::Nothing => Some(None),
        Given::Once(text) => match number_of(choice.kind(), text) {
            Some(number) => Some(Some(number)),
            None => None,
        },
        Given::Again => None,
    }
}

/// The delays of `--delay`, `None` inside where it is not used; `None` where it is used twice or its value is no list of
/// delays.
pub(crate) fn delays(
    alloc: Global,
    items: &[Written<'_>],
) -> Result<Option<Option<List<ClassDelay>>>, Memory>
    ensures some { IfOk result (λ r. IfSome r
        (IsValue AreDelays (given Delay (items_of items.now)))) }
    ensures none { IfOk result (λ r. IsNone r → (value : Option (List ClassDelay))
        → IsValue AreDelays (given Delay (items_of items.now)) value → ⊥) }
{
    match values_of(items, Choice::Delay) {
        Given::Nothing => Ok(Some(None)),
        Given::Once(text) => match read_delays(alloc, text)? {
            Some(delays) => Ok(Some(Some(delays))),
            None => Ok(None),
        },
        Given::Again => Ok(None),
    }
}

/// Whether a flag is used; `None` where it is used twice.
pub(crate) fn flag(items: &[Written<'_>], choice: Choice) -> Option<bool>
    ensures some { IfSome result (IsFlag (given choice (items_of items.now))) }
    ensures none { IsNone result → (value : Bool)
        → IsFlag (given choice (items_of items.now)) value → ⊥ }
{
    match values_of(items, choice) {
        Given::Nothing => Some(false),
        Given::Once(_) => Some(true),
        Given::Again => None,
    }
}

fn values_of<'a>(items: &[Written<'a>], choice: Choice) -> Given<'a>
    ensures { IsGiven (given choice (items_of items.now)) result }
{
    let mut found = Given::Nothing;
    for i in 0..items.len() {
        found = with_item(found, item_at(items, i), choice);
    }
    found
}

fn with_item<'a>(found: Given<'a>, item: Written<'a>, choice: Choice) -> Given<'a>
    ensures { (before : List Text) → IsGiven before found.entry
        → IsGiven (before ++ given choice (item_of item.entry ∷ [])) result }
{
    match item {
        Written::Use(other, value) if is_same(choice, other) => match found {
            Given::Nothing => Given::Once(value),
            Given::Once(_) | Given::Again => Given::Again,
        },
        Written::Plain(_) | Written::Use(_, _) => found,
    }
}

fn is_same(choice: Choice, other: Choice) -> bool
    ensures { result ≡ is_choice choice other }
{
    choice.word() == other.word()
}

// The number of the text, where an option of this kind takes it.
fn number_of(kind: ValueKind, text: &str) -> Option<u64>
    ensures some { IfSome result (IsNumber kind text.now) }
    ensures none { IsNone result → (n : ℕ) → IsNumber kind text.now n → ⊥ }
{
    match kind {
        ValueKind::Number(low, high) => number_within(low, high, text),
        ValueKind::Flag | ValueKind::Delays => None,
    }
}

/// The number from `low` to `high` that the text spells.
pub(crate) fn number_within(low: u64, high: u64, text: &str) -> Option<u64>
    ensures some { IfSome result (λ n. IsNumeral text.now n × (low ≤ n) × (n ≤ high)) }
    ensures none { IsNone result → (n : ℕ) → IsNumeral text.now n → low ≤ n → n ≤ high → ⊥ }
{
    match numeral(text) {
        Some(number) if low <= number && number <= high => Some(number),
        _ => None,
    }
}

/// The number below 2^64 that 1 to 20 decimal digits spell; zeros may lead.
pub(crate) fn numeral(word: &str) -> Option<u64>
    ensures some { IfSome result (IsNumeral word.now) }
    ensures none { IsNone result → (n : ℕ) → IsNumeral word.now n → n < 2 ^ 64 → ⊥ }
{
    if word.len() > 20 || word.as_bytes().first() == Some(&b'+') {
        return None;
    }
    word.parse::<u64>().ok()
}
