//! Reading the list of delays that is the value of `--delay`.
ghost use Rattle.std.specs.Prelude.{◌≡◌, ◌<◌, ◌≤◌, ℕ, List, length, get_or, map, Contains, IfOk, IfSome, IsNone, IsTrue};
ghost use Rattle.el_base.specs.Limits.{max_delay};
ghost use Rattle.command_words.specs.declared.choice.Class.{Class};
ghost use Rattle.command_words.specs.declared.choice.ClassDelay.{ClassDelay};
ghost use Rattle.command_words.specs.Tables.{least_delay};
ghost use Rattle.command_words.specs.Values.{AreDelays, IsNumeral};
ghost use Rattle.command_words.specs.Commands.{word_texts};
ghost use Rattle.command_words.specs.Steps.{AreEach, AreOfApart, IsDelay, parts};

use crate::choice::{CLASSES, Class, ClassDelay};
use crate::items::value_after;
use crate::values::number_within;
use el_base::{List, MAX_DELAY, Memory};
use std::alloc::Global;

/// The delays that a text spells; `None` where it is no list of delays, has a class twice or a number out of its range.
pub(crate) fn read_delays(alloc: Global, text: &str) -> Result<Option<List<ClassDelay>>, Memory>
    ensures some { IfOk result (λ r. IfSome r (AreDelays text.now)) }
    ensures none { IfOk result (λ r. IsNone r → (ds : List ClassDelay)
        → AreDelays text.now ds → ⊥) }
{
    let parts = parts_of(alloc, text)?;
    let Some(delays) = each_delay(alloc, parts.as_slice())? else {
        return Ok(None);
    };
    if !are_apart(delays.as_slice()) {
        return Ok(None);
    }
    Ok(Some(delays))
}

// The texts between the commas.
fn parts_of<'a>(alloc: Global, text: &'a str) -> Result<Vec<&'a str>, Memory>
    ensures { IfOk result (λ ps. word_texts ps.items ≡ parts text.entry.now) }
{
    let parts = text.split(',').collect(alloc)?;
    Ok(parts)
}

// The delay of each text; `None` where one is no delay.
fn each_delay(alloc: Global, parts: &[&str]) -> Result<Option<List<ClassDelay>>, Memory>
    ensures some { IfOk result (λ r. IfSome r (AreEach (word_texts parts.now))) }
    ensures none { IfOk result (λ r. IsNone r → (ds : List ClassDelay)
        → AreEach (word_texts parts.now) ds → ⊥) }
{
    let mut delays = List::new(alloc);
    for i in 0..parts.len() {
        let Some(delay) = delay_of(part_at(parts, i)) else {
            return Ok(None);
        };
        delays.push(delay)?;
    }
    Ok(Some(delays))
}

fn part_at<'a>(parts: &[&'a str], i: usize) -> &'a str
    requires { i < length parts.now }
    ensures { result ≡ get_or parts.now i result }
{
    parts[i]
}

// The delay that a text `class=n` is.
fn delay_of(part: &str) -> Option<ClassDelay>
    ensures some { IfSome result (IsDelay part.now) }
    ensures none { IsNone result → (d : ClassDelay) → IsDelay part.now d → ⊥ }
{
    for class in CLASSES {
        if let Some(digits) = value_after(part, class.word()) {
            return match cycles_of(class, digits) {
                Some(cycles) => Some(ClassDelay { class, cycles }),
                None => None,
            };
        }
    }
    None
}

fn cycles_of(class: Class, digits: &str) -> Option<u64>
    ensures some { IfSome result (λ n.
        IsNumeral digits.now n × (least_delay class ≤ n) × (n ≤ max_delay)) }
    ensures none { IsNone result → (n : ℕ) → IsNumeral digits.now n
        → least_delay class ≤ n → n ≤ max_delay → ⊥ }
{
    number_within(class.least_delay(), u64::from(MAX_DELAY), digits)
}

// Whether no two are of one class. Of more than five some two are, so it looks at six at most.
fn are_apart(delays: &[ClassDelay]) -> bool
    ensures yes { IsTrue result → AreOfApart delays.now }
    ensures no { AreOfApart delays.now → IsTrue result }
{
    match delays.split_first() {
        None => true,
        Some((first, rest)) => !has_class(rest, first.class) && are_apart(rest),
    }
}

fn has_class(delays: &[ClassDelay], class: Class) -> bool
    ensures yes { IsTrue result → Contains (map (λ d. d.class) delays.now) class }
    ensures no { Contains (map (λ d. d.class) delays.now) class → IsTrue result }
{
    for delay in delays {
        if delay.class == class {
            return true;
        }
    }
    false
}
