ghost use Rattle.std.specs.Prelude.{◌≡◌, ◌≢◌, ◌++◌, ◌∷◌, ◌<◌, ◌^◌, ◌↔◌, ℕ, List, false, length, IsTrue, MatchOption, slice_index};
ghost use Rattle.std.specs.Char.{is_ascii_digit};
ghost use Rattle.el_base.specs.Limits.{IsNumbered};
ghost use Rattle.net_types.specs.declared.firing.Act.{Act as Acts};
ghost use Rattle.net_replay.specs.declared.schedule_words.ActWord.{ActWord as Word};
ghost use Rattle.net_replay.specs.Readings.{IsOnly, Says};
ghost use Rattle.net_replay.specs.Schedules.{BeginsNoLine, FiringFits, firing_text};
ghost use Rattle.net_replay.specs.Words.{IsActBefore, IsAfterWord, IsAtFront, IsNumberBefore, word_text};

use crate::schedule_refusal::ScheduleRefusal;
use crate::schedule_words::{ACT_WORDS, ActWord, small};
use el_base::read_number;
use net_types::{Act, Firing, List};
use std::alloc::Global;

/// The firings of a schedule of fewer than 2^32 bytes.
///
/// A text is that of one list of firings at most, and takes no memory but that of the list.
///
/// # Errors
///
/// `Line` with the number, from 1, of the first line that spells no firing; a last line without a line feed spells none.
/// `Memory` where memory ran out.
pub fn read_schedule(alloc: Global, bytes: &[u8]) -> Result<List<Firing>, ScheduleRefusal>
    requires { IsNumbered (length bytes.now) }
    ensures says { Says bytes.now result }
    ensures only { IsOnly bytes.now result }
{
    read_lines(alloc, bytes)
}

/// The firings of a schedule, line by line.
fn read_lines(alloc: Global, bytes: &[u8]) -> Result<List<Firing>, ScheduleRefusal>
    requires { IsNumbered (length bytes.now) }
    ensures { Says bytes.now result }
{
    let mut firings = List::new(alloc);
    let mut rest = bytes;
    let mut number: u32 = 1;
    'lines: while !rest.is_empty() {
        let Some((firing, after)) = read_line(rest) else {
            return Err(ScheduleRefusal::Line { number });
        };
        firings.push(firing)?;
        rest = after;
        number += 1;
    }
    Ok(firings)
}

/// The firing of the first line, and what follows the line.
fn read_line(text: &[u8]) -> Option<(Firing, &[u8])>
    ensures { MatchOption result (BeginsNoLine text.now)
        (λ p. FiringFits p.0 × (text.now ≡ firing_text p.0 ++ 10 ∷ p.1.now)) }
{
    let Some((number, rest)) = number_before(text, b' ') else {
        return None;
    };
    let Some(unit) = small(number) else {
        return None;
    };
    let Some((act, after)) = read_act(rest) else {
        return None;
    };
    Some((Firing { unit, act }, after))
}

/// The act that stands before a line feed, and what follows that.
fn read_act(text: &[u8]) -> Option<(Act, &[u8])>
    ensures { MatchOption result
        ((a : Acts) (more : List ℕ) → IsActBefore text.now a more → ⊥)
        (λ p. IsActBefore text.now p.0 p.1.now) }
{
    let Some((word, rest)) = read_word(text) else {
        return None;
    };
    let Some((number, after)) = read_number_of(word, rest) else {
        return None;
    };
    let Some(act) = word.act(number) else {
        return None;
    };
    Some((act, after))
}

/// The word of an act at the front of a text, and what follows it.
fn read_word(text: &[u8]) -> Option<(ActWord, &[u8])>
    ensures { MatchOption result
        ((w : Word) (more : List ℕ) → text.now ≢ word_text w ++ more)
        (λ p. text.now ≡ word_text p.0 ++ p.1.now) }
{
    for word in ACT_WORDS {
        if let Some(rest) = after(text, word.text()) {
            return Some((word, rest));
        }
    }
    None
}

/// What stands after bytes at the front of a text.
fn after<'a>(text: &'a [u8], front: &[u8]) -> Option<&'a [u8]>
    ensures { MatchOption result ((rest : List ℕ) → text.now ≢ front.now ++ rest)
        (λ rest. text.now ≡ front.now ++ rest.now) }
{
    text.strip_prefix(front)
}

/// The number after a word and what follows its line feed; 0 and the whole text where the word has no number.
fn read_number_of(word: ActWord, text: &[u8]) -> Option<(u64, &[u8])>
    ensures { MatchOption result
        ((n : ℕ) (more : List ℕ) → IsAfterWord word text.now n more → ⊥)
        (λ p. IsAfterWord word text.now p.0 p.1.now) }
{
    if word.has_number() {
        number_before(text, b'\n')
    } else {
        Some((0, text))
    }
}

/// The number at the front of a text that stands before a byte, and what follows that byte.
fn number_before(text: &[u8], mark: u8) -> Option<(u64, &[u8])>
    requires { is_ascii_digit mark ≡ false }
    ensures { MatchOption result
        ((n : ℕ) (more : List ℕ) → IsNumberBefore mark text.now n more → ⊥)
        (λ p. IsNumberBefore mark text.now p.0 p.1.now) }
{
    let Some((number, end)) = number_in_front(text) else {
        return None;
    };
    if stands_at(text, end, mark) {
        Some((number, &text[end + 1..]))
    } else {
        None
    }
}

/// The number at the front of a text where it is below 2^64 and has no sign and no leading zeros, and where it ends.
fn number_in_front(text: &[u8]) -> Option<(u64, usize)>
    ensures { MatchOption result
        ((n end : ℕ) → n < 2 ^ 64 → IsAtFront text.now n end → ⊥)
        (λ p. (p.0 < 2 ^ 64) × IsAtFront text.now p.0 p.1) }
{
    let number = read_number(text, 0)?;
    if !number.canonical {
        return None;
    }
    let value = u64::try_from(number.value).ok()?;
    Some((value, number.end))
}

/// Whether a byte stands at a place of a text.
fn stands_at(text: &[u8], at: usize, byte: u8) -> bool
    ensures { IsTrue result ↔ ((at < length text.now) × (slice_index text.now at ≡ byte)) }
{
    at < text.len() && text[at] == byte
}
