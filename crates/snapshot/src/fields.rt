//! Readers of the words of a line, which have one space between two.
ghost use Rattle.std.specs.Prelude.{◌≡◌, ◌≢◌, ◌↔◌, ◌∷◌, ◌<◌, ◌≤◌, ◌^◌, ℕ, List as Values, IfOk, IfSome, IsTrue, MatchOption, decimal, length, map, nat_lt};
ghost use Rattle.std.specs.List.{All};
ghost use Rattle.el_base.specs.Limits.{IsNumbered};
ghost use Rattle.el_base.specs.Numbers.{number};
ghost use Rattle.lsq_core.specs.Acts.{is_store};
ghost use Rattle.net_types.specs.Inputs.{IsPatternOf};
ghost use Rattle.net_text.specs.Fits.{Always};
ghost use Rattle.net_text.specs.Reads.{Reads};
ghost use Rattle.inputs_text.specs.Results.{written};
ghost use Rattle.snapshot.specs.Texts.{maybe, digit};
ghost use Rattle.snapshot.specs.private.Words.{EntryIsOf, GoesTogether, IsBelow, PatternFits, RisingFits, entry_fields};

use el_base::{List, Memory, Ty, number, pattern, read_number};
use lsq_core::Entry;
use net_text::read_u64;
use net_types::Port;
use std::alloc::Global;

/// The words after the first one, where that is this word.
pub(crate) fn after_word<'a>(words: &'a [&'a [u8]], word: &[u8]) -> Option<&'a [&'a [u8]]>
    ensures { MatchOption result
        ((rest : Values (Values ℕ)) → map (λ w. w.now) words.now ≢ word.now ∷ rest)
        (λ rest. map (λ w. w.now) words.now ≡ word.now ∷ map (λ w. w.now) rest.now) }
{
    match words.split_first() {
        Some((first, rest)) => { if *first == word { Some(rest) } else { None } }
        None => None,
    }
}

/// The number below a bound that bytes write.
pub(crate) fn read_below(bytes: &[u8], bound: u64) -> Option<u64>
    ensures { Reads (IsBelow bound) decimal bytes.now result }
{
    match read_u64(bytes) {
        Some(number) => { if number < bound { Some(number) } else { None } }
        None => None,
    }
}

/// Whether a number is a pattern of a width.
fn is_pattern(width: u32, value: u64) -> bool
    ensures { result ≡ nat_lt value (2 ^ width) }
{
    if width >= 64 {
        return true;
    }
    value < 1 << width
}

/// The pattern of a width that bytes write.
pub(crate) fn read_pattern(width: u32, bytes: &[u8]) -> Option<u64>
    requires { width ≤ 64 }
    ensures { Reads (PatternFits width) decimal bytes.now result }
{
    match read_u64(bytes) {
        Some(value) => {
            if is_pattern(width, value) {
                Some(value)
            } else {
                None
            }
        }
        None => None,
    }
}

/// The pattern of the number of a type that bytes write.
pub(crate) fn read_written(ty: Ty, bytes: &[u8]) -> Option<u64>
    ensures { Reads (IsPatternOf ty) (written ty) bytes.now result }
{
    let number = read_number(bytes, 0)?;
    if number.end != bytes.len() || !number.canonical {
        return None;
    }
    let pattern = pattern(ty, number.value);
    if is_number(ty, pattern, number.value) {
        Some(pattern)
    } else {
        None
    }
}

/// Whether a pattern stands for this number in a type.
fn is_number(ty: Ty, pattern: u64, value: i128) -> bool
    ensures { IsTrue result ↔ number ty pattern ≡ value }
{
    number(ty, pattern) == value
}

/// The patterns of a width that words write.
pub(crate) fn read_tokens(
    alloc: Global,
    width: u32,
    words: &[&[u8]],
) -> Result<Option<List<u64>>, Memory>
    requires { width ≤ 64 }
    ensures { IfOk result
        (λ o. Reads (All (PatternFits width)) (map decimal) (map (λ w. w.now) words.now) o) }
{
    let mut tokens = List::new(alloc);
    for word in words {
        match read_pattern(width, word) {
            Some(token) => tokens.push(token)?,
            None => return Ok(None),
        }
    }
    Ok(Some(tokens))
}

/// The patterns of the numbers of a type that words write.
pub(crate) fn read_elements(
    alloc: Global,
    ty: Ty,
    words: &[&[u8]],
) -> Result<Option<List<u64>>, Memory>
    ensures { IfOk result
        (λ o. Reads (All (IsPatternOf ty)) (map (written ty)) (map (λ w. w.now) words.now) o) }
{
    let mut elements = List::new(alloc);
    for word in words {
        match read_written(ty, word) {
            Some(element) => elements.push(element)?,
            None => return Ok(None),
        }
    }
    Ok(Some(elements))
}

/// The numbers below a bound that words write, each above the one before.
pub(crate) fn read_rising(
    alloc: Global,
    bound: u32,
    words: &[&[u8]],
) -> Result<Option<List<u32>>, Memory>
    ensures { IfOk result
        (λ o. Reads (RisingFits bound) (map decimal) (map (λ w. w.now) words.now) o) }
{
    let mut numbers = List::new(alloc);
    let mut least: u64 = 0;
    for word in words {
        let Some(number) = read_below(word, u64::from(bound)) else {
            return Ok(None);
        };
        if number < least {
            return Ok(None);
        }
        numbers.push(number as u32)?;
        least = number + 1;
    }
    Ok(Some(numbers))
}

/// The pattern of a width that bytes write, or none, which is `-`.
fn read_maybe(width: u32, bytes: &[u8]) -> Option<Option<u64>>
    requires { width ≤ 64 }
    ensures { Reads (λ o. IfSome o (PatternFits width)) maybe bytes.now result }
{
    if bytes == b"-".as_slice() {
        return Some(None);
    }
    match read_pattern(width, bytes) {
        Some(value) => Some(Some(value)),
        None => None,
    }
}

/// The flag that bytes write: `0` or `1`.
fn read_digit(bytes: &[u8]) -> Option<bool>
    ensures { Reads Always digit bytes.now result }
{
    if bytes == b"0".as_slice() {
        return Some(false);
    }
    if bytes == b"1".as_slice() {
        return Some(true);
    }
    None
}

/// Whether a port stores.
pub(crate) fn is_store(port: Port) -> bool
    ensures { result ≡ is_store port }
{
    match port {
        Port::Load => false,
        Port::Store => true,
    }
}

/// The entry that the words after `entry` write, for a queue of these ports whose elements have this width. Its serial number
/// is any.
pub(crate) fn read_entry(width: u32, ports: &[Port], words: &[&[u8]]) -> Option<Entry>
    requires thin { width ≤ 64 }
    requires few { IsNumbered (length ports.now) }
    ensures { Reads (EntryIsOf width ports.now) entry_fields (map (λ w. w.now) words.now) result }
{
    let [serial, port, addr, datum, done, value, replied] = words else {
        return None;
    };
    let port = read_below(port, ports.len() as u64)?;
    let entry = Entry {
        serial: read_u64(serial)?,
        port: port as u32,
        store: is_store(ports[port as usize]),
        addr: read_maybe(64, addr)?,
        datum: read_maybe(width, datum)?,
        done: read_digit(done)?,
        value: read_pattern(width, value)?,
        replied: read_digit(replied)?,
    };
    if is_sound(&entry) { Some(entry) } else { None }
}

/// Whether the fields of an entry go together.
fn is_sound(entry: &Entry) -> bool
    ensures { IsTrue result ↔ GoesTogether entry.now }
{
    let has_datum = entry.datum.is_some();
    let data = entry.store || !has_datum;
    let done = !entry.done || (entry.addr.is_some() && (!entry.store || has_datum));
    let value = entry.value == 0 || (entry.done && !entry.store);
    let replied = !entry.replied || (entry.done && !entry.store);
    data && done && value && replied
}
