//! What single lines tell, by their words.
ghost use Rattle.std.specs.Prelude.{◌≡◌, ◌∷◌, ◌<◌, [], ◌≤◌, ◌↔◌, ℕ, IfOk, IsTrue, codes, get_or, length, map};
ghost use Rattle.el_base.specs.Limits.{IsNumbered};
ghost use Rattle.el_base.specs.Words.{is_identifier};
ghost use Rattle.net_types.specs.Inputs.{AreElementsOf, IsPatternOf};
ghost use Rattle.net_types.specs.Nets.{nowhere};
ghost use Rattle.net_check.specs.Headers.{is_exit};
ghost use Rattle.net_core.specs.Parts.{fires_once, noted_outs};
ghost use Rattle.net_text.specs.Reads.{Reads};
ghost use Rattle.snapshot.specs.private.Words.{ChanFits, CountFits, FiredFits, ForkFits, IsBelow, MadeFits, ValueIsOf, array_words, end_words, first_words, list_words, number_words, queue_words, scalar_words, stray_words};

use crate::fields::{
    after_word, read_below, read_elements, read_pattern, read_rising, read_tokens, read_written,
};
use el_base::{Array, Decimal, List, MAX_FIRINGS, Memory, Scalar, Ty};
use net_types::{Chan, Unit};
use std::alloc::Global;

/// The greatest next serial number and count of strays that is saved.
const MAX_COUNT: u64 = 1 << 48;

/// Whether the words are this one alone.
fn is_alone(words: &[&[u8]], word: &[u8]) -> bool
    ensures { IsTrue result ↔ map (λ w. w.now) words.now ≡ word.now ∷ [] }
{
    match after_word(words, word) {
        Some(rest) => rest.is_empty(),
        None => false,
    }
}

/// Whether the words are those of the first line.
pub(crate) fn is_first(words: &[&[u8]]) -> bool
    ensures { IsTrue result ↔ map (λ w. w.now) words.now ≡ first_words }
{
    let Some(rest) = after_word(words, b"elastic") else {
        return false;
    };
    let Some(rest) = after_word(rest, b"state") else {
        return false;
    };
    is_alone(rest, b"1")
}

/// Whether the words are those of the last line.
pub(crate) fn is_end(words: &[&[u8]]) -> bool
    ensures { IsTrue result ↔ map (λ w. w.now) words.now ≡ end_words }
{
    is_alone(words, b"end")
}

/// The one number below a bound that follows a word.
fn one_below(words: &[&[u8]], word: &[u8], bound: u64) -> Option<u64>
    ensures { Reads (IsBelow bound) (number_words word.now) (map (λ w. w.now) words.now) result }
{
    let [number] = after_word(words, word)? else {
        return None;
    };
    read_below(number, bound)
}

/// The number of firings made.
pub(crate) fn read_made(words: &[&[u8]]) -> Option<u64>
    ensures { Reads MadeFits (number_words (codes "made")) (map (λ w. w.now) words.now) result }
{
    one_below(words, b"made", MAX_FIRINGS + 1)
}

/// The pattern of a scalar.
pub(crate) fn read_scalar(scalar: &Scalar, words: &[&[u8]]) -> Option<u64>
    ensures reads { Reads (IsPatternOf scalar.now.ty) (scalar_words scalar.now)
        (map (λ w. w.now) words.now) result }
    ensures name { IsTrue (is_identifier scalar.now.name) }
{
    let own = scalar.name.as_slice();
    let rest = after_word(words, b"scalar")?;
    let rest = after_word(rest, own)?;
    let [number] = after_word(rest, b"=")? else {
        return None;
    };
    read_written(scalar.ty, number)
}

/// The unit that has fired, from a number on.
pub(crate) fn read_fired(units: &[Unit], from: usize, words: &[&[u8]]) -> Option<usize>
    requires { IsNumbered (length units.now) }
    ensures { Reads (FiredFits units.now from) (number_words (codes "fired"))
        (map (λ w. w.now) words.now) result }
{
    let unit = one_below(words, b"fired", units.len() as u64)? as usize;
    if unit >= from && fires_once(&units[unit]) {
        Some(unit)
    } else {
        None
    }
}

/// Whether a unit fires once and notes it.
fn fires_once(unit: &Unit) -> bool
    ensures { result ≡ fires_once unit.now }
{
    match unit {
        Unit::Entry | Unit::Param(_) | Unit::Exit => true,
        Unit::Const { .. }
        | Unit::Op1(_)
        | Unit::Op2(_)
        | Unit::Select { .. }
        | Unit::Fork { .. }
        | Unit::Mux { .. }
        | Unit::Cmerge { .. }
        | Unit::Branch { .. }
        | Unit::Sink { .. }
        | Unit::Read(_)
        | Unit::Lsq { .. } => false,
    }
}

/// Whether a unit is the exit.
pub(crate) fn is_exit(unit: &Unit) -> bool
    ensures { result ≡ is_exit unit.now }
{
    match unit {
        Unit::Exit => true,
        Unit::Entry
        | Unit::Param(_)
        | Unit::Const { .. }
        | Unit::Op1(_)
        | Unit::Op2(_)
        | Unit::Select { .. }
        | Unit::Fork { .. }
        | Unit::Mux { .. }
        | Unit::Cmerge { .. }
        | Unit::Branch { .. }
        | Unit::Sink { .. }
        | Unit::Read(_)
        | Unit::Lsq { .. } => false,
    }
}

/// The result that the exit took, of a type.
pub(crate) fn read_value(ty: Option<Ty>, words: &[&[u8]]) -> Option<u64>
    ensures { Reads (ValueIsOf ty) (number_words (codes "value")) (map (λ w. w.now) words.now) result }
{
    let [value] = after_word(words, b"value")? else {
        return None;
    };
    read_pattern(ty?.width(), value)
}

/// The number of a channel, from a number on, and its tokens.
///
/// # Errors
///
/// [`Memory`] where memory is wanting.
pub(crate) fn read_chan(
    alloc: Global,
    chans: &[Chan],
    from: usize,
    words: &[&[u8]],
) -> Result<Option<(usize, List<u64>)>, Memory>
    requires slim { (c : ℕ) → c < length chans.now → (get_or chans.now c nowhere).width ≤ 64 }
    requires few { IsNumbered (length chans.now) }
    ensures { IfOk result (λ o. Reads (ChanFits chans.now from) (list_words (codes "chan"))
        (map (λ w. w.now) words.now) o) }
{
    let Some([number, tokens @ ..]) = after_word(words, b"chan") else {
        return Ok(None);
    };
    let Some(number) = read_below(number, chans.len() as u64) else {
        return Ok(None);
    };
    let number = number as usize;
    let chan = chans[number];
    if number < from || tokens.is_empty() || tokens.len() > chan.slots as usize {
        return Ok(None);
    }
    match read_tokens(alloc, chan.width, tokens)? {
        Some(list) => Ok(Some((number, list))),
        None => Ok(None),
    }
}

/// The number of a fork, from a number on, and the outputs that its head was sent on. Whether it has a token at its input is not asked.
///
/// # Errors
///
/// [`Memory`] where memory is wanting.
pub(crate) fn read_fork(
    alloc: Global,
    units: &[Unit],
    from: usize,
    words: &[&[u8]],
) -> Result<Option<(usize, List<u32>)>, Memory>
    requires { IsNumbered (length units.now) }
    ensures { IfOk result (λ o. Reads (ForkFits units.now from) (list_words (codes "fork"))
        (map (λ w. w.now) words.now) o) }
{
    let Some([number, outs @ ..]) = after_word(words, b"fork") else {
        return Ok(None);
    };
    let Some(number) = read_below(number, units.len() as u64) else {
        return Ok(None);
    };
    let number = number as usize;
    if number < from || outs.is_empty() || outs.len() >= noted_outs(&units[number]) as usize {
        return Ok(None);
    }
    match read_rising(alloc, noted_outs(&units[number]), outs)? {
        Some(list) => Ok(Some((number, list))),
        None => Ok(None),
    }
}

/// How many outputs a fork has; of another unit 0.
fn noted_outs(unit: &Unit) -> u32
    ensures { result ≡ noted_outs unit.now }
{
    match unit {
        Unit::Fork { outs, .. } => *outs,
        Unit::Entry
        | Unit::Param(_)
        | Unit::Const { .. }
        | Unit::Op1(_)
        | Unit::Op2(_)
        | Unit::Select { .. }
        | Unit::Mux { .. }
        | Unit::Cmerge { .. }
        | Unit::Branch { .. }
        | Unit::Sink { .. }
        | Unit::Read(_)
        | Unit::Lsq { .. }
        | Unit::Exit => 0,
    }
}

/// The next serial number of the queue of this number.
pub(crate) fn read_queue(queue: usize, words: &[&[u8]]) -> Option<u64>
    ensures { Reads CountFits (queue_words queue) (map (λ w. w.now) words.now) result }
{
    let own = Decimal::of_u64(queue as u64);
    one_below(after_word(words, b"queue")?, own.as_slice(), MAX_COUNT + 1)
}

/// The elements of an array.
///
/// # Errors
///
/// [`Memory`] where memory is wanting.
pub(crate) fn read_array(
    alloc: Global,
    array: &Array,
    words: &[&[u8]],
) -> Result<Option<List<u64>>, Memory>
    ensures reads { IfOk result (λ o. Reads (AreElementsOf array.now) (array_words array.now)
        (map (λ w. w.now) words.now) o) }
    ensures name { IsTrue (is_identifier array.now.name) }
{
    let own = array.name.as_slice();
    let Some(rest) = after_word(words, b"array") else {
        return Ok(None);
    };
    let Some(rest) = after_word(rest, own) else {
        return Ok(None);
    };
    let Some(elements) = after_word(rest, b"=") else {
        return Ok(None);
    };
    if elements.len() as u64 != array.len {
        return Ok(None);
    }
    read_elements(alloc, array.ty, elements)
}

/// The strays of an array.
pub(crate) fn read_stray(array: &Array, words: &[&[u8]]) -> Option<u64>
    ensures reads { Reads CountFits (stray_words array.now) (map (λ w. w.now) words.now) result }
    ensures name { IsTrue (is_identifier array.now.name) }
{
    let own = array.name.as_slice();
    one_below(after_word(words, b"stray")?, own, MAX_COUNT + 1)
}
