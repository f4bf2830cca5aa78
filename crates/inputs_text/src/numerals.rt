//! Numerals, and the patterns of their numbers.
ghost use Rattle.std.specs.Prelude.{◌≡◌, ◌<◌, ◌^◌, false, is_some, IfOk, OnOk, MatchOption, length};
ghost use Rattle.std.specs.List.{list_all};
ghost use Rattle.el_base.specs.Limits.{IsNumbered};
ghost use Rattle.el_base.specs.Numbers.{least_in, greatest_in};
ghost use Rattle.el_base.specs.Widths.{ty_signed, ty_width};
ghost use Rattle.inputs_text.specs.Lines.{is_numeral, numbers_in, words};
ghost use Rattle.inputs_text.specs.Rules.{is_in_range};
ghost use Rattle.inputs_text.specs.Measures.{AddsNumber, MeasuresText, MeasuresWords, ReadsNumeral};

use crate::header::Slot;
use crate::lines::next_word;
use el_base::{List, Memory, Ty, pattern, read_number};
use std::alloc::Global;

/// The number of a numeral, or 2^100 with its sign where its magnitude is not below 2^100; `None` where a word is no
/// numeral.
fn read_numeral(word: &[u8]) -> Option<i128>
    ensures { ReadsNumeral word.now result }
{
    let Some(number) = read_number(word, 0) else {
        return None;
    };
    if number.end == word.len() {
        Some(number.value)
    } else {
        None
    }
}

/// The least number that a type holds.
fn least(ty: Ty) -> i128
    ensures { result ≡ least_in (ty_signed ty) (ty_width ty) }
{
    match ty {
        Ty::I8 => i128::from(i8::MIN),
        Ty::I16 => i128::from(i16::MIN),
        Ty::I32 => i128::from(i32::MIN),
        Ty::I64 => i128::from(i64::MIN),
        Ty::U8 | Ty::U16 | Ty::U32 | Ty::U64 => 0,
    }
}

/// The greatest number that a type holds.
fn greatest(ty: Ty) -> i128
    ensures { result ≡ greatest_in (ty_signed ty) (ty_width ty) }
{
    match ty {
        Ty::I8 => i128::from(i8::MAX),
        Ty::U8 => i128::from(u8::MAX),
        Ty::I16 => i128::from(i16::MAX),
        Ty::U16 => i128::from(u16::MAX),
        Ty::I32 => i128::from(i32::MAX),
        Ty::U32 => i128::from(u32::MAX),
        Ty::I64 => i128::from(i64::MAX),
        Ty::U64 => i128::from(u64::MAX),
    }
}

/// Whether a type holds a number.
#[tactic(auto, unfolding(crate::specs::Rules::is_in_range))]
fn is_in_range(ty: Ty, number: i128) -> bool
    ensures { result ≡ is_in_range ty number }
{
    least(ty) <= number && number <= greatest(ty)
}

/// Whether all words of a text are numerals.
fn are_numerals(text: &[u8]) -> bool
    ensures { result ≡ list_all is_numeral (words text.now) }
{
    let mut rest = text;
    'words: while let Some((word, after)) = next_word(rest) {
        if read_numeral(word).is_none() {
            return false;
        }
        rest = after;
    }
    true
}

/// Whether all words of a text are numerals, and it has one.
pub(crate) fn has_numbers(text: &[u8]) -> bool
    ensures { result ≡ is_some (numbers_in (words text.now)) }
{
    next_word(text).is_some() && are_numerals(text)
}

/// Numbers that were read for a name.
#[derive(Drop)]
pub(crate) struct Numbers {
    /// How many there are.
    pub count: u64,
    /// Whether the type of the name holds each of them.
    pub in_range: bool,
    /// The patterns of the first of them, as many as the name asks for.
    pub patterns: List<u64>,
}

/// The numbers of a text whose words are all numerals, at least one; `None` of another.
pub(crate) fn read_numbers(
    alloc: Global,
    slot: Slot,
    text: &[u8],
) -> Result<Option<Numbers>, Memory>
    requires { IsNumbered (length text.now) }
    ensures { IfOk result (λ o. MatchOption o (numbers_in (words text.now) ≡ None)
        (MeasuresText slot text.now)) }
{
    match read_words(alloc, slot, text)? {
        Some(numbers) => {
            if numbers.count > 0 {
                Ok(Some(numbers))
            } else {
                Ok(None)
            }
        }
        None => Ok(None),
    }
}

/// The numbers of a text whose words are all numerals; `None` where one is none.
fn read_words(alloc: Global, slot: Slot, text: &[u8]) -> Result<Option<Numbers>, Memory>
    requires { IsNumbered (length text.now) }
    ensures { IfOk result (λ o. MatchOption o (list_all is_numeral (words text.now) ≡ false)
        (MeasuresWords slot (words text.now))) }
{
    let mut numbers = Numbers {
        count: 0,
        in_range: true,
        patterns: List::new(alloc),
    };
    let mut rest = text;
    'words: while let Some((word, after)) = next_word(rest) {
        let Some(number) = read_numeral(word) else {
            return Ok(None);
        };
        add(&mut numbers, slot, number)?;
        rest = after;
    }
    Ok(Some(numbers))
}

/// Adds a number.
fn add(numbers: &mut Numbers, slot: Slot, number: i128) -> Result<(), Memory>
    requires { numbers.old.count < 2 ^ 32 }
    ensures { OnOk result (AddsNumber slot number numbers.old numbers.new) }
{
    if numbers.count < slot.len {
        numbers.patterns.push(pattern(slot.ty, number))?;
    }
    numbers.in_range = numbers.in_range && is_in_range(slot.ty, number);
    numbers.count += 1;
    Ok(())
}
