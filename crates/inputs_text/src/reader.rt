ghost use Rattle.std.specs.Prelude.{◌≡◌, ℕ, List, [], length, IfOk, IfErr, OnOk};
ghost use Rattle.el_base.specs.Limits.{IsNumbered};
ghost use Rattle.net_types.specs.Inputs.{InputsFit};
ghost use Rattle.inputs_text.specs.Lines.{name_in, numbers_in, words};
ghost use Rattle.inputs_text.specs.Readings.{AreSingle, ArraysFound, FindsAll, JudgesEntry, JudgesKnown, JudgesLine, RefusesLines, RefusesNames, ScalarsFound, array_names, scalar_names};
ghost use Rattle.inputs_text.specs.Refusals.{Says, IsOnly};
ghost use Rattle.inputs_text.specs.Rules.{slots};
ghost use Rattle.inputs_text.specs.Texts.{AreNamed, FitHeader};

use crate::header::{Slot, slots};
use crate::lines::{cut, is_skipped, next_line, next_word};
use crate::numerals::{has_numbers, read_numbers};
use crate::refusal::{InputRefusal, Rule};
use el_base::{Array, List, Memory, Name, Scalar, patterns_have_their_width};
use indexmap::IndexMap;
use net_check::Checked;
use net_types::Inputs;
use std::alloc::Global;

/// The inputs of a text, of fewer than 2^32 bytes, for a checked net.
///
/// # Errors
///
/// As [`read_inputs_of`].
pub fn read_inputs(alloc: Global, net: &Checked, bytes: &[u8]) -> Result<Inputs, InputRefusal>
    requires { IsNumbered (length bytes.now) }
    ensures says { Says net.now.scalars net.now.arrays bytes.now result }
    ensures only { IsOnly net.now.scalars net.now.arrays bytes.now result }
    ensures fit { IfOk result (InputsFit net.now) }
{
    let net = net.net();
    read_inputs_of(alloc, net.scalars.as_slice(), net.arrays.as_slice(), bytes)
}

/// The inputs of a text, of fewer than 2^32 bytes, for a header whose names differ.
///
/// # Errors
///
/// The first line that breaks a rule, by the first rule that it breaks: `Line` where it has not the form, `Unknown` where
/// its name is not in the header, `Twice` where an earlier line has its name, `Count` where its numbers are not as many as
/// its name asks for, `Range` where its type does not hold one of them. Where all lines keep the rules, `Missing` with the
/// first name of the header that no line has. `Memory` where memory ran out.
pub fn read_inputs_of(
    alloc: Global,
    scalars: &[Scalar],
    arrays: &[Array],
    bytes: &[u8],
) -> Result<Inputs, InputRefusal>
    requires names { AreNamed scalars.now arrays.now }
    requires short { IsNumbered (length bytes.now) }
    ensures says { Says scalars.now arrays.now bytes.now result }
    ensures only { IsOnly scalars.now arrays.now bytes.now result }
    ensures fit { IfOk result (FitHeader scalars.now arrays.now) }
{
    read_text(alloc, scalars, arrays, bytes)
}

/// The same answer, without what follows from it.
fn read_text(
    alloc: Global,
    scalars: &[Scalar],
    arrays: &[Array],
    bytes: &[u8],
) -> Result<Inputs, InputRefusal>
    requires names { AreNamed scalars.now arrays.now }
    requires short { IsNumbered (length bytes.now) }
    ensures says { Says scalars.now arrays.now bytes.now result }
    ensures fit { IfOk result (FitHeader scalars.now arrays.now) }
{
    let asked = slots(alloc, scalars, arrays)?;
    read_asked(alloc, scalars, arrays, &asked, bytes)
}

/// The same answer, by the names that the header asks for.
fn read_asked(
    alloc: Global,
    scalars: &[Scalar],
    arrays: &[Array],
    asked: &IndexMap<Name, Slot>,
    bytes: &[u8],
) -> Result<Inputs, InputRefusal>
    requires names { AreNamed scalars.now arrays.now }
    requires asked { asked.now.entries ≡ slots scalars.now arrays.now }
    requires short { IsNumbered (length bytes.now) }
    ensures says { Says scalars.now arrays.now bytes.now result }
    ensures fit { IfOk result (FitHeader scalars.now arrays.now) }
{
    patterns_have_their_width();
    let mut found = IndexMap::new(alloc);
    read_lines(alloc, asked, &mut found, bytes)?;
    inputs_of(alloc, scalars, arrays, &found)
}

/// The inputs by the patterns that were found in a text.
fn inputs_of(
    alloc: Global,
    scalars: &[Scalar],
    arrays: &[Array],
    found: &IndexMap<Name, List<u64>>,
) -> Result<Inputs, InputRefusal>
    requires names { AreNamed scalars.now arrays.now }
    requires single { AreSingle scalars.now found.now.entries }
    ensures says { (bytes : List ℕ)
        → FindsAll (slots scalars.now arrays.now) bytes found.now.entries
        → Says scalars.now arrays.now bytes result }
    ensures fit { (bytes : List ℕ)
        → FindsAll (slots scalars.now arrays.now) bytes found.now.entries
        → IfOk result (FitHeader scalars.now arrays.now) }
{
    patterns_have_their_width();
    let patterns = scalars_of(alloc, scalars, found)?;
    let elements = arrays_of(alloc, arrays, found)?;
    Ok(Inputs {
        scalars: patterns,
        arrays: elements,
    })
}

/// Puts in the patterns that the lines of a text give for names.
///
/// # Errors
///
/// The first line that breaks a rule, and want of memory.
fn read_lines(
    alloc: Global,
    slots: &IndexMap<Name, Slot>,
    found: &mut IndexMap<Name, List<u64>>,
    bytes: &[u8],
) -> Result<(), InputRefusal>
    requires short { IsNumbered (length bytes.now) }
    requires none { found.old.entries ≡ [] }
    ensures found { OnOk result (FindsAll slots.now.entries bytes.now found.new.entries) }
    ensures refused { IfErr result (RefusesLines slots.now.entries bytes.now) }
{
    let mut rest = bytes;
    let mut number: u32 = 0;
    'lines: while let Some((line, after)) = next_line(rest) {
        number += 1;
        if let Some(rule) = read_line(alloc, slots, found, line)? {
            return Err(rule.refusal(number));
        }
        rest = after;
    }
    Ok(())
}

/// The first rule that a line breaks; where it breaks none, the patterns that it gives are found.
fn read_line(
    alloc: Global,
    slots: &IndexMap<Name, Slot>,
    found: &mut IndexMap<Name, List<u64>>,
    line: &[u8],
) -> Result<Option<Rule>, Memory>
    requires { IsNumbered (length line.now) }
    ensures { IfOk result (JudgesLine slots.now.entries line.now
        found.old.entries found.new.entries) }
{
    if is_skipped(line) {
        return Ok(None);
    }
    let (left, right) = cut(line, b'=');
    match read_name(alloc, left)? {
        None => Ok(Some(Rule::Form)),
        Some(name) => read_entry(alloc, slots, found, name, right),
    }
}

/// The name that is the one word of a text.
fn read_name(alloc: Global, text: &[u8]) -> Result<Option<Name>, Memory>
    ensures { IfOk result (λ o. o ≡ name_in (words text.now)) }
{
    let Some((word, after)) = next_word(text) else {
        return Ok(None);
    };
    match next_word(after) {
        None => Name::new(alloc, word),
        Some(_) => Ok(None),
    }
}

/// The first rule that a name breaks with the numbers of a text; where it breaks none, the patterns are found.
fn read_entry(
    alloc: Global,
    slots: &IndexMap<Name, Slot>,
    found: &mut IndexMap<Name, List<u64>>,
    name: Name,
    text: &[u8],
) -> Result<Option<Rule>, Memory>
    requires { IsNumbered (length text.now) }
    ensures { IfOk result (JudgesEntry slots.now.entries name (numbers_in (words text.now))
        found.old.entries found.new.entries) }
{
    match slots.get(&name).copied() {
        Some(slot) => read_known(alloc, slot, found, name, text),
        None => {
            if has_numbers(text) {
                Ok(Some(Rule::Unknown))
            } else {
                Ok(Some(Rule::Form))
            }
        }
    }
}

/// The same of a name that the header has.
fn read_known(
    alloc: Global,
    slot: Slot,
    found: &mut IndexMap<Name, List<u64>>,
    name: Name,
    text: &[u8],
) -> Result<Option<Rule>, Memory>
    requires { IsNumbered (length text.now) }
    ensures { IfOk result (JudgesKnown slot name (numbers_in (words text.now))
        found.old.entries found.new.entries) }
{
    let Some(numbers) = read_numbers(alloc, slot, text)? else {
        return Ok(Some(Rule::Form));
    };
    if found.contains_key(&name) {
        return Ok(Some(Rule::Twice));
    }
    if numbers.count != slot.len {
        return Ok(Some(Rule::Count));
    }
    if !numbers.in_range {
        return Ok(Some(Rule::Range));
    }
    found.insert(name, numbers.patterns)?;
    Ok(None)
}

/// The pattern of each scalar.
fn scalars_of(
    alloc: Global,
    scalars: &[Scalar],
    found: &IndexMap<Name, List<u64>>,
) -> Result<List<u64>, InputRefusal>
    requires { AreSingle scalars.now found.now.entries }
    ensures ok { IfOk result (ScalarsFound scalars.now found.now.entries) }
    ensures err { IfErr result (RefusesNames (scalar_names scalars.now) found.now.entries) }
{
    let mut patterns = List::new(alloc);
    for scalar in scalars {
        let Some(given) = found.get(&scalar.name) else {
            return Err(InputRefusal::Missing {
                name: scalar.name.copy()?,
            });
        };
        patterns.push(given.as_slice()[0])?;
    }
    Ok(patterns)
}

/// The patterns of each array's elements.
fn arrays_of(
    alloc: Global,
    arrays: &[Array],
    found: &IndexMap<Name, List<u64>>,
) -> Result<List<List<u64>>, InputRefusal>
    ensures ok { IfOk result (ArraysFound arrays.now found.now.entries) }
    ensures err { IfErr result (RefusesNames (array_names arrays.now) found.now.entries) }
{
    let mut elements = List::new(alloc);
    for array in arrays {
        let Some(given) = found.get(&array.name) else {
            return Err(InputRefusal::Missing {
                name: array.name.copy()?,
            });
        };
        elements.push(given.copy()?)?;
    }
    Ok(elements)
}
