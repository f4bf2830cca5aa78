ghost use Rattle.std.specs.Prelude.{◌≡◌, ◌++◌, length, OnOk, IfOk};
ghost use Rattle.inputs_text.specs.Results.{AreResults, ResultText, array_lines, return_line};
ghost use Rattle.inputs_text.specs.Results.{numbers_line, spaced, written};

use el_base::{Array, List, Memory, Ty, number, put_i64, put_u64};
use std::alloc::Global;

/// The text of the arrays' elements and the result, where there is one: a line for each array in order, and `return = n`.
///
/// # Errors
///
/// [`Memory`] where memory is wanting.
pub fn print_results_of(
    alloc: Global,
    arrays: &[Array],
    ret: Option<Ty>,
    values: &[List<u64>],
    value: Option<u64>,
) -> Result<Vec<u8>, Memory>
    requires { AreResults arrays.now ret values.now value }
    ensures { IfOk result (λ text. ResultText arrays.now ret values.now value text.items) }
{
    let mut text = Vec::new(alloc);
    put_arrays(&mut text, arrays, values)?;
    put_return(&mut text, ret, value)?;
    Ok(text)
}

/// Appends a line for each array, in order, whatever the patterns.
pub(crate) fn put_arrays(
    text: &mut Vec<u8>,
    arrays: &[Array],
    values: &[List<u64>],
) -> Result<(), Memory>
    requires { length values.now ≡ length arrays.now }
    ensures { OnOk result
        (text.new.items ≡ text.old.items ++ array_lines arrays.now values.now) }
{
    for (i, array) in arrays.iter().enumerate() {
        put_numbers_line(text, array.name.as_slice(), array.ty, values[i].as_slice())?;
    }
    Ok(())
}

/// Appends the line of the result, where there is one.
pub(crate) fn put_return(
    text: &mut Vec<u8>,
    ret: Option<Ty>,
    value: Option<u64>,
) -> Result<(), Memory>
    ensures { OnOk result (text.new.items ≡ text.old.items ++ return_line ret value) }
{
    match (ret, value) {
        (Some(ty), Some(value)) => put_numbers_line(text, b"return", ty, &[value]),
        (None, _) | (Some(_), None) => Ok(()),
    }
}

/// Appends a line of a name and the numbers of patterns.
///
/// # Errors
///
/// [`Memory`] where memory is wanting; the text may hold a part of the line then.
pub fn put_numbers_line(
    text: &mut Vec<u8>,
    name: &[u8],
    ty: Ty,
    patterns: &[u64],
) -> Result<(), Memory>
    ensures { OnOk result
        (text.new.items ≡ text.old.items ++ numbers_line name.now ty patterns.now) }
{
    text.extend_from_slice(name)?;
    text.extend_from_slice(b" =")?;
    put_numbers(text, ty, patterns)?;
    text.push(b'\n')?;
    Ok(())
}

/// Appends the numbers of patterns, each after a space.
fn put_numbers(text: &mut Vec<u8>, ty: Ty, patterns: &[u64]) -> Result<(), Memory>
    ensures { OnOk result (text.new.items ≡ text.old.items ++ spaced ty patterns.now) }
{
    for pattern in patterns {
        text.push(b' ')?;
        put_number(text, ty, *pattern)?;
    }
    Ok(())
}

/// Appends the number of a pattern in a type, in decimal.
fn put_number(text: &mut Vec<u8>, ty: Ty, pattern: u64) -> Result<(), Memory>
    ensures { OnOk result (text.new.items ≡ text.old.items ++ written ty pattern) }
{
    let number = number(ty, pattern);
    if number < 0 {
        put_i64(text, number as i64)
    } else {
        put_u64(text, number as u64)
    }
}
