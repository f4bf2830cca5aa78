//! Readers of single lines of a net's text, each without its line feed. Each gives a value exactly where the line is the
//! text of one: no line has two texts of a number, more or fewer spaces, or more or fewer pieces.
ghost use Rattle.std.specs.Prelude.{◌≡◌, ◌↔◌, codes, IsTrue, IfOk};
ghost use Rattle.el_base.specs.Limits.{IsNumbered};
ghost use Rattle.net_text.specs.Fits.{NameFits, ScalarFits, ArrayFits, ChanFits, Always};
ghost use Rattle.net_text.specs.Reads.{Reads, version_text, kernel_text, scalar_text, array_text, result_text, chan_text, DelayFits, delay_text};

use crate::read_pieces::{after, cut, number_after, read_place, read_u32, read_u64};
use net_types::{Array, Chan, Memory, Name, Scalar, Ty};
use std::alloc::Global;

/// The version that a first line names; `None` where it is no such line.
pub(crate) fn read_version(line: &[u8]) -> Option<u32>
    ensures { Reads IsNumbered version_text line.now result }
{
    number_after(line, b"elastic ")
}

/// The name that the line of a kernel's name writes; `None` where it is no such line.
///
/// # Errors
///
/// `Memory` where memory ran out.
pub(crate) fn read_kernel(alloc: Global, line: &[u8]) -> Result<Option<Name>, Memory>
    ensures { IfOk result (λ o. Reads NameFits kernel_text line.now o) }
{
    match after(line, b"kernel ") {
        Some(name) => Name::new(alloc, name),
        None => Ok(None),
    }
}

/// The scalar that a line writes; `None` where it is no scalar's line.
///
/// # Errors
///
/// `Memory` where memory ran out.
pub(crate) fn read_scalar(alloc: Global, line: &[u8]) -> Result<Option<Scalar>, Memory>
    ensures { IfOk result (λ o. Reads ScalarFits scalar_text line.now o) }
{
    let Some(rest) = after(line, b"scalar ") else {
        return Ok(None);
    };
    let Some((name, ty)) = cut(rest, b' ') else {
        return Ok(None);
    };
    let Some(ty) = Ty::of_name(ty) else {
        return Ok(None);
    };
    let Some(name) = Name::new(alloc, name)? else {
        return Ok(None);
    };
    Ok(Some(Scalar { name, ty }))
}

/// The array that a line writes; `None` where it is no array's line.
///
/// # Errors
///
/// `Memory` where memory ran out.
pub(crate) fn read_array(alloc: Global, line: &[u8]) -> Result<Option<Array>, Memory>
    ensures { IfOk result (λ o. Reads ArrayFits array_text line.now o) }
{
    let Some(rest) = after(line, b"array ") else {
        return Ok(None);
    };
    let Some((name, rest)) = cut(rest, b' ') else {
        return Ok(None);
    };
    let Some((ty, len)) = cut(rest, b' ') else {
        return Ok(None);
    };
    let Some(ty) = Ty::of_name(ty) else {
        return Ok(None);
    };
    let Some(len) = read_u64(len) else {
        return Ok(None);
    };
    let Some(name) = Name::new(alloc, name)? else {
        return Ok(None);
    };
    Ok(Some(Array { name, ty, len }))
}

/// The result that a line writes, a type or none; `None` where it is no result's line.
pub(crate) fn read_result(line: &[u8]) -> Option<Option<Ty>>
    ensures { Reads Always result_text line.now result }
{
    let word = after(line, b"result ")?;
    if word == b"none".as_slice() {
        return Some(None);
    }
    match Ty::of_name(word) {
        Some(ty) => Some(Some(ty)),
        None => None,
    }
}

/// The channel that a line writes; `None` where it is no channel's line.
pub(crate) fn read_chan(line: &[u8]) -> Option<Chan>
    ensures { Reads ChanFits chan_text line.now result }
{
    let (from, rest) = cut(after(line, b"chan ")?, b' ')?;
    let (to, rest) = cut(rest, b' ')?;
    let (width, rest) = cut(rest, b' ')?;
    let (slots, rest) = cut(rest, b' ')?;
    let (delay, ctl) = read_delay(rest)?;
    Some(Chan {
        from: read_place(from)?,
        to: read_place(to)?,
        width: read_u32(width)?,
        slots: read_u32(slots)?,
        delay,
        ctl,
    })
}

/// The delay at the end of a channel's line, and whether the channel is control.
fn read_delay(text: &[u8]) -> Option<(u32, bool)>
    ensures { Reads DelayFits delay_text text.now result }
{
    match cut(text, b' ') {
        Some((delay, word)) if word == b"control".as_slice() => Some((read_u32(delay)?, true)),
        Some(_) => None,
        None => Some((read_u32(text)?, false)),
    }
}

/// Whether a line is the last one.
pub(crate) fn is_end(line: &[u8]) -> bool
    ensures { IsTrue result ↔ line.now ≡ codes "end" }
{
    line == b"end".as_slice()
}
