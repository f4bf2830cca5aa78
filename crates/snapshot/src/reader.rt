//! The reader of the text of a saved state.
ghost use Rattle.std.specs.Prelude.{◌<◌, ℕ, IsTrue, get_or, length};
ghost use Rattle.el_base.specs.Words.{is_identifier};
ghost use Rattle.snapshot.specs.Texts.{no_array, no_scalar};
ghost use Rattle.el_base.specs.Limits.{IsNumbered};
ghost use Rattle.snapshot.specs.Refusals.{Says, IsOnly};
ghost use Rattle.snapshot.specs.private.Drafts.{IsOneIn};

use crate::draft::{Draft, Stage, blank};
use crate::refusal::SnapRefusal;
use crate::saved::Saved;
use crate::stages::take_line;
use el_base::{Array, Scalar};
use net_check::Checked;
use net_text::{cut, parts};
use std::alloc::Global;

/// The state of a net that a text, of fewer than 2^32 bytes, tells. It costs time in proportion to the text and the net.
///
/// # Errors
///
/// `Line` at the first complete line with which no text of a state of the net that may be saved goes on, or at the line
/// after `end` where any byte follows it; else `Ends` where the text ends before the complete line `end`. `Memory` where
/// memory ran out.
pub fn read_snapshot(alloc: Global, net: &Checked, bytes: &[u8]) -> Result<Saved, SnapRefusal>
    requires { IsNumbered (length bytes.now) }
    ensures says { Says net.now bytes.now result }
    ensures only { IsOnly net.now bytes.now result }
{
    let plain = net.net();
    scalars_are_named(plain.scalars.as_slice());
    arrays_are_named(plain.arrays.as_slice());
    read_text(alloc, net, bytes)
}

/// The names of scalars are names, so that no line has a line feed in it.
fn scalars_are_named(scalars: &[Scalar])
    ensures { (j : ℕ) → j < length scalars.now
        → IsTrue (is_identifier (get_or scalars.now j no_scalar).name) }
{
    for scalar in scalars {
        let _name = scalar.name.as_slice();
    }
}

/// The names of arrays are names.
fn arrays_are_named(arrays: &[Array])
    ensures { (j : ℕ) → j < length arrays.now
        → IsTrue (is_identifier (get_or arrays.now j no_array).name) }
{
    for array in arrays {
        let _name = array.name.as_slice();
    }
}

/// The same answer, without what follows from it.
fn read_text(alloc: Global, net: &Checked, bytes: &[u8]) -> Result<Saved, SnapRefusal>
    requires { IsNumbered (length bytes.now) }
    ensures says { Says net.now bytes.now result }
    ensures one { IsOneIn net.now result }
{
    let plain = net.net();
    let mut draft = blank(alloc, plain)?;
    let mut rest = bytes;
    let mut number: u64 = 1;
    'lines: while let Some((line, after)) = cut(rest, b'\n') {
        let words = parts(alloc, line, b' ')?;
        if !take_line(alloc, net, &mut draft, words.as_slice())? {
            return Err(SnapRefusal::Line {
                number: number as u32,
            });
        }
        rest = after;
        number += 1;
    }
    let Draft { stage, saved } = draft;
    let Stage::Ended = stage else {
        return Err(SnapRefusal::Ends);
    };
    if rest.is_empty() {
        Ok(saved)
    } else {
        Err(SnapRefusal::Line {
            number: number as u32,
        })
    }
}
