//! Texts as fields.
ghost use Rattle.std.specs.Prelude.{◌≡◌, ◌<◌, ◌≤◌, length, chars, ◌++◌, IfOk, IfErr, OnOk};
ghost use Rattle.std.specs.List.{flat_map};
ghost use Rattle.bstr.specs.Escape.{unescaped};
ghost use Rattle.row_fields.specs.declared.refusal.FieldRefusal.TheVariants as refusal;
ghost use Rattle.row_fields.specs.Texts.{escape, IsTextRefusal};

use crate::refusal::FieldRefusal;
use bstr::ByteVec;
use std::alloc::{AllocError, Global};

/// The bytes that a field stands for, at most so many.
///
/// # Errors
///
/// `TooLong` where they are more, and `Memory` where memory ran out.
pub fn text_within(alloc: Global, field: &str, most: u64) -> Result<Vec<u8>, FieldRefusal>
    ensures ok { IfOk result (λ text. text.items ≡ unescaped (chars field.now)) }
    ensures short { IfOk result (λ text. length text.items ≤ most) }
    ensures err { IfErr result (IsTextRefusal (length (unescaped (chars field.now))) most) }
{
    let text = Vec::unescape_bytes(alloc, field)?;
    if text.len() as u64 > most {
        return Err(FieldRefusal::TooLong);
    }
    Ok(text)
}

/// A text as a field: its line feeds, tabs, carriage returns and backslashes as `\n`, `\t`, `\r` and `\\`, and all other
/// bytes as they are.
///
/// # Errors
///
/// `Memory` where memory ran out, and no other.
pub fn escaped(alloc: Global, text: &[u8]) -> Result<Vec<u8>, FieldRefusal>
    ensures ok { IfOk result (λ field. field.items ≡ flat_map escape text.now) }
    ensures err { IfErr result (λ refused. refused ≡ refusal.Memory) }
{
    let mut field = Vec::new(alloc);
    for byte in text {
        put_byte(&mut field, *byte)?;
    }
    Ok(field)
}

fn put_byte(field: &mut Vec<u8>, byte: u8) -> Result<(), AllocError>
    ensures { OnOk result (field.new.items ≡ field.old.items ++ escape byte) }
{
    match byte {
        b'\n' => field.extend_from_slice(b"\\n")?,
        b'\t' => field.extend_from_slice(b"\\t")?,
        b'\r' => field.extend_from_slice(b"\\r")?,
        b'\\' => field.extend_from_slice(b"\\\\")?,
        _ => field.push(byte)?,
    }
    Ok(())
}
