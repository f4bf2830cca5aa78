ghost use Rattle.std.specs.Prelude.{◌≡◌, [], ◌∷◌, ◌++◌, OnOk, map, decimal};
ghost use Rattle.std.specs.List.{flat_map};
ghost use Rattle.net_text.specs.Fits.{GroupFits, GroupsFit};
ghost use Rattle.net_text.specs.Pieces.{line, place_text, port_letter, ports_text, group_text, groups_text, mark_text};

use el_base::put_u64;
use net_types::{List, Memory, Place, Port};

/// Appends bytes.
///
/// # Errors
///
/// [`Memory`] where memory is wanting.
pub fn put_bytes(text: &mut Vec<u8>, bytes: &[u8]) -> Result<(), Memory>
    ensures ok { OnOk result (text.new.items ≡ text.old.items ++ bytes.now) }
{
    text.extend_from_slice(bytes)?;
    Ok(())
}

/// Appends the digits of a number.
pub(crate) fn put_u32(text: &mut Vec<u8>, number: u32) -> Result<(), Memory>
    ensures ok { OnOk result (text.new.items ≡ text.old.items ++ decimal number) }
{
    put_u64(text, u64::from(number))
}

/// Appends a line: its first words, and numbers.
///
/// # Errors
///
/// [`Memory`] where memory is wanting; the text may hold a part of the line then.
pub fn put_line(text: &mut Vec<u8>, words: &[u8], numbers: &[u64]) -> Result<(), Memory>
    ensures ok { OnOk result
        (text.new.items ≡ text.old.items ++ line (words.now ∷ map decimal numbers.now)) }
{
    put_bytes(text, words)?;
    put_numbers(text, numbers)?;
    put_bytes(text, b"\n")
}

/// Appends numbers, each after a space.
///
/// # Errors
///
/// [`Memory`] where memory is wanting; the text may hold a part of them then.
pub fn put_numbers(text: &mut Vec<u8>, numbers: &[u64]) -> Result<(), Memory>
    ensures ok { OnOk result
        (text.new.items ≡ text.old.items ++ flat_map (λ n. 32 ∷ decimal n) numbers.now) }
{
    for number in numbers {
        put_bytes(text, b" ")?;
        put_u64(text, *number)?;
    }
    Ok(())
}

/// Appends a line of two parts.
pub(crate) fn put_word_line(text: &mut Vec<u8>, first: &[u8], second: &[u8]) -> Result<(), Memory>
    ensures ok { OnOk result
        (text.new.items ≡ text.old.items ++ line (first.now ∷ second.now ∷ [])) }
{
    put_bytes(text, first)?;
    put_bytes(text, b" ")?;
    put_bytes(text, second)?;
    put_bytes(text, b"\n")
}

/// Appends a place.
pub(crate) fn put_place(text: &mut Vec<u8>, place: Place) -> Result<(), Memory>
    ensures ok { OnOk result (text.new.items ≡ text.old.items ++ place_text place) }
{
    put_u32(text, place.unit)?;
    put_bytes(text, b".")?;
    put_u32(text, place.place)
}

/// Appends the letters of ports.
pub(crate) fn put_ports(text: &mut Vec<u8>, ports: &[Port]) -> Result<(), Memory>
    ensures ok { OnOk result (text.new.items ≡ text.old.items ++ ports_text ports.now) }
{
    if ports.is_empty() {
        return put_bytes(text, b"-");
    }
    put_letters(text, ports)
}

fn put_letters(text: &mut Vec<u8>, ports: &[Port]) -> Result<(), Memory>
    ensures ok { OnOk result (text.new.items ≡ text.old.items ++ map port_letter ports.now) }
{
    for port in ports {
        text.push(letter(*port))?;
    }
    Ok(())
}

fn letter(port: Port) -> u8
    ensures { result ≡ port_letter port }
{
    match port {
        Port::Load => b'l',
        Port::Store => b's',
    }
}

/// Appends a group of ports.
pub(crate) fn put_group(text: &mut Vec<u8>, group: &[u32]) -> Result<(), Memory>
    ensures ok { OnOk result (text.new.items ≡ text.old.items ++ group_text group.now) }
    ensures fits { OnOk result (GroupFits group.now) }
{
    match group.split_first() {
        None => put_bytes(text, b"-"),
        Some((first, rest)) => {
            put_u32(text, *first)?;
            for number in rest {
                put_bytes(text, b",")?;
                put_u32(text, *number)?;
            }
            Ok(())
        }
    }
}

/// Appends groups of ports.
pub(crate) fn put_groups(text: &mut Vec<u8>, groups: &[List<u32>]) -> Result<(), Memory>
    ensures ok { OnOk result (text.new.items ≡ text.old.items ++ groups_text groups.now) }
    ensures fits { OnOk result (GroupsFit groups.now) }
{
    match groups.split_first() {
        None => put_bytes(text, b"none"),
        Some((first, rest)) => {
            put_group(text, first.as_slice())?;
            for group in rest {
                put_bytes(text, b";")?;
                put_group(text, group.as_slice())?;
            }
            Ok(())
        }
    }
}

/// Appends the mark of a queue, and ends its line.
pub(crate) fn put_mark(text: &mut Vec<u8>, forward: bool) -> Result<(), Memory>
    ensures ok { OnOk result
        (text.new.items ≡ text.old.items ++ 32 ∷ (mark_text forward ++ 10 ∷ [])) }
{
    if forward {
        put_bytes(text, b" forward\n")
    } else {
        put_bytes(text, b" plain\n")
    }
}
