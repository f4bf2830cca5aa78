ghost use Rattle.std.specs.Prelude.{◌≡◌, ◌≢◌, ◌==◌, ◌∷◌, ◌++◌, ◌<◌, true, decimal, map, IfOk, MatchOption, List, ℕ};
ghost use Rattle.std.specs.List.{slice_split};
ghost use Rattle.el_base.specs.Limits.{IsNumbered};
ghost use Rattle.net_text.specs.Fits.{FitsU64, PlaceFits, GroupFits, GroupsFit, Always};
ghost use Rattle.net_text.specs.Pieces.{place_text, port_letter, ports_text, group_text, groups_text, mark_text};
ghost use Rattle.net_text.specs.Reads.{Named, Every, Reads, PairFits, pair_text, lacks, starts_plain};

use net_types::{List, Memory, Place, Port};
use std::alloc::Global;

/// The parts of bytes between the places of a separator.
pub fn parts(alloc: Global, bytes: &[u8], separator: u8) -> Result<Vec<&[u8]>, Memory>
    ensures { IfOk result
        (λ v. map (λ part. part.now) v.items ≡ slice_split (λ b. b == separator) bytes.now) }
{
    Ok(bytes.split(|b| *b == separator).collect(alloc)?)
}

/// The number that bytes write, where it is below 2^64.
pub fn read_u64(bytes: &[u8]) -> Option<u64>
    ensures named { Named FitsU64 decimal bytes.now result }
    ensures every { Every FitsU64 decimal bytes.now result }
{
    if !starts_plain(bytes) {
        return None;
    }
    match str::from_utf8(bytes) {
        Ok(text) => text.parse().ok(),
        Err(_) => None,
    }
}

fn starts_plain(bytes: &[u8]) -> bool
    ensures { result ≡ starts_plain bytes.now }
{
    bytes.first() != Some(&b'+') && !(bytes.first() == Some(&b'0') && bytes.len() > 1)
}

/// The number that bytes write, where it is below 2^32.
pub(crate) fn read_u32(bytes: &[u8]) -> Option<u32>
    ensures named { Named IsNumbered decimal bytes.now result }
    ensures every { Every IsNumbered decimal bytes.now result }
{
    match read_u64(bytes) {
        Some(number) => u32::try_from(number).ok(),
        None => None,
    }
}

/// What stands before the first separator, and what stands after it.
pub fn cut(bytes: &[u8], separator: u8) -> Option<(&[u8], &[u8])>
    ensures { MatchOption result (lacks separator bytes.now ≡ true)
        (λ p. (bytes.now ≡ p.0.now ++ separator ∷ p.1.now) × (lacks separator p.0.now ≡ true)) }
{
    for (i, byte) in bytes.iter().enumerate() {
        if *byte == separator {
            return Some((&bytes[..i], &bytes[i + 1..]));
        }
    }
    None
}

/// What stands after a word.
pub fn after<'a>(text: &'a [u8], word: &[u8]) -> Option<&'a [u8]>
    ensures { MatchOption result ((rest : List ℕ) → text.now ≢ word.now ++ rest)
        (λ rest. text.now ≡ word.now ++ rest.now) }
{
    text.strip_prefix(word)
}

/// Two numbers with a separator between them.
pub(crate) fn read_two(bytes: &[u8], separator: u8) -> Option<(u32, u32)>
    requires { separator < 48 }
    ensures { Reads PairFits (pair_text separator) bytes.now result }
{
    let (first, second) = cut(bytes, separator)?;
    Some((read_u32(first)?, read_u32(second)?))
}

/// A number after a word.
pub(crate) fn number_after(text: &[u8], word: &[u8]) -> Option<u32>
    ensures { Reads IsNumbered (λ n. word.now ++ decimal n) text.now result }
{
    match after(text, word) {
        Some(number) => read_u32(number),
        None => None,
    }
}

/// Two numbers after a word.
pub(crate) fn pair_after(text: &[u8], word: &[u8]) -> Option<(u32, u32)>
    ensures { Reads PairFits (λ p. word.now ++ pair_text 32 p) text.now result }
{
    match after(text, word) {
        Some(pair) => read_two(pair, b' '),
        None => None,
    }
}

/// The place that bytes write.
pub(crate) fn read_place(bytes: &[u8]) -> Option<Place>
    ensures { Reads PlaceFits place_text bytes.now result }
{
    match read_two(bytes, b'.') {
        Some((unit, place)) => Some(Place { unit, place }),
        None => None,
    }
}

/// The ports whose letters bytes are.
pub(crate) fn read_ports(alloc: Global, bytes: &[u8]) -> Result<Option<List<Port>>, Memory>
    ensures { IfOk result (λ o. Reads Always ports_text bytes.now o) }
{
    if bytes == b"-".as_slice() {
        return Ok(Some(List::new(alloc)));
    }
    if bytes.is_empty() {
        return Ok(None);
    }
    read_letters(alloc, bytes)
}

fn read_letters(alloc: Global, bytes: &[u8]) -> Result<Option<List<Port>>, Memory>
    ensures { IfOk result (λ o. Reads Always (map port_letter) bytes.now o) }
{
    let mut ports = List::new(alloc);
    for byte in bytes {
        match read_letter(*byte) {
            Some(port) => ports.push(port)?,
            None => return Ok(None),
        }
    }
    Ok(Some(ports))
}

fn read_letter(byte: u8) -> Option<Port>
    ensures { Reads Always port_letter byte result }
{
    match byte {
        b'l' => Some(Port::Load),
        b's' => Some(Port::Store),
        _ => None,
    }
}

/// The group of ports that bytes write.
pub(crate) fn read_group(alloc: Global, bytes: &[u8]) -> Result<Option<List<u32>>, Memory>
    ensures { IfOk result (λ o. Reads GroupFits group_text bytes.now o) }
{
    if bytes == b"-".as_slice() {
        return Ok(Some(List::new(alloc)));
    }
    let parts = parts(alloc, bytes, b',')?;
    read_numbers(alloc, parts.as_slice())
}

fn read_numbers(alloc: Global, parts: &[&[u8]]) -> Result<Option<List<u32>>, Memory>
    ensures { IfOk result
        (λ o. Reads GroupFits (map decimal) (map (λ part. part.now) parts.now) o) }
{
    let mut numbers = List::new(alloc);
    for part in parts {
        match read_u32(part) {
            Some(number) => numbers.push(number)?,
            None => return Ok(None),
        }
    }
    Ok(Some(numbers))
}

/// The groups of ports that bytes write.
pub(crate) fn read_groups(alloc: Global, bytes: &[u8]) -> Result<Option<List<List<u32>>>, Memory>
    ensures { IfOk result (λ o. Reads GroupsFit groups_text bytes.now o) }
{
    if bytes == b"none".as_slice() {
        return Ok(Some(List::new(alloc)));
    }
    let parts = parts(alloc, bytes, b';')?;
    read_group_list(alloc, parts.as_slice())
}

fn read_group_list(alloc: Global, parts: &[&[u8]]) -> Result<Option<List<List<u32>>>, Memory>
    ensures { IfOk result
        (λ o. Reads GroupsFit (map group_text) (map (λ part. part.now) parts.now) o) }
{
    let mut groups = List::new(alloc);
    for part in parts {
        match read_group(alloc, part)? {
            Some(group) => groups.push(group)?,
            None => return Ok(None),
        }
    }
    Ok(Some(groups))
}

/// The mark that bytes write.
pub(crate) fn read_mark(bytes: &[u8]) -> Option<bool>
    ensures { Reads Always mark_text bytes.now result }
{
    if bytes == b"plain".as_slice() {
        return Some(false);
    }
    if bytes == b"forward".as_slice() {
        return Some(true);
    }
    None
}
