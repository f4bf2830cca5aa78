ghost use Rattle.std.specs.Prelude.{◌≡◌, ◌++◌, [], ◌∷◌, ℕ, length, get_or, codes, decimal, map, true, false, OnOk, IfOk};
ghost use Rattle.std.specs.List.{AllZip};
ghost use Rattle.el_base.specs.declared.ty.Scalar.{Scalar as Scalars};
ghost use Rattle.net_types.specs.declared.net.Unit.TheVariants.{Sink};
ghost use Rattle.net_types.specs.Inputs.{IsPatternOf, AreElementsOf};
ghost use Rattle.net_check.specs.Ends.{is_lsq};
ghost use Rattle.net_text.specs.Bodies.{text_of};
ghost use Rattle.net_text.specs.Pieces.{line};
ghost use Rattle.inputs_text.specs.Results.{written};
ghost use Rattle.snapshot.specs.Refusals.{MaySave};
ghost use Rattle.snapshot.specs.Texts.{StateText, each, scalar_lines, flag_lines, fired_lines, value_lines, list_lines, chan_lines, fork_lines, maybe, digit, entry_line, part_lines, queue_lines, array_lines, stray_lines};

use crate::saved::Saved;
use el_base::{Array, List, Memory, Scalar, put_u64};
use inputs_text::put_numbers_line;
use lsq_core::{Entry, QueuePart};
use net_check::Checked;
use net_text::{put_bytes, put_line, put_numbers};
use net_types::Unit;
use std::alloc::Global;

/// The text of a state that may be saved.
///
/// # Errors
///
/// [`Memory`] where memory is wanting.
pub fn print_snapshot(alloc: Global, net: &Checked, saved: &Saved) -> Result<Vec<u8>, Memory>
    requires { MaySave net.now saved.now }
    ensures { IfOk result (λ text. StateText net.now saved.now.made saved.now.parts text.items) }
{
    let net = net.net();
    let parts = &saved.parts;
    let mut text = Vec::new(alloc);
    put_line(&mut text, b"elastic state 1", &[])?;
    put_line(&mut text, b"made", &[saved.made])?;
    put_scalars(
        &mut text,
        net.scalars.as_slice(),
        parts.given.scalars.as_slice(),
    )?;
    put_fired(&mut text, parts.fired.as_slice())?;
    put_value(&mut text, parts.value)?;
    put_chans(&mut text, parts.tokens.as_slice())?;
    put_forks(&mut text, parts.sent.as_slice())?;
    put_queues(&mut text, net.units.as_slice(), parts.queues.as_slice())?;
    let arrays = net.arrays.as_slice();
    put_arrays(&mut text, arrays, parts.given.arrays.as_slice())?;
    put_strays(&mut text, arrays, parts.strays.as_slice())?;
    put_line(&mut text, b"end", &[])?;
    Ok(text)
}

fn put_scalars(text: &mut Vec<u8>, scalars: &[Scalar], patterns: &[u64]) -> Result<(), Memory>
    requires { AllZip (λ (s : Scalars) n. IsPatternOf s.ty n) scalars.now patterns.now }
    ensures { OnOk result (text.new.items ≡ text.old.items
        ++ text_of (each (scalar_lines scalars.now patterns.now) 0 (length scalars.now))) }
{
    for (j, scalar) in scalars.iter().enumerate() {
        put_scalar(text, scalar, patterns[j])?;
    }
    Ok(())
}

fn put_scalar(text: &mut Vec<u8>, scalar: &Scalar, pattern: u64) -> Result<(), Memory>
    ensures { OnOk result (text.new.items ≡ text.old.items ++ line (codes "scalar"
        ∷ scalar.now.name ∷ codes "=" ∷ written scalar.now.ty pattern ∷ [])) }
{
    put_bytes(text, b"scalar ")?;
    put_numbers_line(text, scalar.name.as_slice(), scalar.ty, &[pattern])
}

fn put_fired(text: &mut Vec<u8>, fired: &[bool]) -> Result<(), Memory>
    ensures { OnOk result (text.new.items
        ≡ text.old.items ++ text_of (each (fired_lines fired.now) 0 (length fired.now))) }
{
    for (u, flag) in fired.iter().enumerate() {
        put_flag(text, u as u64, *flag)?;
    }
    Ok(())
}

fn put_flag(text: &mut Vec<u8>, unit: u64, flag: bool) -> Result<(), Memory>
    ensures { OnOk result (text.new.items
        ≡ text.old.items ++ text_of (flag_lines unit flag)) }
{
    if flag {
        put_line(text, b"fired", &[unit])?;
    }
    Ok(())
}

fn put_value(text: &mut Vec<u8>, value: Option<u64>) -> Result<(), Memory>
    ensures { OnOk result (text.new.items ≡ text.old.items ++ text_of (value_lines value)) }
{
    match value {
        Some(value) => put_line(text, b"value", &[value]),
        None => Ok(()),
    }
}

fn put_chans(text: &mut Vec<u8>, tokens: &[List<u64>]) -> Result<(), Memory>
    ensures { OnOk result (text.new.items
        ≡ text.old.items ++ text_of (each (chan_lines tokens.now) 0 (length tokens.now))) }
{
    for (chan, list) in tokens.iter().enumerate() {
        put_tokens(text, chan as u64, list.as_slice())?;
    }
    Ok(())
}

fn put_tokens(text: &mut Vec<u8>, chan: u64, tokens: &[u64]) -> Result<(), Memory>
    ensures { OnOk result (text.new.items
        ≡ text.old.items ++ text_of (list_lines (codes "chan") chan tokens.now)) }
{
    if tokens.is_empty() {
        return Ok(());
    }
    put_bytes(text, b"chan ")?;
    put_u64(text, chan)?;
    for token in tokens {
        put_bytes(text, b" ")?;
        put_u64(text, *token)?;
    }
    put_bytes(text, b"\n")?;
    Ok(())
}

fn put_forks(text: &mut Vec<u8>, sent: &[List<u32>]) -> Result<(), Memory>
    ensures { OnOk result (text.new.items
        ≡ text.old.items ++ text_of (each (fork_lines sent.now) 0 (length sent.now))) }
{
    for (u, list) in sent.iter().enumerate() {
        put_sent(text, u as u64, list.as_slice())?;
    }
    Ok(())
}

fn put_sent(text: &mut Vec<u8>, unit: u64, sent: &[u32]) -> Result<(), Memory>
    ensures { OnOk result (text.new.items
        ≡ text.old.items ++ text_of (list_lines (codes "fork") unit sent.now)) }
{
    if sent.is_empty() {
        return Ok(());
    }
    put_bytes(text, b"fork ")?;
    put_u64(text, unit)?;
    for out in sent {
        put_bytes(text, b" ")?;
        put_u64(text, u64::from(*out))?;
    }
    put_bytes(text, b"\n")?;
    Ok(())
}

fn put_queues(text: &mut Vec<u8>, units: &[Unit], queues: &[QueuePart]) -> Result<(), Memory>
    requires { length queues.now ≡ length units.now }
    ensures { OnOk result (text.new.items ≡ text.old.items ++ text_of
        (each (queue_lines (λ u. get_or units.now u (Sink 0)) queues.now) 0 (length units.now))) }
{
    for (u, unit) in units.iter().enumerate() {
        put_part(text, u as u64, unit, &queues[u])?;
    }
    Ok(())
}

fn put_part(text: &mut Vec<u8>, number: u64, unit: &Unit, queue: &QueuePart) -> Result<(), Memory>
    ensures { OnOk result (text.new.items
        ≡ text.old.items ++ text_of (part_lines (is_lsq unit.now) number queue.now)) }
{
    if is_queue(unit) {
        put_queue(text, number, queue)?;
    }
    Ok(())
}

/// Whether a unit is a queue.
pub(crate) fn is_queue(unit: &Unit) -> bool
    ensures { result ≡ is_lsq unit.now }
{
    match unit {
        Unit::Lsq { .. } => true,
        Unit::Entry
        | Unit::Param(_)
        | Unit::Const { .. }
        | Unit::Op1(_)
        | Unit::Op2(_)
        | Unit::Select { .. }
        | Unit::Fork { .. }
        | Unit::Mux { .. }
        | Unit::Cmerge { .. }
        | Unit::Branch { .. }
        | Unit::Sink { .. }
        | Unit::Read(_)
        | Unit::Exit => false,
    }
}

fn put_queue(text: &mut Vec<u8>, unit: u64, queue: &QueuePart) -> Result<(), Memory>
    ensures { OnOk result (text.new.items
        ≡ text.old.items ++ text_of (part_lines true unit queue.now)) }
{
    put_line(text, b"queue", &[unit, queue.next])?;
    for entry in queue.entries.as_slice() {
        put_entry(text, entry)?;
    }
    Ok(())
}

fn put_entry(text: &mut Vec<u8>, entry: &Entry) -> Result<(), Memory>
    ensures { OnOk result
        (text.new.items ≡ text.old.items ++ (entry_line entry.now ++ 10 ∷ [])) }
{
    put_bytes(text, b"entry")?;
    put_numbers(text, &[entry.serial, u64::from(entry.port)])?;
    put_maybe(text, entry.addr)?;
    put_maybe(text, entry.datum)?;
    put_digit(text, entry.done)?;
    put_numbers(text, &[entry.value])?;
    put_digit(text, entry.replied)?;
    put_bytes(text, b"\n")
}

/// Appends a number, or the sign for none, after a space.
fn put_maybe(text: &mut Vec<u8>, number: Option<u64>) -> Result<(), Memory>
    ensures { OnOk result (text.new.items ≡ text.old.items ++ 32 ∷ maybe number) }
{
    match number {
        Some(number) => put_numbers(text, &[number]),
        None => put_bytes(text, b" -"),
    }
}

/// Appends a flag after a space.
fn put_digit(text: &mut Vec<u8>, flag: bool) -> Result<(), Memory>
    ensures { OnOk result (text.new.items ≡ text.old.items ++ 32 ∷ digit flag) }
{
    if flag {
        put_bytes(text, b" 1")
    } else {
        put_bytes(text, b" 0")
    }
}

fn put_arrays(text: &mut Vec<u8>, arrays: &[Array], elements: &[List<u64>]) -> Result<(), Memory>
    requires { AllZip AreElementsOf arrays.now elements.now }
    ensures { OnOk result (text.new.items ≡ text.old.items
        ++ text_of (each (array_lines arrays.now elements.now) 0 (length arrays.now))) }
{
    for (a, array) in arrays.iter().enumerate() {
        put_array(text, array, elements[a].as_slice())?;
    }
    Ok(())
}

fn put_array(text: &mut Vec<u8>, array: &Array, elements: &[u64]) -> Result<(), Memory>
    ensures { OnOk result (text.new.items ≡ text.old.items ++ line (codes "array"
        ∷ array.now.name ∷ codes "=" ∷ map (written array.now.ty) elements.now)) }
{
    put_bytes(text, b"array ")?;
    put_numbers_line(text, array.name.as_slice(), array.ty, elements)
}

fn put_strays(text: &mut Vec<u8>, arrays: &[Array], strays: &[u64]) -> Result<(), Memory>
    requires { length strays.now ≡ length arrays.now }
    ensures { OnOk result (text.new.items ≡ text.old.items
        ++ text_of (each (stray_lines arrays.now strays.now) 0 (length arrays.now))) }
{
    for (a, array) in arrays.iter().enumerate() {
        put_stray(text, array.name.as_slice(), strays[a])?;
    }
    Ok(())
}

fn put_stray(text: &mut Vec<u8>, name: &[u8], count: u64) -> Result<(), Memory>
    ensures { OnOk result (text.new.items
        ≡ text.old.items ++ line (codes "stray" ∷ name.now ∷ decimal count ∷ [])) }
{
    put_bytes(text, b"stray ")?;
    put_bytes(text, name)?;
    put_bytes(text, b" ")?;
    put_u64(text, count)?;
    put_bytes(text, b"\n")
}
