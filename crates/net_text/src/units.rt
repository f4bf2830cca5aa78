ghost use Rattle.std.specs.Prelude.{◌≡◌, ◌++◌, ◌∷◌, [], OnOk, decimal};
ghost use Rattle.net_text.specs.Fits.{UnitFits, QueueFits};
ghost use Rattle.net_text.specs.Pieces.{line};
ghost use Rattle.net_text.specs.declared.version.Version.TheVariants.{Two};
ghost use Rattle.net_text.specs.Texts.{unit_parts};
ghost use Rattle.net_types.specs.declared.net.Unit.TheVariants as unit;

use crate::pieces::{
    put_bytes, put_groups, put_line, put_mark, put_numbers, put_ports, put_word_line,
};
use net_types::{List, Memory, Port, Unit};

/// Appends the line of a unit.
pub(crate) fn put_unit(text: &mut Vec<u8>, unit: &Unit) -> Result<(), Memory>
    ensures ok { OnOk result (text.new.items ≡ text.old.items ++ line (unit_parts Two unit.now)) }
    ensures fits { OnOk result (UnitFits unit.now) }
{
    match unit {
        Unit::Entry => put_line(text, b"unit entry", &[]),
        Unit::Param(scalar) => put_one(text, b"unit param", *scalar),
        Unit::Const { width, value } => {
            put_line(text, b"unit const", &[u64::from(*width), *value])
        }
        Unit::Op1(op) => put_word_line(text, b"unit op1", op.name().as_bytes()),
        Unit::Op2(op) => put_word_line(text, b"unit op2", op.name().as_bytes()),
        Unit::Select { width } => put_one(text, b"unit select", *width),
        Unit::Fork { width, outs } => put_pair(text, b"unit fork", *width, *outs),
        Unit::Mux { width, ins } => put_pair(text, b"unit mux", *width, *ins),
        Unit::Cmerge { ins } => put_one(text, b"unit cmerge", *ins),
        Unit::Branch { width } => put_one(text, b"unit branch", *width),
        Unit::Sink { width } => put_one(text, b"unit sink", *width),
        Unit::Read(array) => put_one(text, b"unit read", *array),
        Unit::Lsq {
            array,
            depth,
            ports,
            groups,
            forward,
        } => put_queue(
            text,
            *array,
            *depth,
            ports.as_slice(),
            groups.as_slice(),
            *forward,
        ),
        Unit::Exit => put_line(text, b"unit exit", &[]),
    }
}

/// Appends a line of words and a number.
fn put_one(text: &mut Vec<u8>, words: &[u8], number: u32) -> Result<(), Memory>
    ensures ok { OnOk result
        (text.new.items ≡ text.old.items ++ line (words.now ∷ decimal number ∷ [])) }
{
    put_line(text, words, &[u64::from(number)])
}

/// Appends a line of words and two numbers.
fn put_pair(text: &mut Vec<u8>, words: &[u8], first: u32, second: u32) -> Result<(), Memory>
    ensures ok { OnOk result (text.new.items
        ≡ text.old.items ++ line (words.now ∷ decimal first ∷ decimal second ∷ [])) }
{
    put_line(text, words, &[u64::from(first), u64::from(second)])
}

fn put_queue(
    text: &mut Vec<u8>,
    array: u32,
    depth: u32,
    ports: &[Port],
    groups: &[List<u32>],
    forward: bool,
) -> Result<(), Memory>
    ensures ok { let queue = unit.Lsq array depth ports.now groups.now forward in
        OnOk result (text.new.items ≡ text.old.items ++ line (unit_parts Two queue)) }
    ensures fits { OnOk result (QueueFits array depth groups.now) }
{
    put_bytes(text, b"unit lsq")?;
    put_numbers(text, &[u64::from(array), u64::from(depth)])?;
    put_bytes(text, b" ")?;
    put_ports(text, ports)?;
    put_bytes(text, b" ")?;
    put_groups(text, groups)?;
    put_mark(text, forward)
}
