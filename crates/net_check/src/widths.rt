ghost use Rattle.std.specs.Prelude.{◌≡◌, Bool, false, true, [], ◌∷◌};
ghost use Rattle.net_types.specs.Tables.{spot, spots, ins, outs, result_in, array_width, scalar_width};
ghost use Rattle.net_types.specs.Nets.{kind_of};
ghost use Rattle.net_types.specs.declared.net.Net.{Net};
ghost use Rattle.net_types.specs.declared.net.Unit.TheVariants.{Fork};
ghost use Rattle.net_check.specs.private.Queues.{queue_ins, queue_outs};
ghost use Rattle.net_check.specs.private.Widths.{width_in};

use net_types::{Array, Net, Place, Port, Scalar, Ty, Unit};

/// The width of an input place; `None` where the place does not exist, but 0 at place 0 of a unit past the last.
pub(crate) fn in_width_at(net: &Net, place: Place) -> Option<u32>
    ensures { result ≡ width_in (ins net.now false (kind_of net.now place.unit)) place.place }
{
    in_width_of(net, place.unit, place.place as u64)
}

/// The width of an output place; `None` where the place does not exist.
pub(crate) fn out_width_at(net: &Net, place: Place) -> Option<u32>
    ensures { result ≡ width_in (outs net.now false (kind_of net.now place.unit)) place.place }
{
    out_width_of(net, place.unit, place.place as u64)
}

/// As [`in_width_at`], of a place with any number.
pub(crate) fn in_width_of(net: &Net, unit: u32, place: u64) -> Option<u32>
    ensures { result ≡ width_in (ins net.now false (kind_of net.now unit)) place }
{
    match net.units.as_slice().get(unit as usize) {
        Some(unit) => in_width(net, unit, place),
        None => one(place, 0),
    }
}

/// As [`out_width_at`], of a place with any number.
pub(crate) fn out_width_of(net: &Net, unit: u32, place: u64) -> Option<u32>
    ensures { result ≡ width_in (outs net.now false (kind_of net.now unit)) place }
{
    match net.units.as_slice().get(unit as usize) {
        Some(unit) => out_width(net, unit, place),
        None => None,
    }
}

/// The width of an input place of a unit; `None` where the unit has no such input.
fn in_width(net: &Net, unit: &Unit, place: u64) -> Option<u32>
    ensures { result ≡ width_in (ins net.now false unit.now) place }
{
    match unit {
        Unit::Entry => None,
        Unit::Param(_) => None,
        Unit::Const { .. } => one(place, 32),
        Unit::Op1(op) => one(place, op.operand_width()),
        Unit::Op2(op) => two(place, op.operand_width(), op.operand_width()),
        Unit::Select { width } => three(place, 32, *width, *width),
        Unit::Fork { width, .. } => one(place, *width),
        Unit::Mux { width, ins } => selected(place, *width, *ins),
        Unit::Cmerge { ins } => run(place, 0, *ins as u64, 32),
        Unit::Branch { width } => two(place, 32, *width),
        Unit::Sink { width } => one(place, *width),
        Unit::Read(_) => one(place, 64),
        Unit::Lsq {
            array,
            ports,
            groups,
            ..
        } => queue_in(
            place,
            groups.as_slice().len(),
            element_width(net.arrays.as_slice(), *array),
            ports.as_slice(),
        ),
        Unit::Exit => exit_in(place, net.result),
    }
}

/// The width of an output place of a unit; `None` where the unit has no such output.
fn out_width(net: &Net, unit: &Unit, place: u64) -> Option<u32>
    ensures { result ≡ width_in (outs net.now false unit.now) place }
{
    match unit {
        Unit::Entry => one(place, 32),
        Unit::Param(scalar) => one(place, scalar_width(net.scalars.as_slice(), *scalar)),
        Unit::Const { width, .. } => one(place, *width),
        Unit::Op1(op) => one(place, op.result_width()),
        Unit::Op2(op) => one(place, op.result_width()),
        Unit::Select { width } => one(place, *width),
        Unit::Fork { width, outs } => fork_out(place, *width, *outs),
        Unit::Mux { width, .. } => one(place, *width),
        Unit::Cmerge { .. } => one(place, 32),
        Unit::Branch { width } => two(place, *width, *width),
        Unit::Sink { .. } => None,
        Unit::Read(array) => one(place, element_width(net.arrays.as_slice(), *array)),
        Unit::Lsq {
            array,
            ports,
            groups,
            ..
        } => queue_out(
            place,
            groups.as_slice().len(),
            element_width(net.arrays.as_slice(), *array),
            ports.as_slice(),
        ),
        Unit::Exit => None,
    }
}

/// Of a unit with one place on this side.
fn one(place: u64, width: u32) -> Option<u32>
    ensures { result ≡ width_in (spot 0 width false ∷ []) place }
{
    if place == 0 { Some(width) } else { None }
}

fn two(place: u64, first: u32, second: u32) -> Option<u32>
    ensures { result ≡ width_in (spot 0 first false ∷ spot 1 second false ∷ []) place }
{
    match place {
        0 => Some(first),
        1 => Some(second),
        _ => None,
    }
}

fn three(place: u64, first: u32, second: u32, third: u32) -> Option<u32>
    ensures { result
        ≡ width_in (spot 0 first false ∷ spot 1 second false ∷ spot 2 third false ∷ []) place }
{
    match place {
        0 => Some(first),
        1 => Some(second),
        2 => Some(third),
        _ => None,
    }
}

/// Of places of one width, of a number and from a number on.
fn run(place: u64, first: u64, count: u64, width: u32) -> Option<u32>
    ensures { (c : Bool) → result ≡ width_in (spots first width c count) place }
{
    if place < first {
        return None;
    }
    if place - first < count {
        return Some(width);
    }
    None
}

/// Of a mux: its condition, and its data inputs.
fn selected(place: u64, width: u32, ins: u32) -> Option<u32>
    ensures { result ≡ width_in (spot 0 32 false ∷ spots 1 width false ins) place }
{
    if place == 0 {
        Some(32)
    } else {
        run(place, 1, ins as u64, width)
    }
}

/// Of a fork: all outputs have its width.
fn fork_out(place: u64, width: u32, count: u32) -> Option<u32>
    ensures { (net : Net) → result ≡ width_in (outs net false (Fork width count)) place }
{
    if place < count as u64 {
        return Some(width);
    }
    None
}

fn exit_in(place: u64, value: Option<Ty>) -> Option<u32>
    ensures { result ≡ width_in (spot 0 32 true ∷ result_in value) place }
{
    match place {
        0 => Some(32),
        1 => Some(value?.width()),
        _ => None,
    }
}

/// The width of an array's elements; 0 where the header has no such array.
fn element_width(arrays: &[Array], array: u32) -> u32
    ensures { result ≡ array_width arrays.now array }
{
    match arrays.get(array as usize) {
        None => 0,
        Some(array) => array.ty.width(),
    }
}

/// The width of a scalar; 0 where the header has no such scalar.
fn scalar_width(scalars: &[Scalar], scalar: u32) -> u32
    ensures { result ≡ scalar_width scalars.now scalar }
{
    match scalars.get(scalar as usize) {
        None => 0,
        Some(scalar) => scalar.ty.width(),
    }
}

/// Of a queue: the controls of its groups and its end, then for each port an address, and data where it stores.
fn queue_in(place: u64, groups: usize, width: u32, ports: &[Port]) -> Option<u32>
    ensures { result ≡ width_in (queue_ins groups width ports.now) place }
{
    let place = place as usize;
    if place <= groups {
        return Some(32);
    }
    let at = place - groups - 1;
    let port = ports.get(at / 2)?;
    if at % 2 == 0 {
        return Some(64);
    }
    match port {
        Port::Load => None,
        Port::Store => Some(width),
    }
}

/// Of a queue: the controls of its groups and its end, then the value of each port that loads.
fn queue_out(place: u64, groups: usize, width: u32, ports: &[Port]) -> Option<u32>
    ensures { result ≡ width_in (queue_outs groups width ports.now) place }
{
    let place = place as usize;
    if place <= groups {
        return Some(32);
    }
    match ports.get(place - groups - 1)? {
        Port::Load => Some(width),
        Port::Store => None,
    }
}
