ghost use Rattle.std.specs.Prelude.{◌≡◌, ◌++◌, ◌∷◌, [], OnOk, IfOk, map};
ghost use Rattle.std.specs.List.{All, flat_map};
ghost use Rattle.net_text.specs.Pieces.{line, control_parts};
ghost use Rattle.net_text.specs.Fits.{NetFits, HeaderFits, ScalarFits, ArrayFits, UnitFits, ChanFits};
ghost use Rattle.net_text.specs.Refusals.{ReadsBack};
ghost use Rattle.net_text.specs.declared.version.Version.TheVariants.{Two};
ghost use Rattle.net_text.specs.Texts.{NetText, scalar_parts, array_parts, result_parts, unit_parts, chan_parts, header_lines};

use crate::pieces::{put_bytes, put_line, put_numbers, put_place, put_word_line};
use crate::units::put_unit;
use el_base::Decimal;
use net_types::{Array, Chan, Memory, Net, Scalar, Ty, Unit};
use std::alloc::Global;

/// The text of a net, in version 2.
///
/// One net has one such text, and [`read`](crate::read) gives the net back from it.
///
/// # Errors
///
/// [`Memory`] where memory is wanting.
pub fn print(alloc: Global, net: &Net) -> Result<Vec<u8>, Memory>
    ensures text { IfOk result (λ text. NetText net.now text.items) }
    ensures fits { IfOk result (λ text. NetFits net.now) }
    ensures reads_back { IfOk result (λ text. ReadsBack text.items net.now) }
{
    let mut text = Vec::new(alloc);
    put_header(&mut text, net)?;
    put_units(&mut text, net.units.as_slice())?;
    put_chans(&mut text, net.chans.as_slice())?;
    put_line(&mut text, b"end", &[])?;
    Ok(text)
}

fn put_header(text: &mut Vec<u8>, net: &Net) -> Result<(), Memory>
    ensures ok { OnOk result
        (text.new.items ≡ text.old.items ++ flat_map line (header_lines Two net.now)) }
    ensures fits { OnOk result (HeaderFits net.now) }
{
    put_line(text, b"elastic", &[2])?;
    put_word_line(text, b"kernel", net.name.as_slice())?;
    put_scalars(text, net.scalars.as_slice())?;
    put_arrays(text, net.arrays.as_slice())?;
    put_result(text, net.result)
}

fn put_scalars(text: &mut Vec<u8>, scalars: &[Scalar]) -> Result<(), Memory>
    ensures ok { OnOk result
        (text.new.items ≡ text.old.items ++ flat_map line (map scalar_parts scalars.now)) }
    ensures fits { OnOk result (All ScalarFits scalars.now) }
{
    for scalar in scalars {
        put_scalar(text, scalar)?;
    }
    Ok(())
}

fn put_scalar(text: &mut Vec<u8>, scalar: &Scalar) -> Result<(), Memory>
    ensures ok { OnOk result (text.new.items ≡ text.old.items ++ line (scalar_parts scalar.now)) }
    ensures fits { OnOk result (ScalarFits scalar.now) }
{
    put_bytes(text, b"scalar ")?;
    put_word_line(text, scalar.name.as_slice(), scalar.ty.name().as_bytes())
}

fn put_arrays(text: &mut Vec<u8>, arrays: &[Array]) -> Result<(), Memory>
    ensures ok { OnOk result
        (text.new.items ≡ text.old.items ++ flat_map line (map array_parts arrays.now)) }
    ensures fits { OnOk result (All ArrayFits arrays.now) }
{
    for array in arrays {
        put_array(text, array)?;
    }
    Ok(())
}

fn put_array(text: &mut Vec<u8>, array: &Array) -> Result<(), Memory>
    ensures ok { OnOk result (text.new.items ≡ text.old.items ++ line (array_parts array.now)) }
    ensures fits { OnOk result (ArrayFits array.now) }
{
    put_bytes(text, b"array ")?;
    put_bytes(text, array.name.as_slice())?;
    put_bytes(text, b" ")?;
    let len = Decimal::of_u64(array.len);
    put_word_line(text, array.ty.name().as_bytes(), len.as_slice())
}

fn put_result(text: &mut Vec<u8>, ty: Option<Ty>) -> Result<(), Memory>
    ensures ok { OnOk result (text.new.items ≡ text.old.items ++ line (result_parts ty)) }
{
    match ty {
        None => put_line(text, b"result none", &[]),
        Some(ty) => put_word_line(text, b"result", ty.name().as_bytes()),
    }
}

fn put_units(text: &mut Vec<u8>, units: &[Unit]) -> Result<(), Memory>
    ensures ok { OnOk result
        (text.new.items ≡ text.old.items ++ flat_map line (map (unit_parts Two) units.now)) }
    ensures fits { OnOk result (All UnitFits units.now) }
{
    for unit in units {
        put_unit(text, unit)?;
    }
    Ok(())
}

fn put_chans(text: &mut Vec<u8>, chans: &[Chan]) -> Result<(), Memory>
    ensures ok { OnOk result
        (text.new.items ≡ text.old.items ++ flat_map line (map chan_parts chans.now)) }
    ensures fits { OnOk result (All ChanFits chans.now) }
{
    for chan in chans {
        put_chan(text, *chan)?;
    }
    Ok(())
}

fn put_chan(text: &mut Vec<u8>, chan: Chan) -> Result<(), Memory>
    ensures ok { OnOk result (text.new.items ≡ text.old.items ++ line (chan_parts chan)) }
    ensures fits { OnOk result (ChanFits chan) }
{
    put_bytes(text, b"chan ")?;
    put_place(text, chan.from)?;
    put_bytes(text, b" ")?;
    put_place(text, chan.to)?;
    let width = u64::from(chan.width);
    let slots = u64::from(chan.slots);
    let delay = u64::from(chan.delay);
    put_numbers(text, &[width, slots, delay])?;
    put_control(text, chan.ctl)
}

fn put_control(text: &mut Vec<u8>, control: bool) -> Result<(), Memory>
    ensures ok { OnOk result (text.new.items ≡ text.old.items
        ++ (flat_map (λ part. 32 ∷ part) (control_parts control) ++ 10 ∷ [])) }
{
    if control {
        put_bytes(text, b" control\n")
    } else {
        put_bytes(text, b"\n")
    }
}
