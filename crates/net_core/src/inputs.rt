//! Whether inputs fit a net.

ghost use Rattle.std.specs.Prelude.{◌≡◌, ◌↔◌, ◌^◌, nat_lt, IsTrue};
ghost use Rattle.std.specs.List.{All, AllZip};
ghost use Rattle.el_base.specs.declared.ty.Scalar.{Scalar as ScalarValue};
ghost use Rattle.el_base.specs.Widths.{ty_width};
ghost use Rattle.net_types.specs.Inputs.{AreElementsOf, InputsFit, IsPatternOf};

use net_check::Checked;
use net_types::{Array, Inputs, List, Scalar, Ty};

/// Whether the inputs are those of a net: one pattern for each scalar of the header, and the elements of each array.
///
/// It costs one step for each number.
pub fn inputs_fit(net: &Checked, inputs: &Inputs) -> bool
    ensures { IsTrue result ↔ InputsFit net.now inputs.now }
{
    let header = net.net();
    let scalars = scalars_fit(header.scalars.as_slice(), inputs.scalars.as_slice());
    let arrays = arrays_fit(header.arrays.as_slice(), inputs.arrays.as_slice());
    scalars && arrays
}

/// Whether a number is a pattern of a type.
fn is_pattern(ty: Ty, value: u64) -> bool
    ensures { result ≡ nat_lt value (2 ^ ty_width ty) }
{
    match ty {
        Ty::I8 | Ty::U8 => value < 0x100,
        Ty::I16 | Ty::U16 => value < 0x1_0000,
        Ty::I32 | Ty::U32 => value < 0x1_0000_0000,
        Ty::I64 | Ty::U64 => true,
    }
}

/// Whether all numbers are patterns of a type.
fn are_patterns(ty: Ty, values: &[u64]) -> bool
    ensures { IsTrue result ↔ All (IsPatternOf ty) values.now }
{
    for value in values {
        if !is_pattern(ty, *value) {
            return false;
        }
    }
    true
}

/// Whether there is one pattern for each scalar.
fn scalars_fit(scalars: &[Scalar], values: &[u64]) -> bool
    ensures { IsTrue result
        ↔ AllZip (λ (s : ScalarValue) n. IsPatternOf s.ty n) scalars.now values.now }
{
    if scalars.len() != values.len() {
        return false;
    }
    for at in 0..scalars.len() {
        let scalar = &scalars[at];
        if !is_pattern(scalar.ty, values[at]) {
            return false;
        }
    }
    true
}

/// Whether these are the elements of an array.
fn are_elements(array: &Array, elements: &[u64]) -> bool
    ensures { IsTrue result ↔ AreElementsOf array.now elements.now }
{
    if elements.len() as u64 != array.len as u64 {
        return false;
    }
    are_patterns(array.ty, elements)
}

/// Whether there are the elements of each array.
fn arrays_fit(arrays: &[Array], values: &[List<u64>]) -> bool
    ensures { IsTrue result ↔ AllZip AreElementsOf arrays.now values.now }
{
    if arrays.len() != values.len() {
        return false;
    }
    for at in 0..arrays.len() {
        let elements = &values[at];
        if !are_elements(&arrays[at], elements.as_slice()) {
            return false;
        }
    }
    true
}
