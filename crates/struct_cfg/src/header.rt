//! The header of a graph, and the widths of its variables.
ghost use Rattle.std.specs.Prelude.{◌≡◌, ◌<◌, ◌≤◌, map, All, IfOk};
ghost use Rattle.el_base.specs.Limits.{max_elements};
ghost use Rattle.el_base.specs.Widths.{ty_width};
ghost use Rattle.c_meaning.specs.Headers.{scalars_of, flat};
ghost use Rattle.c_meaning.specs.Stores.{elements};
ghost use Rattle.struct_cfg.specs.Shares.{IsSmallArray, AreSmallArrays};

use c_ast::{ArrayOf, Param};
use el_base::{Array, List, Memory, Scalar, Ty};
use std::alloc::Global;

/// The parameters without dimensions, in order.
pub(crate) fn scalars(alloc: Global, params: &[Param]) -> Result<List<Scalar>, Memory>
    ensures { IfOk result (λ ss. ss ≡ scalars_of params.now) }
{
    let mut scalars = List::new(alloc);
    for param in params {
        if param.dims.is_empty() {
            scalars.push(Scalar {
                name: param.name.copy()?,
                ty: param.ty,
            })?;
        }
    }
    Ok(scalars)
}

/// Each array as one row of elements.
pub(crate) fn flat_arrays(alloc: Global, arrays: &[ArrayOf]) -> Result<List<Array>, Memory>
    requires { AreSmallArrays arrays.now }
    ensures { IfOk result (λ xs. xs ≡ map flat arrays.now) }
{
    let mut flat_arrays = List::new(alloc);
    for array in arrays {
        flat_arrays.push(flat(array)?)?;
    }
    Ok(flat_arrays)
}

fn flat(array: &ArrayOf) -> Result<Array, Memory>
    requires { IsSmallArray array.now }
    ensures { IfOk result (λ x. x ≡ flat array.now) }
{
    Ok(Array {
        name: array.name.copy()?,
        ty: array.ty,
        len: elements(array.dims.as_slice()),
    })
}

/// How many elements there are.
fn elements(dims: &[u64]) -> u64
    requires some { All (λ d. 0 < d) dims.now }
    requires few { elements dims.now ≤ max_elements }
    ensures { result ≡ elements dims.now }
{
    match dims.split_first() {
        None => 1,
        Some((dim, rest)) => *dim * elements(rest),
    }
}

/// The widths of variables, in bits.
pub(crate) fn widths(alloc: Global, vars: &[Ty]) -> Result<List<u32>, Memory>
    ensures { IfOk result (λ ws. ws ≡ map ty_width vars.now) }
{
    let mut widths = List::new(alloc);
    for ty in vars {
        widths.push(ty.width())?;
    }
    Ok(widths)
}
