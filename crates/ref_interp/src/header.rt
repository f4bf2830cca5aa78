//! The header of a kernel, by which its inputs are read and its results written.
ghost use Rattle.std.specs.Prelude.{◌≡◌, ◌<◌, ◌≤◌, map, All, IfOk};
ghost use Rattle.el_base.specs.Limits.{max_elements};
ghost use Rattle.c_ast.specs.declared.typed.Typed.{Typed};
ghost use Rattle.c_meaning.specs.Headers.{scalars_of, flat};
ghost use Rattle.c_meaning.specs.Lawful.{Lawful};
ghost use Rattle.c_meaning.specs.Stores.{elements};
ghost use Rattle.ref_interp.specs.Names.{parameter_names, AreDifferent, IsSmallArray};

use c_ast::{ArrayOf, Param, Typed};
use el_base::{Array, List, Memory, Scalar};
use std::alloc::Global;

/// The scalars of a kernel: its parameters without dimensions, in order.
///
/// # Errors
///
/// [`Memory`] where memory is wanting.
pub fn scalars(alloc: Global, params: &[Param]) -> Result<List<Scalar>, Memory>
    ensures { IfOk result (λ ss. ss ≡ scalars_of params.now) }
{
    let mut scalars = List::new(alloc);
    for param in params {
        if param.dims.is_empty() {
            scalars.push(Scalar {
                name: param.name.copy()?,
                ty: param.ty,
            })?;
        }
    }
    Ok(scalars)
}

/// The arrays of a lawful kernel, each as one row of elements.
///
/// # Errors
///
/// [`Memory`] where memory is wanting.
pub fn flat_arrays(alloc: Global, typed: &Typed) -> Result<List<Array>, Memory>
    requires { Lawful typed.now }
    ensures { IfOk result (λ xs. xs ≡ map flat typed.now.arrays) }
{
    rows(alloc, typed.arrays.as_slice())
}

/// The names of a lawful kernel's header differ.
pub fn names_of_parameters_differ()
    ensures { (k : Typed) → Lawful k → AreDifferent (parameter_names k) }
{}

/// Each array as one row of elements.
fn rows(alloc: Global, arrays: &[ArrayOf]) -> Result<List<Array>, Memory>
    requires { All IsSmallArray arrays.now }
    ensures { IfOk result (λ xs. xs ≡ map flat arrays.now) }
{
    let mut rows = List::new(alloc);
    for array in arrays {
        rows.push(flat(array)?)?;
    }
    Ok(rows)
}

fn flat(array: &ArrayOf) -> Result<Array, Memory>
    requires { IsSmallArray array.now }
    ensures { IfOk result (λ x. x ≡ flat array.now) }
{
    Ok(Array {
        name: array.name.copy()?,
        ty: array.ty,
        len: elements(array.dims.as_slice()),
    })
}

/// How many elements there are.
fn elements(dims: &[u64]) -> u64
    requires some { All (λ d. 0 < d) dims.now }
    requires few { elements dims.now ≤ max_elements }
    ensures { result ≡ elements dims.now }
{
    match dims.split_first() {
        None => 1,
        Some((dim, rest)) => *dim * elements(rest),
    }
}
