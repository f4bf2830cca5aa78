//! The parameters of a helper or a kernel: copies, and what they declare.
ghost use Rattle.std.specs.Prelude.{◌≡◌, [], ◌∷◌, length, true, IfOk, OnOk};
ghost use Rattle.el_base.specs.Limits.{IsNumbered};
ghost use Rattle.c_ast.specs.Typing.{TypingParams};
ghost use Rattle.c_ast.specs.Casts.{parameters};
ghost use Rattle.c_types.specs.Scopes.{is_new_in};
ghost use Rattle.c_types.specs.Contexts.{array_as, AreParameters, IsOneMore};

use crate::known::Known;
use c_ast::{ArrayOf, List, Param};
use el_base::Memory;
use std::alloc::Global;

pub(crate) fn copy_params(alloc: Global, params: &[Param]) -> Result<List<Param>, Memory>
    ensures { IfOk result (λ ps. ps ≡ params.now) }
{
    let mut copies = List::new(alloc);
    for param in params {
        copies.push(param.copy()?)?;
    }
    Ok(copies)
}

pub(crate) fn copy_arrays(alloc: Global, arrays: &[ArrayOf]) -> Result<List<ArrayOf>, Memory>
    ensures { IfOk result (λ xs. xs ≡ arrays.now) }
{
    let mut copies = List::new(alloc);
    for array in arrays {
        copies.push(array.copy()?)?;
    }
    Ok(copies)
}

// The arrays of parameters, which are declared in the one scope in force.
pub(crate) fn declare_params(
    alloc: Global,
    known: &mut Known,
    params: &[Param],
) -> Result<List<ArrayOf>, Memory>
    requires scopes { known.old.scopes ≡ [] ∷ [] }
    requires types { known.old.types ≡ [] }
    requires typing { TypingParams params.now [] 0 }
    requires numbered { IsNumbered (length params.now) }
    ensures { IfOk result (λ arrays. AreParameters known.new arrays (parameters params.now)) }
{
    let mut arrays = List::new(alloc);
    for param in params {
        declare_param(known, &mut arrays, param)?;
    }
    Ok(arrays)
}

fn declare_param(known: &mut Known, arrays: &mut List<ArrayOf>, param: &Param) -> Result<(), Memory>
    requires new { is_new_in known.old.scopes param.now.name ≡ true }
    requires vars { IsNumbered (length known.old.types) }
    requires arrays { IsNumbered (length arrays.old) }
    ensures { OnOk result (IsOneMore known.old arrays.old param.now known.new arrays.new) }
{
    if param.dims.is_empty() {
        known.declare_var(&param.name, param.ty)?;
        return Ok(());
    }
    let array = arrays.len() as u32;
    let item = array_of(param)?;
    known.declare_array(&param.name, array, param.ty)?;
    arrays.push(item)?;
    Ok(())
}

// The array of a parameter.
fn array_of(param: &Param) -> Result<ArrayOf, Memory>
    ensures { IfOk result (λ x. x ≡ array_as param.now) }
{
    Ok(ArrayOf {
        name: param.name.copy()?,
        ty: param.ty,
        dims: param.dims.copy()?,
    })
}
