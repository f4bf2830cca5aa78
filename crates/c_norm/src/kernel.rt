//! The normal form of a whole kernel.
ghost use Rattle.std.specs.Prelude.{◌≡◌, ◌<◌, ◌^◌, length, IfOk};
ghost use Rattle.c_ast.specs.Nodes.{typed_nodes};
ghost use Rattle.c_meaning.specs.Lawful.{Lawful};
ghost use Rattle.c_meaning.specs.Sizes.{form_sizes};
ghost use Rattle.c_norm.specs.Kernels.{normal_form};
ghost use Rattle.c_norm.specs.Shares.{NormalShare, NormalSizes};

use crate::forms::Normalizer;
use crate::laws::{normal_forms_are_small, normal_forms_share};
use c_ast::{ArrayOf, Normal, Param, Typed};
use el_base::{List, Memory};
use std::alloc::Global;

/// The normal form of a kernel: it keeps the header, ends as the kernel does, and has few variables, blocks, steps and
/// accesses.
///
/// # Errors
///
/// [`Memory`] where memory is wanting.
pub fn normal(alloc: Global, typed: &Typed) -> Result<Normal, Memory>
    requires lawful { Lawful typed.now }
    requires few { typed_nodes typed.now < 2 ^ 30 }
    ensures form { IfOk result (λ f. f ≡ normal_form typed.now) }
    ensures share { IfOk result (λ f. NormalShare typed.now f) }
    ensures sizes { IfOk result (λ f.
        NormalSizes (typed_nodes typed.now) (length f.vars) (form_sizes f)) }
{
    normal_forms_share();
    normal_forms_are_small();
    let mut vars = typed.vars.copy()?;
    let mut body = List::new(alloc);
    let normalizer = Normalizer { alloc, typed };
    normalizer.forms(typed.body.as_slice(), &mut body, &mut vars)?;
    let name = typed.name.copy()?;
    let params = copy_params(alloc, typed.params.as_slice())?;
    let arrays = copy_arrays(alloc, typed.arrays.as_slice())?;
    Ok(Normal {
        name,
        at: typed.at,
        result: typed.result,
        params,
        vars,
        arrays,
        body,
    })
}

fn copy_params(alloc: Global, params: &[Param]) -> Result<List<Param>, Memory>
    ensures { IfOk result (λ ps. ps ≡ params.now) }
{
    let mut copies = List::new(alloc);
    for param in params {
        copies.push(param.copy()?)?;
    }
    Ok(copies)
}

fn copy_arrays(alloc: Global, arrays: &[ArrayOf]) -> Result<List<ArrayOf>, Memory>
    ensures { IfOk result (λ xs. xs ≡ arrays.now) }
{
    let mut copies = List::new(alloc);
    for array in arrays {
        copies.push(array.copy()?)?;
    }
    Ok(copies)
}
