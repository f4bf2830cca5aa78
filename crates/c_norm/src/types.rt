//! The types of objects, and the operators of steps.
ghost use Rattle.std.specs.Prelude.{◌≡◌, get_or};
ghost use Rattle.el_base.specs.declared.ty.Ty.TheVariants.{I32};
ghost use Rattle.c_meaning.specs.declared.profile.Profile.TheVariants.{Plain};
ghost use Rattle.c_meaning.specs.Statements.{objects, array_type, object_type, step_operator};

use c_ast::{ArrayOf, Binary, Object, Typed};
use el_base::Ty;

/// The type of a variable, or of the elements of an array; `I32` where there is none.
pub(crate) fn object_type(typed: &Typed, object: Object) -> Ty
    ensures { result ≡ object_type (objects Plain typed.now) object }
{
    match object {
        Object::Var(var) => variable_type(typed.vars.as_slice(), var),
        Object::Array(array) => array_type(typed.arrays.as_slice(), array),
    }
}

fn variable_type(vars: &[Ty], var: u32) -> Ty
    ensures { result ≡ get_or vars.now var I32 }
{
    match vars.get(var as usize) {
        Some(ty) => *ty,
        None => Ty::I32,
    }
}

fn array_type(arrays: &[ArrayOf], array: u32) -> Ty
    ensures { result ≡ array_type arrays.now array }
{
    match arrays.get(array as usize) {
        Some(of) => of.ty,
        None => Ty::I32,
    }
}

/// `++` adds, and `--` subtracts.
pub(crate) fn step_operator(up: bool) -> Binary
    ensures { result ≡ step_operator up }
{
    if up { Binary::Add } else { Binary::Sub }
}
