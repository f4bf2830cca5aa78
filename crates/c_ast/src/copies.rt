//! Copies of typed trees and of what they say of parameters.
ghost use Rattle.std.specs.Prelude.{◌≡◌, IfOk};

use crate::tree::Param;
use crate::typed::{ArrayOf, TypedExpr, TypedExprKind, TypedTarget};
use el_base::{Boxed, List, Memory};
use std::alloc::Global;

impl Param {
    /// An equal parameter.
    ///
    /// # Errors
    ///
    /// [`Memory`] where memory is wanting.
    pub fn copy(&self) -> Result<Param, Memory>
        ensures { IfOk result (λ p. p ≡ self.now) }
    {
        Ok(Param {
            name: self.name.copy()?,
            at: self.at,
            ty: self.ty,
            dims: self.dims.copy()?,
        })
    }
}

impl ArrayOf {
    /// An equal array.
    ///
    /// # Errors
    ///
    /// [`Memory`] where memory is wanting.
    pub fn copy(&self) -> Result<ArrayOf, Memory>
        ensures { IfOk result (λ a. a ≡ self.now) }
    {
        Ok(ArrayOf {
            name: self.name.copy()?,
            ty: self.ty,
            dims: self.dims.copy()?,
        })
    }
}

impl TypedTarget {
    /// An equal target.
    ///
    /// # Errors
    ///
    /// [`Memory`] where memory is wanting.
    pub fn copy(&self, alloc: Global) -> Result<TypedTarget, Memory>
        ensures { IfOk result (λ t. t ≡ self.now) }
    {
        Ok(TypedTarget {
            to: self.to,
            at: self.at,
            indices: copy_exprs(alloc, self.indices.as_slice())?,
        })
    }
}

impl TypedExpr {
    /// An equal expression.
    ///
    /// # Errors
    ///
    /// [`Memory`] where memory is wanting.
    #[cycle(copy_expr)]
    pub fn copy(&self, alloc: Global) -> Result<TypedExpr, Memory>
        ensures { IfOk result (λ e. e ≡ self.now) }
    {
        Ok(TypedExpr {
            kind: copy_kind(alloc, &self.kind)?,
            ty: self.ty,
            at: self.at,
        })
    }
}

#[cycle(copy_expr)]
fn copy_kind(alloc: Global, kind: &TypedExprKind) -> Result<TypedExprKind, Memory>
    ensures { IfOk result (λ k. k ≡ kind.now) }
{
    match kind {
        TypedExprKind::Number(value) => Ok(TypedExprKind::Number(*value)),
        TypedExprKind::Var(var) => Ok(TypedExprKind::Var(*var)),
        TypedExprKind::Element { array, indices } => Ok(TypedExprKind::Element {
            array: *array,
            indices: copy_exprs(alloc, indices.as_slice())?,
        }),
        TypedExprKind::Unary(op, arg) => Ok(TypedExprKind::Unary(*op, copy_boxed(alloc, arg)?)),
        TypedExprKind::Cast { implied, arg } => Ok(TypedExprKind::Cast {
            implied: *implied,
            arg: copy_boxed(alloc, arg)?,
        }),
        TypedExprKind::Binary(op, left, right) => Ok(TypedExprKind::Binary(
            *op,
            copy_boxed(alloc, left)?,
            copy_boxed(alloc, right)?,
        )),
        TypedExprKind::Choose(cond, then, other) => Ok(TypedExprKind::Choose(
            copy_boxed(alloc, cond)?,
            copy_boxed(alloc, then)?,
            copy_boxed(alloc, other)?,
        )),
    }
}

#[cycle(copy_expr)]
fn copy_boxed(alloc: Global, expr: &Boxed<TypedExpr>) -> Result<Boxed<TypedExpr>, Memory>
    ensures { IfOk result (λ e. e ≡ expr.now) }
{
    Ok(Boxed::new(alloc, expr.get().copy(alloc)?)?)
}

#[cycle(copy_expr)]
fn copy_exprs(alloc: Global, exprs: &[TypedExpr]) -> Result<List<TypedExpr>, Memory>
    ensures { IfOk result (λ es. es ≡ exprs.now) }
{
    let mut copies = List::new(alloc);
    for expr in exprs {
        copies.push(expr.copy(alloc)?)?;
    }
    Ok(copies)
}
