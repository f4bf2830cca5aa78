//! The conversions that an expression implies (ISO/IEC 9899:1999 6.3.1), and typed expressions
//! with them.
ghost use Rattle.std.specs.Prelude.{◌≡◌, IfOk};
ghost use Rattle.c_ast.specs.declared.program.ProgExprKind.TheVariants as typed;
ghost use Rattle.c_ast.specs.Casts.{same_type, left_type, right_type, assigned_type};
ghost use Rattle.c_ast.specs.ProgramCasts.{prog_of, prog_converted};
ghost use Rattle.c_types.specs.ProgramNodes.{prog_unary_of, prog_binary_of, prog_choice_of};

use c_ast::{
    Binary, Boxed, Family, ProgExpr, ProgExprKind, Span, Ty, Unary, family, joint_type, promoted,
    result_type, unary_type, usual,
};
use el_base::Memory;
use std::alloc::Global;

fn left_type(op: Binary, left: Ty, right: Ty) -> Ty
    ensures { result ≡ left_type op left right }
{
    match family(op) {
        Family::Logical => left,
        Family::Shift => promoted(left),
        Family::Arithmetic | Family::Bits | Family::Comparison => usual(left, right),
    }
}

fn right_type(op: Binary, left: Ty, right: Ty) -> Ty
    ensures { result ≡ right_type op left right }
{
    match family(op) {
        Family::Logical => right,
        Family::Shift => promoted(right),
        Family::Arithmetic | Family::Bits | Family::Comparison => usual(left, right),
    }
}

fn same_type(left: Ty, right: Ty) -> bool
    ensures { result ≡ same_type left right }
{
    left == right
}

/// A typed expression. Expressions go from call to call in boxes: a level of the recursion then
/// takes little stack.
#[inline(never)]
pub(crate) fn prog_node(
    alloc: Global,
    kind: ProgExprKind,
    ty: Ty,
    at: Span,
) -> Result<Boxed<ProgExpr>, Memory>
    ensures { IfOk result (λ f. f ≡ prog_of kind ty at) }
{
    let boxed = Boxed::new(alloc, ProgExpr { kind, ty, at })?;
    Ok(boxed)
}

/// A cast to a type, written or implied.
pub(crate) fn cast(
    alloc: Global,
    implied: bool,
    ty: Ty,
    arg: Boxed<ProgExpr>,
    at: Span,
) -> Result<Boxed<ProgExpr>, Memory>
    ensures { IfOk result (λ f. f ≡ prog_of (typed.Cast implied arg) ty at) }
{
    prog_node(alloc, ProgExprKind::Cast { implied, arg }, ty, at)
}

/// An expression where a type is asked: itself, or an implied cast of it at its place.
pub(crate) fn converted(
    alloc: Global,
    ty: Ty,
    arg: Boxed<ProgExpr>,
) -> Result<Boxed<ProgExpr>, Memory>
    ensures { IfOk result (λ f. f ≡ prog_converted ty arg) }
{
    if same_type(ty, arg.get().ty) {
        return Ok(arg);
    }
    let at = arg.get().at;
    cast(alloc, true, ty, arg, at)
}

/// An operator on one operand, which is promoted.
#[inline(never)]
pub(crate) fn unary(
    alloc: Global,
    op: Unary,
    arg: Boxed<ProgExpr>,
    at: Span,
) -> Result<Boxed<ProgExpr>, Memory>
    ensures { IfOk result (λ f. f ≡ prog_unary_of op arg at) }
{
    let ty = promoted(arg.get().ty);
    let arg = converted(alloc, ty, arg)?;
    prog_node(alloc, ProgExprKind::Unary(op, arg), unary_type(op, ty), at)
}

/// An operator on two operands, each converted as it asks.
#[inline(never)]
pub(crate) fn binary(
    alloc: Global,
    op: Binary,
    left: Boxed<ProgExpr>,
    right: Boxed<ProgExpr>,
    at: Span,
) -> Result<Boxed<ProgExpr>, Memory>
    ensures { IfOk result (λ f. f ≡ prog_binary_of op left right at) }
{
    let (from_left, from_right) = (left.get().ty, right.get().ty);
    let ty = result_type(op, joint_type(op, from_left, from_right));
    let first = converted(alloc, left_type(op, from_left, from_right), left)?;
    let second = converted(alloc, right_type(op, from_left, from_right), right)?;
    prog_node(alloc, ProgExprKind::Binary(op, first, second), ty, at)
}

/// A condition and two values, which get their usual type.
#[inline(never)]
pub(crate) fn choose(
    alloc: Global,
    cond: Boxed<ProgExpr>,
    then: Boxed<ProgExpr>,
    other: Boxed<ProgExpr>,
    at: Span,
) -> Result<Boxed<ProgExpr>, Memory>
    ensures { IfOk result (λ f. f ≡ prog_choice_of cond then other at) }
{
    let ty = usual(then.get().ty, other.get().ty);
    let first = converted(alloc, ty, then)?;
    let second = converted(alloc, ty, other)?;
    prog_node(alloc, ProgExprKind::Choose(cond, first, second), ty, at)
}

/// The value of an assignment to a type; with an operator it is that of its right operand.
pub(crate) fn assigned(
    alloc: Global,
    op: Option<Binary>,
    to: Ty,
    value: Boxed<ProgExpr>,
) -> Result<Boxed<ProgExpr>, Memory>
    ensures { IfOk result (λ f. f ≡ prog_converted (assigned_type op to value.ty) value) }
{
    match op {
        None => converted(alloc, to, value),
        Some(op) => {
            let ty = right_type(op, to, value.get().ty);
            converted(alloc, ty, value)
        }
    }
}
