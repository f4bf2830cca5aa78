//! Expressions are expanded: what must be set for them is set before, and what is left stays an expression.
ghost use Rattle.std.specs.Prelude.{◌≡◌, ◌+◌, ◌≤◌, ◌&&◌, length, IfOk, OnOk};
ghost use Rattle.c_ast.specs.declared.typed.TypedExprKind.TheVariants as expr;
ghost use Rattle.c_ast.specs.Nodes.{typed_expr_nodes, typed_exprs_nodes};
ghost use Rattle.c_ast.specs.Casts.{of_type};
ghost use Rattle.c_norm.specs.Code.{HasRoom, IsExpanded, AreOut};
ghost use Rattle.c_norm.specs.Expand.{decided_by, expand_all};

use crate::settings::{Choice, Side, set_logical};
use c_ast::{Binary, NormalStmt, TypedExpr, TypedExprKind};
use el_base::{Boxed, List, Memory, Ty};
use std::alloc::Global;

/// What is left of an expression, and whether the expression reads no array: then nothing is set for it, and all of it is left.
#[derive(Drop)]
pub struct Rest {
    pub expr: TypedExpr,
    pub plain: bool,
}

/// Expands an expression: what is set for it goes behind `before`, and the variables that are made behind `vars`.
#[cycle(expand)]
pub(crate) fn expand(
    alloc: Global,
    e: &TypedExpr,
    before: &mut List<NormalStmt>,
    vars: &mut List<Ty>,
) -> Result<Rest, Memory>
    requires { HasRoom vars.old (typed_expr_nodes e.now) }
    ensures expanded { IfOk result (λ r.
        IsExpanded e.now before.old vars.old before.new vars.new r.expr r.plain) }
    ensures few { OnOk result (length vars.new + 1 ≤ length vars.old + typed_expr_nodes e.now) }
{
    let rest = kind(alloc, e, before, vars)?;
    Ok(rest)
}

#[cycle(expand)]
fn kind(
    alloc: Global,
    e: &TypedExpr,
    before: &mut List<NormalStmt>,
    vars: &mut List<Ty>,
) -> Result<Rest, Memory>
    requires { HasRoom vars.old (typed_expr_nodes e.now) }
    ensures { IfOk result (λ r.
        IsExpanded e.now before.old vars.old before.new vars.new r.expr r.plain) }
{
    match &e.kind {
        TypedExprKind::Number(value) => Ok(left_of(e, TypedExprKind::Number(*value), true)),
        TypedExprKind::Var(var) => Ok(left_of(e, TypedExprKind::Var(*var), true)),
        TypedExprKind::Element { array, indices } => {
            let indices = expand_all(alloc, indices.as_slice(), before, vars)?;
            let array = *array;
            Ok(left_of(e, TypedExprKind::Element { array, indices }, false))
        }
        TypedExprKind::Unary(op, arg) => {
            let inner = expand(alloc, arg.get(), before, vars)?;
            let arg = Boxed::new(alloc, inner.expr)?;
            Ok(left_of(e, TypedExprKind::Unary(*op, arg), inner.plain))
        }
        TypedExprKind::Cast { implied, arg } => {
            let inner = expand(alloc, arg.get(), before, vars)?;
            let arg = Boxed::new(alloc, inner.expr)?;
            let implied = *implied;
            Ok(left_of(e, TypedExprKind::Cast { implied, arg }, inner.plain))
        }
        TypedExprKind::Binary(op, left, right) => {
            binary(alloc, e, *op, left.get(), right.get(), before, vars)
        }
        TypedExprKind::Choose(cond, then, other) => {
            choose(alloc, e, cond.get(), then.get(), other.get(), before, vars)
        }
    }
}

/// What is left of an expression, with its type and place.
fn left_of(e: &TypedExpr, kind: TypedExprKind, plain: bool) -> Rest
    ensures { result ≡ record { expr = of_type kind e.now.ty e.now.at; plain = plain } }
{
    Rest {
        expr: TypedExpr {
            kind,
            ty: e.ty,
            at: e.at,
        },
        plain,
    }
}

fn neither_reads(first: &Rest, second: &Rest) -> bool
    ensures { result ≡ (first.now.plain && second.now.plain) }
{
    first.plain && second.plain
}

/// Expands several expressions, from left to right.
#[cycle(expand)]
#[tactic(auto, using(crate::proofs::Coded::few_expanded_all))]
#[inline(never)]
pub(crate) fn expand_all(
    alloc: Global,
    exprs: &[TypedExpr],
    before: &mut List<NormalStmt>,
    vars: &mut List<Ty>,
) -> Result<List<TypedExpr>, Memory>
    requires { HasRoom vars.old (typed_exprs_nodes exprs.now) }
    ensures expanded { IfOk result
        (AreOut (expand_all (length vars.old) exprs.now) before.old vars.old before.new vars.new) }
    ensures few { OnOk result (length vars.new ≤ length vars.old + typed_exprs_nodes exprs.now) }
{
    let mut rests = List::new(alloc);
    for e in exprs {
        let one = expand(alloc, e, before, vars)?;
        rests.push(one.expr)?;
    }
    Ok(rests)
}

/// An operator. For `&&` or `||` what is set for the right operand is kept apart: it is set where that operand is evaluated.
#[cycle(expand)]
#[inline(never)]
fn binary(
    alloc: Global,
    e: &TypedExpr,
    op: Binary,
    left: &TypedExpr,
    right: &TypedExpr,
    before: &mut List<NormalStmt>,
    vars: &mut List<Ty>,
) -> Result<Rest, Memory>
    requires is { e.now.kind ≡ expr.Binary op left.now right.now }
    requires room { HasRoom vars.old (1 + typed_expr_nodes left.now + typed_expr_nodes right.now) }
    ensures { IfOk result (λ r.
        IsExpanded e.now before.old vars.old before.new vars.new r.expr r.plain) }
{
    let first = expand(alloc, left, before, vars)?;
    match decided_by(op) {
        None => {
            let second = expand(alloc, right, before, vars)?;
            let plain = neither_reads(&first, &second);
            let kind = operation(alloc, op, first.expr, second.expr)?;
            Ok(left_of(e, kind, plain))
        }
        Some(decided) => {
            let mut inside = List::new(alloc);
            let second = expand(alloc, right, &mut inside, vars)?;
            let plain = neither_reads(&first, &second);
            if plain {
                let kind = operation(alloc, op, first.expr, second.expr)?;
                return Ok(left_of(e, kind, true));
            }
            let right = Side {
                before: inside,
                value: second.expr,
            };
            let var = set_logical(alloc, decided, first.expr, right, e.at, before, vars)?;
            Ok(left_of(e, TypedExprKind::Var(var), false))
        }
    }
}

/// The truth value of a left operand that decides, so that the right one is not evaluated.
pub(crate) fn decided_by(op: Binary) -> Option<bool>
    ensures { result ≡ decided_by op }
{
    match op {
        Binary::Both => Some(false),
        Binary::Either => Some(true),
        _ => None,
    }
}

/// An operator with both its operands.
#[inline(never)]
pub(crate) fn operation(
    alloc: Global,
    op: Binary,
    left: TypedExpr,
    right: TypedExpr,
) -> Result<TypedExprKind, Memory>
    ensures { IfOk result (λ k. k ≡ expr.Binary op left right) }
{
    let left = Boxed::new(alloc, left)?;
    let right = Boxed::new(alloc, right)?;
    Ok(TypedExprKind::Binary(op, left, right))
}

/// `?:`. What is set for a side is kept apart: it is set where that side is evaluated.
#[cycle(expand)]
#[inline(never)]
fn choose(
    alloc: Global,
    e: &TypedExpr,
    cond: &TypedExpr,
    then: &TypedExpr,
    other: &TypedExpr,
    before: &mut List<NormalStmt>,
    vars: &mut List<Ty>,
) -> Result<Rest, Memory>
    requires is { e.now.kind ≡ expr.Choose cond.now then.now other.now }
    requires room { HasRoom vars.old (1 + typed_expr_nodes cond.now + typed_expr_nodes then.now
        + typed_expr_nodes other.now) }
    ensures { IfOk result (λ r.
        IsExpanded e.now before.old vars.old before.new vars.new r.expr r.plain) }
{
    let test = expand(alloc, cond, before, vars)?;
    let mut inside = List::new(alloc);
    let first = expand(alloc, then, &mut inside, vars)?;
    let mut inside_other = List::new(alloc);
    let second = expand(alloc, other, &mut inside_other, vars)?;
    let plain = neither_reads(&first, &second);
    if plain {
        let kind = kept(alloc, test.expr, first.expr, second.expr)?;
        return Ok(left_of(e, kind, test.plain));
    }
    let choice = Choice {
        cond: test.expr,
        then: Side {
            before: inside,
            value: first.expr,
        },
        other: Side {
            before: inside_other,
            value: second.expr,
        },
        ty: e.ty,
        at: e.at,
    };
    let var = choice.set(alloc, before, vars)?;
    Ok(left_of(e, TypedExprKind::Var(var), false))
}

/// `?:` with both its sides.
#[inline(never)]
fn kept(
    alloc: Global,
    cond: TypedExpr,
    then: TypedExpr,
    other: TypedExpr,
) -> Result<TypedExprKind, Memory>
    ensures { IfOk result (λ k. k ≡ expr.Choose cond then other) }
{
    let cond = Boxed::new(alloc, cond)?;
    let then = Boxed::new(alloc, then)?;
    let other = Boxed::new(alloc, other)?;
    Ok(TypedExprKind::Choose(cond, then, other))
}
