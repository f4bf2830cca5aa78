//! The typed tree of a tree, from the typed program of it alone: each part is the same.
ghost use Rattle.std.specs.Prelude.{◌≡◌, IfOk, option_map};
ghost use Rattle.el_base.specs.Limits.{IsNumbered};
ghost use Rattle.c_ast.specs.Nodes.{tree_nodes};
ghost use Rattle.c_ast.specs.Typing.{Typing};
ghost use Rattle.c_ast.specs.Casts.{Casts};
ghost use Rattle.c_types.specs.TypedParts.{
  typed_kind,
  typed_expr,
  typed_exprs,
  typed_target,
  typed_act,
  typed_stmt,
  typed_stmts,
};

use crate::parameters::{copy_arrays, copy_params};
use crate::program_casts::cast_kernel;
use c_ast::{
    Boxed, List, ProgExpr, ProgExprKind, ProgStmt, ProgStmtKind, ProgTarget, Tree, Typed,
    TypedExpr, TypedExprKind, TypedStmt, TypedStmtKind, TypedTarget,
};
use el_base::Memory;
use std::alloc::Global;

/// The typed tree of a tree that keeps the rules.
///
/// # Errors
///
/// [`Memory`] where memory is wanting.
pub(crate) fn typed_tree(alloc: Global, tree: &Tree) -> Result<Typed, Memory>
    requires typing { Typing tree.now }
    requires numbered { IsNumbered (tree_nodes tree.now) }
    ensures { IfOk result (λ k. Casts tree.now k) }
{
    let kernel = cast_kernel(alloc, &[], tree)?;
    let name = kernel.name.copy()?;
    let params = copy_params(alloc, kernel.params.as_slice())?;
    let vars = kernel.vars.copy()?;
    let arrays = copy_arrays(alloc, kernel.arrays.as_slice())?;
    let body = typed_stmts(alloc, kernel.body.as_slice())?;
    Ok(Typed {
        name,
        at: kernel.at,
        result: kernel.result,
        params,
        vars,
        arrays,
        body,
    })
}

// ---- statements

#[cycle(typed_stmt)]
fn typed_stmts(alloc: Global, stmts: &[ProgStmt]) -> Result<List<TypedStmt>, Memory>
    ensures { IfOk result (λ ts. ts ≡ typed_stmts stmts.now) }
{
    let mut items = List::new(alloc);
    for stmt in stmts {
        items.push(typed_stmt(alloc, stmt)?)?;
    }
    Ok(items)
}

#[cycle(typed_stmt)]
fn typed_stmt(alloc: Global, stmt: &ProgStmt) -> Result<TypedStmt, Memory>
    ensures { IfOk result (λ t. t ≡ typed_stmt stmt.now) }
{
    Ok(TypedStmt {
        kind: typed_act(alloc, &stmt.kind)?,
        at: stmt.at,
    })
}

#[cycle(typed_stmt)]
fn typed_act(alloc: Global, kind: &ProgStmtKind) -> Result<TypedStmtKind, Memory>
    ensures { IfOk result (λ k. k ≡ typed_act kind.now) }
{
    match kind {
        ProgStmtKind::Block(body) => {
            Ok(TypedStmtKind::Block(typed_stmts(alloc, body.as_slice())?))
        }
        ProgStmtKind::Declare { var, init } => Ok(TypedStmtKind::Declare {
            var: *var,
            init: typed_option(alloc, init)?,
        }),
        ProgStmtKind::Assign { target, op, value } => Ok(TypedStmtKind::Assign {
            target: typed_target(alloc, target)?,
            op: *op,
            value: typed_expr(alloc, value)?,
        }),
        ProgStmtKind::Step { target, up } => Ok(TypedStmtKind::Step {
            target: typed_target(alloc, target)?,
            up: *up,
        }),
        ProgStmtKind::If { cond, then, other } => Ok(TypedStmtKind::If {
            cond: typed_expr(alloc, cond)?,
            then: typed_inside(alloc, then)?,
            other: typed_held(alloc, other)?,
        }),
        ProgStmtKind::While { cond, body } => Ok(TypedStmtKind::While {
            cond: typed_expr(alloc, cond)?,
            body: typed_inside(alloc, body)?,
        }),
        ProgStmtKind::DoWhile { body, cond } => Ok(TypedStmtKind::DoWhile {
            body: typed_inside(alloc, body)?,
            cond: typed_expr(alloc, cond)?,
        }),
        ProgStmtKind::For {
            first,
            cond,
            step,
            body,
        } => Ok(TypedStmtKind::For {
            first: typed_stmts(alloc, first.as_slice())?,
            cond: typed_option(alloc, cond)?,
            step: typed_held(alloc, step)?,
            body: typed_inside(alloc, body)?,
        }),
        ProgStmtKind::Break => Ok(TypedStmtKind::Break),
        ProgStmtKind::Continue => Ok(TypedStmtKind::Continue),
        ProgStmtKind::Return(value) => Ok(TypedStmtKind::Return(typed_option(alloc, value)?)),
        ProgStmtKind::Empty => Ok(TypedStmtKind::Empty),
    }
}

// A statement inside a statement, which may be absent.
#[cycle(typed_stmt)]
fn typed_held(
    alloc: Global,
    stmt: &Option<Boxed<ProgStmt>>,
) -> Result<Option<Boxed<TypedStmt>>, Memory>
    ensures { IfOk result (λ t. t ≡ option_map typed_stmt stmt.now) }
{
    match stmt {
        None => Ok(None),
        Some(stmt) => {
            let typed = typed_stmt(alloc, stmt.get())?;
            Ok(Some(Boxed::new(alloc, typed)?))
        }
    }
}

// A statement inside a statement.
#[cycle(typed_stmt)]
fn typed_inside(alloc: Global, stmt: &Boxed<ProgStmt>) -> Result<Boxed<TypedStmt>, Memory>
    ensures { IfOk result (λ t. t ≡ typed_stmt stmt.now) }
{
    Ok(Boxed::new(alloc, typed_stmt(alloc, stmt.get())?)?)
}

// ---- expressions

fn typed_target(alloc: Global, target: &ProgTarget) -> Result<TypedTarget, Memory>
    ensures { IfOk result (λ t. t ≡ typed_target target.now) }
{
    Ok(TypedTarget {
        to: target.to,
        at: target.at,
        indices: typed_exprs(alloc, target.indices.as_slice())?,
    })
}

fn typed_option(alloc: Global, expr: &Option<ProgExpr>) -> Result<Option<TypedExpr>, Memory>
    ensures { IfOk result (λ f. f ≡ option_map typed_expr expr.now) }
{
    match expr {
        None => Ok(None),
        Some(expr) => Ok(Some(typed_expr(alloc, expr)?)),
    }
}

#[cycle(typed_expr)]
fn typed_expr(alloc: Global, expr: &ProgExpr) -> Result<TypedExpr, Memory>
    ensures { IfOk result (λ f. f ≡ typed_expr expr.now) }
{
    Ok(TypedExpr {
        kind: typed_kind(alloc, &expr.kind)?,
        ty: expr.ty,
        at: expr.at,
    })
}

#[cycle(typed_expr)]
fn typed_kind(alloc: Global, kind: &ProgExprKind) -> Result<TypedExprKind, Memory>
    ensures { IfOk result (λ k. k ≡ typed_kind kind.now) }
{
    match kind {
        ProgExprKind::Number(value) => Ok(TypedExprKind::Number(*value)),
        ProgExprKind::Var(var) => Ok(TypedExprKind::Var(*var)),
        ProgExprKind::Element { array, indices } => Ok(TypedExprKind::Element {
            array: *array,
            indices: typed_exprs(alloc, indices.as_slice())?,
        }),
        ProgExprKind::Unary(op, arg) => Ok(TypedExprKind::Unary(*op, typed_boxed(alloc, arg)?)),
        ProgExprKind::Cast { implied, arg } => Ok(TypedExprKind::Cast {
            implied: *implied,
            arg: typed_boxed(alloc, arg)?,
        }),
        ProgExprKind::Binary(op, left, right) => Ok(TypedExprKind::Binary(
            *op,
            typed_boxed(alloc, left)?,
            typed_boxed(alloc, right)?,
        )),
        ProgExprKind::Choose(cond, then, other) => Ok(TypedExprKind::Choose(
            typed_boxed(alloc, cond)?,
            typed_boxed(alloc, then)?,
            typed_boxed(alloc, other)?,
        )),
        // No kernel without helpers has one.
        ProgExprKind::Call { .. } => Ok(TypedExprKind::Number(0)),
    }
}

#[cycle(typed_expr)]
fn typed_boxed(alloc: Global, expr: &Boxed<ProgExpr>) -> Result<Boxed<TypedExpr>, Memory>
    ensures { IfOk result (λ f. f ≡ typed_expr expr.now) }
{
    Ok(Boxed::new(alloc, typed_expr(alloc, expr.get())?)?)
}

#[cycle(typed_expr)]
fn typed_exprs(alloc: Global, exprs: &[ProgExpr]) -> Result<List<TypedExpr>, Memory>
    ensures { IfOk result (λ fs. fs ≡ typed_exprs exprs.now) }
{
    let mut items = List::new(alloc);
    for expr in exprs {
        items.push(typed_expr(alloc, expr)?)?;
    }
    Ok(items)
}
