//! The number of nodes of a typed kernel.
ghost use Rattle.std.specs.Prelude.{◌≡◌, ◌+◌, ◌-◌, ◌^◌, min, sum};
ghost use Rattle.c_ast.specs.Nodes.{
  params_nodes,
  typed_expr_nodes,
  typed_exprs_nodes,
  typed_opt_nodes,
  typed_target_nodes,
  typed_stmt_nodes,
  typed_stmts_nodes,
  typed_held_nodes,
  typed_nodes,
};

use c_ast::{Param, Typed, TypedExpr, TypedExprKind, TypedStmt, TypedStmtKind, TypedTarget};
use el_base::Boxed;

/// The number of nodes of a kernel, or 2^64 - 1 where there are more.
pub(crate) fn nodes(typed: &Typed) -> u64
    ensures { result ≡ min (typed_nodes typed.now) (2 ^ 64 - 1) }
{
    let block = node(&[of_stmts(typed.body.as_slice())]);
    node(&[of_params(typed.params.as_slice()), block])
}

fn of_params(params: &[Param]) -> u64
    ensures { result ≡ min (params_nodes params.now) (2 ^ 64 - 1) }
{
    let mut total: u64 = 0;
    for param in params {
        let dims = param.dims.as_slice().len() as u64;
        total = total.saturating_add(dims).saturating_add(1);
    }
    total
}

#[cycle(typed_stmt_nodes)]
fn of_stmts(stmts: &[TypedStmt]) -> u64
    ensures { result ≡ min (typed_stmts_nodes stmts.now) (2 ^ 64 - 1) }
{
    let mut total: u64 = 0;
    for stmt in stmts {
        total = total.saturating_add(of_stmt(stmt));
    }
    total
}

#[cycle(typed_stmt_nodes)]
#[tactic(auto, using(crate::proofs::Counted::statements))]
fn of_stmt(stmt: &TypedStmt) -> u64
    ensures { result ≡ min (typed_stmt_nodes stmt.now) (2 ^ 64 - 1) }
{
    match &stmt.kind {
        TypedStmtKind::Block(body) => node(&[of_stmts(body.as_slice())]),
        TypedStmtKind::Declare { init, .. } => node(&[of_option(init)]),
        TypedStmtKind::Assign { target, value, .. } => node(&[of_target(target), of_expr(value)]),
        TypedStmtKind::Step { target, .. } => node(&[of_target(target)]),
        TypedStmtKind::If { cond, then, other } => {
            node(&[of_expr(cond), of_stmt(then.get()), of_held(other)])
        }
        TypedStmtKind::While { cond, body } => node(&[of_expr(cond), of_stmt(body.get())]),
        TypedStmtKind::DoWhile { body, cond } => node(&[of_stmt(body.get()), of_expr(cond)]),
        TypedStmtKind::For {
            first,
            cond,
            step,
            body,
        } => node(&[
            of_stmts(first.as_slice()),
            of_option(cond),
            of_held(step),
            of_stmt(body.get()),
        ]),
        TypedStmtKind::Return(value) => node(&[of_option(value)]),
        TypedStmtKind::Break => node(&[]),
        TypedStmtKind::Continue => node(&[]),
        TypedStmtKind::Empty => node(&[]),
    }
}

#[cycle(typed_stmt_nodes)]
fn of_held(stmt: &Option<Boxed<TypedStmt>>) -> u64
    ensures { result ≡ min (typed_held_nodes stmt.now) (2 ^ 64 - 1) }
{
    match stmt {
        None => 0,
        Some(stmt) => of_stmt(stmt.get()),
    }
}

fn of_target(target: &TypedTarget) -> u64
    ensures { result ≡ min (typed_target_nodes target.now) (2 ^ 64 - 1) }
{
    of_exprs(target.indices.as_slice()).saturating_add(1)
}

fn of_option(expr: &Option<TypedExpr>) -> u64
    ensures { result ≡ min (typed_opt_nodes expr.now) (2 ^ 64 - 1) }
{
    match expr {
        None => 0,
        Some(expr) => of_expr(expr),
    }
}

#[cycle(typed_expr_nodes)]
fn of_exprs(exprs: &[TypedExpr]) -> u64
    ensures { result ≡ min (typed_exprs_nodes exprs.now) (2 ^ 64 - 1) }
{
    let mut total: u64 = 0;
    for expr in exprs {
        total = total.saturating_add(of_expr(expr));
    }
    total
}

#[cycle(typed_expr_nodes)]
#[tactic(auto, using(crate::proofs::Counted::expressions))]
fn of_expr(expr: &TypedExpr) -> u64
    ensures { result ≡ min (typed_expr_nodes expr.now) (2 ^ 64 - 1) }
{
    match &expr.kind {
        TypedExprKind::Number(_) => node(&[]),
        TypedExprKind::Var(_) => node(&[]),
        TypedExprKind::Element { indices, .. } => node(&[of_exprs(indices.as_slice())]),
        TypedExprKind::Unary(_, arg) => node(&[of_expr(arg.get())]),
        TypedExprKind::Cast { implied, arg } => {
            let of_arg = of_expr(arg.get());
            if *implied { of_arg } else { node(&[of_arg]) }
        }
        TypedExprKind::Binary(_, left, right) => {
            node(&[of_expr(left.get()), of_expr(right.get())])
        }
        TypedExprKind::Choose(cond, yes, no) => node(&[
            of_expr(cond.get()),
            of_expr(yes.get()),
            of_expr(no.get()),
        ]),
    }
}

// A node and its parts, of these numbers of nodes.
fn node(parts: &[u64]) -> u64
    ensures { result ≡ min (1 + sum parts.now) (2 ^ 64 - 1) }
{
    let mut total: u64 = 1;
    for part in parts {
        total = total.saturating_add(*part);
    }
    total
}
