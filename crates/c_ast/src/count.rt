//! The number of syntax nodes.
ghost use Rattle.std.specs.Prelude.{◌≡◌, ◌+◌, ◌-◌, ◌^◌, length, min, sum};
ghost use Rattle.c_ast.specs.Nodes.{
  expr_nodes,
  exprs_nodes,
  held_nodes,
  opt_nodes,
  params_nodes,
  stmt_nodes,
  stmts_nodes,
  target_nodes,
  tree_nodes,
};
ghost use Rattle.c_ast.specs.Programs.{helper_nodes, helpers_nodes, program_nodes};

use crate::tree::{Expr, ExprKind, Helper, Param, Program, Stmt, StmtKind, Target, Tree};
use el_base::Boxed;

/// The number of nodes of a kernel, or 2^64 - 1 where there are more.
///
/// Each part is one node: the kernel, a parameter, a dimension, a block (the body is one), a declared
/// name, any other statement, a target, an expression. What is absent counts nothing.
pub fn nodes(tree: &Tree) -> u64
    ensures { result ≡ min (tree_nodes tree.now) (2 ^ 64 - 1) }
{
    of_params(tree.params.as_slice())
        .saturating_add(of_stmts(tree.body.as_slice()))
        .saturating_add(2)
}

/// The number of nodes of a program, or 2^64 - 1 where there are more.
///
/// A helper is one node, as are each of its parameters and its block; its `return` is part of it.
pub fn nodes_program(program: &Program) -> u64
    ensures { result ≡ min (program_nodes program.now) (2 ^ 64 - 1) }
{
    of_helpers(program.helpers.as_slice()).saturating_add(nodes(&program.kernel))
}

fn of_helpers(helpers: &[Helper]) -> u64
    ensures { result ≡ min (helpers_nodes helpers.now) (2 ^ 64 - 1) }
{
    let mut total: u64 = 0;
    for helper in helpers {
        total = total.saturating_add(of_helper(helper));
    }
    total
}

fn of_helper(helper: &Helper) -> u64
    ensures { result ≡ min (helper_nodes helper.now) (2 ^ 64 - 1) }
{
    let block = node(&[of_stmts(helper.body.as_slice()), of_expr(&helper.value)]);
    node(&[of_params(helper.params.as_slice()), block])
}

fn of_params(params: &[Param]) -> u64
    ensures { result ≡ min (params_nodes params.now) (2 ^ 64 - 1) }
{
    let mut total: u64 = 0;
    for param in params {
        let dims = param.dims.as_slice().len() as u64;
        total = total.saturating_add(dims).saturating_add(1);
    }
    total
}

#[cycle(stmt_nodes)]
fn of_stmts(stmts: &[Stmt]) -> u64
    ensures { result ≡ min (stmts_nodes stmts.now) (2 ^ 64 - 1) }
{
    let mut total: u64 = 0;
    for stmt in stmts {
        total = total.saturating_add(of_stmt(stmt));
    }
    total
}

#[cycle(stmt_nodes)]
fn of_stmt(stmt: &Stmt) -> u64
    ensures { result ≡ min (stmt_nodes stmt.now) (2 ^ 64 - 1) }
{
    match &stmt.kind {
        StmtKind::Block(body) => node(&[of_stmts(body.as_slice())]),
        StmtKind::Declare { init, .. } => node(&[of_option(init)]),
        StmtKind::Assign { target, value, .. } => node(&[
            of_target(target.get()),
            of_expr(value.get()),
        ]),
        StmtKind::Step { target, .. } => node(&[of_target(target.get())]),
        StmtKind::If { cond, then, other } => {
            node(&[of_expr(cond.get()), of_stmt(then.get()), of_held(other)])
        }
        StmtKind::While { cond, body } | StmtKind::DoWhile { body, cond } => {
            node(&[of_expr(cond.get()), of_stmt(body.get())])
        }
        StmtKind::For {
            first,
            cond,
            step,
            body,
        } => node(&[
            of_stmts(first.as_slice()),
            of_option(cond),
            of_held(step),
            of_stmt(body.get()),
        ]),
        StmtKind::Return(value) => node(&[of_option(value)]),
        StmtKind::Break | StmtKind::Continue | StmtKind::Empty => node(&[]),
    }
}

#[cycle(stmt_nodes)]
fn of_held(stmt: &Option<Boxed<Stmt>>) -> u64
    ensures { result ≡ min (held_nodes stmt.now) (2 ^ 64 - 1) }
{
    match stmt {
        None => 0,
        Some(stmt) => of_stmt(stmt.get()),
    }
}

fn of_target(target: &Target) -> u64
    ensures { result ≡ min (target_nodes target.now) (2 ^ 64 - 1) }
{
    of_exprs(target.indices.as_slice()).saturating_add(1)
}

fn of_option(expr: &Option<Boxed<Expr>>) -> u64
    ensures { result ≡ min (opt_nodes expr.now) (2 ^ 64 - 1) }
{
    match expr {
        None => 0,
        Some(expr) => of_expr(expr.get()),
    }
}

#[cycle(expr_nodes)]
fn of_exprs(exprs: &[Expr]) -> u64
    ensures { result ≡ min (exprs_nodes exprs.now) (2 ^ 64 - 1) }
{
    let mut total: u64 = 0;
    for expr in exprs {
        total = total.saturating_add(of_expr(expr));
    }
    total
}

// A loop down the left sides: `a + b + ..` is as deep as it is long.
#[cycle(expr_nodes)]
fn of_expr(expr: &Expr) -> u64
    ensures { result ≡ min (expr_nodes expr.now) (2 ^ 64 - 1) }
{
    let mut total: u64 = 0;
    let mut first = expr;
    'left: while let ExprKind::Binary(_, left, right) = &first.kind {
        total = total.saturating_add(node(&[of_expr(right.get())]));
        first = left.get();
    }
    total.saturating_add(of_operand(first))
}

#[cycle(expr_nodes)]
fn of_operand(expr: &Expr) -> u64
    ensures { result ≡ min (expr_nodes expr.now) (2 ^ 64 - 1) }
{
    match &expr.kind {
        ExprKind::Number { .. } | ExprKind::Name(_) => node(&[]),
        ExprKind::Element { indices, .. } => node(&[of_exprs(indices.as_slice())]),
        ExprKind::Call { args, .. } => node(&[of_exprs(args.as_slice())]),
        ExprKind::Unary(_, arg) | ExprKind::Cast(_, arg) => node(&[of_expr(arg.get())]),
        ExprKind::Binary(_, left, right) => node(&[of_expr(left.get()), of_expr(right.get())]),
        ExprKind::Choose(cond, then, other) => node(&[
            of_expr(cond.get()),
            of_expr(then.get()),
            of_expr(other.get()),
        ]),
    }
}

// A node and its parts, of these numbers of nodes.
fn node(parts: &[u64]) -> u64
    ensures { result ≡ min (1 + sum parts.now) (2 ^ 64 - 1) }
{
    let mut total: u64 = 1;
    for part in parts {
        total = total.saturating_add(*part);
    }
    total
}
