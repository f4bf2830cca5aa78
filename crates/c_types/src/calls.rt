//! Calls that stand where none may: a walk over a program that keeps the one that goes first. A call
//! stands where it is evaluated exactly once for each time that its statement is.
ghost use Rattle.std.specs.Prelude.{◌≡◌};
ghost use Rattle.c_ast.specs.Programs.{joins_both, where_whole};
ghost use Rattle.c_types.specs.Places.{first_of};
ghost use Rattle.c_types.specs.CallPlaces.{
  call_places,
  expr_places,
  exprs_places,
  option_places,
  target_places,
  stmt_places,
  stmts_places,
  inner_places,
  helper_places,
  helpers_places,
  program_places,
};

use crate::fault::{Fault, Rule, earlier, first_bytes};
use crate::faults::unless;
use c_ast::{Binary, Boxed, Expr, ExprKind, Helper, Name, Program, Span, Stmt, StmtKind, Target};

// The call of a program that stands where none may, and of several the one that goes first.
#[tactic(auto, using(crate::proofs::FirstFaults::first_of_both))]
pub(crate) fn first_misplaced(program: &Program) -> Option<Fault>
    ensures { result ≡ first_of (program_places program.now) }
{
    let in_helpers = of_helpers(program.helpers.as_slice());
    let in_kernel = of_stmts(program.kernel.body.as_slice());
    earlier(in_helpers, in_kernel)
}

fn of_helpers(helpers: &[Helper]) -> Option<Fault>
    ensures { result ≡ first_of (helpers_places helpers.now) }
{
    let mut first = None;
    for helper in helpers {
        first = earlier(first, of_helper(helper));
    }
    first
}

#[tactic(auto, using(crate::proofs::FirstFaults::first_of_both))]
fn of_helper(helper: &Helper) -> Option<Fault>
    ensures { result ≡ first_of (helper_places helper.now) }
{
    let in_body = of_stmts(helper.body.as_slice());
    let in_value = of_expr(&helper.value, true);
    earlier(in_body, in_value)
}

// ---- statements

#[cycle(stmt_places)]
fn of_stmts(stmts: &[Stmt]) -> Option<Fault>
    ensures { result ≡ first_of (stmts_places stmts.now) }
{
    let mut first = None;
    for stmt in stmts {
        first = earlier(first, of_stmt(stmt));
    }
    first
}

#[cycle(stmt_places)]
#[tactic(auto, using(crate::proofs::FirstFaults::first_of_both, crate::proofs::CallLayers::acts_are_list, crate::proofs::CallLayers::held_is_inner), unfolding(crate::proofs::TreeRows::tree_rows))]
fn of_stmt(stmt: &Stmt) -> Option<Fault>
    ensures { result ≡ first_of (stmt_places stmt.now) }
{
    match &stmt.kind {
        StmtKind::Block(body) => of_stmts(body.as_slice()),
        StmtKind::Declare { init, .. } => of_option(init, true),
        StmtKind::Assign { target, value, .. } => {
            let in_target = of_target(target);
            let in_value = of_boxed(value, true);
            earlier(in_target, in_value)
        }
        StmtKind::Step { target, .. } => of_target(target),
        StmtKind::If { cond, then, other } => {
            let in_cond = of_boxed(cond, true);
            let in_then = of_stmt(then.get());
            let in_other = of_held(other);
            let rest = earlier(in_then, in_other);
            earlier(in_cond, rest)
        }
        StmtKind::While { cond, body } => {
            let in_cond = of_boxed(cond, false);
            let in_body = of_stmt(body.get());
            earlier(in_cond, in_body)
        }
        StmtKind::DoWhile { body, cond } => {
            let in_body = of_stmt(body.get());
            let in_cond = of_boxed(cond, false);
            earlier(in_body, in_cond)
        }
        StmtKind::For {
            first,
            cond,
            step,
            body,
        } => {
            let in_first = of_stmts(first.as_slice());
            let in_cond = of_option(cond, false);
            let in_step = of_held(step);
            let in_body = of_stmt(body.get());
            let last = earlier(in_step, in_body);
            let rest = earlier(in_cond, last);
            earlier(in_first, rest)
        }
        StmtKind::Return(value) => of_option(value, true),
        StmtKind::Break | StmtKind::Continue | StmtKind::Empty => None,
    }
}

// A statement inside a statement, which may be absent.
#[cycle(stmt_places)]
fn of_held(stmt: &Option<Boxed<Stmt>>) -> Option<Fault>
    ensures { result ≡ first_of (inner_places stmt.now) }
{
    match stmt {
        None => None,
        Some(stmt) => of_stmt(stmt.get()),
    }
}

fn of_target(target: &Boxed<Target>) -> Option<Fault>
    ensures { result ≡ first_of (target_places target.now) }
{
    of_exprs(target.get().indices.as_slice(), true)
}

// ---- expressions, which stand where calls may stand or not

fn of_option(expr: &Option<Boxed<Expr>>, may: bool) -> Option<Fault>
    ensures { result ≡ first_of (option_places may expr.now) }
{
    match expr {
        None => None,
        Some(expr) => of_boxed(expr, may),
    }
}

fn of_boxed(expr: &Boxed<Expr>, may: bool) -> Option<Fault>
    ensures { result ≡ first_of (expr_places may expr.now) }
{
    of_expr(expr.get(), may)
}

#[cycle(expr_places)]
fn of_exprs(exprs: &[Expr], may: bool) -> Option<Fault>
    ensures { result ≡ first_of (exprs_places may exprs.now) }
{
    let mut first = None;
    for expr in exprs {
        first = earlier(first, of_expr(expr, may));
    }
    first
}

#[cycle(expr_places)]
#[tactic(auto, using(crate::proofs::FirstFaults::first_of_both, crate::proofs::CallLayers::row_is_list), unfolding(crate::proofs::TreeRows::tree_rows))]
fn of_expr(expr: &Expr, may: bool) -> Option<Fault>
    ensures { result ≡ first_of (expr_places may expr.now) }
{
    match &expr.kind {
        ExprKind::Number { .. } | ExprKind::Name(_) => None,
        ExprKind::Element { indices, .. } => of_exprs(indices.as_slice(), may),
        ExprKind::Call { name, args } => {
            let here = of_call(name, may, expr.at);
            let in_args = of_exprs(args.as_slice(), may);
            earlier(here, in_args)
        }
        ExprKind::Unary(_, arg) => of_expr(arg.get(), may),
        ExprKind::Cast(_, arg) => of_expr(arg.get(), may),
        ExprKind::Binary(op, left, right) => {
            let in_left = of_expr(left.get(), may);
            let in_right = of_expr(right.get(), may_in_right(*op, may));
            earlier(in_left, in_right)
        }
        ExprKind::Choose(cond, then, other) => {
            let in_cond = of_expr(cond.get(), may);
            let in_then = of_expr(then.get(), false);
            let in_other = of_expr(other.get(), false);
            let sides = earlier(in_then, in_other);
            earlier(in_cond, sides)
        }
    }
}

// A call in a place that begins with the called name.
fn of_call(name: &Name, may: bool, at: Span) -> Option<Fault>
    ensures { result ≡ first_of (call_places may name.now at) }
{
    let word = first_bytes(name.as_slice().len(), at);
    unless(may, Rule::CallPlace, word)
}

// Whether calls may stand in the right operand of an operator that stands where they may or not.
fn may_in_right(op: Binary, may: bool) -> bool
    ensures { result ≡ where_whole (joins_both op) may }
{
    match op {
        Binary::Both | Binary::Either => false,
        _ => may,
    }
}
