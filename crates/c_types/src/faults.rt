//! The first rule that a tree breaks: a walk with the names in force, which keeps the fault that
//! goes first.
ghost use Rattle.std.specs.Prelude.{◌≡◌, ◌∷◌, [], ◌+◌, ◌-◌, ◌^◌, min, IfOk, OnOk, length, not, nat_lt, nat_eq, ◌||◌};
ghost use Rattle.std.specs.List.{list_any};
ghost use Rattle.el_base.specs.Limits.{max_dimensions, max_elements};
ghost use Rattle.c_ast.specs.Typing.{elements_of, product_of};
ghost use Rattle.c_types.specs.Places.{first_of};
ghost use Rattle.c_types.specs.Scopes.{is_new_in, with_entry};
ghost use Rattle.c_types.specs.Faults.{
  broken_by_use,
  broken_by_call,
  call_faults,
  use_faults,
  expr_faults,
  exprs_faults,
  option_faults,
  target_faults,
  unless,
  is_returnable,
  sorts_after,
  sorts_after_all,
  stmt_faults,
  stmts_faults,
  inner_faults,
  sort_of_dims,
  param_faults,
  params_faults,
  sorts_after_params,
  block_faults,
  sorts_at_end,
  tree_faults,
};

use crate::fault::{Fault, Rule, earlier, first_bytes};
use crate::scopes::Scopes;
use crate::sort::Sort;
use c_ast::{Boxed, Expr, ExprKind, Name, Param, Span, Stmt, StmtKind, Target, Tree, Ty};
use el_base::{MAX_DIMENSIONS, MAX_ELEMENTS, Memory};
use std::alloc::Global;

// The fault of a tree that goes first, if it breaks any rule.
pub(crate) fn first_fault(alloc: Global, tree: &Tree) -> Result<Option<Fault>, Memory>
    ensures { IfOk result (λ f. f ≡ first_of (tree_faults tree.now)) }
{
    let mut scopes = Scopes::new(alloc);
    let (params, body) = (tree.params.as_slice(), tree.body.as_slice());
    of_block(&mut scopes, params, body, tree.result)
}

// Parameters and statements that share the innermost scope.
pub(crate) fn of_block(
    scopes: &mut Scopes<Sort>,
    params: &[Param],
    stmts: &[Stmt],
    returned: Option<Ty>,
) -> Result<Option<Fault>, Memory>
    ensures fault { IfOk result
        (λ f. f ≡ first_of (block_faults scopes.old params.now stmts.now returned)) }
    ensures scopes { OnOk result (scopes.new ≡ sorts_at_end scopes.old params.now stmts.now) }
{
    let in_params = of_params(scopes, params)?;
    let in_stmts = of_stmts(scopes, stmts, returned, false)?;
    Ok(earlier(in_params, in_stmts))
}

// ---- parameters

fn of_params(scopes: &mut Scopes<Sort>, params: &[Param]) -> Result<Option<Fault>, Memory>
    ensures fault { IfOk result (λ f. f ≡ first_of (params_faults params.now scopes.old 0)) }
    ensures scopes { OnOk result (scopes.new ≡ sorts_after_params scopes.old params.now) }
{
    let mut first = None;
    let mut total: u64 = 0;
    for param in params {
        let dims = param.dims.as_slice();
        total = total.saturating_add(elements(dims));
        let new = scopes.declare(&param.name, sort_of_dims(dims))?;
        first = earlier(first, of_param(param, new, total));
    }
    Ok(first)
}

// A parameter that is new or not, where the arrays up to it have so many elements.
#[tactic(auto, using(crate::proofs::FirstFaults::first_of_both))]
fn of_param(param: &Param, new: bool, total: u64) -> Option<Fault>
    ensures { result ≡ first_of (param_faults param.now new total) }
{
    let dims = param.dims.as_slice();
    let again = unless(new, Rule::Redeclared, param.at);
    let many = unless(are_few(dims), Rule::Dimensions, param.at);
    let long = unless(are_lengths(dims, total), Rule::Length, param.at);
    let rest = earlier(many, long);
    earlier(again, rest)
}

// Whether there are no more dimensions than an array may have.
fn are_few(dims: &[u64]) -> bool
    ensures { result ≡ not (nat_lt max_dimensions (length dims.now)) }
{
    dims.len() <= MAX_DIMENSIONS
}

// Whether no dimension is 0, and the arrays up to this one have no more elements than a kernel may.
fn are_lengths(dims: &[u64], total: u64) -> bool
    ensures { result ≡ not (list_any (λ d. nat_eq d 0) dims.now || nat_lt max_elements total) }
{
    !has_zero(dims) && total <= MAX_ELEMENTS
}

fn has_zero(dims: &[u64]) -> bool
    ensures { result ≡ list_any (λ d. nat_eq d 0) dims.now }
{
    dims.iter().any(|dim| *dim == 0)
}

fn sort_of_dims(dims: &[u64]) -> Sort
    ensures { result ≡ sort_of_dims dims.now }
{
    if dims.is_empty() {
        Sort::Scalar
    } else {
        Sort::Array(dims.len())
    }
}

// How many elements a parameter has, or 2^64 - 1 where there are more.
fn elements(dims: &[u64]) -> u64
    ensures { result ≡ min (elements_of dims.now) (2 ^ 64 - 1) }
{
    if dims.is_empty() { 0 } else { product(dims) }
}

fn product(dims: &[u64]) -> u64
    ensures { result ≡ min (product_of dims.now) (2 ^ 64 - 1) }
{
    match dims.split_first() {
        None => 1,
        Some((dim, rest)) => dim.saturating_mul(product(rest)),
    }
}

// ---- statements

#[cycle(stmt_faults)]
fn of_stmts(
    scopes: &mut Scopes<Sort>,
    stmts: &[Stmt],
    returned: Option<Ty>,
    in_loop: bool,
) -> Result<Option<Fault>, Memory>
    ensures fault { IfOk result
        (λ f. f ≡ first_of (stmts_faults stmts.now returned in_loop scopes.old)) }
    ensures scopes { OnOk result (scopes.new ≡ sorts_after_all scopes.old stmts.now) }
{
    let mut first = None;
    for stmt in stmts {
        first = earlier(first, of_stmt(scopes, stmt, returned, in_loop)?);
    }
    Ok(first)
}

#[cycle(stmt_faults)]
#[tactic(auto, using(crate::proofs::FirstFaults::first_of_both))]
fn of_stmt(
    scopes: &mut Scopes<Sort>,
    stmt: &Stmt,
    returned: Option<Ty>,
    in_loop: bool,
) -> Result<Option<Fault>, Memory>
    ensures fault { IfOk result
        (λ f. f ≡ first_of (stmt_faults stmt.now returned in_loop scopes.old)) }
    ensures scopes { OnOk result (scopes.new ≡ sorts_after scopes.old stmt.now.kind) }
{
    match &stmt.kind {
        StmtKind::Block(body) => {
            scopes.enter()?;
            let fault = of_stmts(scopes, body.as_slice(), returned, in_loop)?;
            scopes.leave();
            Ok(fault)
        }
        StmtKind::Declare { name, init, .. } => {
            let new = scopes.declare(name, Sort::Scalar)?;
            let again = unless(new, Rule::Redeclared, stmt.at);
            let in_init = of_option(scopes, init);
            Ok(earlier(again, in_init))
        }
        StmtKind::Assign { target, value, .. } => {
            let in_target = of_target(scopes, target);
            let in_value = of_boxed(scopes, value);
            Ok(earlier(in_target, in_value))
        }
        StmtKind::Step { target, .. } => Ok(of_target(scopes, target)),
        StmtKind::If { cond, then, other } => {
            let in_cond = of_boxed(scopes, cond);
            let in_then = of_inner(scopes, then, returned, in_loop)?;
            let in_other = of_held(scopes, other, returned, in_loop)?;
            let rest = earlier(in_then, in_other);
            Ok(earlier(in_cond, rest))
        }
        StmtKind::While { cond, body } => {
            let in_cond = of_boxed(scopes, cond);
            let in_body = of_inner(scopes, body, returned, true)?;
            Ok(earlier(in_cond, in_body))
        }
        StmtKind::DoWhile { body, cond } => {
            let in_body = of_inner(scopes, body, returned, true)?;
            let in_cond = of_boxed(scopes, cond);
            Ok(earlier(in_body, in_cond))
        }
        StmtKind::For {
            first,
            cond,
            step,
            body,
        } => {
            scopes.enter()?;
            let in_first = of_stmts(scopes, first.as_slice(), returned, false)?;
            let in_cond = of_option(scopes, cond);
            let in_step = of_held(scopes, step, returned, false)?;
            let in_body = of_inner(scopes, body, returned, true)?;
            scopes.leave();
            let last = earlier(in_step, in_body);
            let rest = earlier(in_cond, last);
            Ok(earlier(in_first, rest))
        }
        StmtKind::Break | StmtKind::Continue => Ok(unless(in_loop, Rule::OutsideLoop, stmt.at)),
        StmtKind::Return(value) => {
            let word = first_bytes(RETURN, stmt.at);
            let kind = unless(is_returnable(returned, value), Rule::ReturnKind, word);
            let in_value = of_option(scopes, value);
            Ok(earlier(kind, in_value))
        }
        StmtKind::Empty => Ok(None),
    }
}

// The length of the word `return`.
const RETURN: usize = 6;

// Whether a value is returned exactly where there is a result.
fn is_returnable(returned: Option<Ty>, value: &Option<Boxed<Expr>>) -> bool
    ensures { result ≡ is_returnable returned value.now }
{
    match (returned, value) {
        (None, None) | (Some(_), Some(_)) => true,
        (None, Some(_)) | (Some(_), None) => false,
    }
}

// A statement inside a statement, which may be absent.
#[cycle(stmt_faults)]
fn of_held(
    scopes: &mut Scopes<Sort>,
    stmt: &Option<Boxed<Stmt>>,
    returned: Option<Ty>,
    in_loop: bool,
) -> Result<Option<Fault>, Memory>
    ensures fault { IfOk result
        (λ f. f ≡ first_of (inner_faults stmt.now returned in_loop scopes.old)) }
    ensures scopes { OnOk result (scopes.new ≡ scopes.old) }
{
    match stmt {
        None => Ok(None),
        Some(stmt) => {
            scopes.enter()?;
            let fault = of_stmt(scopes, stmt.get(), returned, in_loop)?;
            scopes.leave();
            Ok(fault)
        }
    }
}

// A statement inside a statement, in a scope of its own.
#[cycle(stmt_faults)]
fn of_inner(
    scopes: &mut Scopes<Sort>,
    stmt: &Boxed<Stmt>,
    returned: Option<Ty>,
    in_loop: bool,
) -> Result<Option<Fault>, Memory>
    ensures fault { IfOk result
        (λ f. f ≡ first_of (stmt_faults stmt.now returned in_loop ([] ∷ scopes.old))) }
    ensures scopes { OnOk result (scopes.new ≡ scopes.old) }
{
    scopes.enter()?;
    let fault = of_stmt(scopes, stmt.get(), returned, in_loop)?;
    scopes.leave();
    Ok(fault)
}

// A rule that is broken at a place unless a condition holds.
pub(crate) fn unless(holds: bool, rule: Rule, span: Span) -> Option<Fault>
    ensures { result ≡ first_of (unless holds rule span) }
{
    if holds {
        None
    } else {
        Some(Fault { rule, span })
    }
}

// ---- expressions

fn of_target(scopes: &Scopes<Sort>, target: &Boxed<Target>) -> Option<Fault>
    ensures { result ≡ first_of (target_faults scopes.now target.now) }
{
    let target = target.get();
    let indices = target.indices.as_slice();
    let fault = of_use(scopes, &target.name, indices.len(), target.at);
    earlier(fault, of_exprs(scopes, indices))
}

fn of_option(scopes: &Scopes<Sort>, expr: &Option<Boxed<Expr>>) -> Option<Fault>
    ensures { result ≡ first_of (option_faults scopes.now expr.now) }
{
    match expr {
        None => None,
        Some(expr) => of_boxed(scopes, expr),
    }
}

fn of_boxed(scopes: &Scopes<Sort>, expr: &Boxed<Expr>) -> Option<Fault>
    ensures { result ≡ first_of (expr_faults scopes.now expr.now) }
{
    of_expr(scopes, expr.get())
}

#[cycle(expr_faults)]
fn of_exprs(scopes: &Scopes<Sort>, exprs: &[Expr]) -> Option<Fault>
    ensures { result ≡ first_of (exprs_faults scopes.now exprs.now) }
{
    let mut first = None;
    for expr in exprs {
        first = earlier(first, of_expr(scopes, expr));
    }
    first
}

#[cycle(expr_faults)]
#[tactic(auto, unfolding(crate::proofs::TreeRows::tree_rows))]
pub(crate) fn of_expr(scopes: &Scopes<Sort>, expr: &Expr) -> Option<Fault>
    ensures { result ≡ first_of (expr_faults scopes.now expr.now) }
{
    match &expr.kind {
        ExprKind::Number { .. } => None,
        ExprKind::Name(name) => of_use(scopes, name, 0, expr.at),
        ExprKind::Element { name, indices } => {
            let fault = of_use(scopes, name, indices.len(), expr.at);
            earlier(fault, of_exprs(scopes, indices.as_slice()))
        }
        ExprKind::Call { name, args } => {
            let fault = of_call(scopes, name, args.len(), expr.at);
            earlier(fault, of_exprs(scopes, args.as_slice()))
        }
        ExprKind::Unary(_, arg) => of_expr(scopes, arg.get()),
        ExprKind::Cast(_, arg) => of_expr(scopes, arg.get()),
        ExprKind::Binary(_, left, right) => {
            let in_left = of_expr(scopes, left.get());
            let in_right = of_expr(scopes, right.get());
            earlier(in_left, in_right)
        }
        ExprKind::Choose(cond, then, other) => {
            let in_cond = of_expr(scopes, cond.get());
            let in_then = of_expr(scopes, then.get());
            let in_other = of_expr(scopes, other.get());
            let sides = earlier(in_then, in_other);
            earlier(in_cond, sides)
        }
    }
}

// A name is used with so many indices, in a place that begins with it.
fn of_use(scopes: &Scopes<Sort>, name: &Name, indices: usize, at: Span) -> Option<Fault>
    ensures { result ≡ first_of (use_faults scopes.now name.now indices at) }
{
    let rule = broken_by_use(scopes.find(name), indices)?;
    Some(Fault {
        rule,
        span: first_bytes(name.as_slice().len(), at),
    })
}

// The rule that such a use breaks, if any.
fn broken_by_use(sort: Option<Sort>, indices: usize) -> Option<Rule>
    ensures { result ≡ broken_by_use sort indices }
{
    match sort {
        None => Some(Rule::Undeclared),
        Some(Sort::Scalar) if indices == 0 => None,
        Some(Sort::Scalar) => Some(Rule::NotArray),
        Some(Sort::Array(_)) if indices == 0 => Some(Rule::NotScalar),
        Some(Sort::Array(dims)) if indices == dims => None,
        Some(Sort::Array(_)) => Some(Rule::Dimensions),
        Some(Sort::Helper(_)) => Some(Rule::NotScalar),
    }
}

// A name is called with so many arguments, in a place that begins with it.
fn of_call(scopes: &Scopes<Sort>, name: &Name, arguments: usize, at: Span) -> Option<Fault>
    ensures { result ≡ first_of (call_faults scopes.now name.now arguments at) }
{
    let rule = broken_by_call(scopes.find(name), arguments)?;
    Some(Fault {
        rule,
        span: first_bytes(name.as_slice().len(), at),
    })
}

// The rule that such a call breaks, if any.
fn broken_by_call(sort: Option<Sort>, arguments: usize) -> Option<Rule>
    ensures { result ≡ broken_by_call sort arguments }
{
    match sort {
        None => Some(Rule::Undeclared),
        Some(Sort::Scalar) => Some(Rule::NotHelper),
        Some(Sort::Array(_)) => Some(Rule::NotHelper),
        Some(Sort::Helper(params)) if arguments == params => None,
        Some(Sort::Helper(_)) => Some(Rule::Arguments),
    }
}
