//! The number of syntax nodes of the kernel without calls, counted before it is made.
ghost use Rattle.std.specs.Prelude.{◌≡◌, ◌+◌, ◌-◌, ◌^◌, [], IfOk, map, min, slice_get, sum_by};
ghost use Rattle.c_ast.specs.Nodes.{params_nodes};
ghost use Rattle.c_calls.specs.Counts.{
  behind_nodes,
  block_nodes,
  blocks_nodes,
  call_nodes,
  calls_expr_nodes,
  calls_option_nodes,
  inlined_list_nodes,
  inlined_nodes,
  rest_expr_nodes,
  rest_option_nodes,
};
ghost use Rattle.c_inline.specs.Code.{
  assignment_nodes,
  at_most_u64,
  declared_nodes,
  held_nodes,
  step_nodes,
  stmt_nodes,
};

use c_ast::{
    Param, ProgExpr, ProgExprKind, ProgStmt, ProgStmtKind, ProgTarget, TypedHelper, TypedProgram,
};
use el_base::{Boxed, List, Memory};
use std::alloc::Global;

/// The number of nodes of the kernel without calls, or 2^64 - 1 where there are more: the block of each helper is counted
/// once, helper by helper, and each call adds what was counted. Time and memory grow as the program does.
///
/// # Errors
///
/// [`Memory`] where memory is wanting.
#[tactic(auto, using(crate::proofs::Stopped::nodes_stop))]
pub fn inlined_nodes(alloc: Global, program: &TypedProgram) -> Result<u64, Memory>
    ensures { IfOk result (λ n. n ≡ min (inlined_nodes program.now) (2 ^ 64 - 1)) }
{
    let blocks = blocks(alloc, program.helpers.as_slice())?;
    let params = of_params(program.kernel.params.as_slice());
    let body = of_stmts(blocks.as_slice(), program.kernel.body.as_slice());
    Ok(params.saturating_add(body).saturating_add(2))
}

/// The nodes of each helper's block, beside the declarations of its parameters.
#[tactic(auto, using(crate::proofs::Stopped::block_next))]
fn blocks(alloc: Global, helpers: &[TypedHelper]) -> Result<List<u64>, Memory>
    ensures { IfOk result (λ ns. ns ≡ map at_most_u64 (blocks_nodes [] helpers.now)) }
{
    let mut blocks = List::new(alloc);
    for helper in helpers {
        let block = of_block(blocks.as_slice(), helper);
        blocks.push(block)?;
    }
    Ok(blocks)
}

fn of_block(blocks: &[u64], helper: &TypedHelper) -> u64
    ensures { result ≡ min (block_nodes blocks.now helper.now) (2 ^ 64 - 1) }
{
    let stmts = of_stmts(blocks, helper.body.as_slice());
    let assigned = rest(&helper.value).saturating_add(2);
    let last = behind(calls(blocks, &helper.value), assigned);
    stmts.saturating_add(last).saturating_add(1)
}

fn of_params(params: &[Param]) -> u64
    ensures { result ≡ min (params_nodes params.now) (2 ^ 64 - 1) }
{
    let mut total: u64 = 0;
    for param in params {
        let dims = param.dims.as_slice().len() as u64;
        total = total.saturating_add(dims).saturating_add(1);
    }
    total
}

/// A statement of so many nodes behind blocks of so many: one block more holds them, where there are any.
fn behind(blocks: u64, own: u64) -> u64
    ensures { result ≡ min (behind_nodes blocks own) (2 ^ 64 - 1) }
{
    if blocks == 0 {
        own
    } else {
        blocks.saturating_add(own).saturating_add(1)
    }
}

/// The nodes of what is left of an expression.
#[cycle(rest)]
#[tactic(auto, unfolding(c_calls::proofs::TreeRows::prog_rows))]
fn rest(e: &ProgExpr) -> u64
    ensures { result ≡ min (rest_expr_nodes e.now) (2 ^ 64 - 1) }
{
    match &e.kind {
        ProgExprKind::Number(_) | ProgExprKind::Var(_) | ProgExprKind::Call { .. } => 1,
        ProgExprKind::Element { indices, .. } => rests(indices.as_slice()).saturating_add(1),
        ProgExprKind::Unary(_, arg) => rest(arg.get()).saturating_add(1),
        ProgExprKind::Cast { implied, arg } => {
            let inner = rest(arg.get());
            if *implied {
                inner
            } else {
                inner.saturating_add(1)
            }
        }
        ProgExprKind::Binary(_, left, right) => rest(left.get())
            .saturating_add(rest(right.get()))
            .saturating_add(1),
        ProgExprKind::Choose(cond, then, other) => rest(cond.get())
            .saturating_add(rest(then.get()))
            .saturating_add(rest(other.get()))
            .saturating_add(1),
    }
}

#[cycle(rest)]
fn rests(exprs: &[ProgExpr]) -> u64
    ensures { result ≡ min (sum_by rest_expr_nodes exprs.now) (2 ^ 64 - 1) }
{
    let mut total: u64 = 0;
    for e in exprs {
        total = total.saturating_add(rest(e));
    }
    total
}

fn rest_option(e: &Option<ProgExpr>) -> u64
    ensures { result ≡ min (rest_option_nodes e.now) (2 ^ 64 - 1) }
{
    match e {
        None => 0,
        Some(e) => rest(e),
    }
}

/// The nodes of the blocks of the calls of an expression.
#[cycle(calls)]
#[tactic(auto, using(crate::proofs::CountParts::calls_number, crate::proofs::CountParts::calls_var, crate::proofs::CountParts::calls_element, crate::proofs::CountParts::calls_unary, crate::proofs::CountParts::calls_cast, crate::proofs::CountParts::calls_binary, crate::proofs::CountParts::calls_choice, crate::proofs::CountParts::calls_call))]
fn calls(blocks: &[u64], e: &ProgExpr) -> u64
    ensures { result ≡ min (calls_expr_nodes blocks.now e.now) (2 ^ 64 - 1) }
{
    match &e.kind {
        ProgExprKind::Number(_) | ProgExprKind::Var(_) => 0,
        ProgExprKind::Element { indices, .. } => calls_all(blocks, indices.as_slice()),
        ProgExprKind::Unary(_, arg) | ProgExprKind::Cast { arg, .. } => calls(blocks, arg.get()),
        ProgExprKind::Binary(_, left, right) => {
            calls(blocks, left.get()).saturating_add(calls(blocks, right.get()))
        }
        ProgExprKind::Choose(cond, then, other) => calls(blocks, cond.get())
            .saturating_add(calls(blocks, then.get()))
            .saturating_add(calls(blocks, other.get())),
        ProgExprKind::Call { helper, args } => {
            let args = args.as_slice();
            calls_all(blocks, args).saturating_add(of_call(blocks, *helper, args))
        }
    }
}

#[cycle(calls)]
fn calls_all(blocks: &[u64], exprs: &[ProgExpr]) -> u64
    ensures { result ≡ min (sum_by (calls_expr_nodes blocks.now) exprs.now) (2 ^ 64 - 1) }
{
    let mut total: u64 = 0;
    for e in exprs {
        total = total.saturating_add(calls(blocks, e));
    }
    total
}

/// The block of a call, with the declarations of its parameters.
#[tactic(auto, using(crate::proofs::CountParts::call_stops))]
fn of_call(blocks: &[u64], helper: u32, args: &[ProgExpr]) -> u64
    ensures { result ≡ min
        (call_nodes (slice_get blocks.now helper) (sum_by declared_nodes args.now))
        (2 ^ 64 - 1) }
{
    match blocks.get(helper as usize) {
        None => 1,
        Some(block) => block.saturating_add(declared(args)),
    }
}

fn declared(args: &[ProgExpr]) -> u64
    ensures { result ≡ min (sum_by declared_nodes args.now) (2 ^ 64 - 1) }
{
    let mut total: u64 = 0;
    for arg in args {
        total = total.saturating_add(rest(arg)).saturating_add(1);
    }
    total
}

fn calls_option(blocks: &[u64], e: &Option<ProgExpr>) -> u64
    ensures { result ≡ min (calls_option_nodes blocks.now e.now) (2 ^ 64 - 1) }
{
    match e {
        None => 0,
        Some(e) => calls(blocks, e),
    }
}

#[cycle(stmts)]
fn of_stmts(blocks: &[u64], stmts: &[ProgStmt]) -> u64
    ensures { result ≡ min (inlined_list_nodes blocks.now stmts.now) (2 ^ 64 - 1) }
{
    let mut total: u64 = 0;
    for stmt in stmts {
        total = total.saturating_add(of_stmt(blocks, stmt));
    }
    total
}

#[cycle(stmts)]
#[tactic(auto, using(crate::proofs::CountParts::stmts_row, crate::proofs::CountParts::held_count, crate::proofs::CountParts::behind_joined), unfolding(c_calls::proofs::TreeRows::prog_rows))]
fn of_stmt(blocks: &[u64], stmt: &ProgStmt) -> u64
    ensures { result ≡ min (stmt_nodes blocks.now stmt.now) (2 ^ 64 - 1) }
{
    match &stmt.kind {
        ProgStmtKind::Block(stmts) => of_stmts(blocks, stmts.as_slice()).saturating_add(1),
        ProgStmtKind::Declare { init, .. } => of_optional(blocks, init),
        ProgStmtKind::Assign { target, value, .. } => of_assignment(blocks, target, value),
        ProgStmtKind::Step { target, .. } => of_step(blocks, target),
        ProgStmtKind::If { cond, then, other } => {
            let own = rest(cond)
                .saturating_add(of_stmt(blocks, then.get()))
                .saturating_add(of_held(blocks, other))
                .saturating_add(1);
            behind(calls(blocks, cond), own)
        }
        ProgStmtKind::While { cond, body } | ProgStmtKind::DoWhile { body, cond } => rest(cond)
            .saturating_add(of_stmt(blocks, body.get()))
            .saturating_add(1),
        ProgStmtKind::For {
            first,
            cond,
            step,
            body,
        } => of_stmts(blocks, first.as_slice())
            .saturating_add(rest_option(cond))
            .saturating_add(of_held(blocks, step))
            .saturating_add(of_stmt(blocks, body.get()))
            .saturating_add(1),
        ProgStmtKind::Return(value) => of_optional(blocks, value),
        ProgStmtKind::Break | ProgStmtKind::Continue | ProgStmtKind::Empty => 1,
    }
}

#[cycle(stmts)]
fn of_held(blocks: &[u64], stmt: &Option<Boxed<ProgStmt>>) -> u64
    ensures { result ≡ min (held_nodes blocks.now stmt.now) (2 ^ 64 - 1) }
{
    match stmt {
        None => 0,
        Some(stmt) => of_stmt(blocks, stmt.get()),
    }
}

/// A declaration or a `return`, with a value that may be absent.
#[tactic(auto, using(crate::proofs::CountParts::behind_joined))]
fn of_optional(blocks: &[u64], value: &Option<ProgExpr>) -> u64
    ensures { result ≡ min
        (behind_nodes (calls_option_nodes blocks.now value.now) (1 + rest_option_nodes value.now))
        (2 ^ 64 - 1) }
{
    behind(
        calls_option(blocks, value),
        rest_option(value).saturating_add(1),
    )
}

#[tactic(auto, using(crate::proofs::CountParts::behind_joined))]
fn of_assignment(blocks: &[u64], target: &ProgTarget, value: &ProgExpr) -> u64
    ensures { result ≡ min (assignment_nodes blocks.now target.now value.now) (2 ^ 64 - 1) }
{
    let indices = target.indices.as_slice();
    let own = rests(indices).saturating_add(rest(value)).saturating_add(2);
    let before = calls_all(blocks, indices).saturating_add(calls(blocks, value));
    behind(before, own)
}

#[tactic(auto, using(crate::proofs::CountParts::behind_joined))]
fn of_step(blocks: &[u64], target: &ProgTarget) -> u64
    ensures { result ≡ min (step_nodes blocks.now target.now) (2 ^ 64 - 1) }
{
    let indices = target.indices.as_slice();
    behind(calls_all(blocks, indices), rests(indices).saturating_add(2))
}
