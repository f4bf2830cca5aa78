//! How many blocks statements close.
ghost use Rattle.std.specs.Prelude.{◌≡◌, ◌<◌, ◌^◌};
ghost use Rattle.c_meaning.specs.Sizes.{closes};
ghost use Rattle.c_meaning.specs.PartLaws.{blocks_of, blocks_if_any, blocks_of_step};

use c_ast::{NormalStmt, NormalStmtKind};
use el_base::Boxed;

/// How many blocks a statement closes.
///
/// It walks the statement and its parts. Each `if` and loop asks it of its parts, so that a statement is walked once for
/// each `if` and loop that it stands in.
#[cycle(closes)]
pub(crate) fn closes(stmt: &NormalStmt) -> u32
    requires { closes stmt.now.kind < 2 ^ 32 }
    ensures { result ≡ closes stmt.now.kind }
{
    match &stmt.kind {
        NormalStmtKind::Block(stmts) => blocks_of(stmts.as_slice()),
        NormalStmtKind::If {
            before,
            cond: _,
            then,
            other,
        } => blocks_of(before.as_slice()) + closes(then.get()) + blocks_if_any(other) + 3,
        NormalStmtKind::While {
            before,
            cond: _,
            body,
        } => blocks_of(before.as_slice()) + closes(body.get()) + 3,
        NormalStmtKind::DoWhile {
            body,
            before,
            cond: _,
        } => closes(body.get()) + blocks_of(before.as_slice()) + 3,
        NormalStmtKind::For {
            first,
            before,
            cond: _,
            step,
            body,
        } => {
            let outside = blocks_of(first.as_slice()) + blocks_of(before.as_slice());
            outside + closes(body.get()) + blocks_of_step(step) + 3
        }
        NormalStmtKind::Break | NormalStmtKind::Continue | NormalStmtKind::Return(_) => 1,
        NormalStmtKind::Declare { var: _, init: _ }
        | NormalStmtKind::Assign {
            target: _,
            value: _,
        }
        | NormalStmtKind::Empty => 0,
    }
}

#[cycle(closes)]
pub(crate) fn blocks_of(stmts: &[NormalStmt]) -> u32
    requires { blocks_of stmts.now < 2 ^ 32 }
    ensures { result ≡ blocks_of stmts.now }
{
    let mut total = 0;
    for stmt in stmts {
        total += closes(stmt);
    }
    total
}

#[cycle(closes)]
pub(crate) fn blocks_if_any(stmt: &Option<Boxed<NormalStmt>>) -> u32
    requires { blocks_if_any stmt.now < 2 ^ 32 }
    ensures { result ≡ blocks_if_any stmt.now }
{
    match stmt {
        None => 0,
        Some(stmt) => closes(stmt.get()),
    }
}

/// How many blocks the step of a `for` closes, with the way to it.
#[cycle(closes)]
pub(crate) fn blocks_of_step(step: &Option<Boxed<NormalStmt>>) -> u32
    requires { blocks_of_step step.now < 2 ^ 32 }
    ensures { result ≡ blocks_of_step step.now }
{
    match step {
        None => 0,
        Some(step) => closes(step.get()) + 1,
    }
}
