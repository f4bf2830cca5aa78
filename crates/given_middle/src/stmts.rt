//! Statements of normal forms as text. What stands before a condition is in its parentheses, with a bar behind it.
use crate::exprs::{Places, put, put_indices, put_place};
use c_ast::{Boxed, List, NormalStmt, NormalStmtKind, Object, TypedExpr, TypedTarget};
use row_fields::Output;

/// Writes statements, each behind a space.
#[cycle(put_stmt)]
pub fn put_all(stmts: &[NormalStmt], places: Places, out: &mut Output) {
    for stmt in stmts {
        out.word(" ");
        put_stmt(stmt, places, out);
    }
}

/// Writes a statement, and maybe its place.
#[cycle(put_stmt)]
fn put_stmt(stmt: &NormalStmt, places: Places, out: &mut Output) {
    match &stmt.kind {
        NormalStmtKind::Block(body) => put_block(body.as_slice(), places, out),
        NormalStmtKind::Declare { var, init } => {
            out.word("var v");
            out.number(*var);
            put_value(" = ", init, places, out);
            out.word(";");
        }
        NormalStmtKind::Assign { target, value } => put_assignment(target, value, places, out),
        NormalStmtKind::If {
            before,
            cond,
            then,
            other,
        } => {
            put_test("if", before.as_slice(), cond, places, out);
            put_held(" ", then, places, out);
            if let Some(other) = other {
                put_held(" else ", other, places, out);
            }
        }
        NormalStmtKind::While { before, cond, body } => {
            put_test("while", before.as_slice(), cond, places, out);
            put_held(" ", body, places, out);
        }
        NormalStmtKind::DoWhile { body, before, cond } => {
            put_held("do ", body, places, out);
            put_test(" while", before.as_slice(), cond, places, out);
        }
        NormalStmtKind::For {
            first,
            before,
            cond,
            step,
            body,
        } => {
            out.word("for (");
            put_all(first.as_slice(), places, out);
            out.word(" |");
            put_all(before.as_slice(), places, out);
            out.word(" |");
            put_value(" ", cond, places, out);
            out.word(" |");
            if let Some(step) = step {
                put_held(" ", step, places, out);
            }
            out.word(" )");
            put_held(" ", body, places, out);
        }
        NormalStmtKind::Break => out.word("break;"),
        NormalStmtKind::Continue => out.word("continue;"),
        NormalStmtKind::Return(value) => {
            out.word("return");
            put_value(" ", value, places, out);
            out.word(";");
        }
        NormalStmtKind::Empty => out.word(";"),
    }
    put_place(stmt.at.start, places, out);
}

#[cycle(put_stmt)]
fn put_block(body: &[NormalStmt], places: Places, out: &mut Output) {
    out.word("{");
    put_all(body, places, out);
    out.word(" }");
}

fn put_assignment(target: &TypedTarget, value: &TypedExpr, places: Places, out: &mut Output) {
    match target.to {
        Object::Var(var) => {
            out.word("v");
            out.number(var);
        }
        Object::Array(array) => {
            out.word("a");
            out.number(array);
        }
    }
    put_indices(target.indices.as_slice(), places, out);
    put_place(target.at.start, places, out);
    out.word(" = ");
    put(value, places, out);
    out.word(";");
}

/// Writes a word, what stands before a condition, and it.
#[cycle(put_stmt)]
fn put_test(word: &str, before: &[NormalStmt], cond: &TypedExpr, places: Places, out: &mut Output) {
    out.word(word);
    out.word(" (");
    if !before.is_empty() {
        put_all(before, places, out);
        out.word(" | ");
    }
    put(cond, places, out);
    out.word(")");
}

/// Writes a value behind a word, where there is one.
fn put_value(word: &str, value: &Option<TypedExpr>, places: Places, out: &mut Output) {
    if let Some(value) = value {
        out.word(word);
        put(value, places, out);
    }
}

/// Writes a statement behind a word.
#[cycle(put_stmt)]
fn put_held(word: &str, stmt: &Boxed<NormalStmt>, places: Places, out: &mut Output) {
    out.word(word);
    put_stmt(stmt.get(), places, out);
}
