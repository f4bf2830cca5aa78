//! Typed expressions as text.
use anyhow::{Result, bail, ensure};
use c_ast::{Boxed, List, Typed, TypedExpr, TypedExprKind, TypedStmt, TypedStmtKind};
use el_base::MAX_KERNEL_BYTES;
use kernel_front::read_kernel;
use row_fields::Output;
use std::alloc::Global;

/// Writes the typed expression of the one `return` of a kernel text.
pub fn put_returned(alloc: Global, text: &[u8], out: &mut Output) -> Result<()> {
    ensure!(
        text.len() as u64 <= MAX_KERNEL_BYTES,
        "a kernel text that is too long"
    );
    match read_kernel(alloc, text) {
        Ok(kernel) => put_body(kernel.typed.body.as_slice(), out),
        Err(_) => bail!("a kernel text that is refused"),
    }
}

/// Writes the expression that the one statement of a body returns.
fn put_body(body: &[TypedStmt], out: &mut Output) -> Result<()> {
    let [only] = body else {
        bail!("a kernel of more than one statement");
    };
    match &only.kind {
        TypedStmtKind::Return(Some(value)) => {
            put(value, out);
            Ok(())
        }
        _ => bail!("a kernel of another statement"),
    }
}

/// Writes an expression: its kind with its parts, its type, and the first byte of its place.
#[cycle(put)]
fn put(expr: &TypedExpr, out: &mut Output) {
    out.word("(");
    match &expr.kind {
        TypedExprKind::Number(value) => out.number(*value),
        TypedExprKind::Var(var) => {
            out.word("v");
            out.number(*var);
        }
        TypedExprKind::Element { array, indices } => {
            out.word("a");
            out.number(*array);
            put_indices(indices.as_slice(), out);
        }
        TypedExprKind::Unary(op, arg) => {
            out.debug(op);
            put_part(arg, out);
        }
        TypedExprKind::Cast { implied, arg } => {
            out.word(if *implied { "cast!" } else { "cast" });
            put_part(arg, out);
        }
        TypedExprKind::Binary(op, left, right) => {
            out.debug(op);
            put_part(left, out);
            put_part(right, out);
        }
        TypedExprKind::Choose(cond, then, other) => {
            out.word("choose");
            put_part(cond, out);
            put_part(then, out);
            put_part(other, out);
        }
    }
    out.word(" ");
    out.debug(&expr.ty);
    out.word("@");
    out.number(expr.at.start);
    out.word(")");
}

/// Writes a part behind a space.
#[cycle(put)]
fn put_part(part: &Boxed<TypedExpr>, out: &mut Output) {
    out.word(" ");
    put(part.get(), out);
}

/// Writes each index behind a space.
#[cycle(put)]
fn put_indices(indices: &[TypedExpr], out: &mut Output) {
    for index in indices {
        out.word(" ");
        put(index, out);
    }
}
