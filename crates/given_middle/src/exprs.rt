//! Typed expressions as text.
use c_ast::{Boxed, List, TypedExpr, TypedExprKind};
use row_fields::Output;

/// Whether the first byte of each place is written.
#[derive(Clone, Copy, Debug, PartialEq, Eq)]
pub enum Places {
    Hidden,
    Written,
}

/// Writes an expression with its parts, its type, and maybe its place.
#[cycle(put)]
pub fn put(expr: &TypedExpr, places: Places, out: &mut Output) {
    match &expr.kind {
        TypedExprKind::Number(value) => out.number(*value),
        TypedExprKind::Var(var) => {
            out.word("v");
            out.number(*var);
        }
        TypedExprKind::Element { array, indices } => {
            out.word("a");
            out.number(*array);
            put_indices(indices.as_slice(), places, out);
        }
        TypedExprKind::Unary(op, arg) => {
            out.word("(");
            out.debug(op);
            put_part(" ", arg, places, out);
            out.word(")");
        }
        TypedExprKind::Cast { implied, arg } => {
            out.word(if *implied { "(implied" } else { "(cast" });
            put_part(" ", arg, places, out);
            out.word(")");
        }
        TypedExprKind::Binary(op, left, right) => {
            out.word("(");
            out.debug(op);
            put_part(" ", left, places, out);
            put_part(" ", right, places, out);
            out.word(")");
        }
        TypedExprKind::Choose(cond, then, other) => {
            put_part("(", cond, places, out);
            put_part(" ? ", then, places, out);
            put_part(" : ", other, places, out);
            out.word(")");
        }
    }
    out.word(":");
    out.debug(&expr.ty);
    put_place(expr.at.start, places, out);
}

/// Writes a part behind a word.
#[cycle(put)]
fn put_part(before: &str, part: &Boxed<TypedExpr>, places: Places, out: &mut Output) {
    out.word(before);
    put(part.get(), places, out);
}

/// Writes each index in brackets.
#[cycle(put)]
pub fn put_indices(indices: &[TypedExpr], places: Places, out: &mut Output) {
    for index in indices {
        out.word("[");
        put(index, places, out);
        out.word("]");
    }
}

/// Writes the first byte of a place, where places are written.
pub fn put_place(start: u32, places: Places, out: &mut Output) {
    match places {
        Places::Hidden => {}
        Places::Written => {
            out.word("@");
            out.number(start);
        }
    }
}
