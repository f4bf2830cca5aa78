//! How two binary operators group.
use crate::kernels::tree_of;
use anyhow::{Context, Result, bail};
use c_ast::{Expr, ExprKind, StmtKind, Tree};
use row_fields::Output;
use std::alloc::Global;

/// Writes which of the two operators of a line is the one of the whole value in `a LEFT a RIGHT a`: `left` or `right`.
pub fn put_whole(alloc: Global, line: &str, out: &mut Output) -> Result<()> {
    let (left, right) = line.split_once('\t').context("a line is two operators")?;
    let mut text = Output::new(alloc);
    text.word("int f(int a) { return a ");
    text.word(left);
    text.word(" a ");
    text.word(right);
    text.word(" a; }");
    let text = text.finish()?;
    let tree = tree_of(alloc, text.as_slice())?;
    put_side(&tree, out)
}

/// Writes which side's operator the returned value is of.
fn put_side(tree: &Tree, out: &mut Output) -> Result<()> {
    let value = returned(tree).context("a kernel of another form")?;
    out.word(whole_of(value).context("a value of another form")?);
    Ok(())
}

/// Which side's operator an expression of two operators is of.
fn whole_of(value: &Expr) -> Option<&'static str> {
    match &value.kind {
        ExprKind::Binary(_, first, second) => match (&first.get().kind, &second.get().kind) {
            (ExprKind::Binary(..), ExprKind::Name(_)) => Some("right"),
            (ExprKind::Name(_), ExprKind::Binary(..)) => Some("left"),
            _ => None,
        },
        _ => None,
    }
}

/// The value that the one statement of a kernel returns.
fn returned(tree: &Tree) -> Option<&Expr> {
    match tree.body.as_slice() {
        [only] => match &only.kind {
            StmtKind::Return(Some(value)) => Some(value.get()),
            _ => None,
        },
        _ => None,
    }
}
