//! What the front end answers to a kernel text.
ghost use Rattle.std.specs.Prelude.{◌≤◌, IfOk, length};
ghost use Rattle.el_base.specs.Limits.{max_kernel_bytes};

use crate::refusals::put_cause;
use anyhow::{Context, Result, bail, ensure};
use c_ast::{List, Token, Tree};
use c_lex::{end_of, lex};
use c_parse::parse;
use el_base::MAX_KERNEL_BYTES;
use kernel_front::{KernelRefusal, read_kernel};
use row_fields::Output;
use std::alloc::Global;

/// The tokens of a kernel text that has some.
pub fn tokens_of(alloc: Global, text: &[u8]) -> Result<List<Token>>
    ensures { IfOk result (λ _. length text.now ≤ max_kernel_bytes) }
{
    ensure!(
        text.len() as u64 <= MAX_KERNEL_BYTES,
        "a kernel text that is too long"
    );
    match lex(alloc, text) {
        Ok(tokens) => Ok(tokens),
        Err(_) => bail!("a kernel text without tokens"),
    }
}

/// The tree of a kernel text that has one.
pub fn tree_of(alloc: Global, text: &[u8]) -> Result<Tree> {
    let tokens = tokens_of(alloc, text)?;
    match parse(alloc, tokens.as_slice(), end_of(text)) {
        Ok(tree) => Ok(tree),
        Err(_) => bail!("a kernel text without a tree"),
    }
}

/// Writes how many nodes the kernel of a text has, or where the text is refused and why.
pub fn put_kernel(alloc: Global, text: &[u8], out: &mut Output) -> Result<()> {
    ensure!(
        text.len() as u64 <= MAX_KERNEL_BYTES,
        "a kernel text that is too long"
    );
    match read_kernel(alloc, text) {
        Ok(kernel) => {
            out.word("ok N=");
            out.number(kernel.nodes);
            Ok(())
        }
        Err(refusal) => put_refusal(&refusal, out),
    }
}

/// Writes where a kernel text is refused and why.
fn put_refusal(refusal: &KernelRefusal, out: &mut Output) -> Result<()> {
    let at = refusal.span().context("memory ran out")?;
    out.number(at.line);
    out.word(":");
    out.number(at.column);
    out.word(": ");
    put_cause(refusal.number(), refusal.word(), out)
}
