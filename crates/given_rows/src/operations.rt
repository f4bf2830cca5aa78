//! What an operation gives.
use anyhow::{Context, Result, bail};
use row_fields::Output;
use std::alloc::Global;
use word_ops::{Op1, Op2, apply1, apply2};

/// Writes the result of the operation that a line names, on the line's operands.
pub fn put_result(alloc: Global, line: &str, out: &mut Output) -> Result<()> {
    let fields: Vec<&str> = line.split('\t').collect(alloc)?;
    put_fields(fields.as_slice(), out)
}

/// The same of the fields of a line.
fn put_fields(fields: &[&str], out: &mut Output) -> Result<()> {
    let [name, first, second] = fields else {
        bail!("a line is an operation and two fields");
    };
    let a: u64 = first.parse()?;
    if second.is_empty() {
        let op = Op1::of_name(name.as_bytes()).context("no operation on one operand")?;
        out.number(apply1(op, a));
    } else {
        let op = Op2::of_name(name.as_bytes()).context("no operation on two operands")?;
        out.number(apply2(op, a, second.parse()?));
    }
    Ok(())
}
