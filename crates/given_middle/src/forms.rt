//! The normal form of a kernel, on one line.
use crate::exprs::Places;
use crate::kernels::kernel_of;
use crate::stmts::put_all;
use anyhow::{Result, bail};
use c_ast::Normal;
use c_norm::normal;
use row_fields::Output;
use std::alloc::Global;

/// Writes the types of all variables of a kernel's normal form, and its statements.
pub fn put_form(alloc: Global, kernel: &str, places: Places, out: &mut Output) -> Result<()> {
    let kernel = kernel_of(alloc, kernel)?;
    match normal(alloc, &kernel.typed) {
        Ok(form) => {
            put_normal(&form, places, out);
            Ok(())
        }
        Err(_) => bail!("want of memory"),
    }
}

/// Writes the types of all variables of a normal form, and its statements.
fn put_normal(form: &Normal, places: Places, out: &mut Output) {
    for ty in form.vars.as_slice() {
        out.debug(ty);
        out.word(" ");
    }
    out.word("|");
    put_all(form.body.as_slice(), places, out);
}
