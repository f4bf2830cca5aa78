//! Kernels with their graphs and their inputs as fields.
ghost use Rattle.std.specs.Prelude.{◌≡◌, ◌≤◌, IfOk, map};
ghost use Rattle.el_base.specs.Limits.{max_nodes};
ghost use Rattle.c_meaning.specs.Headers.{flat};
ghost use Rattle.c_meaning.specs.Lawful.{Lawful};
ghost use Rattle.c_ast.specs.Nodes.{typed_nodes};
ghost use Rattle.kernel_front.specs.declared.reading.Kernel.{Kernel};
ghost use Rattle.ref_interp.specs.Outcomes.{InputsFit};

use anyhow::{Result, bail};
use c_ast::Typed;
use el_base::{Array, MAX_INPUTS_BYTES, MAX_KERNEL_BYTES};
use inputs_text::read_inputs_of;
use ir::Ir;
use kernel_front::{Kernel, read_kernel};
use kernel_graph::block_graph;
use net_types::Inputs;
use ref_interp::{names_of_parameters_differ, scalars};
use row_fields::text_within;
use std::alloc::Global;

/// The kernel of a field.
pub fn kernel_of(alloc: Global, field: &str) -> Result<Kernel>
    ensures lawful { IfOk result (λ (k : Kernel). Lawful k.typed) }
    ensures few { IfOk result (λ (k : Kernel). typed_nodes k.typed ≤ max_nodes) }
{
    let text = text_within(alloc, field, MAX_KERNEL_BYTES)?;
    match read_kernel(alloc, text.as_slice()) {
        Ok(kernel) => Ok(kernel),
        Err(refusal) => bail!("{refusal}"),
    }
}

/// The block graph of a field's kernel.
pub fn graph_of(alloc: Global, field: &str) -> Result<Ir> {
    let kernel = kernel_of(alloc, field)?;
    match block_graph(alloc, &kernel.typed) {
        Ok(graph) => Ok(graph),
        Err(_) => bail!("want of memory"),
    }
}

/// The inputs of a kernel with these arrays that a field gives.
pub fn inputs_of(alloc: Global, typed: &Typed, arrays: &[Array], field: &str) -> Result<Inputs>
    requires lawful { Lawful typed.now }
    requires header { arrays.now ≡ map flat typed.now.arrays }
    ensures { IfOk result (InputsFit typed.now) }
{
    names_of_parameters_differ();
    let Ok(scalars) = scalars(alloc, typed.params.as_slice()) else {
        bail!("want of memory");
    };
    let text = text_within(alloc, field, MAX_INPUTS_BYTES)?;
    match read_inputs_of(alloc, scalars.as_slice(), arrays, text.as_slice()) {
        Ok(inputs) => Ok(inputs),
        Err(refusal) => bail!("{refusal}"),
    }
}
