//! Walks along the block graphs of kernels.
ghost use Rattle.std.specs.Prelude.{◌≡◌, ◌≤◌, map};
ghost use Rattle.el_base.specs.Limits.{max_nodes};
ghost use Rattle.c_ast.specs.Nodes.{typed_nodes};
ghost use Rattle.c_meaning.specs.Headers.{flat};
ghost use Rattle.c_meaning.specs.Lawful.{Lawful};

use crate::kernels::{graph_of, inputs_of, kernel_of};
use anyhow::{Result, bail};
use c_ast::Typed;
use el_base::{Array, number};
use ir::{Ending, Ir, Walk};
use kernel_graph::block_graph;
use ref_interp::flat_arrays;
use row_fields::Output;
use std::alloc::Global;

/// How many visits a walk may have.
const LIMIT: u32 = 40_000;

/// Writes what the graph of a kernel returns on inputs.
pub fn put_walk(alloc: Global, kernel: &str, inputs: &str, out: &mut Output) -> Result<()> {
    let kernel = kernel_of(alloc, kernel)?;
    put_typed(alloc, &kernel.typed, inputs, out)
}

/// The same, of a typed kernel.
fn put_typed(alloc: Global, typed: &Typed, inputs: &str, out: &mut Output) -> Result<()>
    requires lawful { Lawful typed.now }
    requires few { typed_nodes typed.now ≤ max_nodes }
{
    match block_graph(alloc, typed) {
        Ok(graph) => put_on_graph(alloc, typed, &graph, inputs, out),
        Err(_) => bail!("want of memory"),
    }
}

/// The same, of a typed kernel with its graph.
fn put_on_graph(
    alloc: Global,
    typed: &Typed,
    graph: &Ir,
    inputs: &str,
    out: &mut Output,
) -> Result<()>
    requires { Lawful typed.now }
{
    match flat_arrays(alloc, typed) {
        Ok(arrays) => put_on_arrays(alloc, typed, graph, arrays.as_slice(), inputs, out),
        Err(_) => bail!("want of memory"),
    }
}

/// The same, of a typed kernel with its graph and its arrays.
fn put_on_arrays(
    alloc: Global,
    typed: &Typed,
    graph: &Ir,
    arrays: &[Array],
    inputs: &str,
    out: &mut Output,
) -> Result<()>
    requires lawful { Lawful typed.now }
    requires header { arrays.now ≡ map flat typed.now.arrays }
{
    let inputs = inputs_of(alloc, typed, arrays, inputs)?;
    match graph.walk(alloc, inputs.scalars, inputs.arrays, LIMIT) {
        Ok(walk) => {
            put_end(graph, &walk, out);
            Ok(())
        }
        Err(_) => bail!("want of memory"),
    }
}

/// Writes how many arguments each block of the graph of a kernel has, but block 0.
pub fn put_arguments(alloc: Global, kernel: &str, out: &mut Output) -> Result<()> {
    let graph = graph_of(alloc, kernel)?;
    let mut is_first = true;
    for block in graph.look().iter().skip(1) {
        if !is_first {
            out.word(" ");
        }
        is_first = false;
        out.number(block.args.as_slice().len());
    }
    Ok(())
}

/// Writes how a walk ended: its strays, the arrays and the result, a line each.
fn put_end(graph: &Ir, walk: &Walk, out: &mut Output) {
    let Ending::Returned(value) = walk.ending else {
        out.word("unfinished");
        return;
    };
    out.word("strays ");
    out.number(walk.strays);
    out.word("\\n");
    for (array, elements) in graph.arrays.as_slice().iter().zip(walk.arrays.as_slice()) {
        put_array(array, elements.as_slice(), out);
    }
    if let (Some(ty), Some(value)) = (graph.result, value) {
        out.word("return = ");
        out.number(number(ty, value));
        out.word("\\n");
    }
}

/// Writes an array's name and its numbers.
fn put_array(array: &Array, elements: &[u64], out: &mut Output) {
    out.bytes(array.name.as_slice());
    out.word(" =");
    for element in elements {
        out.word(" ");
        out.number(number(array.ty, *element));
    }
    out.word("\\n");
}
