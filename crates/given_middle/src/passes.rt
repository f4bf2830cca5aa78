//! What passes make of graphs, as text in the form in which graphs are told, without the word `times`.
ghost use Rattle.std.specs.Prelude.{◌≤◌, IfOk};
ghost use Rattle.ir.specs.Graphs.{size};

use crate::circuits::put_circuit;
use crate::graphs::read_graph;
use crate::kernels::graph_of;
use anyhow::{Result, bail, ensure};
use block_copy::copy;
use block_fold::fold;
use block_merge::merge;
use block_select::select;
use ir::{Block, Instr, Ir, Jump, To};
use row_fields::Output;
use std::alloc::Global;
use std::thread::Threads;

/// The graph that fields tell, whose values can be numbered.
fn told_graph(alloc: Global, fields: &[&str]) -> Result<Ir>
    ensures { IfOk result (λ g. size g ≤ 8000000) }
{
    let graph = read_graph(alloc, fields)?;
    let within = graph.has_size_within(8_000_000);
    ensure!(within, "a graph that is too great");
    Ok(graph)
}

/// Writes the blocks of the merged graph of a graph, and behind a tab what its circuit comes to on inputs, or that it has none.
pub fn put_merged<R: Threads + Sync>(
    rt: &R,
    alloc: Global,
    graph: &[&str],
    inputs: &str,
    out: &mut Output,
) -> Result<()> {
    let graph = told_graph(alloc, graph)?;
    match merge(alloc, &graph) {
        Ok(merged) => put_both(rt, alloc, &merged, inputs, out),
        Err(_) => bail!("want of memory"),
    }
}

/// Writes the blocks of the folded graph of a graph, and behind a tab what its circuit comes to on inputs, or that it has none.
pub fn put_folded<R: Threads + Sync>(
    rt: &R,
    alloc: Global,
    graph: &[&str],
    inputs: &str,
    out: &mut Output,
) -> Result<()> {
    let graph = told_graph(alloc, graph)?;
    match fold(alloc, &graph) {
        Ok(folded) => put_both(rt, alloc, &folded, inputs, out),
        Err(_) => bail!("want of memory"),
    }
}

/// The same of the graph whose sides are selected, where a block may weigh so much.
pub fn put_selected<R: Threads + Sync>(
    rt: &R,
    alloc: Global,
    most: u64,
    graph: &[&str],
    inputs: &str,
    out: &mut Output,
) -> Result<()> {
    let graph = told_graph(alloc, graph)?;
    ensure!(most <= 8_000_000, "a weight that is too great");
    match select(alloc, &graph, most) {
        Ok(selected) => put_both(rt, alloc, &selected, inputs, out),
        Err(_) => bail!("want of memory"),
    }
}

/// The same of the graph with copied joins, where a block may weigh so much.
pub fn put_copied<R: Threads + Sync>(
    rt: &R,
    alloc: Global,
    most: u64,
    graph: &[&str],
    inputs: &str,
    out: &mut Output,
) -> Result<()> {
    let graph = told_graph(alloc, graph)?;
    match copy(alloc, &graph, most) {
        Ok(copied) => put_both(rt, alloc, &copied, inputs, out),
        Err(_) => bail!("want of memory"),
    }
}

/// Writes the blocks of a kernel's graph, and behind a tab what its circuit comes to on inputs.
pub fn put_optimized<R: Threads + Sync>(
    rt: &R,
    alloc: Global,
    kernel: &str,
    inputs: &str,
    out: &mut Output,
) -> Result<()> {
    let graph = graph_of(alloc, kernel)?;
    put_both(rt, alloc, &graph, inputs, out)
}

/// Writes the blocks of a graph, and behind a tab what its circuit comes to on inputs, or that it has none.
fn put_both<R: Threads + Sync>(
    rt: &R,
    alloc: Global,
    graph: &Ir,
    inputs: &str,
    out: &mut Output,
) -> Result<()> {
    put_blocks(graph.look(), out);
    out.word("\t");
    put_circuit(rt, alloc, graph, inputs, out)
}

fn put_blocks(blocks: &[Block], out: &mut Output) {
    let mut before = "";
    for block in blocks {
        out.word(before);
        put_block(block, out);
        before = " | ";
    }
}

fn put_block(block: &Block, out: &mut Output) {
    out.word("block");
    put_numbers(block.args.as_slice(), out);
    for step in block.steps.as_slice() {
        out.word(" ; ");
        put_step(*step, out);
    }
    out.word(" ; ");
    put_jump(&block.jump, out);
}

/// Writes numbers, each behind a space.
fn put_numbers(numbers: &[u32], out: &mut Output) {
    for number in numbers {
        out.word(" ");
        out.number(*number);
    }
}

fn put_step(step: Instr, out: &mut Output) {
    match step {
        Instr::Const { width, value } => {
            put_named("const", &[width], out);
            out.word(" ");
            out.number(value);
        }
        Instr::One(op, a) => {
            out.word("one ");
            put_named(op.name(), &[a], out);
        }
        Instr::Two(op, a, b) => {
            out.word("two ");
            put_named(op.name(), &[a, b], out);
        }
        Instr::Select {
            width,
            cond,
            yes,
            no,
        } => put_named("select", &[width, cond, yes, no], out),
        Instr::Load { array, addr } => put_named("load", &[array, addr], out),
        Instr::Store { array, addr, value } => put_named("store", &[array, addr, value], out),
    }
}

/// Writes a word and numbers.
fn put_named(word: &str, numbers: &[u32], out: &mut Output) {
    out.word(word);
    put_numbers(numbers, out);
}

fn put_jump(jump: &Jump, out: &mut Output) {
    match jump {
        Jump::Go(to) => put_to("go", to, out),
        Jump::Two { cond, yes, no } => {
            put_named("if", &[*cond], out);
            put_to("", yes, out);
            put_to(" else", no, out);
        }
        Jump::Return(None) => out.word("return"),
        Jump::Return(Some(value)) => put_named("return", &[*value], out),
    }
}

/// Writes a word, a block to go to, and the values that it gets.
fn put_to(word: &str, to: &To, out: &mut Output) {
    put_named(word, &[to.block], out);
    put_numbers(to.with.as_slice(), out);
}
