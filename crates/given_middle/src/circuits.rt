//! The circuits of graphs, with their counts and their runs.
use crate::graphs::read_graph;
use crate::kernels::graph_of;
use anyhow::{Context, Result, bail, ensure};
use circuit_build::build;
use el_base::{Label, MAX_INPUTS_BYTES};
use el_io::Open;
use ir::{Groups, Ir};
use lsq_groups::groups;
use net_check::{At, Checked, NetRefusal, check_net};
use net_runs::{RunOptions, RunRefusal, run_text};
use net_types::Net;
use row_fields::{Output, escaped, text_within};
use std::alloc::Global;
use std::thread::Threads;

/// What a run is asked for.
const OPTIONS: RunOptions = RunOptions {
    limit: 20_000,
    count: true,
    cycles: false,
    log: false,
    workers: None,
};

/// Writes what the circuit of a kernel comes to on inputs.
pub fn put_kernel<R: Threads + Sync>(
    rt: &R,
    alloc: Global,
    kernel: &str,
    inputs: &str,
    out: &mut Output,
) -> Result<()> {
    let graph = graph_of(alloc, kernel)?;
    put_circuit(rt, alloc, &graph, inputs, out)
}

/// Writes what the circuit of a graph comes to on inputs.
pub fn put_graph<R: Threads + Sync>(
    rt: &R,
    alloc: Global,
    graph: &[&str],
    inputs: &str,
    out: &mut Output,
) -> Result<()> {
    let graph = read_graph(alloc, graph)?;
    put_circuit(rt, alloc, &graph, inputs, out)
}

/// Writes the counts of a graph and of its circuit, and how its run on inputs ends; or that there is no circuit, since the net
/// that is built breaks a rule.
pub fn put_circuit<R: Threads + Sync>(
    rt: &R,
    alloc: Global,
    graph: &Ir,
    inputs: &str,
    out: &mut Output,
) -> Result<()> {
    let net = built(alloc, graph)?;
    ensure!(net.is_numbered(), "a net of too many units or channels");
    match check_net(alloc, net) {
        Ok(net) => put_checked(rt, alloc, graph, &net, inputs, out),
        Err(broken) => put_broken(&broken, out),
    }
}

/// Writes the counts of a graph and of its circuit, and how its run on inputs ends.
fn put_checked<R: Threads + Sync>(
    rt: &R,
    alloc: Global,
    graph: &Ir,
    net: &Checked,
    inputs: &str,
    out: &mut Output,
) -> Result<()> {
    put_counts(graph, net.net(), out)?;
    put_run(rt, alloc, net, inputs, out)
}

/// The net that is built of a graph.
fn built(alloc: Global, graph: &Ir) -> Result<Net> {
    let within = graph.has_size_within(8_000_000);
    ensure!(within, "a graph that is too great");
    ensure!(u32::try_from(graph.arrays.len()).is_ok(), "too many arrays");
    match groups(alloc, graph) {
        Ok(groups) => built_of(alloc, graph, &groups),
        Err(_) => bail!("want of memory"),
    }
}

/// The net that is built of a graph, whose loads and stores stand in groups.
fn built_of(alloc: Global, graph: &Ir, groups: &Groups) -> Result<Net> {
    match build(alloc, graph, groups) {
        Ok(net) => Ok(net),
        Err(_) => bail!("want of memory"),
    }
}

/// Writes how many blocks and which size the graph has, and how many units and channels the net has, with the bound of the
/// channels.
fn put_counts(graph: &Ir, net: &Net, out: &mut Output) -> Result<()> {
    let blocks = graph.look();
    let mut size: u64 = 0;
    for block in blocks {
        size = size.saturating_add(u64::try_from(block.weight())?);
    }
    let parameters = (graph.scalars.len() as u64).saturating_add(graph.arrays.len() as u64);
    let bound = size
        .saturating_add(parameters)
        .saturating_mul(8)
        .saturating_add(64);
    let channels = net.chans.len() as u64;
    ensure!(channels <= bound, "too many channels");
    let counts = [
        ("blocks ", blocks.len() as u64),
        (" size ", size),
        (" units ", net.units.len() as u64),
        (" channels ", channels),
        (" of ", bound),
    ];
    for (word, count) in counts {
        out.word(word);
        out.number(count);
    }
    out.word(" / ");
    Ok(())
}

/// Writes that there is no circuit, with the broken rule and what it names.
fn put_broken(broken: &NetRefusal, out: &mut Output) -> Result<()> {
    let at = broken.at().context("want of memory")?;
    out.word("no circuit: ");
    put_cause(broken.number(), broken.word(), out);
    match at {
        At::Unit(unit) => {
            out.word(" unit ");
            out.number(unit);
        }
        At::Chan(chan) => {
            out.word(" chan ");
            out.number(chan);
        }
        At::Net => out.word(" net"),
    }
    Ok(())
}

/// Writes a status, and the results of a run with the number of its firings, or what is wrong with it.
fn put_run<R: Threads + Sync>(
    rt: &R,
    alloc: Global,
    net: &Checked,
    inputs: &str,
    out: &mut Output,
) -> Result<()> {
    let text = text_within(alloc, inputs, MAX_INPUTS_BYTES)?;
    match run_text(rt, alloc, net, text.as_slice(), OPTIONS, &Open) {
        Ok(results) => put_results(alloc, results.as_slice(), out),
        Err(refused) => put_refused(&refused, out),
    }
}

/// Writes the status of a run that ended well, and its results.
fn put_results(alloc: Global, results: &[u8], out: &mut Output) -> Result<()> {
    let field = escaped(alloc, results)?;
    out.word("0 ");
    out.bytes(field.as_slice());
    Ok(())
}

/// Writes the status, the number and the word of a run's refusal, and what it names.
fn put_refused(refused: &RunRefusal, out: &mut Output) -> Result<()> {
    match refused {
        RunRefusal::Limit { limit } => {
            put_status("8 ", refused, out);
            out.word(" ");
            out.number(*limit);
        }
        RunRefusal::Stuck => put_status("9 ", refused, out),
        RunRefusal::Stray { name, .. } => {
            put_status("10 ", refused, out);
            out.word(" ");
            out.bytes(name.as_slice());
        }
        RunRefusal::Inputs(_) => bail!("{refused}"),
        RunRefusal::Schedule(_) | RunRefusal::NotEnabled { .. } => bail!("no replay"),
        RunRefusal::Memory => bail!("want of memory"),
    }
    Ok(())
}

/// Writes a status, and the number and the word of a refusal.
fn put_status(status: &str, refused: &RunRefusal, out: &mut Output) {
    out.word(status);
    put_cause(refused.number(), refused.word(), out);
}

/// Writes a number and a word behind each other, as in the lines of the program.
fn put_cause(number: Option<u32>, word: &'static str, out: &mut Output) {
    out.show(&Label { number, word });
}
