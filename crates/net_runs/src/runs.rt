//! Runs by cycles and by workers, from text to text.
ghost use Rattle.std.specs.Prelude.{◌≡◌, ◌≤◌, length, None, Some, Ok, Err, IfOk, IfErr, IfSome};
ghost use Rattle.el_base.specs.Limits.{IsNumbered, max_firings};
ghost use Rattle.net_types.specs.Inputs.{InputsFit};
ghost use Rattle.net_core.specs.Runs.{AtRest};
ghost use Rattle.net_core.specs.States.{IsOf, state_of};
ghost use Rattle.net_runs.specs.Results.{IsRestFault, IsRunText};
ghost use Rattle.net_runs.specs.Runs.{IsRunRefusal, MayShare, Runs, RunsTo};

use crate::given::inputs_of;
use crate::options::RunOptions;
use crate::refusal::RunRefusal;
use crate::results::{run_text_of, stray};
use cycle_engine::{cycles_are_runs, run_cycles};
use el_io::Gate;
use net_check::Checked;
use net_core::completion;
use net_replay::RunFault;
use net_types::Inputs;
use std::alloc::Global;
use std::thread::Threads;
use worker_run::{Report, run_workers};

/// The text of a run of a net on the inputs that bytes give, by cycles, or by as many workers as are asked for, each in a
/// thread of its own that asks the gate before each sweep: the results of the one state at rest, and where they are asked for
/// the number of firings to it, that of the cycles in which they are made (0 by workers), and the firings, one cycle after
/// another, or in the order of the workers' stamps.
///
/// The bytes have to be fewer than 2^32, and the limit is in firings.
///
/// # Errors
///
/// `Inputs` where the bytes are no text of inputs of the net. `Limit` exactly where there are runs of more firings than the
/// limit. Else `Stuck` exactly where the exit has not fired in the state at rest, and `Stray` exactly where it has and an
/// address lay past an array, with the name of the first such array. `Memory` where memory ran out.
pub fn run_text<R: Threads + Sync, G: Gate + Sync>(
    rt: &R,
    alloc: Global,
    net: &Checked,
    inputs: &[u8],
    options: RunOptions,
    gate: &G,
) -> Result<Vec<u8>, RunRefusal>
    requires short { IsNumbered (length inputs.now) }
    requires limit { options.limit ≤ max_firings }
    requires shared { IfSome options.workers (MayShare options.limit) }
    ensures ok { IfOk result (λ text. Runs net.now inputs.now options (Ok text.items)) }
    ensures err { IfErr result (λ refused. Runs net.now inputs.now options (Err refused)) }
{
    match inputs_of(alloc, net, inputs) {
        Ok(inputs) => run_on(rt, alloc, net, &inputs, options, gate),
        Err(refused) => Err(refused),
    }
}

/// The same on inputs.
fn run_on<R: Threads + Sync, G: Gate + Sync>(
    rt: &R,
    alloc: Global,
    net: &Checked,
    inputs: &Inputs,
    options: RunOptions,
    gate: &G,
) -> Result<Vec<u8>, RunRefusal>
    requires fit { InputsFit net.now inputs.now }
    requires limit { options.limit ≤ max_firings }
    requires shared { IfSome options.workers (MayShare options.limit) }
    ensures ok { IfOk result (λ text. RunsTo net.now options text.items inputs.now) }
    ensures err { IfErr result (IsRunRefusal net.now inputs.now options) }
{
    match options.workers {
        None => run_by_cycles(alloc, net, inputs, options),
        Some(workers) => run_by_workers(rt, alloc, net, inputs, workers as u32, options, gate),
    }
}

/// By cycles.
fn run_by_cycles(
    alloc: Global,
    net: &Checked,
    inputs: &Inputs,
    options: RunOptions,
) -> Result<Vec<u8>, RunRefusal>
    requires fit { InputsFit net.now inputs.now }
    requires limit { options.limit ≤ max_firings }
    requires none { options.workers ≡ None }
    ensures ok { IfOk result (λ text. RunsTo net.now options text.items inputs.now) }
    ensures err { IfErr result (IsRunRefusal net.now inputs.now options) }
{
    completion();
    cycles_are_runs();
    let _ = net.net();
    match run_cycles(alloc, net, inputs, options.limit, options.log) {
        Ok(timed) => run_text_of(
            alloc,
            net,
            &timed.state,
            options,
            timed.firings,
            timed.cycles,
            timed.log.as_slice(),
        ),
        Err(RunFault::Limit { .. }) => Err(RunRefusal::Limit {
            limit: options.limit,
        }),
        Err(RunFault::Memory) => Err(RunRefusal::Memory),
        Err(RunFault::Stuck) => unreachable!(),
        Err(RunFault::Stray { .. }) => unreachable!(),
    }
}

/// By workers, who count no cycles.
fn run_by_workers<R: Threads + Sync, G: Gate + Sync>(
    rt: &R,
    alloc: Global,
    net: &Checked,
    inputs: &Inputs,
    workers: u32,
    options: RunOptions,
    gate: &G,
) -> Result<Vec<u8>, RunRefusal>
    requires fit { InputsFit net.now inputs.now }
    requires workers { options.workers ≡ Some workers }
    requires shared { MayShare options.limit workers }
    ensures ok { IfOk result (λ text. RunsTo net.now options text.items inputs.now) }
    ensures err { IfErr result (IsRunRefusal net.now inputs.now options) }
{
    completion();
    let _ = net.net();
    let limit = options.limit;
    match run_workers(rt, alloc, net, inputs, workers, limit, options.log, gate) {
        Ok(report) => report_text(alloc, net, report, options),
        Err(RunFault::Limit { .. }) => Err(RunRefusal::Limit { limit }),
        Err(RunFault::Memory) => Err(RunRefusal::Memory),
        Err(RunFault::Stuck) => Err(RunRefusal::Stuck),
        Err(RunFault::Stray { array }) => Err(stray(net, array)),
    }
}

/// The text of what the workers report.
fn report_text(
    alloc: Global,
    net: &Checked,
    report: Report,
    options: RunOptions,
) -> Result<Vec<u8>, RunRefusal>
    requires of { IsOf net.now report.state }
    requires rest { AtRest net.now (state_of report.state) }
    ensures ok { IfOk result (λ text. IsRunText net.now (state_of report.entry.state) options
        report.entry.firings 0 report.entry.log.items text.items) }
    ensures err { IfErr result (IsRestFault net.now (state_of report.entry.state)) }
{
    let firings = report.firings;
    run_text_of(
        alloc,
        net,
        &report.state,
        options,
        firings,
        0,
        report.log.as_slice(),
    )
}
