//! Workers that meet at a gate.
ghost use Rattle.std.specs.Prelude.{◌≤◌, ◌<◌, length};
ghost use Rattle.el_base.specs.Limits.{max_workers};
ghost use Rattle.net_types.specs.Inputs.{InputsFit};

use anyhow::{Result, bail, ensure};
use el_base::MAX_WORKERS;
use meeting_gate::Meeting;
use net_check::Checked;
use net_types::Inputs;
use net_worker::Worker;
use row_fields::Output;
use std::alloc::Global;
use std::thread::Threads;
use worker_run::run_workers;

/// How often the workers of a row meet.
const RUNS: u32 = 20;

/// How many firings they make at most.
const LIMIT: u64 = 100_000;

/// Writes how many firings the runs of workers make whose first turns are held until all have asked for theirs, and of each
/// run whether they met, and whether each has logged at least so many firings.
pub fn put_meetings<R: Threads + Sync>(
    rt: &R,
    alloc: Global,
    net: &Checked,
    inputs: &Inputs,
    least: &[u32],
    out: &mut Output,
) -> Result<()>
    requires { InputsFit net.now inputs.now }
{
    ensure!(
        !least.is_empty() && least.len() <= MAX_WORKERS as usize,
        "1 to 64 workers"
    );
    for _ in 0..RUNS {
        put_meeting(rt, alloc, net, inputs, least, out)?;
    }
    Ok(())
}

/// The same of one run.
fn put_meeting<R: Threads + Sync>(
    rt: &R,
    alloc: Global,
    net: &Checked,
    inputs: &Inputs,
    least: &[u32],
    out: &mut Output,
) -> Result<()>
    requires fit { InputsFit net.now inputs.now }
    requires some { 0 < length least.now }
    requires most { length least.now ≤ max_workers }
{
    let gate = Meeting::new(alloc, least.len() as u32)?;
    put_met(rt, alloc, net, inputs, least, &gate, out)
}

/// Writes how many firings a run makes whose workers ask a gate, whether they met there, and whether they have logged enough.
fn put_met<R: Threads + Sync>(
    rt: &R,
    alloc: Global,
    net: &Checked,
    inputs: &Inputs,
    least: &[u32],
    gate: &Meeting,
    out: &mut Output,
) -> Result<()>
    requires fit { InputsFit net.now inputs.now }
    requires some { 0 < length least.now }
    requires most { length least.now ≤ max_workers }
{
    let count = least.len() as u32;
    match run_workers(rt, alloc, net, inputs, count, LIMIT, false, gate) {
        Ok(report) => {
            out.number(report.firings);
            out.word(logged(report.crew.workers.as_slice(), least));
        }
        Err(_) => bail!("a net that is refused"),
    }
    out.word(gate.outcome());
    out.word("; ");
    ensure!(gate.outcome() == "met", "workers that did not meet");
    Ok(())
}

/// Whether the log of each worker has at least so many entries.
fn logged(workers: &[Worker], least: &[u32]) -> &'static str {
    for at in 0..least.len() {
        if at >= workers.len() || workers[at].log().len() < least[at] as usize {
            return " with a log that is short, ";
        }
    }
    " logged, "
}
