//! One worker alone beside the plain runner.
ghost use Rattle.std.specs.Prelude.{◌≤◌, ◌<◌};
ghost use Rattle.net_core.specs.States.{CountsWithin, IsOf, state_of};
ghost use Rattle.net_types.specs.Inputs.{InputsFit};
ghost use Rattle.net_worker.specs.Shares.{max_share};
ghost use Rattle.worker_run.specs.Crews.{AllWhole, AreACrew};

use crate::sweeps::sweep_one;
use anyhow::{Result, bail, ensure};
use el_base::{Log, MAX_SHARED_FIRINGS};
use net_check::Checked;
use net_core::State;
use net_replay::finish;
use net_types::{Firing, Inputs, List};
use net_worker::Swept;
use row_fields::Output;
use std::alloc::Global;
use worker_run::{Crew, merged_log, workers};

/// How many sweeps a worker makes at most.
const MOST_SWEEPS: u32 = 1_000_000;

/// Writes how many firings the plain runner makes, and whether one worker alone makes these, in their order.
pub fn put_alone(
    alloc: Global,
    net: &Checked,
    inputs: &Inputs,
    limit: u64,
    out: &mut Output,
) -> Result<()>
    requires { InputsFit net.now inputs.now }
{
    ensure!(
        0 < limit && limit <= MAX_SHARED_FIRINGS,
        "a limit of workers"
    );
    let plain = plain_firings(alloc, net, inputs, limit)?;
    put_beside(alloc, net, inputs, limit, plain.as_slice(), out)
}

/// The same, of the firings of the plain runner.
fn put_beside(
    alloc: Global,
    net: &Checked,
    inputs: &Inputs,
    limit: u64,
    plain: &[Firing],
    out: &mut Output,
) -> Result<()>
    requires fit { InputsFit net.now inputs.now }
    requires one { 0 < limit }
    requires limit { limit ≤ max_share }
{
    let worker = worker_firings(alloc, net, inputs, limit)?;
    put_compared(plain, worker.as_slice(), out);
    Ok(())
}

/// The firings of the plain runner, in their order.
fn plain_firings(alloc: Global, net: &Checked, inputs: &Inputs, limit: u64) -> Result<Log<Firing>>
    requires fit { InputsFit net.now inputs.now }
    requires limit { limit ≤ max_share }
{
    match State::new(alloc, net, inputs) {
        Ok(mut state) => firings_from(alloc, net, &mut state, limit),
        Err(_) => bail!("want of memory"),
    }
}

/// The firings of the plain runner from an opening state, in their order.
#[tactic(auto, using(crate::proofs::Counts::counts_within))]
fn firings_from(alloc: Global, net: &Checked, state: &mut State, limit: u64) -> Result<Log<Firing>>
    requires of { IsOf net.now state.old }
    requires counts { CountsWithin 0 (state_of state.old) }
    requires limit { limit ≤ max_share }
{
    match Log::with_room(alloc, limit) {
        Ok(mut log) => {
            let _ = finish(net, state, 0, limit, true, &mut log);
            Ok(log)
        }
        Err(_) => bail!("want of memory"),
    }
}

/// The firings of one worker that has all units, in their order.
fn worker_firings(alloc: Global, net: &Checked, inputs: &Inputs, limit: u64) -> Result<List<Firing>>
    requires fit { InputsFit net.now inputs.now }
    requires one { 0 < limit }
    requires limit { limit ≤ max_share }
{
    match workers(alloc, net, inputs, 1, limit) {
        Ok(mut crew) => firings_of(alloc, &mut crew),
        Err(_) => bail!("want of memory"),
    }
}

/// The firings of the first worker of a crew, in their order.
fn firings_of(alloc: Global, crew: &mut Crew) -> Result<List<Firing>>
    requires crew { AreACrew crew.old.tables crew.old.workers.items }
    requires whole { AllWhole crew.old.tables crew.old.workers.items }
{
    sweep_to_end(crew);
    match merged_log(alloc, crew) {
        Ok(log) => Ok(log),
        Err(_) => bail!("want of memory"),
    }
}

/// Sweeps the first worker of a crew until a sweep makes no firing.
fn sweep_to_end(crew: &mut Crew)
    requires crew { AreACrew crew.old.tables crew.old.workers.items }
    requires whole { AllWhole crew.old.tables crew.old.workers.items }
{
    if crew.workers.is_empty() {
        return;
    }
    'sweeps: for _ in 0..MOST_SWEEPS {
        let Swept::Fired(_) = sweep_one(crew, 0) else {
            return;
        };
    }
}

/// Writes the number of the first firings, and whether the second ones are the same, or from which on they are others.
fn put_compared(plain: &[Firing], worker: &[Firing], out: &mut Output) {
    out.number(plain.len());
    if plain == worker {
        out.word(" the same");
        return;
    }
    for at in 0..plain.len() {
        if worker.get(at) != plain.get(at) {
            out.word(" others from ");
            out.number(at);
            return;
        }
    }
    out.word(" more");
}
