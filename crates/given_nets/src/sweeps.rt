//! A crew whose workers sweep in turn, all in one thread, and what is gathered of it.
ghost use Rattle.std.specs.Prelude.{◌≡◌, ◌<◌, ◌≤◌, length};
ghost use Rattle.el_base.specs.Limits.{max_workers};
ghost use Rattle.net_core.specs.Runs.{opening};
ghost use Rattle.net_core.specs.States.{IsOf, state_of};
ghost use Rattle.net_types.specs.Inputs.{InputsFit};
ghost use Rattle.net_worker.specs.Shares.{max_share};
ghost use Rattle.net_worker.specs.Views.{inputs_of, net_of};
ghost use Rattle.worker_run.specs.Crews.{AllWhole, AreACrew};

use anyhow::{Result, bail, ensure};
use el_base::{MAX_SHARED_FIRINGS, MAX_WORKERS};
use net_check::Checked;
use net_core::State;
use net_replay::print_schedule;
use net_types::{Firing, Inputs};
use net_worker::{Entries, Entry, Swept};
use row_fields::{Output, escaped};
use std::alloc::Global;
use worker_run::{Crew, gather, merged_log, workers};

/// Writes what the sweeps of a crew's workers answer, in turn, and what the crew comes to.
pub fn put_crew(
    alloc: Global,
    net: &Checked,
    inputs: &Inputs,
    count: u32,
    limit: u64,
    turns: &[u32],
    out: &mut Output,
) -> Result<()>
    requires { InputsFit net.now inputs.now }
{
    ensure!(0 < count && count <= MAX_WORKERS, "1 to 64 workers");
    ensure!(
        0 < limit && limit <= MAX_SHARED_FIRINGS,
        "a limit of workers"
    );
    put_made(alloc, net, inputs, count, limit, turns, out)
}

/// The same, of so many workers and firings as there may be.
fn put_made(
    alloc: Global,
    net: &Checked,
    inputs: &Inputs,
    count: u32,
    limit: u64,
    turns: &[u32],
    out: &mut Output,
) -> Result<()>
    requires fit { InputsFit net.now inputs.now }
    requires some { 0 < count }
    requires most { count ≤ max_workers }
    requires one { 0 < limit }
    requires limit { limit ≤ max_share }
{
    match workers(alloc, net, inputs, count, limit) {
        Ok(mut crew) => put_turned(alloc, net, inputs, &mut crew, turns, out),
        Err(_) => bail!("want of memory"),
    }
}

/// The same, of a crew.
fn put_turned(
    alloc: Global,
    net: &Checked,
    inputs: &Inputs,
    crew: &mut Crew,
    turns: &[u32],
    out: &mut Output,
) -> Result<()>
    requires fit { InputsFit net.now inputs.now }
    requires net { net_of crew.old.tables ≡ net.now }
    requires inputs { inputs_of crew.old.tables ≡ inputs.now }
    requires crew { AreACrew crew.old.tables crew.old.workers.items }
    requires whole { AllWhole crew.old.tables crew.old.workers.items }
{
    sweep_in_turn(alloc, crew, turns, out)?;
    put_log(alloc, crew, out)?;
    put_gathered(alloc, net, inputs, crew, out)
}

/// Sweeps of the workers of a crew, in turn, and what they answer.
fn sweep_in_turn(alloc: Global, crew: &mut Crew, turns: &[u32], out: &mut Output) -> Result<()>
    requires crew { AreACrew crew.old.tables crew.old.workers.items }
    requires whole { AllWhole crew.old.tables crew.old.workers.items }
    ensures tables { crew.new.tables ≡ crew.old.tables }
    ensures whole { AllWhole crew.new.tables crew.new.workers.items }
{
    for turn in turns {
        let at = *turn as usize;
        ensure!(at < crew.workers.len(), "no such worker");
        let swept = sweep_one(crew, at);
        put_swept(alloc, *turn, swept, crew.workers[at].log(), out)?;
    }
    Ok(())
}

/// One sweep of a worker of a crew.
pub fn sweep_one(crew: &mut Crew, at: usize) -> Swept
    requires within { at < length crew.old.workers.items }
    requires crew { AreACrew crew.old.tables crew.old.workers.items }
    requires whole { AllWhole crew.old.tables crew.old.workers.items }
    ensures tables { crew.new.tables ≡ crew.old.tables }
    ensures crew { AreACrew crew.new.tables crew.new.workers.items }
    ensures whole { AllWhole crew.new.tables crew.new.workers.items }
    ensures long { length crew.new.workers.items ≡ length crew.old.workers.items }
{
    crew.workers[at].sweep(&crew.tables)
}

/// Writes the number of a worker, what its sweep answered, and its log.
fn put_swept(
    alloc: Global,
    number: u32,
    swept: Swept,
    log: Entries,
    out: &mut Output,
) -> Result<()> {
    out.number(number);
    out.word(" ");
    out.debug(&swept);
    for entry in log {
        put_entry(alloc, entry, out)?;
    }
    out.word("; ");
    Ok(())
}

/// Writes an entry of a log behind a space: its firing and its stamp.
fn put_entry(alloc: Global, entry: Entry, out: &mut Output) -> Result<()> {
    let Ok(text) = print_schedule(alloc, &[entry.firing]) else {
        bail!("want of memory");
    };
    out.word(" ");
    out.bytes(text.as_slice().trim_ascii_end());
    out.word("@");
    out.number(entry.stamp);
    Ok(())
}

/// Writes the merged log of a crew, as a schedule.
fn put_log(alloc: Global, crew: &Crew, out: &mut Output) -> Result<()> {
    match merged_log(alloc, crew) {
        Ok(merged) => put_schedule(alloc, merged.as_slice(), out),
        Err(_) => bail!("want of memory"),
    }
}

/// Writes firings as a schedule.
fn put_schedule(alloc: Global, firings: &[Firing], out: &mut Output) -> Result<()> {
    match print_schedule(alloc, firings) {
        Ok(schedule) => put_text(alloc, schedule.as_slice(), out),
        Err(_) => bail!("want of memory"),
    }
}

/// Writes a text as a field.
fn put_text(alloc: Global, text: &[u8], out: &mut Output) -> Result<()> {
    let field = escaped(alloc, text)?;
    out.bytes(field.as_slice());
    out.word("; ");
    Ok(())
}

/// Writes how many firings a crew has when it is gathered, and the result.
fn put_gathered(
    alloc: Global,
    net: &Checked,
    inputs: &Inputs,
    crew: &mut Crew,
    out: &mut Output,
) -> Result<()>
    requires fit { InputsFit net.now inputs.now }
    requires net { net_of crew.old.tables ≡ net.now }
    requires inputs { inputs_of crew.old.tables ≡ inputs.now }
    requires whole { AllWhole crew.old.tables crew.old.workers.items }
{
    match State::new(alloc, net, inputs) {
        Ok(mut state) => {
            put_result(net, crew, &mut state, out);
            Ok(())
        }
        Err(_) => bail!("want of memory"),
    }
}

/// The same, with the opening state of the net.
fn put_result(net: &Checked, crew: &mut Crew, state: &mut State, out: &mut Output)
    requires net { net_of crew.old.tables ≡ net.now }
    requires whole { AllWhole crew.old.tables crew.old.workers.items }
    requires of { IsOf net.now state.old }
    requires opening { state_of state.old ≡ opening net.now (inputs_of crew.old.tables) }
{
    out.number(gather(net, crew, state));
    if let Some(value) = state.value() {
        out.word(" return ");
        out.number(value);
    }
}
