//! Runs of nets on inputs, by the plain runner, by cycles and by given schedules.
ghost use Rattle.net_types.specs.Inputs.{InputsFit};
ghost use Rattle.net_core.specs.Runs.{AtRest};
ghost use Rattle.net_core.specs.States.{CountsWithin, IsOf, state_of};

use anyhow::{Context, Result, bail};
use cycle_engine::run_cycles;
use el_base::{Array, Label, Log, MAX_SCHEDULE_BYTES, number};
use inputs_text::InputRefusal;
use lsq_core::Queue;
use net_check::Checked;
use net_core::State;
use net_replay::{
    Ended, Replay, ReplayFault, RunFault, finish, judge, print_schedule, read_schedule, replay,
};
use net_types::{Firing, Inputs};
use row_fields::{Output, text_within};
use std::alloc::Global;

/// How many firings a run may have.
const LIMIT: u64 = 20_000;

/// What a run at rest is told by, where nothing is wrong with it.
#[derive(Clone, Copy)]
enum Told {
    /// The results, and how many firings were made.
    Results { made: u64 },
    /// How many firings were made in how many cycles.
    Cycles { made: u64, cycles: u64 },
}

/// Writes the line or the name of a refusal after its number and its word.
pub fn put_refusal(refusal: &InputRefusal, out: &mut Output) {
    out.word("6 ");
    put_cause(refusal.number(), refusal.word(), out);
    put_line(refusal.line(), out);
    if let Some(name) = refusal.name() {
        out.word(" ");
        out.bytes(name.as_slice());
    }
}

/// Writes a number and a word behind each other, as in the lines of the program.
pub fn put_cause(number: Option<u32>, word: &'static str, out: &mut Output) {
    out.show(&Label { number, word });
}

/// Writes the number of a line behind a space, where there is one.
fn put_line(line: Option<u32>, out: &mut Output) {
    if let Some(line) = line {
        out.word(" ");
        out.number(line);
    }
}

/// Runs the net and writes how the run ends.
pub fn put_run(alloc: Global, net: &Checked, inputs: &Inputs, out: &mut Output) -> Result<()>
    requires { InputsFit net.now inputs.now }
{
    match State::new(alloc, net, inputs) {
        Ok(mut state) => put_finished(alloc, net, &mut state, out),
        Err(_) => bail!("want of memory"),
    }
}

/// Runs the net on from its opening state and writes how the run ends.
#[tactic(auto, using(crate::proofs::Counts::counts_within))]
fn put_finished(alloc: Global, net: &Checked, state: &mut State, out: &mut Output) -> Result<()>
    requires of { IsOf net.now state.old }
    requires counts { CountsWithin 0 (state_of state.old) }
{
    let Ok(mut log) = Log::<Firing>::with_room(alloc, 0) else {
        bail!("want of memory");
    };
    match finish(net, state, 0, LIMIT, false, &mut log) {
        Ended::Limit => put_fault(net, RunFault::Limit { limit: LIMIT }, out),
        Ended::Rest { made } => put_rest(net, state, Told::Results { made }, out),
    }
}

/// Runs the net by cycles and writes how many firings and cycles the run has, or what is wrong.
pub fn put_cycles(alloc: Global, net: &Checked, inputs: &Inputs, out: &mut Output) -> Result<()>
    requires { InputsFit net.now inputs.now }
{
    match run_cycles(alloc, net, inputs, LIMIT, true) {
        Ok(timed) => {
            let told = Told::Cycles {
                made: timed.firings,
                cycles: timed.cycles,
            };
            put_rest(net, &timed.state, told, out)
        }
        Err(fault) => put_fault(net, fault, out),
    }
}

/// Writes where a schedule leads, or why it is none.
pub fn put_replay(
    alloc: Global,
    net: &Checked,
    inputs: &Inputs,
    schedule: &str,
    out: &mut Output,
) -> Result<()>
    requires { InputsFit net.now inputs.now }
{
    let schedule = text_within(alloc, schedule, MAX_SCHEDULE_BYTES)?;
    match read_schedule(alloc, schedule.as_slice()) {
        Ok(firings) => put_replayed(alloc, net, inputs, firings.as_slice(), out),
        Err(refusal) => {
            out.word("7 ");
            put_cause(refusal.number(), refusal.word(), out);
            put_line(refusal.line(), out);
            Ok(())
        }
    }
}

/// Writes where firings lead.
fn put_replayed(
    alloc: Global,
    net: &Checked,
    inputs: &Inputs,
    firings: &[Firing],
    out: &mut Output,
) -> Result<()>
    requires { InputsFit net.now inputs.now }
{
    let Ok(made) = u32::try_from(firings.len()) else {
        bail!("a schedule that is too long");
    };
    let told = Told::Results { made: made as u64 };
    match replay(alloc, net, inputs, firings) {
        Ok(Replay::AtRest(state)) => put_rest(net, &state, told, out),
        Ok(Replay::Goes { state, next }) => put_going(alloc, net, &state, next, out),
        Err(ReplayFault::NotEnabled { index }) => {
            out.word("7 61 NotEnabled ");
            out.number(index);
            Ok(())
        }
        Err(ReplayFault::Memory) => bail!("want of memory"),
    }
}

/// Writes the next firing of a run that goes on, and what is held before it.
fn put_going(
    alloc: Global,
    net: &Checked,
    state: &State,
    next: Firing,
    out: &mut Output,
) -> Result<()>
    requires { IsOf net.now state.now }
{
    let Ok(text) = print_schedule(alloc, &[next]) else {
        bail!("want of memory");
    };
    out.word("0 next ");
    out.bytes(text.as_slice().trim_ascii_end());
    out.word("\\n");
    put_held(net, state, out);
    Ok(())
}

/// Writes how many tokens each channel holds, and how many entries each queue, a line each.
fn put_held(net: &Checked, state: &State, out: &mut Output)
    requires { IsOf net.now state.now }
{
    out.word("held");
    for at in 0..net.net().chans.as_slice().len() {
        out.word(" ");
        out.number(state.held(net, at as u32));
    }
    for at in 0..net.net().units.as_slice().len() {
        if let Some(queue) = state.queue(net, at as u32) {
            out.word("\\nentries ");
            out.number(queue.len());
        }
    }
    out.word("\\n");
}

/// Writes what a run at rest ends with.
fn put_rest(net: &Checked, state: &State, told: Told, out: &mut Output) -> Result<()>
    requires of { IsOf net.now state.now }
    requires rest { AtRest net.now (state_of state.now) }
{
    if let Err(fault) = judge(net, state) {
        return put_fault(net, fault, out);
    }
    match told {
        Told::Results { made } => put_results(net, state, made, out),
        Told::Cycles { made, cycles } => {
            out.word("0 firings ");
            out.number(made);
            out.word(" cycles ");
            out.number(cycles);
            Ok(())
        }
    }
}

/// Writes a status and a fault, with the limit of a run that is too long, and with the name of the array of a stray.
fn put_fault(net: &Checked, fault: RunFault, out: &mut Output) -> Result<()> {
    match fault {
        RunFault::Limit { limit } => {
            put_status("8 ", fault, out);
            out.word(" ");
            out.number(limit);
        }
        RunFault::Stuck => put_status("9 ", fault, out),
        RunFault::Stray { array } => {
            let arrays = net.net().arrays.as_slice();
            let array = arrays.get(array as usize).context("no such array")?;
            put_status("10 ", fault, out);
            out.word(" ");
            out.bytes(array.name.as_slice());
        }
        RunFault::Memory => bail!("want of memory"),
    }
    Ok(())
}

/// Writes a status and a fault.
fn put_status(status: &str, fault: RunFault, out: &mut Output) {
    out.word(status);
    put_cause(fault.number(), fault.word(), out);
}

/// Writes the arrays, the result and the number of firings of a run, a line each.
fn put_results(net: &Checked, state: &State, made: u64, out: &mut Output) -> Result<()>
    requires { IsOf net.now state.now }
{
    out.word("0 ");
    let arrays = net.net().arrays.as_slice();
    for at in 0..arrays.len() {
        let Ok(number) = u32::try_from(at) else {
            bail!("too many arrays");
        };
        put_array(&arrays[at], state.arrays(net, number), out);
    }
    if let (Some(ty), Some(value)) = (net.net().result, state.value()) {
        out.word("return = ");
        out.number(number(ty, value));
        out.word("\\n");
    }
    out.word("# firings ");
    out.number(made);
    out.word("\\n");
    Ok(())
}

/// Writes an array's name and its numbers.
fn put_array(array: &Array, elements: &[u64], out: &mut Output) {
    out.bytes(array.name.as_slice());
    out.word(" =");
    for element in elements {
        out.word(" ");
        out.number(number(array.ty, *element));
    }
    out.word("\\n");
}
