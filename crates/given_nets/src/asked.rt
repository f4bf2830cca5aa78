//! What is asked of a net on inputs.
ghost use Rattle.net_types.specs.Inputs.{InputsFit};

use crate::alone::put_alone;
use crate::meetings::put_meetings;
use crate::nets::{inputs_of, net_of};
use crate::runs::{put_cycles, put_refusal, put_replay, put_run};
use crate::sweeps::put_crew;
use anyhow::Result;
use net_check::Checked;
use net_types::Inputs;
use row_fields::{Output, numbers_of};
use std::alloc::Global;
use std::thread::Threads;

/// What is asked of a net on inputs.
#[derive(Clone, Copy)]
pub enum Asked<'a> {
    /// What a run by the plain runner ends with: a status, and the results with the number of firings, or what is wrong.
    Run,
    /// How many firings and cycles a run by cycles has, or what is wrong.
    Cycles,
    /// What the net comes to by a schedule: what it ends with where it is at rest, the least enabled firing and what is held
    /// where it goes on, or why it is no run.
    Replay(&'a str),
    /// What so many workers come to, within a limit of firings, who sweep in turn: their numbers, with spaces between.
    Sweeps {
        count: u32,
        limit: u64,
        turns: &'a str,
    },
    /// Whether one worker, within a limit of firings, makes those of the plain runner.
    Alone {
        limit: u64,
    },
    /// Whether workers meet, and each log has at least its number of entries: these numbers, with spaces between.
    Meetings {
        least: &'a str,
    },
}

/// Writes what is asked of a net on inputs, or why the inputs are refused.
pub fn put_asked<R: Threads + Sync>(
    rt: &R,
    alloc: Global,
    net: &str,
    inputs: &str,
    asked: Asked<'_>,
    out: &mut Output,
) -> Result<()> {
    let net = net_of(alloc, net)?;
    put_on_net(rt, alloc, &net, inputs, asked, out)
}

/// The same, on a net.
fn put_on_net<R: Threads + Sync>(
    rt: &R,
    alloc: Global,
    net: &Checked,
    inputs: &str,
    asked: Asked<'_>,
    out: &mut Output,
) -> Result<()> {
    match inputs_of(alloc, net, inputs)? {
        Ok(inputs) => put_on_inputs(rt, alloc, net, &inputs, asked, out),
        Err(refusal) => {
            put_refusal(&refusal, out);
            Ok(())
        }
    }
}

/// The same, on fitting inputs.
fn put_on_inputs<R: Threads + Sync>(
    rt: &R,
    alloc: Global,
    net: &Checked,
    inputs: &Inputs,
    asked: Asked<'_>,
    out: &mut Output,
) -> Result<()>
    requires { InputsFit net.now inputs.now }
{
    match asked {
        Asked::Run => put_run(alloc, net, inputs, out),
        Asked::Cycles => put_cycles(alloc, net, inputs, out),
        Asked::Replay(schedule) => put_replay(alloc, net, inputs, schedule, out),
        Asked::Sweeps {
            count,
            limit,
            turns,
        } => {
            let turns = turns_of(alloc, turns)?;
            put_crew(alloc, net, inputs, count, limit, turns.as_slice(), out)
        }
        Asked::Alone { limit } => put_alone(alloc, net, inputs, limit, out),
        Asked::Meetings { least } => {
            let least = turns_of(alloc, least)?;
            put_meetings(rt, alloc, net, inputs, least.as_slice(), out)
        }
    }
}

/// The numbers of a field of numbers with spaces between.
fn turns_of(alloc: Global, field: &str) -> Result<Vec<u32>> {
    let words: Vec<&str> = field.split(' ').collect(alloc)?;
    Ok(numbers_of(alloc, words.as_slice())?)
}
