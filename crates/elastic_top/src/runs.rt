//! Runs and replays of the net that a file spells.
ghost use Rattle.std.specs.Prelude.{◌≤◌, Ok, Err, length, IfOk, IfErr, IfSome};
ghost use Rattle.el_base.specs.Limits.{max_firings, max_inputs_bytes, max_netlist_bytes, max_schedule_bytes};
ghost use Rattle.net_runs.specs.Runs.{MayShare};
ghost use Rattle.elastic_top.specs.Answers.{ReplaysNet, RunsNet};

use crate::fault::{Refusal, RunFiles};
use el_io::Gate;
use net_front::read_net;
use net_runs::{RunOptions, replay_text, run_text};
use std::alloc::Global;
use std::thread::Threads;

/// The text of a run of the net of one file on the inputs of another.
pub fn run<'a, R: Threads + Sync, G: Gate + Sync>(
    rt: &R,
    alloc: Global,
    netlist: &'a str,
    inputs: &'a str,
    net_bytes: &[u8],
    input_bytes: &[u8],
    options: RunOptions,
    gate: &G,
) -> Result<Vec<u8>, Refusal<'a>>
    requires net { length net_bytes.now ≤ max_netlist_bytes }
    requires inputs { length input_bytes.now ≤ max_inputs_bytes }
    requires limit { options.limit ≤ max_firings }
    requires shared { IfSome options.workers (MayShare options.limit) }
    ensures ok { IfOk result (λ text. RunsNet netlist.entry.now inputs.entry.now options
        net_bytes.now input_bytes.now (Ok text.items)) }
    ensures err { IfErr result (λ refusal. RunsNet netlist.entry.now inputs.entry.now options
        net_bytes.now input_bytes.now (Err refusal)) }
{
    let net = match read_net(alloc, net_bytes) {
        Ok(net) => net,
        Err(refused) => return Err(Refusal::Net(netlist, refused)),
    };
    let files = RunFiles {
        inputs,
        schedule: None,
    };
    match run_text(rt, alloc, &net, input_bytes, options, gate) {
        Ok(text) => Ok(text),
        Err(refused) => Err(Refusal::Run(files, refused)),
    }
}

/// The text of a replay, on the net of one file and the inputs of another, of the schedule of a third.
pub fn replay<'a>(
    alloc: Global,
    netlist: &'a str,
    inputs: &'a str,
    schedule: &'a str,
    net_bytes: &[u8],
    input_bytes: &[u8],
    bytes: &[u8],
) -> Result<Vec<u8>, Refusal<'a>>
    requires net { length net_bytes.now ≤ max_netlist_bytes }
    requires inputs { length input_bytes.now ≤ max_inputs_bytes }
    requires schedule { length bytes.now ≤ max_schedule_bytes }
    ensures ok { IfOk result (λ text. ReplaysNet netlist.entry.now inputs.entry.now
        schedule.entry.now net_bytes.now input_bytes.now bytes.now (Ok text.items)) }
    ensures err { IfErr result (λ refusal. ReplaysNet netlist.entry.now inputs.entry.now
        schedule.entry.now net_bytes.now input_bytes.now bytes.now (Err refusal)) }
{
    let net = match read_net(alloc, net_bytes) {
        Ok(net) => net,
        Err(refused) => return Err(Refusal::Net(netlist, refused)),
    };
    let files = RunFiles {
        inputs,
        schedule: Some(schedule),
    };
    match replay_text(alloc, &net, input_bytes, bytes) {
        Ok(text) => Ok(text),
        Err(refused) => Err(Refusal::Run(files, refused)),
    }
}
