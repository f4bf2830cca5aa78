//! States of runs, saved and gone on from.
ghost use Rattle.std.specs.Prelude.{◌≤◌, Ok, Err, length, IfOk, IfErr};
ghost use Rattle.el_base.specs.Limits.{max_firings, max_inputs_bytes, max_netlist_bytes};
ghost use Rattle.elastic_top.specs.Answers.{ResumesNet, SavesNet};

use crate::fault::{Refusal, RunFiles};
use net_front::read_net;
use net_runs::{resume_text, save_text};
use std::alloc::Global;

/// The text of the state of the net of one file, on the inputs of another, after `at` firings, or at rest where fewer are
/// possible.
pub fn save<'a>(
    alloc: Global,
    netlist: &'a str,
    inputs: &'a str,
    net_bytes: &[u8],
    input_bytes: &[u8],
    at: u64,
) -> Result<Vec<u8>, Refusal<'a>>
    requires net { length net_bytes.now ≤ max_netlist_bytes }
    requires inputs { length input_bytes.now ≤ max_inputs_bytes }
    requires at { at ≤ max_firings }
    ensures ok { IfOk result (λ text. SavesNet netlist.entry.now inputs.entry.now at
        net_bytes.now input_bytes.now (Ok text.items)) }
    ensures err { IfErr result (λ refusal. SavesNet netlist.entry.now inputs.entry.now at
        net_bytes.now input_bytes.now (Err refusal)) }
{
    let net = match read_net(alloc, net_bytes) {
        Ok(net) => net,
        Err(refused) => return Err(Refusal::Net(netlist, refused)),
    };
    let files = RunFiles {
        inputs,
        schedule: None,
    };
    match save_text(alloc, &net, input_bytes, at) {
        Ok(text) => Ok(text),
        Err(refused) => Err(Refusal::Run(files, refused)),
    }
}

/// The text of what the saved state of one file comes to in the net of another.
pub fn resume<'a>(
    alloc: Global,
    netlist: &'a str,
    snapshot: &'a str,
    net_bytes: &[u8],
    bytes: &[u8],
    limit: u64,
    count: bool,
) -> Result<Vec<u8>, Refusal<'a>>
    requires net { length net_bytes.now ≤ max_netlist_bytes }
    requires snapshot { length bytes.now ≤ max_netlist_bytes }
    requires limit { limit ≤ max_firings }
    ensures ok { IfOk result (λ text. ResumesNet netlist.entry.now snapshot.entry.now limit
        count net_bytes.now bytes.now (Ok text.items)) }
    ensures err { IfErr result (λ refusal. ResumesNet netlist.entry.now snapshot.entry.now limit
        count net_bytes.now bytes.now (Err refusal)) }
{
    let net = match read_net(alloc, net_bytes) {
        Ok(net) => net,
        Err(refused) => return Err(Refusal::Net(netlist, refused)),
    };
    match resume_text(alloc, &net, bytes, limit, count) {
        Ok(text) => Ok(text),
        Err(refused) => Err(Refusal::Resume(snapshot, refused)),
    }
}
