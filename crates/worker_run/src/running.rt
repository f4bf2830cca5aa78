//! A run of a net by several workers.

ghost use Rattle.std.specs.Prelude.{◌≡◌, ◌+◌, ◌≤◌, ◌<◌, ◌^◌, All, IfOk, IfErr, length, true};
ghost use Rattle.el_base.specs.Limits.{max_firings, max_workers};
ghost use Rattle.net_types.specs.Inputs.{InputsFit};
ghost use Rattle.net_core.specs.States.{CountsWithin, IsOf, state_of};
ghost use Rattle.net_replay.specs.Finishes.{Finished};
ghost use Rattle.net_worker.specs.Shares.{max_share};
ghost use Rattle.worker_run.specs.Reports.{IsReport, IsRunFault};

use crate::crew::{Crew, Report};
use crate::gathering::{add_merged, gather};
use crate::making::workers;
use crate::sweeping::sweep_crew;
use el_base::Log;
use el_io::Gate;
use net_check::Checked;
use net_core::State;
use net_replay::{Ended, RunFault, finish, judge};
use net_types::{Firing, Inputs};
use std::alloc::Global;
use std::thread::Threads;

/// Runs a net on inputs that fit it by 1 to 64 workers, each in a thread of its own while that pays and else in turn, gathers
/// them, and goes on to rest. It makes `limit` firings at most. Where `keep` is true the report has all firings in their order.
///
/// # Errors
///
/// `Limit` where the net has runs of more firings than the limit; `Stuck` and `Stray` by the state at rest; `Memory` where
/// memory is wanting, which is told before the first firing.
pub fn run_workers<'a, R: Threads + Sync, G: Gate + Sync>(
    rt: &R,
    alloc: Global,
    net: &'a Checked,
    inputs: &Inputs,
    count: u32,
    limit: u64,
    keep: bool,
    gate: &G,
) -> Result<Report<'a>, RunFault>
    requires fit { InputsFit net.now inputs.now }
    requires some { 0 < count }
    requires most { count ≤ max_workers }
    requires one { 0 < limit }
    requires limit { limit ≤ max_share }
    ensures of { IfOk result (λ r. IsOf net.now r.state) }
    ensures report { IfOk result (λ r. IsReport net.now inputs.now count limit keep
        (G.is_open gate.now) r.crew.tables r.crew.workers.items
        (state_of r.state) r.firings r.log.items) }
    ensures fault { IfErr result (IsRunFault net.now inputs.now limit) }
{
    let mut log = Log::with_room(alloc, room_for(keep, limit))?;
    let mut state = State::new(alloc, net, inputs)?;
    let mut crew = workers(alloc, net, inputs, count, limit)?;
    sweep_crew(rt, net, &mut crew, gate);
    let made = gather(net, &mut crew, &mut state);
    add_merged(&crew, keep, &mut log);
    match finish_gathered(net, &mut state, made, limit, keep, &mut log) {
        Ended::Limit => Err(RunFault::Limit { limit }),
        Ended::Rest { made } => {
            judge(net, &state)?;
            Ok(Report {
                state,
                firings: made,
                crew,
                log,
            })
        }
    }
}

/// The room of a log of so many firings, where they are kept.
fn room_for(keep: bool, limit: u64) -> u64
    ensures { keep ≡ true → result ≡ limit }
{
    if keep { limit } else { 0 }
}

/// Goes on to rest as `finish` does. Where no firing is enabled, as after workers that came to rest, it looks at each unit once.
fn finish_gathered(
    net: &Checked,
    state: &mut State,
    made: u64,
    limit: u64,
    keep: bool,
    log: &mut Log<Firing>,
) -> Ended
    requires of { IsOf net.now state.old }
    requires made { made ≤ limit }
    requires limit { limit ≤ max_firings }
    requires counts { CountsWithin (2 ^ 60) (state_of state.old) }
    requires room { keep ≡ true → limit ≤ made + log.old.room }
    ensures of { IsOf net.now state.new }
    ensures finished { Finished net.now (state_of state.old) (state_of state.new) made limit
        keep log.old log.new result }
{
    match state.find(net) {
        None => Ended::Rest { made },
        Some(_) => finish(net, state, made, limit, keep, log),
    }
}
