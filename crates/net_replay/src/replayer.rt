ghost use Rattle.std.specs.Prelude.{◌≤◌, ◌^◌, length, MatchResult, MatchOption};
ghost use Rattle.net_types.specs.Inputs.{InputsFit};
ghost use Rattle.net_core.specs.Runs.{Leads};
ghost use Rattle.net_core.specs.States.{CountsWithin, IsOf, state_of};
ghost use Rattle.net_replay.specs.Replays.{FailsAt, IsReplay, IsReplayFault};

use crate::fault::ReplayFault;
use crate::outcome::Replay;
use net_check::Checked;
use net_core::State;
use net_types::{Firing, Inputs};
use std::alloc::Global;

/// The state to which at most 2^32 firings lead from the opening state on inputs that fit the net.
///
/// # Errors
///
/// `NotEnabled` with the number, from 0, of the first firing that is not enabled after those before it. `Memory` where
/// memory ran out.
pub fn replay(
    alloc: Global,
    net: &Checked,
    inputs: &Inputs,
    firings: &[Firing],
) -> Result<Replay, ReplayFault>
    requires fit { InputsFit net.now inputs.now }
    requires few { length firings.now ≤ 2 ^ 32 }
    ensures { MatchResult result (IsReplay net.now inputs.now firings.now)
        (IsReplayFault net.now inputs.now firings.now) }
{
    let mut state = State::new(alloc, net, inputs)?;
    if let Some(index) = follow(net, &mut state, firings) {
        return Err(ReplayFault::NotEnabled { index });
    }
    match state.find(net) {
        None => Ok(Replay::AtRest(state)),
        Some(next) => Ok(Replay::Goes { state, next }),
    }
}

/// Makes firings up to the first that is not enabled, and gives the number of that one, from 0.
fn follow(net: &Checked, state: &mut State, firings: &[Firing]) -> Option<u64>
    requires of { IsOf net.now state.old }
    requires counts { CountsWithin 0 (state_of state.old) }
    requires few { length firings.now ≤ 2 ^ 32 }
    ensures of { IsOf net.now state.new }
    ensures leads { MatchOption result
        (Leads net.now (state_of state.old) firings.now (state_of state.new))
        (FailsAt net.now (state_of state.old) firings.now) }
{
    for (index, firing) in firings.iter().enumerate() {
        if !state.try_fire(net, *firing) {
            return Some(index as u64);
        }
    }
    None
}
