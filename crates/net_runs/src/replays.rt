//! The replay of a schedule, from text to text.
ghost use Rattle.std.specs.Prelude.{◌≡◌, ◌≤◌, ◌^◌, ◌++◌, ◌∷◌, [], length, codes, Ok, Err, IfOk, IfErr};
ghost use Rattle.el_base.specs.Limits.{IsNumbered};
ghost use Rattle.net_types.specs.Inputs.{InputsFit};
ghost use Rattle.net_replay.specs.Schedules.{schedule_text};
ghost use Rattle.net_runs.specs.Replays.{IsReplayFault, Replays, ReplaysTo};

use crate::given::{firings_of, inputs_of};
use crate::refusal::RunRefusal;
use crate::results::results_of;
use net_check::Checked;
use net_core::completion;
use net_replay::{Replay, ReplayFault, print_schedule, replay};
use net_types::{Firing, Inputs, Memory};
use std::alloc::Global;

/// The text of where the firings of a schedule lead on the inputs that bytes give: the results of the state where it is at
/// rest, else the word `next` and the least firing that is enabled in it.
///
/// The bytes of both texts have to be fewer than 2^32.
///
/// # Errors
///
/// `Inputs` where the bytes are no text of inputs of the net, then `Schedule` where they are no schedule, and `NotEnabled`
/// with the first firing, from 0, that is not enabled after those before it. At rest `Stuck` and `Stray` as of a run.
/// `Memory` where memory ran out.
pub fn replay_text(
    alloc: Global,
    net: &Checked,
    inputs: &[u8],
    schedule: &[u8],
) -> Result<Vec<u8>, RunRefusal>
    requires short { IsNumbered (length inputs.now) }
    requires few { IsNumbered (length schedule.now) }
    ensures ok { IfOk result (λ text. Replays net.now inputs.now schedule.now (Ok text.items)) }
    ensures err { IfErr result (λ refused.
        Replays net.now inputs.now schedule.now (Err refused)) }
{
    let inputs = match inputs_of(alloc, net, inputs) {
        Ok(inputs) => inputs,
        Err(refused) => return Err(refused),
    };
    match firings_of(alloc, schedule) {
        Ok(firings) => replay_on(alloc, net, &inputs, firings.as_slice()),
        Err(refused) => Err(refused),
    }
}

/// The same on inputs and firings.
fn replay_on(
    alloc: Global,
    net: &Checked,
    inputs: &Inputs,
    firings: &[Firing],
) -> Result<Vec<u8>, RunRefusal>
    requires fit { InputsFit net.now inputs.now }
    requires few { length firings.now ≤ 2 ^ 32 }
    ensures ok { IfOk result (λ text. ReplaysTo net.now firings.now text.items inputs.now) }
    ensures err { IfErr result (IsReplayFault net.now inputs.now firings.now) }
{
    completion();
    let _ = net.net();
    match replay(alloc, net, inputs, firings) {
        Ok(Replay::AtRest(state)) => results_of(alloc, net, &state),
        Ok(Replay::Goes { state: _, next }) => match next_text(alloc, next) {
            Ok(text) => Ok(text),
            Err(Memory) => Err(RunRefusal::Memory),
        },
        Err(ReplayFault::NotEnabled { index }) => Err(RunRefusal::NotEnabled { index }),
        Err(ReplayFault::Memory) => Err(RunRefusal::Memory),
    }
}

/// The line of the firing that is next.
fn next_text(alloc: Global, next: Firing) -> Result<Vec<u8>, Memory>
    ensures { IfOk result (λ text. text.items ≡ codes "next " ++ schedule_text (next ∷ [])) }
{
    let line = print_schedule(alloc, &[next])?;
    let mut text = Vec::new(alloc);
    text.extend_from_slice(b"next ")?;
    text.extend_from_slice(line.as_slice())?;
    Ok(text)
}
