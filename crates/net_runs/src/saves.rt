//! The saved state of a run, from text to text.
ghost use Rattle.std.specs.Prelude.{◌≤◌, length, Ok, Err, IfOk, IfErr};
ghost use Rattle.el_base.specs.Limits.{IsNumbered, max_firings};
ghost use Rattle.net_types.specs.Inputs.{InputsFit};
ghost use Rattle.snapshot.specs.Refusals.{MaySave};
ghost use Rattle.snapshot.specs.Resumes.{IsOfRun};
ghost use Rattle.net_runs.specs.Saves.{IsReachedBy, Saves, SavesTo};

use crate::given::inputs_of;
use crate::refusal::RunRefusal;
use el_base::Log;
use net_check::Checked;
use net_core::State;
use net_replay::{Ended, finish};
use net_types::{Inputs, Memory};
use snapshot::{Saved, one_form, print_snapshot, runs_fit};
use std::alloc::Global;

/// The text of the state of a net on the inputs that bytes give after `at` firings of the plain runner, or at rest where
/// fewer are possible, with the number of firings that led to it.
///
/// The bytes have to be fewer than 2^32.
///
/// # Errors
///
/// `Inputs` where the bytes are no text of inputs of the net, and `Memory` where memory ran out.
pub fn save_text(
    alloc: Global,
    net: &Checked,
    inputs: &[u8],
    at: u64,
) -> Result<Vec<u8>, RunRefusal>
    requires short { IsNumbered (length inputs.now) }
    requires at { at ≤ max_firings }
    ensures ok { IfOk result (λ text. Saves net.now inputs.now at (Ok text.items)) }
    ensures err { IfErr result (λ refused. Saves net.now inputs.now at (Err refused)) }
{
    let inputs = match inputs_of(alloc, net, inputs) {
        Ok(inputs) => inputs,
        Err(refused) => return Err(refused),
    };
    match save_on(alloc, net, &inputs, at) {
        Ok(text) => Ok(text),
        Err(Memory) => Err(RunRefusal::Memory),
    }
}

/// The same on inputs.
fn save_on(alloc: Global, net: &Checked, inputs: &Inputs, at: u64) -> Result<Vec<u8>, Memory>
    requires fit { InputsFit net.now inputs.now }
    requires at { at ≤ max_firings }
    ensures { IfOk result (λ text. SavesTo net.now at text.items inputs.now) }
{
    let saved = state_after(alloc, net, inputs, at)?;
    print_snapshot(alloc, net, &saved)
}

/// The state after so many firings, or at rest after fewer, and how many led to it.
fn state_after(alloc: Global, net: &Checked, inputs: &Inputs, at: u64) -> Result<Saved, Memory>
    requires fit { InputsFit net.now inputs.now }
    requires at { at ≤ max_firings }
    ensures may { IfOk result (MaySave net.now) }
    ensures of { IfOk result (IsOfRun net.now inputs.now) }
    ensures reached { IfOk result (IsReachedBy net.now at) }
{
    runs_fit();
    one_form();
    let _ = net.net();
    let mut state = State::new(alloc, net, inputs)?;
    let mut log = Log::with_room(alloc, 0)?;
    let made = match finish(net, &mut state, 0, at, false, &mut log) {
        Ended::Rest { made } => made,
        Ended::Limit => at,
    };
    let parts = state.parts(alloc, net)?;
    Ok(Saved { made, parts })
}
