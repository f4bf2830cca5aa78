//! The inputs and the firings that texts give.
ghost use Rattle.std.specs.Prelude.{◌≡◌, length, IfOk, IfErr, Err, Ok};
ghost use Rattle.el_base.specs.Limits.{IsNumbered, max_schedule_bytes};
ghost use Rattle.net_types.specs.declared.net.Net.{Net};
ghost use Rattle.net_types.specs.Inputs.{InputsFit};
ghost use Rattle.inputs_text.specs.Refusals.{Says as SaysInputs};
ghost use Rattle.net_replay.specs.Readings.{Says as SaysFirings};
ghost use Rattle.net_runs.specs.Given.{Bytes, Gives, IsInputsFault, IsScheduleFault};

use crate::refusal::RunRefusal;
use inputs_text::{InputRefusal, read_inputs};
use net_check::Checked;
use net_replay::{ScheduleRefusal, read_schedule};
use net_types::{Firing, Inputs, List};
use std::alloc::Global;

/// The inputs that bytes give for a net.
pub(crate) fn inputs_of(alloc: Global, net: &Checked, bytes: &[u8]) -> Result<Inputs, RunRefusal>
    requires { IsNumbered (length bytes.now) }
    ensures given { IfOk result (Gives net.now bytes.now) }
    ensures fit { IfOk result (InputsFit net.now) }
    ensures err { IfErr result (IsInputsFault net.now bytes.now) }
{
    match read_inputs(alloc, net, bytes) {
        Ok(inputs) => Ok(inputs),
        Err(refused) => Err(inputs_fault(refused)),
    }
}

fn inputs_fault(refused: InputRefusal) -> RunRefusal
    ensures { (net : Net) (bytes : Bytes)
        → SaysInputs net.scalars net.arrays bytes (Err refused) → IsInputsFault net bytes result }
{
    match refused {
        InputRefusal::Line { .. } => RunRefusal::Inputs(refused),
        InputRefusal::Unknown { .. } => RunRefusal::Inputs(refused),
        InputRefusal::Twice { .. } => RunRefusal::Inputs(refused),
        InputRefusal::Missing { .. } => RunRefusal::Inputs(refused),
        InputRefusal::Count { .. } => RunRefusal::Inputs(refused),
        InputRefusal::Range { .. } => RunRefusal::Inputs(refused),
        InputRefusal::Memory => RunRefusal::Memory,
    }
}

/// The firings that bytes give.
pub(crate) fn firings_of(alloc: Global, bytes: &[u8]) -> Result<List<Firing>, RunRefusal>
    requires { IsNumbered (length bytes.now) }
    ensures given { IfOk result (λ firings. SaysFirings bytes.now (Ok firings)) }
    ensures err { IfErr result (IsScheduleFault bytes.now) }
{
    match read_schedule(alloc, bytes) {
        Ok(firings) => Ok(firings),
        Err(refused) => Err(schedule_fault(refused)),
    }
}

fn schedule_fault(refused: ScheduleRefusal) -> RunRefusal
    ensures { (bytes : Bytes) → SaysFirings bytes (Err refused) → IsScheduleFault bytes result }
{
    match refused {
        ScheduleRefusal::Line { .. } => RunRefusal::Schedule(refused),
        ScheduleRefusal::Memory => RunRefusal::Memory,
    }
}
