ghost use Rattle.std.specs.Prelude.{◌≡◌};
ghost use Rattle.net_runs.specs.Refusals.{run_refusal_number, run_refusal_word};

use el_base::{Memory, Name};
use inputs_text::InputRefusal;
use net_replay::{ReplayFault, RunFault, ScheduleRefusal};
use thiserror::Error;

/// Why a run of a checked net has no text.
#[derive(Debug, Drop, Error)]
pub enum RunRefusal {
    /// The bytes are no text of inputs of the net.
    #[error(transparent)]
    Inputs(InputRefusal),
    /// The bytes are no schedule.
    #[error(transparent)]
    Schedule(ScheduleRefusal),
    /// The firing of this number, from 0, is not enabled after those before it.
    #[error("firing {index}, counted from 0, is not enabled after those before it")]
    NotEnabled { index: u64 },
    /// There are runs of more firings than this limit.
    #[error("there are runs of more than {limit} firings")]
    Limit { limit: u64 },
    /// At rest the exit has not fired.
    #[error("no firing is enabled, and the exit has not fired")]
    Stuck,
    /// At rest the exit has fired, and an address lay past this array, the first such of the header, of this name.
    #[error("an address lay past array {array} of the header, counted from 0")]
    Stray { array: u32, name: Name },
    /// Memory ran out.
    #[error("out of memory")]
    Memory,
}

impl RunRefusal {
    /// The number by which it is printed: 50 to 55 of inputs, 60 of a schedule, 61 of a replay and 70 to 72 of a run; none for
    /// want of memory.
    pub fn number(&self) -> Option<u32>
        ensures { result ≡ run_refusal_number self.now }
    {
        match self {
            RunRefusal::Inputs(refused) => refused.number(),
            RunRefusal::Schedule(refused) => refused.number(),
            RunRefusal::NotEnabled { index } => ReplayFault::NotEnabled { index: *index }.number(),
            RunRefusal::Limit { limit } => RunFault::Limit { limit: *limit }.number(),
            RunRefusal::Stuck => RunFault::Stuck.number(),
            RunRefusal::Stray { array, .. } => RunFault::Stray { array: *array }.number(),
            RunRefusal::Memory => None,
        }
    }

    /// The word by which it is printed.
    pub fn word(&self) -> &'static str
        ensures { result.now ≡ run_refusal_word self.now }
    {
        match self {
            RunRefusal::Inputs(refused) => refused.word(),
            RunRefusal::Schedule(refused) => refused.word(),
            RunRefusal::NotEnabled { index } => ReplayFault::NotEnabled { index: *index }.word(),
            RunRefusal::Limit { limit } => RunFault::Limit { limit: *limit }.word(),
            RunRefusal::Stuck => RunFault::Stuck.word(),
            RunRefusal::Stray { array, .. } => RunFault::Stray { array: *array }.word(),
            RunRefusal::Memory => "Memory",
        }
    }
}

impl From<Memory> for RunRefusal {
    ghost use Rattle.net_runs.specs.declared.refusal.RunRefusal.TheVariants as refusal;

    ghost from_gives = { λ _ e. e ≡ refusal.Memory };

    fn from(_: Memory) -> RunRefusal {
        RunRefusal::Memory
    }
}
