ghost use Rattle.std.specs.Prelude.{◌≡◌};
ghost use Rattle.net_runs.specs.ResumeRefusals.{resume_refusal_number, resume_refusal_word};

use el_base::{Memory, Name};
use net_replay::RunFault;
use snapshot::SnapRefusal;
use thiserror::Error;

/// Why what a saved state of a checked net comes to has no text.
#[derive(Debug, Drop, Error)]
pub enum ResumeRefusal {
    /// The bytes are no text of a state of the net that may be saved.
    #[error(transparent)]
    Snapshot(SnapRefusal),
    /// More firings than this limit were made, or as many lead on to a state in which one is enabled.
    #[error("the saved state leads to more than {limit} firings")]
    Limit { limit: u64 },
    /// At rest the exit has not fired.
    #[error("no firing is enabled, and the exit has not fired")]
    Stuck,
    /// At rest the exit has fired, and an address lay past this array, the first such of the header, of this name.
    #[error("an address lay past array {array} of the header, counted from 0")]
    Stray { array: u32, name: Name },
    /// Memory ran out.
    #[error("out of memory")]
    Memory,
}

impl ResumeRefusal {
    /// The number by which it is printed: 90 and 91 of a snapshot, and 70 to 72 of a run; none for want of memory.
    pub fn number(&self) -> Option<u32>
        ensures { result ≡ resume_refusal_number self.now }
    {
        match self {
            ResumeRefusal::Snapshot(refused) => refused.number(),
            ResumeRefusal::Limit { limit } => RunFault::Limit { limit: *limit }.number(),
            ResumeRefusal::Stuck => RunFault::Stuck.number(),
            ResumeRefusal::Stray { array, .. } => RunFault::Stray { array: *array }.number(),
            ResumeRefusal::Memory => None,
        }
    }

    /// The word by which it is printed.
    pub fn word(&self) -> &'static str
        ensures { result.now ≡ resume_refusal_word self.now }
    {
        match self {
            ResumeRefusal::Snapshot(refused) => refused.word(),
            ResumeRefusal::Limit { limit } => RunFault::Limit { limit: *limit }.word(),
            ResumeRefusal::Stuck => RunFault::Stuck.word(),
            ResumeRefusal::Stray { array, .. } => RunFault::Stray { array: *array }.word(),
            ResumeRefusal::Memory => "Memory",
        }
    }
}

impl From<Memory> for ResumeRefusal {
    ghost use Rattle.net_runs.specs.declared.resume_refusal.ResumeRefusal.TheVariants as refusal;

    ghost from_gives = { λ _ e. e ≡ refusal.Memory };

    fn from(_: Memory) -> ResumeRefusal {
        ResumeRefusal::Memory
    }
}
