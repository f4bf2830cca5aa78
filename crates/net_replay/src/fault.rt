ghost use Rattle.std.specs.Prelude.{◌≡◌};
ghost use Rattle.net_replay.specs.Faults.{array_of, index_of, limit_of, replay_number, replay_word, run_number, run_word};

use net_types::Memory;
use thiserror::Error;

/// Why a list of firings has no run.
#[derive(Clone, Copy, Debug, PartialEq, Eq, Error)]
pub enum ReplayFault {
    /// The firings before the one of this number, from 0, are enabled in turn, and that one is not enabled after them.
    #[error("firing {index}, counted from 0, is not enabled after those before it")]
    NotEnabled { index: u64 },
    /// Memory ran out.
    #[error("out of memory")]
    Memory,
}

/// What is wrong with a run.
#[derive(Clone, Copy, Debug, PartialEq, Eq, Error)]
pub enum RunFault {
    /// As many firings as the limit allows are made, and one is enabled.
    #[error("a firing is enabled after {limit} firings, as many as the limit allows")]
    Limit { limit: u64 },
    /// No firing is enabled, and the exit has not fired.
    #[error("no firing is enabled, and the exit has not fired")]
    Stuck,
    /// The exit has fired, and an address lay past this array, the first such in header order.
    #[error("an address lay past array {array} of the header, counted from 0")]
    Stray { array: u32 },
    /// Memory ran out.
    #[error("out of memory")]
    Memory,
}

impl ReplayFault {
    /// The number by which the fault is printed; none for want of memory.
    pub fn number(&self) -> Option<u32>
        ensures { result ≡ replay_number self.now }
    {
        match self {
            ReplayFault::NotEnabled { .. } => Some(61),
            ReplayFault::Memory => None,
        }
    }

    /// The word by which the fault is printed.
    pub fn word(&self) -> &'static str
        ensures { result.now ≡ replay_word self.now }
    {
        match self {
            ReplayFault::NotEnabled { .. } => "NotEnabled",
            ReplayFault::Memory => "Memory",
        }
    }

    /// The number, from 0, of the firing that is not enabled; none for want of memory.
    pub fn index(&self) -> Option<u64>
        ensures { result ≡ index_of self.now }
    {
        match self {
            ReplayFault::NotEnabled { index } => Some(*index),
            ReplayFault::Memory => None,
        }
    }
}

impl RunFault {
    /// The number by which the fault is printed; none for want of memory.
    pub fn number(&self) -> Option<u32>
        ensures { result ≡ run_number self.now }
    {
        match self {
            RunFault::Limit { .. } => Some(70),
            RunFault::Stuck => Some(71),
            RunFault::Stray { .. } => Some(72),
            RunFault::Memory => None,
        }
    }

    /// The word by which the fault is printed.
    pub fn word(&self) -> &'static str
        ensures { result.now ≡ run_word self.now }
    {
        match self {
            RunFault::Limit { .. } => "Limit",
            RunFault::Stuck => "Stuck",
            RunFault::Stray { .. } => "Stray",
            RunFault::Memory => "Memory",
        }
    }

    /// The limit that the firings came to; none of another fault.
    pub fn limit(&self) -> Option<u64>
        ensures { result ≡ limit_of self.now }
    {
        match self {
            RunFault::Limit { limit } => Some(*limit),
            RunFault::Stuck | RunFault::Stray { .. } | RunFault::Memory => None,
        }
    }

    /// The array that an address lay past; none of another fault.
    pub fn array(&self) -> Option<u32>
        ensures { result ≡ array_of self.now }
    {
        match self {
            RunFault::Stray { array } => Some(*array),
            RunFault::Limit { .. } | RunFault::Stuck | RunFault::Memory => None,
        }
    }
}

impl From<Memory> for ReplayFault {
    ghost use Rattle.net_replay.specs.declared.fault.ReplayFault.TheVariants as fault;

    ghost from_gives = { λ _ e. e ≡ fault.Memory };

    fn from(_: Memory) -> ReplayFault {
        ReplayFault::Memory
    }
}

impl From<Memory> for RunFault {
    ghost use Rattle.net_replay.specs.declared.fault.RunFault.TheVariants as fault;

    ghost from_gives = { λ _ e. e ≡ fault.Memory };

    fn from(_: Memory) -> RunFault {
        RunFault::Memory
    }
}
