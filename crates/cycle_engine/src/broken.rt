//! Why a cycle is broken off.

ghost use Rattle.std.specs.Prelude.{◌≡◌};
ghost use Rattle.cycle_engine.specs.private.Goings.{fault_of};

use net_replay::RunFault;
use net_types::Memory;

/// Why a cycle is broken off. It is smaller than a fault of a run, so that it is handed up without memory.
#[derive(Clone, Copy)]
pub(crate) enum Broken {
    /// As many firings as the limit allows are made, and one more may be made in the cycle.
    Limit,
    /// Memory is wanting.
    Memory,
}

impl From<Memory> for Broken {
    ghost use Rattle.cycle_engine.specs.declared.broken.Broken.TheVariants as broken;

    ghost from_gives = { λ _ e. e ≡ broken.Memory };

    #[inline(always)]
    fn from(_: Memory) -> Broken {
        Broken::Memory
    }
}

impl Broken {
    /// The fault of a run that is broken off so, where this limit was set.
    pub(crate) fn fault(self, limit: u64) -> RunFault
        ensures { result ≡ fault_of limit self }
    {
        match self {
            Broken::Limit => RunFault::Limit { limit },
            Broken::Memory => RunFault::Memory,
        }
    }
}
