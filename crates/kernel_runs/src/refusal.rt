ghost use Rattle.std.specs.Prelude.{◌≡◌};
ghost use Rattle.kernel_runs.specs.Refusals.{go_number, go_word};

use el_base::Memory;
use kernel_front::KernelRefusal;
use net_runs::RunRefusal;

/// Why a kernel and its inputs have no text of a run. Want of memory is [`GoRefusal::Memory`] whichever part wanted it.
#[derive(Debug, Drop)]
pub enum GoRefusal {
    /// The bytes are no kernel.
    Kernel(KernelRefusal),
    /// The kernel's circuit has no run on the bytes of inputs.
    Run(RunRefusal),
    /// Memory ran out.
    Memory,
}

impl GoRefusal {
    /// The number by which it is printed: that of the kernel's refusal, or of the run's; none for want of memory.
    pub fn number(&self) -> Option<u32>
        ensures { result ≡ go_number self.now }
    {
        match self {
            GoRefusal::Kernel(refused) => refused.number(),
            GoRefusal::Run(refused) => refused.number(),
            GoRefusal::Memory => None,
        }
    }

    /// The word by which it is printed.
    pub fn word(&self) -> &'static str
        ensures { result.now ≡ go_word self.now }
    {
        match self {
            GoRefusal::Kernel(refused) => refused.word(),
            GoRefusal::Run(refused) => refused.word(),
            GoRefusal::Memory => "Memory",
        }
    }
}

impl From<Memory> for GoRefusal {
    ghost use Rattle.kernel_runs.specs.declared.refusal.GoRefusal.TheVariants as refusal;

    ghost from_gives = { λ _ e. e ≡ refusal.Memory };

    fn from(_: Memory) -> GoRefusal {
        GoRefusal::Memory
    }
}

impl From<KernelRefusal> for GoRefusal {
    ghost use Rattle.kernel_runs.specs.Refusals.{of_kernel};

    ghost from_gives = { λ r e. e ≡ of_kernel r };

    fn from(refused: KernelRefusal) -> GoRefusal {
        match refused {
            KernelRefusal::Memory => GoRefusal::Memory,
            _ => GoRefusal::Kernel(refused),
        }
    }
}

impl From<RunRefusal> for GoRefusal {
    ghost use Rattle.kernel_runs.specs.Refusals.{of_run};

    ghost from_gives = { λ r e. e ≡ of_run r };

    fn from(refused: RunRefusal) -> GoRefusal {
        match refused {
            RunRefusal::Memory => GoRefusal::Memory,
            _ => GoRefusal::Run(refused),
        }
    }
}
