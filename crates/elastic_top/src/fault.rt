//! Why a call printed nothing, or not all.
ghost use Rattle.std.specs.Prelude.{◌≡◌};
ghost use Rattle.el_base.specs.Labels.{printed};
ghost use Rattle.elastic_top.specs.Faults.{fault_code, call_fault, go_code, interpret_code, refusal_code, refusal_label, label_number, label_word, resume_code, run_code};

use crate::status::{INPUTS_REFUSED, KERNEL_REFUSED, SNAPSHOT_REFUSED, WANT_OF_MEMORY};
use el_base::{Label, Memory};
use kernel_front::KernelRefusal;
use kernel_ref::InterpretRefusal;
use kernel_runs::GoRefusal;
use net_front::NetlistRefusal;
use net_runs::{ResumeRefusal, RunRefusal};

/// The words that name the files of a kernel and of its inputs.
#[derive(Clone, Copy)]
pub struct KernelFiles<'a> {
    pub kernel: &'a str,
    pub inputs: &'a str,
}

/// The words that name the files of the inputs of a run and, where it has one, of its schedule.
#[derive(Clone, Copy)]
pub struct RunFiles<'a> {
    pub inputs: &'a str,
    pub schedule: Option<&'a str>,
}

/// Why a command has no text for the contents of its files: the kind of work that has none, with the words that name the
/// files, and its own refusal.
pub enum Refusal<'a> {
    /// The reading of a kernel.
    Kernel(&'a str, KernelRefusal),
    /// The reading of a netlist.
    Net(&'a str, NetlistRefusal),
    /// A run or a replay of a net.
    Run(RunFiles<'a>, RunRefusal),
    /// The compilation of a kernel and a run of its circuit.
    Go(KernelFiles<'a>, GoRefusal),
    /// A run of a kernel by the plain interpreter.
    Interpret(KernelFiles<'a>, InterpretRefusal),
    /// What a saved state of a net comes to; the word names the file of the snapshot.
    Resume(&'a str, ResumeRefusal),
    /// A bench, which names no file and refuses nothing, but wants memory.
    Bench(Memory),
}

// By hand, so that to let go of one is a call.
impl Drop for Refusal<'_> {
    fn drop(self) {
        match self {
            Refusal::Kernel(_first, _second) => {}
            Refusal::Net(_first, _second) => {}
            Refusal::Run(_first, _second) => {}
            Refusal::Go(_first, _second) => {}
            Refusal::Interpret(_first, _second) => {}
            Refusal::Resume(_first, _second) => {}
            Refusal::Bench(_value) => {}
        }
    }
}

impl<'a> Refusal<'a> {
    /// The number by which it is printed; none for want of memory.
    pub fn number(&self) -> Option<u32>
        ensures { result ≡ label_number self.now }
    {
        match self {
            Refusal::Kernel(_, refused) => refused.number(),
            Refusal::Net(_, refused) => refused.number(),
            Refusal::Run(_, refused) => refused.number(),
            Refusal::Go(_, refused) => refused.number(),
            Refusal::Interpret(_, refused) => refused.number(),
            Refusal::Resume(_, refused) => refused.number(),
            Refusal::Bench(Memory) => None,
        }
    }

    fn word(&self) -> &'static str
        ensures { result.now ≡ label_word self.now }
    {
        match self {
            Refusal::Kernel(_, refused) => refused.word(),
            Refusal::Net(_, refused) => refused.word(),
            Refusal::Run(_, refused) => refused.word(),
            Refusal::Go(_, refused) => refused.word(),
            Refusal::Interpret(_, refused) => refused.word(),
            Refusal::Resume(_, refused) => refused.word(),
            Refusal::Bench(Memory) => "Memory",
        }
    }

    /// The number and the word by which it is printed.
    pub fn label(&self) -> Label
        ensures { printed result.number result.word.now ≡ refusal_label self.now }
    {
        Label {
            number: self.number(),
            word: self.word(),
        }
    }

    fn code(&self) -> u8
        ensures { result ≡ refusal_code self.now }
    {
        match self {
            Refusal::Kernel(_, _) => KERNEL_REFUSED,
            Refusal::Net(_, _) => 5,
            Refusal::Run(_, refused) => run_code(refused),
            Refusal::Go(_, refused) => go_code(refused),
            Refusal::Interpret(_, refused) => interpret_code(refused),
            Refusal::Resume(_, refused) => resume_code(refused),
            Refusal::Bench(Memory) => WANT_OF_MEMORY,
        }
    }
}

fn run_code(refused: &RunRefusal) -> u8
    ensures { result ≡ run_code refused.now }
{
    match refused {
        RunRefusal::Inputs(_) => INPUTS_REFUSED,
        RunRefusal::Schedule(_) | RunRefusal::NotEnabled { .. } => 7,
        RunRefusal::Limit { .. } => 8,
        RunRefusal::Stuck => 9,
        RunRefusal::Stray { .. } => 10,
        RunRefusal::Memory => WANT_OF_MEMORY,
    }
}

fn go_code(refused: &GoRefusal) -> u8
    ensures { result ≡ go_code refused.now }
{
    match refused {
        GoRefusal::Kernel(_) => KERNEL_REFUSED,
        GoRefusal::Run(refused) => run_code(refused),
        GoRefusal::Memory => WANT_OF_MEMORY,
    }
}

fn interpret_code(refused: &InterpretRefusal) -> u8
    ensures { result ≡ interpret_code refused.now }
{
    match refused {
        InterpretRefusal::Inputs(_) => INPUTS_REFUSED,
        InterpretRefusal::Undefined { .. } => 13,
        InterpretRefusal::OutOfTurns { .. } => 14,
        InterpretRefusal::Memory => WANT_OF_MEMORY,
    }
}

fn resume_code(refused: &ResumeRefusal) -> u8
    ensures { result ≡ resume_code refused.now }
{
    match refused {
        ResumeRefusal::Snapshot(_) => SNAPSHOT_REFUSED,
        ResumeRefusal::Limit { .. } => 8,
        ResumeRefusal::Stuck => 9,
        ResumeRefusal::Stray { .. } => 10,
        ResumeRefusal::Memory => WANT_OF_MEMORY,
    }
}

/// Why a call printed nothing, or not all; a file is named by its word.
pub enum Fault<'a> {
    /// The words are no command.
    Usage,
    /// A read of this file failed.
    Read(&'a str),
    /// The output did not take all bytes.
    Write,
    /// Memory ran out.
    Memory,
    /// This file has more bytes than its limit.
    TooLong(&'a str),
    /// The command refuses the contents of its files.
    Refused(Refusal<'a>),
}

// By hand, so that to let go of one is a call.
impl Drop for Fault<'_> {
    fn drop(self) {
        match self {
            Fault::Usage => {}
            Fault::Read(_value) => {}
            Fault::Write => {}
            Fault::Memory => {}
            Fault::TooLong(_value) => {}
            Fault::Refused(_value) => {}
        }
    }
}

impl<'a> Fault<'a> {
    /// The status.
    pub fn code(&self) -> u8
        ensures { result ≡ fault_code self.now }
    {
        match self {
            Fault::Usage => 1,
            Fault::Read(_) => 2,
            Fault::Write => 3,
            Fault::Memory => WANT_OF_MEMORY,
            Fault::TooLong(_) => 12,
            Fault::Refused(refusal) => refusal.code(),
        }
    }
}

/// The fault of a call that is refused so; want of memory is one fault, whichever work wanted it.
pub fn call_fault(refusal: Refusal<'_>) -> Fault<'_>
    ensures { result ≡ call_fault refusal.entry }
{
    match refusal.number() {
        Some(_) => Fault::Refused(refusal),
        None => Fault::Memory,
    }
}
