//! One kernel compiled and run.
ghost use Rattle.std.specs.Prelude.{◌≡◌, IfOk, false};
ghost use Rattle.buffer_place.specs.Timings.{usual};
ghost use Rattle.cycle_engine.specs.Timings.{HasFewCycles, IsTimed};
ghost use Rattle.c_meaning.specs.declared.profile.Profile.TheVariants.{Plain};
ghost use Rattle.kernel_compile.specs.Compiling.{IsCompiled};
ghost use Rattle.kernel_compile.specs.Goods.{Good};
ghost use Rattle.kernel_bench.specs.Benches.{Benches, TellsBench};
ghost use Rattle.kernel_bench.specs.Drawn.{bench_inputs};
ghost use Rattle.kernel_bench.specs.Histogram.{bench_kernel, hist};

use crate::drawn::drawn_inputs;
use crate::laws::{kernel_ends, kernel_is_read};
use crate::summary::{sum_of, summary};
use buffer_place::Timing;
use cycle_engine::{Timed, cycles_are_runs, run_cycles};
use el_base::Memory;
use kernel_compile::{Compiled, compile, good_nets_stay_good, inputs_are_patterns};
use kernel_front::KernelRefusal;
use net_check::Checked;
use net_core::completion;
use net_replay::RunFault;
use std::alloc::Global;

/// More firings than the circuit's: the kernel has 23 nodes and ends in 3,076 turns, and 256·23·3,077 is 18,117,376.
const LIMIT: u64 = 32_000_000;

/// Compiles the kernel
/// `void hist(int32_t n, int32_t x[1024], int32_t w[1024], int32_t h[64]) { for (int32_t i = 0; i < n; i++) h[x[i]] += w[i]; }`
/// by the usual timing, runs its circuit by cycles to rest, and tells the number of firings, that of cycles, and the sum of
/// h: three lines `firings F`, `cycles C` and `sum S`. The scalar n is 1024, h all 0, w is 1, 2 and so on, and x is drawn by
/// a generator whose first state is the number. S is 524800, whatever the number.
///
/// # Errors
///
/// [`Memory`] where memory ran out, and nothing else: the kernel is refused nothing, and ends within the limit.
pub fn bench_text(alloc: Global, number: u64) -> Result<Vec<u8>, Memory>
    ensures { IfOk result (λ text. Benches number text.items) }
{
    let compiled = compiled(alloc)?;
    told(alloc, &compiled.net, number)
}

/// The kernel with its circuit.
fn compiled(alloc: Global) -> Result<Compiled, Memory>
    ensures compiled { IfOk result (IsCompiled bench_kernel usual false) }
    ensures typed { IfOk result (λ c. c.typed ≡ hist) }
{
    kernel_is_read();
    let text =
        b"void hist(int32_t n, int32_t x[1024], int32_t w[1024], int32_t h[64]) { for (int32_t i = 0; i < n; i++) h[x[i]] += w[i]; }";
    match compile(alloc, text, Timing::usual(), false) {
        Ok(compiled) => Ok(compiled),
        Err(KernelRefusal::Memory) => Err(Memory),
        Err(KernelRefusal::Lex(_)) => unreachable!(),
        Err(KernelRefusal::Parse(_)) => unreachable!(),
        Err(KernelRefusal::Types(_)) => unreachable!(),
        Err(KernelRefusal::Inline(_)) => unreachable!(),
    }
}

/// The summary of a run of the circuit.
fn told(alloc: Global, net: &Checked, number: u64) -> Result<Vec<u8>, Memory>
    requires { Good net.now hist Plain }
    ensures { IfOk result (λ text. TellsBench net.now (bench_inputs number) text.items) }
{
    completion();
    cycles_are_runs();
    kernel_ends();
    good_nets_stay_good();
    let timed = rested(alloc, net, number)?;
    let sum = sum_of(timed.state.arrays(net, 2));
    summary(alloc, timed.firings, timed.cycles, sum)
}

/// A run of the circuit to rest.
fn rested(alloc: Global, net: &Checked, number: u64) -> Result<Timed, Memory>
    requires { Good net.now hist Plain }
    ensures timed { IfOk result (IsTimed net.now (bench_inputs number) 32000000 false) }
    ensures few { IfOk result (HasFewCycles net.now) }
{
    kernel_ends();
    inputs_are_patterns();
    good_nets_stay_good();
    cycles_are_runs();
    let inputs = drawn_inputs(alloc, number)?;
    match run_cycles(alloc, net, &inputs, LIMIT, false) {
        Ok(timed) => Ok(timed),
        Err(RunFault::Memory) => Err(Memory),
        Err(RunFault::Limit { .. }) => unreachable!(),
        Err(RunFault::Stuck) => unreachable!(),
        Err(RunFault::Stray { .. }) => unreachable!(),
    }
}
