//! From the bytes of a kernel and of its inputs to the text of its circuit and of a run of it.
ghost use Rattle.std.specs.Prelude.{◌≢◌, ◌≤◌, length, Ok, Err, IfOk, IfErr, IfSome};
ghost use Rattle.el_base.specs.Limits.{IsNumbered, max_firings, max_kernel_bytes};
ghost use Rattle.c_meaning.specs.Lawful.{Lawful};
ghost use Rattle.c_meaning.specs.declared.profile.Profile.{Profile};
ghost use Rattle.buffer_place.specs.Timings.{IsTiming};
ghost use Rattle.kernel_compile.specs.Goods.{Good};
ghost use Rattle.net_runs.specs.Runs.{MayShare, Runs};
ghost use Rattle.kernel_runs.specs.Goes.{Goes, GoesTo};
ghost use Rattle.kernel_runs.specs.Joined.{IsJoinedText};

use crate::options::CircuitOptions;
use crate::refusal::GoRefusal;
use c_meaning::range_laws::numbers_stay_in_range;
use el_io::Gate;
use inputs_text::inputs_texts_have_one_reading;
use kernel_compile::{Compiled, compile, good_nets_stay_good};
use net_runs::{RunOptions, RunRefusal, run_text};
use net_text::print;
use net_types::{Memory, Net};
use std::alloc::Global;
use std::thread::Threads;

/// The text of the circuit of the kernel that bytes spell, a line `%%`, and the text of a run of it on the inputs that other
/// bytes give, by cycles or by workers: the results, and where they are asked for the numbers of firings and of cycles, and
/// the firings.
///
/// Where the kernel ends on the inputs in T turns, whatever is taken for a signed result out of range, the results are its
/// own, after at most 256·N·(T+1) firings, N being its nodes. The bytes of inputs have to be fewer than 2^32, and the limit
/// is in firings.
///
/// # Errors
///
/// `Kernel` where the bytes are no kernel, then `Run`: `Inputs` where the others are no text of inputs of it, `Limit` exactly
/// where there are runs of the circuit of more firings than the limit, and else `Stray` exactly where in the state at rest an
/// address lay past an array, with the first such array. `Memory` where memory ran out.
pub fn go_text<R: Threads + Sync, G: Gate + Sync>(
    rt: &R,
    alloc: Global,
    kernel: &[u8],
    inputs: &[u8],
    circuit: CircuitOptions,
    run: RunOptions,
    gate: &G,
) -> Result<Vec<u8>, GoRefusal>
    requires bytes { length kernel.now ≤ max_kernel_bytes }
    requires short { IsNumbered (length inputs.now) }
    requires timing { IsTiming circuit.timing }
    requires limit { run.limit ≤ max_firings }
    requires shared { IfSome run.workers (MayShare run.limit) }
    ensures ok { IfOk result (λ text. Goes kernel.now inputs.now circuit run (Ok text.items)) }
    ensures err { IfErr result (λ refused. Goes kernel.now inputs.now circuit run (Err refused)) }
{
    let compiled = compile(alloc, kernel, circuit.timing, circuit.forward)?;
    let text = go_on(rt, alloc, &compiled, inputs, run, gate)?;
    Ok(text)
}

/// The same of a kernel with its circuit, which is never stuck.
fn go_on<R: Threads + Sync, G: Gate + Sync>(
    rt: &R,
    alloc: Global,
    compiled: &Compiled,
    inputs: &[u8],
    run: RunOptions,
    gate: &G,
) -> Result<Vec<u8>, RunRefusal>
    requires lawful { Lawful compiled.now.typed }
    requires good { (p : Profile) → Good compiled.now.net compiled.now.typed p }
    requires short { IsNumbered (length inputs.now) }
    requires limit { run.limit ≤ max_firings }
    requires shared { IfSome run.workers (MayShare run.limit) }
    ensures ok { IfOk result (λ text.
        GoesTo compiled.now.typed compiled.now.net inputs.now run text.items) }
    ensures err { IfErr result (λ refused. Runs compiled.now.net inputs.now run (Err refused)) }
    ensures moves { IfErr result (λ refused. refused ≢ RunRefusal.Stuck) }
{
    good_nets_stay_good();
    inputs_texts_have_one_reading();
    numbers_stay_in_range();
    let results = run_text(rt, alloc, &compiled.net, inputs, run, gate)?;
    let text = joined(alloc, compiled.net.net(), results.as_slice())?;
    Ok(text)
}

/// The text of a net, a line `%%`, and what follows.
fn joined(alloc: Global, net: &Net, results: &[u8]) -> Result<Vec<u8>, Memory>
    ensures { IfOk result (λ text. IsJoinedText net.now results.now text.items) }
{
    let mut text = print(alloc, net)?;
    text.extend_from_slice(b"%%\n")?;
    text.extend_from_slice(results)?;
    Ok(text)
}
