//! Runs of the circuit of the kernel that a file spells, on the inputs of another.
ghost use Rattle.std.specs.Prelude.{◌≤◌, Ok, Err, length, IfOk, IfErr, IfSome};
ghost use Rattle.el_base.specs.Limits.{max_firings, max_inputs_bytes, max_kernel_bytes};
ghost use Rattle.buffer_place.specs.Timings.{IsTiming};
ghost use Rattle.net_runs.specs.Runs.{MayShare};
ghost use Rattle.elastic_top.specs.Answers.{GoesKernel};

use crate::fault::{KernelFiles, Refusal};
use el_io::Gate;
use kernel_runs::{CircuitOptions, go_text};
use net_runs::RunOptions;
use std::alloc::Global;
use std::thread::Threads;

/// The text of the circuit of the kernel of one file, and of a run of it on the inputs of another.
pub fn go<'a, R: Threads + Sync, G: Gate + Sync>(
    rt: &R,
    alloc: Global,
    kernel: &'a str,
    inputs: &'a str,
    kernel_bytes: &[u8],
    input_bytes: &[u8],
    circuit: CircuitOptions,
    run: RunOptions,
    gate: &G,
) -> Result<Vec<u8>, Refusal<'a>>
    requires kernel { length kernel_bytes.now ≤ max_kernel_bytes }
    requires inputs { length input_bytes.now ≤ max_inputs_bytes }
    requires timing { IsTiming circuit.timing }
    requires limit { run.limit ≤ max_firings }
    requires shared { IfSome run.workers (MayShare run.limit) }
    ensures ok { IfOk result (λ text. GoesKernel kernel.entry.now inputs.entry.now circuit run
        kernel_bytes.now input_bytes.now (Ok text.items)) }
    ensures err { IfErr result (λ refusal. GoesKernel kernel.entry.now inputs.entry.now
        circuit run kernel_bytes.now input_bytes.now (Err refusal)) }
{
    match go_text(rt, alloc, kernel_bytes, input_bytes, circuit, run, gate) {
        Ok(text) => Ok(text),
        Err(refused) => Err(Refusal::Go(KernelFiles { kernel, inputs }, refused)),
    }
}
