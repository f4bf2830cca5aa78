//! Kernels that two files spell, run by the plain interpreter.
ghost use Rattle.std.specs.Prelude.{◌≤◌, Ok, Err, length, IfOk, IfErr};
ghost use Rattle.el_base.specs.Limits.{max_inputs_bytes, max_kernel_bytes};
ghost use Rattle.elastic_top.specs.Answers.{InterpretsKernel};

use crate::fault::{KernelFiles, Refusal};
use kernel_front::read_kernel;
use kernel_ref::{InterpretOptions, interpret_text};
use std::alloc::Global;

/// The text of the results of the kernel of one file on the inputs of another.
pub fn interpret<'a>(
    alloc: Global,
    kernel: &'a str,
    inputs: &'a str,
    kernel_bytes: &[u8],
    input_bytes: &[u8],
    options: InterpretOptions,
) -> Result<Vec<u8>, Refusal<'a>>
    requires kernel { length kernel_bytes.now ≤ max_kernel_bytes }
    requires inputs { length input_bytes.now ≤ max_inputs_bytes }
    ensures ok { IfOk result (λ text. InterpretsKernel kernel.entry.now inputs.entry.now options
        kernel_bytes.now input_bytes.now (Ok text.items)) }
    ensures err { IfErr result (λ refusal. InterpretsKernel kernel.entry.now inputs.entry.now
        options kernel_bytes.now input_bytes.now (Err refusal)) }
{
    let read = match read_kernel(alloc, kernel_bytes) {
        Ok(read) => read,
        Err(refused) => return Err(Refusal::Kernel(kernel, refused)),
    };
    match interpret_text(alloc, &read.typed, input_bytes, options) {
        Ok(text) => Ok(text),
        Err(refused) => Err(Refusal::Interpret(KernelFiles { kernel, inputs }, refused)),
    }
}
