//! The circuit of the kernel that a file spells.
ghost use Rattle.std.specs.Prelude.{◌≤◌, Ok, Err, length, IfOk, IfErr};
ghost use Rattle.el_base.specs.Limits.{max_kernel_bytes};
ghost use Rattle.buffer_place.specs.Timings.{IsTiming};
ghost use Rattle.elastic_top.specs.Answers.{CompilesKernel};

use crate::fault::Refusal;
use kernel_runs::{CircuitOptions, compile_text};
use std::alloc::Global;

/// The text of the circuit of the kernel of a file.
pub fn compile<'a>(
    alloc: Global,
    kernel: &'a str,
    bytes: &[u8],
    options: CircuitOptions,
) -> Result<Vec<u8>, Refusal<'a>>
    requires kernel { length bytes.now ≤ max_kernel_bytes }
    requires timing { IsTiming options.timing }
    ensures ok { IfOk result (λ text. CompilesKernel kernel.entry.now options
        bytes.now (Ok text.items)) }
    ensures err { IfErr result (λ refusal. CompilesKernel kernel.entry.now options
        bytes.now (Err refusal)) }
{
    match compile_text(alloc, bytes, options) {
        Ok(text) => Ok(text),
        Err(refused) => Err(Refusal::Kernel(kernel, refused)),
    }
}
