//! From the bytes of a kernel to the text of its circuit.
ghost use Rattle.std.specs.Prelude.{◌≤◌, length, Ok, Err, IfOk, IfErr};
ghost use Rattle.el_base.specs.Limits.{max_kernel_bytes};
ghost use Rattle.buffer_place.specs.Timings.{IsTiming};
ghost use Rattle.kernel_runs.specs.Circuits.{Compiles};

use crate::options::CircuitOptions;
use kernel_compile::compile;
use kernel_front::KernelRefusal;
use net_text::print;
use std::alloc::Global;

/// The text, in version 2, of the circuit of the kernel that bytes spell.
///
/// # Errors
///
/// What [`read_kernel`](kernel_front::read_kernel) refuses, and `Memory` where memory ran out.
pub fn compile_text(
    alloc: Global,
    kernel: &[u8],
    options: CircuitOptions,
) -> Result<Vec<u8>, KernelRefusal>
    requires bytes { length kernel.now ≤ max_kernel_bytes }
    requires timing { IsTiming options.timing }
    ensures ok { IfOk result (λ text. Compiles kernel.now options (Ok text.items)) }
    ensures err { IfErr result (λ refused. Compiles kernel.now options (Err refused)) }
{
    let compiled = compile(alloc, kernel, options.timing, options.forward)?;
    let text = print(alloc, compiled.net.net())?;
    Ok(text)
}
