//! The bench of a number.
ghost use Rattle.std.specs.Prelude.{IsSome, Ok, Err, IfOk, IfErr};
ghost use Rattle.elastic_top.specs.Answers.{BenchesSeed};

use crate::fault::Refusal;
use kernel_bench::bench_text;
use std::alloc::Global;

/// The summary of the bench of the number that is given: three lines, the firings, the cycles and the sum.
pub fn bench<'a>(alloc: Global, seed: Option<u64>) -> Result<Vec<u8>, Refusal<'a>>
    requires { IsSome seed }
    ensures ok { IfOk result (λ text. BenchesSeed seed (Ok text.items)) }
    ensures err { IfErr result (λ refusal. BenchesSeed seed (Err refusal)) }
{
    let Some(number) = seed else {
        unreachable!();
    };
    match bench_text(alloc, number) {
        Ok(text) => Ok(text),
        Err(want) => Err(Refusal::Bench(want)),
    }
}
