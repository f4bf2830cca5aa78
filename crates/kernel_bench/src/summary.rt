//! The summary of a bench.
ghost use Rattle.std.specs.Prelude.{◌≡◌, ◌<◌, ◌^◌, ◌++◌, IfOk, OnOk};
ghost use Rattle.std.specs.List.{sum};
ghost use Rattle.kernel_bench.specs.Summaries.{summary_line, summary_text};

use el_base::{Memory, put_u64};
use std::alloc::Global;

/// The lines of the number of firings, of that of cycles and of the sum.
///
/// # Errors
///
/// [`Memory`] where memory is wanting.
pub(crate) fn summary(alloc: Global, firings: u64, cycles: u64, sum: u64) -> Result<Vec<u8>, Memory>
    ensures { IfOk result (λ text. text.items ≡ summary_text firings cycles sum) }
{
    let mut text = Vec::new(alloc);
    put_line(&mut text, b"firings ", firings)?;
    put_line(&mut text, b"cycles ", cycles)?;
    put_line(&mut text, b"sum ", sum)?;
    Ok(text)
}

/// Appends a line of a word and a number.
fn put_line(text: &mut Vec<u8>, word: &[u8], number: u64) -> Result<(), Memory>
    ensures { OnOk result (text.new.items ≡ text.old.items ++ summary_line word.now number) }
{
    text.extend_from_slice(word)?;
    put_u64(text, number)?;
    text.push(b'\n')?;
    Ok(())
}

/// The sum of elements, where it is small enough.
pub(crate) fn sum_of(elements: &[u64]) -> u64
    requires { sum elements.now < 2 ^ 64 }
    ensures { result ≡ sum elements.now }
{
    elements.iter().sum()
}
