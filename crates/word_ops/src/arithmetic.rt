ghost use Rattle.std.specs.Prelude.{◌≡◌, ◌^◌, ◌<◌, ◌≤◌};
ghost use Rattle.word_ops.specs.Operations.{sum_of, difference_of, product_of, negative_of, flipped_of};

use crate::reading::reduced;

/// The sum, modulo two to the width.
pub fn sum(width: u32, a: u64, b: u64) -> u64
    requires some { 0 < width }
    requires within { width ≤ 64 }
    ensures { result ≡ sum_of width a b }
{
    reduced(width, a.wrapping_add(b))
}

/// The difference, modulo two to the width.
pub fn difference(width: u32, a: u64, b: u64) -> u64
    requires some { 0 < width }
    requires within { width ≤ 64 }
    ensures { result ≡ difference_of width a b }
{
    reduced(width, a.wrapping_sub(b))
}

/// The product, modulo two to the width.
pub fn product(width: u32, a: u64, b: u64) -> u64
    requires some { 0 < width }
    requires within { width ≤ 64 }
    ensures { result ≡ product_of width a b }
{
    reduced(width, a.wrapping_mul(b))
}

/// The negative, modulo two to the width.
pub fn negative(width: u32, a: u64) -> u64
    requires some { 0 < width }
    requires within { width ≤ 64 }
    ensures { result ≡ negative_of width a }
{
    reduced(width, 0u64.wrapping_sub(a))
}

/// Each bit of a pattern flipped.
pub fn flipped(width: u32, a: u64) -> u64
    requires some { 0 < width }
    requires within { width ≤ 64 }
    requires pattern { a < 2 ^ width }
    ensures { result ≡ flipped_of width a }
{
    reduced(width, !a)
}
