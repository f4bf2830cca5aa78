ghost use Rattle.std.specs.Prelude.{◌≡◌, ◌^◌, ◌<◌, ◌≤◌};
ghost use Rattle.word_ops.specs.Operations.{left_shift_of, right_shift_of, signed_shift_of};

use crate::reading::{pattern_of, reduced, signed};

/// A shift to the left by `b` modulo the width.
pub fn left_shift(width: u32, a: u64, b: u64) -> u64
    requires some { 0 < width }
    requires within { width ≤ 64 }
    ensures { result ≡ left_shift_of width a b }
{
    reduced(width, a << (b % width as u64))
}

/// A shift to the right by `b` modulo the width, with zeros in the places that become free.
pub fn right_shift(width: u32, a: u64, b: u64) -> u64
    requires some { 0 < width }
    requires within { width ≤ 64 }
    ensures { result ≡ right_shift_of width a b }
{
    a >> (b % width as u64)
}

/// A shift to the right by `b` modulo the width, with copies of the sign bit in the places that become free.
pub fn signed_shift(width: u32, a: u64, b: u64) -> u64
    requires some { 0 < width }
    requires within { width ≤ 64 }
    requires pattern { a < 2 ^ width }
    ensures { result ≡ signed_shift_of width a b }
{
    pattern_of(width, signed(width, a) >> (b % width as u64))
}
