ghost use Rattle.std.specs.Prelude.{◌≡◌, ◌^◌, ◌<◌, ◌≤◌};
ghost use Rattle.word_ops.specs.Operations.{quotient_of, remainder_of, signed_quotient_of, signed_remainder_of};

use crate::reading::{pattern_of, signed};

/// The quotient, and 0 for divisor 0.
pub fn quotient(a: u64, b: u64) -> u64
    ensures { result ≡ quotient_of a b }
{
    if b == 0 { 0 } else { a / b }
}

/// The remainder, and 0 for divisor 0.
pub fn remainder(a: u64, b: u64) -> u64
    ensures { result ≡ remainder_of a b }
{
    if b == 0 { 0 } else { a % b }
}

/// The pattern of the quotient of the signed numbers, truncated toward zero, and 0 for divisor 0.
pub fn signed_quotient(width: u32, a: u64, b: u64) -> u64
    requires some { 0 < width }
    requires within { width ≤ 64 }
    requires first { a < 2 ^ width }
    requires second { b < 2 ^ width }
    ensures { result ≡ signed_quotient_of width a b }
{
    if b == 0 {
        return 0;
    }
    pattern_of(width, signed(width, a).wrapping_div(signed(width, b)))
}

/// The pattern of the remainder of the signed numbers, with the dividend's sign, and 0 for divisor 0.
pub fn signed_remainder(width: u32, a: u64, b: u64) -> u64
    requires some { 0 < width }
    requires within { width ≤ 64 }
    requires first { a < 2 ^ width }
    requires second { b < 2 ^ width }
    ensures { result ≡ signed_remainder_of width a b }
{
    if b == 0 {
        return 0;
    }
    pattern_of(width, signed(width, a).wrapping_rem(signed(width, b)))
}
