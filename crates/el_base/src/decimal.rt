//! Decimals of numbers, with no allocation.
ghost use Rattle.std.specs.Prelude.{◌≡◌};
ghost use Rattle.std.specs.Fmt.{decimal, signed_decimal};

use itoa::write_digits;
use std::marker::Model;

/// The longest decimal of a number of 64 bits.
const MOST_DIGITS: usize = 20;

/// A number in decimal, with no leading zeros, which contracts see as its bytes. Takes no memory.
#[derive(Drop)]
pub struct Decimal {
    bytes: [u8; MOST_DIGITS],
    start: usize,
}

impl Model for Decimal {
    ghost use Rattle.std.specs.Prelude.{List, ℕ, ◌≤◌, length, drop};

    ghost Value = { List ℕ };

    ghost view = { λ d. drop d.start d.bytes };

    ghost invariant = { λ d. d.start ≤ length d.bytes };
}

impl Decimal {
    /// The decimal of a number.
    pub fn of_u64(n: u64) -> Decimal
        ensures { result ≡ decimal n }
    {
        let mut bytes = [0; MOST_DIGITS];
        let start = write_digits(n, &mut bytes, MOST_DIGITS);
        Decimal { bytes, start }
    }

    /// The decimal of a number, with `-` where it is negative.
    pub fn of_i64(n: i64) -> Decimal
        ensures { result ≡ signed_decimal n }
    {
        let mut bytes = [0; MOST_DIGITS];
        let start = write_digits(n.unsigned_abs(), &mut bytes, MOST_DIGITS);
        if n >= 0 {
            return Decimal { bytes, start };
        }
        let start = start - 1;
        bytes[start] = b'-';
        Decimal { bytes, start }
    }

    /// Its bytes.
    pub fn as_slice(&self) -> &[u8]
        ensures { result.now ≡ self.now }
    {
        &self.bytes[self.start..]
    }
}
