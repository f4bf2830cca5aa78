ghost use Rattle.std.specs.Prelude.{◌≡◌, ◌++◌, ◌^◌, ◌≤◌, ℕ, ℤ, List, pos, true, length, All, OnErr, OnOk};
ghost use Rattle.std.specs.Char.{is_ascii_digit};
ghost use Rattle.std.specs.Fmt.{decimal, signed_decimal};
ghost use Rattle.el_base.specs.declared.digits.Number.{Number};
ghost use Rattle.el_base.specs.Digits.{IsAsWritten, ReadsBack, capped_value, is_canonical, leading_digits, number_at, signed};
ghost use Rattle.std.specs.Str.Parse.{starts_with_minus};

use crate::memory::Memory;
use itoa::Buffer;

/// Appends a number in decimal, with no leading zeros.
///
/// # Errors
///
/// [`Memory`] where memory is wanting; the text is then as it was.
pub fn put_u64(text: &mut Vec<u8>, n: u64) -> Result<(), Memory>
    ensures ok { OnOk result (text.new.items ≡ text.old.items ++ decimal n) }
    ensures err { OnErr result (text.new.items ≡ text.old.items) }
{
    text.extend_from_slice(Buffer::new().format(n).as_bytes())?;
    Ok(())
}

/// Appends a number in decimal, with no leading zeros, and with `-` where it is negative.
///
/// # Errors
///
/// [`Memory`] where memory is wanting; the text is then as it was.
pub fn put_i64(text: &mut Vec<u8>, n: i64) -> Result<(), Memory>
    ensures ok { OnOk result (text.new.items ≡ text.old.items ++ signed_decimal n) }
    ensures err { OnErr result (text.new.items ≡ text.old.items) }
{
    text.extend_from_slice(Buffer::new().format(n).as_bytes())?;
    Ok(())
}

/// The magnitude from which on a [`Number`] is no longer told apart.
const CAP: u128 = 1 << 100;

/// A decimal number that was read from a text.
#[derive(Clone, Copy, PartialEq, Eq)]
pub struct Number {
    /// The number, or 2^100 with its sign where its magnitude is not below 2^100.
    pub value: i128,
    /// The place after its last digit.
    pub end: usize,
    /// Whether it has no leading zero before another digit and is not `-0`.
    pub canonical: bool,
}

/// Reads an optional `-` and all the digits that follow it; `None` where no digit follows.
pub fn read_number(bytes: &[u8], at: usize) -> Option<Number>
    requires { at ≤ length bytes.now }
    ensures { result ≡ number_at bytes.now at }
{
    let rest = &bytes[at..];
    let negative = starts_with_minus(rest);
    let from = usize::from(negative);
    let digits = leading_digits(&rest[from..]);
    if digits.is_empty() {
        return None;
    }
    Some(Number {
        value: signed(negative, capped_value(digits)),
        end: at + from + digits.len(),
        canonical: is_canonical(negative, digits),
    })
}

fn starts_with_minus(bytes: &[u8]) -> bool
    ensures { result ≡ starts_with_minus bytes.now }
{
    bytes.first() == Some(&b'-')
}

fn leading_digits(bytes: &[u8]) -> &[u8]
    ensures front { result.now ≡ leading_digits bytes.now }
    ensures digits { All (λ b. is_ascii_digit b ≡ true) result.now }
{
    for (i, b) in bytes.iter().enumerate() {
        if !b.is_ascii_digit() {
            return &bytes[..i];
        }
    }
    bytes
}

fn capped_value(digits: &[u8]) -> u128
    requires { All (λ b. is_ascii_digit b ≡ true) digits.now }
    ensures { result ≡ capped_value digits.now }
{
    let mut value = 0;
    for digit in digits {
        value = (value * 10 + u128::from(digit - b'0')).min(CAP);
    }
    value
}

fn signed(negative: bool, magnitude: u128) -> i128
    requires { magnitude ≤ 2 ^ 100 }
    ensures { result ≡ signed negative magnitude }
{
    if negative {
        -(magnitude as i128)
    } else {
        magnitude as i128
    }
}

fn is_canonical(negative: bool, digits: &[u8]) -> bool
    ensures { result ≡ is_canonical negative digits.now }
{
    !(digits.first() == Some(&b'0') && (negative || digits.len() > 1))
}

/// A number below 2^64 in magnitude that was written after any text, and before bytes that begin with no digit, is read as itself.
pub fn written_numbers_read_back()
    ensures { (z : ℤ) → ReadsBack z }
{}

/// A canonical number below 2^64 in magnitude that is read stands in the text as it is written.
pub fn canonical_numbers_are_as_written()
    ensures { (text : List ℕ) (at : ℕ) (n : Number) → IsAsWritten text at n }
{}
