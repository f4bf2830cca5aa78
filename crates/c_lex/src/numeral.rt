//! Integer constants: their form, value and type.
ghost use Rattle.std.specs.Prelude.{◌≡◌, ◌≤◌, ◌<◌, ◌+◌, ◌==◌, ◌^◌, nat_lt, if◌then◌else◌, length, All, true, Some, None, IfSome};
ghost use Rattle.std.specs.Char.{is_digit};
ghost use Rattle.std.specs.List.{prefix_len, find};
ghost use Rattle.std.specs.Str.Parse.{digits_value};
ghost use Rattle.c_ast.specs.Numerals.{prefix_of, base_of, digits_of, suffix_of, unsigned_len, long_len, long_at, unsigned_at, is_unsigned, is_long, is_suffix, is_numeral, types_of, holds, typed_value, number_of};

use crate::comment::begins;
use el_base::Ty;

// `0x` or `0X` at the front: 2, or 0 where neither stands there.
#[tactic(auto, unfolding(c_ast::specs::Numerals::prefix_of))]
fn prefix_of(token: &[u8]) -> usize
    ensures len { result ≡ prefix_of token.now }
    ensures within { result ≤ length token.now }
{
    if begins(b"0x", token) || begins(b"0X", token) {
        2
    } else {
        0
    }
}

#[tactic(auto, unfolding(c_ast::specs::Numerals::base_of))]
fn base_of(token: &[u8]) -> u32
    ensures base { result ≡ base_of token.now }
    ensures low { 8 ≤ result }
    ensures high { result ≤ 16 }
{
    if prefix_of(token) == 2 {
        16
    } else if begins(b"0", token) {
        8
    } else {
        10
    }
}

fn is_digit(byte: u8, base: u32) -> bool
    requires low { 2 ≤ base }
    requires high { base ≤ 36 }
    ensures { result ≡ is_digit byte base }
{
    char::from(byte).is_digit(base)
}

fn digit_count(text: &[u8], base: u32) -> usize
    requires low { 2 ≤ base }
    requires high { base ≤ 36 }
    ensures count { result ≡ prefix_len (λ b. is_digit b base) text.now }
    ensures within { result ≤ length text.now }
{
    text.iter().take_while(|b| is_digit(**b, base)).count()
}

#[tactic(auto, unfolding(c_ast::specs::Numerals::digits_of))]
fn digits_of(token: &[u8]) -> &[u8]
    ensures digits { result.now ≡ digits_of token.now }
    ensures within { prefix_of token.now + length result.now ≤ length token.now }
{
    let body = &token[prefix_of(token)..];
    &body[..digit_count(body, base_of(token))]
}

#[tactic(auto, unfolding(c_ast::specs::Numerals::suffix_of))]
fn suffix_of(token: &[u8]) -> &[u8]
    ensures { result.now ≡ suffix_of token.now }
{
    &token[prefix_of(token) + digits_of(token).len()..]
}

#[tactic(auto, unfolding(c_ast::specs::Numerals::unsigned_len))]
fn unsigned_len(text: &[u8]) -> usize
    ensures len { result ≡ unsigned_len text.now }
    ensures within { result ≤ length text.now }
{
    if begins(b"u", text) || begins(b"U", text) {
        1
    } else {
        0
    }
}

#[tactic(auto, unfolding(c_ast::specs::Numerals::long_len))]
fn long_len(text: &[u8]) -> usize
    ensures len { result ≡ long_len text.now }
    ensures within { result ≤ length text.now }
{
    if begins(b"ll", text) || begins(b"LL", text) {
        2
    } else if begins(b"l", text) || begins(b"L", text) {
        1
    } else {
        0
    }
}

#[tactic(auto, unfolding(c_ast::specs::Numerals::long_at))]
fn long_at(suffix: &[u8]) -> usize
    ensures at { result ≡ long_at suffix.now }
    ensures within { result ≤ length suffix.now }
{
    unsigned_len(suffix)
}

#[tactic(auto, unfolding(c_ast::specs::Numerals::unsigned_at))]
fn unsigned_at(suffix: &[u8]) -> usize
    ensures at { result ≡ unsigned_at suffix.now }
    ensures within { result ≤ length suffix.now }
{
    if unsigned_len(suffix) == 1 {
        0
    } else {
        long_len(suffix)
    }
}

#[tactic(auto, unfolding(c_ast::specs::Numerals::is_long))]
fn is_long(suffix: &[u8]) -> bool
    ensures { result ≡ is_long suffix.now }
{
    long_len(&suffix[long_at(suffix)..]) > 0
}

#[tactic(auto, unfolding(c_ast::specs::Numerals::is_unsigned))]
fn is_unsigned(suffix: &[u8]) -> bool
    ensures { result ≡ is_unsigned suffix.now }
{
    unsigned_len(&suffix[unsigned_at(suffix)..]) > 0
}

#[tactic(auto, unfolding(c_ast::specs::Numerals::is_suffix))]
fn is_suffix(suffix: &[u8]) -> bool
    ensures { result ≡ is_suffix suffix.now }
{
    let long = long_len(&suffix[long_at(suffix)..]);
    let unsigned = unsigned_len(&suffix[unsigned_at(suffix)..]);
    suffix.len() == long + unsigned
}

/// Whether a token is an integer constant.
#[tactic(auto, unfolding(c_ast::specs::Numerals::is_numeral))]
pub fn is_numeral(token: &[u8]) -> bool
    ensures { result ≡ is_numeral token.now }
{
    !digits_of(token).is_empty() && is_suffix(suffix_of(token))
}

// The types that a constant may have, in their order.
fn types_of(decimal: bool, unsigned: bool, long: bool) -> &'static [Ty]
    ensures { result.now ≡ types_of decimal unsigned long }
{
    match (unsigned, long, decimal) {
        (false, false, true) => &[Ty::I32, Ty::I64],
        (false, false, false) => &[Ty::I32, Ty::U32, Ty::I64, Ty::U64],
        (true, false, _) => &[Ty::U32, Ty::U64],
        (false, true, true) => &[Ty::I64],
        (false, true, false) => &[Ty::I64, Ty::U64],
        (true, true, _) => &[Ty::U64],
    }
}

// The number that digits write; `None` from 2^64 on.
fn value_of(digits: &[u8], base: u32) -> Option<u64>
    requires low { 2 ≤ base }
    requires high { base ≤ 36 }
    requires digits { All (λ b. is_digit b base ≡ true) digits.now }
    ensures { let value = digits_value base digits.now in
        result ≡ (if nat_lt value (2 ^ 64) then Some value else None) }
{
    let mut value: u64 = 0;
    for byte in digits {
        let digit = char::from(*byte).to_digit(base)?;
        value = value
            .checked_mul(u64::from(base))?
            .checked_add(u64::from(digit))?;
    }
    Some(value)
}

fn holds(value: u64, ty: Ty) -> bool
    ensures { result ≡ holds value ty }
{
    let bits = if ty.signed() {
        ty.width() - 1
    } else {
        ty.width()
    };
    u128::from(value) < 1 << bits
}

fn first_type(types: &[Ty], value: u64) -> Option<Ty>
    ensures { result ≡ find (holds value) types.now }
{
    for ty in types {
        if holds(value, *ty) {
            return Some(*ty);
        }
    }
    None
}

/// An integer constant's value and type; `None` where none of its types holds it.
#[tactic(auto, unfolding(c_ast::specs::Numerals::number_of, c_ast::specs::Numerals::typed_value))]
pub fn number_of(token: &[u8]) -> Option<(u64, Ty)>
    ensures { result ≡ number_of token.now }
{
    let base = base_of(token);
    let suffix = suffix_of(token);
    let value = value_of(digits_of(token), base)?;
    let ty = first_type(
        types_of(base == 10, is_unsigned(suffix), is_long(suffix)),
        value,
    )?;
    Some((value, ty))
}
