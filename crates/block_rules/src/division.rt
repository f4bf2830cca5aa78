//! What a division by a constant becomes.
ghost use Rattle.std.specs.Prelude.{◌≡◌, ◌<◌, ◌-◌, ◌^◌, IfOk, IfSome, ◌*◌, nat_lt};
ghost use Rattle.word_rules.specs.Magic.{reciprocal, binary_digits};
ghost use Rattle.word_rules.specs.Amounts.{serves, serves_signed, unsigned_amount, signed_amount};
ghost use Rattle.block_rules.specs.Kinds.{bits};
ghost use Rattle.block_rules.specs.TwoRules.{exponent_of};
ghost use Rattle.block_rules.specs.Divisions.{HasRoom, quotient32, has_factor, quotient64, unsigned_quotient, signed32, by_quotient, unsigned_remainder, power_quotient, power_remainder, no_power_quotient, no_power_remainder, large_quotient, large_remainder, signed_quotient, signed_remainder, divided};

use crate::kind::{Kind, Word};
use crate::of_two::exponent;
use crate::rewriting::Rewriting;
use ir::{Instr, List, Memory, Op1, Op2};
use std::alloc::Global;

/// A division by a constant from 2 on, whose sign bit is not set.
#[derive(Clone, Copy)]
pub(crate) struct Division {
    /// The number of the next value of the block.
    pub next: u32,
    pub left: u32,
    pub right: u32,
    /// The constant that the value `right` is.
    pub divisor: u64,
    /// The greatest value that `left` can have.
    pub top: u64,
}

/// Whether the product is below `bound`.
fn is_product_below(x: u64, y: u64, bound: u64) -> bool
    ensures { result ≡ nat_lt (x * y) bound }
{
    match x.checked_mul(y) {
        Some(product) => product < bound,
        None => false,
    }
}

/// Whether the product has at most 64 bits.
fn is_word(x: u64, y: u64) -> bool
    ensures { result ≡ nat_lt (x * y) (2 ^ 64) }
{
    match x.checked_mul(y) {
        Some(_) => true,
        None => false,
    }
}

/// The least number whose product with the divisor is at least 2 to the amount.
#[tactic(auto, using(std::proofs::lemmas::Nat::one_shl))]
fn factor(divisor: u64, amount: u32) -> u64
    requires some { 0 < divisor }
    requires within { amount < 64 }
    ensures { result ≡ reciprocal divisor amount }
{
    (1u64 << amount).div_ceil(divisor)
}

/// How much that product is above 2 to the amount.
#[tactic(auto, using(crate::proofs::Factors::product_fits, crate::proofs::Factors::product_reaches))]
fn excess(divisor: u64, amount: u32) -> u64
    requires some { 0 < divisor }
    requires half { divisor < 2 ^ 63 }
    requires within { amount < 64 }
    ensures { result ≡ reciprocal divisor amount * divisor - 2 ^ amount }
{
    factor(divisor, amount) * divisor - (1u64 << amount)
}

/// Whether the factor serves numbers up to `top`.
fn is_factor(top: u64, divisor: u64, amount: u32) -> bool
    requires some { 0 < divisor }
    requires half { divisor < 2 ^ 63 }
    requires within { amount < 64 }
    ensures { result ≡ serves top divisor amount }
{
    is_product_below(excess(divisor, amount), top, 1 << amount)
        && is_word(factor(divisor, amount), top)
}

/// Whether the factor serves signed numbers of 32 bits.
fn is_signed_factor(divisor: u64, amount: u32) -> bool
    requires some { 0 < divisor }
    requires half { divisor < 2 ^ 63 }
    requires within { amount < 64 }
    ensures { result ≡ serves_signed divisor amount }
{
    is_product_below(excess(divisor, amount), 1 << 31, 1 << amount)
}

/// The least amount from 32 on whose factor serves numbers up to `top`.
#[tactic(auto, using(crate::proofs::Factors::found_here, crate::proofs::Factors::found_later, crate::proofs::Factors::found_nowhere), unfolding(word_rules::specs::Amounts::unsigned_amount))]
fn unsigned_shift(top: u64, divisor: u64) -> Option<u32>
    requires some { 0 < divisor }
    requires half { divisor < 2 ^ 63 }
    ensures within { IfSome result (λ s. s < 64) }
    ensures least { result ≡ unsigned_amount top divisor }
{
    for amount in 32..64u32 {
        if is_factor(top, divisor, amount) {
            return Some(amount);
        }
    }
    None
}

/// The least amount from 32 on whose factor serves signed numbers of 32 bits.
#[tactic(auto, using(crate::proofs::Factors::found_here, crate::proofs::Factors::found_later, crate::proofs::Factors::found_nowhere), unfolding(word_rules::specs::Amounts::signed_amount))]
fn signed_shift(divisor: u64) -> Option<u32>
    requires some { 0 < divisor }
    requires half { divisor < 2 ^ 63 }
    ensures within { IfSome result (λ s. s < 64) }
    ensures least { result ≡ signed_amount divisor }
{
    for amount in 32..64u32 {
        if is_signed_factor(divisor, amount) {
            return Some(amount);
        }
    }
    None
}

/// Those steps, as what a step becomes.
fn steps_of(alloc: Global, items: &[Instr]) -> Result<Rewriting, Memory>
    ensures { IfOk result (λ r. r ≡ Rewriting.Steps items.now) }
{
    let mut steps = List::new(alloc);
    for item in items {
        steps.push(*item)?;
    }
    Ok(Rewriting::Steps(steps))
}

fn constant(width: u32, value: u64) -> Instr
    ensures { result ≡ Instr.Const width value }
{
    Instr::Const { width, value }
}

/// An unsigned quotient of 32 bits.
fn divide32(alloc: Global, x: Division, amount: Option<u32>) -> Result<Rewriting, Memory>
    requires room { HasRoom x.next }
    requires some { 1 < x.divisor }
    requires half { x.divisor < 2 ^ 31 }
    requires amount { IfSome amount (λ s. s < 64) }
    ensures { IfOk result (λ r. r ≡ Rewriting.Steps (quotient32 x amount)) }
{
    match amount {
        None => divide_long(alloc, x),
        Some(amount) => divide_short(alloc, x, amount),
    }
}

fn divide_short(alloc: Global, x: Division, amount: u32) -> Result<Rewriting, Memory>
    requires room { HasRoom x.next }
    requires some { 1 < x.divisor }
    requires within { amount < 64 }
    ensures { IfOk result (λ r. r ≡ Rewriting.Steps (quotient32 x (Some amount))) }
{
    let m = x.next;
    steps_of(
        alloc,
        &[
            Instr::One(Op1::U32to64, x.left),
            constant(64, factor(x.divisor, amount)),
            Instr::Two(Op2::Mul64, m, m + 1),
            constant(64, amount as u64),
            Instr::Two(Op2::Shru64, m + 2, m + 3),
            Instr::One(Op1::Cut64to32, m + 4),
        ],
    )
}

/// By a magic number of 33 bits.
fn divide_long(alloc: Global, x: Division) -> Result<Rewriting, Memory>
    requires room { HasRoom x.next }
    requires some { 1 < x.divisor }
    requires half { x.divisor < 2 ^ 31 }
    ensures { IfOk result (λ r. r ≡ Rewriting.Steps (quotient32 x None)) }
{
    let m = x.next;
    let digits = digits_before(x.divisor);
    steps_of(
        alloc,
        &[
            Instr::One(Op1::U32to64, x.left),
            constant(64, factor(x.divisor, 32 + digits).saturating_sub(1 << 32)),
            Instr::Two(Op2::Mul64, m, m + 1),
            constant(64, 32),
            Instr::Two(Op2::Shru64, m + 2, m + 3),
            Instr::Two(Op2::Add64, m + 4, m),
            constant(64, digits as u64),
            Instr::Two(Op2::Shru64, m + 5, m + 6),
            Instr::One(Op1::Cut64to32, m + 7),
        ],
    )
}

/// How many binary digits the number before the divisor has.
#[tactic(auto, using(crate::proofs::Factors::digits_are_few))]
fn digits_before(divisor: u64) -> u32
    requires some { 1 < divisor }
    requires half { divisor < 2 ^ 31 }
    ensures few { result < 32 }
    ensures digits { result ≡ binary_digits (divisor - 1) }
{
    64 - (divisor - 1).leading_zeros()
}

/// An unsigned quotient of 64 bits.
fn divide64(alloc: Global, x: Division, amount: Option<u32>) -> Result<Rewriting, Memory>
    requires room { HasRoom x.next }
    requires some { 1 < x.divisor }
    requires amount { IfSome amount (λ s. s < 64) }
    ensures { IfOk result (λ r. r ≡ quotient64 x amount) }
{
    let Some(amount) = amount else {
        return Ok(Rewriting::Kept);
    };
    let m = x.next;
    let factor = factor(x.divisor, amount);
    if factor < 1 << 32 {
        steps_of(
            alloc,
            &[
                constant(64, factor),
                Instr::Two(Op2::Mul64, x.left, m),
                constant(64, amount as u64),
                Instr::Two(Op2::Shru64, m + 1, m + 2),
            ],
        )
    } else {
        Ok(Rewriting::Kept)
    }
}

/// A signed quotient of 32 bits.
fn divide_signed32(alloc: Global, x: Division, amount: Option<u32>) -> Result<Rewriting, Memory>
    requires room { HasRoom x.next }
    requires some { 1 < x.divisor }
    requires amount { IfSome amount (λ s. s < 64) }
    ensures { IfOk result (λ r. r ≡ signed32 x amount) }
{
    let Some(amount) = amount else {
        return Ok(Rewriting::Kept);
    };
    let m = x.next;
    steps_of(
        alloc,
        &[
            Instr::One(Op1::S32to64, x.left),
            constant(64, factor(x.divisor, amount)),
            Instr::Two(Op2::Mul64, m, m + 1),
            constant(64, amount as u64),
            Instr::Two(Op2::Shrs64, m + 2, m + 3),
            Instr::One(Op1::Cut64to32, m + 4),
            constant(32, 31),
            Instr::Two(Op2::Shrs32, x.left, m + 6),
            Instr::Two(Op2::Sub32, m + 5, m + 7),
        ],
    )
}

/// A remainder, by its quotient.
fn leave_by_quotient(
    alloc: Global,
    kind: Kind,
    word: Word,
    x: Division,
) -> Result<Rewriting, Memory>
    requires { HasRoom x.next }
    ensures { IfOk result (λ r. r ≡ Rewriting.Steps (by_quotient kind word x)) }
{
    steps_of(
        alloc,
        &[
            Instr::Two(kind.on(word), x.left, x.right),
            Instr::Two(Kind::Mul.on(word), x.next, x.right),
            Instr::Two(Kind::Sub.on(word), x.left, x.next + 1),
        ],
    )
}

/// A signed quotient by two to that many places.
fn divide_power(alloc: Global, word: Word, x: Division, places: u64) -> Result<Rewriting, Memory>
    requires room { HasRoom x.next }
    requires within { places < bits word }
    ensures { IfOk result (λ r. r ≡ Rewriting.Steps (power_quotient word x places)) }
{
    let m = x.next;
    let width = word.bits();
    if places == 1 {
        steps_of(
            alloc,
            &[
                constant(width, width as u64 - 1),
                Instr::Two(Kind::Shru.on(word), x.left, m),
                Instr::Two(Kind::Add.on(word), x.left, m + 1),
                constant(width, 1),
                Instr::Two(Kind::Shrs.on(word), m + 2, m + 3),
            ],
        )
    } else {
        steps_of(
            alloc,
            &[
                constant(width, width as u64 - 1),
                Instr::Two(Kind::Shrs.on(word), x.left, m),
                constant(width, width as u64 - places),
                Instr::Two(Kind::Shru.on(word), m + 1, m + 2),
                Instr::Two(Kind::Add.on(word), x.left, m + 3),
                constant(width, places),
                Instr::Two(Kind::Shrs.on(word), m + 4, m + 5),
            ],
        )
    }
}

/// A signed remainder by two to that many places.
fn leave_power(alloc: Global, word: Word, x: Division, places: u64) -> Result<Rewriting, Memory>
    requires room { HasRoom x.next }
    requires within { places < bits word }
    requires some { 0 < x.divisor }
    requires pattern { x.divisor < 2 ^ bits word }
    ensures { IfOk result (λ r. r ≡ Rewriting.Steps (power_remainder word x places)) }
{
    let m = x.next;
    let width = word.bits();
    if places == 1 {
        steps_of(
            alloc,
            &[
                constant(width, width as u64 - 1),
                Instr::Two(Kind::Shru.on(word), x.left, m),
                Instr::Two(Kind::Add.on(word), x.left, m + 1),
                constant(width, word.ones() - 1),
                Instr::Two(Kind::And.on(word), m + 2, m + 3),
                Instr::Two(Kind::Sub.on(word), x.left, m + 4),
            ],
        )
    } else {
        steps_of(
            alloc,
            &[
                constant(width, width as u64 - 1),
                Instr::Two(Kind::Shrs.on(word), x.left, m),
                constant(width, width as u64 - places),
                Instr::Two(Kind::Shru.on(word), m + 1, m + 2),
                Instr::Two(Kind::Add.on(word), x.left, m + 3),
                constant(width, word.opposite(x.divisor)),
                Instr::Two(Kind::And.on(word), m + 4, m + 5),
                Instr::Two(Kind::Sub.on(word), x.left, m + 6),
            ],
        )
    }
}

/// An unsigned quotient.
#[tactic(auto, unfolding(crate::specs::Divisions::unsigned_quotient))]
fn divide_unsigned(alloc: Global, word: Word, x: Division) -> Result<Rewriting, Memory>
    requires room { HasRoom x.next }
    requires some { 1 < x.divisor }
    requires half { x.divisor < 2 ^ (bits word - 1) }
    ensures { IfOk result (λ r. r ≡ unsigned_quotient word x) }
{
    match word {
        Word::Word32 => divide32(alloc, x, unsigned_shift(x.top, x.divisor)),
        Word::Word64 => if x.top < 1 << 32 {
            divide64(alloc, x, unsigned_shift(x.top, x.divisor))
        } else {
            Ok(Rewriting::Kept)
        },
    }
}

/// Whether the factor for the amount has 32 bits.
fn is_factor_small(divisor: u64, amount: Option<u32>) -> bool
    requires some { 1 < divisor }
    requires amount { IfSome amount (λ s. s < 64) }
    ensures { result ≡ has_factor divisor amount }
{
    match amount {
        None => false,
        Some(amount) => factor(divisor, amount) < 1 << 32,
    }
}

/// An unsigned remainder.
#[tactic(auto, unfolding(crate::specs::Divisions::unsigned_remainder))]
fn leave_unsigned(alloc: Global, word: Word, x: Division) -> Result<Rewriting, Memory>
    requires room { HasRoom x.next }
    requires some { 1 < x.divisor }
    requires half { x.divisor < 2 ^ (bits word - 1) }
    ensures { IfOk result (λ r. r ≡ unsigned_remainder word x) }
{
    match word {
        Word::Word32 => leave_by_quotient(alloc, Kind::Divu, Word::Word32, x),
        Word::Word64 => if x.top < 1 << 32
            && is_factor_small(x.divisor, unsigned_shift(x.top, x.divisor))
        {
            leave_by_quotient(alloc, Kind::Divu, Word::Word64, x)
        } else {
            Ok(Rewriting::Kept)
        },
    }
}

/// A signed quotient by no power of two.
fn divide_by_no_power(alloc: Global, word: Word, x: Division) -> Result<Rewriting, Memory>
    requires room { HasRoom x.next }
    requires some { 1 < x.divisor }
    requires half { x.divisor < 2 ^ (bits word - 1) }
    ensures { IfOk result (λ r. r ≡ no_power_quotient word x) }
{
    match word {
        Word::Word32 => divide_signed32(alloc, x, signed_shift(x.divisor)),
        Word::Word64 => Ok(Rewriting::Kept),
    }
}

/// A signed remainder by no power of two.
fn leave_by_no_power(alloc: Global, word: Word, x: Division) -> Result<Rewriting, Memory>
    requires { HasRoom x.next }
    ensures { IfOk result (λ r. r ≡ no_power_remainder word x) }
{
    match word {
        Word::Word32 => leave_by_quotient(alloc, Kind::Divs, Word::Word32, x),
        Word::Word64 => Ok(Rewriting::Kept),
    }
}

/// The power of two that a divisor is.
#[tactic(auto, using(crate::proofs::Exponents::places_are_few))]
fn exponent_below(word: Word, divisor: u64) -> Option<u64>
    requires { divisor < 2 ^ (bits word - 1) }
    ensures within { IfSome result (λ k. k < bits word) }
    ensures exponent { result ≡ exponent_of divisor }
{
    exponent(divisor)
}

/// A signed quotient.
#[tactic(auto, unfolding(crate::specs::Divisions::signed_quotient))]
fn divide_signed(alloc: Global, word: Word, x: Division) -> Result<Rewriting, Memory>
    requires room { HasRoom x.next }
    requires some { 1 < x.divisor }
    requires half { x.divisor < 2 ^ (bits word - 1) }
    ensures { IfOk result (λ r. r ≡ signed_quotient word x) }
{
    if x.top < word.half() {
        return steps_of(alloc, &[Instr::Two(Kind::Divu.on(word), x.left, x.right)]);
    }
    match exponent_below(word, x.divisor) {
        None => divide_by_no_power(alloc, word, x),
        Some(places) => divide_power(alloc, word, x, places),
    }
}

/// A signed remainder.
#[tactic(auto, using(crate::proofs::Exponents::half_below), unfolding(crate::specs::Divisions::signed_remainder))]
fn leave_signed(alloc: Global, word: Word, x: Division) -> Result<Rewriting, Memory>
    requires room { HasRoom x.next }
    requires some { 1 < x.divisor }
    requires half { x.divisor < 2 ^ (bits word - 1) }
    ensures { IfOk result (λ r. r ≡ signed_remainder word x) }
{
    if x.top < word.half() {
        return steps_of(alloc, &[Instr::Two(Kind::Remu.on(word), x.left, x.right)]);
    }
    match exponent_below(word, x.divisor) {
        None => leave_by_no_power(alloc, word, x),
        Some(places) => leave_power(alloc, word, x, places),
    }
}

/// What an operation becomes that is a division.
#[tactic(auto, unfolding(crate::specs::Divisions::divided))]
pub(crate) fn divide(
    alloc: Global,
    kind: Kind,
    word: Word,
    x: Division,
) -> Result<Rewriting, Memory>
    requires room { HasRoom x.next }
    requires some { 1 < x.divisor }
    requires half { x.divisor < 2 ^ (bits word - 1) }
    ensures { IfOk result (λ r. r ≡ divided kind word x) }
{
    match kind {
        Kind::Divu => divide_unsigned(alloc, word, x),
        Kind::Remu => leave_unsigned(alloc, word, x),
        Kind::Divs => divide_signed(alloc, word, x),
        Kind::Rems => leave_signed(alloc, word, x),
        Kind::Add
        | Kind::Sub
        | Kind::Mul
        | Kind::And
        | Kind::Or
        | Kind::Xor
        | Kind::Shl
        | Kind::Shru
        | Kind::Shrs
        | Kind::Eq
        | Kind::Ne
        | Kind::Ltu
        | Kind::Leu
        | Kind::Lts
        | Kind::Les => Ok(Rewriting::Kept),
    }
}
