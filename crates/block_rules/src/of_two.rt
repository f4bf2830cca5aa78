//! What an operation on two values becomes, by the constants among them.
ghost use Rattle.std.specs.Prelude.{◌≡◌, ◌-◌, ◌^◌, ◌==◌, if◌then◌else◌};
ghost use Rattle.block_rules.specs.Kinds.{bits};
ghost use Rattle.block_rules.specs.TwoRules.{of_equal, by_left, by_none, by_right, by_constants, exponent_of, product_by, quotient_by, remainder_by, multiplied_by, masked_by, joined_by, flipped_by, compared_by, distinguished_by};

use crate::change::Change;
use crate::kind::{Kind, Word};
use ir::{Instr, Op2};
use word_ops::apply2;

/// By the constants that the two operands are; whether the first is a test. The block's next value has the number `next`.
#[tactic(auto, unfolding(crate::specs::TwoRules::by_constants))]
pub(crate) fn change_two(
    op: Op2,
    next: u32,
    left: u32,
    right: u32,
    x: Option<u64>,
    y: Option<u64>,
    test: bool,
) -> Change
    ensures { result ≡ by_constants op next left right x y test }
{
    let word = Word::of(op.operand_width());
    match (x, y) {
        (Some(x), Some(y)) => Change::Becomes(Instr::Const {
            width: op.result_width(),
            value: apply2(op, x, y),
        }),
        (Some(x), None) => if Kind::of(op).commutes() {
            Change::Becomes(Instr::Two(op, right, left))
        } else {
            change_left(Kind::of(op), word, right, x)
        },
        (None, Some(y)) => change_right(Kind::of(op), word, next, left, right, y, test),
        (None, None) => change_none(op, left, right),
    }
}

/// Of two values that are no constants.
#[tactic(auto, unfolding(crate::specs::TwoRules::by_none))]
fn change_none(op: Op2, left: u32, right: u32) -> Change
    ensures { result ≡ by_none op left right }
{
    if left == right {
        change_equal(Kind::of(op), Word::of(op.operand_width()), left)
    } else if Kind::of(op).commutes() && right < left {
        Change::Becomes(Instr::Two(op, right, left))
    } else {
        Change::Stays
    }
}

/// Of two equal values.
#[tactic(auto, unfolding(crate::specs::TwoRules::of_equal))]
fn change_equal(kind: Kind, word: Word, value: u32) -> Change
    ensures { result ≡ of_equal kind word value }
{
    match kind {
        Kind::Sub | Kind::Xor => number(word.bits(), 0),
        Kind::Ne | Kind::Ltu | Kind::Lts => number(32, 0),
        Kind::Eq | Kind::Leu | Kind::Les => number(32, 1),
        Kind::And | Kind::Or => Change::Is(value),
        Kind::Add
        | Kind::Mul
        | Kind::Shl
        | Kind::Shru
        | Kind::Shrs
        | Kind::Divu
        | Kind::Remu
        | Kind::Divs
        | Kind::Rems => Change::Stays,
    }
}

fn number(width: u32, value: u64) -> Change
    ensures { result ≡ Change.Becomes (Instr.Const width value) }
{
    Change::Becomes(Instr::Const { width, value })
}

/// With a constant on the left.
#[tactic(auto, unfolding(crate::specs::TwoRules::by_left))]
fn change_left(kind: Kind, word: Word, right: u32, x: u64) -> Change
    ensures { result ≡ by_left kind word right x }
{
    match kind {
        Kind::Sub => if x == 0 {
            Change::Becomes(Instr::One(word.negative(), right))
        } else {
            Change::Stays
        },
        Kind::Add
        | Kind::Mul
        | Kind::And
        | Kind::Or
        | Kind::Xor
        | Kind::Shl
        | Kind::Shru
        | Kind::Shrs
        | Kind::Divu
        | Kind::Remu
        | Kind::Divs
        | Kind::Rems
        | Kind::Eq
        | Kind::Ne
        | Kind::Ltu
        | Kind::Leu
        | Kind::Lts
        | Kind::Les => Change::Stays,
    }
}

/// With a constant on the right.
#[tactic(auto, unfolding(crate::specs::TwoRules::by_right))]
fn change_right(
    kind: Kind,
    word: Word,
    next: u32,
    left: u32,
    right: u32,
    y: u64,
    test: bool,
) -> Change
    ensures { result ≡ by_right kind word next left right y test }
{
    match kind {
        Kind::Add | Kind::Sub => value_if(y == 0, left),
        Kind::Mul => multiplied(word, next, left, right, y),
        Kind::And => masked(word, left, right, y, test),
        Kind::Or => joined(word, left, right, y),
        Kind::Xor => flipped(word, left, y),
        Kind::Shl | Kind::Shru | Kind::Shrs => value_if(y % word.bits() as u64 == 0, left),
        Kind::Divu => if y == 1 {
            Change::Is(left)
        } else {
            quotient(word, next, left, exponent(y))
        },
        Kind::Remu => if y == 1 {
            number(word.bits(), 0)
        } else {
            remainder(word, next, left, y, exponent(y))
        },
        Kind::Divs => value_if(y == 1, left),
        Kind::Rems => zero_if(y == 1, word),
        Kind::Eq => compared(word, left, y, test),
        Kind::Ne => distinguished(word, left, y, test),
        Kind::Ltu | Kind::Leu | Kind::Lts | Kind::Les => Change::Stays,
    }
}

fn zero_if(test: bool, word: Word) -> Change
    ensures { result ≡ (if test then Change.Becomes (Instr.Const (bits word) 0) else Change.Stays) }
{
    if test {
        number(word.bits(), 0)
    } else {
        Change::Stays
    }
}

/// A product by a constant.
fn multiplied(word: Word, next: u32, left: u32, right: u32, y: u64) -> Change
    ensures { result ≡ multiplied_by word next left right y }
{
    if y == 0 {
        Change::Is(right)
    } else if y == 1 {
        Change::Is(left)
    } else {
        product(word, next, left, exponent(y))
    }
}

/// The bits that a constant has too.
fn masked(word: Word, left: u32, right: u32, y: u64, test: bool) -> Change
    ensures { result ≡ masked_by word left right y test }
{
    if y == 0 {
        Change::Is(right)
    } else if y == word.ones() {
        Change::Is(left)
    } else {
        value_if(test && y == 1, left)
    }
}

/// The bits that it has, or a constant has.
fn joined(word: Word, left: u32, right: u32, y: u64) -> Change
    ensures { result ≡ joined_by word left right y }
{
    if y == 0 {
        Change::Is(left)
    } else {
        value_if(y == word.ones(), right)
    }
}

/// The bits turned that a constant has.
fn flipped(word: Word, left: u32, y: u64) -> Change
    ensures { result ≡ flipped_by word left y }
{
    if y == 0 {
        Change::Is(left)
    } else if y == word.ones() {
        Change::Becomes(Instr::One(word.flip(), left))
    } else {
        Change::Stays
    }
}

/// Whether it is a constant.
fn compared(word: Word, left: u32, y: u64, test: bool) -> Change
    ensures { result ≡ compared_by word left y test }
{
    if y == 0 {
        Change::Becomes(Instr::One(word.zero(), left))
    } else {
        value_if(test && y == 1, left)
    }
}

/// Whether it is no such constant.
fn distinguished(word: Word, left: u32, y: u64, test: bool) -> Change
    ensures { result ≡ distinguished_by word left y test }
{
    if test && y == 0 {
        Change::Is(left)
    } else if test && y == 1 {
        Change::Becomes(Instr::One(word.zero(), left))
    } else {
        Change::Stays
    }
}

fn value_if(test: bool, value: u32) -> Change
    ensures { result ≡ (if test then Change.Is value else Change.Stays) }
{
    if test {
        Change::Is(value)
    } else {
        Change::Stays
    }
}

/// The power of two, from 1 on, that a number is.
#[tactic(auto, unfolding(crate::specs::TwoRules::exponent_of))]
pub(crate) fn exponent(number: u64) -> Option<u64>
    ensures { result ≡ exponent_of number }
{
    let places = number.trailing_zeros();
    if 0 < places && places < 64 && number == 1 << places {
        Some(places as u64)
    } else {
        None
    }
}

/// A product by a power of two.
fn product(word: Word, next: u32, left: u32, exponent: Option<u64>) -> Change
    ensures { result ≡ product_by word next left exponent }
{
    match exponent {
        None => Change::Stays,
        Some(places) => by_constant(word.bits(), places, Kind::Shl.on(word), left, next),
    }
}

/// A quotient by a power of two.
fn quotient(word: Word, next: u32, left: u32, exponent: Option<u64>) -> Change
    ensures { result ≡ quotient_by word next left exponent }
{
    match exponent {
        None => Change::Stays,
        Some(places) => by_constant(word.bits(), places, Kind::Shru.on(word), left, next),
    }
}

/// A remainder by the number `y`, which is a power of two.
fn remainder(word: Word, next: u32, left: u32, y: u64, exponent: Option<u64>) -> Change
    ensures { result ≡ remainder_by word next left y exponent }
{
    match exponent {
        None => Change::Stays,
        Some(_) => by_constant(
            word.bits(),
            y.saturating_sub(1),
            Kind::And.on(word),
            left,
            next,
        ),
    }
}

/// The operation on a value and a new constant, whose number is `next`.
fn by_constant(width: u32, value: u64, op: Op2, left: u32, next: u32) -> Change
    ensures { result ≡ Change.BecomesTwo (Instr.Const width value) (Instr.Two op left next) }
{
    Change::BecomesTwo(Instr::Const { width, value }, Instr::Two(op, left, next))
}
