//! The greatest value that a value can have, by the steps that make it.
ghost use Rattle.std.specs.Prelude.{◌≡◌, ◌<◌, ◌-◌, ◌^◌, nat_lt, if◌then◌else◌};
ghost use Rattle.word_rules.specs.Bounds.{greatest1, greatest2, greatest_by, ones_over};
ghost use Rattle.block_rules.specs.Tops.{narrowed, top_of_two, top_within};

use crate::reading::{constant, step_of};
use ir::{Instr, Op1, Op2};

const BYTE: u64 = u8::MAX as u64;

const HALF: u64 = u16::MAX as u64;

const WORD: u64 = u32::MAX as u64;

/// The greatest value of an operation on a value of at most `x`.
#[tactic(auto, unfolding(word_rules::specs::Bounds::greatest1))]
fn greatest_one(op: Op1, x: u64) -> u64
    ensures { result ≡ greatest1 op x }
{
    match op {
        Op1::Neg32 | Op1::Not32 => WORD,
        Op1::Neg64 | Op1::Not64 => u64::MAX,
        Op1::Zero32 | Op1::Zero64 => 1,
        Op1::S8to16 => extension(8, HALF, x),
        Op1::S8to32 => extension(8, WORD, x),
        Op1::S8to64 => extension(8, u64::MAX, x),
        Op1::S16to32 => extension(16, WORD, x),
        Op1::S16to64 => extension(16, u64::MAX, x),
        Op1::S32to64 => extension(32, u64::MAX, x),
        Op1::U8to16 | Op1::U8to32 | Op1::U8to64 | Op1::U16to32 | Op1::U16to64 | Op1::U32to64 => x,
        Op1::Cut16to8 | Op1::Cut32to8 | Op1::Cut64to8 => x.min(BYTE),
        Op1::Cut32to16 | Op1::Cut64to16 => x.min(HALF),
        Op1::Cut64to32 => x.min(WORD),
    }
}

/// That of the extension of a signed number of so many bits, of which the greatest pattern is `most`.
fn extension(width: u32, most: u64, x: u64) -> u64
    requires some { 0 < width }
    requires within { width < 64 }
    ensures { result ≡ (if nat_lt x (2 ^ (width - 1)) then x else most) }
{
    if x < 1 << (width - 1) { x } else { most }
}

/// The greatest number of as many bits.
fn all_ones_over(n: u64) -> u64
    ensures { result ≡ ones_over n }
{
    match u64::MAX.checked_shr(n.leading_zeros()) {
        Some(ones) => ones,
        None => 0,
    }
}

/// The greatest value of an operation on values of at most `x` and `y`.
#[tactic(auto, unfolding(word_rules::specs::Bounds::greatest2))]
fn greatest_two(op: Op2, x: u64, y: u64) -> u64
    ensures { result ≡ greatest2 op x y }
{
    match op {
        Op2::Add32 => x.saturating_add(y).min(WORD),
        Op2::Add64 => x.saturating_add(y),
        Op2::Mul32 => x.saturating_mul(y).min(WORD),
        Op2::Mul64 => x.saturating_mul(y),
        Op2::And32 | Op2::And64 => x.min(y),
        Op2::Or32 | Op2::Or64 | Op2::Xor32 | Op2::Xor64 => all_ones_over(x.max(y)),
        Op2::Shru32 | Op2::Shru64 | Op2::Divu32 | Op2::Divu64 | Op2::Remu32 | Op2::Remu64 => x,
        Op2::Sub32 | Op2::Shl32 | Op2::Shrs32 | Op2::Divs32 | Op2::Rems32 => WORD,
        Op2::Sub64 | Op2::Shl64 | Op2::Shrs64 | Op2::Divs64 | Op2::Rems64 => u64::MAX,
        Op2::Eq32
        | Op2::Eq64
        | Op2::Ne32
        | Op2::Ne64
        | Op2::Ltu32
        | Op2::Ltu64
        | Op2::Leu32
        | Op2::Leu64
        | Op2::Lts32
        | Op2::Lts64
        | Op2::Les32
        | Op2::Les64 => 1,
    }
}

/// The greatest value of an operation on a value of at most `x` and a constant other than 0.
#[tactic(auto, unfolding(word_rules::specs::Bounds::greatest_by))]
fn greatest_by_constant(op: Op2, x: u64, c: u64) -> u64
    requires { 0 < c }
    ensures { result ≡ greatest_by op x c }
{
    match op {
        Op2::Shl32 => x.saturating_mul(1 << (c % 32)).min(WORD),
        Op2::Shl64 => x.saturating_mul(1 << (c % 64)),
        Op2::Shru32 => x >> (c % 32),
        Op2::Shru64 => x >> (c % 64),
        Op2::Divu32 | Op2::Divu64 => x / c,
        Op2::Remu32 | Op2::Remu64 => x.min(c - 1),
        Op2::Add32
        | Op2::Add64
        | Op2::Sub32
        | Op2::Sub64
        | Op2::Mul32
        | Op2::Mul64
        | Op2::And32
        | Op2::And64
        | Op2::Or32
        | Op2::Or64
        | Op2::Xor32
        | Op2::Xor64
        | Op2::Shrs32
        | Op2::Shrs64
        | Op2::Divs32
        | Op2::Divs64
        | Op2::Rems32
        | Op2::Rems64
        | Op2::Eq32
        | Op2::Eq64
        | Op2::Ne32
        | Op2::Ne64
        | Op2::Ltu32
        | Op2::Ltu64
        | Op2::Leu32
        | Op2::Leu64
        | Op2::Lts32
        | Op2::Lts64
        | Op2::Les32
        | Op2::Les64 => greatest_two(op, x, c),
    }
}

/// No more than the greatest pattern of that width.
#[tactic(auto, unfolding(crate::specs::Tops::narrowed))]
pub(crate) fn narrow(width: u32, x: u64) -> u64
    ensures { result ≡ narrowed width x }
{
    if width == 8 {
        x.min(BYTE)
    } else if width == 16 {
        x.min(HALF)
    } else if width == 32 {
        x.min(WORD)
    } else {
        x.min(u64::MAX)
    }
}

#[tactic(auto, unfolding(crate::specs::Tops::top_of_two))]
fn top_by(op: Op2, constant: Option<u64>, x: u64, y: u64) -> u64
    ensures { result ≡ top_of_two op constant x y }
{
    match constant {
        None => greatest_two(op, x, y),
        Some(c) => if c == 0 {
            greatest_two(op, x, y)
        } else {
            greatest_by_constant(op, x, c)
        },
    }
}

/// The greatest value that a value can have, by so many steps before it.
#[tactic(auto, using(crate::proofs::TopSteps::top_first, crate::proofs::TopSteps::top_more))]
pub(crate) fn top(steps_back: u32, args: u32, steps: &[Instr], value: u32) -> u64
    ensures { result ≡ top_within steps_back args steps.now value }
{
    if steps_back == 0 {
        return u64::MAX;
    }
    let before = steps_back - 1;
    match step_of(args, steps, value) {
        None | Some(Instr::Load { .. }) | Some(Instr::Store { .. }) => u64::MAX,
        Some(Instr::Const { width: _, value }) => value,
        Some(Instr::One(op, a)) => greatest_one(
            op,
            narrow(op.operand_width(), top(before, args, steps, a)),
        ),
        Some(Instr::Two(op, a, b)) => {
            let x = narrow(op.operand_width(), top(before, args, steps, a));
            let y = narrow(op.operand_width(), top(before, args, steps, b));
            top_by(op, constant(args, steps, b), x, y)
        }
        Some(
            Instr::Select {
                width: _,
                cond: _,
                yes,
                no,
            },
        ) => top(before, args, steps, yes).max(top(before, args, steps, no)),
    }
}
