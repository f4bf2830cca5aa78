ghost use Rattle.std.specs.Prelude.{◌≡◌};
ghost use Rattle.word_ops.specs.Operations.{op1_result, op2_result};

use crate::arithmetic::{difference, flipped, negative, product, sum};
use crate::division::{quotient, remainder, signed_quotient, signed_remainder};
use crate::reading::{extended, reduced, signed};
use crate::shifts::{left_shift, right_shift, signed_shift};
use el_base::{Op1, Op2};

/// The result of an operation of one operand.
/// Any number is an operand: it is first reduced modulo two to the operand's width, `op.operand_width()` bits.
/// The result is a pattern of `op.result_width()` bits. There is no error, and no memory is taken.
#[tactic(auto, unfolding(crate::specs::Operations::op1_result, crate::specs::Operations::op1_on))]
pub fn apply1(op: Op1, a: u64) -> u64
    ensures { result ≡ op1_result op a }
{
    let a = reduced(op.operand_width(), a);
    match op {
        Op1::Neg32 | Op1::Neg64 => negative(op.operand_width(), a),
        Op1::Not32 | Op1::Not64 => flipped(op.operand_width(), a),
        Op1::Zero32 | Op1::Zero64 => (a == 0) as u64,
        Op1::S8to16 | Op1::S8to32 | Op1::S8to64 | Op1::S16to32 | Op1::S16to64 | Op1::S32to64 =>
            extended(op.operand_width(), op.result_width(), a),
        Op1::U8to16 | Op1::U8to32 | Op1::U8to64 | Op1::U16to32 | Op1::U16to64 | Op1::U32to64 => a,
        Op1::Cut16to8
        | Op1::Cut32to8
        | Op1::Cut32to16
        | Op1::Cut64to8
        | Op1::Cut64to16
        | Op1::Cut64to32 => reduced(op.result_width(), a),
    }
}

/// The result of an operation of two operands.
/// Any numbers are operands: each is first reduced modulo two to the operands' width, `op.operand_width()` bits.
/// The result is a pattern of `op.result_width()` bits, and 1 or 0 for a comparison. There is no error, and no memory is taken.
#[tactic(auto, unfolding(crate::specs::Operations::op2_result, crate::specs::Operations::op2_on))]
pub fn apply2(op: Op2, a: u64, b: u64) -> u64
    ensures { result ≡ op2_result op a b }
{
    let width = op.operand_width();
    let a = reduced(width, a);
    let b = reduced(width, b);
    match op {
        Op2::Add32 | Op2::Add64 => sum(width, a, b),
        Op2::Sub32 | Op2::Sub64 => difference(width, a, b),
        Op2::Mul32 | Op2::Mul64 => product(width, a, b),
        Op2::And32 | Op2::And64 => a & b,
        Op2::Or32 | Op2::Or64 => a | b,
        Op2::Xor32 | Op2::Xor64 => a ^ b,
        Op2::Shl32 | Op2::Shl64 => left_shift(width, a, b),
        Op2::Shru32 | Op2::Shru64 => right_shift(width, a, b),
        Op2::Shrs32 | Op2::Shrs64 => signed_shift(width, a, b),
        Op2::Divu32 | Op2::Divu64 => quotient(a, b),
        Op2::Remu32 | Op2::Remu64 => remainder(a, b),
        Op2::Divs32 | Op2::Divs64 => signed_quotient(width, a, b),
        Op2::Rems32 | Op2::Rems64 => signed_remainder(width, a, b),
        Op2::Eq32 | Op2::Eq64 => (a == b) as u64,
        Op2::Ne32 | Op2::Ne64 => (a != b) as u64,
        Op2::Ltu32 | Op2::Ltu64 => (a < b) as u64,
        Op2::Leu32 | Op2::Leu64 => (a <= b) as u64,
        Op2::Lts32 | Op2::Lts64 => (signed(width, a) < signed(width, b)) as u64,
        Op2::Les32 | Op2::Les64 => (signed(width, a) <= signed(width, b)) as u64,
    }
}
