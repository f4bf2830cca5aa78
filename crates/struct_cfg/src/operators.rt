//! The steps of operators, conversions and tests on values that are there.
ghost use Rattle.std.specs.Prelude.{◌≡◌, ◌+◌, ◌≤◌, length, IfOk, OnOk, true, false};
ghost use Rattle.c_meaning.specs.Patterns.{by_type, conversion_op};
ghost use Rattle.c_meaning.specs.Counts.{operator_price};
ghost use Rattle.ir.specs.declared.instr.Instr.TheVariants as instr;
ghost use Rattle.struct_cfg.specs.Layings.{one_step, after, applied};
ghost use Rattle.struct_cfg.specs.Operators.{converted, unary_op, flag, zero_test, is_narrow, both_laid, either_laid, joined};
ghost use Rattle.struct_cfg.specs.Code.{IsLaid, HasRoom};

use c_ast::{TypedExpr, Unary};
use el_base::{List, Memory, Op1, Op2, Ty};
use ir::Instr;

/// A value that is there, and its type.
#[derive(Clone, Copy)]
pub(crate) struct Operand {
    pub ty: Ty,
    pub value: u32,
}

impl Operand {
    /// The value of an expression, by its number.
    pub(crate) fn of(e: &TypedExpr, value: u32) -> Operand
        ensures { result ≡ record { ty = e.now.ty; value = value } }
    {
        Operand { ty: e.ty, value }
    }
}

/// Puts one step behind the others: its value is the next one.
pub(crate) fn put(steps: &mut List<Instr>, env: &[u32], step: Instr) -> Result<u32, Memory>
    requires { HasRoom env.now steps.old 1 }
    ensures laid { IfOk result (IsLaid (one_step step) env.now steps.old steps.new) }
    ensures few { OnOk result (length steps.new ≤ length steps.old + 1) }
{
    let value = (env.len() + steps.len()) as u32;
    steps.push(step)?;
    Ok(value)
}

/// An operation on a value, if there is one.
pub(crate) fn apply(
    steps: &mut List<Instr>,
    env: &[u32],
    op: Option<Op1>,
    value: u32,
) -> Result<u32, Memory>
    requires { HasRoom env.now steps.old 1 }
    ensures laid { IfOk result (IsLaid (applied op value) env.now steps.old steps.new) }
    ensures few { OnOk result (length steps.new ≤ length steps.old + 1) }
{
    match op {
        None => Ok(value),
        Some(op) => put(steps, env, Instr::One(op, value)),
    }
}

/// The operation that converts from one type to another.
fn conversion(from: Ty, to: Ty) -> Option<Op1>
    ensures { result ≡ conversion_op from to }
{
    match (from, to.width()) {
        (Ty::I8, 16) => Some(Op1::S8to16),
        (Ty::I8, 32) => Some(Op1::S8to32),
        (Ty::I8, 64) => Some(Op1::S8to64),
        (Ty::U8, 16) => Some(Op1::U8to16),
        (Ty::U8, 32) => Some(Op1::U8to32),
        (Ty::U8, 64) => Some(Op1::U8to64),
        (Ty::I16 | Ty::U16, 8) => Some(Op1::Cut16to8),
        (Ty::I16, 32) => Some(Op1::S16to32),
        (Ty::I16, 64) => Some(Op1::S16to64),
        (Ty::U16, 32) => Some(Op1::U16to32),
        (Ty::U16, 64) => Some(Op1::U16to64),
        (Ty::I32 | Ty::U32, 8) => Some(Op1::Cut32to8),
        (Ty::I32 | Ty::U32, 16) => Some(Op1::Cut32to16),
        (Ty::I32, 64) => Some(Op1::S32to64),
        (Ty::U32, 64) => Some(Op1::U32to64),
        (Ty::I64 | Ty::U64, 8) => Some(Op1::Cut64to8),
        (Ty::I64 | Ty::U64, 16) => Some(Op1::Cut64to16),
        (Ty::I64 | Ty::U64, 32) => Some(Op1::Cut64to32),
        _ => None,
    }
}

/// A value of one type, converted to another.
pub(crate) fn convert(
    steps: &mut List<Instr>,
    env: &[u32],
    from: Ty,
    to: Ty,
    value: u32,
) -> Result<u32, Memory>
    requires { HasRoom env.now steps.old 1 }
    ensures laid { IfOk result (IsLaid (converted from to value) env.now steps.old steps.new) }
    ensures few { OnOk result (length steps.new ≤ length steps.old + 1) }
{
    apply(steps, env, conversion(from, to), value)
}

/// One of four operations, by the type.
fn by_type1(ty: Ty, int: Op1, unsigned: Op1, long: Op1, unsigned_long: Op1) -> Op1
    ensures { result ≡ by_type ty int unsigned long unsigned_long }
{
    match ty {
        Ty::U32 => unsigned,
        Ty::I64 => long,
        Ty::U64 => unsigned_long,
        _ => int,
    }
}

pub(crate) fn by_type2(ty: Ty, int: Op2, unsigned: Op2, long: Op2, unsigned_long: Op2) -> Op2
    ensures { result ≡ by_type ty int unsigned long unsigned_long }
{
    match ty {
        Ty::U32 => unsigned,
        Ty::I64 => long,
        Ty::U64 => unsigned_long,
        _ => int,
    }
}

/// The operation of an operator on one operand; `None` for `+`.
pub(crate) fn unary_operation(op: Unary, ty: Ty) -> Option<Op1>
    ensures { result ≡ unary_op op ty }
{
    match op {
        Unary::Plus => None,
        Unary::Minus => Some(by_type1(ty, Op1::Neg32, Op1::Neg32, Op1::Neg64, Op1::Neg64)),
        Unary::Flip => Some(by_type1(ty, Op1::Not32, Op1::Not32, Op1::Not64, Op1::Not64)),
        Unary::Not => Some(by_type1(ty, Op1::Zero32, Op1::Zero32, Op1::Zero64, Op1::Zero64)),
    }
}

/// Two operations, one on the value of the other.
#[tactic(auto, using(crate::proofs::Coded::laid_after))]
fn twice(
    steps: &mut List<Instr>,
    env: &[u32],
    first: Op1,
    second: Op1,
    value: u32,
) -> Result<u32, Memory>
    requires { HasRoom env.now steps.old 2 }
    ensures laid { IfOk result
        (IsLaid (after (one_step (instr.One first value)) (λ z. one_step (instr.One second z)))
        env.now steps.old steps.new) }
    ensures few { OnOk result (length steps.new ≤ length steps.old + 2) }
{
    let middle = put(steps, env, Instr::One(first, value))?;
    let last = put(steps, env, Instr::One(second, middle))?;
    Ok(last)
}

/// A value of 32 bits that is 0 exactly where the value is.
pub(crate) fn flag(steps: &mut List<Instr>, env: &[u32], ty: Ty, value: u32) -> Result<u32, Memory>
    requires { HasRoom env.now steps.old 2 }
    ensures laid { IfOk result (IsLaid (flag ty value) env.now steps.old steps.new) }
    ensures few { OnOk result (length steps.new ≤ length steps.old + 2) }
{
    match ty {
        Ty::I8 | Ty::U8 => put(steps, env, Instr::One(Op1::U8to32, value)),
        Ty::I16 | Ty::U16 => put(steps, env, Instr::One(Op1::U16to32, value)),
        Ty::I32 | Ty::U32 => Ok(value),
        Ty::I64 => twice(steps, env, Op1::Zero64, Op1::Zero32, value),
        Ty::U64 => twice(steps, env, Op1::Zero64, Op1::Zero32, value),
    }
}

/// 1 where the value is 0, else 0, in 32 bits.
fn zero_test(steps: &mut List<Instr>, env: &[u32], ty: Ty, value: u32) -> Result<u32, Memory>
    requires { HasRoom env.now steps.old 2 }
    ensures laid { IfOk result (IsLaid (zero_test ty value) env.now steps.old steps.new) }
    ensures few { OnOk result (length steps.new ≤ length steps.old + 2) }
{
    match ty {
        Ty::I8 => twice(steps, env, Op1::U8to32, Op1::Zero32, value),
        Ty::U8 => twice(steps, env, Op1::U8to32, Op1::Zero32, value),
        Ty::I16 => twice(steps, env, Op1::U16to32, Op1::Zero32, value),
        Ty::U16 => twice(steps, env, Op1::U16to32, Op1::Zero32, value),
        Ty::I32 | Ty::U32 => put(steps, env, Instr::One(Op1::Zero32, value)),
        Ty::I64 | Ty::U64 => put(steps, env, Instr::One(Op1::Zero64, value)),
    }
}

/// Whether a type has less than 32 bits.
pub(crate) fn is_narrow(ty: Ty) -> bool
    ensures { result ≡ is_narrow ty }
{
    ty.width() < 32
}

/// `a && b` of narrow sides, by their flags.
pub(crate) fn both_narrow(
    steps: &mut List<Instr>,
    env: &[u32],
    left: Operand,
    right: Operand,
) -> Result<u32, Memory>
    requires { HasRoom env.now steps.old 7 }
    ensures laid { IfOk result
        (IsLaid (both_laid true left.ty right.ty left.value right.value)
        env.now steps.old steps.new) }
{
    let f = flag(steps, env, left.ty, left.value)?;
    let g = flag(steps, env, right.ty, right.value)?;
    let chosen = put(
        steps,
        env,
        Instr::Select {
            width: 32,
            cond: f,
            yes: g,
            no: f,
        },
    )?;
    let truth = twice(steps, env, Op1::Zero32, Op1::Zero32, chosen)?;
    Ok(truth)
}

/// `a || b` of narrow sides, by their flags.
pub(crate) fn either_narrow(
    steps: &mut List<Instr>,
    env: &[u32],
    left: Operand,
    right: Operand,
) -> Result<u32, Memory>
    requires { HasRoom env.now steps.old 7 }
    ensures laid { IfOk result
        (IsLaid (either_laid true left.ty right.ty left.value right.value)
        env.now steps.old steps.new) }
{
    let f = flag(steps, env, left.ty, left.value)?;
    let g = flag(steps, env, right.ty, right.value)?;
    let chosen = put(
        steps,
        env,
        Instr::Select {
            width: 32,
            cond: f,
            yes: f,
            no: g,
        },
    )?;
    let truth = twice(steps, env, Op1::Zero32, Op1::Zero32, chosen)?;
    Ok(truth)
}

/// `a && b` by tests for zero.
pub(crate) fn both_wide(
    steps: &mut List<Instr>,
    env: &[u32],
    left: Operand,
    right: Operand,
) -> Result<u32, Memory>
    requires { HasRoom env.now steps.old 6 }
    ensures laid { IfOk result
        (IsLaid (both_laid false left.ty right.ty left.value right.value)
        env.now steps.old steps.new) }
{
    let f = zero_test(steps, env, left.ty, left.value)?;
    let g = zero_test(steps, env, right.ty, right.value)?;
    let chosen = put(
        steps,
        env,
        Instr::Select {
            width: 32,
            cond: f,
            yes: f,
            no: g,
        },
    )?;
    let truth = put(steps, env, Instr::One(Op1::Zero32, chosen))?;
    Ok(truth)
}

/// `a || b` by tests for zero.
pub(crate) fn either_wide(
    steps: &mut List<Instr>,
    env: &[u32],
    left: Operand,
    right: Operand,
) -> Result<u32, Memory>
    requires { HasRoom env.now steps.old 6 }
    ensures laid { IfOk result
        (IsLaid (either_laid false left.ty right.ty left.value right.value)
        env.now steps.old steps.new) }
{
    let f = zero_test(steps, env, left.ty, left.value)?;
    let g = zero_test(steps, env, right.ty, right.value)?;
    let chosen = put(
        steps,
        env,
        Instr::Select {
            width: 32,
            cond: f,
            yes: g,
            no: f,
        },
    )?;
    let truth = put(steps, env, Instr::One(Op1::Zero32, chosen))?;
    Ok(truth)
}
