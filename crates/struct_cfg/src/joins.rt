//! The steps of operators on two values.
ghost use Rattle.std.specs.Prelude.{◌≡◌, ◌+◌, ◌*◌, ◌≤◌, length, IfOk, OnOk, ◌&&◌};
ghost use Rattle.ir.specs.declared.instr.Instr.TheVariants as instr;
ghost use Rattle.c_meaning.specs.Patterns.{by_type};
ghost use Rattle.c_meaning.specs.Counts.{operator_price};
ghost use Rattle.struct_cfg.specs.Layings.{one_step, after};
ghost use Rattle.struct_cfg.specs.Operators.{converted, is_narrow, both_laid, either_laid, joined};
ghost use Rattle.struct_cfg.specs.Code.{IsLaid, HasRoom};

use crate::operators::{
    Operand, both_narrow, both_wide, by_type2, convert, either_narrow, either_wide, is_narrow, put,
};
use c_ast::Binary;
use el_base::{List, Memory, Op2};
use ir::Instr;

/// `a && b`.
fn both(steps: &mut List<Instr>, env: &[u32], left: Operand, right: Operand) -> Result<u32, Memory>
    requires { HasRoom env.now steps.old 10 }
    ensures { IfOk result
        (IsLaid (both_laid (is_narrow left.ty && is_narrow right.ty)
        left.ty right.ty left.value right.value)
        env.now steps.old steps.new) }
{
    if is_narrow(left.ty) && is_narrow(right.ty) {
        both_narrow(steps, env, left, right)
    } else {
        both_wide(steps, env, left, right)
    }
}

/// `a || b`.
fn either(
    steps: &mut List<Instr>,
    env: &[u32],
    left: Operand,
    right: Operand,
) -> Result<u32, Memory>
    requires { HasRoom env.now steps.old 10 }
    ensures { IfOk result
        (IsLaid (either_laid (is_narrow left.ty && is_narrow right.ty)
        left.ty right.ty left.value right.value)
        env.now steps.old steps.new) }
{
    if is_narrow(left.ty) && is_narrow(right.ty) {
        either_narrow(steps, env, left, right)
    } else {
        either_wide(steps, env, left, right)
    }
}

/// A shift: the amount is converted to the type of what is shifted.
fn shift(
    steps: &mut List<Instr>,
    env: &[u32],
    op: Op2,
    left: Operand,
    right: Operand,
) -> Result<u32, Memory>
    requires { HasRoom env.now steps.old 2 }
    ensures { IfOk result
        (IsLaid (after (converted right.ty left.ty right.value)
        (λ c. one_step (instr.Two op left.value c)))
        env.now steps.old steps.new) }
{
    let amount = convert(steps, env, right.ty, left.ty, right.value)?;
    let value = put(steps, env, Instr::Two(op, left.value, amount))?;
    Ok(value)
}

/// An operator on two values.
pub(crate) fn join(
    steps: &mut List<Instr>,
    env: &[u32],
    op: Binary,
    left: Operand,
    right: Operand,
) -> Result<u32, Memory>
    requires { HasRoom env.now steps.old (2 * (1 + operator_price op)) }
    ensures { IfOk result
        (IsLaid (joined op left.ty right.ty left.value right.value) env.now steps.old steps.new) }
{
    let ty = left.ty;
    let a = left.value;
    let b = right.value;
    match op {
        Binary::Both => both(steps, env, left, right),
        Binary::Either => either(steps, env, left, right),
        Binary::Shl => {
            let op = by_type2(ty, Op2::Shl32, Op2::Shl32, Op2::Shl64, Op2::Shl64);
            shift(steps, env, op, left, right)
        }
        Binary::Shr => {
            let op = by_type2(ty, Op2::Shrs32, Op2::Shru32, Op2::Shrs64, Op2::Shru64);
            shift(steps, env, op, left, right)
        }
        Binary::Gt => {
            let op = by_type2(ty, Op2::Lts32, Op2::Ltu32, Op2::Lts64, Op2::Ltu64);
            put(steps, env, Instr::Two(op, b, a))
        }
        Binary::Ge => {
            let op = by_type2(ty, Op2::Les32, Op2::Leu32, Op2::Les64, Op2::Leu64);
            put(steps, env, Instr::Two(op, b, a))
        }
        Binary::Mul => {
            let op = by_type2(ty, Op2::Mul32, Op2::Mul32, Op2::Mul64, Op2::Mul64);
            put(steps, env, Instr::Two(op, a, b))
        }
        Binary::Div => {
            let op = by_type2(ty, Op2::Divs32, Op2::Divu32, Op2::Divs64, Op2::Divu64);
            put(steps, env, Instr::Two(op, a, b))
        }
        Binary::Rem => {
            let op = by_type2(ty, Op2::Rems32, Op2::Remu32, Op2::Rems64, Op2::Remu64);
            put(steps, env, Instr::Two(op, a, b))
        }
        Binary::Add => {
            let op = by_type2(ty, Op2::Add32, Op2::Add32, Op2::Add64, Op2::Add64);
            put(steps, env, Instr::Two(op, a, b))
        }
        Binary::Sub => {
            let op = by_type2(ty, Op2::Sub32, Op2::Sub32, Op2::Sub64, Op2::Sub64);
            put(steps, env, Instr::Two(op, a, b))
        }
        Binary::Lt => {
            let op = by_type2(ty, Op2::Lts32, Op2::Ltu32, Op2::Lts64, Op2::Ltu64);
            put(steps, env, Instr::Two(op, a, b))
        }
        Binary::Le => {
            let op = by_type2(ty, Op2::Les32, Op2::Leu32, Op2::Les64, Op2::Leu64);
            put(steps, env, Instr::Two(op, a, b))
        }
        Binary::Eq => {
            let op = by_type2(ty, Op2::Eq32, Op2::Eq32, Op2::Eq64, Op2::Eq64);
            put(steps, env, Instr::Two(op, a, b))
        }
        Binary::Ne => {
            let op = by_type2(ty, Op2::Ne32, Op2::Ne32, Op2::Ne64, Op2::Ne64);
            put(steps, env, Instr::Two(op, a, b))
        }
        Binary::And => {
            let op = by_type2(ty, Op2::And32, Op2::And32, Op2::And64, Op2::And64);
            put(steps, env, Instr::Two(op, a, b))
        }
        Binary::Xor => {
            let op = by_type2(ty, Op2::Xor32, Op2::Xor32, Op2::Xor64, Op2::Xor64);
            put(steps, env, Instr::Two(op, a, b))
        }
        Binary::Or => {
            let op = by_type2(ty, Op2::Or32, Op2::Or32, Op2::Or64, Op2::Or64);
            put(steps, env, Instr::Two(op, a, b))
        }
    }
}
