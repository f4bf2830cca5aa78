//! The types of results (ISO/IEC 9899:1999 6.3.1.1, 6.3.1.8, 6.5).
ghost use Rattle.std.specs.Prelude.{◌≡◌};
ghost use Rattle.el_base.specs.declared.ty.Ty.TheVariants.{U32, I64};
ghost use Rattle.c_ast.specs.ResultTypes.{
  promoted,
  common,
  usual,
  family,
  joint_type,
  result_type,
  unary_type,
};

use crate::tree::{Binary, Family, Unary};
use el_base::Ty;

/// The type after integer promotion.
pub fn promoted(ty: Ty) -> Ty
    ensures { result ≡ promoted ty }
{
    match ty {
        Ty::I8 | Ty::U8 | Ty::I16 | Ty::U16 | Ty::I32 => Ty::I32,
        Ty::U32 => Ty::U32,
        Ty::I64 => Ty::I64,
        Ty::U64 => Ty::U64,
    }
}

// The usual arithmetic conversions of two promoted types.
fn common(left: Ty, right: Ty) -> Ty
    ensures { result ≡ common left right }
{
    match left {
        Ty::I8 | Ty::U8 | Ty::I16 | Ty::U16 | Ty::I32 => right,
        Ty::U32 => common_to_u32(right),
        Ty::I64 => common_to_i64(right),
        Ty::U64 => Ty::U64,
    }
}

fn common_to_u32(right: Ty) -> Ty
    ensures { result ≡ common U32 right }
{
    match right {
        Ty::U64 => Ty::U64,
        Ty::I64 => Ty::I64,
        Ty::I8 | Ty::U8 | Ty::I16 | Ty::U16 | Ty::I32 | Ty::U32 => Ty::U32,
    }
}

fn common_to_i64(right: Ty) -> Ty
    ensures { result ≡ common I64 right }
{
    match right {
        Ty::U64 => Ty::U64,
        Ty::I8 | Ty::U8 | Ty::I16 | Ty::U16 | Ty::I32 | Ty::U32 | Ty::I64 => Ty::I64,
    }
}

/// The type in which two operands are joined.
pub fn usual(left: Ty, right: Ty) -> Ty
    ensures { result ≡ usual left right }
{
    common(promoted(left), promoted(right))
}

/// The family of an operator.
pub fn family(op: Binary) -> Family
    ensures { result ≡ family op }
{
    match op {
        Binary::Mul | Binary::Div | Binary::Rem | Binary::Add | Binary::Sub => Family::Arithmetic,
        Binary::Shl | Binary::Shr => Family::Shift,
        Binary::Lt | Binary::Gt | Binary::Le | Binary::Ge | Binary::Eq | Binary::Ne =>
            Family::Comparison,
        Binary::And | Binary::Xor | Binary::Or => Family::Bits,
        Binary::Both | Binary::Either => Family::Logical,
    }
}

/// The type in which an operator joins its operands.
pub fn joint_type(op: Binary, left: Ty, right: Ty) -> Ty
    ensures { result ≡ joint_type op left right }
{
    match family(op) {
        Family::Shift => promoted(left),
        Family::Arithmetic | Family::Bits | Family::Comparison | Family::Logical => usual(
            left, right,
        ),
    }
}

/// The type of a result, by the type in which the operands are joined: that type, or `I32` for what is 1 or 0.
pub fn result_type(op: Binary, ty: Ty) -> Ty
    ensures { result ≡ result_type op ty }
{
    match family(op) {
        Family::Comparison | Family::Logical => Ty::I32,
        Family::Arithmetic | Family::Shift | Family::Bits => ty,
    }
}

/// The type of a result of an operator on one operand of a promoted type.
pub fn unary_type(op: Unary, ty: Ty) -> Ty
    ensures { result ≡ unary_type op ty }
{
    match op {
        Unary::Not => Ty::I32,
        Unary::Plus | Unary::Minus | Unary::Flip => ty,
    }
}
