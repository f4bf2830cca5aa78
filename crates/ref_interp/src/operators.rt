//! Operators on patterns: where each is defined, and what it gives.
ghost use Rattle.std.specs.Prelude.{◌≡◌, ◌<◌, ◌^◌, is_some, neg_ℤ, ◌+ℤ◌, ◌-ℤ◌, ◌*ℤ◌, if◌then◌else◌};
ghost use Rattle.el_base.specs.Numbers.{number};
ghost use Rattle.el_base.specs.Widths.{ty_width};
ghost use Rattle.c_meaning.specs.Types.{range};
ghost use Rattle.c_meaning.specs.Operators.{unary_value, binary_value, quotient, amount, left_shift};
ghost use Rattle.c_meaning.specs.Stores.{index_within};
ghost use Rattle.c_meaning.specs.Patterns.{on_patterns, on_pattern, by_type, conversion_op, converted_by};
ghost use Rattle.c_ast.specs.declared.tree.Binary.TheVariants.{Shl};
ghost use Rattle.ref_interp.specs.Operators.{is_lenient, IsRightType};

use c_ast::{Binary, Ty, Unary};
use c_meaning::Profile;
use el_base::{Op1, Op2, number};
use word_ops::{apply1, apply2};

/// A pattern with its type.
#[derive(Clone, Copy)]
pub(crate) struct Operand {
    pub(crate) ty: Ty,
    pub(crate) pattern: u64,
}

/// Whether a result of any size is a number: reduced where the type is unsigned, and under `Wrap`.
fn is_lenient(profile: Profile, ty: Ty) -> bool
    ensures { result ≡ is_lenient profile ty }
{
    match profile {
        Profile::Plain => !ty.signed(),
        Profile::Wrap => true,
    }
}

/// Whether a number lies in the range of a type.
fn in_range(ty: Ty, z: i128) -> bool
    ensures { result ≡ range ty z }
{
    match ty {
        Ty::I8 => -128 <= z && z <= 127,
        Ty::U8 => 0 <= z && z <= 255,
        Ty::I16 => -32_768 <= z && z <= 32_767,
        Ty::U16 => 0 <= z && z <= 65_535,
        Ty::I32 => -2_147_483_648 <= z && z <= 2_147_483_647,
        Ty::U32 => 0 <= z && z <= 4_294_967_295,
        Ty::I64 => -9_223_372_036_854_775_808 <= z && z <= 9_223_372_036_854_775_807,
        Ty::U64 => 0 <= z && z <= 18_446_744_073_709_551_615,
    }
}

fn sum_fits(ty: Ty, x: u64, y: u64) -> bool
    ensures { result ≡ range ty (number ty x +ℤ number ty y) }
{
    match number(ty, x).checked_add(number(ty, y)) {
        None => false,
        Some(z) => in_range(ty, z),
    }
}

fn difference_fits(ty: Ty, x: u64, y: u64) -> bool
    ensures { result ≡ range ty (number ty x -ℤ number ty y) }
{
    match number(ty, x).checked_sub(number(ty, y)) {
        None => false,
        Some(z) => in_range(ty, z),
    }
}

fn product_fits(ty: Ty, x: u64, y: u64) -> bool
    ensures { result ≡ range ty (number ty x *ℤ number ty y) }
{
    match number(ty, x).checked_mul(number(ty, y)) {
        None => false,
        Some(z) => in_range(ty, z),
    }
}

/// Whether a quotient by a number other than 0 lies in its type.
fn quotient_fits(ty: Ty, x: u64, y: u64) -> bool
    ensures { result ≡ is_some (quotient ty (number ty x) (number ty y)) }
{
    match number(ty, x).checked_div(number(ty, y)) {
        None => false,
        Some(z) => in_range(ty, z),
    }
}

/// Whether a shift amount is one: not negative, and below the width of what is shifted. `by` is its own type.
fn is_amount(ty: Ty, by: Ty, y: u64) -> bool
    ensures { result ≡ is_some (amount ty (number by y)) }
{
    let amount = number(by, y);
    0 <= amount && amount < i128::from(ty.width())
}

/// Whether a shift to the left by an amount below 64 gives a number.
fn shift_fits(profile: Profile, ty: Ty, x: u64, y: u64) -> bool
    ensures { y < 64 → result ≡ is_some (left_shift profile ty (number ty x) y) }
{
    if is_lenient(profile, ty) {
        return true;
    }
    let x = number(ty, x);
    if x < 0 {
        return false;
    }
    match x.checked_mul(1 << (y % 64)) {
        None => false,
        Some(z) => in_range(ty, z),
    }
}

fn left_shift_is_defined(profile: Profile, ty: Ty, by: Ty, x: u64, y: u64) -> bool
    ensures { y < 2 ^ ty_width by
        → result ≡ is_some (binary_value profile Shl ty (number ty x) (number by y)) }
{
    is_amount(ty, by, y) && shift_fits(profile, ty, x, y)
}

/// Whether an operator has a value for two patterns, which are of one type but for shifts.
pub(crate) fn is_defined(profile: Profile, op: Binary, left: Operand, right: Operand) -> bool
    ensures { right.pattern < 2 ^ ty_width right.ty → IsRightType op left.ty right.ty
        → result ≡ is_some (binary_value profile op left.ty
        (number left.ty left.pattern) (number right.ty right.pattern)) }
{
    let (ty, x) = (left.ty, left.pattern);
    let (by, y) = (right.ty, right.pattern);
    match op {
        Binary::Add => is_lenient(profile, ty) || sum_fits(ty, x, y),
        Binary::Sub => is_lenient(profile, ty) || difference_fits(ty, x, y),
        Binary::Mul => is_lenient(profile, ty) || product_fits(ty, x, y),
        Binary::Div | Binary::Rem => quotient_fits(ty, x, y),
        Binary::Shl => left_shift_is_defined(profile, ty, by, x, y),
        Binary::Shr => is_amount(ty, by, y),
        Binary::Lt
        | Binary::Gt
        | Binary::Le
        | Binary::Ge
        | Binary::Eq
        | Binary::Ne
        | Binary::And
        | Binary::Xor
        | Binary::Or => true,
        Binary::Both | Binary::Either => false,
    }
}

fn by_type1(ty: Ty, int: Op1, unsigned: Op1, long: Op1, unsigned_long: Op1) -> Op1
    ensures { result ≡ by_type ty int unsigned long unsigned_long }
{
    match ty {
        Ty::U32 => unsigned,
        Ty::I64 => long,
        Ty::U64 => unsigned_long,
        _ => int,
    }
}

fn by_type2(ty: Ty, int: Op2, unsigned: Op2, long: Op2, unsigned_long: Op2) -> Op2
    ensures { result ≡ by_type ty int unsigned long unsigned_long }
{
    match ty {
        Ty::U32 => unsigned,
        Ty::I64 => long,
        Ty::U64 => unsigned_long,
        _ => int,
    }
}

/// What an operator gives for patterns of a promoted type for which it is defined; 0 of `&&` and `||`, which are not joined so.
pub(crate) fn joined(op: Binary, ty: Ty, x: u64, y: u64) -> u64
    ensures { result ≡ on_patterns op ty x y }
{
    let operation = match op {
        Binary::Mul => by_type2(ty, Op2::Mul32, Op2::Mul32, Op2::Mul64, Op2::Mul64),
        Binary::Div => by_type2(ty, Op2::Divs32, Op2::Divu32, Op2::Divs64, Op2::Divu64),
        Binary::Rem => by_type2(ty, Op2::Rems32, Op2::Remu32, Op2::Rems64, Op2::Remu64),
        Binary::Add => by_type2(ty, Op2::Add32, Op2::Add32, Op2::Add64, Op2::Add64),
        Binary::Sub => by_type2(ty, Op2::Sub32, Op2::Sub32, Op2::Sub64, Op2::Sub64),
        Binary::Shl => by_type2(ty, Op2::Shl32, Op2::Shl32, Op2::Shl64, Op2::Shl64),
        Binary::Shr => by_type2(ty, Op2::Shrs32, Op2::Shru32, Op2::Shrs64, Op2::Shru64),
        Binary::Lt => by_type2(ty, Op2::Lts32, Op2::Ltu32, Op2::Lts64, Op2::Ltu64),
        Binary::Gt => return apply2(
            by_type2(ty, Op2::Lts32, Op2::Ltu32, Op2::Lts64, Op2::Ltu64),
            y,
            x,
        ),
        Binary::Le => by_type2(ty, Op2::Les32, Op2::Leu32, Op2::Les64, Op2::Leu64),
        Binary::Ge => return apply2(
            by_type2(ty, Op2::Les32, Op2::Leu32, Op2::Les64, Op2::Leu64),
            y,
            x,
        ),
        Binary::Eq => by_type2(ty, Op2::Eq32, Op2::Eq32, Op2::Eq64, Op2::Eq64),
        Binary::Ne => by_type2(ty, Op2::Ne32, Op2::Ne32, Op2::Ne64, Op2::Ne64),
        Binary::And => by_type2(ty, Op2::And32, Op2::And32, Op2::And64, Op2::And64),
        Binary::Xor => by_type2(ty, Op2::Xor32, Op2::Xor32, Op2::Xor64, Op2::Xor64),
        Binary::Or => by_type2(ty, Op2::Or32, Op2::Or32, Op2::Or64, Op2::Or64),
        Binary::Both | Binary::Either => return 0,
    };
    apply2(operation, x, y)
}

/// Whether an operator has a value for a pattern of a promoted type.
pub(crate) fn is_defined_on(profile: Profile, op: Unary, ty: Ty, x: u64) -> bool
    ensures { result ≡ is_some (unary_value profile op ty (number ty x)) }
{
    match op {
        Unary::Minus => is_lenient(profile, ty) || negative_fits(ty, x),
        Unary::Plus | Unary::Flip | Unary::Not => true,
    }
}

fn negative_fits(ty: Ty, x: u64) -> bool
    ensures { result ≡ range ty (neg_ℤ (number ty x)) }
{
    match number(ty, x).checked_neg() {
        None => false,
        Some(z) => in_range(ty, z),
    }
}

/// What an operator gives for a pattern of a promoted type for which it is defined.
pub(crate) fn made(op: Unary, ty: Ty, x: u64) -> u64
    ensures { result ≡ on_pattern op ty x }
{
    match op {
        Unary::Plus => x,
        Unary::Minus => apply1(
            by_type1(ty, Op1::Neg32, Op1::Neg32, Op1::Neg64, Op1::Neg64),
            x,
        ),
        Unary::Flip => apply1(
            by_type1(ty, Op1::Not32, Op1::Not32, Op1::Not64, Op1::Not64),
            x,
        ),
        Unary::Not => apply1(
            by_type1(ty, Op1::Zero32, Op1::Zero32, Op1::Zero64, Op1::Zero64),
            x,
        ),
    }
}

/// The operation that converts from one type to another.
fn conversion(from: Ty, to: Ty) -> Option<Op1>
    ensures { result ≡ conversion_op from to }
{
    match (from, to.width()) {
        (Ty::I8, 16) => Some(Op1::S8to16),
        (Ty::I8, 32) => Some(Op1::S8to32),
        (Ty::I8, 64) => Some(Op1::S8to64),
        (Ty::U8, 16) => Some(Op1::U8to16),
        (Ty::U8, 32) => Some(Op1::U8to32),
        (Ty::U8, 64) => Some(Op1::U8to64),
        (Ty::I16 | Ty::U16, 8) => Some(Op1::Cut16to8),
        (Ty::I16, 32) => Some(Op1::S16to32),
        (Ty::I16, 64) => Some(Op1::S16to64),
        (Ty::U16, 32) => Some(Op1::U16to32),
        (Ty::U16, 64) => Some(Op1::U16to64),
        (Ty::I32 | Ty::U32, 8) => Some(Op1::Cut32to8),
        (Ty::I32 | Ty::U32, 16) => Some(Op1::Cut32to16),
        (Ty::I32, 64) => Some(Op1::S32to64),
        (Ty::U32, 64) => Some(Op1::U32to64),
        (Ty::I64 | Ty::U64, 8) => Some(Op1::Cut64to8),
        (Ty::I64 | Ty::U64, 16) => Some(Op1::Cut64to16),
        (Ty::I64 | Ty::U64, 32) => Some(Op1::Cut64to32),
        _ => None,
    }
}

/// The pattern in one type of the converted number of a pattern in another.
pub(crate) fn converted(from: Ty, to: Ty, x: u64) -> u64
    ensures { result ≡ converted_by (conversion_op from to) x }
{
    match conversion(from, to) {
        None => x,
        Some(op) => apply1(op, x),
    }
}

/// Whether an index lies within a dimension.
pub(crate) fn is_within(dim: u64, ty: Ty, x: u64) -> bool
    ensures { x < 2 ^ ty_width ty
        → index_within dim (number ty x) ≡ (if result then Some x else None) }
{
    let index = number(ty, x);
    0 <= index && index < i128::from(dim)
}
