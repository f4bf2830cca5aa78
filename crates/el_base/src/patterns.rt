ghost use Rattle.std.specs.Prelude.{◌≡◌, ℕ, ◌^◌, ◌<◌, ℤ};
ghost use Rattle.el_base.specs.declared.ty.Ty.{Ty};
ghost use Rattle.el_base.specs.Numbers.{IsInRange, number, pattern};
ghost use Rattle.el_base.specs.Widths.{ty_width};

use crate::ty::Ty;

/// The pattern of a number in a type, below 2^width: the number modulo 2^width.
pub fn pattern(ty: Ty, number: i128) -> u64
    ensures { result ≡ pattern ty number }
{
    number.rem_euclid(1 << ty.width()) as u64
}

/// The number that a pattern below 2^width stands for in a type; two's complement in a signed one.
pub fn number(ty: Ty, pattern: u64) -> i128
    ensures { result ≡ number ty pattern }
{
    let unsigned = i128::from(pattern);
    if ty.signed() && unsigned >= 1 << (ty.width() - 1) {
        unsigned - (1 << ty.width())
    } else {
        unsigned
    }
}

/// A number that a type holds is the one that its pattern stands for (ISO/IEC 9899:1999 6.2.6.2).
pub fn numbers_are_those_of_their_patterns()
    ensures { (t : Ty) (z : ℤ) → IsInRange t z → number t (pattern t z) ≡ z }
{}

/// A pattern of a type's width is that of the number that it stands for.
pub fn patterns_are_those_of_their_numbers()
    ensures { (t : Ty) (p : ℕ) → p < 2 ^ ty_width t → pattern t (number t p) ≡ p }
{}

/// A pattern of a type's width stands for a number that the type holds.
pub fn patterns_stand_for_numbers_in_range()
    ensures { (t : Ty) (p : ℕ) → p < 2 ^ ty_width t → IsInRange t (number t p) }
{}

/// Each whole number's pattern in a type is below 2^width.
pub fn patterns_have_their_width()
    ensures { (t : Ty) (z : ℤ) → pattern t z < 2 ^ ty_width t }
{}
