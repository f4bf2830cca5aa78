//! Quotients and remainders by constants, as products, shifts, sums and masks.
ghost use Rattle.std.specs.Prelude.{◌-◌, ◌^◌};
ghost use Rattle.el_base.specs.declared.operation.Op2.TheVariants as op2;
ghost use Rattle.word_rules.specs.Numbers.{ProductsAreQuotients, ProductsAreBelowQuotients};
ghost use Rattle.word_rules.specs.Quotients.{ReplacesPower, DividesByProduct, DividesByLongProduct, DividesBySignedProduct, DividesByShift, LeavesByMask, SameWithoutSign, LeavesByQuotient, shifted_product32, shifted_product64, biased32, biased64};

/// A number's product with a magic number of the divisor, shifted to the right, is the quotient; of a negative number it is one less.
pub fn products_are_quotients()
    ensures natural { ProductsAreQuotients }
    ensures negative { ProductsAreBelowQuotients }
{}

/// Unsigned quotients of patterns up to a bound, by a magic number of at most 64 bits, and by one of 33 bits.
pub fn unsigned_quotients_are_products()
    ensures divu32 { DividesByProduct 32 op2.Divu32 shifted_product32 }
    ensures divu64 { DividesByProduct 64 op2.Divu64 shifted_product64 }
    ensures long { DividesByLongProduct }
{}

/// Signed quotients of all patterns of 32 bits, by a magic number of at most 32 bits.
pub fn signed_quotients_are_products()
    ensures { DividesBySignedProduct }
{}

/// Products and unsigned quotients by a power of two are shifts, and remainders are masks.
pub fn unsigned_powers_are_shifts()
    ensures mul32 { ReplacesPower 32 op2.Shl32 (λ k. k) op2.Mul32 }
    ensures mul64 { ReplacesPower 64 op2.Shl64 (λ k. k) op2.Mul64 }
    ensures divu32 { ReplacesPower 32 op2.Shru32 (λ k. k) op2.Divu32 }
    ensures divu64 { ReplacesPower 64 op2.Shru64 (λ k. k) op2.Divu64 }
    ensures remu32 { ReplacesPower 32 op2.And32 (λ k. 2 ^ k - 1) op2.Remu32 }
    ensures remu64 { ReplacesPower 64 op2.And64 (λ k. 2 ^ k - 1) op2.Remu64 }
{}

/// Signed quotients and remainders by a power of two: a negative dividend is biased by one less than the divisor.
pub fn signed_powers_are_shifts()
    ensures divs32 { DividesByShift 32 biased32 op2.Shrs32 op2.Divs32 }
    ensures divs64 { DividesByShift 64 biased64 op2.Shrs64 op2.Divs64 }
    ensures rems32 { LeavesByMask 32 biased32 op2.Sub32 op2.And32 op2.Rems32 }
    ensures rems64 { LeavesByMask 64 biased64 op2.Sub64 op2.And64 op2.Rems64 }
{}

/// Signed division of numbers that are not negative is unsigned division, also by 0.
pub fn divisions_without_sign_are_unsigned()
    ensures divs32 { SameWithoutSign 32 op2.Divs32 op2.Divu32 }
    ensures divs64 { SameWithoutSign 64 op2.Divs64 op2.Divu64 }
    ensures rems32 { SameWithoutSign 32 op2.Rems32 op2.Remu32 }
    ensures rems64 { SameWithoutSign 64 op2.Rems64 op2.Remu64 }
{}

/// Remainders from quotients, for each divisor other than 0, also a negative one.
pub fn remainders_are_differences()
    ensures remu32 { LeavesByQuotient 32 op2.Sub32 op2.Mul32 op2.Divu32 op2.Remu32 }
    ensures remu64 { LeavesByQuotient 64 op2.Sub64 op2.Mul64 op2.Divu64 op2.Remu64 }
    ensures rems32 { LeavesByQuotient 32 op2.Sub32 op2.Mul32 op2.Divs32 op2.Rems32 }
    ensures rems64 { LeavesByQuotient 64 op2.Sub64 op2.Mul64 op2.Divs64 op2.Rems64 }
{}
