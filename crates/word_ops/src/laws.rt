//! Laws of the operations, for every number: each is the contract of a function that does nothing.
ghost use Rattle.std.specs.Prelude.{◌≡◌, ◌≢◌, ◌^◌, Bool, true, false, pos, negsuc, ◌+ℤ◌, ◌-ℤ◌, ◌*ℤ◌, neg_ℤ, ◌<ℤ◌, ◌≤ℤ◌, int_div, int_rem, bit_and, bit_or, bit_xor};
ghost use Rattle.std.specs.Int.{int_shr};
ghost use Rattle.el_base.specs.declared.operation.Op1.{Op1};
ghost use Rattle.el_base.specs.declared.operation.Op1.TheVariants as op1;
ghost use Rattle.el_base.specs.declared.operation.Op2.{Op2};
ghost use Rattle.el_base.specs.declared.operation.Op2.TheVariants as op2;
ghost use Rattle.word_ops.specs.Laws.{Law1, Law2, BelowWidth1, BelowWidth2, OnResidues1, OnResidues2, Gives1, GivesIn1, Gives2, ByZeroGivesZero, LeastByMinusOneGives, FlipsBits, JoinsBits, Shifts, ShiftsIn, Divides, Tells1, Tells2};

/// Each operation has a law that says what it means on whole numbers; the functions below say the same by the kind of law.
pub fn operations_have_laws()
    ensures one { (op : Op1) → Law1 op }
    ensures two { (op : Op2) → Law2 op }
{}

/// A result is below two to its width.
pub fn results_are_patterns()
    ensures one { BelowWidth1 }
    ensures two { BelowWidth2 }
{}

/// To reduce an operand to its width first changes no result.
pub fn operands_are_reduced()
    ensures one { OnResidues1 }
    ensures two { OnResidues2 }
{}

/// Sums, differences, products, negatives and flips give the pattern of the exact result: a flip is -1 - x.
pub fn arithmetic_is_exact()
    ensures add32 { Gives2 op2.Add32 (λ x y. x +ℤ y) }
    ensures add64 { Gives2 op2.Add64 (λ x y. x +ℤ y) }
    ensures sub32 { Gives2 op2.Sub32 (λ x y. x -ℤ y) }
    ensures sub64 { Gives2 op2.Sub64 (λ x y. x -ℤ y) }
    ensures mul32 { Gives2 op2.Mul32 (λ x y. x *ℤ y) }
    ensures mul64 { Gives2 op2.Mul64 (λ x y. x *ℤ y) }
    ensures neg32 { Gives1 op1.Neg32 neg_ℤ }
    ensures neg64 { Gives1 op1.Neg64 neg_ℤ }
    ensures not32 { Gives1 op1.Not32 (λ x. negsuc 0 -ℤ x) }
    ensures not64 { Gives1 op1.Not64 (λ x. negsuc 0 -ℤ x) }
{}

/// A flip turns each bit of the pattern, and the other bitwise operations give the bitwise result of the patterns (ISO/IEC 9899:1999 6.5.3.3, 6.5.10 to 6.5.12).
pub fn bits_are_joined()
    ensures flips32 { FlipsBits op1.Not32 }
    ensures flips64 { FlipsBits op1.Not64 }
    ensures and32 { JoinsBits op2.And32 bit_and }
    ensures and64 { JoinsBits op2.And64 bit_and }
    ensures or32 { JoinsBits op2.Or32 bit_or }
    ensures or64 { JoinsBits op2.Or64 bit_or }
    ensures xor32 { JoinsBits op2.Xor32 bit_xor }
    ensures xor64 { JoinsBits op2.Xor64 bit_xor }
{}

/// Shifts by an amount below the width: to the left by a product, to the right by a quotient that is rounded down (ISO/IEC 9899:1999 6.5.7).
pub fn shifts_are_exact()
    ensures shl32 { Shifts op2.Shl32 (λ x k. x *ℤ pos (2 ^ k)) }
    ensures shl64 { Shifts op2.Shl64 (λ x k. x *ℤ pos (2 ^ k)) }
    ensures shru32 { ShiftsIn false op2.Shru32 int_shr }
    ensures shru64 { ShiftsIn false op2.Shru64 int_shr }
    ensures shrs32 { ShiftsIn true op2.Shrs32 int_shr }
    ensures shrs64 { ShiftsIn true op2.Shrs64 int_shr }
{}

/// Quotients and remainders of numbers in range, for a divisor other than 0, truncated toward zero (ISO/IEC 9899:1999 6.5.5).
pub fn divisions_are_exact()
    ensures divu32 { Divides false op2.Divu32 int_div }
    ensures divu64 { Divides false op2.Divu64 int_div }
    ensures remu32 { Divides false op2.Remu32 int_rem }
    ensures remu64 { Divides false op2.Remu64 int_rem }
    ensures divs32 { Divides true op2.Divs32 int_div }
    ensures divs64 { Divides true op2.Divs64 int_div }
    ensures rems32 { Divides true op2.Rems32 int_rem }
    ensures rems64 { Divides true op2.Rems64 int_rem }
{}

/// Divisor 0 gives 0; the least number by -1 gives the least number again, and remainder 0.
pub fn divisions_are_total()
    ensures divu32_zero { ByZeroGivesZero op2.Divu32 }
    ensures divu64_zero { ByZeroGivesZero op2.Divu64 }
    ensures remu32_zero { ByZeroGivesZero op2.Remu32 }
    ensures remu64_zero { ByZeroGivesZero op2.Remu64 }
    ensures divs32_zero { ByZeroGivesZero op2.Divs32 }
    ensures divs64_zero { ByZeroGivesZero op2.Divs64 }
    ensures rems32_zero { ByZeroGivesZero op2.Rems32 }
    ensures rems64_zero { ByZeroGivesZero op2.Rems64 }
    ensures divs32_least { LeastByMinusOneGives op2.Divs32 (2 ^ 31) }
    ensures divs64_least { LeastByMinusOneGives op2.Divs64 (2 ^ 63) }
    ensures rems32_least { LeastByMinusOneGives op2.Rems32 0 }
    ensures rems64_least { LeastByMinusOneGives op2.Rems64 0 }
{}

/// Comparisons of numbers in range give 1 where the relation holds and 0 where it does not (ISO/IEC 9899:1999 6.5.8, 6.5.9).
pub fn comparisons_tell()
    ensures zero32 { Tells1 op1.Zero32 (λ x. x ≡ pos 0) }
    ensures zero64 { Tells1 op1.Zero64 (λ x. x ≡ pos 0) }
    ensures eq32 { (s : Bool) → Tells2 s op2.Eq32 (λ x y. x ≡ y) }
    ensures eq64 { (s : Bool) → Tells2 s op2.Eq64 (λ x y. x ≡ y) }
    ensures ne32 { (s : Bool) → Tells2 s op2.Ne32 (λ x y. x ≢ y) }
    ensures ne64 { (s : Bool) → Tells2 s op2.Ne64 (λ x y. x ≢ y) }
    ensures ltu32 { Tells2 false op2.Ltu32 (λ x y. x <ℤ y) }
    ensures ltu64 { Tells2 false op2.Ltu64 (λ x y. x <ℤ y) }
    ensures leu32 { Tells2 false op2.Leu32 (λ x y. x ≤ℤ y) }
    ensures leu64 { Tells2 false op2.Leu64 (λ x y. x ≤ℤ y) }
    ensures lts32 { Tells2 true op2.Lts32 (λ x y. x <ℤ y) }
    ensures lts64 { Tells2 true op2.Lts64 (λ x y. x <ℤ y) }
    ensures les32 { Tells2 true op2.Les32 (λ x y. x ≤ℤ y) }
    ensures les64 { Tells2 true op2.Les64 (λ x y. x ≤ℤ y) }
{}

/// Extensions keep the number of the operand, and cuts give its pattern in the narrower width (ISO/IEC 9899:1999 6.3.1.3).
pub fn conversions_are_exact()
    ensures s8to16 { GivesIn1 true op1.S8to16 (λ x. x) }
    ensures s8to32 { GivesIn1 true op1.S8to32 (λ x. x) }
    ensures s8to64 { GivesIn1 true op1.S8to64 (λ x. x) }
    ensures s16to32 { GivesIn1 true op1.S16to32 (λ x. x) }
    ensures s16to64 { GivesIn1 true op1.S16to64 (λ x. x) }
    ensures s32to64 { GivesIn1 true op1.S32to64 (λ x. x) }
    ensures u8to16 { GivesIn1 false op1.U8to16 (λ x. x) }
    ensures u8to32 { GivesIn1 false op1.U8to32 (λ x. x) }
    ensures u8to64 { GivesIn1 false op1.U8to64 (λ x. x) }
    ensures u16to32 { GivesIn1 false op1.U16to32 (λ x. x) }
    ensures u16to64 { GivesIn1 false op1.U16to64 (λ x. x) }
    ensures u32to64 { GivesIn1 false op1.U32to64 (λ x. x) }
    ensures cut16to8 { Gives1 op1.Cut16to8 (λ x. x) }
    ensures cut32to8 { Gives1 op1.Cut32to8 (λ x. x) }
    ensures cut32to16 { Gives1 op1.Cut32to16 (λ x. x) }
    ensures cut64to8 { Gives1 op1.Cut64to8 (λ x. x) }
    ensures cut64to16 { Gives1 op1.Cut64to16 (λ x. x) }
    ensures cut64to32 { Gives1 op1.Cut64to32 (λ x. x) }
{}
