//! Which magic numbers there are: what a search for the least amount of a shift, by a loop, knows at its end.
ghost use Rattle.word_rules.specs.Existence.{ReciprocalsAreClose, CloseReciprocalsAreMagic, ReciprocalsFitWords, DigitsAreCounted, PowersAreTold, LongMagicExists, SignedMagicExists, SignedFactorsFit, FactorsAreAbove};

/// A reciprocal, as `div_ceil` gives it, is above the exact one by less than 1. What a search tests of it makes it a magic number.
pub fn reciprocals_are_close()
    ensures close { ReciprocalsAreClose }
    ensures magic { CloseReciprocalsAreMagic }
    ensures word { ReciprocalsFitWords }
{}

/// What `leading_zeros` and `is_power_of_two` tell of a divisor.
pub fn digits_are_counted()
    ensures leading { DigitsAreCounted }
    ensures powers { PowersAreTold }
{}

/// For each unsigned divisor of 32 bits there is a magic number of 33 bits.
pub fn long_magic_exists()
    ensures { LongMagicExists }
{}

/// For each signed divisor of 32 bits that is above 1 and no power of two there is a magic number of 32 bits: the least amount
/// from 32 on whose reciprocal is close enough is at most 62, and its reciprocal has 32 bits.
pub fn signed_magic_exists()
    ensures exists { SignedMagicExists }
    ensures fits { SignedFactorsFit }
    ensures above { FactorsAreAbove }
{}
