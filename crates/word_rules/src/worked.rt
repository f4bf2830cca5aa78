//! Worked examples, by computation.
ghost use Rattle.word_rules.specs.Worked.{ThreeIsWorked, SevenIsWorked, SignedSevenIsWorked, FourIsWorked, BoundsAreWorked};

/// The amounts and magic numbers of 3 and 7, the biased shift of 4, and what they give.
pub fn divisors_are_worked()
    ensures three { ThreeIsWorked }
    ensures seven { SevenIsWorked }
    ensures signed_seven { SignedSevenIsWorked }
    ensures four { FourIsWorked }
{}

/// Some greatest values.
pub fn bounds_are_worked()
    ensures { BoundsAreWorked }
{}
