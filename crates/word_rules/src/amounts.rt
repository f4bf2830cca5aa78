//! Which amount a division by a constant takes: the least that serves the divisor.
ghost use Rattle.word_rules.specs.Amounts.{UnsignedAmountsServe, SignedAmountsServe, UnsignedQuotientsAreMade, WideQuotientsAreMade, SignedQuotientsAreMade};

/// The reciprocal for the least amount is a magic number. A signed divisor that is no power of two always has one.
pub fn least_amounts_serve()
    ensures unsigned { UnsignedAmountsServe }
    ensures signed { SignedAmountsServe }
{}

/// Quotients with the least amount. A divisor of unsigned numbers of 32 bits that has none takes a magic number of 33 bits.
pub fn quotients_are_made()
    ensures unsigned { UnsignedQuotientsAreMade }
    ensures wide { WideQuotientsAreMade }
    ensures signed { SignedQuotientsAreMade }
{}
