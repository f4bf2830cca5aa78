//! Laws of ranges: numbers stay in those of their types.
ghost use Rattle.c_meaning.specs.Ranges.{OpeningFits, NormalOpeningFits, ValuesFit, StatementsFit, NormalStatementsFit, KernelsFit, NormalsFit, ResultsFit, NormalResultsFit};

use el_base::{patterns_have_their_width, patterns_stand_for_numbers_in_range};
use word_ops::laws::{bits_are_joined, results_are_patterns};

/// A lawful kernel's opening store fits on inputs that fit; a lawful expression's value in a fitting store lies in its type; a lawful statement leaves a fitting store, and what it returns lies in the kernel's type; and so do the arrays and the result of a kernel that ends. The same of normal forms.
pub fn numbers_stay_in_range()
    ensures opening { OpeningFits }
    ensures values { ValuesFit }
    ensures statements { StatementsFit }
    ensures kernels { KernelsFit }
    ensures results { ResultsFit }
    ensures normal_opening { NormalOpeningFits }
    ensures normal_statements { NormalStatementsFit }
    ensures normal_forms { NormalsFit }
    ensures normal_results { NormalResultsFit }
{
    patterns_have_their_width();
    patterns_stand_for_numbers_in_range();
    bits_are_joined();
    results_are_patterns();
}
