//! What operators on patterns give, of all operators together.
ghost use Rattle.ref_interp.specs.Laws.{PatternLaws};
ghost use Rattle.ref_interp.specs.Parts.{PartLaws};

use c_meaning::laws::{
    conversions_keep_patterns, expressions_mean_their_parts, operators_keep_patterns,
    shifts_keep_patterns, statements_run_their_parts, unary_operators_keep_patterns,
};
use c_meaning::part_laws::{
    lawful_expressions_have_lawful_parts, lawful_statements_have_lawful_parts,
};
use c_meaning::range_laws::numbers_stay_in_range;
use el_base::{
    numbers_are_those_of_their_patterns, patterns_are_those_of_their_numbers,
    patterns_have_their_width, patterns_stand_for_numbers_in_range,
};

/// Where an operator or a conversion has a value for the numbers of patterns, its operation on the patterns gives the pattern of the value.
pub(crate) fn patterns_follow_numbers()
    ensures { PatternLaws }
{
    conversions_keep_patterns();
    operators_keep_patterns();
    shifts_keep_patterns();
    unary_operators_keep_patterns();
    expressions_mean_their_parts();
    lawful_expressions_have_lawful_parts();
    numbers_stay_in_range();
    numbers_are_those_of_their_patterns();
    patterns_are_those_of_their_numbers();
    patterns_have_their_width();
    patterns_stand_for_numbers_in_range();
}

/// How each statement runs by its parts, and what is lawful of them.
pub(crate) fn parts_are_known()
    ensures { PartLaws }
{
    statements_run_their_parts();
    lawful_statements_have_lawful_parts();
}
