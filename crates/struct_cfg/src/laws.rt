//! Laws of the graph of a normal form, each as the contract of a function that does nothing.
ghost use Rattle.struct_cfg.specs.Laws.{FormsFit, FormRunsAreFollowed, FormVariablesAreShown, FormSizesAreKept, FormHeadersAreKept, FormVariablesAreKept};

use c_meaning::laws::{
    conversions_keep_patterns, costs_are_one, operators_keep_patterns, shifts_keep_patterns,
    unary_operators_keep_patterns,
};
use c_meaning::range_laws::numbers_stay_in_range;
use el_base::{
    numbers_are_those_of_their_patterns, patterns_are_those_of_their_numbers,
    patterns_have_their_width,
};
use word_ops::laws::arithmetic_is_exact;

/// The graph of a lawful normal form is well formed. Its runs follow those of the form under either profile: with the same arrays and result, without strays, with at most one visit more than the form has jumps, and with at most as many steps as its price. Each variable that is set when the form ends then has the pattern of its number.
pub fn graphs_follow_their_forms()
    ensures fit { FormsFit }
    ensures header { FormHeadersAreKept }
    ensures vars { FormVariablesAreKept }
    ensures runs { FormRunsAreFollowed }
    ensures variables { FormVariablesAreShown }
    ensures sizes { FormSizesAreKept }
{
    conversions_keep_patterns();
    costs_are_one();
    operators_keep_patterns();
    shifts_keep_patterns();
    unary_operators_keep_patterns();
    numbers_stay_in_range();
    numbers_are_those_of_their_patterns();
    patterns_are_those_of_their_numbers();
    patterns_have_their_width();
    arithmetic_is_exact();
}
