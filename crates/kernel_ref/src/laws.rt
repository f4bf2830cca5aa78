//! The laws of answers, as contracts of functions that do nothing.
ghost use Rattle.kernel_ref.specs.Laws.{EndingKernelsAreNotRefused, InputsHaveOneAnswer};

use c_meaning::laws::{ends_are_one, larger_bounds_keep_ends};
use ref_interp::ends_need_only_their_turns;

/// A kernel and the bytes of its inputs have one answer, but for want of memory: no other says what holds of them.
pub fn inputs_have_one_answer()
    ensures { InputsHaveOneAnswer }
{
    ends_are_one();
    larger_bounds_keep_ends();
    ends_need_only_their_turns();
}

/// Where the bytes give inputs on which a kernel ends within the turns, nothing but want of memory is refused.
pub fn ending_kernels_are_not_refused()
    ensures { EndingKernelsAreNotRefused }
{
    inputs_have_one_answer();
}
