//! The laws of answers, as contracts of functions that do nothing.
ghost use Rattle.kernel_runs.specs.Laws.{EndingKernelsRun, GoesAsInterpreted, KernelsCompile};
ghost use Rattle.kernel_runs.specs.OneAnswer.{
  CompilesHaveOneAnswer,
  GoesHaveOneAnswer,
  LimitIsOfPrintedNet,
  OneNetIsPrinted,
  RefusalsAreOne,
  TextsShowOneRun,
};
ghost use Rattle.kernel_runs.specs.Printed.{InterpretedKernelsGo, ReplaysAreRight, RunsAreRight};

use c_meaning::range_laws::numbers_stay_in_range;
use el_base::{patterns_are_those_of_their_numbers, patterns_stand_for_numbers_in_range};
use inputs_text::inputs_texts_have_one_reading;
use kernel_compile::{circuits_are_one, good_nets_stay_good};
use kernel_front::one_text_has_one_answer;
use net_text::one_net_per_text;

/// Where the bytes spell a kernel, nothing but want of memory is refused.
pub fn kernels_compile()
    ensures { KernelsCompile }
{
    one_text_has_one_answer();
}

/// Where a kernel ends in T turns, under some profile, on inputs that bytes give, and 256·N·(T+1) firings are within the
/// limit, N being its nodes, nothing but want of memory is refused.
pub fn ending_kernels_run()
    ensures { EndingKernelsRun }
{
    one_text_has_one_answer();
    good_nets_stay_good();
    inputs_texts_have_one_reading();
}

/// Where the plain interpreter has results for the bytes of a kernel and of its inputs, a run of the circuit shows them too.
pub fn circuits_show_what_is_interpreted()
    ensures { GoesAsInterpreted }
{
    one_text_has_one_answer();
    patterns_stand_for_numbers_in_range();
    patterns_are_those_of_their_numbers();
}

/// A kernel and options have one answer, but for want of memory, and so have a kernel, its inputs and options where no
/// cycles are asked for; where they are, refusals are one, and texts show one net, the same results and as many firings.
/// The text of a circuit and of its run begins with the text of the circuit that the compilation has. The limit is refused
/// exactly where the net that is read from that text has runs of more firings.
pub fn answers_are_one()
    ensures compiled { CompilesHaveOneAnswer }
    ensures gone { GoesHaveOneAnswer }
    ensures refused { RefusalsAreOne }
    ensures shown { TextsShowOneRun }
    ensures printed { OneNetIsPrinted }
    ensures limit { LimitIsOfPrintedNet }
{
    one_text_has_one_answer();
    circuits_are_one();
    one_net_per_text();
    inputs_texts_have_one_reading();
}

/// Where the kernel ends on the inputs, the text of a replay of its printed circuit is that of the kernel's own arrays and
/// result, or names a firing that may come next; and the text of a run of it begins with that of the arrays and the result.
pub fn printed_circuits_are_right()
    ensures replays { ReplaysAreRight }
    ensures runs { RunsAreRight }
{
    one_text_has_one_answer();
    inputs_texts_have_one_reading();
    good_nets_stay_good();
    numbers_stay_in_range();
}

/// Where the plain interpreter ends in T turns, under whichever profile, and 256·N·(T+1) firings are within the limit, N
/// being the kernel's nodes, nothing but want of memory is refused.
pub fn interpreted_kernels_go()
    ensures { InterpretedKernelsGo }
{
    ending_kernels_run();
    patterns_stand_for_numbers_in_range();
    patterns_are_those_of_their_numbers();
}
