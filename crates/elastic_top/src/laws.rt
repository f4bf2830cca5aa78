//! Laws of calls, as contracts of functions that do nothing. Where a call has nothing to refuse, and if its files are steady and within their
//! limits and the output takes all bytes, the status is then 0 or 11 by the clause `complete` of [`top`](crate::top).
ghost use Rattle.elastic_top.specs.Laws.{BenchesRefuseNothing, EndingKernelsGo, KernelsAreCompiled};
ghost use Rattle.elastic_top.specs.Continued.{LongFilesAreOne, ResumedCallsPrintAsRuns};
ghost use Rattle.elastic_top.specs.OneAnswer.{
  CompilesPrintOnce,
  GoesPrintOnce,
  OneNetIsShown,
  RunsPrintOnce,
  RunsTellAsMany,
  StatusEightIsLong,
  WrapChangesNothing,
};
ghost use Rattle.elastic_top.specs.Printed.{
  InterpretedKernelsAreRun,
  RefAndGoShowOneEnd,
  ReplaysShowTheEnd,
  RunsShowTheEnd,
  SoundRunsAreAnswered,
  TypedTextsAreCompiled,
  TypedTextsGo,
};

use c_calls::laws::programs_are_typed_in_one_way;
use c_meaning::range_laws::numbers_stay_in_range;
use cycle_engine::cycles_are_one;
use el_base::{patterns_are_those_of_their_numbers, patterns_stand_for_numbers_in_range};
use inputs_text::inputs_texts_have_one_reading;
use kernel_compile::good_nets_stay_good;
use kernel_front::{one_text_has_one_answer, texts_that_type_are_kernels};
use kernel_runs::{
    answers_are_one, ending_kernels_run, interpreted_kernels_go, kernels_compile,
    printed_circuits_are_right,
};
use net_check::a_net_has_one_refusal;
use net_runs::{resumes_show_runs, sound_runs_are_not_refused, workers_change_no_answer};

/// Where its file spells a kernel, a call of `compile` has nothing to refuse.
pub fn kernels_are_compiled()
    ensures { KernelsAreCompiled }
{
    kernels_compile();
}

/// Where its files spell a kernel and inputs of it, on which the kernel ends in T turns, and 256·N·(T+1)
/// firings are within the limit, N being its nodes, a call of `go` has nothing to refuse.
pub fn ending_kernels_go()
    ensures { EndingKernelsGo }
{
    ending_kernels_run();
}

/// A call of `bench` has nothing to refuse.
pub fn benches_refuse_nothing()
    ensures { BenchesRefuseNothing }
{}

/// All answers of a call of `compile` for the same contents print the same, and so do all of a call of `go`, and of one of `run`
/// that writes no firings, with any number of workers or without; where it counts cycles, without workers each time, or with some
/// each time. Texts of one that writes firings are the same up to these, and write as many. `--wrap` changes no answer of
/// `compile` and `go`. The text of `go` is the text of `compile`, by the same options, a
/// line `%%` and the text of a run of the net that is read from it; the status of `go` is 8 exactly where that net has runs of
/// more firings than the limit on the inputs.
pub fn calls_print_once()
    ensures compile { CompilesPrintOnce }
    ensures go { GoesPrintOnce }
    ensures run { RunsPrintOnce }
    ensures log { RunsTellAsMany }
    ensures wrap { WrapChangesNothing }
    ensures net { OneNetIsShown }
    ensures limit { StatusEightIsLong }
{
    answers_are_one();
    a_net_has_one_refusal();
    workers_change_no_answer();
    cycles_are_one();
    inputs_texts_have_one_reading();
}

/// Where a kernel ends on the inputs, what `replay` prints of the circuit that `compile` printed for it is the text of the
/// kernel's own arrays and result, or names a firing that may come next; and what `run` prints of it begins with that text.
pub fn printed_circuits_show_the_end()
    ensures replay { ReplaysShowTheEnd }
    ensures run { RunsShowTheEnd }
{
    printed_circuits_are_right();
}

/// What a call of `resume` prints of a text that `save` printed is what a call of `run` prints for the same netlist and inputs, with
/// the same limit, where both count the firings or neither does, and `run` tells neither cycles nor firings: one text, or one line
/// and one status.
pub fn resumed_calls_print_as_runs()
    ensures { ResumedCallsPrintAsRuns }
{
    a_net_has_one_refusal();
    resumes_show_runs();
}

/// Where it is told what the files hold, one file alone can be the one that is too long.
pub fn long_files_are_one()
    ensures { LongFilesAreOne }
{}

/// Where its files spell a net that keeps the rules and inputs on which no run is longer than the limit and some run rests
/// exited and without strays, a call of `run` has nothing to refuse.
pub fn sound_runs_are_answered()
    ensures { SoundRunsAreAnswered }
{
    a_net_has_one_refusal();
    sound_runs_are_not_refused();
}

/// Where its file spells a program within the limits that keeps the typing rules, and the tree without calls is within the
/// limit on nodes, a call of `compile` has nothing to refuse; nor has one of `go` where that tree besides ends on the inputs
/// in T turns, and 256·N·(T+1) firings are within the limit, N being its nodes.
pub fn typed_texts_are_answered()
    ensures compile { TypedTextsAreCompiled }
    ensures go { TypedTextsGo }
{
    kernels_are_compiled();
    ending_kernels_go();
    texts_that_type_are_kernels();
    programs_are_typed_in_one_way();
}

/// Where a call of `ref` on the same files has a text, after T turns, and 256·N·(T+1) firings are within the limit, N being
/// the kernel's nodes, a call of `go` has nothing to refuse.
pub fn interpreted_kernels_are_run()
    ensures { InterpretedKernelsAreRun }
{
    interpreted_kernels_go();
}

/// What a call of `ref` and one of `go` print for the same contents of their files, under whichever profile, shows the same
/// results: they begin the text of `ref`, and in that of `go` they follow the netlist that `compile` prints for the kernel and a
/// line `%%`. After them stand only the numbers and firings that are asked for.
pub fn ref_and_go_show_one_end()
    ensures { RefAndGoShowOneEnd }
{
    one_text_has_one_answer();
    inputs_texts_have_one_reading();
    good_nets_stay_good();
    numbers_stay_in_range();
    patterns_stand_for_numbers_in_range();
    patterns_are_those_of_their_numbers();
}
