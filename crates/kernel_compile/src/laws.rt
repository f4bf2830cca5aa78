//! Laws of the nets of kernels, each as the contract of a function that does nothing.
ghost use Rattle.kernel_compile.specs.Compiling.{CircuitsAreOne, CircuitsAreWithinDepth, CircuitsRest};
ghost use Rattle.kernel_compile.specs.Goods.{EndsInTime, GoodNetsCompute, GoodWhenRetimed, InputsAreNumbers, PatternsFit};
ghost use Rattle.kernel_compile.specs.Layers.{KernelNetsAreGood};

use buffer_place::{a_net_is_placed_in_one_way, walks_are_within_depth};
use el_base::{
    patterns_are_those_of_their_numbers, patterns_have_their_width,
    patterns_stand_for_numbers_in_range,
};
use kernel_graph::graphs_are_one;
use net_core::{completion, more_slots, spent_is_at_rest};
use queue_marks::marks_allow_runs;

/// The inputs that fit a net with a kernel's header are the patterns of inputs that fit the kernel, and no others.
pub fn inputs_are_patterns()
    ensures fit { PatternsFit }
    ensures numbers { InputsAreNumbers }
{
    patterns_have_their_width();
    patterns_stand_for_numbers_in_range();
    patterns_are_those_of_their_numbers();
}

/// A checked net that is equal but for slots and delays to the net of a kernel's graph, with the mark on every queue or as it
/// is, computes the kernel, whatever the profile, and so it does with whatever other slots and delays it is checked.
pub fn kernel_nets_are_good()
    ensures { KernelNetsAreGood }
{
    inputs_are_patterns();
    completion();
    more_slots();
    spent_is_at_rest();
    marks_allow_runs();
}

/// A good net computes its kernel, and is good with whatever other slots and delays it is checked. Where the kernel ends in
/// T turns, no run on the patterns of its inputs passes a limit of 256·N·(T+1) firings, N being its nodes.
pub fn good_nets_stay_good()
    ensures computes { GoodNetsCompute }
    ensures retimed { GoodWhenRetimed }
    ensures in_time { EndsInTime }
{}

/// A kernel has one circuit by a timing, with the mark on its queues or without: the net of its graph and of the graph's
/// accesses, each of which is one.
pub fn circuits_are_one()
    ensures { CircuitsAreOne }
{
    graphs_are_one();
    a_net_is_placed_in_one_way();
}

/// Where a timing has a depth, no walk along channels of delay 0 of a kernel's circuit weighs more.
pub fn circuits_are_within_depth()
    ensures { CircuitsAreWithinDepth }
{
    walks_are_within_depth();
}

/// Where a kernel ends in T turns, under whichever profile, its circuit, with whatever other slots and delays it is checked,
/// has a list of at most 256·N·(T+1) firings to rest with the kernel's arrays and result, N being the kernel's nodes.
pub fn circuits_come_to_rest()
    ensures { CircuitsRest }
{
    inputs_are_patterns();
    completion();
    more_slots();
    spent_is_at_rest();
    marks_allow_runs();
}
