//! Laws of the nets that are built, each as the contract of a function that does nothing.
ghost use Rattle.circuit_build.specs.Counted.{ArraysAreServed, HeadersAreMet};
ghost use Rattle.circuit_build.specs.Shaped.{UnitsAreShaped};
ghost use Rattle.circuit_build.specs.Sizes.{NetsAreSmall};
ghost use Rattle.circuit_build.specs.Laws.{ChannelsHaveOneSlot, HeadersAreKept, UnitsHaveShape, UnitsStandOnce};

/// The net of a graph has the graph's header, and each of its channels has one slot and delay 1.
pub fn nets_are_plain()
    ensures header { HeadersAreKept }
    ensures slots { ChannelsHaveOneSlot }
{}

/// In the net of a graph of at most 32,768 blocks, each of at most 14,336 steps and 1,024 arguments, each fork, mux and
/// control merge has 1 to 65,536 outputs or inputs: the rule of shapes holds of each unit that is no queue.
pub fn units_have_their_shape()
    ensures { UnitsHaveShape }
{}

/// The net of a graph of fewer than 2^32 scalars and arrays each has one entry, one exit, one unit for each scalar, and at
/// most one queue for each array.
pub fn units_stand_once()
    ensures { UnitsStandOnce }
{}

/// The net of a graph that can be built has at most 8 channels for each unit of the graph's size, each scalar and each
/// array, and 64 more, and fewer than 2^32 units.
pub fn nets_are_small()
    ensures { NetsAreSmall }
{}

/// The net of a graph that can be built keeps the rule of shapes: each port of a queue is in one group, and no queue is
/// deeper than it may be.
pub fn units_are_shaped()
    ensures { UnitsAreShaped }
{}

/// The net of a graph that can be built keeps the rule of headers.
pub fn headers_are_met()
    ensures { HeadersAreMet }
{}

/// In the net of a graph an array that is only read has a unit that reads it for each step that loads from it, and no queue;
/// another has one queue, with a group of ports for each of its accesses, and no unit reads it.
pub fn arrays_are_served()
    ensures { ArraysAreServed }
{}
