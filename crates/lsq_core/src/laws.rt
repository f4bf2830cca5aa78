//! The laws of the acts of a queue, as contracts of functions that do nothing.
ghost use Rattle.lsq_core.specs.Rows.{RowsHold};
ghost use Rattle.lsq_core.specs.Laws.{ActsJoin, StaysConsistent, StaysInOrder, StaysInPorts, StaysRefused, MarkAllowsMore};

/// Two acts that a queue allows, of which not both pass control, are one act, or stay allowed after each other, put
/// and count what they would have, and lead to one queue and one array, with the mark and without it.
pub fn acts_join()
    ensures { ActsJoin }
{}

/// An act leaves serial numbers rising by one, each entry of a port, and of an act that is allowed what executed
/// entries had.
pub fn acts_keep_a_queue()
    ensures consistent { StaysConsistent }
    ensures order { StaysInOrder }
    ensures ports { StaysInPorts }
{}

/// What a queue refuses it refuses after an act of the same or a later phase and of another place.
pub fn acts_stay_refused()
    ensures { StaysRefused }
{}

/// A list of acts that a queue without the mark allows is one with it, and leads to the same.
pub fn mark_allows_more()
    ensures { MarkAllowsMore }
{}

/// Worked lists of acts on a queue of one store and one load, with the mark and without it: the load goes first
/// where the addresses differ, waits where the store's is not known, waits or is given the store's data where they
/// are equal, and reads 0 past the array.
pub fn rows_hold()
    ensures { RowsHold }
{}
