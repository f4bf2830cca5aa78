//! Laws of placed nets: each is the contract of a function that does nothing.
ghost use Rattle.buffer_place.specs.Placing.{CyclesHaveRegisters, PlacementsAreOne, RegistersAreNeeded, WalksAreWithinDepth};

/// By a timing a net is placed in one way.
pub fn a_net_is_placed_in_one_way()
    ensures { PlacementsAreOne }
{}

/// Where a net is placed by a depth, no walk along channels of delay 0 weighs more than the depth: so many units that work
/// or choose stand in a row without a register between them, and no more.
pub fn walks_are_within_depth()
    ensures { WalksAreWithinDepth }
{}

/// Where a net is placed, with a depth or without, a channel has a delay on each cycle of channels whose classes have none.
pub fn cycles_have_registers()
    ensures { CyclesHaveRegisters }
{}

/// Where a net is placed by a depth, a channel whose class has no delay, and which is no feedback, gets one only where some walk
/// along channels of delay 0 would with it weigh more than the depth. So a channel that lies on no cycle of such channels has a
/// register only where the depth asks for it.
pub fn registers_are_needed()
    ensures { RegistersAreNeeded }
{}
