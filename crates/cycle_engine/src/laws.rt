//! Laws of cycles, each as the contract of a function that does nothing.
ghost use Rattle.cycle_engine.specs.Rousing.{Rouses, OwnRouses, NextRouses};
ghost use Rattle.cycle_engine.specs.Bounds.{CyclesBound, CyclesAreOne, CyclesMeet};
ghost use Rattle.cycle_engine.specs.Joins.{CyclesAreRuns, CutsAreLong};
ghost use Rattle.cycle_engine.specs.Worked.{StraightCycles};

use net_core::limit_decides;

/// What a firing makes possible in its cycle is of its own unit, or of the unit at the other end of the channel of
/// delay 0 on which it put, or puts on a channel from which it took.
pub fn firings_rouse()
    ensures { Rouses }
{}

/// What a firing makes possible at another place of its own unit: nothing, but where it is the last send of a fork or an
/// act of a queue, or put into its own unit by a channel of delay 0.
pub fn firings_rouse_their_unit()
    ensures { OwnRouses }
{}

/// What the next cycle makes possible puts on a channel from which tokens were taken, or uses a head that comes to be
/// ripe, or allocates in a queue that got free depth.
pub fn next_cycles_rouse()
    ensures { NextRouses }
{}

/// Cycles from the opening state whose last has a firing are at most the firings, each times one more than the
/// greatest delay.
pub fn cycles_are_few()
    ensures { CyclesBound }
{}

/// Two cycles of a checked net from one state, to which cycles lead, are as many firings, and lead to one state. So the number
/// of cycles to rest is one for a net and inputs.
pub fn cycles_are_one()
    ensures states { CyclesMeet }
    ensures number { CyclesAreOne }
{}

/// The firings of cycles from the opening state, one cycle after another, are a run to the state to which the cycles lead.
/// Where a limit cuts cycles off, there are runs of more firings than it.
pub fn cycles_are_runs()
    ensures runs { CyclesAreRuns }
    ensures long { CutsAreLong }
{
    limit_decides();
}

/// The worked net without a queue makes its nine firings in one cycle, computed by the definitions.
pub fn worked_net_cycles()
    ensures { StraightCycles }
{}
