//! Putting the mark on queues.
ghost use Rattle.std.specs.Prelude.{◌≡◌, map};
ghost use Rattle.queue_marks.specs.Marked.{forwarding, with_mark};

use net_types::{Net, Unit};

/// Puts the mark on every queue of a net, and changes nothing else. Takes no memory.
pub fn mark_queues(net: &mut Net)
    ensures { net.new ≡ forwarding net.old }
{
    mark_units(net.units.as_mut_slice());
}

/// Puts the mark on each unit that is a queue.
fn mark_units(units: &mut [Unit])
    ensures { units.new ≡ map with_mark units.old }
{
    for unit in units.iter_mut() {
        mark_unit(unit);
    }
}

/// Puts the mark on a unit that is a queue.
fn mark_unit(unit: &mut Unit)
    ensures { unit.new ≡ with_mark unit.old }
{
    if let Unit::Lsq { forward, .. } = unit {
        *forward = true;
    }
}
