ghost use Rattle.std.specs.Prelude.{◌↔◌, IsTrue, MatchOption};
ghost use Rattle.net_types.specs.Numbered.{AreNumbered};
ghost use Rattle.net_check.specs.Sizes.{IsSized, KeepsC3, CulpritC3};

use crate::refusal::{At, chan_at};
use el_base::{MAX_DELAY, MAX_SLOTS, MAX_SUM_OF_SLOTS};
use net_types::{Chan, Net};

/// Rule C3, slots and delays: `None` where it is kept, else the culprit.
///
/// It costs time in proportion to the channels, and takes no memory.
pub fn check_sizes(net: &Net) -> Option<At>
    requires { AreNumbered net.now }
    ensures { MatchOption result (KeepsC3 net.now) (CulpritC3 net.now) }
{
    let mut together: u64 = 0;
    for (c, chan) in net.chans.as_slice().iter().enumerate() {
        if !is_sized(chan) {
            return Some(chan_at(c));
        }
        together = together.saturating_add(u64::from(chan.slots));
    }
    if together > MAX_SUM_OF_SLOTS {
        return Some(At::Net);
    }
    None
}

/// Whether the channel has a slot, and slots and delay up to the most.
fn is_sized(chan: &Chan) -> bool
    ensures { IsTrue result ↔ IsSized chan.now }
{
    0 < chan.slots && chan.slots <= MAX_SLOTS && chan.delay <= MAX_DELAY
}
