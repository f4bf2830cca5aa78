ghost use Rattle.std.specs.Prelude.{◌≡◌, ◌+◌, ◌<◌, ◌≤◌, ◌^◌, true, [], ◌∷◌};
ghost use Rattle.el_base.specs.Limits.{max_depth, max_firings};
ghost use Rattle.net_core.specs.Fire.{after, enabled};
ghost use Rattle.net_core.specs.States.{CountsRise, CountsWithin, IsOf, state_of};
ghost use Rattle.net_replay.specs.Finishes.{Finished, IsLogged};

use crate::visits::{Bounds, advance, note};
use el_base::Log;
use net_check::Checked;
use net_core::State;
use net_types::Firing;

/// How a run of firings ended.
#[derive(Clone, Copy, PartialEq, Eq)]
pub enum Ended {
    /// No firing is enabled, after so many in all.
    Rest { made: u64 },
    /// As many firings as the limit allows are made, and one is enabled.
    Limit,
}

/// Makes enabled firings, one after another, until none is enabled or `limit` are made, of which `made` are made before the
/// call. Where `keep` is true it adds them to the log, in their order.
///
/// It takes no memory. It looks first where a firing has changed something, and at all units before it rests.
pub fn finish(
    net: &Checked,
    state: &mut State,
    made: u64,
    limit: u64,
    keep: bool,
    log: &mut Log<Firing>,
) -> Ended
    requires of { IsOf net.now state.old }
    requires made { made ≤ limit }
    requires limit { limit ≤ max_firings }
    requires counts { CountsWithin (2 ^ 60) (state_of state.old) }
    requires room { keep ≡ true → limit ≤ made + log.old.room }
    ensures of { IsOf net.now state.new }
    ensures finished { Finished net.now (state_of state.old) (state_of state.new) made limit
        keep log.old log.new result }
{
    let bounds = Bounds { limit, keep };
    let mut count = advance(net, state, log, bounds, made);
    'firings: while let Some(firing) = state.find(net) {
        if count == limit {
            return Ended::Limit;
        }
        make(net, state, firing, keep, log);
        count = advance(net, state, log, bounds, count + 1);
    }
    Ended::Rest { made: count }
}

/// Makes a firing, and adds it to the log where it is kept.
fn make(net: &Checked, state: &mut State, firing: Firing, keep: bool, log: &mut Log<Firing>)
    requires of { IsOf net.now state.old }
    requires enabled { enabled net.now (state_of state.old) firing }
    requires counts { CountsWithin (2 ^ 62) (state_of state.old) }
    requires room { keep ≡ true → 0 < log.old.room }
    ensures of { IsOf net.now state.new }
    ensures state { state_of state.new ≡ after net.now (state_of state.old) firing }
    ensures counts { CountsRise max_depth (state_of state.old) (state_of state.new) }
    ensures logged { IsLogged keep (firing ∷ []) log.old log.new }
{
    state.fire(net, firing);
    note(log, keep, firing);
}
