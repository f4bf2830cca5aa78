//! The cycles in which tokens were put.

ghost use Rattle.std.specs.Prelude.{◌≡◌, ◌<◌, ◌^◌, ◌↔◌, ◌∷◌, [], IsTrue, length};
ghost use Rattle.std.specs.List.{AllByRecursion};
ghost use Rattle.net_types.specs.Nets.{chan_at};
ghost use Rattle.net_core.specs.Held.{AllWithin};
ghost use Rattle.net_core.specs.Plans.{chans_of};
ghost use Rattle.net_core.specs.States.{IsOf, dates_of};
ghost use Rattle.cycle_engine.specs.private.Trials.{RipeAt};

use net_check::Checked;
use net_core::{State, Taken};

/// The delay of a channel in cycles.
#[inline(always)]
pub(crate) fn delay_of(net: &Checked, chan: u32) -> u64
    requires { chan < length net.now.chans }
    ensures delay { result ≡ (chan_at net.now chan).delay }
    ensures small { result < 2 ^ 32 }
{
    u64::from(net.net().chans.as_slice()[chan as usize].delay)
}

/// Whether the head of a channel may be used in the cycle `now`.
#[inline(always)]
pub(crate) fn is_ripe(state: &State, net: &Checked, chan: u32, now: u64) -> bool
    requires of { IsOf net.now state.now }
    requires within { chan < length net.now.chans }
    ensures { IsTrue result ↔ RipeAt net.now now (dates_of state.now) chan }
{
    let delay = delay_of(net, chan);
    match state.date(net, chan) {
        None => false,
        Some(date) => delay <= now && date <= now - delay,
    }
}

/// Whether the heads of all channels from which a firing takes may be used in the cycle `now`.
#[inline(always)]
pub(crate) fn are_ripe(state: &State, net: &Checked, taken: Taken, now: u64) -> bool
    requires of { IsOf net.now state.now }
    requires within { AllWithin (length net.now.chans) (chans_of taken) }
    ensures { IsTrue result
        ↔ AllByRecursion (RipeAt net.now now (dates_of state.now)) (chans_of taken) }
{
    match taken {
        Taken::None => true,
        Taken::One(c) => is_ripe(state, net, c, now),
        Taken::Two(c, d) => is_ripe(state, net, c, now) && is_ripe(state, net, d, now),
        Taken::Three(c, d, e) => are_three_ripe(state, net, c, d, e, now),
    }
}

/// Whether the heads of three channels may be used in the cycle `now`. It stands apart so that what takes fewer stays small.
#[inline(never)]
fn are_three_ripe(state: &State, net: &Checked, c: u32, d: u32, e: u32, now: u64) -> bool
    requires of { IsOf net.now state.now }
    requires within { AllWithin (length net.now.chans) (c ∷ d ∷ e ∷ []) }
    ensures { IsTrue result
        ↔ AllByRecursion (RipeAt net.now now (dates_of state.now)) (c ∷ d ∷ e ∷ []) }
{
    is_ripe(state, net, c, now) && is_ripe(state, net, d, now) && is_ripe(state, net, e, now)
}
