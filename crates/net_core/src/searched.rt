//! States whose enabled acts are looked for.

ghost use Rattle.std.specs.Prelude.{◌≡◌, ◌<◌, ◌↔◌, ℕ, false, length, IsTrue, MatchOption};
ghost use Rattle.net_types.specs.declared.net.Net.{Net};
ghost use Rattle.net_types.specs.Nets.{kind_of};
ghost use Rattle.net_check.specs.Ends.{is_lsq};
ghost use Rattle.net_core.specs.declared.state.State.{State as Stored};
ghost use Rattle.net_core.specs.Fire.{enabled};
ghost use Rattle.net_core.specs.States.{IsOf, IsQueueAt, state_of};

use crate::cell::UnitQueue;
use crate::state::State;
use net_check::Checked;
use net_types::Firing;

/// A state, or a part of one, in which the enabled acts of some units are looked for.
///
/// Contracts see a whole state, and which units it may be asked about.
pub trait Searched {
    ghost stored: { Self → Stored };

    ghost shows: { Self → Net → ℕ → Type 0 };

    /// Whether a firing is enabled.
    fn enabled(&self, net: &Checked, firing: Firing) -> bool
        requires of { IsOf net.now (stored self.now) }
        requires shown { shows self.now net.now firing.unit }
        ensures { IsTrue result ↔ enabled net.now (state_of (stored self.now)) firing };

    /// The queue of a unit of the net, where it has one.
    fn queue(&self, net: &Checked, unit: u32) -> Option<&UnitQueue>
        requires of { IsOf net.now (stored self.now) }
        requires within { unit < length net.now.units }
        requires shown { shows self.now net.now unit }
        ensures { MatchOption result (is_lsq (kind_of net.now unit) ≡ false)
            (λ q. IsQueueAt net.now (stored self.now) unit q.now) };
}

impl Searched for State {
    ghost stored = { λ s. s };

    ghost shows = { λ _ _ _. Unit {0} };

    fn enabled(&self, net: &Checked, firing: Firing) -> bool {
        State::enabled(self, net, firing)
    }

    fn queue(&self, net: &Checked, unit: u32) -> Option<&UnitQueue> {
        State::queue(self, net, unit)
    }
}
