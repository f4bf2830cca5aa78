//! The acts of units that are here.
ghost use Rattle.std.specs.Prelude.{◌≡◌, ◌<◌, ◌↔◌, IsTrue, MatchOption, false, get_or, length};
ghost use Rattle.std.specs.List.{slice_get};
ghost use Rattle.net_types.specs.Nets.{kind_of};
ghost use Rattle.net_check.specs.Ends.{is_lsq};
ghost use Rattle.net_core.specs.Finds.{IsLeastAct, IsQuiet, unit_acts};
ghost use Rattle.net_core.specs.Fire.{enabled, idle};
ghost use Rattle.net_core.specs.States.{IsOf, IsQueueAt, state_of};
ghost use Rattle.net_worker.specs.Portions.{HasPins};

use crate::portion::Portion;
use net_check::Checked;
use net_core::{Searched, UnitQueue, act_numbered, find_act_in};
use net_types::{Act, Firing};

impl Searched for Portion {
    ghost use Rattle.net_worker.specs.Portions.{HasPins};

    ghost stored = { λ p. p.state };

    ghost shows = { λ p net u. HasPins net p u };

    fn enabled(&self, net: &Checked, firing: Firing) -> bool {
        let _ = &self.base;
        match self.plan(net, firing) {
            None => false,
            Some(plan) => match plan.put {
                None => true,
                Some(put) => self.has_room_on(net, net.out_of_place(firing.unit, put.place)),
            },
        }
    }

    fn queue(&self, net: &Checked, unit: u32) -> Option<&UnitQueue> {
        Portion::queue(self, net, unit)
    }
}

impl Portion {
    /// The act of a unit that has this number in the order of its acts, from 0 on; `None` past the last.
    pub(crate) fn act_at(&self, net: &Checked, unit: u32, number: u32) -> Option<Act>
        requires of { IsOf net.now self.now.state }
        requires within { unit < length net.now.units }
        requires here { HasPins net.now self.now unit }
        ensures { result ≡ slice_get (unit_acts (kind_of net.now unit)
            (get_or (state_of self.now.state).own unit idle)) number }
    {
        let kind = &net.net().units.as_slice()[unit as usize];
        act_numbered(kind, self.cell(unit), number)
    }

    /// The least enabled act of a unit that is not before another act; `None` exactly where all enabled ones are before it.
    pub(crate) fn find_act(&self, net: &Checked, unit: u32, from: Act) -> Option<Act>
        requires of { IsOf net.now self.now.state }
        requires within { unit < length net.now.units }
        requires here { HasPins net.now self.now unit }
        ensures { MatchOption result (IsQuiet net.now (state_of self.now.state) unit from)
            (λ act. IsLeastAct net.now (state_of self.now.state) unit from act) }
    {
        find_act_in(self, net, unit, from)
    }
}
