//! One firing of a worker.
ghost use Rattle.std.specs.Prelude.{◌≡◌, ◌<◌, length, IsTrue, IsFalse, IfNone, IfSome};
ghost use Rattle.net_worker.specs.Firings.{IsFiredExactly};
ghost use Rattle.net_worker.specs.Going.{GoesOn, HasAdded, IsHeld};
ghost use Rattle.net_worker.specs.Inside.{IsInnerUnit};
ghost use Rattle.net_worker.specs.Views.{net_of, number_of, log_room, owner_in};
ghost use Rattle.net_worker.specs.Workers.{IsMadeOf, IsWhole};

use crate::parts::{above, hand_over, offer, offer_inside, take_all, used_places};
use crate::tables::Tables;
use crate::waking::wake;
use crate::worker::Worker;
use net_core::Plan;
use net_types::Firing;

impl Worker {
    /// Makes a firing of one of its own units where it sees that it may, and answers what it did.
    fn fire(&mut self, tables: &Tables, firing: Firing) -> Option<Plan>
        requires made { IsMadeOf tables.now self.old }
        requires whole { IsWhole tables.now self.old }
        requires mine { owner_in tables.now firing.unit ≡ number_of self.old }
        requires within { firing.unit < length (net_of tables.now).units }
        requires room { 0 < log_room self.old }
        ensures fired { IfSome result (λ p. IsFiredExactly tables.now self.old self.new firing) }
        ensures held { IfNone result (IsHeld tables.now self.old self.new firing) }
    {
        if tables.crosses(firing.unit) {
            self.fire_crossing(tables, firing)
        } else {
            self.fire_inner(tables, firing)
        }
    }

    /// The same where channels go from the unit to other workers, or from others to it.
    fn fire_crossing(&mut self, tables: &Tables, firing: Firing) -> Option<Plan>
        requires made { IsMadeOf tables.now self.old }
        requires whole { IsWhole tables.now self.old }
        requires mine { owner_in tables.now firing.unit ≡ number_of self.old }
        requires within { firing.unit < length (net_of tables.now).units }
        requires room { 0 < log_room self.old }
        ensures fired { IfSome result (λ p. IsFiredExactly tables.now self.old self.new firing) }
        ensures held { IfNone result (IsHeld tables.now self.old self.new firing) }
    {
        let net = tables.net;
        let plan = self.portion.plan(net, firing)?;
        let unit = firing.unit;
        let used = used_places(&net.net().units.as_slice()[unit as usize], plan.takes);
        let base = above(&mut self.takes, net, unit, used, self.clock);
        let stamp = offer(&mut self.puts, &self.portion, net, unit, plan.put, base)?;
        self.portion.make(net, firing, plan);
        hand_over(&mut self.portion, &self.puts, net, unit, plan.put);
        take_all(&mut self.takes, net, unit, plan.takes, stamp);
        self.clock = stamp;
        self.resting = false;
        self.log.add(stamp, firing);
        Some(plan)
    }

    /// The same where all channels of the unit stay in the worker: no end of a link is asked.
    fn fire_inner(&mut self, tables: &Tables, firing: Firing) -> Option<Plan>
        requires made { IsMadeOf tables.now self.old }
        requires whole { IsWhole tables.now self.old }
        requires inner { IsInnerUnit (net_of tables.now) (owner_in tables.now) firing.unit }
        requires mine { owner_in tables.now firing.unit ≡ number_of self.old }
        requires within { firing.unit < length (net_of tables.now).units }
        requires room { 0 < log_room self.old }
        ensures fired { IfSome result (λ p. IsFiredExactly tables.now self.old self.new firing) }
        ensures held { IfNone result (IsHeld tables.now self.old self.new firing) }
    {
        let net = tables.net;
        let plan = self.portion.plan(net, firing)?;
        let stamp = offer_inside(&self.portion, net, firing.unit, plan.put, self.clock)?;
        self.portion.make(net, firing, plan);
        self.clock = stamp;
        self.resting = false;
        self.log.add(stamp, firing);
        Some(plan)
    }

    /// Makes a firing of one of its own units where it sees that it may, looks again where it took, and tells whether it
    /// made it.
    pub(crate) fn try_act(&mut self, tables: &Tables, firing: Firing) -> bool
        requires made { IsMadeOf tables.now self.old }
        requires whole { IsWhole tables.now self.old }
        requires mine { owner_in tables.now firing.unit ≡ number_of self.old }
        requires within { firing.unit < length (net_of tables.now).units }
        requires room { 0 < log_room self.old }
        ensures made { IsMadeOf tables.now self.new }
        ensures later { GoesOn tables.now self.old self.new }
        ensures fired { IsTrue result → HasAdded 1 self.old self.new }
        ensures held { IsFalse result → IsHeld tables.now self.old self.new firing }
    {
        let Some(plan) = self.fire(tables, firing) else {
            return false;
        };
        wake(
            &mut self.ready,
            &self.portion,
            tables,
            self.number,
            firing.unit,
            plan,
        );
        self.look_again(tables, firing.unit, plan.takes);
        true
    }
}
