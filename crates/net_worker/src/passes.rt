//! Passes over the units of a worker.
ghost use Rattle.std.specs.Prelude.{◌≡◌, ◌<◌, length};
ghost use Rattle.net_core.specs.States.{IsOf};
ghost use Rattle.net_worker.specs.Asking.{IsAsked};
ghost use Rattle.net_worker.specs.Going.{GoesOn, HasAdded, OneTriedAs, UnitTriedAs, OwnTriedAs, TriedAs, ActsFit};
ghost use Rattle.net_worker.specs.Portions.{IsUnitHere};
ghost use Rattle.net_worker.specs.Turns.{HasUnit, HasMade};
ghost use Rattle.net_worker.specs.Views.{net_of, number_of, log_room, owner_in, held_state};
ghost use Rattle.net_worker.specs.Workers.{IsMadeOf, IsWhole};
ghost use Rattle.net_worker.specs.declared.passes.Tried.TheVariants as tried;

use crate::skips::next_number;
use crate::tables::Tables;
use crate::worker::Worker;
use lsq_core::Queue;
use net_types::{Act, Firing, acts_follow};

/// How many firings a pass makes before it begins no other visit, unless the exit has fired.
const PASS_FIRINGS: u32 = 4096;

/// What trying firings came to.
#[derive(Clone, Copy)]
pub enum Tried {
    /// One was made.
    Made,
    /// None was made.
    Held,
    /// None was made, and each that is enabled waits for a credit.
    Waiting,
}

impl Tried {
    ghost use Rattle.std.specs.Prelude.{◌≡◌, ◌↔◌, IsTrue, cond};
    ghost use Rattle.net_worker.specs.declared.passes.Tried.TheVariants as tried;

    /// None was made, and each that is enabled waits or not.
    fn of(waiting: bool) -> Tried
        ensures { result ≡ cond waiting tried.Waiting tried.Held }
    {
        if waiting { Tried::Waiting } else { Tried::Held }
    }

    fn is_made(self) -> bool
        ensures { IsTrue result ↔ self ≡ tried.Made }
    {
        matches!(self, Tried::Made)
    }

    fn is_waiting(self) -> bool
        ensures { IsTrue result ↔ self ≡ tried.Waiting }
    {
        matches!(self, Tried::Waiting)
    }
}

impl Worker {
    /// Visits marked units in ascending order, going round from where the pass before ended, until none is marked or it has
    /// made as many firings as a pass makes; after the exit until none is marked. Answers how many it made.
    pub(crate) fn pass(&mut self, tables: &Tables) -> u32
        requires made { IsMadeOf tables.now self.old }
        requires whole { IsWhole tables.now self.old }
        ensures made { IsMadeOf tables.now self.new }
        ensures later { GoesOn tables.now self.old self.new }
        ensures added { HasAdded result self.old self.new }
        ensures none { result ≡ 0 → IsAsked self.old self.new }
    {
        let mut fired = 0;
        'visits: for _ in 0..u32::MAX {
            if fired >= PASS_FIRINGS && !self.portion.exited() {
                return fired;
            }
            let Some(unit) = self.ready.take() else {
                return fired;
            };
            let made = self.visit(tables, unit);
            fired += made;
        }
        fired
    }

    /// Tries the acts of a unit, where it is the worker's own; answers how many firings it made.
    fn visit(&mut self, tables: &Tables, unit: u32) -> u32
        requires made { IsMadeOf tables.now self.old }
        requires whole { IsWhole tables.now self.old }
        ensures { HasMade tables.now result self.old self.new }
    {
        let units = tables.net.net().units.as_slice();
        if unit as usize >= units.len() || tables.owner(unit) != self.number {
            return 0;
        }
        let kind = &units[unit as usize];
        if tables.crosses(unit) {
            return self.visit_crossing(tables, unit, kind);
        }
        self.visit_inner(tables, unit, kind)
    }

    /// Tries the acts of one of its own units, one after another, but those of which its queue or the place of the control token
    /// tells that nothing comes of them; answers how many firings it made.
    pub(crate) fn visit_each(&mut self, tables: &Tables, unit: u32) -> u32
        requires own { HasUnit tables.now self.old unit }
        ensures { HasMade tables.now result self.old self.new }
    {
        let mut fired = 0;
        let mut number = 0;
        'acts: for _ in 0..u32::MAX {
            if self.log.room() == 0 {
                return fired;
            }
            let next = self.number_from(tables, unit, number);
            let Some(act) = self.portion.act_at(tables.net, unit, next) else {
                return fired;
            };
            let made = self.try_one(tables, Firing { unit, act });
            fired += made;
            number = next.saturating_add(1);
        }
        fired
    }

    /// The next number from one on, in the order of a unit's acts, of an act that is not passed over.
    fn number_from(&self, tables: &Tables, unit: u32, number: u32) -> u32
        requires of { IsOf (net_of tables.now) self.now.portion.state }
        requires within { unit < length (net_of tables.now).units }
        requires here { IsUnitHere self.now.portion unit }
    {
        let control = self.ready.control();
        next_number(tables.net, &self.portion, control, unit, number)
    }

    /// Tries a firing of one of its own units; answers how many it made, one or none.
    fn try_one(&mut self, tables: &Tables, firing: Firing) -> u32
        requires made { IsMadeOf tables.now self.old }
        requires whole { IsWhole tables.now self.old }
        requires mine { owner_in tables.now firing.unit ≡ number_of self.old }
        requires within { firing.unit < length (net_of tables.now).units }
        requires room { 0 < log_room self.old }
        ensures { HasMade tables.now result self.old self.new }
    {
        if self.try_act(tables, firing) {
            return 1;
        }
        self.note(tables, firing);
        0
    }

    /// Tries all firings of the worker's own units that are enabled in the state that it holds, until it makes one.
    pub(crate) fn exact_pass(&mut self, tables: &Tables) -> Tried
        requires made { IsMadeOf tables.now self.old }
        requires whole { IsWhole tables.now self.old }
        requires room { 0 < log_room self.old }
        ensures made { IsMadeOf tables.now self.new }
        ensures later { GoesOn tables.now self.old self.new }
        ensures tried { TriedAs tables.now result self.old self.new }
    {
        let count = tables.net.net().units.len();
        let span = tables.span(self.number);
        let mut waiting = true;
        for at in span.first..span.end.min(count) {
            let tried = self.try_own(tables, at as u32);
            if tried.is_made() {
                return Tried::Made;
            }
            waiting &= tried.is_waiting();
        }
        Tried::of(waiting)
    }

    /// The same for one unit, where it is the worker's own.
    fn try_own(&mut self, tables: &Tables, unit: u32) -> Tried
        requires made { IsMadeOf tables.now self.old }
        requires whole { IsWhole tables.now self.old }
        requires within { unit < length (net_of tables.now).units }
        requires room { 0 < log_room self.old }
        ensures made { IsMadeOf tables.now self.new }
        ensures later { GoesOn tables.now self.old self.new }
        ensures tried { OwnTriedAs tables.now result self.old self.new unit }
    {
        if tables.owner(unit) != self.number {
            return Tried::Waiting;
        }
        self.try_unit(tables, unit)
    }

    /// The numbers of a unit's acts that are enabled have their bits.
    fn acts_fit(&self, tables: &Tables, unit: u32)
        requires of { IsOf (net_of tables.now) self.now.portion.state }
        requires within { unit < length (net_of tables.now).units }
        requires here { IsUnitHere self.now.portion unit }
        ensures { ActsFit (net_of tables.now) (held_state self.now) unit }
    {
        let _ = tables.net.net();
        let Some(queue) = self.portion.queue(tables.net, unit) else {
            return;
        };
        let _ = queue.len();
    }

    /// Tries all firings of one of its own units that are enabled in the state that the worker holds, until it makes one.
    fn try_unit(&mut self, tables: &Tables, unit: u32) -> Tried
        requires made { IsMadeOf tables.now self.old }
        requires whole { IsWhole tables.now self.old }
        requires mine { owner_in tables.now unit ≡ number_of self.old }
        requires within { unit < length (net_of tables.now).units }
        requires room { 0 < log_room self.old }
        ensures made { IsMadeOf tables.now self.new }
        ensures later { GoesOn tables.now self.old self.new }
        ensures tried { UnitTriedAs tables.now result self.old self.new unit }
    {
        self.acts_fit(tables, unit);
        acts_follow();
        let mut waiting = true;
        let mut from = Act::Go;
        'acts: loop {
            let Some(act) = self.portion.find_act(tables.net, unit, from) else {
                return Tried::of(waiting);
            };
            let tried = self.try_again(tables, Firing { unit, act });
            if tried.is_made() {
                return Tried::Made;
            }
            waiting &= tried.is_waiting();
            let Some(next) = act.next() else {
                return Tried::of(waiting);
            };
            from = next;
        }
    }

    /// Tries a firing of one of its own units.
    fn try_again(&mut self, tables: &Tables, firing: Firing) -> Tried
        requires made { IsMadeOf tables.now self.old }
        requires whole { IsWhole tables.now self.old }
        requires mine { owner_in tables.now firing.unit ≡ number_of self.old }
        requires within { firing.unit < length (net_of tables.now).units }
        requires room { 0 < log_room self.old }
        ensures made { IsMadeOf tables.now self.new }
        ensures later { GoesOn tables.now self.old self.new }
        ensures tried { OneTriedAs tables.now result self.old self.new firing }
    {
        if self.try_act(tables, firing) {
            return Tried::Made;
        }
        Tried::of(self.note(tables, firing))
    }
}
