//! A cycle's turns: first the marked units that are no queues, until none is marked, then the marked queues once.

ghost use Rattle.std.specs.Prelude.{◌≡◌, ◌≢◌, true, false, ℕ, ◌+◌, ◌<◌, ◌≤◌, length, OnOk, MatchResult};
ghost use Rattle.net_types.specs.Order.{act_rank};
ghost use Rattle.net_types.specs.Nets.{kind_of};
ghost use Rattle.net_check.specs.Ends.{is_lsq};
ghost use Rattle.net_core.specs.States.{state_of};
ghost use Rattle.cycle_engine.specs.Cycles.{Dated};
ghost use Rattle.cycle_engine.specs.declared.marks.Marks.{Marks as MarksValue};
ghost use Rattle.cycle_engine.specs.private.Goings.{Past, IsReady, IsBroken, IsBegunIn, IsGrown};
ghost use Rattle.cycle_engine.specs.private.Places.{IsTurn, IsNextAct, IsSettled, IsServed, IsFull};
ghost use Rattle.cycle_engine.specs.private.Used.{HasPlace};

use crate::broken::Broken;
use crate::engine::{Bounds, Engine};
use crate::places::{count_acts, is_queue_kind, look_at_queue, numbered, oldest};
use net_check::Checked;
use net_types::{Act, Firing, Unit};

/// Names for copies of [`Engine::steps`], one for each kind of acts: they have no part in what it does, but in a copy that is
/// called with one kind alone the compiler decides most tests.
pub(crate) struct Allocs;

pub(crate) struct Addrs;

pub(crate) struct Datas;

pub(crate) struct Execs;

pub(crate) struct Replies;

pub(crate) struct Retires;

pub(crate) struct Ends;

impl Engine {
    /// Tries a place of a queue.
    ///
    /// # Errors
    ///
    /// As [`Engine::attempt`].
    fn step<K>(
        &mut self,
        net: &Checked,
        bounds: Bounds,
        firing: Firing,
        kind: &Unit,
        now: u64,
    ) -> Result<(), Broken>
        requires ready { IsReady net.now bounds self.old }
        requires place { HasPlace net.now firing }
        requires kind { kind.now ≡ kind_of net.now firing.unit }
        requires queue { is_lsq kind.now ≡ true }
        requires goes { act_rank firing.act ≢ 0 }
        requires sends { act_rank firing.act ≢ 2 }
        ensures ready { OnOk result (IsReady net.now bounds self.new) }
        ensures grown { OnOk result (IsGrown self.old self.new) }
        ensures again { OnOk result (self.new.again ≡ self.old.again) }
        ensures tried { (past : Past) (start : Dated) (marks : MarksValue) (rank number : ℕ)
            → IsTurn net.now past bounds now start marks self.old firing.unit rank number
            → IsNextAct net.now (state_of self.old.state) firing rank number
            → MatchResult result
            (λ _. IsTurn net.now past bounds now start marks self.new firing.unit rank (number + 1))
            (IsBroken net.now past.inputs bounds) }
    {
        let _ = net.net();
        let plan = self.state.plan_act_at(net, firing, kind);
        self.attempt(net, bounds, firing, plan, now)?;
        Ok(())
    }

    /// Tries all places for one kind of acts of a queue but those at which it allows no act, and those for the control token to which the channel that is noted for it does not lead, or on which it has no token.
    ///
    /// # Errors
    ///
    /// As [`Engine::attempt`].
    fn steps<K>(
        &mut self,
        net: &Checked,
        bounds: Bounds,
        unit: u32,
        kind: &Unit,
        act: Act,
        now: u64,
    ) -> Result<(), Broken>
        requires ready { IsReady net.now bounds self.old }
        requires within { unit < length net.now.units }
        requires kind { kind.now ≡ kind_of net.now unit }
        requires queue { is_lsq kind.now ≡ true }
        requires goes { act_rank act ≢ 0 }
        requires sends { act_rank act ≢ 2 }
        requires executes { act_rank act ≢ 6 }
        ensures ready { OnOk result (IsReady net.now bounds self.new) }
        ensures grown { OnOk result (IsGrown self.old self.new) }
        ensures again { OnOk result (self.new.again ≡ self.old.again) }
        ensures tried { (past : Past) (start : Dated) (marks : MarksValue)
            → IsTurn net.now past bounds now start marks self.old unit (act_rank act) 0
            → MatchResult result
            (λ _. IsTurn net.now past bounds now start marks self.new unit (act_rank act + 1) 0)
            (IsBroken net.now past.inputs bounds) }
    {
        let _ = net.net();
        let count = count_acts(net, unit, act);
        let mut number = self.next_number(net, unit, act, 0, count);
        while number < count {
            let next = numbered(act, number);
            self.step::<K>(net, bounds, Firing { unit, act: next }, kind, now)?;
            number = self.next_number(net, unit, act, number + 1, count);
        }
        look_at_queue(net, &self.state, unit);
        Ok(())
    }

    /// Tries the execution of a queue.
    ///
    /// # Errors
    ///
    /// As [`Engine::attempt`].
    fn execute(
        &mut self,
        net: &Checked,
        bounds: Bounds,
        unit: u32,
        kind: &Unit,
        now: u64,
    ) -> Result<(), Broken>
        requires ready { IsReady net.now bounds self.old }
        requires within { unit < length net.now.units }
        requires kind { kind.now ≡ kind_of net.now unit }
        requires queue { is_lsq kind.now ≡ true }
        ensures ready { OnOk result (IsReady net.now bounds self.new) }
        ensures grown { OnOk result (IsGrown self.old self.new) }
        ensures again { OnOk result (self.new.again ≡ self.old.again) }
        ensures tried { (past : Past) (start : Dated) (marks : MarksValue)
            → IsTurn net.now past bounds now start marks self.old unit 6 0
            → MatchResult result
            (λ _. IsTurn net.now past bounds now start marks self.new unit 7 0)
            (IsBroken net.now past.inputs bounds) }
    {
        let Some(act) = oldest(net, &self.state, unit) else {
            return Ok(());
        };
        self.step::<Execs>(net, bounds, Firing { unit, act }, kind, now)?;
        Ok(())
    }

    /// Makes firings of marked units that are no queues until none of them may be made in the cycle.
    ///
    /// # Errors
    ///
    /// As [`Engine::attempt`].
    pub(crate) fn run_units(
        &mut self,
        net: &Checked,
        bounds: Bounds,
        now: u64,
    ) -> Result<(), Broken>
        requires { IsReady net.now bounds self.old }
        ensures ready { OnOk result (IsReady net.now bounds self.new) }
        ensures settled { (past : Past) (start : Dated)
            → IsBegunIn net.now past bounds now start self.old
            → MatchResult result
            (λ _. IsSettled net.now past bounds now start self.new)
            (IsBroken net.now past.inputs bounds) }
    {
        let units = net.net().units.as_slice();
        'units: while let Some(unit) = self.marks.take() {
            self.run_unit(net, bounds, unit, &units[unit as usize], now)?;
        }
        Ok(())
    }

    /// Tries the places of a queue, in the order of its acts. It stands apart so that what gives units that are no queues their turns
    /// stays small.
    ///
    /// # Errors
    ///
    /// As [`Engine::attempt`].
    #[inline(never)]
    fn run_queue(
        &mut self,
        net: &Checked,
        bounds: Bounds,
        unit: u32,
        kind: &Unit,
        now: u64,
    ) -> Result<(), Broken>
        requires ready { IsReady net.now bounds self.old }
        requires within { unit < length net.now.units }
        requires kind { kind.now ≡ kind_of net.now unit }
        requires queue { is_lsq kind.now ≡ true }
        ensures ready { OnOk result (IsReady net.now bounds self.new) }
        ensures grown { OnOk result (IsGrown self.old self.new) }
        ensures again { OnOk result (self.new.again ≡ self.old.again) }
        ensures tried { (past : Past) (start : Dated) (marks : MarksValue)
            → IsTurn net.now past bounds now start marks self.old unit 3 0
            → MatchResult result
            (λ _. IsTurn net.now past bounds now start marks self.new unit 10 0)
            (IsBroken net.now past.inputs bounds) }
    {
        self.steps::<Allocs>(net, bounds, unit, kind, Act::Alloc(0), now)?;
        self.steps::<Addrs>(net, bounds, unit, kind, Act::Addr(0), now)?;
        self.steps::<Datas>(net, bounds, unit, kind, Act::Data(0), now)?;
        self.execute(net, bounds, unit, kind, now)?;
        self.steps::<Replies>(net, bounds, unit, kind, Act::Reply(0), now)?;
        self.steps::<Retires>(net, bounds, unit, kind, Act::Retire, now)?;
        self.steps::<Ends>(net, bounds, unit, kind, Act::End, now)?;
        Ok(())
    }

    /// Gives the next queue that is to have a turn its turn, where it is marked, and takes its mark. Where it
    /// fired it is looked at again in the next cycle.
    ///
    /// # Errors
    ///
    /// As [`Engine::attempt`].
    fn serve(&mut self, net: &Checked, bounds: Bounds, now: u64) -> Result<(), Broken>
        requires { IsReady net.now bounds self.old }
        ensures ready { OnOk result (IsReady net.now bounds self.new) }
        ensures served { (past : Past) (start : Dated) (count n : ℕ)
            → IsServed net.now past bounds now start self.old count n → n < count
            → MatchResult result
            (λ _. IsServed net.now past bounds now start self.new count (n + 1))
            (IsBroken net.now past.inputs bounds) }
    {
        let Some(unit) = self.marks.take_queue() else {
            return Ok(());
        };
        let units = net.net().units.as_slice();
        if unit as usize >= units.len() {
            return Ok(());
        }
        let kind = &units[unit as usize];
        if is_queue_kind(kind) {
            let before = self.fired.len();
            self.run_queue(net, bounds, unit, kind, now)?;
            if self.fired.len() > before {
                self.again.push(unit)?;
            }
        }
        Ok(())
    }

    /// Gives each marked queue its turn, the least unit first.
    ///
    /// # Errors
    ///
    /// As [`Engine::attempt`].
    pub(crate) fn run_queues(
        &mut self,
        net: &Checked,
        bounds: Bounds,
        now: u64,
    ) -> Result<(), Broken>
        requires { IsReady net.now bounds self.old }
        ensures ready { OnOk result (IsReady net.now bounds self.new) }
        ensures full { (past : Past) (start : Dated)
            → IsSettled net.now past bounds now start self.old
            → MatchResult result
            (λ _. IsFull net.now past bounds now start self.new)
            (IsBroken net.now past.inputs bounds) }
    {
        self.marks.sort_queues();
        let count = self.marks.queues.len();
        for _ in 0..count {
            self.serve(net, bounds, now)?;
        }
        Ok(())
    }
}
