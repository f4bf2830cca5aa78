//! Turns of units that are no queues: each kind by itself, with the channels at its first places looked up once.

ghost use Rattle.std.specs.Prelude.{◌≡◌, ◌<◌, ◌≤◌, true, false, IfSome, OnOk, MatchOption, MatchResult, length};
ghost use Rattle.net_types.specs.declared.firing.Act.TheVariants as acts;
ghost use Rattle.net_types.specs.declared.net.Unit.TheVariants as units;
ghost use Rattle.net_types.specs.Nets.{kind_of, firing};
ghost use Rattle.net_check.specs.Pins.{pins_of};
ghost use Rattle.net_core.specs.Plans.{IsBranch, IsConstOf, IsMuxOf, IsSelect, IsSink, admits, apart};
ghost use Rattle.net_core.specs.States.{IsPlanOf, cell_at};
ghost use Rattle.net_core.specs.Uses.{is_fork};
ghost use Rattle.cycle_engine.specs.Cycles.{Dated, IsUnused, May};
ghost use Rattle.cycle_engine.specs.private.Trials.{dated_of, IsBegun, IsEngine, IsPlanned};
ghost use Rattle.cycle_engine.specs.private.Goings.{Past, IsReady, IsBegunIn, IsBroken, to_visit};
ghost use Rattle.cycle_engine.specs.private.Marking.{asks_first};
ghost use Rattle.cycle_engine.specs.private.Places.{IsOpenTurn, IsTurnMade};
ghost use Rattle.cycle_engine.specs.private.Used.{AreNumbered, AreTold, goes};

use crate::broken::Broken;
use crate::engine::{Bounds, Engine};
use crate::trial::Planned;
use el_base::{Op1, Op2};
use net_check::{Checked, Pins};
use net_core::{Plan, moves_at};
use net_types::{Act, Firing, Unit};

impl Engine {
    /// What the firing of a unit does that has one place and may fire in the cycle, by its plan; `None` where it may not.
    #[inline(always)]
    fn may_go(
        &self,
        net: &Checked,
        unit: u32,
        pins: Pins,
        plan: Option<Plan>,
        now: u64,
    ) -> Option<Planned>
        requires engine { IsEngine net.now self.now }
        requires long { length self.now.freed.marked.items ≡ length net.now.chans }
        requires pins { pins ≡ pins_of unit net.now.chans }
        requires straight { is_fork (kind_of net.now unit) ≡ false }
        requires apart { IfSome plan (λ p. apart p.takes ≡ true) }
        requires admits { IfSome plan
            (λ p. admits (cell_at self.now.state unit) p.change ≡ true) }
        requires effect { IsPlanOf net.now self.now.state (firing unit acts.Go) plan }
        ensures planned { IfSome result (IsPlanned net.now self.now (firing unit acts.Go)) }
        ensures may { (start : Dated) → IsBegun net.now now start self.now → MatchOption result
            (May net.now now start (dated_of self.now) (firing unit acts.Go) → ⊥)
            (λ p. May net.now now start (dated_of self.now) (firing unit acts.Go)) }
    {
        let firing = Firing { unit, act: Act::Go };
        let plan = plan?;
        let planned = Planned {
            plan,
            moves: moves_at(net, unit, pins, &plan),
        };
        if self.allows(net, firing, &planned, now) {
            Some(planned)
        } else {
            None
        }
    }

    /// Tries the place of a unit that has one, by its plan, where it has not fired, and marks the unit that its firing may let fire in
    /// the cycle. Where the unit has another token at its first input, or `asks` is false, it is to be looked at again in the next.
    ///
    /// # Errors
    ///
    /// As [`Engine::fire`].
    #[inline(always)]
    fn go(
        &mut self,
        net: &Checked,
        bounds: Bounds,
        unit: u32,
        pins: Pins,
        plan: Option<Plan>,
        now: u64,
        asks: bool,
    ) -> Result<(), Broken>
        requires ready { IsReady net.now bounds self.old }
        requires pins { pins ≡ pins_of unit net.now.chans }
        requires within { unit < length net.now.units }
        requires goes { goes (kind_of net.now unit) ≡ true }
        requires asks { asks ≡ true → asks_first (kind_of net.now unit) ≡ true }
        requires unused { IsUnused self.old.fired.items (firing unit acts.Go) }
        requires apart { IfSome plan (λ p. apart p.takes ≡ true) }
        requires admits { IfSome plan
            (λ p. admits (cell_at self.old.state unit) p.change ≡ true) }
        requires effect { IsPlanOf net.now self.old.state (firing unit acts.Go) plan }
        ensures { IsTurnMade net.now bounds now unit 0 1 self.old self.new result }
    {
        let _ = net.net();
        let Some(planned) = self.may_go(net, unit, pins, plan, now) else {
            return Ok(());
        };
        let firing = Firing { unit, act: Act::Go };
        self.fire(net, bounds, firing, u64::from(unit), planned, now, true)?;
        if !asks || self.state.head(net, pins.first).is_some() {
            self.again.push(unit)?;
        }
        Ok(())
    }

    /// Whether a unit that has one place has fired in the cycle.
    #[inline(always)]
    fn has_gone(&self, net: &Checked, unit: u32) -> bool
        requires told { AreTold net.now self.now.used self.now.made self.now.fired.items }
        requires numbers { AreNumbered net.now self.now.used.base.items
            (length self.now.used.last.items) }
        requires within { unit < length net.now.units }
        requires goes { goes (kind_of net.now unit) ≡ true }
        ensures used { result ≡ true
            → IsUnused self.now.fired.items (firing unit acts.Go) → ⊥ }
        ensures unused { result ≡ false
            → IsUnused self.now.fired.items (firing unit acts.Go) }
    {
        self.is_used(net, Firing { unit, act: Act::Go }, u64::from(unit))
    }

    /// Notes that a unit, whose one place has fired, is to be looked at again in the next cycle. It stands apart so that what tries a
    /// place that has not fired stays small.
    ///
    /// # Errors
    ///
    /// [`Memory`] where memory is wanting.
    #[inline(never)]
    fn wait(&mut self, net: &Checked, bounds: Bounds, unit: u32, now: u64) -> Result<(), Broken>
        requires ready { IsReady net.now bounds self.old }
        requires goes { goes (kind_of net.now unit) ≡ true }
        requires used { IsUnused self.old.fired.items (firing unit acts.Go) → ⊥ }
        ensures { IsTurnMade net.now bounds now unit 0 1 self.old self.new result }
    {
        let _ = net.net();
        let _ = bounds;
        let _ = now;
        self.again.push(unit)?;
        Ok(())
    }

    /// Tries the place of a constant.
    ///
    /// # Errors
    ///
    /// As [`Engine::fire`].
    #[inline(never)]
    fn go_const(
        &mut self,
        net: &Checked,
        bounds: Bounds,
        unit: u32,
        value: u64,
        pins: Pins,
        now: u64,
    ) -> Result<(), Broken>
        requires ready { IsReady net.now bounds self.old }
        requires within { unit < length net.now.units }
        requires kind { IsConstOf value (kind_of net.now unit) }
        requires pins { pins ≡ pins_of unit net.now.chans }
        ensures { IsTurnMade net.now bounds now unit 0 1 self.old self.new result }
    {
        if self.has_gone(net, unit) {
            return self.wait(net, bounds, unit, now);
        }
        let plan = self.state.plan_const_at(net, unit, value, pins);
        self.go(net, bounds, unit, pins, plan, now, true)
    }

    /// Tries the place of an operation on one pattern.
    ///
    /// # Errors
    ///
    /// As [`Engine::fire`].
    #[inline(never)]
    fn go_op1(
        &mut self,
        net: &Checked,
        bounds: Bounds,
        unit: u32,
        op: Op1,
        pins: Pins,
        now: u64,
    ) -> Result<(), Broken>
        requires ready { IsReady net.now bounds self.old }
        requires within { unit < length net.now.units }
        requires kind { kind_of net.now unit ≡ units.Op1 op }
        requires pins { pins ≡ pins_of unit net.now.chans }
        ensures { IsTurnMade net.now bounds now unit 0 1 self.old self.new result }
    {
        if self.has_gone(net, unit) {
            return self.wait(net, bounds, unit, now);
        }
        let plan = self.state.plan_op1_at(net, unit, op, pins);
        self.go(net, bounds, unit, pins, plan, now, true)
    }

    /// Tries the place of an operation on two patterns.
    ///
    /// # Errors
    ///
    /// As [`Engine::fire`].
    #[inline(never)]
    fn go_op2(
        &mut self,
        net: &Checked,
        bounds: Bounds,
        unit: u32,
        op: Op2,
        pins: Pins,
        now: u64,
    ) -> Result<(), Broken>
        requires ready { IsReady net.now bounds self.old }
        requires within { unit < length net.now.units }
        requires kind { kind_of net.now unit ≡ units.Op2 op }
        requires pins { pins ≡ pins_of unit net.now.chans }
        ensures { IsTurnMade net.now bounds now unit 0 1 self.old self.new result }
    {
        if self.has_gone(net, unit) {
            return self.wait(net, bounds, unit, now);
        }
        let plan = self.state.plan_op2_at(net, unit, op, pins);
        self.go(net, bounds, unit, pins, plan, now, true)
    }

    /// Tries the place of a select.
    ///
    /// # Errors
    ///
    /// As [`Engine::fire`].
    #[inline(never)]
    fn go_select(
        &mut self,
        net: &Checked,
        bounds: Bounds,
        unit: u32,
        pins: Pins,
        now: u64,
    ) -> Result<(), Broken>
        requires ready { IsReady net.now bounds self.old }
        requires within { unit < length net.now.units }
        requires kind { IsSelect (kind_of net.now unit) }
        requires pins { pins ≡ pins_of unit net.now.chans }
        ensures { IsTurnMade net.now bounds now unit 0 1 self.old self.new result }
    {
        if self.has_gone(net, unit) {
            return self.wait(net, bounds, unit, now);
        }
        let plan = self.state.plan_select_at(net, unit, pins);
        self.go(net, bounds, unit, pins, plan, now, true)
    }

    /// Tries the place of a mux.
    ///
    /// # Errors
    ///
    /// As [`Engine::fire`].
    #[inline(never)]
    fn go_mux(
        &mut self,
        net: &Checked,
        bounds: Bounds,
        unit: u32,
        ins: u32,
        pins: Pins,
        now: u64,
    ) -> Result<(), Broken>
        requires ready { IsReady net.now bounds self.old }
        requires within { unit < length net.now.units }
        requires kind { IsMuxOf ins (kind_of net.now unit) }
        requires pins { pins ≡ pins_of unit net.now.chans }
        ensures { IsTurnMade net.now bounds now unit 0 1 self.old self.new result }
    {
        if self.has_gone(net, unit) {
            return self.wait(net, bounds, unit, now);
        }
        let plan = self.state.plan_mux_at(net, unit, ins, pins);
        self.go(net, bounds, unit, pins, plan, now, true)
    }

    /// Tries the place of a branch.
    ///
    /// # Errors
    ///
    /// As [`Engine::fire`].
    #[inline(never)]
    fn go_branch(
        &mut self,
        net: &Checked,
        bounds: Bounds,
        unit: u32,
        pins: Pins,
        now: u64,
    ) -> Result<(), Broken>
        requires ready { IsReady net.now bounds self.old }
        requires within { unit < length net.now.units }
        requires kind { IsBranch (kind_of net.now unit) }
        requires pins { pins ≡ pins_of unit net.now.chans }
        ensures { IsTurnMade net.now bounds now unit 0 1 self.old self.new result }
    {
        if self.has_gone(net, unit) {
            return self.wait(net, bounds, unit, now);
        }
        let plan = self.state.plan_branch_at(net, unit, pins);
        self.go(net, bounds, unit, pins, plan, now, true)
    }

    /// Tries the place of a sink.
    ///
    /// # Errors
    ///
    /// As [`Engine::fire`].
    #[inline(never)]
    fn go_sink(
        &mut self,
        net: &Checked,
        bounds: Bounds,
        unit: u32,
        pins: Pins,
        now: u64,
    ) -> Result<(), Broken>
        requires ready { IsReady net.now bounds self.old }
        requires within { unit < length net.now.units }
        requires kind { IsSink (kind_of net.now unit) }
        requires pins { pins ≡ pins_of unit net.now.chans }
        ensures { IsTurnMade net.now bounds now unit 0 1 self.old self.new result }
    {
        if self.has_gone(net, unit) {
            return self.wait(net, bounds, unit, now);
        }
        let plan = self.state.plan_sink_at(net, unit, pins);
        self.go(net, bounds, unit, pins, plan, now, true)
    }

    /// Tries the place of a read.
    ///
    /// # Errors
    ///
    /// As [`Engine::fire`].
    #[inline(never)]
    fn go_read(
        &mut self,
        net: &Checked,
        bounds: Bounds,
        unit: u32,
        array: u32,
        pins: Pins,
        now: u64,
    ) -> Result<(), Broken>
        requires ready { IsReady net.now bounds self.old }
        requires within { unit < length net.now.units }
        requires kind { kind_of net.now unit ≡ units.Read array }
        requires pins { pins ≡ pins_of unit net.now.chans }
        ensures { IsTurnMade net.now bounds now unit 0 1 self.old self.new result }
    {
        if self.has_gone(net, unit) {
            return self.wait(net, bounds, unit, now);
        }
        let plan = self.state.plan_read_at(net, unit, array, pins);
        self.go(net, bounds, unit, pins, plan, now, true)
    }

    /// Tries the place of a unit that fires once in a run: an entry, a parameter or the exit.
    ///
    /// # Errors
    ///
    /// As [`Engine::fire`].
    #[inline(never)]
    fn go_once(
        &mut self,
        net: &Checked,
        bounds: Bounds,
        unit: u32,
        kind: &Unit,
        pins: Pins,
        now: u64,
    ) -> Result<(), Broken>
        requires ready { IsReady net.now bounds self.old }
        requires within { unit < length net.now.units }
        requires kind { kind.now ≡ kind_of net.now unit }
        requires goes { goes kind.now ≡ true }
        requires pins { pins ≡ pins_of unit net.now.chans }
        ensures { IsTurnMade net.now bounds now unit 0 1 self.old self.new result }
    {
        if self.has_gone(net, unit) {
            return self.wait(net, bounds, unit, now);
        }
        let plan = self.state.plan_go_at(net, unit, kind, pins);
        self.go(net, bounds, unit, pins, plan, now, false)
    }

    /// Tries the places of a unit whose mark was taken; a queue is marked again, and put off.
    ///
    /// # Errors
    ///
    /// As [`Engine::attempt`].
    #[inline(always)]
    pub(crate) fn run_unit(
        &mut self,
        net: &Checked,
        bounds: Bounds,
        unit: u32,
        kind: &Unit,
        now: u64,
    ) -> Result<(), Broken>
        requires ready { IsReady net.now bounds self.old }
        requires within { unit < length net.now.units }
        requires kind { kind.now ≡ kind_of net.now unit }
        ensures ready { OnOk result (IsReady net.now bounds self.new) }
        ensures less { OnOk result (to_visit bounds self.new ≤ to_visit bounds self.old) }
        ensures tried { (past : Past) (start : Dated)
            → IsOpenTurn net.now past bounds now start self.old unit
            → MatchResult result
            (λ _. IsBegunIn net.now past bounds now start self.new)
            (IsBroken net.now past.inputs bounds) }
    {
        let pins = net.pins(unit);
        match kind {
            Unit::Const { value, .. } => self.go_const(net, bounds, unit, *value, pins, now),
            Unit::Op1(op) => self.go_op1(net, bounds, unit, *op, pins, now),
            Unit::Op2(op) => self.go_op2(net, bounds, unit, *op, pins, now),
            Unit::Select { .. } => self.go_select(net, bounds, unit, pins, now),
            Unit::Mux { ins, .. } => self.go_mux(net, bounds, unit, *ins, pins, now),
            Unit::Branch { .. } => self.go_branch(net, bounds, unit, pins, now),
            Unit::Sink { .. } => self.go_sink(net, bounds, unit, pins, now),
            Unit::Read(array) => self.go_read(net, bounds, unit, *array, pins, now),
            Unit::Entry => self.go_once(net, bounds, unit, kind, pins, now),
            Unit::Param(_) => self.go_once(net, bounds, unit, kind, pins, now),
            Unit::Exit => self.go_once(net, bounds, unit, kind, pins, now),
            Unit::Fork { outs, .. } => { self.sends(net, bounds, unit, *outs, pins, now) }
            Unit::Cmerge { ins } => self.froms(net, bounds, unit, *ins, pins, now),
            Unit::Lsq { .. } => {
                self.marks.put_off(unit)?;
                Ok(())
            }
        }
    }
}
