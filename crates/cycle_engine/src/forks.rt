//! Turns of forks and control merges, with the channels at their first places looked up once.

ghost use Rattle.std.specs.Prelude.{◌≡◌, ◌≢◌, ◌+◌, ◌<◌, ◌≤◌, ℕ, [], true, false, IfOk, IfSome, IsTrue, ◌↔◌, OnOk, MatchOption, MatchResult, get_or, length};
ghost use Rattle.net_types.specs.declared.firing.Act.TheVariants as acts;
ghost use Rattle.net_types.specs.declared.net.Unit.TheVariants as units;
ghost use Rattle.net_types.specs.Nets.{kind_of, into, out_of, firing};
ghost use Rattle.net_check.specs.Pins.{pins_of};
ghost use Rattle.net_core.specs.Plans.{IsForkOf, chans_of};
ghost use Rattle.net_core.specs.States.{IsOf, dates_of, state_of};
ghost use Rattle.net_core.specs.Uses.{is_fork};
ghost use Rattle.cycle_engine.specs.Cycles.{Dated, May};
ghost use Rattle.cycle_engine.specs.declared.engine.Engine.{Engine as EngineValue};
ghost use Rattle.cycle_engine.specs.declared.marks.Marks.{Marks as MarksValue};
ghost use Rattle.cycle_engine.specs.private.Trials.{dated_of, RipeAt, IsBegun, IsEngine, IsPlanned};
ghost use Rattle.cycle_engine.specs.private.Goings.{Past, IsReady, IsBroken, to_visit, with_marks};
ghost use Rattle.cycle_engine.specs.private.Pending.{IsForgotten, IsHeldBack, IsOpened};
ghost use Rattle.cycle_engine.specs.private.Marking.{Holds, IsMarked, IsMergeMarked, IsStarved, KeepsMarks};
ghost use Rattle.cycle_engine.specs.private.Places.{AreLeft, HasSentOrTold, IsSent, IsTurn, IsTurnMade, moves_to};

use crate::broken::Broken;
use crate::control::input_of;
use crate::dates::is_ripe;
use crate::engine::{Bounds, Engine};
use crate::freed::is_long_full;
use crate::pending::Pending;
use crate::stack::Stack;
use crate::trial::Planned;
use net_check::{Checked, Pins};
use net_core::{Laid, Moves, Plan, State, Taken, Takes};
use net_types::{Act, Firing, Memory};

/// So many outputs of a fork are tried one by one: to note which are pending would cost more.
const FEW_OUTS: u32 = 8;

/// Whether it pays to note which outputs of a fork are pending: of many outputs few have fired, with so many firings before.
#[inline(always)]
fn is_slow(outs: u32, before: usize, fired: &Stack<Firing>) -> bool
    ensures { result ≡ true → 0 < outs }
{
    outs > FEW_OUTS && fired.len().saturating_sub(before) < (outs / FEW_OUTS) as usize
}

/// Whether the head of a channel may be used in the cycle `now`; of no channel past those of the net.
#[inline(always)]
fn has_ripe_head(state: &State, net: &Checked, chan: u32, now: u64) -> bool
    requires of { IsOf net.now state.now }
    requires dated { length (dates_of state.now) ≡ length net.now.chans }
    ensures { IsTrue result ↔ RipeAt net.now now (dates_of state.now) chan }
{
    (chan as usize) < net.net().chans.as_slice().len() && is_ripe(state, net, chan, now)
}

/// The tokens that a firing of a fork moves, by its plan, its input and the channel at the output.
#[inline(always)]
fn moves_to(pins: Pins, chan: u32, plan: &Plan) -> Moves
    ensures { result ≡ moves_to pins.first chan plan.now }
{
    let taken = match plan.takes {
        Takes::None => Taken::None,
        _ => Taken::One(pins.first),
    };
    let laid = match plan.put {
        None => None,
        Some(put) => Some(Laid {
            chan,
            value: put.value,
        }),
    };
    Moves { taken, laid }
}

/// The tokens that a firing of a control merge moves, by its plan and the channel into its input.
#[inline(always)]
fn moves_from(pins: Pins, chan: u32, plan: &Plan) -> Moves
    ensures { result ≡ moves_to chan pins.out plan.now }
{
    let from = Pins {
        first: chan,
        ..pins
    };
    moves_to(from, pins.out, plan)
}

/// Whether tokens are taken from channels.
#[inline(always)]
fn takes(taken: Taken) -> bool
    ensures { IsTrue result ↔ chans_of taken ≢ [] }
{
    match taken {
        Taken::None => false,
        Taken::One(_) => true,
        Taken::Two(_, _) => true,
        Taken::Three(_, _, _) => true,
    }
}

/// Forgets which outputs of a fork are pending, where its sending takes the head.
#[inline(always)]
fn forget_taken(pending: &mut Pending, net: &Checked, unit: u32, taken: Taken)
    requires { unit < length pending.old.noted.items }
    ensures opened { IsOpened pending.old pending.new }
    ensures forgotten { IsForgotten net.now pending.new unit taken }
    ensures same { chans_of taken ≡ [] → pending.new ≡ pending.old }
{
    let _ = net;
    if takes(taken) {
        pending.forget(unit);
    }
}

impl Engine {
    /// What the sending of a fork to an output does that may be made in the cycle, where the head of the fork is ripe; `None` where it
    /// may not.
    #[inline(always)]
    fn may_send(
        &self,
        net: &Checked,
        unit: u32,
        outs: u32,
        out: u32,
        pins: Pins,
        chan: u32,
        now: u64,
    ) -> Option<Planned>
        requires engine { IsEngine net.now self.now }
        requires long { length self.now.freed.marked.items ≡ length net.now.chans }
        requires within { unit < length net.now.units }
        requires fork { IsForkOf outs (kind_of net.now unit) }
        requires pins { pins ≡ pins_of unit net.now.chans }
        requires there { chan ≡ out_of unit out net.now.chans }
        requires ripe { RipeAt net.now now (dates_of self.now.state) pins.first }
        ensures planned { IfSome result
            (IsPlanned net.now self.now (firing unit (acts.Send out))) }
        ensures may { (start : Dated) → IsBegun net.now now start self.now → MatchOption result
            (May net.now now start (dated_of self.now) (firing unit (acts.Send out)) → ⊥)
            (λ p. May net.now now start (dated_of self.now) (firing unit (acts.Send out))) }
    {
        let _ = now;
        let plan = self.state.plan_send_at(net, unit, outs, out, pins)?;
        let planned = Planned {
            plan,
            moves: moves_to(pins, chan, &plan),
        };
        if self.has_room(net, planned.moves.laid) {
            Some(planned)
        } else {
            None
        }
    }

    /// Tries the sending of a fork, whose head is ripe, to an output, and tells whether it took the head: then no place of the fork is
    /// left to be tried, and it is marked where it has another head. Where the output has fired in the cycle, the fork is to be looked
    /// at again in the next. `base` is the number before those of its outputs.
    ///
    /// # Errors
    ///
    /// As [`Engine::fire`].
    #[inline(always)]
    fn send(
        &mut self,
        net: &Checked,
        bounds: Bounds,
        unit: u32,
        outs: u32,
        out: u32,
        base: u64,
        pins: Pins,
        chan: u32,
        now: u64,
    ) -> Result<bool, Broken>
        requires ready { IsReady net.now bounds self.old }
        requires within { unit < length net.now.units }
        requires fork { IsForkOf outs (kind_of net.now unit) }
        requires out { out < outs }
        requires base { base ≡ get_or self.old.used.base.items unit 0 }
        requires pins { pins ≡ pins_of unit net.now.chans }
        requires there { chan ≡ out_of unit out net.now.chans }
        requires ripe { RipeAt net.now now (dates_of self.old.state) pins.first }
        ensures ready { OnOk result (IsReady net.now bounds self.new) }
        ensures less { OnOk result (to_visit bounds self.new ≤ to_visit bounds self.old) }
        ensures base { OnOk result (self.new.used.base ≡ self.old.used.base) }
        ensures kept { IfOk result (λ took. took ≡ false
            → RipeAt net.now now (dates_of self.new.state) pins.first) }
        ensures pending { IfOk result (λ took. took ≡ false
            → self.new.pending ≡ self.old.pending) }
        ensures again { OnOk result (Holds unit self.old.again.items
            → Holds unit self.new.again.items) }
        ensures told { IfOk result (λ took. took ≡ false → (first : EngineValue)
            → HasSentOrTold net.now first self.old unit out
            → HasSentOrTold net.now first self.new unit (out + 1)) }
        ensures tried { (past : Past) (start : Dated) (marks : MarksValue)
            → IsTurn net.now past bounds now start marks self.old unit 2 out
            → MatchResult result
            (IsSent net.now past bounds now start marks self.new unit out)
            (IsBroken net.now past.inputs bounds) }
    {
        let _ = net.net();
        let firing = Firing {
            unit,
            act: Act::Send(out),
        };
        let at = base + 1 + u64::from(out);
        if self.is_used(net, firing, at) {
            self.again.push(unit)?;
            return Ok(false);
        }
        let Some(planned) = self.may_send(net, unit, outs, out, pins, chan, now) else {
            return Ok(false);
        };
        let taken = planned.moves.taken;
        let full = takes(taken) && self.state.is_full(net, pins.first);
        forget_taken(&mut self.pending, net, unit, taken);
        self.fire(net, bounds, firing, at, planned, now, true)?;
        if takes(taken) {
            self.rouse_fork(net, unit, pins, full)?;
        }
        Ok(takes(taken))
    }

    /// Marks a fork that took its head, where it has another, and the control merge that feeds it, where its channel was full.
    ///
    /// # Errors
    ///
    /// [`Memory`] where memory is wanting.
    #[inline(always)]
    fn rouse_fork(&mut self, net: &Checked, unit: u32, pins: Pins, full: bool) -> Result<(), Memory>
        requires of { IsOf net.now self.old.state }
        requires fork { is_fork (kind_of net.now unit) ≡ true }
        requires pins { pins ≡ pins_of unit net.now.chans }
        ensures rest { OnOk result (self.new ≡ with_marks self.old self.new.marks) }
        ensures kept { OnOk result (KeepsMarks self.old.marks self.new.marks) }
        ensures own { OnOk result ((IsStarved net.now (state_of self.old.state) unit → ⊥)
            → unit < length self.old.marks.marked.items → IsMarked self.new.marks unit) }
        ensures merge { OnOk result (full ≡ true → IsMergeMarked net.now
            (length self.old.marks.marked.items) self.new.marks pins.first) }
        ensures few { OnOk result
            (length self.new.marks.list.items ≤ length self.old.marks.list.items + 2) }
    {
        if self.state.head(net, pins.first).is_some() {
            self.marks.mark(unit)?;
        }
        if full {
            self.marks.mark_merge(net, pins.first)?;
        }
        Ok(())
    }

    /// Tries the sendings of a fork with a ripe head. Where the head stays, and an output has fired, it is looked at again in the next.
    ///
    /// # Errors
    ///
    /// As [`Engine::fire`].
    pub(crate) fn sends(
        &mut self,
        net: &Checked,
        bounds: Bounds,
        unit: u32,
        outs: u32,
        pins: Pins,
        now: u64,
    ) -> Result<(), Broken>
        requires ready { IsReady net.now bounds self.old }
        requires within { unit < length net.now.units }
        requires fork { IsForkOf outs (kind_of net.now unit) }
        requires pins { pins ≡ pins_of unit net.now.chans }
        ensures { IsTurnMade net.now bounds now unit 2 3 self.old self.new result }
    {
        let _ = net.net();
        if !has_ripe_head(&self.state, net, pins.first, now) {
            return Ok(());
        }
        if outs > FEW_OUTS && self.pending.is_noted(unit) {
            return self.sends_pending(net, bounds, unit, outs, pins, now);
        }
        let before = self.fired.len();
        let base = self.used.base(unit);
        let chans = net.outs_of(unit);
        for out in 0..outs {
            let chan = chans[out as usize];
            if self.send(net, bounds, unit, outs, out, base, pins, chan, now)? {
                return Ok(());
            }
        }
        if is_slow(outs, before, &self.fired) {
            return self.note_pending(net, bounds, unit, outs, pins, now);
        }
        if self.fired.len() > before {
            self.again.push(unit)?;
        }
        Ok(())
    }

    /// Whether an output of a fork with a ripe head is not pending: the head was sent there, or the channel was full as the
    /// cycle began.
    #[inline(always)]
    fn is_shut(
        &self,
        net: &Checked,
        unit: u32,
        outs: u32,
        out: u32,
        pins: Pins,
        chan: u32,
        now: u64,
    ) -> bool
        requires engine { IsEngine net.now self.now }
        requires long { length self.now.freed.marked.items ≡ length net.now.chans }
        requires within { unit < length net.now.units }
        requires fork { IsForkOf outs (kind_of net.now unit) }
        requires out { out < outs }
        requires pins { pins ≡ pins_of unit net.now.chans }
        requires there { chan ≡ out_of unit out net.now.chans }
        requires chan { chan < length net.now.chans }
        requires ripe { RipeAt net.now now (dates_of self.now.state) pins.first }
        ensures { result ≡ true → (start : Dated) → IsBegun net.now now start self.now
            → IsHeldBack net.now start.state (state_of self.now.state) unit out }
    {
        if self.freed.is_marked(chan) || is_long_full(&self.state, net, chan, now) {
            return true;
        }
        self.state
            .plan_send_at(net, unit, outs, out, pins)
            .is_none()
    }

    /// Notes which outputs of a fork with a ripe head are pending, all of which were tried; it is looked at again in the next cycle.
    ///
    /// # Errors
    ///
    /// [`Memory`] where memory is wanting.
    #[inline(never)]
    fn note_pending(
        &mut self,
        net: &Checked,
        bounds: Bounds,
        unit: u32,
        outs: u32,
        pins: Pins,
        now: u64,
    ) -> Result<(), Broken>
        requires ready { IsReady net.now bounds self.old }
        requires within { unit < length net.now.units }
        requires fork { IsForkOf outs (kind_of net.now unit) }
        requires pins { pins ≡ pins_of unit net.now.chans }
        requires ripe { RipeAt net.now now (dates_of self.old.state) pins.first }
        requires some { 0 < outs }
        ensures { IsTurnMade net.now bounds now unit 3 3 self.old self.new result }
    {
        let _ = bounds;
        let _ = net.net();
        let first = self.used.base(unit) + 1;
        let chans = net.outs_of(unit);
        for out in 0..outs {
            let chan = chans[out as usize];
            let shut = self.is_shut(net, unit, outs, out, pins, chan, now);
            self.pending.set(first + u64::from(out), !shut);
        }
        self.pending.note(unit);
        self.again.push(unit)?;
        Ok(())
    }

    /// Tries the sendings of a fork with a ripe head to the outputs that are noted as pending.
    ///
    /// # Errors
    ///
    /// As [`Engine::fire`].
    #[inline(never)]
    fn sends_pending(
        &mut self,
        net: &Checked,
        bounds: Bounds,
        unit: u32,
        outs: u32,
        pins: Pins,
        now: u64,
    ) -> Result<(), Broken>
        requires ready { IsReady net.now bounds self.old }
        requires within { unit < length net.now.units }
        requires fork { IsForkOf outs (kind_of net.now unit) }
        requires pins { pins ≡ pins_of unit net.now.chans }
        requires ripe { RipeAt net.now now (dates_of self.old.state) pins.first }
        requires noted { get_or self.old.pending.noted.items unit false ≡ true }
        requires some { 0 < outs }
        ensures { IsTurnMade net.now bounds now unit 2 3 self.old self.new result }
    {
        let _ = net.net();
        let base = self.used.base(unit);
        let chans = net.outs_of(unit);
        let mut out = self.pending.next(base + 1, 0, outs);
        while out < outs {
            let chan = chans[out as usize];
            if self.send(net, bounds, unit, outs, out, base, pins, chan, now)? {
                return Ok(());
            }
            self.leave(net, bounds, unit, outs, out, base, pins, chan, now)?;
            out = self.pending.next(base + 1, out + 1, outs);
        }
        Ok(())
    }

    /// Notes that an output of a fork with a ripe head is not pending any more; where it is, the fork is to be looked at again in
    /// the next cycle.
    ///
    /// # Errors
    ///
    /// [`Memory`] where memory is wanting.
    #[inline(always)]
    fn leave(
        &mut self,
        net: &Checked,
        bounds: Bounds,
        unit: u32,
        outs: u32,
        out: u32,
        base: u64,
        pins: Pins,
        chan: u32,
        now: u64,
    ) -> Result<(), Memory>
        requires ready { IsReady net.now bounds self.old }
        requires within { unit < length net.now.units }
        requires fork { IsForkOf outs (kind_of net.now unit) }
        requires out { out < outs }
        requires base { base ≡ get_or self.old.used.base.items unit 0 }
        requires pins { pins ≡ pins_of unit net.now.chans }
        requires there { chan ≡ out_of unit out net.now.chans }
        requires chan { chan < length net.now.chans }
        requires ripe { RipeAt net.now now (dates_of self.old.state) pins.first }
        requires noted { get_or self.old.pending.noted.items unit false ≡ true }
        ensures ready { OnOk result (IsReady net.now bounds self.new) }
        ensures less { OnOk result (to_visit bounds self.new ≤ to_visit bounds self.old) }
        ensures base { OnOk result (self.new.used.base ≡ self.old.used.base) }
        ensures ripe { OnOk result (RipeAt net.now now (dates_of self.new.state) pins.first) }
        ensures noted { OnOk result (self.new.pending.noted ≡ self.old.pending.noted) }
        ensures left { OnOk result (AreLeft self.old unit out
            → AreLeft self.new unit (out + 1)) }
        ensures tried { OnOk result ((past : Past) (start : Dated) (marks : MarksValue) (n : ℕ)
            → IsTurn net.now past bounds now start marks self.old unit 2 n
            → IsTurn net.now past bounds now start marks self.new unit 2 n) }
    {
        let _ = bounds;
        let _ = net.net();
        if self.is_shut(net, unit, outs, out, pins, chan, now) {
            self.pending.set(base + 1 + u64::from(out), false);
        } else {
            self.again.push(unit)?;
        }
        Ok(())
    }

    /// What a control merge does that takes from its input, into which the channel that is noted for control goes, and may fire in the
    /// cycle; `None` where it may not.
    #[inline(always)]
    fn may_from(
        &self,
        net: &Checked,
        unit: u32,
        ins: u32,
        input: u32,
        pins: Pins,
        now: u64,
    ) -> Option<Planned>
        requires engine { IsEngine net.now self.now }
        requires long { length self.now.freed.marked.items ≡ length net.now.chans }
        requires within { unit < length net.now.units }
        requires kind { kind_of net.now unit ≡ units.Cmerge ins }
        requires input { input < ins }
        requires into { self.now.control ≡ into unit input net.now.chans }
        requires pins { pins ≡ pins_of unit net.now.chans }
        ensures planned { IfSome result
            (IsPlanned net.now self.now (firing unit (acts.From input))) }
        ensures may { (start : Dated) → IsBegun net.now now start self.now → MatchOption result
            (May net.now now start (dated_of self.now) (firing unit (acts.From input)) → ⊥)
            (λ p. May net.now now start (dated_of self.now) (firing unit (acts.From input))) }
    {
        let chan = self.control;
        let plan = self.state.plan_from_at(net, unit, ins, input, chan)?;
        let planned = Planned {
            plan,
            moves: moves_from(pins, chan, &plan),
        };
        let firing = Firing {
            unit,
            act: Act::From(input),
        };
        if self.allows(net, firing, &planned, now) {
            Some(planned)
        } else {
            None
        }
    }

    /// Tries the place of a control merge into which the channel that is noted for control goes, where that has a ripe token. Where the
    /// merge did not fire, or another control token is there, it is to be looked at again in the next cycle.
    ///
    /// # Errors
    ///
    /// As [`Engine::fire`].
    pub(crate) fn froms(
        &mut self,
        net: &Checked,
        bounds: Bounds,
        unit: u32,
        ins: u32,
        pins: Pins,
        now: u64,
    ) -> Result<(), Broken>
        requires ready { IsReady net.now bounds self.old }
        requires within { unit < length net.now.units }
        requires kind { kind_of net.now unit ≡ units.Cmerge ins }
        requires pins { pins ≡ pins_of unit net.now.chans }
        ensures { IsTurnMade net.now bounds now unit 1 2 self.old self.new result }
    {
        let _ = net.net();
        let chan = self.control;
        let Some(input) = input_of(net, chan, unit, ins) else {
            return Ok(());
        };
        if !has_ripe_head(&self.state, net, chan, now) {
            return Ok(());
        }
        if self.fires_from(net, bounds, unit, ins, input, pins, now)?
            && self.state.head(net, self.control).is_none()
        {
            return Ok(());
        }
        self.again.push(unit)?;
        Ok(())
    }

    /// Tries the place of a control merge into which the channel that is noted for control goes, and tells whether it fired.
    ///
    /// # Errors
    ///
    /// As [`Engine::fire`].
    #[inline(always)]
    fn fires_from(
        &mut self,
        net: &Checked,
        bounds: Bounds,
        unit: u32,
        ins: u32,
        input: u32,
        pins: Pins,
        now: u64,
    ) -> Result<bool, Broken>
        requires ready { IsReady net.now bounds self.old }
        requires within { unit < length net.now.units }
        requires kind { kind_of net.now unit ≡ units.Cmerge ins }
        requires input { input < ins }
        requires into { self.old.control ≡ into unit input net.now.chans }
        requires pins { pins ≡ pins_of unit net.now.chans }
        ensures ready { OnOk result (IsReady net.now bounds self.new) }
        ensures less { OnOk result (to_visit bounds self.new ≤ to_visit bounds self.old) }
        ensures tried { (past : Past) (start : Dated) (marks : MarksValue)
            → IsTurn net.now past bounds now start marks self.old unit 1 0
            → MatchResult result
            (λ did. IsTurn net.now past bounds now start marks self.new unit 2 0)
            (IsBroken net.now past.inputs bounds) }
    {
        let _ = net.net();
        let firing = Firing {
            unit,
            act: Act::From(input),
        };
        let at = self.used.number(firing);
        if self.is_used(net, firing, at) {
            return Ok(false);
        }
        let Some(planned) = self.may_from(net, unit, ins, input, pins, now) else {
            return Ok(false);
        };
        self.fire(net, bounds, firing, at, planned, now, true)?;
        Ok(true)
    }
}
