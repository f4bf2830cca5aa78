//! One firing is tried.

ghost use Rattle.std.specs.Prelude.{◌≡◌, ◌↔◌, ◌+◌, ◌<◌, ◌≤◌, ◌^◌, ◌∷◌, ◌++◌, [], Some, true, false, IsTrue, IfSome, IfOk, OnOk, MatchOption, length, get_or};
ghost use Rattle.el_base.specs.Limits.{max_depth};
ghost use Rattle.net_types.specs.Nets.{kind_of};
ghost use Rattle.net_types.specs.declared.firing.Act.TheVariants as acts;
ghost use Rattle.net_core.specs.Plans.{apart, admits, chans_of, moves_of};
ghost use Rattle.net_core.specs.States.{IsOf, IsPlanOf, CountsWithin, CountsRise, cell_at, state_of};
ghost use Rattle.net_replay.specs.Finishes.{IsLogged};
ghost use Rattle.cycle_engine.specs.Cycles.{Dated, May, IsUnused, after_in};
ghost use Rattle.cycle_engine.specs.private.Trials.{dated_of, HadRoom, IsPlanned, HasRoomNow, HadDepth, Allowed, IsBegun, IsEngine};
ghost use Rattle.net_core.specs.Uses.{is_fork};
ghost use Rattle.cycle_engine.specs.private.Goings.{Past, IsReady, InCycle, MayFollow, IsMade, IsTried, IsBroken, IsGrown, IsMore, all_made};
ghost use Rattle.cycle_engine.specs.private.Marking.{AreCells, AreFeeds, IsFreed, IsMarkedWhere, IsNoted};
ghost use Rattle.cycle_engine.specs.private.Control.{control_after};
ghost use Rattle.cycle_engine.specs.private.Fed.{HasFed, IsFedBy};
ghost use Rattle.cycle_engine.specs.private.Pending.{IsForgotten};
ghost use Rattle.cycle_engine.specs.private.Used.{AreNumbered, AreTold, HasPlace, IsStamped, place_number};
ghost use Rattle.std.specs.Prelude.{MatchResult};

use crate::broken::Broken;
use crate::control::note_put;
use crate::dates::{are_ripe, delay_of};
use crate::engine::{Bounds, Engine};
use crate::feeds::Feeds;
use crate::marks::Marks;
use crate::notes::Notes;
use el_base::Log;
use net_check::Checked;
use net_core::{Laid, Moves, Plan, State, moves_of};
use net_types::{Act, Firing, List, Memory, Unit};

/// What a firing does, and the tokens that it moves.
#[derive(Clone, Copy)]
pub(crate) struct Planned {
    pub plan: Plan,
    pub moves: Moves,
}

/// How many entries were noted of a queue, 0 past them.
#[inline(always)]
fn noted(entries: &[u32], at: u32) -> u32
    ensures { result ≡ get_or entries.now at 0 }
{
    if (at as usize) < entries.len() {
        entries[at as usize]
    } else {
        0
    }
}

/// How many entries a group has, 0 past the groups.
fn group_size(groups: &[List<u32>], group: u32) -> u64
    ensures size { result ≡ length (get_or groups.now group []) }
    ensures small { result < 2 ^ 63 }
{
    if (group as usize) < groups.len() {
        groups[group as usize].as_slice().len() as u64
    } else {
        0
    }
}

/// Whether a queue had free depth for the entries of a group, where the firing allocates one.
#[inline(always)]
fn had_depth(begun: &[u32], net: &Checked, firing: Firing) -> bool
    ensures { IsTrue result ↔ HadDepth (kind_of net.now firing.unit)
        (get_or begun.now firing.unit 0) firing.act }
{
    match firing.act {
        Act::Alloc(group) => had_room_for(begun, net, firing.unit, group),
        Act::Go => true,
        Act::From(_) => true,
        Act::Send(_) => true,
        Act::Addr(_) => true,
        Act::Data(_) => true,
        Act::Exec(_) => true,
        Act::Reply(_) => true,
        Act::Retire => true,
        Act::End => true,
    }
}

/// Whether a queue had free depth for the entries of a group. It stands apart so that what allocates none stays small.
#[inline(never)]
fn had_room_for(begun: &[u32], net: &Checked, unit: u32, group: u32) -> bool
    ensures { IsTrue result ↔ HadDepth (kind_of net.now unit)
        (get_or begun.now unit 0) (acts.Alloc group) }
{
    let units = net.net().units.as_slice();
    if unit as usize >= units.len() {
        return true;
    }
    match &units[unit as usize] {
        Unit::Lsq { depth, groups, .. } => {
            noted(begun, unit) as u64 + group_size(groups.as_slice(), group) <= *depth as u64
        }
        _ => true,
    }
}

/// Adds a firing to the log where it is kept.
#[inline(always)]
fn note(log: &mut Log<Firing>, keep: bool, firing: Firing)
    requires { keep ≡ true → 0 < log.old.room }
    ensures { IsLogged keep (firing ∷ []) log.old log.new }
{
    if keep {
        log.add(firing);
    }
}

/// Notes when a token ripens that was put in the cycle `now`, or marks the unit into which it was put without delay, where `rouses`
/// is true.
///
/// # Errors
///
/// [`Memory`] where memory is wanting.
#[inline(always)]
fn tell(
    marks: &mut Marks,
    notes: &mut Notes,
    feeds: &Feeds,
    net: &Checked,
    state: &State,
    laid: Option<Laid>,
    now: u64,
    rouses: bool,
) -> Result<(), Memory>
    requires of { IsOf net.now state.now }
    requires feeds { AreFeeds net.now feeds.now }
    requires cells { AreCells notes.old }
    requires long { length marks.old.marked.items ≡ length net.now.units }
    requires within { IfSome laid (λ w. w.chan < length net.now.chans) }
    ensures notes { OnOk result (IsNoted net.now laid now notes.old notes.new) }
    ensures marks { OnOk result
        (IsMarkedWhere rouses net.now (state_of state.now) laid marks.old marks.new) }
    ensures few { OnOk result
        (length marks.new.list.items ≤ length marks.old.list.items + 1) }
{
    let Some(laid) = laid else {
        return Ok(());
    };
    if delay_of(net, laid.chan) > 0 {
        notes.note(net, Some(laid), now)?;
    } else if rouses {
        marks.mark_fed(net, feeds, state, laid.chan)?;
    }
    Ok(())
}

impl Engine {
    /// Whether the place of a firing, whose number is told, has fired in the cycle.
    #[inline(always)]
    pub(crate) fn is_used(&self, net: &Checked, firing: Firing, at: u64) -> bool
        requires told { AreTold net.now self.now.used self.now.made self.now.fired.items }
        requires numbers { AreNumbered net.now self.now.used.base.items
            (length self.now.used.last.items) }
        requires place { HasPlace net.now firing }
        requires at { at ≡ place_number self.now.used.base.items firing }
        ensures used { result ≡ true → IsUnused self.now.fired.items firing → ⊥ }
        ensures unused { result ≡ false → IsUnused self.now.fired.items firing }
    {
        let _ = net;
        let _ = firing;
        self.used.has_fired(at, self.made)
    }

    /// Whether there is room for the token that a firing puts, and was where the cycle began.
    #[inline(always)]
    pub(crate) fn has_room(&self, net: &Checked, laid: Option<Laid>) -> bool
        requires of { IsOf net.now self.now.state }
        requires long { length self.now.freed.marked.items ≡ length net.now.chans }
        ensures { IsTrue result
            ↔ HasRoomNow net.now self.now laid × HadRoom self.now.freed.marked.items laid }
    {
        match laid {
            None => true,
            Some(put) => {
                self.state.has_room_on(net, put.chan) && !self.freed.is_marked(put.chan)
            }
        }
    }

    /// Whether a planned firing of a unit that is no fork may be made in the cycle, where its queue had depth.
    #[inline(always)]
    pub(crate) fn allows(&self, net: &Checked, firing: Firing, planned: &Planned, now: u64) -> bool
        requires engine { IsEngine net.now self.now }
        requires long { length self.now.freed.marked.items ≡ length net.now.chans }
        requires straight { is_fork (kind_of net.now firing.unit) ≡ false }
        requires depth { HadDepth (kind_of net.now firing.unit)
            (get_or self.now.begun.items firing.unit 0) firing.act }
        requires effect { IsPlanOf net.now self.now.state firing (Some planned.now.plan) }
        requires moves { planned.now.moves ≡ moves_of net.now firing.unit planned.now.plan }
        ensures { IsTrue result ↔ Allowed net.now now self.now firing planned.now.plan }
    {
        let _ = firing;
        are_ripe(&self.state, net, planned.moves.taken, now)
            && self.has_room(net, planned.moves.laid)
    }

    /// What a firing of a unit that is no fork does that may be made in the cycle, by its plan; `None` where it may not.
    #[inline(always)]
    fn may(&self, net: &Checked, firing: Firing, plan: Option<Plan>, now: u64) -> Option<Planned>
        requires engine { IsEngine net.now self.now }
        requires long { length self.now.freed.marked.items ≡ length net.now.chans }
        requires straight { is_fork (kind_of net.now firing.unit) ≡ false }
        requires apart { IfSome plan (λ p. apart p.takes ≡ true) }
        requires admits { IfSome plan
            (λ p. admits (cell_at self.now.state firing.unit) p.change ≡ true) }
        requires effect { IsPlanOf net.now self.now.state firing plan }
        ensures planned { IfSome result (IsPlanned net.now self.now firing) }
        ensures may { (start : Dated) → IsBegun net.now now start self.now → MatchOption result
            (May net.now now start (dated_of self.now) firing → ⊥)
            (λ p. May net.now now start (dated_of self.now) firing) }
    {
        let plan = plan?;
        let planned = Planned {
            plan,
            moves: moves_of(net, firing.unit, &plan),
        };
        if had_depth(self.begun.as_slice(), net, firing)
            && self.allows(net, firing, &planned, now)
        {
            Some(planned)
        } else {
            None
        }
    }

    /// Makes a planned firing in the cycle, whose place has this number. Where `rouses` is true it marks the unit into which the
    /// firing puts without delay, unless the unit wants a token beside.
    ///
    /// # Errors
    ///
    /// [`Memory`] where memory is wanting.
    #[inline(always)]
    fn make(
        &mut self,
        net: &Checked,
        firing: Firing,
        at: u64,
        planned: Planned,
        keep: bool,
        now: u64,
        rouses: bool,
    ) -> Result<(), Memory>
        requires engine { IsEngine net.now self.old }
        requires planned { IsPlanned net.now self.old firing planned }
        requires counts { CountsWithin (2 ^ 62) (state_of self.old.state) }
        requires log { keep ≡ true → 0 < self.old.log.room }
        requires cells { AreCells self.old.notes }
        requires few { self.old.made + length self.old.fired.items < 2 ^ 63 }
        requires feeds { AreFeeds net.now self.old.feeds }
        requires long { length self.old.marks.marked.items ≡ length net.now.units }
        requires within { at < length self.old.used.last.items }
        requires fed { HasFed net.now (state_of self.old.state) self.old.used self.old.fed }
        ensures stamped { OnOk result (IsStamped at
            (self.old.made + length self.old.fired.items) self.old.used self.new.used) }
        ensures engine { OnOk result (IsEngine net.now self.new) }
        ensures after { OnOk result
            (dated_of self.new ≡ after_in net.now now (dated_of self.old) firing) }
        ensures counts { OnOk result
            (CountsRise max_depth (state_of self.old.state) (state_of self.new.state)) }
        ensures fired { OnOk result
            (self.new.fired.items ≡ self.old.fired.items ++ firing ∷ []) }
        ensures begun { OnOk result (self.new.begun ≡ self.old.begun) }
        ensures made { OnOk result (self.new.made ≡ self.old.made) }
        ensures again { OnOk result (self.new.again ≡ self.old.again) }
        ensures marks { OnOk result (IsMarkedWhere rouses net.now
            (state_of self.new.state) planned.moves.laid self.old.marks self.new.marks) }
        ensures list { OnOk result
            (length self.new.marks.list.items ≤ length self.old.marks.list.items + 1) }
        ensures feeds { OnOk result (self.new.feeds ≡ self.old.feeds) }
        ensures notes { OnOk result
            (IsNoted net.now planned.moves.laid now self.old.notes self.new.notes) }
        ensures freed { OnOk result (IsFreed net.now self.old.state now
            (chans_of planned.moves.taken) self.old.freed self.new.freed) }
        ensures pending { OnOk result (self.new.pending ≡ self.old.pending) }
        ensures control { OnOk result (self.new.control
            ≡ control_after net.now planned.moves.laid self.old.control) }
        ensures fed { OnOk result (IsFedBy net.now (state_of self.new.state)
            self.old.used.base.items firing at planned.moves.laid self.old.fed self.new.fed) }
        ensures log { OnOk result (IsLogged keep (firing ∷ []) self.old.log self.new.log) }
    {
        let moves = planned.moves;
        let count = self.made + self.fired.len() as u64;
        self.freed.note(&self.state, net, moves.taken, now)?;
        self.state.make_dated(net, firing, planned.plan, moves, now);
        self.used.stamp(at, count);
        self.fired.push(firing)?;
        self.fed.leave(net, &self.state, firing, at);
        note_put(
            &mut self.control,
            &mut self.fed,
            net,
            &self.used,
            moves.laid,
        );
        note(&mut self.log, keep, firing);
        tell(
            &mut self.marks,
            &mut self.notes,
            &self.feeds,
            net,
            &self.state,
            moves.laid,
            now,
            rouses,
        )
    }

    /// Makes a firing that may be made in the cycle, whose place has not fired and has this number. It marks as it is told.
    ///
    /// # Errors
    ///
    /// `Limit` where as many firings as the limit allows are made. `Memory` where memory is wanting.
    #[inline(always)]
    pub(crate) fn fire(
        &mut self,
        net: &Checked,
        bounds: Bounds,
        firing: Firing,
        at: u64,
        planned: Planned,
        now: u64,
        rouses: bool,
    ) -> Result<(), Broken>
        requires ready { IsReady net.now bounds self.old }
        requires planned { IsPlanned net.now self.old firing planned }
        requires may { (start : Dated) → IsBegun net.now now start self.old
            → May net.now now start (dated_of self.old) firing }
        requires unused { IsUnused self.old.fired.items firing }
        requires place { HasPlace net.now firing }
        requires at { at ≡ place_number self.old.used.base.items firing }
        requires pending { IsForgotten net.now self.old.pending firing.unit planned.moves.taken }
        ensures ready { OnOk result (IsReady net.now bounds self.new) }
        ensures more { OnOk result (all_made self.new ≡ all_made self.old + 1) }
        ensures after { OnOk result
            (dated_of self.new ≡ after_in net.now now (dated_of self.old) firing) }
        ensures fired { OnOk result
            (self.new.fired.items ≡ self.old.fired.items ++ firing ∷ []) }
        ensures base { OnOk result (self.new.used.base ≡ self.old.used.base) }
        ensures again { OnOk result (self.new.again ≡ self.old.again) }
        ensures pending { OnOk result (self.new.pending ≡ self.old.pending) }
        ensures marks { OnOk result (IsMarkedWhere rouses net.now
            (state_of self.new.state) planned.moves.laid self.old.marks self.new.marks) }
        ensures list { OnOk result
            (length self.new.marks.list.items ≤ length self.old.marks.list.items + 1) }
        ensures control { OnOk result (self.new.control
            ≡ control_after net.now planned.moves.laid self.old.control) }
        ensures tried { (past : Past) (start : Dated)
            → InCycle net.now past bounds now start self.old
            → MayFollow net.now self.old firing
            → MatchResult result
            (λ _. IsMade net.now past bounds now start self.old self.new firing)
            (IsBroken net.now past.inputs bounds) }
    {
        let _ = net.net();
        if self.made + self.fired.len() as u64 == bounds.limit {
            return Err(Broken::Limit);
        }
        self.make(net, firing, at, planned, bounds.keep, now, rouses)?;
        Ok(())
    }

    /// Makes a firing of a queue, by its plan, where it may be made in the cycle and its place has not fired, and tells whether it
    /// did. It marks no unit.
    ///
    /// # Errors
    ///
    /// As [`Engine::fire`].
    #[inline(always)]
    pub(crate) fn attempt(
        &mut self,
        net: &Checked,
        bounds: Bounds,
        firing: Firing,
        plan: Option<Plan>,
        now: u64,
    ) -> Result<bool, Broken>
        requires ready { IsReady net.now bounds self.old }
        requires place { HasPlace net.now firing }
        requires straight { is_fork (kind_of net.now firing.unit) ≡ false }
        requires apart { IfSome plan (λ p. apart p.takes ≡ true) }
        requires admits { IfSome plan
            (λ p. admits (cell_at self.old.state firing.unit) p.change ≡ true) }
        requires effect { IsPlanOf net.now self.old.state firing plan }
        ensures ready { OnOk result (IsReady net.now bounds self.new) }
        ensures more { IfOk result (λ did. IsMore self.old self.new did) }
        ensures grown { OnOk result (IsGrown self.old self.new) }
        ensures again { OnOk result (self.new.again ≡ self.old.again) }
        ensures marks { OnOk result (self.new.marks ≡ self.old.marks) }
        ensures tried { (past : Past) (start : Dated)
            → InCycle net.now past bounds now start self.old
            → MayFollow net.now self.old firing
            → MatchResult result
            (λ did. IsTried net.now past bounds now start self.old self.new firing did)
            (IsBroken net.now past.inputs bounds) }
    {
        let Some(planned) = self.may(net, firing, plan, now) else {
            return Ok(false);
        };
        let at = self.used.number(firing);
        if self.is_used(net, firing, at) {
            return Ok(false);
        }
        self.fire(net, bounds, firing, at, planned, now, false)?;
        Ok(true)
    }
}
