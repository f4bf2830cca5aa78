//! The state of a run by cycles.

ghost use Rattle.std.specs.Prelude.{◌≡◌, ◌≢◌, ◌⊎◌, ◌≤◌, ◌<◌, ℕ, [], true, cond, replicate, IfOk, OnOk, length, get_or};
ghost use Rattle.el_base.specs.Limits.{max_firings};
ghost use Rattle.net_types.specs.Inputs.{InputsFit};
ghost use Rattle.net_types.specs.Nets.{kind_of};
ghost use Rattle.net_check.specs.Ends.{is_lsq};
ghost use Rattle.net_core.specs.Fire.{idle};
ghost use Rattle.net_core.specs.States.{IsOf, state_of};
ghost use Rattle.cycle_engine.specs.private.Marking.{Holds, IsMarked, IsStarved, KeepsMarks, AreFeeds, entries_at};

use crate::fed::Fed;
use crate::feeds::Feeds;
use crate::freed::Freed;
use crate::marks::Marks;
use crate::notes::Notes;
use crate::pending::Pending;
use crate::places::is_queue;
use crate::stack::Stack;
use crate::used::Used;
use el_base::Log;
use lsq_core::Queue;
use net_check::Checked;
use net_core::State;
use net_types::{Act, Firing, Inputs, Memory};
use std::alloc::Global;

/// How many firings there may be in all, and whether they are kept in the log.
#[derive(Clone, Copy)]
pub(crate) struct Bounds {
    pub limit: u64,
    pub keep: bool,
}

/// A state with the cycle in which each token was put, and what was done in the cycle so far.
pub(crate) struct Engine {
    pub state: State,
    /// How many entries the queue of each unit had when the cycle began; 0 of a unit that is none.
    pub begun: Vec<u32>,
    /// The firings of the cycle so far.
    pub fired: Stack<Firing>,
    /// Which places have fired in the cycle.
    pub used: Used,
    /// How many firings the cycles before made.
    pub made: u64,
    pub log: Log<Firing>,
    /// The units that may fire in the cycle.
    pub marks: Marks,
    /// When tokens ripen.
    pub notes: Notes,
    /// What feeds each unit.
    pub feeds: Feeds,
    /// The channels that were full when the cycle began, and from which tokens were taken.
    pub freed: Freed,
    /// Which outputs of forks are to be tried.
    pub pending: Pending,
    /// The units of which one of the firings of the cycle may let another be made in the next, and maybe others.
    pub again: Stack<u32>,
    /// The channel on which the last control token to a control merge or a queue was put.
    pub control: u32,
    /// The ports of queues that have tokens.
    pub fed: Fed,
}

// By hand, so that to let go of one is a call.
impl Drop for Engine {
    fn drop(self) {
        let Engine {
            state: _state,
            begun: _begun,
            fired: _fired,
            used: _used,
            made: _made,
            log: _log,
            marks: _marks,
            notes: _notes,
            feeds: _feeds,
            freed: _freed,
            pending: _pending,
            again: _again,
            control: _control,
            fed: _fed,
        } = self;
    }
}

/// What fills the room for firings.
const NO_FIRING: Firing = Firing {
    unit: 0,
    act: Act::Go,
};

/// How many firings the log has to have room for.
fn log_room(bounds: Bounds) -> u64
    ensures { result ≡ cond bounds.keep bounds.limit 0 }
{
    if bounds.keep { bounds.limit } else { 0 }
}

/// A list of so many zeros.
///
/// # Errors
///
/// [`Memory`] where memory is wanting.
fn zeros(alloc: Global, count: usize) -> Result<Vec<u32>, Memory>
    ensures { IfOk result (λ zeros. zeros.items ≡ replicate count 0) }
{
    Ok(vec![in alloc; 0; count]?)
}

impl Engine {
    ghost use Rattle.cycle_engine.specs.private.Trials.{dated_of};
    ghost use Rattle.cycle_engine.specs.private.Goings.{Past, IsReady, HasDone, IsBegunIn};

    /// The opening state of a net on inputs.
    ///
    /// # Errors
    ///
    /// [`Memory`] where memory is wanting.
    pub(crate) fn new(
        alloc: Global,
        net: &Checked,
        inputs: &Inputs,
        bounds: Bounds,
    ) -> Result<Engine, Memory>
        requires fit { InputsFit net.now inputs.now }
        requires few { bounds.limit ≤ max_firings }
        ensures ready { IfOk result (λ e. IsReady net.now bounds e) }
        ensures done { IfOk result (λ e. HasDone net.now
            (record { inputs = inputs.now; cycles = [] }) bounds 0 e) }
        ensures none { IfOk result (λ e. e.fired.items ≡ []) }
    {
        let chans = net.net().chans.as_slice();
        let units = net.net().units.as_slice();
        let used = Used::new(alloc, net)?;
        let fed = Fed::new(alloc, net, used.last.len())?;
        let marks = Marks::new(alloc, net)?;
        let notes = Notes::new(alloc, net)?;
        let state = State::new(alloc, net, inputs)?;
        let begun = zeros(alloc, units.len())?;
        let feeds = Feeds::new(alloc, net)?;
        let freed = Freed::new(alloc, chans.len())?;
        let pending = Pending::new(alloc, units.len(), used.count())?;
        let log = Log::with_room(alloc, log_room(bounds))?;
        Ok(Engine {
            state,
            begun,
            fired: Stack::new(alloc, NO_FIRING),
            used,
            made: 0,
            log,
            marks,
            notes,
            feeds,
            freed,
            pending,
            again: Stack::new(alloc, 0),
            control: 0,
            fed,
        })
    }

    /// Its state and its log.
    pub(crate) fn into_parts(self) -> (State, Log<Firing>)
        ensures state { result.0 ≡ self.state }
        ensures log { result.1 ≡ self.log }
    {
        let Engine {
            state,
            begun: _begun,
            fired: _fired,
            used: _used,
            made: _made,
            log,
            marks: _marks,
            notes: _notes,
            feeds: _feeds,
            freed: _freed,
            pending: _pending,
            again: _again,
            control: _control,
            fed: _fed,
        } = self;
        (state, log)
    }

    /// Begins a cycle: marks the units that may fire in it, and notes the lengths of queues and that nothing has fired.
    ///
    /// # Errors
    ///
    /// [`Memory`] where memory is wanting.
    pub(crate) fn begin(&mut self, net: &Checked, bounds: Bounds, now: u64) -> Result<(), Memory>
        requires { IsReady net.now bounds self.old }
        ensures ready { OnOk result (IsReady net.now bounds self.new) }
        ensures none { OnOk result (self.new.fired.items ≡ []) }
        ensures same { OnOk result (dated_of self.new ≡ dated_of self.old) }
        ensures going { (past : Past) → HasDone net.now past bounds now self.old
            → OnOk result (IsBegunIn net.now past bounds now (dated_of self.old) self.new) }
    {
        let _ = bounds;
        let _ = net.net();
        settle(
            &mut self.marks,
            &mut self.begun,
            net,
            &self.state,
            &self.feeds,
            self.again.as_slice(),
        )?;
        let freed = self.freed.list.as_slice();
        self.marks.mark_sources(net, &self.state, freed)?;
        self.pending.add_freed(net, &self.used, freed);
        let place = self.notes.place(now);
        let ripening = self.notes.at(place);
        self.marks
            .mark_targets(net, &self.feeds, &self.state, ripening)?;
        self.again.clear();
        self.freed.clear();
        self.notes.clear(place);
        self.made += self.fired.len() as u64;
        self.fired.clear();
        Ok(())
    }
}

/// How many entries the queue of a unit has; 0 of a unit that is none.
fn entries(net: &Checked, state: &State, unit: u32) -> u32
    requires of { IsOf net.now state.now }
    requires within { unit < length net.now.units }
    ensures { is_lsq (kind_of net.now unit) ≡ true
        → result ≡ length (get_or (state_of state.now).own unit idle).queue.items }
{
    match state.queue(net, unit) {
        None => 0,
        Some(queue) => queue.len(),
    }
}

/// Marks those of some units that do not want a token at their first input, and notes how many entries their queues have.
///
/// # Errors
///
/// [`Memory`] where memory is wanting.
fn settle(
    marks: &mut Marks,
    begun: &mut Vec<u32>,
    net: &Checked,
    state: &State,
    feeds: &Feeds,
    units: &[u32],
) -> Result<(), Memory>
    requires of { IsOf net.now state.now }
    requires feeds { AreFeeds net.now feeds.now }
    requires long { length begun.old.items ≡ length net.now.units }
    ensures kept { OnOk result (KeepsMarks marks.old marks.new) }
    ensures marked { OnOk result ((u : ℕ) → Holds u units.now
        → (IsStarved net.now (state_of state.now) u → ⊥)
        → u < length marks.old.marked.items → IsMarked marks.new u) }
    ensures long { OnOk result (length begun.new.items ≡ length net.now.units) }
    ensures noted { OnOk result ((u : ℕ) → is_lsq (kind_of net.now u) ≡ true
        → (get_or begun.old.items u 0 ≡ entries_at (state_of state.now) u) ⊎ Holds u units.now
        → get_or begun.new.items u 0 ≡ entries_at (state_of state.now) u) }
{
    for unit in units {
        settle_unit(marks, begun, net, state, feeds, *unit)?;
    }
    Ok(())
}

/// Marks a unit that does not want a token at its first input, and notes how many entries its queue has.
///
/// # Errors
///
/// [`Memory`] where memory is wanting.
#[inline(always)]
fn settle_unit(
    marks: &mut Marks,
    begun: &mut Vec<u32>,
    net: &Checked,
    state: &State,
    feeds: &Feeds,
    unit: u32,
) -> Result<(), Memory>
    requires of { IsOf net.now state.now }
    requires feeds { AreFeeds net.now feeds.now }
    requires long { length begun.old.items ≡ length net.now.units }
    ensures kept { OnOk result (KeepsMarks marks.old marks.new) }
    ensures marked { OnOk result ((IsStarved net.now (state_of state.now) unit → ⊥)
        → unit < length marks.old.marked.items → IsMarked marks.new unit) }
    ensures long { OnOk result (length begun.new.items ≡ length net.now.units) }
    ensures noted { OnOk result (is_lsq (kind_of net.now unit) ≡ true
        → get_or begun.new.items unit 0 ≡ entries_at (state_of state.now) unit) }
    ensures others { OnOk result ((u : ℕ) → u ≢ unit
        → get_or begun.new.items u 0 ≡ get_or begun.old.items u 0) }
{
    match feeds.first(unit) {
        Some(chan) => {
            if state.head(net, chan).is_some() {
                marks.mark(unit)?;
            }
        }
        None => {
            marks.mark(unit)?;
            note_queue(begun, net, state, unit);
        }
    }
    Ok(())
}

/// Notes how many entries the queue of a unit has, where it is one.
#[inline(always)]
fn note_queue(lengths: &mut Vec<u32>, net: &Checked, state: &State, unit: u32)
    requires of { IsOf net.now state.now }
    requires long { length lengths.old.items ≡ length net.now.units }
    ensures long { length lengths.new.items ≡ length net.now.units }
    ensures noted { is_lsq (kind_of net.now unit) ≡ true
        → get_or lengths.new.items unit 0 ≡ entries_at (state_of state.now) unit }
    ensures others { (u : ℕ) → u ≢ unit
        → get_or lengths.new.items u 0 ≡ get_or lengths.old.items u 0 }
{
    if is_queue(net, unit) && (unit as usize) < lengths.len() {
        lengths[unit as usize] = entries(net, state, unit);
    }
}
