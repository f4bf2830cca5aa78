//! The units that may fire in a cycle.

ghost use Rattle.std.specs.Prelude.{◌≡◌, ℕ, ◌+◌, ◌<◌, ◌≤◌, true, false, IfOk, OnOk, MatchOption, length, get_or, set};
ghost use Rattle.net_core.specs.States.{IsOf, state_of};
ghost use Rattle.cycle_engine.specs.private.Marking.{Holds, IsMarked, IsListed, IsStarved, KeepsMarks, IsSourceMarked, IsMergeMarked, IsTargetMarked, IsFedMarked, AreFeeds, AreWithin, IsTaken, IsPutOff, IsEmptied, IsReordered, HasNoTurn, HasTurn};

use crate::feeds::Feeds;
use crate::places::{is_merge, is_starved};
use crate::stack::Stack;
use net_check::Checked;
use net_core::State;
use net_types::{Memory, Unit};
use std::alloc::Global;

/// Marks at units that may fire, and a list of those that are to be looked at.
pub(crate) struct Marks {
    /// Whether each unit is marked.
    pub marked: Vec<bool>,
    /// Each marked unit that is not among the queues, and maybe others.
    pub list: Stack<u32>,
    /// The queues that were taken from the list and keep their marks until their turns.
    pub queues: Vec<u32>,
}

// By hand, so that to let go of one is a call.
impl Drop for Marks {
    fn drop(self) {
        let Marks {
            marked: _marked,
            list: _list,
            queues: _queues,
        } = self;
    }
}

impl Marks {
    /// A mark at each unit of a net.
    ///
    /// # Errors
    ///
    /// [`Memory`] where memory is wanting.
    pub(crate) fn new(alloc: Global, net: &Checked) -> Result<Marks, Memory>
        ensures long { IfOk result (λ m. length m.marked.items ≡ length net.now.units) }
        ensures all { IfOk result (λ m. (u : ℕ) → u < length net.now.units → IsMarked m u) }
        ensures listed { IfOk result (λ m. IsListed net.now m) }
    {
        let count = net.net().units.as_slice().len();
        let mut marks = Marks {
            marked: vec![in alloc; false; count]?,
            list: Stack::with_room(alloc, 0, count)?,
            queues: Vec::new(alloc),
        };
        for at in 0..count {
            marks.mark(at as u32)?;
        }
        Ok(marks)
    }

    /// Marks a unit.
    ///
    /// # Errors
    ///
    /// [`Memory`] where memory is wanting.
    #[inline(always)]
    pub(crate) fn mark(&mut self, unit: u32) -> Result<(), Memory>
        ensures kept { OnOk result (KeepsMarks self.old self.new) }
        ensures marked { OnOk result
            (unit < length self.old.marked.items → IsMarked self.new unit) }
        ensures few { OnOk result
            (length self.new.list.items ≤ length self.old.list.items + 1) }
    {
        if (unit as usize) < self.marked.len() {
            self.mark_within(unit)?;
        }
        Ok(())
    }

    /// Marks a unit that is one of the net.
    ///
    /// # Errors
    ///
    /// [`Memory`] where memory is wanting.
    #[inline(always)]
    fn mark_within(&mut self, unit: u32) -> Result<(), Memory>
        requires { unit < length self.old.marked.items }
        ensures kept { OnOk result (KeepsMarks self.old self.new) }
        ensures marked { OnOk result (IsMarked self.new unit) }
        ensures few { OnOk result
            (length self.new.list.items ≤ length self.old.list.items + 1) }
    {
        let at = unit as usize;
        if self.marked[at] {
            return Ok(());
        }
        self.list.push(unit)?;
        self.marked[at] = true;
        Ok(())
    }

    /// Whether a unit is marked.
    #[inline(always)]
    fn is_marked(&self, unit: u32) -> bool
        ensures { result ≡ get_or self.now.marked.items unit false }
    {
        let at = unit as usize;
        at < self.marked.len() && self.marked[at]
    }

    /// Takes the mark of a unit away.
    #[inline(always)]
    fn unmark(&mut self, unit: u32)
        ensures marked { self.new.marked.items ≡ set self.old.marked.items unit false }
        ensures list { self.new.list ≡ self.old.list }
        ensures queues { self.new.queues ≡ self.old.queues }
    {
        let at = unit as usize;
        if at < self.marked.len() {
            self.marked[at] = false;
        }
    }

    /// Takes the next unit from the list, and its mark.
    #[inline(always)]
    pub(crate) fn take(&mut self) -> Option<u32>
        requires { AreWithin self.old }
        ensures { MatchOption result (IsEmptied self.old self.new) (IsTaken self.old self.new) }
    {
        let unit = self.list.pop()?;
        self.marked[unit as usize] = false;
        Some(unit)
    }

    /// Marks a queue of the net, which is to have its turn after all units that are no queues.
    ///
    /// # Errors
    ///
    /// [`Memory`] where memory is wanting.
    #[inline(never)]
    pub(crate) fn put_off(&mut self, unit: u32) -> Result<(), Memory>
        requires { unit < length self.old.marked.items }
        ensures { OnOk result (IsPutOff self.old self.new unit) }
    {
        self.queues.push(unit)?;
        self.marked[unit as usize] = true;
        Ok(())
    }

    /// Puts the queues that are to have turns into the order in which they are taken, the least unit first.
    pub(crate) fn sort_queues(&mut self)
        ensures { IsReordered self.old self.new }
    {
        if self.queues.len() > 1 {
            self.queues.sort_unstable();
            self.queues.reverse();
        }
    }

    /// Takes the next queue that is to have a turn, and its mark; `None` where it has no mark, or there is none.
    pub(crate) fn take_queue(&mut self) -> Option<u32>
        ensures { MatchOption result (HasNoTurn self.old self.new) (HasTurn self.old self.new) }
    {
        let Some(unit) = self.queues.pop() else {
            return None;
        };
        if !self.is_marked(unit) {
            return None;
        }
        self.unmark(unit);
        Some(unit)
    }

    /// Marks the unit that puts on a channel, where it is a control merge. It stands apart so that what marks none stays small.
    ///
    /// # Errors
    ///
    /// [`Memory`] where memory is wanting.
    #[inline(never)]
    pub(crate) fn mark_merge(&mut self, net: &Checked, chan: u32) -> Result<(), Memory>
        ensures kept { OnOk result (KeepsMarks self.old self.new) }
        ensures marked { OnOk result
            (IsMergeMarked net.now (length self.old.marked.items) self.new chan) }
        ensures few { OnOk result
            (length self.new.list.items ≤ length self.old.list.items + 1) }
    {
        let chans = net.net().chans.as_slice();
        if (chan as usize) < chans.len() {
            let unit = chans[chan as usize].from.unit;
            if is_merge(net, unit) {
                self.mark(unit)?;
            }
        }
        Ok(())
    }

    /// Marks a unit that does not want a token at its first input.
    ///
    /// # Errors
    ///
    /// [`Memory`] where memory is wanting.
    #[inline(always)]
    fn mark_unit(&mut self, net: &Checked, state: &State, unit: u32) -> Result<(), Memory>
        requires { IsOf net.now state.now }
        ensures few { OnOk result
            (length self.new.list.items ≤ length self.old.list.items + 1) }
        ensures kept { OnOk result (KeepsMarks self.old self.new) }
        ensures marked { OnOk result ((IsStarved net.now (state_of state.now) unit → ⊥)
            → unit < length self.old.marked.items → IsMarked self.new unit) }
    {
        if is_starved(net, state, unit) {
            return Ok(());
        }
        self.mark(unit)?;
        Ok(())
    }

    /// Marks the unit that puts on a channel, where it does not want a token at its first input.
    ///
    /// # Errors
    ///
    /// [`Memory`] where memory is wanting.
    #[inline(always)]
    fn mark_source(&mut self, net: &Checked, state: &State, chan: u32) -> Result<(), Memory>
        requires { IsOf net.now state.now }
        ensures kept { OnOk result (KeepsMarks self.old self.new) }
        ensures marked { OnOk result (IsSourceMarked net.now (state_of state.now)
            (length self.old.marked.items) self.new chan) }
    {
        let chans = net.net().chans.as_slice();
        if (chan as usize) < chans.len() {
            self.mark_unit(net, state, chans[chan as usize].from.unit)?;
        }
        Ok(())
    }

    /// Marks the unit into which a channel of the net goes.
    ///
    /// # Errors
    ///
    /// [`Memory`] where memory is wanting.
    #[inline(always)]
    fn mark_target(&mut self, net: &Checked, chan: u32) -> Result<(), Memory>
        requires within { chan < length net.now.chans }
        requires long { length self.old.marked.items ≡ length net.now.units }
        ensures kept { OnOk result (KeepsMarks self.old self.new) }
        ensures marked { OnOk result
            (IsTargetMarked net.now (length self.old.marked.items) self.new chan) }
        ensures few { OnOk result
            (length self.new.list.items ≤ length self.old.list.items + 1) }
    {
        self.mark_within(net.net().chans.as_slice()[chan as usize].to.unit)?;
        Ok(())
    }

    /// Marks the unit into which a channel of the net goes, where it wants no token beside it.
    ///
    /// # Errors
    ///
    /// [`Memory`] where memory is wanting.
    #[inline(always)]
    pub(crate) fn mark_fed(
        &mut self,
        net: &Checked,
        feeds: &Feeds,
        state: &State,
        chan: u32,
    ) -> Result<(), Memory>
        requires of { IsOf net.now state.now }
        requires feeds { AreFeeds net.now feeds.now }
        requires within { chan < length net.now.chans }
        requires long { length self.old.marked.items ≡ length net.now.units }
        ensures kept { OnOk result (KeepsMarks self.old self.new) }
        ensures marked { OnOk result (IsFedMarked net.now (state_of state.now)
            (length self.old.marked.items) self.new chan) }
        ensures few { OnOk result
            (length self.new.list.items ≤ length self.old.list.items + 1) }
    {
        if feeds.lacks(net, state, chan) {
            return Ok(());
        }
        self.mark_target(net, chan)?;
        Ok(())
    }

    /// Marks the unit into which a channel goes, where it is one of the net and its unit wants no token beside it.
    ///
    /// # Errors
    ///
    /// [`Memory`] where memory is wanting.
    #[inline(always)]
    fn mark_ripe(
        &mut self,
        net: &Checked,
        feeds: &Feeds,
        state: &State,
        chan: u32,
    ) -> Result<(), Memory>
        requires of { IsOf net.now state.now }
        requires feeds { AreFeeds net.now feeds.now }
        requires long { length self.old.marked.items ≡ length net.now.units }
        ensures kept { OnOk result (KeepsMarks self.old self.new) }
        ensures marked { OnOk result (IsFedMarked net.now (state_of state.now)
            (length self.old.marked.items) self.new chan) }
    {
        if (chan as usize) < net.net().chans.as_slice().len() {
            self.mark_fed(net, feeds, state, chan)?;
        }
        Ok(())
    }

    /// Marks the units into which channels go, where they want no token beside them.
    ///
    /// # Errors
    ///
    /// [`Memory`] where memory is wanting.
    pub(crate) fn mark_targets(
        &mut self,
        net: &Checked,
        feeds: &Feeds,
        state: &State,
        chans: &[u32],
    ) -> Result<(), Memory>
        requires of { IsOf net.now state.now }
        requires feeds { AreFeeds net.now feeds.now }
        requires long { length self.old.marked.items ≡ length net.now.units }
        ensures kept { OnOk result (KeepsMarks self.old self.new) }
        ensures marked { OnOk result ((d : ℕ) → Holds d chans.now
            → IsFedMarked net.now (state_of state.now)
            (length self.old.marked.items) self.new d) }
    {
        for chan in chans {
            self.mark_ripe(net, feeds, state, *chan)?;
        }
        Ok(())
    }

    /// Marks the units that put on channels, where they do not want a token at their first input.
    ///
    /// # Errors
    ///
    /// [`Memory`] where memory is wanting.
    pub(crate) fn mark_sources(
        &mut self,
        net: &Checked,
        state: &State,
        chans: &[u32],
    ) -> Result<(), Memory>
        requires { IsOf net.now state.now }
        ensures kept { OnOk result (KeepsMarks self.old self.new) }
        ensures marked { OnOk result ((d : ℕ) → Holds d chans.now
            → IsSourceMarked net.now (state_of state.now)
            (length self.old.marked.items) self.new d) }
    {
        for chan in chans {
            self.mark_source(net, state, *chan)?;
        }
        Ok(())
    }
}
