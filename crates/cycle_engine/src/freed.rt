//! Channels that were full as a cycle began, and from which tokens were taken in it.

ghost use Rattle.std.specs.Prelude.{◌≡◌, ◌≢◌, ◌↔◌, ◌<◌, ◌∷◌, ℕ, [], true, false, replicate, IfOk, IsTrue, OnOk, get_or, length};
ghost use Rattle.net_core.specs.Held.{AllWithin};
ghost use Rattle.net_core.specs.Plans.{chans_of};
ghost use Rattle.net_core.specs.States.{IsOf};
ghost use Rattle.cycle_engine.specs.private.Marking.{AreListed, Holds, IsFreed, IsLongFull};

use net_check::Checked;
use net_core::{State, Taken};
use net_types::Memory;
use std::alloc::Global;

/// Marks at channels, and a list of them.
pub(crate) struct Freed {
    /// Whether each channel was full as the cycle began, and tokens were taken from it since.
    pub marked: Vec<bool>,
    /// Each marked channel.
    pub list: Vec<u32>,
}

// By hand, so that to let go of one is a call.
impl Drop for Freed {
    fn drop(self) {
        let Freed {
            marked: _marked,
            list: _list,
        } = self;
    }
}

/// Whether a channel is full, and its newest token was put before the cycle `now`.
#[inline(always)]
pub(crate) fn is_long_full(state: &State, net: &Checked, chan: u32, now: u64) -> bool
    requires of { IsOf net.now state.now }
    requires within { chan < length net.now.chans }
    ensures { IsTrue result ↔ IsLongFull net.now state.now now chan }
{
    if !state.is_full(net, chan) {
        return false;
    }
    match state.newest_date(net, chan) {
        None => false,
        Some(date) => date < now,
    }
}

impl Freed {
    /// No mark at so many channels.
    ///
    /// # Errors
    ///
    /// [`Memory`] where memory is wanting.
    pub(crate) fn new(alloc: Global, count: usize) -> Result<Freed, Memory>
        ensures marked { IfOk result (λ f. f.marked.items ≡ replicate count false) }
        ensures list { IfOk result (λ f. f.list.items ≡ []) }
    {
        Ok(Freed {
            marked: vec![in alloc; false; count]?,
            list: Vec::new(alloc),
        })
    }

    /// Whether a channel is marked.
    #[inline(always)]
    pub(crate) fn is_marked(&self, chan: u32) -> bool
        requires { chan < length self.now.marked.items }
        ensures { result ≡ get_or self.now.marked.items chan false }
    {
        self.marked[chan as usize]
    }

    /// Marks a channel.
    ///
    /// # Errors
    ///
    /// [`Memory`] where memory is wanting.
    fn mark(&mut self, chan: u32) -> Result<(), Memory>
        ensures long { OnOk result
            (length self.new.marked.items ≡ length self.old.marked.items) }
        ensures listed { OnOk result (AreListed self.old → AreListed self.new) }
        ensures marked { OnOk result (chan < length self.old.marked.items
            → get_or self.new.marked.items chan false ≡ true) }
        ensures others { OnOk result ((d : ℕ) → d ≢ chan
            → get_or self.new.marked.items d false ≡ get_or self.old.marked.items d false) }
    {
        let at = chan as usize;
        if at < self.marked.len() {
            self.list.push(chan)?;
            self.marked[at] = true;
        }
        Ok(())
    }

    /// Marks a channel from which a token is to be taken in the cycle `now`, where it is full of older tokens.
    ///
    /// # Errors
    ///
    /// [`Memory`] where memory is wanting.
    #[inline(always)]
    fn note_one(&mut self, state: &State, net: &Checked, chan: u32, now: u64) -> Result<(), Memory>
        requires of { IsOf net.now state.now }
        requires within { chan < length net.now.chans }
        ensures { OnOk result (IsFreed net.now state.now now (chan ∷ []) self.old self.new) }
    {
        if state.is_full(net, chan) {
            self.note_full(state, net, chan, now)?;
        }
        Ok(())
    }

    /// As [`Freed::note_one`]. It stands apart so that what takes from a channel that is not full stays small.
    ///
    /// # Errors
    ///
    /// [`Memory`] where memory is wanting.
    #[inline(never)]
    fn note_full(&mut self, state: &State, net: &Checked, chan: u32, now: u64) -> Result<(), Memory>
        requires of { IsOf net.now state.now }
        requires within { chan < length net.now.chans }
        ensures { OnOk result (IsFreed net.now state.now now (chan ∷ []) self.old self.new) }
    {
        if is_long_full(state, net, chan, now) {
            self.mark(chan)?;
        }
        Ok(())
    }

    /// Marks the channels from which tokens are to be taken in the cycle `now` that are full of older tokens.
    ///
    /// # Errors
    ///
    /// [`Memory`] where memory is wanting.
    #[inline(always)]
    pub(crate) fn note(
        &mut self,
        state: &State,
        net: &Checked,
        taken: Taken,
        now: u64,
    ) -> Result<(), Memory>
        requires of { IsOf net.now state.now }
        requires within { AllWithin (length net.now.chans) (chans_of taken) }
        ensures { OnOk result
            (IsFreed net.now state.now now (chans_of taken) self.old self.new) }
    {
        match taken {
            Taken::None => Ok(()),
            Taken::One(c) => {
                self.note_one(state, net, c, now)?;
                Ok(())
            }
            Taken::Two(c, d) => {
                self.note_one(state, net, c, now)?;
                self.note_one(state, net, d, now)?;
                Ok(())
            }
            Taken::Three(c, d, e) => self.note_three(state, net, c, d, e, now),
        }
    }

    /// Marks those of three channels from which tokens are to be taken in the cycle `now` that are full of older tokens. It stands
    /// apart so that what takes fewer stays small.
    ///
    /// # Errors
    ///
    /// [`Memory`] where memory is wanting.
    #[inline(never)]
    fn note_three(
        &mut self,
        state: &State,
        net: &Checked,
        c: u32,
        d: u32,
        e: u32,
        now: u64,
    ) -> Result<(), Memory>
        requires of { IsOf net.now state.now }
        requires within { AllWithin (length net.now.chans) (c ∷ d ∷ e ∷ []) }
        ensures { OnOk result
            (IsFreed net.now state.now now (c ∷ d ∷ e ∷ []) self.old self.new) }
    {
        self.note_one(state, net, c, now)?;
        self.note_one(state, net, d, now)?;
        self.note_one(state, net, e, now)?;
        Ok(())
    }

    /// Takes all marks away.
    pub(crate) fn clear(&mut self)
        ensures long { length self.new.marked.items ≡ length self.old.marked.items }
        ensures list { self.new.list.items ≡ [] }
        ensures none { AreListed self.old
            → (d : ℕ) → get_or self.new.marked.items d false ≡ false }
    {
        unmark_all(&mut self.marked, self.list.as_slice());
        self.list.clear();
    }
}

/// Takes the marks at channels away.
fn unmark_all(marked: &mut Vec<bool>, chans: &[u32])
    ensures long { length marked.new.items ≡ length marked.old.items }
    ensures kept { (d : ℕ) → get_or marked.new.items d false ≡ true
        → get_or marked.old.items d false ≡ true }
    ensures none { (d : ℕ) → Holds d chans.now → get_or marked.new.items d false ≡ false }
{
    for chan in chans {
        let at = *chan as usize;
        if at < marked.len() {
            marked[at] = false;
        }
    }
}
