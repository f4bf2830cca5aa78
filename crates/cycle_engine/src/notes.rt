//! When tokens ripen.

ghost use Rattle.std.specs.Prelude.{◌≡◌, ◌<◌, ◌≤◌, ◌^◌, ◌%◌, ℕ, [], IfOk, IfSome, OnOk, MatchOption, length, set};
ghost use Rattle.net_types.specs.Nets.{chan_at};
ghost use Rattle.std.specs.Int.{IsPowerOfTwo};
ghost use Rattle.cycle_engine.specs.private.Marking.{AreCells, HasCells, IsNoted, cell, cells_of, cells_with, coming_in};

use crate::cells::Cells;
use crate::dates::delay_of;
use net_check::Checked;
use net_core::Laid;
use net_types::Memory;
use std::alloc::Global;

/// Channels of which tokens ripen in cycles to come.
#[derive(Drop)]
pub(crate) struct Notes {
    /// For each cycle to come, by its number's rest modulo how many lists there are, the channels of which a token ripens then. There
    /// are more lists than the greatest delay has cycles, and as many as a power of two.
    pub coming: Cells,
}

/// The greatest delay of a channel in cycles; 0 of none.
fn greatest_delay(net: &Checked) -> u64
    ensures most { (d : ℕ) → (chan_at net.now d).delay ≤ result }
    ensures small { result < 2 ^ 32 }
{
    let mut most = 0;
    for chan in net.net().chans.as_slice() {
        most = u64::from(chan.delay).max(most);
    }
    most
}

impl Notes {
    /// Nothing is noted.
    ///
    /// # Errors
    ///
    /// [`Memory`] where memory is wanting.
    pub(crate) fn new(alloc: Global, net: &Checked) -> Result<Notes, Memory>
        ensures { IfOk result (λ n. HasCells net.now n) }
    {
        let count = (greatest_delay(net) + 1).next_power_of_two();
        Ok(Notes {
            coming: Cells::new(alloc, count)?,
        })
    }

    /// The place of the list for a cycle.
    #[inline(always)]
    pub(crate) fn place(&self, cycle: u64) -> usize
        requires { AreCells self.now }
        ensures place { result ≡ cycle % length (cells_of self.now) }
        ensures within { result < length self.now.coming }
        ensures small { result < 2 ^ 32 }
    {
        (cycle & (self.coming.len() as u64 - 1)) as usize
    }

    /// The channels in the list of a place.
    pub(crate) fn at(&self, place: usize) -> &[u32]
        requires { place < length self.now.coming }
        ensures { result.now ≡ cell self.now place }
    {
        self.coming.at(place)
    }

    /// The first cycle from `now` on in which a noted token ripens; `None` where none is noted. It stands apart so that the run that
    /// asks for it stays small.
    #[inline(never)]
    pub(crate) fn next(&self, now: u64) -> Option<u64>
        requires { AreCells self.now }
        ensures { MatchOption result ((k : ℕ) → cell self.now k ≡ [])
            (λ t. now ≤ t × ((k : ℕ) → now ≤ k → k < t → coming_in self.now k ≡ [])) }
    {
        let first = self.place(now);
        let count = self.coming.len();
        let after = self.coming.next(first, count);
        if after < count {
            return Some(now.saturating_add((after - first) as u64));
        }
        let before = self.coming.next(0, first);
        if before < first {
            return Some(now.saturating_add((count - first + before) as u64));
        }
        None
    }

    /// Empties the list of a place.
    pub(crate) fn clear(&mut self, place: usize)
        requires { place < length self.old.coming }
        ensures { cells_of self.new ≡ set (cells_of self.old) place [] }
    {
        self.coming.clear(place);
    }

    /// Notes when the token ripens that is put on a channel in the cycle `now`.
    ///
    /// # Errors
    ///
    /// [`Memory`] where memory is wanting.
    #[inline(always)]
    fn note_put(&mut self, net: &Checked, chan: u32, now: u64) -> Result<(), Memory>
        requires cells { AreCells self.old }
        requires within { chan < length net.now.chans }
        ensures { OnOk result
            (cells_of self.new ≡ cells_with net.now chan now (cells_of self.old)) }
    {
        let delay = delay_of(net, chan);
        if delay > 0 {
            let place = self.place(self.place(now) as u64 + delay);
            self.coming.add(place, chan)?;
        }
        Ok(())
    }

    /// Notes when the token ripens that a firing in the cycle `now` puts.
    ///
    /// # Errors
    ///
    /// [`Memory`] where memory is wanting.
    #[inline(always)]
    pub(crate) fn note(&mut self, net: &Checked, laid: Option<Laid>, now: u64) -> Result<(), Memory>
        requires cells { AreCells self.old }
        requires within { IfSome laid (λ w. w.chan < length net.now.chans) }
        ensures { OnOk result (IsNoted net.now laid now self.old self.new) }
    {
        match laid {
            None => Ok(()),
            Some(laid) => {
                self.note_put(net, laid.chan, now)?;
                Ok(())
            }
        }
    }
}
