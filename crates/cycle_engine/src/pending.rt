//! Which outputs of forks are still to be tried.

ghost use Rattle.std.specs.Prelude.{◌≡◌, ◌+◌, ◌*◌, ◌^◌, ◌<◌, ◌≤◌, ℕ, true, false, replicate, set, IfOk, OnOk, get_or, length};
ghost use Rattle.lsq_core.specs.Bits.{IsSet};
ghost use Rattle.cycle_engine.specs.private.Marking.{Holds};
ghost use Rattle.cycle_engine.specs.private.Pending.{IsFreedOut, IsNextPending, IsOpened, IsShut, out_number};

use crate::used::Used;
use lsq_core::Bits;
use net_check::Checked;
use net_types::Memory;
use std::alloc::Global;

/// How many places there may be.
const MOST_PLACES: usize = 1 << 60;

/// How many places a word of bits tells of.
const WORD: usize = 64;

/// The outputs of some forks that are pending. An output of a fork is not pending where the fork has sent its head there, or
/// the channel was full as the cycle began.
pub(crate) struct Pending {
    /// Of which units the pending outputs are noted; of the others all may be pending.
    pub noted: Vec<bool>,
    /// The pending outputs of these units, by the numbers of their places.
    pub outs: Bits,
}

// By hand, so that to let go of one is a call.
impl Drop for Pending {
    fn drop(self) {
        let Pending {
            noted: _noted,
            outs: _outs,
        } = self;
    }
}

impl Pending {
    /// Nothing is noted of so many units, and there is room for the outputs among so many places.
    ///
    /// # Errors
    ///
    /// [`Memory`] where memory is wanting.
    pub(crate) fn new(alloc: Global, units: usize, places: usize) -> Result<Pending, Memory>
        ensures none { IfOk result (λ p. p.noted.items ≡ replicate units false) }
        ensures room { IfOk result (λ p. places ≤ 64 * length p.outs) }
        ensures small { OnOk result (places ≤ 2 ^ 60) }
    {
        if places > MOST_PLACES {
            return Err(Memory);
        }
        Ok(Pending {
            noted: vec![in alloc; false; units]?,
            outs: Bits::new(alloc, places / WORD + 1)?,
        })
    }

    /// Whether the pending outputs of a unit are noted.
    #[inline(always)]
    pub(crate) fn is_noted(&self, unit: u32) -> bool
        requires { unit < length self.now.noted.items }
        ensures { result ≡ get_or self.now.noted.items unit false }
    {
        self.noted[unit as usize]
    }

    /// Notes that the pending outputs of a unit are those that are noted.
    pub(crate) fn note(&mut self, unit: u32)
        requires { unit < length self.old.noted.items }
        ensures noted { self.new.noted.items ≡ set self.old.noted.items unit true }
        ensures outs { self.new.outs ≡ self.old.outs }
    {
        self.noted[unit as usize] = true;
    }

    /// Forgets which outputs of a unit are pending.
    #[inline(always)]
    pub(crate) fn forget(&mut self, unit: u32)
        requires { unit < length self.old.noted.items }
        ensures noted { self.new.noted.items ≡ set self.old.noted.items unit false }
        ensures outs { self.new.outs ≡ self.old.outs }
    {
        self.noted[unit as usize] = false;
    }

    /// Notes whether an output is pending, by the number of its place.
    #[inline(always)]
    pub(crate) fn set(&mut self, at: u64, within: bool)
        requires { at < 64 * length self.old.outs }
        ensures outs { IsSet at within self.old.outs self.new.outs }
        ensures noted { self.new.noted ≡ self.old.noted }
    {
        self.outs.set(at as usize, within);
    }

    /// The first pending output of a unit from one on, and below so many; so many where there is none. The number of the place of
    /// its first output is told.
    #[inline(always)]
    pub(crate) fn next(&self, first: u64, from: u32, outs: u32) -> u32
        requires order { from ≤ outs }
        requires within { first + outs ≤ 64 * length self.now.outs }
        requires small { first + outs ≤ 2 ^ 60 }
        ensures { IsNextPending self.now first from outs result }
    {
        let at = self.outs.next(
            (first + u64::from(from)) as usize,
            (first + u64::from(outs)) as usize,
        );
        (at as u64 - first) as u32
    }

    /// Notes that the output is pending that puts on a channel, where its unit is one of those.
    #[inline(never)]
    fn add(&mut self, net: &Checked, used: &Used, chan: u32)
        ensures opened { IsOpened self.old self.new }
        ensures freed { IsFreedOut net.now used.now.base.items self.new chan }
    {
        let chans = net.net().chans.as_slice();
        if chan as usize >= chans.len() {
            return;
        }
        let from = &chans[chan as usize].from;
        if (from.unit as usize) < self.noted.len() && self.is_noted(from.unit) {
            self.add_place(used, from.unit, from.place);
        }
    }

    /// Notes that an output of a unit is pending, where it has a place with a number.
    fn add_place(&mut self, used: &Used, unit: u32, place: u32)
        ensures opened { IsOpened self.old self.new }
        ensures freed { out_number used.now.base.items unit place < 2 ^ 60
            → out_number used.now.base.items unit place < 64 * length self.new.outs
            → IsShut self.new used.now.base.items unit place → ⊥ }
    {
        let at = used.base(unit).saturating_add(u64::from(place) + 1);
        if at / (WORD as u64) < self.outs.words() as u64 {
            self.set(at, true);
        }
    }

    /// Notes that the outputs are pending that put on channels.
    #[inline(always)]
    pub(crate) fn add_freed(&mut self, net: &Checked, used: &Used, chans: &[u32])
        ensures opened { IsOpened self.old self.new }
        ensures freed { (d : ℕ) → Holds d chans.now
            → IsFreedOut net.now used.now.base.items self.new d }
    {
        for chan in chans {
            self.add(net, used, *chan);
        }
    }
}
