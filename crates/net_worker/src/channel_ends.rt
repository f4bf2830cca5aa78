//! The ends of a worker, by channel.
ghost use Rattle.std.specs.Prelude.{◌≡◌, ℕ, ◌<◌, ◌↔◌, Some, None, IsSome, IsTrue, IfSome, IfNone, IfOk, get_or, set, replicate, length};
ghost use Rattle.std.specs.List.{Contains};
ghost use Rattle.std.specs.Option.{option_copied_mut};
ghost use Rattle.std.specs.Borrow.{sem};
ghost use Rattle.net_worker.specs.ChannelEnds.{AreChannels, StandsAt, IsNotAmong};
ghost use Rattle.net_worker.specs.EndLends.{lends_end};

use net_types::Memory;
use std::alloc::Global;
use std::marker::Model;

/// Of each channel of a net its end, where there is one. Only some channels have places for ends, and it takes memory for
/// these alone.
#[derive(Drop)]
pub struct ChannelEnds<T> {
    /// How many channels the net has.
    count: usize,
    /// The channels with places, ascending, and what stands there.
    chans: Vec<u32>,
    ends: Vec<Option<T>>,
    /// The place that was found last: the next one asked for is mostly that, or the one behind it.
    last: usize,
}

impl<T> Model for ChannelEnds<T> {
    ghost use Rattle.net_worker.specs.ChannelEnds.{EndsByChannel, spread, ArePlaces};

    ghost Value = { EndsByChannel T };

    ghost view = { λ e. record {
      items = spread e.count e.chans.items e.ends.items;
      chans = e.chans.items;
    } };

    ghost invariant = { λ e. ArePlaces e.count e.chans.items e.ends.items };
}

/// Whether a channel stands at a place.
#[inline(always)]
pub(crate) fn stands_at(chans: &[u32], at: usize, chan: u32) -> bool
    ensures { IsTrue result → StandsAt chans.now chan at }
{
    at < chans.len() && chans[at] == chan
}

/// The place of a channel among ascending ones, where it is one of them. It is looked for first at a place near which it may
/// stand.
#[inline(always)]
pub(crate) fn place_of(chans: &[u32], near: usize, chan: u32) -> Option<usize>
    requires { (n : ℕ) × AreChannels n chans.now }
    ensures some { IfSome result (λ i. StandsAt chans.now chan i) }
    ensures none { IfNone result (IsNotAmong chans.now chan) }
{
    if stands_at(chans, near, chan) {
        return Some(near);
    }
    place_beyond(chans, near, chan)
}

/// The place of a channel among ascending ones, where it is one of them. It is looked for first behind a place.
#[inline(never)]
fn place_beyond(chans: &[u32], near: usize, chan: u32) -> Option<usize>
    requires { (n : ℕ) × AreChannels n chans.now }
    ensures some { IfSome result (λ i. StandsAt chans.now chan i) }
    ensures none { IfNone result (IsNotAmong chans.now chan) }
{
    let next = near.saturating_add(1);
    if stands_at(chans, next, chan) {
        return Some(next);
    }
    match chans.binary_search(&chan) {
        Ok(at) => Some(at),
        Err(_) => None,
    }
}

/// So many places without anything.
fn nothing<T: Drop>(alloc: Global, count: usize) -> Result<Vec<Option<T>>, Memory>
    ensures { IfOk result (λ v. v.items ≡ replicate count None) }
{
    let mut places = Vec::with_capacity(alloc, count)?;
    for _ in 0..count {
        places.push(None)?;
    }
    Ok(places)
}

impl<T> ChannelEnds<T> {
    /// The place that was found last.
    pub(crate) fn last(&self) -> usize {
        self.last
    }

    /// The end of a channel, where it has one. It is looked for first at a place near which it may stand.
    #[inline(always)]
    pub(crate) fn get_mut(&mut self, chan: u32, near: usize) -> Option<&mut T>
        ensures* writes_back { sem 𝓛 (lends_end T.row self.entry chan result) }
        ensures value { option_copied_mut result ≡ get_or self.old.items chan None }
    {
        match place_of(&self.chans, near, chan) {
            Some(at) => {
                self.last = at;
                match &mut self.ends[at] {
                    Some(end) => Some(end),
                    None => None,
                }
            }
            None => None,
        }
    }

    /// Whether a channel has an end.
    pub(crate) fn has(&self, chan: u32) -> bool
        ensures end { IsTrue result ↔ IsSome (get_or self.now.items chan None) }
        ensures within { IsTrue result → chan < length self.now.items }
    {
        self.has_near(chan, self.last)
    }

    /// Whether a channel has an end. It is looked for first at a place near which it may stand.
    #[inline(always)]
    pub(crate) fn has_near(&self, chan: u32, near: usize) -> bool
        ensures end { IsTrue result ↔ IsSome (get_or self.now.items chan None) }
        ensures within { IsTrue result → chan < length self.now.items }
    {
        match place_of(&self.chans, near, chan) {
            Some(at) => self.ends[at].is_some(),
            None => false,
        }
    }
}

impl<T: Drop> ChannelEnds<T> {
    /// No ends, and places for those of these channels, of so many in the net.
    ///
    /// # Errors
    ///
    /// [`Memory`] where memory is wanting.
    pub(crate) fn new(alloc: Global, chans: &[u32], count: usize) -> Result<ChannelEnds<T>, Memory>
        requires { AreChannels count chans.now }
        ensures items { IfOk result (λ e. e.items ≡ replicate count None) }
        ensures chans { IfOk result (λ e. e.chans ≡ chans.now) }
    {
        let ends = nothing(alloc, chans.len())?;
        let chans = Vec::from_slice(alloc, chans)?;
        Ok(ChannelEnds {
            count,
            chans,
            ends,
            last: 0,
        })
    }

    /// Lays an end at the place of a channel.
    pub(crate) fn lay(&mut self, chan: u32, end: T)
        requires { Contains self.old.chans chan }
        ensures items { self.new.items ≡ set self.old.items chan (Some end) }
        ensures chans { self.new.chans ≡ self.old.chans }
    {
        if let Some(at) = place_of(&self.chans, self.last, chan) {
            self.ends[at] = Some(end);
        }
    }

    /// The same. The place is looked for first near a place.
    pub(crate) fn lay_near(&mut self, chan: u32, near: usize, end: T)
        requires { Contains self.old.chans chan }
        ensures within { chan < length self.old.items }
        ensures items { self.new.items ≡ set self.old.items chan (Some end) }
        ensures chans { self.new.chans ≡ self.old.chans }
    {
        if let Some(at) = place_of(&self.chans, near, chan) {
            self.ends[at] = Some(end);
        }
    }

    /// Drops the end of a channel, where it has one. Its place is looked for first near a place.
    pub(crate) fn clear_near(&mut self, chan: u32, near: usize)
        ensures items { self.new.items ≡ set self.old.items chan None }
        ensures chans { self.new.chans ≡ self.old.chans }
    {
        if let Some(at) = place_of(&self.chans, near, chan) {
            self.ends[at] = None;
        }
    }
}
