//! The tokens of one channel.

ghost use Rattle.std.specs.Prelude.{◌≡◌, ◌<◌, ◌≤◌, ◌↔◌, [], ◌∷◌, ◌++◌, drop, length, map, slice_get, IfOk, IsTrue, OnOk, Some};
ghost use Rattle.circular_buffer.specs.Buffer.{buffer, last_item};
ghost use Rattle.net_core.specs.declared.channel.Follower.{Follower as FollowerValue};
ghost use Rattle.net_core.specs.Fire.{first};
ghost use Rattle.net_core.specs.Held.{lane};

use circular_buffer::HeapCircularBuffer;
use net_types::{List, Memory};
use std::alloc::Global;
use std::marker::Model;
use std::mem::size_of;

/// The most bytes of a channel, as a state has one for each channel of its net.
const MAX_CHANNEL_BYTES: usize = 56;

const _: () = prove!(size_of::<Channel>() <= MAX_CHANNEL_BYTES);

/// A token behind the oldest, with its date.
#[derive(Clone, Copy)]
struct Follower {
    value: u64,
    date: u64,
}

/// The tokens of one channel in their order, with their dates, and how many slots there are for them.
///
/// A clause sees two lists, oldest first: the values and the dates; and the slots. The date of a token tells the cycle in
/// which it was put, and is 0 where no cycle is told. A channel takes all its memory when it is made. The two oldest
/// tokens are kept by themselves, so a channel of at most two slots takes no memory beside its own fields.
#[derive(Drop)]
pub struct Channel {
    oldest: u64,
    date: u64,
    second: Follower,
    count: u32,
    slots: u32,
    behind: Followers,
}

impl Model for Channel {
    ghost use Rattle.net_core.specs.Held.{Lane};
    ghost use Rattle.net_core.specs.private.Channels.{IsChannel, lane_code, lane_from};

    ghost Value = { Lane };

    ghost coded = { lane_code };

    ghost view = { λ c. lane_from c.count c.oldest c.date c.second c.slots c.behind.items };

    ghost invariant = { λ c. IsChannel c.count c.slots c.behind };
}

impl Channel {
    /// A channel with no token and so many slots.
    ///
    /// # Errors
    ///
    /// [`Memory`] where memory is wanting.
    pub fn new(alloc: Global, slots: u32) -> Result<Channel, Memory>
        ensures { IfOk result (λ c. c ≡ lane [] [] slots) }
    {
        let behind = Followers::with_rooms(alloc, slots.saturating_sub(2))?;
        Ok(Channel {
            oldest: 0,
            date: 0,
            second: Follower { value: 0, date: 0 },
            count: 0,
            slots,
            behind,
        })
    }

    /// The oldest token, where there is one.
    #[inline(always)]
    pub fn head(&self) -> Option<u64>
        ensures { result ≡ first self.now.tokens }
    {
        if self.count == 0 {
            None
        } else {
            Some(self.oldest)
        }
    }

    /// The date of the oldest token, where there is one.
    #[inline(always)]
    pub fn date(&self) -> Option<u64>
        ensures { result ≡ first self.now.dates }
    {
        if self.count == 0 {
            None
        } else {
            Some(self.date)
        }
    }

    /// The date of the newest token, where there is one.
    #[inline(always)]
    pub fn newest_date(&self) -> Option<u64>
        ensures { result ≡ last_item self.now.dates }
    {
        if self.count > 1 {
            self.last_date()
        } else {
            self.date()
        }
    }

    /// The date of the newest of several tokens. It stands apart so that what looks at a lone token stays small.
    #[inline(never)]
    fn last_date(&self) -> Option<u64>
        requires { 1 < length self.now.dates }
        ensures { result ≡ last_item self.now.dates }
    {
        if self.count > 2 {
            self.behind.last_date()
        } else {
            Some(self.second.date)
        }
    }

    /// How many tokens the channel has.
    #[inline(always)]
    pub fn held(&self) -> u32
        ensures { result ≡ length self.now.tokens }
    {
        self.count
    }

    /// Whether the channel has fewer tokens than slots.
    #[inline(always)]
    pub fn has_room(&self) -> bool
        ensures { IsTrue result ↔ (length self.now.tokens < self.now.slots) }
    {
        self.count < self.slots
    }

    /// Whether the channel has as many tokens as slots.
    #[inline(always)]
    pub fn is_full(&self) -> bool
        ensures { IsTrue result ↔ self.now.slots ≤ length self.now.tokens }
    {
        self.count >= self.slots
    }

    /// Takes the oldest token, where there is one.
    #[inline(always)]
    pub fn take(&mut self)
        ensures { self.new
            ≡ lane (drop 1 self.old.tokens) (drop 1 self.old.dates) self.old.slots }
    {
        if self.count > 1 {
            self.move_up();
        } else {
            self.count = 0;
        }
    }

    /// Takes the oldest of several tokens. It stands apart so that what takes a lone token stays small.
    #[inline(never)]
    fn move_up(&mut self)
        requires { 1 < length self.old.tokens }
        ensures { self.new
            ≡ lane (drop 1 self.old.tokens) (drop 1 self.old.dates) self.old.slots }
    {
        self.oldest = self.second.value;
        self.date = self.second.date;
        if self.count > 2 {
            self.behind.pop_into(&mut self.second);
        }
        self.count -= 1;
    }

    /// Puts a token with its date behind the others. It takes no memory.
    #[inline(always)]
    pub fn put(&mut self, value: u64, date: u64)
        requires { length self.old.tokens < self.old.slots }
        ensures { self.new
            ≡ lane (self.old.tokens ++ value ∷ []) (self.old.dates ++ date ∷ []) self.old.slots }
    {
        if self.count == 0 {
            self.oldest = value;
            self.date = date;
            self.count = 1;
        } else {
            self.put_behind(value, date);
        }
    }

    /// Puts a token behind others. It stands apart so that what puts a lone token stays small.
    #[inline(never)]
    fn put_behind(&mut self, value: u64, date: u64)
        requires some { 0 < length self.old.tokens }
        requires room { length self.old.tokens < self.old.slots }
        ensures { self.new
            ≡ lane (self.old.tokens ++ value ∷ []) (self.old.dates ++ date ∷ []) self.old.slots }
    {
        if self.count > 1 {
            self.behind.push_back(value, date);
        } else {
            self.second = Follower { value, date };
        }
        self.count += 1;
    }

    /// The tokens, oldest first.
    ///
    /// # Errors
    ///
    /// [`Memory`] where memory is wanting.
    pub(crate) fn list(&self, alloc: Global) -> Result<List<u64>, Memory>
        ensures { IfOk result (λ l. l ≡ self.now.tokens) }
    {
        let mut list = List::new(alloc);
        if self.count > 0 {
            list.push(self.oldest)?;
        }
        if self.count > 1 {
            list.push(self.second.value)?;
        }
        self.behind.append_to(&mut list)?;
        Ok(list)
    }
}

/// The tokens behind the two oldest of a channel, in a ring with a fixed number of rooms.
///
/// A clause sees them, oldest first, and how many there may be. Where there are no rooms there is no ring, and no memory is
/// taken.
#[derive(Drop)]
struct Followers {
    ring: Option<Box<HeapCircularBuffer<Follower>>>,
}

impl Model for Followers {
    ghost use Rattle.circular_buffer.specs.Buffer.{Buffer};
    ghost use Rattle.net_core.specs.declared.channel.Follower.{Follower as FollowerValue};
    ghost use Rattle.net_core.specs.private.Channels.{buffer_in};

    ghost Value = { Buffer FollowerValue };

    ghost view = { λ f. buffer_in f.ring };
}

impl Followers {
    /// No token, and so many rooms.
    ///
    /// # Errors
    ///
    /// [`Memory`] where memory is wanting.
    fn with_rooms(alloc: Global, rooms: u32) -> Result<Followers, Memory>
        ensures { IfOk result (λ f. f ≡ buffer [] rooms) }
    {
        if rooms == 0 {
            return Ok(Followers { ring: None });
        }
        let ring = HeapCircularBuffer::with_capacity(alloc, rooms as usize)?;
        let ring = Box::new(alloc, ring)?;
        Ok(Followers { ring: Some(ring) })
    }

    /// The date of the newest, where there is one.
    #[inline(never)]
    fn last_date(&self) -> Option<u64>
        ensures { result ≡ last_item (map (λ (f : FollowerValue). f.date) self.now.items) }
    {
        let last = self.ring.as_ref()?.back()?;
        Some(last.date)
    }

    /// Takes the oldest, and writes it to another place.
    #[inline(never)]
    fn pop_into(&mut self, place: &mut Follower)
        requires { 0 < length self.old.items }
        ensures value { Some place.new ≡ slice_get self.old.items 0 }
        ensures items { self.new ≡ buffer (drop 1 self.old.items) self.old.capacity }
    {
        if let Some(ring) = &mut self.ring {
            if let Some(oldest) = ring.pop_front() {
                *place = oldest;
            }
        }
    }

    /// Puts a token behind the others. It takes no memory.
    #[inline(never)]
    fn push_back(&mut self, value: u64, date: u64)
        requires { length self.old.items < self.old.capacity }
        ensures { self.new
            ≡ buffer (self.old.items ++ record { value = value; date = date } ∷ [])
            self.old.capacity }
    {
        if let Some(ring) = &mut self.ring {
            ring.push_back(Follower { value, date });
        }
    }

    /// Adds the values at the end of a list, oldest first.
    ///
    /// # Errors
    ///
    /// [`Memory`] where memory is wanting.
    fn append_to(&self, list: &mut List<u64>) -> Result<(), Memory>
        ensures { OnOk result
            (list.new ≡ list.old ++ map (λ (f : FollowerValue). f.value) self.now.items) }
    {
        if let Some(ring) = &self.ring {
            let (first, second) = ring.as_slices();
            append_values(list, first)?;
            append_values(list, second)?;
        }
        Ok(())
    }
}

/// Adds the values of tokens at the end of a list.
///
/// # Errors
///
/// [`Memory`] where memory is wanting.
fn append_values(list: &mut List<u64>, behind: &[Follower]) -> Result<(), Memory>
    ensures { OnOk result
        (list.new ≡ list.old ++ map (λ (f : FollowerValue). f.value) behind.now) }
{
    for follower in behind {
        list.push(follower.value)?;
    }
    Ok(())
}
