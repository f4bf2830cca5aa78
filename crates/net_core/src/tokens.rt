//! The tokens of all channels.

ghost use Rattle.std.specs.Prelude.{◌≡◌, ◌<◌, ◌≤◌, ◌^◌, ◌↔◌, ℕ, [], get_or, set, length, map, IsTrue, IfOk, IfSome};
ghost use Rattle.circular_buffer.specs.Buffer.{last_item};
ghost use Rattle.net_core.specs.Fire.{first};
ghost use Rattle.net_core.specs.Held.{AllWithin, HasRoom, dated_laid, held_of, laid_on, lane, put_at_end, take_at, taken_all};
ghost use Rattle.net_core.specs.Plans.{chans_of};
ghost use Rattle.net_core.specs.private.Channels.{zeros_for};
ghost use Rattle.net_types.specs.declared.net.Chan.{Chan as ChanValue};

use crate::channel::Channel;
use crate::plan::{Moves, Taken};
use net_types::{Chan, List, Memory};
use std::alloc::Global;
use std::marker::Model;
use std::mem::swap;

/// The tokens of each channel with their dates, and its slots.
#[derive(Drop)]
pub(crate) struct Tokens {
    channels: Vec<Channel>,
}

impl Model for Tokens {
    ghost use Rattle.net_core.specs.Held.{Held, held_code, held_of};

    ghost Value = { Held };

    ghost coded = { held_code };

    ghost view = { λ t. held_of t.channels.items };
}

impl Tokens {
    /// No token on any of these channels.
    pub(crate) fn new(alloc: Global, chans: &[Chan]) -> Result<Tokens, Memory>
        ensures tokens { IfOk result (λ t. t.tokens ≡ map (λ (c : ChanValue). []) chans.now) }
        ensures slots { IfOk result
            (λ t. t.slots ≡ map (λ (c : ChanValue). c.slots) chans.now) }
        ensures dates { IfOk result (λ t. t.dates ≡ map (λ (c : ChanValue). []) chans.now) }
    {
        let mut channels = Vec::with_capacity(alloc, chans.len())?;
        for chan in chans {
            channels.push(Channel::new(alloc, chan.slots)?)?;
        }
        Ok(Tokens { channels })
    }

    /// Puts tokens on channels that have none, with the date 0. It takes no memory.
    pub(crate) fn fill(&mut self, lists: &[List<u64>])
        requires none { (c : ℕ) → get_or self.old.tokens c [] ≡ [] }
        requires undated { (c : ℕ) → get_or self.old.dates c [] ≡ [] }
        requires count { length lists.now ≡ length self.old.tokens }
        requires slots { (c : ℕ) → length (get_or lists.now c []) ≤ get_or self.old.slots c 0 }
        ensures tokens { self.new.tokens ≡ lists.now }
        ensures slots { self.new.slots ≡ self.old.slots }
        ensures dates { self.new.dates ≡ map zeros_for lists.now }
    {
        fill_channels(&mut self.channels, lists);
    }

    /// The tokens of each channel, oldest first.
    ///
    /// # Errors
    ///
    /// [`Memory`] where memory is wanting.
    pub(crate) fn lists(&self, alloc: Global) -> Result<List<List<u64>>, Memory>
        ensures { IfOk result (λ l. l ≡ self.now.tokens) }
    {
        lists_of(alloc, self.channels.as_slice())
    }

    /// The oldest token of a channel; `None` past the channels.
    #[inline(always)]
    pub(crate) fn head(&self, chan: u32) -> Option<u64>
        ensures { result ≡ first (get_or self.now.tokens chan []) }
    {
        if (chan as usize) < self.channels.len() {
            self.channels[chan as usize].head()
        } else {
            None
        }
    }

    /// The date of the oldest token of a channel.
    #[inline(always)]
    pub(crate) fn date(&self, chan: u32) -> Option<u64>
        requires { chan < length self.now.tokens }
        ensures { result ≡ first (get_or self.now.dates chan []) }
    {
        self.channels[chan as usize].date()
    }

    /// The date of the newest token of a channel.
    #[inline(always)]
    pub(crate) fn newest_date(&self, chan: u32) -> Option<u64>
        requires { chan < length self.now.tokens }
        ensures { result ≡ last_item (get_or self.now.dates chan []) }
    {
        self.channels[chan as usize].newest_date()
    }

    /// Whether a channel has as many tokens as slots.
    #[inline(always)]
    pub(crate) fn is_full(&self, chan: u32) -> bool
        requires { chan < length self.now.tokens }
        ensures { IsTrue result
            ↔ get_or self.now.slots chan 0 ≤ length (get_or self.now.tokens chan []) }
    {
        self.channels[chan as usize].is_full()
    }

    /// How many tokens a channel has; none past the channels. No channel has 2^32 slots.
    #[inline(always)]
    pub(crate) fn held(&self, chan: u32) -> u32
        requires { get_or self.now.slots chan 0 < 2 ^ 32 }
        ensures { result ≡ length (get_or self.now.tokens chan []) }
    {
        if (chan as usize) < self.channels.len() {
            self.channels[chan as usize].held()
        } else {
            0
        }
    }

    /// Whether a channel has fewer tokens than slots; none past the channels has.
    #[inline(always)]
    pub(crate) fn has_room(&self, chan: u32) -> bool
        ensures { IsTrue result ↔ HasRoom self.now chan }
    {
        if (chan as usize) < self.channels.len() {
            self.channels[chan as usize].has_room()
        } else {
            false
        }
    }

    /// Takes the oldest token of a channel.
    #[inline(always)]
    pub(crate) fn take(&mut self, chan: u32)
        requires { chan < length self.old.tokens }
        ensures tokens { self.new.tokens ≡ take_at chan self.old.tokens }
        ensures slots { self.new.slots ≡ self.old.slots }
        ensures dates { self.new.dates ≡ take_at chan self.old.dates }
    {
        self.channels[chan as usize].take();
    }

    /// Puts a token with its date on a channel.
    #[inline(always)]
    pub(crate) fn put(&mut self, chan: u32, value: u64, date: u64)
        requires { HasRoom self.old chan }
        ensures tokens { self.new.tokens ≡ put_at_end chan value self.old.tokens }
        ensures slots { self.new.slots ≡ self.old.slots }
        ensures dates { self.new.dates ≡ put_at_end chan date self.old.dates }
    {
        self.channels[chan as usize].put(value, date);
    }

    /// Exchanges the tokens of a channel, with their dates, with those of another channel of as many slots.
    pub(crate) fn exchange_one(&mut self, chan: u32, other: &mut Channel)
        requires within { chan < length self.old.tokens }
        requires slots { other.old.slots ≡ get_or self.old.slots chan 0 }
        ensures tokens { self.new.tokens ≡ set self.old.tokens chan other.old.tokens }
        ensures slots { self.new.slots ≡ self.old.slots }
        ensures dates { self.new.dates ≡ set self.old.dates chan other.old.dates }
        ensures other { other.new ≡ lane (get_or self.old.tokens chan [])
            (get_or self.old.dates chan []) (get_or self.old.slots chan 0) }
    {
        swap(&mut self.channels[chan as usize], other);
    }

    /// Takes the oldest tokens of channels.
    #[inline(always)]
    fn take_all(&mut self, taken: Taken)
        requires { AllWithin (length self.old.tokens) (chans_of taken) }
        ensures tokens { self.new.tokens ≡ taken_all (chans_of taken) self.old.tokens }
        ensures slots { self.new.slots ≡ self.old.slots }
        ensures dates { self.new.dates ≡ taken_all (chans_of taken) self.old.dates }
    {
        match taken {
            Taken::None => {}
            Taken::One(c) => self.take(c),
            Taken::Two(c, d) => {
                self.take(c);
                self.take(d);
            }
            Taken::Three(c, d, e) => {
                self.take(c);
                self.take(d);
                self.take(e);
            }
        }
    }

    /// Takes the oldest tokens of channels, and then puts one with this date.
    #[inline(always)]
    pub(crate) fn make(&mut self, moves: Moves, date: u64)
        requires within { AllWithin (length self.old.tokens) (chans_of moves.taken) }
        requires room { IfSome moves.laid (λ w. HasRoom self.old w.chan) }
        ensures tokens { self.new.tokens
            ≡ laid_on moves.laid (taken_all (chans_of moves.taken) self.old.tokens) }
        ensures slots { self.new.slots ≡ self.old.slots }
        ensures dates { self.new.dates
            ≡ laid_on (dated_laid date moves.laid)
            (taken_all (chans_of moves.taken) self.old.dates) }
    {
        self.take_all(moves.taken);
        match moves.laid {
            None => {}
            Some(laid) => self.put(laid.chan, laid.value, date),
        }
    }
}

/// Puts tokens on channels that have none, with the date 0.
fn fill_channels(channels: &mut Vec<Channel>, lists: &[List<u64>])
    requires none { (c : ℕ) → get_or (held_of channels.old.items).tokens c [] ≡ [] }
    requires undated { (c : ℕ) → get_or (held_of channels.old.items).dates c [] ≡ [] }
    requires count { length lists.now ≡ length channels.old.items }
    requires slots { (c : ℕ) → length (get_or lists.now c [])
        ≤ get_or (held_of channels.old.items).slots c 0 }
    ensures tokens { (held_of channels.new.items).tokens ≡ lists.now }
    ensures slots { (held_of channels.new.items).slots ≡ (held_of channels.old.items).slots }
    ensures dates { (held_of channels.new.items).dates ≡ map zeros_for lists.now }
{
    for at in 0..lists.len() {
        fill_channel(&mut channels[at], lists[at].as_slice());
    }
}

/// Puts tokens on a channel that has none, with the date 0.
fn fill_channel(channel: &mut Channel, tokens: &[u64])
    requires none { channel.old.tokens ≡ [] }
    requires undated { channel.old.dates ≡ [] }
    requires slots { length tokens.now ≤ channel.old.slots }
    ensures { channel.new ≡ lane tokens.now (zeros_for tokens.now) channel.old.slots }
{
    for token in tokens {
        channel.put(*token, 0);
    }
}

/// The tokens of each channel.
fn lists_of(alloc: Global, channels: &[Channel]) -> Result<List<List<u64>>, Memory>
    ensures { IfOk result (λ l. l ≡ (held_of channels.now).tokens) }
{
    let mut lists = List::new(alloc);
    for channel in channels {
        lists.push(channel.list(alloc)?)?;
    }
    Ok(lists)
}
