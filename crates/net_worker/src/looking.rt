//! A worker looks at the channels from other workers.
ghost use Rattle.std.specs.Prelude.{◌≡◌, ◌<◌, IsSome, IfNone, IfSome, None, length, get_or};
ghost use Rattle.net_worker.specs.Asking.{TakesAsked};
ghost use Rattle.net_worker.specs.Glances.{NoTokenAt, HoldsNone, IsHanded};

use crate::channel_ends::ChannelEnds;
use crate::tables::Tables;
use crate::worker::Worker;
use elastic_link::{TakeEnd, Token};
use net_core::{Taken, Takes};

/// Sends what the end of a channel owes, where it has one.
#[inline(always)]
fn flush_at(takes: &mut ChannelEnds<TakeEnd>, chan: u32, near: usize)
    ensures asked { TakesAsked takes.old.items takes.new.items }
    ensures chans { takes.new.chans ≡ takes.old.chans }
{
    if let Some(end) = takes.get_mut(chan, near) {
        end.flush();
    }
}

/// The next token of a channel from another worker, where its end shows one; it is held then.
#[inline(always)]
fn peek_at(takes: &mut ChannelEnds<TakeEnd>, chan: u32, near: usize) -> Option<Token>
    requires within { chan < length takes.old.items }
    requires end { IsSome (get_or takes.old.items chan None) }
    requires free { HoldsNone (get_or takes.old.items chan None) }
    ensures none { IfNone result (TakesAsked takes.old.items takes.new.items) }
    ensures shown { IfNone result
        (NoTokenAt (get_or takes.old.items chan None) (get_or takes.new.items chan None)) }
    ensures some { IfSome result (λ x. IsHanded chan x takes.old.items takes.new.items) }
    ensures chans { takes.new.chans ≡ takes.old.chans }
{
    match takes.get_mut(chan, near) {
        Some(end) => end.peek(),
        None => None,
    }
}

impl Worker {
    ghost use Rattle.std.specs.Prelude.{ℕ, IsSome};
    ghost use Rattle.net_worker.specs.Glances.{IsLooked, IsSeen};
    ghost use Rattle.net_worker.specs.Views.{number_of, take_end};
    ghost use Rattle.net_worker.specs.Workers.{IsMadeOf, IsInto, IsWhole};

    /// Looks at a channel from another worker: sends what its end owes, and lays the next token into the state where none
    /// lies there. The end is looked for first at a place near which it may stand.
    #[inline(always)]
    fn look_at(&mut self, tables: &Tables, chan: u32, near: usize)
        requires made { IsMadeOf tables.now self.old }
        requires into { IsInto tables.now (number_of self.old) chan }
        requires end { IsSome (take_end self.old chan) }
        ensures made { IsMadeOf tables.now self.new }
        ensures looked { IsLooked self.old self.new }
        ensures seen { IsSeen chan self.old self.new }
    {
        flush_at(&mut self.takes, chan, near);
        if self.portion.held_in(tables.net, chan) > 0 {
            return;
        }
        let Some(token) = peek_at(&mut self.takes, chan, near) else {
            return;
        };
        self.portion.put_in(tables.net, chan, token.value);
        self.resting = false;
        self.ready
            .mark_fed(chan, &tables.net.net().chans.as_slice()[chan as usize]);
    }

    /// Looks at all channels from other workers.
    pub(crate) fn look(&mut self, tables: &Tables)
        requires made { IsMadeOf tables.now self.old }
        requires whole { IsWhole tables.now self.old }
        ensures made { IsMadeOf tables.now self.new }
        ensures looked { IsLooked self.old self.new }
        ensures seen { (c : ℕ) → IsInto tables.now (number_of self.old) c
            → IsSeen c self.old self.new }
    {
        for at in 0..self.ins.len() {
            let chan = self.ins[at];
            self.look_at(tables, chan, at);
        }
    }

    /// Looks again at the channels from other workers into places of a unit.
    pub(crate) fn look_again(&mut self, tables: &Tables, unit: u32, places: Takes)
        requires made { IsMadeOf tables.now self.old }
        ensures made { IsMadeOf tables.now self.new }
        ensures looked { IsLooked self.old self.new }
    {
        if tables.crosses(unit) {
            self.look_places(tables, unit, places);
        }
    }

    /// The same of a unit with such channels.
    fn look_places(&mut self, tables: &Tables, unit: u32, places: Takes)
        requires made { IsMadeOf tables.now self.old }
        ensures made { IsMadeOf tables.now self.new }
        ensures looked { IsLooked self.old self.new }
    {
        match places {
            Takes::None => {}
            Takes::One(p) => self.look_into(tables, unit, p),
            Takes::Two(p, q) => {
                self.look_into(tables, unit, p);
                self.look_into(tables, unit, q);
            }
            Takes::Three(p, q, r) => {
                self.look_into(tables, unit, p);
                self.look_into(tables, unit, q);
                self.look_into(tables, unit, r);
            }
        }
    }

    /// Looks at the channel into a place of a unit, where it comes from another worker.
    fn look_into(&mut self, tables: &Tables, unit: u32, place: u64)
        requires made { IsMadeOf tables.now self.old }
        ensures made { IsMadeOf tables.now self.new }
        ensures looked { IsLooked self.old self.new }
    {
        let chan = tables.net.into_place(unit, place);
        self.look_on(tables, chan);
    }

    /// Looks at a channel, where it comes from another worker.
    #[inline(always)]
    fn look_on(&mut self, tables: &Tables, chan: u32)
        requires made { IsMadeOf tables.now self.old }
        ensures made { IsMadeOf tables.now self.new }
        ensures looked { IsLooked self.old self.new }
    {
        let Some(places) = tables.end_places(chan) else {
            return;
        };
        self.look_near(tables, chan, places.take as usize);
    }

    /// The same, where its end is looked for first at a place near which it may stand.
    #[inline(always)]
    fn look_near(&mut self, tables: &Tables, chan: u32, near: usize)
        requires made { IsMadeOf tables.now self.old }
        ensures made { IsMadeOf tables.now self.new }
        ensures looked { IsLooked self.old self.new }
    {
        if self.takes.has_near(chan, near) {
            self.look_at(tables, chan, near);
        }
    }

    /// Looks at the channels from which a firing took, where they come from other workers.
    #[inline(always)]
    pub(crate) fn look_taken(&mut self, tables: &Tables, taken: Taken)
        requires made { IsMadeOf tables.now self.old }
        ensures made { IsMadeOf tables.now self.new }
        ensures looked { IsLooked self.old self.new }
    {
        match taken {
            Taken::None => {}
            Taken::One(c) => self.look_on(tables, c),
            Taken::Two(c, d) => {
                self.look_on(tables, c);
                self.look_on(tables, d);
            }
            Taken::Three(c, d, e) => {
                self.look_on(tables, c);
                self.look_on(tables, d);
                self.look_on(tables, e);
            }
        }
    }
}
