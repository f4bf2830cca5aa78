//! Firings that wait for credits of channels to other workers.
ghost use Rattle.std.specs.Prelude.{◌≡◌, ◌≢◌, ◌<◌, ℕ, true, length, IsFalse, IsTrue, None, get_or};
ghost use Rattle.std.specs.List.{Contains};
ghost use Rattle.net_worker.specs.Asking.{IsAsked};
ghost use Rattle.net_worker.specs.Glances.{PutsLooked, IsLooked};
ghost use Rattle.net_worker.specs.Offers.{NoCreditAt};
ghost use Rattle.net_worker.specs.Views.{net_of, number_of, owner_in};
ghost use Rattle.net_worker.specs.Waits.{IsDenied, AllDenied};
ghost use Rattle.net_worker.specs.Workers.{IsAwaited, IsMadeOf, IsOutOf, IsWaiting};

use crate::channel_ends::{ChannelEnds, stands_at};
use crate::tables::Tables;
use crate::worker::Worker;
use elastic_link::PutEnd;
use net_core::Laid;
use net_types::Firing;

/// Whether the end of a channel shows a credit.
fn has_credit(puts: &mut ChannelEnds<PutEnd>, chan: u32, near: usize) -> bool
    requires { chan < length puts.old.items }
    ensures looked { PutsLooked puts.old.items puts.new.items }
    ensures none { IsFalse result
        → NoCreditAt (get_or puts.old.items chan None) (get_or puts.new.items chan None) }
    ensures others { (c : ℕ) → c ≢ chan
        → get_or puts.new.items c None ≡ get_or puts.old.items c None }
    ensures chans { puts.new.chans ≡ puts.old.chans }
{
    match puts.get_mut(chan, near) {
        Some(end) => end.ready().is_some(),
        None => true,
    }
}

impl Worker {
    /// Notes the channel for whose credit a firing that was refused waits; tells whether it is one to another worker.
    pub(crate) fn note(&mut self, tables: &Tables, firing: Firing) -> bool
        requires made { IsMadeOf tables.now self.old }
        requires mine { owner_in tables.now firing.unit ≡ number_of self.old }
        requires within { firing.unit < length (net_of tables.now).units }
        ensures asked { IsAsked self.old self.new }
        ensures waiting { IsTrue result → IsWaiting tables.now self.new firing }
    {
        if !tables.crosses(firing.unit) {
            return false;
        }
        let Some(plan) = self.portion.plan(tables.net, firing) else {
            return true;
        };
        let Some(put) = plan.put else {
            return false;
        };
        let chan = tables.net.out_of_place(firing.unit, put.place);
        if !self.puts.has(chan) {
            return false;
        }
        let near = self.puts.last();
        self.wait_at(chan, near);
        true
    }

    /// Notes that a firing waits for a credit of the channel on which it lays a token, where that goes to another worker.
    #[tactic(auto, using(crate::proofs::EndPlaces::contains_at))]
    pub(crate) fn await_laid(&mut self, tables: &Tables, laid: Option<Laid>)
        ensures { IsAsked self.old self.new }
    {
        let Some(laid) = laid else {
            return;
        };
        let Some(places) = tables.end_places(laid.chan) else {
            return;
        };
        let near = places.put as usize;
        if stands_at(self.outs.as_slice(), near, laid.chan) {
            self.wait_at(laid.chan, near);
        }
    }

    /// Notes that a firing waits for a credit of a channel to another worker, which may stand near a place.
    fn wait_at(&mut self, chan: u32, near: usize)
        requires { Contains self.old.outs.items chan }
        ensures asked { IsAsked self.old self.new }
        ensures awaited { IsAwaited self.new chan }
    {
        self.waits.lay_near(chan, near, ());
    }

    /// Asks for credits where firings wait for one, and marks the units for which one came.
    pub(crate) fn ask(&mut self, tables: &Tables)
        requires made { IsMadeOf tables.now self.old }
        ensures made { IsMadeOf tables.now self.new }
        ensures looked { IsLooked self.old self.new }
        ensures denied { self.new.resting ≡ true → AllDenied tables.now self.old self.new }
    {
        for at in 0..self.outs.len() {
            let chan = self.outs[at];
            self.ask_at(tables, chan, at);
        }
    }

    /// The same for one channel to another worker, whose end may stand near a place.
    #[inline(always)]
    fn ask_at(&mut self, tables: &Tables, chan: u32, near: usize)
        requires made { IsMadeOf tables.now self.old }
        requires out { IsOutOf tables.now (number_of self.old) chan }
        ensures made { IsMadeOf tables.now self.new }
        ensures looked { IsLooked self.old self.new }
        ensures denied { self.new.resting ≡ true → IsDenied chan self.old self.new }
    {
        if !self.waits.has_near(chan, near) {
            return;
        }
        if has_credit(&mut self.puts, chan, near) {
            self.waits.clear_near(chan, near);
            self.resting = false;
            self.ready
                .mark(tables.net.net().chans.as_slice()[chan as usize].from.unit);
        }
    }
}
