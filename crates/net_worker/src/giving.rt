//! Ends are given to a worker, and a worker that was gathered is closed.
ghost use Rattle.std.specs.Prelude.{◌≡◌, ◌≢◌, ◌↔◌, ℕ, Some, None, IsSome, IsTrue, true};
ghost use Rattle.elastic_link.specs.Ends.{IsNewPut, IsNewTake};
ghost use Rattle.net_types.specs.Nets.{chan_at};
ghost use Rattle.net_worker.specs.Ends.{slots_for};
ghost use Rattle.net_worker.specs.Views.{net_of, number_of, is_closed, put_end, take_end};
ghost use Rattle.net_worker.specs.Workers.{IsMadeOf, IsOutOf, IsInto, IsWhole};
ghost use Rattle.net_worker.specs.Given.{HasPuts, HasTakes, SameButPuts, SameButTakes, SameButClosed};
ghost use Rattle.net_worker.specs.declared.tables.Tables.{Tables};

use crate::worker::Worker;
use elastic_link::{PutEnd, TakeEnd};

impl Worker {
    /// Gives the worker the end that puts on a channel to another worker. Takes no memory.
    pub fn give_put(&mut self, chan: u32, end: PutEnd)
        requires out { (t : Tables) × IsMadeOf t self.old × IsOutOf t (number_of self.old) chan
            × IsNewPut (chan_at (net_of t) chan).slots end }
        requires none { put_end self.old chan ≡ None }
        ensures made { (t : Tables) → IsMadeOf t self.old → IsMadeOf t self.new }
        ensures given { put_end self.new chan ≡ Some end }
        ensures others { (c : ℕ) → c ≢ chan → put_end self.new c ≡ put_end self.old c }
        ensures rest { SameButPuts self.old self.new }
    {
        self.puts.lay(chan, end);
    }

    /// Gives the worker the end that takes from a channel from another worker. Takes no memory.
    pub fn give_take(&mut self, chan: u32, end: TakeEnd)
        requires into { (t : Tables) × IsMadeOf t self.old × IsInto t (number_of self.old) chan
            × IsNewTake end × (slots_for end ≡ (chan_at (net_of t) chan).slots) }
        requires none { take_end self.old chan ≡ None }
        ensures made { (t : Tables) → IsMadeOf t self.old → IsMadeOf t self.new }
        ensures given { take_end self.new chan ≡ Some end }
        ensures others { (c : ℕ) → c ≢ chan → take_end self.new c ≡ take_end self.old c }
        ensures rest { SameButTakes self.old self.new }
    {
        self.takes.lay(chan, end);
    }

    /// Whether each channel to or from another worker has its end, and the worker was not gathered. Takes no memory.
    pub fn whole(&self) -> bool
        ensures { (t : Tables) → IsMadeOf t self.now → (IsTrue result ↔ IsWhole t self.now) }
    {
        if self.closed {
            return false;
        }
        if self.has_puts() {
            return self.has_takes();
        }
        false
    }

    /// Whether each channel to another worker has its end.
    fn has_puts(&self) -> bool
        ensures { (t : Tables) → IsMadeOf t self.now → (IsTrue result ↔ HasPuts t self.now) }
    {
        for chan in self.outs.as_slice() {
            if !self.has_put(*chan) {
                return false;
            }
        }
        true
    }

    /// Whether each channel from another worker has its end.
    fn has_takes(&self) -> bool
        ensures { (t : Tables) → IsMadeOf t self.now → (IsTrue result ↔ HasTakes t self.now) }
    {
        for chan in self.ins.as_slice() {
            if !self.has_take(*chan) {
                return false;
            }
        }
        true
    }

    /// Whether the worker has the end that puts on a channel.
    fn has_put(&self, chan: u32) -> bool
        ensures { IsTrue result ↔ IsSome (put_end self.now chan) }
    {
        self.puts.has(chan)
    }

    /// Whether the worker has the end that takes from a channel.
    fn has_take(&self, chan: u32) -> bool
        ensures { IsTrue result ↔ IsSome (take_end self.now chan) }
    {
        self.takes.has(chan)
    }

    /// The worker is no longer whole, and else as it was.
    pub fn close(&mut self)
        ensures made { (t : Tables) → IsMadeOf t self.old → IsMadeOf t self.new }
        ensures closed { is_closed self.new ≡ true }
        ensures rest { SameButClosed self.old self.new }
    {
        self.closed = true;
    }
}
