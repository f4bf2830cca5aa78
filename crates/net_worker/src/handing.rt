//! A worker that was gathered hands over what it holds.
ghost use Rattle.std.specs.Prelude.{◌≡◌, ◌<◌, ◌≤◌, ◌+◌, ◌^◌, ◌++◌, ℕ, [], IsSome, length};
ghost use Rattle.elastic_link.specs.Ends.{IsLink, SamePutEnd, tokens_put, tokens_taken};
ghost use Rattle.net_types.specs.Nets.{chan_at};
ghost use Rattle.net_core.specs.Fire.{tokens_at};
ghost use Rattle.net_core.specs.Exchanges.{HasStraysOf, chan_from, with_unit};
ghost use Rattle.net_core.specs.States.{IsOf, state_of, strays_at, with_tokens};
ghost use Rattle.net_worker.specs.Handed.{FewLeft, HoldsChan, HoldsOf, HoldsUnit, IsLeft, SameButChan, SameButEndsAt, SameButState};
ghost use Rattle.net_worker.specs.Local.{values};
ghost use Rattle.net_worker.specs.Views.{held_state, put_end, take_end};
ghost use Rattle.net_worker.specs.Workers.{AreLinkedAt};

use crate::worker::Worker;
use elastic_link::{PutEnd, TakeEnd};
use net_check::Checked;
use net_core::State;

/// Takes the tokens of a link that were put and not taken, and puts their values on a channel of a state that has none.
fn drain_into(put: &mut PutEnd, take: &mut TakeEnd, net: &Checked, chan: u32, into: &mut State)
    requires link { IsLink put.old take.old }
    requires few { length (tokens_put put.old)
        ≤ (chan_at net.now chan).slots + length (tokens_taken take.old) }
    requires of { IsOf net.now into.old }
    requires none { tokens_at (state_of into.old) chan ≡ [] }
    ensures link { IsLink put.new take.new }
    ensures of { IsOf net.now into.new }
    ensures state { SameButChan chan (state_of into.old) (state_of into.new) }
    ensures left { values (tokens_taken take.old) ++ tokens_at (state_of into.new) chan
        ≡ values (tokens_put put.old) }
{
    'tokens: while let Some(token) = put.drain(take) {
        into.put_token(net, chan, token.value);
    }
}

impl Worker {
    /// Exchanges what a unit keeps, and the array that it may write, with another state of the net. Takes no memory.
    pub fn hand_unit(&mut self, net: &Checked, unit: u32, into: &mut State)
        requires holds { HoldsOf net.now self.old }
        requires of { IsOf net.now into.old }
        requires within { unit < length net.now.units }
        requires here { HoldsUnit self.old unit }
        ensures holds { HoldsOf net.now self.new }
        ensures of { IsOf net.now into.new }
        ensures state { state_of into.new
            ≡ with_unit net.now unit (held_state self.old) (state_of into.old) }
        ensures held { held_state self.new
            ≡ with_unit net.now unit (state_of into.old) (held_state self.old) }
        ensures rest { SameButState self.old self.new }
    {
        self.portion.exchange_unit(into, net, unit);
    }

    /// Exchanges the tokens of a channel with another state of the net. Takes no memory.
    pub fn hand_chan(&mut self, net: &Checked, chan: u32, into: &mut State)
        requires holds { HoldsOf net.now self.old }
        requires of { IsOf net.now into.old }
        requires within { chan < length net.now.chans }
        requires here { HoldsChan self.old chan }
        ensures holds { HoldsOf net.now self.new }
        ensures of { IsOf net.now into.new }
        ensures state { state_of into.new ≡ with_tokens
            (chan_from chan (held_state self.old).tokens (state_of into.old).tokens)
            (state_of into.old) }
        ensures held { held_state self.new ≡ with_tokens
            (chan_from chan (state_of into.old).tokens (held_state self.old).tokens)
            (held_state self.old) }
        ensures rest { SameButState self.old self.new }
    {
        self.portion.exchange_chan(into, net, chan);
    }

    /// Adds the worker's counts of strays to those of another state of the net. Takes no memory.
    pub fn add_strays(&self, net: &Checked, into: &mut State)
        requires of { IsOf net.now into.old }
        requires fits { (a : ℕ)
            → strays_at (state_of into.old) a + strays_at (held_state self.now) a < 2 ^ 64 }
        ensures of { IsOf net.now into.new }
        ensures state { HasStraysOf (state_of into.old) (held_state self.now) (state_of into.new) }
    {
        self.portion.add_strays(into, net);
    }

    /// With both workers in one thread: takes the tokens of a channel from this worker to the other that were put and not
    /// taken, and puts their values on that channel of a state that has none there. Takes no memory.
    pub fn drain(&mut self, other: &mut Worker, net: &Checked, chan: u32, into: &mut State)
        requires put { IsSome (put_end self.old chan) }
        requires take { IsSome (take_end other.old chan) }
        requires link { AreLinkedAt chan self.old other.old }
        requires few { FewLeft (chan_at net.now chan).slots chan self.old other.old }
        requires of { IsOf net.now into.old }
        requires none { tokens_at (state_of into.old) chan ≡ [] }
        ensures of { IsOf net.now into.new }
        ensures state { SameButChan chan (state_of into.old) (state_of into.new) }
        ensures left { IsLeft chan self.old other.old (tokens_at (state_of into.new) chan) }
        ensures link { AreLinkedAt chan self.new other.new }
        ensures this { SameButEndsAt chan self.old self.new }
        ensures that { SameButEndsAt chan other.old other.new }
    {
        let put_near = self.puts.last();
        let take_near = other.takes.last();
        if let Some(put) = self.puts.get_mut(chan, put_near) {
            if let Some(take) = other.takes.get_mut(chan, take_near) {
                drain_into(put, take, net, chan, into);
            }
        }
    }
}
