//! What a state exchanges with single rooms, and counts that are added to it.

ghost use Rattle.std.specs.Prelude.{◌≡◌, ◌<◌, ◌+◌, ◌^◌, ℕ, true, [], get_or, set, length};
ghost use Rattle.net_core.specs.Exchanges.{HasStraysBy, SameButCells, SameButTokens};
ghost use Rattle.net_types.specs.Nets.{chan_at, kind_of};
ghost use Rattle.net_core.specs.Fire.{tokens_at};
ghost use Rattle.net_core.specs.Held.{lane};
ghost use Rattle.net_core.specs.Plans.{keeps, own_of, IsShaped};
ghost use Rattle.net_core.specs.States.{IsOf, cell_at, cells_of, dates_of, queue_array, state_of, strays_at};
ghost use Rattle.net_core.specs.private.Exchanges.{AreSummed};

use crate::cell::Cell;
use crate::channel::Channel;
use crate::state::State;
use net_check::Checked;
use std::mem::swap;

/// Adds numbers to those at the same places; none past them.
fn add_each(sums: &mut Vec<u64>, more: &[u64])
    requires { (a : ℕ) → get_or sums.old.items a 0 + get_or more.now a 0 < 2 ^ 64 }
    ensures { AreSummed sums.old.items more.now (length more.now) sums.new.items }
{
    for at in 0..more.len() {
        if at < sums.len() {
            sums[at] += more[at];
        }
    }
}

impl State {
    /// Exchanges what a unit keeps with a cell of the form and the shape that the unit asks for. It takes no memory.
    pub fn exchange_cell(&mut self, net: &Checked, unit: u32, other: &mut Cell)
        requires of { IsOf net.now self.old }
        requires within { unit < length net.now.units }
        requires keeps { keeps (kind_of net.now unit) other.old ≡ true }
        requires shape { IsShaped (kind_of net.now unit) other.old (queue_array other.old) }
        requires serial { (own_of other.old).queue.next < 2 ^ 63 }
        ensures of { IsOf net.now self.new }
        ensures cells { cells_of self.new ≡ set (cells_of self.old) unit other.old }
        ensures rest { SameButCells self.old self.new }
        ensures other { other.new ≡ cell_at self.old unit }
    {
        let _ = net;
        swap(&mut self.cells[unit as usize], other);
    }

    /// Exchanges the tokens of a channel, with their dates, with those of another channel of as many slots. It takes no
    /// memory.
    pub fn exchange_channel(&mut self, net: &Checked, chan: u32, other: &mut Channel)
        requires of { IsOf net.now self.old }
        requires within { chan < length net.now.chans }
        requires slots { other.old.slots ≡ (chan_at net.now chan).slots }
        ensures of { IsOf net.now self.new }
        ensures tokens { (state_of self.new).tokens
            ≡ set (state_of self.old).tokens chan other.old.tokens }
        ensures dates { dates_of self.new ≡ set (dates_of self.old) chan other.old.dates }
        ensures rest { SameButTokens self.old self.new }
        ensures other { other.new ≡ lane (tokens_at (state_of self.old) chan)
            (get_or (dates_of self.old) chan []) (chan_at net.now chan).slots }
    {
        let _ = net;
        self.tokens.exchange_one(chan, other);
    }

    /// Adds counts of strays, by array; those past the arrays count for nothing. It takes no memory.
    pub fn add_stray_counts(&mut self, net: &Checked, counts: &[u64])
        requires of { IsOf net.now self.old }
        requires fits { (a : ℕ)
            → strays_at (state_of self.old) a + get_or counts.now a 0 < 2 ^ 64 }
        ensures of { IsOf net.now self.new }
        ensures state { HasStraysBy (state_of self.old) counts.now (state_of self.new) }
        ensures dates { dates_of self.new ≡ dates_of self.old }
    {
        let _ = net;
        add_each(&mut self.strays, counts);
    }
}
