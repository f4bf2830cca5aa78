//! What firings move and change in the rooms of a worker, and what these exchange with a state.
ghost use Rattle.std.specs.Prelude.{◌≡◌, ◌<◌, ◌+◌, ◌^◌, ℕ, Some, true, length, IfSome};
ghost use Rattle.el_base.specs.Limits.{max_depth};
ghost use Rattle.net_core.specs.Exchanges.{HasStraysOf, chan_from, with_unit};
ghost use Rattle.net_core.specs.Fire.{after, has_room};
ghost use Rattle.net_core.specs.Held.{HasRoom, laid_on, taken_all};
ghost use Rattle.net_core.specs.Plans.{admits, apart, chans_of, moves_of};
ghost use Rattle.net_core.specs.States.{CountsRise, CountsWithin, IsOf, IsPlanOf, cell_at, state_of, strays_at, with_tokens};
ghost use Rattle.net_worker.specs.Portions.{AreInsHere, HasPins, IsInHere, IsOutHere, IsUnitHere, SameButTokens, SameHere};

use crate::portion::Portion;
use net_check::Checked;
use net_core::{Laid, Moves, Plan, State, Taken, count_strays, moves_of};
use net_types::Firing;

impl Portion {
    /// Takes the oldest tokens of channels.
    #[inline(always)]
    fn take_all(&mut self, net: &Checked, taken: Taken)
        requires of { IsOf net.now self.old.state }
        requires here { AreInsHere self.old (chans_of taken) }
        ensures of { IsOf net.now self.new.state }
        ensures tokens { self.new.state.tokens.tokens
            ≡ taken_all (chans_of taken) self.old.state.tokens.tokens }
        ensures rest { SameButTokens self.old.state self.new.state }
        ensures same { SameHere self.old self.new }
    {
        match taken {
            Taken::None => {}
            Taken::One(c) => self.take_in(net, c),
            Taken::Two(c, d) => {
                self.take_in(net, c);
                self.take_in(net, d);
            }
            Taken::Three(c, d, e) => {
                self.take_in(net, c);
                self.take_in(net, d);
                self.take_in(net, e);
            }
        }
    }

    /// Puts a token, where there is one.
    #[inline(always)]
    fn lay(&mut self, net: &Checked, laid: Option<Laid>)
        requires of { IsOf net.now self.old.state }
        requires here { IfSome laid (λ w. IsOutHere self.old w.chan) }
        requires room { IfSome laid (λ w. HasRoom self.old.state.tokens w.chan) }
        ensures of { IsOf net.now self.new.state }
        ensures tokens { self.new.state.tokens.tokens
            ≡ laid_on laid self.old.state.tokens.tokens }
        ensures rest { SameButTokens self.old.state self.new.state }
        ensures same { SameHere self.old self.new }
    {
        match laid {
            None => {}
            Some(laid) => self.put_out(net, laid.chan, laid.value),
        }
    }

    /// Makes a planned firing that has room.
    #[inline(always)]
    pub(crate) fn make(&mut self, net: &Checked, firing: Firing, plan: Plan)
        requires of { IsOf net.now self.old.state }
        requires here { HasPins net.now self.old firing.unit }
        requires effect { IsPlanOf net.now self.old.state firing (Some plan) }
        requires apart { apart plan.takes ≡ true }
        requires admits { admits (cell_at self.old.state firing.unit) plan.change ≡ true }
        requires room { has_room net.now (state_of self.old.state) firing.unit plan.put }
        requires counts { CountsWithin (2 ^ 62) (state_of self.old.state) }
        ensures of { IsOf net.now self.new.state }
        ensures state { state_of self.new.state
            ≡ after net.now (state_of self.old.state) firing }
        ensures counts { CountsRise max_depth
            (state_of self.old.state) (state_of self.new.state) }
        ensures same { SameHere self.old self.new }
    {
        self.make_moves(net, firing, plan, moves_of(net, firing.unit, &plan));
    }

    /// Makes a planned firing that has room, by its moves.
    #[inline(always)]
    pub(crate) fn make_moves(&mut self, net: &Checked, firing: Firing, plan: Plan, moves: Moves)
        requires of { IsOf net.now self.old.state }
        requires here { HasPins net.now self.old firing.unit }
        requires effect { IsPlanOf net.now self.old.state firing (Some plan) }
        requires moves { moves ≡ moves_of net.now firing.unit plan }
        requires apart { apart plan.takes ≡ true }
        requires admits { admits (cell_at self.old.state firing.unit) plan.change ≡ true }
        requires room { has_room net.now (state_of self.old.state) firing.unit plan.put }
        requires counts { CountsWithin (2 ^ 62) (state_of self.old.state) }
        ensures of { IsOf net.now self.new.state }
        ensures state { state_of self.new.state
            ≡ after net.now (state_of self.old.state) firing }
        ensures counts { CountsRise max_depth
            (state_of self.old.state) (state_of self.new.state) }
        ensures same { SameHere self.old self.new }
    {
        self.take_all(net, moves.taken);
        self.lay(net, moves.laid);
        let place = self.places.units[firing.unit as usize];
        let stray = self.cells[place as usize].change(plan.change);
        count_strays(&mut self.strays, net, firing.unit, stray);
        let _ = net.net();
    }

    /// Exchanges what a unit that is here keeps with a state of the net. It takes no memory.
    pub(crate) fn exchange_unit(&mut self, into: &mut State, net: &Checked, unit: u32)
        requires of { IsOf net.now self.old.state }
        requires of_state { IsOf net.now into.old }
        requires within { unit < length net.now.units }
        requires here { IsUnitHere self.old unit }
        ensures of { IsOf net.now self.new.state }
        ensures of_state { IsOf net.now into.new }
        ensures state { state_of into.new
            ≡ with_unit net.now unit (state_of self.old.state) (state_of into.old) }
        ensures held { state_of self.new.state
            ≡ with_unit net.now unit (state_of into.old) (state_of self.old.state) }
        ensures same { SameHere self.old self.new }
    {
        let place = self.places.units[unit as usize];
        into.exchange_cell(net, unit, &mut self.cells[place as usize]);
    }

    /// Exchanges the tokens of a channel to a unit that is here with a state of the net. It takes no memory.
    pub(crate) fn exchange_chan(&mut self, into: &mut State, net: &Checked, chan: u32)
        requires of { IsOf net.now self.old.state }
        requires of_state { IsOf net.now into.old }
        requires within { chan < length net.now.chans }
        requires here { IsInHere self.old chan }
        ensures of { IsOf net.now self.new.state }
        ensures of_state { IsOf net.now into.new }
        ensures state { state_of into.new ≡ with_tokens
            (chan_from chan (state_of self.old.state).tokens (state_of into.old).tokens)
            (state_of into.old) }
        ensures held { state_of self.new.state ≡ with_tokens
            (chan_from chan (state_of into.old).tokens (state_of self.old.state).tokens)
            (state_of self.old.state) }
        ensures same { SameHere self.old self.new }
    {
        let place = self.places.ins[chan as usize];
        into.exchange_channel(net, chan, &mut self.channels[place as usize]);
    }

    /// Adds these counts of strays to those of a state of the net. It takes no memory.
    pub(crate) fn add_strays(&self, into: &mut State, net: &Checked)
        requires of { IsOf net.now into.old }
        requires fits { (a : ℕ) → strays_at (state_of into.old) a
            + strays_at (state_of self.now.state) a < 2 ^ 64 }
        ensures of { IsOf net.now into.new }
        ensures state { HasStraysOf
            (state_of into.old) (state_of self.now.state) (state_of into.new) }
    {
        into.add_stray_counts(net, self.strays.as_slice());
    }
}
