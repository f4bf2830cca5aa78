//! The rooms of a state that one worker keeps.
ghost use Rattle.std.specs.Prelude.{◌≡◌, ◌<◌, ◌≤◌, ◌↔◌, ◌^◌, ℕ, [], ◌++◌, ◌∷◌, false, true, get_or, length, map, set, IfNone, IfOk, IfSome, IsTrue, MatchOption};
ghost use Rattle.net_types.specs.declared.net.Chan.{Chan as ChanValue};
ghost use Rattle.net_types.specs.declared.net.Net.{Net};
ghost use Rattle.net_types.specs.Inputs.{InputsFit};
ghost use Rattle.net_types.specs.Nets.{chan_at, kind_of, uses};
ghost use Rattle.net_check.specs.Ends.{is_lsq};
ghost use Rattle.net_core.specs.Fire.{first, at_array, tokens_at};
ghost use Rattle.net_core.specs.Held.{put_at_end, take_at};
ghost use Rattle.net_core.specs.Runs.{HasExited, opening};
ghost use Rattle.net_core.specs.States.{CountsWithin, IsOf, IsQueueAt, arrays_of, cell_at, state_of, with_tokens};
ghost use Rattle.net_worker.specs.ChannelEnds.{AreChannels, IsNotAmong, StandsAt};
ghost use Rattle.net_worker.specs.Portions.{AreFirstCells, IsInHere, IsOutHere, IsUnitHere, SameButTokens, SameHere, first_lanes};

use crate::base::Base;
use crate::channel_ends::place_of;
use crate::places::Places;
use net_check::Checked;
use net_core::{Cell, Channel, Home, UnitQueue};
use net_types::{Inputs, Memory, Unit};
use std::alloc::Global;
use std::marker::Model;
use std::sync::Arc;

/// The rooms of a state of a net that one worker keeps: what its own units keep, the tokens of the channels at them, and its
/// counts of strays.
///
/// A clause sees a whole state, in which what is not here is as in the opening state.
#[derive(Drop)]
pub struct Portion {
    /// The opening state, which all workers share.
    pub(crate) base: Arc<Base>,
    pub(crate) places: Arc<Places>,
    /// The own units, ascending, and what they keep.
    pub(crate) units: Vec<u32>,
    pub(crate) cells: Vec<Cell>,
    /// The channels at the own units, ascending, and their tokens.
    pub(crate) chans: Vec<u32>,
    pub(crate) channels: Vec<Channel>,
    pub(crate) strays: Vec<u64>,
}

impl Model for Portion {
    ghost use Rattle.net_worker.specs.Portions.{PortionView, ArePortion, portion_of};

    ghost Value = { PortionView };

    ghost view = { λ p. portion_of p.units.items p.cells.items p.chans.items p.channels.items
        p.strays p.base.value p.places.value };

    ghost invariant = { λ p. ArePortion p.base.value p.places.value
        p.units.items p.cells.items p.chans.items p.channels.items };
}

/// What units of a net keep at first.
///
/// # Errors
///
/// [`Memory`] where memory is wanting.
fn cells_of(
    alloc: Global,
    net: &Checked,
    inputs: &Inputs,
    units: &[u32],
) -> Result<Vec<Cell>, Memory>
    requires { AreChannels (length net.now.units) units.now }
    ensures { IfOk result (λ cells. AreFirstCells net.now inputs.now units.now cells.items) }
{
    let kinds = net.net().units.as_slice();
    let arrays = inputs.arrays.as_slice();
    let mut cells = Vec::with_capacity(alloc, units.len())?;
    for unit in units {
        cells.push(Cell::new(alloc, &kinds[*unit as usize], arrays)?)?;
    }
    Ok(cells)
}

/// Channels of a net without tokens.
///
/// # Errors
///
/// [`Memory`] where memory is wanting.
fn channels_of(alloc: Global, net: &Checked, chans: &[u32]) -> Result<Vec<Channel>, Memory>
    requires { AreChannels (length net.now.chans) chans.now }
    ensures { IfOk result (λ channels. channels.items ≡ first_lanes net.now chans.now) }
{
    let of_net = net.net().chans.as_slice();
    let mut channels = Vec::with_capacity(alloc, chans.len())?;
    for chan in chans {
        channels.push(Channel::new(alloc, of_net[*chan as usize].slots)?)?;
    }
    Ok(channels)
}

impl Portion {
    /// The rooms of these units and channels in the opening state of a net on inputs.
    ///
    /// # Errors
    ///
    /// [`Memory`] where memory is wanting.
    pub(crate) fn new(
        alloc: Global,
        base: &Arc<Base>,
        places: &Arc<Places>,
        net: &Checked,
        inputs: &Inputs,
        units: Vec<u32>,
        chans: Vec<u32>,
    ) -> Result<Portion, Memory>
        requires fit { InputsFit net.now inputs.now }
        requires of { IsOf net.now base.now.value }
        requires opening { state_of base.now.value ≡ opening net.now inputs.now }
        requires outs { length places.now.value.outs.items ≡ length net.now.chans }
        requires ins { length places.now.value.ins.items ≡ length net.now.chans }
        requires units { AreChannels (length net.now.units) units.items }
        requires chans { AreChannels (length net.now.chans) chans.items }
        ensures of { IfOk result (λ p. IsOf net.now p.state) }
        ensures state { IfOk result (λ p. state_of p.state ≡ opening net.now inputs.now) }
        ensures counts { IfOk result (λ p. CountsWithin 0 (state_of p.state)) }
        ensures units { IfOk result (λ p. p.units ≡ units.items) }
        ensures chans { IfOk result (λ p. p.chans ≡ chans.items) }
        ensures places { IfOk result (λ p. p.places ≡ places.now.value) }
    {
        let cells = cells_of(alloc, net, inputs, units.as_slice())?;
        let channels = channels_of(alloc, net, chans.as_slice())?;
        let strays = vec![in alloc; 0; inputs.arrays.as_slice().len()]?;
        Ok(Portion {
            base: Arc::try_clone(base)?,
            places: Arc::try_clone(places)?,
            units,
            cells,
            chans,
            channels,
            strays,
        })
    }

    /// The units that are here, ascending.
    pub(crate) fn own(&self) -> &[u32]
        ensures { result.now ≡ self.now.units }
    {
        &self.units
    }

    /// What a unit that is here keeps.
    #[inline(always)]
    pub(crate) fn cell(&self, unit: u32) -> &Cell
        requires here { IsUnitHere self.now unit }
        ensures { result.now ≡ cell_at self.now.state unit }
    {
        let place = self.places.units[unit as usize];
        &self.cells[place as usize]
    }

    /// The oldest token of a channel to a unit that is here, where it has one; `None` past the channels.
    #[inline(always)]
    pub(crate) fn head(&self, net: &Checked, chan: u32) -> Option<u64>
        requires of { IsOf net.now self.now.state }
        requires here { chan < length net.now.chans → IsInHere self.now chan }
        ensures { result ≡ first (tokens_at (state_of self.now.state) chan) }
    {
        let _ = net;
        self.first_token(chan)
    }

    /// The oldest token of a channel, which is one to a unit that is here, or past the channels.
    #[inline(always)]
    pub(crate) fn first_token(&self, chan: u32) -> Option<u64>
        requires { chan < length self.now.state.tokens.tokens → IsInHere self.now chan }
        ensures { result ≡ first (get_or self.now.state.tokens.tokens chan []) }
    {
        if (chan as usize) < self.places.ins.len() {
            let place = self.places.ins[chan as usize];
            self.channels[place as usize].head()
        } else {
            None
        }
    }

    /// How many tokens a channel to a unit that is here has.
    #[inline(always)]
    pub(crate) fn held_in(&self, net: &Checked, chan: u32) -> u32
        requires of { IsOf net.now self.now.state }
        requires here { IsInHere self.now chan }
        ensures { result ≡ length (tokens_at (state_of self.now.state) chan) }
    {
        let _ = net;
        let place = self.places.ins[chan as usize];
        self.channels[place as usize].held()
    }

    /// How many tokens a channel from a unit that is here has.
    #[inline(always)]
    pub(crate) fn held_out(&self, net: &Checked, chan: u32) -> u32
        requires of { IsOf net.now self.now.state }
        requires here { IsOutHere self.now chan }
        ensures { result ≡ length (tokens_at (state_of self.now.state) chan) }
    {
        let _ = net;
        let place = self.places.outs[chan as usize];
        self.channels[place as usize].held()
    }

    /// Whether a channel from a unit that is here has fewer tokens than slots; none past the channels has.
    #[inline(always)]
    pub(crate) fn has_room_on(&self, net: &Checked, chan: u32) -> bool
        requires of { IsOf net.now self.now.state }
        requires here { chan < length net.now.chans → IsOutHere self.now chan }
        ensures { IsTrue result
            ↔ length (tokens_at (state_of self.now.state) chan) < (chan_at net.now chan).slots }
    {
        let _ = net;
        if (chan as usize) < self.places.outs.len() {
            let place = self.places.outs[chan as usize];
            self.channels[place as usize].has_room()
        } else {
            false
        }
    }

    /// The queue of a unit that is here, where it has one.
    #[inline(always)]
    pub(crate) fn queue(&self, net: &Checked, unit: u32) -> Option<&UnitQueue>
        requires of { IsOf net.now self.now.state }
        requires within { unit < length net.now.units }
        requires here { IsUnitHere self.now unit }
        ensures { MatchOption result (is_lsq (kind_of net.now unit) ≡ false)
            (λ q. IsQueueAt net.now self.now.state unit q.now) }
    {
        let _ = net;
        match self.cell(unit) {
            Cell::Queue(queue) => Some(queue),
            _ => None,
        }
    }

    /// The place of a unit among those that are here, where it is one of them.
    #[inline(always)]
    fn place(&self, unit: u32) -> Option<usize>
        ensures some { IfSome result (λ i. StandsAt self.now.units unit i) }
        ensures none { IfNone result (IsNotAmong self.now.units unit) }
    {
        let at = unit as usize;
        let near = if at < self.places.units.len() {
            self.places.units[at] as usize
        } else {
            0
        };
        place_of(&self.units, near, unit)
    }

    /// The elements of an array; none of an array that is not there.
    #[inline(always)]
    pub(crate) fn elements(&self, array: u32) -> &[u64]
        ensures { result.now ≡ get_or (arrays_of self.now.state) array [] }
    {
        match self.base.home(array) {
            Some(Home::Queue(unit)) => match self.place(*unit) {
                Some(at) => self.cells[at].elements(),
                None => self.base.elements(array),
            },
            _ => self.base.elements(array),
        }
    }

    /// The elements of the array that a unit works on.
    #[inline(always)]
    pub(crate) fn used(&self, unit: &Unit) -> &[u64]
        ensures { result.now ≡ at_array (arrays_of self.now.state) (uses unit.now) }
    {
        match unit {
            Unit::Read(array) => self.elements(*array),
            Unit::Lsq { array, .. } => self.elements(*array),
            _ => &[],
        }
    }

    /// Whether the exit has fired.
    pub(crate) fn exited(&self) -> bool
        ensures { (net : Net) → IsOf net self.now.state
            → (IsTrue result ↔ HasExited net (state_of self.now.state)) }
    {
        let exit = self.base.exit();
        match self.place(exit) {
            Some(at) => self.cells[at].fired(),
            None => match self.base.cell(exit) {
                Some(cell) => cell.fired(),
                None => false,
            },
        }
    }

    /// Takes the oldest token of a channel to a unit that is here.
    #[inline(always)]
    pub(crate) fn take_in(&mut self, net: &Checked, chan: u32)
        requires of { IsOf net.now self.old.state }
        requires here { IsInHere self.old chan }
        ensures of { IsOf net.now self.new.state }
        ensures state { state_of self.new.state ≡ with_tokens
            (take_at chan (state_of self.old.state).tokens) (state_of self.old.state) }
        ensures rest { SameButTokens self.old.state self.new.state }
        ensures same { SameHere self.old self.new }
    {
        let _ = net;
        let place = self.places.ins[chan as usize];
        self.channels[place as usize].take();
    }

    /// Takes the oldest token of a channel from a unit that is here.
    #[inline(always)]
    pub(crate) fn take_out(&mut self, net: &Checked, chan: u32)
        requires of { IsOf net.now self.old.state }
        requires here { IsOutHere self.old chan }
        ensures of { IsOf net.now self.new.state }
        ensures state { state_of self.new.state ≡ with_tokens
            (take_at chan (state_of self.old.state).tokens) (state_of self.old.state) }
        ensures rest { SameButTokens self.old.state self.new.state }
        ensures same { SameHere self.old self.new }
    {
        let _ = net;
        let place = self.places.outs[chan as usize];
        self.channels[place as usize].take();
    }

    /// Puts a token on a channel to a unit that is here, where the channel has room.
    #[inline(always)]
    pub(crate) fn put_in(&mut self, net: &Checked, chan: u32, value: u64)
        requires of { IsOf net.now self.old.state }
        requires here { IsInHere self.old chan }
        requires room { length (tokens_at (state_of self.old.state) chan)
            < (chan_at net.now chan).slots }
        ensures of { IsOf net.now self.new.state }
        ensures state { state_of self.new.state ≡ with_tokens
            (put_at_end chan value (state_of self.old.state).tokens)
            (state_of self.old.state) }
        ensures rest { SameButTokens self.old.state self.new.state }
        ensures same { SameHere self.old self.new }
    {
        let _ = net;
        let place = self.places.ins[chan as usize];
        self.channels[place as usize].put(value, 0);
    }

    /// Puts a token on a channel from a unit that is here, where the channel has room.
    #[inline(always)]
    pub(crate) fn put_out(&mut self, net: &Checked, chan: u32, value: u64)
        requires of { IsOf net.now self.old.state }
        requires here { IsOutHere self.old chan }
        requires room { length (tokens_at (state_of self.old.state) chan)
            < (chan_at net.now chan).slots }
        ensures of { IsOf net.now self.new.state }
        ensures state { state_of self.new.state ≡ with_tokens
            (put_at_end chan value (state_of self.old.state).tokens)
            (state_of self.old.state) }
        ensures rest { SameButTokens self.old.state self.new.state }
        ensures same { SameHere self.old self.new }
    {
        let _ = net;
        let place = self.places.outs[chan as usize];
        self.channels[place as usize].put(value, 0);
    }
}
