//! The opening state of a net, of which each worker keeps a part of its own.
ghost use Rattle.std.specs.Prelude.{◌≡◌, ◌<◌, ◌≤◌, [], get_or, length, map, IfOk, MatchOption};
ghost use Rattle.net_types.specs.Inputs.{InputsFit};
ghost use Rattle.net_types.specs.declared.net.Chan.{Chan as ChanValue};
ghost use Rattle.net_core.specs.Runs.{opening};
ghost use Rattle.net_core.specs.States.{IsOf, arrays_of, cell_at, exit_at, home_at, homes_of, state_of};

use net_check::Checked;
use net_core::{Cell, Home, State};
use net_types::{Chan, Inputs, List, Memory};
use std::alloc::Global;
use std::marker::Model;

/// The opening state of a net, without rooms for the tokens of channels, of which it has none.
///
/// A clause sees the whole state.
#[derive(Drop)]
pub(crate) struct Base {
    units: State,
    /// By channel.
    slots: List<u32>,
}

impl Model for Base {
    ghost use Rattle.net_core.specs.States.{with_slots};
    ghost use Rattle.net_core.specs.declared.state.State.{State as Stored};

    ghost Value = { Stored };

    ghost view = { λ b. with_slots b.slots b.units };
}

/// The slots of channels.
///
/// # Errors
///
/// [`Memory`] where memory is wanting.
fn slots_of(alloc: Global, chans: &[Chan]) -> Result<List<u32>, Memory>
    ensures { IfOk result (λ slots. slots ≡ map (λ (c : ChanValue). c.slots) chans.now) }
{
    let mut slots = List::new(alloc);
    for chan in chans {
        slots.push(chan.slots)?;
    }
    Ok(slots)
}

impl Base {
    /// The opening state of a net on inputs.
    ///
    /// # Errors
    ///
    /// [`Memory`] where memory is wanting.
    pub(crate) fn new(alloc: Global, net: &Checked, inputs: &Inputs) -> Result<Base, Memory>
        requires { InputsFit net.now inputs.now }
        ensures of { IfOk result (λ b. IsOf net.now b) }
        ensures state { IfOk result (λ b. state_of b ≡ opening net.now inputs.now) }
    {
        let units = State::without_channels(alloc, net, inputs)?;
        let slots = slots_of(alloc, net.net().chans.as_slice())?;
        Ok(Base { units, slots })
    }

    /// Where an array of the header lies; `None` past the arrays.
    #[inline(always)]
    pub(crate) fn home(&self, array: u32) -> Option<&Home>
        ensures { MatchOption result (length (homes_of self.now) ≤ array)
            (λ h. (array < length (homes_of self.now)) × (h.now ≡ home_at self.now array)) }
    {
        self.units.home(array)
    }

    /// The elements of an array; none of an array that is not there.
    #[inline(always)]
    pub(crate) fn elements(&self, array: u32) -> &[u64]
        ensures { result.now ≡ get_or (arrays_of self.now) array [] }
    {
        self.units.elements(array)
    }

    /// What a unit keeps; `None` past the units.
    #[inline(always)]
    pub(crate) fn cell(&self, unit: u32) -> Option<&Cell>
        ensures { MatchOption result (length self.now.cells.items ≤ unit)
            (λ c. (unit < length self.now.cells.items) × (c.now ≡ cell_at self.now unit)) }
    {
        self.units.cell(unit)
    }

    /// The scalars of the inputs.
    #[inline(always)]
    pub(crate) fn scalars(&self) -> &[u64]
        ensures { result.now ≡ (state_of self.now).scalars }
    {
        self.units.scalars()
    }

    /// The number of the exit among the units.
    #[inline(always)]
    pub(crate) fn exit(&self) -> u32
        ensures { result ≡ exit_at self.now }
    {
        self.units.exit()
    }
}
