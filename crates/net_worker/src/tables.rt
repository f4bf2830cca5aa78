//! What all workers of a net read.
ghost use Rattle.std.specs.Prelude.{◌≡◌, ◌<◌, length, All, IfOk};
ghost use Rattle.el_base.specs.Limits.{max_workers};
ghost use Rattle.net_core.specs.Runs.{opening};
ghost use Rattle.net_core.specs.States.{IsOf, state_of};
ghost use Rattle.net_core.proofs.PropLemmas.{is_of_prop, state_set};
ghost use Rattle.net_worker.specs.Crossing.{AreMarked, ArePlaced};
ghost use Rattle.net_worker.specs.Places.{ArePlacesOf};
ghost use Rattle.net_worker.specs.Spans.{AreWithin};

use crate::base::Base;
use crate::crossing::crossing_units;
use crate::end_places::{EndPlaces, places_of_ends};
use crate::places::Places;
use crate::spans::{NOWHERE, Span, spans_of};
use net_check::Checked;
use net_types::{Inputs, List, Memory};
use std::alloc::Global;
use std::sync::Arc;

/// A net that is lent, the owner of each of its units, and inputs.
pub struct Tables<'a> {
    pub(crate) net: &'a Checked,
    pub(crate) inputs: Inputs,
    pub(crate) owners: List<u32>,
    /// Whether a channel goes from or to another worker, by unit.
    pub(crate) crossing: Vec<bool>,
    /// By worker: where its units lie.
    pub(crate) spans: Vec<Span>,
    /// By channel: where its ends stand, where it goes from one worker to another.
    pub(crate) end_places: Vec<Option<EndPlaces>>,
    /// The opening state, of which each worker keeps a part of its own.
    pub(crate) base: Arc<Base>,
    /// Where workers keep the rooms of their units and channels.
    pub(crate) places: Arc<Places>,
    pub ghost owned: { length owners ≡ length net.now.units },
    pub ghost few: { All (λ o. o < max_workers) owners },
    pub ghost marked: { AreMarked net.now.chans owners crossing.items },
    pub ghost lie: { AreWithin owners spans.items },
    pub ghost placed: { ArePlaced net.now.chans owners end_places.items },
    pub ghost base_of: { IsOf net.now base.value } by { is_of_prop net.now base.value },
    pub ghost base_opens: { state_of base.value ≡ opening net.now inputs } by { state_set _ _ },
    pub ghost stand: { ArePlacesOf net.now owners places.value },
}

// By hand, so that to let go of one is a call.
impl<'a> Drop for Tables<'a> {
    fn drop(self) {
        let Tables {
            net: _net,
            inputs: _inputs,
            owners: _owners,
            crossing: _crossing,
            spans: _spans,
            end_places: _end_places,
            base: _base,
            places: _places,
        } = self;
    }
}

/// A copy of the owners of units.
///
/// # Errors
///
/// [`Memory`] where memory is wanting.
fn copy_owners(alloc: Global, owners: &[u32]) -> Result<List<u32>, Memory>
    ensures { IfOk result (λ list. list ≡ owners.now) }
{
    let mut list = List::new(alloc);
    for owner in owners {
        list.push(*owner)?;
    }
    Ok(list)
}

impl<'a> Tables<'a> {
    ghost use Rattle.std.specs.Prelude.{◌≡◌, ◌<◌, ℕ, length, IfNone, IfOk, All, IsFalse};
    ghost use Rattle.el_base.specs.Limits.{max_workers};
    ghost use Rattle.net_types.specs.Inputs.{InputsFit};
    ghost use Rattle.net_worker.specs.Inside.{IsInnerUnit, StaysInside};
    ghost use Rattle.net_worker.specs.Plays.{putter, taker};
    ghost use Rattle.net_worker.specs.Spans.{IsWithin};
    ghost use Rattle.net_worker.specs.Views.{net_of, inputs_of, unit_owners, owner_in};

    /// A net, with copies of inputs that fit it and of one owner for each unit.
    ///
    /// # Errors
    ///
    /// [`Memory`] where memory is wanting.
    pub fn new(
        alloc: Global,
        net: &'a Checked,
        inputs: &Inputs,
        owners: &[u32],
    ) -> Result<Tables<'a>, Memory>
        requires fit { InputsFit net.now inputs.now }
        requires owned { length owners.now ≡ length net.now.units }
        requires few { All (λ o. o < max_workers) owners.now }
        ensures net { IfOk result (λ t. net_of t ≡ net.now) }
        ensures inputs { IfOk result (λ t. inputs_of t ≡ inputs.now) }
        ensures owners { IfOk result (λ t. unit_owners t ≡ owners.now) }
    {
        let crossing = crossing_units(alloc, net, owners)?;
        let spans = spans_of(alloc, owners)?;
        let end_places = places_of_ends(alloc, net, owners)?;
        let opening = Base::new(alloc, net, inputs)?;
        let base = Arc::new(alloc, opening)?;
        let found = Places::new(alloc, net, owners)?;
        let places = Arc::new(alloc, found)?;
        let owners = copy_owners(alloc, owners)?;
        let inputs = inputs.copy(alloc)?;
        Ok(Tables {
            net,
            inputs,
            owners,
            crossing,
            spans,
            end_places,
            base,
            places,
        })
    }

    /// Whether a channel goes from a unit to another worker, or from another to it. Takes no memory.
    #[tactic(auto, using(crate::proofs::Edges::inner_unit))]
    pub(crate) fn crosses(&self, unit: u32) -> bool
        ensures { IsFalse result → IsInnerUnit (net_of self.now) (owner_in self.now) unit }
    {
        let at = unit as usize;
        at >= self.crossing.len() || self.crossing[at]
    }

    /// Where the ends of a channel may stand, where it goes from one worker to another. Takes no memory.
    #[inline(always)]
    pub(crate) fn end_places(&self, chan: u32) -> Option<EndPlaces>
        ensures { IfNone result (StaysInside self.now chan) }
    {
        let at = chan as usize;
        if at < self.end_places.len() {
            self.end_places[at]
        } else {
            None
        }
    }

    /// A span in which all units of a worker lie. Takes no memory.
    pub(crate) fn span(&self, number: u32) -> Span
        ensures { (u : ℕ) → u < length (net_of self.now).units → owner_in self.now u ≡ number
            → IsWithin u result }
    {
        let at = number as usize;
        if at < self.spans.len() {
            self.spans[at]
        } else {
            NOWHERE
        }
    }

    /// The worker that owns a unit of the net. Takes no memory.
    pub fn owner(&self, unit: u32) -> u32
        requires { unit < length (net_of self.now).units }
        ensures { result ≡ owner_in self.now unit }
    {
        self.owners.as_slice()[unit as usize]
    }

    /// The worker that owns the unit from which a channel of the net comes. Takes no memory.
    pub fn putter(&self, chan: u32) -> u32
        requires { chan < length (net_of self.now).chans }
        ensures { result ≡ putter (net_of self.now) (owner_in self.now) chan }
    {
        self.owner(self.net.net().chans.as_slice()[chan as usize].from.unit)
    }

    /// The worker that owns the unit to which a channel of the net goes. Takes no memory.
    pub fn taker(&self, chan: u32) -> u32
        requires { chan < length (net_of self.now).chans }
        ensures { result ≡ taker (net_of self.now) (owner_in self.now) chan }
    {
        self.owner(self.net.net().chans.as_slice()[chan as usize].to.unit)
    }
}
