//! What feeds each unit.

ghost use Rattle.std.specs.Prelude.{◌≡◌, ◌<◌, true, Some, None, IfOk, get_or, length};
ghost use Rattle.net_types.specs.Nets.{kind_of};
ghost use Rattle.net_core.specs.States.{IsOf, state_of};
ghost use Rattle.cycle_engine.specs.private.Marking.{AreFeeds, AreFirsts, ArePartners, IsLacking, asked, beside, in_turn, into_where, partner_place};

use crate::places::asks_first;
use net_check::Checked;
use net_core::State;
use net_types::{Chan, Memory, Unit};
use std::alloc::Global;

/// Of each unit and each channel what is asked again and again in a run.
pub(crate) struct Feeds {
    /// The channel into the first place, of a unit that does not fire without a token there.
    pub firsts: Vec<Option<u32>>,
    /// Of each channel the one into the place beside it without whose token its unit does not fire; the number of all channels
    /// where there is none.
    pub partners: Vec<u32>,
}

// By hand, so that to let go of one is a call.
impl Drop for Feeds {
    fn drop(self) {
        let Feeds {
            firsts: _firsts,
            partners: _partners,
        } = self;
    }
}

/// The channel into the first place of a unit that does not fire without a token there.
fn asked(net: &Checked, unit: u32) -> Option<u32>
    ensures { result ≡ asked net.now unit }
{
    if asks_first(net, unit) {
        Some(net.into_place(unit, 0))
    } else {
        None
    }
}

/// The channel into the first place of each unit that does not fire without a token there.
///
/// # Errors
///
/// [`Memory`] where memory is wanting.
fn firsts(alloc: Global, net: &Checked) -> Result<Vec<Option<u32>>, Memory>
    ensures { IfOk result (λ v. AreFirsts net.now v.items) }
{
    let count = net.net().units.as_slice().len();
    let mut firsts = Vec::with_capacity(alloc, count)?;
    for at in 0..count {
        firsts.push(asked(net, at as u32))?;
    }
    Ok(firsts)
}

/// The place of a unit beside another one without whose token it does not fire, where it has one.
fn partner_place(kind: &Unit, place: u32) -> Option<u64>
    ensures { result ≡ partner_place kind.now place }
{
    match kind {
        Unit::Op2(_) => Some(beside(place)),
        Unit::Branch { .. } => Some(beside(place)),
        Unit::Select { .. } => Some(in_turn(place)),
        Unit::Mux { .. } => { if place == 0 { None } else { Some(0) } }
        Unit::Entry => None,
        Unit::Param(_) => None,
        Unit::Const { .. } => None,
        Unit::Op1(_) => None,
        Unit::Fork { .. } => None,
        Unit::Cmerge { .. } => None,
        Unit::Sink { .. } => None,
        Unit::Read(_) => None,
        Unit::Lsq { .. } => None,
        Unit::Exit => None,
    }
}

/// The other of two places.
fn beside(place: u32) -> u64
    ensures { result ≡ beside place }
{
    if place == 0 { 1 } else { 0 }
}

/// The next place of a select in turn.
fn in_turn(place: u32) -> u64
    ensures { result ≡ in_turn place }
{
    if place < 2 { u64::from(place) + 1 } else { 0 }
}

/// The channel into the place beside that into which a channel goes; the number of all channels where there is none.
fn partner(net: &Checked, chan: &Chan) -> u32
    requires { chan.now.to.unit < length net.now.units }
    ensures { result ≡ into_where net.now chan.now.to.unit
        (partner_place (kind_of net.now chan.now.to.unit) chan.now.to.place) }
{
    let end = chan.to;
    match partner_place(&net.net().units.as_slice()[end.unit as usize], end.place) {
        None => net.net().chans.as_slice().len() as u32,
        Some(place) => net.into_place(end.unit, place),
    }
}

/// For each channel the one into the place beside that into which it goes.
///
/// # Errors
///
/// [`Memory`] where memory is wanting.
fn partners(alloc: Global, net: &Checked) -> Result<Vec<u32>, Memory>
    ensures { IfOk result (λ v. ArePartners net.now v.items) }
{
    let chans = net.net().chans.as_slice();
    let mut partners = Vec::with_capacity(alloc, chans.len())?;
    for chan in chans {
        partners.push(partner(net, chan))?;
    }
    Ok(partners)
}

impl Feeds {
    /// Of the units of a net.
    ///
    /// # Errors
    ///
    /// [`Memory`] where memory is wanting.
    pub(crate) fn new(alloc: Global, net: &Checked) -> Result<Feeds, Memory>
        ensures { IfOk result (AreFeeds net.now) }
    {
        Ok(Feeds {
            firsts: firsts(alloc, net)?,
            partners: partners(alloc, net)?,
        })
    }

    /// The channel into the first place of a unit that does not fire without a token there; none past the units.
    #[inline(always)]
    pub(crate) fn first(&self, unit: u32) -> Option<u32>
        ensures { result ≡ get_or self.now.firsts.items unit None }
    {
        let at = unit as usize;
        if at < self.firsts.len() {
            self.firsts[at]
        } else {
            None
        }
    }

    /// Whether the unit into which a channel goes wants a token beside it, and so may not fire.
    #[inline(always)]
    pub(crate) fn lacks(&self, net: &Checked, state: &State, chan: u32) -> bool
        requires of { IsOf net.now state.now }
        requires feeds { AreFeeds net.now self.now }
        requires within { chan < length net.now.chans }
        ensures { result ≡ true → IsLacking net.now (state_of state.now) chan }
    {
        let partner = self.partners[chan as usize];
        (partner as usize) < self.partners.len() && state.held(net, partner) == 0
    }
}
