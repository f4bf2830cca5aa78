//! Where workers keep the rooms of their units and channels.
ghost use Rattle.std.specs.Prelude.{◌≡◌, ◌<◌, ◌+◌, ◌==◌, ◌||◌, ◌^◌, ℕ, IfOk, All, length, get_or};
ghost use Rattle.el_base.specs.Limits.{max_workers};
ghost use Rattle.net_worker.specs.Places.{ArePlacesOf, AreValues, HasCounted, put_place, take_place, unit_place};

use el_base::MAX_WORKERS;
use net_check::Checked;
use net_types::{Chan, Memory};
use std::alloc::Global;

/// By unit its place among the units of its owner; by channel its place among the channels at the units of the worker that
/// puts there, and of the worker that takes from it.
///
/// The channels at a unit go from it or to it. Units and channels ascend, from place 0 on.
#[derive(Drop)]
pub struct Places {
    pub(crate) units: Vec<u32>,
    pub(crate) outs: Vec<u32>,
    pub(crate) ins: Vec<u32>,
}

impl Places {
    /// The places of the units and channels of a net with an owner for each unit.
    ///
    /// # Errors
    ///
    /// [`Memory`] where memory is wanting.
    pub(crate) fn new(alloc: Global, net: &Checked, owners: &[u32]) -> Result<Places, Memory>
        requires owned { length owners.now ≡ length net.now.units }
        requires few { All (λ o. o < max_workers) owners.now }
        ensures { IfOk result (λ p. ArePlacesOf net.now owners.now p) }
    {
        let units = unit_places(alloc, net, owners)?;
        let (outs, ins) = chan_places(alloc, net, owners)?;
        Ok(Places { units, outs, ins })
    }
}

/// Of each unit its place among the units of its owner.
///
/// # Errors
///
/// [`Memory`] where memory is wanting.
fn unit_places(alloc: Global, net: &Checked, owners: &[u32]) -> Result<Vec<u32>, Memory>
    requires owned { length owners.now ≡ length net.now.units }
    requires few { All (λ o. o < max_workers) owners.now }
    ensures { IfOk result
        (λ places. AreValues (unit_place owners.now) (length owners.now) places.items) }
{
    let _ = net.net();
    let mut counts = vec![in alloc; 0; MAX_WORKERS as usize]?;
    let mut places = Vec::with_capacity(alloc, owners.len())?;
    for owner in owners {
        places.push(next_place(&mut counts, *owner))?;
    }
    Ok(places)
}

/// Of each channel its place among the channels at the units of its putter's owner, and of its taker's owner.
///
/// # Errors
///
/// [`Memory`] where memory is wanting.
fn chan_places(alloc: Global, net: &Checked, owners: &[u32]) -> Result<(Vec<u32>, Vec<u32>), Memory>
    requires owned { length owners.now ≡ length net.now.units }
    requires few { All (λ o. o < max_workers) owners.now }
    ensures outs { IfOk result (λ p. AreValues (put_place net.now owners.now)
        (length net.now.chans) p.0.items) }
    ensures ins { IfOk result (λ p. AreValues (take_place net.now owners.now)
        (length net.now.chans) p.1.items) }
{
    let chans = net.net().chans.as_slice();
    let mut counts = vec![in alloc; 0; MAX_WORKERS as usize]?;
    let mut outs = Vec::with_capacity(alloc, chans.len())?;
    let mut ins = Vec::with_capacity(alloc, chans.len())?;
    for chan in chans {
        let (put, take) = next_places(&mut counts, owners, chan);
        outs.push(put)?;
        ins.push(take)?;
    }
    Ok((outs, ins))
}

/// The next place of a channel in the lists of the owners of both its units.
fn next_places(counts: &mut Vec<u32>, owners: &[u32], chan: &Chan) -> (u32, u32)
    requires from { get_or owners.now chan.now.from.unit 0 < length counts.old.items }
    requires to { get_or owners.now chan.now.to.unit 0 < length counts.old.items }
    requires put { chan.now.from.unit < length owners.now }
    requires take { chan.now.to.unit < length owners.now }
    requires room { (j : ℕ) → get_or counts.old.items j 0 + 1 < 2 ^ 32 }
    ensures put { result.0
        ≡ get_or counts.old.items (get_or owners.now chan.now.from.unit 0) 0 }
    ensures take { result.1
        ≡ get_or counts.old.items (get_or owners.now chan.now.to.unit 0) 0 }
    ensures counts { HasCounted counts.old.items counts.new.items
        (λ j. get_or owners.now chan.now.from.unit 0 == j
        || get_or owners.now chan.now.to.unit 0 == j) }
{
    let from = owners[chan.from.unit as usize];
    let to = owners[chan.to.unit as usize];
    let put = next_place(counts, from);
    if from == to {
        return (put, put);
    }
    (put, next_place(counts, to))
}

/// The next place in the list of a worker.
fn next_place(counts: &mut Vec<u32>, worker: u32) -> u32
    requires within { worker < length counts.old.items }
    requires room { get_or counts.old.items worker 0 + 1 < 2 ^ 32 }
    ensures place { result ≡ get_or counts.old.items worker 0 }
    ensures counts { HasCounted counts.old.items counts.new.items (λ j. worker == j) }
{
    let place = counts[worker as usize];
    counts[worker as usize] = place + 1;
    place
}
