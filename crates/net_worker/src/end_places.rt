//! Where the ends of channels between workers stand.
ghost use Rattle.std.specs.Prelude.{◌≡◌, ◌<◌, length, IfNone, IfOk};
ghost use Rattle.net_worker.specs.Crossing.{ArePlaced, HasOneOwner};

use el_base::MAX_WORKERS;
use net_check::Checked;
use net_types::{Chan, Memory};
use std::alloc::Global;

/// Where the ends of a channel from one worker to another may stand: among the channels from the first to others, and among
/// those to the second from others.
///
/// They say where to look first, and no contract says what they are.
#[derive(Clone, Copy)]
pub struct EndPlaces {
    pub put: u32,
    pub take: u32,
}

/// For each channel of a net where its ends stand, where its units have two owners; `None` for the others.
///
/// # Errors
///
/// [`Memory`] where memory is wanting.
pub(crate) fn places_of_ends(
    alloc: Global,
    net: &Checked,
    owners: &[u32],
) -> Result<Vec<Option<EndPlaces>>, Memory>
    requires { length owners.now ≡ length net.now.units }
    ensures { IfOk result (λ v. ArePlaced net.now.chans owners.now v.items) }
{
    let chans = net.net().chans.as_slice();
    let mut outs = vec![in alloc; 0; MAX_WORKERS as usize]?;
    let mut ins = vec![in alloc; 0; MAX_WORKERS as usize]?;
    let mut places = Vec::with_capacity(alloc, chans.len())?;
    for chan in chans {
        places.push(next_places(&mut outs, &mut ins, owners, chan))?;
    }
    Ok(places)
}

/// The next places for a channel whose units have two owners; `None` where they have one.
fn next_places(
    outs: &mut Vec<u32>,
    ins: &mut Vec<u32>,
    owners: &[u32],
    chan: &Chan,
) -> Option<EndPlaces>
    requires from { chan.now.from.unit < length owners.now }
    requires to { chan.now.to.unit < length owners.now }
    ensures { IfNone result (HasOneOwner owners.now chan.now) }
{
    let from = owners[chan.from.unit as usize];
    let to = owners[chan.to.unit as usize];
    if from == to {
        return None;
    }
    let put = next_place(outs, from);
    let take = next_place(ins, to);
    Some(EndPlaces { put, take })
}

/// The next place among the ends of a worker.
fn next_place(counts: &mut Vec<u32>, worker: u32) -> u32 {
    let at = worker as usize;
    if at >= counts.len() {
        return 0;
    }
    let place = counts[at];
    counts[at] = place.wrapping_add(1);
    place
}
