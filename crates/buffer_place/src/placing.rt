ghost use Rattle.std.specs.Prelude.{◌≡◌, ◌<◌, ◌≤◌, ◌^◌, ℕ, IfOk, IfErr, OnOk, length, vec_len};
ghost use Rattle.el_base.specs.Limits.{max_sum_of_slots};
ghost use Rattle.net_types.specs.Numbered.{AreNumbered};
ghost use Rattle.net_types.specs.Rules.{KeepsC1};
ghost use Rattle.net_check.specs.Checks.{EndsWithin};
ghost use Rattle.net_check.specs.Sizes.{KeepsC3};
ghost use Rattle.net_check.specs.Cycles.{KeepsC4};
ghost use Rattle.buffer_place.specs.Cuts.{AreCutsOf, cut_chans};
ghost use Rattle.buffer_place.specs.Placing.{AreMostSlots, IsPlaced};
ghost use Rattle.buffer_place.specs.Timings.{IsTiming};

use crate::cuts::{Cuts, cut_delay, unit_cuts};
use crate::timing::Timing;
use el_base::MAX_SUM_OF_SLOTS;
use net_check::channels_end_at_units;
use net_types::{Chan, List, Memory, Net};
use std::alloc::Global;

/// Gives each channel the delay of the class of the unit that it comes from, and as many slots as the timing says, or as many
/// as all channels may have.
///
/// Where the class has delay 0, the channel has delay 1 in these cases. By a timing without a depth: where it lies on a cycle
/// of channels whose classes have delay 0. By a depth: where it lies on such a cycle and does not lead to a unit of a greater
/// number, or where the level of the unit that it leaves and the weight of the unit that it enters are together above the depth.
/// The weight of a unit is 1, but 0 of forks, sinks, constants, parameters, conversions of widths, the entry and the exit; its
/// level is the greatest weight of a walk to it along channels of delay 0.
///
/// It costs time and memory in proportion to the units and the channels.
///
/// # Errors
///
/// [`Memory`] where memory is wanting. The net is then what it was.
pub fn place(alloc: Global, net: &mut Net, timing: Timing) -> Result<(), Memory>
    requires numbered { AreNumbered net.old }
    requires wired { KeepsC1 net.old }
    requires few { length net.old.chans ≤ max_sum_of_slots }
    requires timing { IsTiming timing }
    ensures placed { OnOk result (IsPlaced timing net.old net.new) }
    ensures sized { OnOk result (KeepsC3 net.new) }
    ensures delayed { OnOk result (KeepsC4 net.new) }
    ensures kept { IfErr result (λ e. net.new ≡ net.old) }
{
    channels_end_at_units();
    let cuts = unit_cuts(alloc, net, timing)?;
    let slots = most_slots(net.chans.as_slice().len(), timing.slots);
    let chans = placed_chans(alloc, net, timing, &cuts, slots)?;
    net.chans = chans;
    Ok(())
}

/// The slots of each of so many channels.
fn most_slots(channels: usize, wanted: u32) -> u32
    requires some { 0 < wanted }
    requires few { channels ≤ max_sum_of_slots }
    ensures most { AreMostSlots wanted channels result }
    ensures some { 0 < result }
{
    if channels == 0 {
        return wanted;
    }
    let most = MAX_SUM_OF_SLOTS / channels as u64;
    if most < u64::from(wanted) {
        most as u32
    } else {
        wanted
    }
}

/// The channels with their slots and their delays.
fn placed_chans(
    alloc: Global,
    net: &Net,
    timing: Timing,
    cuts: &Cuts,
    slots: u32,
) -> Result<List<Chan>, Memory>
    requires within { EndsWithin net.now }
    requires each { AreCutsOf (length net.now.units) cuts.now }
    ensures { IfOk result (λ chans. chans ≡
        cut_chans timing net.now cuts.now slots net.now.chans) }
{
    let mut chans = List::new(alloc);
    for chan in net.chans.as_slice() {
        chans.push(Chan {
            from: chan.from,
            to: chan.to,
            width: chan.width,
            slots,
            delay: cut_delay(net, timing, cuts, *chan),
            ctl: chan.ctl,
        })?;
    }
    Ok(chans)
}
