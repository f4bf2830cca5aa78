//! The channel on which the last control token to a control merge or a queue was put.

ghost use Rattle.std.specs.Prelude.{◌≡◌, ◌<◌, IfSome, MatchOption, length};
ghost use Rattle.net_types.specs.Nets.{into};
ghost use Rattle.cycle_engine.specs.private.Fed.{AreLeads, AreSized, IsPortMarked, KeepsFed};
ghost use Rattle.cycle_engine.specs.private.Control.{GoesIntoNone, place_from, control_after, end_from, leads_to_control_place, noted_place};

use crate::fed::Fed;
use crate::places::control_places_of;
use crate::used::Used;
use net_check::Checked;
use net_core::Laid;

/// Whether a channel leads control to an input of a control merge, or to a place of a queue.
#[inline(always)]
pub(crate) fn leads_to_control_place(net: &Checked, chan: u32) -> bool
    requires { chan < length net.now.chans }
    ensures { result ≡ leads_to_control_place net.now chan }
{
    let chan = net.net().chans.as_slice()[chan as usize];
    chan.ctl && u64::from(chan.to.place) < control_places_of(net, chan.to.unit)
}

/// Notes the channel on which a token was put, where it leads control to such a place, and marks the port to which it leads.
#[inline(always)]
pub(crate) fn note_put(
    noted: &mut u32,
    fed: &mut Fed,
    net: &Checked,
    used: &Used,
    laid: Option<Laid>,
)
    requires sized { AreSized fed.old }
    requires leads { AreLeads net.now fed.old.leads.items }
    requires within { IfSome laid (λ w. w.chan < length net.now.chans) }
    ensures control { noted.new ≡ control_after net.now laid noted.old }
    ensures kept { KeepsFed fed.old fed.new }
    ensures marked { IfSome laid
        (λ w. IsPortMarked net.now used.now.base.items w.chan fed.new) }
{
    if let Some(laid) = laid {
        if fed.is_noted(laid.chan) {
            fed.note(net, used, laid.chan, noted);
        }
    }
}

/// The place of a control merge, of so many inputs, into which a channel goes, where it goes into one.
#[inline(always)]
pub(crate) fn input_of(net: &Checked, chan: u32, unit: u32, ins: u32) -> Option<u32>
    ensures { MatchOption result (GoesIntoNone net.now chan unit ins)
        (λ p. p < ins × chan < length net.now.chans × (chan ≡ into unit p net.now.chans)) }
{
    let chans = net.net().chans.as_slice();
    if chan as usize >= chans.len() {
        return None;
    }
    let end = chans[chan as usize].to;
    if end.unit == unit && end.place < ins {
        Some(end.place)
    } else {
        None
    }
}

/// The place of a unit to which a channel leads control, where it leads to one.
#[inline(always)]
fn noted_place(net: &Checked, noted: u32, unit: u32) -> Option<u32>
    ensures { result ≡ noted_place net.now noted unit }
{
    let chans = net.net().chans.as_slice();
    if noted as usize >= chans.len() || !leads_to_control_place(net, noted) {
        return None;
    }
    let end = chans[noted as usize].to;
    if end.unit == unit {
        Some(end.place)
    } else {
        None
    }
}

/// The place of a unit to which the noted channel leads control, where it leads to one from a number on.
#[inline(always)]
pub(crate) fn next_control_place(net: &Checked, noted: u32, unit: u32, from: u32) -> Option<u32>
    ensures { result ≡ place_from (noted_place net.now noted unit) from }
{
    match noted_place(net, noted, unit) {
        None => None,
        Some(place) => { if from <= place { Some(place) } else { None } }
    }
}

/// The number, where the noted channel leads control to the place of a unit that is told.
#[inline(always)]
pub(crate) fn next_end(net: &Checked, noted: u32, unit: u32, end: u32, from: u32) -> Option<u32>
    ensures { result ≡ end_from (noted_place net.now noted unit) end from }
{
    match noted_place(net, noted, unit) {
        None => None,
        Some(place) => { if place == end { Some(from) } else { None } }
    }
}
