//! Which ports of queues of many have tokens.

ghost use Rattle.std.specs.Prelude.{◌≡◌, ◌≢◌, ◌^◌, ◌<◌, ◌≤◌, true, false, cond, IfOk, MatchOption, get_or, length};
ghost use Rattle.net_types.specs.Nets.{chan_at, firing};
ghost use Rattle.net_core.specs.States.{IsOf, state_of};
ghost use Rattle.cycle_engine.specs.declared.fed.Lead.TheVariants as leads;
ghost use Rattle.cycle_engine.specs.private.Control.{leads_to_control_place};
ghost use Rattle.cycle_engine.specs.private.Fed.{AreLeads, AreMarksOf, AreSized, HasNoneFed, IsLeft, IsMarkedPort, IsNextFed, IsPortMarked, KeepsFed, LosesFed, first_mark, lead_of, port_at, port_lead, shift};
ghost use Rattle.cycle_engine.specs.private.Used.{own_number};

use crate::control::leads_to_control_place;
use crate::places::{control_places_of, lacks_token, ports_of};
use crate::used::{Used, own_number};
use lsq_core::Bits;
use net_check::Checked;
use net_core::State;
use net_types::{Act, Firing, Memory, Unit};
use std::alloc::Global;

/// No machine has memory for so many bits.
const MOST_PLACES: usize = 1 << 58;

/// Of the ports of a queue of no more than so many nothing is noted.
pub(crate) const FEW_PORTS: u32 = 8;

/// How many bits a word has.
const WORD: usize = 64;

/// What a channel leads to.
#[derive(Clone, Copy)]
pub(crate) enum Lead {
    /// A place of which a run by cycles notes nothing.
    Other,
    /// It leads control to an input of a control merge, or to a control place of a queue.
    Control,
    /// The place for addresses of this port of a queue of many.
    Addr(u32),
    /// The place for data of this port of a queue of many.
    Data(u32),
}

/// Marks at the ports of queues of many that have a token for an address or for data.
pub(crate) struct Fed {
    /// What each channel leads to.
    pub leads: Vec<Lead>,
    /// How many places the net has.
    pub places: usize,
    /// Marks at places: of those for addresses by their numbers, and of those for data by their numbers from that of all places on.
    pub marked: Bits,
}

// By hand, so that to let go of one is a call.
impl Drop for Fed {
    fn drop(self) {
        let Fed {
            leads: _leads,
            places: _places,
            marked: _marked,
        } = self;
    }
}

/// What a place of a queue is for that comes so far after its control places.
fn port_lead(place: u64) -> Lead
    requires { place < 2 ^ 32 }
    ensures { result ≡ port_lead place }
{
    let port = (place / 2) as u32;
    if place % 2 == 0 {
        Lead::Addr(port)
    } else {
        Lead::Data(port)
    }
}

/// What a place of a unit is for that is no control place, so far as something is noted of it.
fn port_at(kind: &Unit, place: u32) -> Lead
    ensures { result ≡ port_at kind.now place }
{
    match kind {
        Unit::Lsq { ports, groups, .. } => {
            let controls = groups.as_slice().len() as u64 + 1;
            if ports.as_slice().len() <= FEW_PORTS as usize || u64::from(place) < controls {
                Lead::Other
            } else {
                port_lead(u64::from(place) - controls)
            }
        }
        _ => Lead::Other,
    }
}

/// What a channel leads to.
fn lead_of(net: &Checked, chan: u32) -> Lead
    requires { chan < length net.now.chans }
    ensures { result ≡ lead_of net.now chan }
{
    if leads_to_control_place(net, chan) {
        return Lead::Control;
    }
    let to = net.net().chans.as_slice()[chan as usize].to;
    let units = net.net().units.as_slice();
    if to.unit as usize >= units.len() {
        return Lead::Other;
    }
    port_at(&units[to.unit as usize], to.place)
}

/// What each channel leads to.
///
/// # Errors
///
/// [`Memory`] where memory is wanting.
fn leads(alloc: Global, net: &Checked) -> Result<Vec<Lead>, Memory>
    ensures { IfOk result (λ v. AreLeads net.now v.items) }
{
    let count = net.net().chans.as_slice().len();
    let mut leads = Vec::with_capacity(alloc, count)?;
    for at in 0..count {
        leads.push(lead_of(net, at as u32))?;
    }
    Ok(leads)
}

/// From where on marks at places of the kind of an act stand, where there are so many places.
#[inline(always)]
fn shift(places: usize, act: Act) -> usize
    ensures shift { result ≡ shift places act }
    ensures most { result ≤ places }
{
    match act {
        Act::Data(_) => places,
        Act::Go => 0,
        Act::From(_) => 0,
        Act::Send(_) => 0,
        Act::Alloc(_) => 0,
        Act::Addr(_) => 0,
        Act::Exec(_) => 0,
        Act::Reply(_) => 0,
        Act::Retire => 0,
        Act::End => 0,
    }
}

/// Whether an act takes an address or data of a port.
#[inline(always)]
fn is_at_port(act: Act) -> bool {
    match act {
        Act::Addr(_) => true,
        Act::Data(_) => true,
        Act::Go => false,
        Act::From(_) => false,
        Act::Send(_) => false,
        Act::Alloc(_) => false,
        Act::Exec(_) => false,
        Act::Reply(_) => false,
        Act::Retire => false,
        Act::End => false,
    }
}

/// Whether an act takes from a port's place that has no token.
#[inline(always)]
fn lacks(net: &Checked, state: &State, firing: Firing) -> bool
    requires { IsOf net.now state.now }
    ensures { result ≡ true → LosesFed net.now (state_of state.now) firing }
{
    match firing.act {
        Act::Addr(port) => {
            let first = control_places_of(net, firing.unit);
            lacks_token(net, state, firing.unit, first, 0, port)
        }
        Act::Data(port) => {
            let first = control_places_of(net, firing.unit);
            lacks_token(net, state, firing.unit, first, 1, port)
        }
        Act::Go => false,
        Act::From(_) => false,
        Act::Send(_) => false,
        Act::Alloc(_) => false,
        Act::Exec(_) => false,
        Act::Reply(_) => false,
        Act::Retire => false,
        Act::End => false,
    }
}

impl Fed {
    /// No mark at the ports of a net whose places have numbers.
    ///
    /// # Errors
    ///
    /// [`Memory`] where memory is wanting.
    pub(crate) fn new(alloc: Global, net: &Checked, places: usize) -> Result<Fed, Memory>
        ensures { IfOk result (AreMarksOf net.now places) }
    {
        if places > MOST_PLACES {
            return Err(Memory);
        }
        Ok(Fed {
            leads: leads(alloc, net)?,
            places,
            marked: Bits::new(alloc, 2 * places / WORD + 1)?,
        })
    }

    /// Marks the place of an act of a port, by where the places of units begin.
    #[inline(always)]
    fn mark(&mut self, net: &Checked, used: &Used, chan: u32, act: Act)
        requires sized { AreSized self.old }
        requires within { chan < length net.now.chans }
        requires own { own_number act ≢ 0 }
        ensures kept { KeepsFed self.old self.new }
        ensures marked { IsMarkedPort used.now.base.items
            (firing (chan_at net.now chan).to.unit act) self.new }
    {
        let unit = net.net().chans.as_slice()[chan as usize].to.unit;
        let number = used.base(unit).saturating_add(own_number(act));
        if number < self.places as u64 {
            let at = shift(self.places, act) + number as usize;
            self.marked.set(at, true);
        }
    }

    /// Takes the mark of the place of a firing away, whose number this is, where it is one of a port of a queue of many and has no
    /// token any more.
    #[inline(always)]
    pub(crate) fn leave(&mut self, net: &Checked, state: &State, firing: Firing, at: u64)
        requires of { IsOf net.now state.now }
        requires sized { AreSized self.old }
        requires within { at < self.old.places }
        ensures { IsLeft net.now (state_of state.now) firing at self.old self.new }
    {
        if is_at_port(firing.act) && ports_of(net, firing.unit) > FEW_PORTS {
            self.leave_port(net, state, firing, at);
        }
    }

    /// As [`Fed::leave`]. It stands apart so that what takes from no such port stays small.
    #[inline(never)]
    fn leave_port(&mut self, net: &Checked, state: &State, firing: Firing, at: u64)
        requires of { IsOf net.now state.now }
        requires sized { AreSized self.old }
        requires within { at < self.old.places }
        ensures { IsLeft net.now (state_of state.now) firing at self.old self.new }
    {
        if lacks(net, state, firing) {
            let at = shift(self.places, firing.act) + at as usize;
            self.marked.set(at, false);
        }
    }

    /// Whether something is noted of what is put on a channel.
    #[inline(always)]
    pub(crate) fn is_noted(&self, chan: u32) -> bool
        requires { chan < length self.now.leads.items }
        ensures { result ≡ false → get_or self.now.leads.items chan leads.Other ≡ leads.Other }
    {
        match self.leads[chan as usize] {
            Lead::Other => false,
            Lead::Control => true,
            Lead::Addr(_) => true,
            Lead::Data(_) => true,
        }
    }

    /// Marks the port to which a channel leads, where it leads to one, and notes the channel where it leads control.
    #[inline(never)]
    pub(crate) fn note(&mut self, net: &Checked, used: &Used, chan: u32, control: &mut u32)
        requires sized { AreSized self.old }
        requires leads { AreLeads net.now self.old.leads.items }
        requires within { chan < length net.now.chans }
        ensures kept { KeepsFed self.old self.new }
        ensures marked { IsPortMarked net.now used.now.base.items chan self.new }
        ensures control { control.new
            ≡ cond (leads_to_control_place net.now chan) chan control.old }
    {
        match self.leads[chan as usize] {
            Lead::Other => {}
            Lead::Control => *control = chan,
            Lead::Addr(port) => self.mark(net, used, chan, Act::Addr(port)),
            Lead::Data(port) => self.mark(net, used, chan, Act::Data(port)),
        }
    }

    /// The first of the numbers of marks at a unit's ports that stand four apart, one for each port.
    #[inline(always)]
    pub(crate) fn first(&self, used: &Used, unit: u32, act: Act) -> usize
        requires { AreSized self.now }
        ensures first { result ≡ first_mark self.now used.now.base.items unit act }
        ensures small { result < 2 ^ 62 }
    {
        let base = used.base(unit).min(self.places as u64) as usize;
        shift(self.places, act) + base + own_number(act) as usize
    }

    /// The least port from one on, and below another, that is marked, where the marks of ports stand four apart from a number on.
    pub(crate) fn next(&self, first: usize, from: u32, to: u32) -> Option<u32>
        requires sized { AreSized self.now }
        requires small { first < 2 ^ 62 }
        requires order { from ≤ to }
        ensures { MatchOption result (HasNoneFed self.now first from to)
            (λ n. IsNextFed self.now first from n) }
    {
        let limit = 2 * self.places;
        let least = (first + 4 * from as usize).min(limit);
        let most = (first + 4 * to as usize).min(limit);
        let found = self.marked.next(least, most);
        if found < most {
            Some(from + ((found - least) / 4) as u32)
        } else {
            None
        }
    }
}
