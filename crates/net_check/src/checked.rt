ghost use Rattle.std.specs.Prelude.{◌≡◌, ℕ, None, IfOk, IfErr, OnOk, get_or, length};
ghost use Rattle.net_types.specs.Nets.{into, out_of};
ghost use Rattle.net_types.specs.Numbered.{AreNumbered};
ghost use Rattle.net_types.specs.Rules.{KeepsC1};
ghost use Rattle.net_check.specs.Checks.{IsChecked};
ghost use Rattle.net_check.specs.Pins.{pins_of};
ghost use Rattle.net_check.specs.Headers.{KeepsC8};
ghost use Rattle.net_check.specs.Refusals.{RefusalHolds};
ghost use Rattle.net_check.specs.Retimed.{NameChannels, with_changes};
ghost use Rattle.net_check.specs.Shapes.{KeepsC7};
ghost use Rattle.net_check.specs.private.Bases.{KeepsBase};
ghost use Rattle.net_check.specs.private.Broken.{IsRefusalBy};
ghost use Rattle.net_check.specs.private.Steers.{IsTableOf};
ghost use Rattle.net_check.specs.declared.wires.Side.TheVariants.{In, Out};

use crate::controls::check_controls;
use crate::cycles::check_cycles;
use crate::ends::check_ends;
use crate::headers::check_header;
use crate::joins::joined_tables;
use crate::matches::check_widths;
use crate::pins::{Pins, pins_by_unit};
use crate::places::check_places;
use crate::refusal::{At, NetRefusal, Rule};
use crate::retiming::{Change, retime_net};
use crate::shapes::check_shapes;
use crate::sizes::check_sizes;
use crate::wires::{Side, Wires};
use net_types::{Memory, Net};
use std::alloc::Global;
use std::marker::Model;

/// A net that keeps the eight rules, with tables of the channels at places. Contracts see the net.
pub struct Checked {
    net: Net,
    into: Wires,
    out_of: Wires,
    pins: Vec<Pins>,
}

// By hand, so that to let go of one is a call.
impl Drop for Checked {
    fn drop(self) {
        let Checked {
            net: _net,
            into: _into,
            out_of: _out_of,
            pins: _pins,
        } = self;
    }
}

impl Model for Checked {
    ghost use Rattle.net_types.specs.declared.net.Net.{Net};

    ghost Value = { Net };

    ghost use Rattle.net_check.specs.private.Tabled.{IsTabled};

    ghost view = { λ c. c.net };

    ghost invariant = { λ c. IsTabled c };
}

impl Checked {
    /// The net.
    #[inline(always)]
    pub fn net(&self) -> &Net
        ensures net { result.now ≡ self.now }
        ensures checked { IsChecked self.now }
    {
        &self.net
    }

    /// A checked net that is equal, with tables of its own.
    ///
    /// # Errors
    ///
    /// [`Memory`] where memory is wanting.
    pub fn copy(&self, alloc: Global) -> Result<Checked, Memory>
        ensures { IfOk result (λ copy. copy ≡ self.now) }
    {
        let (into, out_of) = tables(alloc, &self.net)?;
        let pins = pins_by_unit(alloc, &self.net, &into, &out_of)?;
        let net = self.net.copy(alloc)?;
        Ok(Checked {
            net,
            into,
            out_of,
            pins,
        })
    }

    /// Gives channels other slots and delays, by changes in their order: of two changes of one channel the later counts.
    ///
    /// It costs time in proportion to the changes, the units and the channels, and no copy of the net.
    ///
    /// # Errors
    ///
    /// As [`check_net`] would answer for the net with the changes, which can break no rule but C3 and C4. The net is then
    /// what it was.
    pub fn retime(&mut self, alloc: Global, changes: &[Change]) -> Result<(), NetRefusal>
        requires { NameChannels changes.now self.old }
        ensures changed { OnOk result (self.new ≡ with_changes changes.now self.old) }
        ensures kept { IfErr result (λ e. self.new ≡ self.old) }
        ensures refused { IfErr result (λ e. RefusalHolds (with_changes changes.now self.old) e) }
    {
        retime_net(alloc, &mut self.net, changes)
    }

    /// The channels at the first places of a unit; past the units none has one. It costs one step.
    #[inline(always)]
    pub fn pins(&self, unit: u32) -> Pins
        ensures { result ≡ pins_of unit self.now.chans }
    {
        let at = unit as usize;
        if at < self.pins.len() {
            self.pins[at]
        } else {
            Pins::none(self.into.none)
        }
    }

    /// The numbers of the channels into the input places of a unit; of all channels at a place that has none.
    ///
    /// Places past the end have none, and a unit past the last has no place. It costs one step.
    #[inline(always)]
    pub fn ins_of(&self, unit: u32) -> &[u32]
        ensures { (p : ℕ) → get_or result.now p (length self.now.chans)
            ≡ into unit p self.now.chans }
    {
        self.into.of(unit)
    }

    /// The numbers of the channels out of the output places of a unit; of all channels at a place that has none.
    ///
    /// Places past the end have none, and a unit past the last has no place. It costs one step.
    #[inline(always)]
    pub fn outs_of(&self, unit: u32) -> &[u32]
        ensures { (p : ℕ) → get_or result.now p (length self.now.chans)
            ≡ out_of unit p self.now.chans }
    {
        self.out_of.of(unit)
    }

    /// The number of the channel into an input place, or of all channels where there is none. It costs one step.
    #[inline(always)]
    pub fn into_place(&self, unit: u32, place: u64) -> u32
        ensures { result ≡ into unit place self.now.chans }
    {
        match place {
            0 => self.pins(unit).first,
            1 => self.pins(unit).second,
            2 => self.pins(unit).third,
            _ => self.into.at(unit, place),
        }
    }

    /// The number of the channel out of an output place, or of all channels where there is none. It costs one step.
    #[inline(always)]
    pub fn out_of_place(&self, unit: u32, place: u64) -> u32
        ensures { result ≡ out_of unit place self.now.chans }
    {
        match place {
            0 => self.pins(unit).out,
            _ => self.out_of.at(unit, place),
        }
    }
}

/// A checked net of a net that keeps the eight rules; else the first rule that it breaks, in the order C8, C7, C1, C2,
/// C3, C4, C5, C6, with its culprit, and the net is dropped.
///
/// The units and the channels have to be fewer than 2^32 each, as [`Net::is_numbered`] tells.
///
/// C8 costs time in proportion to the units and the header, C7 to the units and the lists of queues, and each other
/// rule to the units and the channels; where C1 is broken, its search costs a logarithm more. C2, C3 and C5 take no
/// memory. No rule takes memory in proportion to a number that stands in a unit before C7 and C1 have bounded it.
///
/// # Errors
///
/// [`NetRefusal::Rule`] exactly where a rule is broken, and [`NetRefusal::Memory`] where memory is wanting.
pub fn check_net(alloc: Global, net: Net) -> Result<Checked, NetRefusal>
    requires { AreNumbered net }
    ensures value { IfOk result (λ checked. checked ≡ net) }
    ensures checked { OnOk result (IsChecked net) }
    ensures refused { IfErr result (λ e. RefusalHolds net e) }
{
    let (into, out_of) = checked_tables(alloc, &net)?;
    let pins = pins_by_unit(alloc, &net, &into, &out_of)?;
    Ok(Checked {
        net,
        into,
        out_of,
        pins,
    })
}

/// The tables of a net that keeps the eight rules.
///
/// # Errors
///
/// As [`check_net`].
fn checked_tables(alloc: Global, net: &Net) -> Result<(Wires, Wires), NetRefusal>
    requires { AreNumbered net.now }
    ensures ins { IfOk result (λ t. IsTableOf In net.now t.0) }
    ensures outs { IfOk result (λ t. IsTableOf Out net.now t.1) }
    ensures checked { OnOk result (IsChecked net.now) }
    ensures refused { IfErr result (λ e. RefusalHolds net.now e) }
{
    let (into, out_of) = check_base(alloc, net)?;
    check_rest(alloc, net, &into, &out_of)?;
    Ok((into, out_of))
}

/// The tables of the channels at the places of both sides: into units, and out of them.
///
/// # Errors
///
/// [`Memory`] where memory is wanting.
fn tables(alloc: Global, net: &Net) -> Result<(Wires, Wires), Memory>
    requires places { KeepsC1 net.now }
    requires numbered { AreNumbered net.now }
    ensures ins { IfOk result (λ t. IsTableOf In net.now t.0) }
    ensures outs { IfOk result (λ t. IsTableOf Out net.now t.1) }
{
    let into = Wires::new(alloc, net, Side::In)?;
    let out_of = Wires::new(alloc, net, Side::Out)?;
    Ok((into, out_of))
}

/// The rules that ask for no table, and the tables of a net that keeps them.
///
/// # Errors
///
/// The first of them that is broken, and want of memory.
fn check_base(alloc: Global, net: &Net) -> Result<(Wires, Wires), NetRefusal>
    requires { AreNumbered net.now }
    ensures ins { IfOk result (λ t. IsTableOf In net.now t.0) }
    ensures outs { IfOk result (λ t. IsTableOf Out net.now t.1) }
    ensures kept { OnOk result (KeepsBase net.now) }
    ensures refused { IfErr result (λ e. RefusalHolds net.now e) }
{
    let header = check_header(alloc, net)?;
    refuse(Rule::C8, header)?;
    let shapes = check_shapes(alloc, net)?;
    refuse(Rule::C7, shapes)?;
    let wires = check_joins(alloc, net)?;
    let widths = check_widths(net);
    refuse(Rule::C2, widths)?;
    let sizes = check_sizes(net);
    refuse(Rule::C3, sizes)?;
    Ok(wires)
}

/// Rule C1, where C8 and C7 are kept, and the tables of a net that keeps it.
///
/// Where the tables do not show that it is kept, a search finds the culprit.
///
/// # Errors
///
/// The rule, where it is broken, and want of memory.
fn check_joins(alloc: Global, net: &Net) -> Result<(Wires, Wires), NetRefusal>
    requires numbered { AreNumbered net.now }
    requires header { KeepsC8 net.now }
    requires shapes { KeepsC7 net.now }
    ensures ins { IfOk result (λ t. IsTableOf In net.now t.0) }
    ensures outs { IfOk result (λ t. IsTableOf Out net.now t.1) }
    ensures kept { OnOk result (KeepsC1 net.now) }
    ensures refused { IfErr result (λ e. RefusalHolds net.now e) }
{
    if let Some(wires) = joined_tables(alloc, net)? {
        return Ok(wires);
    }
    let places = check_places(alloc, net)?;
    refuse(Rule::C1, places)?;
    Ok(tables(alloc, net)?)
}

/// The other rules, where those are kept.
///
/// # Errors
///
/// The first of them that is broken, and want of memory.
fn check_rest(alloc: Global, net: &Net, into: &Wires, out_of: &Wires) -> Result<(), NetRefusal>
    requires base { KeepsBase net.now }
    requires ins { IsTableOf In net.now into.now }
    requires outs { IsTableOf Out net.now out_of.now }
    ensures kept { OnOk result (IsChecked net.now) }
    ensures refused { IfErr result (λ e. RefusalHolds net.now e) }
{
    let cycles = check_cycles(alloc, net)?;
    refuse(Rule::C4, cycles)?;
    let controls = check_controls(net, into, out_of);
    refuse(Rule::C5, controls)?;
    let ends = check_ends(alloc, net, into, out_of)?;
    refuse(Rule::C6, ends)
}

/// Goes on where nothing was found, else refuses by this rule.
///
/// # Errors
///
/// The rule, where something was found.
pub(crate) fn refuse(rule: Rule, found: Option<At>) -> Result<(), NetRefusal>
    ensures kept { OnOk result (found ≡ None) }
    ensures broken { IfErr result (λ e. IsRefusalBy rule found e) }
{
    match found {
        None => Ok(()),
        Some(at) => Err(NetRefusal::Rule {
            rule: rule.number(),
            at,
        }),
    }
}
