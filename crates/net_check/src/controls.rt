ghost use Rattle.std.specs.Prelude.{◌≡◌, ℕ, ◌+◌, ◌*◌, ◌^◌, ◌<◌, suc, true, false, [], ◌∷◌, length, MatchOption};
ghost use Rattle.net_types.specs.Numbered.{AreNumbered};
ghost use Rattle.net_types.specs.Rules.{KeepsC1};
ghost use Rattle.net_types.specs.declared.net.Net.{Net};
ghost use Rattle.net_types.specs.declared.net.Unit.TheVariants.{Fork};
ghost use Rattle.net_types.specs.Tables.{spot, spots, ins, outs, port_ins, port_outs, result_in};
ghost use Rattle.net_check.specs.Controls.{KeepsC5, CulpritC5, passes};
ghost use Rattle.net_check.specs.declared.wires.Side.TheVariants.{In, Out};
ghost use Rattle.net_check.specs.private.Bounds.{IsBounded};
ghost use Rattle.net_check.specs.private.Queues.{queue_ins, queue_outs};
ghost use Rattle.net_check.specs.private.Steers.{IsTableOf, agrees, is_mark, is_steered, marks, mux_ins, three_spots};

use crate::refusal::At;
use crate::wires::Wires;
use net_types::{Net, Port, Ty, Unit};

/// Rule C5, control: `None` where it is kept, else the culprit.
///
/// The tables tell the channels into and out of places. It costs time in proportion to the units and their places,
/// which are as many as the ends of channels where rule C1 is kept, and takes no memory.
pub(crate) fn check_controls(net: &Net, into: &Wires, out_of: &Wires) -> Option<At>
    requires places { KeepsC1 net.now }
    requires numbered { AreNumbered net.now }
    requires ins { IsTableOf In net.now into.now }
    requires outs { IsTableOf Out net.now out_of.now }
    ensures { MatchOption result (KeepsC5 net.now) (CulpritC5 net.now) }
{
    for (u, unit) in net.units.as_slice().iter().enumerate() {
        let at = u as u32;
        let inputs = Row {
            net,
            wires: into,
            unit: at,
        };
        let outputs = Row {
            net,
            wires: out_of,
            unit: at,
        };
        if !is_steered(&inputs, &outputs, unit) {
            return Some(At::Unit(at));
        }
    }
    None
}

/// The places of a unit on one side, with the table that tells their channels.
#[derive(Drop)]
struct Row<'a> {
    net: &'a Net,
    wires: &'a Wires,
    unit: u32,
}

impl Row<'_> {
    /// Whether the channel at the place is control.
    fn is_control(&self, place: u64) -> bool
        ensures { result ≡ marks self.now place }
    {
        let chan = self.wires.at(self.unit, place);
        match self.net.chans.as_slice().get(chan as usize) {
            Some(chan) => chan.ctl,
            None => false,
        }
    }

    /// Whether the place has the wanted mark.
    fn has(&self, place: u64, ctl: bool) -> bool
        ensures { result ≡ is_mark ctl (marks self.now place) }
    {
        self.is_control(place) == ctl
    }

    fn has_one(&self, first: bool) -> bool
        ensures { result ≡ agrees (marks self.now) (spot 0 0 first ∷ []) }
    {
        self.has(0, first)
    }

    fn has_two(&self, first: bool, second: bool) -> bool
        ensures { result ≡ agrees (marks self.now) (spot 0 0 first ∷ spot 1 0 second ∷ []) }
    {
        self.has(0, first) && self.has(1, second)
    }

    fn has_three(&self, first: bool, second: bool, third: bool) -> bool
        ensures { result ≡ agrees (marks self.now) (three_spots first second third) }
    {
        self.has(0, first) && self.has(1, second) && self.has(2, third)
    }

    /// Whether so many places from the first on have the wanted mark.
    fn has_run(&self, first: u64, count: u64, ctl: bool) -> bool
        requires { first + count < 2 ^ 64 }
        ensures { (w : ℕ) → result ≡ agrees (marks self.now) (spots first w ctl count) }
    {
        for i in 0..count {
            if !self.has(first + i, ctl) {
                return false;
            }
        }
        true
    }

    /// Of a mux: its condition, and its data inputs.
    fn has_choices(&self, ins: u32) -> bool
        ensures { (w : ℕ) → result ≡ agrees (marks self.now) (mux_ins w ins) }
    {
        self.has(0, false) && self.has_run(1, u64::from(ins), false)
    }

    /// Of a fork: the first output is marked as its input, and no other.
    fn has_copies(&self, passes: bool, count: u32) -> bool
        ensures { (net : Net) (w : ℕ)
            → result ≡ agrees (marks self.now) (outs net passes (Fork w count)) }
    {
        count == 0 || self.has(0, passes) && self.has_run(1, u64::from(count - 1), false)
    }

    fn has_result(&self, value: Option<Ty>) -> bool
        ensures { result ≡ agrees (marks self.now) (spot 0 32 true ∷ result_in value) }
    {
        match value {
            None => self.has_one(true),
            Some(_) => self.has_two(true, false),
        }
    }

    /// The control places of a queue: those of its groups, and that of its end.
    fn has_ends(&self, groups: u64) -> bool
        requires { groups + 1 < 2 ^ 64 }
        ensures { result ≡ agrees (marks self.now) (spots 0 32 true (suc groups)) }
    {
        self.has_run(0, groups + 1, true)
    }

    /// The addresses and the data of ports, from a place on.
    fn has_sources(&self, first: u64, ports: &[Port]) -> bool
        requires { first + 2 * length ports.now < 2 ^ 64 }
        ensures { (w : ℕ) → result ≡ agrees (marks self.now) (port_ins first w ports.now) }
    {
        let mut place = first;
        for port in ports {
            if !self.has_source(place, *port) {
                return false;
            }
            place += 2;
        }
        true
    }

    /// The address of a port, and its data where it stores.
    fn has_source(&self, place: u64, port: Port) -> bool
        requires { place + 2 < 2 ^ 64 }
        ensures { result ≡ agrees (marks self.now) (port_ins place 0 (port ∷ [])) }
    {
        match port {
            Port::Load => self.has(place, false),
            Port::Store => self.has(place, false) && self.has(place + 1, false),
        }
    }

    /// The values of ports that load, from a place on.
    fn has_values(&self, first: u64, ports: &[Port]) -> bool
        requires { first + length ports.now < 2 ^ 64 }
        ensures { (w : ℕ) → result ≡ agrees (marks self.now) (port_outs first w ports.now) }
    {
        let mut place = first;
        for port in ports {
            if !self.has_value(place, *port) {
                return false;
            }
            place += 1;
        }
        true
    }

    fn has_value(&self, place: u64, port: Port) -> bool
        ensures { result ≡ agrees (marks self.now) (port_outs place 0 (port ∷ [])) }
    {
        match port {
            Port::Load => self.has(place, false),
            Port::Store => true,
        }
    }

    /// Of a queue: its controls, and then its ports.
    fn has_queue_ins(&self, groups: usize, ports: &[Port]) -> bool
        requires { groups + 1 + 2 * length ports.now < 2 ^ 64 }
        ensures { (w : ℕ) → result ≡ agrees (marks self.now) (queue_ins groups w ports.now) }
    {
        let groups = groups as u64;
        self.has_ends(groups) && self.has_sources(groups + 1, ports)
    }

    fn has_queue_outs(&self, groups: usize, ports: &[Port]) -> bool
        requires { groups + 1 + length ports.now < 2 ^ 64 }
        ensures { (w : ℕ) → result ≡ agrees (marks self.now) (queue_outs groups w ports.now) }
    {
        let groups = groups as u64;
        self.has_ends(groups) && self.has_values(groups + 1, ports)
    }

    /// Whether the unit passes control, as its inputs tell.
    fn passes(&self, unit: &Unit) -> bool
        ensures { result ≡ passes (marks self.now) unit.now }
    {
        match unit {
            Unit::Fork { .. } => self.is_control(0),
            Unit::Branch { .. } => self.is_control(1),
            Unit::Entry => false,
            Unit::Param(_) => false,
            Unit::Const { .. } => false,
            Unit::Op1(_) => false,
            Unit::Op2(_) => false,
            Unit::Select { .. } => false,
            Unit::Mux { .. } => false,
            Unit::Cmerge { .. } => false,
            Unit::Sink { .. } => false,
            Unit::Read(_) => false,
            Unit::Lsq { .. } => false,
            Unit::Exit => false,
        }
    }

    /// Whether the marks are those of the unit's inputs.
    fn has_ins(&self, passes: bool, unit: &Unit) -> bool
        requires { IsBounded In unit.now }
        ensures { result ≡ agrees (marks self.now) (ins self.now.net.now passes unit.now) }
    {
        match unit {
            Unit::Entry => true,
            Unit::Param(_) => true,
            Unit::Const { .. } => self.has_one(false),
            Unit::Op1(_) => self.has_one(false),
            Unit::Op2(_) => self.has_two(false, false),
            Unit::Select { .. } => self.has_three(false, false, false),
            Unit::Fork { .. } => self.has_one(passes),
            Unit::Mux { ins, .. } => self.has_choices(*ins),
            Unit::Cmerge { ins } => self.has_run(0, u64::from(*ins), true),
            Unit::Branch { .. } => self.has_two(false, passes),
            Unit::Sink { .. } => self.has_one(false),
            Unit::Read(_) => self.has_one(false),
            Unit::Lsq { ports, groups, .. } => {
                self.has_queue_ins(groups.as_slice().len(), ports.as_slice())
            }
            Unit::Exit => self.has_result(self.net.result),
        }
    }

    /// Whether the marks are those of the unit's outputs.
    fn has_outs(&self, passes: bool, unit: &Unit) -> bool
        requires { IsBounded Out unit.now }
        ensures { result ≡ agrees (marks self.now) (outs self.now.net.now passes unit.now) }
    {
        match unit {
            Unit::Entry => self.has_one(true),
            Unit::Param(_) => self.has_one(false),
            Unit::Const { .. } => self.has_one(false),
            Unit::Op1(_) => self.has_one(false),
            Unit::Op2(_) => self.has_one(false),
            Unit::Select { .. } => self.has_one(false),
            Unit::Fork { outs, .. } => self.has_copies(passes, *outs),
            Unit::Mux { .. } => self.has_one(false),
            Unit::Cmerge { .. } => self.has_one(true),
            Unit::Branch { .. } => self.has_two(passes, passes),
            Unit::Sink { .. } => true,
            Unit::Read(_) => self.has_one(false),
            Unit::Lsq { ports, groups, .. } => {
                self.has_queue_outs(groups.as_slice().len(), ports.as_slice())
            }
            Unit::Exit => true,
        }
    }
}

/// Whether the channels at the unit's places are control where the table of places says so.
fn is_steered(inputs: &Row, outputs: &Row, unit: &Unit) -> bool
    requires one { inputs.now.net.now ≡ outputs.now.net.now }
    requires ins { IsBounded In unit.now }
    requires outs { IsBounded Out unit.now }
    ensures { result
        ≡ is_steered inputs.now.net.now (marks inputs.now) (marks outputs.now) unit.now }
{
    let passes = inputs.passes(unit);
    inputs.has_ins(passes, unit) && outputs.has_outs(passes, unit)
}
