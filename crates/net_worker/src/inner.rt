//! Turns of units all of whose channels stay in the worker: each kind by itself, with the channels at its first places looked
//! up once. No end of a link is asked, and no owner.
ghost use Rattle.std.specs.Prelude.{◌≡◌, true, IfSome, IsTrue, IsFalse};
ghost use Rattle.net_types.specs.declared.firing.Act.TheVariants as acts;
ghost use Rattle.net_types.specs.declared.net.Unit.TheVariants as units;
ghost use Rattle.net_types.specs.Nets.{kind_of, firing};
ghost use Rattle.net_check.specs.Pins.{pins_of};
ghost use Rattle.net_core.specs.Plans.{IsBranch, IsConstOf, IsForkOf, IsMuxOf, IsSelect, IsSink, admits, apart, moves_of};
ghost use Rattle.net_core.specs.States.{IsOf, IsPlanOf, cell_at, state_of};
ghost use Rattle.net_worker.specs.Asking.{IsAsked};
ghost use Rattle.net_worker.specs.Firings.{IsFiredExactly};
ghost use Rattle.net_worker.specs.Inside.{IsInnerUnit};
ghost use Rattle.net_worker.specs.MovesHere.{IsLaidHere};
ghost use Rattle.net_worker.specs.Turns.{HasUnit, HasMade, HasRoomToLay};
ghost use Rattle.net_worker.specs.Views.{net_of, owner_in};

use crate::portion::Portion;
use crate::skips::input_of;
use crate::tables::Tables;
use crate::waking::wake_inside;
use crate::worker::Worker;
use el_base::{Op1, Op2};
use net_check::{Checked, Pins};
use net_core::{Laid, Moves, Plan, moves_at};
use net_types::{Act, Firing, Unit};

/// Whether the channel on which a firing lays a token, where it lays one, has room.
#[inline(always)]
fn has_room_to_lay(portion: &Portion, net: &Checked, laid: Option<Laid>) -> bool
    requires of { IsOf net.now portion.now.state }
    requires here { IsLaidHere net.now portion.now laid }
    ensures { IsTrue result → HasRoomToLay net.now (state_of portion.now.state) laid }
{
    match laid {
        None => true,
        Some(laid) => portion.has_room_on(net, laid.chan),
    }
}

impl Worker {
    /// Makes a planned firing of one of its inner units, by its moves, where its output has room and the log and the stamps
    /// are not used up; tells whether it did.
    #[inline(always)]
    fn fire_moves(&mut self, tables: &Tables, firing: Firing, plan: Plan, moves: Moves) -> bool
        requires own { HasUnit tables.now self.old firing.unit }
        requires inner { IsInnerUnit (net_of tables.now) (owner_in tables.now) firing.unit }
        requires moves { moves ≡ moves_of (net_of tables.now) firing.unit plan }
        requires apart { apart plan.takes ≡ true }
        requires admits { admits (cell_at self.old.portion.state firing.unit) plan.change ≡ true }
        requires effect { IsPlanOf (net_of tables.now) self.old.portion.state firing (Some plan) }
        ensures fired { IsTrue result → IsFiredExactly tables.now self.old self.new firing }
        ensures kept { IsFalse result → IsAsked self.old self.new }
    {
        let net = tables.net;
        let stamp = self.clock + 1;
        if stamp >= 1 << 62 || self.log.room() == 0 {
            return false;
        }
        if !has_room_to_lay(&self.portion, net, moves.laid) {
            return false;
        }
        self.portion.make_moves(net, firing, plan, moves);
        self.clock = stamp;
        self.resting = false;
        self.log.add(stamp, firing);
        true
    }

    /// Makes the firing of one of its inner units that a plan tells, where there is one and it may; marks the units that it may
    /// have let fire. Answers how many firings it made, one or none.
    #[inline(always)]
    fn try_plan(&mut self, tables: &Tables, firing: Firing, pins: Pins, plan: Option<Plan>) -> u32
        requires own { HasUnit tables.now self.old firing.unit }
        requires inner { IsInnerUnit (net_of tables.now) (owner_in tables.now) firing.unit }
        requires pins { pins ≡ pins_of firing.unit (net_of tables.now).chans }
        requires apart { IfSome plan (λ p. apart p.takes ≡ true) }
        requires admits { IfSome plan
            (λ p. admits (cell_at self.old.portion.state firing.unit) p.change ≡ true) }
        requires effect { IsPlanOf (net_of tables.now) self.old.portion.state firing plan }
        ensures { HasMade tables.now result self.old self.new }
    {
        let Some(plan) = plan else {
            return 0;
        };
        let moves = moves_at(tables.net, firing.unit, pins, &plan);
        if !self.fire_moves(tables, firing, plan, moves) {
            return 0;
        }
        wake_inside(
            &mut self.ready,
            &self.portion,
            tables.net,
            firing.unit,
            pins,
            moves,
        );
        1
    }

    /// Tries the firing of a constant.
    #[tactic(auto, using(crate::proofs::Holdings::unit_pins))]
    #[inline(never)]
    fn go_const(&mut self, tables: &Tables, unit: u32, value: u64, pins: Pins) -> u32
        requires own { HasUnit tables.now self.old unit }
        requires inner { IsInnerUnit (net_of tables.now) (owner_in tables.now) unit }
        requires kind { IsConstOf value (kind_of (net_of tables.now) unit) }
        requires pins { pins ≡ pins_of unit (net_of tables.now).chans }
        ensures { HasMade tables.now result self.old self.new }
    {
        let plan = self.portion.plan_const_at(tables.net, unit, value, pins);
        let act = Act::Go;
        self.try_plan(tables, Firing { unit, act }, pins, plan)
    }

    /// Tries the firing of an operation on one pattern.
    #[tactic(auto, using(crate::proofs::Holdings::unit_pins))]
    #[inline(never)]
    fn go_op1(&mut self, tables: &Tables, unit: u32, op: Op1, pins: Pins) -> u32
        requires own { HasUnit tables.now self.old unit }
        requires inner { IsInnerUnit (net_of tables.now) (owner_in tables.now) unit }
        requires kind { kind_of (net_of tables.now) unit ≡ units.Op1 op }
        requires pins { pins ≡ pins_of unit (net_of tables.now).chans }
        ensures { HasMade tables.now result self.old self.new }
    {
        let plan = self.portion.plan_op1_at(tables.net, unit, op, pins);
        let act = Act::Go;
        self.try_plan(tables, Firing { unit, act }, pins, plan)
    }

    /// Tries the firing of an operation on two patterns.
    #[tactic(auto, using(crate::proofs::Holdings::unit_pins))]
    #[inline(never)]
    fn go_op2(&mut self, tables: &Tables, unit: u32, op: Op2, pins: Pins) -> u32
        requires own { HasUnit tables.now self.old unit }
        requires inner { IsInnerUnit (net_of tables.now) (owner_in tables.now) unit }
        requires kind { kind_of (net_of tables.now) unit ≡ units.Op2 op }
        requires pins { pins ≡ pins_of unit (net_of tables.now).chans }
        ensures { HasMade tables.now result self.old self.new }
    {
        let plan = self.portion.plan_op2_at(tables.net, unit, op, pins);
        let act = Act::Go;
        self.try_plan(tables, Firing { unit, act }, pins, plan)
    }

    /// Tries the firing of a select.
    #[tactic(auto, using(crate::proofs::Holdings::unit_pins))]
    #[inline(never)]
    fn go_select(&mut self, tables: &Tables, unit: u32, pins: Pins) -> u32
        requires own { HasUnit tables.now self.old unit }
        requires inner { IsInnerUnit (net_of tables.now) (owner_in tables.now) unit }
        requires kind { IsSelect (kind_of (net_of tables.now) unit) }
        requires pins { pins ≡ pins_of unit (net_of tables.now).chans }
        ensures { HasMade tables.now result self.old self.new }
    {
        let plan = self.portion.plan_select_at(tables.net, unit, pins);
        let act = Act::Go;
        self.try_plan(tables, Firing { unit, act }, pins, plan)
    }

    /// Tries the firing of a mux.
    #[tactic(auto, using(crate::proofs::Holdings::unit_pins))]
    #[inline(never)]
    fn go_mux(&mut self, tables: &Tables, unit: u32, ins: u32, pins: Pins) -> u32
        requires own { HasUnit tables.now self.old unit }
        requires inner { IsInnerUnit (net_of tables.now) (owner_in tables.now) unit }
        requires kind { IsMuxOf ins (kind_of (net_of tables.now) unit) }
        requires pins { pins ≡ pins_of unit (net_of tables.now).chans }
        ensures { HasMade tables.now result self.old self.new }
    {
        let plan = self.portion.plan_mux_at(tables.net, unit, ins, pins);
        let act = Act::Go;
        self.try_plan(tables, Firing { unit, act }, pins, plan)
    }

    /// Tries the firing of a branch.
    #[tactic(auto, using(crate::proofs::Holdings::unit_pins))]
    #[inline(never)]
    fn go_branch(&mut self, tables: &Tables, unit: u32, pins: Pins) -> u32
        requires own { HasUnit tables.now self.old unit }
        requires inner { IsInnerUnit (net_of tables.now) (owner_in tables.now) unit }
        requires kind { IsBranch (kind_of (net_of tables.now) unit) }
        requires pins { pins ≡ pins_of unit (net_of tables.now).chans }
        ensures { HasMade tables.now result self.old self.new }
    {
        let plan = self.portion.plan_branch_at(tables.net, unit, pins);
        let act = Act::Go;
        self.try_plan(tables, Firing { unit, act }, pins, plan)
    }

    /// Tries the firing of a sink.
    #[tactic(auto, using(crate::proofs::Holdings::unit_pins))]
    #[inline(never)]
    fn go_sink(&mut self, tables: &Tables, unit: u32, pins: Pins) -> u32
        requires own { HasUnit tables.now self.old unit }
        requires inner { IsInnerUnit (net_of tables.now) (owner_in tables.now) unit }
        requires kind { IsSink (kind_of (net_of tables.now) unit) }
        requires pins { pins ≡ pins_of unit (net_of tables.now).chans }
        ensures { HasMade tables.now result self.old self.new }
    {
        let plan = self.portion.plan_sink_at(tables.net, unit, pins);
        let act = Act::Go;
        self.try_plan(tables, Firing { unit, act }, pins, plan)
    }

    /// Tries the firing of a read.
    #[tactic(auto, using(crate::proofs::Holdings::unit_pins))]
    #[inline(never)]
    fn go_read(&mut self, tables: &Tables, unit: u32, array: u32, pins: Pins) -> u32
        requires own { HasUnit tables.now self.old unit }
        requires inner { IsInnerUnit (net_of tables.now) (owner_in tables.now) unit }
        requires kind { kind_of (net_of tables.now) unit ≡ units.Read array }
        requires pins { pins ≡ pins_of unit (net_of tables.now).chans }
        ensures { HasMade tables.now result self.old self.new }
    {
        let plan = self.portion.plan_read_at(tables.net, unit, array, pins);
        let act = Act::Go;
        self.try_plan(tables, Firing { unit, act }, pins, plan)
    }

    /// Tries the firing of a unit that fires once in a run: an entry, a parameter or the exit.
    #[tactic(auto, using(crate::proofs::Holdings::unit_pins))]
    #[inline(never)]
    fn go_once(&mut self, tables: &Tables, unit: u32, kind: &Unit, pins: Pins) -> u32
        requires own { HasUnit tables.now self.old unit }
        requires inner { IsInnerUnit (net_of tables.now) (owner_in tables.now) unit }
        requires kind { kind.now ≡ kind_of (net_of tables.now) unit }
        requires pins { pins ≡ pins_of unit (net_of tables.now).chans }
        ensures { HasMade tables.now result self.old self.new }
    {
        let plan = self.portion.plan_go_at(tables.net, unit, kind, pins);
        let act = Act::Go;
        self.try_plan(tables, Firing { unit, act }, pins, plan)
    }

    /// Tries the sendings of a fork, one output after another.
    #[tactic(auto, using(crate::proofs::Holdings::unit_pins))]
    #[inline(never)]
    fn sends(&mut self, tables: &Tables, unit: u32, outs: u32, pins: Pins) -> u32
        requires own { HasUnit tables.now self.old unit }
        requires inner { IsInnerUnit (net_of tables.now) (owner_in tables.now) unit }
        requires kind { IsForkOf outs (kind_of (net_of tables.now) unit) }
        requires pins { pins ≡ pins_of unit (net_of tables.now).chans }
        ensures { HasMade tables.now result self.old self.new }
    {
        let net = tables.net;
        if self.portion.head(net, pins.first).is_none() {
            return 0;
        }
        let mut made = 0;
        for out in 0..outs {
            let plan = self.portion.plan_send_at(net, unit, outs, out, pins);
            let act = Act::Send(out);
            let more = self.try_plan(tables, Firing { unit, act }, pins, plan);
            made += more;
        }
        made
    }

    /// Tries the firing of a control merge from the input at which the control token is, as far as it is noted.
    #[tactic(auto, using(crate::proofs::Holdings::unit_pins))]
    #[inline(never)]
    fn from_noted(&mut self, tables: &Tables, unit: u32, ins: u32, pins: Pins) -> u32
        requires own { HasUnit tables.now self.old unit }
        requires inner { IsInnerUnit (net_of tables.now) (owner_in tables.now) unit }
        requires kind { kind_of (net_of tables.now) unit ≡ units.Cmerge ins }
        requires pins { pins ≡ pins_of unit (net_of tables.now).chans }
        ensures { HasMade tables.now result self.old self.new }
    {
        let net = tables.net;
        let Some(input) = input_of(net, self.ready.control(), unit, ins) else {
            return 0;
        };
        let chan = net.into_place(unit, u64::from(input));
        let plan = self.portion.plan_from_at(net, unit, ins, input, chan);
        let act = Act::From(input);
        self.try_plan(tables, Firing { unit, act }, pins, plan)
    }

    /// Tries the acts of one of its own units all of whose channels stay in the worker; answers how many firings it made.
    #[inline(always)]
    pub(crate) fn visit_inner(&mut self, tables: &Tables, unit: u32, kind: &Unit) -> u32
        requires own { HasUnit tables.now self.old unit }
        requires inner { IsInnerUnit (net_of tables.now) (owner_in tables.now) unit }
        requires kind { kind.now ≡ kind_of (net_of tables.now) unit }
        ensures { HasMade tables.now result self.old self.new }
    {
        let pins = tables.net.pins(unit);
        match kind {
            Unit::Const { value, .. } => self.go_const(tables, unit, *value, pins),
            Unit::Op1(op) => self.go_op1(tables, unit, *op, pins),
            Unit::Op2(op) => self.go_op2(tables, unit, *op, pins),
            Unit::Select { .. } => self.go_select(tables, unit, pins),
            Unit::Mux { ins, .. } => self.go_mux(tables, unit, *ins, pins),
            Unit::Branch { .. } => self.go_branch(tables, unit, pins),
            Unit::Sink { .. } => self.go_sink(tables, unit, pins),
            Unit::Read(array) => self.go_read(tables, unit, *array, pins),
            Unit::Entry => self.go_once(tables, unit, kind, pins),
            Unit::Param(_) => self.go_once(tables, unit, kind, pins),
            Unit::Exit => self.go_once(tables, unit, kind, pins),
            Unit::Fork { outs, .. } => self.sends(tables, unit, *outs, pins),
            Unit::Cmerge { ins } => self.from_noted(tables, unit, *ins, pins),
            Unit::Lsq { .. } => self.visit_each(tables, unit),
        }
    }
}
