//! Turns of units with channels from or to other workers, each kind by itself, with the channels at its first places looked up once.
ghost use Rattle.std.specs.Prelude.{◌≡◌, true, false, Some, IfSome, IsTrue, IsFalse};
ghost use Rattle.net_types.specs.declared.net.Unit.TheVariants as units;
ghost use Rattle.net_types.specs.Nets.{kind_of};
ghost use Rattle.net_check.specs.Pins.{pins_of};
ghost use Rattle.net_core.specs.Plans.{IsBranch, IsConstOf, IsForkOf, IsMuxOf, IsSelect, IsSink, admits, apart, moves_of};
ghost use Rattle.net_core.specs.States.{IsPlanOf, cell_at};
ghost use Rattle.net_core.specs.Uses.{is_fork};
ghost use Rattle.net_worker.specs.Asking.{IsAsked};
ghost use Rattle.net_worker.specs.Firings.{IsFiredExactly};
ghost use Rattle.net_worker.specs.Moved.{taken_or_seen};
ghost use Rattle.net_worker.specs.Turns.{HasUnit, HasMade};
ghost use Rattle.net_worker.specs.Views.{net_of};

use crate::crossing_parts::{Offered, above_on, hand_over_on, offer_on, take_moves, used_on};
use crate::skips::input_of;
use crate::tables::Tables;
use crate::waking::wake_crossing;
use crate::worker::Worker;
use el_base::{Op1, Op2};
use net_check::Pins;
use net_core::{Moves, Plan, Taken, moves_at};
use net_types::{Act, Firing, Unit};

impl Worker {
    /// Makes a planned firing of one of its own units, by its moves, where the log has room, its output has room or a credit
    /// and a slot, and a stamp is left; tells whether it did. `used` are the channels whose heads it uses.
    #[inline(always)]
    fn fire_crossing_moves(
        &mut self,
        tables: &Tables,
        firing: Firing,
        plan: Plan,
        moves: Moves,
        used: Taken,
    ) -> bool
        requires own { HasUnit tables.now self.old firing.unit }
        requires moves { moves ≡ moves_of (net_of tables.now) firing.unit plan }
        requires apart { apart plan.takes ≡ true }
        requires admits { admits (cell_at self.old.portion.state firing.unit) plan.change ≡ true }
        requires effect { IsPlanOf (net_of tables.now) self.old.portion.state firing (Some plan) }
        requires used { used ≡ taken_or_seen (is_fork (kind_of (net_of tables.now) firing.unit))
            (pins_of firing.unit (net_of tables.now).chans) moves.taken }
        ensures fired { IsTrue result → IsFiredExactly tables.now self.old self.new firing }
        ensures kept { IsFalse result → IsAsked self.old self.new }
    {
        if self.log.room() == 0 {
            return false;
        }
        let base = above_on(&mut self.takes, tables, used, self.clock);
        let offered = Offered {
            unit: firing.unit,
            put: plan.put,
            laid: moves.laid,
        };
        let Some(stamp) = offer_on(&mut self.puts, &self.portion, tables, offered, base) else {
            self.await_laid(tables, moves.laid);
            return false;
        };
        self.portion.make_moves(tables.net, firing, plan, moves);
        hand_over_on(&mut self.portion, &self.puts, tables, offered);
        take_moves(&mut self.takes, tables, moves.taken, stamp);
        self.clock = stamp;
        self.resting = false;
        self.log.add(stamp, firing);
        true
    }

    /// Makes the firing of one of its own units that a plan tells, where there is one and it may; marks the units that it may
    /// have let fire, and looks again where it took. Answers how many firings it made, one or none.
    #[inline(always)]
    fn try_crossing_plan(
        &mut self,
        tables: &Tables,
        firing: Firing,
        fork: bool,
        pins: Pins,
        plan: Option<Plan>,
    ) -> u32
        requires own { HasUnit tables.now self.old firing.unit }
        requires fork { fork ≡ is_fork (kind_of (net_of tables.now) firing.unit) }
        requires pins { pins ≡ pins_of firing.unit (net_of tables.now).chans }
        requires apart { IfSome plan (λ p. apart p.takes ≡ true) }
        requires admits { IfSome plan
            (λ p. admits (cell_at self.old.portion.state firing.unit) p.change ≡ true) }
        requires effect { IsPlanOf (net_of tables.now) self.old.portion.state firing plan }
        ensures { HasMade tables.now result self.old self.new }
    {
        let Some(plan) = plan else {
            return 0;
        };
        let moves = moves_at(tables.net, firing.unit, pins, &plan);
        let used = used_on(fork, pins, moves.taken);
        if !self.fire_crossing_moves(tables, firing, plan, moves, used) {
            return 0;
        }
        wake_crossing(
            &mut self.ready,
            &self.portion,
            tables,
            firing.unit,
            pins,
            moves,
        );
        self.look_taken(tables, moves.taken);
        1
    }

    /// Tries the firing of a constant.
    #[tactic(auto, using(crate::proofs::Holdings::unit_pins, crate::proofs::ForkKinds::const_not))]
    #[inline(never)]
    fn go_const_crossing(&mut self, tables: &Tables, unit: u32, value: u64) -> u32
        requires own { HasUnit tables.now self.old unit }
        requires kind { IsConstOf value (kind_of (net_of tables.now) unit) }
        ensures { HasMade tables.now result self.old self.new }
    {
        let pins = tables.net.pins(unit);
        let plan = self.portion.plan_const_at(tables.net, unit, value, pins);
        let act = Act::Go;
        self.try_crossing_plan(tables, Firing { unit, act }, false, pins, plan)
    }

    /// Tries the firing of an operation on one pattern.
    #[tactic(auto, using(crate::proofs::Holdings::unit_pins, crate::proofs::ForkKinds::op1_not))]
    #[inline(never)]
    fn go_op1_crossing(&mut self, tables: &Tables, unit: u32, op: Op1) -> u32
        requires own { HasUnit tables.now self.old unit }
        requires kind { kind_of (net_of tables.now) unit ≡ units.Op1 op }
        ensures { HasMade tables.now result self.old self.new }
    {
        let pins = tables.net.pins(unit);
        let plan = self.portion.plan_op1_at(tables.net, unit, op, pins);
        let act = Act::Go;
        self.try_crossing_plan(tables, Firing { unit, act }, false, pins, plan)
    }

    /// Tries the firing of an operation on two patterns.
    #[tactic(auto, using(crate::proofs::Holdings::unit_pins, crate::proofs::ForkKinds::op2_not))]
    #[inline(never)]
    fn go_op2_crossing(&mut self, tables: &Tables, unit: u32, op: Op2) -> u32
        requires own { HasUnit tables.now self.old unit }
        requires kind { kind_of (net_of tables.now) unit ≡ units.Op2 op }
        ensures { HasMade tables.now result self.old self.new }
    {
        let pins = tables.net.pins(unit);
        let plan = self.portion.plan_op2_at(tables.net, unit, op, pins);
        let act = Act::Go;
        self.try_crossing_plan(tables, Firing { unit, act }, false, pins, plan)
    }

    /// Tries the firing of a select.
    #[tactic(auto, using(crate::proofs::Holdings::unit_pins, crate::proofs::ForkKinds::select_not))]
    #[inline(never)]
    fn go_select_crossing(&mut self, tables: &Tables, unit: u32) -> u32
        requires own { HasUnit tables.now self.old unit }
        requires kind { IsSelect (kind_of (net_of tables.now) unit) }
        ensures { HasMade tables.now result self.old self.new }
    {
        let pins = tables.net.pins(unit);
        let plan = self.portion.plan_select_at(tables.net, unit, pins);
        let act = Act::Go;
        self.try_crossing_plan(tables, Firing { unit, act }, false, pins, plan)
    }

    /// Tries the firing of a mux.
    #[tactic(auto, using(crate::proofs::Holdings::unit_pins, crate::proofs::ForkKinds::mux_not))]
    #[inline(never)]
    fn go_mux_crossing(&mut self, tables: &Tables, unit: u32, ins: u32) -> u32
        requires own { HasUnit tables.now self.old unit }
        requires kind { IsMuxOf ins (kind_of (net_of tables.now) unit) }
        ensures { HasMade tables.now result self.old self.new }
    {
        let pins = tables.net.pins(unit);
        let plan = self.portion.plan_mux_at(tables.net, unit, ins, pins);
        let act = Act::Go;
        self.try_crossing_plan(tables, Firing { unit, act }, false, pins, plan)
    }

    /// Tries the firing of a branch.
    #[tactic(auto, using(crate::proofs::Holdings::unit_pins, crate::proofs::ForkKinds::branch_not))]
    #[inline(never)]
    fn go_branch_crossing(&mut self, tables: &Tables, unit: u32) -> u32
        requires own { HasUnit tables.now self.old unit }
        requires kind { IsBranch (kind_of (net_of tables.now) unit) }
        ensures { HasMade tables.now result self.old self.new }
    {
        let pins = tables.net.pins(unit);
        let plan = self.portion.plan_branch_at(tables.net, unit, pins);
        let act = Act::Go;
        self.try_crossing_plan(tables, Firing { unit, act }, false, pins, plan)
    }

    /// Tries the firing of a sink.
    #[tactic(auto, using(crate::proofs::Holdings::unit_pins, crate::proofs::ForkKinds::sink_not))]
    #[inline(never)]
    fn go_sink_crossing(&mut self, tables: &Tables, unit: u32) -> u32
        requires own { HasUnit tables.now self.old unit }
        requires kind { IsSink (kind_of (net_of tables.now) unit) }
        ensures { HasMade tables.now result self.old self.new }
    {
        let pins = tables.net.pins(unit);
        let plan = self.portion.plan_sink_at(tables.net, unit, pins);
        let act = Act::Go;
        self.try_crossing_plan(tables, Firing { unit, act }, false, pins, plan)
    }

    /// Tries the firing of a read.
    #[tactic(auto, using(crate::proofs::Holdings::unit_pins, crate::proofs::ForkKinds::read_not))]
    #[inline(never)]
    fn go_read_crossing(&mut self, tables: &Tables, unit: u32, array: u32) -> u32
        requires own { HasUnit tables.now self.old unit }
        requires kind { kind_of (net_of tables.now) unit ≡ units.Read array }
        ensures { HasMade tables.now result self.old self.new }
    {
        let pins = tables.net.pins(unit);
        let plan = self.portion.plan_read_at(tables.net, unit, array, pins);
        let act = Act::Go;
        self.try_crossing_plan(tables, Firing { unit, act }, false, pins, plan)
    }

    /// Tries the firing of a unit that fires once in a run: an entry, a parameter or the exit.
    #[tactic(auto, using(crate::proofs::Holdings::unit_pins))]
    #[inline(never)]
    fn go_once_crossing(&mut self, tables: &Tables, unit: u32, kind: &Unit) -> u32
        requires own { HasUnit tables.now self.old unit }
        requires kind { kind.now ≡ kind_of (net_of tables.now) unit }
        requires fork { is_fork (kind_of (net_of tables.now) unit) ≡ false }
        ensures { HasMade tables.now result self.old self.new }
    {
        let pins = tables.net.pins(unit);
        let plan = self.portion.plan_go_at(tables.net, unit, kind, pins);
        let act = Act::Go;
        self.try_crossing_plan(tables, Firing { unit, act }, false, pins, plan)
    }

    /// Tries the sendings of a fork, one output after another.
    #[tactic(auto, using(crate::proofs::Holdings::unit_pins, crate::proofs::ForkKinds::fork_is))]
    #[inline(never)]
    fn sends_crossing(&mut self, tables: &Tables, unit: u32, outs: u32) -> u32
        requires own { HasUnit tables.now self.old unit }
        requires fork { IsForkOf outs (kind_of (net_of tables.now) unit) }
        ensures { HasMade tables.now result self.old self.new }
    {
        let net = tables.net;
        let pins = net.pins(unit);
        if self.portion.head(net, pins.first).is_none() {
            return 0;
        }
        let mut made = 0;
        for out in 0..outs {
            let plan = self.portion.plan_send_at(net, unit, outs, out, pins);
            let act = Act::Send(out);
            let more = self.try_crossing_plan(tables, Firing { unit, act }, true, pins, plan);
            made += more;
        }
        made
    }

    /// Tries the firing of a control merge from the input at which the control token is, as far as it is noted.
    #[tactic(auto, using(crate::proofs::Holdings::unit_pins, crate::proofs::ForkKinds::merge_not))]
    #[inline(never)]
    fn from_noted_crossing(&mut self, tables: &Tables, unit: u32, ins: u32) -> u32
        requires own { HasUnit tables.now self.old unit }
        requires kind { kind_of (net_of tables.now) unit ≡ units.Cmerge ins }
        ensures { HasMade tables.now result self.old self.new }
    {
        let net = tables.net;
        let Some(input) = input_of(net, self.ready.control(), unit, ins) else {
            return 0;
        };
        let chan = net.into_place(unit, u64::from(input));
        let plan = self.portion.plan_from_at(net, unit, ins, input, chan);
        let act = Act::From(input);
        self.try_crossing_plan(tables, Firing { unit, act }, false, net.pins(unit), plan)
    }

    /// Tries the acts of one of its own units with channels from or to other workers; answers how many firings it made.
    #[inline(always)]
    pub(crate) fn visit_crossing(&mut self, tables: &Tables, unit: u32, kind: &Unit) -> u32
        requires own { HasUnit tables.now self.old unit }
        requires kind { kind.now ≡ kind_of (net_of tables.now) unit }
        ensures { HasMade tables.now result self.old self.new }
    {
        match kind {
            Unit::Const { value, .. } => self.go_const_crossing(tables, unit, *value),
            Unit::Op1(op) => self.go_op1_crossing(tables, unit, *op),
            Unit::Op2(op) => self.go_op2_crossing(tables, unit, *op),
            Unit::Select { .. } => self.go_select_crossing(tables, unit),
            Unit::Mux { ins, .. } => self.go_mux_crossing(tables, unit, *ins),
            Unit::Branch { .. } => self.go_branch_crossing(tables, unit),
            Unit::Sink { .. } => self.go_sink_crossing(tables, unit),
            Unit::Read(array) => self.go_read_crossing(tables, unit, *array),
            Unit::Entry => self.go_once_crossing(tables, unit, kind),
            Unit::Param(_) => self.go_once_crossing(tables, unit, kind),
            Unit::Exit => self.go_once_crossing(tables, unit, kind),
            Unit::Fork { outs, .. } => self.sends_crossing(tables, unit, *outs),
            Unit::Cmerge { ins } => self.from_noted_crossing(tables, unit, *ins),
            Unit::Lsq { .. } => self.visit_each(tables, unit),
        }
    }
}
