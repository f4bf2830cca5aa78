//! What firings of units that are here do: their plans, each by what is known of the unit.

ghost use Rattle.std.specs.Prelude.{◌≡◌, ◌<◌, length, true, IfSome};
ghost use Rattle.net_types.specs.Nets.{firing, into, kind_of};
ghost use Rattle.net_types.specs.declared.firing.Act.TheVariants as acts;
ghost use Rattle.net_types.specs.declared.net.Unit.TheVariants as units;
ghost use Rattle.net_check.specs.Pins.{pins_of};
ghost use Rattle.net_core.specs.Fire.{head_at};
ghost use Rattle.net_core.specs.Plans.{IsBranch, IsConstOf, IsForkOf, IsMuxOf, IsSelect, IsSink, apart, admits};
ghost use Rattle.net_core.specs.States.{IsOf, IsPlanOf, cell_at, state_of};
ghost use Rattle.net_worker.specs.Portions.{HasIns, HasPins};

use crate::portion::Portion;
use el_base::{Op1, Op2};
use net_check::{Checked, Pins};
use net_core::{
    Cell, Heads, Plan, Put, into_at, plan_branch, plan_firing, plan_from, plan_go, plan_mux,
    plan_one, plan_op1, plan_op2, plan_read, plan_select, plan_send,
};
use net_types::{Firing, Unit};

/// The heads at the input places of one unit.
#[derive(Drop)]
struct UnitHeads<'a> {
    net: &'a Checked,
    portion: &'a Portion,
    unit: u32,
    pins: Pins,
    ghost pinned: { pins ≡ pins_of unit net.now.chans },
    ghost here: { HasIns net.now portion.now unit },
}

impl Heads for UnitHeads<'_> {
    ghost use Rattle.std.specs.Prelude.{[], get_or};
    ghost use Rattle.net_types.specs.Nets.{into};
    ghost use Rattle.net_core.specs.Fire.{first};

    ghost heads = { λ h p. first
        (get_or h.portion.now.state.tokens.tokens (into h.unit p h.net.now.chans) []) };

    #[inline(always)]
    fn head(&self, place: u64) -> Option<u64> {
        let chan = into_at(self.net, self.unit, self.pins, place);
        self.portion.first_token(chan)
    }
}

/// The heads at the input places of one unit, of which the channel into one place is known.
#[derive(Drop)]
struct HeadsBeside<'a> {
    net: &'a Checked,
    portion: &'a Portion,
    unit: u32,
    place: u64,
    chan: u32,
    ghost known: { chan ≡ into unit place net.now.chans },
    ghost here: { HasIns net.now portion.now unit },
}

impl Heads for HeadsBeside<'_> {
    ghost use Rattle.std.specs.Prelude.{[], get_or};
    ghost use Rattle.net_types.specs.Nets.{into};
    ghost use Rattle.net_core.specs.Fire.{first};

    ghost heads = { λ h p. first
        (get_or h.portion.now.state.tokens.tokens (into h.unit p h.net.now.chans) []) };

    #[inline(always)]
    fn head(&self, place: u64) -> Option<u64> {
        let chan = if place == self.place {
            self.chan
        } else {
            self.net.into_place(self.unit, place)
        };
        self.portion.first_token(chan)
    }
}

impl Portion {
    /// The heads at the input places of a unit whose first channels are known.
    #[inline(always)]
    fn heads<'a>(&'a self, net: &'a Checked, unit: u32, pins: Pins) -> UnitHeads<'a>
        requires pins { pins ≡ pins_of unit net.now.chans }
        requires of { IsOf net.now self.now.state }
        requires here { HasPins net.now self.now unit }
        ensures { ⟦<UnitHeads<'a> as Heads>⟧.heads result
            ≡ head_at net.now (state_of self.now.state) unit }
    {
        UnitHeads {
            net,
            portion: self,
            unit,
            pins,
        }
    }

    /// The heads at the input places of a unit, where the channel into one of them is known.
    #[inline(always)]
    fn heads_beside<'a>(
        &'a self,
        net: &'a Checked,
        unit: u32,
        place: u64,
        chan: u32,
    ) -> HeadsBeside<'a>
        requires into { chan ≡ into unit place net.now.chans }
        requires of { IsOf net.now self.now.state }
        requires here { HasPins net.now self.now unit }
        ensures { ⟦<HeadsBeside<'a> as Heads>⟧.heads result
            ≡ head_at net.now (state_of self.now.state) unit }
    {
        HeadsBeside {
            net,
            portion: self,
            unit,
            place,
            chan,
        }
    }

    /// What a firing of a unit does; `None` where the unit's heads or its own state hold it back.
    #[inline(always)]
    pub(crate) fn plan(&self, net: &Checked, firing: Firing) -> Option<Plan>
        requires of { IsOf net.now self.now.state }
        requires within { firing.unit < length net.now.units }
        requires here { HasPins net.now self.now firing.unit }
        ensures apart { IfSome result (λ p. apart p.takes ≡ true) }
        ensures admits { IfSome result
            (λ p. admits (cell_at self.now.state firing.unit) p.change ≡ true) }
        ensures effect { IsPlanOf net.now self.now.state firing result }
    {
        let unit = &net.net().units.as_slice()[firing.unit as usize];
        let heads = self.heads(net, firing.unit, net.pins(firing.unit));
        let valued = net.net().result.is_some();
        let cell = self.cell(firing.unit);
        let array = self.used(unit);
        plan_firing(
            &heads,
            unit,
            firing.act,
            cell,
            array,
            self.base.scalars(),
            valued,
        )
    }

    /// What the act Go of a unit does, where its kind and the channels at its first places are known.
    /// `None` where the heads hold it back, or what the unit keeps.
    #[inline(always)]
    pub(crate) fn plan_go_at(
        &self,
        net: &Checked,
        unit: u32,
        kind: &Unit,
        pins: Pins,
    ) -> Option<Plan>
        requires of { IsOf net.now self.now.state }
        requires within { unit < length net.now.units }
        requires here { HasPins net.now self.now unit }
        requires kind { kind.now ≡ kind_of net.now unit }
        requires pins { pins ≡ pins_of unit net.now.chans }
        ensures apart { IfSome result (λ p. apart p.takes ≡ true) }
        ensures admits { IfSome result
            (λ p. admits (cell_at self.now.state unit) p.change ≡ true) }
        ensures effect { IsPlanOf net.now self.now.state (firing unit acts.Go) result }
    {
        let heads = self.heads(net, unit, pins);
        let valued = net.net().result.is_some();
        let scalars = self.base.scalars();
        let cell = self.cell(unit);
        let array = self.used(kind);
        plan_go(&heads, kind, cell, array, scalars, valued)
    }

    /// What the firing of a constant does, where the channels at its first places are known.
    /// `None` where the heads hold it back.
    #[inline(always)]
    pub(crate) fn plan_const_at(
        &self,
        net: &Checked,
        unit: u32,
        value: u64,
        pins: Pins,
    ) -> Option<Plan>
        requires of { IsOf net.now self.now.state }
        requires within { unit < length net.now.units }
        requires here { HasPins net.now self.now unit }
        requires kind { IsConstOf value (kind_of net.now unit) }
        requires pins { pins ≡ pins_of unit net.now.chans }
        ensures apart { IfSome result (λ p. apart p.takes ≡ true) }
        ensures admits { IfSome result
            (λ p. admits (cell_at self.now.state unit) p.change ≡ true) }
        ensures effect { IsPlanOf net.now self.now.state (firing unit acts.Go) result }
    {
        let heads = self.heads(net, unit, pins);
        plan_one(&heads, Some(Put { place: 0, value }))
    }

    /// What the firing of an operation on one pattern does, where the channels at its first places are known.
    /// `None` where the heads hold it back.
    #[inline(always)]
    pub(crate) fn plan_op1_at(&self, net: &Checked, unit: u32, op: Op1, pins: Pins) -> Option<Plan>
        requires of { IsOf net.now self.now.state }
        requires within { unit < length net.now.units }
        requires here { HasPins net.now self.now unit }
        requires kind { kind_of net.now unit ≡ units.Op1 op }
        requires pins { pins ≡ pins_of unit net.now.chans }
        ensures apart { IfSome result (λ p. apart p.takes ≡ true) }
        ensures admits { IfSome result
            (λ p. admits (cell_at self.now.state unit) p.change ≡ true) }
        ensures effect { IsPlanOf net.now self.now.state (firing unit acts.Go) result }
    {
        let heads = self.heads(net, unit, pins);
        plan_op1(&heads, op)
    }

    /// What the firing of an operation on two patterns does, where the channels at its first places are known.
    /// `None` where the heads hold it back.
    #[inline(always)]
    pub(crate) fn plan_op2_at(&self, net: &Checked, unit: u32, op: Op2, pins: Pins) -> Option<Plan>
        requires of { IsOf net.now self.now.state }
        requires within { unit < length net.now.units }
        requires here { HasPins net.now self.now unit }
        requires kind { kind_of net.now unit ≡ units.Op2 op }
        requires pins { pins ≡ pins_of unit net.now.chans }
        ensures apart { IfSome result (λ p. apart p.takes ≡ true) }
        ensures admits { IfSome result
            (λ p. admits (cell_at self.now.state unit) p.change ≡ true) }
        ensures effect { IsPlanOf net.now self.now.state (firing unit acts.Go) result }
    {
        let heads = self.heads(net, unit, pins);
        plan_op2(&heads, op)
    }

    /// What the firing of a select does, where the channels at its first places are known.
    /// `None` where the heads hold it back.
    #[inline(always)]
    pub(crate) fn plan_select_at(&self, net: &Checked, unit: u32, pins: Pins) -> Option<Plan>
        requires of { IsOf net.now self.now.state }
        requires within { unit < length net.now.units }
        requires here { HasPins net.now self.now unit }
        requires kind { IsSelect (kind_of net.now unit) }
        requires pins { pins ≡ pins_of unit net.now.chans }
        ensures apart { IfSome result (λ p. apart p.takes ≡ true) }
        ensures admits { IfSome result
            (λ p. admits (cell_at self.now.state unit) p.change ≡ true) }
        ensures effect { IsPlanOf net.now self.now.state (firing unit acts.Go) result }
    {
        let heads = self.heads(net, unit, pins);
        plan_select(&heads)
    }

    /// What the firing of a mux does, where the channels at its first places are known.
    /// `None` where the heads hold it back.
    #[inline(always)]
    pub(crate) fn plan_mux_at(&self, net: &Checked, unit: u32, ins: u32, pins: Pins) -> Option<Plan>
        requires of { IsOf net.now self.now.state }
        requires within { unit < length net.now.units }
        requires here { HasPins net.now self.now unit }
        requires kind { IsMuxOf ins (kind_of net.now unit) }
        requires pins { pins ≡ pins_of unit net.now.chans }
        ensures apart { IfSome result (λ p. apart p.takes ≡ true) }
        ensures admits { IfSome result
            (λ p. admits (cell_at self.now.state unit) p.change ≡ true) }
        ensures effect { IsPlanOf net.now self.now.state (firing unit acts.Go) result }
    {
        let heads = self.heads(net, unit, pins);
        plan_mux(&heads, ins)
    }

    /// What the firing of a branch does, where the channels at its first places are known.
    /// `None` where the heads hold it back.
    #[inline(always)]
    pub(crate) fn plan_branch_at(&self, net: &Checked, unit: u32, pins: Pins) -> Option<Plan>
        requires of { IsOf net.now self.now.state }
        requires within { unit < length net.now.units }
        requires here { HasPins net.now self.now unit }
        requires kind { IsBranch (kind_of net.now unit) }
        requires pins { pins ≡ pins_of unit net.now.chans }
        ensures apart { IfSome result (λ p. apart p.takes ≡ true) }
        ensures admits { IfSome result
            (λ p. admits (cell_at self.now.state unit) p.change ≡ true) }
        ensures effect { IsPlanOf net.now self.now.state (firing unit acts.Go) result }
    {
        let heads = self.heads(net, unit, pins);
        plan_branch(&heads)
    }

    /// What the firing of a sink does, where the channels at its first places are known.
    /// `None` where the heads hold it back.
    #[inline(always)]
    pub(crate) fn plan_sink_at(&self, net: &Checked, unit: u32, pins: Pins) -> Option<Plan>
        requires of { IsOf net.now self.now.state }
        requires within { unit < length net.now.units }
        requires here { HasPins net.now self.now unit }
        requires kind { IsSink (kind_of net.now unit) }
        requires pins { pins ≡ pins_of unit net.now.chans }
        ensures apart { IfSome result (λ p. apart p.takes ≡ true) }
        ensures admits { IfSome result
            (λ p. admits (cell_at self.now.state unit) p.change ≡ true) }
        ensures effect { IsPlanOf net.now self.now.state (firing unit acts.Go) result }
    {
        let heads = self.heads(net, unit, pins);
        plan_one(&heads, None)
    }

    /// What the firing of a read does, where the channels at its first places are known.
    /// `None` where the heads hold it back.
    #[inline(always)]
    pub(crate) fn plan_read_at(
        &self,
        net: &Checked,
        unit: u32,
        array: u32,
        pins: Pins,
    ) -> Option<Plan>
        requires of { IsOf net.now self.now.state }
        requires within { unit < length net.now.units }
        requires here { HasPins net.now self.now unit }
        requires kind { kind_of net.now unit ≡ units.Read array }
        requires pins { pins ≡ pins_of unit net.now.chans }
        ensures apart { IfSome result (λ p. apart p.takes ≡ true) }
        ensures admits { IfSome result
            (λ p. admits (cell_at self.now.state unit) p.change ≡ true) }
        ensures effect { IsPlanOf net.now self.now.state (firing unit acts.Go) result }
    {
        let heads = self.heads(net, unit, pins);
        plan_read(&heads, self.elements(array))
    }

    /// What the firing of a control merge from an input does, where the channel into the input is known.
    /// `None` where the heads hold it back.
    #[inline(always)]
    pub(crate) fn plan_from_at(
        &self,
        net: &Checked,
        unit: u32,
        ins: u32,
        input: u32,
        chan: u32,
    ) -> Option<Plan>
        requires of { IsOf net.now self.now.state }
        requires within { unit < length net.now.units }
        requires here { HasPins net.now self.now unit }
        requires kind { kind_of net.now unit ≡ units.Cmerge ins }
        requires into { chan ≡ into unit input net.now.chans }
        ensures apart { IfSome result (λ p. apart p.takes ≡ true) }
        ensures admits { IfSome result
            (λ p. admits (cell_at self.now.state unit) p.change ≡ true) }
        ensures effect { IsPlanOf net.now self.now.state (firing unit (acts.From input)) result }
    {
        let heads = self.heads_beside(net, unit, u64::from(input), chan);
        plan_from(&heads, ins, input)
    }

    /// What the sending of a fork to an output does, where its outputs and the channels at its first places are known.
    /// `None` where the heads hold it back, or the output has its token.
    #[inline(always)]
    pub(crate) fn plan_send_at(
        &self,
        net: &Checked,
        unit: u32,
        outs: u32,
        out: u32,
        pins: Pins,
    ) -> Option<Plan>
        requires of { IsOf net.now self.now.state }
        requires within { unit < length net.now.units }
        requires here { HasPins net.now self.now unit }
        requires fork { IsForkOf outs (kind_of net.now unit) }
        requires pins { pins ≡ pins_of unit net.now.chans }
        ensures apart { IfSome result (λ p. apart p.takes ≡ true) }
        ensures admits { IfSome result
            (λ p. admits (cell_at self.now.state unit) p.change ≡ true) }
        ensures effect { IsPlanOf net.now self.now.state (firing unit (acts.Send out)) result }
    {
        let heads = self.heads(net, unit, pins);
        match self.cell(unit) {
            Cell::Fork(sent) => plan_send(&heads, outs, out, sent, &[]),
            _ => None,
        }
    }
}
