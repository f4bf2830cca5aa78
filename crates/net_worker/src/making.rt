//! Workers are made.
ghost use Rattle.std.specs.Prelude.{◌≡◌, ℕ, ◌<◌, ◌≤◌, ◌↔◌, IsTrue, cond, [], ◌∷◌, ◌++◌, None, IfOk, OnOk, length, All};
ghost use Rattle.std.specs.List.{Contains};
ghost use Rattle.el_base.specs.Limits.{max_workers};
ghost use Rattle.net_types.specs.Inputs.{InputsFit};
ghost use Rattle.net_core.specs.Runs.{opening};
ghost use Rattle.net_core.specs.States.{CountsWithin, IsOf, state_of};
ghost use Rattle.net_worker.specs.ChannelEnds.{AreChannels};
ghost use Rattle.net_worker.specs.Given.{IsFresh};
ghost use Rattle.net_worker.specs.Places.{chans_of, has_end, owns_unit, units_of};
ghost use Rattle.net_worker.specs.Shares.{max_share};
ghost use Rattle.net_worker.specs.Views.{net_of, inputs_of, put_end, take_end, unit_owners};
ghost use Rattle.net_worker.specs.Workers.{HoldsOwn, IsMadeOf, IsOutOf, IsInto};

use crate::channel_ends::ChannelEnds;
use crate::portion::Portion;
use crate::ready::Ready;
use crate::spans::Span;
use crate::tables::Tables;
use crate::worker::Worker;
use firing_log::FiringLog;
use net_types::Memory;
use std::alloc::Global;

impl Worker {
    /// A worker with its units in their opening state, an empty log with room for its share of entries, and no ends.
    ///
    /// # Errors
    ///
    /// [`Memory`] where memory is wanting.
    pub fn new(alloc: Global, tables: &Tables, number: u32, share: u64) -> Result<Worker, Memory>
        requires fit { InputsFit (net_of tables.now) (inputs_of tables.now) }
        requires number { number < max_workers }
        requires share { share ≤ max_share }
        ensures made { IfOk result (λ w. IsMadeOf tables.now w) }
        ensures fresh { IfOk result (λ w. IsFresh number share w) }
        ensures puts { IfOk result (λ w. (c : ℕ) → put_end w c ≡ None) }
        ensures takes { IfOk result (λ w. (c : ℕ) → take_end w c ≡ None) }
    {
        let chans = tables.net.net().chans.len();
        let Around { outs, ins, all } = channels_around(alloc, tables, number)?;
        let log = FiringLog::with_room(alloc, share)?;
        let puts = ChannelEnds::new(alloc, outs.as_slice(), chans)?;
        let takes = ChannelEnds::new(alloc, ins.as_slice(), chans)?;
        let waits = ChannelEnds::new(alloc, outs.as_slice(), chans)?;
        let portion = opening_portion(alloc, tables, number, all)?;
        let ready = marks_at(alloc, tables.span(number), portion.own())?;
        Ok(Worker {
            number,
            share,
            clock: 0,
            log,
            portion,
            puts,
            takes,
            outs,
            ins,
            ready,
            waits,
            resting: false,
            closed: false,
            apart: [0; 16],
        })
    }
}

/// Whether a channel goes from a unit of a worker to that of another.
fn is_out(tables: &Tables, number: u32, chan: u32) -> bool
    requires { chan < length (net_of tables.now).chans }
    ensures { IsTrue result ↔ IsOutOf tables.now number chan }
{
    tables.putter(chan) == number && tables.taker(chan) != number
}

/// Whether a channel goes to a unit of a worker from that of another.
fn is_into(tables: &Tables, number: u32, chan: u32) -> bool
    requires { chan < length (net_of tables.now).chans }
    ensures { IsTrue result ↔ IsInto tables.now number chan }
{
    tables.taker(chan) == number && tables.putter(chan) != number
}

/// Notes a channel where it is to be noted.
fn note_if(chans: &mut Vec<u32>, chan: u32, noted: bool) -> Result<(), Memory>
    ensures { OnOk result (chans.new.items
        ≡ cond noted (chans.old.items ++ chan ∷ []) chans.old.items) }
{
    if noted {
        chans.push(chan)?;
    }
    Ok(())
}

/// The channels at the units of a worker, ascending.
struct Around {
    /// From its units to those of others.
    outs: Vec<u32>,
    /// To its units from those of others.
    ins: Vec<u32>,
    /// From or to its units.
    all: Vec<u32>,
}

/// The channels at the units of a worker, ascending.
fn channels_around(alloc: Global, tables: &Tables, number: u32) -> Result<Around, Memory>
    ensures outs { IfOk result (λ a. (c : ℕ) → IsOutOf tables.now number c
        → Contains a.outs.items c) }
    ensures outs_only { IfOk result (λ a. All (IsOutOf tables.now number) a.outs.items) }
    ensures outs_ascend { IfOk result
        (λ a. AreChannels (length (net_of tables.now).chans) a.outs.items) }
    ensures ins { IfOk result (λ a. (c : ℕ) → IsInto tables.now number c
        → Contains a.ins.items c) }
    ensures ins_only { IfOk result (λ a. All (IsInto tables.now number) a.ins.items) }
    ensures ins_ascend { IfOk result
        (λ a. AreChannels (length (net_of tables.now).chans) a.ins.items) }
    ensures all { IfOk result (λ a. a.all.items
        ≡ chans_of (net_of tables.now) (unit_owners tables.now) number) }
{
    let count = tables.net.net().chans.len();
    let mut outs = Vec::new(alloc);
    let mut ins = Vec::new(alloc);
    let mut all = Vec::new(alloc);
    for at in 0..count {
        let goes_out = is_out(tables, number, at as u32);
        note_if(&mut outs, at as u32, goes_out)?;
        let comes_in = is_into(tables, number, at as u32);
        note_if(&mut ins, at as u32, comes_in)?;
        let own = is_at(tables, number, at as u32);
        note_if(&mut all, at as u32, own)?;
    }
    Ok(Around { outs, ins, all })
}

/// The rooms of the units of a worker, and of the channels at them, in the opening state.
fn opening_portion(
    alloc: Global,
    tables: &Tables,
    number: u32,
    chans: Vec<u32>,
) -> Result<Portion, Memory>
    requires chans { chans.items ≡ chans_of (net_of tables.now) (unit_owners tables.now) number }
    requires fit { InputsFit (net_of tables.now) (inputs_of tables.now) }
    ensures of { IfOk result (λ p. IsOf (net_of tables.now) p.state) }
    ensures state { IfOk result (λ p. state_of p.state
        ≡ opening (net_of tables.now) (inputs_of tables.now)) }
    ensures counts { IfOk result (λ p. CountsWithin 0 (state_of p.state)) }
    ensures own { IfOk result (λ p. HoldsOwn tables.now number p) }
{
    let units = own_units(alloc, tables, number)?;
    Portion::new(
        alloc,
        &tables.base,
        &tables.places,
        tables.net,
        &tables.inputs,
        units,
        chans,
    )
}

/// Whether a worker owns a unit.
fn is_of(tables: &Tables, number: u32, unit: u32) -> bool
    requires { unit < length (net_of tables.now).units }
    ensures { result ≡ owns_unit (unit_owners tables.now) number unit }
{
    tables.owner(unit) == number
}

/// The units of a worker, ascending.
fn own_units(alloc: Global, tables: &Tables, number: u32) -> Result<Vec<u32>, Memory>
    ensures { IfOk result (λ v. v.items ≡ units_of (unit_owners tables.now) number) }
{
    let count = tables.net.net().units.len();
    let mut units = Vec::new(alloc);
    for at in 0..count {
        let own = is_of(tables, number, at as u32);
        note_if(&mut units, at as u32, own)?;
    }
    Ok(units)
}

/// Whether a channel goes from or to a unit of a worker.
fn is_at(tables: &Tables, number: u32, chan: u32) -> bool
    requires { chan < length (net_of tables.now).chans }
    ensures { result ≡ has_end (net_of tables.now) (unit_owners tables.now) number chan }
{
    tables.putter(chan) == number || tables.taker(chan) == number
}

/// Marks at these units, which lie in a span.
fn marks_at(alloc: Global, span: Span, units: &[u32]) -> Result<Ready, Memory> {
    let mut ready = Ready::new(alloc, span)?;
    for unit in units {
        ready.mark(*unit);
    }
    Ok(ready)
}
