//! What a firing does, from the unit's own state and the heads at its places.

ghost use Rattle.std.specs.Prelude.{◌≡◌, ◌≢◌, ◌+◌, ℕ, Option, Some, None, true, get_or, length, IfSome};
ghost use Rattle.net_core.specs.declared.cell.Cell.{Cell as CellKept};
ghost use Rattle.net_core.specs.declared.cell.Cell.TheVariants as cells;
ghost use Rattle.net_core.specs.declared.plan.Change.TheVariants as change;
ghost use Rattle.net_types.specs.declared.net.Unit.TheVariants as units;
ghost use Rattle.net_types.specs.declared.firing.Act.TheVariants as acts;
ghost use Rattle.lsq_core.specs.Acts.{in_place, out_place};
ghost use Rattle.net_check.specs.Pins.{pins_of};
ghost use Rattle.net_types.specs.Nets.{into, out_of};
ghost use Rattle.net_types.specs.Order.{act_rank};
ghost use Rattle.lsq_core.specs.Views.{given};
ghost use Rattle.net_core.specs.Plans.{IsActPlan, IsExitPlan, IsFromPlan, IsGoPlan, IsPlainPlan, IsQueuePlan, IsSendPlan, IsShaped, IsStartPlan, IsTakingPlan, IsUnitPlan, KeepsShape, admits, apart, is_exit_cell, is_start, keeps, putting, moves_of, queue_admits, setting_of, taken_of};

use crate::cell::{Cell, UnitQueue};
use crate::sent::Sent;
use el_base::{Op1, Op2};
use lsq_core::Queue;
use net_check::{Checked, Pins};
use net_types::{Act, List, Unit};
use word_ops::{apply1, apply2};

/// The heads at the input places of one unit.
pub trait Heads {
    ghost heads: { Self → ℕ → Option ℕ };

    /// The oldest token at an input place.
    fn head(&self, place: u64) -> Option<u64>
        ensures { result ≡ heads self.now place };
}

/// A token that a firing puts.
#[derive(Clone, Copy)]
pub struct Put {
    pub place: u64,
    pub value: u64,
}

/// The places that a firing takes from.
#[derive(Clone, Copy)]
pub enum Takes {
    None,
    One(u64),
    Two(u64, u64),
    Three(u64, u64, u64),
}

/// The channels from which a firing takes.
#[derive(Clone, Copy)]
pub enum Taken {
    None,
    One(u32),
    Two(u32, u32),
    Three(u32, u32, u32),
}

/// A token that a firing puts on a channel.
#[derive(Clone, Copy)]
pub struct Laid {
    pub chan: u32,
    pub value: u64,
}

/// The tokens that a firing moves, by their channels.
#[derive(Clone, Copy)]
pub struct Moves {
    pub taken: Taken,
    pub laid: Option<Laid>,
}

/// What a firing does to the unit's own state.
#[derive(Clone, Copy)]
pub enum Change {
    Keep,
    Fire,
    Finish(u64),
    Send(u32),
    Stray,
    /// A queue makes an act, with the token that it takes.
    Act { act: Act, token: u64 },
}

/// What a firing does.
#[derive(Clone, Copy)]
pub struct Plan {
    pub takes: Takes,
    pub put: Option<Put>,
    pub change: Change,
}

/// The channel into an input place of a unit whose first places are known, or the number of all channels.
#[inline(always)]
pub fn into_at(net: &Checked, unit: u32, pins: Pins, place: u64) -> u32
    requires { pins ≡ pins_of unit net.now.chans }
    ensures { result ≡ into unit place net.now.chans }
{
    match place {
        0 => pins.first,
        1 => pins.second,
        2 => pins.third,
        _ => far_into(net, unit, place),
    }
}

/// The channel into an input place behind the first. It stands apart so that what looks at the first places stays small.
#[inline(never)]
fn far_into(net: &Checked, unit: u32, place: u64) -> u32
    ensures { result ≡ into unit place net.now.chans }
{
    let ins = net.ins_of(unit);
    if place < ins.len() as u64 {
        ins[place as usize]
    } else {
        net.net().chans.as_slice().len() as u32
    }
}

/// The channel out of an output place behind the first. It stands apart so that what looks at the first places stays small.
#[inline(never)]
fn far_out(net: &Checked, unit: u32, place: u64) -> u32
    ensures { result ≡ out_of unit place net.now.chans }
{
    net.out_of_place(unit, place)
}

/// The channel out of an output place of a unit whose first places are known, or the number of all channels.
#[inline(always)]
fn out_of_at(net: &Checked, unit: u32, pins: Pins, place: u64) -> u32
    requires { pins ≡ pins_of unit net.now.chans }
    ensures { result ≡ out_of unit place net.now.chans }
{
    match place {
        0 => pins.out,
        _ => far_out(net, unit, place),
    }
}

/// The channels from which a unit takes at places.
#[inline(always)]
fn taken_at(net: &Checked, unit: u32, pins: Pins, takes: Takes) -> Taken
    requires { pins ≡ pins_of unit net.now.chans }
    ensures { result ≡ taken_of net.now unit takes }
{
    match takes {
        Takes::None => Taken::None,
        Takes::One(p) => Taken::One(into_at(net, unit, pins, p)),
        Takes::Two(p, q) => Taken::Two(into_at(net, unit, pins, p), into_at(net, unit, pins, q)),
        Takes::Three(p, q, r) => Taken::Three(
            into_at(net, unit, pins, p),
            into_at(net, unit, pins, q),
            into_at(net, unit, pins, r),
        ),
    }
}

/// The tokens that a firing of a unit by a plan moves.
#[inline(always)]
pub fn moves_of(net: &Checked, unit: u32, plan: &Plan) -> Moves
    ensures { result ≡ moves_of net.now unit plan.now }
{
    moves_at(net, unit, net.pins(unit), plan)
}

/// As [`moves_of`], where the channels at the first places of the unit are known.
#[inline(always)]
pub fn moves_at(net: &Checked, unit: u32, pins: Pins, plan: &Plan) -> Moves
    requires { pins ≡ pins_of unit net.now.chans }
    ensures { result ≡ moves_of net.now unit plan.now }
{
    let taken = taken_at(net, unit, pins, plan.takes);
    let laid = match plan.put {
        None => None,
        Some(put) => Some(Laid {
            chan: out_of_at(net, unit, pins, put.place),
            value: put.value,
        }),
    };
    Moves { taken, laid }
}

#[inline(always)]
fn puts(takes: Takes, place: u64, value: u64) -> Option<Plan>
    ensures { result ≡ Some (putting takes place value) }
{
    Some(Plan {
        takes,
        put: Some(Put { place, value }),
        change: Change::Keep,
    })
}

/// What a fork's sending does.
#[tactic(auto, unfolding(crate::specs::Fire::row))]
#[inline(always)]
pub fn plan_send<H: Heads>(
    heads: &H,
    outs: u32,
    out: u32,
    sent: &Sent,
    array: &[u64],
) -> Option<Plan>
    ensures apart { IfSome result (λ p. apart p.takes ≡ true) }
    ensures admits { IfSome result (λ p. admits (cells.Fork sent.now) p.change ≡ true) }
    ensures effect { IsSendPlan outs out sent.now array.now (H.heads heads.now) result }
{
    if out >= outs || sent.is_set(out) {
        return None;
    }
    let value = heads.head(0)?;
    let put = Some(Put {
        place: out as u64,
        value,
    });
    let takes = if sent.is_last() {
        Takes::One(0)
    } else {
        Takes::None
    };
    Some(Plan {
        takes,
        put,
        change: Change::Send(out),
    })
}

/// What the one firing of an entry or a parameter does.
#[inline(always)]
fn plan_start(cell: &Cell, value: u64) -> Option<Plan>
    requires { is_start cell.now ≡ true }
    ensures apart { IfSome result (λ p. apart p.takes ≡ true) }
    ensures admits { IfSome result (λ p. admits cell.now p.change ≡ true) }
    ensures effect { IsStartPlan cell.now value result }
{
    match cell {
        Cell::Start { fired: false } => Some(Plan {
            takes: Takes::None,
            put: Some(Put { place: 0, value }),
            change: Change::Fire,
        }),
        _ => None,
    }
}

/// What a unit does that takes the head of its one place, and keeps nothing.
#[inline(always)]
pub fn plan_one<H: Heads>(heads: &H, put: Option<Put>) -> Option<Plan>
    ensures apart { IfSome result (λ p. apart p.takes ≡ true) }
    ensures change { IfSome result (λ p. p.change ≡ change.Keep) }
    ensures effect { IsTakingPlan put (H.heads heads.now) result }
{
    heads.head(0)?;
    Some(Plan {
        takes: Takes::One(0),
        put,
        change: Change::Keep,
    })
}

/// What the firing of an operation on one word does.
#[inline(always)]
pub fn plan_op1<H: Heads>(heads: &H, op: Op1) -> Option<Plan>
    ensures apart { IfSome result (λ p. apart p.takes ≡ true) }
    ensures change { IfSome result (λ p. p.change ≡ change.Keep) }
    ensures effect { IsPlainPlan (units.Op1 op) (H.heads heads.now) result }
{
    let a = heads.head(0)?;
    puts(Takes::One(0), 0, apply1(op, a))
}

/// What the firing of an operation on two words does.
#[inline(always)]
pub fn plan_op2<H: Heads>(heads: &H, op: Op2) -> Option<Plan>
    ensures apart { IfSome result (λ p. apart p.takes ≡ true) }
    ensures change { IfSome result (λ p. p.change ≡ change.Keep) }
    ensures effect { IsPlainPlan (units.Op2 op) (H.heads heads.now) result }
{
    let a = heads.head(0)?;
    let b = heads.head(1)?;
    puts(Takes::Two(0, 1), 0, apply2(op, a, b))
}

/// What the firing of a select does.
#[inline(always)]
pub fn plan_select<H: Heads>(heads: &H) -> Option<Plan>
    ensures apart { IfSome result (λ p. apart p.takes ≡ true) }
    ensures change { IfSome result (λ p. p.change ≡ change.Keep) }
    ensures effect { (w : ℕ) → IsPlainPlan (units.Select w) (H.heads heads.now) result }
{
    let which = heads.head(0)?;
    let yes = heads.head(1)?;
    let no = heads.head(2)?;
    puts(Takes::Three(0, 1, 2), 0, if which == 0 { no } else { yes })
}

/// What the firing of a mux does.
#[inline(always)]
pub fn plan_mux<H: Heads>(heads: &H, ins: u32) -> Option<Plan>
    ensures apart { IfSome result (λ p. apart p.takes ≡ true) }
    ensures change { IfSome result (λ p. p.change ≡ change.Keep) }
    ensures effect { (w : ℕ) → IsPlainPlan (units.Mux w ins) (H.heads heads.now) result }
{
    let which = heads.head(0)?;
    let last = if ins == 0 { 0 } else { ins as u64 - 1 };
    let place = if which < last { which + 1 } else { last + 1 };
    let value = heads.head(place)?;
    puts(Takes::Two(0, place), 0, value)
}

/// What the firing of a branch does.
#[inline(always)]
pub fn plan_branch<H: Heads>(heads: &H) -> Option<Plan>
    ensures apart { IfSome result (λ p. apart p.takes ≡ true) }
    ensures change { IfSome result (λ p. p.change ≡ change.Keep) }
    ensures effect { (w : ℕ) → IsPlainPlan (units.Branch w) (H.heads heads.now) result }
{
    let which = heads.head(0)?;
    let value = heads.head(1)?;
    puts(Takes::Two(0, 1), if which == 0 { 1 } else { 0 }, value)
}

/// What the firing of a read does.
#[inline(always)]
pub fn plan_read<H: Heads>(heads: &H, array: &[u64]) -> Option<Plan>
    ensures apart { IfSome result (λ p. apart p.takes ≡ true) }
    ensures admits { (c : CellKept) → IfSome result (λ p. admits c p.change ≡ true) }
    ensures effect { (a : ℕ) → IsGoPlan (units.Read a) array.now (H.heads heads.now) result }
{
    let at = heads.head(0)?;
    if at < array.len() as u64 {
        puts(Takes::One(0), 0, array[at as usize])
    } else {
        Some(Plan {
            takes: Takes::One(0),
            put: Some(Put { place: 0, value: 0 }),
            change: Change::Stray,
        })
    }
}

/// What the firing of the exit does.
#[inline(always)]
fn plan_exit<H: Heads>(heads: &H, cell: &Cell, valued: bool) -> Option<Plan>
    requires { is_exit_cell cell.now ≡ true }
    ensures apart { IfSome result (λ p. apart p.takes ≡ true) }
    ensures admits { IfSome result (λ p. admits cell.now p.change ≡ true) }
    ensures effect { IsExitPlan cell.now valued (H.heads heads.now) result }
{
    match cell {
        Cell::Exit { fired: false, .. } => {
            heads.head(0)?;
            if valued {
                let value = heads.head(1)?;
                Some(Plan {
                    takes: Takes::Two(0, 1),
                    put: None,
                    change: Change::Finish(value),
                })
            } else {
                Some(Plan {
                    takes: Takes::One(0),
                    put: None,
                    change: Change::Fire,
                })
            }
        }
        _ => None,
    }
}

/// A scalar of the inputs; 0 past them.
#[inline(always)]
fn scalar_at(scalars: &[u64], scalar: u32) -> u64
    ensures { result ≡ get_or scalars.now scalar 0 }
{
    if (scalar as usize) < scalars.len() {
        scalars[scalar as usize]
    } else {
        0
    }
}

/// What the firing of a unit that only goes does. It stands apart so that what plans any firing stays small.
#[tactic(auto, unfolding(crate::specs::Fire::row))]
#[inline(never)]
pub fn plan_go<H: Heads>(
    heads: &H,
    unit: &Unit,
    cell: &Cell,
    array: &[u64],
    scalars: &[u64],
    valued: bool,
) -> Option<Plan>
    requires { keeps unit.now cell.now ≡ true }
    ensures apart { IfSome result (λ p. apart p.takes ≡ true) }
    ensures admits { IfSome result (λ p. admits cell.now p.change ≡ true) }
    ensures effect { IsUnitPlan unit.now acts.Go cell.now array.now
        (setting_of scalars.now valued) (H.heads heads.now) result }
{
    match unit {
        Unit::Entry => plan_start(cell, 0),
        Unit::Param(scalar) => plan_start(cell, scalar_at(scalars, *scalar)),
        Unit::Const { value, .. } => plan_one(
            heads,
            Some(Put {
                place: 0,
                value: *value,
            }),
        ),
        Unit::Op1(op) => plan_op1(heads, *op),
        Unit::Op2(op) => plan_op2(heads, *op),
        Unit::Select { .. } => plan_select(heads),
        Unit::Mux { ins, .. } => plan_mux(heads, *ins),
        Unit::Branch { .. } => plan_branch(heads),
        Unit::Sink { .. } => plan_one(heads, None),
        Unit::Read(_) => plan_read(heads, array),
        Unit::Exit => plan_exit(heads, cell, valued),
        Unit::Fork { .. } => None,
        Unit::Cmerge { .. } => None,
        Unit::Lsq { .. } => None,
    }
}

/// What a queue does that passes a control token from an input to the output of the same number.
#[inline(always)]
fn pass<H: Heads>(heads: &H, queue: &UnitQueue, act: Act, place: u64) -> Option<Plan>
    requires puts { (v : ℕ) → (given queue.now act v).put ≡ Some v }
    requires ins { in_place queue.now.groups act ≡ Some place }
    requires outs { out_place queue.now.groups act ≡ Some place }
    ensures apart { IfSome result (λ p. apart p.takes ≡ true) }
    ensures admits { IfSome result (λ p. queue_admits queue.now p.change ≡ true) }
    ensures effect { IsQueuePlan queue.now act (H.heads heads.now) result }
{
    let token = heads.head(place)?;
    if !queue.can(act) {
        return None;
    }
    Some(Plan {
        takes: Takes::One(place),
        put: Some(Put {
            place,
            value: token,
        }),
        change: Change::Act { act, token },
    })
}

/// What a queue does that takes a token and puts none.
#[inline(always)]
fn fill<H: Heads>(heads: &H, queue: &UnitQueue, act: Act, place: u64) -> Option<Plan>
    requires ins { in_place queue.now.groups act ≡ Some place }
    requires outs { out_place queue.now.groups act ≡ None }
    ensures apart { IfSome result (λ p. apart p.takes ≡ true) }
    ensures admits { IfSome result (λ p. queue_admits queue.now p.change ≡ true) }
    ensures effect { IsQueuePlan queue.now act (H.heads heads.now) result }
{
    let token = heads.head(place)?;
    if !queue.can(act) {
        return None;
    }
    Some(Plan {
        takes: Takes::One(place),
        put: None,
        change: Change::Act { act, token },
    })
}

/// What a queue does that takes and puts no token.
#[inline(always)]
fn alone<H: Heads>(heads: &H, queue: &UnitQueue, act: Act) -> Option<Plan>
    requires ins { in_place queue.now.groups act ≡ None }
    requires outs { out_place queue.now.groups act ≡ None }
    ensures apart { IfSome result (λ p. apart p.takes ≡ true) }
    ensures admits { IfSome result (λ p. queue_admits queue.now p.change ≡ true) }
    ensures effect { IsQueuePlan queue.now act (H.heads heads.now) result }
{
    let _ = heads;
    if !queue.can(act) {
        return None;
    }
    Some(Plan {
        takes: Takes::None,
        put: None,
        change: Change::Act { act, token: 0 },
    })
}

/// What the reply of a queue at a port does.
#[inline(always)]
fn answer<H: Heads>(heads: &H, queue: &UnitQueue, port: u32, place: u64) -> Option<Plan>
    requires outs { place ≡ length queue.now.groups + 1 + port }
    ensures apart { IfSome result (λ p. apart p.takes ≡ true) }
    ensures admits { IfSome result (λ p. queue_admits queue.now p.change ≡ true) }
    ensures effect { IsQueuePlan queue.now (acts.Reply port) (H.heads heads.now) result }
{
    let _ = heads;
    let value = queue.reply(port)?;
    Some(Plan {
        takes: Takes::None,
        put: Some(Put { place, value }),
        change: Change::Act {
            act: Act::Reply(port),
            token: 0,
        },
    })
}

/// What an act of a queue does.
#[inline(always)]
fn plan_queue<H: Heads>(
    heads: &H,
    groups: &[List<u32>],
    queue: &UnitQueue,
    act: Act,
) -> Option<Plan>
    requires groups { groups.now ≡ queue.now.groups }
    ensures apart { IfSome result (λ p. apart p.takes ≡ true) }
    ensures admits { IfSome result (λ p. queue_admits queue.now p.change ≡ true) }
    ensures effect { IsQueuePlan queue.now act (H.heads heads.now) result }
{
    let end = groups.len() as u64;
    match act {
        Act::Alloc(group) => pass(heads, queue, act, group as u64),
        Act::End => pass(heads, queue, act, end),
        Act::Addr(port) => fill(heads, queue, act, end + 1 + 2 * port as u64),
        Act::Data(port) => fill(heads, queue, act, end + 2 + 2 * port as u64),
        Act::Exec(_) => alone(heads, queue, act),
        Act::Retire => alone(heads, queue, act),
        Act::Reply(port) => answer(heads, queue, port, end + 1 + port as u64),
        Act::Go => None,
        Act::From(_) => None,
        Act::Send(_) => None,
    }
}

/// What the firing of a control merge from an input does.
#[inline(always)]
pub fn plan_from<H: Heads>(heads: &H, ins: u32, which: u32) -> Option<Plan>
    ensures apart { IfSome result (λ p. apart p.takes ≡ true) }
    ensures change { IfSome result (λ p. p.change ≡ change.Keep) }
    ensures effect { IsFromPlan ins which (H.heads heads.now) result }
{
    if which >= ins {
        return None;
    }
    heads.head(which as u64)?;
    puts(Takes::One(which as u64), 0, which as u64)
}

/// What an act does of a queue or a control merge; none of them is Go or the sending to an output.
#[tactic(auto, unfolding(crate::specs::Fire::row))]
#[inline(always)]
pub fn plan_act<H: Heads>(heads: &H, unit: &Unit, act: Act, cell: &Cell) -> Option<Plan>
    requires keeps { keeps unit.now cell.now ≡ true }
    requires shape { KeepsShape unit.now cell.now }
    requires goes { act_rank act ≢ 0 }
    requires sends { act_rank act ≢ 2 }
    ensures apart { IfSome result (λ p. apart p.takes ≡ true) }
    ensures admits { IfSome result (λ p. admits cell.now p.change ≡ true) }
    ensures effect { IsActPlan unit.now act cell.now (H.heads heads.now) result }
{
    match act {
        Act::From(which) => match unit {
            Unit::Cmerge { ins } => plan_from(heads, *ins, which),
            _ => None,
        },
        _ => match (unit, cell) {
            (Unit::Lsq { groups, .. }, Cell::Queue(queue)) => {
                plan_queue(heads, groups.as_slice(), queue, act)
            }
            _ => None,
        },
    }
}

/// What a firing does; `None` where its heads or its own state hold it back.
#[tactic(auto, unfolding(crate::specs::Fire::row))]
#[inline(always)]
pub fn plan_firing<H: Heads>(
    heads: &H,
    unit: &Unit,
    act: Act,
    cell: &Cell,
    array: &[u64],
    scalars: &[u64],
    valued: bool,
) -> Option<Plan>
    requires keeps { keeps unit.now cell.now ≡ true }
    requires shape { IsShaped unit.now cell.now array.now }
    ensures apart { IfSome result (λ p. apart p.takes ≡ true) }
    ensures admits { IfSome result (λ p. admits cell.now p.change ≡ true) }
    ensures effect { IsUnitPlan unit.now act cell.now array.now
        (setting_of scalars.now valued) (H.heads heads.now) result }
{
    match act {
        Act::Go => plan_go(heads, unit, cell, array, scalars, valued),
        Act::Send(out) => match (unit, cell) {
            (Unit::Fork { outs, .. }, Cell::Fork(sent)) => plan_send(
                heads, *outs, out, sent, array,
            ),
            _ => None,
        },
        _ => plan_act(heads, unit, act, cell),
    }
}
