ghost use Rattle.std.specs.Prelude.{◌≡◌, ◌^◌, ◌<◌, ℕ, get_or, length, IfOk};
ghost use Rattle.std.specs.List.{All};
ghost use Rattle.net_types.specs.Numbered.{AreNumbered};
ghost use Rattle.net_check.specs.Places.{HasEnds};
ghost use Rattle.net_check.specs.declared.wires.Side.TheVariants.{In, Out};
ghost use Rattle.net_check.specs.private.Bounds.{HasRoom, IsBounded};
ghost use Rattle.net_check.specs.private.Wires.{wire, bound, in_bound, out_bound, end_of, starts_from, IsFilled, IsTable, Rises, Fits, AreInside};

use net_types::{Chan, Memory, Net, Place, Unit};
use std::alloc::Global;

/// The input or the output side of units.
#[derive(Clone, Copy)]
pub(crate) enum Side {
    In,
    Out,
}

/// The channels at all places of one side: those of a unit one after another.
#[derive(Drop)]
pub(crate) struct Wires {
    pub starts: Vec<usize>,
    pub chans: Vec<u32>,
    pub none: u32,
    pub ghost fits: { Fits starts.items chans.items },
}

/// Each place of a unit on a side has a number below this one.
pub(crate) fn bound(unit: &Unit, side: Side) -> usize
    requires { IsBounded side unit.now }
    ensures { result ≡ bound side unit.now }
{
    match side {
        Side::In => in_bound(unit),
        Side::Out => out_bound(unit),
    }
}

fn in_bound(unit: &Unit) -> usize
    requires { IsBounded In unit.now }
    ensures { result ≡ in_bound unit.now }
{
    match unit {
        Unit::Entry => 0,
        Unit::Param(_) => 0,
        Unit::Const { .. } => 1,
        Unit::Op1(_) => 1,
        Unit::Op2(_) => 2,
        Unit::Select { .. } => 3,
        Unit::Fork { .. } => 1,
        Unit::Mux { ins, .. } => *ins as usize + 1,
        Unit::Cmerge { ins } => *ins as usize,
        Unit::Branch { .. } => 2,
        Unit::Sink { .. } => 1,
        Unit::Read(_) => 1,
        Unit::Lsq { ports, groups, .. } => {
            groups.as_slice().len() + 1 + 2 * ports.as_slice().len()
        }
        Unit::Exit => 2,
    }
}

fn out_bound(unit: &Unit) -> usize
    requires { IsBounded Out unit.now }
    ensures { result ≡ out_bound unit.now }
{
    match unit {
        Unit::Entry => 1,
        Unit::Param(_) => 1,
        Unit::Const { .. } => 1,
        Unit::Op1(_) => 1,
        Unit::Op2(_) => 1,
        Unit::Select { .. } => 1,
        Unit::Fork { outs, .. } => *outs as usize,
        Unit::Mux { .. } => 1,
        Unit::Cmerge { .. } => 1,
        Unit::Branch { .. } => 2,
        Unit::Sink { .. } => 0,
        Unit::Read(_) => 1,
        Unit::Lsq { ports, groups, .. } => groups.as_slice().len() + 1 + ports.as_slice().len(),
        Unit::Exit => 0,
    }
}

/// The end of a channel on a side.
pub(crate) fn end_of(chan: &Chan, side: Side) -> Place
    ensures { result ≡ end_of side chan.now }
{
    match side {
        Side::In => chan.to,
        Side::Out => chan.from,
    }
}

/// Where the places of each unit begin, and how many there are.
///
/// # Errors
///
/// [`Memory`] where memory is wanting.
fn starts(alloc: Global, units: &[Unit], side: Side) -> Result<Vec<usize>, Memory>
    requires { HasRoom side units.now }
    ensures { IfOk result (λ v. v.items ≡ starts_from side 0 units.now) }
{
    let mut starts = Vec::new(alloc);
    let mut total: usize = 0;
    for unit in units {
        starts.push(total)?;
        total += bound(unit, side);
    }
    starts.push(total)?;
    Ok(starts)
}

/// The numbers of the channels at all places; the number of channels where there is none.
///
/// Filled from the last channel to the first, so that the first of two at one place stays.
///
/// # Errors
///
/// [`Memory`] where memory is wanting.
fn filled(alloc: Global, starts: &[usize], chans: &[Chan], side: Side) -> Result<Vec<u32>, Memory>
    requires some { 0 < length starts.now }
    requires rising { Rises starts.now }
    requires numbered { length chans.now < 2 ^ 32 }
    requires inside { AreInside side starts.now chans.now }
    ensures { IfOk result (λ table. IsFilled side starts.now table.items chans.now) }
{
    let total = starts[starts.len() - 1];
    let mut table = vec![in alloc; chans.len() as u32; total]?;
    let mut at = chans.len();
    while at > 0 {
        at -= 1;
        let place = end_of(&chans[at], side);
        table[starts[place.unit as usize] + place.place as usize] = at as u32;
    }
    Ok(table)
}

impl Wires {
    /// The table of the channels at the places of a side, where channels end at places: the first of two at one place.
    ///
    /// It costs time in proportion to the units, the channels and the places, and 8 bytes a unit and 4 a place.
    ///
    /// # Errors
    ///
    /// [`Memory`] where memory is wanting.
    pub(crate) fn new(alloc: Global, net: &Net, side: Side) -> Result<Wires, Memory>
        requires ends { All (HasEnds net.now) net.now.chans }
        requires room { HasRoom side net.now.units }
        requires numbered { AreNumbered net.now }
        ensures { IfOk result (λ w. IsTable side w.starts.items w.chans.items w.none net.now.chans) }
    {
        let starts = starts(alloc, net.units.as_slice(), side)?;
        let chans = filled(alloc, starts.as_slice(), net.chans.as_slice(), side)?;
        let none = net.chans.as_slice().len() as u32;
        Ok(Wires {
            starts,
            chans,
            none,
        })
    }

    /// The numbers of the channels at the places of a unit, up to the last that has an entry.
    #[inline(always)]
    pub(crate) fn of(&self, unit: u32) -> &[u32]
        ensures { (p : ℕ) → get_or result.now p self.now.none
            ≡ wire self.now.starts.items self.now.chans.items self.now.none unit p }
    {
        let unit = unit as usize;
        if unit + 1 < self.starts.len() {
            let start = self.starts[unit];
            let end = self.starts[unit + 1];
            if start <= end {
                return &self.chans.as_slice()[start..end];
            }
        }
        &[]
    }

    /// The number of the channel at a place, or how many channels there are where it has none. It costs one step.
    #[inline(always)]
    pub(crate) fn at(&self, unit: u32, place: u64) -> u32
        ensures { result ≡ wire self.now.starts.items self.now.chans.items self.now.none unit place }
    {
        let unit = unit as usize;
        if unit + 1 < self.starts.len() {
            let start = self.starts[unit];
            let end = self.starts[unit + 1];
            if start <= end && place < (end - start) as u64 {
                return self.chans[start + place as usize];
            }
        }
        self.none
    }
}
