//! Which places have fired in a cycle.

ghost use Rattle.std.specs.Prelude.{◌≡◌, ◌↔◌, ◌+◌, ◌*◌, ◌<◌, ◌≤◌, ◌^◌, ℕ, IfOk, IsTrue, get_or, length};
ghost use Rattle.cycle_engine.specs.private.Used.{AreNumbered, HasNumbersBelow, IsStamped, own_number, place_number};

use net_check::Checked;
use net_types::{Act, Firing, Memory, Unit};
use std::alloc::Global;

/// When each place has fired last, by the number of the place.
pub(crate) struct Used {
    /// From where on the places of each unit have their numbers, but one of each unit that is no fork, which has the unit's.
    pub base: Vec<u64>,
    /// Of each place how many firings there were with its last one; 0 before its first.
    pub last: Vec<u64>,
}

// By hand, so that to let go of one is a call.
impl Drop for Used {
    fn drop(self) {
        let Used {
            base: _base,
            last: _last,
        } = self;
    }
}

/// How many numbers the places of a queue take.
fn queue_places(groups: usize, ports: usize) -> u128
    ensures groups { 4 * groups + 3 ≤ result }
    ensures ports { 4 * ports + 3 ≤ result }
    ensures small { result < 2 ^ 67 }
{
    4 * (groups.max(ports) as u128) + 3
}

/// How many numbers the places of a unit take from where they begin on. The one place of most units has the unit's number, and takes none.
fn places(unit: &Unit) -> u128
    ensures below { HasNumbersBelow unit.now result }
    ensures small { result < 2 ^ 67 }
{
    match unit {
        Unit::Fork { outs, .. } => u128::from(*outs) + 1,
        Unit::Cmerge { ins } => u128::from(*ins),
        Unit::Lsq { groups, ports, .. } => {
            queue_places(groups.as_slice().len(), ports.as_slice().len())
        }
        Unit::Entry => 0,
        Unit::Param(_) => 0,
        Unit::Const { .. } => 0,
        Unit::Op1(_) => 0,
        Unit::Op2(_) => 0,
        Unit::Select { .. } => 0,
        Unit::Mux { .. } => 0,
        Unit::Branch { .. } => 0,
        Unit::Sink { .. } => 0,
        Unit::Read(_) => 0,
        Unit::Exit => 0,
    }
}

/// The number of a place among those of its unit; all executions of a queue have one.
#[inline(always)]
pub(crate) fn own_number(act: Act) -> u64
    ensures number { result ≡ own_number act }
    ensures small { result < 2 ^ 35 }
{
    match act {
        Act::Go => 0,
        Act::From(input) => u64::from(input),
        Act::Send(out) => u64::from(out) + 1,
        Act::Exec(_) => 0,
        Act::Retire => 1,
        Act::End => 2,
        Act::Alloc(group) => 4 * u64::from(group) + 3,
        Act::Addr(port) => 4 * u64::from(port) + 4,
        Act::Data(port) => 4 * u64::from(port) + 5,
        Act::Reply(port) => 4 * u64::from(port) + 6,
    }
}

impl Used {
    /// No place has fired.
    ///
    /// # Errors
    ///
    /// [`Memory`] where memory is wanting.
    pub(crate) fn new(alloc: Global, net: &Checked) -> Result<Used, Memory>
        ensures numbered { IfOk result
            (λ u. AreNumbered net.now u.base.items (length u.last.items)) }
        ensures none { IfOk result (λ u. (x : ℕ) → get_or u.last.items x 0 ≡ 0) }
    {
        let units = net.net().units.as_slice();
        let mut base = Vec::with_capacity(alloc, units.len())?;
        let mut count = units.len() as u128;
        for unit in units {
            let Ok(from) = u64::try_from(count) else {
                return Err(Memory);
            };
            base.push(from)?;
            count += places(unit);
        }
        let Ok(count) = usize::try_from(count) else {
            return Err(Memory);
        };
        Ok(Used {
            base,
            last: vec![in alloc; 0; count]?,
        })
    }

    /// How many places have numbers.
    pub(crate) fn count(&self) -> usize
        ensures { result ≡ length self.now.last.items }
    {
        self.last.len()
    }

    /// From where on the places of a unit have their numbers.
    #[inline(always)]
    pub(crate) fn base(&self, unit: u32) -> u64
        ensures { result ≡ get_or self.now.base.items unit 0 }
    {
        let at = unit as usize;
        if at < self.base.len() {
            self.base[at]
        } else {
            0
        }
    }

    /// The number of a firing's place.
    #[inline(always)]
    pub(crate) fn number(&self, firing: Firing) -> u64
        requires { place_number self.now.base.items firing < length self.now.last.items }
        ensures { result ≡ place_number self.now.base.items firing }
    {
        let own = own_number(firing.act);
        if own == 0 {
            return u64::from(firing.unit);
        }
        self.base(firing.unit) + own
    }

    /// Whether the place of a number has fired after so many firings.
    #[inline(always)]
    pub(crate) fn has_fired(&self, at: u64, earlier: u64) -> bool
        requires { at < length self.now.last.items }
        ensures { IsTrue result ↔ (earlier < get_or self.now.last.items at 0) }
    {
        self.last[at as usize] > earlier
    }

    /// Notes that the place of a number fires after so many firings.
    #[inline(always)]
    pub(crate) fn stamp(&mut self, at: u64, count: u64)
        requires within { at < length self.old.last.items }
        requires few { count < 2 ^ 63 }
        ensures { IsStamped at count self.old self.new }
    {
        self.last[at as usize] = count + 1;
    }
}
