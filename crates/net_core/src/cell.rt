//! What a unit keeps between its firings.

ghost use Rattle.std.specs.Prelude.{◌≡◌, ◌≤◌, ◌^◌, true, [], get_or, IfOk};
ghost use Rattle.net_types.specs.Nets.{owns};
ghost use Rattle.net_types.specs.Queues.{IsQueueShape};
ghost use Rattle.net_check.specs.Shapes.{HasShape};
ghost use Rattle.lsq_core.specs.Views.{count_of, shaped};
ghost use Rattle.net_core.specs.Fire.{opened, at_array};
ghost use Rattle.net_core.specs.Plans.{own_of, admits, keeps, next_of, cell_after, started, finished, strays_after, IsShaped};
ghost use Rattle.net_core.specs.States.{queue_array};
ghost use Rattle.net_core.specs.declared.plan.Change.TheVariants as change;

use crate::plan::Change;
use crate::sent::Sent;
use lsq_core::{Lsq, Queue};
use net_types::{Act, List, Memory, Port, Unit};
use std::alloc::Global;

/// The queue of a unit.
pub type UnitQueue = Lsq;

/// What a unit keeps between its firings.
#[derive(Drop)]
pub enum Cell {
    Plain,
    Start { fired: bool },
    Exit { fired: bool, value: Option<u64> },
    Fork(Sent),
    /// A queue, with its array. It lies behind a box, since most units have none.
    Queue(Box<UnitQueue>),
}

/// An empty queue behind a box. It stands apart so that the cell of a unit without one is made at little cost.
#[inline(never)]
fn boxed_queue(
    alloc: Global,
    elements: &[u64],
    depth: u32,
    ports: &[Port],
    groups: &[List<u32>],
    forward: bool,
) -> Result<Box<UnitQueue>, Memory>
    requires { IsQueueShape depth ports.now groups.now }
    ensures { IfOk result
        (λ b. b.value ≡ shaped elements.now depth ports.now groups.now forward) }
{
    let queue = UnitQueue::new(alloc, elements, depth, ports, groups, forward)?;
    Ok(Box::new(alloc, queue)?)
}

impl Cell {
    /// What a unit keeps at first.
    pub fn new(alloc: Global, unit: &Unit, arrays: &[List<u64>]) -> Result<Cell, Memory>
        requires { HasShape unit.now }
        ensures own { IfOk result (λ c. own_of c ≡ opened unit.now) }
        ensures kept { IfOk result (λ c. keeps unit.now c ≡ true) }
        ensures shape { IfOk result
            (λ c. IsShaped unit.now c (at_array arrays.now (owns unit.now))) }
    {
        match unit {
            Unit::Entry => Ok(Cell::Start { fired: false }),
            Unit::Param(_) => Ok(Cell::Start { fired: false }),
            Unit::Exit => Ok(Cell::Exit {
                fired: false,
                value: None,
            }),
            Unit::Fork { outs, .. } => Ok(Cell::Fork(Sent::new(alloc, *outs)?)),
            Unit::Const { .. } => Ok(Cell::Plain),
            Unit::Op1(_) => Ok(Cell::Plain),
            Unit::Op2(_) => Ok(Cell::Plain),
            Unit::Select { .. } => Ok(Cell::Plain),
            Unit::Mux { .. } => Ok(Cell::Plain),
            Unit::Cmerge { .. } => Ok(Cell::Plain),
            Unit::Branch { .. } => Ok(Cell::Plain),
            Unit::Sink { .. } => Ok(Cell::Plain),
            Unit::Read(_) => Ok(Cell::Plain),
            Unit::Lsq {
                array,
                depth,
                ports,
                groups,
                forward,
            } => {
                let elements = elements_of(arrays, *array);
                let ports = ports.as_slice();
                let groups = groups.as_slice();
                let queue = boxed_queue(alloc, elements, *depth, ports, groups, *forward)?;
                Ok(Cell::Queue(queue))
            }
        }
    }

    /// Whether the unit has fired, of an entry, a parameter and an exit; `false` of other units.
    pub fn fired(&self) -> bool
        ensures { result ≡ (own_of self.now).fired }
    {
        match self {
            Cell::Start { fired } => *fired,
            Cell::Exit { fired, .. } => *fired,
            _ => false,
        }
    }

    /// The result that an exit took, where it took one.
    pub fn value(&self) -> Option<u64>
        ensures { result ≡ (own_of self.now).value }
    {
        match self {
            Cell::Exit { value, .. } => *value,
            _ => None,
        }
    }

    /// The elements of the array of a queue; none of other units.
    #[inline(always)]
    pub fn elements(&self) -> &[u64]
        ensures { result.now ≡ queue_array self.now }
    {
        match self {
            Cell::Queue(queue) => queue.array(),
            _ => &[],
        }
    }

    /// Makes a change, and tells whether an address lay past the array.
    #[inline(always)]
    pub fn change(&mut self, change: Change) -> bool
        requires admits { admits self.old change ≡ true }
        requires serial { next_of self.old ≤ 2 ^ 62 }
        ensures cell { self.new ≡ cell_after change self.old }
        ensures stray { count_of result ≡ strays_after change self.old }
    {
        match change {
            Change::Keep => false,
            Change::Stray => true,
            Change::Fire => {
                self.start();
                false
            }
            Change::Finish(result) => {
                self.finish(result);
                false
            }
            Change::Send(out) => {
                self.send(out);
                false
            }
            Change::Act { act, token } => self.act(act, token),
        }
    }

    /// Notes that an entry, a parameter or an exit without result has fired.
    fn start(&mut self)
        ensures { self.new ≡ started self.old }
    {
        match self {
            Cell::Start { fired } => *fired = true,
            Cell::Exit { fired, .. } => *fired = true,
            _ => {}
        }
    }

    /// Notes the result that an exit took.
    fn finish(&mut self, taken: u64)
        ensures { self.new ≡ finished taken self.old }
    {
        match self {
            Cell::Exit { fired, value } => {
                *fired = true;
                *value = Some(taken);
            }
            _ => {}
        }
    }

    /// Notes a sending of a fork.
    #[inline(always)]
    fn send(&mut self, out: u32)
        requires { admits self.old (change.Send out) ≡ true }
        ensures { self.new ≡ cell_after (change.Send out) self.old }
    {
        match self {
            Cell::Fork(sent) => sent.send(out),
            _ => {}
        }
    }

    /// Makes an act of a queue.
    fn act(&mut self, act: Act, token: u64) -> bool
        requires admits { admits self.old (change.Act act token) ≡ true }
        requires serial { next_of self.old ≤ 2 ^ 62 }
        ensures cell { self.new ≡ cell_after (change.Act act token) self.old }
        ensures stray { count_of result ≡ strays_after (change.Act act token) self.old }
    {
        match self {
            Cell::Queue(queue) => queue.act(act, token).stray,
            _ => false,
        }
    }
}

/// The elements of an array; none of an array that is not there.
pub(crate) fn elements_of(arrays: &[List<u64>], array: u32) -> &[u64]
    ensures { result.now ≡ get_or arrays.now array [] }
{
    let at = array as usize;
    if at < arrays.len() {
        arrays[at].as_slice()
    } else {
        &[]
    }
}
