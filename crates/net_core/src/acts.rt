//! The acts that a unit may make, by numbers.

ghost use Rattle.std.specs.Prelude.{◌≡◌, ◌<◌, true, length, get_or};
ghost use Rattle.std.specs.List.{slice_get};
ghost use Rattle.lsq_core.specs.Views.{oldest_of};
ghost use Rattle.net_types.specs.Nets.{kind_of};
ghost use Rattle.el_base.specs.Limits.{IsNumbered};
ghost use Rattle.net_core.specs.Fire.{idle};
ghost use Rattle.net_core.specs.Plans.{keeps, own_of, KeepsShape};
ghost use Rattle.net_core.specs.States.{IsOf, state_of};
ghost use Rattle.net_core.specs.Finds.{exec_of, queue_acts, unit_acts};

use crate::cell::{Cell, UnitQueue};
use crate::state::State;
use lsq_core::Queue;
use net_check::Checked;
use net_types::{Act, Unit};

impl State {
    /// The act of a unit that has this number in the order of its acts, from 0 on; `None` past the last.
    ///
    /// Of the executions of a queue only that of the oldest entry that may execute is there; where there is none, a
    /// retirement stands in its place.
    pub fn act_at(&self, net: &Checked, unit: u32, number: u32) -> Option<Act>
        requires of { IsOf net.now self.now }
        requires within { unit < length net.now.units }
        ensures { result ≡ slice_get (unit_acts (kind_of net.now unit)
            (get_or (state_of self.now).own unit idle)) number }
    {
        let at = unit as usize;
        act_numbered(&net.net().units.as_slice()[at], &self.cells[at], number)
    }
}

/// The act of a unit of this kind that keeps this cell, by its number, as [`State::act_at`] tells it.
pub fn act_numbered(kind: &Unit, cell: &Cell, number: u32) -> Option<Act>
    requires keeps { keeps kind.now cell.now ≡ true }
    requires shape { KeepsShape kind.now cell.now }
    ensures { result ≡ slice_get (unit_acts kind.now (own_of cell.now)) number }
{
    match kind {
        Unit::Fork { outs, .. } => (number < *outs).then_some(Act::Send(number)),
        Unit::Cmerge { ins } => (number < *ins).then_some(Act::From(number)),
        Unit::Lsq { ports, groups, .. } => match cell {
            Cell::Queue(queue) => {
                let ports = ports.as_slice().len() as u64;
                let groups = groups.as_slice().len() as u64;
                queue_act(queue, ports, groups, number as u64)
            }
            _ => None,
        },
        _ => (number == 0).then_some(Act::Go),
    }
}

/// The act of a queue with this number. The oldest entry that may execute is looked for only where the number is that of an execution.
fn queue_act(queue: &UnitQueue, ports: u64, groups: u64, number: u64) -> Option<Act>
    requires { IsNumbered number }
    ensures { result
        ≡ slice_get (queue_acts ports groups (oldest_of queue.now.queue)) number }
{
    if number < groups {
        return Some(Act::Alloc(number as u32));
    }
    let number = number - groups;
    if number < ports {
        return Some(Act::Addr(number as u32));
    }
    let number = number - ports;
    if number < ports {
        return Some(Act::Data(number as u32));
    }
    let number = number - ports;
    if number == 0 {
        return Some(exec_of(queue.oldest()));
    }
    let number = number - 1;
    if number < ports {
        return Some(Act::Reply(number as u32));
    }
    match number - ports {
        0 => Some(Act::Retire),
        1 => Some(Act::End),
        _ => None,
    }
}

/// The execution of an entry with this serial number; where there is none, a retirement.
fn exec_of(oldest: Option<u64>) -> Act
    ensures { result ≡ exec_of oldest }
{
    match oldest {
        Some(serial) => Act::Exec(serial),
        None => Act::Retire,
    }
}
