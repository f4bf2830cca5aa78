//! Acts of queues and of control merges that are not tried, since nothing can come of it.
//!
//! Which acts are passed over is part of no contract: a worker that makes no firing by those that are left looks at all acts
//! before it is idle.
ghost use Rattle.std.specs.Prelude.{◌<◌, length};
ghost use Rattle.net_core.specs.States.{IsOf};
ghost use Rattle.net_worker.specs.Portions.{IsUnitHere};

use crate::portion::Portion;
use net_check::Checked;
use net_core::UnitQueue;
use net_types::Unit;

/// The numbers at which the kinds of acts of a queue begin, in the order of its acts; from 0 on the groups are allocated.
#[derive(Clone, Copy)]
struct Starts {
    addr: u32,
    data: u32,
    exec: u32,
    reply: u32,
    retire: u32,
}

/// The starts of a queue of so many groups and ports.
fn starts_of(groups: usize, ports: usize) -> Starts {
    let addr = u32::try_from(groups).unwrap_or(u32::MAX);
    let ports = u32::try_from(ports).unwrap_or(u32::MAX);
    let data = addr.saturating_add(ports);
    let exec = data.saturating_add(ports);
    let reply = exec.saturating_add(1);
    Starts {
        addr,
        data,
        exec,
        reply,
        retire: reply.saturating_add(ports),
    }
}

/// The place of a unit into which a channel goes, where it goes into one of so many first places of that unit.
#[inline(always)]
pub(crate) fn input_of(net: &Checked, chan: u32, unit: u32, places: u32) -> Option<u32> {
    let chans = net.net().chans.as_slice();
    if chan as usize >= chans.len() {
        return None;
    }
    let end = chans[chan as usize].to;
    (end.unit == unit && end.place < places).then_some(end.place)
}

/// The next number from one on, in the order of a unit's acts, of an act that the unit may make, as far as its queue tells and
/// the channel on which the control token is. Another unit tells nothing.
pub(crate) fn next_number(
    net: &Checked,
    portion: &Portion,
    control: u32,
    unit: u32,
    number: u32,
) -> u32
    requires of { IsOf net.now portion.now.state }
    requires here { IsUnitHere portion.now unit }
    requires within { unit < length net.now.units }
{
    match &net.net().units.as_slice()[unit as usize] {
        Unit::Cmerge { ins } => next_control_place(net, control, unit, number, *ins),
        Unit::Lsq { ports, groups, .. } => match portion.queue(net, unit) {
            None => number,
            Some(queue) => {
                let starts = starts_of(groups.as_slice().len(), ports.as_slice().len());
                let number = next_control_place(net, control, unit, number, starts.addr);
                if number < starts.addr {
                    number
                } else {
                    next_of_ports(queue, starts, number)
                }
            }
        },
        _ => number,
    }
}

/// The number of the place of a unit at which the control token is, where that is from a number on and below the end of such
/// places; else the end, or the number where it is past that.
fn next_control_place(net: &Checked, control: u32, unit: u32, number: u32, end: u32) -> u32 {
    match input_of(net, control, unit, end) {
        Some(place) if number <= place => place,
        _ => number.max(end),
    }
}

/// The next number from one on past the groups.
fn next_of_ports(queue: &UnitQueue, starts: Starts, number: u32) -> u32 {
    let mut at = number;
    if at < starts.data {
        if let Some(port) = queue.next_addr(at.saturating_sub(starts.addr)) {
            return starts.addr.saturating_add(port);
        }
        at = starts.data;
    }
    if at < starts.exec {
        if let Some(port) = queue.next_data(at.saturating_sub(starts.data)) {
            return starts.data.saturating_add(port);
        }
        at = starts.exec;
    }
    if at < starts.reply || at >= starts.retire {
        return at;
    }
    match queue.next_reply(at.saturating_sub(starts.reply)) {
        Some(port) => starts.reply.saturating_add(port),
        None => starts.retire,
    }
}
