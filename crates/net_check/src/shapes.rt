ghost use Rattle.std.specs.Prelude.{◌≡◌, ◌↔◌, ℕ, ◌<◌, ◌≤◌, ◌++◌, IfOk, OnOk, IsTrue, MatchOption, length};
ghost use Rattle.std.specs.List.{concat};
ghost use Rattle.net_types.specs.Numbered.{AreNumbered};
ghost use Rattle.net_types.specs.Queues.{IsGroup, IsQueueShape};
ghost use Rattle.net_check.specs.Shapes.{IsCount, HasShape, KeepsC7, CulpritC7};
ghost use Rattle.net_check.specs.private.Groups.{AreGroups};

use crate::marks::is_each_once;
use crate::refusal::{At, unit_at};
use el_base::{MAX_DEPTH, MAX_WAYS};
use net_types::{List, Memory, Net, Port, Unit};
use std::alloc::Global;

/// Rule C7, the shapes of units: `None` where it is kept, else the culprit.
///
/// It costs time in proportion to the units and the lists of queues.
///
/// # Errors
///
/// [`Memory`] where memory is wanting.
pub fn check_shapes(alloc: Global, net: &Net) -> Result<Option<At>, Memory>
    requires { AreNumbered net.now }
    ensures { IfOk result (λ o. MatchOption o (KeepsC7 net.now) (CulpritC7 net.now)) }
{
    for (u, unit) in net.units.as_slice().iter().enumerate() {
        if !has_shape(alloc, unit)? {
            return Ok(Some(unit_at(u)));
        }
    }
    Ok(None)
}

fn has_shape(alloc: Global, unit: &Unit) -> Result<bool, Memory>
    ensures { IfOk result (λ b. IsTrue b ↔ HasShape unit.now) }
{
    match unit {
        Unit::Fork { outs, .. } => Ok(is_count(*outs)),
        Unit::Mux { ins, .. } => Ok(is_count(*ins)),
        Unit::Cmerge { ins } => Ok(is_count(*ins)),
        Unit::Lsq {
            depth,
            ports,
            groups,
            ..
        } => is_queue_shape(alloc, *depth, ports, groups),
        Unit::Entry => Ok(true),
        Unit::Param(_) => Ok(true),
        Unit::Const { .. } => Ok(true),
        Unit::Op1(_) => Ok(true),
        Unit::Op2(_) => Ok(true),
        Unit::Select { .. } => Ok(true),
        Unit::Branch { .. } => Ok(true),
        Unit::Sink { .. } => Ok(true),
        Unit::Read(_) => Ok(true),
        Unit::Exit => Ok(true),
    }
}

fn is_count(count: u32) -> bool
    ensures { IsTrue result ↔ IsCount count }
{
    0 < count && count <= MAX_WAYS
}

fn is_queue_shape(
    alloc: Global,
    depth: u32,
    ports: &List<Port>,
    groups: &List<List<u32>>,
) -> Result<bool, Memory>
    ensures { IfOk result (λ b. IsTrue b ↔ IsQueueShape depth ports.now groups.now) }
{
    let ports = ports.as_slice();
    let groups = groups.as_slice();
    if ports.is_empty() || !are_groups(depth, groups) {
        return Ok(false);
    }
    let numbers = joined(alloc, groups)?;
    is_each_once(alloc, ports.len(), numbers.as_slice())
}

/// Whether there are groups, each has a number and no more of them than the queue is deep, and the depth is allowed.
fn are_groups(depth: u32, groups: &[List<u32>]) -> bool
    ensures { IsTrue result ↔ AreGroups depth groups.now }
{
    !groups.is_empty() && depth <= MAX_DEPTH && groups.iter().all(|group| is_group(depth, group))
}

fn is_group(depth: u32, group: &List<u32>) -> bool
    ensures { IsTrue result ↔ (0 < length group.now) × (length group.now ≤ depth) }
{
    let len = group.as_slice().len();
    0 < len && len <= depth as usize
}

/// The numbers of all groups, in order.
fn joined(alloc: Global, groups: &[List<u32>]) -> Result<List<u32>, Memory>
    ensures { IfOk result (λ numbers. numbers ≡ concat groups.now) }
{
    let mut numbers = List::new(alloc);
    for group in groups {
        add_all(&mut numbers, group.as_slice())?;
    }
    Ok(numbers)
}

fn add_all(numbers: &mut List<u32>, more: &[u32]) -> Result<(), Memory>
    ensures { OnOk result (numbers.new ≡ numbers.old ++ more.now) }
{
    for number in more {
        numbers.push(*number)?;
    }
    Ok(())
}
