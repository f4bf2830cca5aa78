//! The units with a channel from or to another worker.
ghost use Rattle.std.specs.Prelude.{◌≡◌, ◌<◌, ℕ, length, get_or, IfOk, true};
ghost use Rattle.net_worker.specs.Crossing.{AreMarked, IsMarked};

use net_check::Checked;
use net_types::{Chan, Memory};
use std::alloc::Global;

/// Marks the units of channels between units of two owners.
pub(crate) fn crossing_units(
    alloc: Global,
    net: &Checked,
    owners: &[u32],
) -> Result<Vec<bool>, Memory>
    requires { length owners.now ≡ length net.now.units }
    ensures { IfOk result (λ v. AreMarked net.now.chans owners.now v.items) }
{
    let mut marks = vec![in alloc; false; owners.len()]?;
    for chan in net.net().chans.as_slice() {
        mark_ends(&mut marks, owners, chan);
    }
    Ok(marks)
}

/// Marks both units of a channel where they have two owners.
fn mark_ends(marks: &mut Vec<bool>, owners: &[u32], chan: &Chan)
    requires from { chan.now.from.unit < length owners.now }
    requires to { chan.now.to.unit < length owners.now }
    requires long { length marks.old.items ≡ length owners.now }
    ensures long { length marks.new.items ≡ length owners.now }
    ensures marked { IsMarked owners.now marks.new.items chan.now }
    ensures kept { (u : ℕ) → get_or marks.old.items u true ≡ true
        → get_or marks.new.items u true ≡ true }
{
    let from = chan.from.unit as usize;
    let to = chan.to.unit as usize;
    if owners[from] != owners[to] {
        marks[from] = true;
        marks[to] = true;
    }
}
