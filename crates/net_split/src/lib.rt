//! Which worker owns which unit of a net.
#![tactic(auto)]

ghost use Rattle.std.specs.Prelude.{◌≡◌, ◌<◌, ◌≤◌, ◌^◌, All, IfOk, length};
ghost use Rattle.el_base.specs.Limits.{max_workers};
ghost use Rattle.net_split.specs.Owners.{owner, owners_of};

use net_check::Checked;
use net_types::{List, Memory};
use std::alloc::Global;

/// The owner of each unit, in the order of the units: unit u of n is owned by worker `u * workers / n`, rounded down. So
/// each worker owns units that stand side by side, and two workers own equally many, or one of them one more.
///
/// # Errors
///
/// [`Memory`] where memory is wanting.
pub fn split(alloc: Global, net: &Checked, workers: u32) -> Result<List<u32>, Memory>
    requires some { 0 < workers }
    requires most { workers ≤ max_workers }
    ensures owners { IfOk result (λ owners. owners ≡ owners_of (length net.now.units) workers) }
    ensures below { IfOk result (λ owners. All (λ o. o < workers) owners) }
{
    let count = net.net().units.len() as u64;
    let mut owners = List::new(alloc);
    for unit in 0..count {
        owners.push(owner_of(unit, count, workers))?;
    }
    Ok(owners)
}

/// The owner of a unit of so many.
fn owner_of(unit: u64, count: u64, workers: u32) -> u32
    requires within { unit < count }
    requires few { count < 2 ^ 32 }
    requires some { 0 < workers }
    requires most { workers ≤ max_workers }
    ensures owner { result ≡ owner count workers unit }
    ensures below { result < workers }
{
    (unit * workers as u64 / count) as u32
}
