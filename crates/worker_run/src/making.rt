//! A crew for a net.

ghost use Rattle.std.specs.Prelude.{◌≡◌, ◌+◌, ◌≤◌, ◌<◌, All, IfOk, [], length};
ghost use Rattle.el_base.specs.Limits.{max_workers};
ghost use Rattle.net_types.specs.Inputs.{InputsFit};
ghost use Rattle.net_check.specs.Checks.{IsChecked};
ghost use Rattle.net_worker.specs.Shares.{max_share};
ghost use Rattle.net_worker.specs.Views.{log_of, net_of};
ghost use Rattle.worker_run.specs.Crews.{AllWhole, AreACrew, share_of};
ghost use Rattle.worker_run.specs.Reports.{IsCrewOf};
ghost use Rattle.worker_run.specs.private.Makings.{AreJoinedTo, AreTablesFor};

use crate::crew::Crew;
use elastic_link::link;
use net_check::Checked;
use net_split::split;
use net_types::{Inputs, Memory};
use net_worker::{Tables, Worker};
use std::alloc::Global;

/// A crew of 1 to 64 workers on inputs that fit the net: the owners in even shares, the limit of firings shared out, a link
/// for each channel from one worker to another, and the logs empty. It takes all memory that the workers' sweeps take.
///
/// # Errors
///
/// [`Memory`] where memory is wanting.
pub fn workers<'a>(
    alloc: Global,
    net: &'a Checked,
    inputs: &Inputs,
    count: u32,
    limit: u64,
) -> Result<Crew<'a>, Memory>
    requires fit { InputsFit net.now inputs.now }
    requires some { 0 < count }
    requires most { count ≤ max_workers }
    requires one { 0 < limit }
    requires limit { limit ≤ max_share }
    ensures crew { IfOk result
        (λ c. IsCrewOf net.now inputs.now count limit c.tables c.workers.items) }
    ensures made { IfOk result (λ c. AreACrew c.tables c.workers.items) }
    ensures whole { IfOk result (λ c. AllWhole c.tables c.workers.items) }
    ensures logs { IfOk result (λ c. All (λ w. log_of w ≡ []) c.workers.items) }
{
    let owners = split(alloc, net, count)?;
    let tables = Tables::new(alloc, net, inputs, owners.as_slice())?;
    let mut workers = new_workers(alloc, &tables, count, limit)?;
    join_all(alloc, net, &tables, count, limit, workers.as_mut_slice())?;
    Ok(Crew { tables, workers })
}

/// How many entries a worker's log may have: an even share of the limit, and one of what is over.
fn share(limit: u64, count: u32, number: u32) -> u64
    requires some { 0 < count }
    requires limit { limit ≤ max_share }
    ensures share { result ≡ share_of limit count number }
    ensures most { number < count → result ≤ limit }
{
    let count = count as u64;
    let even = limit / count;
    if (number as u64) < limit % count {
        even + 1
    } else {
        even
    }
}

/// New workers without ends.
fn new_workers(
    alloc: Global,
    tables: &Tables,
    count: u32,
    limit: u64,
) -> Result<Vec<Worker>, Memory>
    requires tables { AreTablesFor tables.now count }
    requires some { 0 < count }
    requires limit { limit ≤ max_share }
    ensures { IfOk result (λ ws. AreJoinedTo tables.now count limit 0 ws.items) }
{
    let mut workers = Vec::new(alloc);
    for number in 0..count {
        let share = share(limit, count, number);
        let worker = Worker::new(alloc, tables, number, share)?;
        workers.push(worker)?;
    }
    Ok(workers)
}

/// Gives new workers the ends of all links.
fn join_all(
    alloc: Global,
    net: &Checked,
    tables: &Tables,
    count: u32,
    limit: u64,
    workers: &mut [Worker],
) -> Result<(), Memory>
    requires net { net_of tables.now ≡ net.now }
    requires tables { AreTablesFor tables.now count }
    requires joined { AreJoinedTo tables.now count limit 0 workers.old }
    ensures { IfOk result
        (λ _. AreJoinedTo tables.now count limit (length net.now.chans) workers.new) }
{
    for chan in 0..net.net().chans.len() {
        join_chan(alloc, net, tables, count, limit, workers, chan as u32)?;
    }
    Ok(())
}

/// Gives two workers the ends of a link for a channel from the one to the other.
fn join_chan(
    alloc: Global,
    net: &Checked,
    tables: &Tables,
    count: u32,
    limit: u64,
    workers: &mut [Worker],
    chan: u32,
) -> Result<(), Memory>
    requires net { net_of tables.now ≡ net.now }
    requires checked { IsChecked (net_of tables.now) }
    requires tables { AreTablesFor tables.now count }
    requires within { chan < length net.now.chans }
    requires joined { AreJoinedTo tables.now count limit chan workers.old }
    ensures { IfOk result (λ _. AreJoinedTo tables.now count limit (chan + 1) workers.new) }
{
    let from = tables.putter(chan);
    let to = tables.taker(chan);
    if from != to {
        let slots = net.net().chans.as_slice()[chan as usize].slots;
        let (put, take) = link(alloc, slots)?;
        workers[from as usize].give_put(chan, put);
        workers[to as usize].give_take(chan, take);
    }
    Ok(())
}
