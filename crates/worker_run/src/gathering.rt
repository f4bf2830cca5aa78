//! A crew's logs become one run.

ghost use Rattle.std.specs.Prelude.{◌≡◌, ◌+◌, ◌≤◌, ◌^◌, All, IfOk, [], cond, length, true};
ghost use Rattle.net_core.specs.Runs.{Run, opening};
ghost use Rattle.net_core.specs.States.{CountsWithin, IsOf, state_of};
ghost use Rattle.net_worker.specs.Merged.{entries_of};
ghost use Rattle.net_worker.specs.Views.{inputs_of, is_closed, net_of};
ghost use Rattle.worker_run.specs.Crews.{AllWhole, AreSameWork, SameLogs, logs_of, merged_of};
ghost use Rattle.worker_run.specs.Gathers.{RestsIn};

use crate::crew::Crew;
use crate::handing::{count_entries, hand_over};
use crate::order::Rests;
use crate::settling::settle;
use el_base::Log;
use net_check::Checked;
use net_core::State;
use net_types::{Firing, List, Memory};
use std::alloc::Global;

/// Turns the opening state into the one after the merged log, and gives how many firings the log has. It settles all links,
/// lets the workers hand over what they hold, and closes them. It makes no firing, and takes no memory.
pub fn gather(net: &Checked, crew: &mut Crew, into: &mut State) -> u64
    requires net { net_of crew.old.tables ≡ net.now }
    requires whole { AllWhole crew.old.tables crew.old.workers.items }
    requires of { IsOf net.now into.old }
    requires opening { state_of into.old ≡ opening net.now (inputs_of crew.old.tables) }
    ensures of { IsOf net.now into.new }
    ensures run { Run net.now (inputs_of crew.old.tables) (merged_of crew.new.workers.items)
        (state_of into.new) }
    ensures count { result ≡ length (merged_of crew.new.workers.items) }
    ensures all { result ≡ entries_of (logs_of crew.new.workers.items) }
    ensures same { AreSameWork crew.old.workers.items crew.new.workers.items }
    ensures logs { SameLogs crew.old.workers.items crew.new.workers.items }
    ensures tables { crew.new.tables ≡ crew.old.tables }
    ensures rests { RestsIn crew.old.tables crew.old.workers.items (state_of into.new) }
    ensures closed { All (λ w. is_closed w ≡ true) crew.new.workers.items }
    ensures counts { CountsWithin (2 ^ 60) (state_of into.new) }
{
    let workers = crew.workers.as_mut_slice();
    settle(net, &crew.tables, workers);
    hand_over(net, &crew.tables, workers, into);
    count_entries(workers)
}

/// The firings of all logs, in the order of their stamps, and then of their workers.
///
/// # Errors
///
/// [`Memory`] where memory is wanting.
pub fn merged_log(alloc: Global, crew: &Crew) -> Result<List<Firing>, Memory>
    ensures { IfOk result (λ l. l ≡ merged_of crew.now.workers.items) }
{
    let mut rests = Rests::new(crew.workers.as_slice());
    let mut log = List::new(alloc);
    'entries: while let Some(firing) = rests.next_firing() {
        log.push(firing)?;
    }
    Ok(log)
}

/// Adds the firings of all logs to an empty log, in the order of their stamps, and then of their workers, where `keep` is
/// true. Takes no memory.
pub(crate) fn add_merged(crew: &Crew, keep: bool, log: &mut Log<Firing>)
    requires room { keep ≡ true → entries_of (logs_of crew.now.workers.items) ≤ log.old.room }
    requires none { log.old.items ≡ [] }
    ensures items { log.new.items ≡ cond keep (merged_of crew.now.workers.items) [] }
    ensures room { keep ≡ true
        → log.new.room + entries_of (logs_of crew.now.workers.items) ≡ log.old.room }
{
    if !keep {
        return;
    }
    let mut rests = Rests::new(crew.workers.as_slice());
    'entries: while let Some(firing) = rests.next_firing() {
        log.add(firing);
    }
}
