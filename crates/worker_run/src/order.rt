//! The order of the entries of several logs: by their stamps, and then by worker.

ghost use Rattle.std.specs.Prelude.{◌≡◌, ◌≤◌, length};
ghost use Rattle.el_base.specs.Limits.{max_workers};
ghost use Rattle.worker_run.specs.Crews.{logs_of};
ghost use Rattle.worker_run.specs.private.Orders.{IsEarlierOf, IsFirstLeft, IsNextOf, rests_of};

use arrayvec::ArrayVec;
use el_base::MAX_WORKERS;
use firing_log::{Entries, Entry};
use net_types::Firing;
use net_worker::Worker;

/// The most logs that are merged.
const MAX_LOGS: usize = MAX_WORKERS as usize;

/// The first entry that is left of a log, with the number of its worker.
#[derive(Clone, Copy)]
pub(crate) struct Left {
    worker: usize,
    entry: Entry,
}

/// What is left of the logs of workers.
#[derive(Drop)]
pub(crate) struct Rests<'a> {
    logs: ArrayVec<Entries<'a>, { MAX_LOGS }>,
}

/// The one of two entries that comes first: the second where its stamp is lower.
fn earlier(first: Option<Left>, second: Left) -> Option<Left>
    ensures { IsEarlierOf result first second }
{
    match first {
        Some(first) if first.entry.stamp <= second.entry.stamp => Some(first),
        _ => Some(second),
    }
}

impl<'a> Rests<'a> {
    /// All entries of all logs.
    pub(crate) fn new(workers: &'a [Worker]) -> Rests<'a>
        requires few { length workers.now ≤ max_workers }
        ensures rests { rests_of result ≡ logs_of workers.now }
    {
        let mut logs = ArrayVec::new();
        for worker in workers {
            logs.push(worker.log());
        }
        Rests { logs }
    }

    /// The entry that comes first of all that are left.
    fn first(&self) -> Option<Left>
        ensures { IsFirstLeft (rests_of self.now) result }
    {
        let logs = self.logs.as_slice();
        let mut first = None;
        for worker in 0..logs.len() {
            if let Some(entry) = logs[worker].first() {
                first = earlier(first, Left { worker, entry });
            }
        }
        first
    }

    /// The firing of the entry that comes first, which is gone then; `None` where no entry is left.
    pub(crate) fn next_firing(&mut self) -> Option<Firing>
        ensures { IsNextOf result (rests_of self.old) (rests_of self.new) }
    {
        let first = self.first()?;
        let _ = self.logs[first.worker].next();
        Some(first.entry.firing)
    }
}
