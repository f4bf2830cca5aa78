//! Links and workers after all threads have ended.

ghost use Rattle.std.specs.Prelude.{◌≡◌, ◌<◌, get_or, length, IsSome};
ghost use Rattle.net_check.specs.Checks.{IsChecked};
ghost use Rattle.net_worker.specs.Views.{net_of, put_end, take_end};
ghost use Rattle.net_worker.specs.Workers.{AreLinkedAt, IsSoundAt};
ghost use Rattle.net_worker.specs.declared.worker.Worker.{Worker};
ghost use Rattle.worker_run.specs.Crews.{AllWhole, AreLinked, AreMade};
ghost use Rattle.worker_run.specs.private.Settlings.{AreClosed, AreKept, AreSettled, IsSettled};

use net_check::Checked;
use net_worker::{Tables, Worker};

/// Settles the links of all channels between workers.
pub(crate) fn settle(net: &Checked, tables: &Tables, workers: &mut [Worker])
    requires net { net_of tables.now ≡ net.now }
    requires made { ∥ AreMade tables.now workers.old ∥₁ }
    requires linked { AreLinked tables.now workers.old }
    requires whole { AllWhole tables.now workers.old }
    ensures kept { AreKept workers.old workers.new }
    ensures sound { AreSettled tables.now workers.new (length net.now.chans) }
    ensures checked { IsChecked net.now }
{
    for chan in 0..net.net().chans.len() {
        settle_chan(tables, workers, chan as u32);
    }
}

/// Settles the link of a channel, where it goes from one worker to another.
fn settle_chan(tables: &Tables, workers: &mut [Worker], chan: u32)
    requires checked { IsChecked (net_of tables.now) }
    requires made { ∥ AreMade tables.now workers.old ∥₁ }
    requires linked { AreLinked tables.now workers.old }
    requires whole { AllWhole tables.now workers.old }
    requires within { chan < length (net_of tables.now).chans }
    ensures kept { AreKept workers.old workers.new }
    ensures sound { IsSettled tables.now workers.new chan }
{
    let from = tables.putter(chan) as usize;
    let to = tables.taker(chan) as usize;
    if from < to {
        settle_up(workers, from, to, chan);
    } else if to < from {
        settle_down(workers, from, to, chan);
    }
}

/// Settles the link of a channel to a worker of a higher number.
fn settle_up(workers: &mut [Worker], from: usize, to: usize, chan: u32)
    requires apart { from < to }
    requires within { to < length workers.old }
    requires put { (d : Worker) → IsSome (put_end (get_or workers.old from d) chan) }
    requires take { (d : Worker) → IsSome (take_end (get_or workers.old to d) chan) }
    requires link { (d e : Worker)
        → AreLinkedAt chan (get_or workers.old from d) (get_or workers.old to e) }
    ensures kept { AreKept workers.old workers.new }
    ensures sound { (d e : Worker)
        → IsSoundAt chan (get_or workers.new from d) (get_or workers.new to e) }
{
    let (low, high) = workers.split_at_mut(to);
    low[from].settle(&mut high[0], chan);
}

/// Settles the link of a channel to a worker of a lower number.
fn settle_down(workers: &mut [Worker], from: usize, to: usize, chan: u32)
    requires apart { to < from }
    requires within { from < length workers.old }
    requires put { (d : Worker) → IsSome (put_end (get_or workers.old from d) chan) }
    requires take { (d : Worker) → IsSome (take_end (get_or workers.old to d) chan) }
    requires link { (d e : Worker)
        → AreLinkedAt chan (get_or workers.old from d) (get_or workers.old to e) }
    ensures kept { AreKept workers.old workers.new }
    ensures sound { (d e : Worker)
        → IsSoundAt chan (get_or workers.new from d) (get_or workers.new to e) }
{
    let (low, high) = workers.split_at_mut(from);
    high[0].settle(&mut low[to], chan);
}

/// Closes all workers.
pub(crate) fn close(workers: &mut [Worker])
    ensures { AreClosed workers.old workers.new }
{
    for worker in workers.iter_mut() {
        worker.close();
    }
}
