//! Workers that were gathered hand over what they hold to one state.

ghost use Rattle.std.specs.Prelude.{◌≡◌, ◌≢◌, ◌<◌, ◌≤◌, ◌^◌, ℕ, [], get_or, length, IsSome};
ghost use Rattle.el_base.specs.Limits.{max_workers};
ghost use Rattle.net_types.specs.Nets.{chan_at};
ghost use Rattle.net_core.specs.Fire.{tokens_at};
ghost use Rattle.net_core.specs.Runs.{opening};
ghost use Rattle.net_core.specs.States.{IsOf, state_of, strays_at};
ghost use Rattle.net_worker.specs.Handed.{FewLeft, IsLeft, SameButChan};
ghost use Rattle.net_worker.specs.Merged.{entries_of};
ghost use Rattle.net_worker.specs.Views.{inputs_of, net_of, owner_in, put_end, take_end};
ghost use Rattle.net_worker.specs.Workers.{AreLinkedAt};
ghost use Rattle.net_worker.specs.declared.worker.Worker.{Worker};
ghost use Rattle.worker_run.specs.Crews.{AreLinked, logs_of};
ghost use Rattle.worker_run.specs.private.Handings.{AllHold, AllHoldOwn, AreChansHanded, AreHandedOver, AreStraysOf, AreUnitsHanded, CanDrain, IsChanHanded, IsDrained, StraysAreFew};

use crate::settling::close;
use net_check::Checked;
use net_core::State;
use net_worker::{Tables, Worker};

/// Turns the opening state into what the workers hold together, and closes them.
pub(crate) fn hand_over(net: &Checked, tables: &Tables, workers: &mut [Worker], into: &mut State)
    requires net { net_of tables.now ≡ net.now }
    requires few { length workers.old ≤ max_workers }
    requires each { StraysAreFew workers.old }
    requires below { (u : ℕ) → u < length net.now.units
        → owner_in tables.now u < length workers.old }
    requires holds { AllHold net.now workers.old }
    requires own { AllHoldOwn tables.now workers.old }
    requires linked { AreLinked tables.now workers.old }
    requires can { (c : ℕ) → c < length net.now.chans
        → CanDrain net.now (owner_in tables.now) workers.old c }
    requires of { IsOf net.now into.old }
    requires opening { state_of into.old ≡ opening net.now (inputs_of tables.now) }
    ensures of { IsOf net.now into.new }
    ensures handed { AreHandedOver tables.now workers.old workers.new (state_of into.new) }
{
    add_strays(net, workers, into);
    hand_units(net, tables, workers, into);
    hand_chans(net, tables, workers, into);
    close(workers);
}

/// Adds the counts of strays of all workers to those of a state that has none.
fn add_strays(net: &Checked, workers: &[Worker], into: &mut State)
    requires few { length workers.now ≤ max_workers }
    requires each { StraysAreFew workers.now }
    requires of { IsOf net.now into.old }
    requires none { (a : ℕ) → strays_at (state_of into.old) a ≡ 0 }
    ensures of { IsOf net.now into.new }
    ensures strays { AreStraysOf workers.now (state_of into.old) (state_of into.new) }
{
    for worker in workers {
        worker.add_strays(net, into);
    }
}

/// Hands over what each unit keeps, from its owner.
fn hand_units(net: &Checked, tables: &Tables, workers: &mut [Worker], into: &mut State)
    requires net { net_of tables.now ≡ net.now }
    requires below { (u : ℕ) → u < length net.now.units
        → owner_in tables.now u < length workers.old }
    requires holds { AllHold net.now workers.old }
    requires own { AllHoldOwn tables.now workers.old }
    requires of { IsOf net.now into.old }
    ensures holds { AllHold net.now workers.new }
    ensures own { AllHoldOwn tables.now workers.new }
    ensures of { IsOf net.now into.new }
    ensures handed { AreUnitsHanded net.now (owner_in tables.now) workers.old workers.new
        (state_of into.old) (state_of into.new) (length net.now.units) }
{
    for unit in 0..net.net().units.len() {
        let owner = tables.owner(unit as u32) as usize;
        workers[owner].hand_unit(net, unit as u32, into);
    }
}

/// Hands over the tokens of all channels, from the workers at their ends.
fn hand_chans(net: &Checked, tables: &Tables, workers: &mut [Worker], into: &mut State)
    requires net { net_of tables.now ≡ net.now }
    requires holds { AllHold net.now workers.old }
    requires own { AllHoldOwn tables.now workers.old }
    requires linked { AreLinked tables.now workers.old }
    requires can { (c : ℕ) → c < length net.now.chans
        → CanDrain net.now (owner_in tables.now) workers.old c }
    requires of { IsOf net.now into.old }
    requires none { (c : ℕ) → tokens_at (state_of into.old) c ≡ [] }
    ensures linked { AreLinked tables.now workers.new }
    ensures of { IsOf net.now into.new }
    ensures handed { AreChansHanded net.now (owner_in tables.now) workers.old workers.new
        (state_of into.old) (state_of into.new) (length net.now.chans) }
{
    for chan in 0..net.net().chans.len() {
        hand_chan(net, tables, workers, chan as u32, into);
    }
}

/// Hands over the tokens of a channel: those that its worker holds, or those that are left between two workers.
fn hand_chan(net: &Checked, tables: &Tables, workers: &mut [Worker], chan: u32, into: &mut State)
    requires net { net_of tables.now ≡ net.now }
    requires within { chan < length net.now.chans }
    requires holds { AllHold net.now workers.old }
    requires own { AllHoldOwn tables.now workers.old }
    requires linked { AreLinked tables.now workers.old }
    requires can { CanDrain net.now (owner_in tables.now) workers.old chan }
    requires of { IsOf net.now into.old }
    requires none { tokens_at (state_of into.old) chan ≡ [] }
    ensures holds { AllHold net.now workers.new }
    ensures own { AllHoldOwn tables.now workers.new }
    ensures linked { AreLinked tables.now workers.new }
    ensures of { IsOf net.now into.new }
    ensures handed { IsChanHanded net.now (owner_in tables.now) chan workers.old workers.new
        (state_of into.old) (state_of into.new) }
{
    let from = tables.putter(chan) as usize;
    let to = tables.taker(chan) as usize;
    if from < to {
        drain_up(net, workers, from, to, chan, into);
    } else if to < from {
        drain_down(net, workers, from, to, chan, into);
    } else {
        workers[to].hand_chan(net, chan, into);
    }
}

/// Hands over the tokens that are left of a channel to a worker of a higher number.
fn drain_up(
    net: &Checked,
    workers: &mut [Worker],
    from: usize,
    to: usize,
    chan: u32,
    into: &mut State,
)
    requires apart { from < to }
    requires within { to < length workers.old }
    requires put { (d : Worker) → IsSome (put_end (get_or workers.old from d) chan) }
    requires take { (d : Worker) → IsSome (take_end (get_or workers.old to d) chan) }
    requires link { (d e : Worker)
        → AreLinkedAt chan (get_or workers.old from d) (get_or workers.old to e) }
    requires few { (d e : Worker) → FewLeft (chan_at net.now chan).slots chan
        (get_or workers.old from d) (get_or workers.old to e) }
    requires of { IsOf net.now into.old }
    requires none { tokens_at (state_of into.old) chan ≡ [] }
    ensures of { IsOf net.now into.new }
    ensures drained { IsDrained from to chan workers.old workers.new
        (state_of into.old) (state_of into.new) }
{
    let (low, high) = workers.split_at_mut(to);
    low[from].drain(&mut high[0], net, chan, into);
}

/// Hands over the tokens that are left of a channel to a worker of a lower number.
fn drain_down(
    net: &Checked,
    workers: &mut [Worker],
    from: usize,
    to: usize,
    chan: u32,
    into: &mut State,
)
    requires apart { to < from }
    requires within { from < length workers.old }
    requires put { (d : Worker) → IsSome (put_end (get_or workers.old from d) chan) }
    requires take { (d : Worker) → IsSome (take_end (get_or workers.old to d) chan) }
    requires link { (d e : Worker)
        → AreLinkedAt chan (get_or workers.old from d) (get_or workers.old to e) }
    requires few { (d e : Worker) → FewLeft (chan_at net.now chan).slots chan
        (get_or workers.old from d) (get_or workers.old to e) }
    requires of { IsOf net.now into.old }
    requires none { tokens_at (state_of into.old) chan ≡ [] }
    ensures of { IsOf net.now into.new }
    ensures drained { IsDrained from to chan workers.old workers.new
        (state_of into.old) (state_of into.new) }
{
    let (low, high) = workers.split_at_mut(from);
    high[0].drain(&mut low[to], net, chan, into);
}

/// How many entries all logs have.
pub(crate) fn count_entries(workers: &[Worker]) -> u64
    requires { entries_of (logs_of workers.now) < 2 ^ 64 }
    ensures { result ≡ entries_of (logs_of workers.now) }
{
    let mut count = 0;
    for worker in workers {
        count += worker.log().len() as u64;
    }
    count
}
