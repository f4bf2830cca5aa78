//! The workers of a crew are swept until each has ended: in threads of their own while that pays, and in turn by the caller.
//!
//! A token that goes from thread to thread takes as long as many firings. Where the sweeps of a worker make few firings each,
//! all leave their threads, and the caller sweeps one after another, until it sees that their sweeps make many firings again.
//! There a round asks only those to whom something may have come, and all where these make no firing.

ghost use Rattle.std.specs.Prelude.{◌≡◌, ◌<◌, All, IfNone, IfSome, IsFalse, IsTrue};
ghost use Rattle.net_worker.specs.Views.{net_of};
ghost use Rattle.net_worker.specs.Workers.{IsMadeOf, IsWhole};
ghost use Rattle.worker_run.specs.Crews.{AllWhole, AreMade};
ghost use Rattle.worker_run.specs.declared.sweeping.Asked.TheVariants as who;
ghost use Rattle.worker_run.specs.private.Sweepings.{AreSwept, AreSweptBy, AreTurnsAsked, AreTurnsOf, IsShut, IsSweptFrom, IsTurnAsked, IsTurnOf, rooms_of};

use crate::awake::{Awake, Neighbours};
use crate::crew::Crew;
use crossbeam_utils::atomic::AtomicCell;
use el_io::Gate;
use net_check::Checked;
use net_worker::{Swept, Tables, Worker};
use std::thread::Threads;
use std::{hint, thread};

/// Idle sweeps in a row after which a worker leaves its thread.
const MOST_IDLE: u32 = 10_000;

/// Idle sweeps in a row after which a worker leaves its thread whose exit has fired.
const MOST_IDLE_PAST_EXIT: u32 = 1_000;

/// How often a sweep after the exit looks before it tries all units.
const LOOKS: u32 = 256;

/// How often a sweep looks while no other worker is at work.
const ALONE: u32 = 1;

/// An idle worker gives its turn away after each so many idle sweeps in a row.
const IDLE_TURN: u32 = 64;

/// How often it spins after each other idle sweep.
const IDLE_SPINS: u32 = 4;

/// How many firings of a sweep pay for the way of its tokens between threads.
const PAID: u32 = 64;

/// How many firings fewer than that the sweeps of a worker may have made before it leaves its thread.
const MOST_DEBT: u32 = 4096;

/// How many firings the caller lets workers make in turn before it looks whether threads pay.
const BOUT: u32 = 100_000;

/// How many firings a sweep in turn makes on the average where threads pay.
const PAYS: u32 = 256;

/// Whom a round asks.
#[derive(Clone, Copy)]
enum Asked {
    /// Those that are awake.
    Awake,
    /// All.
    All,
}

/// What sweeping workers in turn came to.
#[derive(Clone, Copy)]
struct Bout {
    /// How many firings were made; 2^32 - 1 stands for more.
    made: u32,
    /// How many sweeps made some; 2^32 - 1 stands for more.
    sweeps: u32,
}

impl Bout {
    ghost use Rattle.std.specs.Prelude.{◌≡◌, ◌↔◌};

    /// None was made.
    fn none() -> Bout
        ensures { result.made ≡ 0 }
    {
        Bout { made: 0, sweeps: 0 }
    }

    /// The same, and one sweep more that made so many.
    fn and_sweep(self, made: u32) -> Bout
        ensures { result.made ≡ 0 ↔ (self.made ≡ 0) × (made ≡ 0) }
    {
        if made == 0 {
            return self;
        }
        Bout {
            made: self.made.saturating_add(made),
            sweeps: self.sweeps.saturating_add(1),
        }
    }

    /// This one, and then another.
    fn and(self, other: Bout) -> Bout {
        Bout {
            made: self.made.saturating_add(other.made),
            sweeps: self.sweeps.saturating_add(other.sweeps),
        }
    }

    /// Whether it is long enough to tell whether threads pay.
    fn is_long(self) -> bool {
        self.made >= BOUT
    }

    /// Whether threads pay for workers that make so many firings in so many sweeps.
    fn pays(self) -> bool {
        self.sweeps > 0 && self.made / self.sweeps >= PAYS
    }
}

/// Sweeps all workers of a crew until each has ended.
pub(crate) fn sweep_crew<R: Threads + Sync, G: Gate + Sync>(
    rt: &R,
    net: &Checked,
    crew: &mut Crew,
    gate: &G,
)
    requires net { net_of crew.old.tables ≡ net.now }
    requires made { AreMade crew.old.tables crew.old.workers.items }
    requires whole { AllWhole crew.old.tables crew.old.workers.items }
    ensures swept { AreSweptBy crew.old.tables (G.is_open gate.now) crew.old.workers.items
        crew.new.workers.items }
    ensures tables { crew.new.tables ≡ crew.old.tables }
{
    let neighbours = Neighbours::new(net, &crew.tables);
    let workers = crew.workers.as_mut_slice();
    sweep_all(rt, &crew.tables, &neighbours, workers, gate);
}

/// Sweeps all workers, in threads or in turn, until each has ended.
fn sweep_all<R: Threads + Sync, G: Gate + Sync>(
    rt: &R,
    tables: &Tables,
    neighbours: &Neighbours,
    workers: &mut [Worker],
    gate: &G,
)
    requires made { All (IsMadeOf tables.now) workers.old }
    requires whole { All (IsWhole tables.now) workers.old }
    ensures { AreSweptBy tables.now (G.is_open gate.now) workers.old workers.new }
{
    'phases: loop {
        sweep_in_threads(rt, tables, workers, gate);
        if sweep_in_turn(tables, neighbours, workers, gate) {
            return;
        }
    }
}

/// Sweeps all workers in turn until no firing is made, or threads pay; tells whether no firing is made.
fn sweep_in_turn<G: Gate>(
    tables: &Tables,
    neighbours: &Neighbours,
    workers: &mut [Worker],
    gate: &G,
) -> bool
    requires made { All (IsMadeOf tables.now) workers.old }
    requires whole { All (IsWhole tables.now) workers.old }
    ensures swept { AreSwept tables.now workers.old workers.new }
    ensures over { IsTrue result
        → AreSweptBy tables.now (G.is_open gate.now) workers.old workers.new }
    ensures fewer { IsFalse result → rooms_of workers.new < rooms_of workers.old }
{
    let mut awake = Awake::all();
    let mut bout = Bout::none();
    'rounds: loop {
        let Some(round) = sweep_round(tables, neighbours, workers, gate, &mut awake) else {
            return true;
        };
        if round.made == 0 {
            return true;
        }
        bout = bout.and(round);
        if bout.is_long() {
            if bout.pays() {
                return false;
            }
            bout = Bout::none();
        }
    }
}

/// Sweeps those that are awake, and all where these make no firing; `None` where the gate ends one.
fn sweep_round<G: Gate>(
    tables: &Tables,
    neighbours: &Neighbours,
    workers: &mut [Worker],
    gate: &G,
    awake: &mut Awake,
) -> Option<Bout>
    requires made { All (IsMadeOf tables.now) workers.old }
    requires whole { All (IsWhole tables.now) workers.old }
    ensures swept { AreSwept tables.now workers.old workers.new }
    ensures shut { IfNone result (IsShut (G.is_open gate.now)) }
    ensures turns { IfSome result
        (λ b. AreTurnsOf tables.now b.made workers.old workers.new) }
{
    let some = sweep_each(tables, neighbours, workers, gate, awake, Asked::Awake)?;
    if some.made > 0 {
        return Some(some);
    }
    sweep_each(tables, neighbours, workers, gate, awake, Asked::All)
}

/// Sweeps each worker once that is asked; `None` where the gate ends one.
fn sweep_each<G: Gate>(
    tables: &Tables,
    neighbours: &Neighbours,
    workers: &mut [Worker],
    gate: &G,
    awake: &mut Awake,
    asked: Asked,
) -> Option<Bout>
    requires made { All (IsMadeOf tables.now) workers.old }
    requires whole { All (IsWhole tables.now) workers.old }
    ensures swept { AreSwept tables.now workers.old workers.new }
    ensures shut { IfNone result (IsShut (G.is_open gate.now)) }
    ensures turns { IfSome result
        (λ b. AreTurnsAsked (asked ≡ who.All) tables.now b.made workers.old workers.new) }
{
    let mut round = Bout::none();
    for worker in workers.iter_mut() {
        let made = sweep_asked(tables, neighbours, worker, gate, awake, asked)?;
        round = round.and_sweep(made);
    }
    Some(round)
}

/// Sweeps a worker once that is asked, notes whether that made firings, and answers how many.
fn sweep_asked<G: Gate>(
    tables: &Tables,
    neighbours: &Neighbours,
    worker: &mut Worker,
    gate: &G,
    awake: &mut Awake,
    asked: Asked,
) -> Option<u32>
    requires made { IsMadeOf tables.now worker.old }
    requires whole { IsWhole tables.now worker.old }
    ensures swept { IsSweptFrom tables.now worker.old worker.new }
    ensures shut { IfNone result (IsShut (G.is_open gate.now)) }
    ensures turn { IfSome result
        (λ n. IsTurnAsked (asked ≡ who.All) tables.now n worker.old worker.new) }
{
    let number = worker.number();
    if matches!(asked, Asked::Awake) && !awake.has(number) {
        return Some(0);
    }
    let made = sweep_once(worker, tables, gate)?;
    awake.note(neighbours, number, made);
    Some(made)
}

/// Sweeps a worker once, after its exit too, and answers how many firings it made; `None` where the gate ends it.
fn sweep_once<G: Gate>(worker: &mut Worker, tables: &Tables, gate: &G) -> Option<u32>
    requires made { IsMadeOf tables.now worker.old }
    requires whole { IsWhole tables.now worker.old }
    ensures swept { IsSweptFrom tables.now worker.old worker.new }
    ensures shut { IfNone result (IsShut (G.is_open gate.now)) }
    ensures turn { IfSome result (λ n. IsTurnOf tables.now n worker.old worker.new) }
{
    if !worker.has_ended(tables) && !gate.turn(worker.number()) {
        return None;
    }
    Some(worker.go_on(tables, ALONE))
}

/// Sweeps all workers, each in a thread of its own, until each has ended or leaves its thread.
fn sweep_in_threads<R: Threads + Sync, G: Gate + Sync>(
    rt: &R,
    tables: &Tables,
    workers: &mut [Worker],
    gate: &G,
)
    requires made { All (IsMadeOf tables.now) workers.old }
    requires whole { All (IsWhole tables.now) workers.old }
    ensures { AreSwept tables.now workers.old workers.new }
{
    if workers.is_empty() {
        return;
    }
    let leave = AtomicCell::new(false);
    let threads = workers.len();
    thread::for_each_mut(
        rt,
        workers,
        threads,
        &|_, worker| sweep_out(worker, tables, gate, &leave),
    );
}

/// Sweeps one worker in its thread.
fn sweep_out<G: Gate>(worker: &mut Worker, tables: &Tables, gate: &G, leave: &AtomicCell<bool>)
    requires made { IsMadeOf tables.now worker.old }
    requires whole { IsWhole tables.now worker.old }
    ensures { IsSweptFrom tables.now worker.old worker.new }
{
    sweep_on(worker, tables, gate, leave);
}

/// Sweeps one worker until the gate ends it, or its log is full; or until it leaves its thread: it was idle when another had
/// told to leave, or idle so often in a row, or its sweeps do not pay for threads. It tells the others to leave where it was
/// idle so often, after its exit less often, or does not pay, or its log is full.
fn sweep_on<G: Gate>(worker: &mut Worker, tables: &Tables, gate: &G, leave: &AtomicCell<bool>)
    requires made { IsMadeOf tables.now worker.old }
    requires whole { IsWhole tables.now worker.old }
    ensures { IsSweptFrom tables.now worker.old worker.new }
{
    let mut idle = 0u32;
    let mut debt = 0u32;
    while gate.turn(worker.number()) {
        match worker.sweep(tables) {
            Swept::Fired(made) => {
                idle = 0;
                debt = (debt + PAID).saturating_sub(made);
                if debt > MOST_DEBT {
                    leave.store(true);
                    return;
                }
            }
            Swept::Idle => {
                idle += 1;
                if idle >= MOST_IDLE {
                    leave.store(true);
                    return;
                }
                if leave.load() {
                    return;
                }
                pause(idle);
            }
            Swept::Exited => {
                if worker.go_on(tables, LOOKS) > 0 {
                    idle = 0;
                } else {
                    idle += 1;
                    if idle >= MOST_IDLE_PAST_EXIT {
                        leave.store(true);
                        return;
                    }
                    pause(idle);
                }
            }
            Swept::Full => {
                leave.store(true);
                return;
            }
        }
    }
}

/// Waits a little after so many idle sweeps in a row.
fn pause(idle: u32) {
    if idle % IDLE_TURN == 0 {
        thread::yield_now();
        return;
    }
    for _ in 0..IDLE_SPINS {
        hint::spin_loop();
    }
}
