//! Whole runs by cycles.

ghost use Rattle.std.specs.Prelude.{◌≡◌, ◌⊎◌, ◌+◌, ◌-◌, ◌^◌, ◌≤◌, ◌<◌, true, false, length, cond, IfOk, OnOk, MatchResult};
ghost use Rattle.el_base.specs.Limits.{max_delay, max_firings};
ghost use Rattle.net_types.specs.Inputs.{InputsFit};
ghost use Rattle.cycle_engine.specs.Timings.{IsTimed, HasFewCycles, IsTimingFault};
ghost use Rattle.cycle_engine.specs.private.Goings.{Past, IsReady, HasDone, IsBroken, IsNextCycle, IsQuiet, HasNoneComing};
ghost use Rattle.cycle_engine.specs.private.Marking.{AreCells};
ghost use Rattle.cycle_engine.specs.private.Places.{IsCycled};

use crate::broken::Broken;
use crate::engine::{Bounds, Engine};
use el_base::{Log, MAX_DELAY};
use net_check::Checked;
use net_core::State;
use net_replay::RunFault;
use net_types::{Firing, Inputs};
use std::alloc::Global;

/// A run by cycles that came to rest.
#[derive(Drop)]
pub struct Timed {
    pub state: State,
    /// How many firings were made.
    pub firings: u64,
    /// One more than the number of the last cycle that has a firing, from 0; 0 where none has.
    pub cycles: u64,
    /// The firings, one cycle after another, where they were to be kept.
    pub log: Log<Firing>,
}

/// Runs a net by cycles until it is at rest: in each cycle every place fires that may, once at most, by tokens that are
/// old enough and into room that was there when the cycle began. The firings are kept where `keep` is true.
///
/// # Errors
///
/// `Limit` where `limit` firings are made and one is enabled. `Memory` where memory is wanting. It answers no other fault.
pub fn run_cycles(
    alloc: Global,
    net: &Checked,
    inputs: &Inputs,
    limit: u64,
    keep: bool,
) -> Result<Timed, RunFault>
    requires fit { InputsFit net.now inputs.now }
    requires few { limit ≤ max_firings }
    ensures timed { MatchResult result (IsTimed net.now inputs.now limit keep)
        (IsTimingFault net.now inputs.now limit) }
    ensures few { IfOk result (HasFewCycles net.now) }
{
    let _ = net.net();
    let bounds = Bounds { limit, keep };
    let mut engine = Engine::new(alloc, net, inputs, bounds)?;
    let mut cycle: u64 = 0;
    let mut last: u64 = 0;
    let mut awaited: u64 = 0;
    let mut going = true;
    'cycles: while going {
        let fired = match engine.run_cycle(net, bounds, cycle) {
            Ok(fired) => fired,
            Err(broken) => return Err(broken.fault(limit)),
        };
        cycle += 1;
        last = last_of(fired, cycle, last);
        going = engine.goes_on(fired, cycle, last, &mut awaited);
        cycle = engine.next_cycle(fired, cycle, last);
    }
    Ok(engine.timed(last))
}

/// How many cycles there are up to the last that has a firing, after one more.
fn last_of(fired: bool, cycle: u64, last: u64) -> u64
    ensures { result ≡ cond fired cycle last }
{
    if fired { cycle } else { last }
}

impl Engine {
    /// Makes a cycle, and tells whether it has a firing.
    ///
    /// # Errors
    ///
    /// `Limit` where as many firings as the limit allows are made and one more may be made in the cycle. `Memory` where
    /// memory is wanting.
    fn run_cycle(&mut self, net: &Checked, bounds: Bounds, now: u64) -> Result<bool, Broken>
        requires { IsReady net.now bounds self.old }
        ensures ready { OnOk result (IsReady net.now bounds self.new) }
        ensures cycled { (past : Past) → HasDone net.now past bounds now self.old
            → MatchResult result (IsCycled net.now past bounds now self.new)
            (IsBroken net.now past.inputs bounds) }
    {
        self.begin(net, bounds, now)?;
        self.run_units(net, bounds, now)?;
        self.run_queues(net, bounds, now)?;
        Ok(self.fired.len() > 0)
    }

    /// Whether there may be a firing in a cycle to come, after so many of which those from `last` on have none: whether the
    /// last has one, or a token is to ripen, and not all tokens were there long enough for each delay.
    fn goes_on(&self, fired: bool, cycle: u64, last: u64, awaited: &mut u64) -> bool
        requires cells { AreCells self.now.notes }
        requires last { fired ≡ true → last ≡ cycle }
        ensures near { result ≡ true → cycle ≤ last + max_delay }
        ensures spent { result ≡ false → (max_delay < cycle - last)
            ⊎ ((fired ≡ false) × HasNoneComing self.now) }
    {
        fired || cycle.saturating_sub(last) <= u64::from(MAX_DELAY) && self.awaits(cycle, awaited)
    }

    /// Whether a token is noted that ripens in the cycle `now` or later. The next such cycle is kept in `awaited`: before it no
    /// search is needed.
    fn awaits(&self, now: u64, awaited: &mut u64) -> bool
        requires { AreCells self.now.notes }
        ensures { result ≡ false → HasNoneComing self.now }
    {
        if now <= *awaited {
            return true;
        }
        match self.notes.next(now) {
            None => false,
            Some(next) => {
                *awaited = next;
                true
            }
        }
    }

    /// Whether nothing can happen in the next cycle but what tokens do that ripen.
    fn is_quiet(&self) -> bool
        ensures { result ≡ true → IsQuiet self.now }
    {
        self.fired.len() == 0
            && self.again.len() == 0
            && self.freed.list.len() == 0
            && self.marks.list.len() == 0
            && self.marks.queues.len() == 0
    }

    /// The next cycle in which something may happen, after so many of which those from `last` on have no firing: those between
    /// have none.
    fn next_cycle(&self, fired: bool, cycle: u64, last: u64) -> u64
        requires cells { AreCells self.now.notes }
        requires few { last < 2 ^ 63 }
        ensures { IsNextCycle self.now cycle last result }
    {
        if fired || !self.is_quiet() {
            return cycle;
        }
        match self.notes.next(cycle) {
            None => cycle,
            Some(next) => next.min(last + u64::from(MAX_DELAY)).max(cycle),
        }
    }

    /// The run that the engine has made, of so many cycles.
    fn timed(self, cycles: u64) -> Timed
        requires { self.made + length self.fired.items ≤ max_firings }
        ensures { result ≡ record {
          state = self.state;
          firings = self.made + length self.fired.items;
          cycles = cycles;
          log = self.log;
        } }
    {
        let firings = self.made + self.fired.len() as u64;
        let (state, log) = self.into_parts();
        Timed {
            state,
            firings,
            cycles,
            log,
        }
    }
}
