//! One sweep of a worker.
ghost use Rattle.std.specs.Prelude.{◌≡◌, ◌<◌, ◌↔◌, ◌⊎◌, IsTrue};
ghost use Rattle.net_worker.specs.Going.{GoesOn, HasAdded};
ghost use Rattle.net_worker.specs.Sweeps.{SweptAs, SweptExactly, AllHeldBack, IsHeldOrFull};
ghost use Rattle.net_worker.specs.Views.{log_room};
ghost use Rattle.net_worker.specs.Waits.{IsLookedAll};
ghost use Rattle.net_worker.specs.Workers.{IsMadeOf, IsWhole, IsFull, SameWorker, HasLoggedExit};
ghost use Rattle.net_worker.specs.declared.swept.Swept.TheVariants as swept;

use crate::passes::Tried;
use crate::swept::Swept;
use crate::tables::Tables;
use crate::worker::Worker;

/// How often a sweep looks at least before it tries all its units, where it looks at few channels.
const LEAST_LOOKS: u32 = 256;

/// How many channels it looks at, the looks taken together, where it looks at many and the least often.
const LEAST_LOOKED: usize = 262_144;

/// How often it looks at most before that.
const MOST_LOOKS: u32 = 1024;

/// How often a sweep looks at most where the worker rests.
const MOST_RESTING: u32 = 64;

impl Worker {
    /// Looks at the channels from other workers and makes firings of the worker's own units: some 4,096 where it sees as
    /// many that it may make, and once the exit has fired all that it sees. Takes no memory, and waits for nobody.
    pub fn sweep(&mut self, tables: &Tables) -> Swept
        requires made { IsMadeOf tables.now self.old }
        requires whole { IsWhole tables.now self.old }
        ensures made { IsMadeOf tables.now self.new }
        ensures same { SameWorker self.old self.new }
        ensures answer { SweptAs tables.now result self.old self.new }
        ensures stamps { SweptExactly tables.now self.old self.new }
        ensures exited { HasLoggedExit tables.now self.new → result ≡ swept.Exited }
    {
        if self.portion.exited() {
            return Swept::Exited;
        }
        if self.is_full() {
            return Swept::Full;
        }
        let fired = self.go(tables, self.looks());
        if self.portion.exited() {
            return Swept::Exited;
        }
        if fired == 0 {
            return Swept::Idle;
        }
        Swept::Fired(fired)
    }

    /// Goes on as in a sweep, also once the exit has fired; answers how many firings it made. Where it sees none it looks so often
    /// at most before it tries all its units: once is enough where no other worker is at work beside it. Where it rests it looks
    /// once. Takes no memory, and waits for nobody.
    pub fn go_on(&mut self, tables: &Tables, looks: u32) -> u32
        requires made { IsMadeOf tables.now self.old }
        requires whole { IsWhole tables.now self.old }
        ensures made { IsMadeOf tables.now self.new }
        ensures same { SameWorker self.old self.new }
        ensures stamps { SweptExactly tables.now self.old self.new }
        ensures added { HasAdded result self.old self.new }
        ensures none { result ≡ 0 → IsHeldOrFull tables.now self.old self.new }
    {
        if self.is_full() {
            return 0;
        }
        let looks = if self.resting { 1 } else { looks };
        self.go(tables, looks)
    }

    /// Whether the exit has fired, or the log holds its share, or no stamp is left: no sweep adds an entry then. Takes no
    /// memory.
    pub fn has_ended(&self, tables: &Tables) -> bool
        requires { IsMadeOf tables.now self.now }
        ensures { IsTrue result ↔ (HasLoggedExit tables.now self.now ⊎ IsFull self.now) }
    {
        let _ = tables;
        self.portion.exited() || self.is_full()
    }

    /// How often a sweep looks before it is idle: others may be at work beside it, and the more units these have, the longer they
    /// take. To try all units takes as long as many looks, so it looks more often where it would do that.
    fn looks(&self) -> u32 {
        let units = self.portion.own().len();
        let looked = self.ins.len() + 1;
        let looks = u32::try_from(units / looked).unwrap_or(MOST_LOOKS);
        let least = u32::try_from(LEAST_LOOKED / looked).unwrap_or(LEAST_LOOKS);
        if self.resting {
            looks.min(MOST_RESTING).max(1)
        } else {
            looks.min(MOST_LOOKS).max(least.min(LEAST_LOOKS)).max(1)
        }
    }

    /// Whether the log holds its share, or no stamp is left.
    fn is_full(&self) -> bool
        ensures { IsTrue result ↔ IsFull self.now }
    {
        self.log.room() == 0 || self.clock + 1 == 1 << 62
    }

    /// Goes on in a sweep, and looks so often at most; answers how many firings it made.
    fn go(&mut self, tables: &Tables, looks: u32) -> u32
        requires made { IsMadeOf tables.now self.old }
        requires whole { IsWhole tables.now self.old }
        requires room { 0 < log_room self.old }
        ensures made { IsMadeOf tables.now self.new }
        ensures later { GoesOn tables.now self.old self.new }
        ensures added { HasAdded result self.old self.new }
        ensures none { result ≡ 0 → self.new.log ≡ self.old.log }
        ensures held { result ≡ 0 → AllHeldBack tables.now self.old self.new }
    {
        let _ = tables.net.net();
        let fired = self.turns(tables, looks);
        if fired > 0 {
            return fired;
        }
        if self.resting {
            return 0;
        }
        match self.exact_pass(tables) {
            Tried::Made => 1,
            Tried::Held => 0,
            Tried::Waiting => {
                self.resting = true;
                0
            }
        }
    }

    /// Looks and passes so often at most, and once at least, until it makes a firing; answers how many firings it made.
    fn turns(&mut self, tables: &Tables, looks: u32) -> u32
        requires made { IsMadeOf tables.now self.old }
        requires whole { IsWhole tables.now self.old }
        ensures made { IsMadeOf tables.now self.new }
        ensures later { GoesOn tables.now self.old self.new }
        ensures added { HasAdded result self.old self.new }
        ensures none { result ≡ 0 → IsLookedAll tables.now self.old self.new }
    {
        let mut fired = self.turn(tables);
        for _ in 1..looks {
            if fired > 0 {
                return fired;
            }
            fired = self.turn(tables);
        }
        fired
    }

    /// Looks, and passes over the marked units, where it does not rest; answers how many firings it made.
    fn turn(&mut self, tables: &Tables) -> u32
        requires made { IsMadeOf tables.now self.old }
        requires whole { IsWhole tables.now self.old }
        ensures made { IsMadeOf tables.now self.new }
        ensures later { GoesOn tables.now self.old self.new }
        ensures added { HasAdded result self.old self.new }
        ensures none { result ≡ 0 → IsLookedAll tables.now self.old self.new }
    {
        self.look(tables);
        self.ask(tables);
        if self.resting {
            return 0;
        }
        self.pass(tables)
    }
}
