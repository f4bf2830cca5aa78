//! Workers with the links between them, and what a run of them reports.
ghost use Rattle.std.specs.Prelude.{◌≡◌};
ghost use Rattle.worker_run.specs.Crews.{AreMade, AreLinked};

use el_base::Log;
use net_core::State;
use net_types::Firing;
use net_worker::{Tables, Worker};

/// The workers of one net, worker j with number j.
pub struct Crew<'a> {
    pub tables: Tables<'a>,
    pub workers: Vec<Worker>,
    pub ghost made: { ∥ AreMade tables workers.items ∥₁ },
    pub ghost linked: { AreLinked tables workers.items },
}

// By hand, so that to let go of one is a call.
impl<'a> Drop for Crew<'a> {
    fn drop(self) {
        let Crew {
            tables: _tables,
            workers: _workers,
        } = self;
    }
}

/// What a run of a crew reports.
pub struct Report<'a> {
    /// At rest.
    pub state: State,
    /// How many were made in all, by the workers and after them.
    pub firings: u64,
    /// Gathered.
    pub crew: Crew<'a>,
    /// All firings in their order, where they are kept; else none.
    pub log: Log<Firing>,
}

// By hand, so that to let go of one is a call.
impl<'a> Drop for Report<'a> {
    fn drop(self) {
        let Report {
            state: _state,
            firings: _firings,
            crew: _crew,
            log: _log,
        } = self;
    }
}
