//! What a worker shows.
ghost use Rattle.std.specs.Prelude.{◌≡◌};
ghost use Rattle.net_worker.specs.Views.{number_of, log_of};

use crate::worker::Worker;
use firing_log::Entries;

impl Worker {
    /// The worker's number.
    pub fn number(&self) -> u32
        ensures { result ≡ number_of self.now }
    {
        self.number
    }

    /// The worker's log, oldest entry first.
    pub fn log(&self) -> Entries<'_>
        ensures { result ≡ log_of self.now }
    {
        self.log.entries()
    }
}
