//! A gate at which workers meet.
ghost use Rattle.std.specs.Prelude.{IfOk};
ghost use Rattle.meeting_gate.specs.Meetings.{Counts};

use crossbeam_utils::atomic::AtomicCell;
use el_io::Gate;
use std::alloc::{AllocError, Global};
use std::thread;

/// How often a worker looks for the others before it is held no longer.
const MOST_LOOKS: u32 = 100_000_000;

/// A gate at which all workers meet. The first question of each is answered once all have asked their first, and its second
/// once the workers of lower numbers have asked their second.
#[derive(Drop)]
pub struct Meeting {
    /// How many questions each worker has asked.
    asked: Vec<AtomicCell<u32>>,
    ran_out: AtomicCell<bool>,
}

impl Meeting {
    /// A gate for so many workers, which none has asked yet.
    ///
    /// # Errors
    ///
    /// [`AllocError`] where memory is wanting.
    pub fn new(alloc: Global, workers: u32) -> Result<Meeting, AllocError>
        ensures { IfOk result (Counts workers) }
    {
        let mut asked = Vec::new(alloc);
        for _ in 0..workers {
            asked.push(AtomicCell::new(0))?;
        }
        Ok(Meeting {
            asked,
            ran_out: AtomicCell::new(false),
        })
    }

    /// Whether the first so many workers have each asked so many questions.
    fn have_asked(&self, workers: usize, questions: u32) -> bool {
        for asked in self.asked.iter().take(workers) {
            if asked.load() < questions {
                return false;
            }
        }
        true
    }

    /// Looks until the first so many workers have each asked so many questions. Where it looked in vain, this is noted, and
    /// the answer is false.
    fn hold(&self, workers: usize, questions: u32) -> bool {
        for _ in 0..MOST_LOOKS {
            if self.have_asked(workers, questions) {
                return true;
            }
            thread::yield_now();
        }
        self.ran_out.store(true);
        false
    }

    /// Whether the workers met.
    pub fn outcome(&self) -> &'static str {
        if self.ran_out.load() {
            return "a worker waited in vain";
        }
        if !self.have_asked(self.asked.len(), 1) {
            return "a worker asked nothing";
        }
        "met"
    }
}

impl Gate for Meeting {
    ghost is_open = { λ _. ⊥ };

    fn turn(&self, worker: u32) -> bool {
        let number = worker as usize;
        match self.asked.get(number).map_or(2, |asked| asked.fetch_add(1)) {
            0 => self.hold(self.asked.len(), 1),
            1 => self.hold(number, 2),
            _ => true,
        }
    }
}
