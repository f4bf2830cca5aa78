//! Gates that stop workers.
use crossbeam_utils::atomic::AtomicCell;
use el_base::MAX_WORKERS;
use el_io::Gate;
use std::alloc::{AllocError, Global};

/// A gate that answers the first questions of a worker, or of each, by true and its later ones by false.
#[derive(Drop)]
pub struct Stop {
    /// The worker that is stopped; none: each.
    only: Option<u32>,
    /// How many of its questions are answered by true.
    open: u32,
    /// How many questions each worker has asked.
    asked: Vec<AtomicCell<u32>>,
}

impl Stop {
    /// A gate that no worker has asked yet.
    pub fn new(alloc: Global, only: Option<u32>, open: u32) -> Result<Stop, AllocError> {
        let mut asked = Vec::new(alloc);
        for _ in 0..MAX_WORKERS {
            asked.push(AtomicCell::new(0))?;
        }
        Ok(Stop { only, open, asked })
    }
}

impl Gate for Stop {
    ghost is_open = { λ _. ⊥ };

    fn turn(&self, worker: u32) -> bool {
        if self.only.is_some_and(|only| only != worker) {
            return true;
        }
        match self.asked.get(worker as usize) {
            None => true,
            Some(asked) => asked.fetch_add(1) < self.open,
        }
    }
}
