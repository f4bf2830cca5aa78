//! Gates.
ghost use Rattle.std.specs.Prelude.{IsTrue};

/// Asked once before each sweep of a worker; `false` ends that worker. All workers share one gate.
pub trait Gate {
    /// Whether each turn is answered by true.
    ghost is_open: { Self → Type 0 };

    /// Whether the worker of this number may make one sweep more.
    fn turn(&self, worker: u32) -> bool
        ensures { is_open self.now → IsTrue result };
}

/// The gate that always answers true.
#[derive(Clone, Copy)]
pub struct Open;

impl Gate for Open {
    ghost is_open = { λ _. Unit {0} };

    fn turn(&self, _worker: u32) -> bool {
        true
    }
}
