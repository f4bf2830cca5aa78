use buffer_place::Timing;

/// What a circuit is asked for.
#[derive(Clone, Copy, PartialEq, Eq)]
pub struct CircuitOptions {
    /// The slots of its channels, and the cycles that a token waits on them.
    pub timing: Timing,
    /// Whether its queues hand a waiting store's value to a later load of the same address.
    pub forward: bool,
}
