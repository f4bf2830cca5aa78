/// How many firings a run may make where no limit is asked for.
pub const DEFAULT_FIRINGS: u64 = 8_000_000;

/// What a run is asked for.
#[derive(Clone, Copy, PartialEq, Eq)]
pub struct RunOptions {
    /// How many firings it may make.
    pub limit: u64,
    /// Whether the number of firings is written after the results.
    pub count: bool,
    /// Whether the number of cycles is written after that.
    pub cycles: bool,
    /// Whether the firings are written after both, one cycle after another, or in the order of the workers' stamps.
    pub log: bool,
    /// By how many workers it is made, each in a thread of its own; by cycles where none are asked for.
    pub workers: Option<u64>,
}
