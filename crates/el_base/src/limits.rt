//! The greatest sizes that are accepted.

/// The nodes of a kernel.
pub const MAX_NODES: u64 = 1_024;

/// The constructs of a kernel text that a token belongs to.
pub const MAX_NESTING: u32 = 64;

/// The dimensions of an array.
pub const MAX_DIMENSIONS: usize = 3;

/// The elements of all arrays of a kernel together.
pub const MAX_ELEMENTS: u64 = 1_048_576;

/// A kernel file, in bytes.
pub const MAX_KERNEL_BYTES: u64 = 65_536;

/// An inputs file, in bytes.
pub const MAX_INPUTS_BYTES: u64 = 33_554_432;

/// A net text, in bytes.
pub const MAX_NETLIST_BYTES: u64 = 67_108_864;

/// A schedule, in bytes.
pub const MAX_SCHEDULE_BYTES: u64 = 16_777_216;

/// The slots of a channel.
pub const MAX_SLOTS: u32 = 1_024;

/// The delay of a channel, in cycles.
pub const MAX_DELAY: u32 = 1_000;

/// The slots of all channels of a net.
pub const MAX_SUM_OF_SLOTS: u64 = 67_108_864;

/// The outputs of a fork, and the data inputs of a mux or of a merge by a control token.
pub const MAX_WAYS: u32 = 65_536;

/// The entries of a queue.
pub const MAX_DEPTH: u32 = 1_024;

/// The firings of a run, the greatest number that a caller may ask.
pub const MAX_FIRINGS: u64 = 400_000_000;

/// The firings of a run whose list of firings is kept, as by workers, the greatest number that a caller may ask.
pub const MAX_SHARED_FIRINGS: u64 = 16_000_000;

/// The workers that run a net.
pub const MAX_WORKERS: u32 = 64;
