//! Laws of trimmed graphs, each as the contract of a function that does nothing.
ghost use Rattle.block_trim.specs.Laws.{TrimmedGraphsFit, TrimmedGraphsRunTheSame, TrimmedSizesAreKept, TrimmedBlocksAreTrim};

/// The trimmed graph of a well formed graph is well formed.
pub fn trimmed_graphs_fit()
    ensures { TrimmedGraphsFit }
{}

/// The trimmed graph has the same header and variables, and on all inputs the same visits, each with the same arrays,
/// strays, variables and number of steps, so the same finished runs.
pub fn trimmed_graphs_run_the_same()
    ensures { TrimmedGraphsRunTheSame }
{}

/// The trimmed graph has as many blocks, each with as many steps and accesses, and with no more reads and writes.
pub fn trimmed_sizes_are_kept()
    ensures { TrimmedSizesAreKept }
{}

/// Each read of a trimmed block is used by a step, a write or the jump; no write of it gives its variable what the block
/// reads of it, and no two are to one variable.
pub fn trimmed_blocks_are_trim()
    ensures { TrimmedBlocksAreTrim }
{}
