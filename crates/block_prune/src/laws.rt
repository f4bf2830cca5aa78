//! The laws of pruned blocks, as the contract of a function that does nothing.
ghost use Rattle.block_prune.specs.Laws.{OverwrittenStoresMayGo, DeadStepsMayGo, PrunedBlocksKeep};

/// A block of a graph without its overwritten stores, and one without its dead steps, keep all that a pass has to keep, and
/// so does the pruned block.
pub fn pruned_blocks_keep()
    ensures stores { OverwrittenStoresMayGo }
    ensures steps { DeadStepsMayGo }
    ensures both { PrunedBlocksKeep }
{}
