//! A worked block, as the contract of a function that does nothing.
ghost use Rattle.block_prune.specs.Sample.{SampleIsPruned};

/// A block with an overwritten store, and with dead steps and a dead load, is pruned by computation.
pub fn sample_is_pruned()
    ensures { SampleIsPruned }
{}
