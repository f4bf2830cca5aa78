//! The laws of folded graphs, as contracts of functions that do nothing.
ghost use Rattle.block_fold.specs.Laws.{SimplifiedBlocksKeep, FoldedBlocksKeep, FoldedGraphsPass};

use block_pass::{block_by_block, blocks_go_on, values_stay_in_widths};
use block_prune::pruned_blocks_keep;
use block_rules::rewritings_are_right;

/// A block made anew does what the block does.
pub fn simplified_blocks_keep()
    ensures { SimplifiedBlocksKeep }
{
    values_stay_in_widths();
    rewritings_are_right();
}

/// A folded block, which is the block made anew without what nothing needs then, does what the block does.
pub fn folded_blocks_keep()
    ensures { FoldedBlocksKeep }
{
    simplified_blocks_keep();
    pruned_blocks_keep();
    blocks_go_on();
}

/// The folded graph of a graph is one that a pass may give, and its ends go back.
pub fn folded_graphs_pass()
    ensures { FoldedGraphsPass }
{
    folded_blocks_keep();
    block_by_block();
}
