//! The law of copied joins, as the contract of a function that does nothing.
ghost use Rattle.block_copy.specs.Laws.{CopiedGraphsPass};

use block_fold::folded_blocks_keep;
use block_pass::{block_by_block, passes_go_on};

/// The graph with copied blocks is well formed; each clean run is one of the other graph, in no more visits, and back.
pub fn copied_graphs_pass()
    ensures { CopiedGraphsPass }
{
    folded_blocks_keep();
    block_by_block();
    passes_go_on();
}
