//! The folded graph.
ghost use Rattle.std.specs.Prelude.{◌≡◌, ◌≤◌, map, IfOk, All};
ghost use Rattle.ir.specs.Graphs.{size, block_weight};
ghost use Rattle.block_pass.specs.Shares.{PassShare, VisitsBack};
ghost use Rattle.block_fold.specs.Folded.{folded, folded_block};

use crate::laws::folded_graphs_pass;
use crate::making::simplify_block;
use block_prune::prune_block;
use el_base::{copy_arrays, copy_scalars};
use ir::{Block, Ir, List, Memory};
use std::alloc::Global;

/// The graph with each block made anew: constants and identities by rules, equal pure steps once, loads of what is known to
/// stand at an address, jumps that are decided; and without stores that are overwritten and pure steps that nothing needs.
///
/// It asks that the size of the graph, which [`Ir::has_size_within`] tests, is at most 8,000,000. The time is that of a few
/// looks at each step, and for each access one at the accesses of its block before it.
///
/// # Errors
///
/// [`Memory`] where memory is wanting.
pub fn fold(alloc: Global, graph: &Ir) -> Result<Ir, Memory>
    requires { size graph.now ≤ 8000000 }
    ensures folded { IfOk result (λ g. g ≡ folded graph.now) }
    ensures share { IfOk result (PassShare graph.now) }
    ensures back { IfOk result (VisitsBack graph.now) }
{
    folded_graphs_pass();
    let blocks = folded_blocks(alloc, graph.look())?;
    Ok(Ir {
        name: graph.name.copy()?,
        scalars: copy_scalars(alloc, graph.scalars.as_slice())?,
        arrays: copy_arrays(alloc, graph.arrays.as_slice())?,
        result: graph.result,
        blocks,
    })
}

// Each block folded.
fn folded_blocks(alloc: Global, blocks: &[Block]) -> Result<List<Block>, Memory>
    requires { All (λ b. block_weight b ≤ 8000000) blocks.now }
    ensures { IfOk result (λ bs. bs ≡ map folded_block blocks.now) }
{
    let mut all = List::new(alloc);
    for block in blocks {
        all.push(fold_block(alloc, block)?)?;
    }
    Ok(all)
}

/// The block made anew, without stores that are overwritten and pure steps that nothing needs. It weighs at most 8,000,000.
///
/// # Errors
///
/// [`Memory`] where memory is wanting.
#[tactic(auto, unfolding(crate::specs::Folded::folded_block))]
pub fn fold_block(alloc: Global, block: &Block) -> Result<Block, Memory>
    requires { block_weight block.now ≤ 8000000 }
    ensures { IfOk result (λ b. b ≡ folded_block block.now) }
{
    let simple = simplify_block(alloc, block)?;
    prune_block(alloc, &simple)
}
