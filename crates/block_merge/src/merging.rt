//! The merged graph of a graph.
ghost use Rattle.std.specs.Prelude.{◌≡◌, IfOk};
ghost use Rattle.el_base.specs.Limits.{IsNumbered};
ghost use Rattle.ir.specs.Graphs.{size};
ghost use Rattle.block_merge.specs.Merged.{merged, merged_blocks};
ghost use Rattle.block_merge.specs.Shares.{MergeShare};

use crate::joining::all_joined;
use crate::numbering::reached;
use crate::threading::threaded;
use el_base::{copy_arrays, copy_scalars};
use ir::{Block, Ir, List, Memory};
use std::alloc::Global;

/// The graph with fewer blocks that does the same: edges past blocks that only lead on, each row of blocks joined, and the
/// blocks that no walk finds left out, in the order in which the walk finds them.
///
/// It asks that the size of the graph, which [`Ir::has_size_within`] tests, is below 2^32. The time is that of copying the
/// graph some times, and of going over its edges up to sixteen times where long rows of blocks only lead on.
///
/// # Errors
///
/// [`Memory`] where memory is wanting.
pub fn merge(alloc: Global, graph: &Ir) -> Result<Ir, Memory>
    requires { IsNumbered (size graph.now) }
    ensures merged { IfOk result (λ g. g ≡ merged graph.now) }
    ensures share { IfOk result (MergeShare graph.now) }
{
    let _blocks = graph.look();
    Ok(Ir {
        name: graph.name.copy()?,
        scalars: copy_scalars(alloc, graph.scalars.as_slice())?,
        arrays: copy_arrays(alloc, graph.arrays.as_slice())?,
        result: graph.result,
        blocks: merged_blocks(alloc, graph)?,
    })
}

/// The blocks of the merged graph: four passes, one after the other.
fn merged_blocks(alloc: Global, graph: &Ir) -> Result<List<Block>, Memory>
    requires { IsNumbered (size graph.now) }
    ensures { IfOk result (λ bs. bs ≡ merged_blocks graph.now.blocks) }
{
    let blocks = graph.look();
    let arrays = graph.arrays.len();
    let onward = threaded(alloc, blocks)?;
    let found = reached(alloc, onward.as_slice(), arrays)?;
    let rows = all_joined(alloc, found)?;
    reached(alloc, rows.as_slice(), arrays)
}
