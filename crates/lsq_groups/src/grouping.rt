//! The groups of a graph.
ghost use Rattle.std.specs.Prelude.{◌≡◌, IfOk, length};
ghost use Rattle.el_base.specs.Limits.{IsNumbered};
ghost use Rattle.ir.specs.Graphs.{size};
ghost use Rattle.ir.specs.Accesses.{GroupsShare};
ghost use Rattle.lsq_groups.specs.Order.{AreInOrder};

use crate::accesses::accesses;
use crate::read_only::read_only;
use ir::{Groups, Ir, Memory};
use std::alloc::Global;

/// Which arrays no step of the graph stores to, and of each block and each other array that it accesses all its
/// accesses, in order, as one.
///
/// It asks that the size of the graph, which [`Ir::has_size_within`] tells, and the number of arrays are below 2^32.
/// The accesses come by ascending blocks, and of one block by ascending arrays.
///
/// # Errors
///
/// [`Memory`] where memory is wanting.
pub fn groups(alloc: Global, graph: &Ir) -> Result<Groups, Memory>
    requires size { IsNumbered (size graph.now) }
    requires arrays { IsNumbered (length graph.now.arrays) }
    ensures share { IfOk result (GroupsShare graph.now) }
    ensures order { IfOk result (λ gs. AreInOrder gs.of) }
{
    let blocks = graph.look();
    let read_only = read_only(alloc, graph.arrays.len() as u32, blocks)?;
    let of = accesses(alloc, read_only.as_slice(), blocks)?;
    Ok(Groups { read_only, of })
}
