ghost use Rattle.std.specs.Prelude.{◌≤◌, IfOk};
ghost use Rattle.el_base.specs.Limits.{max_nodes};
ghost use Rattle.c_ast.specs.Nodes.{typed_nodes};
ghost use Rattle.c_meaning.specs.Lawful.{Lawful};
ghost use Rattle.kernel_graph.specs.Composed.{IsGraphOf};
ghost use Rattle.kernel_graph.specs.Shares.{GraphShare};

use crate::count::nodes;
use crate::laws::{optimized_graphs_pass, stores_are_assignments};
use crate::passes::optimize;
use block_args::arguments;
use block_merge::merge;
use block_pass::visits_are_light;
use c_ast::Typed;
use c_norm::laws::small_forms_can_be_built;
use c_norm::normal;
use el_base::Memory;
use ir::Ir;
use std::alloc::Global;
use struct_cfg::cfg;

/// The block graph of a kernel: where the kernel ends, under either profile, the graph's run returns with the same arrays
/// and result, within bounds that a circuit keeps. It has at most 32,768 blocks and a size of at most 8,000,000, and each
/// block at most 14,336 steps, 1,024 arguments and 1,024 accesses. Its steps store to exactly the arrays that the kernel
/// assigns to. Blocks in a row are one block, and no edge leads into a block that only leads on. It is the one graph that
/// the passes are defined to make of the kernel: each block gets the variables that are live at it, and no others.
///
/// # Errors
///
/// [`Memory`] where memory is wanting.
pub fn block_graph(alloc: Global, typed: &Typed) -> Result<Ir, Memory>
    requires lawful { Lawful typed.now }
    requires few { typed_nodes typed.now ≤ max_nodes }
    ensures share { IfOk result (GraphShare typed.now) }
    ensures made { IfOk result (IsGraphOf typed.now) }
{
    small_forms_can_be_built();
    stores_are_assignments();
    optimized_graphs_pass();
    visits_are_light();
    let form = normal(alloc, typed)?;
    let graph = cfg(alloc, &form)?;
    let argued = arguments(alloc, &graph)?;
    let merged = merge(alloc, &argued)?;
    let count = nodes(typed);
    optimize(alloc, merged, 10 * count)
}
