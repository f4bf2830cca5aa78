//! The laws, each as the contract of a function that does nothing.
ghost use Rattle.kernel_graph.specs.Laws.{GraphsAreOne, OptimizedGraphsPass, StoresAreAssignments};

use block_copy::copied_graphs_pass;
use block_fold::folded_graphs_pass;
use block_pass::{merged_graphs_pass, passes_go_on};
use block_select::selected_graphs_pass;

/// The graph over block arguments that is made of a kernel stores to exactly the arrays that the kernel assigns to.
pub fn stores_are_assignments()
    ensures { StoresAreAssignments }
{}

/// A kernel has one graph.
pub fn graphs_are_one()
    ensures { GraphsAreOne }
{}

/// What the passes make of a graph, or the graph itself where that is past their bounds, is what one pass may give: it is
/// well formed, each run that ends without strays on inputs that fit is one of its runs, in no more visits, and each of its
/// runs that ends so is one of the graph's.
pub fn optimized_graphs_pass()
    ensures { OptimizedGraphsPass }
{
    passes_go_on();
    merged_graphs_pass();
    folded_graphs_pass();
    selected_graphs_pass();
    copied_graphs_pass();
}
