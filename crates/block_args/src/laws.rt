//! Laws of the graphs over arguments, each as the contract of a function that does nothing.
ghost use Rattle.block_args.specs.Laws.{ServedGraphsRunTheSame, LiveVariablesServe, SizesAreKept, ServedGraphsAreWellFormed};

/// The graph over arguments of a table that serves a graph over variables has its header and its finished runs, visit by
/// visit, and a visit weighs at most its steps and `2 + 3·V`.
pub fn served_graphs_run_the_same()
    ensures { ServedGraphsRunTheSame }
{}

/// A table that lists exactly the live variables of each block serves the graph.
pub fn live_variables_serve()
    ensures { LiveVariablesServe }
{}

/// The graph over arguments has as many blocks, no block with more accesses, and a size of at most the steps and
/// `2 + 3·V` for each block.
pub fn sizes_are_kept()
    ensures { SizesAreKept }
{}

/// The graph over arguments of a table that serves a graph over variables is well formed.
pub fn served_graphs_are_well_formed()
    ensures { ServedGraphsAreWellFormed }
{}
