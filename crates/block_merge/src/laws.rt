//! Laws of merged graphs, each as the contract of a function that does nothing.
ghost use Rattle.block_merge.specs.Laws.{MergedGraphsKeep, MergedRunsGoBack};

/// The merged graph of a well formed graph is well formed and keeps its runs, its sizes and its stores.
pub fn merged_graphs_keep()
    ensures { MergedGraphsKeep }
{}

/// Each finished run of the merged graph without strays is one of the graph: where the graph's run never ends, or strays, the
/// merged graph's has no such end.
pub fn merged_runs_go_back()
    ensures { MergedRunsGoBack }
{}
