//! Laws of if-conversion, each as the contract of a function that does nothing.
ghost use Rattle.block_select.specs.Laws.{SelectedGraphsPass};
ghost use Rattle.block_select.specs.Sample.{SamplesAreSelected};

/// The graph with choices of values is well formed; each clean run is one of the other graph, in no more visits.
pub fn selected_graphs_pass()
    ensures { SelectedGraphsPass }
{}

/// The worked graphs are selected as computed by the definitions.
pub fn samples_are_selected()
    ensures { SamplesAreSelected }
{}
