//! A worked graph.
ghost use Rattle.ir.specs.Sample.{SamplesRun};

/// The worked graph is well formed, and its run on 3 and on the elements 5 and 7 is as computed by the definitions.
pub fn samples_run()
    ensures { SamplesRun }
{}
