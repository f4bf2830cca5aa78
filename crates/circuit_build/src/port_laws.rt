//! The rules that built nets keep, each as the contract of a function that does nothing.
ghost use Rattle.circuit_build.specs.Kept.{NetsKeepRules, SampleIsAsked};
ghost use Rattle.circuit_build.specs.Ports.{PortsOfNetsAgree, SampleHasRoom};

/// In the net of a well-formed graph each place of a unit has exactly one channel, each channel has the width of both its
/// places, and it is control exactly where its places are: rules C1, C2 and C5.
///
/// The accesses are those of the graph, its size is at most 8,000,000, and its arrays and the units of its net are fewer
/// than 2^32. The worked graph is one of these.
pub fn ports_agree()
    ensures agree { PortsOfNetsAgree }
    ensures room { SampleHasRoom }
{}

/// The net of a graph keeps all rules but those of slots and delays, C3 and C4: C1, C2, C5, C6, C7 and C8.
/// What is asked of the graph holds of the worked one, if its scalar and its array have two names.
pub fn nets_keep_rules()
    ensures rules { NetsKeepRules }
    ensures asked { SampleIsAsked }
{}
