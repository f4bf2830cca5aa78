//! Built nets follow the visits of their graphs, as the contract of a function that does nothing.
ghost use Rattle.circuit_build.specs.Follows.{CircuitsComplete, CircuitsFollow};

use net_core::spent_is_at_rest;

/// The net of a graph that can be built follows each list of visits that the graph makes on inputs of the net: there is a
/// list of enabled firings, at least one for each visit, and at most 12 for each unit of their weight and 16 more for each
/// scalar, each array and one besides. Where the visits return, such a list ends at rest, with no token and no entry of a
/// queue, with the arrays and the result of the graph, and without strays where the visits have none.
pub fn circuits_follow()
    ensures follow { CircuitsFollow }
    ensures complete { CircuitsComplete }
{
    spent_is_at_rest();
}
