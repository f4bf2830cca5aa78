use net_core::State;
use net_types::Firing;

/// Where a list of firings leads.
#[derive(Drop)]
pub enum Replay {
    /// To this state, in which no firing is enabled.
    AtRest(State),
    /// To this state, and `next` is the least firing that is enabled in it.
    Goes { state: State, next: Firing },
}
