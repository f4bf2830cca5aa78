use net_core::Parts;

/// A state as plain data, with the number of firings that led to it.
#[derive(Drop)]
pub struct Saved {
    pub made: u64,
    pub parts: Parts,
}
