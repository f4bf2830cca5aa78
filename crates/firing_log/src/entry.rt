use net_types::Firing;

/// A firing with its stamp.
#[derive(Clone, Copy)]
pub struct Entry {
    pub stamp: u64,
    pub firing: Firing,
}
