//! A queue as plain data.

use crate::entry::Entry;
use net_types::List;

/// The next serial number of a queue and its entries, oldest first.
#[derive(Drop)]
pub struct QueuePart {
    pub next: u64,
    pub entries: List<Entry>,
}
