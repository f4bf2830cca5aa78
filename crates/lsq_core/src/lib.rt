//! Load-store queues: which acts they allow, what each act does, and the laws of acts.
#![tactic(auto)]

mod bits;
mod entries;
mod entry;
mod index;
mod indexed;
mod laws;
mod list_lsq;
mod lsq;
mod marks;
mod part;
mod queue;
mod runs;
mod words;

pub use bits::Bits;
pub use entry::Entry;
pub use laws::{acts_join, acts_keep_a_queue, acts_stay_refused, mark_allows_more, rows_hold};
pub use list_lsq::ListLsq;
pub use lsq::Lsq;
pub use part::QueuePart;
pub use queue::{Outcome, Queue};
pub use runs::run_acts;
