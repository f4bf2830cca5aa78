//! Logs of firings with their stamps.
#![tactic(auto)]

mod entries;
mod entry;
mod family;
mod firing_log;

pub use entries::Entries;
pub use entry::Entry;
pub use firing_log::FiringLog;
