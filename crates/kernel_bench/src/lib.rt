//! One kernel compiled and run on inputs that a number gives, with nothing to refuse.
//!
//! [`bench_text`] is the whole call. That its kernel is read, ends and has one sum is proved from its bytes on.
#![tactic(auto)]

mod bench;
mod drawn;
mod laws;
mod summary;

pub use bench::bench_text;
pub use laws::{kernel_ends, kernel_is_read};
