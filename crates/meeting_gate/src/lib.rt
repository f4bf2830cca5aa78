//! A gate at which workers meet, for rows that try whether each has a thread of its own.
#![tactic(auto)]

mod meeting;

pub use meeting::Meeting;
