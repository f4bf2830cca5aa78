//! What every crate stands on: limits, spans, numbers and names in texts, lists and boxes, types and operations.
#![tactic(auto)]

mod boxed;
mod bytes;
mod decimal;
mod digits;
mod label;
mod limits;
mod list;
mod log;
mod memory;
mod name;
mod operation;
mod patterns;
mod span;
mod ty;

pub use boxed::Boxed;
pub use bytes::{is_letter, is_word};
pub use decimal::Decimal;
pub use digits::{
    Number, canonical_numbers_are_as_written, put_i64, put_u64, read_number,
    written_numbers_read_back,
};
pub use label::Label;
pub use limits::{
    MAX_DELAY, MAX_DEPTH, MAX_DIMENSIONS, MAX_ELEMENTS, MAX_FIRINGS, MAX_INPUTS_BYTES,
    MAX_KERNEL_BYTES, MAX_NESTING, MAX_NETLIST_BYTES, MAX_NODES, MAX_SCHEDULE_BYTES,
    MAX_SHARED_FIRINGS, MAX_SLOTS, MAX_SUM_OF_SLOTS, MAX_WAYS, MAX_WORKERS,
};
pub use list::List;
pub use log::Log;
pub use memory::Memory;
pub use name::Name;
pub use operation::{Op1, Op2};
pub use patterns::{
    number, numbers_are_those_of_their_patterns, pattern, patterns_are_those_of_their_numbers,
    patterns_have_their_width, patterns_stand_for_numbers_in_range,
};
pub use span::Span;
pub use ty::{Array, Scalar, Ty, copy_arrays, copy_scalars};
