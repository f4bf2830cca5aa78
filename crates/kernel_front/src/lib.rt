//! From the bytes of a kernel to its typed tree, in one call.
#![tactic(auto)]

mod reading;
mod refusal;

pub use reading::{
    Kernel, kernels_end_as_programs, one_text_has_one_answer, places_count_lines_and_columns,
    read_kernel, texts_that_type_are_kernels, texts_without_helpers_are_cast,
};
pub use refusal::KernelRefusal;
