//! From the bytes of a kernel to the text of its circuit, and with the bytes of inputs to the text of a run of it.
//!
//! [`compile_text`] and [`go_text`] are the whole calls. A circuit computes its kernel whatever the inputs, so what
//! [`go_text`] shows are the kernel's own results where it ends on them.
#![tactic(auto)]

mod compilation;
mod going;
mod laws;
mod options;
mod refusal;

pub use compilation::compile_text;
pub use going::go_text;
pub use laws::{
    answers_are_one, circuits_show_what_is_interpreted, ending_kernels_run, interpreted_kernels_go,
    kernels_compile, printed_circuits_are_right,
};
pub use options::CircuitOptions;
pub use refusal::GoRefusal;
