//! A kernel run by the plain interpreter, from a text of its inputs to the text of its results.
//!
//! [`interpret_text`] is the whole call. What it says is exact: [`inputs_have_one_answer`].
#![tactic(auto)]

mod given;
mod interpretation;
mod laws;
mod options;
mod refusal;
mod results;

pub use interpretation::interpret_text;
pub use laws::{ending_kernels_are_not_refused, inputs_have_one_answer};
pub use options::{DEFAULT_TURNS, InterpretOptions};
pub use refusal::InterpretRefusal;
