//! Inputs and results as text.
#![tactic(auto)]

mod header;
mod laws;
mod lines;
mod numerals;
mod reader;
mod refusal;
mod results;
mod state_results;

pub use laws::inputs_texts_have_one_reading;
pub use reader::{read_inputs, read_inputs_of};
pub use refusal::InputRefusal;
pub use results::{print_results_of, put_numbers_line};
pub use state_results::print_results;
