//! Saved states of circuits: which data may be saved, their text, and the laws of both.
#![tactic(auto)]

mod draft;
mod fields;
mod laws;
mod lines;
mod printer;
mod reader;
mod refusal;
mod saved;
mod stages;

pub use laws::{
    fits_stay, one_form, opening_fits, resumed_as_run, runs_fit, saved_counts_fit,
    texts_spell_one_state,
};
pub use printer::print_snapshot;
pub use reader::read_snapshot;
pub use refusal::SnapRefusal;
pub use saved::Saved;
