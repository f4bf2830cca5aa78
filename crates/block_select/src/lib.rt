//! If-conversion of block graphs: sides of a condition that only compute become choices of values.
#![tactic(auto)]

mod arms;
mod choices;
mod laws;
mod selecting;

pub use ir::{Ir, Memory};
pub use laws::{samples_are_selected, selected_graphs_pass};
pub use selecting::select;
