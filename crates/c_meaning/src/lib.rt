//! What kernels mean: the numbers that their types hold, what expressions give, and how statements end, over whole numbers and with everything that is undefined.
//! The meaning is a definition, in `specs/`; `laws` and the modules beside it say what holds of it.
#![tactic(auto)]

pub mod laws;
pub mod part_laws;
mod profile;
pub mod profile_laws;
pub mod range_laws;
pub mod read_laws;
pub mod size_laws;
pub mod worked_laws;

pub use profile::Profile;
