//! Programs of helper functions and a kernel: what their calls mean, and the tree without calls that is one with them.
//! The meaning is a definition, in `specs/`; `laws` says what holds of it.
#![tactic(auto)]

pub mod laws;
