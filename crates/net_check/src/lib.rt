//! The rules that a net keeps, what a broken rule names, and checked nets.
//!
//! All eight rules are defined in `specs/`, each with its culprit. `check_net` tries them in the order C8, C7, C1,
//! C2, C3, C4, C5, C6, and makes a `Checked` of a net that keeps them all.
#![tactic(auto)]

mod checked;
mod controls;
mod cycles;
mod ends;
mod firsts;
mod headers;
mod joins;
mod laws;
mod marks;
mod matches;
mod pins;
mod places;
mod refusal;
mod retiming;
mod shapes;
mod sizes;
mod widths;
mod wires;

pub use checked::{Checked, check_net};
pub use headers::check_header;
pub use laws::{
    a_net_has_one_refusal, all_rules_make_a_checked_net, channels_end_at_units,
    cycles_are_endless_walks, slots_and_delays_break_two_rules,
};
pub use matches::check_widths;
pub use pins::Pins;
pub use refusal::{At, NetRefusal};
pub use retiming::Change;
pub use shapes::check_shapes;
pub use sizes::check_sizes;
