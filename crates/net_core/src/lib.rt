//! States of circuits, what firings do, and the laws of runs.
//!
//! `specs/` has the definitions: a state and the table of firings (`Fire`), runs, rest and what an exit took (`Runs`), and
//! the count of control tokens (`Control`).
#![tactic(auto)]

mod acts;
mod cell;
mod channel;
mod exchange;
mod find;
mod inputs;
mod laws;
mod opening;
mod parts;
mod plan;
mod plans_at;
mod searched;
mod sent;
mod state;
mod steps;
mod tokens;

pub use acts::act_numbered;
pub use cell::{Cell, UnitQueue};
pub use channel::Channel;
pub use find::find_act_in;
pub use inputs::inputs_fit;
pub use laws::{
    completion, either_order, laws_need_rules, limit_decides, more_slots, one_token, plans_use,
    rows_use_only, settled, spent_is_at_rest, worked_nets_run,
};
pub use opening::Home;
pub use parts::Parts;
pub use plan::{
    Change, Heads, Laid, Moves, Plan, Put, Taken, Takes, into_at, moves_at, moves_of, plan_act,
    plan_branch, plan_firing, plan_from, plan_go, plan_mux, plan_one, plan_op1, plan_op2,
    plan_read, plan_select, plan_send,
};
pub use searched::Searched;
pub use sent::Sent;
pub use state::State;
pub use steps::count_strays;
