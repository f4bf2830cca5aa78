//! Workers: each fires the units of a net that it owns, and logs its firings with stamps.
#![tactic(auto)]

mod acting;
mod base;
mod channel_ends;
mod crossing;
mod crossing_parts;
mod crossing_turns;
mod end_places;
mod ends;
mod giving;
mod handing;
mod inner;
mod laws;
mod looking;
mod making;
mod parts;
mod passes;
mod places;
mod portion;
mod portion_acts;
mod portion_moves;
mod portion_plans;
mod ready;
mod settle;
mod skips;
mod spans;
mod sweep;
mod swept;
mod tables;
mod viewing;
mod waiting;
mod waking;
mod worker;

pub use firing_log::{Entries, Entry};
pub use laws::{
    idle_rests, local_fires, local_looks, made_fires, made_holds, made_keeps, made_looks,
    merged_ascends, merged_logs_run, merged_merges, more_handed_out, one_credit_more,
    one_entry_more, one_take_more, rest_is_shared, sees_fires, worker_may, workers_agree,
    workers_gather,
};
pub use swept::Swept;
pub use tables::Tables;
pub use worker::Worker;
