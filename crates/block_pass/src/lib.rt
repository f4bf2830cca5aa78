//! What passes over block graphs keep: finished runs without strays on inputs that fit, stored arrays, and that values stay
//! in their widths. Laws: passes go on from one to the next, and a pass may go block by block.
#![tactic(auto)]

mod copying;
mod laws;

pub use copying::{copy_block, copy_blocks, copy_edge};
pub use ir::{Block, Memory};
pub use laws::{
    block_by_block, blocks_go_on, merged_graphs_pass, passes_go_on, values_stay_in_widths,
    visits_are_light,
};
