//! The text of a net: printed in version 2, and read in versions 1 and 2.
#![tactic(auto)]

mod body;
mod laws;
mod lines;
mod pieces;
mod printer;
mod read_pieces;
mod read_units;
mod reader;
mod refusal;
mod units;
mod version;

pub use laws::{net_texts_have_one_answer, one_net_per_text};
pub use pieces::{put_bytes, put_line, put_numbers};
pub use printer::print;
pub use read_pieces::{after, cut, parts, read_u64};
pub use reader::read;
pub use refusal::TextRefusal;
