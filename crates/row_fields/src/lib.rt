//! Fields of rows, in one spelling for all files of rows: texts with escapes, and numbers; and what is written for rows.
//!
//! A row is a line, and its fields stand between tabs. In a text `\n`, `\t`, `\r`, `\\` and `\xHH` stand for bytes. In a
//! list `;` stands between two items, and a space between two words of an item.
#![tactic(auto)]

mod numbers;
mod output;
mod refusal;
mod texts;

pub use numbers::numbers_of;
pub use output::Output;
pub use refusal::FieldRefusal;
pub use texts::{escaped, text_within};
