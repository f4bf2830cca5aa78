//! From the tokens of a kernel, or of helpers before a kernel, to their syntax tree.
//!
//! A recursive descent over the tokens that are left, linear in their number.
#![tactic(auto)]

mod bar;
mod cursor;
mod expr;
mod kernel;
mod operators;
mod params;
mod program;
mod refusal;
mod simple;
mod stmt;
mod types;

pub use kernel::{parse, tokens_have_one_tree, trees_have_the_numbers_of_their_tokens};
pub use program::{
    parse_program, programs_have_one_answer, programs_of_tokens_are_of_texts,
    tokens_have_one_program,
};
pub use refusal::ParseRefusal;
