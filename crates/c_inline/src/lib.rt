//! From a program of helpers and a kernel to the kernel without calls: which tree that is, is a definition (of `c_calls`);
//! `inline` makes it, where it is small enough.
#![tactic(auto)]

mod count;
mod inlining;
mod refusal;
mod walk;

pub use count::inlined_nodes;
pub use inlining::inline;
pub use refusal::InlineRefusal;
