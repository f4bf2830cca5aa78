//! The files of rows and what their lines are.
use crate::inputs::put_reading;
use crate::kernels::put_kernel;
use crate::lists::put_list;
use crate::nets::put_verdict;
use crate::operations::put_result;
use crate::pairs::put_whole;
use crate::queues::put_run;
use crate::repeats::text_of;
use crate::trees::put_returned;
use crate::words::put_words;
use anyhow::Result;
use el_base::{MAX_KERNEL_BYTES, MAX_NETLIST_BYTES};
use row_fields::{Output, text_within};
use std::alloc::Global;

/// What the lines of a file are, after the first, which says so in words.
#[derive(Clone, Copy, Debug, PartialEq, Eq)]
pub enum Rows {
    /// A kernel text.
    Kernels,
    /// A kernel text whose tokens are printed.
    Words,
    /// Two binary operators.
    Pairs,
    /// A kernel text whose one statement returns an expression, which is printed with its types.
    Trees,
    /// A kernel text that repeats a piece, in parts.
    Repeats,
    /// A net text.
    Nets,
    /// An operation's name, its first operand, and its second or nothing.
    Operations,
    /// An array, a queue and a list of acts.
    Queues,
    /// A net text and the text of its inputs.
    Inputs,
    /// A list of words, each after a tab.
    Lists,
}

/// The files, in the order in which they are answered.
pub const FILES: [(&str, Rows); 17] = [
    ("kernels.tsv", Rows::Kernels),
    ("guide.tsv", Rows::Kernels),
    ("lexer.tsv", Rows::Kernels),
    ("words.tsv", Rows::Words),
    ("parser.tsv", Rows::Kernels),
    ("pairs.tsv", Rows::Pairs),
    ("types.tsv", Rows::Kernels),
    ("trees.tsv", Rows::Trees),
    ("repeats.tsv", Rows::Repeats),
    ("nets.tsv", Rows::Nets),
    ("nets2.tsv", Rows::Nets),
    ("marked.tsv", Rows::Nets),
    ("edited.tsv", Rows::Nets),
    ("operations.tsv", Rows::Operations),
    ("queues.tsv", Rows::Queues),
    ("inputs.tsv", Rows::Inputs),
    ("lists.tsv", Rows::Lists),
];

/// What the lines of the file of this name are.
pub fn rows_of(file: &str) -> Option<Rows> {
    for (name, rows) in FILES {
        if name == file {
            return Some(rows);
        }
    }
    None
}

impl Rows {
    /// Writes the answers to the lines of a text after its first, one a line.
    pub fn answer(self, alloc: Global, text: &str, out: &mut Output) -> Result<()> {
        for line in text.lines().skip(1) {
            self.put_answer(alloc, line, out)?;
            out.word("\n");
        }
        Ok(())
    }

    /// Writes the answer to a line.
    fn put_answer(self, alloc: Global, line: &str, out: &mut Output) -> Result<()> {
        match self {
            Rows::Kernels | Rows::Words | Rows::Trees | Rows::Nets => {
                self.put_field(alloc, line, out)
            }
            Rows::Repeats => {
                let text = text_of(alloc, line)?;
                put_kernel(alloc, text.as_slice(), out)
            }
            Rows::Pairs => put_whole(alloc, line, out),
            Rows::Operations => put_result(alloc, line, out),
            Rows::Queues => put_run(alloc, line, out),
            Rows::Inputs => put_reading(alloc, line, out),
            Rows::Lists => put_list(alloc, line, out),
        }
    }

    /// Writes the answer to a line of one field, the text of a net or of a kernel.
    fn put_field(self, alloc: Global, line: &str, out: &mut Output) -> Result<()> {
        let most = if self == Rows::Nets {
            MAX_NETLIST_BYTES
        } else {
            MAX_KERNEL_BYTES
        };
        let text = text_within(alloc, line, most)?;
        match self {
            Rows::Nets => put_verdict(alloc, text.as_slice(), out),
            Rows::Words => put_words(alloc, text.as_slice(), out),
            Rows::Trees => put_returned(alloc, text.as_slice(), out),
            _ => put_kernel(alloc, text.as_slice(), out),
        }
    }
}
