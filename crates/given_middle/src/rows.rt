//! The files of rows and what their lines are.
use crate::circuits::{put_graph, put_kernel};
use crate::ends::put_both;
use crate::exprs::Places;
use crate::forms::put_form;
use crate::passes::{put_copied, put_folded, put_merged, put_optimized, put_selected};
use crate::walks::{put_arguments, put_walk};
use anyhow::{Result, bail};
use row_fields::Output;
use std::alloc::Global;
use std::thread::Threads;

/// What the lines of a file are, after the first, which says so in words.
#[derive(Clone, Copy, Debug, PartialEq, Eq)]
pub enum Rows {
    /// A kernel, whose normal form is printed.
    Forms(Places),
    /// A kernel and inputs, for a walk along its block graph.
    Walks,
    /// A kernel, the arguments of whose blocks are counted.
    Arguments,
    /// Turns, a kernel and inputs, for the plain interpreter.
    Programs,
    /// A kernel and inputs, for a run of its circuit.
    Circuits,
    /// What it is, a block graph and inputs, for a run of its circuit.
    Graphs,
    /// What it is, a block graph and inputs, for merging and for a run of the merged graph's circuit.
    Merged,
    /// What it is, a block graph and inputs, for folding and for a run of the folded graph's circuit.
    Folded,
    /// What it is, what a block may weigh, a block graph and inputs, for selecting and for a run of that graph's circuit.
    Selected,
    /// The same for copied joins.
    Copied,
    /// A kernel and inputs, for its block graph and for a run of that graph's circuit.
    Optimized,
}

/// The files, in the order in which they are answered.
pub const FILES: [(&str, Rows); 13] = [
    ("forms.tsv", Rows::Forms(Places::Hidden)),
    ("places.tsv", Rows::Forms(Places::Written)),
    ("walks.tsv", Rows::Walks),
    ("live.tsv", Rows::Arguments),
    ("programs.tsv", Rows::Programs),
    ("worked.tsv", Rows::Programs),
    ("circuits.tsv", Rows::Circuits),
    ("graphs.tsv", Rows::Graphs),
    ("merged.tsv", Rows::Merged),
    ("folded.tsv", Rows::Folded),
    ("selected.tsv", Rows::Selected),
    ("copied.tsv", Rows::Copied),
    ("optimized.tsv", Rows::Optimized),
];

impl Rows {
    /// Writes the answers to the lines of a text after its first, one a line.
    pub fn put_answers<R: Threads + Sync>(
        self,
        rt: &R,
        alloc: Global,
        text: &str,
        out: &mut Output,
    ) -> Result<()> {
        for line in text.lines().skip(1) {
            self.put_answer(rt, alloc, line, out)?;
            out.word("\n");
        }
        Ok(())
    }

    /// Writes the answer to a line.
    fn put_answer<R: Threads + Sync>(
        self,
        rt: &R,
        alloc: Global,
        line: &str,
        out: &mut Output,
    ) -> Result<()> {
        let fields: Vec<&str> = line.split('\t').collect(alloc)?;
        self.put_fields(rt, alloc, fields.as_slice(), out)
    }

    /// Writes the answer to the fields of a line.
    fn put_fields<R: Threads + Sync>(
        self,
        rt: &R,
        alloc: Global,
        fields: &[&str],
        out: &mut Output,
    ) -> Result<()> {
        match (self, fields) {
            (Rows::Forms(places), [kernel]) => put_form(alloc, kernel, places, out),
            (Rows::Walks, [kernel, inputs]) => put_walk(alloc, kernel, inputs, out),
            (Rows::Arguments, [kernel]) => put_arguments(alloc, kernel, out),
            (Rows::Programs, [turns, kernel, inputs]) => {
                put_both(alloc, turns.parse()?, kernel, inputs, out)
            }
            (Rows::Circuits, [kernel, inputs]) => put_kernel(rt, alloc, kernel, inputs, out),
            (Rows::Graphs, [_, graph @ .., inputs]) => put_graph(rt, alloc, graph, inputs, out),
            (Rows::Merged, [_, graph @ .., inputs]) => put_merged(rt, alloc, graph, inputs, out),
            (Rows::Folded, [_, graph @ .., inputs]) => put_folded(rt, alloc, graph, inputs, out),
            (Rows::Selected, [_, most, graph @ .., inputs]) => {
                put_selected(rt, alloc, most.parse()?, graph, inputs, out)
            }
            (Rows::Copied, [_, most, graph @ .., inputs]) => {
                put_copied(rt, alloc, most.parse()?, graph, inputs, out)
            }
            (Rows::Optimized, [kernel, inputs]) => put_optimized(rt, alloc, kernel, inputs, out),
            (rows, _) => bail!("a line of {rows:?} of other fields"),
        }
    }
}
