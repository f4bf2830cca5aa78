//! The files of rows and what their lines are.
use crate::kernels::{put_agreement, put_count};
use crate::processes::put_process;
use crate::states::put_resumed;
use crate::tries::{Told, put_failing, put_long, put_try};
use crate::workers::{put_meeting, put_replayed, put_stopped};
use anyhow::Result;
use row_fields::Output;
use std::alloc::Global;
use std::thread::Threads;

/// What the lines of a file are, after the first, which says so in words.
#[derive(Clone, Copy)]
pub enum Rows {
    /// The words of a call, and files.
    Calls(Told),
    /// Which calls of the devices fail, the words of a call, and files.
    Faults,
    /// A kernel, inputs, and the results by C.
    Kernels,
    /// The words of a call on a kernel, the beginning of a line, and the kernel.
    Lines,
    /// The words of a call, a long file, and other files.
    Limits,
    /// The worker that a gate stops, and at which question, the words of a call, and files.
    Gates,
    /// The words of a call by two workers that meet, and files.
    Meetings,
    /// The words of a run that writes its schedule, and files.
    Replays,
    /// The error that a host hands over, or none and its words, and files.
    Processes,
    /// The words of a call of `save`, those of a call of `resume` of what it printed, and files.
    Resumed,
}

/// The files, in the order in which they are answered.
pub const FILES: [(&str, Rows); 20] = [
    ("calls.tsv", Rows::Calls(Told::Whole)),
    ("schedules.tsv", Rows::Calls(Told::Whole)),
    ("runs.tsv", Rows::Calls(Told::Whole)),
    ("nets.tsv", Rows::Calls(Told::Whole)),
    ("interpreted.tsv", Rows::Calls(Told::Whole)),
    ("circuits.tsv", Rows::Calls(Told::AfterCircuit)),
    ("bench.tsv", Rows::Calls(Told::Whole)),
    ("saved.tsv", Rows::Calls(Told::Whole)),
    ("resumed.tsv", Rows::Resumed),
    ("faults.tsv", Rows::Faults),
    ("kernels.tsv", Rows::Kernels),
    ("rules.tsv", Rows::Kernels),
    ("quotients.tsv", Rows::Kernels),
    ("loops.tsv", Rows::Kernels),
    ("lines.tsv", Rows::Lines),
    ("limits.tsv", Rows::Limits),
    ("gates.tsv", Rows::Gates),
    ("meetings.tsv", Rows::Meetings),
    ("replays.tsv", Rows::Replays),
    ("processes.tsv", Rows::Processes),
];

impl Rows {
    /// Writes the answer to a line.
    pub fn put_answer<R: Threads + Sync>(
        self,
        rt: &R,
        alloc: Global,
        line: &str,
        out: &mut Output,
    ) -> Result<()> {
        let fields: Vec<&str> = line.split('\t').collect(alloc)?;
        self.put_fields(rt, alloc, fields.as_slice(), out)
    }

    /// Writes the answer to the fields of a line.
    fn put_fields<R: Threads + Sync>(
        self,
        rt: &R,
        alloc: Global,
        fields: &[&str],
        out: &mut Output,
    ) -> Result<()> {
        match self {
            Rows::Calls(told) => put_try(rt, alloc, fields, told, out),
            Rows::Faults => put_failing(rt, alloc, fields, out),
            Rows::Kernels => put_agreement(rt, alloc, fields, out),
            Rows::Lines => put_count(rt, alloc, fields, out),
            Rows::Limits => put_long(rt, alloc, fields, out),
            Rows::Gates => put_stopped(rt, alloc, fields, out),
            Rows::Meetings => put_meeting(rt, alloc, fields, out),
            Rows::Replays => put_replayed(rt, alloc, fields, out),
            Rows::Resumed => put_resumed(rt, alloc, fields, out),
            Rows::Processes => put_process(rt, alloc, fields, out),
        }
    }
}
