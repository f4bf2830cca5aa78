//! The files of rows and what their lines are.
use crate::asked::{Asked, put_asked};
use crate::links::put_calls;
use crate::timings::{put_placed, put_retimed};
use anyhow::{Result, bail};
use row_fields::Output;
use std::alloc::Global;
use std::thread::Threads;

/// What the lines of a file are, after the first, which says so in words.
#[derive(Clone, Copy, Debug, PartialEq, Eq)]
pub enum Rows {
    /// A net and inputs, for a run by the plain runner.
    Runs,
    /// A net, inputs and a schedule.
    Replays,
    /// A net and inputs, for a run by cycles.
    Cycles,
    /// A net and a timing.
    Places,
    /// A net and changes of its channels.
    Changes,
    /// The slots of a link, and calls on its two ends in one thread.
    Links,
    /// A net and inputs, how many workers, a limit, and the workers that sweep, in turn, with spaces between their numbers.
    Sweeps,
    /// A net and inputs, and a limit for one worker alone.
    Alone,
    /// A net and inputs, and how many entries each worker that meets logs at least, with spaces between these numbers.
    Meetings,
}

/// The files, in the order in which they are answered.
pub const FILES: [(&str, Rows); 9] = [
    ("runs.tsv", Rows::Runs),
    ("replays.tsv", Rows::Replays),
    ("cycles.tsv", Rows::Cycles),
    ("places.tsv", Rows::Places),
    ("changes.tsv", Rows::Changes),
    ("links.tsv", Rows::Links),
    ("sweeps.tsv", Rows::Sweeps),
    ("alone.tsv", Rows::Alone),
    ("meetings.tsv", Rows::Meetings),
];

impl Rows {
    /// Writes the answers to the lines of a text after its first, one a line.
    pub fn put_answers<R: Threads + Sync>(
        self,
        rt: &R,
        alloc: Global,
        text: &str,
        out: &mut Output,
    ) -> Result<()> {
        for line in text.lines().skip(1) {
            self.put_answer(rt, alloc, line, out)?;
            out.word("\n");
        }
        Ok(())
    }

    /// Writes the answer to a line.
    fn put_answer<R: Threads + Sync>(
        self,
        rt: &R,
        alloc: Global,
        line: &str,
        out: &mut Output,
    ) -> Result<()> {
        let fields: Vec<&str> = line.split('\t').collect(alloc)?;
        self.put_fields(rt, alloc, fields.as_slice(), out)
    }

    /// Writes the answer to the fields of a line.
    fn put_fields<R: Threads + Sync>(
        self,
        rt: &R,
        alloc: Global,
        fields: &[&str],
        out: &mut Output,
    ) -> Result<()> {
        match (self, fields) {
            (Rows::Places, [net, timing]) => put_placed(alloc, net, timing, out),
            (Rows::Changes, [net, changes]) => put_retimed(alloc, net, changes, out),
            (Rows::Links, [slots, calls]) => put_calls(alloc, slots, calls, out),
            (rows, [net, inputs, rest @ ..]) => {
                put_asked(rt, alloc, net, inputs, rows.asked(rest)?, out)
            }
            (rows, _) => bail!("a line of {rows:?} of other fields"),
        }
    }

    /// What the fields of a line behind its net and its inputs ask for.
    fn asked<'a>(self, fields: &[&'a str]) -> Result<Asked<'a>> {
        match (self, fields) {
            (Rows::Runs, []) => Ok(Asked::Run),
            (Rows::Cycles, []) => Ok(Asked::Cycles),
            (Rows::Replays, [schedule]) => Ok(Asked::Replay(*schedule)),
            (Rows::Sweeps, [count, limit, turns]) => Ok(Asked::Sweeps {
                count: count.parse()?,
                limit: limit.parse()?,
                turns: *turns,
            }),
            (Rows::Alone, [limit]) => Ok(Asked::Alone {
                limit: limit.parse()?,
            }),
            (Rows::Meetings, [least]) => Ok(Asked::Meetings { least: *least }),
            (rows, _) => bail!("a line of {rows:?} of other fields"),
        }
    }
}
