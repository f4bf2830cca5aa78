//! Calls by workers that a gate stops or lets meet, and schedules of workers that are replayed.
use crate::calls::{Answered, SOUND};
use crate::gates::Stop;
use crate::tries::{Told, answer_on, parted, put_answered, put_call_with, put_parts};
use anyhow::{Context, Result, bail};
use el_io::Open;
use meeting_gate::Meeting;
use row_fields::Output;
use std::alloc::Global;
use std::thread::Threads;

/// Writes what a call answers where the gate answers false to a worker, or to all, from a question on, counted from 1.
pub fn put_stopped<R: Threads + Sync>(
    rt: &R,
    alloc: Global,
    fields: &[&str],
    out: &mut Output,
) -> Result<()> {
    let [worker, question, words, files @ ..] = fields else {
        bail!("a line is a worker, a question, the words of a call, and files");
    };
    let (only, open) = stop_of(worker, question).context("a worker or all, and a question from 1")?;
    let gate = Stop::new(alloc, only, open)?;
    let answered = answer_on(rt, alloc, words, files, &SOUND, &gate)?;
    put_answered(alloc, &answered, Told::Whole, out)
}

/// The worker that is stopped, none for all, and how many questions come before.
fn stop_of(worker: &str, question: &str) -> Option<(Option<u32>, u32)> {
    let question: u32 = question.parse().ok()?;
    let open = question.checked_sub(1)?;
    if worker == "all" {
        return Some((None, open));
    }
    Some((Some(worker.parse().ok()?), open))
}

/// Writes what a call by two workers answers that meet at a gate, and whether they met.
pub fn put_meeting<R: Threads + Sync>(
    rt: &R,
    alloc: Global,
    fields: &[&str],
    out: &mut Output,
) -> Result<()> {
    let [words, files @ ..] = fields else {
        bail!("a line is the words of a call, and files");
    };
    let gate = Meeting::new(alloc, 2)?;
    let answered = answer_on(rt, alloc, words, files, &SOUND, &gate)?;
    put_answered(alloc, &answered, Told::Whole, out)?;
    out.word("\t");
    out.word(gate.outcome());
    Ok(())
}

/// Writes what a run answers whose words ask for its schedule, but for that schedule, and what its replay answers on the same
/// files.
pub fn put_replayed<R: Threads + Sync>(
    rt: &R,
    alloc: Global,
    fields: &[&str],
    out: &mut Output,
) -> Result<()> {
    let [words, files @ ..] = fields else {
        bail!("a line is the words of a run, and files");
    };
    let run = answer_on(rt, alloc, words, files, &SOUND, &Open)?;
    put_run_and_replay(rt, alloc, files, &run, out)
}

/// The same of a run that has answered.
fn put_run_and_replay<R: Threads + Sync>(
    rt: &R,
    alloc: Global,
    files: &[&str],
    run: &Answered,
    out: &mut Output,
) -> Result<()> {
    let (results, schedule) = parted(run.out.bytes())?.context("no schedule")?;
    put_parts(alloc, run.code, results, run.err.bytes(), out)?;
    out.word("\t");
    put_call_with(rt, alloc, "replay n i s", files, ("s", schedule), out)
}
