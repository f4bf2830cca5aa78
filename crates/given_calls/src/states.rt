//! States that are saved and gone on from.
use crate::calls::SOUND;
use crate::tries::{answer_on, put_call_with};
use anyhow::{Result, bail};
use el_io::Open;
use row_fields::Output;
use std::alloc::Global;
use std::thread::Threads;

/// Writes the status of a call of `save`, and what a call of `resume` answers on the same files, where what the first printed is
/// the file p.
pub fn put_resumed<R: Threads + Sync>(
    rt: &R,
    alloc: Global,
    fields: &[&str],
    out: &mut Output,
) -> Result<()> {
    let [save, resume, files @ ..] = fields else {
        bail!("a line is the words of two calls, and files");
    };
    let saved = answer_on(rt, alloc, save, files, &SOUND, &Open)?;
    out.number(saved.code);
    out.word("\t");
    put_call_with(rt, alloc, resume, files, ("p", saved.out.bytes()), out)
}
