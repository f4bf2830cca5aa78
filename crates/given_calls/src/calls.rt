//! Calls of the program on files in memory.
use anyhow::{Result, bail, ensure};
use el_io::{Gate, MemFiles, MemSink};
use elastic_top::top;
use std::alloc::{AllocError, Global};
use std::thread::Threads;

/// How many bytes an output takes.
pub const ROOM: u64 = 1_000_000;

/// What a call comes to: its status, and what was written to the output and to the error output.
pub struct Answered {
    pub code: u8,
    pub out: MemSink,
    pub err: MemSink,
}

// By hand, so that to let go of one is a call.
impl Drop for Answered {
    fn drop(self) {
        let Answered {
            code: _code,
            out: _out,
            err: _err,
        } = self;
    }
}

/// Which calls of the devices fail, by their numbers from 0, and how many bytes the output takes at once.
#[derive(Clone, Copy)]
pub struct Failing {
    pub read: Option<u64>,
    pub piece: u64,
    pub put: Option<u64>,
    pub told: Option<u64>,
}

/// Sound devices, whose output takes all at once.
pub const SOUND: Failing = Failing {
    read: None,
    piece: ROOM,
    put: None,
    told: None,
};

/// The answer of the call of these words, with spaces between them, on these files, whose workers ask a gate.
pub fn answer<R: Threads + Sync, G: Gate + Sync>(
    rt: &R,
    alloc: Global,
    words: &str,
    files: &mut MemFiles,
    failing: &Failing,
    gate: &G,
) -> Result<Answered> {
    if let Some(call) = failing.read {
        if files.fail_at(call).is_err() {
            bail!("want of memory");
        }
    }
    let mut answered = unanswered(alloc, failing)?;
    call(rt, alloc, words, files, &mut answered, gate)?;
    Ok(answered)
}

/// An answer to which nothing is written yet, on outputs that may fail.
fn unanswered(alloc: Global, failing: &Failing) -> Result<Answered> {
    Ok(Answered {
        code: 0,
        out: sink(alloc, failing.piece, failing.put)?,
        err: sink(alloc, ROOM, failing.told)?,
    })
}

/// Makes the call of these words, and writes its answer.
fn call<R: Threads + Sync, G: Gate + Sync>(
    rt: &R,
    alloc: Global,
    words: &str,
    files: &mut MemFiles,
    answered: &mut Answered,
    gate: &G,
) -> Result<()> {
    let given = parted(alloc, words)?;
    let (out, err) = (&mut answered.out, &mut answered.err);
    answered.code = top(rt, alloc, &given, files, out, err, gate).code;
    Ok(())
}

/// Words with spaces between them.
pub fn parted(alloc: Global, words: &str) -> Result<Vec<String>, AllocError> {
    let mut given = Vec::new(alloc);
    for word in words.split(' ') {
        if !word.is_empty() {
            given.push(String::from_str(alloc, word)?)?;
        }
    }
    Ok(given)
}

/// Adds a file.
pub fn add_file(files: &mut MemFiles, name: &str, content: &[u8]) -> Result<()> {
    match files.add(name, content) {
        Ok(()) => Ok(()),
        Err(_) => bail!("want of memory"),
    }
}

/// An output that takes all at once and never fails.
pub fn sound_sink(alloc: Global) -> Result<MemSink> {
    sink(alloc, SOUND.piece, SOUND.put)
}

/// An output that takes so many bytes at once, and fails at a call.
fn sink(alloc: Global, piece: u64, failing: Option<u64>) -> Result<MemSink> {
    ensure!(piece > 0, "a piece has bytes");
    let mut sink = MemSink::new(alloc, piece);
    if sink.reserve(ROOM).is_err() {
        bail!("want of memory");
    }
    if let Some(call) = failing {
        if sink.fail_at(call).is_err() {
            bail!("want of memory");
        }
    }
    Ok(sink)
}
