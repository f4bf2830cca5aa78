//! The adapters over the real files and streams. They tell nothing of content.
ghost use Rattle.std.specs.Prelude.{◌≡◌, ◌≢◌, ◌<◌, ◌≤◌, [], IfErr, IfOk, IsOk, Ok, Err, length};
ghost use Rattle.std.specs.Io.KnownBytes.{Consumes, IsAtEnd, WriteAppends};
ghost use Rattle.el_io.specs.Hosts.{Passes, host_counts, host_counts_after, left_in};
ghost use Rattle.el_io.specs.declared.files.Got.TheVariants as got;
ghost use Rattle.el_io.specs.declared.files.FileFail.TheVariants as fail;

use crate::files::{FileFail, Files, Got};
use crate::sink::{Sink, SinkFail};
use std::fs;
use std::io::{self, Read, Write};

/// The real files.
#[derive(Drop)]
pub struct HostFiles<R: std::rt::Files> {
    rt: R,
    faults: u64,
    longs: u64,
    long: u64,
}

impl<R: std::rt::Files> HostFiles<R> {
    /// The files that the handle reaches, with nothing counted yet.
    pub fn new(rt: R) -> HostFiles<R>
        ensures faults { ⟦<HostFiles<R> as Files>⟧.faults result ≡ 0 }
        ensures longs { ⟦<HostFiles<R> as Files>⟧.longs result ≡ 0 }
        ensures long { ⟦<HostFiles<R> as Files>⟧.long result ≡ 0 }
    {
        HostFiles {
            rt,
            faults: 0,
            longs: 0,
            long: 0,
        }
    }

    // Reads what was opened where it has at most `max` bytes, and else nothing, and counts how that ended.
    // What could not be opened is a failure.
    fn read_opened<F: Read>(
        &mut self,
        opened: &mut io::Result<F>,
        max: u64,
        into: &mut Vec<u8>,
    ) -> Result<Got, FileFail>
        requires { into.old.items ≡ [] }
        ensures unopened { IfErr opened.old (λ _. result ≡ Err fail.Failed) }
        ensures bound { result ≡ Ok got.Whole → length into.new.items ≤ max }
        ensures bytes { result ≡ Ok got.Whole → Consumes (left_in F.remaining opened.old)
            (left_in F.remaining opened.new) into.new.items }
        ensures end { result ≡ Ok got.Whole → IsAtEnd (left_in F.remaining opened.new) }
        ensures longer { result ≡ Ok got.Longer
            → Passes (left_in F.remaining opened.old) (left_in F.remaining opened.new) max }
        ensures nothing { result ≢ Ok got.Whole → into.new.items ≡ [] }
        ensures counts { host_counts self.new
            ≡ host_counts_after (host_counts self.old) max result }
        ensures faults { (host_counts self.old).faults ≤ (host_counts self.new).faults }
        ensures longs { (host_counts self.old).longs ≤ (host_counts self.new).longs }
    {
        match opened {
            Ok(file) => {
                let ended = read_whole(file, max, into);
                self.count(ended, max)
            }
            Err(_) => self.count(Err(FileFail::Failed), max),
        }
    }

    // Counts how a read of at most `max` bytes ended.
    fn count(&mut self, ended: Result<Got, FileFail>, max: u64) -> Result<Got, FileFail>
        ensures same { result ≡ ended }
        ensures counts { host_counts self.new
            ≡ host_counts_after (host_counts self.old) max result }
        ensures faults { (host_counts self.old).faults ≤ (host_counts self.new).faults }
        ensures longs { (host_counts self.old).longs ≤ (host_counts self.new).longs }
    {
        match ended {
            Ok(Got::Whole) | Err(FileFail::Memory) => {}
            Ok(Got::Longer) => {
                self.longs = self.longs.saturating_add(1);
                self.long = max;
            }
            Err(FileFail::Failed) => self.faults = self.faults.saturating_add(1),
        }
        ended
    }
}

impl<R: std::rt::Files> Files for HostFiles<R> {
    ghost use Rattle.std.specs.Prelude.{None};

    ghost holds = { λ s name. None };

    ghost faults = { λ s. s.faults };

    ghost longs = { λ s. s.longs };

    ghost long = { λ s. s.long };

    ghost steady = { λ s. ⊥ };

    fn read(&mut self, name: &str, max: u64, into: &mut Vec<u8>) -> Result<Got, FileFail> {
        let mut opened = fs::open(&self.rt, name);
        self.read_opened(&mut opened, max, into)
    }
}

// Reads the file where it has at most `max` bytes, and else nothing.
fn read_whole<F: Read>(file: &mut F, max: u64, into: &mut Vec<u8>) -> Result<Got, FileFail>
    requires { into.old.items ≡ [] }
    ensures bound { result ≡ Ok got.Whole → length into.new.items ≤ max }
    ensures bytes { result ≡ Ok got.Whole
        → Consumes (F.remaining file.old) (F.remaining file.new) into.new.items }
    ensures end { result ≡ Ok got.Whole → IsAtEnd (F.remaining file.new) }
    ensures longer { result ≡ Ok got.Longer
        → Passes (F.remaining file.old) (F.remaining file.new) max }
    ensures nothing { result ≢ Ok got.Whole → into.new.items ≡ [] }
{
    let ended = read_up_to(file, max, into);
    if ended != Ok(Got::Whole) {
        into.clear();
    }
    ended
}

// Reads to the end of the file, or one byte more than `max`.
fn read_up_to<F: Read>(file: &mut F, max: u64, into: &mut Vec<u8>) -> Result<Got, FileFail>
    requires { into.old.items ≡ [] }
    ensures bound { result ≡ Ok got.Whole → length into.new.items ≤ max }
    ensures past { result ≡ Ok got.Longer → max < length into.new.items }
    ensures bytes { IsOk result
        → Consumes (F.remaining file.old) (F.remaining file.new) into.new.items }
    ensures end { result ≡ Ok got.Whole → IsAtEnd (F.remaining file.new) }
{
    let mut buf = [0u8; 4096];
    while into.len() as u64 <= max {
        let missing = max - into.len() as u64;
        let want = missing.saturating_add(1).min(4096) as usize;
        let Ok(n) = file.read(&mut buf[..want]) else {
            return Err(FileFail::Failed);
        };
        if n == 0 {
            return Ok(Got::Whole);
        }
        if into.extend_from_slice(&buf[..n]).is_err() {
            return Err(FileFail::Memory);
        }
    }
    Ok(Got::Longer)
}

/// A real stream, as standard output.
#[derive(Drop)]
pub struct HostSink<W: Write + Drop> {
    inner: W,
    faults: u64,
}

impl<W: Write + Drop> HostSink<W> {
    /// The sink over this stream, with nothing counted yet.
    pub fn new(inner: W) -> HostSink<W>
        ensures faults { ⟦<HostSink<W> as Sink>⟧.faults result ≡ 0 }
    {
        HostSink { inner, faults: 0 }
    }
}

impl<W: Write + Drop> Sink for HostSink<W> {
    ghost use Rattle.std.specs.Prelude.{◌≡◌, ◌≤◌, None, IfOk, OnErr};
    ghost use Rattle.std.specs.Io.KnownBytes.{WriteAppends};
    ghost use Rattle.el_io.specs.Outside.{Rose, IsTaken};
    ghost use Rattle.el_io.specs.Hosts.{stream_of, put_faults};

    ghost written = { λ s. None };

    ghost faults = { put_faults };

    fn put(&mut self, bytes: &[u8]) -> Result<usize, SinkFail>
        // The stream got as many bytes as are answered.
        ensures handed { WriteAppends (W.contents (stream_of self.old))
            (W.contents (stream_of self.new)) result bytes.now }
        ensures taken { IfOk result (λ n. IsTaken None None bytes.now n) }
        ensures failed { OnErr result (Rose (put_faults self.old) (put_faults self.new)) }
        ensures later { put_faults self.old ≤ put_faults self.new }
    {
        let taken = hand_on(&mut self.inner, bytes);
        if taken.is_err() {
            self.faults = self.faults.saturating_add(1);
        }
        taken
    }
}

// Hands bytes to the stream in one write.
fn hand_on<W: Write>(stream: &mut W, bytes: &[u8]) -> Result<usize, SinkFail>
    ensures handed { WriteAppends (W.contents stream.old) (W.contents stream.new) result bytes.now }
    ensures within { IfOk result (λ n. n ≤ length bytes.now) }
    ensures some { IfOk result (λ n. 0 < length bytes.now → 0 < n) }
{
    if bytes.is_empty() {
        return Ok(0);
    }
    match stream.write(bytes) {
        Ok(n) if n > 0 => Ok(n),
        _ => Err(SinkFail::Failed),
    }
}
