//! A sink in memory.
ghost use Rattle.std.specs.Prelude.{◌≡◌, ◌∷◌, ◌++◌, ◌<◌, ◌≤◌, ◌↔◌, [], length, max, take, IfOk, IsErr, IsTrue, OnErr, OnOk};
ghost use Rattle.el_io.specs.Memories.{MemorySink, refuses, after_put, after_refused_put};

use crate::sink::{Sink, SinkFail};
use el_base::Memory;
use std::alloc::Global;
use std::marker::Model;

/// A sink in memory that takes at most `piece` bytes a call, into room that was reserved before.
#[derive(Drop)]
pub struct MemSink {
    piece: u64,
    bytes: Vec<u8>,
    room: u64,
    failing: Vec<u64>,
    calls: u64,
    faults: u64,
}

impl Model for MemSink {
    ghost use Rattle.std.specs.Prelude.{◌+◌, ◌<◌, ◌≤◌, vec_capacity, vec_len};
    ghost use Rattle.el_io.specs.Memories.{MemorySink, memory_sink_code};

    ghost Value = { MemorySink };

    ghost coded = { memory_sink_code };

    ghost view = { λ s. record {
      written = s.bytes.items;
      piece = s.piece;
      room = s.room;
      failing = s.failing.items;
      calls = s.calls;
      faults = s.faults;
    } };

    ghost invariant = { λ s. (0 < s.piece) × (vec_len s.bytes + s.room ≤ vec_capacity s.bytes) };
}

impl MemSink {
    /// A sink that takes at most `piece` bytes in one put, without room yet.
    pub fn new(alloc: Global, piece: u64) -> MemSink
        requires { 0 < piece }
        ensures { result ≡ record {
          written = [];
          piece = piece;
          room = 0;
          failing = [];
          calls = 0;
          faults = 0;
        } }
    {
        MemSink {
            piece,
            bytes: Vec::new(alloc),
            room: 0,
            failing: Vec::new(alloc),
            calls: 0,
            faults: 0,
        }
    }

    /// Makes room for at least `bytes` bytes more.
    pub fn reserve(&mut self, bytes: u64) -> Result<(), Memory>
        ensures ok { OnOk result (self.new ≡ record self.old { room = max self.old.room bytes }) }
        ensures err { OnErr result (self.new ≡ self.old) }
    {
        self.bytes.reserve(bytes as usize)?;
        self.room = self.room.max(bytes);
        Ok(())
    }

    /// Makes the put of this number fail; puts are counted from 0.
    pub fn fail_at(&mut self, call: u64) -> Result<(), Memory>
        ensures ok { OnOk result
            (self.new ≡ record self.old { failing = self.old.failing ++ call ∷ [] }) }
        ensures err { OnErr result (self.new ≡ self.old) }
    {
        self.failing.push(call)?;
        Ok(())
    }

    /// The bytes so far.
    pub fn bytes(&self) -> &[u8]
        ensures { result.now ≡ self.now.written }
    {
        self.bytes.as_slice()
    }
}

impl Sink for MemSink {
    ghost use Rattle.std.specs.Prelude.{Some};
    ghost use Rattle.std.specs.Io.KnownBytes.{append_known};
    ghost use Rattle.el_io.specs.Outside.{Rose, IsTaken};

    ghost written = { λ s. Some s.written };

    ghost faults = { λ s. s.faults };

    fn put(&mut self, bytes: &[u8]) -> Result<usize, SinkFail>
        // It fails exactly for a call that was named, or without room.
        ensures refused { IsErr result ↔ IsTrue (refuses self.old bytes.now) }
        ensures put { IfOk result (λ n. (n ≡ length (take self.old.piece bytes.now))
            × (self.new ≡ after_put self.old bytes.now)) }
        ensures err { OnErr result (self.new ≡ after_refused_put self.old) }
        ensures taken { IfOk result (λ n.
            IsTaken (Some self.old.written) (Some self.new.written) bytes.now n) }
        ensures later { self.old.faults ≤ self.new.faults }
    {
        let call = self.calls;
        self.calls = call.saturating_add(1);
        let piece = &bytes[..bytes.len().min(self.piece as usize)];
        let size = piece.len() as u64;
        if self.failing.contains(&call) || self.room < size {
            self.faults = self.faults.saturating_add(1);
            return Err(SinkFail::Failed);
        }
        self.bytes.extend_from_slice(piece).unwrap();
        self.room -= size;
        Ok(piece.len())
    }
}
