//! Sinks of bytes.
ghost use Rattle.std.specs.Prelude.{◌≡◌, ◌≤◌, ℕ, List, Option, IfOk, OnOk, OnErr};
ghost use Rattle.std.specs.Io.KnownBytes.{append_known};
ghost use Rattle.el_io.specs.Outside.{Rose, IsTaken, IsCut};

/// Why no byte was taken.
#[derive(Clone, Copy, PartialEq, Eq)]
pub enum SinkFail {
    Failed,
}

/// What takes bytes.
pub trait Sink {
    /// The bytes so far, where the implementation tells them.
    ghost written: { Self → Option (List ℕ) };

    /// How often a put failed.
    ghost faults: { Self → ℕ };

    /// Takes some first bytes, at least one where there is one, and answers how many.
    fn put(&mut self, bytes: &[u8]) -> Result<usize, SinkFail>
        ensures taken { IfOk result (λ n.
            IsTaken (written self.old) (written self.new) bytes.now n) }
        ensures failed { OnErr result (Rose (faults self.old) (faults self.new)) }
        ensures unchanged { OnErr result (written self.new ≡ written self.old) }
        ensures later { faults self.old ≤ faults self.new };
}

/// Not all bytes were written.
#[derive(Clone, Copy, Debug, PartialEq, Eq)]
pub struct WriteFault;

/// Puts until all bytes are taken; where a put fails, a proper prefix was written. Takes no memory.
pub fn write_all<S: Sink>(sink: &mut S, bytes: &[u8]) -> Result<(), WriteFault>
    ensures ok { OnOk result (S.written sink.new ≡ append_known (S.written sink.old) bytes.now) }
    ensures failed { OnErr result (Rose (S.faults sink.old) (S.faults sink.new)) }
    ensures cut { OnErr result (IsCut (S.written sink.old) (S.written sink.new) bytes.now) }
    ensures later { S.faults sink.old ≤ S.faults sink.new }
{
    let mut at = 0;
    while at < bytes.len() {
        match sink.put(&bytes[at..]) {
            Ok(n) => at += n,
            Err(SinkFail::Failed) => return Err(WriteFault),
        }
    }
    Ok(())
}
