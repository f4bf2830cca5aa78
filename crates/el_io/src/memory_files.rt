//! Files in memory.
ghost use Rattle.std.specs.Prelude.{◌≡◌, ◌≢◌, ◌∷◌, ◌++◌, ℕ, List, [], Some, None, OnOk, OnErr};

use crate::files::{FileFail, Files, Got};
use el_base::Memory;
use std::alloc::Global;
use std::collections::BTreeMap;

/// Files in memory, of which some reads can be made to fail.
#[derive(Drop)]
pub struct MemFiles {
    alloc: Global,
    files: BTreeMap<String, Vec<u8>>,
    failing: Vec<u64>,
    calls: u64,
    faults: u64,
    longs: u64,
    long: u64,
}

impl MemFiles {
    ghost use Rattle.el_io.specs.Memories.{held_in, failing_reads, read_counts};

    /// No file, and no read that fails but for want of its name.
    pub fn new(alloc: Global) -> MemFiles
        ensures held { (n : List ℕ) → held_in result n ≡ None }
        ensures failing { failing_reads result ≡ [] }
        ensures counts { read_counts result
            ≡ record { calls = 0; faults = 0; longs = 0; long = 0 } }
    {
        MemFiles {
            alloc,
            files: BTreeMap::new(alloc),
            failing: Vec::new(alloc),
            calls: 0,
            faults: 0,
            longs: 0,
            long: 0,
        }
    }

    /// Puts these bytes under the name, in place of those that it had.
    pub fn add(&mut self, name: &str, bytes: &[u8]) -> Result<(), Memory>
        ensures held { OnOk result (held_in self.new name.now ≡ Some bytes.now) }
        ensures others { (n : List ℕ) → n ≢ name.now → held_in self.new n ≡ held_in self.old n }
        ensures err { OnErr result ((n : List ℕ) → held_in self.new n ≡ held_in self.old n) }
        ensures failing { failing_reads self.new ≡ failing_reads self.old }
        ensures counts { read_counts self.new ≡ read_counts self.old }
    {
        let key = String::from_str(self.alloc, name)?;
        let bytes = Vec::from_slice(self.alloc, bytes)?;
        self.files.insert(key, bytes)?;
        Ok(())
    }

    /// Makes the read of this number fail; reads are counted from 0.
    pub fn fail_at(&mut self, call: u64) -> Result<(), Memory>
        ensures ok { OnOk result (failing_reads self.new ≡ failing_reads self.old ++ call ∷ []) }
        ensures err { OnErr result (failing_reads self.new ≡ failing_reads self.old) }
        ensures held { (n : List ℕ) → held_in self.new n ≡ held_in self.old n }
        ensures counts { read_counts self.new ≡ read_counts self.old }
    {
        self.failing.push(call)?;
        Ok(())
    }
}

impl Files for MemFiles {
    ghost use Rattle.std.specs.Prelude.{◌≡◌, ◌≢◌, ◌≤◌, ◌↔◌, ℕ, List, [], Some, Ok, IsErrOf, IsTrue, OnErr};
    ghost use Rattle.el_io.specs.Memories.{held_in, failing_reads, read_counts, fails_read, counts_after};
    ghost use Rattle.el_io.specs.Outside.{Rose, IsWhole, IsLonger};
    ghost use Rattle.el_io.specs.declared.files.Got.TheVariants as got;
    ghost use Rattle.el_io.specs.declared.files.FileFail.TheVariants as fail;

    ghost holds = { λ s name. Some (held_in s name) };

    ghost faults = { λ s. s.faults };

    ghost longs = { λ s. s.longs };

    ghost long = { λ s. s.long };

    ghost steady = { λ s. failing_reads s ≡ [] };

    fn read(&mut self, name: &str, max: u64, into: &mut Vec<u8>) -> Result<Got, FileFail>
        requires { into.old.items ≡ [] }
        // It fails exactly where the call was named, or the name is not held.
        ensures fails { IsErrOf result fail.Failed ↔ IsTrue (fails_read self.old name.now) }
        ensures counts { read_counts self.new ≡ counts_after (read_counts self.old) max result }
        ensures whole { result ≡ Ok got.Whole
            → IsWhole (Some (held_in self.old name.now)) max into.new.items }
        ensures longer { result ≡ Ok got.Longer → IsLonger (Some (held_in self.old name.now)) max
            (read_counts self.old).longs (read_counts self.new).longs (read_counts self.new).long
            into.new.items }
        ensures failed { IsErrOf result fail.Failed
            → Rose (read_counts self.old).faults (read_counts self.new).faults }
        ensures empty { OnErr result (into.new.items ≡ []) }
        ensures faults_later { (read_counts self.old).faults ≤ (read_counts self.new).faults }
        ensures longs_later { (read_counts self.old).longs ≤ (read_counts self.new).longs }
        ensures longs_same { result ≢ Ok got.Longer
            → (read_counts self.new).longs ≡ (read_counts self.old).longs }
        ensures long_same { result ≢ Ok got.Longer
            → (read_counts self.new).long ≡ (read_counts self.old).long }
        ensures held_same { (n : List ℕ) → held_in self.new n ≡ held_in self.old n }
        ensures failing_same { failing_reads self.new ≡ failing_reads self.old }
    {
        let call = self.calls;
        self.calls = call.saturating_add(1);
        if self.failing.contains(&call) {
            self.faults = self.faults.saturating_add(1);
            return Err(FileFail::Failed);
        }
        match self.files.get(name) {
            None => {
                self.faults = self.faults.saturating_add(1);
                Err(FileFail::Failed)
            }
            Some(bytes) if bytes.len() as u64 > max => {
                self.longs = self.longs.saturating_add(1);
                self.long = max;
                Ok(Got::Longer)
            }
            Some(bytes) => match into.extend_from_slice(bytes.as_slice()) {
                Ok(()) => Ok(Got::Whole),
                Err(_) => Err(FileFail::Memory),
            },
        }
    }
}
