//! Files by name.
ghost use Rattle.std.specs.Prelude.{◌≡◌, ◌≢◌, ◌≤◌, ◌↔◌, ℕ, List, [], Ok, IsErrOf, OnErr};
ghost use Rattle.el_io.specs.Outside.{Told, Rose, IsHeld, IsWhole, IsLonger};
ghost use Rattle.el_io.specs.declared.files.Got.TheVariants as got;
ghost use Rattle.el_io.specs.declared.files.FileFail.TheVariants as fail;

use el_base::Memory;

/// How a read ended.
#[derive(Clone, Copy, PartialEq, Eq)]
pub enum Got {
    /// All that the name holds was read.
    Whole,
    /// The name holds more than was asked for; nothing was read.
    Longer,
}

/// Why a read gave nothing.
#[derive(Clone, Copy, PartialEq, Eq)]
pub enum FileFail {
    /// There is no such file, or it could not be read.
    Failed,
    /// Memory ran out.
    Memory,
}

impl From<Memory> for FileFail {
    ghost use Rattle.std.specs.Prelude.{◌≡◌};
    ghost use Rattle.el_io.specs.declared.files.FileFail.TheVariants as fail;

    ghost from_gives = { λ _ e. e ≡ fail.Memory };

    fn from(_: Memory) -> FileFail {
        FileFail::Memory
    }
}

/// Files by name.
pub trait Files {
    /// What stands under a name, where the implementation tells it.
    ghost holds: { Self → List ℕ → Told };

    /// How often a read failed.
    ghost faults: { Self → ℕ };

    /// How often a file was longer than was asked.
    ghost longs: { Self → ℕ };

    /// The bound of the last read that was answered by `Longer`.
    ghost long: { Self → ℕ };

    /// Whether a read of a name that is held does not fail.
    ghost steady: { Self → Type 0 };

    /// Reads what the name holds into an empty `into`, if it is at most `max` bytes.
    fn read(&mut self, name: &str, max: u64, into: &mut Vec<u8>) -> Result<Got, FileFail>
        requires { into.old.items ≡ [] }
        // What was read is what the name holds, or the name holds more than `max` bytes, `longs` rose and `long` is `max`.
        ensures whole { result ≡ Ok got.Whole
            → IsWhole (holds self.old name.now) max into.new.items }
        ensures longer { result ≡ Ok got.Longer → IsLonger (holds self.old name.now) max
            (longs self.old) (longs self.new) (long self.new) into.new.items }

        // A failure is counted, and leaves nothing read.
        ensures failed { IsErrOf result fail.Failed → Rose (faults self.old) (faults self.new) }
        ensures empty { OnErr result (into.new.items ≡ []) }

        // Counts never fall, and `longs` and `long` change only with `Longer`.
        ensures faults_later { faults self.old ≤ faults self.new }
        ensures longs_later { longs self.old ≤ longs self.new }
        ensures longs_same { result ≢ Ok got.Longer → longs self.new ≡ longs self.old }
        ensures long_same { result ≢ Ok got.Longer → long self.new ≡ long self.old }

        // A read changes neither what is held nor whether it is steady.
        ensures holds_same { (n : List ℕ) → holds self.new n ≡ holds self.old n }
        ensures steady_same { steady self.new ↔ steady self.old }
        ensures steady_reads { (bytes : List ℕ) → steady self.old
            → IsHeld (holds self.old name.now) bytes → IsErrOf result fail.Failed → ⊥ };
}
