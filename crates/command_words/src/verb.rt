//! The commands.
ghost use Rattle.std.specs.Prelude.{◌≡◌, Some, IfSome, IsNone};
ghost use Rattle.command_words.specs.Tables.{verb_word, plain_of};
ghost use Rattle.command_words.specs.declared.verb.Verb.{Verb};

use el_base::{MAX_INPUTS_BYTES, MAX_KERNEL_BYTES, MAX_NETLIST_BYTES, MAX_SCHEDULE_BYTES};

/// A command.
#[derive(Clone, Copy, PartialEq, Eq)]
pub enum Verb {
    Compile,
    Go,
    Run,
    Replay,
    Bench,
    Upgrade,
    Ref,
    Save,
    Resume,
}

/// What a plain word of a command is.
#[derive(Clone, Copy, PartialEq, Eq)]
pub enum PlainKind {
    /// The name of a file, and how many bytes it has at most.
    File(u64),
    /// A number below 2^64.
    Seed,
}

const KERNEL: PlainKind = PlainKind::File(MAX_KERNEL_BYTES);

const INPUTS: PlainKind = PlainKind::File(MAX_INPUTS_BYTES);

const NETLIST: PlainKind = PlainKind::File(MAX_NETLIST_BYTES);

const SCHEDULE: PlainKind = PlainKind::File(MAX_SCHEDULE_BYTES);

const SNAPSHOT: PlainKind = PlainKind::File(MAX_NETLIST_BYTES);

/// All commands.
pub const VERBS: [Verb; 9] = [
    Verb::Compile,
    Verb::Go,
    Verb::Run,
    Verb::Replay,
    Verb::Bench,
    Verb::Upgrade,
    Verb::Ref,
    Verb::Save,
    Verb::Resume,
];

impl Verb {
    /// The word of the command.
    pub fn word(self) -> &'static str
        ensures { result.now ≡ verb_word self }
    {
        match self {
            Verb::Compile => "compile",
            Verb::Go => "go",
            Verb::Run => "run",
            Verb::Replay => "replay",
            Verb::Bench => "bench",
            Verb::Upgrade => "upgrade",
            Verb::Ref => "ref",
            Verb::Save => "save",
            Verb::Resume => "resume",
        }
    }

    /// The command of this word; `None` where it is the word of none.
    pub fn of_word(word: &str) -> Option<Verb>
        ensures named { IfSome result (λ v. verb_word v ≡ word.now) }
        ensures every { (v : Verb) → verb_word v ≡ word.now → result ≡ Some v }
    {
        for verb in VERBS {
            if verb.word() == word {
                return Some(verb);
            }
        }
        None
    }

    /// What its plain words are, in order.
    pub fn plain(self) -> &'static [PlainKind]
        ensures { result.now ≡ plain_of self }
    {
        match self {
            Verb::Compile => &[KERNEL],
            Verb::Go => &[KERNEL, INPUTS],
            Verb::Run => &[NETLIST, INPUTS],
            Verb::Replay => &[NETLIST, INPUTS, SCHEDULE],
            Verb::Bench => &[PlainKind::Seed],
            Verb::Upgrade => &[NETLIST],
            Verb::Ref => &[KERNEL, INPUTS],
            Verb::Save => &[NETLIST, INPUTS],
            Verb::Resume => &[NETLIST, SNAPSHOT],
        }
    }
}
