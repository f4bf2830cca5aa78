//! The options.
ghost use Rattle.std.specs.Prelude.{◌≡◌, ℕ, List, ◌++◌, ◌∷◌, Some, IfSome, IsNone};
ghost use Rattle.command_words.specs.declared.choice.Choice.{Choice};
ghost use Rattle.command_words.specs.Tables.{choice_word, kind_of, choices_of, is_in, is_own, class_word, least_delay};

use crate::verb::Verb;
use el_base::{MAX_FIRINGS, MAX_SLOTS, MAX_WORKERS};

/// The units that may stand in a row without a delay between them, the greatest number that may be asked.
pub const MAX_UNITS_IN_A_ROW: u64 = 1_000;

/// An option.
#[derive(Clone, Copy, PartialEq, Eq)]
pub enum Choice {
    Delay,
    Slots,
    Depth,
    Workers,
    Limit,
    Turns,
    At,
    Count,
    Cycles,
    Log,
    Forward,
    Wrap,
}

/// What the value of an option is.
#[derive(Clone, Copy, PartialEq, Eq)]
pub enum ValueKind {
    /// There is none.
    Flag,
    /// A number from the first to the second.
    Number(u64, u64),
    /// A list of delays.
    Delays,
}

/// A class of units that have a delay.
#[derive(Clone, Copy, PartialEq, Eq)]
pub enum Class {
    Logic,
    Mul,
    Div,
    Read,
    Lsq,
}

/// All classes.
pub const CLASSES: [Class; 5] = [
    Class::Logic,
    Class::Mul,
    Class::Div,
    Class::Read,
    Class::Lsq,
];

impl Class {
    /// The word of the class.
    pub fn word(self) -> &'static str
        ensures { result.now ≡ class_word self }
    {
        match self {
            Class::Logic => "logic",
            Class::Mul => "mul",
            Class::Div => "div",
            Class::Read => "read",
            Class::Lsq => "lsq",
        }
    }

    /// The least delay that it may have, in cycles.
    pub fn least_delay(self) -> u64
        ensures { result ≡ least_delay self }
    {
        match self {
            Class::Logic | Class::Mul | Class::Div | Class::Read => 0,
            Class::Lsq => 1,
        }
    }
}

/// The delay of a class, in cycles.
#[derive(Clone, Copy, PartialEq, Eq)]
pub struct ClassDelay {
    pub class: Class,
    pub cycles: u64,
}

/// All options.
pub const CHOICES: [Choice; 12] = [
    Choice::Delay,
    Choice::Slots,
    Choice::Depth,
    Choice::Workers,
    Choice::Limit,
    Choice::Turns,
    Choice::At,
    Choice::Count,
    Choice::Cycles,
    Choice::Log,
    Choice::Forward,
    Choice::Wrap,
];

impl Choice {
    /// The word of the option.
    pub fn word(self) -> &'static str
        ensures { result.now ≡ choice_word self }
    {
        match self {
            Choice::Delay => "--delay",
            Choice::Slots => "--slots",
            Choice::Depth => "--depth",
            Choice::Workers => "--workers",
            Choice::Limit => "--limit",
            Choice::Turns => "--turns",
            Choice::At => "--at",
            Choice::Count => "--count",
            Choice::Cycles => "--cycles",
            Choice::Log => "--log",
            Choice::Forward => "--forward",
            Choice::Wrap => "--wrap",
        }
    }

    /// What its value is.
    pub fn kind(self) -> ValueKind
        ensures { result ≡ kind_of self }
    {
        match self {
            Choice::Delay => ValueKind::Delays,
            Choice::Slots => ValueKind::Number(1, u64::from(MAX_SLOTS)),
            Choice::Depth => ValueKind::Number(1, MAX_UNITS_IN_A_ROW),
            Choice::Workers => ValueKind::Number(1, u64::from(MAX_WORKERS)),
            Choice::Limit | Choice::Turns => ValueKind::Number(1, MAX_FIRINGS),
            Choice::At => ValueKind::Number(0, MAX_FIRINGS),
            Choice::Count | Choice::Cycles | Choice::Log => ValueKind::Flag,
            Choice::Forward | Choice::Wrap => ValueKind::Flag,
        }
    }

    /// Whether it is an option of the command.
    pub fn is_own(self, verb: Verb) -> bool
        ensures { result ≡ is_own verb self }
    {
        self.is_in(choices(verb))
    }

    fn is_in(self, choices: &[Choice]) -> bool
        ensures { result ≡ is_in self choices.now }
    {
        choices.iter().any(|choice| self.word() == choice.word())
    }
}

/// The options of a command.
pub fn choices(verb: Verb) -> &'static [Choice]
    ensures { result.now ≡ choices_of verb }
{
    match verb {
        Verb::Compile => &[
            Choice::Delay,
            Choice::Slots,
            Choice::Depth,
            Choice::Forward,
            Choice::Wrap,
        ],
        Verb::Go => &[
            Choice::Delay,
            Choice::Slots,
            Choice::Depth,
            Choice::Workers,
            Choice::Limit,
            Choice::Count,
            Choice::Cycles,
            Choice::Forward,
            Choice::Wrap,
        ],
        Verb::Run => &[
            Choice::Workers,
            Choice::Limit,
            Choice::Count,
            Choice::Cycles,
            Choice::Log,
        ],
        Verb::Replay | Verb::Bench | Verb::Upgrade => &[],
        Verb::Ref => &[Choice::Wrap, Choice::Turns, Choice::Count],
        Verb::Save => &[Choice::At],
        Verb::Resume => &[Choice::Limit, Choice::Count],
    }
}
