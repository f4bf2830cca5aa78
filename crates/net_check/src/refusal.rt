//! What a net is refused for.
ghost use Rattle.std.specs.Prelude.{◌≡◌, ◌+◌, ◌^◌, ◌<◌};
ghost use Rattle.net_check.specs.Refusals.{refusal_number, refusal_word, refusal_at, rule_word};
ghost use Rattle.net_check.specs.private.Rules.{rule_number};

use net_types::Memory;
use thiserror::Error;

/// What a broken rule names: a unit or a channel, by its number, or the net as a whole.
#[derive(Clone, Copy, Debug, PartialEq, Eq)]
pub enum At {
    Unit(u32),
    Chan(u32),
    Net,
}

/// Why a net is refused.
#[derive(Clone, Copy, Debug, PartialEq, Eq, Error)]
pub enum NetRefusal {
    /// The first broken rule, by its number from 30 for C1 to 37 for C8, and what it names.
    #[error("the net breaks rule {word}", word = rule_word(*.rule))]
    Rule { rule: u32, at: At },
    /// Memory ran out.
    #[error("out of memory")]
    Memory,
}

impl NetRefusal {
    /// The number of the broken rule, from 30 for C1 to 37 for C8; `None` for want of memory.
    pub fn number(&self) -> Option<u32>
        ensures { result ≡ refusal_number self.now }
    {
        match self {
            NetRefusal::Rule { rule, .. } => Some(*rule),
            NetRefusal::Memory => None,
        }
    }

    /// The printed word of the broken rule, `C1` to `C8`; `Memory` for want of memory.
    pub fn word(&self) -> &'static str
        ensures { result.now ≡ refusal_word self.now }
    {
        match self {
            NetRefusal::Rule { rule, .. } => rule_word(*rule),
            NetRefusal::Memory => "Memory",
        }
    }

    /// What the broken rule names; `None` for want of memory.
    pub fn at(&self) -> Option<At>
        ensures { result ≡ refusal_at self.now }
    {
        match self {
            NetRefusal::Rule { at, .. } => Some(*at),
            NetRefusal::Memory => None,
        }
    }
}

impl From<Memory> for NetRefusal {
    ghost use Rattle.net_check.specs.declared.refusal.NetRefusal.TheVariants as refusal;

    ghost from_gives = { λ _ e. e ≡ refusal.Memory };

    fn from(_: Memory) -> NetRefusal {
        NetRefusal::Memory
    }
}

/// The printed word of the rule of this number; `Rule` where there is none.
fn rule_word(rule: u32) -> &'static str
    ensures { result.now ≡ rule_word rule }
{
    match rule {
        30 => "C1",
        31 => "C2",
        32 => "C3",
        33 => "C4",
        34 => "C5",
        35 => "C6",
        36 => "C7",
        37 => "C8",
        _ => "Rule",
    }
}

/// A rule of nets.
#[derive(Clone, Copy)]
pub(crate) enum Rule {
    C1,
    C2,
    C3,
    C4,
    C5,
    C6,
    C7,
    C8,
}

impl Rule {
    /// The number that a refusal has.
    pub(crate) fn number(self) -> u32
        ensures { result ≡ 29 + rule_number self }
    {
        match self {
            Rule::C1 => 30,
            Rule::C2 => 31,
            Rule::C3 => 32,
            Rule::C4 => 33,
            Rule::C5 => 34,
            Rule::C6 => 35,
            Rule::C7 => 36,
            Rule::C8 => 37,
        }
    }
}

/// The unit of this number.
pub(crate) fn unit_at(unit: usize) -> At
    requires { unit < 2 ^ 32 }
    ensures { result ≡ At.Unit unit }
{
    At::Unit(unit as u32)
}

/// The channel of this number.
pub(crate) fn chan_at(chan: usize) -> At
    requires { chan < 2 ^ 32 }
    ensures { result ≡ At.Chan chan }
{
    At::Chan(chan as u32)
}
