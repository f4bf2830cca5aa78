//! The words of acts in a schedule.
ghost use Rattle.std.specs.Prelude.{◌≡◌, ◌<◌, ◌^◌, MatchOption, SomeIff};
ghost use Rattle.net_types.specs.Order.{ActFits};
ghost use Rattle.net_replay.specs.Words.{act_of, has_number, word_text};

use net_types::Act;

/// The word of an act.
#[derive(Clone, Copy)]
pub(crate) enum ActWord {
    Go,
    From,
    Send,
    Alloc,
    Addr,
    Data,
    Exec,
    Reply,
    Retire,
    End,
}

/// All words.
pub(crate) const ACT_WORDS: [ActWord; 10] = [
    ActWord::Go,
    ActWord::From,
    ActWord::Send,
    ActWord::Alloc,
    ActWord::Addr,
    ActWord::Data,
    ActWord::Exec,
    ActWord::Reply,
    ActWord::Retire,
    ActWord::End,
];

impl ActWord {
    /// The word with the byte that follows it in a line: a space where a number follows, else a line feed.
    pub fn text(self) -> &'static [u8]
        ensures { result.now ≡ word_text self }
    {
        match self {
            ActWord::Go => b"go\n",
            ActWord::From => b"from ",
            ActWord::Send => b"send ",
            ActWord::Alloc => b"alloc ",
            ActWord::Addr => b"addr ",
            ActWord::Data => b"data ",
            ActWord::Exec => b"exec ",
            ActWord::Reply => b"reply ",
            ActWord::Retire => b"retire\n",
            ActWord::End => b"end\n",
        }
    }

    /// Whether a number follows the word.
    pub fn has_number(self) -> bool
        ensures { result ≡ has_number self }
    {
        match self {
            ActWord::Go => false,
            ActWord::From => true,
            ActWord::Send => true,
            ActWord::Alloc => true,
            ActWord::Addr => true,
            ActWord::Data => true,
            ActWord::Exec => true,
            ActWord::Reply => true,
            ActWord::Retire => false,
            ActWord::End => false,
        }
    }

    /// The act of the word and of a number; `None` where the number does not fit.
    pub fn act(self, number: u64) -> Option<Act>
        ensures { MatchOption result (ActFits (act_of self number) → ⊥)
            (λ a. (a ≡ act_of self number) × ActFits a) }
    {
        match self {
            ActWord::Go => Some(Act::Go),
            ActWord::From => Some(Act::From(small(number)?)),
            ActWord::Send => Some(Act::Send(small(number)?)),
            ActWord::Alloc => Some(Act::Alloc(small(number)?)),
            ActWord::Addr => Some(Act::Addr(small(number)?)),
            ActWord::Data => Some(Act::Data(small(number)?)),
            ActWord::Exec => Some(Act::Exec(number)),
            ActWord::Reply => Some(Act::Reply(small(number)?)),
            ActWord::Retire => Some(Act::Retire),
            ActWord::End => Some(Act::End),
        }
    }
}

/// A number that is below 2^32.
pub(crate) fn small(number: u64) -> Option<u32>
    ensures { SomeIff result (number < 2 ^ 32) number }
{
    u32::try_from(number).ok()
}
