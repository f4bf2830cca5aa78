//! What a link carries.
ghost use Rattle.std.specs.Prelude.{◌<◌, ◌≤◌, ◌^◌};
ghost use Rattle.elastic_link.specs.Credits.{IsStamp, IsCredit};

use rtrb::Protocol;

/// A value with the stamp of the firing that put it.
#[derive(Clone, Copy, PartialEq, Eq)]
pub struct Token {
    pub value: u64,
    pub stamp: u64,
}

/// So many credits, one or more, with the stamp of the last firing that they stand for.
#[derive(Clone, Copy, PartialEq, Eq)]
pub struct Credit {
    pub count: u64,
    pub stamp: u64,
}

/// The rule of a ring of tokens.
#[derive(Clone, Copy)]
pub struct Stamped;

impl Protocol<Token> for Stamped {
    ghost allows = { λ before token. IsStamp token.stamp };
}

/// The rule of a ring of credits.
#[derive(Clone, Copy)]
pub struct Counted;

impl Protocol<Credit> for Counted {
    ghost allows = { λ before credit. IsCredit credit };
}
