//! Sets of small numbers, one bit each.

ghost use Rattle.std.specs.Prelude.{◌≡◌, ◌*◌, ◌/◌, ◌^◌, ◌<◌, ◌≤◌, length, get_or, IfOk};
ghost use Rattle.lsq_core.specs.Bits.{IsNext, IsSet, HasNoneIn, Covers, CoversOthers};

use crate::words::{WORD, Words};
use net_types::Memory;
use std::alloc::Global;
use std::marker::Model;

/// So many words are looked at one after another.
pub(crate) const FEW_WORDS: usize = 8;

/// A set of numbers below a bound.
///
/// Of more than a few words it is noted which have a number, so that a search passes over 64 empty ones at a time.
#[derive(Drop)]
pub struct Bits {
    words: Words,
    filled: Words,
}

impl Model for Bits {
    ghost use Rattle.std.specs.Prelude.{ℕ, List};
    ghost use Rattle.std.specs.Coded.{coded_list, coded_ℕ};
    ghost use Rattle.lsq_core.specs.Bits.{Covers};

    ghost Value = { List ℕ };

    ghost coded = { coded_list coded_ℕ };

    ghost view = { λ b. b.words };

    ghost invariant = { λ b. Covers b.words b.filled };
}

impl Bits {
    /// No number, and room for those below 64 times so many.
    pub fn new(alloc: Global, words: usize) -> Result<Bits, Memory>
        ensures { IfOk result (λ b. HasNoneIn words b) }
    {
        let noted = if words > FEW_WORDS {
            words / WORD + 1
        } else {
            0
        };
        Ok(Bits {
            words: Words::new(alloc, words)?,
            filled: Words::new(alloc, noted)?,
        })
    }

    /// How many words it has: there is room for the numbers below 64 times so many.
    pub fn words(&self) -> usize
        ensures { result ≡ length self.now }
    {
        self.words.count()
    }

    /// One of its words: the 64 numbers from 64 times its own on.
    #[inline(always)]
    pub(crate) fn word(&self, at: usize) -> u64
        requires { at < length self.now }
        ensures { result ≡ get_or self.now at 0 }
    {
        self.words.word(at)
    }

    /// Puts a number into the set or takes it out.
    #[inline(always)]
    pub fn set(&mut self, at: usize, within: bool)
        requires { at < 64 * length self.old }
        ensures { IsSet at within self.old self.new }
    {
        self.words.set(at, within);
        note(&mut self.filled, &self.words, at / WORD);
    }

    /// The least number of the set from one place on, or the other where there is none below it.
    #[inline(always)]
    pub fn next(&self, from: usize, to: usize) -> usize
        requires order { from ≤ to }
        requires within { to ≤ 64 * length self.now }
        requires small { to ≤ 2 ^ 60 }
        ensures { IsNext self.now from to result }
    {
        if self.filled.count() == 0 {
            self.words.next(from, to)
        } else {
            next_noted(&self.words, &self.filled, from, to)
        }
    }
}

/// Notes whether a word of a set has a number.
#[inline(always)]
fn note(filled: &mut Words, words: &Words, at: usize)
    requires covers { CoversOthers at words.now filled.old }
    requires within { at < length words.now }
    ensures { Covers words.now filled.new }
{
    if filled.count() > 0 {
        filled.set(at, words.word(at) != 0);
    }
}

/// The least number of a set from one place on, or the other where there is none below it, by the words that are noted.
fn next_noted(words: &Words, filled: &Words, from: usize, to: usize) -> usize
    requires covers { Covers words.now filled.now }
    requires noted { 0 < length filled.now }
    requires order { from ≤ to }
    requires within { to ≤ 64 * length words.now }
    requires small { to ≤ 2 ^ 60 }
    ensures { IsNext words.now from to result }
{
    let last = (to + WORD - 1) / WORD;
    let mut at = from;
    while at < to {
        let end = to.min((at / WORD + 1) * WORD);
        let found = words.next(at, end);
        if found < end {
            return found;
        }
        at = filled.next(at / WORD + 1, last) * WORD;
    }
    to
}
