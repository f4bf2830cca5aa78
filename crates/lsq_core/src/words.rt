//! Sets of small numbers, one bit each, looked through word by word.

ghost use Rattle.std.specs.Prelude.{◌≡◌, ◌*◌, ◌^◌, ◌<◌, ◌≤◌, length, get_or, IfOk};
ghost use Rattle.lsq_core.specs.Bits.{IsNext, IsSet, HasNoneIn};

use net_types::Memory;
use std::alloc::Global;
use std::marker::Model;

/// How many bits a word has.
pub(crate) const WORD: usize = 64;

/// A set of numbers below a bound, without a note of where its words are empty.
#[derive(Drop)]
pub(crate) struct Words {
    words: Vec<u64>,
}

impl Model for Words {
    ghost use Rattle.std.specs.Prelude.{ℕ, List};
    ghost use Rattle.std.specs.Coded.{coded_list, coded_ℕ};

    ghost Value = { List ℕ };

    ghost coded = { coded_list coded_ℕ };

    ghost view = { λ b. b.words.items };
}

impl Words {
    /// No number, and room for those below 64 times so many.
    pub(crate) fn new(alloc: Global, words: usize) -> Result<Words, Memory>
        ensures { IfOk result (λ b. HasNoneIn words b) }
    {
        Ok(Words {
            words: vec![in alloc; 0; words]?,
        })
    }

    /// How many words it has: there is room for the numbers below 64 times so many.
    #[inline(always)]
    pub(crate) fn count(&self) -> usize
        ensures { result ≡ length self.now }
    {
        self.words.len()
    }

    /// One of its words: the 64 numbers from 64 times its own on.
    #[inline(always)]
    pub(crate) fn word(&self, at: usize) -> u64
        requires { at < length self.now }
        ensures { result ≡ get_or self.now at 0 }
    {
        self.words.as_slice()[at]
    }

    /// Puts a number into the set or takes it out.
    #[inline(always)]
    pub(crate) fn set(&mut self, at: usize, within: bool)
        requires { at < 64 * length self.old }
        ensures { IsSet at within self.old self.new }
    {
        let word = self.words.as_slice()[at / WORD];
        let bit = 1 << (at % WORD);
        let new = if within { word | bit } else { word & !bit };
        self.words[at / WORD] = new;
    }

    /// The least number of the set from one place on, or the other where there is none below it.
    pub(crate) fn next(&self, from: usize, to: usize) -> usize
        requires order { from ≤ to }
        requires within { to ≤ 64 * length self.now }
        requires small { to ≤ 2 ^ 60 }
        ensures { IsNext self.now from to result }
    {
        let words = self.words.as_slice();
        let mut at = from;
        while at < to {
            let rest = words[at / WORD] >> (at % WORD);
            if rest != 0 {
                return to.min(at + rest.trailing_zeros() as usize);
            }
            at = (at / WORD + 1) * WORD;
        }
        to
    }
}
