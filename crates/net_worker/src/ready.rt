//! Marks at units.
ghost use Rattle.std.specs.Prelude.{◌≡◌, ◌≤◌, ◌<◌, IfSome};

use crate::spans::Span;
use net_types::{Chan, Memory};
use std::alloc::Global;

/// A set of units, by bits, which are taken in ascending order, going round; and the channel on which control is.
///
/// It says where to look first, and no contract says what is in it: a worker that finds nothing there looks at all its units.
#[derive(Drop)]
pub struct Ready {
    /// The first unit that has a bit.
    first: usize,
    /// A bit for each unit from the first on.
    words: Vec<u64>,
    /// A bit for each word, set where the word has a bit.
    blocks: Vec<u64>,
    /// A bit for each block of 64 words, set where one of them has a bit.
    tops: Vec<u64>,
    /// The bit from which on the next one is looked for.
    at: usize,
    /// The channel for control on which a token was put last.
    control: u32,
}

/// The least bit that is set in the word of a bit, from that bit on.
#[inline(always)]
fn next_in_word(words: &[u64], bit: usize) -> Option<usize> {
    let word = bit / 64;
    if word >= words.len() {
        return None;
    }
    let rest = words[word] & (u64::MAX << (bit % 64));
    if rest == 0 {
        return None;
    }
    Some(lowest(word, rest))
}

/// The least bit of a word with this number that is not 0.
#[inline(always)]
fn lowest(number: usize, word: u64) -> usize {
    number
        .wrapping_mul(64)
        .wrapping_add(word.trailing_zeros() as usize)
}

/// The least bit of the word with this number; the first past it where there is none.
fn first_in(words: &[u64], number: usize) -> usize {
    if number < words.len() {
        lowest(number, words[number])
    } else {
        number.wrapping_mul(64)
    }
}

/// The first word from one on that has a bit.
fn next_word(words: &[u64], from: usize) -> Option<usize> {
    for number in from..words.len() {
        if words[number] != 0 {
            return Some(number);
        }
    }
    None
}

/// Sets a bit, and tells whether its word had none.
#[inline(always)]
fn set_bit(words: &mut Vec<u64>, bit: usize) -> bool {
    let word = bit / 64;
    if word >= words.len() {
        return false;
    }
    let old = words[word];
    words[word] = old | 1 << (bit % 64);
    old == 0
}

/// Takes a bit away, and tells whether its word has none now.
#[inline(always)]
fn clear_bit(words: &mut Vec<u64>, bit: usize) -> bool {
    let word = bit / 64;
    if word >= words.len() {
        return false;
    }
    let new = words[word] & !(1 << (bit % 64));
    words[word] = new;
    new == 0
}

impl Ready {
    ghost use Rattle.std.specs.Prelude.{◌≡◌, ◌≤◌, ◌<◌, IfSome};

    /// No marks, and room for those of the units of a span.
    pub(crate) fn new(alloc: Global, span: Span) -> Result<Ready, Memory> {
        let words = span.end.saturating_sub(span.first) / 64 + 1;
        let blocks = words / 64 + 1;
        Ok(Ready {
            first: span.first,
            words: vec![in alloc; 0; words]?,
            blocks: vec![in alloc; 0; blocks]?,
            tops: vec![in alloc; 0; blocks / 64 + 1]?,
            at: 0,
            control: 0,
        })
    }

    /// The channel for control on which a token was put last.
    pub(crate) fn control(&self) -> u32 {
        self.control
    }

    /// Marks a unit, where it has a bit.
    #[inline(always)]
    pub(crate) fn mark(&mut self, unit: u32) {
        let bit = (unit as usize).wrapping_sub(self.first);
        if set_bit(&mut self.words, bit) {
            self.mark_block(bit / 64);
        }
    }

    /// Sets the bits of a word that had none. It stands apart so that what marks among other marks stays small.
    #[inline(never)]
    fn mark_block(&mut self, word: usize) {
        if set_bit(&mut self.blocks, word) {
            set_bit(&mut self.tops, word / 64);
        }
    }

    /// Marks the unit to which a channel goes on which a token was put, and notes the channel where it is for control.
    #[inline(always)]
    pub(crate) fn mark_fed(&mut self, number: u32, chan: &Chan) {
        self.note(number, chan);
        self.mark(chan.to.unit);
    }

    /// Notes a channel on which a token was put, where it is for control.
    #[inline(always)]
    pub(crate) fn note(&mut self, number: u32, chan: &Chan) {
        if chan.ctl {
            self.control = number;
        }
    }

    /// Takes the mark at a bit away.
    #[inline(always)]
    fn unmark(&mut self, bit: usize) {
        if clear_bit(&mut self.words, bit) {
            self.unmark_block(bit / 64);
        }
    }

    /// Takes the bits of a word away that has no marks left.
    fn unmark_block(&mut self, word: usize) {
        if clear_bit(&mut self.blocks, word) {
            clear_bit(&mut self.tops, word / 64);
        }
    }

    /// The least marked bit from a bit on.
    #[inline(always)]
    fn next(&self, bit: usize) -> Option<usize> {
        match next_in_word(self.words.as_slice(), bit) {
            Some(bit) => Some(bit),
            None => self.next_after_word(bit / 64),
        }
    }

    /// The least marked bit past those of a word.
    #[inline(never)]
    fn next_after_word(&self, word: usize) -> Option<usize> {
        let next = match next_in_word(self.blocks.as_slice(), word.wrapping_add(1)) {
            Some(next) => next,
            None => self.word_after_block(word.wrapping_add(1) / 64)?,
        };
        Some(first_in(self.words.as_slice(), next))
    }

    /// The least word with a mark past those of a block.
    fn word_after_block(&self, block: usize) -> Option<usize> {
        let after = block.wrapping_add(1);
        let next = match next_in_word(self.tops.as_slice(), after) {
            Some(next) => next,
            None => {
                let top = next_word(self.tops.as_slice(), (after / 64).wrapping_add(1))?;
                first_in(self.tops.as_slice(), top)
            }
        };
        Some(first_in(self.blocks.as_slice(), next))
    }

    /// The next marked unit after the one that was taken last, going round, whose mark is taken away.
    pub(crate) fn take(&mut self) -> Option<u32> {
        let bit = match self.next(self.at) {
            Some(bit) => bit,
            None => self.next(0)?,
        };
        self.unmark(bit);
        self.at = bit.wrapping_add(1);
        u32::try_from(bit.wrapping_add(self.first)).ok()
    }
}
