//! Where firings may be enabled.

ghost use Rattle.std.specs.Prelude.{◌+◌, ◌*◌, ◌<◌, IfSome};
ghost use Rattle.net_core.specs.States.{IsOf};

use crate::skips::held_control;
use net_check::Checked;
use net_core::{Change, Plan, State, Takes};

/// How many words of marks there are, of 64 marks each.
const WORDS: usize = 1024;

/// How many words of tops there are: a top for each word of marks.
const TOPS: usize = 16;

/// Marks at units. A mark stands for one unit, or for 2^shift neighbours where there are more than 65,536 units.
///
/// Marks say where to look first, and no contract says where they stand: who finds nothing there looks at all units.
#[derive(Drop)]
pub(crate) struct Marks {
    words: [u64; WORDS],
    /// A bit for each word, set where the word has a mark.
    tops: [u64; TOPS],
    /// The mark from which on the next one is looked for.
    at: usize,
    shift: u32,
    /// The channel for control on which a token was put last.
    control: u32,
}

impl Marks {
    /// A mark at each unit of a net.
    pub(crate) fn new(net: &Checked, state: &State) -> Marks
        requires { IsOf net.now state.now }
    {
        let count = net.net().units.as_slice().len();
        let mut marks = Marks {
            words: [0; WORDS],
            tops: [0; TOPS],
            at: 0,
            shift: (usize::BITS - count.leading_zeros()).saturating_sub(16) % 32,
            control: held_control(net, state),
        };
        for unit in 0..count {
            marks.mark(unit as u32);
        }
        marks
    }

    /// Marks a unit.
    pub(crate) fn mark(&mut self, unit: u32) {
        let mark = (unit >> (self.shift % 32)) as usize;
        let word = mark / 64 % WORDS;
        self.words[word] |= 1 << (mark % 64);
        self.tops[word / 64] |= 1 << (word % 64);
    }

    /// Marks where a firing that was made by this plan can have let another one be enabled: at its unit where that has a
    /// queue or a token is left where one was taken, at the source of a channel that was full, and at the target of one
    /// that was empty.
    pub(crate) fn wake(&mut self, net: &Checked, state: &State, unit: u32, plan: Plan)
        requires { IsOf net.now state.now }
    {
        if let Change::Act { .. } = plan.change {
            self.mark(unit);
        }
        match plan.takes {
            Takes::None => {}
            Takes::One(p) => self.wake_by_take(net, state, unit, p),
            Takes::Two(p, q) => {
                self.wake_by_take(net, state, unit, p);
                self.wake_by_take(net, state, unit, q);
            }
            Takes::Three(p, q, r) => {
                self.wake_by_take(net, state, unit, p);
                self.wake_by_take(net, state, unit, q);
                self.wake_by_take(net, state, unit, r);
            }
        }
        if let Some(put) = plan.put {
            self.wake_by_put(net, state, unit, put.place);
        }
    }

    /// Marks the unit where the channel into a place still has a token, and the channel's source where it was full.
    fn wake_by_take(&mut self, net: &Checked, state: &State, unit: u32, place: u64)
        requires { IsOf net.now state.now }
    {
        let chans = net.net().chans.as_slice();
        let number = net.into_place(unit, place);
        if (number as usize) < chans.len() {
            let chan = &chans[number as usize];
            let held = state.held(net, number);
            if held > 0 {
                self.mark(unit);
            }
            if held.saturating_add(1) >= chan.slots {
                self.mark(chan.from.unit);
            }
        }
    }

    /// Marks the target of the channel out of a place where the channel was empty, and notes the channel where it is for control.
    fn wake_by_put(&mut self, net: &Checked, state: &State, unit: u32, place: u64)
        requires { IsOf net.now state.now }
    {
        let chans = net.net().chans.as_slice();
        let number = net.out_of_place(unit, place);
        if (number as usize) >= chans.len() {
            return;
        }
        let chan = &chans[number as usize];
        if chan.ctl {
            self.control = number;
        }
        if state.held(net, number) <= 1 {
            self.mark(chan.to.unit);
        }
    }

    /// Takes away the next mark, going round, and gives its number; `None` where there is no mark.
    pub(crate) fn take(&mut self) -> Option<usize>
        ensures { IfSome result (λ mark. mark < 65536) }
    {
        let mark = self.next()?;
        let word = mark / 64;
        self.words[word] &= !(1 << (mark % 64));
        if self.words[word] == 0 {
            self.tops[word / 64] &= !(1 << (word % 64));
        }
        self.at = mark + 1;
        Some(mark)
    }

    /// The next mark, going round.
    fn next(&self) -> Option<usize>
        ensures { IfSome result (λ mark. mark < 65536) }
    {
        let word = self.at / 64 % WORDS;
        let rest = from_bit(self.words[word], self.at % 64);
        if rest != 0 {
            return Some(lowest(word, rest));
        }
        let word = self.word_after(word)?;
        Some(lowest(word, self.words[word]))
    }

    /// The next word after a word that has a mark, going round.
    fn word_after(&self, word: usize) -> Option<usize>
        requires { word < 1024 }
        ensures { IfSome result (λ next. next < 1024) }
    {
        let top = word / 64;
        let rest = from_bit(self.tops[top] & !(1 << (word % 64)), word % 64);
        if rest != 0 {
            return Some(lowest(top, rest));
        }
        for step in 1..TOPS + 1 {
            let next = (top + step) % TOPS;
            if self.tops[next] != 0 {
                return Some(lowest(next, self.tops[next]));
            }
        }
        None
    }

    /// The channel for control on which a token was put last.
    pub(crate) fn control(&self) -> u32 {
        self.control
    }

    /// The first unit of a mark.
    pub(crate) fn first(&self, mark: usize) -> usize {
        mark << (self.shift % 32)
    }

    /// How many units a mark stands for.
    pub(crate) fn width(&self) -> usize {
        1 << (self.shift % 32)
    }
}

/// The bits of a word from one on.
fn from_bit(word: u64, bit: usize) -> u64
    requires { bit < 64 }
{
    word >> bit << bit
}

/// The number of the lowest bit that is set, where those of this word follow those of the words before it.
fn lowest(word: usize, bits: u64) -> usize
    requires { word < 1024 }
    ensures { result < word * 64 + 64 }
{
    word * 64 + (bits.trailing_zeros() % 64) as usize
}
