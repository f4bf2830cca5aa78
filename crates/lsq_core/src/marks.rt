//! Which entries stand in a row, as sets of places.

ghost use Rattle.std.specs.Prelude.{◌≡◌, ℕ, ◌+◌, ◌*◌, ◌^◌, ◌<◌, ◌≤◌, ◌++◌, ◌∷◌, [], Some, false, List, length, set, max, MatchOption, IfOk};
ghost use Rattle.lsq_core.specs.declared.entry.Entry.{Entry};
ghost use Rattle.lsq_core.specs.Acts.{or_zero, rest};
ghost use Rattle.lsq_core.specs.Views.{entry_at, front_of};
ghost use Rattle.lsq_core.specs.Bits.{IsSet, IsNext};
ghost use Rattle.lsq_core.specs.Index.{bucket, row_of, stands, wrapped, HasRoom, Shows, KeepsShape, IsMarks, IsNextIn, HasNoMoreIn, IsNextRow, HasNoRow};

use crate::bits::{Bits, FEW_WORDS};
use crate::entry::Entry;
use crate::words::WORD;
use net_types::Memory;
use std::alloc::Global;

/// No machine has memory for so many bits.
const MOST_BITS: usize = 1 << 60;

/// What the entries of a row have in common.
#[derive(Clone, Copy)]
pub(crate) enum Kind {
    /// They wait for an address, at a port.
    Addr,
    /// They wait for data, at a port.
    Data,
    /// They have not replied, at a port.
    Reply,
    /// They are executed and have not replied, at a port.
    Answer,
    /// Their address is not known; of loads, or of stores.
    Blank,
    /// They have what they need to execute, and have not; of loads, or of stores.
    Ready,
    /// They are not executed and have their address; by address, of loads or of stores.
    Pending,
}

/// Sets of places in a ring of entries, one for each row.
#[derive(Drop)]
pub(crate) struct Marks {
    pub(crate) kind: Kind,
    pub(crate) rows: usize,
    pub(crate) width: usize,
    pub(crate) bits: Bits,
}

/// One of so many numbers for an address.
#[tactic(auto, unfolding(crate::specs::Index::bucket))]
fn bucket(buckets: usize, addr: u64) -> usize
    requires { 0 < buckets }
    ensures value { result ≡ bucket buckets addr }
    ensures within { result < buckets }
{
    (addr.wrapping_mul(11400714819323198485) >> 32) as usize % buckets
}

impl Kind {
    /// The row of an entry, among so many.
    #[inline(always)]
    pub(crate) fn row(self, rows: usize, entry: &Entry) -> usize
        requires { rows ≤ 2 ^ 60 }
        ensures { result ≡ row_of self rows entry.now }
    {
        let port = entry.port as usize;
        let side = if entry.store { 1 } else { 0 };
        match self {
            Kind::Addr => port,
            Kind::Data => port,
            Kind::Reply => port,
            Kind::Answer => port,
            Kind::Blank => side,
            Kind::Ready => side,
            Kind::Pending => 2 * bucket((rows / 2).max(1), entry.address()) + side,
        }
    }

    /// Whether an entry stands in its row.
    #[inline(always)]
    fn has(self, entry: &Entry) -> bool
        ensures { result ≡ stands self entry.now }
    {
        match self {
            Kind::Addr => entry.addr.is_none(),
            Kind::Data => entry.store && entry.datum.is_none(),
            Kind::Reply => !entry.store && !entry.replied,
            Kind::Answer => entry.done && !entry.store && !entry.replied,
            Kind::Blank => entry.addr.is_none(),
            Kind::Ready => entry.is_ready(),
            Kind::Pending => entry.addr.is_some() && !entry.done,
        }
    }
}

impl Marks {
    /// Sets without a place, for so many rows, of 64 times so many places each.
    ///
    /// # Errors
    ///
    /// [`Memory`] where memory is wanting, as it is for 2^60 bits.
    pub(crate) fn new(
        alloc: Global,
        kind: Kind,
        rows: usize,
        blocks: usize,
    ) -> Result<Marks, Memory>
        requires some { 0 < blocks }
        requires small { blocks ≤ 2 ^ 32 }
        ensures shape { IfOk result (λ m. IsMarks kind rows (64 * blocks) m) }
        ensures shows { IfOk result (λ m. Shows m 0 []) }
    {
        if rows > MOST_BITS / (64 * blocks) {
            return Err(Memory);
        }
        Ok(Marks {
            kind,
            rows,
            width: 64 * blocks,
            bits: Bits::new(alloc, rows * blocks)?,
        })
    }

    /// The place of the entry of a number in the ring.
    #[inline(always)]
    pub(crate) fn place(&self, head: usize, at: usize) -> usize
        requires small { self.now.width ≤ 2 ^ 60 }
        requires head { head < self.now.width }
        requires at { at < self.now.width }
        ensures { result ≡ wrapped self.now.width head at }
    {
        if head + at < self.width {
            head + at
        } else {
            head + at - self.width
        }
    }

    /// Puts a place into a row or takes it out.
    #[inline(always)]
    fn put(&mut self, place: usize, row: usize, within: bool)
        requires room { HasRoom self.old }
        requires place { place < self.old.width }
        requires row { row < self.old.rows }
        ensures shape { KeepsShape self.old self.new }
        ensures bits { IsSet (row * self.old.width + place) within self.old.bits self.new.bits }
    {
        self.bits.set(row * self.width + place, within);
    }

    /// Takes an entry out of its row, where it stands in it.
    #[inline(always)]
    fn leave(&mut self, kind: Kind, place: usize, old: &Entry)
        requires kind { self.old.kind ≡ kind }
        requires room { HasRoom self.old }
        requires place { place < self.old.width }
        requires old { row_of kind self.old.rows old.now < self.old.rows }
        ensures shape { KeepsShape self.old self.new }
        ensures bits { (head at : ℕ) (items : List Entry)
            → place ≡ wrapped self.old.width head at → at < length items
            → entry_at items at ≡ old.now → Shows self.old head items
            → IsSet (row_of kind self.old.rows old.now * self.old.width + place) false
            self.old.bits self.new.bits }
    {
        if kind.has(old) {
            let row = kind.row(self.rows, old);
            self.put(place, row, false);
        }
    }

    /// Notes that an entry changes in its row.
    #[inline(always)]
    pub(crate) fn change(&mut self, kind: Kind, place: usize, new: &Entry)
        requires kind { self.old.kind ≡ kind }
        requires room { HasRoom self.old }
        requires place { place < self.old.width }
        requires new { row_of kind self.old.rows new.now < self.old.rows }
        ensures shape { KeepsShape self.old self.new }
        ensures shows { (head at : ℕ) (items : List Entry)
            → place ≡ wrapped self.old.width head at → at < length items
            → row_of kind self.old.rows (entry_at items at) ≡ row_of kind self.old.rows new.now
            → Shows self.old head items → Shows self.new head (set items at new.now) }
    {
        let row = kind.row(self.rows, new);
        self.put(place, row, kind.has(new));
    }

    /// Notes that an entry becomes another, maybe in another row.
    #[inline(always)]
    pub(crate) fn transfer(&mut self, kind: Kind, place: usize, old: &Entry, new: &Entry)
        requires kind { self.old.kind ≡ kind }
        requires room { HasRoom self.old }
        requires place { place < self.old.width }
        requires old { row_of kind self.old.rows old.now < self.old.rows }
        requires new { row_of kind self.old.rows new.now < self.old.rows }
        ensures shape { KeepsShape self.old self.new }
        ensures shows { (head at : ℕ) (items : List Entry)
            → place ≡ wrapped self.old.width head at → at < length items
            → entry_at items at ≡ old.now
            → Shows self.old head items → Shows self.new head (set items at new.now) }
    {
        self.leave(kind, place, old);
        let row = kind.row(self.rows, new);
        self.put(place, row, kind.has(new));
    }

    /// Notes that an entry is added after the others.
    #[inline(always)]
    pub(crate) fn add(&mut self, kind: Kind, place: usize, new: &Entry)
        requires kind { self.old.kind ≡ kind }
        requires room { HasRoom self.old }
        requires place { place < self.old.width }
        requires new { row_of kind self.old.rows new.now < self.old.rows }
        ensures shape { KeepsShape self.old self.new }
        ensures shows { (head : ℕ) (items : List Entry)
            → place ≡ wrapped self.old.width head (length items) → length items < self.old.width
            → Shows self.old head items → Shows self.new head (items ++ new.now ∷ []) }
    {
        if kind.has(new) {
            let row = kind.row(self.rows, new);
            self.put(place, row, true);
        }
    }

    /// Notes that the first entry is dropped.
    #[inline(always)]
    pub(crate) fn retire(&mut self, kind: Kind, head: usize, old: &Entry)
        requires kind { self.old.kind ≡ kind }
        requires room { HasRoom self.old }
        requires head { head < self.old.width }
        requires old { row_of kind self.old.rows old.now < self.old.rows }
        ensures shape { KeepsShape self.old self.new }
        ensures shows { (items : List Entry) → front_of items ≡ Some old.now
            → Shows self.old head items
            → Shows self.new (wrapped self.old.width head 1) (rest items) }
    {
        self.leave(kind, head, old);
    }

    /// The first entry from a number on that stands in a row.
    #[inline(always)]
    pub(crate) fn next(&self, head: usize, row: usize, from: usize) -> Option<usize>
        requires room { HasRoom self.now }
        requires head { head < self.now.width }
        requires row { row < self.now.rows }
        ensures { (items : List Entry) → Shows self.now head items
            → MatchOption result (HasNoMoreIn self.now row from items)
            (λ at. IsNextIn self.now row from at items) }
    {
        if self.width == WORD {
            self.next_in_word(head, row, from)
        } else {
            self.next_in_words(head, row, from)
        }
    }

    /// The same where a row is one word, by the word turned so that the first entry has the lowest bit.
    #[inline(always)]
    fn next_in_word(&self, head: usize, row: usize, from: usize) -> Option<usize>
        requires word { self.now.width ≡ 64 }
        requires room { HasRoom self.now }
        requires head { head < self.now.width }
        requires row { row < self.now.rows }
        ensures { (items : List Entry) → Shows self.now head items
            → MatchOption result (HasNoMoreIn self.now row from items)
            (λ at. IsNextIn self.now row from at items) }
    {
        if from >= WORD {
            return None;
        }
        let rest = self.bits.word(row).rotate_right(head as u32) >> from;
        if rest == 0 {
            return None;
        }
        Some(from + rest.trailing_zeros() as usize)
    }

    /// The same where a row is many words, one after another from the place on and round the ring.
    #[inline(never)]
    fn next_in_words(&self, head: usize, row: usize, from: usize) -> Option<usize>
        requires room { HasRoom self.now }
        requires head { head < self.now.width }
        requires row { row < self.now.rows }
        ensures { (items : List Entry) → Shows self.now head items
            → MatchOption result (HasNoMoreIn self.now row from items)
            (λ at. IsNextIn self.now row from at items) }
    {
        let base = row * self.width;
        let mut at = from;
        while at < self.width {
            let place = base + self.place(head, at);
            let rest = self.bits.word(place / WORD) >> (place % WORD);
            if rest != 0 {
                let next = at + rest.trailing_zeros() as usize;
                return if next < self.width { Some(next) } else { None };
            }
            at += WORD - place % WORD;
        }
        None
    }

    /// The least row from one on, and below another, in which an entry stands.
    #[inline(always)]
    pub(crate) fn next_row(&self, from: usize, to: usize) -> Option<usize>
        requires room { HasRoom self.now }
        requires some { 0 < self.now.width }
        requires to { to ≤ self.now.rows }
        ensures { (head : ℕ) (items : List Entry) → Shows self.now head items
            → MatchOption result (HasNoRow self.now from to items)
            (λ row. IsNextRow self.now from to row items) }
    {
        if self.width == WORD && to <= FEW_WORDS {
            self.next_row_of_word(from, to)
        } else {
            self.next_row_of_words(from, to)
        }
    }

    /// The same where a row is one word.
    #[inline(always)]
    fn next_row_of_word(&self, from: usize, to: usize) -> Option<usize>
        requires word { self.now.width ≡ 64 }
        requires room { HasRoom self.now }
        requires to { to ≤ self.now.rows }
        ensures { (head : ℕ) (items : List Entry) → Shows self.now head items
            → MatchOption result (HasNoRow self.now from to items)
            (λ row. IsNextRow self.now from to row items) }
    {
        for row in from..to {
            if self.bits.word(row) != 0 {
                return Some(row);
            }
        }
        None
    }

    /// The same where a row is many words.
    #[inline(never)]
    fn next_row_of_words(&self, from: usize, to: usize) -> Option<usize>
        requires room { HasRoom self.now }
        requires some { 0 < self.now.width }
        requires to { to ≤ self.now.rows }
        ensures { (head : ℕ) (items : List Entry) → Shows self.now head items
            → MatchOption result (HasNoRow self.now from to items)
            (λ row. IsNextRow self.now from to row items) }
    {
        if from >= to {
            return None;
        }
        match self.least(from * self.width, to * self.width) {
            None => None,
            Some(at) => Some(at / self.width),
        }
    }

    /// The least place of a range that is in a set.
    fn least(&self, from: usize, to: usize) -> Option<usize>
        requires order { from ≤ to }
        requires within { to ≤ 64 * length self.now.bits }
        requires small { to ≤ 2 ^ 60 }
        ensures { MatchOption result (IsNext self.now.bits from to to)
            (λ at. (at < to) × IsNext self.now.bits from to at) }
    {
        let at = self.bits.next(from, to);
        if at < to { Some(at) } else { None }
    }
}
