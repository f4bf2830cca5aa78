//! The sets of places of all kinds, kept as entries change.

ghost use Rattle.std.specs.Prelude.{◌≡◌, ℕ, ◌+◌, ◌*◌, ◌^◌, ◌<◌, ◌≤◌, ◌++◌, ◌∷◌, [], Some, List, length, set, IfOk};
ghost use Rattle.lsq_core.specs.declared.entry.Entry.{Entry};
ghost use Rattle.lsq_core.specs.Acts.{rest, with_addr, with_data, executed, answered};
ghost use Rattle.lsq_core.specs.Wants.{changed_by};
ghost use Rattle.lsq_core.specs.Views.{entry_at, front_of};
ghost use Rattle.lsq_core.specs.Index.{row_of, wrapped, IsIndex, IsMarks, Indexes, Shows};
ghost use Rattle.lsq_core.specs.declared.marks.Kind.TheVariants as kind;

use crate::entry::{Entry, Made};
use crate::marks::{Kind, Marks};
use net_types::Memory;
use std::alloc::Global;

/// Where the entries stand that wait for something, by port and by address.
pub(crate) struct Index {
    pub(crate) addr: Marks,
    pub(crate) data: Marks,
    pub(crate) reply: Marks,
    pub(crate) answer: Marks,
    pub(crate) blank: Marks,
    pub(crate) ready: Marks,
    pub(crate) pending: Marks,
}

// By hand, so that to let go of one is a call.
impl Drop for Index {
    fn drop(self) {
        let Index {
            addr: _addr,
            data: _data,
            reply: _reply,
            answer: _answer,
            blank: _blank,
            ready: _ready,
            pending: _pending,
        } = self;
    }
}

impl Index {
    /// The sets of no entries, for so many ports and 64 times so many places.
    ///
    /// # Errors
    ///
    /// [`Memory`] where memory is wanting.
    pub(crate) fn new(alloc: Global, ports: usize, blocks: usize) -> Result<Index, Memory>
        requires some { 0 < blocks }
        requires small { blocks ≤ 2 ^ 32 }
        ensures shape { IfOk result (λ i. IsIndex ports (64 * blocks) i) }
        ensures shows { IfOk result (λ i. Indexes i 0 []) }
    {
        let (reply, answer) = two(alloc, (Kind::Reply, ports), (Kind::Answer, ports), blocks)?;
        let (addr, data) = two(alloc, (Kind::Addr, ports), (Kind::Data, ports), blocks)?;
        let (blank, ready) = two(alloc, (Kind::Blank, 2), (Kind::Ready, 2), blocks)?;
        let pending = Marks::new(alloc, Kind::Pending, 8 * blocks, blocks)?;
        Ok(Index {
            addr,
            data,
            reply,
            answer,
            blank,
            ready,
            pending,
        })
    }

    /// Notes what is made of the entry of a number.
    #[inline(always)]
    pub(crate) fn change(&mut self, head: usize, at: usize, old: &Entry, made: Made)
        ghost shape: { ℕ × ℕ }
        requires index { IsIndex shape.0 shape.1 self.old }
        requires head { head < shape.1 }
        requires at { at < shape.1 }
        requires old { old.now.port < shape.0 }
        ensures index { IsIndex shape.0 shape.1 self.new }
        ensures shows { (items : List Entry) → at < length items → entry_at items at ≡ old.now
            → Indexes self.old head items
            → Indexes self.new head (set items at (changed_by made old.now)) }
    {
        let place = self.addr.place(head, at);
        match made {
            Made::Addr(addr) => self.change_addr(place, old, addr),
            Made::Datum(datum) => self.change_datum(place, old, datum),
            Made::Done(value) => self.change_done(place, old, value),
            Made::Replied => self.change_replied(place, old),
        }
    }

    /// Notes that an entry gets its address.
    #[inline(always)]
    fn change_addr(&mut self, place: usize, old: &Entry, addr: u64)
        ghost shape: { ℕ × ℕ }
        requires index { IsIndex shape.0 shape.1 self.old }
        requires place { place < shape.1 }
        requires old { old.now.port < shape.0 }
        ensures index { IsIndex shape.0 shape.1 self.new }
        ensures shows { (head at : ℕ) (items : List Entry) → place ≡ wrapped shape.1 head at
            → at < length items → entry_at items at ≡ old.now → Indexes self.old head items
            → Indexes self.new head (set items at (with_addr addr old.now)) }
    {
        let new = old.with(Made::Addr(addr));
        self.addr.change(Kind::Addr, place, &new);
        self.blank.change(Kind::Blank, place, &new);
        self.ready.change(Kind::Ready, place, &new);
        self.pending.transfer(Kind::Pending, place, old, &new);
    }

    /// Notes that an entry gets its data.
    #[inline(always)]
    fn change_datum(&mut self, place: usize, old: &Entry, datum: u64)
        ghost shape: { ℕ × ℕ }
        requires index { IsIndex shape.0 shape.1 self.old }
        requires place { place < shape.1 }
        requires old { old.now.port < shape.0 }
        ensures index { IsIndex shape.0 shape.1 self.new }
        ensures shows { (head at : ℕ) (items : List Entry) → place ≡ wrapped shape.1 head at
            → at < length items → entry_at items at ≡ old.now → Indexes self.old head items
            → Indexes self.new head (set items at (with_data datum old.now)) }
    {
        let new = old.with(Made::Datum(datum));
        self.data.change(Kind::Data, place, &new);
        self.ready.change(Kind::Ready, place, &new);
    }

    /// Notes that an entry is executed.
    #[inline(always)]
    fn change_done(&mut self, place: usize, old: &Entry, value: u64)
        ghost shape: { ℕ × ℕ }
        requires index { IsIndex shape.0 shape.1 self.old }
        requires place { place < shape.1 }
        requires old { old.now.port < shape.0 }
        ensures index { IsIndex shape.0 shape.1 self.new }
        ensures shows { (head at : ℕ) (items : List Entry) → place ≡ wrapped shape.1 head at
            → at < length items → entry_at items at ≡ old.now → Indexes self.old head items
            → Indexes self.new head (set items at (executed value old.now)) }
    {
        let new = old.with(Made::Done(value));
        self.answer.change(Kind::Answer, place, &new);
        self.ready.change(Kind::Ready, place, &new);
        self.pending.change(Kind::Pending, place, &new);
    }

    /// Notes that an entry has replied.
    #[inline(always)]
    fn change_replied(&mut self, place: usize, old: &Entry)
        ghost shape: { ℕ × ℕ }
        requires index { IsIndex shape.0 shape.1 self.old }
        requires place { place < shape.1 }
        requires old { old.now.port < shape.0 }
        ensures index { IsIndex shape.0 shape.1 self.new }
        ensures shows { (head at : ℕ) (items : List Entry) → place ≡ wrapped shape.1 head at
            → at < length items → entry_at items at ≡ old.now → Indexes self.old head items
            → Indexes self.new head (set items at (answered old.now)) }
    {
        let new = old.with(Made::Replied);
        self.reply.change(Kind::Reply, place, &new);
        self.answer.change(Kind::Answer, place, &new);
    }

    /// Notes that an entry is added after so many.
    #[inline(always)]
    pub(crate) fn add(&mut self, head: usize, len: usize, new: &Entry)
        ghost shape: { ℕ × ℕ }
        requires index { IsIndex shape.0 shape.1 self.old }
        requires head { head < shape.1 }
        requires len { len < shape.1 }
        requires new { new.now.port < shape.0 }
        ensures index { IsIndex shape.0 shape.1 self.new }
        ensures shows { (items : List Entry) → length items ≡ len
            → Indexes self.old head items → Indexes self.new head (items ++ new.now ∷ []) }
    {
        let place = self.addr.place(head, len);
        self.addr.add(Kind::Addr, place, new);
        self.data.add(Kind::Data, place, new);
        self.reply.add(Kind::Reply, place, new);
        self.answer.add(Kind::Answer, place, new);
        self.blank.add(Kind::Blank, place, new);
        self.ready.add(Kind::Ready, place, new);
        self.pending.add(Kind::Pending, place, new);
    }

    /// Notes that the first entry is dropped.
    #[inline(always)]
    pub(crate) fn retire(&mut self, head: usize, old: &Entry)
        ghost shape: { ℕ × ℕ }
        requires index { IsIndex shape.0 shape.1 self.old }
        requires head { head < shape.1 }
        requires old { old.now.port < shape.0 }
        ensures index { IsIndex shape.0 shape.1 self.new }
        ensures shows { (items : List Entry) → front_of items ≡ Some old.now
            → Indexes self.old head items
            → Indexes self.new (wrapped shape.1 head 1) (rest items) }
    {
        self.addr.retire(Kind::Addr, head, old);
        self.data.retire(Kind::Data, head, old);
        self.reply.retire(Kind::Reply, head, old);
        self.answer.retire(Kind::Answer, head, old);
        self.blank.retire(Kind::Blank, head, old);
        self.ready.retire(Kind::Ready, head, old);
        self.pending.retire(Kind::Pending, head, old);
    }

    /// The row of the entries of a side that wait with the address of an entry.
    #[inline(always)]
    pub(crate) fn address_row(&self, side: bool, entry: &Entry) -> usize
        requires kind { self.now.pending.kind ≡ kind.Pending }
        requires rows { self.now.pending.rows ≤ 2 ^ 60 }
        ensures { result
            ≡ row_of kind.Pending self.now.pending.rows (record entry.now { store = side }) }
    {
        let beside = Entry {
            store: side,
            ..*entry
        };
        Kind::Pending.row(self.pending.rows, &beside)
    }
}

/// The sets of no entries of two kinds, each with how many rows it has, of 64 times so many places.
///
/// # Errors
///
/// [`Memory`] where memory is wanting.
fn two(
    alloc: Global,
    first: (Kind, usize),
    second: (Kind, usize),
    blocks: usize,
) -> Result<(Marks, Marks), Memory>
    requires some { 0 < blocks }
    requires small { blocks ≤ 2 ^ 32 }
    ensures shapes { IfOk result (λ m. IsMarks first.0 first.1 (64 * blocks) m.0
        × IsMarks second.0 second.1 (64 * blocks) m.1) }
    ensures show { IfOk result (λ m. Shows m.0 0 [] × Shows m.1 0 []) }
{
    let one = Marks::new(alloc, first.0, first.1, blocks)?;
    let other = Marks::new(alloc, second.0, second.1, blocks)?;
    Ok((one, other))
}
