//! The entries of a queue with an index.

ghost use Rattle.std.specs.Prelude.{◌≡◌, ℕ, ◌+◌, ◌<◌, ◌≤◌, ◌^◌, ◌==◌, ◌&&◌, ◌++◌, ◌∷◌, [], None, Some, cond, true, false, not, is_some, length, option_map, IfOk, MatchOption};
ghost use Rattle.std.specs.List.{find, list_all};
ghost use Rattle.lsq_core.specs.Acts.{first_changed, is_nil, executes, last_such, waiting, lets, source_ok, order_ok, rest, fresh_entry, same};
ghost use Rattle.lsq_core.specs.Views.{InOrder, InPorts, no_entries, oldest_of, front_of, entry_at, count_of};
ghost use Rattle.lsq_core.specs.Parts.{none_from, IsPartOf};
ghost use Rattle.lsq_core.specs.Wants.{wanted, changed_by, asks, allows_at, nearer, IsFirst, HasNone, NoneBelow, HasNoPort, IsNextPort, HasNoAddr, IsNextAddr, HasNoData, IsNextData, HasNoReply, IsNextReply};
ghost use Rattle.lsq_core.specs.Behind.{FailsBefore};
ghost use Rattle.lsq_core.specs.Index.{filled, clear, reached, runs, wrapped, IsClearBelow};
ghost use Rattle.lsq_core.specs.declared.entry.Want.TheVariants as want;

use crate::entries::Entries;
use crate::entry::{Entry, Made, PortAct, Want};
use crate::index::Index;
use crate::part::QueuePart;
use net_types::{List, Memory};
use std::alloc::Global;
use std::marker::Model;

/// So many ports are looked at one after another, however few entries there are.
const FEW_PORTS: u32 = 8;

/// The entries of a queue, and where those stand that wait for something.
///
/// The entry of a number has the place `head` and this number, in a ring of `width`.
pub(crate) struct Indexed {
    entries: Entries,
    head: usize,
    width: usize,
    index: Index,
}

// By hand, so that to let go of one is a call.
impl Drop for Indexed {
    fn drop(self) {
        let Indexed {
            entries: _entries,
            head: _head,
            width: _width,
            index: _index,
        } = self;
    }
}

impl Model for Indexed {
    ghost use Rattle.std.specs.Prelude.{◌<◌};
    ghost use Rattle.lsq_core.specs.Views.{EntriesView, entries_code};
    ghost use Rattle.lsq_core.specs.Index.{IsIndex, Indexes};

    ghost Value = { EntriesView };

    ghost coded = { entries_code };

    ghost view = { λ e. e.entries };

    ghost invariant = { λ e. record {
      index : IsIndex e.entries.ports e.width e.index;
      shows : Indexes e.index e.head e.entries.queue.items;
      head : e.head < e.width;
      room : e.entries.depth < e.width;
    } };
}

impl Indexed {
    /// No entries, and room for so many.
    ///
    /// # Errors
    ///
    /// [`Memory`] where memory is wanting.
    pub(crate) fn new(
        alloc: Global,
        depth: u32,
        ports: usize,
        forward: bool,
    ) -> Result<Indexed, Memory>
        ensures { IfOk result (λ e. e ≡ no_entries depth ports forward) }
    {
        let blocks = depth as usize / 64 + 1;
        let entries = Entries::new(alloc, depth, ports, forward)?;
        let index = Index::new(alloc, ports, blocks)?;
        Ok(Indexed {
            entries,
            head: 0,
            width: 64 * blocks,
            index,
        })
    }

    /// Gives the next entry this serial number, where there is none yet.
    pub(crate) fn restart(&mut self, next: u64)
        requires { self.old.queue.items ≡ [] }
        ensures { self.new
            ≡ none_from next self.old.depth self.old.ports self.old.queue.forward }
    {
        self.entries.restart(next);
    }

    /// How many entries there are.
    pub(crate) fn len(&self) -> usize
        ensures len { result ≡ length self.now.queue.items }
        ensures within { result ≤ self.now.depth }
        ensures order { InOrder self.now.queue }
        ensures ports { InPorts self.now.ports self.now.queue.items }
    {
        self.entries.len()
    }

    pub(crate) fn is_empty(&self) -> bool
        ensures { result ≡ is_nil self.now.queue.items }
    {
        self.entries.is_empty()
    }

    /// The entry at a place.
    #[inline(always)]
    fn at(&self, at: usize) -> Entry
        requires { at < length self.now.queue.items }
        ensures value { result ≡ entry_at self.now.queue.items at }
        ensures order { InOrder self.now.queue }
    {
        let _ = self.len();
        self.entries.at(at)
    }

    /// The place of the first entry that an act asks for.
    #[inline(always)]
    fn place_of(&self, want: Want) -> Option<usize>
        ensures { MatchOption result (HasNone (wanted want) self.now.queue.items)
            (λ at. IsFirst (wanted want) self.now.queue.items at) }
    {
        match want {
            Want::Addr(port) => self.place_of_addr(port),
            Want::Data(port) => self.place_of_data(port),
            Want::Reply(port) => self.place_of_reply(port),
            Want::Serial(serial) => self.entries.place_of_serial(serial),
        }
    }

    #[inline(always)]
    fn place_of_addr(&self, port: u32) -> Option<usize>
        ensures { MatchOption result (HasNone (wanted (want.Addr port)) self.now.queue.items)
            (λ at. IsFirst (wanted (want.Addr port)) self.now.queue.items at) }
    {
        if port as usize >= self.entries.ports() {
            return None;
        }
        self.index.addr.next(self.head, port as usize, 0)
    }

    #[inline(always)]
    fn place_of_data(&self, port: u32) -> Option<usize>
        ensures { MatchOption result (HasNone (wanted (want.Data port)) self.now.queue.items)
            (λ at. IsFirst (wanted (want.Data port)) self.now.queue.items at) }
    {
        if port as usize >= self.entries.ports() {
            return None;
        }
        self.index.data.next(self.head, port as usize, 0)
    }

    #[inline(always)]
    fn place_of_reply(&self, port: u32) -> Option<usize>
        ensures { MatchOption result (HasNone (wanted (want.Reply port)) self.now.queue.items)
            (λ at. IsFirst (wanted (want.Reply port)) self.now.queue.items at) }
    {
        if port as usize >= self.entries.ports() {
            return None;
        }
        self.index.reply.next(self.head, port as usize, 0)
    }

    /// The first entry that an act asks for.
    #[inline(always)]
    pub(crate) fn first(&self, want: Want) -> Option<Entry>
        ensures { result ≡ find (wanted want) self.now.queue.items }
    {
        match self.place_of(want) {
            None => None,
            Some(at) => Some(self.at(at)),
        }
    }

    /// Whether an act is allowed at a port.
    #[inline(always)]
    #[tactic(auto, using(crate::proofs::PortLemmas::some_such))]
    pub(crate) fn allows_at(&self, act: PortAct, port: u32) -> bool
        ensures { result ≡ allows_at act self.now.queue.items port }
    {
        match act {
            PortAct::Addr => self.place_of_addr(port).is_some(),
            PortAct::Data => self.place_of_data(port).is_some(),
            PortAct::Reply => match self.first(Want::Reply(port)) {
                None => false,
                Some(entry) => entry.done,
            },
        }
    }

    /// The lesser of a port that was found and that of an entry, where the entry's is from a number on, and the act asks for such
    /// an entry and is allowed there.
    fn nearer(&self, act: PortAct, found: Option<u32>, from: u32, entry: &Entry) -> Option<u32>
        ensures { result ≡ nearer (asks act entry.now.port entry.now
            && allows_at act self.now.queue.items entry.now.port) found from entry.now.port }
    {
        let port = entry.port;
        if port < from || !entry.is_asked(act) || !self.allows_at(act, port) {
            return found;
        }
        match found {
            None => Some(port),
            Some(other) => Some(other.min(port)),
        }
    }

    /// The least port from a number on at which an act is allowed, by the entries.
    #[inline(never)]
    fn next_by_entries(&self, act: PortAct, from: u32) -> Option<u32>
        ensures { MatchOption result (HasNoPort (allows_at act self.now.queue.items) from)
            (IsNextPort (allows_at act self.now.queue.items) from) }
    {
        let mut found = None;
        for at in 0..self.len() {
            let entry = self.at(at);
            found = self.nearer(act, found, from, &entry);
        }
        found
    }

    /// The least port from a number on at which an act is allowed, by what waits at the ports.
    #[inline(always)]
    fn next_by_rows(&self, act: PortAct, from: u32, ports: u32) -> Option<u32>
        requires { ports ≡ self.now.ports }
        ensures { MatchOption result (HasNoPort (allows_at act self.now.queue.items) from)
            (IsNextPort (allows_at act self.now.queue.items) from) }
    {
        match act {
            PortAct::Addr => self.next_addr_port(from, ports),
            PortAct::Data => self.next_data_port(from, ports),
            PortAct::Reply => self.next_reply_port(from, ports),
        }
    }

    /// The least port from a number on at which an entry waits for its address.
    #[inline(always)]
    fn next_addr_port(&self, from: u32, ports: u32) -> Option<u32>
        requires { ports ≡ self.now.ports }
        ensures { MatchOption result (HasNoAddr self.now.queue.items from)
            (IsNextAddr self.now.queue.items from) }
    {
        let _ = self.len();
        match self.index.addr.next_row(from as usize, ports as usize) {
            None => None,
            Some(port) => Some(port as u32),
        }
    }

    /// The least port from a number on at which an entry waits for its data.
    #[inline(always)]
    fn next_data_port(&self, from: u32, ports: u32) -> Option<u32>
        requires { ports ≡ self.now.ports }
        ensures { MatchOption result (HasNoData self.now.queue.items from)
            (IsNextData self.now.queue.items from) }
    {
        let _ = self.len();
        match self.index.data.next_row(from as usize, ports as usize) {
            None => None,
            Some(port) => Some(port as u32),
        }
    }

    /// The least port from a number on at which a reply is allowed: of those with an entry that is executed and has not replied, the
    /// first whose oldest entry without a reply is executed.
    #[inline(always)]
    fn next_reply_port(&self, from: u32, ports: u32) -> Option<u32>
        requires { ports ≡ self.now.ports }
        ensures { MatchOption result (HasNoReply self.now.queue.items from)
            (IsNextReply self.now.queue.items from) }
    {
        let _ = self.len();
        let mut at = from as usize;
        while let Some(row) = self.index.answer.next_row(at, ports as usize) {
            if self.allows_at(PortAct::Reply, row as u32) {
                return Some(row as u32);
            }
            at = row + 1;
        }
        None
    }

    /// The least port from a number on at which an act is allowed. Few entries of many ports are looked at one after another, else
    /// the ports are.
    #[inline(always)]
    pub(crate) fn next_port(&self, act: PortAct, from: u32) -> Option<u32>
        ensures { MatchOption result (HasNoPort (allows_at act self.now.queue.items) from)
            (IsNextPort (allows_at act self.now.queue.items) from) }
    {
        let len = self.len();
        match u32::try_from(self.entries.ports()) {
            Ok(ports) if ports <= FEW_PORTS || len.saturating_mul(len) > ports as usize => {
                self.next_by_rows(act, from, ports)
            }
            _ => self.next_by_entries(act, from),
        }
    }

    /// Changes the first entry that an act asks for, and no other.
    #[inline(always)]
    pub(crate) fn change(&mut self, want: Want, made: Made)
        ensures items { self.new.queue.items
            ≡ first_changed (wanted want) (changed_by made) self.old.queue.items }
        ensures mark { self.new.queue.forward ≡ self.old.queue.forward }
        ensures next { self.new.queue.next ≡ self.old.queue.next }
        ensures depth { self.new.depth ≡ self.old.depth }
        ensures ports { self.new.ports ≡ self.old.ports }
    {
        if let Some(at) = self.place_of(want) {
            let old = self.entries.alter(at, made);
            self.index.change(self.head, at, &old, made);
        }
    }

    /// The oldest entry.
    pub(crate) fn front(&self) -> Option<Entry>
        ensures { result ≡ front_of self.now.queue.items }
    {
        self.entries.front()
    }

    /// The serial number of the entry at a place.
    #[inline(always)]
    fn serial_at(&self, at: usize) -> u64
        requires { at < length self.now.queue.items }
        ensures value { result ≡ (entry_at self.now.queue.items at).serial }
        ensures order { InOrder self.now.queue }
    {
        let from_end = self.len() - at;
        self.entries.next() - from_end as u64
    }

    /// Whether no older entry of a side has an address that is not known.
    fn is_filled(&self, side: bool, entry: &Entry) -> bool
        ensures { result ≡ list_all (filled side entry.now) self.now.queue.items }
    {
        match self.index.blank.next(self.head, row_of_side(side), 0) {
            None => true,
            Some(at) => {
                if self.serial_at(at) < entry.serial {
                    return false;
                }
                true
            }
        }
    }

    /// Whether no older entry of a side has the address of an entry and is not executed.
    #[inline(always)]
    fn is_clear(&self, side: bool, entry: &Entry) -> bool
        ensures { result ≡ list_all (clear side entry.now) self.now.queue.items }
    {
        let row = self.index.address_row(side, entry);
        match self.index.pending.next(self.head, row, 0) {
            None => true,
            Some(first) => {
                if self.serial_at(first) >= entry.serial {
                    return true;
                }
                self.is_clear_from(side, entry, first)
            }
        }
    }

    /// The same, where it is so of the entries before a number.
    #[inline(never)]
    fn is_clear_from(&self, side: bool, entry: &Entry, first: usize) -> bool
        requires within { first < length self.now.queue.items }
        requires clear { IsClearBelow side entry.now self.now.queue.items first }
        ensures { result ≡ list_all (clear side entry.now) self.now.queue.items }
    {
        let row = self.index.address_row(side, entry);
        let mut from = first;
        while let Some(at) = self.index.pending.next(self.head, row, from) {
            if self.at(at).is_in_way(side, entry) {
                return false;
            }
            from = at + 1;
        }
        true
    }

    /// The place of the youngest store before a load that has the load's address and is not executed.
    #[inline(always)]
    fn place_of_source(&self, load: &Entry) -> Option<usize>
        ensures entry { option_map (entry_at self.now.queue.items) result
            ≡ last_such (waiting load.now) self.now.queue.items }
        ensures within { (at : ℕ) → result ≡ Some at → at < length self.now.queue.items }
    {
        let row = self.index.address_row(true, load);
        match self.index.pending.next(self.head, row, 0) {
            None => None,
            Some(first) => {
                if self.serial_at(first) >= load.serial {
                    return None;
                }
                self.place_of_source_from(load, first)
            }
        }
    }

    /// The same, where none of the entries before a number is such a store.
    #[inline(never)]
    fn place_of_source_from(&self, load: &Entry, first: usize) -> Option<usize>
        requires within { first < length self.now.queue.items }
        requires none { NoneBelow (waiting load.now) self.now.queue.items first }
        ensures entry { option_map (entry_at self.now.queue.items) result
            ≡ last_such (waiting load.now) self.now.queue.items }
        ensures within { (at : ℕ) → result ≡ Some at → at < length self.now.queue.items }
    {
        let row = self.index.address_row(true, load);
        let mut found = None;
        let mut from = first;
        while let Some(at) = self.index.pending.next(self.head, row, from) {
            found = younger(found, at, self.at(at).waits_before(load));
            from = at + 1;
        }
        found
    }

    /// The youngest store before a load that has the load's address and is not executed.
    #[inline(always)]
    pub(crate) fn source(&self, load: &Entry) -> Option<Entry>
        ensures { result ≡ last_such (waiting load.now) self.now.queue.items }
    {
        match self.place_of_source(load) {
            None => None,
            Some(at) => Some(self.at(at)),
        }
    }

    /// Whether a load may have its value from its source: it has none, or the queue forwards and the source has
    /// its data.
    #[inline(always)]
    fn has_source(&self, load: &Entry) -> bool
        ensures { result
            ≡ source_ok self.now.queue.forward (last_such (waiting load.now) self.now.queue.items) }
    {
        if !self.entries.forwards() {
            return self.is_clear(true, load);
        }
        self.has_forwarding_source(load)
    }

    /// The same of a queue that forwards.
    fn has_forwarding_source(&self, load: &Entry) -> bool
        requires { self.now.queue.forward ≡ true }
        ensures { result
            ≡ source_ok self.now.queue.forward (last_such (waiting load.now) self.now.queue.items) }
    {
        match self.place_of_source(load) {
            None => true,
            Some(at) => self.entries.forwards() && self.at(at).datum.is_some(),
        }
    }

    /// Whether the older entries let a store execute.
    #[tactic(auto, using(crate::proofs::ExecLemmas::lets_all))]
    fn let_execute(&self, store: &Entry) -> bool
        requires { store.now.store ≡ true }
        ensures { result ≡ list_all (lets store.now) self.now.queue.items }
    {
        self.is_filled(false, store)
            && self.is_filled(true, store)
            && self.is_clear(false, store)
            && self.is_clear(true, store)
    }

    /// Whether the older entries let an entry execute.
    #[tactic(auto, using(crate::proofs::ExecLemmas::known_all))]
    fn are_ordered(&self, entry: &Entry) -> bool
        ensures { result ≡ order_ok self.now.queue.forward self.now.queue.items entry.now }
    {
        if entry.store {
            self.let_execute(entry)
        } else {
            self.is_filled(true, entry) && self.has_source(entry)
        }
    }

    /// Whether an entry may execute.
    pub(crate) fn executes(&self, entry: &Entry) -> bool
        ensures { result ≡ executes self.now.queue.forward self.now.queue.items entry.now }
    {
        entry.is_ready() && self.are_ordered(entry)
    }

    /// The serial number of the oldest entry that may execute.
    #[inline(always)]
    pub(crate) fn oldest(&self) -> Option<u64>
        ensures { result ≡ oldest_of self.now.queue }
    {
        match self.first_that_executes() {
            None => None,
            Some(at) => Some(self.serial_at(at)),
        }
    }

    /// Whether the addresses before an entry of a side are known, so far as it waits for them.
    fn is_reached(&self, side: bool, entry: &Entry) -> bool
        ensures { result ≡ reached side self.now.queue.items entry.now }
    {
        (!side || self.is_filled(false, entry)) && self.is_filled(true, entry)
    }

    /// The place of the first entry of a side that may execute.
    #[inline(always)]
    fn first_of(&self, side: bool) -> Option<usize>
        ensures { MatchOption result
            (HasNone (runs side self.now.queue.forward self.now.queue.items) self.now.queue.items)
            (λ at. IsFirst (runs side self.now.queue.forward self.now.queue.items)
            self.now.queue.items at) }
    {
        match self.index.ready.next(self.head, row_of_side(side), 0) {
            None => None,
            Some(first) => {
                let entry = self.at(first);
                if self.executes(&entry) {
                    return Some(first);
                }
                if !self.is_reached(side, &entry) {
                    return None;
                }
                self.first_from(side, first + 1)
            }
        }
    }

    /// Whether an entry is behind another that has its address, in a queue that does not forward.
    #[inline(always)]
    fn is_behind(&self, other: &Entry, entry: &Entry) -> bool
        ensures { result
            ≡ (not self.now.queue.forward && same other.now.addr entry.now.addr) }
    {
        !self.entries.forwards() && other.has_address_of(entry)
    }

    /// Whether an entry may execute, where another that has an address is an older one of its side that may not.
    #[inline(always)]
    fn executes_after(&self, other: &Entry, entry: &Entry) -> bool
        requires { is_some other.now.addr ≡ true
            → FailsBefore self.now.queue other.now entry.now }
        ensures { result ≡ executes self.now.queue.forward self.now.queue.items entry.now }
    {
        if self.is_behind(other, entry) {
            return false;
        }
        self.executes(entry)
    }

    /// Whether the addresses before an entry of a side may be known, so far as it waits for them. Behind another they are not looked at.
    #[inline(always)]
    fn may_be_reached(&self, side: bool, other: &Entry, entry: &Entry) -> bool
        ensures { result ≡ false → reached side self.now.queue.items entry.now ≡ false }
    {
        if self.is_behind(other, entry) {
            return true;
        }
        self.is_reached(side, entry)
    }

    /// The place of the first entry of a side that may execute, where none does before a number.
    #[inline(never)]
    fn first_from(&self, side: bool, first: usize) -> Option<usize>
        requires within { first ≤ length self.now.queue.items }
        requires none { NoneBelow (runs side self.now.queue.forward self.now.queue.items)
            self.now.queue.items first }
        ensures { MatchOption result
            (HasNone (runs side self.now.queue.forward self.now.queue.items) self.now.queue.items)
            (λ at. IsFirst (runs side self.now.queue.forward self.now.queue.items)
            self.now.queue.items at) }
    {
        let row = row_of_side(side);
        let mut from = first;
        let mut last = Entry::fresh(0, 0, side);
        while let Some(at) = self.index.ready.next(self.head, row, from) {
            let entry = self.at(at);
            if self.executes_after(&last, &entry) {
                return Some(at);
            }
            if !self.may_be_reached(side, &last, &entry) {
                return None;
            }
            last = entry;
            from = at + 1;
        }
        None
    }

    /// The place of the first entry that may execute.
    #[inline(always)]
    fn first_that_executes(&self) -> Option<usize>
        ensures { MatchOption result
            (HasNone (executes self.now.queue.forward self.now.queue.items) self.now.queue.items)
            (λ at. IsFirst (executes self.now.queue.forward self.now.queue.items)
            self.now.queue.items at) }
    {
        match self.first_of(false) {
            None => match self.first_of(true) {
                None => None,
                Some(store) => Some(store),
            },
            Some(load) => match self.first_of(true) {
                None => Some(load),
                Some(store) => Some(load.min(store)),
            },
        }
    }

    /// Drops the oldest entry.
    pub(crate) fn retire(&mut self)
        ensures items { self.new.queue.items ≡ rest self.old.queue.items }
        ensures mark { self.new.queue.forward ≡ self.old.queue.forward }
        ensures next { self.new.queue.next ≡ self.old.queue.next }
        ensures depth { self.new.depth ≡ self.old.depth }
        ensures ports { self.new.ports ≡ self.old.ports }
    {
        if let Some(entry) = self.entries.front() {
            self.index.retire(self.head, &entry);
            self.entries.retire();
            self.head = after(self.head, self.width);
        }
    }

    /// Adds an entry of a port.
    pub(crate) fn add(&mut self, port: u32, store: bool)
        requires room { length self.old.queue.items < self.old.depth }
        requires serial { self.old.queue.next < 2 ^ 63 }
        requires port { port < self.old.ports }
        ensures items { self.new.queue.items
            ≡ self.old.queue.items ++ fresh_entry self.old.queue.next port store ∷ [] }
        ensures mark { self.new.queue.forward ≡ self.old.queue.forward }
        ensures next { self.new.queue.next ≡ self.old.queue.next + 1 }
        ensures depth { self.new.depth ≡ self.old.depth }
        ensures ports { self.new.ports ≡ self.old.ports }
    {
        let entry = Entry::fresh(self.entries.next(), port, store);
        self.index.add(self.head, self.entries.len(), &entry);
        self.entries.add(port, store);
    }

    /// Adds an entry whose serial number is the next one.
    pub(crate) fn push(&mut self, entry: Entry)
        requires room { length self.old.queue.items < self.old.depth }
        requires serial { entry.serial ≡ self.old.queue.next }
        requires next { self.old.queue.next < 2 ^ 63 }
        requires port { entry.port < self.old.ports }
        ensures items { self.new.queue.items ≡ self.old.queue.items ++ entry ∷ [] }
        ensures mark { self.new.queue.forward ≡ self.old.queue.forward }
        ensures next { self.new.queue.next ≡ self.old.queue.next + 1 }
        ensures depth { self.new.depth ≡ self.old.depth }
        ensures ports { self.new.ports ≡ self.old.ports }
    {
        self.index.add(self.head, self.entries.len(), &entry);
        self.entries.push(entry);
    }

    /// The entries, oldest first, with the next serial number.
    pub(crate) fn part(&self, alloc: Global) -> Result<QueuePart, Memory>
        ensures part { IfOk result (λ p. IsPartOf self.now.queue p) }
        ensures order { InOrder self.now.queue }
        ensures ports { InPorts self.now.ports self.now.queue.items }
    {
        let len = self.len();
        let mut entries = List::new(alloc);
        for at in 0..len {
            entries.push(self.at(at))?;
        }
        Ok(QueuePart {
            next: self.entries.next(),
            entries,
        })
    }
}

/// The place after another in a ring.
fn after(at: usize, width: usize) -> usize
    requires { at < width }
    ensures { result ≡ wrapped width at 1 }
{
    if at + 1 < width {
        at + 1
    } else {
        at + 1 - width
    }
}

/// The row of a side: loads, or stores.
#[inline(always)]
fn row_of_side(side: bool) -> usize
    ensures value { result ≡ count_of side }
    ensures within { result < 2 }
{
    if side { 1 } else { 0 }
}

/// A place where it is one that is looked for, else what was found before.
#[inline(always)]
fn younger(found: Option<usize>, at: usize, waits: bool) -> Option<usize>
    ensures { result ≡ cond waits (Some at) found }
{
    if waits {
        return Some(at);
    }
    found
}
