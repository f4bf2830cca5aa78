//! The entries of a queue, oldest first.

ghost use Rattle.std.specs.Prelude.{◌≡◌, ◌+◌, ◌<◌, ◌≤◌, ◌^◌, ◌==◌, ◌++◌, ◌∷◌, [], None, false, length, set, IfOk, MatchOption};
ghost use Rattle.std.specs.List.{find, list_all};
ghost use Rattle.lsq_core.specs.Acts.{first_changed, is_nil, lets, known, waiting, last_such, source_ok, order_ok, executes, rest, fresh_entry};
ghost use Rattle.lsq_core.specs.Views.{InOrder, InPorts, no_entries, oldest_of, front_of, entry_at};
ghost use Rattle.lsq_core.specs.Parts.{none_from};
ghost use Rattle.lsq_core.specs.Wants.{wanted, changed_by, IsFirst, HasNone};
ghost use Rattle.lsq_core.specs.declared.entry.Want.TheVariants as want;

use crate::entry::{Entry, Made, Want};
use circular_buffer::HeapCircularBuffer;
use net_types::Memory;
use std::alloc::Global;
use std::marker::Model;

/// The entries of a queue with its next serial number.
#[derive(Drop)]
pub(crate) struct Entries {
    forward: bool,
    next: u64,
    ports: usize,
    items: HeapCircularBuffer<Entry>,
}

impl Model for Entries {
    ghost use Rattle.lsq_core.specs.Views.{EntriesView, entries_code, InOrder, InPorts};

    ghost Value = { EntriesView };

    ghost coded = { entries_code };

    ghost view = { λ e. record {
      queue = record { forward = e.forward; next = e.next; items = e.items.items };
      depth = e.items.capacity;
      ports = e.ports;
    } };

    ghost invariant = { λ e.
        InOrder (record { forward = e.forward; next = e.next; items = e.items.items })
        × InPorts e.ports e.items.items };
}

impl Entries {
    /// No entries, and room for so many.
    pub(crate) fn new(
        alloc: Global,
        depth: u32,
        ports: usize,
        forward: bool,
    ) -> Result<Entries, Memory>
        ensures { IfOk result (λ e. e ≡ no_entries depth ports forward) }
    {
        let items = HeapCircularBuffer::with_capacity(alloc, depth as usize)?;
        Ok(Entries {
            forward,
            next: 0,
            ports,
            items,
        })
    }

    /// Gives the next entry this serial number, where there is none yet.
    pub(crate) fn restart(&mut self, next: u64)
        requires { self.old.queue.items ≡ [] }
        ensures { self.new
            ≡ none_from next self.old.depth self.old.ports self.old.queue.forward }
    {
        self.next = next;
    }

    /// How many entries there are.
    pub(crate) fn len(&self) -> usize
        ensures len { result ≡ length self.now.queue.items }
        ensures within { result ≤ self.now.depth }
        ensures order { InOrder self.now.queue }
        ensures ports { InPorts self.now.ports self.now.queue.items }
    {
        self.items.len()
    }

    pub(crate) fn is_empty(&self) -> bool
        ensures { result ≡ is_nil self.now.queue.items }
    {
        self.len() == 0
    }

    /// Whether loads may have the data of stores that wait.
    pub(crate) fn forwards(&self) -> bool
        ensures { result ≡ self.now.queue.forward }
    {
        self.forward
    }

    /// The next serial number.
    pub(crate) fn next(&self) -> u64
        ensures { result ≡ self.now.queue.next }
    {
        self.next
    }

    /// How many ports there are.
    pub(crate) fn ports(&self) -> usize
        ensures { result ≡ self.now.ports }
    {
        self.ports
    }

    /// The entry at a place.
    #[inline(always)]
    pub(crate) fn at(&self, at: usize) -> Entry
        requires { at < length self.now.queue.items }
        ensures { result ≡ entry_at self.now.queue.items at }
    {
        match self.items.get(at) {
            Some(entry) => *entry,
            None => Entry::fresh(0, 0, false),
        }
    }

    /// The place of the entry of a serial number.
    pub(crate) fn place_of_serial(&self, serial: u64) -> Option<usize>
        ensures { MatchOption result (HasNone (wanted (want.Serial serial)) self.now.queue.items)
            (λ at. IsFirst (wanted (want.Serial serial)) self.now.queue.items at) }
    {
        if self.next <= serial {
            return None;
        }
        let back = self.next - serial;
        let len = self.len();
        if back <= len as u64 {
            Some(len - back as usize)
        } else {
            None
        }
    }

    /// Makes the entry at a place another, and answers what it was.
    #[inline(always)]
    pub(crate) fn alter(&mut self, at: usize, made: Made) -> Entry
        requires { at < length self.old.queue.items }
        ensures was { result ≡ entry_at self.old.queue.items at }
        ensures items { self.new.queue.items
            ≡ set self.old.queue.items at (changed_by made (entry_at self.old.queue.items at)) }
        ensures mark { self.new.queue.forward ≡ self.old.queue.forward }
        ensures next { self.new.queue.next ≡ self.old.queue.next }
        ensures depth { self.new.depth ≡ self.old.depth }
        ensures ports { self.new.ports ≡ self.old.ports }
    {
        match self.items.get_mut(at) {
            None => Entry::fresh(0, 0, false),
            Some(entry) => {
                let old = *entry;
                entry.alter(made);
                old
            }
        }
    }

    /// The place of the first entry that an act asks for.
    fn place_of(&self, want: Want) -> Option<usize>
        ensures { MatchOption result (HasNone (wanted want) self.now.queue.items)
            (λ at. IsFirst (wanted want) self.now.queue.items at) }
    {
        for at in 0..self.len() {
            if self.at(at).meets(want) {
                return Some(at);
            }
        }
        None
    }

    /// The first entry that an act asks for.
    pub(crate) fn first(&self, want: Want) -> Option<Entry>
        ensures { result ≡ find (wanted want) self.now.queue.items }
    {
        match self.place_of(want) {
            None => None,
            Some(at) => Some(self.at(at)),
        }
    }

    /// Changes the first entry that an act asks for, and no other.
    pub(crate) fn change(&mut self, want: Want, made: Made)
        ensures items { self.new.queue.items
            ≡ first_changed (wanted want) (changed_by made) self.old.queue.items }
        ensures mark { self.new.queue.forward ≡ self.old.queue.forward }
        ensures next { self.new.queue.next ≡ self.old.queue.next }
        ensures depth { self.new.depth ≡ self.old.depth }
        ensures ports { self.new.ports ≡ self.old.ports }
    {
        if let Some(at) = self.place_of(want) {
            self.alter(at, made);
        }
    }

    /// Whether all entries let a store execute.
    fn let_execute(&self, store: &Entry) -> bool
        ensures { result ≡ list_all (lets store.now) self.now.queue.items }
    {
        for at in 0..self.len() {
            if !self.at(at).lets(store) {
                return false;
            }
        }
        true
    }

    /// Whether the addresses of all stores before a load are known.
    fn are_known(&self, load: &Entry) -> bool
        ensures { result ≡ list_all (known load.now) self.now.queue.items }
    {
        for at in 0..self.len() {
            if !self.at(at).is_known_to(load) {
                return false;
            }
        }
        true
    }

    /// The youngest store before a load that has the load's address and is not executed.
    pub(crate) fn source(&self, load: &Entry) -> Option<Entry>
        ensures { result ≡ last_such (waiting load.now) self.now.queue.items }
    {
        let len = self.len();
        for past in 0..len {
            let entry = self.at(len - 1 - past);
            if entry.waits_before(load) {
                return Some(entry);
            }
        }
        None
    }

    /// Whether a load may have its value from its source: it has none, or the queue forwards and the source has
    /// its data.
    fn has_source(&self, load: &Entry) -> bool
        ensures { result
            ≡ source_ok self.now.queue.forward (last_such (waiting load.now) self.now.queue.items) }
    {
        match self.source(load) {
            None => true,
            Some(store) => self.forward && store.datum.is_some(),
        }
    }

    /// Whether the older entries let an entry execute.
    fn are_ordered(&self, entry: &Entry) -> bool
        ensures { result ≡ order_ok self.now.queue.forward self.now.queue.items entry.now }
    {
        if entry.store {
            self.let_execute(entry)
        } else {
            self.are_known(entry) && self.has_source(entry)
        }
    }

    /// Whether an entry may execute.
    pub(crate) fn executes(&self, entry: &Entry) -> bool
        ensures { result ≡ executes self.now.queue.forward self.now.queue.items entry.now }
    {
        entry.is_ready() && self.are_ordered(entry)
    }

    /// The serial number of the oldest entry that may execute.
    pub(crate) fn oldest(&self) -> Option<u64>
        ensures { result ≡ oldest_of self.now.queue }
    {
        for at in 0..self.len() {
            let entry = self.at(at);
            if self.executes(&entry) {
                return Some(entry.serial);
            }
        }
        None
    }

    /// The oldest entry.
    pub(crate) fn front(&self) -> Option<Entry>
        ensures { result ≡ front_of self.now.queue.items }
    {
        self.items.front().copied()
    }

    /// Drops the oldest entry.
    pub(crate) fn retire(&mut self)
        ensures items { self.new.queue.items ≡ rest self.old.queue.items }
        ensures mark { self.new.queue.forward ≡ self.old.queue.forward }
        ensures next { self.new.queue.next ≡ self.old.queue.next }
        ensures depth { self.new.depth ≡ self.old.depth }
        ensures ports { self.new.ports ≡ self.old.ports }
    {
        self.items.pop_front();
    }

    /// Adds an entry of a port.
    pub(crate) fn add(&mut self, port: u32, store: bool)
        requires room { length self.old.queue.items < self.old.depth }
        requires serial { self.old.queue.next < 2 ^ 63 }
        requires port { port < self.old.ports }
        ensures items { self.new.queue.items
            ≡ self.old.queue.items ++ fresh_entry self.old.queue.next port store ∷ [] }
        ensures mark { self.new.queue.forward ≡ self.old.queue.forward }
        ensures next { self.new.queue.next ≡ self.old.queue.next + 1 }
        ensures depth { self.new.depth ≡ self.old.depth }
        ensures ports { self.new.ports ≡ self.old.ports }
    {
        self.items.push_back(Entry::fresh(self.next, port, store));
        self.next += 1;
    }

    /// Adds an entry whose serial number is the next one.
    pub(crate) fn push(&mut self, entry: Entry)
        requires room { length self.old.queue.items < self.old.depth }
        requires serial { entry.serial ≡ self.old.queue.next }
        requires next { self.old.queue.next < 2 ^ 63 }
        requires port { entry.port < self.old.ports }
        ensures items { self.new.queue.items ≡ self.old.queue.items ++ entry ∷ [] }
        ensures mark { self.new.queue.forward ≡ self.old.queue.forward }
        ensures next { self.new.queue.next ≡ self.old.queue.next + 1 }
        ensures depth { self.new.depth ≡ self.old.depth }
        ensures ports { self.new.ports ≡ self.old.ports }
    {
        self.items.push_back(entry);
        self.next += 1;
    }
}
