//! The load-store queue over one list of entries.

ghost use Rattle.std.specs.Prelude.{◌≡◌, ℕ, ◌+◌, ◌<◌, ◌≤◌, ◌^◌, ◌++◌, Some, None, [], true, false, length, get_or, IfOk};
ghost use Rattle.net_types.specs.declared.net.Port.TheVariants.{Load};
ghost use Rattle.net_types.specs.Queues.{IsQueueShape};
ghost use Rattle.net_types.specs.declared.firing.Act.TheVariants.{Alloc, Exec, Retire};
ghost use Rattle.lsq_core.specs.Acts.{is_store, fresh, or_zero, exec_value, exec_array, load_value, stray_of};
ghost use Rattle.lsq_core.specs.Views.{QueueView, IsNumberBelow, allows, acted, given, shaped, count_of};

use crate::entries::Entries;
use crate::entry::{Entry, Made, Want};
use crate::queue::{Outcome, Queue};
use net_types::{Act, List, Memory, Port};
use std::alloc::Global;
use std::marker::Model;

/// A load-store queue with its array.
pub struct ListLsq {
    array: List<u64>,
    depth: u32,
    ports: List<Port>,
    groups: List<List<u32>>,
    entries: Entries,
}

// By hand, so that to let go of one is a call.
impl Drop for ListLsq {
    fn drop(self) {
        let ListLsq {
            array: _array,
            depth: _depth,
            ports: _ports,
            groups: _groups,
            entries: _entries,
        } = self;
    }
}

impl Model for ListLsq {
    ghost use Rattle.std.specs.Prelude.{◌≡◌, ◌≤◌, length};
    ghost use Rattle.el_base.specs.Limits.{max_depth};
    ghost use Rattle.lsq_core.specs.Views.{QueueView, view_code, GroupsWithin};

    ghost Value = { QueueView };

    ghost coded = { view_code };

    ghost view = { λ q. record {
      queue = q.entries.queue;
      array = q.array;
      depth = q.depth;
      ports = q.ports;
      groups = q.groups;
    } };

    ghost invariant = { λ q. record {
      depth : q.entries.depth ≡ q.depth;
      ports : q.entries.ports ≡ length q.ports;
      groups : GroupsWithin (length q.ports) q.groups;
      most : q.depth ≤ max_depth;
    } };
}

impl ListLsq {
    /// A queue without entries, with its array and all memory that it will take.
    ///
    /// # Errors
    ///
    /// [`Memory`] where memory is wanting.
    pub fn new(
        alloc: Global,
        array: &[u64],
        depth: u32,
        ports: &[Port],
        groups: &[List<u32>],
        forward: bool,
    ) -> Result<ListLsq, Memory>
        requires { IsQueueShape depth ports.now groups.now }
        ensures { IfOk result (λ q. q ≡ shaped array.now depth ports.now groups.now forward) }
    {
        Ok(ListLsq {
            array: list_of(alloc, array)?,
            depth,
            ports: list_of(alloc, ports)?,
            groups: lists_of(alloc, groups)?,
            entries: Entries::new(alloc, depth, ports.len(), forward)?,
        })
    }

    /// Whether the free depth holds a group.
    fn fits(&self, group: u32) -> bool
        ensures { result ≡ allows self.now (Alloc group) }
    {
        let groups = self.groups.as_slice();
        let at = group as usize;
        at < groups.len() && groups[at].len() <= self.depth as usize - self.entries.len()
    }

    fn may_execute(&self, serial: u64) -> bool
        ensures { result ≡ allows self.now (Exec serial) }
    {
        match self.entries.first(Want::Serial(serial)) {
            None => false,
            Some(entry) => self.entries.executes(&entry),
        }
    }

    fn may_retire(&self) -> bool
        ensures { result ≡ allows self.now Retire }
    {
        match self.entries.front() {
            None => false,
            Some(entry) => entry.is_spent(),
        }
    }

    /// Adds the entries of a group.
    fn allocate(&mut self, group: u32)
        requires fits { allows self.old (Alloc group) ≡ true }
        requires serial { self.old.queue.next ≤ 2 ^ 62 }
        ensures { self.new ≡ acted self.old (Alloc group) 0 }
    {
        let at = group as usize;
        if at < self.groups.len() {
            add_group(
                &mut self.entries,
                self.ports.as_slice(),
                self.groups.as_slice()[at].as_slice(),
            );
        }
    }

    /// What an entry reads as it executes; 0 of a store.
    fn value(&self, entry: &Entry) -> u64
        ensures { result ≡ exec_value self.now.array self.now.queue.items entry.now }
    {
        if entry.store {
            return 0;
        }
        load(self.array.as_slice(), entry, self.entries.source(entry))
    }

    /// Reads or writes the array for the entry of a serial number.
    fn execute(&mut self, serial: u64) -> Outcome
        ensures queue { self.new ≡ acted self.old (Exec serial) 0 }
        ensures put { result.put ≡ None }
        ensures stray { count_of result.stray ≡ (given self.old (Exec serial) 0).strays }
    {
        match self.entries.first(Want::Serial(serial)) {
            None => Outcome::plain(None),
            Some(entry) => {
                let value = self.value(&entry);
                let stray = is_stray(self.array.as_slice(), &entry);
                write(&mut self.array, &entry);
                self.entries.change(Want::Serial(serial), Made::Done(value));
                Outcome { put: None, stray }
            }
        }
    }

    /// Makes an act, with the token that it takes where it takes one.
    fn make(&mut self, act: Act, token: u64) -> Outcome
        requires allowed { allows self.old act ≡ true }
        requires serial { self.old.queue.next ≤ 2 ^ 62 }
        ensures queue { self.new ≡ acted self.old act token }
        ensures put { result.put ≡ (given self.old act token).put }
        ensures stray { count_of result.stray ≡ (given self.old act token).strays }
    {
        match act {
            Act::Go => Outcome::plain(None),
            Act::From(_) => Outcome::plain(None),
            Act::Send(_) => Outcome::plain(None),
            Act::Alloc(group) => {
                self.allocate(group);
                Outcome::plain(Some(token))
            }
            Act::Addr(port) => {
                self.entries.change(Want::Addr(port), Made::Addr(token));
                Outcome::plain(None)
            }
            Act::Data(port) => {
                self.entries.change(Want::Data(port), Made::Datum(token));
                Outcome::plain(None)
            }
            Act::Exec(serial) => self.execute(serial),
            Act::Reply(port) => {
                let put = self.reply(port);
                self.entries.change(Want::Reply(port), Made::Replied);
                Outcome::plain(put)
            }
            Act::Retire => {
                self.entries.retire();
                Outcome::plain(None)
            }
            Act::End => Outcome::plain(Some(token)),
        }
    }
}

impl Queue for ListLsq {
    ghost state = { λ q. q };

    fn can(&self, act: Act) -> bool {
        match act {
            Act::Go => false,
            Act::From(_) => false,
            Act::Send(_) => false,
            Act::Alloc(group) => self.fits(group),
            Act::Addr(port) => self.entries.first(Want::Addr(port)).is_some(),
            Act::Data(port) => self.entries.first(Want::Data(port)).is_some(),
            Act::Exec(serial) => self.may_execute(serial),
            Act::Reply(port) => self.reply(port).is_some(),
            Act::Retire => self.may_retire(),
            Act::End => self.entries.is_empty(),
        }
    }

    fn act(&mut self, act: Act, token: u64) -> Outcome {
        let _ = &self.depth;
        self.make(act, token)
    }

    fn array(&self) -> &[u64] {
        self.array.as_slice()
    }

    fn oldest(&self) -> Option<u64> {
        self.entries.oldest()
    }

    fn reply(&self, port: u32) -> Option<u64> {
        match self.entries.first(Want::Reply(port)) {
            None => None,
            Some(entry) => { if entry.done { Some(entry.value) } else { None } }
        }
    }

    fn len(&self) -> u32 {
        number_within(self.entries.len(), self.depth)
    }
}

/// A number that a number of 32 bits bounds.
pub(crate) fn number_within(number: usize, bound: u32) -> u32
    requires { number ≤ bound }
    ensures { result ≡ number }
{
    number as u32
}

/// The address of an entry, or 0.
fn address(entry: &Entry) -> u64
    ensures { result ≡ or_zero entry.now.addr }
{
    match entry.addr {
        None => 0,
        Some(addr) => addr,
    }
}

/// The data of an entry, or 0.
fn datum(entry: &Entry) -> u64
    ensures { result ≡ or_zero entry.now.datum }
{
    match entry.datum {
        None => 0,
        Some(datum) => datum,
    }
}

/// Whether the address of an entry lies past the array.
pub(crate) fn is_stray(array: &[u64], entry: &Entry) -> bool
    ensures { count_of result ≡ stray_of array.now entry.now }
{
    address(entry) >= array.len() as u64
}

/// The element at an address; 0 past the array.
fn element(array: &[u64], at: u64) -> u64
    ensures { result ≡ get_or array.now at 0 }
{
    if at < array.len() as u64 {
        array[at as usize]
    } else {
        0
    }
}

/// What a load reads that has this source; 0 past the array.
pub(crate) fn load(array: &[u64], entry: &Entry, source: Option<Entry>) -> u64
    ensures { result ≡ load_value array.now entry.now source }
{
    let at = address(entry);
    match source {
        None => element(array, at),
        Some(store) => {
            if at < array.len() as u64 {
                datum(&store)
            } else {
                0
            }
        }
    }
}

/// Writes the element of a store; past the array, and for a load, the array stays.
pub(crate) fn write(array: &mut List<u64>, entry: &Entry)
    ensures { array.new ≡ exec_array array.old entry.now }
{
    let at = address(entry);
    if entry.store && at < array.len() as u64 {
        array.set(at as usize, datum(entry));
    }
}

/// Whether a port is a store port.
pub(crate) fn is_store_at(ports: &[Port], port: u32) -> bool
    ensures { result ≡ is_store (get_or ports.now port Load) }
{
    let at = port as usize;
    at < ports.len() && matches!(ports[at], Port::Store)
}

/// Adds an entry for each port of a group.
fn add_group(entries: &mut Entries, ports: &[Port], group: &[u32])
    requires room { length entries.old.queue.items + length group.now ≤ entries.old.depth }
    requires depth { entries.old.depth < 2 ^ 32 }
    requires serial { entries.old.queue.next ≤ 2 ^ 62 }
    requires ports { IsNumberBelow entries.old.ports group.now }
    ensures mark { entries.new.queue.forward ≡ entries.old.queue.forward }
    ensures items { entries.new.queue.items
        ≡ entries.old.queue.items ++ fresh entries.old.queue.next ports.now group.now }
    ensures next { entries.new.queue.next ≡ entries.old.queue.next + length group.now }
    ensures depth { entries.new.depth ≡ entries.old.depth }
    ensures ports { entries.new.ports ≡ entries.old.ports }
{
    for port in group {
        entries.add(*port, is_store_at(ports, *port));
    }
}

/// A list of these items.
///
/// # Errors
///
/// [`Memory`] where memory is wanting.
pub(crate) fn list_of<T: Copy + Drop>(alloc: Global, items: &[T]) -> Result<List<T>, Memory>
    ensures { IfOk result (λ list. list ≡ items.now) }
{
    let mut list = List::new(alloc);
    for item in items {
        list.push(*item)?;
    }
    Ok(list)
}

/// A list of equal lists.
///
/// # Errors
///
/// [`Memory`] where memory is wanting.
pub(crate) fn lists_of(alloc: Global, items: &[List<u32>]) -> Result<List<List<u32>>, Memory>
    ensures { IfOk result (λ lists. lists ≡ items.now) }
{
    let mut lists = List::new(alloc);
    for item in items {
        lists.push(item.copy()?)?;
    }
    Ok(lists)
}
