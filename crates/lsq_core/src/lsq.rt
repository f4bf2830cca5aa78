//! The load-store queue over entries with an index.

ghost use Rattle.std.specs.Prelude.{◌≡◌, ℕ, ◌+◌, ◌<◌, ◌≤◌, ◌^◌, ◌++◌, Some, None, [], true, false, length, get_or, IfOk, MatchOption};
ghost use Rattle.net_types.specs.declared.net.Port.TheVariants.{Load};
ghost use Rattle.net_types.specs.Queues.{IsQueueShape};
ghost use Rattle.net_types.specs.declared.firing.Act.TheVariants.{Alloc, Exec, Retire};
ghost use Rattle.lsq_core.specs.Acts.{is_store, fresh, or_zero, exec_value, exec_array, load_value, stray_of};
ghost use Rattle.lsq_core.specs.Views.{QueueView, InOrder, InPorts, IsNumberBelow, allows, acted, given, shaped, count_of};
ghost use Rattle.lsq_core.specs.Parts.{IsPartOf, MayStand, queue_of, holding};
ghost use Rattle.lsq_core.specs.Wants.{HasNoAddr, IsNextAddr, HasNoData, IsNextData, HasNoReply, IsNextReply};

use crate::entry::{Entry, Made, PortAct, Want};
use crate::indexed::Indexed;
use crate::list_lsq::{is_store_at, is_stray, list_of, lists_of, load, number_within, write};
use crate::part::QueuePart;
use crate::queue::{Outcome, Queue};
use net_types::{Act, List, Memory, Port};
use std::alloc::Global;
use std::marker::Model;

/// A load-store queue with its array, whose entries are found by port, by serial number and by address.
pub struct Lsq {
    array: List<u64>,
    depth: u32,
    ports: List<Port>,
    groups: List<List<u32>>,
    entries: Indexed,
}

// By hand, so that to let go of one is a call.
impl Drop for Lsq {
    fn drop(self) {
        let Lsq {
            array: _array,
            depth: _depth,
            ports: _ports,
            groups: _groups,
            entries: _entries,
        } = self;
    }
}

impl Model for Lsq {
    ghost use Rattle.std.specs.Prelude.{◌≡◌, ◌≤◌, length};
    ghost use Rattle.el_base.specs.Limits.{max_depth};
    ghost use Rattle.lsq_core.specs.Views.{QueueView, view_code, GroupsWithin};

    ghost Value = { QueueView };

    ghost coded = { view_code };

    ghost view = { λ q. record {
      queue = q.entries.queue;
      array = q.array;
      depth = q.depth;
      ports = q.ports;
      groups = q.groups;
    } };

    ghost invariant = { λ q. record {
      depth : q.entries.depth ≡ q.depth;
      ports : q.entries.ports ≡ length q.ports;
      groups : GroupsWithin (length q.ports) q.groups;
      most : q.depth ≤ max_depth;
    } };
}

impl Lsq {
    /// A queue without entries, with its array and all memory that it will take.
    ///
    /// # Errors
    ///
    /// [`Memory`] where memory is wanting.
    pub fn new(
        alloc: Global,
        array: &[u64],
        depth: u32,
        ports: &[Port],
        groups: &[List<u32>],
        forward: bool,
    ) -> Result<Lsq, Memory>
        requires { IsQueueShape depth ports.now groups.now }
        ensures { IfOk result (λ q. q ≡ shaped array.now depth ports.now groups.now forward) }
    {
        Ok(Lsq {
            array: list_of(alloc, array)?,
            depth,
            ports: list_of(alloc, ports)?,
            groups: lists_of(alloc, groups)?,
            entries: Indexed::new(alloc, depth, ports.len(), forward)?,
        })
    }

    /// The next serial number and the entries, oldest first.
    ///
    /// # Errors
    ///
    /// [`Memory`] where memory is wanting.
    pub fn part(&self, alloc: Global) -> Result<QueuePart, Memory>
        ensures part { IfOk result (λ p. IsPartOf self.now.queue p) }
        ensures order { InOrder self.now.queue }
        ensures ports { InPorts (length self.now.ports) self.now.queue.items }
    {
        let _ = &self.depth;
        self.entries.part(alloc)
    }

    /// Puts entries, oldest first, into a queue that has none, with the next serial number. It takes no memory.
    pub fn restore(&mut self, part: &QueuePart)
        requires empty { self.old.queue.items ≡ [] }
        requires stands { MayStand self.old.depth (length self.old.ports)
            (queue_of self.old.queue.forward part.now) }
        ensures { self.new ≡ holding (queue_of self.old.queue.forward part.now) self.old }
    {
        let _ = &self.depth;
        fill(&mut self.entries, part);
    }

    /// The least port from a number on at which the queue allows an address, where it allows one.
    pub fn next_addr(&self, from: u32) -> Option<u32>
        ensures { MatchOption result (HasNoAddr self.now.queue.items from)
            (IsNextAddr self.now.queue.items from) }
    {
        let _ = &self.depth;
        self.entries.next_port(PortAct::Addr, from)
    }

    /// The least port from a number on at which the queue allows data, where it allows them.
    pub fn next_data(&self, from: u32) -> Option<u32>
        ensures { MatchOption result (HasNoData self.now.queue.items from)
            (IsNextData self.now.queue.items from) }
    {
        let _ = &self.depth;
        self.entries.next_port(PortAct::Data, from)
    }

    /// The least port from a number on at which the queue allows a reply, where it allows one.
    #[inline(never)]
    pub fn next_reply(&self, from: u32) -> Option<u32>
        ensures { MatchOption result (HasNoReply self.now.queue.items from)
            (IsNextReply self.now.queue.items from) }
    {
        let _ = &self.depth;
        self.entries.next_port(PortAct::Reply, from)
    }

    /// Whether the free depth holds a group.
    fn fits(&self, group: u32) -> bool
        ensures { result ≡ allows self.now (Alloc group) }
    {
        let groups = self.groups.as_slice();
        let at = group as usize;
        at < groups.len() && groups[at].len() <= self.depth as usize - self.entries.len()
    }

    fn may_execute(&self, serial: u64) -> bool
        ensures { result ≡ allows self.now (Exec serial) }
    {
        match self.entries.first(Want::Serial(serial)) {
            None => false,
            Some(entry) => self.entries.executes(&entry),
        }
    }

    fn may_retire(&self) -> bool
        ensures { result ≡ allows self.now Retire }
    {
        match self.entries.front() {
            None => false,
            Some(entry) => entry.is_spent(),
        }
    }

    /// Adds the entries of a group.
    fn allocate(&mut self, group: u32)
        requires fits { allows self.old (Alloc group) ≡ true }
        requires serial { self.old.queue.next ≤ 2 ^ 62 }
        ensures { self.new ≡ acted self.old (Alloc group) 0 }
    {
        let at = group as usize;
        if at < self.groups.len() {
            add_group(
                &mut self.entries,
                self.ports.as_slice(),
                self.groups.as_slice()[at].as_slice(),
            );
        }
    }

    /// What an entry reads as it executes; 0 of a store.
    fn value(&self, entry: &Entry) -> u64
        ensures { result ≡ exec_value self.now.array self.now.queue.items entry.now }
    {
        if entry.store {
            return 0;
        }
        load(self.array.as_slice(), entry, self.entries.source(entry))
    }

    /// Reads or writes the array for the entry of a serial number.
    fn execute(&mut self, serial: u64) -> Outcome
        ensures queue { self.new ≡ acted self.old (Exec serial) 0 }
        ensures put { result.put ≡ None }
        ensures stray { count_of result.stray ≡ (given self.old (Exec serial) 0).strays }
    {
        match self.entries.first(Want::Serial(serial)) {
            None => Outcome::plain(None),
            Some(entry) => {
                let value = self.value(&entry);
                let stray = is_stray(self.array.as_slice(), &entry);
                write(&mut self.array, &entry);
                self.entries.change(Want::Serial(serial), Made::Done(value));
                Outcome { put: None, stray }
            }
        }
    }

    /// Makes an act, with the token that it takes where it takes one.
    fn make(&mut self, act: Act, token: u64) -> Outcome
        requires allowed { allows self.old act ≡ true }
        requires serial { self.old.queue.next ≤ 2 ^ 62 }
        ensures queue { self.new ≡ acted self.old act token }
        ensures put { result.put ≡ (given self.old act token).put }
        ensures stray { count_of result.stray ≡ (given self.old act token).strays }
    {
        match act {
            Act::Go => Outcome::plain(None),
            Act::From(_) => Outcome::plain(None),
            Act::Send(_) => Outcome::plain(None),
            Act::Alloc(group) => {
                self.allocate(group);
                Outcome::plain(Some(token))
            }
            Act::Addr(port) => {
                self.entries.change(Want::Addr(port), Made::Addr(token));
                Outcome::plain(None)
            }
            Act::Data(port) => {
                self.entries.change(Want::Data(port), Made::Datum(token));
                Outcome::plain(None)
            }
            Act::Exec(serial) => self.execute(serial),
            Act::Reply(port) => {
                let put = self.reply(port);
                self.entries.change(Want::Reply(port), Made::Replied);
                Outcome::plain(put)
            }
            Act::Retire => {
                self.entries.retire();
                Outcome::plain(None)
            }
            Act::End => Outcome::plain(Some(token)),
        }
    }
}

impl Queue for Lsq {
    ghost state = { λ q. q };

    fn can(&self, act: Act) -> bool {
        match act {
            Act::Go => false,
            Act::From(_) => false,
            Act::Send(_) => false,
            Act::Alloc(group) => self.fits(group),
            Act::Addr(port) => self.entries.allows_at(PortAct::Addr, port),
            Act::Data(port) => self.entries.allows_at(PortAct::Data, port),
            Act::Exec(serial) => self.may_execute(serial),
            Act::Reply(port) => self.reply(port).is_some(),
            Act::Retire => self.may_retire(),
            Act::End => self.entries.is_empty(),
        }
    }

    fn act(&mut self, act: Act, token: u64) -> Outcome {
        let _ = &self.depth;
        self.make(act, token)
    }

    fn array(&self) -> &[u64] {
        self.array.as_slice()
    }

    fn oldest(&self) -> Option<u64> {
        self.entries.oldest()
    }

    fn reply(&self, port: u32) -> Option<u64> {
        match self.entries.first(Want::Reply(port)) {
            None => None,
            Some(entry) => { if entry.done { Some(entry.value) } else { None } }
        }
    }

    fn len(&self) -> u32 {
        number_within(self.entries.len(), self.depth)
    }
}

/// Adds an entry for each port of a group.
fn add_group(entries: &mut Indexed, ports: &[Port], group: &[u32])
    requires room { length entries.old.queue.items + length group.now ≤ entries.old.depth }
    requires depth { entries.old.depth < 2 ^ 32 }
    requires serial { entries.old.queue.next ≤ 2 ^ 62 }
    requires ports { IsNumberBelow entries.old.ports group.now }
    ensures mark { entries.new.queue.forward ≡ entries.old.queue.forward }
    ensures items { entries.new.queue.items
        ≡ entries.old.queue.items ++ fresh entries.old.queue.next ports.now group.now }
    ensures next { entries.new.queue.next ≡ entries.old.queue.next + length group.now }
    ensures depth { entries.new.depth ≡ entries.old.depth }
    ensures ports { entries.new.ports ≡ entries.old.ports }
{
    for port in group {
        entries.add(*port, is_store_at(ports, *port));
    }
}

/// Puts the entries of a part into a queue that has none, with the next serial number.
fn fill(entries: &mut Indexed, part: &QueuePart)
    requires deep { entries.old.depth < 2 ^ 32 }
    requires empty { entries.old.queue.items ≡ [] }
    requires stands { MayStand entries.old.depth entries.old.ports
        (queue_of entries.old.queue.forward part.now) }
    ensures { entries.new
        ≡ record entries.old { queue = queue_of entries.old.queue.forward part.now } }
{
    let list = part.entries.as_slice();
    entries.restart(part.next - list.len() as u64);
    for entry in list {
        entries.push(*entry);
    }
}
