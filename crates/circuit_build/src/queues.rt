//! The places of queues that blocks use.
ghost use Rattle.std.specs.Prelude.{◌≡◌, OnOk};
ghost use Rattle.circuit_build.specs.Drafts.{plus};
ghost use Rattle.circuit_build.specs.Steps.{
  queue_of,
  with_queue,
  value_place,
  addr_place,
  data_place,
  next_port,
  next_group,
  through_queue,
  group_taken,
  allocated,
};

use crate::draft::{Draft, Queue};
use el_base::Memory;
use net_types::Place;

impl Queue {
    /// The output for the value of the next port.
    pub(crate) fn value_place(&self) -> u32
        ensures { result ≡ value_place self.now }
    {
        self.groups.saturating_add(1).saturating_add(self.port)
    }

    /// The input for the address of the next port.
    pub(crate) fn addr_place(&self) -> u32
        ensures { result ≡ addr_place self.now }
    {
        self.value_place().saturating_add(self.port)
    }

    /// The input for the data of the next port.
    pub(crate) fn data_place(&self) -> u32
        ensures { result ≡ data_place self.now }
    {
        self.addr_place().saturating_add(1)
    }

    /// The queue after the use of a port.
    pub(crate) fn next_port(&self) -> Queue
        ensures { result ≡ next_port self.now }
    {
        Queue {
            unit: self.unit,
            groups: self.groups,
            group: self.group,
            port: self.port.saturating_add(1),
        }
    }

    /// The queue after the use of a group.
    pub(crate) fn next_group(&self) -> Queue
        ensures { result ≡ next_group self.now }
    {
        Queue {
            unit: self.unit,
            groups: self.groups,
            group: self.group.saturating_add(1),
            port: self.port,
        }
    }
}

impl Draft {
    /// The queue of an array, if it has one.
    pub(crate) fn queue(&self, array: u32) -> Option<Queue>
        ensures { result ≡ queue_of self.now array }
    {
        match self.queues.as_slice().get(array as usize) {
            Some(queue) => *queue,
            None => None,
        }
    }

    /// Another queue for an array.
    pub(crate) fn set_queue(&mut self, array: u32, queue: Queue)
        ensures { self.new ≡ with_queue array queue self.old }
    {
        if (array as usize) < self.queues.len() {
            self.queues.set(array as usize, Some(queue));
        }
    }

    /// The control token passes a place of a queue.
    pub(crate) fn pass(&mut self, queue: Queue, place: u32) -> Result<(), Memory>
        ensures { OnOk result (self.new ≡ through_queue queue place self.old) }
    {
        let unit = queue.unit;
        self.wire(self.control, Place { unit, place }, 32, true)?;
        self.control = Place { unit, place };
        Ok(())
    }

    // The next group of a queue is allocated.
    fn take_group(&mut self, array: u32, queue: Queue) -> Result<(), Memory>
        ensures { OnOk result (self.new ≡ group_taken array queue self.old) }
    {
        self.pass(queue, queue.group)?;
        self.set_queue(array, queue.next_group());
        Ok(())
    }

    /// The next group of an array's queue is allocated.
    pub(crate) fn allocate(&mut self, array: u32) -> Result<(), Memory>
        ensures { OnOk result (self.new ≡ allocated array self.old) }
    {
        match self.queue(array) {
            Some(queue) => self.take_group(array, queue),
            None => Ok(()),
        }
    }
}
