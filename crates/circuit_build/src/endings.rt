//! The return join, and the feeders of targets without an edge.
ghost use Rattle.std.specs.Prelude.{◌≡◌, IfOk, OnOk};
ghost use Rattle.circuit_build.specs.Endings.{
  result_widths,
  ended_by,
  all_ended,
  exited,
  join_laid,
  zeros_laid,
  zero_ends,
  feeder_laid,
  feeder_if,
  feeders_laid,
};

use crate::draft::{Draft, End, Queue, number};
use crate::edges::count_at;
use el_base::{List, Memory, Ty};
use ir::Block;
use net_types::{Place, Unit};
use std::alloc::Global;

impl Draft {
    fn end_queue(&mut self, queue: Option<Queue>) -> Result<(), Memory>
        ensures { OnOk result (self.new ≡ ended_by queue self.old) }
    {
        match queue {
            Some(queue) => self.pass(queue, queue.groups),
            None => Ok(()),
        }
    }

    // The control token passes the end of each queue, in order.
    fn end_queues(&mut self) -> Result<(), Memory>
        ensures { OnOk result (self.new ≡ all_ended self.old.queues self.old) }
    {
        let queues = self.queues.copy()?;
        for queue in queues.as_slice() {
            self.end_queue(*queue)?;
        }
        Ok(())
    }

    fn lay_exit(&mut self, returned: Option<Ty>) -> Result<(), Memory>
        ensures { OnOk result (self.new ≡ exited returned self.old) }
    {
        let unit = self.put(Unit::Exit)?;
        self.wire(self.control, Place { unit, place: 0 }, 32, true)?;
        match returned {
            Some(_) => {
                let end = self.copy(0);
                self.feed(end, unit, 1)
            }
            None => Ok(()),
        }
    }

    /// The return join: a head with an argument for the result, the ends of all queues, and the exit.
    pub(crate) fn lay_join(
        &mut self,
        alloc: Global,
        ins: u32,
        join: u32,
        returned: Option<Ty>,
    ) -> Result<(), Memory>
        ensures { OnOk result (self.new ≡ join_laid ins join returned self.old) }
    {
        match returned {
            Some(ty) => {
                let mut uses = List::new(alloc);
                uses.push(1)?;
                self.lay_head(alloc, ins, join, &[ty.width()], uses, 0)?;
            }
            None => self.lay_head(alloc, ins, join, &[], List::new(alloc), 0)?,
        }
        self.end_queues()?;
        self.lay_exit(returned)
    }

    // A zero for each of these widths, which a copy of the control token triggers.
    fn lay_zeros(&mut self, alloc: Global, args: &[u32]) -> Result<List<End>, Memory>
        ensures draft { OnOk result (self.new ≡ zeros_laid args.now self.old) }
        ensures ends { IfOk result (λ es. es ≡ zero_ends args.now self.old) }
    {
        let mut ends = List::new(alloc);
        for width in args {
            let trigger = self.next_trigger();
            let unit = self.put(Unit::Const {
                width: *width,
                value: 0,
            })?;
            self.feed(trigger, unit, 0)?;
            ends.push(End {
                place: Place { unit, place: 0 },
                width: *width,
            })?;
        }
        Ok(ends)
    }

    // A branch of control that never fires, since it feeds itself, and zeros.
    fn lay_feeder(&mut self, alloc: Global, target: u32, args: &[u32]) -> Result<(), Memory>
        ensures { OnOk result (self.new ≡ feeder_laid target args.now self.old) }
    {
        let unit = self.put(Unit::Branch { width: 32 })?;
        self.wire(Place { unit, place: 1 }, Place { unit, place: 1 }, 32, true)?;
        self.control = Place { unit, place: 0 };
        self.fork_control(number(args.len()).saturating_add(1))?;
        let trigger = self.next_trigger();
        self.feed(trigger, unit, 0)?;
        let ends = self.lay_zeros(alloc, args)?;
        self.lead(target, self.control, ends)
    }

    // A feeder for a target, where its count of edges is 0.
    fn lay_feeder_if(
        &mut self,
        alloc: Global,
        count: u32,
        target: u32,
        args: &[u32],
    ) -> Result<(), Memory>
        ensures { OnOk result (self.new ≡ feeder_if count target args.now self.old) }
    {
        if count == 0 {
            self.lay_feeder(alloc, target, args)
        } else {
            Ok(())
        }
    }

    /// The feeder of the return join, where its count of edges is 0.
    pub(crate) fn lay_last_feeder(
        &mut self,
        alloc: Global,
        count: u32,
        join: u32,
        returned: Option<Ty>,
    ) -> Result<(), Memory>
        ensures { OnOk result (self.new
            ≡ feeder_if count join (result_widths returned) self.old) }
    {
        match returned {
            Some(ty) => self.lay_feeder_if(alloc, count, join, &[ty.width()]),
            None => self.lay_feeder_if(alloc, count, join, &[]),
        }
    }

    /// The feeders of blocks that no edge leads to, by the counts of edges.
    pub(crate) fn lay_feeders(
        &mut self,
        alloc: Global,
        counts: &[u32],
        blocks: &[Block],
    ) -> Result<(), Memory>
        ensures { OnOk result (self.new
            ≡ feeders_laid counts.now 0 blocks.now self.old) }
    {
        let mut target: u32 = 0;
        for block in blocks {
            let count = count_at(counts, target);
            self.lay_feeder_if(alloc, count, target, block.args.as_slice())?;
            target = target.saturating_add(1);
        }
        Ok(())
    }
}
