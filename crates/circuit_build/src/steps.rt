//! The steps of a block.
ghost use Rattle.std.specs.Prelude.{◌≡◌, OnOk};
ghost use Rattle.circuit_build.specs.Steps.{
  const_laid,
  one_laid,
  two_laid,
  select_laid,
  width_at,
  read_laid,
  load_taken,
  load_laid,
  store_taken,
  store_laid,
  step_laid,
  steps_laid,
};

use crate::draft::{Draft, Queue};
use crate::uses::is_pure;
use el_base::{Array, Memory, Op1, Op2};
use ir::Instr;
use net_types::{Place, Unit};

/// The width of the elements of an array, in bits.
fn width_at(arrays: &[Array], array: u32) -> u32
    ensures { result ≡ width_at arrays.now array }
{
    match arrays.get(array as usize) {
        Some(array) => array.ty.width(),
        None => 0,
    }
}

impl Draft {
    // A constant, which a copy of the control token triggers.
    fn lay_const(&mut self, width: u32, value: u64) -> Result<(), Memory>
        ensures { OnOk result (self.new ≡ const_laid width value self.old) }
    {
        let trigger = self.next_trigger();
        let unit = self.put(Unit::Const { width, value })?;
        self.feed(trigger, unit, 0)?;
        self.define(Place { unit, place: 0 }, width)
    }

    fn lay_one(&mut self, op: Op1, a: u32) -> Result<(), Memory>
        ensures { OnOk result (self.new ≡ one_laid op a self.old) }
    {
        let a = self.copy(a);
        let unit = self.put(Unit::Op1(op))?;
        self.feed(a, unit, 0)?;
        self.define(Place { unit, place: 0 }, op.result_width())
    }

    fn lay_two(&mut self, op: Op2, a: u32, b: u32) -> Result<(), Memory>
        ensures { OnOk result (self.new ≡ two_laid op a b self.old) }
    {
        let a = self.copy(a);
        let b = self.copy(b);
        let unit = self.put(Unit::Op2(op))?;
        self.feed(a, unit, 0)?;
        self.feed(b, unit, 1)?;
        self.define(Place { unit, place: 0 }, op.result_width())
    }

    fn lay_select(&mut self, width: u32, cond: u32, yes: u32, no: u32) -> Result<(), Memory>
        ensures { OnOk result (self.new ≡ select_laid width cond yes no self.old) }
    {
        let cond = self.copy(cond);
        let yes = self.copy(yes);
        let no = self.copy(no);
        let unit = self.put(Unit::Select { width })?;
        self.feed(cond, unit, 0)?;
        self.feed(yes, unit, 1)?;
        self.feed(no, unit, 2)?;
        self.define(Place { unit, place: 0 }, width)
    }

    // A load of an array that is only read.
    fn lay_read(&mut self, array: u32, width: u32, addr: u32) -> Result<(), Memory>
        ensures { OnOk result (self.new ≡ read_laid array width addr self.old) }
    {
        let addr = self.copy(addr);
        let unit = self.put(Unit::Read(array))?;
        self.feed(addr, unit, 0)?;
        self.define(Place { unit, place: 0 }, width)
    }

    // A load by the next port of a queue.
    fn take_load(&mut self, queue: Queue, array: u32, width: u32, addr: u32) -> Result<(), Memory>
        ensures { OnOk result (self.new ≡ load_taken queue array width addr self.old) }
    {
        let addr = self.copy(addr);
        self.feed(addr, queue.unit, queue.addr_place())?;
        let value = Place {
            unit: queue.unit,
            place: queue.value_place(),
        };
        self.define(value, width)?;
        self.set_queue(array, queue.next_port());
        Ok(())
    }

    fn lay_load(&mut self, arrays: &[Array], array: u32, addr: u32) -> Result<(), Memory>
        ensures { OnOk result (self.new ≡ load_laid arrays.now array addr self.old) }
    {
        let width = width_at(arrays, array);
        match self.queue(array) {
            Some(queue) => self.take_load(queue, array, width, addr),
            None => self.lay_read(array, width, addr),
        }
    }

    // A store by the next port of a queue.
    fn take_store(&mut self, queue: Queue, array: u32, addr: u32, value: u32) -> Result<(), Memory>
        ensures { OnOk result (self.new ≡ store_taken queue array addr value self.old) }
    {
        let addr = self.copy(addr);
        let value = self.copy(value);
        self.feed(addr, queue.unit, queue.addr_place())?;
        self.feed(value, queue.unit, queue.data_place())?;
        self.define_nothing()?;
        self.set_queue(array, queue.next_port());
        Ok(())
    }

    fn lay_store(&mut self, array: u32, addr: u32, value: u32) -> Result<(), Memory>
        ensures { OnOk result (self.new ≡ store_laid array addr value self.old) }
    {
        match self.queue(array) {
            Some(queue) => self.take_store(queue, array, addr, value),
            None => self.define_nothing(),
        }
    }

    // A step without a use that has no effect is left out.
    fn lay_step(&mut self, arrays: &[Array], step: &Instr) -> Result<(), Memory>
        ensures { OnOk result (self.new ≡ step_laid arrays.now step.now self.old) }
    {
        if self.uses_of_next() == 0 && is_pure(step) {
            return self.define_nothing();
        }
        match *step {
            Instr::Const { width, value } => self.lay_const(width, value),
            Instr::One(op, a) => self.lay_one(op, a),
            Instr::Two(op, a, b) => self.lay_two(op, a, b),
            Instr::Select {
                width,
                cond,
                yes,
                no,
            } => self.lay_select(width, cond, yes, no),
            Instr::Load { array, addr } => self.lay_load(arrays, array, addr),
            Instr::Store { array, addr, value } => self.lay_store(array, addr, value),
        }
    }

    /// The steps of a block, in order.
    pub(crate) fn lay_steps(&mut self, arrays: &[Array], steps: &[Instr]) -> Result<(), Memory>
        ensures { OnOk result (self.new ≡ steps_laid arrays.now steps.now self.old) }
    {
        for step in steps {
            self.lay_step(arrays, step)?;
        }
        Ok(())
    }
}
