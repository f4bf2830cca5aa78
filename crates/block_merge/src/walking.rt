//! The blocks that a walk finds, in the order in which it finds them.
ghost use Rattle.std.specs.Prelude.{
  ◌≡◌,
  ◌<◌,
  [],
  not,
  true,
  false,
  length,
  get_or,
  slice_get,
  set,
  Some,
  IfOk,
  OnOk,
};
ghost use Rattle.std.specs.List.{list_any};
ghost use Rattle.el_base.specs.Limits.{IsNumbered};
ghost use Rattle.block_merge.specs.Found.{
  stored_by,
  targets_at,
  targets,
  noted,
  noted_all,
  walked,
  from_start,
  found_blocks,
};
ghost use Rattle.block_merge.specs.Orders.{
  option_list,
  marked_all,
  stores_unmarked,
  IsOrder,
  Notes,
  IsWithin,
  AllWithin,
  StoresWithin,
};

use ir::{Block, Instr, Jump, Memory};
use std::alloc::Global;

/// The blocks found so far, marks of those blocks, and marks of the arrays to which they store.
#[derive(Drop)]
struct Order {
    found: Vec<u32>,
    seen: Vec<bool>,
    stored: Vec<bool>,
}

#[tactic(auto, using(std::proofs::lemmas::List::set_past))]
fn mark(marks: &mut Vec<bool>, at: usize)
    ensures { marks.new.items ≡ set marks.old.items at true }
{
    if at < marks.len() {
        marks[at] = true;
    }
}

/// The item at a place of a list.
fn item_at(items: &[u32], place: usize) -> Option<u32>
    ensures { result ≡ slice_get items.now place }
{
    items.get(place).copied()
}

/// The array to which a step stores.
fn stored_by(step: &Instr) -> Option<u32>
    ensures { option_list result ≡ stored_by step.now }
{
    match *step {
        Instr::Store {
            array,
            addr: _,
            value: _,
        } => Some(array),
        Instr::Const { width: _, value: _ }
        | Instr::One(_, _)
        | Instr::Two(_, _, _)
        | Instr::Select {
            width: _,
            cond: _,
            yes: _,
            no: _,
        }
        | Instr::Load { array: _, addr: _ } => None,
    }
}

/// Marks the array of each store.
fn mark_stores(marks: &mut Vec<bool>, steps: &[Instr])
    ensures { marks.new.items ≡ marked_all marks.old.items steps.now }
{
    for step in steps {
        if let Some(array) = stored_by(step) {
            mark(marks, array as usize);
        }
    }
}

/// Whether a step stores to an array that is not marked.
fn stores_unmarked(marks: &[bool], steps: &[Instr]) -> bool
    ensures { result ≡ stores_unmarked marks.now steps.now }
{
    for step in steps {
        if is_unmarked(marks, stored_by(step)) {
            return true;
        }
    }
    false
}

/// Whether there is an array and it is not marked.
fn is_unmarked(marks: &[bool], array: Option<u32>) -> bool
    ensures { result ≡ list_any (λ a. not (get_or marks.now a false)) (option_list array) }
{
    match array {
        Some(array) => !marks.get(array as usize).copied().unwrap_or(false),
        None => false,
    }
}

impl Order {
    /// Notes a block that may be found already.
    fn note(&mut self, blocks: &[Block], number: u32) -> Result<(), Memory>
        requires order { IsOrder blocks.now self.old }
        requires within { number < length blocks.now }
        ensures { OnOk result
            (Notes blocks.now self.old self.new (noted self.old.found.items number)) }
    {
        let at = number as usize;
        if !self.seen[at] {
            self.found.push(number)?;
            mark(&mut self.seen, at);
            mark_stores(&mut self.stored, blocks[at].steps.as_slice());
        }
        Ok(())
    }

    /// Notes the blocks to which a jump leads.
    fn note_targets(&mut self, blocks: &[Block], jump: &Jump) -> Result<(), Memory>
        requires order { IsOrder blocks.now self.old }
        requires within { IsWithin blocks.now (targets jump.now) }
        ensures { OnOk result (Notes blocks.now self.old self.new
            (noted_all self.old.found.items (targets jump.now))) }
    {
        match jump {
            Jump::Go(to) => self.note(blocks, to.block),
            Jump::Two { cond: _, yes, no } => {
                self.note(blocks, yes.block)?;
                self.note(blocks, no.block)
            }
            Jump::Return(_) => Ok(()),
        }
    }

    /// Notes the blocks to which the block at a place of the list leads.
    fn note_onward(&mut self, blocks: &[Block], number: u32) -> Result<(), Memory>
        requires order { IsOrder blocks.now self.old }
        requires within { AllWithin blocks.now }
        ensures { OnOk result (Notes blocks.now self.old self.new
            (noted_all self.old.found.items (targets_at blocks.now (Some number)))) }
    {
        match blocks.get(number as usize) {
            Some(block) => self.note_targets(blocks, &block.jump),
            None => Ok(()),
        }
    }

    /// Notes what the found blocks from a place on lead to, and so on.
    fn walk(&mut self, blocks: &[Block], from: usize) -> Result<(), Memory>
        requires order { IsOrder blocks.now self.old }
        requires within { AllWithin blocks.now }
        ensures { OnOk result (Notes blocks.now self.old self.new
            (walked blocks.now (length blocks.now) from self.old.found.items)) }
    {
        let mut at = from;
        let count = blocks.len();
        for walks in 0..count {
            match item_at(self.found.as_slice(), at) {
                Some(number) => self.note_onward(blocks, number)?,
                None => return Ok(()),
            }
            at += 1;
        }
        Ok(())
    }

    /// Starts a walk at a block that stores to an array to which no found block does.
    fn start(&mut self, blocks: &[Block], number: u32) -> Result<(), Memory>
        requires order { IsOrder blocks.now self.old }
        requires within { AllWithin blocks.now }
        requires arrays { StoresWithin (length self.old.stored.items) blocks.now }
        requires block { number < length blocks.now }
        ensures { OnOk result (Notes blocks.now self.old self.new
            (from_start blocks.now self.old.found.items number)) }
    {
        let at = number as usize;
        if stores_unmarked(self.stored.as_slice(), blocks[at].steps.as_slice()) {
            let from = self.found.len();
            self.note(blocks, number)?;
            self.walk(blocks, from)?;
        }
        Ok(())
    }

    /// Finds all blocks, where none is found yet.
    fn find_all(&mut self, blocks: &[Block]) -> Result<(), Memory>
        requires order { IsOrder blocks.now self.old }
        requires none { self.old.found.items ≡ [] }
        requires some { 0 < length blocks.now }
        requires few { IsNumbered (length blocks.now) }
        requires within { AllWithin blocks.now }
        requires arrays { StoresWithin (length self.old.stored.items) blocks.now }
        ensures { OnOk result (self.new.found.items ≡ found_blocks blocks.now) }
    {
        self.note(blocks, 0)?;
        self.walk(blocks, 0)?;
        let count = blocks.len() as u32;
        for number in 0..count {
            self.start(blocks, number)?;
        }
        Ok(())
    }
}

/// The list in which no block is found.
fn unfound(alloc: Global, blocks: &[Block], arrays: usize) -> Result<Order, Memory>
    ensures order { IfOk result (IsOrder blocks.now) }
    ensures found { IfOk result (λ o. o.found.items ≡ []) }
    ensures arrays { IfOk result (λ o. length o.stored.items ≡ arrays) }
{
    Ok(Order {
        found: Vec::new(alloc),
        seen: vec![in alloc; false; blocks.len()]?,
        stored: vec![in alloc; false; arrays]?,
    })
}

/// The blocks that a walk finds, where there are so many arrays.
pub(crate) fn found_blocks(
    alloc: Global,
    blocks: &[Block],
    arrays: usize,
) -> Result<Vec<u32>, Memory>
    requires some { 0 < length blocks.now }
    requires few { IsNumbered (length blocks.now) }
    requires within { AllWithin blocks.now }
    requires arrays { StoresWithin arrays blocks.now }
    ensures { IfOk result (λ found. found.items ≡ found_blocks blocks.now) }
{
    let mut order = unfound(alloc, blocks, arrays)?;
    order.find_all(blocks)?;
    Ok(order.found)
}
