//! The jumps of blocks.
ghost use Rattle.std.specs.Prelude.{◌≡◌, cond, true, length, IfOk, OnOk};
ghost use Rattle.circuit_build.specs.Drafts.{number, next, buffered, copied};
ghost use Rattle.circuit_build.specs.Uses.{handed_often};
ghost use Rattle.circuit_build.specs.Jumps.{
  with_edge,
  head_end,
  is_of_head,
  passed,
  passed_end,
  all_passed,
  passed_ends,
  gone,
  branched,
  branch_ends,
  branched_if,
  sides_if,
  all_branched,
  all_sides,
  yes_ends,
  no_ends,
  taken,
  control_branched,
  parted,
  jump_laid,
};

use crate::draft::{Draft, Edge, End, number, take};
use crate::edges::count_at;
use crate::uses::handed;
use el_base::{List, Memory};
use ir::{Jump, To};
use net_types::{Place, Unit};
use std::alloc::Global;

/// What stands for a value that a side does not hand on.
const NO_END: Option<End> = None;

// Past the units of a head with so many arguments: the merge, and where there are arguments the fork of its token and the
// muxes.
fn head_end(head: u32, args: u32) -> u32
    ensures { result ≡ head_end head args }
{
    if args == 0 {
        head.saturating_add(1)
    } else {
        head.saturating_add(2).saturating_add(args)
    }
}

// Whether a place is of a unit of a head with so many arguments.
fn is_of_head(place: Place, head: u32, args: u32) -> bool
    ensures { result ≡ is_of_head place head args }
{
    head > 0 && head <= place.unit && place.unit < head_end(head, args)
}

// The ends that a side hands on, a use of each value in order.
fn take_all(alloc: Global, ends: List<Option<End>>, values: &[u32]) -> Result<List<End>, Memory>
    ensures { IfOk result (λ es. es ≡ taken values.now ends) }
{
    let mut rest = ends;
    let mut with = List::new(alloc);
    for value in values {
        let end = take(&mut rest, *value);
        with.push(end)?;
    }
    Ok(with)
}

impl Draft {
    /// An edge to a target.
    #[tactic(auto, using(std::proofs::lemmas::List::set_past))]
    pub(crate) fn lead(&mut self, to: u32, control: Place, with: List<End>) -> Result<(), Memory>
        ensures { OnOk result (self.new ≡ with_edge to control with self.old) }
    {
        self.edges.push(Edge { to, control, with })?;
        let count = number(self.edges.len());
        if (to as usize) < self.tails.len() {
            self.tails.set(to as usize, count);
        }
        Ok(())
    }

    // A value passes a fork with one output.
    fn buffered(&mut self, end: End) -> Result<End, Memory>
        ensures draft { OnOk result (self.new ≡ passed true end self.old) }
        ensures end { IfOk result (λ e. e ≡ passed_end true end self.old) }
    {
        let width = end.width;
        let unit = self.put(Unit::Fork { width, outs: 1 })?;
        self.feed(end, unit, 0)?;
        Ok(End {
            place: Place { unit, place: 0 },
            width,
        })
    }

    // What would lead from a unit of a target's head to one passes a buffer, since no unit fires while its output is full.
    fn pass_if(&mut self, passes: bool, end: End) -> Result<End, Memory>
        ensures draft { OnOk result (self.new ≡ passed passes end self.old) }
        ensures end { IfOk result (λ e. e ≡ passed_end passes end self.old) }
    {
        if passes { self.buffered(end) } else { Ok(end) }
    }

    // The ends of the values that are handed on to a target with a head.
    fn pass_all(&mut self, alloc: Global, head: u32, values: &[u32]) -> Result<List<End>, Memory>
        ensures draft { OnOk result (self.new
            ≡ all_passed head (number (length values.now)) values.now self.old) }
        ensures ends { IfOk result (λ es. es
            ≡ passed_ends head (number (length values.now)) values.now self.old) }
    {
        let args = number(values.len());
        let mut ends = List::new(alloc);
        for value in values {
            let end = self.copy(*value);
            let end = self.pass_if(is_of_head(end.place, head, args), end)?;
            ends.push(end)?;
        }
        Ok(ends)
    }

    // The control token, too, passes a buffer where it would lead from the target's head to that.
    fn buffer_if(&mut self, passes: bool) -> Result<(), Memory>
        ensures { OnOk result (self.new ≡ cond passes (buffered self.old) self.old) }
    {
        if passes { self.buffer() } else { Ok(()) }
    }

    // To one target.
    fn go(&mut self, alloc: Global, to: u32, values: &[u32]) -> Result<(), Memory>
        ensures { OnOk result (self.new ≡ gone to values.now self.old) }
    {
        let head = count_at(self.heads.as_slice(), to);
        let ends = self.pass_all(alloc, head, values)?;
        self.buffer_if(is_of_head(self.control, head, number(values.len())))?;
        self.lead(to, self.control, ends)
    }

    // A branch of a value, whose outputs go to the sides that hand it on so often.
    fn branch(
        &mut self,
        cond: u32,
        value: u32,
        for_yes: u32,
        for_no: u32,
    ) -> Result<(Option<End>, Option<End>), Memory>
        ensures draft { OnOk result (self.new ≡ branched cond value for_yes for_no self.old) }
        ensures yes { IfOk result (λ es. es.0 ≡ (branch_ends cond value for_yes for_no self.old).yes_end) }
        ensures no { IfOk result (λ es. es.1 ≡ (branch_ends cond value for_yes for_no self.old).no_end) }
    {
        let cond = self.copy(cond);
        let value = self.copy(value);
        let width = value.width;
        let unit = self.put(Unit::Branch { width })?;
        self.feed(cond, unit, 0)?;
        self.feed(value, unit, 1)?;
        let place = Place { unit, place: 0 };
        let yes = self.spread(End { place, width }, for_yes)?;
        let place = Place { unit, place: 1 };
        let no = self.spread(End { place, width }, for_no)?;
        Ok((yes, no))
    }

    // The control token passes a branch, whose number is returned.
    fn branch_control(&mut self, cond: u32) -> Result<u32, Memory>
        ensures draft { OnOk result (self.new ≡ control_branched cond self.old) }
        ensures unit { IfOk result (λ u. u ≡ next (copied cond self.old)) }
    {
        let cond = self.copy(cond);
        let unit = self.put(Unit::Branch { width: 32 })?;
        self.feed(cond, unit, 0)?;
        self.wire(self.control, Place { unit, place: 1 }, 32, true)?;
        Ok(unit)
    }

    // A branch of a value, where a side hands it on.
    fn branch_if(
        &mut self,
        cond: u32,
        value: u32,
        for_yes: u32,
        for_no: u32,
    ) -> Result<(Option<End>, Option<End>), Memory>
        ensures draft { OnOk result (self.new ≡ branched_if cond value for_yes for_no self.old) }
        ensures yes { IfOk result (λ es. es.0
            ≡ (sides_if cond value for_yes for_no self.old).yes_end) }
        ensures no { IfOk result (λ es. es.1
            ≡ (sides_if cond value for_yes for_no self.old).no_end) }
    {
        if for_yes == 0 && for_no == 0 {
            return Ok((NO_END, NO_END));
        }
        self.branch(cond, value, for_yes, for_no)
    }

    // A branch of each value that a side hands on; the ends of the values for both sides.
    fn branch_all(
        &mut self,
        alloc: Global,
        cond: u32,
        for_yes: &[u32],
        for_no: &[u32],
    ) -> Result<(List<Option<End>>, List<Option<End>>), Memory>
        ensures draft { OnOk result (self.new
            ≡ all_branched cond 0 for_yes.now for_no.now self.old) }
        ensures yes { IfOk result (λ es. es.0
            ≡ yes_ends (all_sides cond 0 for_yes.now for_no.now self.old)) }
        ensures no { IfOk result (λ es. es.1
            ≡ no_ends (all_sides cond 0 for_yes.now for_no.now self.old)) }
    {
        let mut yes = List::new(alloc);
        let mut no = List::new(alloc);
        let mut value: u32 = 0;
        for count in for_yes {
            let (yes_end, no_end) = self.branch_if(cond, value, *count, count_at(for_no, value))?;
            yes.push(yes_end)?;
            no.push(no_end)?;
            value = value.saturating_add(1);
        }
        Ok((yes, no))
    }

    // A branch of each value that the jump's sides hand on; the ends of the values for both sides.
    fn branch_handed(
        &mut self,
        alloc: Global,
        cond: u32,
        yes: &To,
        no: &To,
    ) -> Result<(List<Option<End>>, List<Option<End>>), Memory>
        ensures draft { OnOk result (self.new ≡ all_branched cond 0
            (handed_often (length self.old.ends) yes.now)
            (handed_often (length self.old.ends) no.now) self.old) }
        ensures yes { IfOk result (λ es. es.0 ≡ yes_ends (all_sides cond 0
            (handed_often (length self.old.ends) yes.now)
            (handed_often (length self.old.ends) no.now) self.old)) }
        ensures no { IfOk result (λ es. es.1 ≡ no_ends (all_sides cond 0
            (handed_often (length self.old.ends) yes.now)
            (handed_often (length self.old.ends) no.now) self.old)) }
    {
        let values = self.ends.len();
        let for_yes = handed(alloc, values, yes)?;
        let for_no = handed(alloc, values, no)?;
        self.branch_all(alloc, cond, for_yes.as_slice(), for_no.as_slice())
    }

    // An edge to the target of a side, which hands on a use of each value in order.
    fn lead_side(
        &mut self,
        alloc: Global,
        to: &To,
        control: Place,
        ends: List<Option<End>>,
    ) -> Result<(), Memory>
        ensures { OnOk result (self.new
            ≡ with_edge to.now.block control (taken to.now.with ends) self.old) }
    {
        let with = take_all(alloc, ends, to.with.as_slice())?;
        self.lead(to.block, control, with)
    }

    // To one of two targets.
    fn part(&mut self, alloc: Global, cond: u32, yes: &To, no: &To) -> Result<(), Memory>
        ensures { OnOk result (self.new ≡ parted cond yes.now no.now self.old) }
    {
        let (yes_ends, no_ends) = self.branch_handed(alloc, cond, yes, no)?;
        let unit = self.branch_control(cond)?;
        self.lead_side(alloc, yes, Place { unit, place: 0 }, yes_ends)?;
        self.lead_side(alloc, no, Place { unit, place: 1 }, no_ends)
    }

    /// A jump; a return leads to the target `join`.
    pub(crate) fn lay_jump(&mut self, alloc: Global, join: u32, jump: &Jump) -> Result<(), Memory>
        ensures { OnOk result (self.new ≡ jump_laid join jump.now self.old) }
    {
        match jump {
            Jump::Go(to) => self.go(alloc, to.block, to.with.as_slice()),
            Jump::Two { cond, yes, no } => self.part(alloc, *cond, yes, no),
            Jump::Return(Some(value)) => self.go(alloc, join, &[*value]),
            Jump::Return(None) => self.go(alloc, join, &[]),
        }
    }
}
