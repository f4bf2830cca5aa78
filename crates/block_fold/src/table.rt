//! The steps of a block under construction, with the number of the first of equal ones.
ghost use Rattle.std.specs.Prelude.{◌≡◌, ◌+◌, ◌<◌, ◌≤◌, [], length, IfOk, OnOk};
ghost use Rattle.el_base.specs.Limits.{IsNumbered};
ghost use Rattle.block_fold.specs.Puts.{
  appended,
  added,
  most_made,
  most_values,
  put,
  put_all,
  put_as,
  depth,
};
ghost use Rattle.block_fold.specs.Code.{values_in, PlacesAreRight, IsNoted, IsPutThere};

use crate::numbers::renamed;
use block_rules::{Rewriting, rewrite};
use indexmap::IndexMap;
use ir::{Instr, List, Memory};
use std::alloc::Global;

/// So many values a block may have where rules are tried.
const MOST_VALUES: u32 = 2_147_483_648;

/// So many steps a rule may make.
const MOST_MADE: usize = 64;

/// So deep the steps that rules make are put by rules again.
const DEPTH: u32 = 8;

/// The steps of a block with so many arguments.
#[derive(Drop)]
pub(crate) struct StepTable {
    pub(crate) args: u32,
    pub(crate) steps: List<Instr>,
    places: IndexMap<Instr, u32>,
}

impl StepTable {
    /// No steps.
    pub(crate) fn new(alloc: Global, args: u32) -> StepTable
        ensures args { result.args ≡ args }
        ensures steps { result.steps ≡ [] }
        ensures places { PlacesAreRight result }
    {
        StepTable {
            args,
            steps: List::new(alloc),
            places: IndexMap::new(alloc),
        }
    }

    /// The steps, in order.
    pub(crate) fn into_steps(self) -> List<Instr>
        ensures { result ≡ self.steps }
    {
        let StepTable {
            args: _args,
            steps,
            places: _places,
        } = self;
        steps
    }

    // How many values there are.
    pub(crate) fn values(&self) -> u32
        requires { IsNumbered (values_in self.now) }
        ensures { result ≡ values_in self.now }
    {
        self.args + self.steps.len() as u32
    }

    /// The step behind the others.
    pub(crate) fn append(&mut self, step: Instr) -> Result<u32, Memory>
        requires places { PlacesAreRight self.old }
        requires few { IsNumbered (values_in self.old) }
        ensures { IfOk result (λ v. IsPutThere self.old self.new v
            (appended self.old.args self.old.steps step)) }
    {
        let number = self.values();
        note(&mut self.places, step, number)?;
        self.steps.push(step)?;
        Ok(number)
    }

    // The first equal step, and the step itself behind the others where there is none.
    fn add(&mut self, step: Instr) -> Result<u32, Memory>
        requires places { PlacesAreRight self.old }
        requires few { IsNumbered (values_in self.old) }
        ensures { IfOk result (λ v. IsPutThere self.old self.new v
            (added self.old.args self.old.steps step)) }
    {
        match self.places.get(&step).copied() {
            Some(number) => Ok(number),
            None => self.append(step),
        }
    }

    /// A pure step, which by the rules becomes a value or other steps.
    pub(crate) fn put_pure(&mut self, alloc: Global, step: Instr) -> Result<u32, Memory>
        requires places { PlacesAreRight self.old }
        requires few { IsNumbered (values_in self.old) }
        ensures { IfOk result (λ v. IsPutThere self.old self.new v
            (put depth self.old.args self.old.steps step)) }
    {
        self.put(alloc, step, DEPTH)
    }

    // A step put so deep.
    #[cycle(put)]
    fn put(&mut self, alloc: Global, step: Instr, depth: u32) -> Result<u32, Memory>
        requires places { PlacesAreRight self.old }
        requires few { IsNumbered (values_in self.old) }
        requires shallow { depth ≤ 8 }
        ensures { IfOk result (λ v. IsPutThere self.old self.new v
            (put depth self.old.args self.old.steps step)) }
    {
        if depth == 0 {
            return self.add(step);
        }
        if self.values() >= MOST_VALUES {
            return self.add(step);
        }
        let made = rewrite(alloc, self.args, self.steps.as_slice(), step)?;
        self.put_as(alloc, step, made, depth - 1)
    }

    // A step that became this.
    #[cycle(put)]
    fn put_as(
        &mut self,
        alloc: Global,
        step: Instr,
        made: Rewriting,
        depth: u32,
    ) -> Result<u32, Memory>
        requires places { PlacesAreRight self.old }
        requires few { values_in self.old < most_values }
        requires shallow { depth ≤ 7 }
        ensures { IfOk result (λ v. IsPutThere self.old self.new v
            (put_as (put depth self.old.args) self.old.args self.old.steps step made)) }
    {
        match made {
            Rewriting::Kept => self.add(step),
            Rewriting::Value(value) => Ok(value),
            Rewriting::Steps(steps) => {
                if steps.len() <= MOST_MADE {
                    self.put_all(alloc, steps.as_slice(), depth)
                } else {
                    self.add(step)
                }
            }
        }
    }

    // Steps that a rule made, one after the other.
    #[cycle(put)]
    fn put_all(&mut self, alloc: Global, steps: &[Instr], depth: u32) -> Result<u32, Memory>
        requires places { PlacesAreRight self.old }
        requires few { values_in self.old < most_values }
        requires made { length steps.now ≤ most_made }
        requires shallow { depth ≤ 7 }
        ensures { IfOk result (λ v. IsPutThere self.old self.new v
            (put_all (put depth self.old.args) (values_in self.old) []
            (record { steps = self.old.steps; number = 0 }) steps.now)) }
    {
        let first = self.values();
        let mut numbers = List::new(alloc);
        let mut last = 0;
        for step in steps {
            last = self.put(alloc, renamed(first, numbers.as_slice(), step), depth)?;
            numbers.push(last)?;
        }
        Ok(last)
    }
}

// Keeps a number for a step that has none.
fn note(places: &mut IndexMap<Instr, u32>, step: Instr, number: u32) -> Result<(), Memory>
    ensures { OnOk result (IsNoted places.old places.new step number) }
{
    if places.get(&step).is_none() {
        places.insert(step, number)?;
    }
    Ok(())
}
