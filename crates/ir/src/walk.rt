//! A plain walk along the visits of a graph, for tests: it keeps no more than the visit that it is at.
ghost use Rattle.std.specs.Prelude.{◌≡◌, map, IfOk};
ghost use Rattle.ir.specs.Steps.{value_at, beginning};
ghost use Rattle.ir.specs.Graphs.{block_at, handed, onward_of, result_of, first_visit};
ghost use Rattle.ir.specs.Passes.{onward_by, IsPassed, IsPerformed};
ghost use Rattle.ir.specs.Walks.{IsWalk};

use crate::graph::{Block, Ir, Jump, To};
use crate::instr::Instr;
use crate::perform::{step_strays, step_value, store, value_at};
use el_base::{List, Memory};
use std::alloc::Global;

/// What a walk along a graph met.
#[derive(Drop)]
pub struct Walk {
    /// The arrays after the last visit.
    pub arrays: List<List<u64>>,
    /// How many visits were made.
    pub visits: u64,
    /// The weights of the visits, added up.
    pub weight: u128,
    /// How many loads and stores went past their array.
    pub strays: u128,
    pub ending: Ending,
}

/// How a walk ended.
#[derive(Clone, Copy, PartialEq, Eq)]
pub enum Ending {
    /// The last visit returned.
    Returned(Option<u64>),
    /// As many visits as may be were made, and none of them returned.
    Unfinished,
}

/// What a visit makes, and what it hands on.
#[derive(Drop)]
struct Passed {
    arrays: List<List<u64>>,
    strays: u64,
    weight: u128,
    way: Way,
    handed: List<u64>,
}

/// Where a jump leads, and what it hands on.
#[derive(Drop)]
struct Led {
    way: Way,
    handed: List<u64>,
}

/// To a block, or out of the graph with the result.
#[derive(Clone, Copy)]
enum Way {
    Onto(u32),
    Leaves(Option<u64>),
}

impl Ir {
    /// Walks along the graph from block 0 on, by the patterns of its scalars and the patterns of the elements of its
    /// arrays: at most `limit` visits.
    ///
    /// A load past its array gives 0 and a store past its array writes nothing. Each of them counts as a stray.
    ///
    /// # Errors
    ///
    /// [`Memory`] where memory is wanting.
    #[tactic(auto, using(crate::proofs::Walking::at_first))]
    pub fn walk(
        &self,
        alloc: Global,
        scalars: List<u64>,
        arrays: List<List<u64>>,
        limit: u32,
    ) -> Result<Walk, Memory>
        ensures { IfOk result (IsWalk self.now (first_visit scalars arrays) limit) }
    {
        let mut block = 0;
        let mut given = scalars;
        let mut arrays = arrays;
        let mut weight: u128 = 0;
        let mut strays: u128 = 0;
        for visit in 0..limit {
            let passed = self.pass(alloc, block, given, arrays)?;
            weight += passed.weight;
            strays += passed.strays as u128;
            arrays = passed.arrays;
            given = passed.handed;
            match passed.way {
                Way::Onto(next) => block = next,
                Way::Leaves(result) => {
                    return Ok(Walk {
                        arrays,
                        visits: visit as u64 + 1,
                        weight,
                        strays,
                        ending: Ending::Returned(result),
                    });
                }
            }
        }
        Ok(Walk {
            arrays,
            visits: limit as u64,
            weight,
            strays,
            ending: Ending::Unfinished,
        })
    }

    /// Visits a block. One that the graph does not have returns nothing.
    fn pass(
        &self,
        alloc: Global,
        number: u32,
        given: List<u64>,
        arrays: List<List<u64>>,
    ) -> Result<Passed, Memory>
        ensures { IfOk result (IsPassed (block_at self.now number) given arrays) }
    {
        match self.blocks.as_slice().get(number as usize) {
            Some(block) => block.pass(alloc, given, arrays),
            None => Ok(Passed {
                arrays,
                strays: 0,
                weight: 1,
                way: Way::Leaves(None),
                handed: List::new(alloc),
            }),
        }
    }
}

impl Block {
    /// Visits the block.
    fn pass(
        &self,
        alloc: Global,
        given: List<u64>,
        arrays: List<List<u64>>,
    ) -> Result<Passed, Memory>
        ensures { IfOk result (IsPassed self.now given arrays) }
    {
        let mut values = given;
        let mut arrays = arrays;
        let strays = perform(self.steps.as_slice(), &mut values, &mut arrays)?;
        let led = self.jump.led(alloc, values.as_slice())?;
        Ok(Passed {
            arrays,
            strays,
            weight: self.weight(),
            way: led.way,
            handed: led.handed,
        })
    }
}

impl Jump {
    /// Where it leads by these values.
    #[tactic(auto, using(crate::proofs::Performed::side_none, crate::proofs::Performed::side_some))]
    fn led(&self, alloc: Global, values: &[u64]) -> Result<Led, Memory>
        ensures { IfOk result (λ l. onward_by l.way l.handed ≡ onward_of self.now values.now) }
    {
        match self {
            Jump::Go(to) => to.led(alloc, values),
            Jump::Two { cond, yes, no } => {
                if value_at(values, *cond) == 0 {
                    no.led(alloc, values)
                } else {
                    yes.led(alloc, values)
                }
            }
            Jump::Return(result) => Ok(Led {
                way: Way::Leaves(returned(*result, values)),
                handed: List::new(alloc),
            }),
        }
    }
}

impl To {
    /// The block with the values that are handed to it.
    fn led(&self, alloc: Global, values: &[u64]) -> Result<Led, Memory>
        ensures { IfOk result (λ l. onward_by l.way l.handed ≡ handed values.now self.now) }
    {
        Ok(Led {
            way: Way::Onto(self.block),
            handed: picked(alloc, self.with.as_slice(), values)?,
        })
    }
}

/// The value that is returned, where there is one.
fn returned(number: Option<u32>, values: &[u64]) -> Option<u64>
    ensures { result ≡ result_of values.now number }
{
    match number {
        Some(number) => Some(value_at(values, number)),
        None => None,
    }
}

/// The values of these numbers, in order.
#[tactic(auto, using(crate::proofs::Performed::picked_more, crate::proofs::Performed::picked_all))]
fn picked(alloc: Global, numbers: &[u32], values: &[u64]) -> Result<List<u64>, Memory>
    ensures { IfOk result (λ vs. vs ≡ map (value_at values.now) numbers.now) }
{
    let mut picked = List::new(alloc);
    for number in numbers {
        picked.push(value_at(values, *number))?;
    }
    Ok(picked)
}

/// Makes the steps, and counts those that go past their array.
#[tactic(auto, using(crate::proofs::Performed::performing_more, crate::proofs::Performed::performed_all))]
fn perform(
    steps: &[Instr],
    values: &mut List<u64>,
    arrays: &mut List<List<u64>>,
) -> Result<u64, Memory>
    ensures { IfOk result (IsPerformed steps.now (beginning values.old arrays.old)
        values.new arrays.new) }
{
    let mut strays = 0;
    for step in steps {
        let value = step_value(step, values.as_slice(), arrays.as_slice());
        strays += step_strays(step, values.as_slice(), arrays.as_slice());
        store(step, values.as_slice(), arrays);
        values.push(value)?;
    }
    Ok(strays)
}
