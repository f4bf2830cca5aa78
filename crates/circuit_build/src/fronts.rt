//! What stands before the blocks: the entry, the scalars and the queues.
ghost use Rattle.std.specs.Prelude.{◌≡◌, ◌++◌, Some, [], replicate, slice_get, IfOk, OnOk};
ghost use Rattle.circuit_build.specs.Fronts.{
  started,
  params_laid,
  param_ends,
  entered,
  port_of,
  ports_at,
  numbers_from,
  number_after,
  queue_laid,
  without_queue,
  queue_if,
  queues_laid,
};
ghost use Rattle.circuit_build.specs.Sorting.{
  picked,
  own,
  ports_for,
  all_ports,
  all_groups,
  greatest_depth,
  own_queue,
  put_at,
  ArePlaces,
};

use crate::draft::{Draft, End, Queue, number};
use crate::edges::zeros;
use el_base::{Array, List, Memory, Scalar};
use ir::{Access, Block, Instr};
use net_types::{Place, Port, Unit};
use std::alloc::Global;

/// A net with its entry alone.
pub(crate) fn start(alloc: Global, targets: usize) -> Result<Draft, Memory>
    ensures { IfOk result (λ d. d ≡ started targets) }
{
    let tails = zeros(alloc, targets)?;
    let mut draft = Draft {
        units: List::new(alloc),
        chans: List::new(alloc),
        control: Place { unit: 0, place: 0 },
        trigger: Place { unit: 0, place: 0 },
        uses: List::new(alloc),
        ends: List::new(alloc),
        edges: List::new(alloc),
        tails,
        heads: List::new(alloc),
        queues: List::new(alloc),
    };
    draft.units.push(Unit::Entry)?;
    Ok(draft)
}

// The kind of port for the step at a place.
fn port_at(steps: &[Instr], place: u32) -> Port
    ensures { result ≡ port_of (slice_get steps.now place) }
{
    match steps.get(place as usize) {
        Some(step) => port_for(step),
        None => Port::Load,
    }
}

fn port_for(step: &Instr) -> Port
    ensures { result ≡ port_of (Some step.now) }
{
    match *step {
        Instr::Store {
            array: _,
            addr: _,
            value: _,
        } => Port::Store,
        Instr::Const { width: _, value: _ }
        | Instr::One(_, _)
        | Instr::Two(_, _, _)
        | Instr::Select {
            width: _,
            cond: _,
            yes: _,
            no: _,
        }
        | Instr::Load { array: _, addr: _ } => Port::Load,
    }
}

// Adds the ports for the steps at some places of a block.
fn add_ports(ports: &mut List<Port>, steps: &[Instr], places: &[u32]) -> Result<(), Memory>
    ensures { OnOk result (ports.new ≡ ports.old ++ ports_at steps.now places.now) }
{
    for place in places {
        ports.push(port_at(steps, *place))?;
    }
    Ok(())
}

// Adds the ports for an access.
fn add_access(ports: &mut List<Port>, blocks: &[Block], access: &Access) -> Result<(), Memory>
    ensures { OnOk result (ports.new ≡ ports.old ++ ports_for blocks.now access.now) }
{
    match blocks.get(access.block as usize) {
        Some(block) => add_ports(ports, block.steps.as_slice(), access.steps.as_slice()),
        None => add_ports(ports, &[], access.steps.as_slice()),
    }
}

// The ports of a queue for the accesses at some places.
fn ports_of(
    alloc: Global,
    blocks: &[Block],
    accesses: &[Access],
    places: &[usize],
) -> Result<List<Port>, Memory>
    ensures { IfOk result (λ ps. ps ≡ all_ports blocks.now (picked accesses.now places.now)) }
{
    let mut ports = List::new(alloc);
    for place in places {
        if let Some(access) = accesses.get(*place) {
            add_access(&mut ports, blocks, access)?;
        }
    }
    Ok(ports)
}

// A group with a port for each step, from a port on.
#[tactic(auto, using(crate::proofs::Tables::numbers_grow))]
fn group_from(alloc: Global, first: u32, steps: &[u32]) -> Result<List<u32>, Memory>
    ensures { IfOk result (λ ps. ps ≡ numbers_from first steps.now) }
{
    let mut group = List::new(alloc);
    let mut port = first;
    for step in steps {
        group.push(port)?;
        port = port.saturating_add(1);
    }
    Ok(group)
}

// The port after those of a group.
#[tactic(auto, using(crate::proofs::Tables::after_one))]
fn port_after(first: u32, steps: &[u32]) -> u32
    ensures { result ≡ number_after first steps.now }
{
    let mut port = first;
    for step in steps {
        port = port.saturating_add(1);
    }
    port
}

// The groups of a queue for the accesses at some places.
fn groups_of(
    alloc: Global,
    accesses: &[Access],
    places: &[usize],
) -> Result<List<List<u32>>, Memory>
    ensures { IfOk result (λ gs. gs ≡ all_groups 0 (picked accesses.now places.now)) }
{
    let mut groups = List::new(alloc);
    let mut port: u32 = 0;
    for place in places {
        if let Some(access) = accesses.get(*place) {
            let group = group_from(alloc, port, access.steps.as_slice())?;
            groups.push(group)?;
            port = port_after(port, access.steps.as_slice());
        }
    }
    Ok(groups)
}

// The depth of a queue for the accesses at some places: that of the greatest group, and 16 at least.
fn depth_of(accesses: &[Access], places: &[usize]) -> u32
    ensures { result ≡ greatest_depth 16 (picked accesses.now places.now) }
{
    let mut depth: u32 = 16;
    for place in places {
        if let Some(access) = accesses.get(*place) {
            depth = depth.max(number(access.steps.len()));
        }
    }
    depth
}

// For each of so many arrays the places of its accesses.
#[tactic(auto, using(crate::proofs::Sorting::one_put, crate::proofs::Sorting::none_put, crate::proofs::Sorting::all_put))]
fn places_by_array(
    alloc: Global,
    count: usize,
    accesses: &[Access],
) -> Result<List<List<usize>>, Memory>
    ensures { IfOk result (ArePlaces count accesses.now) }
{
    let mut table = empty_lists(alloc, count)?;
    let mut place: usize = 0;
    for access in accesses {
        put_at(&mut table, access.array as usize, place)?;
        place += 1;
    }
    Ok(table)
}

// So many empty lists.
fn empty_lists(alloc: Global, count: usize) -> Result<List<List<usize>>, Memory>
    ensures { IfOk result (λ table. table ≡ replicate count []) }
{
    let mut table = List::new(alloc);
    for _ in 0..count {
        table.push(List::new(alloc))?;
    }
    Ok(table)
}

// Adds a place to the list of an array, where the table has it.
#[tactic(auto, using(std::proofs::lemmas::List::set_past))]
fn put_at(table: &mut List<List<usize>>, array: usize, place: usize) -> Result<(), Memory>
    ensures { OnOk result (table.new ≡ put_at table.old array place) }
{
    if array < table.len() {
        table.as_mut_slice()[array].push(place)?;
    }
    Ok(())
}

impl Draft {
    // The units of the scalars, and their ends.
    fn lay_params(&mut self, alloc: Global, scalars: &[Scalar]) -> Result<List<End>, Memory>
        ensures draft { OnOk result (self.new ≡ params_laid 0 scalars.now self.old) }
        ensures ends { IfOk result (λ es. es ≡ param_ends 0 scalars.now self.old) }
    {
        let mut ends = List::new(alloc);
        let mut scalar_number: u32 = 0;
        for scalar in scalars {
            let unit = self.put(Unit::Param(scalar_number))?;
            ends.push(End {
                place: Place { unit, place: 0 },
                width: scalar.ty.width(),
            })?;
            scalar_number = scalar_number.saturating_add(1);
        }
        Ok(ends)
    }

    /// The scalars, and the first edge, into block 0.
    pub(crate) fn enter(&mut self, alloc: Global, scalars: &[Scalar]) -> Result<(), Memory>
        ensures { OnOk result (self.new ≡ entered scalars.now self.old) }
    {
        let control = self.control;
        let ends = self.lay_params(alloc, scalars)?;
        self.lead(0, control, ends)
    }

    fn put_queue(
        &mut self,
        array: u32,
        ports: List<Port>,
        groups: List<List<u32>>,
        depth: u32,
    ) -> Result<(), Memory>
        ensures { OnOk result (self.new ≡ queue_laid array ports groups depth self.old) }
    {
        let count = number(groups.len());
        let unit = self.put(Unit::Lsq {
            array,
            depth,
            ports,
            groups,
            forward: false,
        })?;
        self.queues.push(Some(Queue {
            unit,
            groups: count,
            group: 0,
            port: 0,
        }))
    }

    // The queue of an array, where some access names it.
    fn lay_queue(
        &mut self,
        array: u32,
        ports: List<Port>,
        groups: List<List<u32>>,
        depth: u32,
    ) -> Result<(), Memory>
        ensures { OnOk result (self.new ≡ queue_if array ports groups depth self.old) }
    {
        if groups.is_empty() {
            self.queues.push(None)
        } else {
            self.put_queue(array, ports, groups, depth)
        }
    }

    // The queue of an array, whose accesses stand at these places.
    #[tactic(auto, using(crate::proofs::Sorting::queue_of_own))]
    fn lay_own_queue(
        &mut self,
        alloc: Global,
        array: u32,
        blocks: &[Block],
        accesses: &[Access],
        places: &[usize],
    ) -> Result<(), Memory>
        requires { picked accesses.now places.now ≡ own array accesses.now }
        ensures { OnOk result (self.new ≡ own_queue blocks.now accesses.now array self.old) }
    {
        let ports = ports_of(alloc, blocks, accesses, places)?;
        let groups = groups_of(alloc, accesses, places)?;
        self.lay_queue(array, ports, groups, depth_of(accesses, places))
    }

    /// The queues of all arrays, in order.
    pub(crate) fn lay_queues(
        &mut self,
        alloc: Global,
        blocks: &[Block],
        accesses: &[Access],
        arrays: &[Array],
    ) -> Result<(), Memory>
        ensures { OnOk result (self.new
            ≡ queues_laid blocks.now accesses.now 0 arrays.now self.old) }
    {
        let table = places_by_array(alloc, arrays.len(), accesses)?;
        let table = table.as_slice();
        let mut number: u32 = 0;
        for array in arrays {
            let places = table[number as usize].as_slice();
            self.lay_own_queue(alloc, number, blocks, accesses, places)?;
            number = number.saturating_add(1);
        }
        Ok(())
    }
}
