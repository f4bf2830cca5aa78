//! The blocks of a graph.
ghost use Rattle.std.specs.Prelude.{◌≡◌, ◌≤◌, cond, drop, length, IfOk, OnOk};
ghost use Rattle.circuit_build.specs.Blocks.{
  muxes_laid,
  args_defined,
  opened,
  ends_defined,
  passed_in,
  tail_of,
  head_laid,
  ins_of,
  allocations,
  after_block,
  has_access,
  bare_buffered,
  block_laid,
  blocks_laid,
};

use crate::draft::{Draft, Edge, End, number};
use crate::edges::count_at;
use crate::uses::{constants, uses};
use el_base::{Array, List, Memory};
use ir::{Access, Block, Jump};
use net_types::{Place, Unit};
use std::alloc::Global;

/// How many inputs the head of a target has, by the counts of edges.
pub(crate) fn ins_of(counts: &[u32], target: u32) -> u32
    ensures { result ≡ ins_of counts.now target }
{
    let count = counts.get(target as usize).copied().unwrap_or(0);
    if count == 0 { 1 } else { count }
}

// Whether the block has an access; the block's accesses come first.
fn has_access(block: u32, accesses: &[Access]) -> bool
    ensures { result ≡ has_access block accesses.now }
{
    match accesses.first() {
        Some(access) => access.block == block,
        None => false,
    }
}

// So many, or none.
fn count_if(some: bool, count: u32) -> u32
    ensures { result ≡ cond some count 0 }
{
    if some { count } else { 0 }
}

impl Draft {
    // The edge of a target with one edge, if it stands already.
    fn tail(&self, ins: u32, target: u32) -> Result<Option<Edge>, Memory>
        ensures { IfOk result (λ edge. edge ≡ tail_of ins target self.now) }
    {
        let count = count_at(self.tails.as_slice(), target) as usize;
        if ins != 1 || count == 0 {
            return Ok(None);
        }
        match self.edges.as_slice().get(count - 1) {
            Some(edge) => Ok(Some(edge.copy()?)),
            None => Ok(None),
        }
    }

    // The next values of the block stand at these ends.
    fn define_ends(&mut self, ends: &[End]) -> Result<(), Memory>
        ensures { OnOk result (self.new ≡ ends_defined ends.now self.old) }
    {
        for end in ends {
            self.define(end.place, end.width)?;
        }
        Ok(())
    }

    // The head of a target whose one edge stands: what that hands on are the arguments.
    fn pass_in(&mut self, edge: &Edge, triggers: u32) -> Result<(), Memory>
        ensures { OnOk result (self.new ≡ passed_in edge.now triggers self.old) }
    {
        self.control = edge.control;
        self.heads.push(0)?;
        self.fork_control(triggers)?;
        self.define_ends(edge.with.as_slice())
    }

    // A mux for each argument, selected by a copy of the control token.
    fn lay_muxes(&mut self, ins: u32, args: &[u32]) -> Result<(), Memory>
        ensures { OnOk result (self.new ≡ muxes_laid ins args.now self.old) }
    {
        for width in args {
            let trigger = self.next_trigger();
            let unit = self.put(Unit::Mux { width: *width, ins })?;
            self.feed(trigger, unit, 0)?;
        }
        Ok(())
    }

    // The arguments stand at units in a row, from one on.
    fn define_args(&mut self, first: u32, args: &[u32]) -> Result<(), Memory>
        ensures { OnOk result (self.new ≡ args_defined first args.now self.old) }
    {
        let mut unit = first;
        for width in args {
            self.define(Place { unit, place: 0 }, *width)?;
            unit = unit.saturating_add(1);
        }
        Ok(())
    }

    // The merge of the control tokens of a target's edges, and the muxes of its arguments.
    fn open(&mut self, ins: u32, args: &[u32], triggers: u32) -> Result<(), Memory>
        ensures { OnOk result (self.new ≡ opened ins args.now triggers self.old) }
    {
        let unit = self.put(Unit::Cmerge { ins })?;
        self.heads.push(unit)?;
        self.control = Place { unit, place: 0 };
        self.fork_control(triggers.saturating_add(number(args.len())))?;
        let first = self.next();
        self.lay_muxes(ins, args)?;
        self.define_args(first, args)
    }

    /// The head of a target with arguments of these widths and uses, and so many triggers.
    pub(crate) fn lay_head(
        &mut self,
        alloc: Global,
        ins: u32,
        target: u32,
        args: &[u32],
        uses: List<u32>,
        triggers: u32,
    ) -> Result<(), Memory>
        ensures { OnOk result (self.new
            ≡ head_laid ins target args.now uses triggers self.old) }
    {
        let tail = self.tail(ins, target)?;
        self.uses = uses;
        self.ends = List::new(alloc);
        match tail {
            Some(edge) => self.pass_in(&edge, triggers),
            None => self.open(ins, args, triggers),
        }
    }

    // The groups of a block, of which the accesses come first; it returns how many they are.
    fn allocate_all(&mut self, block: u32, accesses: &[Access]) -> Result<usize, Memory>
        ensures draft { OnOk result (self.new ≡ allocations block accesses.now self.old) }
        ensures rest { IfOk result (λ n. drop n accesses.now ≡ after_block block accesses.now) }
        ensures within { IfOk result (λ n. n ≤ length accesses.now) }
    {
        let mut used = 0;
        for access in accesses {
            if access.block != block {
                return Ok(used);
            }
            self.allocate(access.array)?;
            used += 1;
        }
        Ok(used)
    }

    // A block that leads on and for which nothing is laid gets a fork of its control token, so that each of its visits fires.
    fn buffer_if_bare(&mut self, laid: usize, jump: &Jump) -> Result<(), Memory>
        ensures { OnOk result (self.new ≡ bare_buffered laid jump.now self.old) }
    {
        match jump {
            Jump::Go(_) => {
                if self.chans.len() == laid {
                    self.buffer()
                } else {
                    Ok(())
                }
            }
            Jump::Two {
                cond: _,
                yes: _,
                no: _,
            }
            | Jump::Return(_) => Ok(()),
        }
    }

    // A block; it returns how many accesses are its own.
    fn lay_block(
        &mut self,
        alloc: Global,
        arrays: &[Array],
        join: u32,
        ins: u32,
        at: u32,
        block: &Block,
        accesses: &[Access],
    ) -> Result<usize, Memory>
        ensures draft { OnOk result (self.new
            ≡ block_laid arrays.now join ins at block.now accesses.now self.old) }
        ensures rest { IfOk result (λ n. drop n accesses.now ≡ after_block at accesses.now) }
        ensures within { IfOk result (λ n. n ≤ length accesses.now) }
    {
        let uses = uses(alloc, block)?;
        let triggers = constants(block, uses.as_slice());
        let late = has_access(at, accesses);
        let laid = self.chans.len();
        self.lay_head(
            alloc,
            ins,
            at,
            block.args.as_slice(),
            uses,
            count_if(!late, triggers),
        )?;
        let used = self.allocate_all(at, accesses)?;
        self.fork_control(count_if(late, triggers))?;
        self.lay_steps(arrays, block.steps.as_slice())?;
        self.buffer_if_bare(laid, &block.jump)?;
        self.lay_jump(alloc, join, &block.jump)?;
        Ok(used)
    }

    /// All blocks, in order.
    pub(crate) fn lay_blocks(
        &mut self,
        alloc: Global,
        arrays: &[Array],
        join: u32,
        counts: &[u32],
        blocks: &[Block],
        accesses: &[Access],
    ) -> Result<(), Memory>
        ensures { OnOk result (self.new
            ≡ blocks_laid arrays.now join counts.now 0 blocks.now accesses.now self.old) }
    {
        let mut at: u32 = 0;
        let mut rest = accesses;
        for block in blocks {
            let ins = ins_of(counts, at);
            let used = self.lay_block(alloc, arrays, join, ins, at, block, rest)?;
            let (_own, later) = rest.split_at(used);
            rest = later;
            at = at.saturating_add(1);
        }
        Ok(())
    }
}
