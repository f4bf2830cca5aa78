//! The edges of blocks, held apart from the blocks.
ghost use Rattle.std.specs.Prelude.{◌≡◌, length, IfOk, OnOk};
ghost use Rattle.block_merge.specs.Renamed.{moved_to, renamed_to};
ghost use Rattle.block_merge.specs.OutEdges.{to_of, jump_along, block_along, with_edges};

use crate::moving::moved;
use ir::{Block, Jump, List, Memory, To};
use std::alloc::Global;

/// An edge to a block, and what is handed to it in a buffer that can be filled again.
#[derive(Drop)]
pub(crate) struct Edge {
    pub(crate) block: u32,
    pub(crate) with: Vec<u32>,
}

/// The edges of a jump: of one without a condition `yes` alone counts, and of a return neither.
#[derive(Drop)]
pub(crate) struct OutEdges {
    pub(crate) yes: Edge,
    pub(crate) no: Edge,
}

impl Edge {
    /// The edge to a target.
    fn new(alloc: Global, to: &To) -> Result<Edge, Memory>
        ensures { IfOk result (λ e. to_of e ≡ to.now) }
    {
        Ok(Edge {
            block: to.block,
            with: Vec::from_slice(alloc, to.with.as_slice())?,
        })
    }

    /// An edge that does not count. Takes no memory.
    fn unused(alloc: Global) -> Edge {
        Edge {
            block: 0,
            with: Vec::new(alloc),
        }
    }

    /// The target of the edge.
    fn to(&self, alloc: Global) -> Result<To, Memory>
        ensures { IfOk result (λ t. t ≡ to_of self.now) }
    {
        let values = self.with.as_slice();
        let mut with = List::new(alloc);
        for value in values {
            with.push(*value)?;
        }
        Ok(To {
            block: self.block,
            with,
        })
    }

    /// Fills this edge with another.
    pub(crate) fn fill(&mut self, edge: &Edge) -> Result<(), Memory>
        ensures { OnOk result (to_of self.new ≡ to_of edge.now) }
    {
        self.block = edge.block;
        self.with.clear();
        self.with.extend_from_slice(edge.with.as_slice())?;
        Ok(())
    }

    /// Fills this edge with another into a block that leads on along `next`, and from there with `next`.
    pub(crate) fn fill_past(&mut self, edge: &Edge, next: &Edge) -> Result<(), Memory>
        ensures { OnOk result (to_of self.new
            ≡ renamed_to (moved_to (to_of edge.now).with 0) (to_of next.now)) }
    {
        let args = edge.with.as_slice();
        let values = next.with.as_slice();
        self.block = next.block;
        self.with.clear();
        for value in values {
            self.with.push(moved(args, 0, *value))?;
        }
        Ok(())
    }
}

impl OutEdges {
    /// The edges of a jump.
    fn new(alloc: Global, jump: &Jump) -> Result<OutEdges, Memory>
        ensures { IfOk result (λ es. jump_along es jump.now ≡ jump.now) }
    {
        match jump {
            Jump::Go(to) => Ok(OutEdges {
                yes: Edge::new(alloc, to)?,
                no: Edge::unused(alloc),
            }),
            Jump::Two { cond: _, yes, no } => Ok(OutEdges {
                yes: Edge::new(alloc, yes)?,
                no: Edge::new(alloc, no)?,
            }),
            Jump::Return(_) => Ok(OutEdges {
                yes: Edge::unused(alloc),
                no: Edge::unused(alloc),
            }),
        }
    }

    /// The jump of the same kind along these edges.
    fn jump(&self, alloc: Global, jump: &Jump) -> Result<Jump, Memory>
        ensures { IfOk result (λ j. j ≡ jump_along self.now jump.now) }
    {
        match jump {
            Jump::Go(_) => Ok(Jump::Go(self.yes.to(alloc)?)),
            Jump::Two {
                cond,
                yes: _,
                no: _,
            } => Ok(Jump::Two {
                cond: *cond,
                yes: self.yes.to(alloc)?,
                no: self.no.to(alloc)?,
            }),
            Jump::Return(value) => Ok(Jump::Return(*value)),
        }
    }

    /// The block with its jump along these edges.
    fn block(&self, alloc: Global, block: &Block) -> Result<Block, Memory>
        ensures { IfOk result (λ b. b ≡ block_along self.now block.now) }
    {
        Ok(Block {
            args: block.args.copy()?,
            steps: block.steps.copy()?,
            jump: self.jump(alloc, &block.jump)?,
        })
    }
}

/// The edges of each block.
#[tactic(auto, using(crate::proofs::WithEdges::none_along, crate::proofs::WithEdges::more_along, crate::proofs::WithEdges::all_along,))]
pub(crate) fn out_edges(alloc: Global, blocks: &[Block]) -> Result<Vec<OutEdges>, Memory>
    ensures long { IfOk result (λ edges. length edges.items ≡ length blocks.now) }
    ensures same { IfOk result (λ edges. with_edges blocks.now edges.items ≡ blocks.now) }
{
    let mut edges = Vec::with_capacity(alloc, blocks.len())?;
    for block in blocks {
        edges.push(OutEdges::new(alloc, &block.jump)?)?;
    }
    Ok(edges)
}

/// Each block with the edges at its place.
#[tactic(auto, using(crate::proofs::Remade::more_remade, crate::proofs::Remade::all_remade))]
pub(crate) fn with_edges(
    alloc: Global,
    blocks: &[Block],
    edges: &[OutEdges],
) -> Result<List<Block>, Memory>
    requires { length edges.now ≡ length blocks.now }
    ensures { IfOk result (λ bs. bs ≡ with_edges blocks.now edges.now) }
{
    let mut made = List::new(alloc);
    let count = blocks.len();
    for at in 0..count {
        made.push(edges[at].block(alloc, &blocks[at])?)?;
    }
    Ok(made)
}
