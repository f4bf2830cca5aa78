//! The passes over a merged graph, one after another, and the bounds of what they make.
ghost use Rattle.std.specs.Prelude.{◌≡◌, ◌≤◌, IfOk};
ghost use Rattle.ir.specs.Accesses.{accesses_in};
ghost use Rattle.ir.specs.Graphs.{size};
ghost use Rattle.kernel_graph.specs.Optimized.{pass_of, after_passes, is_light, is_within, optimized_within};

use block_copy::copy;
use block_fold::fold;
use block_merge::merge;
use block_select::select;
use el_base::Memory;
use ir::{Block, Instr, Ir};
use std::alloc::Global;

/// The greatest size of a graph that a pass begins with, and of one that is kept.
const MAX_SIZE: u128 = 8_000_000;

/// The greatest number of accesses of a block.
const MAX_ACCESSES: usize = 1_024;

/// A pass over a block graph.
#[derive(Clone, Copy)]
pub(crate) enum Pass {
    /// Blocks with fewer steps that make the same values.
    Fold,
    /// Fewer blocks.
    Merge,
    /// Choices of values in place of branches.
    Select,
    /// Copies of blocks behind others, where conditions are constants then.
    Copy,
}

impl Pass {
    /// What the pass makes of a graph. No block with choices or copies weighs more than `most`.
    fn run(self, alloc: Global, graph: &Ir, most: u64) -> Result<Ir, Memory>
        requires small { size graph.now ≤ 8000000 }
        requires light { most ≤ 8000000 }
        ensures { IfOk result (λ g. g ≡ pass_of most self graph.now) }
    {
        match self {
            Pass::Fold => fold(alloc, graph),
            Pass::Merge => merge(alloc, graph),
            Pass::Select => select(alloc, graph, most),
            Pass::Copy => copy(alloc, graph, most),
        }
    }
}

/// What the passes make of a merged graph one after another, where each block weighs at most `most` and all bounds are
/// kept; else the merged graph.
///
/// # Errors
///
/// [`Memory`] where memory is wanting.
pub(crate) fn optimize(alloc: Global, graph: Ir, most: u64) -> Result<Ir, Memory>
    requires small { size graph ≤ 8000000 }
    requires light { most ≤ 8000000 }
    ensures { IfOk result (λ g. g ≡ optimized_within most graph) }
{
    let folded = Pass::Fold.run(alloc, &graph, most)?;
    let order = [
        Pass::Merge,
        Pass::Select,
        Pass::Copy,
        Pass::Merge,
        Pass::Fold,
        Pass::Select,
        Pass::Merge,
        Pass::Fold,
        Pass::Merge,
    ];
    match passed(alloc, folded, &order, most)? {
        Some(made) => {
            if is_within(&made, most) {
                Ok(made)
            } else {
                Ok(graph)
            }
        }
        None => Ok(graph),
    }
}

/// What the passes make of a graph one after another, or nothing where one would begin with too great a graph.
fn passed(alloc: Global, graph: Ir, passes: &[Pass], most: u64) -> Result<Option<Ir>, Memory>
    requires { most ≤ 8000000 }
    ensures { IfOk result (λ made. made ≡ after_passes most passes.now graph) }
{
    let mut made = graph;
    for pass in passes {
        if !made.has_size_within(MAX_SIZE) {
            return Ok(None);
        }
        made = pass.run(alloc, &made, most)?;
    }
    Ok(Some(made))
}

/// Whether each block weighs at most `most` and has few accesses, and the size is within bounds.
fn is_within(graph: &Ir, most: u64) -> bool
    ensures { result ≡ is_within most graph.now }
{
    for block in graph.look() {
        if !is_light(block, most) {
            return false;
        }
    }
    graph.has_size_within(MAX_SIZE)
}

/// Whether a block weighs at most `most` and has few accesses.
fn is_light(block: &Block, most: u64) -> bool
    ensures { result ≡ is_light most block.now }
{
    block.weight() <= most as u128 && accesses(block.steps.as_slice()) <= MAX_ACCESSES
}

/// How many of the steps are loads and stores.
fn accesses(steps: &[Instr]) -> usize
    ensures { result ≡ accesses_in steps.now }
{
    let mut count: usize = 0;
    for step in steps {
        match step {
            Instr::Load { .. } | Instr::Store { .. } => count += 1,
            Instr::Const { .. } | Instr::One(..) | Instr::Two(..) | Instr::Select { .. } => {}
        }
    }
    count
}
