//! The graph that parts are.
ghost use Rattle.std.specs.Prelude.{◌≡◌, ℕ, List, map, slice_get, IfOk, IfSome, IfNone};
ghost use Rattle.el_base.specs.Widths.{ty_width};
ghost use Rattle.ir.specs.Graphs.{IsGraph};
ghost use Rattle.graph_check.specs.Fits.{same_numbers, enters, graph_fits};

use crate::blocks::blocks_fit;
use ir::{Array, Block, Ir, List, Memory, Name, Scalar, Ty};
use std::alloc::Global;

// Whether the arguments have the widths of the scalars.
#[tactic(auto, using(crate::proofs::Walking::scalars_apart))]
fn takes_scalars(args: &[u32], scalars: &[Scalar]) -> bool
    ensures { result ≡ same_numbers args.now (map (λ s. ty_width s.ty) scalars.now) }
{
    if args.len() != scalars.len() {
        return false;
    }
    for at in 0..args.len() {
        if args[at] != scalars[at].ty.width() {
            return false;
        }
    }
    true
}

fn enters(blocks: &[Block], scalars: &[Scalar]) -> bool
    ensures { result ≡ enters (slice_get blocks.now 0) (map (λ s. ty_width s.ty) scalars.now) }
{
    match blocks.get(0) {
        Some(block) => takes_scalars(block.args.as_slice(), scalars),
        None => false,
    }
}

fn graph_fits(
    alloc: Global,
    scalars: &[Scalar],
    arrays: &[Array],
    of: Option<Ty>,
    blocks: &[Block],
) -> Result<bool, Memory>
    ensures { (name : List ℕ) → IfOk result (λ b. b ≡ graph_fits (record {
      name = name;
      scalars = scalars.now;
      arrays = arrays.now;
      result = of;
      blocks = blocks.now;
    })) }
{
    if !enters(blocks, scalars) {
        return Ok(false);
    }
    blocks_fit(alloc, arrays, of, blocks)
}

/// The graph of these parts, or nothing where they are no well-formed graph.
///
/// # Errors
///
/// [`Memory`] where memory is wanting.
pub fn checked_graph(
    alloc: Global,
    name: Name,
    scalars: List<Scalar>,
    arrays: List<Array>,
    of: Option<Ty>,
    blocks: List<Block>,
) -> Result<Option<Ir>, Memory>
    ensures graph { IfOk result (λ found. IfSome found (λ g. g ≡ record {
      name = name;
      scalars = scalars;
      arrays = arrays;
      result = of;
      blocks = blocks;
    })) }
    ensures none { IfOk result (λ found. IfNone found (¬ (IsGraph (record {
      name = name;
      scalars = scalars;
      arrays = arrays;
      result = of;
      blocks = blocks;
    })))) }
{
    if !graph_fits(
        alloc,
        scalars.as_slice(),
        arrays.as_slice(),
        of,
        blocks.as_slice(),
    )? {
        return Ok(None);
    }
    Ok(Some(Ir {
        name,
        scalars,
        arrays,
        result: of,
        blocks,
    }))
}
