//! Equal blocks.
ghost use Rattle.std.specs.Prelude.{◌≡◌, IfOk};

use ir::{Block, Jump, List, Memory, To};
use std::alloc::Global;

/// An equal edge.
///
/// # Errors
///
/// [`Memory`] where memory is wanting.
pub fn copy_edge(edge: &To) -> Result<To, Memory>
    ensures { IfOk result (λ t. t ≡ edge.now) }
{
    Ok(To {
        block: edge.block,
        with: edge.with.copy()?,
    })
}

/// An equal jump.
fn copy_jump(jump: &Jump) -> Result<Jump, Memory>
    ensures { IfOk result (λ j. j ≡ jump.now) }
{
    match jump {
        Jump::Go(to) => Ok(Jump::Go(copy_edge(to)?)),
        Jump::Two { cond, yes, no } => Ok(Jump::Two {
            cond: *cond,
            yes: copy_edge(yes)?,
            no: copy_edge(no)?,
        }),
        Jump::Return(value) => Ok(Jump::Return(*value)),
    }
}

/// An equal block.
///
/// # Errors
///
/// [`Memory`] where memory is wanting.
pub fn copy_block(block: &Block) -> Result<Block, Memory>
    ensures { IfOk result (λ b. b ≡ block.now) }
{
    Ok(Block {
        args: block.args.copy()?,
        steps: block.steps.copy()?,
        jump: copy_jump(&block.jump)?,
    })
}

/// Equal blocks, in their order.
///
/// # Errors
///
/// [`Memory`] where memory is wanting.
pub fn copy_blocks(alloc: Global, blocks: &[Block]) -> Result<List<Block>, Memory>
    ensures { IfOk result (λ copies. copies ≡ blocks.now) }
{
    let mut copies = List::new(alloc);
    for block in blocks {
        copies.push(copy_block(block)?)?;
    }
    Ok(copies)
}
