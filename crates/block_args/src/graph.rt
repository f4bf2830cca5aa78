//! The graph over block arguments of a graph over variables.
ghost use Rattle.std.specs.Prelude.{◌≡◌, length, IfOk};
ghost use Rattle.el_base.specs.Limits.{IsNumbered};
ghost use Rattle.block_args.specs.Indexes.{AreLiveBlocks};
ghost use Rattle.block_args.specs.Tables.{ListsLive};
ghost use Rattle.block_args.specs.Arguments.{new_blocks};
ghost use Rattle.block_args.specs.Shares.{ArgsShare, ArgsSizes};
ghost use Rattle.block_args.specs.Made.{parts, IsArgued, HasLiveArgs};

use crate::block::new_block;
use crate::live::live_variables;
use el_base::{copy_arrays, copy_scalars};
use ir::{Block, Cfg, Ir, List, Memory};
use std::alloc::Global;

/// The graph whose blocks get as arguments the variables that are live at them, and block 0 the scalars.
///
/// It asks that the variables, the blocks and the steps of the graph together are fewer than 2^32. The time is that of
/// [`live_variables`], and of the new graph.
///
/// # Errors
///
/// [`Memory`] where memory is wanting.
pub fn arguments(alloc: Global, cfg: &Cfg) -> Result<Ir, Memory>
    requires { IsNumbered (parts cfg.now) }
    ensures made { IfOk result (IsArgued cfg.now) }
    ensures live { IfOk result (HasLiveArgs cfg.now) }
    ensures share { IfOk result (ArgsShare cfg.now) }
    ensures sizes { IfOk result (ArgsSizes cfg.now) }
{
    let _blocks = cfg.look();
    Ok(Ir {
        name: cfg.name.copy()?,
        scalars: copy_scalars(alloc, cfg.scalars.as_slice())?,
        arrays: copy_arrays(alloc, cfg.arrays.as_slice())?,
        result: cfg.result,
        blocks: live_blocks(alloc, cfg)?,
    })
}

/// The blocks, which get the variables that are live at them.
fn live_blocks(alloc: Global, cfg: &Cfg) -> Result<List<Block>, Memory>
    requires { IsNumbered (parts cfg.now) }
    ensures { IfOk result (AreLiveBlocks cfg.now) }
{
    let table = live_variables(alloc, cfg)?;
    let blocks = new_blocks(alloc, cfg, table.as_slice())?;
    Ok(blocks)
}

/// The blocks that get the variables that a table lists.
fn new_blocks(alloc: Global, cfg: &Cfg, table: &[List<u32>]) -> Result<List<Block>, Memory>
    requires few { IsNumbered (parts cfg.now) }
    requires lists { ListsLive cfg.now table.now }
    ensures { IfOk result (λ bs. bs ≡ new_blocks
        (length cfg.now.scalars) cfg.now.vars table.now 0 cfg.now.blocks) }
{
    let blocks = cfg.look();
    let scalars = cfg.scalars.len();
    let vars = cfg.vars.as_slice();
    let mut made = List::new(alloc);
    let mut number = 0;
    for block in blocks {
        made.push(new_block(alloc, scalars, vars, table, number, block)?)?;
        number += 1;
    }
    Ok(made)
}
