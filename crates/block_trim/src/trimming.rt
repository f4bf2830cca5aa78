//! The trimmed graph.
ghost use Rattle.std.specs.Prelude.{◌≡◌, length, IfOk};
ghost use Rattle.block_trim.specs.Trimming.{trimmed_block, trimmed};
ghost use Rattle.block_trim.specs.Code.{NameVariables, reads_by};

use crate::marks::used_reads;
use crate::numbers::Numbers;
use crate::writes::kept_writes;
use ir::{Cfg, CfgBlock, List, Memory};
use std::alloc::Global;

/// The graph whose blocks read only the variables that they use and write only those that they change.
///
/// Blocks, their numbers, their steps and the header stay. A block takes time as the number of its reads, steps and
/// writes.
///
/// # Errors
///
/// [`Memory`] where memory is wanting.
pub fn trim(alloc: Global, cfg: Cfg) -> Result<Cfg, Memory>
    ensures { IfOk result (λ c. c ≡ trimmed cfg) }
{
    let mut places = vec![in alloc; 0; cfg.vars.len()]?;
    let mut blocks = List::new(alloc);
    for block in cfg.look() {
        blocks.push(trim_block(alloc, block, &mut places)?)?;
    }
    Ok(Cfg {
        name: cfg.name,
        scalars: cfg.scalars,
        arrays: cfg.arrays,
        result: cfg.result,
        vars: cfg.vars,
        blocks,
    })
}

// The block trimmed. `places` has a place for each variable, of any content.
fn trim_block(alloc: Global, block: &CfgBlock, places: &mut [usize]) -> Result<CfgBlock, Memory>
    requires { NameVariables (length places.old) block.now.writes }
    ensures { IfOk result (λ b. b ≡ trimmed_block block.now) }
{
    let reads = block.reads.as_slice();
    let steps = block.steps.as_slice();
    let writes = kept_writes(alloc, reads, block.writes.as_slice(), places)?;
    let marks = used_reads(alloc, reads.len(), steps, writes.as_slice(), block.jump)?;
    let numbers = Numbers::new(alloc, &marks)?;
    Ok(CfgBlock {
        reads: kept_reads(alloc, reads, &marks)?,
        steps: numbers.steps(alloc, steps)?,
        writes: numbers.writes(alloc, writes.as_slice())?,
        jump: numbers.jump(block.jump),
    })
}

// The reads that are marked.
fn kept_reads(alloc: Global, reads: &[u32], marks: &[bool]) -> Result<List<u32>, Memory>
    requires { length marks.now ≡ length reads.now }
    ensures { IfOk result (λ kept. kept ≡ reads_by marks.now reads.now) }
{
    let mut kept = List::new(alloc);
    for (place, read) in reads.iter().enumerate() {
        if marks[place] {
            kept.push(*read)?;
        }
    }
    Ok(kept)
}
