//! The graph of a whole normal form.
ghost use Rattle.std.specs.Prelude.{◌≡◌, length, All, IfOk, OnOk};
ghost use Rattle.c_meaning.specs.Lawful.{LawfulNormal};
ghost use Rattle.c_meaning.specs.Sizes.{form_sizes};
ghost use Rattle.ir.specs.Variables.{IsVarGraph};
ghost use Rattle.block_trim.specs.Shares.{IsTrim};
ghost use Rattle.block_trim.specs.Trimming.{trimmed};
ghost use Rattle.struct_cfg.specs.Code.{HasSpace};
ghost use Rattle.struct_cfg.specs.Kernels.{finish, kernel_draft, form_graph, IsSmallForm};
ghost use Rattle.struct_cfg.specs.Runs.{CfgShare, CfgSizes};

use crate::draft::Draft;
use crate::header::{flat_arrays, scalars, widths};
use crate::laws::graphs_follow_their_forms;
use crate::operators::put;
use crate::statements::Lowering;
use block_trim::{
    trim, trimmed_blocks_are_trim, trimmed_graphs_run_the_same, trimmed_sizes_are_kept,
};
use c_ast::Normal;
use el_base::{List, Memory, Ty};
use ir::{Cfg, CfgBlock, CfgJump, Instr};
use std::alloc::Global;

/// The graph over variables of a normal form. Its blocks read only the variables that they use, and write only those
/// that they change.
///
/// It asks that the form is lawful, and that its variables, the blocks of its graph and the steps that are written in it
/// are fewer than 2^30 together.
///
/// It takes time as the form's expressions, as the blocks times the variables, and as the statements times the loops and
/// ifs around each.
///
/// # Errors
///
/// [`Memory`] where memory is wanting.
pub fn cfg(alloc: Global, normal: &Normal) -> Result<Cfg, Memory>
    requires lawful { LawfulNormal normal.now }
    requires small { IsSmallForm normal.now }
    ensures graph { IfOk result (λ g. g ≡ trimmed (form_graph normal.now)) }
    ensures share { IfOk result (CfgShare normal.now) }
    ensures sizes { IfOk result (λ g. CfgSizes g (form_sizes normal.now)) }
    ensures trim { IfOk result (λ g. All IsTrim g.blocks) }
{
    trimmed_graphs_run_the_same();
    trimmed_sizes_are_kept();
    trimmed_blocks_are_trim();
    let wide = wide_cfg(alloc, normal)?;
    let graph = trim(alloc, wide)?;
    Ok(graph)
}

/// The graph whose blocks read and write all variables.
fn wide_cfg(alloc: Global, normal: &Normal) -> Result<Cfg, Memory>
    requires lawful { LawfulNormal normal.now }
    requires small { IsSmallForm normal.now }
    ensures graph { IfOk result (λ g. g ≡ form_graph normal.now) }
    ensures fit { IfOk result IsVarGraph }
    ensures share { IfOk result (CfgShare normal.now) }
    ensures sizes { IfOk result (λ g. CfgSizes g (form_sizes normal.now)) }
{
    graphs_follow_their_forms();
    Ok(Cfg {
        name: normal.name.copy()?,
        scalars: scalars(alloc, normal.params.as_slice())?,
        arrays: flat_arrays(alloc, normal.arrays.as_slice())?,
        result: normal.result,
        vars: widths(alloc, normal.vars.as_slice())?,
        blocks: blocks(alloc, normal)?,
    })
}

fn blocks(alloc: Global, normal: &Normal) -> Result<List<CfgBlock>, Memory>
    requires { IsSmallForm normal.now }
    ensures { IfOk result (λ bs. bs ≡ (kernel_draft normal.now.arrays normal.now.result
        (length normal.now.vars) normal.now.body).blocks) }
{
    let mut draft = Draft::new(alloc, normal.vars.len())?;
    let lowering = Lowering {
        alloc,
        arrays: normal.arrays.as_slice(),
        exit: 0,
        again: 0,
    };
    lowering.lower_all(&mut draft, normal.body.as_slice())?;
    finish(alloc, &mut draft, normal.result)?;
    Ok(draft.blocks)
}

/// The last block returns: nothing, or 0 where there is a result.
fn finish(alloc: Global, draft: &mut Draft, returned: Option<Ty>) -> Result<(), Memory>
    requires { HasSpace draft.old 1 1 }
    ensures { OnOk result (draft.new ≡ finish returned draft.old) }
{
    match returned {
        None => draft.close(alloc, CfgJump::Return(None)),
        Some(ty) => {
            let zero = Instr::Const {
                width: ty.width(),
                value: 0,
            };
            let value = put(&mut draft.steps, draft.env.as_slice(), zero)?;
            draft.close(alloc, CfgJump::Return(Some(value)))
        }
    }
}
