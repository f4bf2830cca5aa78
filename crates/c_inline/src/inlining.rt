//! The kernel without calls of a whole program.
ghost use Rattle.std.specs.Prelude.{◌≡◌, ◌≤◌, IfErr, IfOk, OnOk};
ghost use Rattle.el_base.specs.Limits.{max_nodes};
ghost use Rattle.c_ast.specs.Nodes.{typed_nodes};
ghost use Rattle.c_meaning.specs.Lawful.{Lawful};
ghost use Rattle.c_calls.specs.Inlined.{Inlined, inlined};
ghost use Rattle.c_calls.specs.Lawful.{LawfulProgram};
ghost use Rattle.c_inline.specs.Making.{StmtsFit};
ghost use Rattle.c_inline.specs.Refusals.{IsGrown};

use crate::count::inlined_nodes;
use crate::refusal::InlineRefusal;
use crate::walk::Inliner;
use c_ast::{ArrayOf, Param, Typed, TypedProgram};
use c_calls::laws::{inlined_is_lawful, inlined_nodes_are_counted};
use c_meaning::size_laws::variables_are_few;
use el_base::{List, MAX_NODES, Memory};
use std::alloc::Global;

/// The kernel without calls that a program becomes, where it has no more nodes than a kernel may have. Its nodes are counted
/// before anything is made, in time and memory that grow as the program does.
///
/// # Errors
///
/// [`InlineRefusal::Grown`] where it has more nodes, [`InlineRefusal::Memory`] where memory is wanting.
pub fn inline(alloc: Global, program: &TypedProgram) -> Result<Typed, InlineRefusal>
    requires { LawfulProgram program.now }
    ensures made { IfOk result (Inlined program.now) }
    ensures lawful { IfOk result Lawful }
    ensures small { IfOk result (λ k. typed_nodes k ≤ max_nodes) }
    ensures grown { IfErr result (IsGrown program.now) }
{
    inlined_is_lawful();
    variables_are_few();
    not_grown(alloc, program)?;
    let kernel = made(alloc, program)?;
    Ok(kernel)
}

/// Counts the nodes of the kernel without calls, without making it.
fn not_grown(alloc: Global, program: &TypedProgram) -> Result<(), InlineRefusal>
    ensures small { OnOk result (typed_nodes (inlined program.now) ≤ max_nodes) }
    ensures grown { IfErr result (IsGrown program.now) }
{
    inlined_nodes_are_counted();
    let nodes = inlined_nodes(alloc, program)?;
    if nodes > MAX_NODES {
        return Err(InlineRefusal::Grown {
            span: program.kernel.at,
            nodes,
        });
    }
    Ok(())
}

fn made(alloc: Global, program: &TypedProgram) -> Result<Typed, Memory>
    requires { StmtsFit program.now.helpers 0 program.now.kernel.vars program.now.kernel.body }
    ensures { IfOk result (Inlined program.now) }
{
    let kernel = &program.kernel;
    let helpers = program.helpers.as_slice();
    let mut vars = kernel.vars.copy()?;
    let mut body = List::new(alloc);
    let inliner = Inliner {
        alloc,
        helpers,
        base: 0,
    };
    inliner.stmts(kernel.body.as_slice(), &mut body, &mut vars)?;
    let name = kernel.name.copy()?;
    let params = copy_params(alloc, kernel.params.as_slice())?;
    let arrays = copy_arrays(alloc, kernel.arrays.as_slice())?;
    Ok(Typed {
        name,
        at: kernel.at,
        result: kernel.result,
        params,
        vars,
        arrays,
        body,
    })
}

fn copy_params(alloc: Global, params: &[Param]) -> Result<List<Param>, Memory>
    ensures { IfOk result (λ ps. ps ≡ params.now) }
{
    let mut copies = List::new(alloc);
    for param in params {
        copies.push(param.copy()?)?;
    }
    Ok(copies)
}

fn copy_arrays(alloc: Global, arrays: &[ArrayOf]) -> Result<List<ArrayOf>, Memory>
    ensures { IfOk result (λ xs. xs ≡ arrays.now) }
{
    let mut copies = List::new(alloc);
    for array in arrays {
        copies.push(array.copy()?)?;
    }
    Ok(copies)
}
