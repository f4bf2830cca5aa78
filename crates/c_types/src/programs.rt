//! The first rule that a program breaks: each helper and the kernel in the scope of the helpers
//! before, and calls where none may stand.
ghost use Rattle.std.specs.Prelude.{◌≡◌, IfOk, OnOk};
ghost use Rattle.c_types.specs.Places.{first_of};
ghost use Rattle.c_types.specs.ProgramFaults.{
  helper_faults,
  helpers_faults,
  kernel_faults,
  sorts_after_helper,
  sorts_after_helpers,
  declared_faults,
  program_faults,
};

use crate::calls::first_misplaced;
use crate::fault::{Fault, Rule, earlier};
use crate::faults::{of_block, of_expr, unless};
use crate::scopes::Scopes;
use crate::sort::Sort;
use c_ast::{Helper, Program, Tree};
use el_base::Memory;
use std::alloc::Global;

// The fault of a program that goes first, if it breaks any rule.
#[tactic(auto, using(crate::proofs::FirstFaults::first_of_both))]
pub(crate) fn first_program_fault(alloc: Global, program: &Program) -> Result<Option<Fault>, Memory>
    ensures { IfOk result (λ f. f ≡ first_of (program_faults program.now)) }
{
    let declared = first_declared(alloc, program)?;
    let misplaced = first_misplaced(program);
    Ok(earlier(declared, misplaced))
}

// The same, but for calls where none may stand.
#[tactic(auto, using(crate::proofs::FirstFaults::first_of_both))]
fn first_declared(alloc: Global, program: &Program) -> Result<Option<Fault>, Memory>
    ensures { IfOk result (λ f. f ≡ first_of (declared_faults program.now)) }
{
    let mut scopes = Scopes::new(alloc);
    let in_helpers = of_helpers(&mut scopes, program.helpers.as_slice())?;
    let in_kernel = of_kernel(&mut scopes, &program.kernel)?;
    Ok(earlier(in_helpers, in_kernel))
}

fn of_helpers(scopes: &mut Scopes<Sort>, helpers: &[Helper]) -> Result<Option<Fault>, Memory>
    ensures fault { IfOk result (λ f. f ≡ first_of (helpers_faults scopes.old helpers.now)) }
    ensures scopes { OnOk result (scopes.new ≡ sorts_after_helpers scopes.old helpers.now) }
{
    let mut first = None;
    for helper in helpers {
        first = earlier(first, of_helper(scopes, helper)?);
    }
    Ok(first)
}

// A helper's name is in scope after its own body.
fn of_helper(scopes: &mut Scopes<Sort>, helper: &Helper) -> Result<Option<Fault>, Memory>
    ensures fault { IfOk result (λ f. f ≡ first_of (helper_faults scopes.old helper.now)) }
    ensures scopes { OnOk result (scopes.new ≡ sorts_after_helper scopes.old helper.now) }
{
    let params = helper.params.as_slice();
    scopes.enter()?;
    let in_block = of_block(scopes, params, helper.body.as_slice(), Some(helper.result))?;
    let in_value = of_expr(scopes, &helper.value);
    scopes.leave();
    let new = scopes.declare(&helper.name, Sort::Helper(params.len()))?;
    let again = unless(new, Rule::Redeclared, helper.at);
    let rest = earlier(in_block, in_value);
    Ok(earlier(again, rest))
}

fn of_kernel(scopes: &mut Scopes<Sort>, kernel: &Tree) -> Result<Option<Fault>, Memory>
    ensures { IfOk result (λ f. f ≡ first_of (kernel_faults scopes.old kernel.now)) }
{
    let again = unless(scopes.is_new(&kernel.name), Rule::Redeclared, kernel.at);
    scopes.enter()?;
    let (params, body) = (kernel.params.as_slice(), kernel.body.as_slice());
    let in_block = of_block(scopes, params, body, kernel.result)?;
    Ok(earlier(again, in_block))
}
