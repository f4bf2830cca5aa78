//! The type checker.
ghost use Rattle.std.specs.Prelude.{◌≡◌, ◌↔◌, [], OnOk, IfOk, IfErr};
ghost use Rattle.el_base.specs.Limits.{IsNumbered};
ghost use Rattle.c_ast.specs.Nodes.{tree_nodes};
ghost use Rattle.c_ast.specs.Typing.{Typing};
ghost use Rattle.c_ast.specs.Casts.{Casts};
ghost use Rattle.c_ast.specs.Programs.{program_nodes, TypingProgram};
ghost use Rattle.c_ast.specs.ProgramCasts.{CastsProgram};
ghost use Rattle.c_types.specs.Faults.{tree_faults};
ghost use Rattle.c_types.specs.ProgramFaults.{program_faults};
ghost use Rattle.c_types.specs.Causes.{IsCause, IsProgramCause};

use crate::fault::TypeRefusal;
use crate::faults::first_fault;
use crate::program_casts::program_casts;
use crate::programs::first_program_fault;
use crate::typed_parts::typed_tree;
use c_ast::{Program, Tree, Typed, TypedProgram};
use std::alloc::Global;

/// The typed tree of a tree that keeps the rules on names, arrays, returns and loops.
///
/// Linear in the tree but for look-ups of names. The tree has fewer than 2^32 nodes, which
/// [`c_ast::nodes`] tells. The recursion is as deep as the tree: of one of 1,024 nodes at most 511
/// levels, for which 1 MiB of stack is enough.
///
/// # Errors
///
/// The rule that is broken first, with its place: the one whose place begins first, and at one
/// place the one with the lowest number; [`TypeRefusal::Memory`] where memory is wanting.
pub fn check(alloc: Global, tree: &Tree) -> Result<Typed, TypeRefusal>
    requires { IsNumbered (tree_nodes tree.now) }
    ensures kept { OnOk result (Typing tree.now) }
    ensures typed { IfOk result (λ k. Casts tree.now k) }
    ensures refused { IfErr result (IsCause tree.now) }
{
    check_rules(alloc, tree)?;
    let typed = typed_tree(alloc, tree)?;
    Ok(typed)
}

/// Checks a tree, of any number of nodes, against the rules alone.
///
/// # Errors
///
/// As [`check`].
pub fn check_rules(alloc: Global, tree: &Tree) -> Result<(), TypeRefusal>
    ensures kept { OnOk result (Typing tree.now) }
    ensures refused { IfErr result (IsCause tree.now) }
    ensures faults { Typing tree.now ↔ (tree_faults tree.now ≡ []) }
{
    match first_fault(alloc, tree)? {
        None => Ok(()),
        Some(fault) => Err(TypeRefusal::Broken(fault)),
    }
}

/// The typed program of a program that keeps the rules on names, arrays, returns, loops and calls.
///
/// The arguments of each call and the value of each helper are converted, as the value of a
/// `return` is. The program has fewer than 2^32 nodes, which [`c_ast::nodes_program`] tells. Time
/// and stack are as those of [`check`].
///
/// # Errors
///
/// As [`check`]: 17, 20, 28 and 29 at one name in this order.
pub fn check_program(alloc: Global, program: &Program) -> Result<TypedProgram, TypeRefusal>
    requires { IsNumbered (program_nodes program.now) }
    ensures kept { OnOk result (TypingProgram program.now) }
    ensures typed { IfOk result (λ k. CastsProgram program.now k) }
    ensures refused { IfErr result (IsProgramCause program.now) }
{
    check_program_rules(alloc, program)?;
    let typed = program_casts(alloc, program)?;
    Ok(typed)
}

/// Checks a program, of any number of nodes, against the rules alone.
///
/// # Errors
///
/// As [`check_program`].
pub fn check_program_rules(alloc: Global, program: &Program) -> Result<(), TypeRefusal>
    ensures kept { OnOk result (TypingProgram program.now) }
    ensures refused { IfErr result (IsProgramCause program.now) }
    ensures faults { TypingProgram program.now ↔ (program_faults program.now ≡ []) }
{
    match first_program_fault(alloc, program)? {
        None => Ok(()),
        Some(fault) => Err(TypeRefusal::Broken(fault)),
    }
}
