//! Laws of the size of a typed tree.
ghost use Rattle.std.specs.Prelude.{◌+◌, ◌≤◌, length};
ghost use Rattle.c_ast.specs.declared.typed.Typed.{Typed};
ghost use Rattle.c_ast.specs.Nodes.{typed_nodes};
ghost use Rattle.c_meaning.specs.Lawful.{Lawful};

/// A lawful tree has at least two nodes more than variables: each variable is a parameter, or is declared or assigned by
/// a statement of its own, and the kernel and its block are nodes besides.
#[tactic(auto, using(crate::proofs::FewVars::few_vars))]
pub fn variables_are_few()
    ensures { (k : Typed) → Lawful k → length k.vars + 2 ≤ typed_nodes k }
{}
