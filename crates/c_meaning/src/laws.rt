//! Laws of the meaning, for every kernel: each is the contract of a function that does nothing.
ghost use Rattle.el_base.specs.declared.ty.Ty.{Ty};
ghost use Rattle.c_ast.specs.declared.tree.Unary.TheVariants as unary;
ghost use Rattle.c_ast.specs.declared.tree.Binary.TheVariants as binary;
ghost use Rattle.std.specs.Prelude.{◌≡◌, ℕ, List, [], map, Option, None, option_map, Bool};
ghost use Rattle.c_ast.specs.declared.tree.Unary.{Unary};
ghost use Rattle.c_ast.specs.declared.tree.Tree.{Tree};
ghost use Rattle.c_ast.specs.declared.typed.Typed.{Typed};
ghost use Rattle.c_ast.specs.Typing.{Typing};
ghost use Rattle.c_ast.specs.declared.tree.Binary.{Binary};
ghost use Rattle.c_ast.specs.declared.typed.TypedExpr.{TypedExpr};
ghost use Rattle.c_ast.specs.declared.typed.TypedExprKind.TheVariants as expr;
ghost use Rattle.c_ast.specs.declared.typed.TypedExprKind.TheOpen as part;
ghost use Rattle.c_ast.specs.declared.typed.TypedTarget.{TypedTarget};
ghost use Rattle.c_ast.specs.declared.typed.TypedStmt.{TypedStmt};
ghost use Rattle.c_ast.specs.declared.typed.TypedStmtKind.TheVariants as stmt;
ghost use Rattle.c_ast.specs.declared.normal.NormalStmt.{NormalStmt};
ghost use Rattle.c_ast.specs.declared.normal.NormalStmtKind.TheVariants as normal;
ghost use Rattle.c_ast.specs.Constants.{NumbersFit};
ghost use Rattle.c_ast.specs.Casts.{Casts};
ghost use Rattle.c_ast.specs.ResultTypes.{promoted};
ghost use Rattle.c_meaning.specs.Counts.{CostsAreOne, StatementsKeepCosts};
ghost use Rattle.c_meaning.specs.Lawful.{Lawful};
ghost use Rattle.c_meaning.specs.Expressions.{meaning};
ghost use Rattle.c_meaning.specs.Statements.{act, a_block, a_declaration, an_assignment, a_step, an_if, a_while, a_do, a_for, a_break, a_continue, a_return, an_empty, meant_target, meant_if_any};
ghost use Rattle.c_meaning.specs.Normals.{normal_act};
ghost use Rattle.c_meaning.specs.Equations.{MeansBy, RunsBy, NormalRunsBy};
ghost use Rattle.c_meaning.specs.Bounds.{StatementsKeepEnds, KernelsKeepEnds, NormalStatementsKeepEnds, NormalsKeepEnds, EndsIsOne, NormalEndsIsOne};
ghost use Rattle.c_meaning.specs.Patterns.{KeepsPatterns, ShiftKeepsPatterns, KeepsPattern, ConvertsPattern};

use el_base::{patterns_are_those_of_their_numbers, patterns_have_their_width};
use word_ops::laws::{
    arithmetic_is_exact, bits_are_joined, comparisons_tell, conversions_are_exact,
    divisions_are_exact, results_are_patterns, shifts_are_exact,
};

/// A syntax tree that keeps the rules of names, arrays, returns and loops has exactly one typed tree; where its numbers lie in the ranges of their types, that tree is lawful.
pub fn trees_are_typed_in_one_way()
    ensures at_least_one { (tree : Tree) → Typing tree → (k : Typed) × Casts tree k }
    ensures at_most_one { (tree : Tree) (k l : Typed) → Casts tree k → Casts tree l → k ≡ l }
    ensures lawful { (tree : Tree) (k : Typed)
        → Typing tree → NumbersFit tree → Casts tree k → Lawful k }
{}

/// A statement, kernel or normal form that is over within some turns ends in the same way within more.
pub fn larger_bounds_keep_ends()
    ensures statements { StatementsKeepEnds }
    ensures kernels { KernelsKeepEnds }
    ensures normal_statements { NormalStatementsKeepEnds }
    ensures normal_forms { NormalsKeepEnds }
{}

/// A kernel or normal form ends on its inputs in one way: with one list of arrays, one result and one number of turns.
pub fn ends_are_one()
    ensures kernels { EndsIsOne }
    ensures normal_forms { NormalEndsIsOne }
{}

/// The run of a normal form that is over has one number of jumps and one price.
pub fn costs_are_one()
    ensures { CostsAreOne }
{}

/// A statement of a normal form that is over within some turns counts the same jumps and the same price within more.
#[tactic(auto, using(crate::proofs::CountGrowth::statement_steady))]
pub fn larger_bounds_keep_costs()
    ensures { StatementsKeepCosts }
{}

/// Where a binary operator is defined on two numbers of a promoted type, its operation on patterns gives the pattern of the result (ISO/IEC 9899:1999 6.5.5, 6.5.6, 6.5.8 to 6.5.12).
pub fn operators_keep_patterns()
    ensures products { (t : Ty) → KeepsPatterns binary.Mul (promoted t) }
    ensures quotients { (t : Ty) → KeepsPatterns binary.Div (promoted t) }
    ensures remainders { (t : Ty) → KeepsPatterns binary.Rem (promoted t) }
    ensures sums { (t : Ty) → KeepsPatterns binary.Add (promoted t) }
    ensures differences { (t : Ty) → KeepsPatterns binary.Sub (promoted t) }
    ensures less { (t : Ty) → KeepsPatterns binary.Lt (promoted t) }
    ensures greater { (t : Ty) → KeepsPatterns binary.Gt (promoted t) }
    ensures at_most { (t : Ty) → KeepsPatterns binary.Le (promoted t) }
    ensures at_least { (t : Ty) → KeepsPatterns binary.Ge (promoted t) }
    ensures equal { (t : Ty) → KeepsPatterns binary.Eq (promoted t) }
    ensures unequal { (t : Ty) → KeepsPatterns binary.Ne (promoted t) }
    ensures conjunctions { (t : Ty) → KeepsPatterns binary.And (promoted t) }
    ensures exclusions { (t : Ty) → KeepsPatterns binary.Xor (promoted t) }
    ensures disjunctions { (t : Ty) → KeepsPatterns binary.Or (promoted t) }
{
    arithmetic_is_exact();
    divisions_are_exact();
    bits_are_joined();
    comparisons_tell();
    results_are_patterns();
    patterns_are_those_of_their_numbers();
    patterns_have_their_width();
}

/// Where a shift is defined, its operation on patterns gives the pattern of the result, whatever the type of the amount (ISO/IEC 9899:1999 6.5.7).
pub fn shifts_keep_patterns()
    ensures left { (t : Ty) → ShiftKeepsPatterns binary.Shl (promoted t) }
    ensures right { (t : Ty) → ShiftKeepsPatterns binary.Shr (promoted t) }
{
    shifts_are_exact();
    patterns_are_those_of_their_numbers();
    patterns_have_their_width();
}

/// Where a unary operator is defined on a number of a promoted type, its operation on patterns gives the pattern of the result (ISO/IEC 9899:1999 6.5.3.3).
pub fn unary_operators_keep_patterns()
    ensures plus { (t : Ty) → KeepsPattern unary.Plus (promoted t) }
    ensures minus { (t : Ty) → KeepsPattern unary.Minus (promoted t) }
    ensures flip { (t : Ty) → KeepsPattern unary.Flip (promoted t) }
    ensures not { (t : Ty) → KeepsPattern unary.Not (promoted t) }
{
    arithmetic_is_exact();
    comparisons_tell();
    patterns_are_those_of_their_numbers();
    patterns_have_their_width();
}

/// The operation that converts from one type to another gives the pattern of the converted number (ISO/IEC 9899:1999 6.3.1.3).
pub fn conversions_keep_patterns()
    ensures { (s t : Ty) → ConvertsPattern s t }
{
    conversions_are_exact();
    patterns_are_those_of_their_numbers();
    patterns_have_their_width();
}

/// An expression means what is made of the meanings of its parts.
#[tactic(auto, using(crate::proofs::TreeEquations::meanings_of_parts))]
pub fn expressions_mean_their_parts()
    ensures number { (n : ℕ) → MeansBy (expr.Number n) (λ k. part.Number n) }
    ensures variable { (v : ℕ) → MeansBy (expr.Var v) (λ k. part.Var v) }
    ensures element { (a : ℕ) (es : List TypedExpr)
        → MeansBy (expr.Element a es) (λ k. part.Element a (map (meaning k) es)) }
    ensures unary { (op : Unary) (e : TypedExpr)
        → MeansBy (expr.Unary op e) (λ k. part.Unary op (meaning k e)) }
    ensures cast { (implied : Bool) (e : TypedExpr)
        → MeansBy (expr.Cast implied e) (λ k. part.Cast implied (meaning k e)) }
    ensures binary { (op : Binary) (a b : TypedExpr)
        → MeansBy (expr.Binary op a b) (λ k. part.Binary op (meaning k a) (meaning k b)) }
    ensures choice { (c a b : TypedExpr)
        → MeansBy (expr.Choose c a b) (λ k. part.Choose (meaning k c) (meaning k a) (meaning k b)) }
{}

/// A statement runs as what is made of the runs of its parts.
#[tactic(auto, using(crate::proofs::TreeEquations::runs_of_parts))]
pub fn statements_run_their_parts()
    ensures block { (ss : List TypedStmt) → RunsBy (stmt.Block ss) (λ k. a_block (map (act k) ss)) }
    ensures declaration { (v : ℕ) (e : Option TypedExpr)
        → RunsBy (stmt.Declare v e) (λ k. a_declaration v (meant_if_any k e)) }
    ensures assignment { (t : TypedTarget) (op : Option Binary) (e : TypedExpr)
        → RunsBy (stmt.Assign t op e)
        (λ k. an_assignment (meant_target k t) op e.ty (meaning k e)) }
    ensures stepping { (t : TypedTarget) (up : Bool)
        → RunsBy (stmt.Step t up) (λ k. a_step (meant_target k t) up) }
    ensures choice { (c : TypedExpr) (s : TypedStmt) (o : Option TypedStmt)
        → RunsBy (stmt.If c s o) (λ k. an_if [] (meaning k c) (act k s) (option_map (act k) o)) }
    ensures while_loop { (c : TypedExpr) (s : TypedStmt)
        → RunsBy (stmt.While c s) (λ k. a_while [] (meaning k c) (act k s)) }
    ensures do_loop { (s : TypedStmt) (c : TypedExpr)
        → RunsBy (stmt.DoWhile s c) (λ k. a_do (act k s) [] (meaning k c)) }
    ensures for_loop { (f : List TypedStmt) (c : Option TypedExpr) (o : Option TypedStmt)
        (s : TypedStmt)
        → RunsBy (stmt.For f c o s)
        (λ k. a_for (map (act k) f) [] (meant_if_any k c) (option_map (act k) o) (act k s)) }
    ensures leaving { RunsBy (stmt.Break) (λ k. a_break) }
    ensures continuing { RunsBy (stmt.Continue) (λ k. a_continue) }
    ensures returning { (e : Option TypedExpr)
        → RunsBy (stmt.Return e) (λ k. a_return (meant_if_any k e)) }
    ensures empty { RunsBy (stmt.Empty) (λ k. an_empty) }
{}

/// The same of a statement of a normal form.
#[tactic(auto, using(crate::proofs::TreeEquations::normal_runs_of_parts))]
pub fn normal_statements_run_their_parts()
    ensures block { (ss : List NormalStmt)
        → NormalRunsBy (normal.Block ss) (λ k. a_block (map (normal_act k) ss)) }
    ensures declaration { (v : ℕ) (e : Option TypedExpr)
        → NormalRunsBy (normal.Declare v e) (λ k. a_declaration v (meant_if_any k e)) }
    ensures assignment { (t : TypedTarget) (e : TypedExpr)
        → NormalRunsBy (normal.Assign t e)
        (λ k. an_assignment (meant_target k t) None e.ty (meaning k e)) }
    ensures choice { (before : List NormalStmt) (c : TypedExpr) (s : NormalStmt)
        (o : Option NormalStmt)
        → NormalRunsBy (normal.If before c s o)
        (λ k. an_if (map (normal_act k) before) (meaning k c) (normal_act k s)
        (option_map (normal_act k) o)) }
    ensures while_loop { (before : List NormalStmt) (c : TypedExpr) (s : NormalStmt)
        → NormalRunsBy (normal.While before c s)
        (λ k. a_while (map (normal_act k) before) (meaning k c) (normal_act k s)) }
    ensures do_loop { (s : NormalStmt) (before : List NormalStmt) (c : TypedExpr)
        → NormalRunsBy (normal.DoWhile s before c)
        (λ k. a_do (normal_act k s) (map (normal_act k) before) (meaning k c)) }
    ensures for_loop { (f : List NormalStmt) (before : List NormalStmt) (c : Option TypedExpr)
        (o : Option NormalStmt) (s : NormalStmt)
        → NormalRunsBy (normal.For f before c o s)
        (λ k. a_for (map (normal_act k) f) (map (normal_act k) before)
        (meant_if_any k c) (option_map (normal_act k) o) (normal_act k s)) }
    ensures leaving { NormalRunsBy (normal.Break) (λ k. a_break) }
    ensures continuing { NormalRunsBy (normal.Continue) (λ k. a_continue) }
    ensures returning { (e : Option TypedExpr)
        → NormalRunsBy (normal.Return e) (λ k. a_return (meant_if_any k e)) }
    ensures empty { NormalRunsBy (normal.Empty) (λ k. an_empty) }
{}
