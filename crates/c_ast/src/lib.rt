//! What a kernel text is read into: tokens, the syntax tree, the typed tree and its normal form.
#![tactic(auto)]

mod copies;
mod count;
mod key;
mod laws;
mod mark;
mod normal;
mod program;
mod results;
mod token;
mod tree;
mod typed;

pub use count::{nodes, nodes_program};
pub use el_base::{Boxed, List, Name, Span, Ty};
pub use key::Key;
pub use laws::{
    expressions_count_their_parts, statements_count_their_parts,
    typed_expressions_count_their_parts, typed_statements_count_their_parts,
    typed_trees_have_as_many_nodes,
};
pub use mark::Mark;
pub use normal::{Normal, NormalStmt, NormalStmtKind};
pub use program::{
    ProgExpr, ProgExprKind, ProgStmt, ProgStmtKind, ProgTarget, ProgTree, TypedHelper, TypedProgram,
};
pub use results::{family, joint_type, promoted, result_type, unary_type, usual};
pub use token::{Token, Word};
pub use tree::{
    Binary, Expr, ExprKind, Family, Helper, Param, Program, Stmt, StmtKind, Target, Tree, Unary,
};
pub use typed::{
    ArrayOf, Object, Typed, TypedExpr, TypedExprKind, TypedStmt, TypedStmtKind, TypedTarget,
};
