//! Laws of the definitions on trees: each is the contract of a function that does nothing.
ghost use Rattle.std.specs.Prelude.{◌≡◌, ℕ, ◌+◌, List, Bool, true, false, Option};
ghost use Rattle.el_base.specs.declared.ty.Ty.{Ty};
ghost use Rattle.c_ast.specs.NodeLaws.{ExprHas, StmtHas, TypedExprHas, TypedStmtHas};
ghost use Rattle.c_ast.specs.declared.tree.Unary.{Unary};
ghost use Rattle.c_ast.specs.declared.tree.Binary.{Binary};
ghost use Rattle.c_ast.specs.declared.tree.Expr.{Expr};
ghost use Rattle.c_ast.specs.declared.tree.ExprKind.TheVariants as expr;
ghost use Rattle.c_ast.specs.declared.tree.Target.{Target};
ghost use Rattle.c_ast.specs.declared.tree.Stmt.{Stmt};
ghost use Rattle.c_ast.specs.declared.tree.StmtKind.TheVariants as stmt;
ghost use Rattle.c_ast.specs.declared.tree.Tree.{Tree};
ghost use Rattle.c_ast.specs.declared.typed.Typed.{Typed};
ghost use Rattle.c_ast.specs.Casts.{Casts};
ghost use Rattle.c_ast.specs.declared.typed.TypedExpr.{TypedExpr};
ghost use Rattle.c_ast.specs.declared.typed.TypedExprKind.TheVariants as typed;
ghost use Rattle.c_ast.specs.declared.typed.TypedTarget.{TypedTarget};
ghost use Rattle.c_ast.specs.declared.typed.TypedStmt.{TypedStmt};
ghost use Rattle.c_ast.specs.declared.typed.TypedStmtKind.TheVariants as act;
ghost use Rattle.c_ast.specs.Nodes.{
  expr_nodes,
  exprs_nodes,
  opt_nodes,
  target_nodes,
  stmt_nodes,
  stmts_nodes,
  held_nodes,
  typed_expr_nodes,
  typed_exprs_nodes,
  typed_opt_nodes,
  typed_target_nodes,
  typed_stmt_nodes,
  typed_stmts_nodes,
  typed_held_nodes,
  tree_nodes,
  typed_nodes,
};

/// An expression has a node more than its parts.
pub fn expressions_count_their_parts()
    ensures number { (n : ℕ) (t : Ty) → ExprHas (expr.Number n t) 1 }
    ensures name { (x : List ℕ) → ExprHas (expr.Name x) 1 }
    ensures element { (x : List ℕ) (es : List Expr)
        → ExprHas (expr.Element x es) (1 + exprs_nodes es) }
    ensures call { (x : List ℕ) (es : List Expr) → ExprHas (expr.Call x es) (1 + exprs_nodes es) }
    ensures unary { (op : Unary) (e : Expr) → ExprHas (expr.Unary op e) (1 + expr_nodes e) }
    ensures cast { (t : Ty) (e : Expr) → ExprHas (expr.Cast t e) (1 + expr_nodes e) }
    ensures binary { (op : Binary) (a b : Expr)
        → ExprHas (expr.Binary op a b) (1 + expr_nodes a + expr_nodes b) }
    ensures choice { (c a b : Expr)
        → ExprHas (expr.Choose c a b) (1 + expr_nodes c + expr_nodes a + expr_nodes b) }
{}

/// A statement has a node more than its parts.
pub fn statements_count_their_parts()
    ensures block { (ss : List Stmt) → StmtHas (stmt.Block ss) (1 + stmts_nodes ss) }
    ensures declaration { (x : List ℕ) (t : Ty) (e : Option Expr)
        → StmtHas (stmt.Declare x t e) (1 + opt_nodes e) }
    ensures assignment { (t : Target) (op : Option Binary) (e : Expr)
        → StmtHas (stmt.Assign t op e) (1 + target_nodes t + expr_nodes e) }
    ensures stepping { (t : Target) (up : Bool) → StmtHas (stmt.Step t up) (1 + target_nodes t) }
    ensures choice { (e : Expr) (a : Stmt) (o : Option Stmt)
        → StmtHas (stmt.If e a o) (1 + expr_nodes e + stmt_nodes a + held_nodes o) }
    ensures while_loop { (e : Expr) (a : Stmt)
        → StmtHas (stmt.While e a) (1 + expr_nodes e + stmt_nodes a) }
    ensures do_loop { (a : Stmt) (e : Expr)
        → StmtHas (stmt.DoWhile a e) (1 + stmt_nodes a + expr_nodes e) }
    ensures for_loop { (ss : List Stmt) (e : Option Expr) (o : Option Stmt) (a : Stmt)
        → StmtHas (stmt.For ss e o a)
        (1 + stmts_nodes ss + opt_nodes e + held_nodes o + stmt_nodes a) }
    ensures leaving { StmtHas stmt.Break 1 }
    ensures continuing { StmtHas stmt.Continue 1 }
    ensures returning { (e : Option Expr) → StmtHas (stmt.Return e) (1 + opt_nodes e) }
    ensures empty { StmtHas stmt.Empty 1 }
{}

/// A typed expression has a node more than its parts; an implied cast has none.
pub fn typed_expressions_count_their_parts()
    ensures number { (n : ℕ) → TypedExprHas (typed.Number n) 1 }
    ensures variable { (v : ℕ) → TypedExprHas (typed.Var v) 1 }
    ensures element { (a : ℕ) (es : List TypedExpr)
        → TypedExprHas (typed.Element a es) (1 + typed_exprs_nodes es) }
    ensures unary { (op : Unary) (e : TypedExpr)
        → TypedExprHas (typed.Unary op e) (1 + typed_expr_nodes e) }
    ensures implied_cast { (e : TypedExpr) → TypedExprHas (typed.Cast true e) (typed_expr_nodes e) }
    ensures written_cast { (e : TypedExpr)
        → TypedExprHas (typed.Cast false e) (1 + typed_expr_nodes e) }
    ensures binary { (op : Binary) (a b : TypedExpr)
        → TypedExprHas (typed.Binary op a b) (1 + typed_expr_nodes a + typed_expr_nodes b) }
    ensures choice { (c a b : TypedExpr)
        → TypedExprHas (typed.Choose c a b)
        (1 + typed_expr_nodes c + typed_expr_nodes a + typed_expr_nodes b) }
{}

/// A typed statement has a node more than its parts.
pub fn typed_statements_count_their_parts()
    ensures block { (ss : List TypedStmt) → TypedStmtHas (act.Block ss) (1 + typed_stmts_nodes ss) }
    ensures declaration { (v : ℕ) (e : Option TypedExpr)
        → TypedStmtHas (act.Declare v e) (1 + typed_opt_nodes e) }
    ensures assignment { (t : TypedTarget) (op : Option Binary) (e : TypedExpr)
        → TypedStmtHas (act.Assign t op e) (1 + typed_target_nodes t + typed_expr_nodes e) }
    ensures stepping { (t : TypedTarget) (up : Bool)
        → TypedStmtHas (act.Step t up) (1 + typed_target_nodes t) }
    ensures choice { (e : TypedExpr) (a : TypedStmt) (o : Option TypedStmt)
        → TypedStmtHas (act.If e a o)
        (1 + typed_expr_nodes e + typed_stmt_nodes a + typed_held_nodes o) }
    ensures while_loop { (e : TypedExpr) (a : TypedStmt)
        → TypedStmtHas (act.While e a) (1 + typed_expr_nodes e + typed_stmt_nodes a) }
    ensures do_loop { (a : TypedStmt) (e : TypedExpr)
        → TypedStmtHas (act.DoWhile a e) (1 + typed_stmt_nodes a + typed_expr_nodes e) }
    ensures for_loop { (ss : List TypedStmt) (e : Option TypedExpr) (o : Option TypedStmt)
        (a : TypedStmt)
        → TypedStmtHas (act.For ss e o a)
        (1 + typed_stmts_nodes ss + typed_opt_nodes e + typed_held_nodes o + typed_stmt_nodes a) }
    ensures leaving { TypedStmtHas act.Break 1 }
    ensures continuing { TypedStmtHas act.Continue 1 }
    ensures returning { (e : Option TypedExpr)
        → TypedStmtHas (act.Return e) (1 + typed_opt_nodes e) }
    ensures empty { TypedStmtHas act.Empty 1 }
{}

/// A typed tree has as many nodes as the syntax tree that it is of.
pub fn typed_trees_have_as_many_nodes()
    ensures { (tree : Tree) (k : Typed) → Casts tree k → typed_nodes k ≡ tree_nodes tree }
{}
