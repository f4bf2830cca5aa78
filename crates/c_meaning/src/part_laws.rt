//! What is said of a whole tree, by what is said of its parts.
ghost use Rattle.std.specs.Prelude.{◌≡◌, ℕ, ◌+◌, List, [], ◌∷◌, ◌++◌, map, length, Option, None};
ghost use Rattle.std.specs.Prelude.{Bool, true, false, IsTrue, pos, All, sum_by, flat_map, option_map};
ghost use Rattle.el_base.specs.Numbers.{IsInRange};
ghost use Rattle.c_ast.specs.ResultTypes.{promoted, unary_type};
ghost use Rattle.c_ast.specs.declared.tree.Unary.{Unary};
ghost use Rattle.c_ast.specs.declared.tree.Binary.{Binary};
ghost use Rattle.c_ast.specs.declared.typed.TypedExpr.{TypedExpr};
ghost use Rattle.c_ast.specs.declared.typed.TypedExprKind.TheVariants as expr;
ghost use Rattle.c_ast.specs.declared.typed.TypedTarget.{TypedTarget};
ghost use Rattle.c_ast.specs.declared.typed.TypedStmt.{TypedStmt};
ghost use Rattle.c_ast.specs.declared.typed.TypedStmtKind.TheVariants as stmt;
ghost use Rattle.c_ast.specs.declared.normal.NormalStmt.{NormalStmt};
ghost use Rattle.c_ast.specs.declared.normal.NormalStmtKind.TheVariants as normal;
ghost use Rattle.c_ast.specs.declared.normal.NormalStmtKind.TheOpen as part;
ghost use Rattle.c_meaning.specs.Counts.{operator_price, expr_price, option_price, assignment_price, counted};
ghost use Rattle.c_meaning.specs.Lawful.{IsElement, IsVar, AreOperands, AreSides, is_implied, LawfulExpr, LawfulAssignment, LawfulStep, LawfulDeclaration, LawfulOption, LawfulReturn, object_vars, ReadsNone, both_or_either, SidesReadNone, ReadsOutside, LawfulNormalExpr, stmt_vars_of, normal_vars_of, all_vars, all_normal_vars};
ghost use Rattle.c_meaning.specs.Reads.{expr_vars};
ghost use Rattle.c_meaning.specs.Sizes.{closes, steps, expr_reads, option_reads, target_accesses, accesses};
ghost use Rattle.c_meaning.specs.PartLaws.{IfAny, LawfulAt, LawfulNormalAt, QuietAt, IsEmptyWithout, vars_if_any, normal_vars_if_any, sizes, blocks_of, steps_of, accesses_of, blocks_if_any, blocks_of_step, steps_if_any, accesses_if_any, reading, LawfulBy, LawfulStmtBy, LawfulNormalBy, ReadsNoneBy, ReadsOutsideBy, QuietBy, VarsBy, NormalVarsBy, PriceBy, CountsBy, SizesBy, ReadingBy};

/// What is lawful of an expression, by its parts.
#[tactic(auto, unfolding(crate::proofs::TreeRows::typed_rows))]
pub fn lawful_expressions_have_lawful_parts()
    ensures number { (n : ℕ) → LawfulBy (expr.Number n) (λ k t. IsInRange t (pos n)) }
    ensures variable { (v : ℕ) → LawfulBy (expr.Var v) (λ k t. IsVar k v t) }
    ensures element { (a : ℕ) (es : List TypedExpr)
        → LawfulBy (expr.Element a es)
        (λ k t. IsElement k a (length es) t × All (LawfulExpr k) es) }
    ensures unary { (op : Unary) (e : TypedExpr)
        → LawfulBy (expr.Unary op e)
        (λ k t. (e.ty ≡ promoted e.ty) × (t ≡ unary_type op e.ty) × LawfulExpr k e) }
    ensures cast { (implied : Bool) (e : TypedExpr)
        → LawfulBy (expr.Cast implied e)
        (λ k t. (implied ≡ true → is_implied e.kind ≡ false) × LawfulExpr k e) }
    ensures binary { (op : Binary) (a b : TypedExpr)
        → LawfulBy (expr.Binary op a b)
        (λ k t. AreOperands op a.ty b.ty t × LawfulExpr k a × LawfulExpr k b) }
    ensures choice { (c a b : TypedExpr)
        → LawfulBy (expr.Choose c a b)
        (λ k t. AreSides a.ty b.ty t × LawfulExpr k c × LawfulExpr k a × LawfulExpr k b) }
{}

/// What is lawful of a statement, by its parts.
#[tactic(auto, unfolding(crate::proofs::TreeRows::typed_rows))]
pub fn lawful_statements_have_lawful_parts()
    ensures block { (ss : List TypedStmt)
        → LawfulStmtBy (stmt.Block ss) (λ k r l. All (LawfulAt k r l) ss) }
    ensures declaration { (v : ℕ) (e : Option TypedExpr)
        → LawfulStmtBy (stmt.Declare v e) (λ k r l. LawfulDeclaration k (LawfulExpr k) v e) }
    ensures assignment { (t : TypedTarget) (op : Option Binary) (e : TypedExpr)
        → LawfulStmtBy (stmt.Assign t op e) (λ k r l. LawfulAssignment k (LawfulExpr k) t op e) }
    ensures stepping { (t : TypedTarget) (up : Bool)
        → LawfulStmtBy (stmt.Step t up) (λ k r l. LawfulStep k (LawfulExpr k) t) }
    ensures choice { (c : TypedExpr) (s : TypedStmt) (o : Option TypedStmt)
        → LawfulStmtBy (stmt.If c s o)
        (λ k r l. LawfulExpr k c × LawfulAt k r l s × IfAny (LawfulAt k r l) o) }
    ensures while_loop { (c : TypedExpr) (s : TypedStmt)
        → LawfulStmtBy (stmt.While c s) (λ k r l. LawfulExpr k c × LawfulAt k r true s) }
    ensures do_loop { (s : TypedStmt) (c : TypedExpr)
        → LawfulStmtBy (stmt.DoWhile s c) (λ k r l. LawfulAt k r true s × LawfulExpr k c) }
    ensures for_loop { (f : List TypedStmt) (c : Option TypedExpr) (o : Option TypedStmt)
        (s : TypedStmt)
        → LawfulStmtBy (stmt.For f c o s)
        (λ k r l. All (LawfulAt k r false) f × LawfulOption (LawfulExpr k) c
        × IfAny (LawfulAt k r false) o × LawfulAt k r true s) }
    ensures leaving { LawfulStmtBy stmt.Break (λ k r l. IsTrue l) }
    ensures continuing { LawfulStmtBy stmt.Continue (λ k r l. IsTrue l) }
    ensures returning { (e : Option TypedExpr)
        → LawfulStmtBy (stmt.Return e) (λ k r l. LawfulReturn (LawfulExpr k) r e) }
    ensures empty { LawfulStmtBy stmt.Empty (λ k r l. Unit {0}) }
{}

/// The same of a statement of a normal form.
pub fn lawful_normal_statements_have_lawful_parts()
    ensures block { (ss : List NormalStmt)
        → LawfulNormalBy (normal.Block ss) (λ k r l. All (LawfulNormalAt k r l) ss) }
    ensures declaration { (v : ℕ) (e : Option TypedExpr)
        → LawfulNormalBy (normal.Declare v e)
        (λ k r l. LawfulDeclaration k (LawfulNormalExpr k) v e) }
    ensures assignment { (t : TypedTarget) (e : TypedExpr)
        → LawfulNormalBy (normal.Assign t e)
        (λ k r l. LawfulAssignment k (LawfulNormalExpr k) t None e) }
    ensures choice { (b : List NormalStmt) (c : TypedExpr) (s : NormalStmt) (o : Option NormalStmt)
        → LawfulNormalBy (normal.If b c s o)
        (λ k r l. All (LawfulNormalAt k r l) b × LawfulNormalExpr k c × LawfulNormalAt k r l s
        × IfAny (LawfulNormalAt k r l) o) }
    ensures while_loop { (b : List NormalStmt) (c : TypedExpr) (s : NormalStmt)
        → LawfulNormalBy (normal.While b c s)
        (λ k r l. All (LawfulNormalAt k r false) b × LawfulNormalExpr k c
        × LawfulNormalAt k r true s) }
    ensures do_loop { (s : NormalStmt) (b : List NormalStmt) (c : TypedExpr)
        → LawfulNormalBy (normal.DoWhile s b c)
        (λ k r l. LawfulNormalAt k r true s × All (LawfulNormalAt k r false) b
        × LawfulNormalExpr k c) }
    ensures for_loop { (f b : List NormalStmt) (c : Option TypedExpr) (o : Option NormalStmt)
        (s : NormalStmt)
        → LawfulNormalBy (normal.For f b c o s)
        (λ k r l. All (LawfulNormalAt k r false) f × All (LawfulNormalAt k r false) b
        × LawfulOption (LawfulNormalExpr k) c × IsEmptyWithout c b
        × IfAny (LawfulNormalAt k r false) o × LawfulNormalAt k r true s) }
    ensures leaving { LawfulNormalBy normal.Break (λ k r l. IsTrue l) }
    ensures continuing { LawfulNormalBy normal.Continue (λ k r l. IsTrue l) }
    ensures returning { (e : Option TypedExpr)
        → LawfulNormalBy (normal.Return e) (λ k r l. LawfulReturn (LawfulNormalExpr k) r e) }
    ensures empty { LawfulNormalBy normal.Empty (λ k r l. Unit {0}) }
{}

/// Where an expression reads no array, by its parts.
#[tactic(auto, unfolding(crate::proofs::TreeRows::typed_rows))]
pub fn reads_are_those_of_parts()
    ensures number { (n : ℕ) → ReadsNoneBy (expr.Number n) (Unit {0}) }
    ensures variable { (v : ℕ) → ReadsNoneBy (expr.Var v) (Unit {0}) }
    ensures element { (a : ℕ) (es : List TypedExpr) → ReadsNoneBy (expr.Element a es) ⊥ }
    ensures unary { (op : Unary) (e : TypedExpr)
        → ReadsNoneBy (expr.Unary op e) (ReadsNone e.kind) }
    ensures cast { (implied : Bool) (e : TypedExpr)
        → ReadsNoneBy (expr.Cast implied e) (ReadsNone e.kind) }
    ensures binary { (op : Binary) (a b : TypedExpr)
        → ReadsNoneBy (expr.Binary op a b) (ReadsNone a.kind × ReadsNone b.kind) }
    ensures choice { (c a b : TypedExpr)
        → ReadsNoneBy (expr.Choose c a b) (ReadsNone c.kind × ReadsNone a.kind × ReadsNone b.kind) }
{}

/// Where an expression reads arrays only outside of sides, by its parts.
#[tactic(auto, unfolding(crate::proofs::TreeRows::typed_rows))]
pub fn reads_stand_outside_of_sides()
    ensures number { (n : ℕ) → ReadsOutsideBy (expr.Number n) (Unit {0}) }
    ensures variable { (v : ℕ) → ReadsOutsideBy (expr.Var v) (Unit {0}) }
    ensures element { (a : ℕ) (es : List TypedExpr)
        → ReadsOutsideBy (expr.Element a es) (All (λ e. ReadsOutside e.kind) es) }
    ensures unary { (op : Unary) (e : TypedExpr)
        → ReadsOutsideBy (expr.Unary op e) (ReadsOutside e.kind) }
    ensures cast { (implied : Bool) (e : TypedExpr)
        → ReadsOutsideBy (expr.Cast implied e) (ReadsOutside e.kind) }
    ensures binary { (op : Binary) (a b : TypedExpr)
        → ReadsOutsideBy (expr.Binary op a b) (SidesReadNone (both_or_either op) a.kind b.kind
        × ReadsOutside a.kind × ReadsOutside b.kind) }
    ensures choice { (c a b : TypedExpr)
        → ReadsOutsideBy (expr.Choose c a b) (ReadsOutside c.kind × ReadsNone a.kind
        × ReadsNone b.kind) }
{}

/// Where a statement of a normal form returns, by its parts.
pub fn returns_are_those_of_parts()
    ensures block { (ss : List NormalStmt) → QuietBy (normal.Block ss) (λ m. All (QuietAt m) ss) }
    ensures declaration { (v : ℕ) (e : Option TypedExpr)
        → QuietBy (normal.Declare v e) (λ m. Unit {0}) }
    ensures assignment { (t : TypedTarget) (e : TypedExpr)
        → QuietBy (normal.Assign t e) (λ m. Unit {0}) }
    ensures choice { (b : List NormalStmt) (c : TypedExpr) (s : NormalStmt) (o : Option NormalStmt)
        → QuietBy (normal.If b c s o) (λ m. All (QuietAt m) b × QuietAt m s × IfAny (QuietAt m) o) }
    ensures while_loop { (b : List NormalStmt) (c : TypedExpr) (s : NormalStmt)
        → QuietBy (normal.While b c s) (λ m. All (QuietAt false) b × QuietAt m s) }
    ensures do_loop { (s : NormalStmt) (b : List NormalStmt) (c : TypedExpr)
        → QuietBy (normal.DoWhile s b c) (λ m. QuietAt m s × All (QuietAt false) b) }
    ensures for_loop { (f b : List NormalStmt) (c : Option TypedExpr) (o : Option NormalStmt)
        (s : NormalStmt)
        → QuietBy (normal.For f b c o s)
        (λ m. All (QuietAt m) f × All (QuietAt false) b × IfAny (QuietAt m) o × QuietAt m s) }
    ensures leaving { QuietBy normal.Break (λ m. Unit {0}) }
    ensures continuing { QuietBy normal.Continue (λ m. Unit {0}) }
    ensures returning { (e : Option TypedExpr) → QuietBy (normal.Return e) (λ m. IsTrue m) }
    ensures empty { QuietBy normal.Empty (λ m. Unit {0}) }
{}

/// The variables that a statement declares or assigns to, by its parts.
#[tactic(auto, using(crate::proofs::PartsOfNumbers::vars_of_parts))]
pub fn variables_are_those_of_parts()
    ensures block { (ss : List TypedStmt) → VarsBy (stmt.Block ss) (all_vars ss) }
    ensures declaration { (v : ℕ) (e : Option TypedExpr) → VarsBy (stmt.Declare v e) (v ∷ []) }
    ensures assignment { (t : TypedTarget) (op : Option Binary) (e : TypedExpr)
        → VarsBy (stmt.Assign t op e) (object_vars t.to) }
    ensures stepping { (t : TypedTarget) (up : Bool) → VarsBy (stmt.Step t up) (object_vars t.to) }
    ensures choice { (c : TypedExpr) (s : TypedStmt) (o : Option TypedStmt)
        → VarsBy (stmt.If c s o) (stmt_vars_of s.kind ++ vars_if_any o) }
    ensures while_loop { (c : TypedExpr) (s : TypedStmt)
        → VarsBy (stmt.While c s) (stmt_vars_of s.kind) }
    ensures do_loop { (s : TypedStmt) (c : TypedExpr)
        → VarsBy (stmt.DoWhile s c) (stmt_vars_of s.kind) }
    ensures for_loop { (f : List TypedStmt) (c : Option TypedExpr) (o : Option TypedStmt)
        (s : TypedStmt)
        → VarsBy (stmt.For f c o s) (all_vars f ++ vars_if_any o ++ stmt_vars_of s.kind) }
    ensures leaving { VarsBy stmt.Break [] }
    ensures continuing { VarsBy stmt.Continue [] }
    ensures returning { (e : Option TypedExpr) → VarsBy (stmt.Return e) [] }
    ensures empty { VarsBy stmt.Empty [] }
{}

/// The same of a statement of a normal form.
#[tactic(auto, using(crate::proofs::PartsOfNumbers::normal_vars_of_parts))]
pub fn normal_variables_are_those_of_parts()
    ensures block { (ss : List NormalStmt) → NormalVarsBy (normal.Block ss) (all_normal_vars ss) }
    ensures declaration { (v : ℕ) (e : Option TypedExpr)
        → NormalVarsBy (normal.Declare v e) (v ∷ []) }
    ensures assignment { (t : TypedTarget) (e : TypedExpr)
        → NormalVarsBy (normal.Assign t e) (object_vars t.to) }
    ensures choice { (b : List NormalStmt) (c : TypedExpr) (s : NormalStmt) (o : Option NormalStmt)
        → NormalVarsBy (normal.If b c s o) (all_normal_vars b ++ normal_vars_of s.kind
        ++ normal_vars_if_any o) }
    ensures while_loop { (b : List NormalStmt) (c : TypedExpr) (s : NormalStmt)
        → NormalVarsBy (normal.While b c s) (all_normal_vars b ++ normal_vars_of s.kind) }
    ensures do_loop { (s : NormalStmt) (b : List NormalStmt) (c : TypedExpr)
        → NormalVarsBy (normal.DoWhile s b c) (normal_vars_of s.kind ++ all_normal_vars b) }
    ensures for_loop { (f b : List NormalStmt) (c : Option TypedExpr) (o : Option NormalStmt)
        (s : NormalStmt)
        → NormalVarsBy (normal.For f b c o s) (all_normal_vars f ++ all_normal_vars b
        ++ normal_vars_if_any o ++ normal_vars_of s.kind) }
    ensures leaving { NormalVarsBy normal.Break [] }
    ensures continuing { NormalVarsBy normal.Continue [] }
    ensures returning { (e : Option TypedExpr) → NormalVarsBy (normal.Return e) [] }
    ensures empty { NormalVarsBy normal.Empty [] }
{}

/// The price of an expression, by those of its parts.
#[tactic(auto, using(crate::proofs::PartsOfNumbers::prices_of_parts))]
pub fn prices_are_those_of_parts()
    ensures number { (n : ℕ) → PriceBy (expr.Number n) 1 }
    ensures variable { (v : ℕ) → PriceBy (expr.Var v) 1 }
    ensures element { (a : ℕ) (es : List TypedExpr)
        → PriceBy (expr.Element a es) (1 + sum_by (λ e. 4 + expr_price e) es) }
    ensures unary { (op : Unary) (e : TypedExpr) → PriceBy (expr.Unary op e) (1 + expr_price e) }
    ensures cast { (implied : Bool) (e : TypedExpr)
        → PriceBy (expr.Cast implied e) (1 + expr_price e) }
    ensures binary { (op : Binary) (a b : TypedExpr)
        → PriceBy (expr.Binary op a b) (1 + operator_price op + expr_price a + expr_price b) }
    ensures choice { (c a b : TypedExpr)
        → PriceBy (expr.Choose c a b) (3 + expr_price c + expr_price a + expr_price b) }
{}

/// What a statement of a normal form counts, by what its parts count.
#[tactic(auto, using(crate::proofs::PartsOfNumbers::counts_of_parts))]
pub fn counts_are_those_of_parts()
    ensures block { (ss : List NormalStmt)
        → CountsBy (normal.Block ss) (λ k. part.Block (map (counted k) ss)) }
    ensures declaration { (v : ℕ) (e : Option TypedExpr)
        → CountsBy (normal.Declare v e) (λ k. part.Declare v e) }
    ensures assignment { (t : TypedTarget) (e : TypedExpr)
        → CountsBy (normal.Assign t e) (λ k. part.Assign t e) }
    ensures choice { (b : List NormalStmt) (c : TypedExpr) (s : NormalStmt) (o : Option NormalStmt)
        → CountsBy (normal.If b c s o)
        (λ k. part.If (map (counted k) b) c (counted k s) (option_map (counted k) o)) }
    ensures while_loop { (b : List NormalStmt) (c : TypedExpr) (s : NormalStmt)
        → CountsBy (normal.While b c s) (λ k. part.While (map (counted k) b) c (counted k s)) }
    ensures do_loop { (s : NormalStmt) (b : List NormalStmt) (c : TypedExpr)
        → CountsBy (normal.DoWhile s b c) (λ k. part.DoWhile (counted k s) (map (counted k) b) c) }
    ensures for_loop { (f b : List NormalStmt) (c : Option TypedExpr) (o : Option NormalStmt)
        (s : NormalStmt)
        → CountsBy (normal.For f b c o s)
        (λ k. part.For (map (counted k) f) (map (counted k) b) c (option_map (counted k) o)
        (counted k s)) }
    ensures leaving { CountsBy normal.Break (λ k. part.Break) }
    ensures continuing { CountsBy normal.Continue (λ k. part.Continue) }
    ensures returning { (e : Option TypedExpr) → CountsBy (normal.Return e) (λ k. part.Return e) }
    ensures empty { CountsBy normal.Empty (λ k. part.Empty) }
{}

/// The sizes of a statement of a normal form, by those of its parts.
#[tactic(auto, using(crate::proofs::PartsOfSizes::sizes_of_parts))]
pub fn sizes_are_those_of_parts()
    ensures block { (ss : List NormalStmt)
        → SizesBy (normal.Block ss) (sizes (blocks_of ss) (steps_of ss) (accesses_of ss)) }
    ensures declaration { (v : ℕ) (e : Option TypedExpr)
        → SizesBy (normal.Declare v e) (sizes 0 (option_price e) (option_reads e)) }
    ensures assignment { (t : TypedTarget) (e : TypedExpr)
        → SizesBy (normal.Assign t e) (sizes 0 (assignment_price t e) (target_accesses t + expr_reads e)) }
    ensures choice { (b : List NormalStmt) (c : TypedExpr) (s : NormalStmt) (o : Option NormalStmt)
        → SizesBy (normal.If b c s o)
        (sizes (blocks_of b + 1 + closes s.kind + 1 + blocks_if_any o + 1)
        (steps_of b + (expr_price c + 2) + steps s.kind + steps_if_any o)
        (accesses_of b + expr_reads c + accesses s.kind + accesses_if_any o)) }
    ensures while_loop { (b : List NormalStmt) (c : TypedExpr) (s : NormalStmt)
        → SizesBy (normal.While b c s)
        (sizes (1 + blocks_of b + 1 + closes s.kind + 1)
        (steps_of b + (expr_price c + 2) + steps s.kind)
        (accesses_of b + expr_reads c + accesses s.kind)) }
    ensures do_loop { (s : NormalStmt) (b : List NormalStmt) (c : TypedExpr)
        → SizesBy (normal.DoWhile s b c)
        (sizes (1 + closes s.kind + 1 + blocks_of b + 1)
        (steps s.kind + steps_of b + (expr_price c + 2))
        (accesses s.kind + accesses_of b + expr_reads c)) }
    ensures for_loop { (f b : List NormalStmt) (c : Option TypedExpr) (o : Option NormalStmt)
        (s : NormalStmt)
        → SizesBy (normal.For f b c o s)
        (sizes (blocks_of f + 1 + blocks_of b + 1 + closes s.kind + 1 + blocks_of_step o)
        (steps_of f + steps_of b + (option_price c + 2) + steps s.kind + steps_if_any o)
        (accesses_of f + accesses_of b + option_reads c + accesses s.kind + accesses_if_any o)) }
    ensures leaving { SizesBy normal.Break (sizes 1 0 0) }
    ensures continuing { SizesBy normal.Continue (sizes 1 0 0) }
    ensures returning { (e : Option TypedExpr)
        → SizesBy (normal.Return e) (sizes 1 (option_price e) (option_reads e)) }
    ensures empty { SizesBy normal.Empty (sizes 0 0 0) }
{}

/// How many elements an expression reads, and which variables, by its parts.
#[tactic(auto, using(crate::proofs::PartsOfSizes::readings_of_parts))]
pub fn readings_are_those_of_parts()
    ensures number { (n : ℕ) → ReadingBy (expr.Number n) (reading 0 []) }
    ensures variable { (v : ℕ) → ReadingBy (expr.Var v) (reading 0 (v ∷ [])) }
    ensures element { (a : ℕ) (es : List TypedExpr)
        → ReadingBy (expr.Element a es)
        (reading (1 + sum_by expr_reads es) (flat_map expr_vars es)) }
    ensures unary { (op : Unary) (e : TypedExpr)
        → ReadingBy (expr.Unary op e) (reading (expr_reads e) (expr_vars e)) }
    ensures cast { (implied : Bool) (e : TypedExpr)
        → ReadingBy (expr.Cast implied e) (reading (expr_reads e) (expr_vars e)) }
    ensures binary { (op : Binary) (a b : TypedExpr)
        → ReadingBy (expr.Binary op a b)
        (reading (expr_reads a + expr_reads b) (expr_vars a ++ expr_vars b)) }
    ensures choice { (c a b : TypedExpr)
        → ReadingBy (expr.Choose c a b)
        (reading (expr_reads c + expr_reads a + expr_reads b)
        (expr_vars c ++ (expr_vars a ++ expr_vars b))) }
{}
