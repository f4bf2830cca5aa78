//! Statements.
#![tactic(auto, using(crate::proofs::NoResults::no_result, crate::proofs::NoResults::no_verdict))]

ghost use Rattle.std.specs.Prelude.{◌≡◌, ◌<◌, ◌≤◌, ◌+◌, ℕ, suc, List, [], ◌∷◌, All, length, Some, None, IfOk};
ghost use Rattle.el_base.specs.Limits.{max_nesting};
ghost use Rattle.c_ast.specs.declared.key.Key.TheVariants as key;
ghost use Rattle.c_ast.specs.declared.mark.Mark.TheVariants as mark;
ghost use Rattle.c_ast.specs.declared.token.Token.{Token};
ghost use Rattle.c_ast.specs.Derives.{DerivesExpr, DerivesFirst, DerivesOption, DerivesStep, DerivesItems};
ghost use Rattle.c_parse.specs.Reads.{Reads, Adds, ReadsStmt, InParens, InBraces, DerivesHead, mark_at, key_at};
ghost use Rattle.c_parse.specs.Symbols.{Symbol, Fixed, in_group};
ghost use Rattle.c_parse.specs.Parts.{braced_symbols, head_symbols};
ghost use Rattle.c_parse.specs.Verdicts.{Judges};
ghost use Rattle.c_parse.specs.declared.bar.Bar.TheVariants as bar;
ghost use Rattle.c_parse.specs.Bars.{IsFreeOf, BeginsBarred, JudgesBefore};

use crate::cursor::{Cursor, deeper, place};
use crate::refusal::Stop;
use c_ast::{Boxed, Expr, Key, List, Mark, Stmt, StmtKind};
use el_base::MAX_NESTING;

/// What stands between the parentheses of a `for`.
#[derive(Drop)]
struct Head {
    first: List<Stmt>,
    cond: Option<Boxed<Expr>>,
    step: Option<Boxed<Stmt>>,
}

impl<'a> Cursor<'a> {
    // A statement.
    #[cycle(stmt)]
    fn stmt(&mut self, depth: u32) -> Result<Stmt, Stop>
        ensures derived { IfOk result (λ s. ReadsStmt s self.old.rest.now self.new.rest.now) }
        ensures judged { (n : ℕ) → n + depth ≡ max_nesting
            → Judges (Symbol.statement n ∷ []) [] self.old.rest.now self.new.rest.now result }
    {
        if self.is_at(Mark::OpenBrace) {
            return self.block(depth);
        }
        if self.is_at(Mark::Semicolon) {
            return self.empty();
        }
        self.worded(depth)
    }

    // A statement that begins with a word or a step.
    #[cycle(stmt)]
    fn worded(&mut self, depth: u32) -> Result<Stmt, Stop>
        ensures derived { IfOk result (λ s. ReadsStmt s self.old.rest.now self.new.rest.now) }
        ensures judged { (n : ℕ) → n + depth ≡ max_nesting
            → (mark_at self.old.rest.now ≡ Some mark.OpenBrace → ⊥)
            → (mark_at self.old.rest.now ≡ Some mark.Semicolon → ⊥)
            → Judges (Symbol.statement n ∷ []) [] self.old.rest.now self.new.rest.now result }
    {
        match self.next_key() {
            None => self.simple_stmt(depth),
            Some(key) => self.keyed(key, depth),
        }
    }

    // A statement that begins with this reserved word.
    #[cycle(stmt)]
    fn keyed(&mut self, key: Key, depth: u32) -> Result<Stmt, Stop>
        ensures derived { IfOk result (λ s. ReadsStmt s self.old.rest.now self.new.rest.now) }
        ensures judged { (n : ℕ) → n + depth ≡ max_nesting → key_at self.old.rest.now ≡ Some key
            → Judges (Symbol.statement n ∷ []) [] self.old.rest.now self.new.rest.now result }
    {
        match key {
            Key::If => self.if_stmt(depth),
            Key::While => self.while_stmt(depth),
            Key::Do => self.do_stmt(depth),
            Key::For => self.for_stmt(depth),
            Key::Break => self.break_stmt(),
            Key::Continue => self.continue_stmt(),
            Key::Return => self.return_stmt(depth),
            _ => Err(self.refusal()),
        }
    }

    // A block.
    #[cycle(stmt)]
    fn block(&mut self, depth: u32) -> Result<Stmt, Stop>
        ensures derived { IfOk result (λ s. ReadsStmt s self.old.rest.now self.new.rest.now) }
        ensures judged { (n : ℕ) → n + depth ≡ max_nesting
            → mark_at self.old.rest.now ≡ Some mark.OpenBrace
            → Judges (Symbol.statement n ∷ []) [] self.old.rest.now self.new.rest.now result }
    {
        let from = self.rest;
        let body = self.braced(depth)?;
        Ok(Stmt {
            kind: StmtKind::Block(body),
            at: place(from, self.rest),
        })
    }

    /// Declarations and statements in braces.
    #[cycle(stmt)]
    pub fn braced(&mut self, depth: u32) -> Result<List<Stmt>, Stop>
        ensures derived { IfOk result (λ ss. Reads (λ ts. InBraces ts ss)
            self.old.rest.now self.new.rest.now) }
        ensures judged { (n : ℕ) → n + depth ≡ max_nesting
            → Judges (braced_symbols (suc n)) [] self.old.rest.now self.new.rest.now result }
    {
        let open = self.mark(Mark::OpenBrace)?;
        let depth = deeper(depth, open)?;
        let mut body = List::new(self.alloc);
        'items: while !self.is_at(Mark::CloseBrace) {
            self.item(depth, &mut body)?;
        }
        self.mark(Mark::CloseBrace)?;
        Ok(body)
    }

    // A declaration or a statement, which is added to the others.
    #[cycle(stmt)]
    fn item(&mut self, depth: u32, body: &mut List<Stmt>) -> Result<(), Stop>
        ensures added { IfOk result (λ _. Adds (λ ts ss. DerivesItems ts ss)
            self.old.rest.now self.new.rest.now body.old body.new) }
        ensures shorter { IfOk result (λ _. length self.new.rest.now < length self.old.rest.now) }
        ensures judged { (n : ℕ) → n + depth ≡ max_nesting
            → (mark_at self.old.rest.now ≡ Some mark.CloseBrace → ⊥)
            → Judges (Symbol.body n ∷ []) (Symbol.body n ∷ [])
            self.old.rest.now self.new.rest.now result }
    {
        if self.is_at(Mark::Semicolon) {
            return self.semicolon(body);
        }
        if self.is_at_type() {
            return self.declaration(depth, body);
        }
        let stmt = self.stmt(depth)?;
        body.push(stmt)?;
        Ok(())
    }

    /// A declaration or a statement of a helper, which is added to the others.
    pub fn plain_item(&mut self, body: &mut List<Stmt>) -> Result<(), Stop>
        ensures added { IfOk result (λ _. Adds (λ ts ss. DerivesItems ts ss)
            self.old.rest.now self.new.rest.now body.old body.new) }
        ensures shorter { IfOk result (λ _. length self.new.rest.now < length self.old.rest.now) }
        ensures judged { (behind : List Token) → BeginsBarred bar.Returns behind
            → All (IsFreeOf bar.Returns) self.old.rest.now → (self.old.rest.now ≡ [] → ⊥)
            → JudgesBefore behind (Symbol.helper_body 1 ∷ []) (Symbol.helper_body 1 ∷ [])
            self.old.rest.now self.new.rest.now result }
    {
        if self.is_at_type() {
            return self.declaration(MAX_NESTING - 1, body);
        }
        let stmt = self.stmt(MAX_NESTING - 1)?;
        body.push(stmt)?;
        Ok(())
    }

    // The empty statement, which is added to the others: it is made where it stays.
    fn semicolon(&mut self, body: &mut List<Stmt>) -> Result<(), Stop>
        ensures added { IfOk result (λ _. Adds (λ ts ss. DerivesItems ts ss)
            self.old.rest.now self.new.rest.now body.old body.new) }
        ensures shorter { IfOk result (λ _. length self.new.rest.now < length self.old.rest.now) }
        ensures judged { (n : ℕ) → n ≤ max_nesting → mark_at self.old.rest.now ≡ Some mark.Semicolon
            → Judges (Symbol.body n ∷ []) (Symbol.body n ∷ [])
            self.old.rest.now self.new.rest.now result }
    {
        let at = self.mark(Mark::Semicolon)?;
        body.push(Stmt {
            kind: StmtKind::Empty,
            at,
        })?;
        Ok(())
    }

    // The empty statement.
    fn empty(&mut self) -> Result<Stmt, Stop>
        ensures derived { IfOk result (λ s. ReadsStmt s self.old.rest.now self.new.rest.now) }
        ensures judged { (n : ℕ) → n ≤ max_nesting → mark_at self.old.rest.now ≡ Some mark.Semicolon
            → Judges (Symbol.statement n ∷ []) [] self.old.rest.now self.new.rest.now result }
    {
        let at = self.mark(Mark::Semicolon)?;
        Ok(Stmt {
            kind: StmtKind::Empty,
            at,
        })
    }

    // An assignment or a step, with its semicolon.
    fn simple_stmt(&mut self, depth: u32) -> Result<Stmt, Stop>
        ensures derived { IfOk result (λ s. ReadsStmt s self.old.rest.now self.new.rest.now) }
        ensures judged { (n : ℕ) → n + depth ≡ max_nesting → key_at self.old.rest.now ≡ None
            → (mark_at self.old.rest.now ≡ Some mark.OpenBrace → ⊥)
            → (mark_at self.old.rest.now ≡ Some mark.Semicolon → ⊥)
            → Judges (Symbol.statement n ∷ []) [] self.old.rest.now self.new.rest.now result }
    {
        let stmt = self.simple(depth)?;
        self.mark(Mark::Semicolon)?;
        Ok(stmt)
    }

    #[cycle(stmt)]
    fn if_stmt(&mut self, depth: u32) -> Result<Stmt, Stop>
        ensures derived { IfOk result (λ s. ReadsStmt s self.old.rest.now self.new.rest.now) }
        ensures judged { (n : ℕ) → n + depth ≡ max_nesting → key_at self.old.rest.now ≡ Some key.If
            → Judges (Symbol.statement n ∷ []) [] self.old.rest.now self.new.rest.now result }
    {
        let from = self.rest;
        let word = self.key(Key::If)?;
        let depth = deeper(depth, word)?;
        let cond = self.condition(depth)?;
        let then = self.stmt(depth)?;
        let then = Boxed::new(self.alloc, then)?;
        if !self.is_at_else() {
            return Ok(Stmt {
                kind: StmtKind::If {
                    cond,
                    then,
                    other: None,
                },
                at: place(from, self.rest),
            });
        }
        self.key(Key::Else)?;
        let other = self.stmt(depth)?;
        let other = Boxed::new(self.alloc, other)?;
        Ok(Stmt {
            kind: StmtKind::If {
                cond,
                then,
                other: Some(other),
            },
            at: place(from, self.rest),
        })
    }

    #[cycle(stmt)]
    fn while_stmt(&mut self, depth: u32) -> Result<Stmt, Stop>
        ensures derived { IfOk result (λ s. ReadsStmt s self.old.rest.now self.new.rest.now) }
        ensures judged { (n : ℕ) → n + depth ≡ max_nesting
            → key_at self.old.rest.now ≡ Some key.While
            → Judges (Symbol.statement n ∷ []) [] self.old.rest.now self.new.rest.now result }
    {
        let from = self.rest;
        let word = self.key(Key::While)?;
        let depth = deeper(depth, word)?;
        let cond = self.condition(depth)?;
        let body = self.stmt(depth)?;
        let body = Boxed::new(self.alloc, body)?;
        Ok(Stmt {
            kind: StmtKind::While { cond, body },
            at: place(from, self.rest),
        })
    }

    #[cycle(stmt)]
    fn do_stmt(&mut self, depth: u32) -> Result<Stmt, Stop>
        ensures derived { IfOk result (λ s. ReadsStmt s self.old.rest.now self.new.rest.now) }
        ensures judged { (n : ℕ) → n + depth ≡ max_nesting → key_at self.old.rest.now ≡ Some key.Do
            → Judges (Symbol.statement n ∷ []) [] self.old.rest.now self.new.rest.now result }
    {
        let from = self.rest;
        let word = self.key(Key::Do)?;
        let depth = deeper(depth, word)?;
        let body = self.stmt(depth)?;
        let body = Boxed::new(self.alloc, body)?;
        self.key(Key::While)?;
        let cond = self.condition(depth)?;
        let at = place(from, self.rest);
        self.mark(Mark::Semicolon)?;
        Ok(Stmt {
            kind: StmtKind::DoWhile { body, cond },
            at,
        })
    }

    #[cycle(stmt)]
    fn for_stmt(&mut self, depth: u32) -> Result<Stmt, Stop>
        ensures derived { IfOk result (λ s. ReadsStmt s self.old.rest.now self.new.rest.now) }
        ensures judged { (n : ℕ) → n + depth ≡ max_nesting → key_at self.old.rest.now ≡ Some key.For
            → Judges (Symbol.statement n ∷ []) [] self.old.rest.now self.new.rest.now result }
    {
        let from = self.rest;
        let word = self.key(Key::For)?;
        let depth = deeper(depth, word)?;
        let head = self.head(depth)?;
        let body = self.stmt(depth)?;
        let body = Boxed::new(self.alloc, body)?;
        Ok(Stmt {
            kind: StmtKind::For {
                first: head.first,
                cond: head.cond,
                step: head.step,
                body,
            },
            at: place(from, self.rest),
        })
    }

    // What stands between the parentheses of a `for`, with them.
    fn head(&mut self, depth: u32) -> Result<Head, Stop>
        ensures derived { IfOk result (λ h. Reads (λ ts. DerivesHead ts h.first h.cond h.step)
            self.old.rest.now self.new.rest.now) }
        ensures judged { (n : ℕ) → n + depth ≡ max_nesting
            → Judges (head_symbols (suc n)) [] self.old.rest.now self.new.rest.now result }
    {
        let open = self.mark(Mark::Open)?;
        let depth = deeper(depth, open)?;
        let first = self.first(depth)?;
        let cond = self.optional(depth)?;
        self.mark(Mark::Semicolon)?;
        let step = self.last_part(depth)?;
        self.mark(Mark::Close)?;
        Ok(Head { first, cond, step })
    }

    // The first part of a `for`, with its semicolon.
    fn first(&mut self, depth: u32) -> Result<List<Stmt>, Stop>
        ensures derived { IfOk result (λ ss. Reads (λ ts. DerivesFirst ts ss)
            self.old.rest.now self.new.rest.now) }
        ensures judged { (n : ℕ) → n + depth ≡ max_nesting
            → Judges (Symbol.first n ∷ []) [] self.old.rest.now self.new.rest.now result }
    {
        let mut stmts = List::new(self.alloc);
        if self.is_at_type() {
            self.declaration(depth, &mut stmts)?;
            return Ok(stmts);
        }
        if self.is_at(Mark::Semicolon) {
            self.mark(Mark::Semicolon)?;
            return Ok(stmts);
        }
        let stmt = self.simple(depth)?;
        stmts.push(stmt)?;
        self.mark(Mark::Semicolon)?;
        Ok(stmts)
    }

    // An expression in parentheses, which a statement holds.
    fn condition(&mut self, depth: u32) -> Result<Boxed<Expr>, Stop>
        ensures derived { IfOk result (λ e. Reads (λ ts. InParens ts e)
            self.old.rest.now self.new.rest.now) }
        ensures judged { (n : ℕ) → n + depth ≡ max_nesting
            → Judges (in_group (suc n) []) [] self.old.rest.now self.new.rest.now result }
    {
        let inner = self.group(depth)?;
        Ok(Boxed::new(self.alloc, inner)?)
    }

    // An expression before a semicolon, if there is one.
    fn optional(&mut self, depth: u32) -> Result<Option<Boxed<Expr>>, Stop>
        ensures derived { IfOk result (λ e. Reads (λ ts. DerivesOption ts e)
            self.old.rest.now self.new.rest.now) }
        ensures judged { (n : ℕ) → n + depth ≡ max_nesting
            → Judges (Symbol.condition n ∷ []) (Symbol.fixed n Fixed.semicolon ∷ [])
            self.old.rest.now self.new.rest.now result }
    {
        if self.is_at(Mark::Semicolon) {
            return Ok(None);
        }
        let value = self.value(depth)?;
        Ok(Some(value))
    }

    // The last part of a `for`, if there is one.
    fn last_part(&mut self, depth: u32) -> Result<Option<Boxed<Stmt>>, Stop>
        ensures derived { IfOk result (λ s. Reads (λ ts. DerivesStep ts s)
            self.old.rest.now self.new.rest.now) }
        ensures judged { (n : ℕ) → n + depth ≡ max_nesting
            → Judges (Symbol.last n ∷ []) (Symbol.fixed n Fixed.closing ∷ [])
            self.old.rest.now self.new.rest.now result }
    {
        if self.is_at(Mark::Close) {
            return Ok(None);
        }
        let step = self.simple(depth)?;
        Ok(Some(Boxed::new(self.alloc, step)?))
    }

    fn break_stmt(&mut self) -> Result<Stmt, Stop>
        ensures derived { IfOk result (λ s. ReadsStmt s self.old.rest.now self.new.rest.now) }
        ensures judged { (n : ℕ) → n ≤ max_nesting → key_at self.old.rest.now ≡ Some key.Break
            → Judges (Symbol.statement n ∷ []) [] self.old.rest.now self.new.rest.now result }
    {
        let at = self.key(Key::Break)?;
        self.mark(Mark::Semicolon)?;
        Ok(Stmt {
            kind: StmtKind::Break,
            at,
        })
    }

    fn continue_stmt(&mut self) -> Result<Stmt, Stop>
        ensures derived { IfOk result (λ s. ReadsStmt s self.old.rest.now self.new.rest.now) }
        ensures judged { (n : ℕ) → n ≤ max_nesting → key_at self.old.rest.now ≡ Some key.Continue
            → Judges (Symbol.statement n ∷ []) [] self.old.rest.now self.new.rest.now result }
    {
        let at = self.key(Key::Continue)?;
        self.mark(Mark::Semicolon)?;
        Ok(Stmt {
            kind: StmtKind::Continue,
            at,
        })
    }

    fn return_stmt(&mut self, depth: u32) -> Result<Stmt, Stop>
        ensures derived { IfOk result (λ s. ReadsStmt s self.old.rest.now self.new.rest.now) }
        ensures judged { (n : ℕ) → n + depth ≡ max_nesting
            → key_at self.old.rest.now ≡ Some key.Return
            → Judges (Symbol.statement n ∷ []) [] self.old.rest.now self.new.rest.now result }
    {
        let from = self.rest;
        self.key(Key::Return)?;
        let value = self.optional(depth)?;
        let at = place(from, self.rest);
        self.mark(Mark::Semicolon)?;
        Ok(Stmt {
            kind: StmtKind::Return(value),
            at,
        })
    }
}
