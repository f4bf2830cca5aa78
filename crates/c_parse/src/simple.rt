//! Assignments, steps and declarations.
#![tactic(auto, using(crate::proofs::NoResults::no_result, crate::proofs::NoResults::no_verdict))]

ghost use Rattle.std.specs.Prelude.{◌≡◌, ◌+◌, ℕ, List, [], ◌∷◌, None, IfOk};
ghost use Rattle.el_base.specs.Limits.{max_nesting};
ghost use Rattle.c_ast.specs.declared.token.Token.{Token};
ghost use Rattle.c_ast.specs.Derives.{DerivesExpr, DerivesTarget, DerivesSimple, DerivesDeclared, DerivesDeclaration};
ghost use Rattle.c_parse.specs.Reads.{Reads, Adds};
ghost use Rattle.c_parse.specs.Tables.{step_of};
ghost use Rattle.c_parse.specs.Stops.{meaning_at};
ghost use Rattle.c_parse.specs.Symbols.{Symbol, declarators};
ghost use Rattle.c_parse.specs.Parts.{target_symbols};
ghost use Rattle.c_parse.specs.Verdicts.{Judges};

use crate::cursor::{Cursor, place};
use crate::refusal::Stop;
use c_ast::{Boxed, Expr, List, Mark, Stmt, StmtKind, Target, Ty};

impl<'a> Cursor<'a> {
    // What is assigned to.
    fn target(&mut self, depth: u32) -> Result<Boxed<Target>, Stop>
        ensures derived { IfOk result (λ t. Reads (λ ts. DerivesTarget ts t)
            self.old.rest.now self.new.rest.now) }
        ensures judged { (n : ℕ) → n + depth ≡ max_nesting
            → Judges (target_symbols n) [] self.old.rest.now self.new.rest.now result }
    {
        let from = self.rest;
        let (name, _) = self.name()?;
        let indices = self.indices(depth)?;
        let target = Target {
            name,
            at: place(from, self.rest),
            indices,
        };
        Ok(Boxed::new(self.alloc, target)?)
    }

    /// An expression, which a statement holds.
    pub fn value(&mut self, depth: u32) -> Result<Boxed<Expr>, Stop>
        ensures derived { IfOk result (λ e. Reads (λ ts. DerivesExpr 0 ts e)
            self.old.rest.now self.new.rest.now) }
        ensures judged { (n : ℕ) → n + depth ≡ max_nesting
            → Judges (Symbol.expression n 0 ∷ []) [] self.old.rest.now self.new.rest.now result }
    {
        let value = self.expr(depth)?;
        Ok(Boxed::new(self.alloc, value)?)
    }

    /// An assignment or a step.
    pub fn simple(&mut self, depth: u32) -> Result<Stmt, Stop>
        ensures derived { IfOk result (λ s. Reads (λ ts. DerivesSimple ts s)
            self.old.rest.now self.new.rest.now) }
        ensures judged { (n : ℕ) → n + depth ≡ max_nesting
            → Judges (Symbol.simple n ∷ []) [] self.old.rest.now self.new.rest.now result }
    {
        if self.is_at(Mark::Increment) {
            return self.step_before(depth);
        }
        if self.is_at(Mark::Decrement) {
            return self.step_before(depth);
        }
        self.after_target(depth)
    }

    // A step whose mark comes first.
    fn step_before(&mut self, depth: u32) -> Result<Stmt, Stop>
        ensures derived { IfOk result (λ s. Reads (λ ts. DerivesSimple ts s)
            self.old.rest.now self.new.rest.now) }
        ensures judged { (n : ℕ) → n + depth ≡ max_nesting
            → (meaning_at step_of self.old.rest.now ≡ None → ⊥)
            → Judges (Symbol.simple n ∷ []) [] self.old.rest.now self.new.rest.now result }
    {
        let from = self.rest;
        let up = self.step()?;
        let target = self.target(depth)?;
        Ok(Stmt {
            kind: StmtKind::Step { target, up },
            at: place(from, self.rest),
        })
    }

    // An assignment, or a step whose mark comes last.
    fn after_target(&mut self, depth: u32) -> Result<Stmt, Stop>
        ensures derived { IfOk result (λ s. Reads (λ ts. DerivesSimple ts s)
            self.old.rest.now self.new.rest.now) }
        ensures judged { (n : ℕ) → n + depth ≡ max_nesting
            → meaning_at step_of self.old.rest.now ≡ None
            → Judges (Symbol.simple n ∷ []) [] self.old.rest.now self.new.rest.now result }
    {
        let from = self.rest;
        let target = self.target(depth)?;
        if let Some(op) = self.assigning() {
            let value = self.value(depth)?;
            return Ok(Stmt {
                kind: StmtKind::Assign { target, op, value },
                at: place(from, self.rest),
            });
        }
        let up = self.step()?;
        Ok(Stmt {
            kind: StmtKind::Step { target, up },
            at: place(from, self.rest),
        })
    }

    // One declared name.
    fn declared(&mut self, ty: Ty, depth: u32) -> Result<Stmt, Stop>
        ensures derived { IfOk result (λ s. Reads (λ ts. DerivesDeclared ty ts s)
            self.old.rest.now self.new.rest.now) }
        ensures judged { (n : ℕ) → n + depth ≡ max_nesting
            → Judges (Symbol.declared n ∷ []) [] self.old.rest.now self.new.rest.now result }
    {
        let (name, at) = self.name()?;
        if !self.is_at(Mark::Assign) {
            return Ok(Stmt {
                kind: StmtKind::Declare {
                    name,
                    ty,
                    init: None,
                },
                at,
            });
        }
        self.mark(Mark::Assign)?;
        let value = self.value(depth)?;
        Ok(Stmt {
            kind: StmtKind::Declare {
                name,
                ty,
                init: Some(value),
            },
            at,
        })
    }

    /// A declaration; each declared name is added to the statements.
    pub fn declaration(&mut self, depth: u32, into: &mut List<Stmt>) -> Result<(), Stop>
        ensures derived { IfOk result (λ _. Adds (λ ts ss. DerivesDeclaration ts ss)
            self.old.rest.now self.new.rest.now into.old into.new) }
        ensures judged { (n : ℕ) → n + depth ≡ max_nesting
            → Judges (Symbol.a_type n ∷ declarators n) []
            self.old.rest.now self.new.rest.now result }
    {
        let ty = self.ty()?;
        let first = self.declared(ty, depth)?;
        into.push(first)?;
        'declarators: while self.is_at(Mark::Comma) {
            self.mark(Mark::Comma)?;
            let more = self.declared(ty, depth)?;
            into.push(more)?;
        }
        self.mark(Mark::Semicolon)?;
        Ok(())
    }
}
