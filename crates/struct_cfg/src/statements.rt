//! The blocks of statements.
ghost use Rattle.std.specs.Prelude.{◌≡◌, ◌+◌, IfOk, OnOk};
ghost use Rattle.c_ast.specs.declared.normal.NormalStmtKind.TheVariants as normal;
ghost use Rattle.c_meaning.specs.Counts.{expr_price, option_price, target_price, assignment_price};
ghost use Rattle.c_meaning.specs.Sizes.{closes, steps};
ghost use Rattle.struct_cfg.specs.Code.{HasSpace, HasGrown, IsFor};
ghost use Rattle.struct_cfg.specs.Drafts.{close, with_steps};
ghost use Rattle.struct_cfg.specs.Lowering.{with_expr, value_of, assign_var, assign_to, assign_element, declare, returning, lower};
ghost use Rattle.c_meaning.specs.PartLaws.{blocks_of, blocks_if_any, blocks_of_step, steps_of, steps_if_any};
ghost use Rattle.struct_cfg.specs.Lists.{lower_all, lower_any, branched, entered, lower_if, lower_while, lower_do, lower_for, again_in, stepped};

use crate::closes::{blocks_if_any, blocks_of, blocks_of_step, closes};
use crate::draft::Draft;
use crate::exprs::Scope;
use c_ast::{ArrayOf, NormalStmt, NormalStmtKind, Object, TypedExpr, TypedTarget};
use el_base::{Boxed, Memory};
use ir::CfgJump;
use std::alloc::Global;

/// What the statements of a kernel are lowered by, and the blocks where `break` and `continue` lead. Outside of loops
/// neither stands.
#[derive(Clone, Copy)]
pub(crate) struct Lowering<'a> {
    pub(crate) alloc: Global,
    pub(crate) arrays: &'a [ArrayOf],
    pub(crate) exit: u32,
    pub(crate) again: u32,
}

// ---- statements without parts

impl<'a> Lowering<'a> {
    /// The steps of an expression in the open block, and the number of its value.
    fn value_of(&self, draft: &mut Draft, e: &TypedExpr) -> Result<u32, Memory>
        requires { HasSpace draft.old 0 (expr_price e.now) }
        ensures made { OnOk result (draft.new ≡ with_expr self.now.arrays.now e.now draft.old) }
        ensures value { IfOk result (λ v. v ≡ value_of self.now.arrays.now e.now draft.old) }
    {
        let scope = Scope {
            env: draft.env.as_slice(),
            arrays: self.arrays,
        };
        let value = scope.expr(&mut draft.steps, e)?;
        Ok(value)
    }

    /// A variable gets the value of an expression.
    fn assign(&self, draft: &mut Draft, var: u32, e: &TypedExpr) -> Result<(), Memory>
        requires { HasSpace draft.old 0 (expr_price e.now) }
        ensures { OnOk result (draft.new ≡ assign_var self.now.arrays.now var e.now draft.old) }
    {
        let value = self.value_of(draft, e)?;
        draft.set(var, value);
        Ok(())
    }

    /// A variable or an element gets the value of an expression.
    fn assign_to(
        &self,
        draft: &mut Draft,
        target: &TypedTarget,
        e: &TypedExpr,
    ) -> Result<(), Memory>
        requires { HasSpace draft.old 0 (assignment_price target.now e.now) }
        ensures { OnOk result (draft.new
            ≡ assign_to self.now.arrays.now target.now.to target.now.indices e.now draft.old) }
    {
        match target.to {
            Object::Var(var) => self.assign(draft, var, e),
            Object::Array(array) => self.assign_element(draft, array, target.indices.as_slice(), e),
        }
    }

    fn assign_element(
        &self,
        draft: &mut Draft,
        array: u32,
        indices: &[TypedExpr],
        e: &TypedExpr,
    ) -> Result<(), Memory>
        requires { HasSpace draft.old 0 (1 + target_price indices.now + expr_price e.now) }
        ensures { OnOk result
            (draft.new ≡ assign_element self.now.arrays.now array indices.now e.now draft.old) }
    {
        let scope = Scope {
            env: draft.env.as_slice(),
            arrays: self.arrays,
        };
        scope.store(&mut draft.steps, array, indices, e)?;
        Ok(())
    }

    /// A variable is declared, with a value or without one.
    fn declare(&self, draft: &mut Draft, var: u32, init: &Option<TypedExpr>) -> Result<(), Memory>
        requires { HasSpace draft.old 0 (option_price init.now) }
        ensures { OnOk result (draft.new ≡ declare self.now.arrays.now var init.now draft.old) }
    {
        match init {
            None => Ok(()),
            Some(e) => self.assign(draft, var, e),
        }
    }

    /// The graph is left with a value or without one.
    fn returning(&self, draft: &mut Draft, value: &Option<TypedExpr>) -> Result<(), Memory>
        requires { HasSpace draft.old 1 (option_price value.now) }
        ensures { OnOk result (draft.new ≡ returning self.now.arrays.now value.now draft.old) }
    {
        match value {
            None => draft.close(self.alloc, CfgJump::Return(None)),
            Some(e) => {
                let value = self.value_of(draft, e)?;
                draft.close(self.alloc, CfgJump::Return(Some(value)))
            }
        }
    }

    /// A condition ends the open block: it leads to block `yes` where it holds, else to block `no`.
    fn branch(&self, draft: &mut Draft, cond: &TypedExpr, yes: u32, no: u32) -> Result<(), Memory>
        requires { HasSpace draft.old 1 (expr_price cond.now + 2) }
        ensures made { OnOk result
            (draft.new ≡ branched self.now.arrays.now cond.now yes no draft.old) }
        ensures few { OnOk result (HasGrown draft.old draft.new 1 (expr_price cond.now + 2)) }
    {
        let scope = Scope {
            env: draft.env.as_slice(),
            arrays: self.arrays,
        };
        let cond = scope.condition(&mut draft.steps, cond)?;
        draft.close(self.alloc, CfgJump::Two { cond, yes, no })?;
        Ok(())
    }

    /// The way into the body of a `for`: to the next block, or to block `exit` where there is a condition that does not hold.
    fn enter(&self, draft: &mut Draft, cond: &Option<TypedExpr>, exit: u32) -> Result<(), Memory>
        requires { HasSpace draft.old 1 (option_price cond.now + 2) }
        ensures made { OnOk result
            (draft.new ≡ entered self.now.arrays.now cond.now exit draft.old) }
        ensures few { OnOk result (HasGrown draft.old draft.new 1 (option_price cond.now + 2)) }
    {
        let yes = draft.here() + 1;
        match cond {
            None => draft.close(self.alloc, CfgJump::Go(yes)),
            Some(cond) => self.branch(draft, cond, yes, exit),
        }
    }
}

// ---- all statements

/// The parts of an `if`: the statements before its condition, the condition, and its two parts.
#[derive(Clone, Copy)]
struct IfParts<'a> {
    before: &'a [NormalStmt],
    cond: &'a TypedExpr,
    then: &'a NormalStmt,
    other: &'a Option<Boxed<NormalStmt>>,
}

/// The parts of a `while` or a `do`: the statements before its condition, the condition, and its body.
#[derive(Clone, Copy)]
struct LoopParts<'a> {
    before: &'a [NormalStmt],
    cond: &'a TypedExpr,
    body: &'a NormalStmt,
}

/// The parts of a `for` behind its first part.
#[derive(Clone, Copy)]
struct ForParts<'a> {
    before: &'a [NormalStmt],
    cond: &'a Option<TypedExpr>,
    step: &'a Option<Boxed<NormalStmt>>,
    body: &'a NormalStmt,
}

impl<'a> Lowering<'a> {
    /// The blocks of a statement.
    #[cycle(lower)]
    #[tactic(auto, using(crate::proofs::Grows::kind_grows))]
    fn lower(&self, draft: &mut Draft, stmt: &NormalStmt) -> Result<(), Memory>
        requires { HasSpace draft.old (closes stmt.now.kind) (steps stmt.now.kind) }
        ensures made { OnOk result (draft.new
            ≡ lower self.now.arrays.now self.now.exit self.now.again stmt.now.kind draft.old) }
        ensures few { OnOk result
            (HasGrown draft.old draft.new (closes stmt.now.kind) (steps stmt.now.kind)) }
    {
        self.kind(draft, stmt)?;
        Ok(())
    }

    #[cycle(lower)]
    fn kind(&self, draft: &mut Draft, stmt: &NormalStmt) -> Result<(), Memory>
        requires { HasSpace draft.old (closes stmt.now.kind) (steps stmt.now.kind) }
        ensures { OnOk result (draft.new
            ≡ lower self.now.arrays.now self.now.exit self.now.again stmt.now.kind draft.old) }
    {
        match &stmt.kind {
            NormalStmtKind::Block(stmts) => self.lower_all(draft, stmts.as_slice()),
            NormalStmtKind::Declare { var, init } => self.declare(draft, *var, init),
            NormalStmtKind::Assign { target, value } => self.assign_to(draft, target, value),
            NormalStmtKind::If {
                before,
                cond,
                then,
                other,
            } => {
                let parts = IfParts {
                    before: before.as_slice(),
                    cond,
                    then: then.get(),
                    other,
                };
                self.lower_if(draft, stmt, parts)
            }
            NormalStmtKind::While { before, cond, body } => {
                let parts = LoopParts {
                    before: before.as_slice(),
                    cond,
                    body: body.get(),
                };
                self.lower_while(draft, stmt, parts)
            }
            NormalStmtKind::DoWhile { body, before, cond } => {
                let parts = LoopParts {
                    before: before.as_slice(),
                    cond,
                    body: body.get(),
                };
                self.lower_do(draft, stmt, parts)
            }
            NormalStmtKind::For {
                first,
                before,
                cond,
                step,
                body,
            } => {
                self.lower_all(draft, first.as_slice())?;
                let parts = ForParts {
                    before: before.as_slice(),
                    cond,
                    step,
                    body: body.get(),
                };
                self.lower_for(draft, stmt, parts)
            }
            NormalStmtKind::Break => draft.close(self.alloc, CfgJump::Go(self.exit)),
            NormalStmtKind::Continue => draft.close(self.alloc, CfgJump::Go(self.again)),
            NormalStmtKind::Return(value) => self.returning(draft, value),
            NormalStmtKind::Empty => Ok(()),
        }
    }

    /// An `if`: its first part begins in the block after that of its condition. Both parts have a block, and lead to the one
    /// behind them.
    #[cycle(lower)]
    fn lower_if(&self, draft: &mut Draft, stmt: &NormalStmt, parts: IfParts) -> Result<(), Memory>
        requires is { stmt.now.kind
            ≡ normal.If parts.before.now parts.cond.now parts.then.now parts.other.now }
        requires room { HasSpace draft.old
            (blocks_of parts.before.now + closes parts.then.now.kind
            + blocks_if_any parts.other.now + 3)
            (steps_of parts.before.now + (expr_price parts.cond.now + 2)
            + steps parts.then.now.kind + steps_if_any parts.other.now) }
        ensures { OnOk result (draft.new ≡ lower_if self.now.arrays.now self.now.exit self.now.again
            parts.entry.before.now parts.entry.cond.now parts.entry.then.now parts.entry.other.now
            draft.old) }
    {
        self.lower_all(draft, parts.before)?;
        let yes = draft.here() + 1;
        let no = yes + closes(parts.then) + 1;
        let join = no + blocks_if_any(parts.other) + 1;
        self.branch(draft, parts.cond, yes, no)?;
        self.lower(draft, parts.then)?;
        draft.close(self.alloc, CfgJump::Go(join))?;
        self.lower_any(draft, parts.other)?;
        draft.close(self.alloc, CfgJump::Go(join))?;
        Ok(())
    }

    /// A `while`: its condition has a block of its own, to which its body and `continue` lead back.
    #[cycle(lower)]
    fn lower_while(
        &self,
        draft: &mut Draft,
        stmt: &NormalStmt,
        parts: LoopParts,
    ) -> Result<(), Memory>
        requires is { stmt.now.kind
            ≡ normal.While parts.before.now parts.cond.now parts.body.now }
        requires room { HasSpace draft.old
            (blocks_of parts.before.now + closes parts.body.now.kind + 3)
            (steps_of parts.before.now + (expr_price parts.cond.now + 2)
            + steps parts.body.now.kind) }
        ensures { OnOk result (draft.new ≡ lower_while self.now.arrays.now self.now.exit
            self.now.again parts.entry.before.now parts.entry.cond.now parts.entry.body.now
            draft.old) }
    {
        let head = draft.here() + 1;
        let exit = head + blocks_of(parts.before) + 1 + closes(parts.body) + 1;
        draft.close(self.alloc, CfgJump::Go(head))?;
        self.lower_all(draft, parts.before)?;
        let yes = draft.here() + 1;
        self.branch(draft, parts.cond, yes, exit)?;
        let inside = Lowering {
            exit,
            again: head,
            ..*self
        };
        inside.lower(draft, parts.body)?;
        draft.close(self.alloc, CfgJump::Go(head))?;
        Ok(())
    }

    /// A `do`: its body comes first, and `continue` leads to the block of its condition.
    #[cycle(lower)]
    fn lower_do(&self, draft: &mut Draft, stmt: &NormalStmt, parts: LoopParts) -> Result<(), Memory>
        requires is { stmt.now.kind
            ≡ normal.DoWhile parts.body.now parts.before.now parts.cond.now }
        requires room { HasSpace draft.old
            (closes parts.body.now.kind + blocks_of parts.before.now + 3)
            (steps parts.body.now.kind + steps_of parts.before.now
            + (expr_price parts.cond.now + 2)) }
        ensures { OnOk result (draft.new ≡ lower_do self.now.arrays.now self.now.exit self.now.again
            parts.entry.body.now parts.entry.before.now parts.entry.cond.now draft.old) }
    {
        let first = draft.here() + 1;
        let head = first + closes(parts.body) + 1;
        let exit = head + blocks_of(parts.before) + 1;
        draft.close(self.alloc, CfgJump::Go(first))?;
        let inside = Lowering {
            exit,
            again: head,
            ..*self
        };
        inside.lower(draft, parts.body)?;
        draft.close(self.alloc, CfgJump::Go(head))?;
        self.lower_all(draft, parts.before)?;
        self.branch(draft, parts.cond, first, exit)?;
        Ok(())
    }

    /// A `for` behind its first part: `continue` leads to its step, which leads back to the block of its condition.
    #[cycle(lower)]
    fn lower_for(&self, draft: &mut Draft, stmt: &NormalStmt, parts: ForParts) -> Result<(), Memory>
        requires is { IsFor stmt.now.kind
            parts.before.now parts.cond.now parts.step.now parts.body.now }
        requires room { HasSpace draft.old
            (blocks_of parts.before.now + closes parts.body.now.kind
            + blocks_of_step parts.step.now + 3)
            (steps_of parts.before.now + (option_price parts.cond.now + 2)
            + steps parts.body.now.kind + steps_if_any parts.step.now) }
        ensures { OnOk result (draft.new ≡ lower_for self.now.arrays.now self.now.exit
            self.now.again parts.entry.before.now parts.entry.cond.now parts.entry.step.now
            parts.entry.body.now draft.old) }
    {
        let head = draft.here() + 1;
        let after = head + blocks_of(parts.before) + 1 + closes(parts.body) + 1;
        let exit = after + blocks_of_step(parts.step);
        draft.close(self.alloc, CfgJump::Go(head))?;
        self.lower_all(draft, parts.before)?;
        self.enter(draft, parts.cond, exit)?;
        let again = again_in(parts.step, head, after);
        let inside = Lowering {
            exit,
            again,
            ..*self
        };
        inside.lower(draft, parts.body)?;
        self.lower_step(draft, parts.step, after)?;
        draft.close(self.alloc, CfgJump::Go(head))?;
        Ok(())
    }

    /// The step of a `for`, in a block of its own.
    #[cycle(lower)]
    fn lower_step(
        &self,
        draft: &mut Draft,
        step: &Option<Boxed<NormalStmt>>,
        after: u32,
    ) -> Result<(), Memory>
        requires { HasSpace draft.old (blocks_of_step step.now) (steps_if_any step.now) }
        ensures made { OnOk result (draft.new
            ≡ stepped self.now.arrays.now self.now.exit self.now.again step.now after draft.old) }
        ensures few { OnOk result
            (HasGrown draft.old draft.new (blocks_of_step step.now) (steps_if_any step.now)) }
    {
        match step {
            None => Ok(()),
            Some(step) => {
                draft.close(self.alloc, CfgJump::Go(after))?;
                self.lower(draft, step.get())
            }
        }
    }

    #[cycle(lower)]
    pub(crate) fn lower_all(&self, draft: &mut Draft, stmts: &[NormalStmt]) -> Result<(), Memory>
        requires { HasSpace draft.old (blocks_of stmts.now) (steps_of stmts.now) }
        ensures made { OnOk result (draft.new
            ≡ lower_all self.now.arrays.now self.now.exit self.now.again stmts.now draft.old) }
        ensures few { OnOk result
            (HasGrown draft.old draft.new (blocks_of stmts.now) (steps_of stmts.now)) }
    {
        for stmt in stmts {
            self.lower(draft, stmt)?;
        }
        Ok(())
    }

    #[cycle(lower)]
    fn lower_any(&self, draft: &mut Draft, stmt: &Option<Boxed<NormalStmt>>) -> Result<(), Memory>
        requires { HasSpace draft.old (blocks_if_any stmt.now) (steps_if_any stmt.now) }
        ensures made { OnOk result (draft.new
            ≡ lower_any self.now.arrays.now self.now.exit self.now.again stmt.now draft.old) }
        ensures few { OnOk result
            (HasGrown draft.old draft.new (blocks_if_any stmt.now) (steps_if_any stmt.now)) }
    {
        match stmt {
            None => Ok(()),
            Some(stmt) => self.lower(draft, stmt.get()),
        }
    }
}

/// Where continue leads in a `for`: to its step, or to its condition where there is no step.
fn again_in(step: &Option<Boxed<NormalStmt>>, head: u32, after: u32) -> u32
    ensures { result ≡ again_in step.now head after }
{
    match step {
        None => head,
        Some(_) => after,
    }
}
