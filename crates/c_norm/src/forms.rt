//! Statements: each becomes a list of statements, and each part of `if` and of a loop a block.
ghost use Rattle.std.specs.Prelude.{◌≡◌, ◌+◌, ◌≤◌, length, IfOk, OnOk};
ghost use Rattle.c_ast.specs.declared.typed.TypedStmtKind.TheVariants as act;
ghost use Rattle.c_ast.specs.Nodes.{
  typed_expr_nodes,
  typed_opt_nodes,
  typed_stmt_nodes,
  typed_stmts_nodes,
  typed_held_nodes,
};
ghost use Rattle.c_norm.specs.Code.{
  HasRoom,
  IsMade,
  IsLast,
  IsAlone,
  IsOptional,
  IsBlock,
  IsHeld,
  stmt_form,
  stmts_form,
};

use crate::assignments::{Update, plain};
use crate::expand::expand;
use crate::settings::put;
use crate::types::step_operator;
use c_ast::{NormalStmt, NormalStmtKind, Typed, TypedExpr, TypedStmt, TypedStmtKind};
use el_base::{Boxed, List, Memory, Ty};
use std::alloc::Global;

/// What the statements of a kernel are brought to normal form by.
#[derive(Drop)]
pub(crate) struct Normalizer<'a> {
    pub(crate) alloc: Global,
    /// The kernel, which has the types of objects.
    pub(crate) typed: &'a Typed,
}

impl<'a> Normalizer<'a> {
    /// The statements that one is made of go behind `out`, and the variables that are made for them behind `vars`.
    #[cycle(form)]
    fn form(
        &self,
        stmt: &TypedStmt,
        out: &mut List<NormalStmt>,
        vars: &mut List<Ty>,
    ) -> Result<(), Memory>
        requires { HasRoom vars.old (typed_stmt_nodes stmt.now) }
        ensures made { OnOk result
            (IsMade (stmt_form self.now.typed.now (length vars.old) stmt.now)
            out.old vars.old out.new vars.new) }
        ensures few { OnOk result (length vars.new ≤ length vars.old + typed_stmt_nodes stmt.now) }
    {
        let kind = self.kind(stmt, out, vars)?;
        put(out, kind, stmt.at)?;
        Ok(())
    }

    /// The last of the statements that one is made of. The others go behind `out`.
    #[cycle(form)]
    fn kind(
        &self,
        stmt: &TypedStmt,
        out: &mut List<NormalStmt>,
        vars: &mut List<Ty>,
    ) -> Result<NormalStmtKind, Memory>
        requires { HasRoom vars.old (typed_stmt_nodes stmt.now) }
        ensures { IfOk result
            (IsLast (stmt_form self.now.typed.now (length vars.old) stmt.now) stmt.now.at
            out.old vars.old out.new vars.new) }
    {
        match &stmt.kind {
            TypedStmtKind::Block(stmts) => self.block(stmts.as_slice(), vars),
            TypedStmtKind::Declare { var, init } => {
                let init = optional(self.alloc, init, out, vars)?;
                let var = *var;
                Ok(NormalStmtKind::Declare { var, init })
            }
            TypedStmtKind::Assign { target, op, value } => match op {
                None => plain(self.alloc, target, value, out, vars),
                Some(op) => {
                    let update = Update::new(self.typed, target, *op, value.ty, stmt.at);
                    update.compound(self.alloc, value, out, vars)
                }
            },
            TypedStmtKind::Step { target, up } => {
                let update = Update::new(self.typed, target, step_operator(*up), Ty::I32, stmt.at);
                update.step(self.alloc, out, vars)
            }
            TypedStmtKind::If { cond, then, other } => self.choice(cond, then.get(), other, vars),
            TypedStmtKind::While { cond, body } => self.while_loop(cond, body.get(), vars),
            TypedStmtKind::DoWhile { body, cond } => self.do_loop(body.get(), cond, vars),
            TypedStmtKind::For {
                first,
                cond,
                step,
                body,
            } => self.for_loop(first.as_slice(), cond, step, body.get(), vars),
            TypedStmtKind::Break => Ok(NormalStmtKind::Break),
            TypedStmtKind::Continue => Ok(NormalStmtKind::Continue),
            TypedStmtKind::Return(value) => {
                let value = optional(self.alloc, value, out, vars)?;
                Ok(NormalStmtKind::Return(value))
            }
            TypedStmtKind::Empty => Ok(NormalStmtKind::Empty),
        }
    }

    /// The statements that several are made of, in order.
    #[cycle(form)]
    #[tactic(auto, using(crate::proofs::MadeArms::few_stmts))]
    pub(crate) fn forms(
        &self,
        stmts: &[TypedStmt],
        out: &mut List<NormalStmt>,
        vars: &mut List<Ty>,
    ) -> Result<(), Memory>
        requires { HasRoom vars.old (typed_stmts_nodes stmts.now) }
        ensures made { OnOk result
            (IsMade (stmts_form self.now.typed.now (length vars.old) stmts.now)
            out.old vars.old out.new vars.new) }
        ensures few { OnOk result
            (length vars.new ≤ length vars.old + typed_stmts_nodes stmts.now) }
    {
        for stmt in stmts {
            self.form(stmt, out, vars)?;
        }
        Ok(())
    }

    /// A part of `if`, the body of a loop or the step of a `for`, as a block.
    #[cycle(form)]
    #[tactic(auto, using(crate::proofs::MadeArms::few_block))]
    fn inside(&self, stmt: &TypedStmt, vars: &mut List<Ty>) -> Result<Boxed<NormalStmt>, Memory>
        requires { HasRoom vars.old (typed_stmt_nodes stmt.now) }
        ensures made { IfOk result (IsBlock self.now.typed.now stmt.now vars.old vars.new) }
        ensures few { OnOk result (length vars.new ≤ length vars.old + typed_stmt_nodes stmt.now) }
    {
        let mut stmts = List::new(self.alloc);
        self.form(stmt, &mut stmts, vars)?;
        let block = NormalStmt {
            kind: NormalStmtKind::Block(stmts),
            at: stmt.at,
        };
        let boxed = Boxed::new(self.alloc, block)?;
        Ok(boxed)
    }

    /// The same of one that may be absent.
    #[cycle(form)]
    #[tactic(auto, using(crate::proofs::MadeArms::few_held_made))]
    fn held(
        &self,
        stmt: &Option<Boxed<TypedStmt>>,
        vars: &mut List<Ty>,
    ) -> Result<Option<Boxed<NormalStmt>>, Memory>
        requires { HasRoom vars.old (typed_held_nodes stmt.now) }
        ensures made { IfOk result (IsHeld self.now.typed.now stmt.now vars.old vars.new) }
        ensures few { OnOk result (length vars.new ≤ length vars.old + typed_held_nodes stmt.now) }
    {
        match stmt {
            None => Ok(None),
            Some(stmt) => {
                let block = self.inside(stmt.get(), vars)?;
                Ok(Some(block))
            }
        }
    }

    #[cycle(form)]
    fn block(&self, stmts: &[TypedStmt], vars: &mut List<Ty>) -> Result<NormalStmtKind, Memory>
        requires { HasRoom vars.old (typed_stmts_nodes stmts.now) }
        ensures { IfOk result
            (IsAlone self.now.typed.now (act.Block stmts.now) vars.old vars.new) }
    {
        let mut made = List::new(self.alloc);
        self.forms(stmts, &mut made, vars)?;
        Ok(NormalStmtKind::Block(made))
    }

    /// `if`. What is set for the condition stands before it.
    #[cycle(form)]
    fn choice(
        &self,
        cond: &TypedExpr,
        then: &TypedStmt,
        other: &Option<Boxed<TypedStmt>>,
        vars: &mut List<Ty>,
    ) -> Result<NormalStmtKind, Memory>
        requires { HasRoom vars.old
            (typed_expr_nodes cond.now + typed_stmt_nodes then.now + typed_held_nodes other.now) }
        ensures { IfOk result
            (IsAlone self.now.typed.now (act.If cond.now then.now other.now) vars.old vars.new) }
    {
        let mut before = List::new(self.alloc);
        let test = expand(self.alloc, cond, &mut before, vars)?;
        let then = self.inside(then, vars)?;
        let other = self.held(other, vars)?;
        let cond = test.expr;
        Ok(NormalStmtKind::If {
            before,
            cond,
            then,
            other,
        })
    }

    #[cycle(form)]
    fn while_loop(
        &self,
        cond: &TypedExpr,
        body: &TypedStmt,
        vars: &mut List<Ty>,
    ) -> Result<NormalStmtKind, Memory>
        requires { HasRoom vars.old (typed_expr_nodes cond.now + typed_stmt_nodes body.now) }
        ensures { IfOk result
            (IsAlone self.now.typed.now (act.While cond.now body.now) vars.old vars.new) }
    {
        let mut before = List::new(self.alloc);
        let test = expand(self.alloc, cond, &mut before, vars)?;
        let body = self.inside(body, vars)?;
        let cond = test.expr;
        Ok(NormalStmtKind::While { before, cond, body })
    }

    #[cycle(form)]
    fn do_loop(
        &self,
        body: &TypedStmt,
        cond: &TypedExpr,
        vars: &mut List<Ty>,
    ) -> Result<NormalStmtKind, Memory>
        requires { HasRoom vars.old (typed_stmt_nodes body.now + typed_expr_nodes cond.now) }
        ensures { IfOk result
            (IsAlone self.now.typed.now (act.DoWhile body.now cond.now) vars.old vars.new) }
    {
        let body = self.inside(body, vars)?;
        let mut before = List::new(self.alloc);
        let test = expand(self.alloc, cond, &mut before, vars)?;
        let cond = test.expr;
        Ok(NormalStmtKind::DoWhile { body, before, cond })
    }

    #[cycle(form)]
    fn for_loop(
        &self,
        first: &[TypedStmt],
        cond: &Option<TypedExpr>,
        step: &Option<Boxed<TypedStmt>>,
        body: &TypedStmt,
        vars: &mut List<Ty>,
    ) -> Result<NormalStmtKind, Memory>
        requires { HasRoom vars.old (typed_stmts_nodes first.now + typed_opt_nodes cond.now
            + typed_held_nodes step.now + typed_stmt_nodes body.now) }
        ensures { IfOk result (IsAlone self.now.typed.now
            (act.For first.now cond.now step.now body.now) vars.old vars.new) }
    {
        let mut opening = List::new(self.alloc);
        self.forms(first, &mut opening, vars)?;
        let mut before = List::new(self.alloc);
        let cond = optional(self.alloc, cond, &mut before, vars)?;
        let step = self.held(step, vars)?;
        let body = self.inside(body, vars)?;
        Ok(NormalStmtKind::For {
            first: opening,
            before,
            cond,
            step,
            body,
        })
    }
}

/// Expands an expression that may be absent.
#[tactic(auto, using(crate::proofs::MadeArms::few_optional_made))]
fn optional(
    alloc: Global,
    e: &Option<TypedExpr>,
    before: &mut List<NormalStmt>,
    vars: &mut List<Ty>,
) -> Result<Option<TypedExpr>, Memory>
    requires { HasRoom vars.old (typed_opt_nodes e.now) }
    ensures expanded { IfOk result
        (IsOptional e.now before.old vars.old before.new vars.new) }
    ensures few { OnOk result (length vars.new ≤ length vars.old + typed_opt_nodes e.now) }
{
    match e {
        None => Ok(None),
        Some(e) => {
            let rest = expand(alloc, e, before, vars)?;
            Ok(Some(rest.expr))
        }
    }
}
