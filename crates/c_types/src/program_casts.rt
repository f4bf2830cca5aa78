//! The typed program of a program that keeps the rules: its names numbered, its types written, and
//! each implied conversion a cast. The rules are the premise of each call, so that no name is
//! missing and none is of another sort.
ghost use Rattle.std.specs.Prelude.{
  ◌≡◌,
  [],
  ◌∷◌,
  length,
  true,
  Some,
  None,
  IfOk,
  OnOk,
  IfSome,
  IsSome,
  All,
};
ghost use Rattle.el_base.specs.Limits.{IsNumbered};
ghost use Rattle.c_ast.specs.declared.tree.StmtKind.TheVariants as kind;
ghost use Rattle.c_ast.specs.Programs.{program_nodes, helpers_nodes, TypingHelpers, TypingProgram};
ghost use Rattle.c_ast.specs.ProgramCasts.{
  helper_of,
  known_of,
  CastsHelper,
  CastsHelpers,
  CastsProgram,
};
ghost use Rattle.c_types.specs.declared.known.Binding.TheVariants as binding;
ghost use Rattle.c_types.specs.Scopes.{is_new_in, with_entry};
ghost use Rattle.c_types.specs.Contexts.{IsObject};
ghost use Rattle.c_types.specs.TypingParts.{TypingUseIn};
ghost use Rattle.c_types.specs.ProgramParts.{
  HasCallee,
  TypingExprWith,
  TypingTargetWith,
  TypingStmtWith,
  TypingListWith,
  TypingHelperWith,
  TypingKernelWith,
};
ghost use Rattle.c_types.specs.ProgramContexts.{
  callees,
  IsProgExpr,
  IsProgName,
  IsProgElement,
  AreProgExprs,
  AreArguments,
  IsProgOption,
  IsProgTarget,
  IsProgValue,
  IsProgConverted,
  IsProgStmt,
  IsProgAct,
  AreProgStmts,
  IsProgHeld,
  IsProgInside,
  IsProgKernel,
};

use crate::known::{Binding, Known};
use crate::parameters::{copy_params, declare_params};
use crate::program_conversions::{assigned, binary, cast, choose, converted, prog_node, unary};
use crate::scopes::Scopes;
use c_ast::{
    Binary, Boxed, Expr, ExprKind, Helper, List, Name, Object, Param, ProgExpr, ProgExprKind,
    ProgStmt, ProgStmtKind, ProgTarget, ProgTree, Program, Span, Stmt, StmtKind, Target, Tree, Ty,
    TypedHelper, TypedProgram,
};
use el_base::Memory;
use std::alloc::Global;

/// The typed program of a program that keeps the rules.
///
/// # Errors
///
/// [`Memory`] where memory is wanting.
pub(crate) fn program_casts(alloc: Global, program: &Program) -> Result<TypedProgram, Memory>
    requires typing { TypingProgram program.now }
    requires numbered { IsNumbered (program_nodes program.now) }
    ensures { IfOk result (λ k. CastsProgram program.now k) }
{
    let helpers = program.helpers.as_slice();
    Ok(TypedProgram {
        helpers: cast_helpers(alloc, helpers)?,
        kernel: cast_kernel(alloc, helpers, &program.kernel)?,
    })
}

// ---- helpers and kernels

fn cast_helpers(alloc: Global, helpers: &[Helper]) -> Result<List<TypedHelper>, Memory>
    requires typing { TypingHelpers [] helpers.now }
    requires numbered { IsNumbered (helpers_nodes helpers.now) }
    ensures { IfOk result (λ ks. CastsHelpers [] helpers.now ks) }
{
    let mut items = List::new(alloc);
    for (place, helper) in helpers.iter().enumerate() {
        items.push(cast_helper(alloc, &helpers[..place], helper)?)?;
    }
    Ok(items)
}

// A helper behind others.
fn cast_helper(alloc: Global, helpers: &[Helper], helper: &Helper) -> Result<TypedHelper, Memory>
    requires { TypingHelperWith helpers.now helper.now }
    ensures { IfOk result (λ k. CastsHelper (callees helpers.now) helper.now k) }
{
    let name = helper.name.copy()?;
    let params = copy_params(alloc, helper.params.as_slice())?;
    let mut known = Known::new(alloc);
    declare_params(alloc, &mut known, helper.params.as_slice())?;
    let caster = Caster {
        alloc,
        helpers,
        returned: Some(helper.result),
    };
    let body = caster.cast_stmts(&mut known, helper.body.as_slice())?;
    let value = caster.cast_to(&known.scopes, helper.result, &helper.value)?;
    Ok(TypedHelper {
        name,
        at: helper.at,
        result: helper.result,
        params,
        vars: known.into_types(),
        body,
        value,
    })
}

// The kernel behind all helpers.
pub(crate) fn cast_kernel(
    alloc: Global,
    helpers: &[Helper],
    kernel: &Tree,
) -> Result<ProgTree, Memory>
    requires { TypingKernelWith helpers.now kernel.now }
    ensures { IfOk result (λ k. IsProgKernel helpers.now kernel.now k) }
{
    let name = kernel.name.copy()?;
    let params = copy_params(alloc, kernel.params.as_slice())?;
    let mut known = Known::new(alloc);
    let arrays = declare_params(alloc, &mut known, kernel.params.as_slice())?;
    let caster = Caster {
        alloc,
        helpers,
        returned: kernel.result,
    };
    let body = caster.cast_stmts(&mut known, kernel.body.as_slice())?;
    Ok(ProgTree {
        name,
        at: kernel.at,
        result: kernel.result,
        params,
        vars: known.into_types(),
        arrays,
        body,
    })
}

// ---- statements and expressions

// What the parts of a helper, or of the kernel, become typed by.
#[derive(Drop)]
struct Caster<'a> {
    alloc: Global,
    // The helpers that may be called.
    helpers: &'a [Helper],
    // The type of the result, where there is one.
    returned: Option<Ty>,
}

// The parts of an `if`.
#[derive(Clone, Copy)]
struct IfParts<'a> {
    cond: &'a Boxed<Expr>,
    then: &'a Boxed<Stmt>,
    other: &'a Option<Boxed<Stmt>>,
}

// The parts of a `for`.
#[derive(Clone, Copy)]
struct ForParts<'a> {
    first: &'a List<Stmt>,
    cond: &'a Option<Boxed<Expr>>,
    step: &'a Option<Boxed<Stmt>>,
    body: &'a Boxed<Stmt>,
}

impl<'a> Caster<'a> {
    #[cycle(cast_stmt)]
    fn cast_stmts(&self, known: &mut Known, stmts: &[Stmt]) -> Result<List<ProgStmt>, Memory>
        requires { TypingListWith self.now.helpers.now self.now.returned known.old.scopes
            (length known.old.types) stmts.now }
        ensures { IfOk result (λ ts.
            AreProgStmts self.now.helpers.now self.now.returned known.old stmts.now ts known.new) }
    {
        let mut items = List::new(self.alloc);
        for stmt in stmts {
            items.push(self.cast_stmt(known, stmt)?)?;
        }
        Ok(items)
    }

    #[cycle(cast_stmt)]
    fn cast_stmt(&self, known: &mut Known, stmt: &Stmt) -> Result<ProgStmt, Memory>
        requires { TypingStmtWith self.now.helpers.now self.now.returned known.old.scopes
            (length known.old.types) stmt.now }
        ensures { IfOk result (λ t. IsProgStmt self.now.helpers.now self.now.returned known.old
            stmt.now t known.new) }
    {
        match &stmt.kind {
            StmtKind::Block(body) => self.cast_block(known, stmt, body),
            StmtKind::Declare { name, ty, init } => {
                Ok(act(self.cast_declaration(known, name, *ty, init)?, stmt.at))
            }
            StmtKind::Assign { target, op, value } => {
                Ok(act(self.cast_assignment(known, target, *op, value)?, stmt.at))
            }
            StmtKind::Step { target, up } => {
                Ok(act(self.cast_step(known, target, *up)?, stmt.at))
            }
            StmtKind::If { cond, then, other } => {
                let parts = IfParts { cond, then, other };
                self.cast_if(known, stmt, parts)
            }
            StmtKind::While { cond, body } => { self.cast_while(known, stmt, cond, body) }
            StmtKind::DoWhile { body, cond } => { self.cast_do(known, stmt, body, cond) }
            StmtKind::For {
                first,
                cond,
                step,
                body,
            } => {
                let parts = ForParts {
                    first,
                    cond,
                    step,
                    body,
                };
                self.cast_for(known, stmt, parts)
            }
            StmtKind::Break => Ok(act(ProgStmtKind::Break, stmt.at)),
            StmtKind::Continue => Ok(act(ProgStmtKind::Continue, stmt.at)),
            StmtKind::Return(value) => self.cast_return(known, stmt, value),
            StmtKind::Empty => Ok(act(ProgStmtKind::Empty, stmt.at)),
        }
    }

    // A block, in a scope of its own.
    #[cycle(cast_stmt)]
    fn cast_block(
        &self,
        known: &mut Known,
        stmt: &Stmt,
        body: &List<Stmt>,
    ) -> Result<ProgStmt, Memory>
        requires is { stmt.now.kind ≡ kind.Block body.now }
        requires typing { TypingStmtWith self.now.helpers.now self.now.returned known.old.scopes
            (length known.old.types) stmt.now }
        ensures { IfOk result (λ t. IsProgStmt self.now.helpers.now self.now.returned known.old
            stmt.now t known.new) }
    {
        known.enter()?;
        let stmts = self.cast_stmts(known, body.as_slice())?;
        known.leave();
        Ok(act(ProgStmtKind::Block(stmts), stmt.at))
    }

    // An `if`, with a scope for each branch.
    #[cycle(cast_stmt)]
    fn cast_if(&self, known: &mut Known, stmt: &Stmt, parts: IfParts) -> Result<ProgStmt, Memory>
        requires is { stmt.now.kind ≡ kind.If parts.cond.now parts.then.now parts.other.now }
        requires typing { TypingStmtWith self.now.helpers.now self.now.returned known.old.scopes
            (length known.old.types) stmt.now }
        ensures { IfOk result (λ t. IsProgStmt self.now.helpers.now self.now.returned known.old
            stmt.now t known.new) }
    {
        let cond = self.cast_boxed(&known.scopes, parts.cond)?;
        let then = self.cast_inside(known, parts.then)?;
        let other = self.cast_held(known, parts.other)?;
        let cond = cond.into_inner();
        Ok(act(ProgStmtKind::If { cond, then, other }, stmt.at))
    }

    // A `while` loop.
    #[cycle(cast_stmt)]
    fn cast_while(
        &self,
        known: &mut Known,
        stmt: &Stmt,
        cond: &Boxed<Expr>,
        body: &Boxed<Stmt>,
    ) -> Result<ProgStmt, Memory>
        requires is { stmt.now.kind ≡ kind.While cond.now body.now }
        requires typing { TypingStmtWith self.now.helpers.now self.now.returned known.old.scopes
            (length known.old.types) stmt.now }
        ensures { IfOk result (λ t. IsProgStmt self.now.helpers.now self.now.returned known.old
            stmt.now t known.new) }
    {
        let cond = self.cast_boxed(&known.scopes, cond)?;
        let body = self.cast_inside(known, body)?;
        let cond = cond.into_inner();
        Ok(act(ProgStmtKind::While { cond, body }, stmt.at))
    }

    // A `do` loop.
    #[cycle(cast_stmt)]
    fn cast_do(
        &self,
        known: &mut Known,
        stmt: &Stmt,
        body: &Boxed<Stmt>,
        cond: &Boxed<Expr>,
    ) -> Result<ProgStmt, Memory>
        requires is { stmt.now.kind ≡ kind.DoWhile body.now cond.now }
        requires typing { TypingStmtWith self.now.helpers.now self.now.returned known.old.scopes
            (length known.old.types) stmt.now }
        ensures { IfOk result (λ t. IsProgStmt self.now.helpers.now self.now.returned known.old
            stmt.now t known.new) }
    {
        let cond = self.cast_boxed(&known.scopes, cond)?;
        let body = self.cast_inside(known, body)?;
        let cond = cond.into_inner();
        Ok(act(ProgStmtKind::DoWhile { body, cond }, stmt.at))
    }

    // A `for` loop, in a scope of its own.
    #[cycle(cast_stmt)]
    fn cast_for(&self, known: &mut Known, stmt: &Stmt, parts: ForParts) -> Result<ProgStmt, Memory>
        requires is { stmt.now.kind
            ≡ kind.For parts.first.now parts.cond.now parts.step.now parts.body.now }
        requires typing { TypingStmtWith self.now.helpers.now self.now.returned known.old.scopes
            (length known.old.types) stmt.now }
        ensures { IfOk result (λ t. IsProgStmt self.now.helpers.now self.now.returned known.old
            stmt.now t known.new) }
    {
        known.enter()?;
        let first = self.cast_stmts(known, parts.first.as_slice())?;
        let cond = self.cast_option(&known.scopes, parts.cond)?;
        let step = self.cast_held(known, parts.step)?;
        let body = self.cast_inside(known, parts.body)?;
        known.leave();
        let kind = ProgStmtKind::For {
            first,
            cond,
            step,
            body,
        };
        Ok(act(kind, stmt.at))
    }

    // The declaration of a variable.
    #[inline(never)]
    fn cast_declaration(
        &self,
        known: &mut Known,
        name: &Name,
        ty: Ty,
        init: &Option<Boxed<Expr>>,
    ) -> Result<ProgStmtKind, Memory>
        requires new { is_new_in known.old.scopes name.now ≡ true }
        requires numbered { IsNumbered (length known.old.types) }
        requires typing { IfSome init.now (TypingExprWith self.now.helpers.now
            (with_entry name.now (binding.Var (length known.old.types) ty) known.old.scopes)) }
        ensures { IfOk result (λ t. IsProgAct self.now.helpers.now known.old
            (kind.Declare name.now ty init.now) t known.new) }
    {
        let var = known.declare_var(name, ty)?;
        let init = self.cast_value(&known.scopes, Some(ty), init)?;
        Ok(ProgStmtKind::Declare { var, init })
    }

    // An assignment.
    #[inline(never)]
    fn cast_assignment(
        &self,
        known: &Known,
        target: &Boxed<Target>,
        op: Option<Binary>,
        value: &Boxed<Expr>,
    ) -> Result<ProgStmtKind, Memory>
        requires target { TypingTargetWith self.now.helpers.now known.now.scopes target.now }
        requires value { TypingExprWith self.now.helpers.now known.now.scopes value.now }
        ensures { IfOk result (λ t. IsProgAct self.now.helpers.now known.now
            (kind.Assign target.now op value.now) t known.now) }
    {
        let (target, ty) = self.cast_target(&known.scopes, target)?;
        let value = self.cast_boxed(&known.scopes, value)?;
        let value = assigned(self.alloc, op, ty, value)?.into_inner();
        Ok(ProgStmtKind::Assign { target, op, value })
    }

    // A step up or down.
    #[inline(never)]
    fn cast_step(
        &self,
        known: &Known,
        target: &Boxed<Target>,
        up: bool,
    ) -> Result<ProgStmtKind, Memory>
        requires { TypingTargetWith self.now.helpers.now known.now.scopes target.now }
        ensures { IfOk result (λ t. IsProgAct self.now.helpers.now known.now
            (kind.Step target.now up) t known.now) }
    {
        let (target, _) = self.cast_target(&known.scopes, target)?;
        Ok(ProgStmtKind::Step { target, up })
    }

    // A return, with or without a value.
    #[inline(never)]
    fn cast_return(
        &self,
        known: &Known,
        stmt: &Stmt,
        value: &Option<Boxed<Expr>>,
    ) -> Result<ProgStmt, Memory>
        requires is { stmt.now.kind ≡ kind.Return value.now }
        requires typing { IfSome value.now (TypingExprWith self.now.helpers.now known.now.scopes) }
        requires typed { IfSome value.now (λ e. IsSome self.now.returned) }
        ensures { IfOk result (λ t. IsProgStmt self.now.helpers.now self.now.returned known.now
            stmt.now t known.now) }
    {
        let value = self.cast_value(&known.scopes, self.returned, value)?;
        Ok(act(ProgStmtKind::Return(value), stmt.at))
    }

    // A statement inside a statement, which may be absent.
    #[cycle(cast_stmt)]
    fn cast_held(
        &self,
        known: &mut Known,
        stmt: &Option<Boxed<Stmt>>,
    ) -> Result<Option<Boxed<ProgStmt>>, Memory>
        requires { IfSome stmt.now
            (TypingStmtWith self.now.helpers.now self.now.returned ([] ∷ known.old.scopes)
            (length known.old.types)) }
        ensures { IfOk result (λ t. IsProgHeld self.now.helpers.now self.now.returned known.old
            stmt.now t known.new) }
    {
        match stmt {
            None => Ok(None),
            Some(stmt) => {
                known.enter()?;
                let typed = self.cast_stmt(known, stmt.get())?;
                known.leave();
                let boxed = Boxed::new(self.alloc, typed)?;
                Ok(Some(boxed))
            }
        }
    }

    // A statement inside a statement, in a scope of its own.
    #[cycle(cast_stmt)]
    fn cast_inside(&self, known: &mut Known, stmt: &Boxed<Stmt>) -> Result<Boxed<ProgStmt>, Memory>
        requires { TypingStmtWith self.now.helpers.now self.now.returned ([] ∷ known.old.scopes)
            (length known.old.types) stmt.now }
        ensures { IfOk result (λ t. IsProgInside self.now.helpers.now self.now.returned known.old
            stmt.now t known.new) }
    {
        known.enter()?;
        let typed = self.cast_stmt(known, stmt.get())?;
        known.leave();
        let boxed = Boxed::new(self.alloc, typed)?;
        Ok(boxed)
    }

    // What is assigned to, with the type of its object.
    fn cast_target(
        &self,
        scopes: &Scopes<Binding>,
        target: &Boxed<Target>,
    ) -> Result<(ProgTarget, Ty), Memory>
        requires { TypingTargetWith self.now.helpers.now scopes.now target.now }
        ensures { IfOk result (λ t. IsProgTarget self.now.helpers.now scopes.now target.now t.0
            t.1) }
    {
        let target = target.get();
        let at = target.at;
        let (to, ty) = object(scopes, &target.name, target.indices.len());
        let indices = self.cast_exprs(scopes, target.indices.as_slice())?;
        Ok((ProgTarget { to, at, indices }, ty))
    }

    // A value that may be absent, converted to a type; there is none where there is no type.
    fn cast_value(
        &self,
        scopes: &Scopes<Binding>,
        to: Option<Ty>,
        value: &Option<Boxed<Expr>>,
    ) -> Result<Option<ProgExpr>, Memory>
        requires typing { IfSome value.now (TypingExprWith self.now.helpers.now scopes.now) }
        requires typed { IfSome value.now (λ e. IsSome to) }
        ensures { IfOk result (λ f. IsProgValue self.now.helpers.now to scopes.now value.now f) }
    {
        match (value, to) {
            (None, _) => Ok(None),
            (Some(value), Some(ty)) => {
                let value = self.cast_to(scopes, ty, value.get())?;
                Ok(Some(value))
            }
            (Some(_), None) => unreachable!(),
        }
    }

    // An expression, converted to a type.
    fn cast_to(&self, scopes: &Scopes<Binding>, to: Ty, expr: &Expr) -> Result<ProgExpr, Memory>
        requires { TypingExprWith self.now.helpers.now scopes.now expr.now }
        ensures { IfOk result (λ f. IsProgConverted self.now.helpers.now to scopes.now expr.now f) }
    {
        let value = self.cast_expr(scopes, expr)?;
        Ok(converted(self.alloc, to, value)?.into_inner())
    }

    fn cast_option(
        &self,
        scopes: &Scopes<Binding>,
        expr: &Option<Boxed<Expr>>,
    ) -> Result<Option<ProgExpr>, Memory>
        requires { IfSome expr.now (TypingExprWith self.now.helpers.now scopes.now) }
        ensures { IfOk result (λ f. IsProgOption self.now.helpers.now scopes.now expr.now f) }
    {
        match expr {
            None => Ok(None),
            Some(expr) => Ok(Some(self.cast_boxed(scopes, expr)?.into_inner())),
        }
    }

    fn cast_boxed(
        &self,
        scopes: &Scopes<Binding>,
        expr: &Boxed<Expr>,
    ) -> Result<Boxed<ProgExpr>, Memory>
        requires { TypingExprWith self.now.helpers.now scopes.now expr.now }
        ensures { IfOk result (λ f. IsProgExpr self.now.helpers.now scopes.now expr.now f) }
    {
        self.cast_expr(scopes, expr.get())
    }

    #[cycle(cast_expr)]
    fn cast_exprs(&self, scopes: &Scopes<Binding>, exprs: &[Expr]) -> Result<List<ProgExpr>, Memory>
        requires { All (TypingExprWith self.now.helpers.now scopes.now) exprs.now }
        ensures { IfOk result (λ fs. AreProgExprs self.now.helpers.now scopes.now exprs.now fs) }
    {
        let mut items = List::new(self.alloc);
        for expr in exprs {
            items.push(self.cast_expr(scopes, expr)?.into_inner())?;
        }
        Ok(items)
    }

    #[cycle(cast_expr)]
    fn cast_expr(&self, scopes: &Scopes<Binding>, expr: &Expr) -> Result<Boxed<ProgExpr>, Memory>
        requires { TypingExprWith self.now.helpers.now scopes.now expr.now }
        ensures { IfOk result (λ f. IsProgExpr self.now.helpers.now scopes.now expr.now f) }
    {
        let at = expr.at;
        match &expr.kind {
            ExprKind::Number { value, ty } => {
                prog_node(self.alloc, ProgExprKind::Number(*value), *ty, at)
            }
            ExprKind::Name(name) => cast_name(self.alloc, scopes, name, at),
            ExprKind::Element { name, indices } => {
                let indices = self.cast_exprs(scopes, indices.as_slice())?;
                cast_element(self.alloc, scopes, name, indices, at)
            }
            ExprKind::Call { name, args } => {
                let (helper, callee) = callee(self.helpers, name);
                let params = callee.params.as_slice();
                let args = self.cast_args(scopes, params, args.as_slice())?;
                let kind = ProgExprKind::Call { helper, args };
                prog_node(self.alloc, kind, callee.result, at)
            }
            ExprKind::Unary(op, arg) => {
                let arg = self.cast_expr(scopes, arg.get())?;
                unary(self.alloc, *op, arg, at)
            }
            ExprKind::Cast(ty, arg) => {
                let arg = self.cast_expr(scopes, arg.get())?;
                cast(self.alloc, false, *ty, arg, at)
            }
            ExprKind::Binary(op, left, right) => {
                let left = self.cast_expr(scopes, left.get())?;
                let right = self.cast_expr(scopes, right.get())?;
                binary(self.alloc, *op, left, right, at)
            }
            ExprKind::Choose(cond, then, other) => {
                let cond = self.cast_expr(scopes, cond.get())?;
                let then = self.cast_expr(scopes, then.get())?;
                let other = self.cast_expr(scopes, other.get())?;
                choose(self.alloc, cond, then, other, at)
            }
        }
    }

    // Arguments, each converted to the type of its parameter.
    #[cycle(cast_expr)]
    fn cast_args(
        &self,
        scopes: &Scopes<Binding>,
        params: &[Param],
        args: &[Expr],
    ) -> Result<List<ProgExpr>, Memory>
        requires typing { All (TypingExprWith self.now.helpers.now scopes.now) args.now }
        requires one_for_each { length args.now ≡ length params.now }
        ensures { IfOk result (λ gs. AreArguments self.now.helpers.now scopes.now params.now
            args.now gs) }
    {
        let mut items = List::new(self.alloc);
        for (place, arg) in args.iter().enumerate() {
            let value = self.cast_expr(scopes, arg)?;
            let arg = converted(self.alloc, params[place].ty, value)?;
            items.push(arg.into_inner())?;
        }
        Ok(items)
    }
}

fn act(kind: ProgStmtKind, at: Span) -> ProgStmt
    ensures { result ≡ record { kind = kind; at = at } }
{
    ProgStmt { kind, at }
}

// The variable or array that a name stands for where it has so many indices, with the type of it
// or of its elements.
fn object(scopes: &Scopes<Binding>, name: &Name, indices: usize) -> (Object, Ty)
    requires { TypingUseIn scopes.now name.now indices }
    ensures { IsObject scopes.now name.now indices result.0 result.1 }
{
    match scopes.find(name) {
        Some(Binding::Var { var, ty }) => (Object::Var(var), ty),
        Some(Binding::Array { array, ty }) => (Object::Array(array), ty),
        None => unreachable!(),
    }
}

// The helper of a name, by its place.
fn callee<'a>(helpers: &'a [Helper], name: &Name) -> (u32, &'a Helper)
    requires named { HasCallee helpers.now name.now }
    requires numbered { IsNumbered (length helpers.now) }
    ensures { helper_of (callees helpers.now) name.now ≡ Some (result.0, known_of result.1.now) }
{
    for (place, helper) in helpers.iter().enumerate() {
        if helper.name == *name {
            return (place as u32, helper);
        }
    }
    unreachable!()
}

// The name of a variable.
#[inline(never)]
fn cast_name(
    alloc: Global,
    scopes: &Scopes<Binding>,
    name: &Name,
    at: Span,
) -> Result<Boxed<ProgExpr>, Memory>
    requires { TypingUseIn scopes.now name.now 0 }
    ensures { IfOk result (IsProgName scopes.now name.now at) }
{
    match object(scopes, name, 0) {
        (Object::Var(var), ty) => prog_node(alloc, ProgExprKind::Var(var), ty, at),
        (Object::Array(_), _) => unreachable!(),
    }
}

// An element of an array by its typed indices, or a variable without any.
#[inline(never)]
fn cast_element(
    alloc: Global,
    scopes: &Scopes<Binding>,
    name: &Name,
    indices: List<ProgExpr>,
    at: Span,
) -> Result<Boxed<ProgExpr>, Memory>
    requires { TypingUseIn scopes.now name.now (length indices) }
    ensures { IfOk result (IsProgElement scopes.now name.now indices at) }
{
    match object(scopes, name, indices.len()) {
        (Object::Var(var), ty) => prog_node(alloc, ProgExprKind::Var(var), ty, at),
        (Object::Array(array), ty) => {
            let kind = ProgExprKind::Element { array, indices };
            prog_node(alloc, kind, ty, at)
        }
    }
}
