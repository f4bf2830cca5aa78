//! The kernel without calls, statement by statement. A call in a helper goes on in an earlier helper, as deep as the tree that is
//! made, whose nodes were counted before.
#![tactic(auto, unfolding(c_calls::proofs::TreeRows::prog_rows))]

ghost use Rattle.std.specs.Prelude.{◌≡◌, ◌+◌, ◌++◌, ◌≤◌, length, take, None, IfOk, OnOk};
ghost use Rattle.el_base.specs.Limits.{IsNumbered};
ghost use Rattle.c_ast.specs.Casts.{of_type, act_at};
ghost use Rattle.c_ast.specs.declared.program.ProgStmtKind.TheVariants as act;
ghost use Rattle.c_ast.specs.declared.typed.TypedStmtKind.TheVariants as stmt;
ghost use Rattle.c_calls.specs.Inlined.{behind, declaring, fresh_target, moved, target_to, writing};
ghost use Rattle.c_inline.specs.Making.{
  AreOut,
  AreStmts,
  Becomes,
  CallFits,
  ExprFits,
  ExprsFit,
  HeldFits,
  HelperFits,
  IsCall,
  IsHeld,
  IsOption,
  IsWritten,
  Makes,
  ObjectNumbers,
  OptionFits,
  StmtFits,
  StmtsFit,
  call_of,
  held_of,
  option_of,
  outs_of,
  stmts_of,
  writings_of,
};

use c_ast::{
    Binary, Object, ProgExpr, ProgExprKind, ProgStmt, ProgStmtKind, ProgTarget, TypedExpr,
    TypedExprKind, TypedHelper, TypedStmt, TypedStmtKind, TypedTarget,
};
use el_base::{Boxed, List, Memory, Span, Ty};
use std::alloc::Global;

/// What a walk over the kernel, or over a helper, goes by.
#[derive(Drop)]
pub(crate) struct Inliner<'a> {
    pub(crate) alloc: Global,
    /// The helpers that may be called.
    pub(crate) helpers: &'a [TypedHelper],
    /// The first number of the variables of the kernel, or of the helper.
    pub(crate) base: u32,
}

// ---- expressions

/// A call: the number of its helper, its arguments, and where it stands.
#[derive(Clone, Copy)]
struct Call<'a> {
    helper: u32,
    args: &'a [ProgExpr],
    at: Span,
}

impl<'a> Inliner<'a> {
    /// What is left of an expression. The blocks of its calls go behind `before`, and the variables that are made behind `vars`;
    /// the variables of its own helper are numbered from `self.base` on.
    #[cycle(walk)]
    fn expr(
        &self,
        e: &ProgExpr,
        before: &mut List<TypedStmt>,
        vars: &mut List<Ty>,
    ) -> Result<TypedExpr, Memory>
        requires { ExprFits self.now.helpers.now self.now.base vars.old e.now }
        ensures { IfOk result
            (Makes self.now.helpers.now self.now.base e.now
            before.old vars.old before.new vars.new) }
    {
        match &e.kind {
            ProgExprKind::Number(value) => Ok(left_of(e, TypedExprKind::Number(*value))),
            ProgExprKind::Var(var) => Ok(left_of(e, TypedExprKind::Var(numbered(self.base, *var)))),
            ProgExprKind::Element { array, indices } => {
                let indices = self.exprs(indices.as_slice(), before, vars)?;
                let array = *array;
                Ok(left_of(e, TypedExprKind::Element { array, indices }))
            }
            ProgExprKind::Unary(op, arg) => {
                let arg = self.boxed(arg.get(), before, vars)?;
                Ok(left_of(e, TypedExprKind::Unary(*op, arg)))
            }
            ProgExprKind::Cast { implied, arg } => {
                let arg = self.boxed(arg.get(), before, vars)?;
                let implied = *implied;
                Ok(left_of(e, TypedExprKind::Cast { implied, arg }))
            }
            ProgExprKind::Binary(op, left, right) => {
                let left = self.boxed(left.get(), before, vars)?;
                let right = self.boxed(right.get(), before, vars)?;
                Ok(left_of(e, TypedExprKind::Binary(*op, left, right)))
            }
            ProgExprKind::Choose(cond, then, other) => {
                let cond = self.boxed(cond.get(), before, vars)?;
                let then = self.boxed(then.get(), before, vars)?;
                let other = self.boxed(other.get(), before, vars)?;
                Ok(left_of(e, TypedExprKind::Choose(cond, then, other)))
            }
            ProgExprKind::Call { helper, args } => {
                let call = Call {
                    helper: *helper,
                    args: args.as_slice(),
                    at: e.at,
                };
                let var = self.call(call, before, vars)?;
                Ok(left_of(e, TypedExprKind::Var(var)))
            }
        }
    }
}

/// What is left of an expression, with its type and place.
fn left_of(e: &ProgExpr, kind: TypedExprKind) -> TypedExpr
    ensures { result ≡ of_type kind e.now.ty e.now.at }
{
    TypedExpr {
        kind,
        ty: e.ty,
        at: e.at,
    }
}

/// The number of a variable of a helper, or of the kernel, whose variables are numbered from `base` on.
fn numbered(base: u32, var: u32) -> u32
    requires { IsNumbered (base + var) }
    ensures { result ≡ base + var }
{
    base + var
}

/// The number of the next variable that is made.
fn next_var(vars: &List<Ty>) -> u32
    requires { IsNumbered (length vars.now) }
    ensures { result ≡ length vars.now }
{
    vars.len() as u32
}

impl<'a> Inliner<'a> {
    #[cycle(walk)]
    fn boxed(
        &self,
        e: &ProgExpr,
        before: &mut List<TypedStmt>,
        vars: &mut List<Ty>,
    ) -> Result<Boxed<TypedExpr>, Memory>
        requires { ExprFits self.now.helpers.now self.now.base vars.old e.now }
        ensures { IfOk result
            (Makes self.now.helpers.now self.now.base e.now
            before.old vars.old before.new vars.new) }
    {
        let rest = self.expr(e, before, vars)?;
        let boxed = Boxed::new(self.alloc, rest)?;
        Ok(boxed)
    }

    /// What is left of several expressions, from left to right.
    #[cycle(walk)]
    fn exprs(
        &self,
        list: &[ProgExpr],
        before: &mut List<TypedStmt>,
        vars: &mut List<Ty>,
    ) -> Result<List<TypedExpr>, Memory>
        requires { ExprsFit self.now.helpers.now self.now.base vars.old list.now }
        ensures { IfOk result
            (AreOut (outs_of self.now.helpers.now self.now.base (length vars.old) list.now)
            before.old vars.old before.new vars.new) }
    {
        let mut rests = List::new(self.alloc);
        for e in list {
            let rest = self.expr(e, before, vars)?;
            rests.push(rest)?;
        }
        Ok(rests)
    }

    #[cycle(walk)]
    fn option(
        &self,
        e: &Option<ProgExpr>,
        before: &mut List<TypedStmt>,
        vars: &mut List<Ty>,
    ) -> Result<Option<TypedExpr>, Memory>
        requires { OptionFits self.now.helpers.now self.now.base vars.old e.now }
        ensures { IfOk result
            (IsOption (option_of self.now.helpers.now self.now.base (length vars.old) e.now)
            before.old vars.old before.new vars.new) }
    {
        match e {
            None => Ok(None),
            Some(e) => {
                let rest = self.expr(e, before, vars)?;
                Ok(Some(rest))
            }
        }
    }

    /// The fresh variable of a call, whose block goes behind those of its arguments.
    #[cycle(walk)]
    #[inline(never)]
    fn call(
        &self,
        call: Call,
        before: &mut List<TypedStmt>,
        vars: &mut List<Ty>,
    ) -> Result<u32, Memory>
        requires { CallFits self.now.helpers.now self.now.base vars.old
            call.helper call.args.now call.at }
        ensures { IfOk result
            (IsCall
            (outs_of self.now.helpers.now self.now.base (length vars.old) call.entry.args.now)
            (call_of self.now.helpers.now self.now.base (length vars.old)
            call.entry.helper call.entry.args.now call.entry.at)
            before.old vars.old before.new vars.new) }
    {
        let args = self.exprs(call.args, before, vars)?;
        let at = call.at;
        let place = call.helper as usize;
        match self.helpers.get(place) {
            None => {
                let var = next_var(vars);
                before.push(stmt_at(TypedStmtKind::Empty, at))?;
                Ok(var)
            }
            Some(helper) => {
                let inner = Inliner {
                    alloc: self.alloc,
                    helpers: below(self.helpers, place),
                    base: next_var(vars),
                };
                let var = inner.written(helper, args.as_slice(), at, before, vars)?;
                Ok(var)
            }
        }
    }
}

/// The helpers before the one at a place.
fn below(helpers: &[TypedHelper], place: usize) -> &[TypedHelper]
    requires { place ≤ length helpers.now }
    ensures { result.now ≡ take place helpers.now }
{
    &helpers[..place]
}

impl<'a> Inliner<'a> {
    /// The block of a call of the helper, with variables of its own. Gives the fresh variable, which has the helper's value.
    #[cycle(walk)]
    fn written(
        &self,
        helper: &TypedHelper,
        args: &[TypedExpr],
        at: Span,
        before: &mut List<TypedStmt>,
        vars: &mut List<Ty>,
    ) -> Result<u32, Memory>
        requires base { self.now.base ≡ length vars.old }
        requires fits { HelperFits self.now.helpers.now vars.old helper.now args.now at }
        ensures { IfOk result
            (IsWritten
            (writing (writings_of self.now.helpers.now) helper.now (length vars.old) args.now at)
            before.old vars.old before.new vars.new) }
    {
        add_types(vars, helper.vars.as_slice())?;
        let var = next_var(vars);
        vars.push(helper.result)?;
        let mut block = declarations(self.alloc, self.base, args, at)?;
        self.stmts(helper.body.as_slice(), &mut block, vars)?;
        let mut inner = List::new(self.alloc);
        let value = self.expr(&helper.value, &mut inner, vars)?;
        let last = behind(inner, assigned(self.alloc, var, value, at), at)?;
        block.push(stmt_at(last, at))?;
        before.push(stmt_at(TypedStmtKind::Block(block), at))?;
        Ok(var)
    }
}

fn add_types(vars: &mut List<Ty>, types: &[Ty]) -> Result<(), Memory>
    ensures { OnOk result (vars.new ≡ vars.old ++ types.now) }
{
    for ty in types {
        vars.push(*ty)?;
    }
    Ok(())
}

/// The declarations of parameters that are numbered from `first` on, with these arguments as their values.
fn declarations(
    alloc: Global,
    first: u32,
    args: &[TypedExpr],
    at: Span,
) -> Result<List<TypedStmt>, Memory>
    requires { IsNumbered (first + length args.now) }
    ensures { IfOk result (λ ss. ss ≡ declaring first args.now at) }
{
    let mut stmts = List::new(alloc);
    let mut var = first;
    for arg in args {
        let init = Some(arg.copy(alloc)?);
        stmts.push(stmt_at(TypedStmtKind::Declare { var, init }, at))?;
        var += 1;
    }
    Ok(stmts)
}

/// `var = value;`
fn assigned(alloc: Global, var: u32, value: TypedExpr, at: Span) -> TypedStmtKind
    ensures { result ≡ stmt.Assign (fresh_target var at) None value }
{
    let target = TypedTarget {
        to: Object::Var(var),
        at,
        indices: List::new(alloc),
    };
    TypedStmtKind::Assign {
        target,
        op: None,
        value,
    }
}

fn stmt_at(kind: TypedStmtKind, at: Span) -> TypedStmt
    ensures { result ≡ act_at kind at }
{
    TypedStmt { kind, at }
}

/// A statement behind the blocks of its calls, where there are any.
fn behind(before: List<TypedStmt>, kind: TypedStmtKind, at: Span) -> Result<TypedStmtKind, Memory>
    ensures { IfOk result (λ k. k ≡ behind before kind at) }
{
    if before.is_empty() {
        return Ok(kind);
    }
    let mut stmts = before;
    stmts.push(stmt_at(kind, at))?;
    Ok(TypedStmtKind::Block(stmts))
}

// ---- statements

/// The parts of an assignment.
#[derive(Clone, Copy)]
struct AssignParts<'a> {
    target: &'a ProgTarget,
    op: Option<Binary>,
    value: &'a ProgExpr,
}

/// The parts of an `if`.
#[derive(Clone, Copy)]
struct IfParts<'a> {
    cond: &'a ProgExpr,
    then: &'a ProgStmt,
    other: &'a Option<Boxed<ProgStmt>>,
}

/// The parts of a `for`.
#[derive(Clone, Copy)]
struct ForParts<'a> {
    first: &'a [ProgStmt],
    cond: &'a Option<ProgExpr>,
    step: &'a Option<Boxed<ProgStmt>>,
    body: &'a ProgStmt,
}

impl<'a> Inliner<'a> {
    /// The statement that one becomes, behind the blocks of its calls.
    #[cycle(walk)]
    fn stmt(&self, stmt: &ProgStmt, vars: &mut List<Ty>) -> Result<TypedStmt, Memory>
        requires { StmtFits self.now.helpers.now self.now.base vars.old stmt.now }
        ensures { IfOk result
            (Becomes self.now.helpers.now self.now.base stmt.now vars.old vars.new) }
    {
        match &stmt.kind {
            ProgStmtKind::Block(list) => {
                let mut made = List::new(self.alloc);
                self.stmts(list.as_slice(), &mut made, vars)?;
                Ok(stmt_at(TypedStmtKind::Block(made), stmt.at))
            }
            ProgStmtKind::Declare { var, init } => { self.declare(stmt, *var, init, vars) }
            ProgStmtKind::Assign { target, op, value } => {
                let op = *op;
                self.assign(stmt, AssignParts { target, op, value }, vars)
            }
            ProgStmtKind::Step { target, up } => { self.step(stmt, target, *up, vars) }
            ProgStmtKind::If { cond, then, other } => {
                let then = then.get();
                self.choice(stmt, IfParts { cond, then, other }, vars)
            }
            ProgStmtKind::While { cond, body } => { self.while_loop(stmt, cond, body.get(), vars) }
            ProgStmtKind::DoWhile { body, cond } => { self.do_loop(stmt, body.get(), cond, vars) }
            ProgStmtKind::For {
                first,
                cond,
                step,
                body,
            } => {
                let parts = ForParts {
                    first: first.as_slice(),
                    cond,
                    step,
                    body: body.get(),
                };
                self.for_loop(stmt, parts, vars)
            }
            ProgStmtKind::Break => Ok(stmt_at(TypedStmtKind::Break, stmt.at)),
            ProgStmtKind::Continue => Ok(stmt_at(TypedStmtKind::Continue, stmt.at)),
            ProgStmtKind::Return(value) => self.give(stmt, value, vars),
            ProgStmtKind::Empty => Ok(stmt_at(TypedStmtKind::Empty, stmt.at)),
        }
    }

    /// The statements that several become, behind `out`.
    #[cycle(walk)]
    pub(crate) fn stmts(
        &self,
        list: &[ProgStmt],
        out: &mut List<TypedStmt>,
        vars: &mut List<Ty>,
    ) -> Result<(), Memory>
        requires { StmtsFit self.now.helpers.now self.now.base vars.old list.now }
        ensures { OnOk result
            (AreStmts (stmts_of self.now.helpers.now self.now.base (length vars.old) list.now)
            out.old vars.old out.new vars.new) }
    {
        for one in list {
            let made = self.stmt(one, vars)?;
            out.push(made)?;
        }
        Ok(())
    }

    #[cycle(walk)]
    fn boxed_stmt(&self, one: &ProgStmt, vars: &mut List<Ty>) -> Result<Boxed<TypedStmt>, Memory>
        requires { StmtFits self.now.helpers.now self.now.base vars.old one.now }
        ensures { IfOk result
            (Becomes self.now.helpers.now self.now.base one.now vars.old vars.new) }
    {
        let made = self.stmt(one, vars)?;
        let boxed = Boxed::new(self.alloc, made)?;
        Ok(boxed)
    }

    #[cycle(walk)]
    fn held(
        &self,
        one: &Option<Boxed<ProgStmt>>,
        vars: &mut List<Ty>,
    ) -> Result<Option<Boxed<TypedStmt>>, Memory>
        requires { HeldFits self.now.helpers.now self.now.base vars.old one.now }
        ensures { IfOk result
            (IsHeld (held_of self.now.helpers.now self.now.base (length vars.old) one.now)
            vars.old vars.new) }
    {
        match one {
            None => Ok(None),
            Some(one) => {
                let made = self.boxed_stmt(one.get(), vars)?;
                Ok(Some(made))
            }
        }
    }

    #[cycle(walk)]
    fn declare(
        &self,
        stmt: &ProgStmt,
        var: u32,
        init: &Option<ProgExpr>,
        vars: &mut List<Ty>,
    ) -> Result<TypedStmt, Memory>
        requires is { stmt.now.kind ≡ act.Declare var init.now }
        requires fits { StmtFits self.now.helpers.now self.now.base vars.old stmt.now }
        ensures { IfOk result
            (Becomes self.now.helpers.now self.now.base stmt.now vars.old vars.new) }
    {
        let mut before = List::new(self.alloc);
        let init = self.option(init, &mut before, vars)?;
        let var = numbered(self.base, var);
        let kind = behind(before, TypedStmtKind::Declare { var, init }, stmt.at)?;
        Ok(stmt_at(kind, stmt.at))
    }

    #[cycle(walk)]
    fn give(
        &self,
        stmt: &ProgStmt,
        value: &Option<ProgExpr>,
        vars: &mut List<Ty>,
    ) -> Result<TypedStmt, Memory>
        requires is { stmt.now.kind ≡ act.Return value.now }
        requires fits { StmtFits self.now.helpers.now self.now.base vars.old stmt.now }
        ensures { IfOk result
            (Becomes self.now.helpers.now self.now.base stmt.now vars.old vars.new) }
    {
        let mut before = List::new(self.alloc);
        let value = self.option(value, &mut before, vars)?;
        let kind = behind(before, TypedStmtKind::Return(value), stmt.at)?;
        Ok(stmt_at(kind, stmt.at))
    }

    #[cycle(walk)]
    fn assign(
        &self,
        stmt: &ProgStmt,
        parts: AssignParts,
        vars: &mut List<Ty>,
    ) -> Result<TypedStmt, Memory>
        requires is { stmt.now.kind ≡ act.Assign parts.target.now parts.op parts.value.now }
        requires fits { StmtFits self.now.helpers.now self.now.base vars.old stmt.now }
        ensures { IfOk result
            (Becomes self.now.helpers.now self.now.base stmt.now vars.old vars.new) }
    {
        let mut before = List::new(self.alloc);
        let list = parts.target.indices.as_slice();
        let indices = self.exprs(list, &mut before, vars)?;
        let value = self.expr(parts.value, &mut before, vars)?;
        let target = target_to(self.base, parts.target, indices);
        let op = parts.op;
        let kind = behind(before, TypedStmtKind::Assign { target, op, value }, stmt.at)?;
        Ok(stmt_at(kind, stmt.at))
    }

    #[cycle(walk)]
    fn step(
        &self,
        stmt: &ProgStmt,
        target: &ProgTarget,
        up: bool,
        vars: &mut List<Ty>,
    ) -> Result<TypedStmt, Memory>
        requires is { stmt.now.kind ≡ act.Step target.now up }
        requires fits { StmtFits self.now.helpers.now self.now.base vars.old stmt.now }
        ensures { IfOk result
            (Becomes self.now.helpers.now self.now.base stmt.now vars.old vars.new) }
    {
        let mut before = List::new(self.alloc);
        let list = target.indices.as_slice();
        let indices = self.exprs(list, &mut before, vars)?;
        let target = target_to(self.base, target, indices);
        let kind = behind(before, TypedStmtKind::Step { target, up }, stmt.at)?;
        Ok(stmt_at(kind, stmt.at))
    }
}

fn target_to(base: u32, target: &ProgTarget, indices: List<TypedExpr>) -> TypedTarget
    requires { ObjectNumbers base target.now.to }
    ensures { result ≡ target_to base target.now indices }
{
    TypedTarget {
        to: moved(base, target.to),
        at: target.at,
        indices,
    }
}

fn moved(base: u32, object: Object) -> Object
    requires { ObjectNumbers base object }
    ensures { result ≡ moved base object }
{
    match object {
        Object::Var(var) => Object::Var(numbered(base, var)),
        Object::Array(array) => Object::Array(array),
    }
}

impl<'a> Inliner<'a> {
    #[cycle(walk)]
    fn choice(
        &self,
        stmt: &ProgStmt,
        parts: IfParts,
        vars: &mut List<Ty>,
    ) -> Result<TypedStmt, Memory>
        requires is { stmt.now.kind ≡ act.If parts.cond.now parts.then.now parts.other.now }
        requires fits { StmtFits self.now.helpers.now self.now.base vars.old stmt.now }
        ensures { IfOk result
            (Becomes self.now.helpers.now self.now.base stmt.now vars.old vars.new) }
    {
        let mut before = List::new(self.alloc);
        let cond = self.expr(parts.cond, &mut before, vars)?;
        let then = self.boxed_stmt(parts.then, vars)?;
        let other = self.held(parts.other, vars)?;
        let kind = behind(before, TypedStmtKind::If { cond, then, other }, stmt.at)?;
        Ok(stmt_at(kind, stmt.at))
    }

    // No call stands in the condition of a loop: there is nothing before it.
    #[cycle(walk)]
    fn while_loop(
        &self,
        stmt: &ProgStmt,
        cond: &ProgExpr,
        body: &ProgStmt,
        vars: &mut List<Ty>,
    ) -> Result<TypedStmt, Memory>
        requires is { stmt.now.kind ≡ act.While cond.now body.now }
        requires fits { StmtFits self.now.helpers.now self.now.base vars.old stmt.now }
        ensures { IfOk result
            (Becomes self.now.helpers.now self.now.base stmt.now vars.old vars.new) }
    {
        let mut before = List::new(self.alloc);
        let cond = self.expr(cond, &mut before, vars)?;
        let body = self.boxed_stmt(body, vars)?;
        Ok(stmt_at(TypedStmtKind::While { cond, body }, stmt.at))
    }

    #[cycle(walk)]
    fn do_loop(
        &self,
        stmt: &ProgStmt,
        body: &ProgStmt,
        cond: &ProgExpr,
        vars: &mut List<Ty>,
    ) -> Result<TypedStmt, Memory>
        requires is { stmt.now.kind ≡ act.DoWhile body.now cond.now }
        requires fits { StmtFits self.now.helpers.now self.now.base vars.old stmt.now }
        ensures { IfOk result
            (Becomes self.now.helpers.now self.now.base stmt.now vars.old vars.new) }
    {
        let body = self.boxed_stmt(body, vars)?;
        let mut before = List::new(self.alloc);
        let cond = self.expr(cond, &mut before, vars)?;
        Ok(stmt_at(TypedStmtKind::DoWhile { body, cond }, stmt.at))
    }

    #[cycle(walk)]
    fn for_loop(
        &self,
        stmt: &ProgStmt,
        parts: ForParts,
        vars: &mut List<Ty>,
    ) -> Result<TypedStmt, Memory>
        requires is { stmt.now.kind
            ≡ act.For parts.first.now parts.cond.now parts.step.now parts.body.now }
        requires fits { StmtFits self.now.helpers.now self.now.base vars.old stmt.now }
        ensures { IfOk result
            (Becomes self.now.helpers.now self.now.base stmt.now vars.old vars.new) }
    {
        let mut opening = List::new(self.alloc);
        self.stmts(parts.first, &mut opening, vars)?;
        let mut before = List::new(self.alloc);
        let cond = self.option(parts.cond, &mut before, vars)?;
        let step = self.held(parts.step, vars)?;
        let body = self.boxed_stmt(parts.body, vars)?;
        let kind = TypedStmtKind::For {
            first: opening,
            cond,
            step,
            body,
        };
        Ok(stmt_at(kind, stmt.at))
    }
}
