//! Assignments: a compound one becomes a plain one, and each index is evaluated once.
ghost use Rattle.std.specs.Prelude.{◌≡◌, ◌+◌, ◌≤◌, length, None, IfOk, OnOk};
ghost use Rattle.el_base.specs.declared.span.Span.{Span};
ghost use Rattle.c_ast.specs.declared.typed.TypedExprKind.TheVariants as expr;
ghost use Rattle.c_ast.specs.Casts.{of_type};
ghost use Rattle.c_ast.specs.Nodes.{typed_expr_nodes, typed_exprs_nodes};
ghost use Rattle.c_ast.specs.ResultTypes.{joint_type};
ghost use Rattle.c_meaning.specs.declared.profile.Profile.TheVariants.{Plain};
ghost use Rattle.c_meaning.specs.Statements.{objects, object_type};
ghost use Rattle.c_norm.specs.Code.{
  HasRoom,
  IsOut,
  AreOut,
  IsLast,
  set_out,
  plain_form,
  update_form,
  update_of,
};
ghost use Rattle.c_norm.specs.Expand.{decided_by, set_all};
ghost use Rattle.c_norm.specs.Forms.{object_kind, cast_to, new_value, target_with};

use crate::expand::{decided_by, expand, expand_all, operation};
use crate::settings::{fresh, setting};
use crate::types::object_type;
use c_ast::{
    Binary, NormalStmt, NormalStmtKind, Object, Typed, TypedExpr, TypedExprKind, TypedTarget,
    joint_type, result_type,
};
use el_base::{Boxed, List, Memory, Span, Ty};
use std::alloc::Global;

/// Sets an expression to a variable of its own, which is left of it.
fn set_one(
    alloc: Global,
    e: &TypedExpr,
    before: &mut List<NormalStmt>,
    vars: &mut List<Ty>,
) -> Result<TypedExpr, Memory>
    requires { HasRoom vars.old (typed_expr_nodes e.now) }
    ensures { IfOk result
        (IsOut (set_out (length vars.old) e.now) e.now.ty e.now.at
        before.old vars.old before.new vars.new) }
{
    let rest = expand(alloc, e, before, vars)?;
    let var = fresh(vars, e.ty)?;
    before.push(setting(alloc, var, rest.expr, e.at))?;
    Ok(TypedExpr {
        kind: TypedExprKind::Var(var),
        ty: e.ty,
        at: e.at,
    })
}

/// Sets each of several expressions to a variable of its own, from left to right.
#[tactic(auto, using(crate::proofs::Coded::few_set_all))]
fn set_all(
    alloc: Global,
    exprs: &[TypedExpr],
    before: &mut List<NormalStmt>,
    vars: &mut List<Ty>,
) -> Result<List<TypedExpr>, Memory>
    requires { HasRoom vars.old (typed_exprs_nodes exprs.now) }
    ensures set { IfOk result
        (AreOut (set_all (length vars.old) exprs.now) before.old vars.old before.new vars.new) }
    ensures few { OnOk result (length vars.new ≤ length vars.old + typed_exprs_nodes exprs.now) }
{
    let mut rests = List::new(alloc);
    for e in exprs {
        rests.push(set_one(alloc, e, before, vars)?)?;
    }
    Ok(rests)
}

/// `target = value`. The indices are left where they are.
pub(crate) fn plain(
    alloc: Global,
    target: &TypedTarget,
    value: &TypedExpr,
    out: &mut List<NormalStmt>,
    vars: &mut List<Ty>,
) -> Result<NormalStmtKind, Memory>
    requires { HasRoom vars.old
        (typed_exprs_nodes target.now.indices + typed_expr_nodes value.now) }
    ensures { IfOk result (λ k. (at : Span) → IsLast
        (plain_form (length vars.old) target.now value.now at) at
        out.old vars.old out.new vars.new k) }
{
    let indices = expand_all(alloc, target.indices.as_slice(), out, vars)?;
    let rest = expand(alloc, value, out, vars)?;
    let target = target_with(target, indices);
    Ok(NormalStmtKind::Assign {
        target,
        value: rest.expr,
    })
}

fn target_with(target: &TypedTarget, indices: List<TypedExpr>) -> TypedTarget
    ensures { result ≡ target_with target.now indices }
{
    TypedTarget {
        to: target.to,
        at: target.at,
        indices,
    }
}

/// `target op= value`: the old value of a target of type `ty` and another are joined in the type `joint`.
#[derive(Drop)]
pub(crate) struct Update<'a> {
    target: &'a TypedTarget,
    op: Binary,
    ty: Ty,
    joint: Ty,
    at: Span,
}

impl<'a> Update<'a> {
    /// The update of a target of a kernel by a value of the type `by`.
    pub(crate) fn new(typed: &Typed, target: &'a TypedTarget, op: Binary, by: Ty, at: Span) -> Self
        ensures target { result.target.now ≡ target.now }
        ensures op { result.op ≡ op }
        ensures ty { result.ty ≡ object_type (objects Plain typed.now) target.now.to }
        ensures joint { result.joint
            ≡ joint_type op (object_type (objects Plain typed.now) target.now.to) by }
        ensures at { result.at ≡ at }
    {
        let ty = object_type(typed, target.to);
        let joint = joint_type(op, ty, by);
        Update {
            target,
            op,
            ty,
            joint,
            at,
        }
    }

    /// `target op= value`. Each index is set to a variable first, so that it is evaluated once.
    pub(crate) fn compound(
        &self,
        alloc: Global,
        value: &TypedExpr,
        out: &mut List<NormalStmt>,
        vars: &mut List<Ty>,
    ) -> Result<NormalStmtKind, Memory>
        requires { HasRoom vars.old
            (typed_exprs_nodes self.now.target.now.indices + typed_expr_nodes value.now) }
        ensures { IfOk result (IsLast
            (update_form (length vars.old) self.now.target.now self.now.op self.now.ty self.now.joint
            value.now self.now.at) self.now.at
            out.old vars.old out.new vars.new) }
    {
        let indices = set_all(alloc, self.target.indices.as_slice(), out, vars)?;
        let rest = expand(alloc, value, out, vars)?;
        let target = target_with(self.target, indices);
        let kind = self.kind(alloc, target, rest.expr)?;
        Ok(kind)
    }

    /// `target++` and `target--` are `target += 1` and `target -= 1`, with the 1 in the joint type.
    pub(crate) fn step(
        &self,
        alloc: Global,
        out: &mut List<NormalStmt>,
        vars: &mut List<Ty>,
    ) -> Result<NormalStmtKind, Memory>
        requires { HasRoom vars.old (typed_exprs_nodes self.now.target.now.indices + 1) }
        ensures { IfOk result (IsLast
            (update_form (length vars.old) self.now.target.now self.now.op self.now.ty self.now.joint
            (of_type (expr.Number 1) self.now.joint self.now.at) self.now.at) self.now.at
            out.old vars.old out.new vars.new) }
    {
        let one = number(1, self.joint, self.at);
        let kind = self.compound(alloc, &one, out, vars)?;
        Ok(kind)
    }

    /// The plain assignment of the new value to a target.
    fn kind(
        &self,
        alloc: Global,
        target: TypedTarget,
        value: TypedExpr,
    ) -> Result<NormalStmtKind, Memory>
        ensures { IfOk result (λ k. k ≡
            update_of target self.now.op self.now.ty self.now.joint value self.now.at) }
    {
        let old = object_value(target.copy(alloc)?, self.ty);
        let value = self.new_value(alloc, old, value)?;
        Ok(NormalStmtKind::Assign { target, value })
    }

    /// The new value of a target: the old one is converted to the joint type, and the result to the target's type.
    fn new_value(
        &self,
        alloc: Global,
        old: TypedExpr,
        value: TypedExpr,
    ) -> Result<TypedExpr, Memory>
        ensures { IfOk result (λ e. e ≡ new_value (decided_by self.now.op)
            self.now.op self.now.ty self.now.joint old value self.now.at) }
    {
        match decided_by(self.op) {
            Some(_) => Ok(number(0, self.ty, self.at)),
            None => self.joined_value(alloc, old, value),
        }
    }

    /// The new value by an operator that evaluates both its operands.
    fn joined_value(
        &self,
        alloc: Global,
        old: TypedExpr,
        value: TypedExpr,
    ) -> Result<TypedExpr, Memory>
        ensures { IfOk result (λ e. e ≡ new_value None
            self.now.op self.now.ty self.now.joint old value self.now.at) }
    {
        let old = cast_to(alloc, self.joint, old)?;
        let kind = operation(alloc, self.op, old, value)?;
        let joined = TypedExpr {
            kind,
            ty: result_type(self.op, self.joint),
            at: self.at,
        };
        cast_to(alloc, self.ty, joined)
    }
}

fn number(value: u64, ty: Ty, at: Span) -> TypedExpr
    ensures { result ≡ of_type (expr.Number value) ty at }
{
    TypedExpr {
        kind: TypedExprKind::Number(value),
        ty,
        at,
    }
}

/// The value of an object.
fn object_value(target: TypedTarget, ty: Ty) -> TypedExpr
    ensures { result ≡ of_type (object_kind target.to target.indices) ty target.at }
{
    let TypedTarget { to, at, indices } = target;
    let kind = match to {
        Object::Var(var) => TypedExprKind::Var(var),
        Object::Array(array) => TypedExprKind::Element { array, indices },
    };
    TypedExpr { kind, ty, at }
}

/// A conversion that is written.
fn cast_to(alloc: Global, ty: Ty, expr: TypedExpr) -> Result<TypedExpr, Memory>
    ensures { IfOk result (λ e. e ≡ cast_to ty expr) }
{
    let at = expr.at;
    let arg = Boxed::new(alloc, expr)?;
    Ok(TypedExpr {
        kind: TypedExprKind::Cast {
            implied: false,
            arg,
        },
        ty,
        at,
    })
}
