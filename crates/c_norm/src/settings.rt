//! The statements that set what is made for a choice.
ghost use Rattle.std.specs.Prelude.{◌≡◌, ℕ, [], ◌∷◌, ◌++◌, length, IfOk, OnOk};
ghost use Rattle.el_base.specs.declared.ty.Ty.TheVariants.{I32};
ghost use Rattle.c_norm.specs.Code.{HasRoom, chosen};
ghost use Rattle.c_norm.specs.Expand.{setting, constant, truth_of, side, logical};
ghost use Rattle.c_norm.specs.Forms.{normal_at};

use c_ast::{NormalStmt, NormalStmtKind, Object, TypedExpr, TypedExprKind, TypedTarget};
use el_base::{Boxed, List, Memory, Span, Ty};
use std::alloc::Global;

/// The number of a new variable.
pub(crate) fn fresh(vars: &mut List<Ty>, ty: Ty) -> Result<u32, Memory>
    requires { HasRoom vars.old 1 }
    ensures number { IfOk result (λ v. v ≡ length vars.old) }
    ensures made { OnOk result (vars.new ≡ vars.old ++ ty ∷ []) }
{
    let number = vars.len() as u32;
    vars.push(ty)?;
    Ok(number)
}

/// Adds a statement.
pub(crate) fn put(out: &mut List<NormalStmt>, kind: NormalStmtKind, at: Span) -> Result<(), Memory>
    ensures { OnOk result (out.new ≡ out.old ++ normal_at kind at ∷ []) }
{
    out.push(NormalStmt { kind, at })?;
    Ok(())
}

/// `var = value;`
pub(crate) fn setting(alloc: Global, var: u32, value: TypedExpr, at: Span) -> NormalStmt
    ensures { result ≡ setting var value at }
{
    let target = TypedTarget {
        to: Object::Var(var),
        at,
        indices: List::new(alloc),
    };
    NormalStmt {
        kind: NormalStmtKind::Assign { target, value },
        at,
    }
}

fn constant(number: u64, at: Span) -> TypedExpr
    ensures { result ≡ constant number at }
{
    TypedExpr {
        kind: TypedExprKind::Number(number),
        ty: Ty::I32,
        at,
    }
}

/// 1 where a number is not 0, else 0.
fn truth_of(alloc: Global, expr: TypedExpr, at: Span) -> Result<TypedExpr, Memory>
    ensures { IfOk result (λ t. t ≡ truth_of expr at) }
{
    let cond = Boxed::new(alloc, expr)?;
    let then = Boxed::new(alloc, constant(1, at))?;
    let other = Boxed::new(alloc, constant(0, at))?;
    Ok(TypedExpr {
        kind: TypedExprKind::Choose(cond, then, other),
        ty: Ty::I32,
        at,
    })
}

/// A side of a choice: what is set for its value, and the value.
#[derive(Drop)]
pub(crate) struct Side {
    pub(crate) before: List<NormalStmt>,
    pub(crate) value: TypedExpr,
}

impl Side {
    /// The block of a side: what is set for its value, and then the variable.
    fn block(self, alloc: Global, var: u32, at: Span) -> Result<Boxed<NormalStmt>, Memory>
        ensures { IfOk result (λ s. s ≡ side var self.before self.value at) }
    {
        let mut stmts = self.before;
        stmts.push(setting(alloc, var, self.value, at))?;
        let block = NormalStmt {
            kind: NormalStmtKind::Block(stmts),
            at,
        };
        let boxed = Boxed::new(alloc, block)?;
        Ok(boxed)
    }
}

/// A choice between two values of a type.
#[derive(Drop)]
pub(crate) struct Choice {
    pub(crate) cond: TypedExpr,
    pub(crate) then: Side,
    pub(crate) other: Side,
    pub(crate) ty: Ty,
    pub(crate) at: Span,
}

impl Choice {
    /// Sets a new variable to the value of the side that is evaluated.
    #[inline(never)]
    pub(crate) fn set(
        self,
        alloc: Global,
        before: &mut List<NormalStmt>,
        vars: &mut List<Ty>,
    ) -> Result<u32, Memory>
        requires { HasRoom vars.old 1 }
        ensures number { IfOk result (λ v. v ≡ length vars.old) }
        ensures set { IfOk result (λ v. before.new ≡ before.old ++ chosen self v ∷ []) }
        ensures made { OnOk result (vars.new ≡ vars.old ++ self.ty ∷ []) }
    {
        let var = fresh(vars, self.ty)?;
        let then = self.then.block(alloc, var, self.at)?;
        let other = self.other.block(alloc, var, self.at)?;
        let kind = NormalStmtKind::If {
            before: List::new(alloc),
            cond: self.cond,
            then,
            other: Some(other),
        };
        put(before, kind, self.at)?;
        Ok(var)
    }
}

/// The choice for `&&`, or for `||` where the left operand is `decided` by being true: where it does not decide, the value is
/// the truth of the right operand, after what is set for that.
fn logical(
    alloc: Global,
    decided: bool,
    left: TypedExpr,
    right: Side,
    at: Span,
) -> Result<Choice, Memory>
    ensures ty { IfOk result (λ c. c.ty ≡ I32) }
    ensures set { IfOk result (λ c.
        (v : ℕ) → chosen c v ≡ logical decided v left right.before right.value at) }
{
    let truth = truth_of(alloc, right.value, at)?;
    let evaluated = Side {
        before: right.before,
        value: truth,
    };
    let given = Side {
        before: List::new(alloc),
        value: constant(u64::from(decided), at),
    };
    if decided {
        Ok(int_choice(left, given, evaluated, at))
    } else {
        Ok(int_choice(left, evaluated, given, at))
    }
}

/// Sets a new variable to the truth of `&&` or `||`. It stands apart so that the frame of what expands operators stays small.
#[inline(never)]
pub(crate) fn set_logical(
    alloc: Global,
    decided: bool,
    left: TypedExpr,
    right: Side,
    at: Span,
    before: &mut List<NormalStmt>,
    vars: &mut List<Ty>,
) -> Result<u32, Memory>
    requires { HasRoom vars.old 1 }
    ensures number { IfOk result (λ v. v ≡ length vars.old) }
    ensures set { IfOk result (λ v. before.new
        ≡ before.old ++ logical decided v left right.before right.value at ∷ []) }
    ensures made { OnOk result (vars.new ≡ vars.old ++ I32 ∷ []) }
{
    let choice = logical(alloc, decided, left, right, at)?;
    choice.set(alloc, before, vars)
}

fn int_choice(cond: TypedExpr, then: Side, other: Side, at: Span) -> Choice
    ensures { result ≡
        record { cond = cond; then = then; other = other; ty = I32; at = at } }
{
    Choice {
        cond,
        then,
        other,
        ty: Ty::I32,
        at,
    }
}
