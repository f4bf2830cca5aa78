//! The steps of expressions, of conditions and of stores.
ghost use Rattle.std.specs.Prelude.{◌≡◌, ◌+◌, ◌*◌, ◌≤◌, length, map, get_or, IfOk, OnOk};
ghost use Rattle.c_ast.specs.declared.typed.TypedExprKind.TheVariants as expr;
ghost use Rattle.c_meaning.specs.Counts.{expr_price, target_price};
ghost use Rattle.c_meaning.specs.Stores.{dims_of};
ghost use Rattle.struct_cfg.specs.Operators.{index_laid, next_place, place_laid};
ghost use Rattle.struct_cfg.specs.Exprs.{piece, expr_laying, condition_laying, store_laying};
ghost use Rattle.struct_cfg.specs.Code.{IsLaid, HasRoom, one_place};

use crate::joins::join;
use crate::operators::{Operand, apply, convert, flag, put, unary_operation};
use c_ast::{ArrayOf, TypedExpr, TypedExprKind};
use el_base::{List, Memory, Op2, Ty};
use ir::Instr;

/// What the names in an expression stand for.
#[derive(Clone, Copy)]
pub(crate) struct Scope<'a> {
    /// The value of each variable in the open block.
    pub(crate) env: &'a [u32],
    pub(crate) arrays: &'a [ArrayOf],
}

/// The parts of a choice.
#[derive(Clone, Copy)]
struct ChoiceParts<'a> {
    cond: &'a TypedExpr,
    yes: &'a TypedExpr,
    no: &'a TypedExpr,
}

/// A dimension in a place: whether it is the first, the place so far, and its length.
#[derive(Clone, Copy)]
struct Dimension {
    first: bool,
    at: u32,
    size: u64,
}

impl<'a> Scope<'a> {
    /// The value of a variable in the open block.
    fn variable(&self, var: u32) -> u32
        ensures { result ≡ get_or self.now.env.now var 0 }
    {
        match self.env.get(var as usize) {
            Some(value) => *value,
            None => 0,
        }
    }

    /// The lengths of an array's dimensions; none of an array that is not there.
    fn dims_of(&self, array: u32) -> &'a [u64]
        ensures { result.now ≡ dims_of self.now.arrays.now array }
    {
        match self.arrays.get(array as usize) {
            Some(of) => of.dims.as_slice(),
            None => &[],
        }
    }

    /// The steps of an expression, and the number of its value.
    #[cycle(expr)]
    pub(crate) fn expr(&self, steps: &mut List<Instr>, e: &TypedExpr) -> Result<u32, Memory>
        requires { HasRoom self.now.env.now steps.old (2 * expr_price e.now) }
        ensures laid { IfOk result
            (IsLaid (expr_laying self.now.arrays.now self.now.env.now e.now)
            self.now.env.now steps.old steps.new) }
        ensures few { OnOk result (length steps.new ≤ length steps.old + expr_price e.now) }
    {
        let value = self.kind(steps, e)?;
        Ok(value)
    }

    #[cycle(expr)]
    fn kind(&self, steps: &mut List<Instr>, e: &TypedExpr) -> Result<u32, Memory>
        requires { HasRoom self.now.env.now steps.old (2 * expr_price e.now) }
        ensures { IfOk result
            (IsLaid (expr_laying self.now.arrays.now self.now.env.now e.now)
            self.now.env.now steps.old steps.new) }
    {
        match &e.kind {
            TypedExprKind::Number(value) => {
                let width = e.ty.width();
                let value = *value;
                put(steps, self.env, Instr::Const { width, value })
            }
            TypedExprKind::Var(var) => Ok(self.variable(*var)),
            TypedExprKind::Element { array, indices } => {
                self.element(steps, e, *array, indices.as_slice())
            }
            TypedExprKind::Unary(op, arg) => {
                let arg = arg.get();
                let value = self.expr(steps, arg)?;
                apply(steps, self.env, unary_operation(*op, arg.ty), value)
            }
            TypedExprKind::Cast { implied: _, arg } => {
                let arg = arg.get();
                let value = self.expr(steps, arg)?;
                convert(steps, self.env, arg.ty, e.ty, value)
            }
            TypedExprKind::Binary(op, left, right) => {
                let left = left.get();
                let right = right.get();
                let a = self.expr(steps, left)?;
                let b = self.expr(steps, right)?;
                let left = Operand::of(left, a);
                let right = Operand::of(right, b);
                join(steps, self.env, *op, left, right)
            }
            TypedExprKind::Choose(cond, yes, no) => {
                let parts = ChoiceParts {
                    cond: cond.get(),
                    yes: yes.get(),
                    no: no.get(),
                };
                self.choose(steps, e, parts)
            }
        }
    }

    #[cycle(expr)]
    fn choose(
        &self,
        steps: &mut List<Instr>,
        e: &TypedExpr,
        parts: ChoiceParts,
    ) -> Result<u32, Memory>
        requires is { e.now.kind ≡ expr.Choose parts.cond.now parts.yes.now parts.no.now }
        requires room { HasRoom self.now.env.now steps.old
            (2 * (3 + expr_price parts.cond.now + expr_price parts.yes.now
            + expr_price parts.no.now)) }
        ensures { IfOk result
            (IsLaid (expr_laying self.now.arrays.now self.now.env.now e.now)
            self.now.env.now steps.old steps.new) }
    {
        let test = self.expr(steps, parts.cond)?;
        let flag = flag(steps, self.env, parts.cond.ty, test)?;
        let a = self.expr(steps, parts.yes)?;
        let b = self.expr(steps, parts.no)?;
        let select = Instr::Select {
            width: e.ty.width(),
            cond: flag,
            yes: a,
            no: b,
        };
        let value = put(steps, self.env, select)?;
        Ok(value)
    }

    #[cycle(expr)]
    fn element(
        &self,
        steps: &mut List<Instr>,
        e: &TypedExpr,
        array: u32,
        indices: &[TypedExpr],
    ) -> Result<u32, Memory>
        requires is { e.now.kind ≡ expr.Element array indices.now }
        requires room { HasRoom self.now.env.now steps.old (2 * target_price indices.now) }
        ensures { IfOk result
            (IsLaid (expr_laying self.now.arrays.now self.now.env.now e.now)
            self.now.env.now steps.old steps.new) }
    {
        let addr = self.place(steps, self.dims_of(array), indices)?;
        let value = put(steps, self.env, Instr::Load { array, addr })?;
        Ok(value)
    }

    /// The place of an element in row-major order.
    #[cycle(expr)]
    #[tactic(auto, using(crate::proofs::PlaceCode::price_some, crate::proofs::PlaceCode::next_room))]
    fn place(
        &self,
        steps: &mut List<Instr>,
        dims: &[u64],
        indices: &[TypedExpr],
    ) -> Result<u32, Memory>
        requires { HasRoom self.now.env.now steps.old (2 * target_price indices.now) }
        ensures laid { IfOk result
            (IsLaid
            (place_laid dims.now (map (piece self.now.arrays.now self.now.env.now) indices.now))
            self.now.env.now steps.old steps.new) }
        ensures few { OnOk result
            (length steps.new + 1 ≤ length steps.old + target_price indices.now) }
    {
        if dims.is_empty() || indices.is_empty() {
            return Ok(0);
        }
        let mut at = 0;
        let mut k = 0;
        for e in indices {
            if k < dims.len() {
                let dim = Dimension {
                    first: k == 0,
                    at,
                    size: dims[k],
                };
                at = self.one_place(steps, dim, e)?;
                k += 1;
            }
        }
        Ok(at)
    }

    /// The place after one index more: that of the first dimension, or the next one.
    #[cycle(expr)]
    fn one_place(
        &self,
        steps: &mut List<Instr>,
        dim: Dimension,
        e: &TypedExpr,
    ) -> Result<u32, Memory>
        requires { HasRoom self.now.env.now steps.old (2 * (4 + expr_price e.now)) }
        ensures laid { IfOk result
            (IsLaid
            (one_place dim.first dim.at dim.size
            (piece self.now.arrays.now self.now.env.now e.now))
            self.now.env.now steps.old steps.new) }
        ensures few { OnOk result (length steps.new ≤ length steps.old + (4 + expr_price e.now)) }
    {
        if dim.first {
            self.index(steps, e)
        } else {
            self.next_place(steps, dim, e)
        }
    }

    /// An index, converted to 64 bits.
    #[cycle(expr)]
    fn index(&self, steps: &mut List<Instr>, e: &TypedExpr) -> Result<u32, Memory>
        requires { HasRoom self.now.env.now steps.old (2 * (4 + expr_price e.now)) }
        ensures laid { IfOk result
            (IsLaid (index_laid (piece self.now.arrays.now self.now.env.now e.now))
            self.now.env.now steps.old steps.new) }
        ensures few { OnOk result (length steps.new ≤ length steps.old + (1 + expr_price e.now)) }
    {
        let value = self.expr(steps, e)?;
        let wide = convert(steps, self.env, e.ty, Ty::I64, value)?;
        Ok(wide)
    }

    /// The place so far times the length of a dimension, and its index.
    #[cycle(expr)]
    fn next_place(
        &self,
        steps: &mut List<Instr>,
        dim: Dimension,
        e: &TypedExpr,
    ) -> Result<u32, Memory>
        requires { HasRoom self.now.env.now steps.old (2 * (4 + expr_price e.now)) }
        ensures laid { IfOk result
            (IsLaid
            (next_place dim.at dim.size (piece self.now.arrays.now self.now.env.now e.now))
            self.now.env.now steps.old steps.new) }
        ensures few { OnOk result (length steps.new ≤ length steps.old + (4 + expr_price e.now)) }
    {
        let j = self.index(steps, e)?;
        let dimension = Instr::Const {
            width: 64,
            value: dim.size,
        };
        let width = put(steps, self.env, dimension)?;
        let row = put(steps, self.env, Instr::Two(Op2::Mul64, dim.at, width))?;
        let place = put(steps, self.env, Instr::Two(Op2::Add64, row, j))?;
        Ok(place)
    }

    /// The steps of a condition: a value of 32 bits that is 0 exactly where the expression is.
    pub(crate) fn condition(&self, steps: &mut List<Instr>, e: &TypedExpr) -> Result<u32, Memory>
        requires { HasRoom self.now.env.now steps.old (2 * (expr_price e.now + 2)) }
        ensures laid { IfOk result
            (IsLaid (condition_laying self.now.arrays.now self.now.env.now e.now)
            self.now.env.now steps.old steps.new) }
        ensures few { OnOk result (length steps.new ≤ length steps.old + (expr_price e.now + 2)) }
    {
        let value = self.expr(steps, e)?;
        let flag = flag(steps, self.env, e.ty, value)?;
        Ok(flag)
    }

    /// The steps that store a value to an element: those of the indices, of the value, and the store.
    pub(crate) fn store(
        &self,
        steps: &mut List<Instr>,
        array: u32,
        indices: &[TypedExpr],
        e: &TypedExpr,
    ) -> Result<u32, Memory>
        requires { HasRoom self.now.env.now steps.old
            (2 * (1 + target_price indices.now + expr_price e.now)) }
        ensures laid { IfOk result
            (IsLaid (store_laying self.now.arrays.now self.now.env.now array indices.now e.now)
            self.now.env.now steps.old steps.new) }
        ensures few { OnOk result (length steps.new
            ≤ length steps.old + (1 + target_price indices.now + expr_price e.now)) }
    {
        let addr = self.place(steps, self.dims_of(array), indices)?;
        let value = self.expr(steps, e)?;
        let store = Instr::Store { array, addr, value };
        let last = put(steps, self.env, store)?;
        Ok(last)
    }
}
