//! Expressions, evaluated on cells: an evaluation gives a pattern, and leaves what was undefined and the turns in a trace.
ghost use Rattle.std.specs.Prelude.{◌≡◌, ◌==◌, if◌then◌else◌};
ghost use Rattle.ref_interp.specs.Evaluations.{EvalGives, BinaryGives, ChoiceGives, ReadGives, UnaryGives, StrictGives, Enters, PlaceGives, ElementGives};
ghost use Rattle.ref_interp.specs.Runs.{objects_of};

use crate::cells::{Cells, Trace};
use crate::operators::{Operand, converted, is_defined, is_defined_on, is_within, joined, made};
use c_ast::{ArrayOf, Binary, Span, Ty, Typed, TypedExpr, TypedExprKind, Unary};
use c_meaning::Profile;

/// What a run goes by.
#[derive(Drop)]
pub(crate) struct Interpreter<'a> {
    /// The kernel, which has the types of objects.
    pub(crate) typed: &'a Typed,
    pub(crate) profile: Profile,
}

impl<'a> Interpreter<'a> {
    /// The pattern of an expression; where the trace has failed then, any number.
    #[cycle(eval)]
    pub(crate) fn eval(&self, cells: &Cells, trace: &mut Trace, e: &TypedExpr) -> u64
        ensures { EvalGives (objects_of self.now) cells.now e.now trace.old trace.new result }
    {
        match &e.kind {
            TypedExprKind::Number(n) => *n,
            TypedExprKind::Var(var) => read(cells, trace, *var, e.at),
            TypedExprKind::Element { array, indices } => {
                let indices = indices.as_slice();
                let place = self.place_of(cells, trace, indices, *array, e.at);
                element(cells, trace, *array, place, e.at)
            }
            TypedExprKind::Unary(op, arg) => {
                let arg = arg.get();
                let x = self.eval(cells, trace, arg);
                let arg = Operand {
                    ty: arg.ty,
                    pattern: x,
                };
                self.unary(trace, *op, arg, e.at)
            }
            TypedExprKind::Cast { implied: _, arg } => {
                let arg = arg.get();
                let x = self.eval(cells, trace, arg);
                converted(arg.ty, e.ty, x)
            }
            TypedExprKind::Binary(_, _, _) => self.binary(cells, trace, e),
            TypedExprKind::Choose(_, _, _) => self.choice(cells, trace, e),
        }
    }

    /// The pattern of an expression of two operands: of `&&` and `||` the right one is evaluated where the left one does not
    /// decide.
    #[cycle(eval)]
    fn binary(&self, cells: &Cells, trace: &mut Trace, e: &TypedExpr) -> u64
        ensures { BinaryGives (objects_of self.now) cells.now e.now trace.old trace.new result }
    {
        let TypedExprKind::Binary(op, a, b) = &e.kind else {
            return 0;
        };
        let a = a.get();
        let b = b.get();
        let x = self.eval(cells, trace, a);
        if trace.failed {
            return 0;
        }
        match op {
            Binary::Both => {
                trace.add_turn();
                if x == 0 {
                    return 0;
                }
                truth(self.eval(cells, trace, b))
            }
            Binary::Either => {
                trace.add_turn();
                if x != 0 {
                    return 1;
                }
                truth(self.eval(cells, trace, b))
            }
            _ => {
                let y = self.eval(cells, trace, b);
                let left = Operand {
                    ty: a.ty,
                    pattern: x,
                };
                let right = Operand {
                    ty: b.ty,
                    pattern: y,
                };
                self.strict(trace, *op, left, right, e.at)
            }
        }
    }

    /// The pattern of a `?:`: of its second and third part one is evaluated.
    #[cycle(eval)]
    fn choice(&self, cells: &Cells, trace: &mut Trace, e: &TypedExpr) -> u64
        ensures { ChoiceGives (objects_of self.now) cells.now e.now trace.old trace.new result }
    {
        let TypedExprKind::Choose(c, a, b) = &e.kind else {
            return 0;
        };
        let x = self.eval(cells, trace, c.get());
        if trace.failed {
            return 0;
        }
        trace.add_turn();
        if x == 0 {
            self.eval(cells, trace, b.get())
        } else {
            self.eval(cells, trace, a.get())
        }
    }

    /// The place of an element by its indices, all of which are evaluated before the trace fails by one that is outside its dimension.
    #[cycle(eval)]
    pub(crate) fn place_of(
        &self,
        cells: &Cells,
        trace: &mut Trace,
        indices: &[TypedExpr],
        array: u32,
        at: Span,
    ) -> u64
        ensures { PlaceGives (objects_of self.now) cells.now indices.now array at trace.old
            trace.new result }
    {
        let mut spot = Spot {
            inside: true,
            place: 0,
        };
        for i in 0..indices.len() {
            let index = &indices[i];
            let x = self.eval(cells, trace, index);
            if trace.failed {
                return 0;
            }
            let index = Operand {
                ty: index.ty,
                pattern: x,
            };
            spot.enter(self.typed.arrays.as_slice(), array, i, index);
        }
        if !spot.inside {
            trace.fail(at);
        }
        spot.place
    }

    /// An operator on a value that was made before.
    fn unary(&self, trace: &mut Trace, op: Unary, arg: Operand, at: Span) -> u64
        ensures { UnaryGives self.now.profile op arg.ty at arg.pattern trace.old trace.new result }
    {
        if trace.failed {
            return 0;
        }
        if !is_defined_on(self.profile, op, arg.ty, arg.pattern) {
            trace.fail(at);
            return 0;
        }
        made(op, arg.ty, arg.pattern)
    }

    /// An operator on two values that were made before, the right one last.
    pub(crate) fn strict(
        &self,
        trace: &mut Trace,
        op: Binary,
        left: Operand,
        right: Operand,
        at: Span,
    ) -> u64
        ensures { StrictGives self.now.profile op left.ty right.ty at left.pattern right.pattern
            trace.old trace.new result }
    {
        if trace.failed {
            return 0;
        }
        if !is_defined(self.profile, op, left, right) {
            trace.fail(at);
            return 0;
        }
        joined(op, left.ty, left.pattern, right.pattern)
    }
}

/// A place in the dimensions of an array whose indices have been looked at, or the greatest number of 64 bits where it is more;
/// and whether each of them was inside.
#[derive(Clone, Copy)]
pub(crate) struct Spot {
    inside: bool,
    place: u64,
}

impl Spot {
    /// Looks at the next index.
    fn enter(&mut self, arrays: &[ArrayOf], array: u32, i: usize, index: Operand)
        ensures { Enters arrays.now array i index.ty index.pattern self.old self.new }
    {
        if let Some(array) = arrays.get(array as usize) {
            if let Some(dim) = array.dims.as_slice().get(i) {
                if self.inside && is_within(*dim, index.ty, index.pattern) {
                    self.place = self
                        .place
                        .saturating_mul(*dim)
                        .saturating_add(index.pattern);
                } else {
                    self.inside = false;
                }
            }
        }
    }
}

/// The pattern of a variable, which may be unset.
pub(crate) fn read(cells: &Cells, trace: &mut Trace, var: u32, at: Span) -> u64
    ensures { ReadGives var at cells.now trace.old trace.new result }
{
    match cells.vars.as_slice().get(var as usize) {
        Some(Some(pattern)) => *pattern,
        Some(None) => {
            trace.fail(at);
            0
        }
        None => {
            trace.fail(at);
            0
        }
    }
}

/// The pattern of an element at a place that was looked for before.
pub(crate) fn element(cells: &Cells, trace: &mut Trace, array: u32, place: u64, at: Span) -> u64
    ensures { ElementGives array at cells.now place trace.old trace.new result }
{
    if trace.failed {
        return 0;
    }
    match cells.arrays.as_slice().get(array as usize) {
        Some(elements) => {
            let elements = elements.as_slice();
            if place < elements.len() as u64 {
                elements[place as usize]
            } else {
                trace.fail(at);
                0
            }
        }
        None => {
            trace.fail(at);
            0
        }
    }
}

fn truth(x: u64) -> u64
    ensures { result ≡ (if x == 0 then 0 else 1) }
{
    if x == 0 { 0 } else { 1 }
}
