//! What is assigned to.
ghost use Rattle.std.specs.Prelude.{◌≡◌};
ghost use Rattle.c_meaning.specs.Statements.{objects, object_type};
ghost use Rattle.ref_interp.specs.Runs.{objects_of};
ghost use Rattle.ref_interp.specs.Targets.{TargetGives, OldGives, StoreGives, UpdateGives};
ghost use Rattle.ref_interp.specs.Statements.{AssignGives, UpdatedGives, StepGives};
ghost use Rattle.c_meaning.specs.declared.profile.Profile.{Profile};

use crate::cells::{Cells, Trace};
use crate::expressions::{Interpreter, element, read};
use crate::machine::{Ending, Machine, put_element, put_var};
use crate::operators::{Operand, converted};
use c_ast::{Binary, Object, Span, Ty, TypedExpr, TypedTarget, joint_type, result_type, usual};

/// A target whose place was found, and what it holds.
#[derive(Drop)]
struct Aim<'a> {
    target: &'a TypedTarget,
    place: u64,
    old: u64,
}

/// What a target holds.
fn old_of(cells: &Cells, trace: &mut Trace, to: Object, place: u64, at: Span) -> u64
    ensures { OldGives cells.now to place at trace.old trace.new result }
{
    match to {
        Object::Var(var) => read(cells, trace, var, at),
        Object::Array(array) => element(cells, trace, array, place, at),
    }
}

impl<'a> Interpreter<'a> {
    /// The place of a target: of an element by its indices, and 0 of a variable.
    pub(crate) fn target_of(&self, cells: &Cells, trace: &mut Trace, target: &TypedTarget) -> u64
        ensures { TargetGives (objects_of self.now) cells.now target.now trace.old trace.new
            result }
    {
        match target.to {
            Object::Var(_) => 0,
            Object::Array(array) => self.place_of(
                cells,
                trace,
                target.indices.as_slice(),
                array,
                target.at,
            ),
        }
    }

    /// The type of what is assigned to; `I32` where there is none.
    pub(crate) fn type_of(&self, to: Object) -> Ty
        ensures { (p : Profile) → result ≡ object_type (objects p self.now.typed.now) to }
    {
        match to {
            Object::Var(var) => match self.typed.vars.as_slice().get(var as usize) {
                Some(ty) => *ty,
                None => Ty::I32,
            },
            Object::Array(array) => match self.typed.arrays.as_slice().get(array as usize) {
                Some(array) => array.ty,
                None => Ty::I32,
            },
        }
    }

    /// Stores a pattern of a type, converted, once the turns of the statement's expressions are taken.
    pub(crate) fn store(&self, m: &mut Machine, to: Object, place: u64, value: Operand) -> Ending
        ensures { (p : Profile) → StoreGives (objects p self.now.typed.now)
            self.now.typed.now.result to place value.ty value.pattern m.old result m.new }
    {
        if m.trace.failed {
            return Ending::Undefined;
        }
        if !m.take(m.trace.turns) {
            return Ending::OutOfTurns;
        }
        let pattern = converted(value.ty, self.type_of(to), value.pattern);
        match to {
            Object::Var(var) => put_var(&mut m.cells.vars, var, Some(pattern)),
            Object::Array(array) => put_element(&mut m.cells.arrays, array, place, pattern),
        }
        Ending::Normally
    }

    /// Joins what a target holds with a value of a type, and stores the result. `joint` is the type in which they are joined.
    fn join_into(
        &self,
        m: &mut Machine,
        aim: &Aim<'_>,
        op: Binary,
        joint: Ty,
        right: Operand,
    ) -> Ending
        ensures { UpdateGives (objects_of self.now) self.now.typed.now.result aim.now.target.now
            aim.now.place aim.now.old op joint right.ty right.pattern m.old result m.new }
    {
        let to = aim.target.to;
        let x = converted(self.type_of(to), joint, aim.old);
        let left = Operand {
            ty: joint,
            pattern: x,
        };
        let z = self.strict(&mut m.trace, op, left, right, aim.target.at);
        let value = Operand {
            ty: result_type(op, joint),
            pattern: z,
        };
        self.store(m, to, aim.place, value)
    }

    /// `target = value`.
    pub(crate) fn assign(&self, m: &mut Machine, target: &TypedTarget, value: &TypedExpr) -> Ending
        ensures { AssignGives (objects_of self.now) self.now.typed.now.result target.now value.now
            m.old result m.new }
    {
        m.trace.start();
        let place = self.target_of(&m.cells, &mut m.trace, target);
        if m.trace.failed {
            return Ending::Undefined;
        }
        let x = self.eval(&m.cells, &mut m.trace, value);
        let value = Operand {
            ty: value.ty,
            pattern: x,
        };
        self.store(m, target.to, place, value)
    }

    /// `target op= value`: the old value is read before the value is evaluated.
    pub(crate) fn update(
        &self,
        m: &mut Machine,
        target: &TypedTarget,
        op: Binary,
        value: &TypedExpr,
    ) -> Ending
        ensures { UpdatedGives (objects_of self.now) self.now.typed.now.result target.now op
            value.now m.old result m.new }
    {
        m.trace.start();
        let place = self.target_of(&m.cells, &mut m.trace, target);
        if m.trace.failed {
            return Ending::Undefined;
        }
        let old = old_of(&m.cells, &mut m.trace, target.to, place, target.at);
        if m.trace.failed {
            return Ending::Undefined;
        }
        let y = self.eval(&m.cells, &mut m.trace, value);
        let joint = joint_type(op, self.type_of(target.to), value.ty);
        let aim = Aim { target, place, old };
        let right = Operand {
            ty: value.ty,
            pattern: y,
        };
        self.join_into(m, &aim, op, joint, right)
    }

    /// `target++` where `up`, else `target--`.
    pub(crate) fn step(&self, m: &mut Machine, target: &TypedTarget, up: bool) -> Ending
        ensures { StepGives (objects_of self.now) self.now.typed.now.result target.now up m.old
            result m.new }
    {
        m.trace.start();
        let place = self.target_of(&m.cells, &mut m.trace, target);
        if m.trace.failed {
            return Ending::Undefined;
        }
        let start = old_of(&m.cells, &mut m.trace, target.to, place, target.at);
        if m.trace.failed {
            return Ending::Undefined;
        }
        let joint = usual(self.type_of(target.to), Ty::I32);
        let op = if up { Binary::Add } else { Binary::Sub };
        let aim = Aim {
            target,
            place,
            old: start,
        };
        let one = Operand {
            ty: joint,
            pattern: 1,
        };
        self.join_into(m, &aim, op, joint, one)
    }
}
