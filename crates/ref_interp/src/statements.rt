//! Statements, run on a machine.
ghost use Rattle.std.specs.Prelude.{◌≡◌, ◌∷◌, []};
ghost use Rattle.c_meaning.specs.Stores.{Objects};
ghost use Rattle.ref_interp.specs.Runs.{objects_of};
ghost use Rattle.ref_interp.specs.Machines.{goes_on, left_loop, is_normal};
ghost use Rattle.ref_interp.specs.Statements.{ExecGives, PartGives, AllGive, EnterGives, TestGives, RoundsGive, ForGives, IfGives, LoopGives, DeclareGives, ReturnGives};

use crate::expressions::Interpreter;
use crate::machine::{Ending, Machine, Test, put_var};
use crate::operators::Operand;
use c_ast::{Object, TypedExpr, TypedStmt, TypedStmtKind};

impl Ending {
    /// Whether a loop goes on whose body ended so.
    fn goes_on(self) -> bool
        ensures { result ≡ goes_on self }
    {
        match self {
            Ending::Normally | Ending::Continue => true,
            Ending::Break | Ending::Return | Ending::Undefined | Ending::OutOfTurns => false,
        }
    }

    /// How a loop ends whose body ended so.
    fn left_loop(self) -> Ending
        ensures { result ≡ left_loop self }
    {
        match self {
            Ending::Break => Ending::Normally,
            other => other,
        }
    }

    fn is_normal(self) -> bool
        ensures { result ≡ is_normal self }
    {
        match self {
            Ending::Normally => true,
            Ending::Break
            | Ending::Continue
            | Ending::Return
            | Ending::Undefined
            | Ending::OutOfTurns => false,
        }
    }
}

/// Makes the variables that statements declare themselves new objects without a value.
pub(crate) fn enter(m: &mut Machine, stmts: &[TypedStmt])
    ensures { (k : Objects) → EnterGives k stmts.now m.old m.new }
{
    for stmt in stmts {
        enter_one(m, stmt);
    }
}

/// The same of one statement.
fn enter_one(m: &mut Machine, stmt: &TypedStmt)
    ensures { (k : Objects) → EnterGives k (stmt.now ∷ []) m.old m.new }
{
    match &stmt.kind {
        TypedStmtKind::Declare { var, init: _ } => put_var(&mut m.cells.vars, *var, None),
        _ => {}
    }
}

impl<'a> Interpreter<'a> {
    /// Runs a statement.
    #[cycle(exec)]
    fn exec(&self, m: &mut Machine, s: &TypedStmt) -> Ending
        ensures { ExecGives (objects_of self.now) self.now.typed.now.result s.now m.old
            result m.new }
    {
        if !m.take(1) {
            return Ending::OutOfTurns;
        }
        match &s.kind {
            TypedStmtKind::Block(body) => {
                enter(m, body.as_slice());
                self.exec_all(m, body.as_slice())
            }
            TypedStmtKind::Declare { var, init } => self.declare(m, *var, init),
            TypedStmtKind::Assign { target, op, value } => match op {
                None => self.assign(m, target, value),
                Some(op) => self.update(m, target, *op, value),
            },
            TypedStmtKind::Step { target, up } => self.step(m, target, *up),
            TypedStmtKind::If {
                cond: _,
                then: _,
                other: _,
            } => self.if_else(m, s),
            TypedStmtKind::While { cond, body } => self.rounds(m, body.get(), cond),
            TypedStmtKind::DoWhile { body, cond } => {
                let ending = self.part(m, body.get());
                if !ending.goes_on() {
                    return ending.left_loop();
                }
                self.rounds(m, body.get(), cond)
            }
            TypedStmtKind::For {
                first: _,
                cond: _,
                step: _,
                body: _,
            } => self.for_loop(m, s),
            TypedStmtKind::Break => Ending::Break,
            TypedStmtKind::Continue => Ending::Continue,
            TypedStmtKind::Return(value) => self.give(m, value),
            TypedStmtKind::Empty => Ending::Normally,
        }
    }

    /// Runs an `if`, after its turn.
    #[cycle(exec)]
    fn if_else(&self, m: &mut Machine, s: &TypedStmt) -> Ending
        ensures { IfGives (objects_of self.now) self.now.typed.now.result s.now m.old result m.new }
    {
        let TypedStmtKind::If { cond, then, other } = &s.kind else {
            return Ending::Normally;
        };
        match self.tested(m, cond) {
            Test::Holds => self.part(m, then.get()),
            Test::Fails => match other {
                None => Ending::Normally,
                Some(other) => self.part(m, other.get()),
            },
            Test::Undefined => Ending::Undefined,
            Test::OutOfTurns => Ending::OutOfTurns,
        }
    }

    /// Runs a `for`, after its turn.
    #[cycle(exec)]
    fn for_loop(&self, m: &mut Machine, s: &TypedStmt) -> Ending
        ensures { LoopGives (objects_of self.now) self.now.typed.now.result s.now m.old
            result m.new }
    {
        let TypedStmtKind::For {
            first,
            cond: _,
            step: _,
            body: _,
        } = &s.kind
        else {
            return Ending::Normally;
        };
        enter(m, first.as_slice());
        let ending = self.exec_all(m, first.as_slice());
        if !ending.is_normal() {
            return ending;
        }
        self.for_rounds(m, s)
    }

    /// Runs statements in order.
    #[cycle(exec)]
    pub(crate) fn exec_all(&self, m: &mut Machine, stmts: &[TypedStmt]) -> Ending
        ensures { AllGive (objects_of self.now) self.now.typed.now.result stmts.now m.old
            result m.new }
    {
        for stmt in stmts {
            let ending = self.exec(m, stmt);
            if !ending.is_normal() {
                return ending;
            }
        }
        Ending::Normally
    }

    /// Runs a part of an `if`, the body of a loop or the step of a `for`, which is a block.
    #[cycle(exec)]
    fn part(&self, m: &mut Machine, s: &TypedStmt) -> Ending
        ensures { PartGives (objects_of self.now) self.now.typed.now.result s.now m.old
            result m.new }
    {
        enter_one(m, s);
        self.exec(m, s)
    }

    /// A loop without a step, from its condition on.
    #[cycle(exec)]
    fn rounds(&self, m: &mut Machine, body: &TypedStmt, cond: &TypedExpr) -> Ending
        ensures { RoundsGive (objects_of self.now) self.now.typed.now.result body.now cond.now m.old
            result m.new }
    {
        let most_rounds = m.left.saturating_add(1);
        for i in 0..most_rounds {
            match self.tested(m, cond) {
                Test::Holds => {}
                Test::Fails => return Ending::Normally,
                Test::Undefined => return Ending::Undefined,
                Test::OutOfTurns => return Ending::OutOfTurns,
            }
            let ending = self.part(m, body);
            if !ending.goes_on() {
                return ending.left_loop();
            }
        }
        Ending::OutOfTurns
    }

    /// A `for`, from its condition on.
    #[cycle(exec)]
    fn for_rounds(&self, m: &mut Machine, s: &TypedStmt) -> Ending
        ensures { ForGives (objects_of self.now) self.now.typed.now.result s.now m.old
            result m.new }
    {
        let TypedStmtKind::For {
            first: _,
            cond,
            step,
            body,
        } = &s.kind
        else {
            return Ending::Normally;
        };
        let limit = m.left.saturating_add(1);
        for i in 0..limit {
            match self.tested_if_any(m, cond) {
                Test::Holds => {}
                Test::Fails => return Ending::Normally,
                Test::Undefined => return Ending::Undefined,
                Test::OutOfTurns => return Ending::OutOfTurns,
            }
            let ending = self.part(m, body.get());
            if !ending.goes_on() {
                return ending.left_loop();
            }
            if let Some(step) = step {
                let ending = self.part(m, step.get());
                if !ending.is_normal() {
                    return ending;
                }
            }
        }
        Ending::OutOfTurns
    }

    /// A condition with its turn.
    fn tested(&self, m: &mut Machine, cond: &TypedExpr) -> Test
        ensures { TestGives (objects_of self.now) self.now.typed.now.result (Some cond.now) m.old
            result m.new }
    {
        if !m.take(1) {
            return Test::OutOfTurns;
        }
        m.trace.start();
        let x = self.eval(&m.cells, &mut m.trace, cond);
        if m.trace.failed {
            return Test::Undefined;
        }
        if !m.take(m.trace.turns) {
            return Test::OutOfTurns;
        }
        if x == 0 { Test::Fails } else { Test::Holds }
    }

    /// The same of a condition that may be absent, and then holds.
    fn tested_if_any(&self, m: &mut Machine, cond: &Option<TypedExpr>) -> Test
        ensures { TestGives (objects_of self.now) self.now.typed.now.result cond.now m.old
            result m.new }
    {
        match cond {
            Some(cond) => self.tested(m, cond),
            None => {
                if m.take(1) {
                    Test::Holds
                } else {
                    Test::OutOfTurns
                }
            }
        }
    }

    /// The declaration of a variable.
    fn declare(&self, m: &mut Machine, var: u32, init: &Option<TypedExpr>) -> Ending
        ensures { DeclareGives (objects_of self.now) self.now.typed.now.result var init.now m.old
            result m.new }
    {
        match init {
            None => {
                put_var(&mut m.cells.vars, var, None);
                Ending::Normally
            }
            Some(value) => {
                m.trace.start();
                let x = self.eval(&m.cells, &mut m.trace, value);
                let value = Operand {
                    ty: value.ty,
                    pattern: x,
                };
                self.store(m, Object::Var(var), 0, value)
            }
        }
    }

    /// `return`, with a value or without.
    fn give(&self, m: &mut Machine, value: &Option<TypedExpr>) -> Ending
        ensures { ReturnGives (objects_of self.now) self.now.typed.now.result value.now m.old result
            m.new }
    {
        match value {
            None => {
                m.value = None;
                Ending::Return
            }
            Some(value) => {
                m.trace.start();
                let x = self.eval(&m.cells, &mut m.trace, value);
                if m.trace.failed {
                    return Ending::Undefined;
                }
                if !m.take(m.trace.turns) {
                    return Ending::OutOfTurns;
                }
                m.value = Some(x);
                Ending::Return
            }
        }
    }
}
