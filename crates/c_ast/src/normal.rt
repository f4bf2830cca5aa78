//! The normal form of a kernel: each assignment has one plain value, and statements may stand before a condition.
//! `&&`, `||` and `?:` stand in it only where no side reads an array. Variables made for their results and for indices are not declared.
use crate::tree::Param;
use crate::typed::{ArrayOf, TypedExpr, TypedTarget};
use el_base::{Boxed, List, Name, Span, Ty};

/// A kernel in normal form, with the fields of a typed tree.
pub struct Normal {
    pub name: Name,
    pub at: Span,
    /// The type of its result; `None` is `void`.
    pub result: Option<Ty>,
    pub params: List<Param>,
    /// The types of its variables.
    pub vars: List<Ty>,
    pub arrays: List<ArrayOf>,
    /// The statements of its block.
    pub body: List<NormalStmt>,
}

// By hand, so that to let go of one is a call.
impl Drop for Normal {
    fn drop(self) {
        let Normal {
            name: _name,
            at: _at,
            result: _result,
            params: _params,
            vars: _vars,
            arrays: _arrays,
            body: _body,
        } = self;
    }
}

/// A statement with its place.
#[cycle(normal_stmt)]
pub struct NormalStmt {
    pub kind: NormalStmtKind,
    pub at: Span,
}

// By hand, so that to let go of one is a call, and not the whole match in each place.
impl Drop for NormalStmt {
    fn drop(self) {
        let NormalStmt { kind, at: _ } = self;
        match kind {
            NormalStmtKind::Block(body) => body.let_go(),
            NormalStmtKind::Declare {
                var: _var,
                init: _init,
            } => {}
            NormalStmtKind::Assign {
                target: _target,
                value: _value,
            } => {}
            NormalStmtKind::If {
                before,
                cond: _cond,
                then,
                other,
            } => {
                before.let_go();
                let _then = then.into_inner();
                if let Some(other) = other {
                    let _other = other.into_inner();
                }
            }
            NormalStmtKind::While {
                before,
                cond: _cond,
                body,
            } => {
                before.let_go();
                let _body = body.into_inner();
            }
            NormalStmtKind::DoWhile {
                body,
                before,
                cond: _cond,
            } => {
                before.let_go();
                let _body = body.into_inner();
            }
            NormalStmtKind::For {
                first,
                before,
                cond: _cond,
                step,
                body,
            } => {
                first.let_go();
                before.let_go();
                if let Some(step) = step {
                    let _step = step.into_inner();
                }
                let _body = body.into_inner();
            }
            NormalStmtKind::Break => {}
            NormalStmtKind::Continue => {}
            NormalStmtKind::Return(_value) => {}
            NormalStmtKind::Empty => {}
        }
    }
}

/// The statements of a normal form. The statements `before` a condition run each time before it is evaluated.
#[cycle(normal_stmt)]
#[derive(Drop)]
pub enum NormalStmtKind {
    Block(List<NormalStmt>),
    Declare {
        var: u32,
        init: Option<TypedExpr>,
    },
    Assign {
        target: TypedTarget,
        value: TypedExpr,
    },
    If {
        before: List<NormalStmt>,
        cond: TypedExpr,
        then: Boxed<NormalStmt>,
        other: Option<Boxed<NormalStmt>>,
    },
    While {
        before: List<NormalStmt>,
        cond: TypedExpr,
        body: Boxed<NormalStmt>,
    },
    DoWhile {
        body: Boxed<NormalStmt>,
        before: List<NormalStmt>,
        cond: TypedExpr,
    },
    /// Where there is no condition, nothing stands before it.
    For {
        first: List<NormalStmt>,
        before: List<NormalStmt>,
        cond: Option<TypedExpr>,
        step: Option<Boxed<NormalStmt>>,
        body: Boxed<NormalStmt>,
    },
    Break,
    Continue,
    Return(Option<TypedExpr>),
    Empty,
}
