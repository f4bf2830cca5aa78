//! Typed programs: the names of helpers are numbered too.
use crate::tree::{Binary, Param, Unary};
use crate::typed::{ArrayOf, Object};
use el_base::{Boxed, List, Name, Span, Ty};

/// Helpers in order, and the kernel.
pub struct TypedProgram {
    pub helpers: List<TypedHelper>,
    pub kernel: ProgTree,
}

// By hand, so that to let go of one is a call.
impl Drop for TypedProgram {
    fn drop(self) {
        let TypedProgram {
            helpers: _helpers,
            kernel: _kernel,
        } = self;
    }
}

/// A helper: its variables are numbered from 0, its parameters first.
pub struct TypedHelper {
    pub name: Name,
    pub at: Span,
    pub result: Ty,
    pub params: List<Param>,
    pub vars: List<Ty>,
    pub body: List<ProgStmt>,
    pub value: ProgExpr,
}

// By hand, so that to let go of one is a call.
impl Drop for TypedHelper {
    fn drop(self) {
        let TypedHelper {
            name: _name,
            at: _at,
            result: _result,
            params: _params,
            vars: _vars,
            body: _body,
            value: _value,
        } = self;
    }
}

/// A kernel whose expressions may call helpers.
pub struct ProgTree {
    pub name: Name,
    pub at: Span,
    pub result: Option<Ty>,
    pub params: List<Param>,
    pub vars: List<Ty>,
    pub arrays: List<ArrayOf>,
    pub body: List<ProgStmt>,
}

// By hand, so that to let go of one is a call.
impl Drop for ProgTree {
    fn drop(self) {
        let ProgTree {
            name: _name,
            at: _at,
            result: _result,
            params: _params,
            vars: _vars,
            arrays: _arrays,
            body: _body,
        } = self;
    }
}

/// A statement with its place.
#[cycle(prog_stmt)]
pub struct ProgStmt {
    pub kind: ProgStmtKind,
    pub at: Span,
}

// By hand, so that to let go of one is a call, and not the whole match in each place.
impl Drop for ProgStmt {
    fn drop(self) {
        let ProgStmt { kind, at: _ } = self;
        match kind {
            ProgStmtKind::Block(body) => body.let_go(),
            ProgStmtKind::Declare {
                var: _var,
                init: _init,
            } => {}
            ProgStmtKind::Assign {
                target: _target,
                op: _op,
                value: _value,
            } => {}
            ProgStmtKind::Step {
                target: _target,
                up: _up,
            } => {}
            ProgStmtKind::If {
                cond: _cond,
                then,
                other,
            } => {
                let _then = then.into_inner();
                if let Some(other) = other {
                    let _other = other.into_inner();
                }
            }
            ProgStmtKind::While { cond: _cond, body } => {
                let _body = body.into_inner();
            }
            ProgStmtKind::DoWhile { body, cond: _cond } => {
                let _body = body.into_inner();
            }
            ProgStmtKind::For {
                first,
                cond: _cond,
                step,
                body,
            } => {
                first.let_go();
                if let Some(step) = step {
                    let _step = step.into_inner();
                }
                let _body = body.into_inner();
            }
            ProgStmtKind::Break => {}
            ProgStmtKind::Continue => {}
            ProgStmtKind::Return(_value) => {}
            ProgStmtKind::Empty => {}
        }
    }
}

/// The statements (ISO/IEC 9899:1999 6.8), and declarations, which stand among them.
#[cycle(prog_stmt)]
#[derive(Drop)]
pub enum ProgStmtKind {
    Block(List<ProgStmt>),
    Declare {
        var: u32,
        init: Option<ProgExpr>,
    },
    Assign {
        target: ProgTarget,
        op: Option<Binary>,
        value: ProgExpr,
    },
    Step {
        target: ProgTarget,
        up: bool,
    },
    If {
        cond: ProgExpr,
        then: Boxed<ProgStmt>,
        other: Option<Boxed<ProgStmt>>,
    },
    While {
        cond: ProgExpr,
        body: Boxed<ProgStmt>,
    },
    DoWhile {
        body: Boxed<ProgStmt>,
        cond: ProgExpr,
    },
    For {
        first: List<ProgStmt>,
        cond: Option<ProgExpr>,
        step: Option<Boxed<ProgStmt>>,
        body: Boxed<ProgStmt>,
    },
    Break,
    Continue,
    Return(Option<ProgExpr>),
    Empty,
}

/// What is assigned to: a variable, or an element of an array.
#[derive(Drop)]
pub struct ProgTarget {
    pub to: Object,
    pub at: Span,
    pub indices: List<ProgExpr>,
}

/// An expression with its type and its place.
#[cycle(prog_expr)]
pub struct ProgExpr {
    pub kind: ProgExprKind,
    pub ty: Ty,
    pub at: Span,
}

// A loop down the left sides: `a + b + ..` is as deep as it is long.
impl Drop for ProgExpr {
    fn drop(mut self) {
        loop {
            let ProgExpr { kind, ty: _, at: _ } = self;
            match kind {
                ProgExprKind::Binary(_op, left, right) => {
                    let _right = right.into_inner();
                    self = left.into_inner();
                }
                ProgExprKind::Number(_value) => return,
                ProgExprKind::Var(_var) => return,
                ProgExprKind::Element {
                    array: _array,
                    indices,
                } => {
                    indices.let_go();
                    return;
                }
                ProgExprKind::Unary(_op, arg) => self = arg.into_inner(),
                ProgExprKind::Cast {
                    implied: _implied,
                    arg,
                } => self = arg.into_inner(),
                ProgExprKind::Choose(cond, yes, no) => {
                    let _cond = cond.into_inner();
                    let _yes = yes.into_inner();
                    self = no.into_inner();
                }
                ProgExprKind::Call {
                    helper: _helper,
                    args,
                } => {
                    args.let_go();
                    return;
                }
            }
        }
    }
}

/// The expressions (ISO/IEC 9899:1999 6.5), calls of helpers among them (6.5.2.2).
#[cycle(prog_expr)]
#[derive(Drop)]
pub enum ProgExprKind {
    Number(u64),
    Var(u32),
    Element { array: u32, indices: List<ProgExpr> },
    Unary(Unary, Boxed<ProgExpr>),
    Cast { implied: bool, arg: Boxed<ProgExpr> },
    Binary(Binary, Boxed<ProgExpr>, Boxed<ProgExpr>),
    Choose(Boxed<ProgExpr>, Boxed<ProgExpr>, Boxed<ProgExpr>),
    /// The helper is named by its place in the list.
    Call { helper: u32, args: List<ProgExpr> },
}
