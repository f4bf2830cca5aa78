//! The typed tree of a kernel: its names are numbered, and each type is written.
use crate::tree::{Binary, Param, Unary};
use el_base::{Boxed, List, Name, Span, Ty};

/// A kernel whose names are numbered and whose types are written.
/// Variables and arrays are each numbered from 0, in order of declaration, parameters first.
pub struct Typed {
    pub name: Name,
    pub at: Span,
    /// The type of its result; `None` is `void`.
    pub result: Option<Ty>,
    pub params: List<Param>,
    /// The types of its variables.
    pub vars: List<Ty>,
    pub arrays: List<ArrayOf>,
    /// The statements of its block.
    pub body: List<TypedStmt>,
}

// By hand, so that to let go of one is a call.
impl Drop for Typed {
    fn drop(self) {
        let Typed {
            name: _name,
            at: _at,
            result: _result,
            params: _params,
            vars: _vars,
            arrays: _arrays,
            body: _body,
        } = self;
    }
}

/// An array parameter: the type of its elements, and the length of each dimension.
#[derive(Drop)]
pub struct ArrayOf {
    pub name: Name,
    pub ty: Ty,
    pub dims: List<u64>,
}

/// A statement with its place.
#[cycle(typed_stmt)]
pub struct TypedStmt {
    pub kind: TypedStmtKind,
    pub at: Span,
}

// By hand, so that to let go of one is a call, and not the whole match in each place.
impl Drop for TypedStmt {
    fn drop(self) {
        let TypedStmt { kind, at: _ } = self;
        match kind {
            TypedStmtKind::Block(body) => body.let_go(),
            TypedStmtKind::Declare {
                var: _var,
                init: _init,
            } => {}
            TypedStmtKind::Assign {
                target: _target,
                op: _op,
                value: _value,
            } => {}
            TypedStmtKind::Step {
                target: _target,
                up: _up,
            } => {}
            TypedStmtKind::If {
                cond: _cond,
                then,
                other,
            } => {
                let _then = then.into_inner();
                if let Some(other) = other {
                    let _other = other.into_inner();
                }
            }
            TypedStmtKind::While { cond: _cond, body } => {
                let _body = body.into_inner();
            }
            TypedStmtKind::DoWhile { body, cond: _cond } => {
                let _body = body.into_inner();
            }
            TypedStmtKind::For {
                first,
                cond: _cond,
                step,
                body,
            } => {
                first.let_go();
                if let Some(step) = step {
                    let _step = step.into_inner();
                }
                let _body = body.into_inner();
            }
            TypedStmtKind::Break => {}
            TypedStmtKind::Continue => {}
            TypedStmtKind::Return(_value) => {}
            TypedStmtKind::Empty => {}
        }
    }
}

/// The statements (ISO/IEC 9899:1999 6.8), and declarations, which stand among them.
#[cycle(typed_stmt)]
#[derive(Drop)]
pub enum TypedStmtKind {
    Block(List<TypedStmt>),
    /// The declaration of one variable.
    Declare {
        var: u32,
        init: Option<TypedExpr>,
    },
    /// `target = value`, or `target op= value` where there is an operator.
    Assign {
        target: TypedTarget,
        op: Option<Binary>,
        value: TypedExpr,
    },
    /// `target++` where `up`, else `target--`.
    Step {
        target: TypedTarget,
        up: bool,
    },
    If {
        cond: TypedExpr,
        then: Boxed<TypedStmt>,
        other: Option<Boxed<TypedStmt>>,
    },
    While {
        cond: TypedExpr,
        body: Boxed<TypedStmt>,
    },
    DoWhile {
        body: Boxed<TypedStmt>,
        cond: TypedExpr,
    },
    /// `first` is empty, one assignment or step, or one declaration for each declared name.
    For {
        first: List<TypedStmt>,
        cond: Option<TypedExpr>,
        step: Option<Boxed<TypedStmt>>,
        body: Boxed<TypedStmt>,
    },
    Break,
    Continue,
    Return(Option<TypedExpr>),
    Empty,
}

/// What is assigned to: a variable, or an element of an array.
#[derive(Drop)]
pub struct TypedTarget {
    pub to: Object,
    pub at: Span,
    pub indices: List<TypedExpr>,
}

/// A variable or an array, by its number.
#[derive(Clone, Copy, PartialEq, Eq)]
pub enum Object {
    Var(u32),
    Array(u32),
}

/// An expression with its type and its place.
#[cycle(typed_expr)]
pub struct TypedExpr {
    pub kind: TypedExprKind,
    pub ty: Ty,
    pub at: Span,
}

// A loop down the left sides: `a + b + ..` is as deep as it is long.
impl Drop for TypedExpr {
    fn drop(mut self) {
        loop {
            let TypedExpr { kind, ty: _, at: _ } = self;
            match kind {
                TypedExprKind::Binary(_op, left, right) => {
                    let _right = right.into_inner();
                    self = left.into_inner();
                }
                TypedExprKind::Number(_value) => return,
                TypedExprKind::Var(_var) => return,
                TypedExprKind::Element {
                    array: _array,
                    indices,
                } => {
                    indices.let_go();
                    return;
                }
                TypedExprKind::Unary(_op, arg) => self = arg.into_inner(),
                TypedExprKind::Cast {
                    implied: _implied,
                    arg,
                } => self = arg.into_inner(),
                TypedExprKind::Choose(cond, yes, no) => {
                    let _cond = cond.into_inner();
                    let _yes = yes.into_inner();
                    self = no.into_inner();
                }
            }
        }
    }
}

/// The expressions (ISO/IEC 9899:1999 6.5).
#[cycle(typed_expr)]
#[derive(Drop)]
pub enum TypedExprKind {
    Number(u64),
    Var(u32),
    Element {
        array: u32,
        indices: List<TypedExpr>,
    },
    Unary(Unary, Boxed<TypedExpr>),
    /// A conversion to the type of the expression: written, or implied by the rules (ISO/IEC 9899:1999 6.3.1).
    Cast {
        implied: bool,
        arg: Boxed<TypedExpr>,
    },
    Binary(Binary, Boxed<TypedExpr>, Boxed<TypedExpr>),
    /// The condition, the value where it is not 0, and the value where it is.
    Choose(Boxed<TypedExpr>, Boxed<TypedExpr>, Boxed<TypedExpr>),
}
