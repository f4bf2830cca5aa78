//! The syntax tree of a kernel: as it is written, without its parentheses.
use el_base::{Boxed, List, Name, Span, Ty};

/// A kernel: one function definition.
pub struct Tree {
    pub name: Name,
    pub at: Span,
    /// The type of its result; `None` is `void`.
    pub result: Option<Ty>,
    pub params: List<Param>,
    /// The statements of its block.
    pub body: List<Stmt>,
}

// By hand, so that to let go of one is a call.
impl Drop for Tree {
    fn drop(self) {
        let Tree {
            name: _name,
            at: _at,
            result: _result,
            params: _params,
            body: _body,
        } = self;
    }
}

/// A text: helpers in order, and the kernel.
pub struct Program {
    pub helpers: List<Helper>,
    pub kernel: Tree,
}

// By hand, so that to let go of one is a call.
impl Drop for Program {
    fn drop(self) {
        let Program {
            helpers: _helpers,
            kernel: _kernel,
        } = self;
    }
}

/// A helper function: its statements return nothing, and its value is what it returns.
pub struct Helper {
    pub name: Name,
    pub at: Span,
    pub result: Ty,
    pub params: List<Param>,
    pub body: List<Stmt>,
    pub value: Expr,
}

// By hand, so that to let go of one is a call.
impl Drop for Helper {
    fn drop(self) {
        let Helper {
            name: _name,
            at: _at,
            result: _result,
            params: _params,
            body: _body,
            value: _value,
        } = self;
    }
}

/// A parameter of a kernel: an array where it has dimensions.
#[derive(Drop)]
pub struct Param {
    pub name: Name,
    pub at: Span,
    pub ty: Ty,
    pub dims: List<u64>,
}

/// A statement with its place.
#[cycle(stmt)]
pub struct Stmt {
    pub kind: StmtKind,
    pub at: Span,
}

// By hand, so that to let go of one is a call, and not the whole match in each place.
impl Drop for Stmt {
    fn drop(self) {
        let Stmt { kind, at: _ } = self;
        match kind {
            StmtKind::Block(body) => body.let_go(),
            StmtKind::Declare {
                name: _name,
                ty: _ty,
                init: _init,
            } => {}
            StmtKind::Assign {
                target: _target,
                op: _op,
                value: _value,
            } => {}
            StmtKind::Step {
                target: _target,
                up: _up,
            } => {}
            StmtKind::If {
                cond: _cond,
                then,
                other,
            } => {
                let _then = then.into_inner();
                if let Some(other) = other {
                    let _other = other.into_inner();
                }
            }
            StmtKind::While { cond: _cond, body } => {
                let _body = body.into_inner();
            }
            StmtKind::DoWhile { body, cond: _cond } => {
                let _body = body.into_inner();
            }
            StmtKind::For {
                first,
                cond: _cond,
                step,
                body,
            } => {
                first.let_go();
                if let Some(step) = step {
                    let _step = step.into_inner();
                }
                let _body = body.into_inner();
            }
            StmtKind::Break => {}
            StmtKind::Continue => {}
            StmtKind::Return(_value) => {}
            StmtKind::Empty => {}
        }
    }
}

/// The statements (ISO/IEC 9899:1999 6.8), and declarations, which stand among them. Targets and expressions lie in
/// boxes, so that a statement is small: a text is of up to 65,536 of them.
#[cycle(stmt)]
#[derive(Drop)]
pub enum StmtKind {
    Block(List<Stmt>),
    /// One declared name: a declaration of several is several of these.
    Declare {
        name: Name,
        ty: Ty,
        init: Option<Boxed<Expr>>,
    },
    /// `target = value`, or `target op= value` where there is an operator.
    Assign {
        target: Boxed<Target>,
        op: Option<Binary>,
        value: Boxed<Expr>,
    },
    /// `target++` where `up`, else `target--`, written before or after.
    Step {
        target: Boxed<Target>,
        up: bool,
    },
    If {
        cond: Boxed<Expr>,
        then: Boxed<Stmt>,
        other: Option<Boxed<Stmt>>,
    },
    While {
        cond: Boxed<Expr>,
        body: Boxed<Stmt>,
    },
    DoWhile {
        body: Boxed<Stmt>,
        cond: Boxed<Expr>,
    },
    /// `first` is empty, one assignment or step, or one declaration for each declared name.
    For {
        first: List<Stmt>,
        cond: Option<Boxed<Expr>>,
        step: Option<Boxed<Stmt>>,
        body: Boxed<Stmt>,
    },
    Break,
    Continue,
    Return(Option<Boxed<Expr>>),
    Empty,
}

/// What is assigned to: a variable, or an element where there are indices.
#[derive(Drop)]
pub struct Target {
    pub name: Name,
    pub at: Span,
    pub indices: List<Expr>,
}

/// An expression with its place.
#[cycle(expr)]
pub struct Expr {
    pub kind: ExprKind,
    pub at: Span,
}

// A loop down the left sides: `a + b + ..` is as deep as it is long.
impl Drop for Expr {
    fn drop(mut self) {
        loop {
            let Expr { kind, at: _ } = self;
            match kind {
                ExprKind::Binary(_op, left, right) => {
                    let _right = right.into_inner();
                    self = left.into_inner();
                }
                ExprKind::Number {
                    value: _value,
                    ty: _ty,
                } => return,
                ExprKind::Name(_name) => return,
                ExprKind::Element {
                    name: _name,
                    indices,
                } => {
                    indices.let_go();
                    return;
                }
                ExprKind::Call { name: _name, args } => {
                    args.let_go();
                    return;
                }
                ExprKind::Unary(_op, arg) => self = arg.into_inner(),
                ExprKind::Cast(_ty, arg) => self = arg.into_inner(),
                ExprKind::Choose(cond, yes, no) => {
                    let _cond = cond.into_inner();
                    let _yes = yes.into_inner();
                    self = no.into_inner();
                }
            }
        }
    }
}

/// The expressions (ISO/IEC 9899:1999 6.5).
#[cycle(expr)]
#[derive(Drop)]
pub enum ExprKind {
    Number { value: u64, ty: Ty },
    Name(Name),
    Element { name: Name, indices: List<Expr> },
    /// A call of a helper (ISO/IEC 9899:1999 6.5.2.2).
    Call { name: Name, args: List<Expr> },
    Unary(Unary, Boxed<Expr>),
    Cast(Ty, Boxed<Expr>),
    Binary(Binary, Boxed<Expr>, Boxed<Expr>),
    /// The condition, the value where it is not 0, and the value where it is.
    Choose(Boxed<Expr>, Boxed<Expr>, Boxed<Expr>),
}

/// The unary operators (ISO/IEC 9899:1999 6.5.3.3).
#[derive(Clone, Copy, Debug, PartialEq, Eq)]
pub enum Unary {
    /// `+`
    Plus,
    /// `-`
    Minus,
    /// `~`
    Flip,
    /// `!`
    Not,
}

/// The families of binary operators: those of a family take their operands alike and give results of one kind.
#[derive(Clone, Copy, Debug, PartialEq, Eq)]
pub enum Family {
    /// `*`, `/`, `%`, `+` and `-`
    Arithmetic,
    /// `<<` and `>>`
    Shift,
    /// `&`, `^` and `|`
    Bits,
    /// `<`, `>`, `<=`, `>=`, `==` and `!=`
    Comparison,
    /// `&&` and `||`
    Logical,
}

/// The binary operators (ISO/IEC 9899:1999 6.5.5 to 6.5.14).
#[derive(Clone, Copy, Debug, PartialEq, Eq)]
pub enum Binary {
    /// `*`
    Mul,
    /// `/`
    Div,
    /// `%`
    Rem,
    /// `+`
    Add,
    /// `-`
    Sub,
    /// `<<`
    Shl,
    /// `>>`
    Shr,
    /// `<`
    Lt,
    /// `>`
    Gt,
    /// `<=`
    Le,
    /// `>=`
    Ge,
    /// `==`
    Eq,
    /// `!=`
    Ne,
    /// `&`
    And,
    /// `^`
    Xor,
    /// `|`
    Or,
    /// `&&`
    Both,
    /// `||`
    Either,
}
