//! Expressions.
#![tactic(auto, using(crate::proofs::NoResults::no_result, crate::proofs::NoResults::no_verdict))]

ghost use Rattle.std.specs.Prelude.{◌≡◌, ◌≤◌, ◌+◌, ℕ, suc, List, [], ◌∷◌, false, Some, IfOk};
ghost use Rattle.el_base.specs.Limits.{max_nesting};
ghost use Rattle.c_ast.specs.declared.tree.ExprKind.TheVariants as expr;
ghost use Rattle.c_ast.specs.Derives.{DerivesExpr, DerivesIndices, DerivesArgs};
ghost use Rattle.c_ast.specs.declared.mark.Mark.TheVariants as mark;
ghost use Rattle.c_parse.specs.Reads.{Reads, InParens, InBrackets, InCall, mark_at};
ghost use Rattle.c_parse.specs.Stops.{IsLooserAt, is_type_behind, is_operand_at};
ghost use Rattle.c_parse.specs.Symbols.{Symbol, Fixed, in_group};
ghost use Rattle.c_parse.specs.Parts.{argument_list_symbols};
ghost use Rattle.c_parse.specs.Verdicts.{Judges};

use crate::cursor::{Cursor, deeper, place};
use crate::refusal::Stop;
use crate::types::plain_type;
use c_ast::{Binary, Boxed, Expr, ExprKind, List, Mark, Word};
use el_base::Memory;
use std::alloc::Global;

impl<'a> Cursor<'a> {
    /// An expression, in which so many constructs may nest.
    #[cycle(expr)]
    pub fn expr(&mut self, depth: u32) -> Result<Expr, Stop>
        ensures derived { IfOk result (λ e. Reads (λ ts. DerivesExpr 0 ts e)
            self.old.rest.now self.new.rest.now) }
        ensures judged { (n : ℕ) → n + depth ≡ max_nesting
            → Judges (Symbol.expression n 0 ∷ []) [] self.old.rest.now self.new.rest.now result }
    {
        let from = self.rest;
        let cond = self.binary(1, depth)?;
        let Some(at) = self.take(Mark::Question) else {
            return Ok(cond);
        };
        let depth = deeper(depth, at)?;
        let yes = self.expr(depth)?;
        self.mark(Mark::Colon)?;
        let no = self.expr(depth)?;
        let kind = choose(self.alloc, cond, yes, no)?;
        Ok(Expr {
            kind,
            at: place(from, self.rest),
        })
    }

    // An expression of a level: operands, and the operators of this level and of tighter ones between them.
    #[cycle(expr)]
    fn binary(&mut self, level: u32, depth: u32) -> Result<Expr, Stop>
        requires some { 1 ≤ level }
        requires known { level ≤ 11 }
        ensures derived { IfOk result (λ e. Reads (λ ts. DerivesExpr level ts e)
            self.old.rest.now self.new.rest.now) }
        ensures judged { (n : ℕ) → n + depth ≡ max_nesting
            → Judges (Symbol.expression n level ∷ []) []
            self.old.rest.now self.new.rest.now result }
        ensures behind { IfOk result (λ _. IsLooserAt level self.new.rest.now) }
    {
        let from = self.rest;
        let mut left = self.unary(depth)?;
        'operators: while let Some((op, tier)) = self.operator(level) {
            let right = self.binary(tier + 1, depth)?;
            left = Expr {
                kind: join(self.alloc, op, left, right)?,
                at: place(from, self.rest),
            };
        }
        Ok(left)
    }

    // A unary expression.
    #[cycle(expr)]
    fn unary(&mut self, depth: u32) -> Result<Expr, Stop>
        ensures derived { IfOk result (λ e. Reads (λ ts. DerivesExpr 11 ts e)
            self.old.rest.now self.new.rest.now) }
        ensures judged { (n : ℕ) → n + depth ≡ max_nesting
            → Judges (Symbol.expression n 11 ∷ []) [] self.old.rest.now self.new.rest.now result }
    {
        if self.is_at_name() {
            return self.named(depth);
        }
        if self.is_at_number() {
            return self.constant();
        }
        if !self.is_at(Mark::Open) {
            return self.signed(depth);
        }
        if self.is_at_cast() {
            return self.cast(depth);
        }
        self.group(depth)
    }

    // A number.
    fn constant(&mut self) -> Result<Expr, Stop>
        ensures derived { IfOk result (λ e. Reads (λ ts. DerivesExpr 11 ts e)
            self.old.rest.now self.new.rest.now) }
        ensures judged { (n : ℕ) → n ≤ max_nesting
            → Judges (Symbol.a_number n ∷ []) [] self.old.rest.now self.new.rest.now result }
    {
        let token = self.next()?;
        match token.word {
            Word::Number { value, ty } => Ok(Expr {
                kind: ExprKind::Number { value, ty },
                at: token.span,
            }),
            _ => Err(Stop::Unexpected { span: token.span }),
        }
    }

    // A name, with indices, with the arguments of a call, or alone.
    #[cycle(expr)]
    fn named(&mut self, depth: u32) -> Result<Expr, Stop>
        ensures derived { IfOk result (λ e. Reads (λ ts. DerivesExpr 11 ts e)
            self.old.rest.now self.new.rest.now) }
        ensures judged { (n : ℕ) → n + depth ≡ max_nesting
            → Judges (Symbol.a_name n ∷ Symbol.postfix n ∷ []) []
            self.old.rest.now self.new.rest.now result }
    {
        let from = self.rest;
        let (name, _) = self.name()?;
        if self.is_at(Mark::Open) {
            let args = self.arguments(depth)?;
            return Ok(Expr {
                kind: ExprKind::Call { name, args },
                at: place(from, self.rest),
            });
        }
        let indices = self.indices(depth)?;
        let at = place(from, self.rest);
        if indices.is_empty() {
            return Ok(Expr {
                kind: ExprKind::Name(name),
                at,
            });
        }
        Ok(Expr {
            kind: ExprKind::Element { name, indices },
            at,
        })
    }

    // The arguments of a call in parentheses.
    #[cycle(expr)]
    fn arguments(&mut self, depth: u32) -> Result<List<Expr>, Stop>
        ensures derived { IfOk result (λ es. Reads (λ ts. InCall ts es)
            self.old.rest.now self.new.rest.now) }
        ensures judged { (n : ℕ) → n + depth ≡ max_nesting
            → mark_at self.old.rest.now ≡ Some mark.Open
            → Judges (Symbol.postfix n ∷ []) [] self.old.rest.now self.new.rest.now result }
    {
        let open = self.mark(Mark::Open)?;
        let depth = deeper(depth, open)?;
        let args = self.any_arguments(depth)?;
        self.mark(Mark::Close)?;
        Ok(args)
    }

    // Arguments with commas between them, of which there may be none.
    #[cycle(expr)]
    fn any_arguments(&mut self, depth: u32) -> Result<List<Expr>, Stop>
        ensures derived { IfOk result (λ es. Reads (λ ts. DerivesArgs ts es)
            self.old.rest.now self.new.rest.now) }
        ensures judged { (n : ℕ) → n + depth ≡ max_nesting
            → Judges (Symbol.arguments n ∷ []) (Symbol.fixed n Fixed.closing ∷ [])
            self.old.rest.now self.new.rest.now result }
    {
        if self.is_at(Mark::Close) {
            return Ok(List::new(self.alloc));
        }
        self.argument_list(depth)
    }

    // One or more arguments.
    #[cycle(expr)]
    fn argument_list(&mut self, depth: u32) -> Result<List<Expr>, Stop>
        ensures derived { IfOk result (λ es. Reads (λ ts. DerivesArgs ts es)
            self.old.rest.now self.new.rest.now) }
        ensures judged { (n : ℕ) → n + depth ≡ max_nesting
            → Judges (argument_list_symbols n) [] self.old.rest.now self.new.rest.now result }
    {
        let mut args = List::new(self.alloc);
        let first = self.expr(depth)?;
        args.push(first)?;
        'arguments: while self.is_at(Mark::Comma) {
            self.mark(Mark::Comma)?;
            let more = self.expr(depth)?;
            args.push(more)?;
        }
        Ok(args)
    }

    // A unary operator and its operand.
    #[cycle(expr)]
    fn signed(&mut self, depth: u32) -> Result<Expr, Stop>
        ensures derived { IfOk result (λ e. Reads (λ ts. DerivesExpr 11 ts e)
            self.old.rest.now self.new.rest.now) }
        ensures judged { (n : ℕ) → n + depth ≡ max_nesting → is_operand_at self.old.rest.now ≡ false
            → Judges (Symbol.expression n 11 ∷ []) [] self.old.rest.now self.new.rest.now result }
    {
        let from = self.rest;
        let (op, sign) = self.sign()?;
        let depth = deeper(depth, sign)?;
        let arg = self.unary(depth)?;
        Ok(Expr {
            kind: ExprKind::Unary(op, Boxed::new(self.alloc, arg)?),
            at: place(from, self.rest),
        })
    }

    // A cast and its operand.
    #[cycle(expr)]
    fn cast(&mut self, depth: u32) -> Result<Expr, Stop>
        ensures derived { IfOk result (λ e. Reads (λ ts. DerivesExpr 11 ts e)
            self.old.rest.now self.new.rest.now) }
        ensures judged { (n : ℕ) → n + depth ≡ max_nesting
            → Judges (Symbol.fixed (suc n) Fixed.opening ∷ Symbol.a_type (suc n)
            ∷ Symbol.fixed (suc n) Fixed.closing ∷ Symbol.expression (suc n) 11 ∷ []) []
            self.old.rest.now self.new.rest.now result }
    {
        let from = self.rest;
        let open = self.mark(Mark::Open)?;
        let depth = deeper(depth, open)?;
        let ty = self.ty()?;
        self.mark(Mark::Close)?;
        let arg = self.unary(depth)?;
        Ok(Expr {
            kind: ExprKind::Cast(ty, Boxed::new(self.alloc, arg)?),
            at: place(from, self.rest),
        })
    }

    /// An expression in parentheses.
    #[cycle(expr)]
    pub fn group(&mut self, depth: u32) -> Result<Expr, Stop>
        ensures derived { IfOk result (λ e. Reads (λ ts. InParens ts e)
            self.old.rest.now self.new.rest.now) }
        ensures judged { (n : ℕ) → n + depth ≡ max_nesting
            → Judges (in_group (suc n) []) [] self.old.rest.now self.new.rest.now result }
    {
        let open = self.mark(Mark::Open)?;
        let depth = deeper(depth, open)?;
        let inner = self.expr(depth)?;
        self.mark(Mark::Close)?;
        Ok(inner)
    }

    // An index in brackets.
    #[cycle(expr)]
    fn index(&mut self, depth: u32) -> Result<Expr, Stop>
        ensures derived { IfOk result (λ e. Reads (λ ts. InBrackets ts e)
            self.old.rest.now self.new.rest.now) }
        ensures judged { (n : ℕ) → n + depth ≡ max_nesting
            → mark_at self.old.rest.now ≡ Some mark.OpenBracket
            → Judges (Symbol.indices n ∷ []) (Symbol.indices n ∷ [])
            self.old.rest.now self.new.rest.now result }
    {
        let open = self.mark(Mark::OpenBracket)?;
        let depth = deeper(depth, open)?;
        let inner = self.expr(depth)?;
        self.mark(Mark::CloseBracket)?;
        Ok(inner)
    }

    /// All indices in brackets that come next.
    #[cycle(expr)]
    pub fn indices(&mut self, depth: u32) -> Result<List<Expr>, Stop>
        ensures derived { IfOk result (λ es. Reads (λ ts. DerivesIndices ts es)
            self.old.rest.now self.new.rest.now) }
        ensures judged { (n : ℕ) → n + depth ≡ max_nesting
            → Judges (Symbol.indices n ∷ []) [] self.old.rest.now self.new.rest.now result }
    {
        let mut indices = List::new(self.alloc);
        'brackets: while self.is_at(Mark::OpenBracket) {
            let index = self.index(depth)?;
            indices.push(index)?;
        }
        Ok(indices)
    }
}

// Whether a cast begins here, where a parenthesis does.
impl<'a> Cursor<'a> {
    fn is_at_cast(&self) -> bool
        ensures { result ≡ is_type_behind self.now.rest.now }
    {
        match self.rest.get(1) {
            None => false,
            Some(token) => match token.word {
                Word::Key(key) => plain_type(key).is_some(),
                _ => false,
            },
        }
    }
}

fn join(alloc: Global, op: Binary, left: Expr, right: Expr) -> Result<ExprKind, Memory>
    ensures { IfOk result (λ kind. kind ≡ expr.Binary op left right) }
{
    Ok(ExprKind::Binary(op, Boxed::new(alloc, left)?, Boxed::new(alloc, right)?))
}

fn choose(alloc: Global, cond: Expr, yes: Expr, no: Expr) -> Result<ExprKind, Memory>
    ensures { IfOk result (λ kind. kind ≡ expr.Choose cond yes no) }
{
    Ok(ExprKind::Choose(
        Boxed::new(alloc, cond)?,
        Boxed::new(alloc, yes)?,
        Boxed::new(alloc, no)?,
    ))
}
