//! Programs: helpers before a kernel.
#![tactic(auto, using(crate::proofs::NoResults::no_result, crate::proofs::NoResults::no_verdict))]

ghost use Rattle.std.specs.Prelude.{◌≡◌, ◌<◌, ◌≤◌, ◌↔◌, List, [], ◌∷◌, ◌++◌, length, All, Some, Result, IfOk, IfErr, IsTrue};
ghost use Rattle.el_base.specs.Limits.{max_nodes};
ghost use Rattle.el_base.specs.declared.span.Span.{Span};
ghost use Rattle.c_ast.specs.declared.token.Token.{Token};
ghost use Rattle.c_ast.specs.declared.key.Key.TheVariants as key;
ghost use Rattle.c_ast.specs.declared.tree.Program.{Program};
ghost use Rattle.c_ast.specs.Constants.{NumberFits};
ghost use Rattle.c_ast.specs.Derives.{DerivesItems};
ghost use Rattle.c_ast.specs.OfTexts.{IsProgramOfText};
ghost use Rattle.c_ast.specs.Programs.{program_nodes};
ghost use Rattle.c_ast.specs.ProgramTexts.{DerivesHelper, DerivesHelpers, DerivesProgram};
ghost use Rattle.c_parse.specs.declared.bar.Bar.TheVariants as bar;
ghost use Rattle.c_parse.specs.declared.refusal.ParseRefusal.{ParseRefusal};
ghost use Rattle.c_parse.specs.Bars.{IsFreeOf, is_free_at, BeginsBarred, IsParted, JudgesWith};
ghost use Rattle.c_parse.specs.Reads.{Reads, Adds, ClosedScalars, ClosedParams, PlainItems, key_at};
ghost use Rattle.c_parse.specs.Stops.{stop_before};
ghost use Rattle.c_parse.specs.Symbols.{Symbol, Fixed, program_symbols};
ghost use Rattle.c_parse.specs.Traces.{Verdict, judge};
ghost use Rattle.c_parse.specs.Verdicts.{Tells, Judges};
ghost use Rattle.c_parse.specs.ProgramRefusals.{IsLargeProgram, SaysProgram, IsOnlyProgram};

use crate::bar::Bar;
use crate::cursor::Cursor;
use crate::kernel::refused;
use crate::refusal::{ParseRefusal, Stop};
use c_ast::{Helper, Key, List, Mark, Param, Program, Span, Stmt, Token, nodes_program};
use el_base::{MAX_NESTING, MAX_NODES};
use std::alloc::Global;

/// The syntax tree of a program's text (ISO/IEC 9899:1999 6.5.2.2, 6.9.1), helpers before a kernel, whose tokens
/// these are; `end` is the place after the text's last byte.
///
/// At none of its tokens more than [`MAX_NESTING`] constructs nest, and it has at most [`MAX_NODES`] nodes. Helpers
/// have scalars alone as parameters and return at their end alone. Where the numbers of the tokens lie in the ranges
/// of their types, so do those of the program. Linear in the number of tokens.
///
/// # Errors
///
/// `Unexpected` at the first token with which no program's text goes on; `EndOfText` where the tokens begin one and
/// are none; `TooDeep` at the first token that belongs to more constructs; `TooLarge`, with the place of the kernel's
/// name, where the tokens are the text of a program with more nodes. `Memory` where memory ran out.
pub fn parse_program(alloc: Global, tokens: &[Token], end: Span) -> Result<Program, ParseRefusal>
    ensures says { SaysProgram tokens.now end result }
    ensures only { IsOnlyProgram tokens.now end result }
    ensures fits { All NumberFits tokens.now → IfOk result IsProgramOfText }
{
    let mut cursor = Cursor {
        alloc,
        rest: tokens,
    };
    match cursor.whole_program() {
        Ok(program) => limited(program),
        Err(stop) => Err(refused(stop, end)),
    }
}

/// A list of tokens is the text of one program at most, whatever its size.
pub fn tokens_have_one_program()
    ensures { (tokens : List Token) (a b : Program) → DerivesProgram tokens a
        → DerivesProgram tokens b → a ≡ b }
{}

/// The program of tokens whose numbers lie in the ranges of their types is a program of a text: its numbers lie in
/// the ranges of their types, and its helpers have scalars alone and return nothing before their values.
#[tactic(auto, using(crate::proofs::ProgramFitting::program_fits))]
pub fn programs_of_tokens_are_of_texts()
    ensures { (tokens : List Token) (program : Program) → DerivesProgram tokens program
        → All NumberFits tokens → IsProgramOfText program }
{}

/// The tokens of a program have one answer, but for want of memory: no other says what holds of them.
pub fn programs_have_one_answer()
    ensures { (tokens : List Token) (end : Span) (r : Result Program ParseRefusal)
        → SaysProgram tokens end r → IsOnlyProgram tokens end r }
{}

// A program that is not too large.
fn limited(program: Program) -> Result<Program, ParseRefusal>
    ensures same { IfOk result (λ p. p ≡ program) }
    ensures small { IfOk result (λ p. program_nodes p ≤ max_nodes) }
    ensures large { IfErr result (λ e. IsLargeProgram program e) }
{
    let count = nodes_program(&program);
    if count > MAX_NODES {
        return Err(ParseRefusal::TooLarge {
            span: program.kernel.at,
            nodes: count,
        });
    }
    Ok(program)
}

// The stop of tokens by that of those before a barred one; these come behind.
fn stop_before(behind: &[Token], stop: Stop) -> Stop
    ensures { result ≡ stop_before behind.now stop }
{
    match stop {
        Stop::EndOfText => match behind.first() {
            None => Stop::EndOfText,
            Some(token) => Stop::Unexpected { span: token.span },
        },
        Stop::Unexpected { span } => Stop::Unexpected { span },
        Stop::TooDeep { span } => Stop::TooDeep { span },
        Stop::Memory => Stop::Memory,
    }
}

// The tokens before the first that is barred, and the others.
fn parted(tokens: &[Token], bar: Bar) -> (&[Token], &[Token])
    ensures { IsParted bar tokens.now result.0.now result.1.now }
{
    let mut back = tokens;
    'free: while is_free(back, bar) {
        back = back.split_at(1).1;
    }
    tokens.split_at(tokens.len() - back.len())
}

// The tokens behind those that were read from the front of all, where these are left of it.
fn behind<'a>(all: &'a [Token], front: &[Token], left: &[Token]) -> &'a [Token]
    ensures { (used back : List Token) → all.now ≡ front.now ++ back
        → front.now ≡ used ++ left.now → result.now ≡ left.now ++ back }
{
    let used = front.len() - left.len().min(front.len());
    all.split_at(used.min(all.len())).1
}

// Whether a token comes first that is not barred.
fn is_free(tokens: &[Token], bar: Bar) -> bool
    ensures { result ≡ is_free_at bar tokens.now }
{
    match tokens.first() {
        None => false,
        Some(token) => !bar.bars(&token.word),
    }
}

impl<'a> Cursor<'a> {
    // A program, after which nothing comes.
    fn whole_program(&mut self) -> Result<Program, Stop>
        ensures derived { IfOk result (λ p. DerivesProgram self.old.rest.now p) }
        ensures whole { IfOk result (λ _. judge program_symbols self.old.rest.now
            ≡ Verdict.whole) }
        ensures told { IfErr result (λ e. Tells e (judge program_symbols self.old.rest.now)) }
    {
        let helpers = self.helpers()?;
        let kernel = self.kernel()?;
        if !self.rest.is_empty() {
            return Err(self.refusal());
        }
        Ok(Program { helpers, kernel })
    }

    // All helpers that come next.
    fn helpers(&mut self) -> Result<List<Helper>, Stop>
        ensures derived { IfOk result (λ hs. Reads (λ ts. DerivesHelpers ts hs)
            self.old.rest.now self.new.rest.now) }
        ensures judged { Judges program_symbols (Symbol.program ∷ [])
            self.old.rest.now self.new.rest.now result }
        ensures behind { IfOk result (λ _. key_at self.new.rest.now ≡ Some key.Static → ⊥) }
    {
        let mut helpers = List::new(self.alloc);
        'helpers: while self.is_at_static() {
            let helper = self.helper()?;
            helpers.push(helper)?;
        }
        Ok(helpers)
    }

    // Whether a helper comes next.
    fn is_at_static(&self) -> bool
        ensures { IsTrue result ↔ (key_at self.now.rest.now ≡ Some key.Static) }
    {
        matches!(self.next_key(), Some(Key::Static))
    }

    // A helper.
    fn helper(&mut self) -> Result<Helper, Stop>
        ensures derived { IfOk result (λ h. Reads (λ ts. DerivesHelper ts h)
            self.old.rest.now self.new.rest.now) }
        ensures judged { key_at self.old.rest.now ≡ Some key.Static
            → Judges (Symbol.program ∷ []) (Symbol.program ∷ [])
            self.old.rest.now self.new.rest.now result }
    {
        self.key(Key::Static)?;
        let result = self.ty()?;
        let (name, at) = self.name()?;
        self.mark(Mark::Open)?;
        let params = self.scalars()?;
        self.mark(Mark::OpenBrace)?;
        let body = self.plain_items()?;
        self.key(Key::Return)?;
        let value = self.expr(MAX_NESTING - 1)?;
        self.mark(Mark::Semicolon)?;
        self.mark(Mark::CloseBrace)?;
        Ok(Helper {
            name,
            at,
            result,
            params,
            body,
            value,
        })
    }

    // Parameters that are scalars, and the closing parenthesis: read before the first bracket.
    fn scalars(&mut self) -> Result<List<Param>, Stop>
        ensures derived { IfOk result (λ ps. Reads (λ ts. ClosedScalars ts ps)
            self.old.rest.now self.new.rest.now) }
        ensures judged { Judges (Symbol.without bar.Brackets (Symbol.params 1) ∷ []) []
            self.old.rest.now self.new.rest.now result }
    {
        let (front, back) = parted(self.rest, Bar::Brackets);
        let mut part = Cursor {
            alloc: self.alloc,
            rest: front,
        };
        match part.closed_params() {
            Ok(params) => {
                self.rest = behind(self.rest, front, part.rest);
                Ok(params)
            }
            Err(stop) => Err(stop_before(back, stop)),
        }
    }

    // Parameters and the closing parenthesis.
    fn closed_params(&mut self) -> Result<List<Param>, Stop>
        ensures derived { IfOk result (λ ps. Reads (λ ts. ClosedParams ts ps)
            self.old.rest.now self.new.rest.now) }
        ensures judged { Judges (Symbol.params 1 ∷ []) []
            self.old.rest.now self.new.rest.now result }
    {
        let params = self.params()?;
        self.mark(Mark::Close)?;
        Ok(params)
    }

    // An item before these tokens; a stop is that of all tokens.
    fn item_before(&mut self, back: &[Token], body: &mut List<Stmt>) -> Result<(), Stop>
        ensures added { IfOk result (λ _. Adds (λ ts ss. DerivesItems ts ss)
            self.old.rest.now self.new.rest.now body.old body.new) }
        ensures shorter { IfOk result (λ _. length self.new.rest.now < length self.old.rest.now) }
        ensures judged { BeginsBarred bar.Returns back.now
            → All (IsFreeOf bar.Returns) self.old.rest.now → (self.old.rest.now ≡ [] → ⊥)
            → JudgesWith back.now (Symbol.helper_body 1 ∷ []) (Symbol.helper_body 1 ∷ [])
            self.old.rest.now self.new.rest.now result }
    {
        match self.plain_item(body) {
            Ok(()) => Ok(()),
            Err(stop) => Err(stop_before(back, stop)),
        }
    }

    // The declarations and statements of a helper before its `return`.
    fn plain_items(&mut self) -> Result<List<Stmt>, Stop>
        ensures derived { IfOk result (λ ss. Reads (λ ts. PlainItems ts ss)
            self.old.rest.now self.new.rest.now) }
        ensures judged { Judges (Symbol.helper_body 1 ∷ []) (Symbol.helper_body 1 ∷ [])
            self.old.rest.now self.new.rest.now result }
        ensures behind { IfOk result (λ _. BeginsBarred bar.Returns self.new.rest.now) }
    {
        let (front, back) = parted(self.rest, Bar::Returns);
        let mut part = Cursor {
            alloc: self.alloc,
            rest: front,
        };
        let mut body = List::new(self.alloc);
        'items: while !part.rest.is_empty() {
            part.item_before(back, &mut body)?;
        }
        self.rest = back;
        Ok(body)
    }
}
