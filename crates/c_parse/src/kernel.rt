//! Kernels.
#![tactic(auto, using(crate::proofs::NoResults::no_result, crate::proofs::NoResults::no_verdict))]

ghost use Rattle.std.specs.Prelude.{◌≡◌, ◌≤◌, ℕ, List, [], ◌∷◌, All, IfOk, IfErr};
ghost use Rattle.el_base.specs.Limits.{max_nesting, max_nodes};
ghost use Rattle.c_ast.specs.declared.token.Token.{Token};
ghost use Rattle.c_ast.specs.declared.tree.Tree.{Tree};
ghost use Rattle.c_ast.specs.Constants.{NumberFits, NumbersFit};
ghost use Rattle.c_ast.specs.Derives.{DerivesResult, Derives};
ghost use Rattle.c_ast.specs.Nodes.{tree_nodes};
ghost use Rattle.c_parse.specs.Reads.{Reads};
ghost use Rattle.c_parse.specs.Symbols.{Symbol, kernel_symbols};
ghost use Rattle.c_parse.specs.Traces.{Verdict, judge};
ghost use Rattle.c_parse.specs.Verdicts.{Tells, Judges};
ghost use Rattle.c_parse.specs.Refusals.{refusal_of, IsLarge, Says, IsOnly};

use crate::cursor::Cursor;
use crate::refusal::{ParseRefusal, Stop};
use c_ast::{Key, Mark, Span, Token, Tree, Ty, nodes};
use el_base::{MAX_NESTING, MAX_NODES};
use std::alloc::Global;

/// The syntax tree of a kernel text (ISO/IEC 9899:1999 6.5, 6.7, 6.8, 6.9.1) whose tokens these are; `end` is the
/// place after the text's last byte.
///
/// At none of its tokens more than [`MAX_NESTING`] constructs nest, and it has at most [`MAX_NODES`] nodes. Where the
/// numbers of the tokens lie in the ranges of their types, so do those of the tree. Linear in the number of tokens.
///
/// # Errors
///
/// `Unexpected` at the first token with which no kernel text goes on; `EndOfText` where the tokens begin a kernel text
/// and are none; `TooDeep` at the first token that belongs to more constructs; `TooLarge` where the tokens are a
/// kernel text with more nodes. `Memory` where memory ran out.
pub fn parse(alloc: Global, tokens: &[Token], end: Span) -> Result<Tree, ParseRefusal>
    ensures says { Says tokens.now end result }
    ensures only { IsOnly tokens.now end result }
    ensures fits { All NumberFits tokens.now → IfOk result NumbersFit }
{
    let mut cursor = Cursor {
        alloc,
        rest: tokens,
    };
    match cursor.whole() {
        Ok(tree) => limited(tree),
        Err(stop) => Err(refused(stop, end)),
    }
}

/// A list of tokens has one tree at most, whatever its size.
pub fn tokens_have_one_tree()
    ensures { (tokens : List Token) (a b : Tree) → Derives tokens a → Derives tokens b → a ≡ b }
{}

/// The tree of tokens whose numbers lie in the ranges of their types has numbers in the ranges of their types.
#[tactic(auto, using(crate::proofs::Fitting::tree_fits))]
pub fn trees_have_the_numbers_of_their_tokens()
    ensures { (tokens : List Token) (tree : Tree) → Derives tokens tree → All NumberFits tokens
        → NumbersFit tree }
{}

// A tree that is not too large.
fn limited(tree: Tree) -> Result<Tree, ParseRefusal>
    ensures same { IfOk result (λ t. t ≡ tree) }
    ensures small { IfOk result (λ t. tree_nodes t ≤ max_nodes) }
    ensures large { IfErr result (λ e. IsLarge tree e) }
{
    let count = nodes(&tree);
    if count > MAX_NODES {
        return Err(ParseRefusal::TooLarge {
            span: tree.at,
            nodes: count,
        });
    }
    Ok(tree)
}

/// The refusal of tokens that stop, which end at a place.
pub fn refused(stop: Stop, end: Span) -> ParseRefusal
    ensures { result ≡ refusal_of end stop }
{
    match stop {
        Stop::Unexpected { span } => ParseRefusal::Unexpected { span },
        Stop::EndOfText => ParseRefusal::EndOfText { span: end },
        Stop::TooDeep { span } => ParseRefusal::TooDeep { span },
        Stop::Memory => ParseRefusal::Memory,
    }
}

impl<'a> Cursor<'a> {
    // A kernel, after which nothing comes.
    fn whole(&mut self) -> Result<Tree, Stop>
        ensures derived { IfOk result (λ tree. Derives self.old.rest.now tree) }
        ensures whole { IfOk result (λ _. judge kernel_symbols self.old.rest.now ≡ Verdict.whole) }
        ensures told { IfErr result (λ e. Tells e (judge kernel_symbols self.old.rest.now)) }
    {
        let tree = self.kernel()?;
        if !self.rest.is_empty() {
            return Err(self.refusal());
        }
        Ok(tree)
    }

    /// A kernel.
    pub fn kernel(&mut self) -> Result<Tree, Stop>
        ensures derived { IfOk result (λ tree. Reads (λ ts. Derives ts tree)
            self.old.rest.now self.new.rest.now) }
        ensures judged { Judges kernel_symbols [] self.old.rest.now self.new.rest.now result }
    {
        let result = self.result()?;
        let (name, at) = self.name()?;
        self.mark(Mark::Open)?;
        let params = self.params()?;
        self.mark(Mark::Close)?;
        let body = self.braced(MAX_NESTING)?;
        Ok(Tree {
            name,
            at,
            result,
            params,
            body,
        })
    }

    // The type of the result, or `void`.
    fn result(&mut self) -> Result<Option<Ty>, Stop>
        ensures derived { IfOk result (λ r. Reads (λ ts. DerivesResult ts r)
            self.old.rest.now self.new.rest.now) }
        ensures judged { (n : ℕ) → n ≤ max_nesting
            → Judges (Symbol.result n ∷ []) [] self.old.rest.now self.new.rest.now result }
    {
        if let Some(_) = self.take_key(Key::Void) {
            return Ok(None);
        }
        let ty = self.ty()?;
        Ok(Some(ty))
    }
}
