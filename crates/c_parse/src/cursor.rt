//! A place in a list of tokens.
ghost use Rattle.std.specs.Prelude.{◌≡◌, ◌≤◌, ◌∷◌, ◌++◌, ◌+◌, List, [], false, Some, None, IfOk, IfErr, IfSome, IfNone, IsTrue, ◌↔◌};
ghost use Rattle.c_ast.specs.declared.token.Token.{Token};
ghost use Rattle.c_ast.specs.declared.token.Word.TheVariants as word;
ghost use Rattle.c_ast.specs.Derives.{marked, keyed, named, numbered, place_of};
ghost use Rattle.c_parse.specs.Reads.{is_else, mark_at, key_at, Operates, Signs, Assigns, Steps, Numbered};
ghost use Rattle.c_parse.specs.Tables.{sign_of, assigning_of, step_of};
ghost use Rattle.c_parse.specs.Stops.{IsLooserAt, Refuses, is_name, is_number, meaning, meaning_at, is_name_at, is_number_at, stop_at};
ghost use Rattle.c_parse.specs.declared.refusal.Stop.TheVariants as stop;

use crate::operators::{assigning_of, operator_of, sign_of, step_of};
use crate::refusal::Stop;
use c_ast::{Binary, Key, Mark, Name, Span, Token, Unary, Word};
use std::alloc::Global;

/// The tokens that are left.
#[derive(Drop)]
pub struct Cursor<'a> {
    pub alloc: Global,
    pub rest: &'a [Token],
}

/// The place of the tokens from one place to another.
pub fn place(from: &[Token], rest: &[Token]) -> Span
    ensures { (used : List Token) → from.now ≡ used ++ rest.now → result ≡ place_of used }
{
    let (used, _) = from.split_at(from.len() - rest.len().min(from.len()));
    match (used.first(), used.last()) {
        (Some(first), Some(last)) => Span {
            start: first.span.start,
            end: last.span.end,
            line: first.span.line,
            column: first.span.column,
        },
        _ => Span {
            start: 0,
            end: 0,
            line: 0,
            column: 0,
        },
    }
}

/// The depth that is left in a construct that begins at a place.
pub fn deeper(depth: u32, at: Span) -> Result<u32, Stop>
    ensures one_less { IfOk result (λ d. d + 1 ≡ depth) }
    ensures none_left { IfErr result (λ _. depth ≡ 0) }
    ensures place { IfErr result (λ e. e ≡ stop.TooDeep at) }
{
    if depth == 0 {
        return Err(Stop::TooDeep { span: at });
    }
    Ok(depth - 1)
}

impl<'a> Cursor<'a> {
    /// The refusal at the next token.
    pub fn refusal(&self) -> Stop
        ensures { result ≡ stop_at self.now.rest.now }
    {
        match self.rest.first() {
            None => Stop::EndOfText,
            Some(token) => Stop::Unexpected { span: token.span },
        }
    }

    /// Goes past one token.
    pub fn next(&mut self) -> Result<&'a Token, Stop>
        ensures read { IfOk result (λ t. self.old.rest.now ≡ t.now ∷ self.new.rest.now) }
        ensures none_left { IfErr result (λ _. self.old.rest.now ≡ []) }
        ensures ended { IfErr result (λ e. e ≡ stop.EndOfText) }
    {
        match self.rest.split_first() {
            None => Err(Stop::EndOfText),
            Some((token, rest)) => {
                self.rest = rest;
                Ok(token)
            }
        }
    }

    /// Whether a name comes next.
    pub fn is_at_name(&self) -> bool
        ensures { result ≡ is_name_at self.now.rest.now }
    {
        match self.rest.first() {
            None => false,
            Some(token) => matches!(token.word, Word::Name(_)),
        }
    }

    /// Whether a number comes next.
    pub fn is_at_number(&self) -> bool
        ensures { result ≡ is_number_at self.now.rest.now }
    {
        match self.rest.first() {
            None => false,
            Some(token) => matches!(token.word, Word::Number { .. }),
        }
    }

    /// The mark that comes next, if one does.
    pub fn next_mark(&self) -> Option<Mark>
        ensures { result ≡ mark_at self.now.rest.now }
    {
        match self.rest.first() {
            None => None,
            Some(token) => match token.word {
                Word::Mark(mark) => Some(mark),
                _ => None,
            },
        }
    }

    /// The reserved word that comes next, if one does.
    pub fn next_key(&self) -> Option<Key>
        ensures { result ≡ key_at self.now.rest.now }
    {
        match self.rest.first() {
            None => None,
            Some(token) => match token.word {
                Word::Key(key) => Some(key),
                _ => None,
            },
        }
    }

    /// Whether this mark comes next.
    pub fn is_at(&self, mark: Mark) -> bool
        ensures { IsTrue result ↔ (mark_at self.now.rest.now ≡ Some mark) }
    {
        self.next_mark() == Some(mark)
    }

    /// Whether an `else` comes next.
    pub fn is_at_else(&self) -> bool
        ensures { result ≡ is_else self.now.rest.now }
    {
        matches!(self.next_key(), Some(Key::Else))
    }

    /// Goes past this mark, if it comes next.
    pub fn take(&mut self, mark: Mark) -> Option<Span>
        ensures some { IfSome result (λ s. self.old.rest.now ≡ marked mark s ∷ self.new.rest.now) }
        ensures none { IfNone result (self.new.rest.now ≡ self.old.rest.now) }
        ensures other { IfNone result (mark_at self.old.rest.now ≡ Some mark → ⊥) }
    {
        let (token, rest) = self.rest.split_first()?;
        let Word::Mark(m) = token.word else {
            return None;
        };
        if m != mark {
            return None;
        }
        self.rest = rest;
        Some(token.span)
    }

    /// Goes past this reserved word, if it comes next.
    pub fn take_key(&mut self, key: Key) -> Option<Span>
        ensures some { IfSome result (λ s. self.old.rest.now ≡ keyed key s ∷ self.new.rest.now) }
        ensures none { IfNone result (self.new.rest.now ≡ self.old.rest.now) }
        ensures other { IfNone result (key_at self.old.rest.now ≡ Some key → ⊥) }
    {
        let (token, rest) = self.rest.split_first()?;
        let Word::Key(k) = token.word else {
            return None;
        };
        if k != key {
            return None;
        }
        self.rest = rest;
        Some(token.span)
    }

    /// Goes past this mark.
    pub fn mark(&mut self, mark: Mark) -> Result<Span, Stop>
        ensures read { IfOk result (λ s. self.old.rest.now ≡ marked mark s ∷ self.new.rest.now) }
        ensures refused { IfErr result (λ e. Refuses (λ w. w ≡ word.Mark mark
            → ⊥) self.old.rest.now e) }
    {
        match self.take(mark) {
            Some(at) => Ok(at),
            None => Err(self.refusal()),
        }
    }

    /// Goes past this reserved word.
    pub fn key(&mut self, key: Key) -> Result<Span, Stop>
        ensures read { IfOk result (λ s. self.old.rest.now ≡ keyed key s ∷ self.new.rest.now) }
        ensures refused { IfErr result (λ e. Refuses (λ w. w ≡ word.Key key
            → ⊥) self.old.rest.now e) }
    {
        match self.take_key(key) {
            Some(at) => Ok(at),
            None => Err(self.refusal()),
        }
    }

    /// Goes past a name; also its place.
    pub fn name(&mut self) -> Result<(Name, Span), Stop>
        ensures read { IfOk result (λ n. self.old.rest.now ≡ named n.0 n.1 ∷ self.new.rest.now) }
        ensures refused { IfErr result (λ e. Refuses (λ w. is_name w ≡ false) self.old.rest.now e) }
    {
        let token = self.next()?;
        match &token.word {
            Word::Name(name) => Ok((name.copy()?, token.span)),
            _ => Err(Stop::Unexpected { span: token.span }),
        }
    }

    /// Goes past a number; its value.
    pub fn number(&mut self) -> Result<u64, Stop>
        ensures read { IfOk result (λ n. Numbered n self.old.rest.now self.new.rest.now) }
        ensures refused { IfErr result (λ e. Refuses (λ w. is_number w ≡ false)
            self.old.rest.now e) }
    {
        let token = self.next()?;
        match token.word {
            Word::Number { value, .. } => Ok(value),
            _ => Err(Stop::Unexpected { span: token.span }),
        }
    }

    /// Goes past a binary operator of a level or a tighter one, if one comes next; also its level.
    #[tactic(auto, using(crate::proofs::Rules::operates, crate::proofs::Climbing::known_level))]
    pub fn operator(&mut self, level: u32) -> Option<(Binary, u32)>
        ensures some { IfSome result (λ o. Operates o.0 o.1 self.old.rest.now self.new.rest.now) }
        ensures tight { IfSome result (λ o. level ≤ o.1) }
        ensures known { IfSome result (λ o. o.1 ≤ 10) }
        ensures none { IfNone result (self.new.rest.now ≡ self.old.rest.now) }
        ensures other { IfNone result (IsLooserAt level self.old.rest.now) }
    {
        let (token, rest) = self.rest.split_first()?;
        let Word::Mark(mark) = token.word else {
            return None;
        };
        let (op, tier) = operator_of(mark)?;
        if tier < level {
            return None;
        }
        self.rest = rest;
        Some((op, tier))
    }

    /// Goes past a unary operator; also its place.
    pub fn sign(&mut self) -> Result<(Unary, Span), Stop>
        ensures read { IfOk result (λ s. Signs s.0 s.1 self.old.rest.now self.new.rest.now) }
        ensures refused { IfErr result (λ e. Refuses (λ w. meaning sign_of w ≡ None)
            self.old.rest.now e) }
    {
        let token = self.next()?;
        let Word::Mark(mark) = token.word else {
            return Err(Stop::Unexpected { span: token.span });
        };
        match sign_of(mark) {
            Some(op) => Ok((op, token.span)),
            None => Err(Stop::Unexpected { span: token.span }),
        }
    }

    /// Goes past the mark of an assignment, if one comes next.
    #[tactic(auto, using(crate::proofs::Rules::assigns))]
    pub fn assigning(&mut self) -> Option<Option<Binary>>
        ensures some { IfSome result (λ op. Assigns op self.old.rest.now self.new.rest.now) }
        ensures none { IfNone result (self.new.rest.now ≡ self.old.rest.now) }
        ensures other { IfNone result (meaning_at assigning_of self.old.rest.now ≡ None) }
    {
        let (token, rest) = self.rest.split_first()?;
        let Word::Mark(mark) = token.word else {
            return None;
        };
        let op = assigning_of(mark)?;
        self.rest = rest;
        Some(op)
    }

    /// Goes past the mark of a step; whether it goes up.
    pub fn step(&mut self) -> Result<bool, Stop>
        ensures read { IfOk result (λ up. Steps up self.old.rest.now self.new.rest.now) }
        ensures refused { IfErr result (λ e. Refuses (λ w. meaning step_of w ≡ None)
            self.old.rest.now e) }
    {
        let token = self.next()?;
        let Word::Mark(mark) = token.word else {
            return Err(Stop::Unexpected { span: token.span });
        };
        match step_of(mark) {
            Some(up) => Ok(up),
            None => Err(Stop::Unexpected { span: token.span }),
        }
    }
}
