//! Types.
#![tactic(auto, using(crate::proofs::NoResults::no_result, crate::proofs::NoResults::no_verdict))]

ghost use Rattle.std.specs.Prelude.{◌≡◌, ◌≤◌, ℕ, List, [], ◌∷◌, false, IfOk, IfErr};
ghost use Rattle.el_base.specs.Limits.{max_nesting};
ghost use Rattle.c_ast.specs.Derives.{DerivesType};
ghost use Rattle.c_parse.specs.Reads.{Reads, MaySkip, NamesType};
ghost use Rattle.c_parse.specs.Stops.{Refuses, is_type_at};
ghost use Rattle.c_parse.specs.Symbols.{Symbol, is_type_word};
ghost use Rattle.c_parse.specs.Tables.{plain_type, takes_int};
ghost use Rattle.c_parse.specs.Verdicts.{Judges};

use crate::cursor::Cursor;
use crate::refusal::Stop;
use c_ast::{Key, Ty, Word};

/// The type that one reserved word names by itself.
pub fn plain_type(key: Key) -> Option<Ty>
    ensures { result ≡ plain_type key }
{
    match key {
        Key::Int8 => Some(Ty::I8),
        Key::Int16 => Some(Ty::I16),
        Key::Int32 => Some(Ty::I32),
        Key::Int64 => Some(Ty::I64),
        Key::Uint8 => Some(Ty::U8),
        Key::Uint16 => Some(Ty::U16),
        Key::Uint32 => Some(Ty::U32),
        Key::Uint64 => Some(Ty::U64),
        Key::Int => Some(Ty::I32),
        Key::Signed => Some(Ty::I32),
        Key::Unsigned => Some(Ty::U32),
        _ => None,
    }
}

// Whether an `int` may follow the first word of a type.
fn takes_int(key: Key) -> bool
    ensures { result ≡ takes_int key }
{
    matches!(key, Key::Signed | Key::Unsigned)
}

impl<'a> Cursor<'a> {
    /// Whether a type comes next.
    pub fn is_at_type(&self) -> bool
        ensures { result ≡ is_type_at self.now.rest.now }
    {
        match self.next_key() {
            None => false,
            Some(key) => plain_type(key).is_some(),
        }
    }

    /// A type.
    pub fn ty(&mut self) -> Result<Ty, Stop>
        ensures derived { IfOk result (λ t. Reads (λ ts. DerivesType ts t)
            self.old.rest.now self.new.rest.now) }
        ensures judged { (n : ℕ) → n ≤ max_nesting
            → Judges (Symbol.a_type n ∷ []) [] self.old.rest.now self.new.rest.now result }
    {
        let (key, ty) = self.type_word()?;
        if !takes_int(key) {
            return Ok(ty);
        }
        self.skip_int();
        Ok(ty)
    }

    // Goes past the first word of a type; also the type that it names by itself.
    fn type_word(&mut self) -> Result<(Key, Ty), Stop>
        ensures read { IfOk result (λ w. NamesType w.0 w.1 self.old.rest.now self.new.rest.now) }
        ensures refused { IfErr result (λ e. Refuses (λ w. is_type_word w ≡ false)
            self.old.rest.now e) }
    {
        let token = self.next()?;
        let Word::Key(key) = token.word else {
            return Err(Stop::Unexpected { span: token.span });
        };
        match plain_type(key) {
            Some(ty) => Ok((key, ty)),
            None => Err(Stop::Unexpected { span: token.span }),
        }
    }

    // Goes past an `int`, if one comes next.
    fn skip_int(&mut self)
        ensures { MaySkip self.old.rest.now self.new.rest.now }
    {
        self.take_key(Key::Int);
    }
}
