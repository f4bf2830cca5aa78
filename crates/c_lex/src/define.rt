//! The numbers that names stand for.
ghost use Rattle.std.specs.Prelude.{◌≡◌, [], ◌∷◌, ◌++◌, true, None, option_map, option_copied, IfOk, OnOk};
ghost use Rattle.el_base.specs.Words.{is_identifier};
ghost use Rattle.c_ast.specs.Tokens.{number_for, name_or_number, meaning_of};
ghost use Rattle.c_lex.specs.Turns.{numeral_of, defines_of};

use crate::piece::key_of;
use c_ast::Word;
use el_base::{Memory, Name, Ty};
use indexmap::IndexMap;
use std::alloc::Global;

/// A number that stands for a name, with its spelling.
#[derive(Drop)]
pub struct Numeral {
    pub spelling: Vec<u8>,
    pub value: u64,
    pub ty: Ty,
}

/// Names with the numbers that they stand for, in the order of their definitions.
#[derive(Drop)]
pub struct Defines {
    numbers: IndexMap<Name, Numeral>,
}

impl Defines {
    /// No names. Takes no memory.
    pub fn new(alloc: Global) -> Defines
        ensures { defines_of result ≡ [] }
    {
        Defines {
            numbers: IndexMap::new(alloc),
        }
    }

    /// The number that a name stands for.
    pub fn number_for(&self, name: &Name) -> Option<&Numeral>
        ensures { option_map numeral_of (option_copied result)
            ≡ number_for (defines_of self.now) name.now }
    {
        self.numbers.get(name)
    }

    /// Lets a new name stand for a number.
    ///
    /// # Errors
    ///
    /// [`Memory`] where memory is wanting.
    pub fn add(&mut self, name: Name, number: Numeral) -> Result<(), Memory>
        requires { number_for (defines_of self.old) name ≡ None }
        ensures { OnOk result
            (defines_of self.new ≡ defines_of self.old ++ (name, numeral_of number) ∷ []) }
    {
        self.numbers.insert(name, number)?;
        Ok(())
    }

    // A name, or the number that it stands for.
    fn name_or_number(&self, name: Name) -> Word
        ensures { result ≡ name_or_number name (number_for (defines_of self.now) name) }
    {
        match self.number_for(&name) {
            Some(number) => Word::Number {
                value: number.value,
                ty: number.ty,
            },
            None => Word::Name(name),
        }
    }

    /// What an identifier is: a reserved word, a number, or a name.
    ///
    /// # Errors
    ///
    /// [`Memory`] where memory is wanting.
    #[tactic(auto, unfolding(c_ast::specs::Tokens::meaning_of))]
    pub fn meaning_of(&self, alloc: Global, word: &[u8]) -> Result<Word, Memory>
        requires { is_identifier word.now ≡ true }
        ensures { IfOk result (λ w. w ≡ meaning_of (defines_of self.now) word.now) }
    {
        if let Some(key) = key_of(word) {
            return Ok(Word::Key(key));
        }
        let Some(name) = Name::new(alloc, word)? else {
            unreachable!()
        };
        Ok(self.name_or_number(name))
    }
}
