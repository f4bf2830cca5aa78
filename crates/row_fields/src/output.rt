//! What is written for rows.
ghost use Rattle.std.specs.Prelude.{◌≡◌, [], Some, None, IfOk, IfErr, IfSome};
ghost use Rattle.row_fields.specs.declared.refusal.FieldRefusal.TheVariants as refusal;
ghost use Rattle.row_fields.specs.Outputs.{AppendsText, output_text};

use crate::refusal::FieldRefusal;
use itoa::{Buffer, Integer};
use std::alloc::Global;
use std::fmt::{Debug, Display};

/// What is written for rows, in memory. Where memory runs out, what is written from then on is lost, and `finish` says so:
/// so no call before it has an error.
#[derive(Drop)]
pub struct Output {
    alloc: Global,
    bytes: Vec<u8>,
    is_cut: bool,
}

impl Output {
    /// An output to which nothing is written.
    pub fn new(alloc: Global) -> Output
        ensures { output_text result ≡ Some [] }
    {
        Output {
            alloc,
            bytes: Vec::new(alloc),
            is_cut: false,
        }
    }

    /// Writes bytes.
    pub fn bytes(&mut self, bytes: &[u8])
        ensures { AppendsText bytes.now self.old self.new }
    {
        if self.bytes.extend_from_slice(bytes).is_err() {
            self.is_cut = true;
        }
    }

    /// Writes a text.
    pub fn word(&mut self, word: &str)
        ensures { AppendsText word.now self.old self.new }
    {
        self.bytes(word.as_bytes());
    }

    /// Writes a number in decimal digits.
    pub fn number<I: Integer>(&mut self, number: I)
        ensures { AppendsText (I.text number) self.old self.new }
    {
        let mut digits = Buffer::new();
        self.bytes(digits.format(number).as_bytes());
    }

    /// Writes a value as `{}` does.
    pub fn show<T: Display>(&mut self, value: &T)
        ensures { IfSome (T.output value.now) (λ shown. AppendsText shown self.old self.new) }
    {
        match value.to_string(self.alloc) {
            Ok(text) => self.bytes(text.as_bytes()),
            Err(_) => self.is_cut = true,
        }
    }

    /// Writes a value as `{:?}` does.
    pub fn debug<T: Debug>(&mut self, value: &T)
        ensures { IfSome (T.debug_output value.now) (λ shown. AppendsText shown self.old self.new) }
    {
        match format!(in self.alloc; "{value:?}") {
            Ok(text) => self.bytes(text.as_bytes()),
            Err(_) => self.is_cut = true,
        }
    }

    /// All that was written.
    ///
    /// # Errors
    ///
    /// `Memory` where some of it was lost, and no other.
    pub fn finish(self) -> Result<Vec<u8>, FieldRefusal>
        ensures ok { IfOk result (λ bytes. output_text self ≡ Some bytes.items) }
        ensures err { IfErr result (λ refused. refused ≡ refusal.Memory) }
        ensures cut { IfErr result (λ _. output_text self ≡ None) }
    {
        if self.is_cut {
            return Err(FieldRefusal::Memory);
        }
        Ok(self.bytes)
    }
}
