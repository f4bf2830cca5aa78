//! How refusals are printed.
use std::fmt;

/// What is printed of a refusal: its number, a space and its word, as `1 BadByte`; `want of memory` where it has no number.
#[derive(Clone, Copy)]
pub struct Label {
    pub number: Option<u32>,
    pub word: &'static str,
}

impl fmt::Display for Label {
    ghost use Rattle.std.specs.Prelude.{Some};
    ghost use Rattle.el_base.specs.Labels.{printed};

    ghost output = { λ label. Some (printed label.number label.word.now) };

    fn fmt<W: fmt::Write>(&self, f: &mut fmt::Formatter<W>) -> fmt::Result {
        let word = self.word;
        match self.number {
            Some(number) => write!(f, "{number} {word}"),
            None => f.write_str("want of memory"),
        }
    }
}
