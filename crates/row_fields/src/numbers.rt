//! Numbers as fields.
ghost use Rattle.std.specs.Prelude.{Ok, Err, IfOk, IfErr, List, ℕ};
ghost use Rattle.row_fields.specs.Numbers.{AreValues, IsValueRefusal};

use crate::refusal::FieldRefusal;
use std::alloc::Global;
use std::str::FromStr;

/// The values of a type that words spell, one a word.
///
/// # Errors
///
/// `NoNumber` where a word spells none, and `Memory` where memory ran out.
#[tactic(auto, using(crate::proofs::Values::values_more))]
pub fn numbers_of<T: FromStr + Drop>(alloc: Global, words: &[&str]) -> Result<Vec<T>, FieldRefusal>
where
    T::Err: Drop,
    ensures ok { IfOk result (λ values.
        AreValues (λ word value. T.from_str_gives word (Ok value)) words.now values.items) }
    ensures err { IfErr result
        (IsValueRefusal (λ word error. T.from_str_gives word (Err error)) words.now) }
{
    let mut values = Vec::with_capacity(alloc, words.len())?;
    for word in words {
        match word.parse::<T>() {
            Ok(value) => values.push(value)?,
            Err(_) => return Err(FieldRefusal::NoNumber),
        }
    }
    Ok(values)
}
