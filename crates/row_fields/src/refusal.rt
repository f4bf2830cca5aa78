use std::alloc::{AllocError, AllocFailed};
use thiserror::Error;

/// Why a field is refused.
#[derive(Clone, Copy, Debug, PartialEq, Eq, Error)]
pub enum FieldRefusal {
    /// A text of more bytes than it may have.
    #[error("a text that is too long")]
    TooLong,
    /// A word that is no number of its type.
    #[error("a number was wanted")]
    NoNumber,
    /// Memory ran out.
    #[error("want of memory")]
    Memory,
}

impl From<AllocError> for FieldRefusal {
    ghost use Rattle.std.specs.Prelude.{◌≡◌};
    ghost use Rattle.row_fields.specs.declared.refusal.FieldRefusal.TheVariants as refusal;

    ghost from_gives = { λ _ e. e ≡ refusal.Memory };

    fn from(_: AllocError) -> FieldRefusal {
        FieldRefusal::Memory
    }
}

impl<T: Drop> From<AllocFailed<T>> for FieldRefusal {
    ghost use Rattle.std.specs.Prelude.{◌≡◌};
    ghost use Rattle.row_fields.specs.declared.refusal.FieldRefusal.TheVariants as refusal;

    ghost from_gives = { λ _ e. e ≡ refusal.Memory };

    fn from(_: AllocFailed<T>) -> FieldRefusal {
        FieldRefusal::Memory
    }
}
