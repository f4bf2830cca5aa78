//! What a name stands for.

/// A scalar, or an array with so many dimensions.
#[derive(Clone, Copy, PartialEq, Eq)]
pub(crate) enum Sort {
    Scalar,
    Array(usize),
    /// A helper with so many parameters.
    Helper(usize),
}
