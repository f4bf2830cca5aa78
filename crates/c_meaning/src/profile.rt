/// What a signed result out of range is (ISO/IEC 9899:1999 6.5p5).
#[derive(Clone, Copy, PartialEq, Eq)]
pub enum Profile {
    /// Undefined, as in C.
    Plain,
    /// Of `+ - *`, unary `-` and `<<` the number in range that is congruent to it modulo 2 to the width; all else is as under `Plain`.
    Wrap,
}
