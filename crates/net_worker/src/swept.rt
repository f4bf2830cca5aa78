/// What one sweep did.
#[derive(Clone, Copy, Debug, PartialEq, Eq)]
pub enum Swept {
    /// It added so many entries, and its log has no firing of the exit.
    Fired(u32),
    /// It added no entry, and each firing was held back; its log has no firing of the exit.
    Idle,
    /// Its log has a firing of the exit.
    Exited,
    /// The log holds its share, or no stamp is left.
    Full,
}
