use c_meaning::Profile;

/// How many turns a run may take where no number is asked for.
pub const DEFAULT_TURNS: u64 = 8_000_000;

/// What a run is asked for.
#[derive(Clone, Copy, PartialEq, Eq)]
pub struct InterpretOptions {
    /// What a signed result out of range is.
    pub profile: Profile,
    /// How many turns it may take.
    pub turns: u64,
    /// Whether the number of turns that it took is written after the results.
    pub count: bool,
}
