ghost use Rattle.std.specs.Prelude.{MatchOption};
ghost use Rattle.net_text.specs.Texts.{version_number};
ghost use Rattle.net_text.specs.Fits.{Always};
ghost use Rattle.net_text.specs.Reads.{Reads};

/// A version of the net text: the first writes no marks of queues.
#[derive(Clone, Copy)]
pub(crate) enum Version {
    One,
    Two,
}

impl Version {
    /// The version of that number.
    pub(crate) fn of_number(number: u32) -> Option<Version>
        ensures { Reads Always version_number number result }
    {
        match number {
            1 => Some(Version::One),
            2 => Some(Version::Two),
            _ => None,
        }
    }
}
