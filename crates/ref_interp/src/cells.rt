ghost use Rattle.std.specs.Prelude.{◌≡◌, true, false};
ghost use Rattle.ref_interp.specs.Answers.{plus_turns};

use el_base::{List, Span};

/// What variables and arrays hold, as patterns; `None` is an unset variable.
#[derive(Drop)]
pub(crate) struct Cells {
    pub(crate) vars: List<Option<u64>>,
    pub(crate) arrays: List<List<u64>>,
}

/// What the expressions of a statement came to so far: whether one was undefined, and where; and the turns that they used,
/// or the greatest number of 64 bits where they are more.
#[derive(Clone, Copy)]
pub(crate) struct Trace {
    pub(crate) failed: bool,
    pub(crate) at: Span,
    pub(crate) turns: u64,
}

impl Trace {
    /// Nothing is undefined, and no turn is used.
    pub(crate) fn start(&mut self)
        ensures clear { self.new.failed ≡ false }
        ensures turns { self.new.turns ≡ 0 }
    {
        self.failed = false;
        self.turns = 0;
    }

    /// An operation is undefined.
    pub(crate) fn fail(&mut self, at: Span)
        ensures failed { self.new.failed ≡ true }
        ensures place { self.new.at ≡ at }
    {
        self.failed = true;
        self.at = at;
    }

    /// One turn more.
    pub(crate) fn add_turn(&mut self)
        ensures turns { self.new.turns ≡ plus_turns self.old.turns 1 }
        ensures same { self.new.failed ≡ self.old.failed }
    {
        self.turns = self.turns.saturating_add(1);
    }
}
