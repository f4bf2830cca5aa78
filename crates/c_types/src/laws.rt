//! A law of the two checkers, as the contract of a function that does nothing.
ghost use Rattle.c_types.specs.Laws.{AloneKeepsRules, AloneIsRefused};

/// A tree, also one with calls, keeps the rules and is refused exactly as the program without
/// helpers whose kernel it is: the checker of trees answers as the checker of programs.
pub fn trees_are_checked_as_programs()
    ensures kept { AloneKeepsRules }
    ensures refused { AloneIsRefused }
{}
