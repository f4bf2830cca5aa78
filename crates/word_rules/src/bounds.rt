//! The greatest value that a result can have, where those of the operands are known.
ghost use Rattle.word_rules.specs.Bounds.{BoundedResults1, BoundedResults2, BoundedResultsBy, BoundsAreBelowWidth1, BoundsAreBelowWidth2, BoundsAreBelowWidthBy};

/// A result is no greater than what is computed from the greatest values of the operands, of which the second may be a constant.
pub fn results_are_bounded()
    ensures one { BoundedResults1 }
    ensures two { BoundedResults2 }
    ensures by { BoundedResultsBy }
{}

/// What is computed so is a pattern of the result's width.
pub fn bounds_are_patterns()
    ensures one { BoundsAreBelowWidth1 }
    ensures two { BoundsAreBelowWidth2 }
    ensures by { BoundsAreBelowWidthBy }
{}
