//! Laws of programs with calls: worked programs, and that a program ends where its tree without calls does.
ghost use Rattle.c_calls.specs.Counts.{InlinedHasNodes};
ghost use Rattle.c_calls.specs.Laws.{CallsAreInlined, InlinedIsLawful};
ghost use Rattle.c_calls.specs.Texts.{TypedExists, TypedIsLawful, TypedIsOne};
ghost use Rattle.c_calls.specs.Worked.{CallInASide, EndsWithFifteen, EndsWithZero, HasItsNodes, HasTwoBlocks, LocalIsUnset, OutOfTurns, ReadBehindItsBlock, TwiceIsLawful};

/// Worked programs: calls one inside the other, their blocks and how many nodes they have, a local that a second call has not set, and the turns of a call.
pub fn calls_are_worked()
    ensures nested { EndsWithFifteen }
    ensures blocks { HasTwoBlocks }
    ensures nodes { HasItsNodes }
    ensures local { LocalIsUnset }
    ensures turns { EndsWithZero }
    ensures bound { OutOfTurns }
{}

/// A program that is lawful; a call where none may stand, and a variable that is read behind the block that declares it.
pub fn programs_are_lawful()
    ensures lawful { TwiceIsLawful }
    ensures side { CallInASide }
    ensures scope { ReadBehindItsBlock }
{}

/// The typed program of a program that was read from a text and keeps the rules is lawful: each variable is declared in one place, and is read and assigned in its scope alone.
pub fn typed_programs_are_lawful()
    ensures { TypedIsLawful }
{}

/// A program that keeps the rules of names, arrays, returns, loops and calls has exactly one typed program.
pub fn programs_are_typed_in_one_way()
    ensures at_least_one { TypedExists }
    ensures at_most_one { TypedIsOne }
{}

/// For each profile and all inputs, a lawful program with calls ends with the same arrays and result exactly where the kernel without calls does.
pub fn calls_are_inlined()
    ensures { CallsAreInlined }
{}

/// The kernel without calls that a lawful program becomes is lawful.
pub fn inlined_is_lawful()
    ensures { InlinedIsLawful }
{}

/// The tree without calls has the nodes that are counted without making it.
pub fn inlined_nodes_are_counted()
    ensures { InlinedHasNodes }
{}
