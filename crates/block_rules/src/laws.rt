//! The law of the rules, as the contract of a function that does nothing.
ghost use Rattle.block_rules.specs.Laws.{RewritingsAreRight, ConditionsAreRight, ValuesAreBounded};

/// What a step becomes fits, and has the step's value, in each block whose values are what its steps say.
pub fn rewritings_are_right()
    ensures steps { RewritingsAreRight }
    ensures conditions { ConditionsAreRight }
{}

/// No value is greater than what the steps before it tell.
pub fn values_are_bounded()
    ensures { ValuesAreBounded }
{}
