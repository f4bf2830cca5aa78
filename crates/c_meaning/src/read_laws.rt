//! Laws of the variables that an expression reads.
ghost use Rattle.c_meaning.specs.Reads.{ReadsItsVariables, OtherVariablesAreFree, UnsetVariablesAreFree, ReadsListedVariables};

/// An expression means the same in two stores that agree on the arrays and on the variables that it reads. A lawful one reads only variables of the kernel's list.
pub fn expressions_read_their_variables()
    ensures agreeing { ReadsItsVariables }
    ensures writing { OtherVariablesAreFree }
    ensures unsetting { UnsetVariablesAreFree }
    ensures listed { ReadsListedVariables }
{}
