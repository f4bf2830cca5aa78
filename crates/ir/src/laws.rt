//! Laws of graphs, each as the contract of a function that does nothing.
ghost use Rattle.ir.specs.Renaming.{
  RenamedStepsDoTheSame,
  RenamedValuesAreTheSame,
  FittingStepsName,
  RenamedStepsFit,
};
ghost use Rattle.ir.specs.Strictness.{
  StoresHaveNoWidth,
  NoTargetIsTheEntry,
  ConditionsHave32Bits,
};

/// Steps whose operands are renamed do the same with the values, the arrays and the strays.
pub fn renamed_steps_do_the_same()
    ensures steps { RenamedStepsDoTheSame }
    ensures values { RenamedValuesAreTheSame }
{}

/// Steps that fit name earlier values alone, and under other names that keep the widths they fit again.
pub fn renamed_steps_fit()
    ensures names { FittingStepsName }
    ensures steps { RenamedStepsFit }
{}

/// What no well formed graph has: an operand that names a store, a jump to block 0, a condition of another width than 32.
pub fn graphs_are_strict()
    ensures stores { StoresHaveNoWidth }
    ensures targets { NoTargetIsTheEntry }
    ensures conditions { ConditionsHave32Bits }
{}
