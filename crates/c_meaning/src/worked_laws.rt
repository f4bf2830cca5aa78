//! Worked trees: what the definitions give for each, by computation.
ghost use Rattle.c_meaning.specs.Worked.{LeftOperandFirst, RightOperandNext, OperatorLast, IndicesFirst, FirstIndexFirst, ElementOutside, TargetIndicesFirst, TargetBeforeValue, ValueAfterTarget, OldValueFirst, ValueAfterOld, CompoundOperatorLast, CompoundIndicesFirst, CompoundTargetOutside, StepOverflows, StepOfUnset, LeftSideFirst, RightSideUnneeded, OneSideOfChoice, EndOfKernel, UndefinedBeforeTurns, PartIsABlock, FirstPartIsAScope};
ghost use Rattle.c_meaning.specs.Worked.{TurnInATarget, TurnInAnOperand, TurnInAnIndex, NoConditionAfterBreak};
ghost use Rattle.c_meaning.specs.Worked.{OldValueIsConverted, ResultIsConverted, ShiftIsOfTheLeft, SumWraps, NegativeShiftWraps, QuotientStaysUndefined};
ghost use Rattle.c_meaning.specs.Worked.{ShiftCosts, RightShiftCosts, SumCosts, BothCosts, EitherCosts, ChoiceCosts, CastCosts, ElementCosts, TargetCosts, DeclarationCosts, IfCosts, ForCosts, DoCosts, BreakCosts, ContinueCosts, AbsentConditionCosts, ReturnCosts};
ghost use Rattle.c_meaning.specs.Worked.{StackedCasts, ReadInASide, ReadInASecondPart, ReadInAThirdPart, ReadInAFirstPart, BeforeNothing, ReturnBefore, ReturnBeforeDo, ReturnBeforeFor, BreakOutside, NormalBreakOutside};

/// The order of evaluation: which operation of an expression or statement is the first undefined one.
#[tactic(auto, unfolding(crate::proofs::TreeRows::typed_rows))]
pub fn operations_are_ordered()
    ensures left_operand { LeftOperandFirst }
    ensures right_operand { RightOperandNext }
    ensures operator { OperatorLast }
    ensures indices { IndicesFirst }
    ensures first_index { FirstIndexFirst }
    ensures element { ElementOutside }
    ensures target_indices { TargetIndicesFirst }
    ensures target { TargetBeforeValue }
    ensures value { ValueAfterTarget }
    ensures old_value { OldValueFirst }
    ensures value_after_old { ValueAfterOld }
    ensures compound_operator { CompoundOperatorLast }
    ensures compound_indices { CompoundIndicesFirst }
    ensures compound_target { CompoundTargetOutside }
    ensures step { StepOverflows }
    ensures step_of_unset { StepOfUnset }
    ensures left_side { LeftSideFirst }
    ensures right_side { RightSideUnneeded }
    ensures choice { OneSideOfChoice }
    ensures end_of_kernel { EndOfKernel }
    ensures turns { UndefinedBeforeTurns }
    ensures parts { PartIsABlock }
    ensures first_part { FirstPartIsAScope }
{}

/// The turns of whole kernels: `&&` takes one wherever it stands, and after `break` no condition is evaluated.
pub fn turns_are_worked()
    ensures target { TurnInATarget }
    ensures operand { TurnInAnOperand }
    ensures index { TurnInAnIndex }
    ensures leaving { NoConditionAfterBreak }
{}

/// A compound assignment converts its old value and its result; under `Wrap` a sum and a shift wrap, and a quotient does not.
pub fn results_are_converted()
    ensures old_value { OldValueIsConverted }
    ensures result { ResultIsConverted }
    ensures shift { ShiftIsOfTheLeft }
    ensures wrapped_sum { SumWraps }
    ensures wrapped_shift { NegativeShiftWraps }
    ensures quotient { QuotientStaysUndefined }
{}

/// The jumps and the price of one normal form for each line of the counts.
pub fn counts_are_worked()
    ensures left_shift { ShiftCosts }
    ensures right_shift { RightShiftCosts }
    ensures sum { SumCosts }
    ensures both { BothCosts }
    ensures either { EitherCosts }
    ensures choice { ChoiceCosts }
    ensures cast { CastCosts }
    ensures element { ElementCosts }
    ensures target { TargetCosts }
    ensures declaration { DeclarationCosts }
    ensures if_statement { IfCosts }
    ensures for_loop { ForCosts }
    ensures do_loop { DoCosts }
    ensures leaving { BreakCosts }
    ensures continuing { ContinueCosts }
    ensures absent_condition { AbsentConditionCosts }
    ensures returning { ReturnCosts }
{}

/// What is not lawful, and one choice that is.
pub fn unlawful_trees_are_refused()
    ensures casts { StackedCasts }
    ensures sides { ReadInASide }
    ensures parts { ReadInASecondPart }
    ensures third_part { ReadInAThirdPart }
    ensures first_part { ReadInAFirstPart }
    ensures absent_condition { BeforeNothing }
    ensures returning { ReturnBefore }
    ensures returning_in_do { ReturnBeforeDo }
    ensures returning_in_for { ReturnBeforeFor }
    ensures leaving { BreakOutside }
    ensures normal_leaving { NormalBreakOutside }
{}
