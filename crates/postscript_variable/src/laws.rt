//! Laws of the definitions. The functions do nothing: their clauses are the laws.
ghost use Rattle.postscript_variable.specs.Computed.{NumberIsRead, OperatorIsRead, NothingIsRead, MeaningIsComputed, RunIsMeant, EachHasARun, NoOtherRun};
ghost use Rattle.postscript_variable.specs.CostsAlong.{CostsAreComputed};
ghost use Rattle.postscript_variable.specs.Defaults.{DefaultsStay};
ghost use Rattle.postscript_variable.specs.Endings.{RunsEndSo};
ghost use Rattle.postscript_variable.specs.Limit.{LimitIsCost, LimitLasts, LimitBoundsSteps};
ghost use Rattle.postscript_variable.specs.Nearness.{SumsAreNear};
ghost use Rattle.postscript_variable.specs.OperatorRules.{OperatorsDoSo};
ghost use Rattle.postscript_variable.specs.Told.{ToldIsComputed, ToldIsAnswered};

/// States that a number or an operator is read exactly if one is spelled at the front of the bytes.
pub fn tokens_are_read()
    // A number of a given size is read exactly if it is spelled at the front.
    ensures numbers { NumberIsRead }
    // An operator of a given size is read exactly if it is spelled at the front.
    ensures operators { OperatorIsRead }
    // Reading fails with an error exactly if neither is at the front, for this reason.
    ensures nothing { NothingIsRead }
{}

/// States that the computed run of a charstring is its run by the rules (`specs/Meaning.antt`).
pub fn meaning_is_computed()
    // Operations and end of any rest of a routine are computed exactly as the rules give them.
    ensures law { MeaningIsComputed }
    // Operations and end of a charstring are computed exactly as the rules give them.
    ensures runs { RunIsMeant }
{}

/// States that each charstring has exactly one run by the rules.
pub fn each_has_one_run()
    // Each charstring has a run by the rules.
    ensures has { EachHasARun }
    // Two runs of a charstring by the rules have equal operations and ends.
    ensures no_other { NoOtherRun }
{}

/// States that the operations of a charstring with their hints do not depend on the derivation of its run
/// (`specs/Told.antt`).
pub fn sayings_are_told()
    // The operations along a run by the rules are the computed ones.
    ensures computed { ToldIsComputed }
    // Without the hints of masks, they are the operations that the run returns.
    ensures answered { ToldIsAnswered }
{}

/// States which errors a whole run may end with.
pub fn runs_end_so()
    // A run ends without a fault, or with one of the errors in `run_refusals`.
    ensures { RunsEndSo }
{}

/// States that blended values are exactly the defaults if all scalars are 0, as at the default location of a font.
pub fn defaults_stay()
    // If all scalars are 0, blending gives the defaults, whatever the deltas are.
    ensures { DefaultsStay }
{}

/// States what each number and operator of a run costs (`specs/CostsAlong.antt`).
pub fn costs_are_computed()
    // The computed costs are those of the numbers and operators along a run by the rules.
    ensures { CostsAreComputed }
{}

/// States how [`Program::step_within`] spends its limit (`specs/Limit.antt`).
pub fn limit_is_cost()
    // The spent limit is the cost of the read items, and all but the last cost less than it.
    ensures spent { LimitIsCost }
    // A limit above all costs lasts to the end.
    ensures lasts { LimitLasts }
    // The number of items that are read is at most the number of units that are spent.
    ensures bounds { LimitBoundsSteps }
{}

/// States that operators work as their table says (`specs/OperatorRules.antt`): the stack, the stems and the scalars
/// before and after, and each cause of an error.
pub fn operators_do_so()
    // The computed effect of an operator is exactly the one in the table of operators.
    ensures { OperatorsDoSo }
{}

/// States that the deltas of a blended value are added with a small error (`specs/Nearness.antt`). The default is added
/// without rounding.
pub fn sums_are_near()
    // With `n` regions the sum is at most `n / 2` units of 1 / 65536 away from the exact sum.
    ensures { SumsAreNear }
{}
