//! What blocks answer over whatever their plans deliver: groups, repeats, order, and blocks within blocks. It has no code: each function
//! stands for a law, which is its contract.
#![tactic(auto)]

ghost use Rattle.definitions_answers.specs.Formed.{ArgumentsHaveShapes, FormedAreRegular, FunctionValuesHaveTheirTypes, KeptAreTyped, PlainRowsHaveShapes};
ghost use Rattle.definitions_answers.specs.GroupRows.{GroupsTell};
ghost use Rattle.definitions_answers.specs.Grouped.{GroupsHaveOneRow};
ghost use Rattle.definitions_answers.specs.Groups.{GroupsAreOne};
ghost use Rattle.definitions_answers.specs.Lines.{EqualLinesAreEqualRows, LinesOneByOne};
ghost use Rattle.definitions_answers.specs.Ordered.{DeliveredAreRequired, LeftAreRequired};
ghost use Rattle.definitions_answers.specs.PlainRows.{CombinationsTell, RequiredOrderIsRowOrder};
ghost use Rattle.definitions_answers.specs.Repeats.{RepeatsInAnyOrder, RepeatsKeepOrder, RepeatsOneByOne, TakenInAnyOrder};
ghost use Rattle.definitions_answers.specs.Runs.{CutsAreGroups};
ghost use Rattle.definitions_answers.specs.Shapes.{AggregateTakesAnyOrder, EqualRankInAShapeIsEquality};
ghost use Rattle.definitions_answers.specs.Exists.{ExistsIsAnyKept, ExistsIsAnyPassing};
ghost use Rattle.definitions_answers.specs.Kept.{KeptIsRight};
ghost use Rattle.definitions_answers.specs.Laws.{MeaningGoesByParameters, TotalGoesByParameters, UncorrelatedMeansOne, PassingAsksNoInnerBlock, WorkAsksNoInnerBlock};
ghost use Rattle.definitions_answers.specs.Plain.{PlainBlocksAreTold};
ghost use Rattle.definitions_answers.specs.Standing.{StandingBlocksAreFormed, SubqueriesStandInside};
ghost use Rattle.definitions_answers.specs.Steps.{FormedBlocksAskBehind, MeaningByOneStep, PassingByOneStep, TotalByOneStep};
ghost use Rattle.definitions_answers.specs.Strict.{ConditionsAreStrict};
ghost use Rattle.definitions_answers.specs.Taking.{AllAreTold, OneMoreIsTold};
ghost use Rattle.definitions_answers.specs.Trying.{LateConjunctsSayWhatIsTold};
ghost use Rattle.definitions_answers.specs.Told.{ConditionsSeeWhatIsTold, LateConjunctsSeeWhatIsTold};
ghost use Rattle.definitions_answers.specs.InnerTotals.{CountIsSum};

/// Nonempty classes of the same combinations are the groups, whatever order they and their members have.
pub fn groups_are_one()
    ensures { GroupsAreOne }
{}

/// Values of one shape that rank as equal are one.
pub fn equal_rank_in_a_shape_is_equality()
    ensures { EqualRankInAShapeIsEquality }
{}

/// A set function's value does not hang on the order of the values that it is of.
pub fn aggregate_takes_any_order()
    ensures { AggregateTakesAnyOrder }
{}

/// Combinations that come in the order of the grouping columns are cut into their groups where a value changes.
pub fn cuts_are_groups()
    ensures { CutsAreGroups }
{}

/// Where repeats are left out, the order of what was there says nothing about what is left; one by one, each stays that is the same as none
/// before; and what is left stays in order.
pub fn repeats_are_left_out()
    ensures rows { RepeatsInAnyOrder }
    ensures values { TakenInAnyOrder }
    ensures one { RepeatsOneByOne }
    ensures order { RepeatsKeepOrder }
{}

/// What may be told of a grouped block by its groups, in whatever order they and their members were found.
pub fn groups_tell()
    ensures { GroupsTell }
{}

/// What may be told of a block that is not grouped, in whatever order its combinations come; and where they come in the order that it
/// requires, its rows need no sort.
pub fn combinations_tell()
    ensures told { CombinationsTell }
    ensures order { RequiredOrderIsRowOrder }
{}

/// What a plan delivers that gives the required order comes in it, whatever breaks ties, and so does what late conjuncts leave of it.
pub fn delivered_are_required()
    ensures delivered { DeliveredAreRequired }
    ensures left { LeftAreRequired }
{}

/// Where result columns and HAVING look at the columns of GROUP BY alone, they mean the same on each combination of a group.
pub fn groups_have_one_row()
    ensures { GroupsHaveOneRow }
{}

/// Arguments of set functions, and the rows of a block that is not grouped, have shapes in a formed block, so a grouped one is regular.
pub fn formed_blocks_have_shapes()
    ensures arguments { ArgumentsHaveShapes }
    ensures rows { PlainRowsHaveShapes }
    ensures regular { FormedAreRegular }
    ensures kept { KeptAreTyped }
    ensures functions { FunctionValuesHaveTheirTypes }
{}

/// Rows of the same columns are the same where their lines are, so what is left of lines where repeats are left out is the lines of what is
/// left of rows.
pub fn lines_tell_rows()
    ensures rows { EqualLinesAreEqualRows }
    ensures lines { LinesOneByOne }
{}

/// A block's meaning and its total go by the values of its parameters.
pub fn blocks_go_by_parameters()
    ensures meaning { MeaningGoesByParameters }
    ensures total { TotalGoesByParameters }
    ensures uncorrelated { UncorrelatedMeansOne }
{}

/// A result that is kept is right wherever the block's parameters have the same values.
pub fn kept_is_right()
    ensures { KeptIsRight }
{}

/// Which combinations pass, and the work of a plan, ask for no inner block.
pub fn plans_ask_no_inner_block()
    ensures passing { PassingAsksNoInnerBlock }
    ensures work { WorkAsksNoInnerBlock }
{}

/// A block's meaning and its total, by one step.
pub fn blocks_go_by_steps()
    ensures behind { FormedBlocksAskBehind }
    ensures meaning { MeaningByOneStep }
    ensures passing { PassingByOneStep }
    ensures total { TotalByOneStep }
{}

/// Where a block stands it is formed, and the blocks that its late conjuncts ask for stand inside.
pub fn blocks_stand_inside()
    ensures formed { StandingBlocksAreFormed }
    ensures inside { SubqueriesStandInside }
{}

/// What may be told of a plain block, by the combinations that pass, in whatever order they come.
pub fn plain_blocks_are_told()
    ensures { PlainBlocksAreTold }
{}

/// The combinations of a plain block may be taken one after another.
pub fn combinations_are_taken()
    ensures one { OneMoreIsTold }
    ensures all { AllAreTold }
{}

/// What late conjuncts say of a combination, by what is told of their subqueries there.
pub fn late_conjuncts_say_what_is_told()
    ensures { LateConjunctsSayWhatIsTold }
{}

/// EXISTS sees whether any combination is kept, where nothing raises; and without late conjuncts whether any passes.
pub fn exists_sees_any()
    ensures kept { ExistsIsAnyKept }
    ensures passing { ExistsIsAnyPassing }
{}

/// A condition raises where one of its subqueries does.
pub fn conditions_are_strict()
    ensures { ConditionsAreStrict }
{}

/// A condition sees of a subquery the first values of its rows, in any order, or one of its exceptions.
pub fn conditions_see_what_is_told()
    ensures one { ConditionsSeeWhatIsTold }
    ensures all { LateConjunctsSeeWhatIsTold }
{}

/// Works may be added one after another, in any order, to a count that stops at the limit.
pub fn counts_are_sums()
    ensures { CountIsSum }
{}
