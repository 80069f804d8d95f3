//! What plans deliver when they are run, step by step, the laws by which a program may run them so, and what statements and scripts
//! do and print. It has no code: each function stands for a law, which is its contract.
#![tactic(auto)]

ghost use Rattle.definitions_execution.specs.Laws.{PlansDeliver, PlansArrange, OrderedGiveRequired, OpenedIsWork, MergeGoesInStep, CountMayStop};
ghost use Rattle.definitions_execution.specs.StepLaws.{StepDelivers, RunServes, EqualRowsServe, SortDelivers, DeliveredIsArranged};
ghost use Rattle.definitions_execution.specs.IndexRows.{RunIsComputed};
ghost use Rattle.definitions_execution.specs.BlockLaws.{BlocksFit, FormedBlocksNameOwnTables, PlansGivePassing, PlansGiveRequired};
ghost use Rattle.definitions_execution.specs.Asking.{ComparisonAsks, TurnedComparisonAsks, BetweenAsks, ConjunctsAsk};
ghost use Rattle.definitions_execution.specs.Matching.{MatchIsEqualPart, MatchIsRangePart};
ghost use Rattle.definitions_execution.specs.Stretches.{EqualPartsAreStretches, RangePartsAreStretches};
ghost use Rattle.definitions_execution.specs.TypedCombinations.{CombinationsAreTyped, CompositesAreTyped, FormedBlocksHaveEarlyValues};
ghost use Rattle.definitions_execution.specs.PathAsks.{PathsAsk, PathsAskKeyParts};
ghost use Rattle.definitions_execution.specs.TotalLaws.{CountedIsTotal, TotalsGoByThoseBehind, TotalsBehindAreTheSame};
ghost use Rattle.definitions_execution.specs.Examples.TwoTables.{OrdersOfJoined, PlansAreInSpace, LawsSpeakOfThem, EachPlanGivesTheSame};
ghost use Rattle.definitions_execution.specs.Examples.NestedBlocks.{TotalOfLoop, TotalOfNested};
ghost use Rattle.definitions_execution.specs.Examples.MatchedKeys.{RunByKey, MatchedRows, MatchedParts, MatchesArePaths};
ghost use Rattle.definitions_execution.specs.Examples.WrongSteps.{NullsWouldMerge, RawRowsMislead, BackwardIsNotAscending, LateWaitsForEarly};
ghost use Rattle.definitions_execution.specs.GivingLaws.{AccessGives, LoopGives, MergeGives, SortGives, ArrangedWhole, LoopWorks};
ghost use Rattle.definitions_execution.specs.ScriptExamples.{EmptyScriptIsNothing};
ghost use Rattle.definitions_execution.specs.RunLaws.{LoadHasOneOutcome, NoneWithoutReading, ScriptsAreWritten};

/// A plan delivers the passing composites of its tables, each once, in its order; and in the required order, if its own serves for it.
pub fn plans_deliver()
    ensures each { PlansDeliver }
    ensures arranged { PlansArrange }
    ensures required { OrderedGiveRequired }
{}

/// Each step by itself: rows that serve deliver, runs and matching inner rows serve, and a sort delivers.
pub fn steps_deliver()
    ensures step { StepDelivers }
    ensures run { RunServes }
    ensures equal { EqualRowsServe }
    ensures sort { SortDelivers }
    ensures arranged { DeliveredIsArranged }
{}

/// The rows that a plan opens are its work, and a count may stop at the limit at each step.
pub fn opened_is_work()
    ensures work { OpenedIsWork }
    ensures stops { CountMayStop }
{}

/// A merge may go along both sides once, if the inner rows are first cleaned.
pub fn merge_goes_in_step()
    ensures { MergeGoesInStep }
{}

/// The run of an index is the list that is computed.
pub fn run_is_computed()
    ensures { RunIsComputed }
{}

/// The space of a bound block fits what is stored for it, in each version.
pub fn blocks_fit()
    ensures fit { BlocksFit }
    ensures own { FormedBlocksNameOwnTables }
{}

/// Each plan of a bound block gives the combinations that pass, in the plan's order, at the plan's work.
pub fn plans_give_passing()
    ensures passing { PlansGivePassing }
    ensures required { PlansGiveRequired }
{}

/// What a conjunct asks of a column, by the value of its other side.
pub fn conjuncts_ask()
    ensures compared { ComparisonAsks }
    ensures turned { TurnedComparisonAsks }
    ensures between { BetweenAsks }
    ensures known { ConjunctsAsk }
{}

/// A matching scan opens the part of the run that is asked for.
pub fn match_is_part()
    ensures equal { MatchIsEqualPart }
    ensures ranged { MatchIsRangePart }
{}

/// The part of an index that is asked for is a stretch of it.
pub fn parts_are_stretches()
    ensures equal { EqualPartsAreStretches }
    ensures ranged { RangePartsAreStretches }
{
    definitions::indexes::equal_part_is_stretch();
    definitions::indexes::range_part_is_stretch();
}

/// Combinations have values of their columns' types, and the values that early conjuncts speak of are there.
pub fn early_values_exist()
    ensures combinations { CombinationsAreTyped }
    ensures composites { CompositesAreTyped }
    ensures early { FormedBlocksHaveEarlyValues }
{}

/// The conjuncts of a path ask what their text says, and together a part of a key.
pub fn paths_ask()
    ensures asked { PathsAsk }
    ensures part { PathsAskKeyParts }
{}

/// The work of a SELECT may be counted over what its plans deliver, each block's by those behind it.
pub fn counted_is_total()
    ensures counted { CountedIsTotal }
    ensures block { TotalsGoByThoseBehind }
    ensures behind { TotalsBehindAreTheSame }
{}

/// Two small tables: each loop and merge, and each under each sort, gives the same composites; what they open, and their totals.
pub fn plans_of_two_tables()
    ensures orders { OrdersOfJoined }
    ensures plans { PlansAreInSpace }
    ensures laws { LawsSpeakOfThem }
    ensures same { EachPlanGivesTheSame }
    ensures total { TotalOfLoop }
    ensures nested { TotalOfNested }
{}

/// An index on two columns: its run, and what is opened of it by `=` and a range.
pub fn matched_keys()
    ensures run { RunByKey }
    ensures rows { MatchedRows }
    ensures parts { MatchedParts }
    ensures paths { MatchesArePaths }
{}

/// What goes wrong where a step is done otherwise.
pub fn wrong_steps()
    ensures nulls { NullsWouldMerge }
    ensures raw { RawRowsMislead }
    ensures backward { BackwardIsNotAscending }
    ensures late { LateWaitsForEarly }
{}

/// Each kind of step gives what its plan has to deliver.
pub fn steps_give()
    ensures access { AccessGives }
    ensures looped { LoopGives }
    ensures merged { MergeGives }
    ensures sorted { SortGives }
{}

/// What a plan has to deliver is an arrangement of the composites that pass.
pub fn given_is_arranged()
    ensures { ArrangedWhole }
{}

/// The work of a loop may be counted over what its outer plan gives.
pub fn loops_work()
    ensures { LoopWorks }
{}

/// A LOAD of given bytes has at most one outcome.
pub fn load_has_one_outcome()
    ensures { LoadHasOneOutcome }
{}

/// A checking run of an empty script has nothing to check.
pub fn worked_scripts()
    ensures { EmptyScriptIsNothing }
{}

/// What the statements of a script hold is as it can be written: numbers of few digits, and texts of printable characters.
pub fn scripts_are_written()
    ensures { ScriptsAreWritten }
{}

/// No text is without a reading: it has statements, or the line of a fault.
pub fn each_text_has_a_reading()
    ensures { NoneWithoutReading }
{}
