//! What holds of statements and scripts over every library (the laws of `definitions_execution/specs/RunLaws`, and worked examples of scripts), each
//! proved as the contract of a function that does nothing.

ghost use Rattle.definitions_execution.specs.RunLaws.{StepKeepsDatabase, FaultsChangeNothing, SelectPrintsAnswer, RunsEndAlike, NoneWithoutStep, NoneWithoutRun};
ghost use Rattle.definitions_execution.specs.ScriptExamples.{ScriptsRun};

use crate::library::Library;

/// Each statement keeps a database a database, and one that ends badly leaves it as it was.
pub fn statements_keep_databases<L: Library>()
    ensures kept { StepKeepsDatabase L.answers }
    ensures unchanged { FaultsChangeNothing L.answers }
{}

/// What is printed for a query that is not refused, and raises no exception, is its answer.
pub fn select_prints_answer<L: Library>()
    ensures { SelectPrintsAnswer L.answers }
{}

/// Two runs of a script over a library that gives one answer to a request end alike: in one state but for the work, and
/// both well or both badly.
pub fn runs_end_alike<L: Library>()
    ensures { RunsEndAlike L.answers }
{
    definitions_execution::load_has_one_outcome();
}

/// Over a library that answers each request no statement is without a step, and no script of statements without a run.
pub fn each_script_runs<L: Library>()
    ensures step { NoneWithoutStep L.answers }
    ensures run { NoneWithoutRun L.answers }
{}

/// Small scripts and what they print.
pub fn scripts_run<L: Library>()
    ensures { ScriptsRun L.answers }
{}
