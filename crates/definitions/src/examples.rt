//! Worked examples of the definitions (those of plans, estimates and certificates stand in the modules of that name; those of scripts are
//! contracts of the crate `sqlr`, over every library).

ghost use Rattle.definitions.specs.Examples.Texts.{ValuesCompare, TextsRead, TokensDerive, FieldsAndRows, CellsCompare};
ghost use Rattle.definitions.specs.Examples.Tables.{StatisticsOfTables, StatisticsOfIndexes, SizesOfRows};
ghost use Rattle.definitions.specs.Examples.Queries.{GuardedDivision, NoRows, NullsInLists, PaddedTexts, LargeNumbers};
ghost use Rattle.definitions.specs.Examples.Queries.{LongSums, Subqueries, JoinsAndGroups, FurtherRules, FurtherTexts};
ghost use Rattle.definitions.specs.Examples.Binding.{SubqueriesBind, FormsOfQueries, RefusedQueries, FormedBlocks};
ghost use Rattle.definitions.specs.Examples.BoundJoins.{BlocksAreBound};

/// Values, texts and their tokens, statements, fields, and words of cells.
pub fn values_and_texts()
    ensures values { ValuesCompare }
    ensures texts { TextsRead }
    ensures tokens { TokensDerive }
    ensures rows { FieldsAndRows }
    ensures cells { CellsCompare }
{}

/// The statistics of small tables and indexes.
pub fn statistics()
    ensures tables { StatisticsOfTables }
    ensures indexes { StatisticsOfIndexes }
    ensures sizes { SizesOfRows }
{}

/// What bound queries mean, and what they do not.
pub fn queries()
    ensures division { GuardedDivision }
    ensures no_rows { NoRows }
    ensures nulls { NullsInLists }
    ensures padded { PaddedTexts }
    ensures large { LargeNumbers }
    ensures sums { LongSums }
    ensures subqueries { Subqueries }
    ensures groups { JoinsAndGroups }
    ensures rules { FurtherRules }
    ensures printed { FurtherTexts }
{}

/// Queries whose names are bound, and queries that are refused.
pub fn bindings()
    ensures subqueries { SubqueriesBind }
    ensures forms { FormsOfQueries }
    ensures refused { RefusedQueries }
    ensures formed { FormedBlocks }
{}

/// The blocks of the examples of estimates, bound from their queries.
pub fn bound_joins()
    ensures { BlocksAreBound }
{}
