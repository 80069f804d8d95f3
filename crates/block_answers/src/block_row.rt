//! A row of a block's tables, where expressions are evaluated.

ghost use Rattle.std.specs.Prelude.{◌≡◌};
ghost use Rattle.definitions.specs.Queries.Combinations.{at};
ghost use Rattle.filters.specs.Sources.{context_in, environment_at};
ghost use Rattle.block_answers.specs.Groups.{seen};

use filters::{BlockSource, Composite, OuterRows, RowContext};

/// A row of the block's tables.
pub fn row_at<'s, 'a, A: OuterRows>(
    source: &'s BlockSource<'s>,
    composite: &'a Composite,
    around: &'a A,
) -> RowContext<'s, 'a, A>
    ensures { environment_at result.source.now (A.combinations result.around.now) result.rows.now
        ≡ at (context_in source.now (A.combinations around.now))
        (seen source.now (A.combinations around.now) composite.now) }
{
    RowContext {
        source,
        rows: composite.numbers(source.table_count()),
        around,
    }
}
