//! Late conjuncts that compare a column with what was told of a subquery, as tests of numbers.

ghost use Rattle.std.specs.Prelude.{ℕ, ◌≡◌, ◌≤◌, ◌^◌, ◌<◌, ◌∷◌, [], All, IfOk, IfSome, Ok, OnSome, filter, get_or, length, map, pos, take};
ghost use Rattle.definitions.specs.Queries.Conjuncts.{is_late, late_conjuncts};
ghost use Rattle.sqlvalue.specs.Meaning.{number_of};
ghost use Rattle.sqlvalue.specs.Owned.{owned_value};
ghost use Rattle.definitions.specs.Value.{scale_of, Null, SqlType};
ghost use Rattle.definitions_execution.specs.OfBlock.{rows_in};
ghost use Rattle.filters.specs.Sources.{block_in};
ghost use Rattle.columns.specs.Cells.{number_or_null};
ghost use Rattle.columns.specs.Starts.{value_in};
ghost use Rattle.predicates.specs.Parts.{condition_in};
ghost use Rattle.subqueries.specs.Keeping.{told_by};
ghost use Rattle.told_tests.specs.ToldTests.{is_unless, passes, passes_at, AreWhereTrue, ComparesWith, IsScaledTo, IsTested, IsTestOf, IsTestOfAll, IsTestedAs, ListsValues, RaisesOnNone, TellsOf};

use crate::run_scan::scan_places;
use crate::unit_set::UnitSet;
use columns::NumberColumn;
use filters::BlockSource;
use predicates::{ColumnTerm, Conjunct};
use query_tree::{BlockColumn, ValueExpr};
use scans::Batch;
use sqlvalue::{ComparisonOperator, Num, OwnedValue};
use std::alloc::Global;
use subqueries::KeptResults;

/// What a late conjunct asks of a column by what was told of a subquery, made ready for numbers of a scale (own).
#[derive(Drop)]
pub struct ToldTest {
    column: BlockColumn,
    scale: u8,
    asked: Asked,
}

/// What is asked of the units of a number: that by a factor they compare with others, which are those of a number; or that they are
/// among others, or not (own).
#[derive(Drop)]
enum Asked {
    Compared {
        op: ComparisonOperator,
        factor: i64,
        units: i64,
        number: Num,
    },
    Listed {
        negated: bool,
        units: UnitSet,
    },
}

/// The test that the late conjuncts of a block come to by what was told last of their subqueries, where there is one conjunct and it has a
/// test, for which there is memory.
pub fn test_of(alloc: Global, source: &BlockSource<'_>, results: &[KeptResults]) -> Option<ToldTest>
    ensures { IfSome result (λ test. IsTestOfAll (told_by results.now) test (late_conjuncts (block_in source.now))) }
{
    let conjunct = only_late(source.conjuncts())?;
    conjunct_test(alloc, &conjunct, results)
}

/// The conjunct that is late, where there is only one.
fn only_late<'a>(conjuncts: &[Conjunct<'a>]) -> Option<Conjunct<'a>>
    ensures { IfSome result (λ only. filter is_late (map condition_in conjuncts.now) ≡ condition_in only ∷ []) }
{
    let mut only = None;
    'conjuncts: for conjunct in conjuncts {
        if conjunct.late {
            if only.is_some() {
                return None;
            }
            only = Some(*conjunct);
        }
    }
    only
}

/// The test that a conjunct comes to, where it compares a column with a subquery, or is IN or NOT IN of one.
fn conjunct_test(
    alloc: Global,
    conjunct: &Conjunct<'_>,
    results: &[KeptResults],
) -> Option<ToldTest>
    ensures { IfSome result (λ test. IsTestOf (told_by results.now) test (condition_in conjunct.now)) }
{
    match conjunct.membership {
        Some(membership) => {
            let values = told_values(results, membership.block)?;
            list_test(
                alloc,
                membership.column,
                membership.scale,
                membership.negated,
                values,
            )
        }
        None => comparison_test(conjunct, results),
    }
}

/// The test of a comparison of a column with a subquery that gave one number, whichever of the two stands on the left.
fn comparison_test(conjunct: &Conjunct<'_>, results: &[KeptResults]) -> Option<ToldTest>
    ensures { IfSome result (λ test. IsTestOf (told_by results.now) test (condition_in conjunct.now)) }
{
    let sided = conjunct.terms.first()?;
    let ColumnTerm::Comparison { op, value } = sided.term else {
        return None;
    };
    let ValueExpr::Subquery { block, .. } = value else {
        return None;
    };
    let number = told_number(results, *block)?;
    number_test(sided.column, sided.scale, op, number)
}

/// The number that was told last of a block alone, if there is such a block.
fn told_number(results: &[KeptResults], block: usize) -> Option<Num>
    ensures { IfSome result (λ number. told_by results.now block ≡ Ok (number_of number ∷ [])) }
{
    let values = told_values(results, block)?;
    only_number(values)
}

/// The values that were told last of a block, if there is such a block and it raised nothing.
fn told_values(results: &[KeptResults], block: usize) -> Option<&[OwnedValue]>
    ensures { IfSome result (λ values. told_by results.now block ≡ Ok (map owned_value values.now)) }
{
    match results.get(block)?.first_values() {
        Ok(values) => Some(values),
        Err(_) => None,
    }
}

/// The test of a comparison of a column's numbers of a scale with a number, if all that it takes fits 64 bits.
fn number_test(
    column: BlockColumn,
    scale: u8,
    op: ComparisonOperator,
    number: Num,
) -> Option<ToldTest>
    ensures { IfSome result (ComparesWith column scale op number) }
{
    let Scaled { factor, units } = to_common_scale(scale, number)?;
    Some(ToldTest {
        column,
        scale,
        asked: Asked::Compared {
            op,
            factor,
            units,
            number,
        },
    })
}

/// By what numbers of a scale are multiplied to compare with a number, and what that makes of its units.
#[derive(Clone, Copy)]
struct Scaled {
    factor: i64,
    units: i64,
}

/// That of a number, if it fits 64 bits.
fn to_common_scale(scale: u8, number: Num) -> Option<Scaled>
    ensures { IfSome result (IsScaledTo scale number) }
{
    let factor = power_of_ten(number.scale.saturating_sub(scale))?;
    let wider = power_of_ten(scale.saturating_sub(number.scale))?;
    let units = whole(number)?.checked_mul(wider)?;
    Some(Scaled { factor, units })
}

/// The test of IN or NOT IN of a column's numbers of a scale, where the values are such numbers, of a range that is not too long.
fn list_test(
    alloc: Global,
    column: BlockColumn,
    scale: u8,
    negated: bool,
    values: &[OwnedValue],
) -> Option<ToldTest>
    ensures { IfSome result (ListsValues column scale negated (map owned_value values.now)) }
{
    match UnitSet::of_values(alloc, values, scale) {
        Ok(Some(units)) => Some(ToldTest {
            column,
            scale,
            asked: Asked::Listed { negated, units },
        }),
        _ => None,
    }
}

/// The units of a number, where they fit 64 bits.
fn whole(number: Num) -> Option<i64>
    ensures { IfSome result (λ units. units ≡ number.units) }
{
    match i64::try_from(number.units) {
        Ok(units) => Some(units),
        Err(_) => None,
    }
}

/// How many units of a scale make one, where that fits 64 bits.
fn power_of_ten(scale: u8) -> Option<i64>
    ensures { IfSome result (λ power. power ≡ pos (10 ^ scale)) }
{
    10i64.checked_pow(u32::from(scale))
}

/// The number that is alone in a list.
fn only_number(values: &[OwnedValue]) -> Option<Num>
    ensures { IfSome result (λ number. map owned_value values.now ≡ number_of number ∷ []) }
{
    match values {
        [OwnedValue::Num(number)] => Some(*number),
        _ => None,
    }
}

impl ToldTest {
    /// Writes the places of those composites of a batch that pass to the beginning of a slice, and tells how many, where that is found for all of
    /// them together: the conjuncts that it is a test of are true on these, and nothing is raised.
    pub fn passing_places(
        &self,
        source: &BlockSource<'_>,
        batch: &Batch,
        places: &mut [u32],
    ) -> Option<usize>
        requires room { length places.old ≡ 1024 }
        ensures room { length places.new ≡ 1024 }
        ensures count { IfSome result (λ count. count ≤ 1024) }
        ensures within { IfSome result (λ count. All (λ place. place < length batch.now.items)
            (take count places.new)) }
        ensures passing { IfSome result (λ count. AreWhereTrue source.now self.now batch.now.items
            (take count places.new)) }
        ensures quiet { OnSome result (RaisesOnNone source.now self.now batch.now.items) }
    {
        if let Asked::Compared { op, number, .. } = &self.asked
            && let Some(count) = scan_places(source, batch, self.column, *op, *number, places)
        {
            return Some(count);
        }
        self.places_by_units(source, batch, places)
    }

    /// The same, one composite after another, where all have a number of the test's scale in the column, which is not too great, or null.
    fn places_by_units(
        &self,
        source: &BlockSource<'_>,
        batch: &Batch,
        places: &mut [u32],
    ) -> Option<usize>
        requires room { length places.old ≡ 1024 }
        ensures room { length places.new ≡ 1024 }
        ensures count { IfSome result (λ count. count ≤ 1024) }
        ensures within { IfSome result (λ count. All (λ place. place < length batch.now.items)
            (take count places.new)) }
        ensures passing { IfSome result (λ count. map (λ place. get_or batch.now.items place []) (take count places.new)
            ≡ filter (passes_at source.now self.now) batch.now.items) }
        ensures tested { OnSome result (All (IsTested source.now self.now) batch.now.items) }
    {
        let numbers = self.numbers(source)?;
        // It is not so, but a look is less than to carry that along.
        if self.column.table >= batch.width() {
            return None;
        }
        // A look at the length tells that there is room.
        let _len = batch.len();
        let rows = batch.column(self.column.table);
        let mut count: usize = 0;
        'rows: for place in 0..rows.len() {
            let passed = self.tells_of_units(numbers.units_in(rows[place] as usize))?;
            places[count] = place as u32;
            count += usize::from(passed);
        }
        Some(count)
    }

    /// Whether the composite at a place of a batch passes, where it has a number of the test's scale in the column, which is not too great.
    pub fn passed(&self, source: &BlockSource<'_>, batch: &Batch, place: usize) -> Option<bool>
        requires { place < length batch.now.items }
        ensures { IfSome result (IsTestedAs source.now (get_or batch.now.items place []) self.now) }
    {
        let numbers = self.numbers(source)?;
        // It is not so, but a look is less than to carry that along.
        if self.column.table >= batch.width() {
            return None;
        }
        let row = batch.column(self.column.table)[place];
        self.tells_of_units(numbers.units_in(row as usize))
    }

    /// The column that is asked, where it has numbers of the test's scale.
    fn numbers<'b>(&self, source: &'b BlockSource<'_>) -> Option<&'b NumberColumn>
        ensures scale { IfSome result (λ numbers. scale_of numbers.now.type ≡ self.now.scale) }
        ensures values { IfSome result (λ numbers. (row : ℕ) → value_in numbers.now row ≡ get_or (get_or (rows_in
            source.now.database (block_in source.now) self.now.column.table) row []) self.now.column.number Null) }
    {
        let numbers = source.numbers(self.column)?;
        if numbers.scale() == self.scale {
            Some(numbers)
        } else {
            None
        }
    }

    /// Whether a number of so many units passes, if that is not too great; none stands for null, which doesn't.
    #[inline]
    fn tells_of_units(&self, units: Option<i64>) -> Option<bool>
        ensures { (sql_type : SqlType) → scale_of sql_type ≡ self.now.scale →
            IfSome result (TellsOf self.now (number_or_null sql_type units)) }
    {
        match units {
            None => Some(false),
            Some(unit) => self.passes(unit),
        }
    }

    /// Whether a number of so many units passes, if that is not too great.
    fn passes(&self, unit: i64) -> Option<bool>
        ensures { IfSome result (λ passed. passed ≡ passes self.now unit) }
    {
        match &self.asked {
            Asked::Compared {
                op,
                factor,
                units,
                ..
            } => Some(op.agrees(unit.checked_mul(*factor)?.cmp(units))),
            Asked::Listed { negated, units } => Some(is_unless(*negated, units.has(unit))),
        }
    }
}

/// The same, or the other way round where it is negated.
fn is_unless(negated: bool, known: bool) -> bool
    ensures { result ≡ is_unless negated known }
{
    if negated { !known } else { known }
}
