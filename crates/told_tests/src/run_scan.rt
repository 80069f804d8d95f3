//! A comparison of a column with a number on the composites of a batch whose rows follow one another in the column's table: a word of rows at a
//! time.

ghost use Rattle.std.specs.Prelude.{◌≡◌, ◌≤◌, ◌<◌, ◌+◌, ◌^◌, ◌++◌, [], All, IfSome, filter, get_or, length, map, take};
ghost use Rattle.std.specs.List.{range_with_len};
ghost use Rattle.definitions_execution.specs.OfBlock.{rows_in};
ghost use Rattle.filters.specs.Sources.{block_in};
ghost use Rattle.filters.specs.SearchArguments.{IsColumnOf};
ghost use Rattle.filters.specs.Words.{rows_in_word, word_by};
ghost use Rattle.told_tests.specs.RunScans.{is_met_at, is_met_in};

use filters::BlockSource;
use query_tree::BlockColumn;
use scans::Batch;
use sqlvalue::{ComparisonOperator, Num, Value};

/// How many rows a word tells of.
const WORD_ROWS: usize = 64;

/// Writes the places of those composites of a batch on which a comparison of a column with a number is true (ISO/IEC 9075:1992, 8.2) to the
/// beginning of a slice, and tells how many, where the rows of the column's table follow one another.
pub(crate) fn scan_places(
    source: &BlockSource<'_>,
    batch: &Batch,
    column: BlockColumn,
    op: ComparisonOperator,
    number: Num,
    places: &mut [u32],
) -> Option<usize>
    requires room { length places.old ≡ 1024 }
    ensures room { length places.new ≡ 1024 }
    ensures count { IfSome result (λ count. count ≤ 1024) }
    ensures within { IfSome result (λ count. All (λ place. place < length batch.now.items) (take count places.new)) }
    ensures passing { IfSome result (λ count. map (λ place. get_or batch.now.items place []) (take count places.new)
        ≡ filter (is_met_at source.now column op number) batch.now.items) }
{
    // Neither is so, but a look is less than to carry that along.
    if column.table >= batch.width() || column.table >= source.table_count() {
        return None;
    }
    // A look at the length tells that there is room.
    let _len = batch.len();
    let rows = batch.column(column.table);
    let first = first_of_run(rows)?;
    let table = source.table(column.table);
    if column.number >= table.width() || first + rows.len() > table.len() {
        return None;
    }
    Some(scan_run(source, column, op, number, first, rows.len(), places))
}

/// The first of some rows, where each is the one behind that before it.
fn first_of_run(rows: &[u32]) -> Option<usize>
    ensures run { IfSome result (λ first. rows.now ≡ range_with_len first (length rows.now)) }
    ensures small { IfSome result (λ first. first < 2 ^ 32) }
{
    let first = *rows.first()? as usize;
    'rows: for place in 0..rows.len() {
        if rows[place] as usize != first + place {
            return None;
        }
    }
    Some(first)
}

/// Writes the places, behind the first of so many rows, of those on which the comparison is true, and tells how many.
fn scan_run(
    source: &BlockSource<'_>,
    column: BlockColumn,
    op: ComparisonOperator,
    number: Num,
    first: usize,
    count: usize,
    places: &mut [u32],
) -> usize
    requires table { column.table < length (block_in source.now).tables }
    requires column { IsColumnOf source.now column.table column.number }
    requires in_rows { first + count ≤ length (rows_in source.now.database (block_in source.now) column.table) }
    requires few { count ≤ 1024 }
    requires small { first + count ≤ 2 ^ 32 }
    requires room { length places.old ≡ 1024 }
    ensures room { length places.new ≡ 1024 }
    ensures count { result ≤ count }
    ensures places { take result places.new
        ≡ filter (λ place. is_met_in source.now column op number (first + place)) (range_with_len 0 count) }
{
    let mut written = 0;
    let mut done: usize = 0;
    'words: while done < count {
        let rows = WORD_ROWS.min(count - done);
        let word = matching_word(source, column, op, number, first + done, rows);
        written = write_places(word, done, places, written);
        done += rows;
    }
    written
}

/// Of so many rows from one on, those on which the comparison is true: bit i of the word is that of the row `first + i`.
fn matching_word(
    source: &BlockSource<'_>,
    column: BlockColumn,
    op: ComparisonOperator,
    number: Num,
    first: usize,
    count: usize,
) -> u64
    requires table { column.table < length (block_in source.now).tables }
    requires column { IsColumnOf source.now column.table column.number }
    requires few { count ≤ 64 }
    requires in_rows { first + count ≤ length (rows_in source.now.database (block_in source.now) column.table) }
    ensures { result ≡ word_by (is_met_in source.now column op number) first count }
{
    let table = source.table(column.table);
    let (met, _) = table.scan(column.number, op, &Value::Num(number), first, count);
    met
}

/// Writes the places of the bits of a word to a slice from a place on, where the lowest is that of the first, and tells the place behind them.
fn write_places(word: u64, first: usize, places: &mut [u32], from: usize) -> usize
    requires small { All (λ place. place < 2 ^ 32) (rows_in_word word first) }
    requires room { from + length (rows_in_word word first) ≤ length places.old }
    ensures places { take result places.new ≡ take from places.old ++ rows_in_word word first }
    ensures count { result ≡ from + length (rows_in_word word first) }
    ensures room { length places.new ≡ length places.old }
{
    let mut left = word;
    let mut lowest = first;
    let mut count = from;
    'bits: while left != 0 && count < places.len() {
        let skipped = left.trailing_zeros();
        let place = lowest + skipped as usize;
        places[count] = place as u32;
        count += 1;
        lowest = place + 1;
        left = left >> skipped >> 1;
    }
    count
}
