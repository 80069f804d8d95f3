//! What any index offers: all rows in key order, those of a key, and those of a range.

ghost use Rattle.std.specs.Prelude.{ℕ, List, ◌≡◌, ◌≤◌, ◌<◌, length, map};
ghost use Rattle.definitions.specs.IndexRun.{Entry, entry_rows, equal_part, range_part};
ghost use Rattle.sqlvalue.specs.Meaning.{value_of};
ghost use Rattle.columns.specs.Starts.{limit_of};

use sqlvalue::Value;
use std::ops::Bound;

/// The rows of a table in the order of their keys, those of equal keys in their own (own; Selinger et al. 1979,
/// section 3). Rows count from 0. Look-ups take no memory, and what they give is lent by the index.
pub trait OrderedIndex {
    /// The rows and their keys, in that order.
    ghost entries: { Self → List Entry };

    /// How many columns the keys have.
    ghost width: { Self → ℕ };

    /// The numbers of all rows, in the order of their keys.
    fn all(&self) -> &[u32]
        ensures { result.now ≡ entry_rows (entries self.now) };

    /// The rows whose keys begin with these values, each of which is equal to the key's own
    /// (ISO/IEC 9075:1992, 8.2): none, where one is null.
    fn equal(&self, values: &[Value]) -> &[u32]
        requires { length values.now ≤ width self.now }
        ensures { result.now ≡ entry_rows (equal_part (map value_of values.now) (entries self.now)) };

    /// The rows whose keys begin with these values, and whose next value is not null and lies from one bound to
    /// another (ISO/IEC 9075:1992, 8.2): none, where one of the values or bounds is null.
    fn range(&self, values: &[Value], low: Bound<Value>, high: Bound<Value>) -> &[u32]
        requires { length values.now < width self.now }
        ensures { result.now ≡ entry_rows (range_part (map value_of values.now) (limit_of low.entry)
            (limit_of high.entry) (entries self.now)) };
}
