//! Classes of columns under a set of tables.

ghost use Rattle.std.specs.Prelude.{List, ◌≡◌, ◌<◌, ◌≤◌, length, map, All};
ghost use Rattle.std.specs.Bool.{Decides};
ghost use Rattle.definitions.specs.Plans.TableSet as sets;
ghost use Rattle.definitions.specs.Plans.TableSet.{Has};
ghost use Rattle.query_tree.specs.Bound.{column_of};
ghost use Rattle.definitions.specs.Plans.Space.{Space};
ghost use Rattle.plan_tree.specs.Sets.{set_of};
ghost use Rattle.interesting_orders.specs.Labels.{column_at, AreSound, Holds, IsBetween, Joins};
ghost use Rattle.definitions.specs.Plans.ColumnClass.{SameClass};
ghost use Rattle.definitions.specs.Plans.Order as o;

use crate::labels::{relabel, separate};
use plan_tree::TableSet;
use query_tree::BlockColumn;

/// How many columns the conjuncts of a block equate at most, two each.
pub(crate) const MAX_EQUATED: usize = 128;

/// That two columns are equal, by their places in a list of columns.
#[derive(Clone, Copy, Debug, PartialEq, Eq)]
pub(crate) struct Equality {
    pub left: usize,
    pub right: usize,
}

/// Labels columns by the equations whose tables are all in a set.
pub(crate) fn label(
    labels: &mut [u8],
    columns: &[BlockColumn],
    equations: &[Equality],
    tables: TableSet,
)
    requires few { length columns.now ≤ 128 }
    requires paired { length labels.old ≡ length columns.now }
    requires between { All (IsBetween (length columns.now)) equations.now }
    ensures len { length labels.new ≡ length labels.old }
    ensures sound { (space : Space) → All (Holds space (map column_of columns.now)) equations.now →
        AreSound space (set_of tables) (map column_of columns.now) labels.new }
    ensures joined { All (Joins (set_of tables) (map column_of columns.now) labels.new) equations.now }
{
    separate(labels);
    'equations: for equation in equations {
        if has_both(tables, columns, *equation) {
            let (from, to) = (labels[equation.right], labels[equation.left]);
            relabel(labels, from, to);
        }
    }
}

/// Whether the tables of both columns of an equation are in a set.
fn has_both(tables: TableSet, columns: &[BlockColumn], equation: Equality) -> bool
    requires { IsBetween (length columns.now) equation }
    ensures { Decides result (Has (set_of tables) (column_at (map column_of columns.now) equation.left).table ×
        Has (set_of tables) (column_at (map column_of columns.now) equation.right).table) }
{
    tables.has(columns[equation.left].table) && tables.has(columns[equation.right].table)
}

/// The classes of the columns of a list, under a set of a block's tables.
#[derive(Clone, Copy)]
pub struct EquivalenceClasses {
    // by place; columns of one class have one label
    labels: [u8; MAX_EQUATED],
}

impl EquivalenceClasses {
    ghost use Rattle.interesting_orders.specs.Classes.{AreClasses, AreDistinct, AreEquations};

    /// The classes of columns by the equations that a block's early conjuncts say; no column comes twice. It looks at each equation,
    /// and for each whose tables are in the set at each column.
    pub(crate) fn new(
        columns: &[BlockColumn],
        equations: &[Equality],
        tables: TableSet,
    ) -> EquivalenceClasses
        requires few { length columns.now ≤ 128 }
        requires distinct { AreDistinct (map column_of columns.now) }
        requires between { All (IsBetween (length columns.now)) equations.now }
        ensures { (space : Space) → AreEquations space (map column_of columns.now) equations.now →
            AreClasses space (set_of tables) (map column_of columns.now) result }
    {
        let mut labels = [0; MAX_EQUATED];
        let row = &mut labels[..columns.len()];
        label(row, columns, equations, tables);
        EquivalenceClasses { labels }
    }

    /// Whether two of the columns are of one class: they are one, or a chain of early conjuncts equates them whose tables are all in
    /// the set (Selinger et al. 1979, section 5; that the tables have to be there is own).
    pub(crate) fn are_equal(&self, a: usize, b: usize) -> bool
        requires a { a < 128 }
        requires b { b < 128 }
        ensures { (space : Space) (tables : sets.TableSet) (columns : List o.BlockColumn) → a < length columns →
            b < length columns → AreClasses space tables columns self.now →
            Decides result (SameClass space tables (column_at columns a) (column_at columns b)) }
    {
        self.labels[a] == self.labels[b]
    }
}
