//! Classes of the columns that conjuncts equate.

ghost use Rattle.std.specs.Prelude.{◌≡◌, ◌<◌, ◌≤◌, All, IfOk, IfSome, length, map, option_map};
ghost use Rattle.std.specs.Bool.{Decides};
ghost use Rattle.definitions.specs.Limits.{most_conjuncts};
ghost use Rattle.definitions.specs.Plans.TableSet as sets;
ghost use Rattle.definitions.specs.Plans.ColumnClass.{SameClass, Satisfies};
ghost use Rattle.definitions.specs.Plans.Space.{Space};
ghost use Rattle.query_tree.specs.Bound.{column_of};
ghost use Rattle.interesting_orders.specs.Classes.{AreDistinct};
ghost use Rattle.interesting_orders.specs.Labels.{IsBetween};
ghost use Rattle.estimate.specs.PlanConjuncts.{conjunct_of};
ghost use Rattle.plan_tree.specs.Plans.{key_of, order_of};
ghost use Rattle.plan_tree.specs.Sets.{set_of};
ghost use Rattle.interesting_orders.specs.Places.{AreBetween};
ghost use Rattle.interesting_orders.specs.Reach.{AreThose};
ghost use Rattle.interesting_orders.specs.Merges.{leading_of, IsOpened, IsWithin, IsWithSide};

use crate::equivalence_classes::{Equality, EquivalenceClasses};
use crate::places::{are_equal, equated_columns, equations_of, given_equations, place_of};
use crate::reach::with_table;
use estimate::PlanConjunct;
use plan_tree::{SortKey, TableSet};
use query_tree::BlockColumn;
use std::alloc::{AllocError, Global};

/// The two columns of a merge conjunct, by place: that of the outer side and that of the table that comes next.
#[derive(Clone, Copy)]
pub(crate) struct MergeSides {
    pub outer: usize,
    pub inner: usize,
}

/// The columns that the early conjuncts of a block equate.
#[derive(Drop)]
pub(crate) struct EquatedColumns {
    columns: Vec<BlockColumn>,
    // by conjunct
    equations: Vec<Option<Equality>>,
    // those that are there
    given: Vec<Equality>,
    ghost few: { length columns.items ≤ 128 },
    ghost distinct: { AreDistinct (map column_of columns.items) },
    ghost between: { All (AreBetween (length columns.items)) equations.items },
    ghost within: { All (IsBetween (length columns.items)) given.items },
}

impl EquatedColumns {
    ghost use Rattle.interesting_orders.specs.Equated.{column_in, equation_in, places_in, AreClassesOf, AreEquated, AreSides, IsLead};

    pub fn new(alloc: Global, conjuncts: &[PlanConjunct]) -> Result<EquatedColumns, AllocError>
        requires few { length conjuncts.now ≤ most_conjuncts }
        ensures { (space : Space) → space.conjuncts ≡ map conjunct_of conjuncts.now →
            IfOk result (AreEquated space) }
    {
        let columns = equated_columns(alloc, conjuncts)?;
        let equations = equations_of(alloc, &columns, conjuncts)?;
        let given = given_equations(alloc, &equations)?;
        Ok(EquatedColumns {
            columns,
            equations,
            given,
        })
    }

    /// The classes of the columns under a set of tables.
    pub fn classes(&self, tables: TableSet) -> EquivalenceClasses
        ensures { (space : Space) → AreEquated space self.now → AreClassesOf space (set_of tables) self.now result }
    {
        EquivalenceClasses::new(&self.columns, &self.given, tables)
    }

    /// The table of the column at a place.
    pub fn table(&self, place: usize) -> usize
        requires { place < places_in self.now }
        ensures { result ≡ (column_in self.now place).table }
    {
        self.columns[place].table
    }

    /// Whether the columns at two places are of one class.
    pub fn are_joined(&self, classes: &EquivalenceClasses, a: usize, b: usize) -> bool
        requires a { a < places_in self.now }
        requires b { b < places_in self.now }
        ensures { (space : Space) (tables : sets.TableSet) → AreClassesOf space tables self.now classes.now →
            Decides result (SameClass space tables (column_in self.now a) (column_in self.now b)) }
    {
        classes.are_equal(a, b)
    }

    /// Whether two columns are of one class.
    fn are_equal(&self, classes: &EquivalenceClasses, a: BlockColumn, b: BlockColumn) -> bool
        ensures { (space : Space) (tables : sets.TableSet) → AreEquated space self.now →
            AreClassesOf space tables self.now classes.now →
            Decides result (SameClass space tables (column_of a) (column_of b)) }
    {
        if are_equal(a, b) {
            return true;
        }
        match (place_of(&self.columns, a), place_of(&self.columns, b)) {
            (Some(a), Some(b)) => self.are_joined(classes, a, b),
            _ => false,
        }
    }

    /// Whether rows in one order are in another, too, on all rows of plans on the tables under which the classes are.
    pub fn satisfies(
        &self,
        classes: &EquivalenceClasses,
        order: &[SortKey],
        wanted: &[SortKey],
    ) -> bool
        ensures { (space : Space) (tables : sets.TableSet) → AreEquated space self.now →
            AreClassesOf space tables self.now classes.now →
            Decides result (Satisfies space tables (order_of order.now) (order_of wanted.now)) }
    {
        if order.len() < wanted.len() {
            return false;
        }
        'keys: for place in 0..wanted.len() {
            if !self.serves(classes, order[place], wanted[place]) {
                return false;
            }
        }
        true
    }

    /// Whether one key serves for another.
    fn serves(&self, classes: &EquivalenceClasses, key: SortKey, wanted: SortKey) -> bool
        ensures { (space : Space) (tables : sets.TableSet) → AreEquated space self.now →
            AreClassesOf space tables self.now classes.now →
            Decides result (((key_of key).descending ≡ (key_of wanted).descending) ×
            SameClass space tables (key_of key).column (key_of wanted).column) }
    {
        key.descending == wanted.descending && self.are_equal(classes, key.column, wanted.column)
    }

    /// The place of the column that an order leads with, if it is ascending and equated with another.
    pub fn lead(&self, order: &[SortKey]) -> Option<usize>
        ensures within { IsWithin (places_in self.now) result }
        ensures exact { IsLead self.now (order_of order.now) result }
    {
        place_of(&self.columns, leading_column(order)?)
    }

    /// What an early conjunct equates.
    fn equation(&self, conjunct: usize) -> Option<Equality>
        ensures within { IfSome result (IsBetween (places_in self.now)) }
        ensures exact { result ≡ equation_in self.now conjunct }
    {
        *self.equations.get(conjunct)?
    }

    /// The columns of a merge conjunct by which a table comes next.
    pub fn sides(&self, conjunct: usize, table: usize) -> Option<MergeSides>
        ensures outer { IfSome result (λ s. s.outer < places_in self.now) }
        ensures inner { IfSome result (λ s. s.inner < places_in self.now) }
        ensures exact { (space : Space) → AreEquated space self.now → AreSides space self.now conjunct table result }
    {
        let equation = self.equation(conjunct)?;
        let (left, right) = (self.table(equation.left), self.table(equation.right));
        if left == right {
            None
        } else if right == table {
            Some(MergeSides {
                outer: equation.left,
                inner: equation.right,
            })
        } else if left == table {
            Some(MergeSides {
                outer: equation.right,
                inner: equation.left,
            })
        } else {
            None
        }
    }

    /// The tables that may come next by a merge on a column, or on one of its class.
    pub fn partners(&self, classes: &EquivalenceClasses, lead: usize) -> Option<TableSet>
        requires within { lead < places_in self.now }
        ensures { (space : Space) (tables : sets.TableSet) → AreEquated space self.now →
            AreClassesOf space tables self.now classes.now →
            AreThose (IsOpened space tables (column_in self.now lead)) (option_map set_of result) }
    {
        let mut partners = Some(TableSet::none());
        'equations: for equation in &self.equations {
            if let Some(equation) = equation {
                partners = self.with_side(classes, lead, equation.left, equation.right, partners);
                partners = self.with_side(classes, lead, equation.right, equation.left, partners);
            }
        }
        partners
    }

    /// With the table of the column to which a merge leads from another one, if that is of the leading column's class.
    fn with_side(
        &self,
        classes: &EquivalenceClasses,
        lead: usize,
        from: usize,
        to: usize,
        partners: Option<TableSet>,
    ) -> Option<TableSet>
        requires lead { lead < places_in self.now }
        requires from { from < places_in self.now }
        requires to { to < places_in self.now }
        ensures { (space : Space) (tables : sets.TableSet) → AreClassesOf space tables self.now classes.now →
            IsWithSide space tables (column_in self.now lead) (column_in self.now from)
            (column_in self.now to) (option_map set_of partners) (option_map set_of result) }
    {
        if self.table(from) != self.table(to) && self.are_joined(classes, lead, from) {
            with_table(partners, self.table(to))
        } else {
            partners
        }
    }
}

/// The column that an order leads with, if it is ascending.
fn leading_column(order: &[SortKey]) -> Option<BlockColumn>
    ensures { option_map column_of result ≡ leading_of (order_of order.now) }
{
    let key = order.first()?;
    if key.descending {
        None
    } else {
        Some(key.column)
    }
}
