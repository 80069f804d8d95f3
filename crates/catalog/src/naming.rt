//! Names in order, and those that come twice.

ghost use Rattle.std.specs.Prelude.{◌≡◌, ◌<◌, ◌++◌, ◌∷◌, [], ℕ, List, IsFalse, IfSome, IsNone, OnSome, IfOk, OnOk, OnErr, length, map, bytes_eq};
ghost use Rattle.std.specs.List.{list_any, position_from};
ghost use Rattle.definitions.specs.Table.{AreDistinct};
ghost use Rattle.definitions.specs.Faults.{definition_names};
ghost use Rattle.parse_tree.specs.Trees.{name_of, definitions_of};

use indexmap::IndexSet;
use parse_tree::{ColumnDefinition, Name};
use std::alloc::{AllocError, Global};
use std::marker::Model;

/// Names in the order in which they were added. The place of one is found by its hash, so that a look-up does not walk
/// them.
#[derive(Drop)]
pub(crate) struct Names {
    set: IndexSet<String>,
}

impl Model for Names {
    ghost use Rattle.std.specs.Prelude.{List, map};
    ghost use Rattle.std.specs.String.{string_bytes};
    ghost use Rattle.definitions.specs.Statement.{Name};

    ghost Value = { List Name };

    ghost view = { λ n. map string_bytes n.set.keys };
}

impl Names {
    /// A set without names.
    pub(crate) fn new(alloc: Global) -> Names
        ensures { result ≡ [] }
    {
        Names {
            set: IndexSet::new(alloc),
        }
    }

    /// The names of columns, no two of which are the same.
    pub(crate) fn of_columns(
        alloc: Global,
        definitions: &[ColumnDefinition],
    ) -> Result<Names, AllocError>
        requires { AreDistinct (definition_names (definitions_of definitions.now)) }
        ensures { IfOk result (λ names. names ≡ definition_names (definitions_of definitions.now)) }
    {
        let mut names = Names::new(alloc);
        for definition in definitions {
            names.push(alloc, definition.name.text.as_str())?;
        }
        Ok(names)
    }

    /// Adds a name that is not there behind the others. An `Err` leaves them as they were.
    pub(crate) fn push(&mut self, alloc: Global, name: &str) -> Result<(), AllocError>
        requires { IsFalse (list_any (bytes_eq name.now) self.old) }
        ensures ok { OnOk result (self.new ≡ self.old ++ name.now ∷ []) }
        ensures err { OnErr result (self.new ≡ self.old) }
    {
        let own = String::from_str(alloc, name)?;
        self.set.insert(own)?;
        Ok(())
    }

    /// The place of a name, from 0.
    pub(crate) fn place(&self, name: &str) -> Option<usize>
        ensures first { result ≡ position_from (λ n. bytes_eq n name.now) 0 self.now }
        ensures within { IfSome result (λ place. place < length self.now) }
    {
        self.set.get_index_of(name)
    }
}

/// What stands in a list under a name that no other has.
pub(crate) trait Named {
    ghost named: { Self → List ℕ };

    fn name(&self) -> &str
        ensures { result.now ≡ named self.now };
}

impl Named for Name {
    ghost named = { name_of };

    fn name(&self) -> &str {
        self.text.as_str()
    }
}

impl Named for ColumnDefinition {
    ghost named = { λ d. name_of d.name };

    fn name(&self) -> &str {
        self.name.text.as_str()
    }
}

/// The place of an item that has the name of one before it.
pub(crate) fn second_twin<T: Named>(items: &[T]) -> Option<usize>
    ensures twins { OnSome result (¬ (AreDistinct (map T.Named.named items.now))) }
    ensures none { IsNone result → AreDistinct (map T.Named.named items.now) }
{
    for (i, item) in items.iter().enumerate() {
        if has_name(&items[i + 1..], item.name()) {
            return Some(place_behind(items, i));
        }
    }
    None
}

/// The place of the next item of the name of one.
fn place_behind<T: Named>(items: &[T], place: usize) -> usize
    requires { place < length items.now }
{
    let name = items[place].name();
    for (behind, item) in items[place + 1..].iter().enumerate() {
        if item.name() == name {
            return place.saturating_add(behind).saturating_add(1);
        }
    }
    place
}

fn has_name<T: Named>(items: &[T], name: &str) -> bool
    ensures { result ≡ list_any (bytes_eq name.now) (map T.Named.named items.now) }
{
    for item in items {
        if name == item.name() {
            return true;
        }
    }
    false
}
