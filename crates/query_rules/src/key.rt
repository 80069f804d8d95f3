//! The keys of ORDER BY, by position or by the name of a result column.

ghost use Rattle.std.specs.Prelude.{◌≡◌, ◌≢◌, ◌≤◌, IfOk, IfErr, IfSome, IsNone, OnOk, count_by, length, map};
ghost use Rattle.std.specs.List.{position_or_len};
ghost use Rattle.definitions.specs.Limits.{most_keys};
ghost use Rattle.definitions.specs.Refusal.{UnknownKey};
ghost use Rattle.definitions.specs.Binding.BoundForm.{has_name, key_item, result_name, result_names};
ghost use Rattle.definitions.specs.Binding.Faults.{IsUnknownKey};
ghost use Rattle.query_tree.specs.Bound.{item_of, key_of};
ghost use Rattle.parse_tree.specs.Trees.{item_of as listed_item_of, key_name_of, key_of as tree_key_of, list_of};
ghost use Rattle.query_rules.specs.Keys.{bound_keys, header_of, known_name, known_names, names_by, IsKnownKey, RefusesOrder, SomeKeyIsUnknown};
ghost use Rattle.query_rules.specs.Meaning.{bind_refusal};

use crate::fault::{BindFault, QueryFault};
use parse_tree::{Expr, KeyName, MAX_KEYS, SelectList};
use query_tree::{Item, Key};
use std::alloc::{AllocError, Global};

/// The keys of an order over a block's result columns, which are bound (ISO/IEC 9075:1992, 13.1, syntax rules 3 to 5; the
/// limit is own).
pub fn bound_order<'a>(
    alloc: Global,
    list: &SelectList,
    items: &[Item],
    order: &'a [parse_tree::Key],
) -> Result<Vec<Key>, BindFault<'a>>
    ensures ok { IfOk result (λ keys. map key_of keys.items
        ≡ bound_keys (names_by (list_of list.now) (map item_of items.now)) (map tree_key_of order.now)) }
    ensures known { OnOk result (SomeKeyIsUnknown (names_by (list_of list.now) (map item_of items.now))
        (map tree_key_of order.now) → ⊥) }
    ensures few { OnOk result (length order.now ≤ most_keys) }
    ensures refused { IfErr result (λ f. IfSome (bind_refusal f)
        (RefusesOrder (names_by (list_of list.now) (map item_of items.now)) (map tree_key_of order.now))) }
{
    if let Some(key) = order.get(MAX_KEYS) {
        return Err(BindFault::Refused(QueryFault::ManyKeys(key)));
    }
    let names = column_names(alloc, list, items)?;
    keys_by_names(alloc, &names, order)
}

fn keys_by_names<'a>(
    alloc: Global,
    names: &[Option<&str>],
    order: &'a [parse_tree::Key],
) -> Result<Vec<Key>, BindFault<'a>>
    ensures ok { IfOk result (λ keys. map key_of keys.items
        ≡ bound_keys (known_names names.now) (map tree_key_of order.now)) }
    ensures known { OnOk result (SomeKeyIsUnknown (known_names names.now) (map tree_key_of order.now) → ⊥) }
    ensures refused { IfErr result (λ f. IfSome (bind_refusal f) (λ r. (r ≡ UnknownKey) ×
        SomeKeyIsUnknown (known_names names.now) (map tree_key_of order.now))) }
{
    let mut keys = Vec::new(alloc);
    'keys: for key in order {
        let Some(item) = item_of_key(names, &key.name) else {
            return Err(BindFault::Refused(QueryFault::UnknownKey(key)));
        };
        keys.push(Key {
            item,
            descending: key.descending,
        })?;
    }
    Ok(keys)
}

/// The number of the result column that a key names, from 0.
fn item_of_key(names: &[Option<&str>], key: &KeyName) -> Option<usize>
    ensures some { IfSome result (λ item. item ≡ key_item (known_names names.now) (key_name_of key.now)) }
    ensures known { IfSome result (λ _. IsKnownKey (known_names names.now) (key_name_of key.now)) }
    ensures none { IsNone result → IsUnknownKey (known_names names.now) (key_name_of key.now) }
{
    match key {
        KeyName::Name(name) => only_named(names, name.text.as_str()),
        KeyName::Position(position) => {
            if position.units == 0 || position.units > names.len() as u128 {
                return None;
            }
            Some((position.units - 1) as usize)
        }
    }
}

/// The number of the only result column of a name.
fn only_named(names: &[Option<&str>], name: &str) -> Option<usize>
    ensures some { IfSome result (λ item. item ≡ position_or_len (has_name name.now) (known_names names.now)) }
    ensures one { IfSome result (λ _. count_by (has_name name.now) (known_names names.now) ≡ 1) }
    ensures none { IsNone result → count_by (has_name name.now) (known_names names.now) ≢ 1 }
{
    let mut only = None;
    'names: for (i, other) in names.iter().enumerate() {
        if is_named(*other, name) {
            if only.is_some() {
                return None;
            }
            only = Some(i);
        }
    }
    only
}

fn is_named(other: Option<&str>, name: &str) -> bool
    ensures { result ≡ has_name name.now (known_name other.entry) }
{
    match other {
        Some(other) => other == name,
        None => false,
    }
}

/// The names of a block's result columns, where they have one (ISO/IEC 9075:1992, 7.9, syntax rule 9).
fn column_names<'a>(
    alloc: Global,
    list: &'a SelectList,
    items: &'a [Item],
) -> Result<Vec<Option<&'a str>>, AllocError>
    ensures { IfOk result (λ names. known_names names.items ≡ names_by (list_of list.now) (map item_of items.now)) }
{
    match list {
        SelectList::Asterisk { .. } => asterisk_names(alloc, items),
        SelectList::Items(list) => listed_names(alloc, list),
    }
}

fn asterisk_names<'a>(alloc: Global, items: &'a [Item]) -> Result<Vec<Option<&'a str>>, AllocError>
    ensures { IfOk result (λ names. known_names names.items ≡ map header_of (map item_of items.now)) }
{
    let mut names = Vec::new(alloc);
    'columns: for item in items {
        names.push(Some(item.name.as_str()))?;
    }
    Ok(names)
}

fn listed_names<'a>(
    alloc: Global,
    list: &'a [parse_tree::Item],
) -> Result<Vec<Option<&'a str>>, AllocError>
    ensures { IfOk result (λ names. known_names names.items ≡ result_names (map listed_item_of list.now)) }
{
    let mut names = Vec::new(alloc);
    'listed: for item in list {
        names.push(column_name(item))?;
    }
    Ok(names)
}

/// The name of a result column: its AS name, or that of a plain column.
fn column_name(item: &parse_tree::Item) -> Option<&str>
    ensures { known_name result ≡ result_name (listed_item_of item.now).value (listed_item_of item.now).alias }
{
    match (&item.alias, &item.value) {
        (Some(name), _) => Some(name.text.as_str()),
        (None, Expr::Column(reference)) => Some(reference.name.text.as_str()),
        (None, _) => None,
    }
}
