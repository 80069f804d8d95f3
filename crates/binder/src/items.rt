//! Binds the result columns of a block, and those that `*` stands for.

ghost use Rattle.std.specs.Prelude.{◌≡◌, ◌≤◌, IfOk, length, map, option_map, string_bytes};
ghost use Rattle.definitions.specs.Limits.{most_blocks};
ghost use Rattle.definitions.specs.Table.{Database as Tables};
ghost use Rattle.definitions.specs.Binding.BoundForm.{header_name, result_name, star_items};
ghost use Rattle.definitions.specs.Binding.Scopes.{all_columns, own_scope};
ghost use Rattle.definitions.specs.Binding.Types.{single_type};
ghost use Rattle.query_tree.specs.Bound.{item_of, value_type_of};
ghost use Rattle.parse_tree.specs.Trees.{item_of as listed_item_of, list_of};
ghost use Rattle.binder.specs.Blocks.{ListAnswer};
ghost use Rattle.query_rules.specs.Leaves.{InSight};
ghost use Rattle.binder.specs.Meaning.{progress_of};

use crate::value::value;
use parse_tree::{Expr, SelectList};
use query_rules::{BindFault, Clause, Scopes};
use query_tree::{Aggregate, Block, Item, ValueExpr, ValueType};
use std::alloc::{AllocError, Global};

/// The result columns of a block, and the type of the only one if it is alone.
#[derive(Drop)]
pub(crate) struct ResultColumns {
    pub items: Vec<Item>,
    pub only: Option<ValueType>,
}

/// The result columns that a select list says (ISO/IEC 9075:1992, 7.9).
#[cycle(binding)]
#[inline(never)]
pub(crate) fn result_columns<'d, 'q: 'd>(
    clause: &Clause<'_, '_, 'd>,
    blocks: &mut Vec<Block>,
    functions: &mut Vec<Aggregate>,
    list: &'q SelectList,
) -> Result<ResultColumns, BindFault<'q>>
    requires sight { InSight clause.now.database.now clause.now.scopes.now }
    requires few { length blocks.old.items ≤ most_blocks }
    ensures { ListAnswer clause.now (progress_of blocks.old.items functions.old.items)
        (progress_of blocks.new.items functions.new.items) (list_of list.now) result }
{
    let list = match list {
        SelectList::Asterisk { .. } => return Ok(all_columns(clause.alloc, clause.scopes)?),
        SelectList::Items(list) => list,
    };
    let mut items = Vec::new(clause.alloc);
    let mut only = None;
    'items: for item in list {
        let name = header_name(clause.alloc, item, items.len() + 1)?;
        let typed = value(clause, blocks, functions, &item.value)?;
        only = if items.is_empty() {
            Some(typed.value_type)
        } else {
            None
        };
        items.push(Item {
            name,
            value: typed.value,
        })?;
    }
    Ok(ResultColumns { items, only })
}

/// The columns of all tables, in the order of FROM (ISO/IEC 9075:1992, 7.9, syntax rule 4).
#[inline(never)]
fn all_columns(alloc: Global, scopes: &Scopes) -> Result<ResultColumns, AllocError>
    ensures are { IfOk result (λ r. (db : Tables) → map item_of r.items.items ≡ star_items db scopes.now) }
    ensures only { IfOk result (λ r. option_map value_type_of r.only
        ≡ single_type (all_columns (own_scope scopes.now))) }
{
    let columns = scopes.own_columns(alloc)?;
    let mut items = Vec::new(alloc);
    'columns: for column in &columns {
        items.push(Item {
            name: String::from_str(alloc, column.name)?,
            value: ValueExpr::Column {
                column: column.column,
                sql_type: column.sql_type,
            },
        })?;
    }
    let only = if columns.len() == 1 {
        Some(ValueType::from(columns[0].sql_type))
    } else {
        None
    };
    Ok(ResultColumns { items, only })
}

/// The name of the result column of a number in the header: its AS name, that of a plain column, or one by the number.
#[inline(never)]
fn header_name(alloc: Global, item: &parse_tree::Item, number: usize) -> Result<String, AllocError>
    ensures { IfOk result (λ name. string_bytes name ≡ header_name number
        (result_name (listed_item_of item.now).value (listed_item_of item.now).alias)) }
{
    match (&item.alias, &item.value) {
        (Some(name), _) => String::from_str(alloc, name.text.as_str()),
        (None, Expr::Column(reference)) => String::from_str(alloc, reference.name.text.as_str()),
        (None, _) => format!(in alloc; "COL{number}"),
    }
}
