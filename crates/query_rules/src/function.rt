//! Set functions: where they may stand, and which values they take.

ghost use Rattle.std.specs.Prelude.{◌≡◌, flat_map, map};
ghost use Rattle.std.specs.List.{list_any};
ghost use Rattle.definitions.specs.Grammar.{member_list, operands};
ghost use Rattle.definitions.specs.Binding.Parts.{is_function, item_values, member_parts, operand_parts, parts};
ghost use Rattle.parse_tree.specs.Trees.{expr_of, list_of, member_of, operand_of};

use parse_tree::{Expr, Operand, SelectList};

/// Whether a set function stands in an expression, outside its subqueries (ISO/IEC 9075:1992, 6.5).
#[cycle(holding)]
pub fn holds_function(expr: &Expr) -> bool
    ensures { result ≡ list_any is_function (parts (expr_of expr.now)) }
{
    match expr {
        Expr::CountRows { .. } | Expr::Function { .. } => true,
        Expr::Signed { operand, .. } | Expr::Not { operand, .. } => holds_function(operand),
        Expr::Line { first, others } => holds_function(first)
            || some_operand_holds_function(others),
        Expr::Compare { left, right, .. } => holds_function(left) || holds_function(right),
        Expr::CompareAll { left, .. } => holds_function(left),
        Expr::IsNull { value, .. } | Expr::Like { value, .. } | Expr::InQuery { value, .. } => {
            holds_function(value)
        }
        Expr::Between {
            value,
            low,
            high,
            ..
        } => holds_function(value) || holds_function(low) || holds_function(high),
        Expr::InList { value, members, .. } => {
            holds_function(value) || some_member_holds_function(members)
        }
        Expr::Column(_)
        | Expr::Numeral(_)
        | Expr::String(_)
        | Expr::Exists { .. }
        | Expr::Scalar { .. } => false,
    }
}

#[cycle(holding)]
fn some_operand_holds_function(others: &[Operand]) -> bool
    ensures { result ≡ list_any is_function (operand_parts (operands (map operand_of others.now))) }
{
    'operands: for operand in others {
        if holds_function(&operand.value) {
            return true;
        }
    }
    false
}

#[cycle(holding)]
fn some_member_holds_function(list: &[Option<Expr>]) -> bool
    ensures { result ≡ list_any is_function (member_parts (member_list (map member_of list.now))) }
{
    'members: for member in list {
        if let Some(expr) = member {
            if holds_function(expr) {
                return true;
            }
        }
    }
    false
}

/// Whether one stands in a result column.
pub fn list_holds_function(list: &SelectList) -> bool
    ensures { result ≡ list_any is_function (flat_map parts (item_values (list_of list.now))) }
{
    match list {
        SelectList::Asterisk { .. } => false,
        SelectList::Items(items) => {
            'items: for item in items {
                if holds_function(&item.value) {
                    return true;
                }
            }
            false
        }
    }
}
