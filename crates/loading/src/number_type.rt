//! Which numbers a type has.

ghost use Rattle.std.specs.Prelude.{◌≡◌, ◌≤◌, ◌^◌};
ghost use Rattle.definitions.specs.Limits.{greatest_precision};
ghost use Rattle.definitions.specs.Value as spec;
ghost use Rattle.sqlvalue.specs.Meaning.{type_of};
ghost use Rattle.loading.specs.NumberTypes.{size_limit_of};

use sqlvalue::SqlType;

/// The least size that the units of a type do not have on a side of zero.
pub(crate) fn size_limit(sql_type: SqlType, negative: bool) -> u128
    requires { spec.IsType (type_of sql_type) }
    ensures value { result ≡ size_limit_of (type_of sql_type) negative }
    ensures bound { result ≤ 10 ^ greatest_precision }
{
    match sql_type {
        SqlType::Smallint => (1 << 15) + u128::from(negative),
        SqlType::Integer => (1 << 31) + u128::from(negative),
        SqlType::Numeric { precision, .. } => u128::from(10u64.pow(u32::from(precision))),
        SqlType::Char { .. } => 0,
    }
}
