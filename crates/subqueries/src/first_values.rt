//! The first values of rows, in order.

ghost use Rattle.std.specs.Prelude.{◌≡◌, ◌≤◌, All, IfOk, IsPermutation, IsSome, IsSortedByKey, Some, false, is_some, length, map, true};
ghost use Rattle.std.specs.Bool.{Decides};
ghost use Rattle.std.specs.List.Sorted.{IsPartitionPoint};
ghost use Rattle.std.specs.Option.{ForSome};
ghost use Rattle.std.specs.Ordering.{is_le, is_lt};
ghost use Rattle.definitions.specs.Truth.{compared_with_any, True};
ghost use Rattle.definitions.specs.Value as spec;
ghost use Rattle.definitions.specs.Queries.Evaluation.{quantified};
ghost use Rattle.sqlvalue.specs.Meaning.{op_of, value_of};
ghost use Rattle.sqlvalue.specs.Owned.{owned_value};
ghost use Rattle.sqlvalue.specs.Truths.{truth_of};
ghost use Rattle.parse_tree.specs.Trees.{quantifier_of};
ghost use Rattle.subqueries.specs.Comparing.{HasAgreeing, HasOrder, HasOrderAt};
ghost use Rattle.subqueries.specs.NumberKeys.{AreKeys};

use crate::memory::{bytes_of, bytes_of_values};
use query_tree::Quantifier;
use sqlvalue::{ComparisonOperator, OwnedValue, Tri, Value, compare, number_key, rank};
use std::alloc::{AllocError, Global};
use std::cmp::Ordering;
use std::mem::size_of;

/// Whole numbers that rank as values do, which are nulls and numbers of one scale (own).
#[derive(Drop)]
struct NumberKeys {
    scale: u8,
    keys: Vec<i64>,
}

/// The first values of rows, by their rank: nulls first, then numbers, then texts; and their keys, where they have them (own).
#[derive(Drop)]
pub struct FirstValues {
    values: Vec<OwnedValue>,
    keys: Option<NumberKeys>,
    ghost sorted: { IsSortedByKey owned_value spec.rank values.items },
    ghost keyed: { ForSome keys (λ k. AreKeys k.scale values.items k.keys.items) },
}

impl FirstValues {
    ghost use Rattle.subqueries.specs.FirstValues.{values_in};

    /// Puts values in the order of their rank.
    pub fn new(alloc: Global, mut values: Vec<OwnedValue>) -> Result<FirstValues, AllocError>
        ensures { IfOk result (λ own. IsPermutation (map owned_value values.items) (values_in own)) }
    {
        values.sort_unstable_by(|a, b| rank(&a.value(), &b.value()));
        let keys = number_keys(alloc, values.as_slice())?;
        Ok(FirstValues { values, keys })
    }

    /// Lends them.
    pub fn as_slice(&self) -> &[OwnedValue]
        ensures { map owned_value result.now ≡ values_in self.now }
    {
        self.values.as_slice()
    }

    /// About how many bytes they take (own).
    pub(crate) fn bytes(&self) -> u64 {
        match &self.keys {
            // Where all have keys none is a text.
            Some(own) => bytes_of(self.values.capacity(), size_of::<OwnedValue>()).saturating_add(
                bytes_of(own.keys.capacity(), size_of::<i64>()),
            ),
            None => bytes_of_values(&self.values),
        }
    }

    /// A value compared with all or any of them (ISO/IEC 9075:1992, 8.7). It takes time that grows as the logarithm of their number
    /// (own).
    pub fn quantified_comparison(
        &self,
        op: ComparisonOperator,
        quantifier: Quantifier,
        value: &Value,
    ) -> Tri
        ensures { truth_of result ≡ quantified (quantifier_of quantifier) (op_of op) (value_of value.now)
            (values_in self.now) }
    {
        match quantifier {
            Quantifier::All => self.with_any(op.negated(), value).not(),
            Quantifier::Any => self.with_any(op, value),
        }
    }

    /// A value compared with any of them: where no comparison is true, it is false if none is unknown.
    fn with_any(&self, op: ComparisonOperator, value: &Value) -> Tri
        ensures { truth_of result ≡ compared_with_any (op_of op) (value_of value.now) (values_in self.now) }
    {
        if self.has(op, value) {
            Tri::True
        } else if self.are_comparable(value) {
            Tri::False
        } else {
            Tri::Unknown
        }
    }

    /// Whether the comparison with one of them is true.
    fn has(&self, op: ComparisonOperator, value: &Value) -> bool
        ensures { Decides result (compared_with_any (op_of op) (value_of value.now) (values_in self.now) ≡ True) }
    {
        self.has_agreeing(op, Ordering::Equal, value)
            || self.has_agreeing(op, Ordering::Less, value)
            || self.has_agreeing(op, Ordering::Greater, value)
    }

    /// Whether an operator asks for an order, and one of them has it.
    fn has_agreeing(&self, op: ComparisonOperator, order: Ordering, value: &Value) -> bool
        ensures { Decides result (HasAgreeing (op_of op) order (value_of value.now) (values_in self.now)) }
    {
        op.agrees(order) && self.has_order(order, value)
    }

    /// Whether a value compares so with one of them: then it does with the nearest one that ranks so.
    fn has_order(&self, order: Ordering, value: &Value) -> bool
        ensures { Decides result (HasOrder order (value_of value.now) (values_in self.now)) }
    {
        match order {
            Ordering::Less => self.has_order_at(self.count_through(value), order, value),
            Ordering::Equal => self.has_order_at(self.count_before(value), order, value),
            Ordering::Greater => match self.count_before(value).checked_sub(1) {
                Some(last) => self.has_order_at(last, order, value),
                None => false,
            },
        }
    }

    /// Whether a value compares so with the one in a place.
    fn has_order_at(&self, place: usize, order: Ordering, value: &Value) -> bool
        ensures { Decides result (HasOrderAt place order (value_of value.now) (values_in self.now)) }
    {
        match self.values.get(place) {
            Some(own) => is_ordered(own, value, order),
            None => false,
        }
    }

    /// How many of them rank before a value; they are the first.
    fn count_before(&self, value: &Value) -> usize
        ensures point { IsPartitionPoint (λ own. is_lt (spec.rank (owned_value own) (value_of value.now)) ≡ true)
            (λ own. is_lt (spec.rank (owned_value own) (value_of value.now)) ≡ false) self.now.values.items result }
        ensures within { result ≤ length self.now.values.items }
    {
        if let Some(own) = &self.keys
            && let Some(key) = number_key(value, own.scale)
        {
            return own.keys.partition_point(|other| other.cmp(&key).is_lt());
        }
        self.values
            .partition_point(|own| rank(&own.value(), value).is_lt())
    }

    /// How many of them rank before a value or with it; they are the first.
    fn count_through(&self, value: &Value) -> usize
        ensures { IsPartitionPoint (λ own. is_le (spec.rank (owned_value own) (value_of value.now)) ≡ true)
            (λ own. is_le (spec.rank (owned_value own) (value_of value.now)) ≡ false) self.now.values.items result }
    {
        if let Some(own) = &self.keys
            && let Some(key) = number_key(value, own.scale)
        {
            return own.keys.partition_point(|other| other.cmp(&key).is_le());
        }
        self.values
            .partition_point(|own| rank(&own.value(), value).is_le())
    }

    /// Whether each of them can be compared with a value. It is so where the first and the last can.
    fn are_comparable(&self, value: &Value) -> bool
        ensures { Decides result (All (λ own. IsSome (spec.compare (value_of value.now) own)) (values_in self.now)) }
    {
        if self.values.is_empty() {
            return true;
        }
        let last = self.values.len() - 1;
        is_comparable(&self.values[0], value) && is_comparable(&self.values[last], value)
    }
}

/// The keys of values, where all are nulls and numbers of one scale: that of the last, since they rank behind nulls.
fn number_keys(alloc: Global, values: &[OwnedValue]) -> Result<Option<NumberKeys>, AllocError>
    ensures { IfOk result (λ own. ForSome own (λ k. AreKeys k.scale values.now k.keys.items)) }
{
    let scale = match values.last() {
        Some(OwnedValue::Num(number)) => number.scale,
        _ => return Ok(None),
    };
    let mut keys = Vec::new(alloc);
    'values: for value in values {
        match number_key(&value.value(), scale) {
            Some(key) => keys.push(key)?,
            None => return Ok(None),
        }
    }
    Ok(Some(NumberKeys { scale, keys }))
}

/// Whether a value compares so with a kept one (ISO/IEC 9075:1992, 8.2).
fn is_ordered(own: &OwnedValue, value: &Value, order: Ordering) -> bool
    ensures { Decides result (spec.compare (value_of value.now) (owned_value own.now) ≡ Some order) }
{
    compare(value, &own.value()) == Some(order)
}

/// Whether a value can be compared with a kept one: neither is a null, and they are of one kind (ISO/IEC 9075:1992, 8.2).
fn is_comparable(own: &OwnedValue, value: &Value) -> bool
    ensures { result ≡ is_some (spec.compare (value_of value.now) (owned_value own.now)) }
{
    compare(value, &own.value()).is_some()
}
