//! What was told of an inner block, kept by the values of its parameters.

ghost use Rattle.std.specs.Prelude.{◌≡◌, ◌<◌, IfOk, Some, length, map};
ghost use Rattle.std.specs.Bool.{Decides};
ghost use Rattle.definitions_answers.specs.Parameters.{outer_values};
ghost use Rattle.definitions.specs.Value.{Null, Text};
ghost use Rattle.sqlvalue.specs.Meaning.{number_of, value_of};
ghost use Rattle.sqlvalue.specs.Owned.{owned_value};
ghost use Rattle.subqueries.specs.Keys.{key_of_option};
ghost use Rattle.subqueries.specs.OuterColumns.{outer_columns_of};

use crate::memory::bytes_of_key;
use crate::parameters::OuterColumn;
use crate::telling::Told;
use filters::OuterRows;
use query_tree::Quantifier;
use sqlvalue::{ComparisonOperator, Num, OwnedValue, Raise, Tri, Value};
use std::alloc::{AllocError, Global};

/// An odd number of 64 bits, by which hashes are multiplied (own).
const SPREAD: u64 = 0x9E37_79B9_7F4A_7C15;

/// A result: what was told of a block where its parameters had these values, whether its existence was all that was asked, its total
/// there, and about how many bytes it takes (own). Where there was no memory for the values it isn't found again.
#[derive(Drop)]
struct KeptResult {
    key: Option<Vec<OwnedValue>>,
    existence: bool,
    told: Told,
    total: u64,
    bytes: u64,
}

/// The results of a block that are kept: each has its place by the hash of its key, and a later one takes the place of an earlier
/// one. One place is the latest (own; Selinger et al. 1979, section 6, use a result again where the referenced value is the same).
/// How many bytes they take together is counted as they come and go, and how many have come.
#[derive(Drop)]
pub struct KeptResults {
    places: Vec<Option<KeptResult>>,
    latest: usize,
    bytes: u64,
    evaluations: u32,
    ghost within: { latest < length places.items },
}

impl KeptResults {
    ghost use Rattle.std.specs.Prelude.{IfNone, IfSome, Ok, OnErr, OnOk, OnSome, is_ok, is_some, max};
    ghost use Rattle.std.specs.List.{AllByRecursion};
    ghost use Rattle.definitions.specs.Queries.Evaluation.{column_values, on_one, quantified};
    ghost use Rattle.definitions.specs.Queries.Telling.{MayAnswer};
    ghost use Rattle.definitions_answers.specs.Told.{meaning_told};
    ghost use Rattle.sqlvalue.specs.Meaning.{op_of};
    ghost use Rattle.sqlvalue.specs.Truths.{truth_of};
    ghost use Rattle.parse_tree.specs.Trees.{quantifier_of};
    ghost use Rattle.expr.specs.Answers.{values_answer_of};
    ghost use Rattle.subqueries.specs.Keeping.{kept_at, key_at, latest_in, kept_with, latest_key, latest_total, places_in, told_last, total_in, IsOther, LeavesOut, Replaces};

    /// So many empty places, and at least one.
    pub fn new(alloc: Global, count: usize) -> Result<KeptResults, AllocError>
        ensures empty { IfOk result (λ r. AllByRecursion (λ place. place ≡ None) (places_in r)) }
        ensures count { IfOk result (λ r. length (places_in r) ≡ max count 1) }
    {
        let mut places = Vec::new(alloc);
        'places: for _place in 0..count.max(1) {
            places.push(None)?;
        }
        Ok(KeptResults {
            places,
            latest: 0,
            bytes: 0,
            evaluations: 0,
        })
    }

    /// The total of the result for the values that the parameters have in the rows around, if it is kept, and as much was asked; it is
    /// the latest then. The latest is looked at first, so it is found again where they are the same.
    pub fn find<A: OuterRows>(
        &mut self,
        existence: bool,
        parameters: &[OuterColumn],
        around: &A,
    ) -> Option<u64>
        ensures key { OnSome result (latest_key self.new
            ≡ Some (outer_values (A.combinations around.now) (outer_columns_of parameters.now))) }
        ensures asked { OnSome result (IfSome (latest_in self.new) (λ kept. kept.existence ≡ existence)) }
        ensures total { IfSome result (λ total. latest_total self.new ≡ Some total) }
        ensures kept { places_in self.new ≡ places_in self.old }
        ensures unchanged { IfNone result (self.new ≡ self.old) }
        ensures missing { IfNone result (IsOther existence
            (outer_values (A.combinations around.now) (outer_columns_of parameters.now)) (latest_in self.old)) }
    {
        if let Some(total) = self.total_at(self.latest, existence, parameters, around) {
            return Some(total);
        }
        let place = place_of(parameters, around, self.places.len());
        let total = self.total_at(place, existence, parameters, around)?;
        self.latest = place;
        Some(total)
    }

    /// The total of the result in a place, where it is for the values that the parameters have in the rows around, and as much was asked.
    fn total_at<A: OuterRows>(
        &self,
        place: usize,
        existence: bool,
        parameters: &[OuterColumn],
        around: &A,
    ) -> Option<u64>
        requires { place < length self.now.places.items }
        ensures key { OnSome result (key_at self.now place
            ≡ Some (outer_values (A.combinations around.now) (outer_columns_of parameters.now))) }
        ensures asked { OnSome result (IfSome (kept_at self.now place) (λ kept. kept.existence ≡ existence)) }
        ensures total { IfSome result (λ total. total_in self.now place ≡ Some total) }
        ensures missing { IfNone result (IsOther existence
            (outer_values (A.combinations around.now) (outer_columns_of parameters.now)) (kept_at self.now place)) }
    {
        match &self.places[place] {
            Some(kept) => {
                if kept.existence == existence && has_key(&kept.key, parameters, around) {
                    Some(kept.total)
                } else {
                    None
                }
            }
            None => None,
        }
    }

    /// Keeps a result in place of another, by its key if it has one; it is the latest.
    pub fn keep(&mut self, key: Option<Vec<OwnedValue>>, existence: bool, told: Told, total: u64)
        ensures latest { latest_in self.new ≡ Some (kept_with key existence told total) }
        ensures kept { Replaces (places_in self.old) (places_in self.new) (kept_with key existence told total) }
    {
        let place = self.place_for(&key);
        let bytes = bytes_of_key(&key).saturating_add(told.bytes());
        self.bytes = self
            .bytes
            .saturating_sub(self.bytes_at(place))
            .saturating_add(bytes);
        self.places[place] = Some(KeptResult {
            key,
            existence,
            told,
            total,
            bytes,
        });
        self.latest = place;
        self.evaluations = self.evaluations.saturating_add(1);
    }

    /// How many results have come to be kept, so how often the block was evaluated.
    pub fn evaluations(&self) -> u32 {
        self.evaluations
    }

    /// Where a result is kept: by the hash of its key, or else where the latest one was.
    fn place_for(&self, key: &Option<Vec<OwnedValue>>) -> usize
        ensures { result < length self.now.places.items }
    {
        match key {
            Some(values) => place_of_key(values, self.places.len()),
            None => self.latest,
        }
    }

    /// About how many bytes they take together.
    pub(crate) fn bytes(&self) -> u64 {
        self.bytes
    }

    /// About how many bytes the result in a place takes.
    fn bytes_at(&self, place: usize) -> u64
        requires { place < length self.now.places.items }
    {
        match &self.places[place] {
            Some(kept) => kept.bytes,
            None => 0,
        }
    }

    /// Gives up all results but the latest.
    pub(crate) fn forget(&mut self)
        ensures { LeavesOut self.old self.new }
    {
        self.bytes = self.bytes_at(self.latest);
        'places: for place in 0..self.places.len() {
            self.clear(place);
        }
    }

    /// Gives up the result in a place, unless it is the latest.
    fn clear(&mut self, place: usize)
        requires { place < length self.old.places.items }
        ensures left { LeavesOut self.old self.new }
        ensures latest { self.new.latest ≡ self.old.latest }
        ensures count { length self.new.places.items ≡ length self.old.places.items }
    {
        if place != self.latest {
            let _given_up = self.places[place].take();
        }
    }

    /// What was told last: no rows, where nothing was.
    pub fn first_values(&self) -> Result<&[OwnedValue], Raise>
        ensures { MayAnswer (on_one column_values (meaning_told (told_last self.now))) (values_answer_of result) }
    {
        match &self.places[self.latest] {
            Some(kept) => kept.told.first_values(),
            None => Ok(&[]),
        }
    }

    /// A value compared with all or any of the first values that were told last (ISO/IEC 9075:1992, 8.7); none where nothing was told,
    /// or an exception.
    pub fn quantified_comparison(
        &self,
        op: ComparisonOperator,
        quantifier: Quantifier,
        value: &Value,
    ) -> Option<Tri>
        ensures truth { IfSome result (λ truth. MayAnswer
            (on_one (quantified (quantifier_of quantifier) (op_of op) (value_of value.now))
            (on_one column_values (meaning_told (told_last self.now)))) (Ok (truth_of truth))) }
        ensures given { IfSome (latest_in self.now) (λ kept. is_some result ≡ is_ok kept.told) }
    {
        match &self.places[self.latest] {
            Some(kept) => kept.told.quantified_comparison(op, quantifier, value),
            None => None,
        }
    }
}

/// Where a result is kept, of so many places, by the hash of the values that the parameters have in the rows around (own).
fn place_of<A: OuterRows>(parameters: &[OuterColumn], around: &A, count: usize) -> usize
    requires { 0 < count }
    ensures { result < count }
{
    let mut hash = 0;
    for outer in parameters {
        let value = around.cell(outer.between, outer.column);
        hash = hashed(hash, &value);
    }
    place_in(hash, count)
}

/// The same of values that are kept.
fn place_of_key(key: &[OwnedValue], count: usize) -> usize
    requires { 0 < count }
    ensures { result < count }
{
    let mut hash = 0;
    for own in key {
        hash = hashed(hash, &own.value());
    }
    place_in(hash, count)
}

fn place_in(hash: u64, count: usize) -> usize
    requires { 0 < count }
    ensures { result < count }
{
    (hash >> 32) as usize % count
}

/// A hash with a further value: a null, the units and the scale of a number, or the bytes of a text (own).
fn hashed(hash: u64, value: &Value) -> u64 {
    match value {
        Value::Null => mixed(hash, 1),
        Value::Num(number) => {
            let units = number.size() & u128::from(u64::MAX);
            mixed(mixed(hash, units as u64), u64::from(number.scale))
        }
        Value::Text(text) => {
            let mut all = hash;
            for byte in text.as_bytes() {
                all = mixed(all, u64::from(*byte));
            }
            all
        }
    }
}

fn mixed(hash: u64, part: u64) -> u64 {
    (hash ^ part).wrapping_mul(SPREAD)
}

/// Whether there is a key, of the very values that the parameters have in the rows around.
fn has_key<A: OuterRows>(
    key: &Option<Vec<OwnedValue>>,
    parameters: &[OuterColumn],
    around: &A,
) -> bool
    ensures { Decides result (key_of_option key.now
        ≡ Some (outer_values (A.combinations around.now) (outer_columns_of parameters.now))) }
{
    match key {
        Some(values) => is_key(values, parameters, around),
        None => false,
    }
}

/// Whether kept values are the very ones that the parameters have in the rows around.
fn is_key<A: OuterRows>(key: &[OwnedValue], parameters: &[OuterColumn], around: &A) -> bool
    ensures { Decides result (map owned_value key.now
        ≡ outer_values (A.combinations around.now) (outer_columns_of parameters.now)) }
{
    if key.len() != parameters.len() {
        return false;
    }
    'values: for i in 0..key.len() {
        let outer = &parameters[i];
        let value = around.cell(outer.between, outer.column);
        if !is_same(&key[i], &value) {
            return false;
        }
    }
    true
}

/// Whether a kept value is this very one: of its kind, with its units at its scale, or with its bytes. (Values that compare as equal
/// may differ, as 1 and 1.0, or 'a' and 'a '.)
fn is_same(kept: &OwnedValue, value: &Value) -> bool
    ensures { Decides result (owned_value kept.now ≡ value_of value.now) }
{
    match kept {
        OwnedValue::Null => is_null(value),
        OwnedValue::Num(number) => is_number(*number, value),
        OwnedValue::Text(text) => is_text(text.as_str(), value),
    }
}

fn is_null(value: &Value) -> bool
    ensures { Decides result (Null ≡ value_of value.now) }
{
    match value {
        Value::Null => true,
        _ => false,
    }
}

fn is_number(number: Num, value: &Value) -> bool
    ensures { Decides result (number_of number ≡ value_of value.now) }
{
    match value {
        Value::Num(other) => number.units == other.units && number.scale == other.scale,
        _ => false,
    }
}

fn is_text(text: &str, value: &Value) -> bool
    ensures { Decides result (Text text.now ≡ value_of value.now) }
{
    match value {
        Value::Text(other) => text == *other,
        _ => false,
    }
}

/// The values that the parameters have in the rows around, kept.
pub(crate) fn key_in<A: OuterRows>(
    alloc: Global,
    parameters: &[OuterColumn],
    around: &A,
) -> Result<Vec<OwnedValue>, AllocError>
    ensures { IfOk result (λ key. map owned_value key.items
        ≡ outer_values (A.combinations around.now) (outer_columns_of parameters.now)) }
{
    let mut key = Vec::new(alloc);
    'values: for outer in parameters {
        let value = around.cell(outer.between, outer.column);
        let kept = OwnedValue::new(alloc, &value)?;
        key.push(kept)?;
    }
    Ok(key)
}
