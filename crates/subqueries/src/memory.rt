//! How much memory values take.

use sqlvalue::OwnedValue;
use std::mem::size_of;

/// About how many bytes a list of values takes, with their texts (own).
pub(crate) fn bytes_of_values(values: &Vec<OwnedValue>) -> u64 {
    let mut bytes = bytes_of(values.capacity(), size_of::<OwnedValue>());
    for value in values.as_slice() {
        if let OwnedValue::Text(text) = value {
            bytes = bytes.saturating_add(text.capacity() as u64);
        }
    }
    bytes
}

/// About how many bytes a key takes, if there is one.
pub(crate) fn bytes_of_key(key: &Option<Vec<OwnedValue>>) -> u64 {
    match key {
        Some(values) => bytes_of_values(values),
        None => 0,
    }
}

/// How many bytes a number of elements of a size takes; the greatest number where they are more than it counts.
pub(crate) fn bytes_of(count: usize, size: usize) -> u64 {
    (count as u64).saturating_mul(size as u64)
}
