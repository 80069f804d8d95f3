//! Labels of columns, by place.

ghost use Rattle.std.specs.Prelude.{ℕ, ◌≡◌, ◌<◌, ◌≤◌, length, slice_index_or};
ghost use Rattle.interesting_orders.specs.Labels.{merged};

/// Gives each place a label of its own.
pub(crate) fn separate(labels: &mut [u8])
    requires { length labels.old ≤ 128 }
    ensures len { length labels.new ≡ length labels.old }
    ensures apart { (i : ℕ) → i < length labels.old → slice_index_or labels.new i 0 ≡ i }
{
    'places: for i in 0..labels.len() {
        labels[i] = i as u8;
    }
}

/// Gives the places that have one label another.
pub(crate) fn relabel(labels: &mut [u8], from: u8, to: u8)
    ensures len { length labels.new ≡ length labels.old }
    ensures merged { (i : ℕ) → i < length labels.old →
        slice_index_or labels.new i 0 ≡ merged from to (slice_index_or labels.old i 0) }
{
    'places: for i in 0..labels.len() {
        if labels[i] == from {
            labels[i] = to;
        }
    }
}
