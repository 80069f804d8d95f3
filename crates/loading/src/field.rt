//! What the fields of a file's records are stored as.

ghost use Rattle.std.specs.Prelude.{◌≡◌, bytes_eq};
ghost use Rattle.definitions.specs.Loading.{null_field};

mod number;
mod text;

pub(crate) use number::number_cell;
pub(crate) use text::text_cell;

/// Whether a field is the one that is null.
pub(crate) fn is_null(field: &[u8]) -> bool
    ensures { result ≡ bytes_eq field.now null_field }
{
    field == b"\\N".as_slice()
}
