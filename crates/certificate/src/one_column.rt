//! Indexes on one column, by which the first version of texts names indexes.

ghost use Rattle.std.specs.Prelude.{◌≡◌, position};
ghost use Rattle.definitions.specs.Certificates.CertifiedBlock as spec;
ghost use Rattle.certificate.specs.Blocks.{columns_of};

/// The first of some indexes that is on one column alone.
pub(crate) fn place_on_column(indexes: &[Vec<usize>], column: usize) -> Option<usize>
    ensures { result ≡ position (spec.is_on_column column) (columns_of indexes.now) }
{
    'indexes: for (place, columns) in indexes.iter().enumerate() {
        if is_on_column(column, columns.as_slice()) {
            return Some(place);
        }
    }
    None
}

fn is_on_column(column: usize, columns: &[usize]) -> bool
    ensures { result ≡ spec.is_on_column column columns.now }
{
    match columns {
        [own] => *own == column,
        _ => false,
    }
}
