//! Certificates that were checked.

use certificate_files::FileTold;
use query_tree::Block;
use syntax::Select;

/// A file of certificates, and what was told of it (own).
#[derive(Drop)]
pub struct CheckedFile<'a> {
    pub file: &'a [u8],
    pub query: &'a Select,
    /// The blocks of the query, in the order of their numbers.
    pub blocks: &'a [Block],
    pub told: FileTold<'a>,
}
