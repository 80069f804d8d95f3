//! What the text of a certificate refers to.

ghost use Rattle.std.specs.Prelude.{◌≡◌, ◌+◌, ◌-◌};
ghost use Rattle.definitions.specs.Certificates.CertifiedBlock.{indexes_of};
ghost use Rattle.definitions.specs.Certificates.Writing as spec;
ghost use Rattle.plan_tree.specs.Versions.{version_of};
ghost use Rattle.certificate.specs.Blocks.{block_in, columns_at, columns_of};

use plan_space::Version;
use plan_tree::SortKey;

/// What the text of a certificate refers to, which is of a block of a query.
#[derive(Clone, Copy)]
pub struct CertifiedBlock<'a> {
    /// The version of the plan space that the text speaks of.
    pub version: Version,
    /// The number of the block in its query.
    pub number: u64,
    /// For each table of the block its indexes, for each of them the numbers of its columns.
    pub indexes: &'a [Vec<Vec<usize>>],
    /// How many conjuncts the block has.
    pub conjunct_count: usize,
    /// The numbered orders of the block.
    pub orders: &'a [Vec<SortKey>],
}

impl CertifiedBlock<'_> {
    /// The indexes of a table, or none where it isn't there.
    pub(crate) fn indexes_of(&self, table: usize) -> &[Vec<usize>]
        ensures { columns_of result.now ≡ indexes_of (block_in self.now) table }
    {
        match self.indexes.get(table) {
            Some(indexes) => indexes.as_slice(),
            None => &[],
        }
    }

    /// The columns of an index of a table, or none where it isn't there.
    fn columns(&self, table: usize, index: usize) -> &[usize]
        ensures { result.now ≡ columns_at self.now table index }
    {
        match self.indexes_of(table).get(index) {
            Some(columns) => columns.as_slice(),
            None => &[],
        }
    }

    /// How an index is written: by its number from 1, in the first version by its column from 1.
    pub(crate) fn index_written(&self, table: usize, index: usize) -> u128
        ensures { result ≡ spec.index_written (version_of self.now.version) (indexes_of (block_in self.now) table)
            index }
    {
        match self.version {
            Version::One => match self.columns(table, index).first() {
                Some(column) => from_one(*column),
                None => 1,
            },
            Version::Two | Version::Three => from_one(index),
        }
    }
}

/// A number that counts from 0, counted from 1.
pub(crate) fn from_one(number: usize) -> u128
    ensures { result ≡ number + 1 }
{
    number as u128 + 1
}

/// A number that counts from 1, counted from 0.
pub(crate) fn from_zero(number: u64) -> usize
    ensures { result ≡ number - 1 }
{
    number.saturating_sub(1) as usize
}
