//! The plan space of a block, and what a certificate's text refers to.

ghost use Rattle.std.specs.Prelude.{◌≡◌, IfOk, map};
ghost use Rattle.definitions.specs.Binding.Formed.{IsFormedSomewhere};
ghost use Rattle.definitions.specs.Certificates.CertifiedBlock as c;
ghost use Rattle.definitions.specs.Certificates.Explaining.{certified, index_columns_at};
ghost use Rattle.definitions.specs.Certificates.Explaining.{columns_of_indexes};
ghost use Rattle.query_tree.specs.Bound.{block_of};
ghost use Rattle.certificate.specs.Blocks.{IsOf, columns_in};
ghost use Rattle.plan_tree.specs.Versions.{version_of};
ghost use Rattle.certificate.specs.Spaces.{IsBlockSpace};

use crate::certified::CertifiedBlock;
use catalog::{Database, Table};
use estimate::{Estimate, conjuncts};
use plan_space::{Space, Version};
use query_tree::Block;
use std::alloc::{AllocError, Global};

/// The plan space of a block of a query, and what a certificate's text refers to besides.
#[derive(Drop)]
pub struct BlockSpace<'a> {
    pub space: Space<'a>,
    pub version: Version,
    /// The number of the block in its query, from 0.
    pub number: u64,
    /// For each table of the block its indexes, for each of them the numbers of its columns.
    pub indexes: Vec<Vec<Vec<usize>>>,
    pub conjunct_count: usize,
}

impl<'a> BlockSpace<'a> {
    /// The plan space of the block of a number.
    pub fn new(
        alloc: Global,
        database: &'a Database,
        block: &'a Block,
        number: u64,
        version: Version,
    ) -> Result<BlockSpace<'a>, AllocError>
        requires formed { IsFormedSomewhere database.now (block_of block.now) }
        ensures { IfOk result (IsBlockSpace (certified database.now number (block_of block.now) (version_of version))) }
    {
        let conjuncts = conjuncts(alloc, block)?;
        let estimate = Estimate::new(alloc, database, block, &conjuncts)?;
        let indexes = indexes_of(alloc, &estimate)?;
        let conjunct_count = estimate.conjuncts().len();
        let space = Space::new(alloc, estimate, version)?;
        Ok(BlockSpace {
            space,
            version,
            number,
            indexes,
            conjunct_count,
        })
    }

    /// What a text refers to.
    pub fn certified_block(&self) -> CertifiedBlock<'_>
        ensures { (block : c.CertifiedBlock) → IsBlockSpace block self.now → IsOf block result }
    {
        CertifiedBlock {
            version: self.version,
            number: self.number,
            indexes: self.indexes.as_slice(),
            conjunct_count: self.conjunct_count,
            orders: self.space.orders(),
        }
    }
}

/// The columns of the indexes of a block's tables.
fn indexes_of(alloc: Global, estimate: &Estimate<'_>) -> Result<Vec<Vec<Vec<usize>>>, AllocError>
    ensures { IfOk result (λ all. map columns_in all.items
        ≡ map (index_columns_at estimate.now.database) (block_of estimate.now.block).tables) }
{
    let mut all = Vec::new(alloc);
    'tables: for number in 0..estimate.table_count() {
        let indexes = columns_of(alloc, estimate.table(number))?;
        all.push(indexes)?;
    }
    Ok(all)
}

/// The columns of the indexes of a table.
fn columns_of(alloc: Global, table: &Table) -> Result<Vec<Vec<usize>>, AllocError>
    ensures { IfOk result (λ all. columns_in all ≡ columns_of_indexes table.now) }
{
    let mut all = Vec::new(alloc);
    'indexes: for number in 0..table.index_count() {
        let mut columns = Vec::new(alloc);
        columns.extend_from_slice(table.index(number).columns())?;
        all.push(columns)?;
    }
    Ok(all)
}
