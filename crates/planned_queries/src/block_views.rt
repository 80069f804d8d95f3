//! A block with its least plan, its certificate and its names.

ghost use Rattle.definitions.specs.Binding.Formed.{IsFormedSomewhere};
ghost use Rattle.definitions.specs.Plans.Certificate.{IsCertificate};
ghost use Rattle.query_tree.specs.Bound.{block_of};
ghost use Rattle.plan_tree.specs.Certificates.{certificate_of};
ghost use Rattle.cert_check.specs.Planned.{space_in};

use crate::asked::Asker;
use crate::listening::Ledger;
use crate::views::Interest;
use catalog::Database;
use cert_check::{Space, Verdict, check};
use estimate::{Estimate, conjuncts};
use parse_tree::Select;
use plan_texts::BlockNames;
use plan_tree::{Certificate, Plan, TableSet};
use planner::PlannedBlock;
use query_tree::Block;
use std::alloc::{AllocError, Global};

/// A query's tree and its bound blocks.
#[derive(Clone, Copy)]
pub struct Query<'a> {
    pub tree: &'a Select,
    pub blocks: &'a [Block],
}

/// A block of a query as views see it.
#[derive(Drop)]
pub struct BlockView<'a> {
    /// From 0.
    pub number: usize,
    pub block: &'a Block,
    /// The block around it; none of the outermost.
    pub asker: Option<Asker>,
    /// What a file of certificates has from its text on, where one is given.
    pub written: Option<&'a [u8]>,
    pub names: Box<BlockNames<'a>>,
    pub estimate: Box<Estimate<'a>>,
    pub planned: PlannedBlock<'a>,
    /// Whether it was asked for that the least plan's certificate passes the check, and it does.
    pub passes: bool,
    /// What the check compares, as far as that was asked for.
    pub ledger: Ledger,
}

impl<'a> BlockView<'a> {
    /// The view of a block of a query, by its number from 0, where the block around it and its text in a file of certificates are
    /// given, if there are any. It fails where memory runs out.
    pub fn new(
        alloc: Global,
        database: &'a Database,
        query: Query<'a>,
        block: &'a Block,
        number: usize,
        asker: Option<Asker>,
        written: Option<&'a [u8]>,
        interest: Interest<'_>,
    ) -> Result<BlockView<'a>, AllocError>
        requires { IsFormedSomewhere database.now (block_of block.now) }
    {
        // boxed at once: what is large and owned is dropped at each exit behind it
        let names = BlockNames::new(alloc, database, query.tree, query.blocks, number)?;
        let names = Box::new(alloc, names)?;
        let conjuncts = conjuncts(alloc, block)?;
        let estimate = Estimate::new(alloc, database, block, &conjuncts)?;
        let estimate = Box::new(alloc, estimate)?;
        let planned = PlannedBlock::new(alloc, database, block, number as u64)?;
        let passes = matches!(interest, Interest::Verdict) && passes(&planned);
        let ledger = Ledger::of(alloc, &names, &planned, interest)?;
        Ok(BlockView {
            number,
            block,
            asker,
            written,
            names,
            estimate,
            planned,
            passes,
            ledger,
        })
    }

    /// The block's plan space.
    pub fn space(&self) -> &Space<'a> {
        &self.planned.own.space
    }

    /// The block's least plan.
    pub fn plan(&self) -> &Plan {
        &self.planned.plan
    }

    /// The certificate of the least plan.
    pub fn certificate(&self) -> &Certificate {
        &self.planned.certificate
    }

    /// The bound of the state that plans on a set of tables in an order are compared at: its listed cost, or the target.
    pub fn bound(&self, tables: TableSet, order: usize) -> u64 {
        let folded = self.planned.own.space.fold(tables, order);
        let certificate = &self.planned.certificate;
        for state in &certificate.states {
            if state.tables.place() == tables.place() && state.order == folded {
                return state.cost;
            }
        }
        certificate.target
    }

    /// How many rows the block is taken to give, before its late conjuncts.
    pub fn rows(&self) -> u64 {
        self.estimate.cardinality(self.planned.own.space.whole())
    }

    /// The number as people count.
    pub fn shown_number(&self) -> usize {
        self.number.saturating_add(1)
    }
}

/// Whether a least plan's certificate passes the check.
fn passes(planned: &PlannedBlock<'_>) -> bool
    requires { IsCertificate (space_in planned.now.own.space) (certificate_of planned.now.certificate) }
{
    let verdict = check(&planned.own.space, &planned.plan, &planned.certificate);
    matches!(verdict, Verdict::Pass)
}
