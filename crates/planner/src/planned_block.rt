//! A block with a least plan.

ghost use Rattle.std.specs.Prelude.{ℕ, ◌<◌, IfOk};
ghost use Rattle.definitions.specs.Binding.Formed.{IsFormedSomewhere};
ghost use Rattle.definitions.specs.Certificates.Explaining.{IsExplained, certified};
ghost use Rattle.definitions.specs.Estimates.Version.{current_version};
ghost use Rattle.definitions.specs.Invariant.{IsDatabase};
ghost use Rattle.definitions.specs.Limits.{most_blocks};
ghost use Rattle.definitions.specs.Queries.BoundBlock as spec;
ghost use Rattle.definitions.specs.Table as tables;
ghost use Rattle.query_tree.specs.Bound.{block_of};
ghost use Rattle.planner.specs.Planned.{IsPlanned};

use catalog::Database;
use certificate::{BlockSpace, Version, write_text};
use join_dp::optimise;
use plan_space::PlanNote;
use plan_tree::{Certificate, Cost, Plan};
use query_tree::Block;
use std::alloc::{AllocError, Global};

/// A bound block's plan space, with what its certificate's text refers to; a least plan, and the certificate that lists every
/// cheaper state (Selinger et al. 1979, section 5).
#[derive(Drop)]
pub struct PlannedBlock<'a> {
    pub own: BlockSpace<'a>,
    pub plan: Plan,
    pub certificate: Certificate,
}

impl<'a> PlannedBlock<'a> {
    /// Plans the block of a number in its query, from 0. It fails where memory runs out.
    pub fn new(
        alloc: Global,
        database: &'a Database,
        block: &'a Block,
        number: u64,
    ) -> Result<PlannedBlock<'a>, AllocError>
        requires formed { IsFormedSomewhere database.now (block_of block.now) }
        ensures { IfOk result (IsPlanned database.now number (block_of block.now)) }
    {
        let own = BlockSpace::new(alloc, database, block, number, Version::Three)?;
        let (plan, certificate, _) = optimise(alloc, &own.space)?;
        Ok(PlannedBlock {
            own,
            plan,
            certificate,
        })
    }

    /// The text of the plan and the certificate, as EXPLAIN prints it (own). It fails where memory runs out.
    pub fn text(&self, alloc: Global) -> Result<Vec<u8>, AllocError>
        ensures { (db : tables.Database) (number : ℕ) (block : spec.Block) → IsDatabase db → number < most_blocks →
            IsFormedSomewhere db block → IsPlanned db number block self.now →
            IfOk result (λ text. IsExplained (certified db number block current_version) text.items) }
    {
        write_text(
            alloc,
            &self.own.certified_block(),
            &self.plan,
            &self.certificate,
        )
    }

    /// Adds what a reader should know of the figures that the plan rests on (own). Where memory runs out, the rest is left out: a
    /// note never costs an answer.
    pub fn add_notes(&self, alloc: Global, notes: &mut Vec<PlanNote>) {
        let number = self.own.number as usize;
        let least = Cost::of(u128::from(self.certificate.target));
        self.own.space.add_notes(alloc, notes, number, least);
    }
}
