//! The blocks of a query, each with a least plan.

ghost use Rattle.std.specs.Prelude.{◌≤◌, IfOk, length, map};
ghost use Rattle.std.specs.List.{AllByRecursion};
ghost use Rattle.definitions.specs.Binding.Formed.{IsFormedSomewhere};
ghost use Rattle.definitions.specs.Certificates.Explaining.{AreExplained, certified_from};
ghost use Rattle.definitions.specs.Estimates.Version.{current_version};
ghost use Rattle.definitions.specs.Invariant.{IsDatabase};
ghost use Rattle.definitions.specs.Limits.{most_blocks};
ghost use Rattle.definitions.specs.Queries.BoundBlock.{Blocks};
ghost use Rattle.definitions.specs.Table as tables;
ghost use Rattle.query_tree.specs.Bound.{block_of};
ghost use Rattle.planner.specs.Planned.{ArePlannedFrom};

use crate::planned_block::PlannedBlock;
use catalog::Database;
use plan_space::PlanNote;
use query_tree::Block;
use std::alloc::{AllocError, Global};

/// Plans each block of a query, in the order of their numbers (Selinger et al. 1979, section 6). It fails where memory runs out.
pub fn plan_query<'a>(
    alloc: Global,
    database: &'a Database,
    blocks: &'a [Block],
) -> Result<Vec<PlannedBlock<'a>>, AllocError>
    requires formed { AllByRecursion (IsFormedSomewhere database.now) (map block_of blocks.now) }
    ensures { IfOk result (λ planned. ArePlannedFrom database.now 0 (map block_of blocks.now) planned.items) }
{
    let mut planned = Vec::new(alloc);
    let mut number = 0;
    'planning: for block in blocks {
        let own = PlannedBlock::new(alloc, database, block, number)?;
        planned.push(own)?;
        number += 1;
    }
    Ok(planned)
}

/// What there is to know of the figures that the plans of a query rest on (own). Where memory runs out, the rest is left out.
pub fn planned_notes(alloc: Global, planned: &[PlannedBlock<'_>]) -> Vec<PlanNote> {
    let mut notes = Vec::new(alloc);
    for own in planned {
        own.add_notes(alloc, &mut notes);
    }
    notes
}

/// What EXPLAIN prints of the blocks of a query (own): for each of them, in the order of their numbers, the text of its least
/// plan and of the certificate that lists every cheaper state. It fails where memory runs out.
pub fn explain_text(alloc: Global, planned: &[PlannedBlock<'_>]) -> Result<Vec<u8>, AllocError>
    ensures { (db : tables.Database) (blocks : Blocks) → IsDatabase db → AllByRecursion (IsFormedSomewhere db) blocks →
        length blocks ≤ most_blocks → ArePlannedFrom db 0 blocks planned.now →
        IfOk result (λ text. AreExplained current_version (certified_from db 0 blocks) text.items) }
{
    let mut text = Vec::new(alloc);
    'texts: for block in planned {
        let own = block.text(alloc)?;
        text.extend_from_slice(&own)?;
    }
    Ok(text)
}
