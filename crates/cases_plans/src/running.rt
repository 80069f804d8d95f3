//! What a plan gives when it is run.

ghost use Rattle.std.specs.Prelude.{◌≡◌, IfOk};
ghost use Rattle.estimate.specs.Estimated.{IsFormed};
ghost use Rattle.query_tree.specs.Bound.{block_of};
ghost use Rattle.scans.specs.Sources.{block_in};

use crate::answer::{Answer, BAR, NONE};
use catalog::Database;
use certificate::{BlockSpace, read_text};
use estimate::{Estimate, conjuncts};
use operators::open;
use plan_space::{Plan, Space, Version};
use plan_tree::MAX_FROM_TABLES;
use query_tree::Block;
use scans::{BlockSource, Composite, NoOuterRows, TupleSource};
use std::alloc::{AllocError, Global};

/// Adds the composites that a plan gives, and how many rows were opened; or that it is no plan.
pub(crate) fn add_run(
    alloc: Global,
    database: &Database,
    block: &Block,
    version: Version,
    plan: &str,
    answer: &mut Answer,
) -> Result<(), AllocError>
    requires formed { IsFormed database.now (block_of block.now) }
{
    let Some(plan) = spelled_plan(alloc, database, block, version, plan)? else {
        answer.fail();
        return Ok(());
    };
    let space = space_of(alloc, database, block, version)?;
    run_in(alloc, database, block, &space, &plan, answer)
}

/// The plan of a block that a text spells, if it spells one.
pub(crate) fn spelled_plan(
    alloc: Global,
    database: &Database,
    block: &Block,
    version: Version,
    plan: &str,
) -> Result<Option<Plan>, AllocError>
    requires formed { IsFormed database.now (block_of block.now) }
{
    let number = match version {
        Version::One => "1",
        Version::Two => "2",
        Version::Three => "3",
    };
    let text = format!(in alloc; "CERTIFICATE {number}\nBLOCK 1\nPLAN {plan}\nTARGET 0\nEND\n")?;
    let own = BlockSpace::new(alloc, database, block, 0, version)?;
    let certified = own.certified_block();
    if certified.indexes.len() > MAX_FROM_TABLES {
        return Ok(None);
    }
    match read_text(alloc, &certified, text.as_bytes()) {
        Ok(spelled) => Ok(spelled.plan),
        Err(_) => Ok(None),
    }
}

/// The plan space of a block.
pub(crate) fn space_of<'a>(
    alloc: Global,
    database: &'a Database,
    block: &'a Block,
    version: Version,
) -> Result<Space<'a>, AllocError>
    requires formed { IsFormed database.now (block_of block.now) }
    ensures database { IfOk result (λ space. space.database ≡ database.now) }
    ensures block { IfOk result (λ space. space.block ≡ block.now) }
{
    let conjuncts = conjuncts(alloc, block)?;
    let estimate = Estimate::new(alloc, database, block, &conjuncts)?;
    Space::new(alloc, estimate, version)
}

fn run_in(
    alloc: Global,
    database: &Database,
    block: &Block,
    space: &Space<'_>,
    plan: &Plan,
    answer: &mut Answer,
) -> Result<(), AllocError>
    requires formed { IsFormed database.now (block_of block.now) }
    requires database { space.now.database ≡ database.now }
    requires block { space.now.block ≡ block.now }
{
    let conjuncts = conjuncts(alloc, block)?;
    let source = BlockSource::new(alloc, database, block, conjuncts)?;
    run(alloc, &source, space, plan, answer)
}

fn run(
    alloc: Global,
    source: &BlockSource<'_>,
    space: &Space<'_>,
    plan: &Plan,
    answer: &mut Answer,
) -> Result<(), AllocError>
    requires formed { IsFormed source.now.database (block_in source.now) }
    requires database { space.now.database ≡ source.now.database }
    requires block { space.now.block ≡ source.now.block }
{
    let Some(_summary) = space.summary(plan) else {
        answer.add(NONE);
        return Ok(());
    };
    let mut pipeline = open(alloc, source, space.orders(), plan, &NoOuterRows)?;
    let tables = space.table_count();
    'composites: while let Some(composite) = pipeline.next(&NoOuterRows) {
        add_composite(&composite, tables, answer);
    }
    answer.add(pipeline.opened_rows());
    Ok(())
}

/// Adds the numbers of a composite's rows, from 1.
fn add_composite(composite: &Composite, tables: usize, answer: &mut Answer) {
    if tables <= MAX_FROM_TABLES {
        for number in composite.numbers(tables) {
            answer.add_from_one(*number as usize);
        }
        answer.add(BAR);
    }
}
