//! From the conjuncts of a block to those that plans see.

ghost use Rattle.std.specs.Prelude.{◌≡◌, IfOk, map};
ghost use Rattle.definitions.specs.Table.{Database};
ghost use Rattle.definitions.specs.Estimates.PlanConjuncts as spec;
ghost use Rattle.definitions.specs.Queries.BoundBlock.{Block};
ghost use Rattle.predicates.specs.Parts.{condition_in};
ghost use Rattle.estimate.specs.Tables.{tables_of, AreTablesOf};
ghost use Rattle.estimate.specs.PlanConjuncts.{condition_of_conjunct, conjunct_of};

use crate::conditions::selectivity;
use crate::plan_conjunct::PlanConjunct;
use catalog::Table;
use predicates::Conjunct;
use std::alloc::{AllocError, Global};

/// Conjuncts over the tables of a block, each with its selectivity, in their order.
pub(crate) fn plan_conjuncts<'a>(
    alloc: Global,
    tables: &[&Table],
    conjuncts: &[Conjunct<'a>],
) -> Result<Vec<PlanConjunct<'a>>, AllocError>
    ensures conditions { IfOk result (λ cs. map condition_of_conjunct cs.items ≡ map condition_in conjuncts.now) }
    ensures exact { IfOk result (λ cs. (db : Database) (block : Block) → AreTablesOf db block (tables_of tables.now) →
        map conjunct_of cs.items ≡ map (spec.plan_conjunct db block) (map condition_in conjuncts.now)) }
{
    let mut planned = Vec::new(alloc);
    'conjuncts: for conjunct in conjuncts {
        planned.push(plan_conjunct(tables, *conjunct))?;
    }
    Ok(planned)
}

fn plan_conjunct<'a>(tables: &[&Table], conjunct: Conjunct<'a>) -> PlanConjunct<'a>
    ensures condition { condition_of_conjunct result ≡ condition_in conjunct.entry }
    ensures exact { (db : Database) (block : Block) → AreTablesOf db block (tables_of tables.now) →
        conjunct_of result ≡ spec.plan_conjunct db block (condition_in conjunct.entry) }
{
    PlanConjunct {
        conjunct,
        selectivity: selectivity(tables, conjunct),
    }
}
