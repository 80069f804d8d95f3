//! What each index is worth, and each one more.

use crate::answers::QueryPlanner;
use crate::sweeps::outlines_of;
use plan_pages::{MadeParts, MadeTable, Section, number, words};
use plan_views::{BlockOutline, PlannedIndex, PlanningScript, Priced, ViewFault};
use std::alloc::{AllocError, Global};

/// An index that is there and is left out, or one that is proposed and is put in.
#[derive(Drop)]
struct Change {
    name: String,
    is_proposed: bool,
    /// The least plans then; their prices are those of today's plans.
    outlines: Vec<BlockOutline>,
}

/// An index of the script, by the numbers of its table and its own.
#[derive(Clone, Copy)]
struct Place {
    table: usize,
    index: usize,
}

/// A section for each block: what each index is worth to it, and what each proposed one, which is left out now, would be.
pub(crate) fn index_sections<P: QueryPlanner>(
    alloc: Global,
    planner: &P,
    script: &mut PlanningScript,
) -> Result<Vec<Section>, ViewFault> {
    let today = outlines_of(alloc, planner, script, &[])?;
    let plans = plans_of(alloc, &today)?;
    let mut changes = Vec::new(alloc);
    for place in places(alloc, script)? {
        if let Some(change) = change_at(alloc, planner, script, place, &plans)? {
            changes.push(change)?;
        }
    }
    if let Some(change) = change_of_all(alloc, planner, script, &plans)? {
        changes.push(change)?;
    }
    let priced = plans_of_all(alloc, &changes)?;
    let prices = outlines_of(alloc, planner, script, &priced)?;
    let mut sections = Vec::new(alloc);
    for (block, own) in prices.iter().enumerate() {
        sections.push(index_section(alloc, script, &changes, own, block)?)?;
    }
    Ok(sections)
}

/// All indexes of a script.
fn places(alloc: Global, script: &PlanningScript) -> Result<Vec<Place>, AllocError> {
    let mut all = Vec::new(alloc);
    for (table, planned) in script.tables.iter().enumerate() {
        for index in 0..planned.indexes.len() {
            all.push(Place { table, index })?;
        }
    }
    Ok(all)
}

fn plans_of(alloc: Global, outlines: &[BlockOutline]) -> Result<Vec<Priced>, AllocError> {
    let mut plans = Vec::new(alloc);
    for (block, outline) in outlines.iter().enumerate() {
        let plan = String::from_str(alloc, outline.plan.as_str())?;
        plans.push(Priced { block, plan })?;
    }
    Ok(plans)
}

fn plans_of_all(alloc: Global, changes: &[Change]) -> Result<Vec<Priced>, AllocError> {
    let mut plans = Vec::new(alloc);
    for change in changes {
        for plan in plans_of(alloc, &change.outlines)? {
            plans.push(plan)?;
        }
    }
    Ok(plans)
}

/// The least plans with an index left out, or put in where it is proposed; it is as before behind that.
fn change_at<P: QueryPlanner>(
    alloc: Global,
    planner: &P,
    script: &mut PlanningScript,
    place: Place,
    plans: &[Priced],
) -> Result<Option<Change>, ViewFault> {
    let Some(name) = name_of(alloc, script, place)? else {
        return Ok(None);
    };
    let is_proposed = turn(script, place);
    let outlines = outlines_of(alloc, planner, script, plans);
    let _ = turn(script, place);
    Ok(Some(Change {
        name,
        is_proposed,
        outlines: outlines?,
    }))
}

/// The least plans without all indexes that are there, if there are several; they are as before behind that.
fn change_of_all<P: QueryPlanner>(
    alloc: Global,
    planner: &P,
    script: &mut PlanningScript,
    plans: &[Priced],
) -> Result<Option<Change>, ViewFault> {
    let mut present = Vec::new(alloc);
    for place in places(alloc, script)? {
        if !is_left_out(script, place) {
            present.push(place)?;
        }
    }
    if present.len() < 2 {
        return Ok(None);
    }
    let name = String::from_str(alloc, "all of them")?;
    turn_all(script, &present);
    let outlines = outlines_of(alloc, planner, script, plans);
    turn_all(script, &present);
    Ok(Some(Change {
        name,
        is_proposed: false,
        outlines: outlines?,
    }))
}

fn is_left_out(script: &PlanningScript, place: Place) -> bool {
    match script.tables.get(place.table) {
        Some(table) => match table.indexes.get(place.index) {
            Some(index) => index.is_left_out,
            None => false,
        },
        None => false,
    }
}

fn turn_all(script: &mut PlanningScript, places: &[Place]) {
    for place in places {
        let _ = turn(script, *place);
    }
}

/// Leaves an index out or puts it in, and tells whether it was left out.
fn turn(script: &mut PlanningScript, place: Place) -> bool {
    let Some(table) = script.tables.get_mut(place.table) else {
        return false;
    };
    let found: Option<&mut PlannedIndex> = table.indexes.get_mut(place.index);
    let Some(index) = found else {
        return false;
    };
    let was_out = index.is_left_out;
    index.is_left_out = !was_out;
    was_out
}

fn name_of(
    alloc: Global,
    script: &PlanningScript,
    place: Place,
) -> Result<Option<String>, AllocError> {
    let Some(table) = script.tables.get(place.table) else {
        return Ok(None);
    };
    let Some(index) = table.indexes.get(place.index) else {
        return Ok(None);
    };
    let list = table.columns_of(&index.columns);
    Ok(Some(format!(in alloc; "{} {list}", table.name)?))
}

fn index_section(
    alloc: Global,
    script: &PlanningScript,
    changes: &[Change],
    today: &BlockOutline,
    block: usize,
) -> Result<Section, AllocError> {
    let shown = block.saturating_add(1);
    let mut parts = MadeParts::new(alloc);
    parts.put_figure("target", "the least plan costs", today.target);
    for is_proposed in [false, true] {
        let table = change_table(alloc, changes, today, block, is_proposed).finish()?;
        let is_empty = table.rows.is_empty();
        if !is_empty {
            parts.put_table(Ok(table));
        }
        if is_proposed {
            put_why_none(script, is_empty, &mut parts);
        }
    }
    Ok(Section {
        key: "block",
        number: Some(shown as u64),
        title: format!(in alloc; "block {shown}")?,
        parts: parts.finish()?,
    })
}

/// Says why indexes aren't proposed, where they aren't: of none, or of tables without rows.
fn put_why_none(script: &PlanningScript, is_none: bool, parts: &mut MadeParts) {
    if has_unloaded(script) {
        parts.put_words(
            "none",
            "Of tables without rows no index is proposed: its statistics are counted over rows, not guessed.",
        );
    } else if is_none {
        parts.put_words(
            "none",
            "No other index of one or two columns that a conjunct, an order or a group goes by is left to propose.",
        );
    }
}

/// Whether a table has no rows.
fn has_unloaded(script: &PlanningScript) -> bool {
    for table in &script.tables {
        if table.loaded == 0 {
            return true;
        }
    }
    false
}

fn change_table(
    alloc: Global,
    changes: &[Change],
    today: &BlockOutline,
    block: usize,
    is_proposed: bool,
) -> MadeTable {
    let (key, title, first) = if is_proposed {
        ("with", "one index more", "with")
    } else {
        ("without", "one index less", "without")
    };
    let mut rows = MadeTable::new(
        alloc,
        key,
        title,
        &[
            words("index", first),
            number("least", "least cost"),
            words("by_index", "by the index"),
            words("by_estimate", "by the estimate"),
            words("plan", "plan"),
        ],
    );
    for (number, change) in changes.iter().enumerate() {
        if change.is_proposed == is_proposed
            && let Some(then) = change.outlines.get(block)
        {
            let place = number
                .saturating_mul(change.outlines.len())
                .saturating_add(block);
            let here = today.prices.get(place).copied().flatten();
            add_change(alloc, &mut rows, change, then, today, here, block);
        }
    }
    rows
}

/// A row: the difference that is the index's own is that of two plans under the same statistics.
fn add_change(
    alloc: Global,
    rows: &mut MadeTable,
    change: &Change,
    then: &BlockOutline,
    today: &BlockOutline,
    here: Option<u64>,
    block: usize,
) {
    // under the statistics with the index: what the better and the poorer plan cost
    let (poorer, better) = if change.is_proposed {
        let there = then.prices.get(block).copied().flatten();
        (there.unwrap_or(then.target), then.target)
    } else {
        (here.unwrap_or(then.target), today.target)
    };
    let own = Difference::between(better, poorer);
    let all = if change.is_proposed {
        Difference::between(then.target, today.target)
    } else {
        Difference::between(today.target, then.target)
    };
    rows.begin_row(0, false);
    rows.put_word(&change.name);
    rows.put_number(then.target);
    rows.put_text(own.words(alloc));
    rows.put_text(all.less(own).words(alloc));
    rows.put_word(if then.plan.as_str() == today.plan.as_str() {
        "the same"
    } else {
        &then.plan
    });
}

/// How much more a second cost is than a first.
#[derive(Clone, Copy)]
struct Difference(i128);

impl Difference {
    fn between(first: u64, second: u64) -> Difference {
        Difference(i128::from(second) - i128::from(first))
    }

    fn less(self, other: Difference) -> Difference {
        Difference(self.0.saturating_sub(other.0))
    }

    fn words(self, alloc: Global) -> Result<String, AllocError> {
        if self.0 > 0 {
            format!(in alloc; "+{}", self.0)
        } else {
            format!(in alloc; "{}", self.0)
        }
    }
}
