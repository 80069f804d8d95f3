//! One statistic varied.

use crate::answers::{Answer, QueryPlanner, Question};
use crate::figures::{Figure, read_figure, read_value};
use plan_pages::{MadeParts, MadeTable, Section, Table, number, words};
use plan_views::{BlockOutline, PlanningScript, Priced, ViewFault};
use std::alloc::{AllocError, Global};

/// What the blocks of a query answer with one value of a statistic, as it was given.
#[derive(Drop)]
struct Turn<'a> {
    value: &'a str,
    outlines: Vec<BlockOutline>,
}

/// A section for each block: for each value the least cost and plan.
pub(crate) fn sweep_sections<P: QueryPlanner>(
    alloc: Global,
    planner: &P,
    script: &mut PlanningScript,
    named: &str,
    values: &[String],
) -> Result<Vec<Section>, ViewFault> {
    let figure = read_figure(alloc, script, named)?;
    let mut turns = Vec::new(alloc);
    for value in values {
        let value = value.as_str();
        let units = read_value(alloc, script, figure, value)?;
        let outlines = match outlines_with(alloc, planner, script, figure, units) {
            Err(ViewFault::Refused(words)) => {
                return Err(ViewFault::Refused(format!(in alloc; "{value}: {words}")?));
            }
            found => found?,
        };
        turns.push(Turn { value, outlines })?;
    }
    let blocks = match turns.first() {
        Some(turn) => turn.outlines.len(),
        None => 0,
    };
    let mut sections = Vec::new(alloc);
    for block in 0..blocks {
        sections.push(sweep_section(alloc, named, &turns, block)?)?;
    }
    Ok(sections)
}

/// The least plans where a statistic has a value; it is put back behind that.
fn outlines_with<P: QueryPlanner>(
    alloc: Global,
    planner: &P,
    script: &mut PlanningScript,
    figure: Figure,
    value: i128,
) -> Result<Vec<BlockOutline>, ViewFault> {
    let before = figure.exchange(script, value);
    let found = outlines_of(alloc, planner, script, &[]);
    let _ = figure.exchange(script, before);
    found
}

/// The least plans of a script's blocks in short, and what other plans cost there.
pub(crate) fn outlines_of<P: QueryPlanner>(
    alloc: Global,
    planner: &P,
    script: &PlanningScript,
    priced: &[Priced],
) -> Result<Vec<BlockOutline>, ViewFault> {
    let mut outlines = Vec::new(alloc);
    for answer in planner.ask(script, Question::Outline { priced })? {
        if let Answer::Outline(outline) = answer {
            outlines.push(outline)?;
        }
    }
    Ok(outlines)
}

fn sweep_section(
    alloc: Global,
    named: &str,
    turns: &[Turn<'_>],
    block: usize,
) -> Result<Section, AllocError> {
    let shown = block.saturating_add(1);
    let mut parts = MadeParts::new(alloc);
    parts.put_table(sweep_table(alloc, named, turns, block));
    Ok(Section {
        key: "block",
        number: Some(shown as u64),
        title: format!(in alloc; "block {shown}")?,
        parts: parts.finish()?,
    })
}

fn sweep_table(
    alloc: Global,
    named: &str,
    turns: &[Turn<'_>],
    block: usize,
) -> Result<Table, AllocError> {
    let mut rows = MadeTable::new(
        alloc,
        "sweep",
        named,
        &[
            number("value", "value"),
            number("least", "least cost"),
            words("letter", "plan"),
            words("plan", ""),
            words("passes", "certificate"),
        ],
    );
    let mut plans: Vec<&str> = Vec::new(alloc);
    for turn in turns {
        if let Some(outline) = turn.outlines.get(block) {
            let plan = outline.plan.as_str();
            let place = place_of(&plans, plan);
            if place == plans.len() {
                plans.push(plan)?;
            }
            add_turn(alloc, &mut rows, turn.value, outline, place);
        }
    }
    rows.finish()
}

/// The place of a plan among those that came before, or behind them.
fn place_of(plans: &[&str], plan: &str) -> usize {
    for (place, known) in plans.iter().enumerate() {
        if *known == plan {
            return place;
        }
    }
    plans.len()
}

fn add_turn(
    alloc: Global,
    rows: &mut MadeTable,
    value: &str,
    outline: &BlockOutline,
    place: usize,
) {
    rows.begin_row(0, false);
    // as a number, where it is a whole one
    match value.parse::<u64>() {
        Ok(number) => rows.put_number(number),
        Err(_) => rows.put_word(value),
    }
    rows.put_number(outline.target);
    rows.put_text(letter_of(alloc, place));
    rows.put_word(&outline.plan);
    rows.put_word(if outline.passes { "passes" } else { "fails" });
}

/// The letters a to z, and behind them a1 to z1 and so on.
fn letter_of(alloc: Global, place: usize) -> Result<String, AllocError> {
    let letters = b"abcdefghijklmnopqrstuvwxyz";
    let letter = char::from(*letters.get(place % 26).unwrap_or(&b'?'));
    match place / 26 {
        0 => format!(in alloc; "{letter}"),
        round => format!(in alloc; "{letter}{round}"),
    }
}
