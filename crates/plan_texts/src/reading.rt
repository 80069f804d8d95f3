//! Plans read, by names or in EXPLAIN's spelling.

use crate::fault::PlanTextFault;
use crate::plan_reader::PlanReader;
use certificate::{BlockSpace, TextFault, Version, read_text};
use plan_names::BlockNames;
use plan_tree::{MAX_FROM_TABLES, Plan};
use std::alloc::Global;

/// Reads a plan of a block: by names, or in EXPLAIN's spelling where it begins with `ACCESS(`, `LOOP(`, `MERGE(` or `SORT(`. What a step by
/// names leaves out is filled by the cheapest step of the plan space that fits; a step that leaves nothing out is taken as it is written,
/// in the space or not.
///
/// # Errors
/// Where and why the text is no plan, or that memory ran out.
pub fn read_plan<'n, 'a>(
    alloc: Global,
    names: &'n BlockNames<'a>,
    own: &'n BlockSpace<'a>,
    text: &str,
) -> Result<Plan, PlanTextFault> {
    if is_spelled(text.trim_start()) {
        read_spelled(alloc, own, text)
    } else {
        PlanReader::new(alloc, names, own, text).plan()
    }
}

static SPELLED_STEPS: [&str; 4] = ["ACCESS(", "LOOP(", "MERGE(", "SORT("];

/// Whether a text begins as a plan does in EXPLAIN's spelling.
fn is_spelled(text: &str) -> bool {
    for word in &SPELLED_STEPS {
        if text.starts_with(word) {
            return true;
        }
    }
    false
}

/// Reads a plan in EXPLAIN's spelling.
fn read_spelled(alloc: Global, own: &BlockSpace, text: &str) -> Result<Plan, PlanTextFault> {
    let block = own.certified_block();
    if block.indexes.len() > MAX_FROM_TABLES {
        return Err(PlanTextFault::LongMatch);
    }
    let number = own.number.saturating_add(1);
    let version = version_number(own.version);
    let plan = text.trim();
    let certificate = format!(in alloc;
        "CERTIFICATE {version}\nBLOCK {number}\nPLAN {plan}\nTARGET 0\nEND\n"
    )?;
    match read_text(alloc, &block, certificate.as_bytes()) {
        Ok(spelled) => spelled.plan.ok_or(PlanTextFault::LongMatch),
        Err(TextFault::Memory) => Err(PlanTextFault::Memory),
        Err(fault) => Err(PlanTextFault::Spelling(fault)),
    }
}

fn version_number(version: Version) -> u8 {
    match version {
        Version::One => 1,
        Version::Two => 2,
        Version::Three => 3,
    }
}
