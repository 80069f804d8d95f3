//! Values that came before, each once.

ghost use Rattle.std.specs.Prelude.{ℤ, ◌≡◌, true};
ghost use Rattle.result_lines.specs.SeenUnits.{has_unit};

use indexmap::IndexSet;
use result_lines::{DistinctLines, SeenUnits};
use sqlvalue::{Value, write_value};
use std::alloc::{AllocError, Global};

/// Values of one expression that are not null, each once (ISO/IEC 9075:1992, 6.5: DISTINCT). Its numbers are of one scale: they are kept by
/// their units. Texts are equal where they are printed alike, and are kept so.
#[derive(Drop)]
pub struct DistinctValues {
    units: IndexSet<i128>,
    texts: DistinctLines,
    line: Vec<u8>,
    /// Units that are there, by which most repeats are told.
    seen: SeenUnits,
    ghost remembered: { (unit : ℤ) → has_unit seen unit ≡ true → has_unit units.keys unit ≡ true },
}

impl DistinctValues {
    ghost use Rattle.std.specs.Prelude.{◌≡◌, is_some, not, IfOk, IfSome, OnOk};
    ghost use Rattle.sqlvalue.specs.Meaning.{value_of};
    ghost use Rattle.result_lines.specs.Lines.{lines_of};
    ghost use Rattle.result_lines.specs.SeenUnits.{has_unit};
    ghost use Rattle.grouping.specs.Distinct.{with_unit, IsNoted, IsOfNothing};

    /// Values of which none has come yet, if repeats are to be left out.
    pub(crate) fn if_distinct(alloc: Global, distinct: bool) -> Option<DistinctValues>
        ensures nothing { IfSome result IsOfNothing }
        ensures distinct { is_some result ≡ distinct }
    {
        if !distinct {
            return None;
        }
        Some(DistinctValues {
            units: IndexSet::new(alloc),
            texts: DistinctLines::new(alloc),
            line: Vec::new(alloc),
            seen: SeenUnits::new(alloc),
        })
    }

    /// Notes a value, and tells whether it did not come before. A number that did takes no memory.
    pub(crate) fn add(&mut self, alloc: Global, value: &Value) -> Result<bool, AllocError>
        ensures { IfOk result (λ new. IsNoted self.old self.new new (value_of value.now)) }
    {
        match value {
            Value::Num(number) => self.add_units(number.units),
            _ => {
                self.line.clear();
                write_value(&mut self.line, value)?;
                self.line.push(b'\n')?;
                self.texts.add(alloc, &self.line)
            }
        }
    }

    /// The same of a number, by its units.
    fn add_units(&mut self, units: i128) -> Result<bool, AllocError>
        ensures units { OnOk result (self.new.units.keys ≡ with_unit self.old.units.keys units) }
        ensures texts { OnOk result (lines_of self.new.texts ≡ lines_of self.old.texts) }
        ensures new { IfOk result (λ new. new ≡ not (has_unit self.old.units.keys units)) }
    {
        let Ok(unit) = i64::try_from(units) else {
            return Ok(self.units.insert(units)?);
        };
        if self.seen.has(unit) {
            return Ok(false);
        }
        let new = self.units.insert(units)?;
        self.seen.note(unit)?;
        Ok(new)
    }
}
