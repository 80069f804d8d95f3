//! Who is told how far a query is.

use std::cell::Cell;
use subqueries::WorkWatch;

/// How many steps are done from one time that a watch is told to the next (own).
const TOLD_EACH: u64 = 1_024;

/// Is told how far a query is, for people who wait for it. Nothing is promised of it (own).
pub trait QueryWatch {
    /// How many combinations of rows the outermost block's plan has delivered so far, now and then. Conjuncts that want an inner block
    /// are tested behind it.
    fn passed(&self, combinations: u64);
}

/// Counts the steps of a query's work and the combinations of rows that its outermost block's plan delivers, and tells a watch of some.
#[derive(Drop)]
pub(crate) struct WorkCount<'w, W: QueryWatch> {
    watch: &'w W,
    steps: Cell<u64>,
    combinations: Cell<u64>,
}

impl<'w, W: QueryWatch> WorkCount<'w, W> {
    pub(crate) fn new(watch: &'w W) -> WorkCount<'w, W> {
        WorkCount {
            watch,
            steps: Cell::new(0),
            combinations: Cell::new(0),
        }
    }

    /// Notes that so many more combinations are delivered.
    pub(crate) fn deliver(&self, count: u64) {
        self.combinations
            .set(self.combinations.get().wrapping_add(count));
        self.note_steps(count);
    }

    /// Notes so many more steps, and tells the watch once in `TOLD_EACH`.
    fn note_steps(&self, count: u64) {
        let steps = self.steps.get();
        let more = steps.wrapping_add(count);
        self.steps.set(more);
        if more / TOLD_EACH != steps / TOLD_EACH {
            self.watch.passed(self.combinations.get());
        }
    }
}

impl<W: QueryWatch> WorkWatch for WorkCount<'_, W> {
    fn note_work(&self) {
        self.note_steps(1);
    }
}
