//! What each block of a query is asked, and what it answers.

use plan_pages::Section;
use plan_views::{BlockOutline, PlanningScript, Priced, UsedColumn, View, ViewFault};

/// What is asked of each block.
#[derive(Clone, Copy)]
pub enum Question<'a> {
    /// Its section of a view's page.
    Section {
        script: &'a PlanningScript,
        view: View<'a>,
    },
    /// Its least plan in short, and what other plans by name cost.
    Outline {
        priced: &'a [Priced],
    },
    /// The columns that its conjuncts and orders go by.
    Columns,
}

/// What a block answers.
#[derive(Drop)]
pub enum Answer {
    Section(Section),
    Outline(BlockOutline),
    Columns(Vec<UsedColumn>),
}

/// One who plans a script's query.
pub trait QueryPlanner {
    /// What each block of the query answers, in the order of their numbers.
    ///
    /// # Errors
    /// Why it can't be planned, or that memory ran out.
    fn ask(
        &self,
        script: &PlanningScript,
        question: Question<'_>,
    ) -> Result<Vec<Answer>, ViewFault>;
}
