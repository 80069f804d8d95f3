//! A query is planned over a script without rows, and each of its blocks is asked something.

ghost use Rattle.std.specs.Prelude.{None, ⊤, map};
ghost use Rattle.std.specs.List.{AllByRecursion};
ghost use Rattle.definitions.specs.Binding.Formed.{IsFormedSomewhere};
ghost use Rattle.query_tree.specs.Bound.{block_of};

use catalog::Database;
use lexer::{LexFault, lex};
use plan_questions::{
    Answer, Asker, BlockView, Interest, PlanningScript, Query, QueryPlanner, Question, View,
    ViewFault, outline, section, used_columns,
};
use query_tree::Block;
use sqlr::{CheckedFile, FetchFault, Fetched, Library, Session, Sink, SinkFault};
use std::alloc::Global;
use syntax::{Select, Statement, SyntaxFault, parse};

/// Plans scripts without rows by sessions of their own.
#[derive(Clone, Copy)]
pub(crate) struct SessionPlanner {
    pub alloc: Global,
}

impl QueryPlanner for SessionPlanner {
    fn ask(
        &self,
        script: &PlanningScript,
        question: Question<'_>,
    ) -> Result<Vec<Answer>, ViewFault> {
        ask(self.alloc, script, question)
    }
}

/// What each block of a script's query answers, in the order of their numbers.
fn ask(
    alloc: Global,
    script: &PlanningScript,
    question: Question<'_>,
) -> Result<Vec<Answer>, ViewFault> {
    let text = script.text(alloc)?;
    let tokens = match lex(alloc, text.as_str()) {
        Ok(tokens) => tokens,
        Err(LexFault::Memory { .. }) => return Err(ViewFault::Memory),
        Err(_) => return Err(unread(alloc)),
    };
    let read = match parse(alloc, &tokens, text.len()) {
        Ok(read) => read,
        Err(SyntaxFault::Memory { .. }) => return Err(ViewFault::Memory),
        Err(_) => return Err(unread(alloc)),
    };
    match read.statements.last() {
        Some(Statement::Query(query)) => answers_of(alloc, text.as_str(), query, question),
        _ => Err(unread(alloc)),
    }
}

/// That a script without rows can't be read, which its tables and its query exclude.
fn unread(alloc: Global) -> ViewFault {
    match String::from_str(alloc, "the query can't be planned without its rows") {
        Ok(words) => ViewFault::Refused(words),
        Err(_) => ViewFault::Memory,
    }
}

/// What each block of a script's last query answers.
fn answers_of(
    alloc: Global,
    text: &str,
    query: &Select,
    question: Question<'_>,
) -> Result<Vec<Answer>, ViewFault> {
    let mut asking = Asking {
        alloc,
        query,
        question,
        answers: None,
        told: Vec::new(alloc),
    };
    let mut session = Session::new(alloc, NoFiles);
    let ran = session.check(text, certificates_of(question), &mut asking);
    let Asking { answers, told, .. } = asking;
    match (answers, ran) {
        (Some(answers), _) => answers,
        (None, Ok(_)) => Err(ViewFault::Refused(refusal_words(alloc, &told)?)),
        (None, Err(_)) => Err(ViewFault::Memory),
    }
}

/// The certificates that the blocks are shown by, if any are given.
fn certificates_of(question: Question<'_>) -> &[u8] {
    match question {
        Question::Section {
            view: View::Tree {
                certificates: Some(certificates),
            },
            ..
        } => certificates,
        _ => b"",
    }
}

/// What is told of a script that is refused when it is planned once more.
fn refusal_words(alloc: Global, told: &[u8]) -> Result<String, ViewFault> {
    let line = str::from_utf8(told).unwrap_or("").trim_end();
    Ok(format!(in alloc; "with this change the script is refused: {line}")?)
}

/// A library without files: a script without rows asks for none.
#[derive(Drop)]
struct NoFiles;

impl Library for NoFiles {
    ghost answers = { λ _ _ _ _. ⊤ };

    ghost fails = { λ _ _ _. ⊤ };

    ghost failures = { λ _. 0 };

    fn fetch(&mut self, _name: &str) -> Result<Fetched, FetchFault> {
        Ok(Fetched::Absent)
    }
}

/// A sink that asks each block its question when it is told of them.
#[derive(Drop)]
struct Asking<'a> {
    alloc: Global,
    /// The query's tree.
    query: &'a Select,
    question: Question<'a>,
    answers: Option<Result<Vec<Answer>, ViewFault>>,
    /// What was printed.
    told: Vec<u8>,
}

impl Sink for Asking<'_> {
    ghost taken = { λ _. None };

    ghost failures = { λ _. 0 };

    fn put(&mut self, bytes: &[u8]) -> Result<(), SinkFault> {
        // words that find no room are left out
        let _ = self.told.extend_from_slice(bytes);
        Ok(())
    }

    fn report_certificates(&mut self, checked: &CheckedFile, database: &Database) {
        self.answers = Some(answers(
            self.alloc,
            self.query,
            self.question,
            checked,
            checked.blocks,
            database,
        ));
    }
}

fn answers(
    alloc: Global,
    tree: &Select,
    question: Question<'_>,
    checked: &CheckedFile<'_>,
    blocks: &[Block],
    database: &Database,
) -> Result<Vec<Answer>, ViewFault>
    requires { AllByRecursion (IsFormedSomewhere database.now) (map block_of blocks.now) }
{
    let query = Query { tree, blocks };
    let mut all = Vec::new(alloc);
    let mut rows = Vec::new(alloc);
    let mut number: usize = 0;
    'asked: for block in blocks {
        let asker = Asker::of(alloc, blocks, &rows, number)?;
        let written = written_from(checked, number);
        let view = BlockView::new(
            alloc,
            database,
            query,
            block,
            number,
            asker,
            written,
            interest_of(question),
        )?;
        // boxed at once: what is large and owned is dropped at each exit behind it
        let view = Box::new(alloc, view)?;
        rows.push(view.rows())?;
        all.push(answer_of(alloc, question, &view)?)?;
        number = number.saturating_add(1);
    }
    Ok(all)
}

/// What a question asks of the check of each block's least plan.
fn interest_of(question: Question<'_>) -> Interest<'_> {
    match question {
        Question::Section { view, .. } => view.interest(),
        Question::Outline { .. } => Interest::Verdict,
        Question::Columns => Interest::Nothing,
    }
}

/// What a file of certificates has from the text of a block on.
fn written_from<'a>(checked: &'a CheckedFile<'a>, number: usize) -> Option<&'a [u8]> {
    let own = checked.told.blocks.get(number)?;
    checked.file.get(own.start..)
}

fn answer_of(
    alloc: Global,
    question: Question<'_>,
    block: &BlockView<'_>,
) -> Result<Answer, ViewFault> {
    match question {
        Question::Section { script, view } => Ok(Answer::Section(section(
            alloc, script, view, block,
        )?)),
        Question::Columns => Ok(Answer::Columns(used_columns(alloc, block)?)),
        Question::Outline { priced } => Ok(Answer::Outline(outline(alloc, priced, block)?)),
    }
}
