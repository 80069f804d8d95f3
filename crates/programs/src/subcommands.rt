//! The subcommands of `sqlr-plan`, and the words that each takes.

use crate::words::VERSION;
use clap::builder::ValueParser;
use clap::{Arg, ArgAction, Command};
use std::alloc::{AllocError, Global};

/// What stands at the end of help.
const AFTER_HELP: &str =
    "Examples:\n  sqlr-plan tree join.sql\n  sqlr-plan tree join.sql join.certificates\n  sqlr-plan why join.sql 'B merge A'\n  sqlr-plan sweep join.sql 'B ROWS' 10 100 1000\n  sqlr-plan search join.sql --query 2 --json\n  sqlr-plan page join.sql > join.html\n\nExit status: 0 well, 1 a statement refused or a question that has no answer, 2 broken off, 3 a certificate refused\nTo read on: docs/PLANS.md";

/// A subcommand, with the words that it takes behind those of all.
struct Subcommand {
    name: &'static str,
    about: &'static str,
    words: &'static [Word],
}

/// A word that a subcommand takes.
struct Word {
    name: &'static str,
    form: WordForm,
    help: &'static str,
}

#[derive(Clone, Copy)]
enum WordForm {
    /// The name of a script, which has to be given.
    Script,
    /// A word that has to be given.
    Given,
    /// A word that may be left out.
    Optional,
    /// One word or more.
    Several,
    /// An option with a number from a least one on, and what help calls the number.
    Number { value: &'static str, least: u64 },
    /// An option that stands for itself.
    Flag,
}

impl WordForm {
    fn is_required(self) -> bool {
        matches!(self, WordForm::Script | WordForm::Given | WordForm::Several)
    }

    fn action(self) -> ArgAction {
        match self {
            WordForm::Flag => ArgAction::SetTrue,
            _ => ArgAction::Set,
        }
    }
}

/// The words that each subcommand takes.
static SHARED: [Word; 4] = [
    Word {
        name: "SCRIPT",
        form: WordForm::Script,
        help: "A file of SQL statements, or - for standard input",
    },
    Word {
        name: "query",
        form: WordForm::Number {
            value: "N",
            least: 1,
        },
        help: "Takes the Nth SELECT or EXPLAIN of the script, not the last",
    },
    Word {
        name: "json",
        form: WordForm::Flag,
        help: "Writes JSON",
    },
    Word {
        name: "unicode",
        form: WordForm::Flag,
        help: "Draws trees in box drawing characters",
    },
];

/// The subcommands, in the order in which help lists them.
static SUBCOMMANDS: [Subcommand; 8] = [
    Subcommand {
        name: "tree",
        about: "Shows the least plan of each block as a tree, or the one of certificates",
        words: &[Word {
            name: "CERTIFICATES",
            form: WordForm::Optional,
            help: "A file of certificates, whose plans are shown and checked, or -",
        }],
    },
    Subcommand {
        name: "why",
        about: "Shows what another plan loses, and where",
        words: &[Word {
            name: "PLAN",
            form: WordForm::Given,
            help: "A plan as EXPLAIN writes it, or by names: 'sort (A loop B) by X'",
        }],
    },
    Subcommand {
        name: "sweep",
        about: "Shows which plan is least as a statistic is varied",
        words: &[
            Word {
                name: "FIGURE",
                form: WordForm::Given,
                help: "A statistic, as 'A ROWS', 'A (X) KEYS' or 'A (X) HIGH'",
            },
            Word {
                name: "VALUES",
                form: WordForm::Several,
                help: "What it is set to, one after another",
            },
        ],
    },
    Subcommand {
        name: "indexes",
        about: "Shows what each index is worth, and what one more would be",
        words: &[],
    },
    Subcommand {
        name: "diff",
        about: "Shows what differs in the least plans of two scripts",
        words: &[Word {
            name: "OTHER",
            form: WordForm::Script,
            help: "Another file of SQL statements, or -",
        }],
    },
    Subcommand {
        name: "search",
        about: "Shows the states of the search, and the steps that led there",
        words: &[
            Word {
                name: "all",
                form: WordForm::Flag,
                help: "Shows all comparisons",
            },
            Word {
                name: "within",
                form: WordForm::Number {
                    value: "PERCENT",
                    least: 0,
                },
                help: "Shows the comparisons that come that near to their bounds",
            },
        ],
    },
    Subcommand {
        name: "statistics",
        about: "Writes a script without rows over which the query has the same plans",
        words: &[],
    },
    Subcommand {
        name: "page",
        about: "Writes an HTML page on the query, its plans and the search",
        words: &[],
    },
];

/// The command line of `sqlr-plan`.
pub(crate) fn command<'a>(alloc: Global) -> Result<Command<'a>, AllocError> {
    let mut subcommands = Vec::new(alloc);
    push_subcommands(alloc, &mut subcommands)?;
    Command::new(alloc, "sqlr-plan")
        .about("Shows the plans of a query, and what is proved of them")
        .after_help(AFTER_HELP)
        .version(VERSION)
        .subcommand_required(true)
        .subcommands(subcommands)
}

// What is made goes into a list of the caller's: a command that is alive at an exit is dropped there field by field.

fn push_subcommands(alloc: Global, commands: &mut Vec<Command<'_>>) -> Result<(), AllocError> {
    for subcommand in &SUBCOMMANDS {
        let command = command_of(alloc, subcommand)?;
        commands.push(command)?;
    }
    Ok(())
}

fn command_of<'a>(alloc: Global, subcommand: &Subcommand) -> Result<Command<'a>, AllocError> {
    let mut arguments = Vec::new(alloc);
    push_arguments(alloc, &mut arguments, subcommand.words)?;
    Command::new(alloc, subcommand.name)
        .about(subcommand.about)
        .after_help(AFTER_HELP)
        .args(arguments)
}

fn push_arguments(
    alloc: Global,
    arguments: &mut Vec<Arg<'_>>,
    words: &[Word],
) -> Result<(), AllocError> {
    push_words(alloc, arguments, &SHARED)?;
    push_words(alloc, arguments, words)
}

fn push_words(
    alloc: Global,
    arguments: &mut Vec<Arg<'_>>,
    words: &[Word],
) -> Result<(), AllocError> {
    for word in words {
        arguments.push(argument(alloc, word))?;
    }
    Ok(())
}

fn argument<'a>(alloc: Global, word: &Word) -> Arg<'a> {
    let argument = Arg::new(alloc, word.name)
        .help(word.help)
        .required(word.form.is_required())
        .action(word.form.action());
    match word.form {
        WordForm::Script => argument.value_name("SCRIPT"),
        WordForm::Given | WordForm::Optional => argument,
        WordForm::Several => argument.num_args(1..).allow_negative_numbers(true),
        WordForm::Number { value, least } => argument
            .long(word.name)
            .value_name(value)
            .value_parser(ValueParser::Unsigned(least, u64::MAX)),
        WordForm::Flag => argument.long(word.name),
    }
}
