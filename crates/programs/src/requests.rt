//! What the command line asks for.

pub use clap::Error as LineFault;

/// What the command line asks for.
#[derive(Drop)]
pub enum Request {
    /// A script is to be run.
    Run {
        script: Source,
        options: RunOptions,
    },
    /// Certificates are to be checked against a script's last query.
    Check {
        script: Source,
        certificates: Source,
    },
}

/// Where a script, or certificates, stand.
#[derive(Debug, Drop)]
pub enum Source {
    /// In the file of this name.
    File(String),
    StandardInput,
    /// On the command line, where this is the text.
    Text(String),
}

/// How a script is run.
#[derive(Clone, Copy, Debug)]
pub struct RunOptions {
    /// Whether the run ends at the first statement that is refused or raises.
    pub stops: bool,
    /// Whether it is told how long each statement took.
    pub is_timed: bool,
    /// How the rows of an answer are printed, where it isn't as ever.
    pub form: Option<AnswerForm>,
}

/// How the rows of an answer are printed.
#[derive(Clone, Copy, Debug)]
pub enum AnswerForm {
    Csv,
    Table,
    Json,
}
