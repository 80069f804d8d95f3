//! Standard error: words for people, and a notice that stands there for a while.

use std::cell::Cell;
use std::fmt::Display;
use std::io;
use std::rt::Runtime;
use std::time::{Duration, Instant};

/// Goes to the beginning of a terminal's line, and clears it.
const CLEAR_LINE: &str = "\r\x1b[K";

/// Standard error. Where it is a terminal its last line may be a notice, which is cleared before
/// anything else is printed. What can't be printed is left out: there is nowhere to say so.
#[derive(Drop)]
pub struct StandardError<'a, R: Runtime + AllocGlobal> {
    rt: &'a R,
    /// What lines begin with.
    program: &'a str,
    is_terminal: bool,
    has_notice: Cell<bool>,
    /// When the statement began that runs, where a clock tells it.
    began: Cell<Option<Instant>>,
    /// The second of it in which its progress was shown last.
    shown: Cell<u64>,
}

impl<'a, R: Runtime + AllocGlobal> StandardError<'a, R> {
    /// Standard error of a program of a name, and whether it is a terminal.
    pub fn new(rt: &'a R, program: &'a str, is_terminal: bool) -> StandardError<'a, R> {
        StandardError {
            rt,
            program,
            is_terminal,
            has_notice: Cell::new(false),
            began: Cell::new(Instant::now(rt).ok()),
            shown: Cell::new(0),
        }
    }

    /// Notes that the next statement begins.
    pub fn begin_statement(&self) {
        self.began.set(Instant::now(self.rt).ok());
        self.shown.set(0);
    }

    /// Tells how long the statement took, where a clock tells it.
    pub fn tell_time(&self) {
        let elapsed = self.elapsed();
        if let Some(elapsed) = elapsed {
            let seconds = elapsed.as_secs();
            let thousandths = elapsed.subsec_millis();
            self.tell(format_args!("{seconds}.{thousandths:03} s"));
        }
    }

    /// Shows how far a statement is and how many seconds it has run, once a second, where this is a terminal.
    pub fn show_progress<D: Display + Drop>(&self, words: D) {
        if !self.is_terminal {
            return;
        }
        let seconds = self.seconds();
        if seconds > self.shown.get() {
            self.shown.set(seconds);
            self.show_notice(format_args!("{words}, {seconds} s"));
        }
    }

    /// How many whole seconds the statement has run; none where no clock tells it.
    fn seconds(&self) -> u64 {
        match self.elapsed() {
            Some(elapsed) => elapsed.as_secs(),
            None => 0,
        }
    }

    /// How long the statement has run, where a clock tells it.
    fn elapsed(&self) -> Option<Duration> {
        self.began.get()?.elapsed(self.rt).ok()
    }

    /// Shows a notice, where this is a terminal.
    pub fn show_notice<D: Display + Drop>(&self, notice: D) {
        if self.is_terminal {
            self.print(notice);
            self.has_notice.set(true);
        }
    }

    /// Takes a notice away, if one stands there.
    pub fn clear_notice(&self) {
        if self.has_notice.replace(false) {
            let _ = self.rt.eprint(CLEAR_LINE);
        }
    }

    /// Prints words, in place of a notice.
    pub fn print<D: Display + Drop>(&self, words: D) {
        self.clear_notice();
        let _ = self.rt.eprint(words);
    }

    /// Prints a line that begins with the program's name.
    pub fn tell<D: Display + Drop>(&self, words: D) {
        let program = self.program;
        self.print(format_args!("{program}: {words}\n"));
    }

    /// Prints such a line where someone looks on.
    pub fn tell_person<D: Display + Drop>(&self, words: D) {
        if self.is_terminal {
            self.tell(words);
        }
    }

    /// Tells what has failed, and the system's reason.
    pub fn tell_failed<D: Display + Drop>(&self, what: D, reason: io::Error) {
        match reason.to_string(self.rt.alloc()) {
            Ok(words) => self.tell(format_args!("{what}: {}", without_number(&words))),
            Err(_) => self.tell(format_args!("{what}: {reason}")),
        }
    }
}

/// The words of an error without the system's number behind them.
fn without_number(words: &str) -> &str {
    match words.split_once(" (os error ") {
        Some((reason, _)) => reason,
        None => words,
    }
}
