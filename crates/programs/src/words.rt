//! From the words of a command line to what they ask for.

ghost use Rattle.std.specs.Prelude.{◌≡◌, ◌∷◌, [], Some, false, codes, map, option_map, IfOk, IfSome};
ghost use Rattle.clap.specs.Simple.{subcommand_rows_of, with_subcommand};
ghost use Rattle.clap.specs.Words.{FailsBy, app_of, first_value, found_of, rule_of, kind_of};
ghost use Rattle.clap.specs.declared.error.kind.ErrorKind.TheVariants as kind;
ghost use Rattle.programs.specs.CommandLine as spec;
ghost use Rattle.programs.specs.Request.{asked, source_of, form_of};
ghost use Rattle.clap.specs.declared.builder.Command.TheViews.{out-Command};
ghost use Rattle.programs.specs.CommandLine.{line, run, check, word_rule, text_rule, stop_rule, timing_rule, form_rule};

use crate::requests::{AnswerForm, LineFault, Request, RunOptions, Source};
use clap::error::ErrorKind;
use clap::{Arg, ArgAction, ArgMatches, Command};
use std::alloc::{AllocError, Global};

pub(crate) const VERSION: &str = "0.2.0";

/// What stands at the end of help.
const AFTER_HELP: &str =
    "Examples:\n  sqlr run first.sql\n  sqlr run - < first.sql\n  sqlr check first.sql first.certificates\n\nExit status: 0 well, 1 refused or an exception, 2 broken off, 3 a certificate refused\nTo read on: docs/FIRST_STEPS.md, docs/LANGUAGE.md";

/// What the words of a command line ask for, the first of which is the program's name, as `clap`
/// gives them to the command; or a fault, exactly where the words have one, of its kind: `clap`'s, or that
/// of a form of rows that there isn't. Help and the version, where they are asked for, are `clap`'s faults too (own).
pub fn request(alloc: Global, words: &[&str]) -> Result<Request, LineFault>
    ensures asked { IfOk result (λ r. spec.asked_of (map (λ w. w.now) words.now) ≡ Some (asked r)) }
    ensures kinds { FailsBy (spec.fault_in (map (λ w. w.now) words.now)) result }
{
    match command(alloc) {
        Ok(mut command) => request_by(alloc, &mut command, words),
        Err(_) => Err(LineFault::from(AllocError)),
    }
}

/// The same, by the command whose line that is.
fn request_by<'a>(
    alloc: Global,
    command: &mut Command<'a>,
    words: &'a [&'a str],
) -> Result<Request, LineFault>
    requires { app_of command.now ≡ line }
    ensures asked { IfOk result (λ r. spec.asked_of (map (λ w. w.now) words.now) ≡ Some (asked r)) }
    ensures kinds { FailsBy (spec.fault_in (map (λ w. w.now) words.now)) result }
{
    let matches = match command.try_get_matches_from_mut(words) {
        Ok(matches) => matches,
        Err(fault) => return Err(with_hint(alloc, command, words, fault)),
    };
    match request_in(alloc, &matches) {
        Ok(Some(request)) => Ok(request),
        Ok(None) => no_such_form(alloc, command, &matches),
        Err(_) => Err(LineFault::from(AllocError)),
    }
}

/// What the subcommand that was met asks for.
fn request_in(alloc: Global, matches: &ArgMatches<'_>) -> Result<Option<Request>, AllocError>
    ensures { IfOk result (λ r. option_map asked r ≡ spec.asked_in (subcommand_rows_of matches.now)) }
{
    let Some((name, given)) = matches.subcommand() else {
        return Ok(None);
    };
    if name == "run" {
        return run_request(alloc, given);
    }
    if name == "check" {
        return check_request(alloc, given);
    }
    Ok(None)
}

fn run_request(alloc: Global, run: &ArgMatches<'_>) -> Result<Option<Request>, AllocError>
    ensures { IfOk result (λ r. option_map asked r ≡ spec.run_of (first_value (found_of run.now) (codes "SCRIPT"))
        (first_value (found_of run.now) (codes "text")) (first_value (found_of run.now) (codes "stop"))
        (first_value (found_of run.now) (codes "timing")) (first_value (found_of run.now) (codes "as"))) }
{
    let Some(script) = run.get_str("SCRIPT") else {
        return Ok(None);
    };
    let Some(form) = form_asked(run.get_str("as")) else {
        return Ok(None);
    };
    let script = script_source(alloc, is_on(run.get_str("text")), script)?;
    let options = RunOptions {
        stops: is_on(run.get_str("stop")),
        is_timed: is_on(run.get_str("timing")),
        form,
    };
    Ok(Some(Request::Run { script, options }))
}

/// Whether a flag of this value is given.
fn is_on(value: Option<&str>) -> bool
    ensures { result ≡ spec.is_on (option_map (λ word. word.now) value.entry) }
{
    match value {
        Some(word) => word == "true",
        None => false,
    }
}

/// The form of rows that is asked for, if one is; or nothing where its word names none.
fn form_asked(value: Option<&str>) -> Option<Option<AnswerForm>>
    ensures { option_map (option_map form_of) result ≡ spec.form_asked (option_map (λ word. word.now) value.entry) }
{
    match value {
        Some(word) => Some(Some(form_named(word)?)),
        None => Some(None),
    }
}

fn form_named(word: &str) -> Option<AnswerForm>
    ensures { option_map form_of result ≡ spec.form_named word.now }
{
    if word == "csv" {
        return Some(AnswerForm::Csv);
    }
    if word == "table" {
        return Some(AnswerForm::Table);
    }
    if word == "json" {
        return Some(AnswerForm::Json);
    }
    None
}

/// The source of a script: the text that it is, or what its word names.
fn script_source(alloc: Global, is_text: bool, word: &str) -> Result<Source, AllocError>
    ensures { IfOk result (λ source. source_of source ≡ spec.script_of is_text word.now) }
{
    if is_text {
        return Ok(Source::Text(String::from_str(alloc, word)?));
    }
    source_named(alloc, word)
}

fn check_request(alloc: Global, check: &ArgMatches<'_>) -> Result<Option<Request>, AllocError>
    ensures { IfOk result (λ r. option_map asked r ≡ spec.check_of (first_value (found_of check.now) (codes "SCRIPT"))
        (first_value (found_of check.now) (codes "CERTIFICATES"))) }
{
    let Some(script) = check.get_str("SCRIPT") else {
        return Ok(None);
    };
    let Some(certificates) = check.get_str("CERTIFICATES") else {
        return Ok(None);
    };
    let script = source_named(alloc, script)?;
    let certificates = source_named(alloc, certificates)?;
    Ok(Some(Request::Check {
        script,
        certificates,
    }))
}

/// The source that a word names: `-` is standard input.
fn source_named(alloc: Global, word: &str) -> Result<Source, AllocError>
    ensures { IfOk result (λ source. source_of source ≡ spec.source_named word.now) }
{
    if word == "-" {
        return Ok(Source::StandardInput);
    }
    Ok(Source::File(String::from_str(alloc, word)?))
}

/// The fault, or one of its kind whose words say what may have been meant.
fn with_hint(alloc: Global, command: &mut Command, words: &[&str], fault: LineFault) -> LineFault
    ensures { kind_of result ≡ kind_of fault }
{
    let hint = match fault.kind() {
        ErrorKind::InvalidSubcommand => subcommand_hint(alloc, command, words),
        ErrorKind::UnknownArgument => option_hint(alloc, command, words),
        ErrorKind::MissingRequiredArgument => missing_hint(command, words),
        _ => return fault,
    };
    match hint {
        Ok(Some(hint)) => hint,
        _ => fault,
    }
}

/// The fault of a word that is no subcommand, where it is known what was meant.
fn subcommand_hint(
    alloc: Global,
    command: &mut Command,
    words: &[&str],
) -> Result<Option<LineFault>, AllocError>
    ensures { IfOk result (λ hint. IfSome hint (λ f. kind_of f ≡ kind.InvalidSubcommand)) }
{
    let Some(word) = words.get(1) else {
        return Ok(None);
    };
    let (tip, script, quote) = if word.ends_with(".sql") {
        ("to run this script, use 'sqlr run ", *word, "'")
    } else if let Some(tip) = tip_on(word) {
        (tip, "", "")
    } else {
        return Ok(None);
    };
    let message = format!(in alloc;
        "unrecognized subcommand '{word}'\n\n  tip: {tip}{script}{quote}"
    );
    hint_of(command, ErrorKind::InvalidSubcommand, message)
}

/// A fault of this kind, in these words.
fn hint_of(
    command: &mut Command,
    fault: ErrorKind,
    message: Result<String, AllocError>,
) -> Result<Option<LineFault>, AllocError>
    ensures { IfOk result (λ hint. IfSome hint (λ f. kind_of f ≡ fault)) }
{
    let fault = command.error(fault, &message?)?;
    Ok(Some(fault))
}

/// What was meant by a word that is no subcommand, in letters of whatever case, where it is known.
fn tip_on(word: &str) -> Option<&'static str> {
    for (known, tip) in &TIPS {
        if word.eq_ignore_ascii_case(known) {
            return Some(*tip);
        }
    }
    None
}

const SMALL_LETTERS: &str = "subcommands are written in small letters";

static TIPS: [(&str, &str); 4] = [
    (
        "explain",
        "EXPLAIN is a statement, which stands before a SELECT in a script",
    ),
    ("run", SMALL_LETTERS),
    ("check", SMALL_LETTERS),
    ("version", "the version is told by 'sqlr --version'"),
];

/// The fault of an option that there is not, without clap's tip on how to pass it as a value.
fn option_hint(
    alloc: Global,
    command: &mut Command,
    words: &[&str],
) -> Result<Option<LineFault>, AllocError>
    ensures { IfOk result (λ hint. IfSome hint (λ f. kind_of f ≡ kind.UnknownArgument)) }
{
    let is_run = matches!(words, [_, "run", ..]);
    for word in words {
        let is_option = word.starts_with("-") && word.len() > 1 && !word.ends_with(".sql");
        if is_option && !(is_run && is_option_of_run(word)) {
            let message = format!(in alloc; "there is no option '{word}'");
            return hint_of(command, ErrorKind::UnknownArgument, message);
        }
    }
    if is_run {
        return several_scripts(alloc, command, words);
    }
    Ok(None)
}

fn is_option_of_run(word: &str) -> bool {
    word == "-c" || word == "--stop" || word == "--timing" || is_form_option(word)
}

fn is_form_option(word: &str) -> bool {
    word == "--as" || word.starts_with("--as=")
}

/// The fault of a run of several scripts.
fn several_scripts(
    alloc: Global,
    command: &mut Command,
    words: &[&str],
) -> Result<Option<LineFault>, AllocError>
    ensures { IfOk result (λ hint. IfSome hint (λ f. kind_of f ≡ kind.UnknownArgument)) }
{
    let (Some(first), Some(second)) = first_scripts(words) else {
        return Ok(None);
    };
    if has_text(words) {
        let fault = command.error(
            ErrorKind::UnknownArgument,
            "a run takes one script\n\n  tip: behind -c its text stands in place of a file",
        )?;
        return Ok(Some(fault));
    }
    let message = format!(in alloc;
        "a run takes one script\n\n  tip: 'cat {first} {second} | sqlr run -' runs one behind the other"
    );
    hint_of(command, ErrorKind::UnknownArgument, message)
}

/// The first two words of a run that are no options.
fn first_scripts<'w>(words: &[&'w str]) -> (Option<&'w str>, Option<&'w str>) {
    let mut scripts = (None, None);
    let mut is_form = false;
    for word in words.iter().skip(2) {
        if !is_form && !is_option_of_run(word) {
            match scripts {
                (None, _) => scripts = (Some(*word), None),
                (Some(first), None) => scripts = (Some(first), Some(*word)),
                (Some(_), Some(_)) => {}
            }
        }
        is_form = *word == "--as";
    }
    scripts
}

/// Whether the script is given as a text.
fn has_text(words: &[&str]) -> bool {
    words.iter().any(|word| *word == "-c")
}

/// The fault of a run without a script.
fn missing_hint(command: &mut Command, words: &[&str]) -> Result<Option<LineFault>, AllocError>
    ensures { IfOk result (λ hint. IfSome hint (λ f. kind_of f ≡ kind.MissingRequiredArgument)) }
{
    let [_, "run", ..] = words else {
        return Ok(None);
    };
    let message = if has_text(words) {
        "the script's text is missing behind -c"
    } else {
        "a script is missing\n\n  tip: 'sqlr run -' reads it from standard input"
    };
    Ok(Some(command.error(ErrorKind::MissingRequiredArgument, message)?))
}

/// The fault of a form of rows that there isn't, in clap's words.
fn no_such_form(
    alloc: Global,
    command: &mut Command,
    matches: &ArgMatches<'_>,
) -> Result<Request, LineFault>
    ensures { FailsBy (kind.InvalidValue ∷ []) result }
{
    match form_fault(alloc, command, matches) {
        Ok(fault) => Err(fault),
        Err(_) => Err(LineFault::from(AllocError)),
    }
}

fn form_fault(
    alloc: Global,
    command: &mut Command,
    matches: &ArgMatches<'_>,
) -> Result<LineFault, AllocError>
    ensures { IfOk result (λ f. kind_of f ≡ kind.InvalidValue) }
{
    let word = match matches.subcommand() {
        Some((_, given)) => given.get_str("as").unwrap_or(""),
        None => "",
    };
    let message = format!(in alloc;
        "invalid value '{word}' for '--as <FORM>'\n  [possible values: csv, table, json]"
    )?;
    command.error(ErrorKind::InvalidValue, &message)
}

/// `sqlr run SCRIPT` with its options, and `sqlr check SCRIPT CERTIFICATES`.
fn command<'a>(alloc: Global) -> Result<Command<'a>, AllocError>
    ensures { IfOk result (λ c. app_of c ≡ line) }
{
    let command = run_line(alloc)?;
    let check = check_command(alloc)?;
    command.subcommand(check)
}

fn run_line<'a>(alloc: Global) -> Result<Command<'a>, AllocError>
    ensures { IfOk result (λ c. app_of c ≡ with_subcommand spec.program run.top) }
{
    let run = run_command(alloc)?;
    program(alloc).subcommand(run)
}

fn program<'a>(alloc: Global) -> Command<'a>
    ensures { app_of result ≡ spec.program }
{
    Command::new(alloc, "sqlr")
        .about("An engine for Entry SQL over tables in memory")
        .after_help(AFTER_HELP)
        .version(VERSION)
        .subcommand_required(true)
}

fn run_command<'a>(alloc: Global) -> Result<Command<'a>, AllocError>
    ensures app { IfOk result (λ c. app_of c ≡ run) }
    ensures local { IfOk result (λ c. (out-Command c).has_globals ≡ false) }
{
    let command = timed_run(alloc)?;
    command.arg(form(alloc))
}

fn timed_run<'a>(alloc: Global) -> Result<Command<'a>, AllocError>
    ensures app { IfOk result (λ c. app_of c ≡ spec.timed_run) }
    ensures local { IfOk result (λ c. (out-Command c).has_globals ≡ false) }
{
    let command = stopping_run(alloc)?;
    command.arg(timing(alloc))
}

fn stopping_run<'a>(alloc: Global) -> Result<Command<'a>, AllocError>
    ensures app { IfOk result (λ c. app_of c ≡ spec.stopping_run) }
    ensures local { IfOk result (λ c. (out-Command c).has_globals ≡ false) }
{
    let command = text_run(alloc)?;
    command.arg(stop(alloc))
}

fn text_run<'a>(alloc: Global) -> Result<Command<'a>, AllocError>
    ensures app { IfOk result (λ c. app_of c ≡ spec.text_run) }
    ensures local { IfOk result (λ c. (out-Command c).has_globals ≡ false) }
{
    let about = "Runs a script and prints its answers to standard output";
    let command = on_script(alloc, "run", about)?;
    command.arg(text(alloc))
}

fn check_command<'a>(alloc: Global) -> Result<Command<'a>, AllocError>
    ensures app { IfOk result (λ c. app_of c ≡ check) }
    ensures local { IfOk result (λ c. (out-Command c).has_globals ≡ false) }
{
    let about = "Checks certificates of a script's last query, and prints what they show";
    let command = on_script(alloc, "check", about)?;
    command.arg(word(alloc, "CERTIFICATES").help("A file of certificates, or - for standard input"))
}

/// The subcommand of this name, whose first word is a script.
fn on_script<'a>(alloc: Global, name: &'a str, about: &'a str) -> Result<Command<'a>, AllocError>
    ensures app { IfOk result (λ c. app_of c ≡ spec.on_script name.entry.now) }
    ensures local { IfOk result (λ c. (out-Command c).has_globals ≡ false) }
{
    Command::new(alloc, name)
        .about(about)
        .after_help(AFTER_HELP)
        .arg(word(alloc, "SCRIPT").help("A file of SQL statements, or - for standard input"))
}

/// A word that has to be given.
fn word<'a>(alloc: Global, name: &'a str) -> Arg<'a>
    ensures rule { rule_of result ≡ word_rule name.entry.now }
    ensures local { result.global ≡ false }
{
    Arg::new(alloc, name).required(true).action(ArgAction::Set)
}

fn text<'a>(alloc: Global) -> Arg<'a>
    ensures rule { rule_of result ≡ text_rule }
    ensures local { result.global ≡ false }
{
    Arg::new(alloc, "text")
        .short('c')
        .action(ArgAction::SetTrue)
        .help("SCRIPT is no file, but the statements themselves")
}

fn stop<'a>(alloc: Global) -> Arg<'a>
    ensures rule { rule_of result ≡ stop_rule }
    ensures local { result.global ≡ false }
{
    Arg::new(alloc, "stop")
        .long("stop")
        .action(ArgAction::SetTrue)
        .help("Ends at the first statement that is refused or raises")
}

fn timing<'a>(alloc: Global) -> Arg<'a>
    ensures rule { rule_of result ≡ timing_rule }
    ensures local { result.global ≡ false }
{
    Arg::new(alloc, "timing")
        .long("timing")
        .action(ArgAction::SetTrue)
        .help("Tells on standard error how long each statement took")
}

/// `--as FORM`. Which forms there are is tested behind clap's parse, since no contract can name the
/// slice of names that clap would test them by.
fn form<'a>(alloc: Global) -> Arg<'a>
    ensures rule { rule_of result ≡ form_rule }
    ensures local { result.global ≡ false }
{
    Arg::new(alloc, "as")
        .long("as")
        .value_name("FORM")
        .action(ArgAction::Set)
        .help("Prints rows as csv, table or json")
}
