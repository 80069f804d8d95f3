//! Pages printed.

use page_forms::{Drawing, page_html, page_json, page_text};
use plan_pages::Page;
use programs::{BROKEN_OFF, Input, StandardError, tell_output};
use std::alloc::{AllocError, Global};
use std::env;
use std::io::{self, Write};
use std::rt::Runtime;

/// How a page is printed.
#[derive(Clone, Copy)]
pub(crate) enum Form {
    Text(Drawing),
    Json,
    Html,
}

impl Form {
    pub fn write(self, alloc: Global, page: &Page) -> Result<String, AllocError> {
        match self {
            Form::Text(drawing) => page_text(alloc, page, drawing),
            Form::Json => page_json(alloc, page),
            Form::Html => page_html(alloc, page),
        }
    }
}

/// The names of what says which characters a terminal shows, the first that is set alone.
static LOCALES: [&str; 3] = ["LC_ALL", "LC_CTYPE", "LANG"];

/// How trees are drawn: in box drawing characters where that is asked for, and on a terminal that shows UTF-8.
pub(crate) fn drawing_of<R: Runtime + AllocGlobal>(
    rt: &R,
    is_unicode: bool,
    is_shown: bool,
) -> Drawing {
    if is_unicode || is_shown && is_utf8(rt) {
        Drawing::Boxes
    } else {
        Drawing::Plain
    }
}

fn is_utf8<R: Runtime + AllocGlobal>(rt: &R) -> bool {
    for name in &LOCALES {
        match env::var(rt, name) {
            Ok(value) if !value.is_empty() => return names_utf8(&value),
            _ => {}
        }
    }
    false
}

/// Whether the value of a locale, as `da_DK.UTF-8`, names UTF-8.
fn names_utf8(locale: &str) -> bool {
    let encoding = match locale.split_once('.') {
        Some((_, encoding)) => encoding.split('@').next().unwrap_or(""),
        None => "",
    };
    encoding.eq_ignore_ascii_case("UTF-8") || encoding.eq_ignore_ascii_case("UTF8")
}

/// Prints bytes to standard output, or gives the status to end with where it takes no more.
pub(crate) fn print<R: Runtime + AllocGlobal>(input: &Input<R>, bytes: &[u8]) -> Result<(), u8> {
    match put(input.rt, bytes) {
        Ok(()) => Ok(()),
        Err(reason) => {
            tell_output(input.standard_error, reason);
            Err(BROKEN_OFF)
        }
    }
}

fn put<R: Runtime + AllocGlobal>(rt: &R, bytes: &[u8]) -> io::Result<()> {
    let mut writer = io::writer(rt);
    writer.write_all(bytes)?;
    writer.flush()
}

/// Says that memory ran out, and gives the exit status.
pub(crate) fn out_of_memory<R: Runtime + AllocGlobal>(standard_error: &StandardError<R>) -> u8 {
    standard_error.tell("out of memory");
    BROKEN_OFF
}
