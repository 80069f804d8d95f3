//! Texts of scripts and files as a terminal may show them.

use std::fmt::{self, Display, Formatter};

/// How many bytes of a text are shown.
const SHOWN: usize = 60;

/// The beginning of a text, each control character as `?`.
#[derive(Clone, Copy)]
pub struct Visible<'a>(pub &'a str);

impl Display for Visible<'_> {
    fn fmt<W: fmt::Write>(&self, f: &mut Formatter<W>) -> fmt::Result {
        for (offset, character) in self.0.char_indices() {
            if offset >= SHOWN {
                return f.write_str("..");
            }
            f.write_char(make_visible(character))?;
        }
        Ok(())
    }
}

/// The beginning of the bytes of a field, those outside printable ASCII as `?`.
#[derive(Clone, Copy)]
pub struct VisibleBytes<'a>(pub &'a [u8]);

impl Display for VisibleBytes<'_> {
    fn fmt<W: fmt::Write>(&self, f: &mut Formatter<W>) -> fmt::Result {
        for byte in self.0.iter().take(SHOWN) {
            let is_printable = matches!(*byte, b' '..=b'~');
            f.write_char(if is_printable { char::from(*byte) } else { '?' })?;
        }
        if self.0.len() > SHOWN {
            f.write_str("..")?;
        }
        Ok(())
    }
}

/// A character as it is shown: a control character as `?`, but for a tab.
pub(crate) fn make_visible(character: char) -> char {
    if character.is_control() && character != '\t' {
        '?'
    } else {
        character
    }
}
