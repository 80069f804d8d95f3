//! Texts in HTML.

use std::fmt::{self, Display, Formatter};

/// A text as HTML and SVG hold it, between tags and in attributes.
#[derive(Clone, Copy)]
pub(crate) struct Escaped<'a>(pub &'a str);

impl Display for Escaped<'_> {
    fn fmt<W: fmt::Write>(&self, f: &mut Formatter<W>) -> fmt::Result {
        for sign in self.0.chars() {
            match entity(sign) {
                Some(entity) => f.write_str(entity)?,
                None => f.write_char(sign)?,
            }
        }
        Ok(())
    }
}

fn entity(sign: char) -> Option<&'static str> {
    match sign {
        '&' => Some("&amp;"),
        '<' => Some("&lt;"),
        '>' => Some("&gt;"),
        '"' => Some("&quot;"),
        _ => None,
    }
}
