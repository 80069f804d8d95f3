//! The tokens of a plan by names.

/// A token.
#[derive(Clone, Copy, PartialEq, Eq)]
pub(crate) enum Token<'t> {
    /// Letters, digits and underscores.
    Word(&'t [u8]),
    /// Any other byte.
    Mark(u8),
    End,
}

/// A place in a text, where a token begins.
#[derive(Clone, Copy)]
pub(crate) struct Cursor<'t> {
    text: &'t [u8],
    at: usize,
}

impl<'t> Cursor<'t> {
    /// The first token of a text.
    pub fn new(text: &'t [u8]) -> Cursor<'t> {
        Cursor { text, at: 0 }.behind_blanks()
    }

    /// How many bytes the text has.
    pub fn text_length(self) -> usize {
        self.text.len()
    }

    fn rest(self) -> &'t [u8] {
        self.text.get(self.at..).unwrap_or(&[])
    }

    pub fn token(self) -> Token<'t> {
        let rest = self.rest();
        let Some(first) = rest.first() else {
            return Token::End;
        };
        if is_name_byte(*first) {
            Token::Word(rest.get(..name_length(rest)).unwrap_or(&[]))
        } else {
            Token::Mark(*first)
        }
    }

    /// The next token.
    pub fn behind(self) -> Cursor<'t> {
        let length = match self.token() {
            Token::Word(word) => word.len(),
            Token::Mark(_) => 1,
            Token::End => 0,
        };
        self.moved_by(length).behind_blanks()
    }

    fn behind_blanks(self) -> Cursor<'t> {
        self.moved_by(blank_length(self.rest()))
    }

    fn moved_by(self, length: usize) -> Cursor<'t> {
        Cursor {
            text: self.text,
            at: self.at.saturating_add(length),
        }
    }
}

fn is_name_byte(byte: u8) -> bool {
    byte.is_ascii_alphanumeric() || byte == b'_'
}

/// How many bytes of a name a text begins with.
fn name_length(text: &[u8]) -> usize {
    for (length, byte) in text.iter().enumerate() {
        if !is_name_byte(*byte) {
            return length;
        }
    }
    text.len()
}

/// How many blanks a text begins with.
fn blank_length(text: &[u8]) -> usize {
    for (length, byte) in text.iter().enumerate() {
        if !byte.is_ascii_whitespace() {
            return length;
        }
    }
    text.len()
}
