//! Texts that are being written.

use std::alloc::{AllocError, Global};
use std::fmt;

/// A text that is being written. Where memory is wanting for a part, that is remembered, and the whole is no text at the end: so those who write
/// to it need no way out, and `write!` to it never fails.
#[derive(Drop)]
pub(crate) struct Written {
    text: String,
    lacks_memory: bool,
}

impl Written {
    pub fn new(alloc: Global) -> Written {
        Written {
            text: String::new(alloc),
            lacks_memory: false,
        }
    }

    pub fn put(&mut self, text: &str) {
        if self.text.push_str(text).is_err() {
            self.lacks_memory = true;
        }
    }

    pub fn put_blanks(&mut self, count: usize) {
        for _ in 0..count {
            self.put(" ");
        }
    }

    /// Has no text in the end, since what was to be put here wants memory.
    pub fn fail(&mut self) {
        self.lacks_memory = true;
    }

    pub fn is_empty(&self) -> bool {
        self.text.is_empty()
    }

    pub fn as_str(&self) -> &str {
        self.text.as_str()
    }

    /// Leaves nothing of the text, to begin anew.
    pub fn clear(&mut self) {
        self.text.clear();
    }

    /// The whole text.
    pub fn finish(self) -> Result<String, AllocError> {
        if self.lacks_memory {
            return Err(AllocError);
        }
        Ok(self.text)
    }
}

impl fmt::Write for Written {
    fn write_str(&mut self, text: &str) -> fmt::Result {
        self.put(text);
        Ok(())
    }
}
