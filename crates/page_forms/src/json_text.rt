//! Texts in JSON that are being written.

use json::Writer;
use std::alloc::{AllocError, Global};

/// A text in JSON that is being written. Where memory is wanting for a part, that is remembered, and the whole is no text at the end.
#[derive(Drop)]
pub(crate) struct JsonText {
    writer: Writer<Global>,
    lacks_memory: bool,
}

impl JsonText {
    pub fn new(alloc: Global) -> JsonText {
        JsonText {
            writer: Writer::new(Vec::new(alloc)),
            lacks_memory: false,
        }
    }

    pub fn begin_object(&mut self) {
        self.lacks_memory |= self.writer.begin_object().is_err();
    }

    pub fn end_object(&mut self) {
        self.lacks_memory |= self.writer.end_object().is_err();
    }

    pub fn begin_array(&mut self) {
        self.lacks_memory |= self.writer.begin_array().is_err();
    }

    pub fn end_array(&mut self) {
        self.lacks_memory |= self.writer.end_array().is_err();
    }

    pub fn put_key(&mut self, key: &str) {
        self.lacks_memory |= self.writer.key(key).is_err();
    }

    pub fn put_string(&mut self, text: &str) {
        self.lacks_memory |= self.writer.string(text).is_err();
    }

    pub fn put_u64(&mut self, number: u64) {
        self.lacks_memory |= self.writer.u64(number).is_err();
    }

    pub fn put_null(&mut self) {
        self.lacks_memory |= self.writer.null().is_err();
    }

    pub fn put_text(&mut self, key: &str, text: &str) {
        self.put_key(key);
        self.put_string(text);
    }

    pub fn put_number(&mut self, key: &str, number: u64) {
        self.put_key(key);
        self.put_u64(number);
    }

    pub fn put_flag(&mut self, key: &str, flag: bool) {
        self.put_key(key);
        self.lacks_memory |= self.writer.boolean(flag).is_err();
    }

    /// The whole text, and a line end.
    pub fn finish(self) -> Result<String, AllocError> {
        let mut bytes = self.writer.into_inner();
        bytes.push(b'\n')?;
        match String::from_utf8(bytes) {
            Ok(text) if !self.lacks_memory => Ok(text),
            _ => Err(AllocError),
        }
    }
}
