//! The text that says why a text gives no world.

use moo_value::{ObjNo, Value, print_literal};
use std::alloc::{AllocError, Global};

/// The most bytes of a value or of a line that are shown.
const MOST_SHOWN: usize = 60;

/// What is said so far, for standard error: nothing is proved of it. Each `put` adds to its end. `Said` of `moo_reasons`, of which lengths
/// are proved, is another type.
#[derive(Drop)]
pub(crate) struct Said {
    pub(crate) alloc: Global,
    text: Vec<u8>,
}

impl Said {
    /// Nothing is said yet.
    pub(crate) fn new(alloc: Global) -> Said {
        Said {
            alloc,
            text: Vec::new(alloc),
        }
    }

    /// The text of what is said. All that is put into it is ASCII.
    pub(crate) fn into_text(self) -> String {
        match String::from_utf8(self.text) {
            Ok(text) => text,
            Err(_) => String::new(self.alloc),
        }
    }

    /// Adds words, which are ASCII. AllocError: memory ran out.
    pub(crate) fn put(&mut self, words: &str) -> Result<(), AllocError> {
        self.text.extend_from_slice(words.as_bytes())
    }

    /// Adds a number in decimal. AllocError: memory ran out.
    pub(crate) fn put_number(&mut self, number: u64) -> Result<(), AllocError> {
        let digits = number.to_string(self.alloc)?;
        self.put(digits.as_str())
    }

    /// Adds the number of the line, if one is known, and that the text isn't a dump. AllocError: memory ran out.
    pub(crate) fn put_place(&mut self, number: Option<u64>) -> Result<(), AllocError> {
        if let Some(number) = number {
            self.put("line ")?;
            self.put_number(number)?;
            self.put(": ")?;
        }
        self.put("not a dump: ")
    }

    /// Adds the literal of a value: the first 60 bytes and two dots, if it is longer. AllocError: memory ran out.
    pub(crate) fn put_value(&mut self, value: &Value) -> Result<(), AllocError> {
        let most = self.text.len().saturating_add(MOST_SHOWN);
        print_literal(self.alloc, value, &mut self.text)?;
        if most < self.text.len() {
            self.text.truncate(most);
            self.put("..")?;
        }
        Ok(())
    }

    /// Adds an object, as `#3`. AllocError: memory ran out.
    pub(crate) fn put_object(&mut self, object: ObjNo) -> Result<(), AllocError> {
        self.put_value(&Value::Obj(object))
    }

    /// Adds bytes of a line between single quotes: the first 60 and two dots, if there are more, with a question mark for each byte that
    /// doesn't print. AllocError: memory ran out.
    pub(crate) fn put_shown(&mut self, bytes: &[u8]) -> Result<(), AllocError> {
        self.put("'")?;
        for byte in bytes.iter().take(MOST_SHOWN) {
            let shown = if matches!(*byte, 32..=126) {
                *byte
            } else {
                b'?'
            };
            self.text.push(shown).map_err(AllocError::from)?;
        }
        if MOST_SHOWN < bytes.len() {
            self.put("..")?;
        }
        self.put("'")
    }
}
