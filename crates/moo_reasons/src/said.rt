//! The text of a reason, with values and bytes as it shows them.

ghost use Rattle.std.specs.Prelude.{◌≡◌, ◌+◌, ◌≤◌, length, string_bytes, OnOk};

use moo_value::{MooStr, ObjNo, Value, print_literal};
use moo_world::CallName;
use std::alloc::{AllocError, Global};

/// The most bytes of a value that are shown.
const MOST_OF_A_VALUE: usize = 60;

/// The most bytes of a line that are shown.
const MOST_OF_A_LINE: usize = 40;

/// What is wrong with a line that is longer than any may be.
pub(crate) const LONG_LINE: &[u8] = b"a line of over 262144 bytes";

/// What is wrong with a line that ends too early.
pub(crate) const LINE_ENDS: &[u8] = b"the line ends where a value is missing";

/// What is said so far. Each `put` adds to its end.
#[derive(Drop)]
pub(crate) struct Said {
    pub(crate) alloc: Global,
    text: Vec<u8>,
}

impl Said {
    /// Nothing is said yet.
    pub(crate) fn new(alloc: Global) -> Said {
        Said {
            alloc,
            text: Vec::new(alloc),
        }
    }

    /// The text of what is said. All that is put into it is UTF-8.
    pub(crate) fn text(self) -> String
        ensures { length (string_bytes result) ≤ length self.text.items }
    {
        match String::from_utf8(self.text) {
            Ok(text) => text,
            Err(_) => String::new(self.alloc),
        }
    }

    /// Cuts a text of more than `longest` bytes to the first `front` bytes and two dots. The only error is a lack of memory.
    pub(crate) fn shorten(&mut self, longest: usize, front: usize) -> Result<(), AllocError>
        // If `front` bytes and two dots are at most `longest`, so is the text afterwards.
        ensures { front + 2 ≤ longest → OnOk result (length self.new.text.items ≤ longest) }
    {
        if longest < self.text.len() {
            self.text.truncate(front);
            self.put(b"..")?;
        }
        Ok(())
    }

    /// Adds words. AllocError: memory ran out.
    pub(crate) fn put(&mut self, words: &[u8]) -> Result<(), AllocError>
        ensures { OnOk result (length self.new.text.items ≡ length self.old.text.items + length words.now) }
    {
        self.text.extend_from_slice(words)
    }

    /// Adds the literal of a value: the first 60 bytes and two dots, if it is longer. AllocError: memory ran out.
    pub(crate) fn put_value(&mut self, value: &Value) -> Result<(), AllocError> {
        let most = self.text.len().saturating_add(MOST_OF_A_VALUE);
        print_literal(self.alloc, value, &mut self.text)?;
        self.shorten(most, most)
    }

    /// Adds a text between quotes: the first 60 bytes of its literal and two dots, if it is longer. AllocError: memory ran out.
    pub(crate) fn put_text(&mut self, text: &MooStr) -> Result<(), AllocError> {
        self.put_value(&Value::Str(text.copy(self.alloc)?))
    }

    /// Adds an object, as `#3`. AllocError: memory ran out.
    pub(crate) fn put_object(&mut self, object: ObjNo) -> Result<(), AllocError> {
        self.put_value(&Value::Obj(object))
    }

    /// Adds a number in decimal, such as that of a line or of a batch. AllocError: memory ran out.
    pub(crate) fn put_count(&mut self, count: u64) -> Result<(), AllocError> {
        let digits = count.to_string(self.alloc)?;
        self.put(digits.as_bytes())
    }

    /// Adds a call as it is written, `name(value, ...)`, each value as `put_value` shows it. AllocError: memory ran out.
    pub(crate) fn put_call(&mut self, name: CallName, values: &[Value]) -> Result<(), AllocError> {
        self.put(name.spelling())?;
        self.put(b"(")?;
        for (place, value) in values.iter().enumerate() {
            if place != 0 {
                self.put(b", ")?;
            }
            self.put_value(value)?;
        }
        self.put(b")")
    }

    /// Adds bytes of a line between single quotes, and then words: the first 40 bytes and two dots, if there are more, with a question mark
    /// for each byte that doesn't print. AllocError: memory ran out.
    pub(crate) fn put_of(&mut self, bytes: &[u8], words: &[u8]) -> Result<(), AllocError> {
        self.put(b"'")?;
        for byte in bytes.iter().copied().take(MOST_OF_A_LINE) {
            let shown = if matches!(byte, 32..=126) { byte } else { b'?' };
            self.put(&[shown])?;
        }
        if MOST_OF_A_LINE < bytes.len() {
            self.put(b"..")?;
        }
        self.put(b"'")?;
        self.put(words)
    }
}
