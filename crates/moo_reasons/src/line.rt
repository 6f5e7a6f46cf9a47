//! The line that says why a batch is refused: at most 1,000 bytes, tabs and printing ASCII.

ghost use Rattle.std.specs.Prelude.{◌≡◌, IfOk};
ghost use Rattle.moo_reasons.specs.Lines.{IsShort};

use crate::said::Said;
use moo_batch::Refusal;
use std::alloc::AllocError;

/// The most bytes of a line.
const LONGEST: usize = 1000;

/// The bytes in front of `..` in a line that would be too long.
const FRONT: usize = 998;

/// The text of what is said; of a text over 1,000 bytes the first 998 and two dots. AllocError: memory ran out.
pub(crate) fn shortened_text(mut said: Said) -> Result<String, AllocError>
    ensures { IfOk result IsShort }
{
    said.shorten(LONGEST, FRONT)?;
    Ok(said.text())
}

/// The refusal of a batch, and the line that says why.
#[derive(Drop)]
pub struct Why {
    refusal: Refusal,
    text: String,
    ghost short: { IsShort text },
}

impl Why {
    /// A refusal with the line of what is said of it, shortened to 1,000 bytes. AllocError: memory ran out.
    pub(crate) fn new(refusal: Refusal, said: Said) -> Result<Why, AllocError>
        ensures { IfOk result (λ why. why.refusal ≡ refusal) }
    {
        let text = shortened_text(said)?;
        Ok(Why { refusal, text })
    }

    /// The line that says why the batch is refused.
    pub(crate) fn into_text(self) -> String
        ensures text { result ≡ self.text }
        ensures short { IsShort result }
    {
        self.text
    }
}
