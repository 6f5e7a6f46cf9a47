//! Finding lines of a text by the places at which they begin.

ghost use Rattle.std.specs.{Prelude.{◌≡◌, ◌==◌, ◌≤◌, ◌<◌, ◌+◌, ◌∷◌, ◌++◌, ℕ, List, length, drop, IfSome, IsSomeAnd}, List.{position_from}};
ghost use Rattle.moo_load.specs.{Lines.{IsLineOf}, Printed.{IsOneLine}};

/// The number of the line that a place of the text is in, from 1.
pub(crate) fn line_at(text: &[u8], at: usize) -> u64
    // The text has the place.
    requires { at ≤ length text.now }
    ensures { IsLineOf text.now result }
{
    let mut number = 1;
    for byte in &text[..at] {
        if *byte == b'\n' {
            number += 1;
        }
    }
    number
}

/// The place of the first line end, from 0; `None` if there is no such line end.
fn end_of(bytes: &[u8]) -> Option<usize>
    ensures first { result ≡ position_from (λ byte. byte == 10) 0 bytes.now }
    ensures within { IfSome result (λ end. end < length bytes.now) }
{
    bytes.iter().position(|byte| *byte == b'\n')
}

/// The line that begins at a place of the text, without its end; `None` if no end follows.
pub(crate) fn line_from(text: &[u8], at: usize) -> Option<&[u8]>
    // The text has the place.
    requires { at ≤ length text.now }
    // The line and its end are in the text.
    ensures within { IfSome result (λ line. at + length line.now < length text.now) }
    // If bytes without a line end begin at the place, and a line end follows, the bytes are the line.
    ensures found { (line rest : List ℕ) → IsOneLine line → drop at text.now ≡ line ++ 10 ∷ rest → IsSomeAnd result (λ l. l.now ≡ line) }
{
    let rest = &text[at..];
    let end = end_of(rest)?;
    Some(&rest[..end])
}
