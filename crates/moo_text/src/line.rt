//! What one line of a batch text is.

ghost use Rattle.std.specs.Prelude.{◌≡◌, ◌∷◌, [], MatchOption};
ghost use Rattle.moo_value.specs.Literal.{is_blank};
ghost use Rattle.moo_text.specs.Line.{is_within_line, is_all_blank, is_blank_line, is_end_line, words_of_line, until_blank, from_blank};

use moo_value::skip_blanks;

/// The most bytes of a line, its end left away.
pub const LONGEST_LINE: usize = 262144;

/// Whether a byte is a space or a tab.
fn is_blank(byte: u8) -> bool
    ensures { result ≡ is_blank byte }
{
    byte == b' ' || byte == b'\t'
}

/// Whether a line, its end left away, has at most 262,144 bytes.
pub fn is_within_line(line: &[u8]) -> bool
    ensures { result ≡ is_within_line line.now }
{
    line.len() <= LONGEST_LINE
}

/// Whether all bytes are spaces and tabs.
pub fn is_all_blank(bytes: &[u8]) -> bool
    ensures { result ≡ is_all_blank bytes.now }
{
    skip_blanks(bytes).is_empty()
}

/// Whether a line is blank: at most 262,144 bytes, all of them spaces and tabs.
pub fn is_blank_line(line: &[u8]) -> bool
    ensures { result ≡ is_blank_line line.now }
{
    is_within_line(line) && is_all_blank(line)
}

/// Whether a line of at most 262,144 bytes is `end`, with spaces and tabs before and after.
pub fn is_end_line(line: &[u8]) -> bool
    ensures { result ≡ is_end_line line.now }
{
    if !is_within_line(line) {
        return false;
    }
    match skip_blanks(line) {
        [b'e', b'n', b'd', rest @ ..] => is_all_blank(rest),
        _ => false,
    }
}

/// The bytes in front of the first space or tab, and the bytes from it on. Without one, all the bytes and none.
fn split_at_blank(bytes: &[u8]) -> (&[u8], &[u8])
    ensures front { result.0.now ≡ until_blank bytes.now }
    ensures back { result.1.now ≡ from_blank bytes.now }
{
    for (i, byte) in bytes.iter().enumerate() {
        if is_blank(*byte) {
            return bytes.split_at(i);
        }
    }
    (bytes, &[])
}

/// The first word, up to a space or a tab, and the bytes after it; `None` if there is no word.
pub fn next_word(bytes: &[u8]) -> Option<(&[u8], &[u8])>
    // The word is the first one, and the bytes after it have the others; if `None`, there is no word.
    ensures { MatchOption result (words_of_line bytes.now ≡ []) (λ x. words_of_line bytes.now ≡ x.0.now ∷ words_of_line x.1.now) }
{
    let start = skip_blanks(bytes);
    if start.is_empty() {
        None
    } else {
        Some(split_at_blank(start))
    }
}
