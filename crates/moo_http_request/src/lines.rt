//! The lines of a head.

ghost use Rattle.std.specs.Prelude.{◌≡◌, length, map, All, option_map};
ghost use Rattle.httparse.specs.Spans.{IsHeaderWithin, header_bytes};
ghost use Rattle.moo_http_request.specs.Lines.{is_same_name, values_of, IsFoundAmong, is_from_page, is_coded, length_text};

use httparse::spans::HeaderSpan;

/// What was found of the lines of a head that have a name.
#[derive(Clone, Copy, Drop)]
pub enum FoundLine<'b> {
    /// No line has it.
    Nothing,
    /// One line has it.
    One(&'b [u8]),
    /// More than one line has it.
    Several,
}

/// Whether a line has a name, in any case.
pub(crate) fn has_name(bytes: &[u8], line: HeaderSpan, name: &[u8]) -> bool
    // The place of the line is inside the bytes.
    requires within { IsHeaderWithin (length bytes.now) line }
    ensures { result ≡ is_same_name (header_bytes bytes.now line).0 name.now }
{
    line.name.of(bytes).eq_ignore_ascii_case(name)
}

/// The value of the one line that has this name, in any case; or that no line has it, or more than one.
fn find<'b>(bytes: &'b [u8], lines: &[HeaderSpan], name: &[u8]) -> FoundLine<'b>
    // The places of the lines are inside the bytes.
    requires within { All (IsHeaderWithin (length bytes.now)) lines.now }
    ensures { IsFoundAmong (values_of name.now (map (header_bytes bytes.entry.now) lines.now)) result }
{
    let mut found = FoundLine::Nothing;
    for line in lines {
        if has_name(bytes, *line, name) {
            found = match found {
                FoundLine::Nothing => FoundLine::One(line.value.of(bytes)),
                _ => FoundLine::Several,
            };
        }
    }
    found
}

/// Whether a page of a browser sent the request: it has a line `origin`.
pub(crate) fn is_from_page(bytes: &[u8], lines: &[HeaderSpan]) -> bool
    // The places of the lines are inside the bytes.
    requires within { All (IsHeaderWithin (length bytes.now)) lines.now }
    ensures { result ≡ is_from_page (map (header_bytes bytes.now) lines.now) }
{
    match find(bytes, lines, b"origin") {
        FoundLine::Nothing => false,
        _ => true,
    }
}

/// Whether a line of a head names a coding of the body, as of one in chunks: it has a line `transfer-encoding`.
pub(crate) fn is_coded(bytes: &[u8], lines: &[HeaderSpan]) -> bool
    // The places of the lines are inside the bytes.
    requires within { All (IsHeaderWithin (length bytes.now)) lines.now }
    ensures { result ≡ is_coded (map (header_bytes bytes.now) lines.now) }
{
    match find(bytes, lines, b"transfer-encoding") {
        FoundLine::Nothing => false,
        _ => true,
    }
}

/// The length of the body, as the one line `content-length` states it. None if no line or more than one states it, or if a line names a
/// coding.
pub(crate) fn stated_length<'b>(bytes: &'b [u8], lines: &[HeaderSpan]) -> Option<&'b [u8]>
    // The places of the lines are inside the bytes.
    requires within { All (IsHeaderWithin (length bytes.now)) lines.now }
    ensures { option_map (λ text. text.now) result ≡ length_text (map (header_bytes bytes.entry.now) lines.now) }
{
    let FoundLine::Nothing = find(bytes, lines, b"transfer-encoding") else {
        return None;
    };
    match find(bytes, lines, b"content-length") {
        FoundLine::One(text) => Some(text),
        _ => None,
    }
}
