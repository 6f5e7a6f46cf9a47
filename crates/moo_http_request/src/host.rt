//! Which machine the lines of a head name.

ghost use Rattle.std.specs.{Prelude.{◌≡◌, ◌≤◌, length, take, map, All}, List.{list_all}};
ghost use Rattle.httparse.specs.Spans.{IsHeaderWithin, header_bytes};
ghost use Rattle.moo_http_request.specs.{Hosts.{is_port, is_name_of, is_own_host, is_own_line}, Lines.{is_same_name}};

use crate::lines::has_name;
use crate::numbers::number_at_most;
use httparse::spans::HeaderSpan;

/// The greatest number of a port.
const GREATEST_PORT: u64 = 65_535;

/// Whether what follows a name is nothing, or a colon and a port.
fn is_port(rest: &[u8]) -> bool
    ensures { result ≡ is_port rest.now }
{
    match rest.split_first() {
        Some((first, digits)) => *first == b':' && number_at_most(digits, GREATEST_PORT).is_some(),
        None => true,
    }
}

/// Whether a value begins with this name, which isn't longer, in any case.
fn has_front(value: &[u8], name: &[u8]) -> bool
    requires { length name.now ≤ length value.now }
    ensures { result ≡ is_same_name (take (length name.now) value.now) name.now }
{
    value[..name.len()].eq_ignore_ascii_case(name)
}

/// Whether a value is this name in any case, with or without a port.
fn is_name_of(value: &[u8], name: &[u8]) -> bool
    ensures { result ≡ is_name_of name.now value.now }
{
    if value.len() < name.len() {
        return false;
    }
    has_front(value, name) && is_port(&value[name.len()..])
}

/// Whether a value names this machine: 127.0.0.1, localhost or [::1], with or without a port.
fn is_own_host(value: &[u8]) -> bool
    ensures { result ≡ is_own_host value.now }
{
    is_name_of(value, b"127.0.0.1")
        || is_name_of(value, b"localhost")
        || is_name_of(value, b"[::1]")
}

/// Whether a line names no machine but this one: it has another name than host, or its value names this machine.
fn is_own_line(bytes: &[u8], line: HeaderSpan) -> bool
    // The place of the line is inside the bytes.
    requires within { IsHeaderWithin (length bytes.now) line }
    ensures { result ≡ is_own_line (header_bytes bytes.now line) }
{
    !has_name(bytes, line, b"host") || is_own_host(line.value.of(bytes))
}

/// Whether no line of a head names another machine than this one.
pub(crate) fn is_for_us(bytes: &[u8], lines: &[HeaderSpan]) -> bool
    // The places of the lines are inside the bytes.
    requires within { All (IsHeaderWithin (length bytes.now)) lines.now }
    ensures { result ≡ list_all is_own_line (map (header_bytes bytes.now) lines.now) }
{
    for line in lines {
        if !is_own_line(bytes, *line) {
            return false;
        }
    }
    true
}
