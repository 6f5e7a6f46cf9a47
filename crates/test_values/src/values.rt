//! What no clause says: that the definitions mean what the format of literals means. Which fault a text has shows in no reply, so that
//! it is looked at here; what values mean to calls is in the scenes of `tests/`.
use moo_value::LiteralFault::{self, BadByte, NotALiteral, OutOfRange, TooDeep, TooLong};
use moo_value::{print_literal, read_literal};
use std::alloc::{AllocError, Global};
use std::process::Abort;
use std::test::*;

/// The fault of a text that begins with no literal, or None if it begins with one.
fn fault_of(alloc: Global, text: &str) -> Option<LiteralFault> {
    read_literal(alloc, text.as_bytes()).err()
}

/// Whether a text begins with a value that takes so many bytes, and is printed so.
fn is_read(alloc: Global, text: &str, count: usize, print: &str) -> Result<bool, Fail> {
    let (value, used) = read_literal(alloc, text.as_bytes())?;
    let mut out = Vec::new(alloc);
    print_literal(alloc, &value, &mut out)?;
    Ok(used == count && out.as_slice() == print.as_bytes())
}

/// A text, the bytes that its value takes, and what that is printed as.
static LITERALS: [(&str, usize, &str); 18] = [
    ("{1,{ },\"a\\\"b\\\\\"}", 16, "{1, {}, \"a\\\"b\\\\\"}"),
    ("e_perm", 6, "E_PERM"),
    ("007", 3, "7"),
    ("-0", 2, "0"),
    ("-00000000000000000000007", 24, "-7"),
    ("#-007", 5, "#-7"),
    ("\t 5 ", 3, "5"),
    ("9223372036854775807", 19, "9223372036854775807"),
    ("-9223372036854775808", 20, "-9223372036854775808"),
    ("2147483648", 10, "2147483648"),
    ("-2147483648", 11, "-2147483648"),
    ("#-2147483648", 12, "#-2147483648"),
    ("#2147483647", 11, "#2147483647"),
    ("1,2", 1, "1"),
    ("12#3", 2, "12"),
    ("E_PERM\"", 6, "E_PERM"),
    ("\"\"\"", 2, "\"\""),
    ("{}}", 2, "{}"),
];

#[test]
fn literals_are_read_and_printed(rt: HostRuntime) -> Result<(), Fail> {
    for (text, count, print) in &LITERALS {
        assert!(rt; is_read(rt.alloc(), text, *count, print)?, "{text}");
    }
    Ok(())
}

/// Texts that begin with no literal, with a bar between two of them.
const NO_LITERALS: &str = "| \t|}|{1|{1,}|{,1}|{1 2}|{1,,2}|-|--1|+1|- 1|#|# 1|\n1|E_PERMX|E_PERM1|\
    E_ PERM|E_NONEXISTENT|\"open|\"open\\\"";

/// Texts with a number that doesn't fit.
const OUT_OF_RANGE: &str = "9223372036854775808|-9223372036854775809|#2147483648|#-2147483649|\
    #9223372036854775808|00000000000099999999999999999999|{9223372036854775808, \"\n\"}|\
    {#2147483648, \"\n\"}";

/// Texts with a byte that no string may have.
const BAD_BYTES: &str = "\"a\nb\"|\"a\0b\"|\"a\x7fb\"|\"a\\\x7fb\"|{\"\n\", 9223372036854775808}";

/// A list that is 33 deep.
const TOO_DEEP: &str = "{{{{{{{{{{{{{{{{{{{{{{{{{{{{{{{{{}}}}}}}}}}}}}}}}}}}}}}}}}}}}}}}}}";

/// Each fault, and texts that have it.
static FAULTS: [(LiteralFault, &str); 4] = [
    (NotALiteral, NO_LITERALS),
    (OutOfRange, OUT_OF_RANGE),
    (BadByte, BAD_BYTES),
    (TooDeep, TOO_DEEP),
];

#[test]
fn the_first_fault_is_named(rt: HostRuntime) {
    for (fault, texts) in &FAULTS {
        for text in texts.split('|') {
            assert!(rt; fault_of(rt.alloc(), text) == Some(*fault), "{text:?}");
        }
    }
}

/// The literal of a string that has a piece so many times.
fn string_of(alloc: Global, piece: &str, count: usize) -> Result<String, AllocError> {
    let middle = piece.repeat(alloc, count)?;
    format!(in alloc; "\"{middle}\"")
}

/// Tests that a string of 65,535 times this piece is read, and one more is too long.
fn look_at_lengths(rt: &impl Abort, alloc: Global, piece: &str) -> Result<(), AllocError> {
    let longest = string_of(alloc, piece, 65535)?;
    assert!(rt; fault_of(alloc, &longest).is_none(), "{piece}");
    let longer = string_of(alloc, piece, 65536)?;
    assert!(rt; fault_of(alloc, &longer) == Some(TooLong), "{piece}");
    Ok(())
}

#[test]
fn strings_have_at_most_65535_bytes(rt: HostRuntime) -> Result<(), AllocError> {
    for piece in ["a", "\\a", "\\\\"] {
        look_at_lengths(&rt, rt.alloc(), piece)?;
    }
    Ok(())
}
