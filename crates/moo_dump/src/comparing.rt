//! Comparing a text with the dump of rows.

ghost use Rattle.std.specs.Prelude.{◌≡◌, ◌≢◌, ◌≤◌, ◌<◌, ◌++◌, ℕ, List, length, take, slice_get, IfOk, IfErr, OnOk};
ghost use Rattle.moo_dump.specs.{Difference.{TellsDifference}, Dump.{dump}, Lines.{objects_text, petitions_text}};
ghost use Rattle.moo_dump.specs.{declared.comparing.CompareFault.TheVariants.{OutOfMemory}, Outlined.{IsOutline}};
ghost use Rattle.moo_world.specs.{Judge.{state_of}, Rows.{IsGood}};

use crate::dumping::heading_text;
use crate::lines::petition_line;
use crate::objects::object_lines;
use crate::outline::{Outline, outline_of};
use moo_rows::{Rows, each_object, each_petition};
use std::alloc::{AllocError, Global};

/// Why a text wasn't found to be a dump.
#[derive(Clone, Copy)]
pub enum CompareFault {
    /// The text isn't the dump: after this many bytes that they have in common one of them ends, or the next bytes differ.
    Differs(usize),
    /// Memory ran out.
    OutOfMemory,
}

impl From<AllocError> for CompareFault {
    ghost from_gives = { λ _ e. e ≡ OutOfMemory };

    fn from(_e: AllocError) -> CompareFault {
        CompareFault::OutOfMemory
    }
}

/// How many bytes two texts have in common at the front.
fn common_prefix_len(a: &[u8], b: &[u8]) -> usize
    // Each of the two has so many bytes.
    ensures first { result ≤ length a.now }
    ensures second { result ≤ length b.now }
    // So many bytes in front are the same, and the next byte of `b`, if there is one, isn't that of `a`.
    ensures shared { take result a.now ≡ take result b.now }
    ensures longest { result < length b.now → slice_get b.now result ≢ slice_get a.now result }
{
    let mut count = 0;
    while count < a.len() && count < b.len() {
        if a[count] != b[count] {
            return count;
        }
        count += 1;
    }
    count
}

/// The place at which a text goes on after a piece of the dump, which begins at `at`. Differs if the text doesn't have the piece there.
fn after_piece(text: &[u8], at: usize, piece: &[u8]) -> Result<usize, CompareFault>
    // The text has the place `at`, and the place at which it goes on.
    requires { at ≤ length text.now }
    ensures within { IfOk result (λ next. next ≤ length text.now) }
    // Up to there the text is what it was up to `at`, and then the piece.
    ensures ok { IfOk result (λ next. take next text.now ≡ take at text.now ++ piece.now) }
    // A fault names the first difference, with any bytes of the dump after the piece; unless memory ran out.
    ensures err { IfErr result (λ fault. (rest : List ℕ) → TellsDifference (take at text.now ++ (piece.now ++ rest)) text.now fault) }
{
    let count = common_prefix_len(&text[at..], piece);
    if count < piece.len() {
        return Err(CompareFault::Differs(at + count));
    }
    Ok(at + count)
}

/// The place at which a text goes on after the lines of the objects, which begin at `start`. Differs if the text doesn't have the lines
/// there; OutOfMemory if memory runs out.
fn after_objects<R: Rows>(
    alloc: Global,
    rows: &R,
    outline: &Outline,
    text: &[u8],
    start: usize,
) -> Result<usize, CompareFault>
    // The rows are good: sound rows of a well formed world, and petitions as they may be beside it.
    requires good { IsGood (R.held rows.now).maps }
    // The outline is that of the rows.
    requires outline { IsOutline (R.held rows.now).maps outline.now }
    // The text has the place `start`, and the place at which it goes on.
    requires start { start ≤ length text.now }
    ensures within { IfOk result (λ next. next ≤ length text.now) }
    // Up to there the text is what it was up to `start`, and then the lines of the objects.
    ensures ok { IfOk result (λ next. take next text.now ≡ take start text.now ++ objects_text (R.held rows.now).maps) }
    // A fault names the first difference, with any bytes of the dump after the lines; unless memory ran out.
    ensures err { IfErr result (λ fault. (rest : List ℕ)
        → TellsDifference (take start text.now ++ (objects_text (R.held rows.now).maps ++ rest)) text.now fault) }
{
    let mut at = start;
    for (x, _) in each_object(rows) {
        let piece = object_lines(alloc, rows, outline, x)?;
        at = after_piece(text, at, &piece)?;
    }
    Ok(at)
}

/// The place at which a text goes on after the lines of the petitions, which begin at `start`. Differs if the text doesn't have the lines
/// there; OutOfMemory if memory runs out.
fn after_petitions<R: Rows>(
    alloc: Global,
    rows: &R,
    text: &[u8],
    start: usize,
) -> Result<usize, CompareFault>
    // The text has the place `start`, and the place at which it goes on.
    requires { start ≤ length text.now }
    ensures within { IfOk result (λ next. next ≤ length text.now) }
    // Up to there the text is what it was up to `start`, and then the lines of the petitions.
    ensures ok { IfOk result (λ next. take next text.now ≡ take start text.now ++ petitions_text (R.held rows.now).maps) }
    // A fault names the first difference, with any bytes of the dump after the lines; unless memory ran out.
    ensures err { IfErr result (λ fault. (rest : List ℕ)
        → TellsDifference (take start text.now ++ (petitions_text (R.held rows.now).maps ++ rest)) text.now fault) }
{
    let mut at = start;
    for (id, row) in each_petition(rows) {
        let piece = petition_line(alloc, id, row)?;
        at = after_piece(text, at, &piece)?;
    }
    Ok(at)
}

/// Compares a text with the dump of the rows, of which the lines of one object at a time are in memory.
///
/// Differs with the place of the first difference, if there is one; OutOfMemory if memory runs out. It takes the look-ups of a dump.
pub fn compare<R: Rows>(alloc: Global, rows: &R, text: &[u8]) -> Result<(), CompareFault>
    // The rows are good: sound rows of a well formed world, and petitions as they may be beside it.
    requires { IsGood (R.held rows.now).maps }
    // Without a fault the text is the dump, byte for byte.
    ensures ok { OnOk result (dump (state_of (R.held rows.now).maps) ≡ text.now) }
    // A fault names the first difference, unless memory ran out.
    ensures err { IfErr result (TellsDifference (dump (state_of (R.held rows.now).maps)) text.now) }
{
    let outline = outline_of(alloc, rows)?;
    let heading = heading_text(alloc, rows)?;
    let at = after_piece(text, 0, &heading)?;
    let at = after_objects(alloc, rows, &outline, text, at)?;
    let at = after_petitions(alloc, rows, text, at)?;
    let at = after_piece(text, at, b"end\n")?;
    if at < text.len() {
        return Err(CompareFault::Differs(at));
    }
    Ok(())
}
