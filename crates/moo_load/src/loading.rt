//! Loading a world from its dump.

ghost use Rattle.std.specs.Prelude.{◌≡◌, ◌≢◌, ◌<◌, ◌^◌, length, IfOk, IfErr, OnOk};
ghost use Rattle.moo_world.specs.{Rows.{IsGood}, Judge.{State, state_of}};
ghost use Rattle.moo_damage.specs.Limits.{AreWithin};
ghost use Rattle.moo_dump.specs.Dump.{dump};
ghost use Rattle.moo_load.specs.{Loaded.{SaysOfText}, OneState.{IsHeld}, RowsOf.{HasNumbers, AreRowsOf}};

use crate::differing::difference_at;
use crate::fault::LoadFault;
use crate::place::line_at;
use crate::reading::read_lines;
use crate::reason::DumpReason;
use moo_damage::damage_of;
use moo_dump::{CompareFault, compare};
use moo_memory::Flat;
use moo_rows::Rows;
use std::alloc::Global;

/// Tests whether the dump of the rows is the text. NotADump with the first line that differs, and how; OutOfMemory if memory runs out.
fn check_dump<R: Rows>(alloc: Global, rows: &R, text: &[u8]) -> Result<(), LoadFault>
    // The rows are good: sound rows of a well formed world, and petitions as they may be beside it.
    requires { IsGood (R.held rows.now).maps }
    ensures same { OnOk result (dump (state_of (R.held rows.now).maps) ≡ text.now) }
    // The text has a line of the number that a fault names.
    ensures fault { IfErr result (SaysOfText text.now) }
    // There is a fault, but for out of memory, only if the text isn't the dump.
    ensures err { IfErr result (λ fault. fault ≢ LoadFault.OutOfMemory → dump (state_of (R.held rows.now).maps) ≢ text.now) }
{
    match compare(alloc, rows, text) {
        Ok(()) => Ok(()),
        Err(CompareFault::Differs(place)) => {
            let why = difference_at(alloc, rows, text, place).unwrap_or(DumpReason::Differs);
            Err(LoadFault::NotADump(line_at(text, place), why))
        }
        Err(CompareFault::OutOfMemory) => Err(LoadFault::OutOfMemory),
    }
}

/// Tests whether the rows show a world, and whether its dump is the text. Damaged with the first kind of damage, NotADump with the first
/// line that differs, OutOfMemory if memory runs out.
fn judge_rows<R: Rows>(alloc: Global, rows: &R, text: &[u8]) -> Result<(), LoadFault>
    // The counters of the head and each row are within the limits of their columns.
    requires { AreWithin (R.held rows.now).maps }
    ensures good { OnOk result (IsGood (R.held rows.now).maps) }
    ensures same { OnOk result (dump (state_of (R.held rows.now).maps) ≡ text.now) }
    // The text has a line of the number that a fault names; or rows within their limits have the damage, and none before it.
    ensures fault { IfErr result (SaysOfText text.now) }
    // The rows of a state with numbers left are refused, if the text is its dump, only if memory runs out.
    ensures complete { IfErr result (λ fault. fault ≢ LoadFault.OutOfMemory → (s : State) → IsHeld s → HasNumbers s → dump s ≡ text.now
        → ¬ (AreRowsOf s (R.held rows.now).maps)) }
{
    match damage_of(alloc, rows)? {
        Some((kind, key)) => Err(LoadFault::Damaged(kind, key)),
        None => check_dump(alloc, rows, text),
    }
}

/// The rows of the world whose dump the text is, byte for byte.
///
/// Objects and petitions keep the numbers that the text gives them. Properties and verbs are numbered from 1, in the order of
/// the text, and the number of the next petition is one above the greatest.
///
/// The dump of a well formed state, if it has fewer than 4,294,967,295 bytes, is refused only if memory runs out.
///
/// Errors: `NotADump` with the number of the first line that can't be read, or if each can, that differs from the dump of what was read,
/// and with what is wrong with it; `Damaged` if each line can be read and the rows show no world; `OutOfMemory` if memory runs out.
///
/// Its time grows in step with the text, but for the look-ups in ordered maps. The rows are held in memory once, beside the text.
pub fn read_dump(alloc: Global, text: &[u8]) -> Result<Flat, LoadFault>
    // The dump of the rows is the text, byte for byte.
    ensures loaded { IfOk result (λ rows. dump (state_of rows.maps) ≡ text.now) }
    // The rows are good ones: sound rows of a well formed world, with petitions as they may be beside it.
    ensures good { IfOk result (λ rows. IsGood rows.maps) }
    // Fewer than 2^63 batches were accepted.
    ensures limit { IfOk result (λ rows. rows.maps.head.seq < 2 ^ 63) }
    // Properties and verbs are numbered from 1, in the order of the dump. The next number of each kind is one above the last.
    ensures numbered { IfOk result (λ rows. AreRowsOf (state_of rows.maps) rows.maps) }
    // The text has a line of the number that a fault names; or rows within their limits have the damage, and none before it.
    ensures fault { IfErr result (SaysOfText text.now) }
    // A well formed state's dump, after fewer than 2^63 batches, is refused only out of memory, or if it has 4,294,967,295 bytes or more.
    ensures complete { IfErr result (λ fault. fault ≢ LoadFault.OutOfMemory → length text.now < 4294967295 → (s : State) → IsHeld s →
        dump s ≢ text.now) }
{
    let rows = read_lines(alloc, text)?;
    judge_rows(alloc, &rows, text)?;
    Ok(rows)
}
