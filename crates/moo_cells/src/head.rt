//! The head: its table, and that of the number of the next petition.

ghost use Rattle.std.specs.{Prelude.{◌≡◌, ◌≢◌, ℕ, ◌<◌, ◌≤◌, ◌^◌, pos, negsuc, ◌≤ℤ◌, FitsSigned, IfOk, IfErr, IfSome, IfNone}, Int.{w32}};
ghost use Rattle.moo_rows.specs.declared.row.Head.{Head};
ghost use Rattle.moo_tables_rows.specs.{Inside.{AreKeyed}, Version.{version_number}};
ghost use Rattle.moo_cells.specs.Head.{greatest_version, by_rowid, HoldsHead, ReadsHead, ReadsNewer, ReadsKnown, IsNewerThan, HasHead};
ghost use Rattle.moo_cells.specs.{Head.{ReadsCounter, HasCounter, SaysOfHead}, HeadCells.{cells_of, AreWords, IsHead}};
ghost use Rattle.moo_cells.specs.declared.head.HeadCells.{HeadCells};

use crate::cell::int_at;
use crate::counter::{FIRST_PETITION, counter_in, read_counter};
use crate::fault::{CellFault, RowFault};
use moo_damage::{Key, Kind};
use moo_rows::Head;
use moo_tables::Version;
use sqlite::Row;

/// How many columns the table of the head has.
const COLUMNS: usize = 6;

const BAD_HEAD: CellFault = CellFault::Damaged(Kind::BadHead, Key::Head);

/// The numbers in the cells of the head.
#[derive(Clone, Copy)]
struct HeadCells {
    id: i64,
    version: i64,
    seq: i64,
    top: i64,
    next_prop: i64,
    next_verb: i64,
}

/// The six numbers in the cells of a row of `head`. `Unreadable` if there aren't six, or one isn't a whole number.
fn numbers_of(cells: &Row) -> Result<HeadCells, RowFault>
    ensures ok { IfOk result (λ numbers. cells.now ≡ cells_of numbers) }
    // Each is a number of 64 bits with a sign.
    ensures words { IfOk result (λ numbers. AreWords numbers) }
    // The cells aren't six whole numbers.
    ensures err { IfErr result (λ _. (numbers : HeadCells) → ¬ (cells.now ≡ cells_of numbers)) }
{
    if cells.column_count() != COLUMNS {
        return Err(RowFault::Unreadable);
    }
    let id = int_at(cells, 0)?;
    let version = int_at(cells, 1)?;
    let seq = int_at(cells, 2)?;
    let top = int_at(cells, 3)?;
    let next_prop = int_at(cells, 4)?;
    let next_verb = int_at(cells, 5)?;
    Ok(HeadCells {
        id,
        version,
        seq,
        top,
        next_prop,
        next_verb,
    })
}

/// The number of the batches that were accepted, from its cell; None if that is below 0.
fn seq_in(number: i64) -> Option<u64>
    ensures some { IfSome result (λ seq. number ≡ pos seq) }
    ensures limit { IfSome result (λ seq. seq < 2 ^ 63) }
    ensures none { IfNone result ((seq : ℕ) → number ≢ pos seq) }
{
    u64::try_from(number).ok()
}

/// The greatest number of an object, from its cell; None if that isn't -1 to 2,147,483,647.
fn top_in(number: i64) -> Option<i32>
    ensures some { IfSome result (λ top. number ≡ top) }
    ensures within { IfSome result (λ top. (negsuc 0 ≤ℤ top) × (top ≤ℤ pos 2147483647)) }
    // It is a number of 32 bits with a sign.
    ensures fits { IfSome result (λ top. FitsSigned w32 top) }
    // If there isn't one, the cell isn't within these limits.
    ensures none { IfNone result (((negsuc 0 ≤ℤ number) × (number ≤ℤ pos 2147483647)) → ⊥) }
{
    match i32::try_from(number) {
        Ok(top) if -1 <= top => Some(top),
        _ => None,
    }
}

/// The head of these numbers; None if one isn't within its limits. The number of the next petition, which isn't among them, is that of
/// the first.
fn head_within(numbers: HeadCells) -> Option<Head>
    // They come from cells: numbers of 64 bits with a sign.
    requires { AreWords numbers }
    ensures some { IfSome result (λ head. IsHead numbers head) }
    ensures limit { IfSome result (λ head. head.seq < 2 ^ 63) }
    // If there isn't one, no head within its limits has these numbers.
    ensures none { IfNone result ((head : Head) → ¬ (IsHead numbers head)) }
{
    let seq = seq_in(numbers.seq)?;
    let top = top_in(numbers.top)?;
    let next_prop = counter_in(numbers.next_prop)?;
    let next_verb = counter_in(numbers.next_verb)?;
    Some(Head {
        top,
        next_prop,
        next_verb,
        next_petition: FIRST_PETITION,
        seq,
    })
}

/// The head that the cells of a row show in tables of this version. `Damaged(BadHead, Head)` if they show none within its limits, and
/// `NewerVersion` if they are those of a later version than the present one.
fn head_of(version: Version, cells: &Row) -> Result<Head, CellFault>
    // The cells are those of the head, in this version.
    ensures ok { IfOk result (λ head. ReadsHead (version_number version) head cells.now) }
    ensures limit { IfOk result (λ head. head.seq < 2 ^ 63) }
    // Damaged: the cells are those of no head of this version or of a later one. NewerVersion: they are those of a later one.
    ensures err { IfErr result (SaysOfHead (ReadsKnown (version_number version) cells.now) (ReadsNewer greatest_version cells.now)) }
{
    let Ok(numbers) = numbers_of(cells) else {
        return Err(BAD_HEAD);
    };
    if numbers.id != 1 {
        return Err(BAD_HEAD);
    }
    if Version::PRESENT.number() < numbers.version {
        return Err(CellFault::NewerVersion);
    }
    if numbers.version != version.number() {
        return Err(BAD_HEAD);
    }
    match head_within(numbers) {
        Some(head) => Ok(head),
        None => Err(BAD_HEAD),
    }
}

/// The head of tables of this version, from the rows of `head`. It fails as `head_of` does, and if there isn't just one row.
fn head_in(version: Version, rows: &[Row]) -> Result<Head, CellFault>
    // The keys are whole numbers that rise.
    requires { AreKeyed rows.now }
    // The table has this head, in this version.
    ensures ok { IfOk result (HoldsHead version rows.now) }
    ensures limit { IfOk result (λ head. head.seq < 2 ^ 63) }
    // Damaged: the table has no head of this version, nor of a later one. NewerVersion: it has one of a later version.
    ensures err { IfErr result (SaysOfHead
        (HasHead (version_number version) (by_rowid rows.now)) (IsNewerThan greatest_version (by_rowid rows.now))) }
{
    if rows.len() != 1 {
        return Err(BAD_HEAD);
    }
    head_of(version, &rows[0])
}

/// The head of tables of this version, from the rows of its table, with the number of the next petition from the rows of
/// `petition_head`: if the version has no petitions, it is 1.
///
/// Errors: `Damaged(BadHead, Head)` if the table of the head isn't one row of id 1 with the number of the version and with
/// counters within their limits, or in a version with petitions `petition_head` isn't one row of id 1 with a counter within its
/// limits; `NewerVersion` if the table of the head is one row of id 1 with whole numbers, the version above the present one.
pub(crate) fn read_head(version: Version, rows: &[Row], counters: &[Row]) -> Result<Head, CellFault>
    // The keys of `head` are whole numbers that rise.
    requires head { AreKeyed rows.now }
    // The keys of `petition_head` are whole numbers that rise.
    requires counter { AreKeyed counters.now }
    // `head` has these numbers within their limits.
    ensures ok { IfOk result (HoldsHead version rows.now) }
    // `petition_head` has the number of the next petition.
    ensures counter { IfOk result (λ head. ReadsCounter version (by_rowid counters.now) head.next_petition) }
    // The number of the last batch is that of a cell, and so is below 2^63.
    ensures limit { IfOk result (λ head. head.seq < 2 ^ 63) }
    // Damaged: one of the two tables doesn't have the numbers, and the version isn't a later one. NewerVersion: the version is a later one.
    ensures err { IfErr result (SaysOfHead
        (HasHead (version_number version) (by_rowid rows.now) × HasCounter version (by_rowid counters.now))
        (IsNewerThan greatest_version (by_rowid rows.now))) }
{
    let mut head = head_in(version, rows)?;
    match read_counter(version, counters) {
        Some(next_petition) => {
            head.next_petition = next_petition;
            Ok(head)
        }
        None => Err(BAD_HEAD),
    }
}
