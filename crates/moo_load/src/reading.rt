//! Reading the rows of a dump. Its lines are gone over twice: the slots name their properties by definers that may come later, and are
//! put once all properties are.

ghost use Rattle.std.specs.{Prelude.{◌≡◌, ◌≢◌, ◌≤◌, ◌∷◌, ◌++◌, [], List, length, drop, IfOk, IfErr, OnOk}, List.{AllByRecursion}};
ghost use Rattle.moo_rows.specs.declared.row.PropId.{PropId};
ghost use Rattle.moo_load.specs.Entries.{Entry, entry_text, entry_lines, EntryFits, NumberIsLeft, NumbersAreLeft, entry_taken};
ghost use Rattle.moo_load.specs.{Entries.{entries_taken, carried, EachHas}, Loaded.{SaysOfText}, OneState.{IsHeld}, Rows.{AreRead}};
ghost use Rattle.moo_load.specs.{RowsOf.{AreRowsOf, HasNumbers}, Slots.{no_slot, SlotIsNext, slot_line_put}};
ghost use Rattle.moo_dump.specs.Dump.{dump};
ghost use Rattle.moo_world.specs.{Judge.{State}, Objects.{Property}};

use crate::fault::{LineFault, LineResult, LoadFault};
use crate::heading::read_heading;
use crate::line::{Word, is_end, next_line, split_keyword, values_of};
use crate::taking::{LastSlot, take_object, take_petition, take_property, take_slot, take_verb};
use moo_memory::Flat;
use moo_rows::{PropId, Rows};
use moo_value::ObjNo;
use std::alloc::Global;

/// Puts the row of a line into the rows, unless it is a slot. The error is why the line can't be read, or NoNumber; or OutOfMemory.
fn take_line(alloc: Global, line: &[u8], rows: &mut Flat) -> LineResult<()>
    // The rows are within their limits, and fewer than 2^63 batches were accepted.
    requires { AreRead rows.old.maps }
    // The rows are within their limits, and fewer than 2^63 batches were accepted.
    ensures read { OnOk result (AreRead rows.new.maps) }
    // If the line is an entry's, whose row is within its limits, the row is put, unless it is a slot.
    ensures put { OnOk result ((e : Entry) → EntryFits e → line.now ++ 10 ∷ [] ≡ entry_text e →
        rows.new.maps ≡ entry_taken e rows.old.maps) }
    // There is a fault, but for out of memory, only if no entry has the line, or no number is left for it.
    ensures err { IfErr result (λ fault. fault ≢ LineFault.OutOfMemory → (e : Entry) → EntryFits e → NumberIsLeft e rows.old.maps →
        line.now ++ 10 ∷ [] ≢ entry_text e) }
{
    let (word, literal) = split_keyword(line)?;
    if word == Word::Slot {
        return Ok(());
    }
    let values = values_of(alloc, literal)?;
    match word {
        Word::Object => take_object(alloc, &values, rows),
        Word::Property => take_property(alloc, &values, rows),
        Word::Verb => take_verb(alloc, &values, rows),
        Word::Petition => take_petition(alloc, &values, rows),
        Word::Slot => Ok(()),
    }
}

/// Puts the slot of a line into the rows, if the line is a slot's, and answers the slot that was put last. The error is why the line can't
/// be read, or that another slot belongs here; or OutOfMemory.
fn take_slot_line(
    alloc: Global,
    line: &[u8],
    last: LastSlot,
    rows: &mut Flat,
) -> LineResult<LastSlot>
    // The rows are within their limits, and fewer than 2^63 batches were accepted.
    requires { AreRead rows.old.maps }
    // The rows are within their limits, and fewer than 2^63 batches were accepted.
    ensures read { OnOk result (AreRead rows.new.maps) }
    // If the line is an entry's, its slot is put, if it has one and the slot's property is the next one of its definer.
    ensures put { IfOk result (λ put. (number : Property → PropId) (e : Entry) → EntryFits e →
        SlotIsNext number e (last, rows.old.maps) → line.now ++ 10 ∷ [] ≡ entry_text e
        → (put, rows.new.maps) ≡ slot_line_put number e (last, rows.old.maps)) }
    // There is a fault, but for out of memory, only if no entry has the line, or its slot isn't the next one.
    ensures err { IfErr result (λ fault. fault ≢ LineFault.OutOfMemory → (number : Property → PropId) (e : Entry) → EntryFits e →
        SlotIsNext number e (last, rows.old.maps)
        → line.now ++ 10 ∷ [] ≢ entry_text e) }
{
    let (word, literal) = split_keyword(line)?;
    if word == Word::Slot {
        let values = values_of(alloc, literal)?;
        take_slot(alloc, &values, last, rows)
    } else {
        Ok(last)
    }
}

/// Puts the rows of the lines from a place to the last line into the rows, but for the slots. NotADump with the first line that can't be
/// read; OutOfMemory if memory runs out.
fn take_lines(alloc: Global, text: &[u8], start: usize, rows: &mut Flat) -> Result<(), LoadFault>
    // The text has the place.
    requires start { start ≤ length text.now }
    // The rows are within their limits, and fewer than 2^63 batches were accepted.
    requires read { AreRead rows.old.maps }
    // The rows are within their limits, and fewer than 2^63 batches were accepted.
    ensures read { OnOk result (AreRead rows.new.maps) }
    // If the lines are those of entries, and `end`, the rows of the entries are put, but for the slots.
    ensures put { OnOk result ((es : List Entry) → AllByRecursion EntryFits es → drop start text.now ≡ entry_lines es
        → rows.new.maps ≡ entries_taken es rows.old.maps) }
    // There is a fault, but for out of memory, only if no entries have the lines, or numbers aren't left for them.
    ensures err { IfErr result (λ fault. fault ≢ LoadFault.OutOfMemory → (es : List Entry) → AllByRecursion EntryFits es →
        NumbersAreLeft es rows.old.maps
        → drop start text.now ≢ entry_lines es) }
    // The text has a line of the number that a fault names.
    ensures fault { IfErr result (SaysOfText text.now) }
{
    let mut at = start;
    loop {
        let line = next_line(text, at)?;
        if is_end(line) {
            return Ok(());
        }
        match take_line(alloc, line, rows) {
            Ok(()) => at += line.len() + 1,
            Err(fault) => return Err(fault.within(text, at)),
        }
    }
}

/// Puts the slots of the lines from a place to the last line into the rows. NotADump with the first line that can't be read, or whose slot
/// isn't the next one; OutOfMemory if memory runs out.
fn take_slots(alloc: Global, text: &[u8], start: usize, rows: &mut Flat) -> Result<(), LoadFault>
    // The text has the place.
    requires start { start ≤ length text.now }
    // The rows are within their limits, and fewer than 2^63 batches were accepted.
    requires read { AreRead rows.old.maps }
    // The rows are within their limits, and fewer than 2^63 batches were accepted.
    ensures read { OnOk result (AreRead rows.new.maps) }
    // If the lines are those of entries, and `end`, the slots of the entries are put, if each has the next property of its definer.
    ensures put { OnOk result ((number : Property → PropId) (es : List Entry) → AllByRecursion EntryFits es
        → EachHas (SlotIsNext number) (slot_line_put number) es (no_slot, rows.old.maps) → drop start text.now ≡ entry_lines es
        → rows.new.maps ≡ (carried (slot_line_put number) es (no_slot, rows.old.maps)).1) }
    // There is a fault, but for out of memory, only if no entries have the lines, or a slot isn't the next one.
    ensures err { IfErr result (λ fault. fault ≢ LoadFault.OutOfMemory → (number : Property → PropId) (es : List Entry) →
        AllByRecursion EntryFits es
        → EachHas (SlotIsNext number) (slot_line_put number) es (no_slot, rows.old.maps) → drop start text.now ≢ entry_lines es) }
    // The text has a line of the number that a fault names.
    ensures fault { IfErr result (SaysOfText text.now) }
{
    let mut at = start;
    let mut last = LastSlot {
        object: ObjNo(-1),
        definer: ObjNo(-1),
        id: PropId(0),
    };
    loop {
        let line = next_line(text, at)?;
        if is_end(line) {
            return Ok(());
        }
        match take_slot_line(alloc, line, last, rows) {
            Ok(slot) => last = slot,
            Err(fault) => return Err(fault.within(text, at)),
        }
        at += line.len() + 1;
    }
}

/// The rows that the lines of a dump say, within the limits of their columns. NotADump with the first line that can't be read; OutOfMemory
/// if memory runs out. Whether the rows show a world, and whether its dump is the text, isn't asked.
pub(crate) fn read_lines(alloc: Global, text: &[u8]) -> Result<Flat, LoadFault>
    // The rows are within their limits, and fewer than 2^63 batches were accepted.
    ensures read { IfOk result (λ rows. AreRead rows.maps) }
    // If the text is the dump of a state, the rows are those of the state.
    ensures put { IfOk result (λ rows. (s : State) → IsHeld s → dump s ≡ text.now → AreRowsOf s rows.maps) }
    // There is a fault, but for out of memory, only if the text isn't the dump of a state with numbers left.
    ensures err { IfErr result (λ fault. fault ≢ LoadFault.OutOfMemory → (s : State) → IsHeld s → HasNumbers s → dump s ≢ text.now) }
    // The text has a line of the number that a fault names.
    ensures fault { IfErr result (SaysOfText text.now) }
{
    let (head, start) = read_heading(alloc, text)?;
    let mut rows = Flat::new(alloc);
    rows.set_head(head);
    take_lines(alloc, text, start, &mut rows)?;
    take_slots(alloc, text, start, &mut rows)?;
    Ok(rows)
}
