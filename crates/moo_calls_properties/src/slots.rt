//! Rights on the slots that are found by a property's name.

ghost use Rattle.std.specs.{Prelude.{◌≡◌, true, is_some, Some, IfOk, IfErr}, FinMap.{get}};
ghost use Rattle.moo_world.specs.{Objects.{folded}, Outcomes.{Outcome, fails}, Rights.{may_read_slot, may_write_slot}};
ghost use Rattle.moo_world.specs.{Rows.{slot_seen, IsGood}, World.{World, Slot, slot_of}};
ghost use Rattle.moo_props.specs.Names.{name_of};
ghost use Rattle.moo_calls_shared.specs.Outcomes.{world_in};
ghost use Rattle.moo_calls_properties.specs.Checks.{reading_slot, writing_slot};

use moo_calls_shared::{Reason, rights};
use moo_props::{FoundSlot, slot_of};
use moo_rows::Rows;
use moo_value::{MooStr, ObjNo};

/// Whether the programmer may read the property by this slot of it.
fn may_read_slot<R: Rows>(rows: &R, programmer: ObjNo, found: FoundSlot<'_>) -> bool
    ensures { result ≡ may_read_slot (world_in (R.held rows.now)) programmer (slot_seen found.entry.definer found.entry.slot.now) }
{
    rights::may_read_slot(rows, programmer, found.slot)
}

/// Whether the programmer may write the property by this slot of it.
pub(crate) fn may_write_slot<R: Rows>(rows: &R, programmer: ObjNo, found: FoundSlot<'_>) -> bool
    ensures { result ≡ may_write_slot (world_in (R.held rows.now)) programmer (slot_seen found.entry.definer found.entry.slot.now) }
{
    rights::may_write_slot(rows, programmer, found.slot)
}

/// The slot on x by which a call reads the property of a name, or the error: E_PROPNF if x has no property of the name,
/// then E_PERM if the programmer may not read x's own slot of it.
pub(crate) fn readable_slot<'a, R: Rows>(
    rows: &'a R,
    programmer: ObjNo,
    x: ObjNo,
    name: &MooStr,
) -> Result<FoundSlot<'a>, Reason>
    // The rows are good: sound rows of a well formed world, and petitions as they may be beside it.
    requires { IsGood (R.held rows.now).maps }
    // Each call that reads the property goes on with the slot that was found.
    ensures ok { IfOk result (λ found. (then : Slot → Outcome World) →
        reading_slot (world_in (R.held rows.now)) programmer x name.now then ≡ then (slot_seen found.definer found.slot.now)) }
    // At an error, each call that reads the property fails for the reason.
    ensures err { IfErr result (λ reason. (then : Slot → Outcome World) →
        reading_slot (world_in (R.held rows.now)) programmer x name.now then ≡ fails reason) }
    // x has the property that was found.
    ensures held { IfOk result (λ found. is_some (get (R.held rows.now).maps.slots (x, found.id)) ≡ true) }
    // That property has the name, but for the case of letters.
    ensures named { IfOk result (λ found. name_of (R.held rows.now).maps found.id ≡ folded name.now) }
{
    let Some(found) = slot_of(rows, x, name) else {
        return Err(Reason::NoProperty(x));
    };
    if !may_read_slot(rows, programmer, found) {
        return Err(Reason::NoPropertyR(x));
    }
    Ok(found)
}

/// The slot on x by which a call writes the property of a name, or the error: E_PROPNF if x has no property of the name,
/// then E_PERM if the programmer may not write x's own slot of it.
pub(crate) fn writable_slot<'a, R: Rows>(
    rows: &'a R,
    programmer: ObjNo,
    x: ObjNo,
    name: &MooStr,
) -> Result<FoundSlot<'a>, Reason>
    // The rows are good: sound rows of a well formed world, and petitions as they may be beside it.
    requires { IsGood (R.held rows.now).maps }
    // What was found is the slot on x of the property of the name.
    ensures slot { IfOk result (λ found.
        slot_of (world_in (R.held rows.now)) x (folded name.now) ≡ Some (slot_seen found.definer found.slot.now)) }
    // The programmer may write it.
    ensures may { IfOk result (λ found.
        may_write_slot (world_in (R.held rows.now)) programmer (slot_seen found.definer found.slot.now) ≡ true) }
    // At an error, each call that writes the property fails for the reason.
    ensures err { IfErr result (λ reason. (then : Slot → Outcome World) →
        writing_slot (world_in (R.held rows.now)) programmer x name.now then ≡ fails reason) }
    // x has the property that was found.
    ensures held { IfOk result (λ found. is_some (get (R.held rows.now).maps.slots (x, found.id)) ≡ true) }
    // That property has the name, but for the case of letters.
    ensures named { IfOk result (λ found. name_of (R.held rows.now).maps found.id ≡ folded name.now) }
{
    let Some(found) = slot_of(rows, x, name) else {
        return Err(Reason::NoProperty(x));
    };
    if !may_write_slot(rows, programmer, found) {
        return Err(Reason::NoPropertyW(x));
    }
    Ok(found)
}
