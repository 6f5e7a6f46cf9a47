//! Who may do what.

ghost use Rattle.std.specs.Prelude.{◌≡◌, ◌||◌};
ghost use Rattle.moo_world.specs.{Objects.{nothing, same_object}, World.{is_object, row_passes}, Rows.{slot_seen}};
ghost use Rattle.moo_world.specs.Rights.{is_wizard, controls, may_be_parent, may_make_owner, may_set_name, may_read_object};
ghost use Rattle.moo_world.specs.Rights.{may_write_object, may_read_slot, may_write_slot, may_read_verb, may_write_verb};
ghost use Rattle.moo_value.specs.declared.value.ObjNo.{ObjNo};
ghost use Rattle.moo_calls_shared.specs.Outcomes.{world_in};

use moo_rows::{Rows, SlotRow, VerbRow};
use moo_tree::{is_nothing, valid};
use moo_value::ObjNo;

/// Whether the number is that of an object, or `#-1`.
pub fn valid_or_nothing<R: Rows>(rows: &R, x: ObjNo) -> bool
    ensures { result ≡ (is_object (world_in (R.held rows.now)) x || same_object nothing x) }
{
    valid(rows, x) || is_nothing(x)
}

/// Whether the number is that of an object with the wizard bit.
pub fn is_wizard<R: Rows>(rows: &R, x: ObjNo) -> bool
    ensures { result ≡ is_wizard (world_in (R.held rows.now)) x }
{
    match rows.object(x) {
        Some(row) => row.wizard,
        None => false,
    }
}

/// Whether the programmer owns the object or is a wizard.
pub fn controls<R: Rows>(rows: &R, programmer: ObjNo, x: ObjNo) -> bool
    ensures { result ≡ controls (world_in (R.held rows.now)) programmer x }
{
    match rows.object(x) {
        Some(row) => programmer == row.owner || is_wizard(rows, programmer),
        None => is_wizard(rows, programmer),
    }
}

/// Whether the programmer may put an object under this parent: `#-1`, or an object that is fertile or that the programmer controls.
pub fn may_be_parent<R: Rows>(rows: &R, programmer: ObjNo, parent: ObjNo) -> bool
    ensures { result ≡ may_be_parent (world_in (R.held rows.now)) programmer parent }
{
    if is_nothing(parent) {
        return true;
    }
    match rows.object(parent) {
        Some(row) => row.f || programmer == row.owner || is_wizard(rows, programmer),
        None => false,
    }
}

/// Whether the programmer may give what it makes, or a verb that it changes, to an owner: itself, or anybody if it is a wizard.
pub fn may_make_owner<R: Rows>(rows: &R, programmer: ObjNo, owner: ObjNo) -> bool
    ensures { result ≡ may_make_owner (world_in (R.held rows.now)) programmer owner }
{
    owner == programmer || is_wizard(rows, programmer)
}

/// Whether the programmer may name the object: a player only if the programmer is a wizard, any other object if it controls the object.
pub fn may_set_name<R: Rows>(rows: &R, programmer: ObjNo, x: ObjNo) -> bool
    ensures { result ≡ may_set_name (world_in (R.held rows.now)) programmer x }
{
    match rows.object(x) {
        Some(row) if row.player => is_wizard(rows, programmer),
        _ => controls(rows, programmer, x),
    }
}

/// Whether the programmer may list what the object defines: its owner, a wizard, or anybody if its r bit is set.
pub fn may_read_object<R: Rows>(rows: &R, programmer: ObjNo, x: ObjNo) -> bool
    ensures { result ≡ may_read_object (world_in (R.held rows.now)) programmer x }
{
    controls(rows, programmer, x) || is_readable(rows, x)
}

/// Whether the programmer may add properties and verbs to the object, and delete them: its owner, a wizard, or anybody if its w bit is set.
pub fn may_write_object<R: Rows>(rows: &R, programmer: ObjNo, x: ObjNo) -> bool
    ensures { result ≡ may_write_object (world_in (R.held rows.now)) programmer x }
{
    controls(rows, programmer, x) || is_writable(rows, x)
}

/// Whether the number is that of an object with the r bit.
fn is_readable<R: Rows>(rows: &R, x: ObjNo) -> bool
    ensures { result ≡ row_passes (λ r. r.r) (world_in (R.held rows.now)) x }
{
    match rows.object(x) {
        Some(row) => row.r,
        None => false,
    }
}

/// Whether the number is that of an object with the w bit.
fn is_writable<R: Rows>(rows: &R, x: ObjNo) -> bool
    ensures { result ≡ row_passes (λ r. r.w) (world_in (R.held rows.now)) x }
{
    match rows.object(x) {
        Some(row) => row.w,
        None => false,
    }
}

/// Whether the programmer may read a property: the owner of its slot on the very object, a wizard, or anybody if the slot's
/// r bit is set. The definer doesn't count.
pub fn may_read_slot<R: Rows>(rows: &R, programmer: ObjNo, slot: &SlotRow) -> bool
    // The answer is the same whoever defines the property.
    ensures { (definer : ObjNo) → result ≡ may_read_slot (world_in (R.held rows.now)) programmer (slot_seen definer slot.now) }
{
    is_wizard(rows, programmer) || programmer == slot.owner || slot.bits.r
}

/// Whether the programmer may write a property: the owner of its slot on the very object, a wizard, or anybody if the slot's
/// w bit is set. The definer doesn't count.
pub fn may_write_slot<R: Rows>(rows: &R, programmer: ObjNo, slot: &SlotRow) -> bool
    // The answer is the same whoever defines the property.
    ensures { (definer : ObjNo) → result ≡ may_write_slot (world_in (R.held rows.now)) programmer (slot_seen definer slot.now) }
{
    is_wizard(rows, programmer) || programmer == slot.owner || slot.bits.w
}

/// Whether the programmer may read a verb: its owner, a wizard, or anybody if its r bit is set.
pub fn may_read_verb<R: Rows>(rows: &R, programmer: ObjNo, verb: &VerbRow) -> bool
    ensures { result ≡ may_read_verb (world_in (R.held rows.now)) programmer verb.now }
{
    is_wizard(rows, programmer) || programmer == verb.owner || verb.bits.r
}

/// Whether the programmer may change a verb: its owner, a wizard, or anybody if its w bit is set.
pub fn may_write_verb<R: Rows>(rows: &R, programmer: ObjNo, verb: &VerbRow) -> bool
    ensures { result ≡ may_write_verb (world_in (R.held rows.now)) programmer verb.now }
{
    is_wizard(rows, programmer) || programmer == verb.owner || verb.bits.w
}
