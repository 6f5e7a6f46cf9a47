//! Calls of this crate that look first whether they may be made.

ghost use Rattle.std.specs.{Prelude.{◌≡◌, true, is_some, IfOk, OnOk}, FinMap.{get}};
ghost use Rattle.moo_world.specs.{Creation.{next_object}, Rows.{world_of, IsGood}, World.{is_property_name}};

use moo_props::{
    Dropped, Touched, clashes, define, drop_object, find, make_object, reparent, set_info,
    set_value, sharing_definer, slot_of, value_of,
};
use moo_rows::{Bits, PropId, Rows, SlotState};
use moo_tree::{is_under, valid};
use moo_value::{LiteralFault, MooStr, ObjNo, Value};
use std::alloc::Global;
use std::process::Abort;

/// The wizard of the opening world, who owns what is made here.
pub(super) const WIZARD: ObjNo = ObjNo(3);

/// Readable, and no more.
pub(super) const READ: Bits = Bits {
    r: true,
    w: false,
    c: false,
};

/// The number that the next object gets: one above the greatest that was given. None if no number is left.
#[tactic(auto, unfolding(moo_world::specs::Rows::world_shown))]
fn next_number<R: Rows>(rows: &R) -> Option<ObjNo>
    ensures { result ≡ next_object (world_of (R.held rows.now).maps) }
{
    let top = rows.head().top;
    if top < i32::MAX {
        Some(ObjNo(top + 1))
    } else {
        None
    }
}

/// Makes the next object under a parent, owned by the wizard, and answers its number.
pub(super) fn make_next<R: Rows>(
    rt: &impl Abort,
    alloc: Global,
    rows: &mut R,
    parent: i32,
) -> Result<ObjNo, LiteralFault>
    requires { IsGood (R.held rows.old).maps }
    ensures { OnOk result (IsGood (R.held rows.new).maps) }
{
    assert!(rt; valid(rows, ObjNo(parent)));
    let Some(x) = next_number(rows) else {
        panic!(rt; "no number is left");
    };
    make_object(alloc, rows, x, ObjNo(parent), WIZARD)?;
    Ok(x)
}

/// Defines a property with an integer on x, owned by the wizard, and answers its number.
pub(super) fn define_integer<R: Rows>(
    rt: &impl Abort,
    alloc: Global,
    rows: &mut R,
    x: i32,
    name: &[u8],
    value: i64,
    bits: Bits,
) -> Result<PropId, LiteralFault>
    requires good { IsGood (R.held rows.old).maps }
    requires name { is_property_name name.now ≡ true }
    ensures { OnOk result (IsGood (R.held rows.new).maps) }
{
    let name = MooStr::from_bytes(alloc, name)?;
    assert!(rt; valid(rows, ObjNo(x)));
    assert!(rt; clashes(rows, ObjNo(x), &name).is_none());
    assert!(rt; rows.head().next_prop < u32::MAX);
    let value = Value::Int(value);
    Ok(define(alloc, rows, ObjNo(x), name, value, WIZARD, bits)?)
}

/// The number of the property with this name that x has. It ends the test if x has none.
fn find_property<R: Rows>(
    rt: &impl Abort,
    alloc: Global,
    rows: &R,
    x: ObjNo,
    name: &[u8],
) -> Result<PropId, LiteralFault>
    requires { IsGood (R.held rows.now).maps }
    ensures { IfOk result (λ id. is_some (get (R.held rows.now).maps.slots (x, id)) ≡ true) }
{
    let name = MooStr::from_bytes(alloc, name)?;
    let Some(id) = find(rows, x, &name) else {
        panic!(rt; "no such property");
    };
    Ok(id)
}

/// Whether x reads this integer for a name, or, for None, has no property of that name.
fn reads<R: Rows>(rows: &R, x: ObjNo, name: &MooStr, want: Option<i64>) -> bool
    requires { IsGood (R.held rows.now).maps }
{
    let Some(id) = find(rows, x, name) else {
        return want.is_none();
    };
    match value_of(rows, x, id) {
        Value::Int(value) => want == Some(*value),
        _ => false,
    }
}

/// An object, a name, and the integer that the object reads for it, or None if it has no property of that name.
pub(super) type Reading = (i32, &'static str, Option<i64>);

/// Whether each object reads its integer for its name, or has no property of that name.
pub(super) fn read<R: Rows>(alloc: Global, rows: &R, want: &[Reading]) -> Result<bool, LiteralFault>
    requires { IsGood (R.held rows.now).maps }
{
    for (x, name, value) in want {
        let name = MooStr::from_bytes(alloc, name.as_bytes())?;
        if !reads(rows, ObjNo(*x), &name, *value) {
            return Ok(false);
        }
    }
    Ok(true)
}

/// The owner and the bits of the property of a name on x, and whether it is clear there. None if x has no property of that name.
pub(super) fn slot<R: Rows>(
    alloc: Global,
    rows: &R,
    x: i32,
    name: &[u8],
) -> Result<Option<(ObjNo, Bits, bool)>, LiteralFault>
    requires { IsGood (R.held rows.now).maps }
{
    let name = MooStr::from_bytes(alloc, name)?;
    Ok(match slot_of(rows, ObjNo(x), &name) {
        None => None,
        Some(found) => {
            let clear = match found.slot.state {
                SlotState::Clear => true,
                SlotState::Set(_) => false,
            };
            Some((found.slot.owner, found.slot.bits, clear))
        }
    })
}

/// Sets the property of a name on x to an integer.
pub(super) fn set<R: Rows>(
    rt: &impl Abort,
    alloc: Global,
    rows: &mut R,
    x: i32,
    name: &[u8],
    value: i64,
) -> Result<(), LiteralFault>
    requires { IsGood (R.held rows.old).maps }
    ensures { OnOk result (IsGood (R.held rows.new).maps) }
{
    let id = find_property(rt, alloc, rows, ObjNo(x), name)?;
    set_value(rows, ObjNo(x), id, Value::Int(value))?;
    Ok(())
}

/// Gives the property of a name on x another owner, and other bits.
pub(super) fn give<R: Rows>(
    rt: &impl Abort,
    alloc: Global,
    rows: &mut R,
    x: i32,
    name: &[u8],
    owner: ObjNo,
    bits: Bits,
) -> Result<(), LiteralFault>
    requires { IsGood (R.held rows.old).maps }
    ensures { OnOk result (IsGood (R.held rows.new).maps) }
{
    let id = find_property(rt, alloc, rows, ObjNo(x), name)?;
    set_info(alloc, rows, ObjNo(x), id, owner, bits)?;
    Ok(())
}

/// Puts x under another parent, and answers what that touched.
pub(super) fn move_under<R: Rows>(
    rt: &impl Abort,
    alloc: Global,
    rows: &mut R,
    x: i32,
    new: i32,
) -> Result<Touched, LiteralFault>
    requires { IsGood (R.held rows.old).maps }
    ensures { OnOk result (IsGood (R.held rows.new).maps) }
{
    assert!(rt; valid(rows, ObjNo(x)));
    assert!(rt; valid(rows, ObjNo(new)));
    assert!(rt; !is_under(rows, ObjNo(new), ObjNo(x)));
    assert!(rt; sharing_definer(alloc, rows, ObjNo(x), ObjNo(new))?.is_none());
    Ok(reparent(alloc, rows, ObjNo(x), ObjNo(new))?)
}

/// Drops x, and answers what went with it.
pub(super) fn drop_one<R: Rows>(
    rt: &impl Abort,
    alloc: Global,
    rows: &mut R,
    x: i32,
) -> Result<Dropped, LiteralFault>
    requires { IsGood (R.held rows.old).maps }
    ensures { OnOk result (IsGood (R.held rows.new).maps) }
{
    assert!(rt; valid(rows, ObjNo(x)));
    Ok(drop_object(alloc, rows, ObjNo(x))?)
}
