//! Changing the owner, the rights and the name of a property.

ghost use Rattle.std.specs.{Prelude.{◌≡◌, ◌||◌, true, is_some, option_map, Err, IfOk, IfErr, OnOk, OnErr, false}, FinMap.{get}};
ghost use Rattle.moo_world.specs.{Answers.{zero}, Changes.{info_set}, Keeps.{Keeps}, Objects.{folded, same_object}, Outcomes.{Done}};
ghost use Rattle.moo_world.specs.{PropertyCalls.{may_rename, renamed_to, set_property_info, unrenamed_reason}, Rights.{is_wizard}};
ghost use Rattle.moo_world.specs.Rows.{world_of, IsGood};
ghost use Rattle.moo_props.specs.Names.{name_of, spelling_of};
ghost use Rattle.moo_calls_shared.specs.{Outcomes.{world_in, Answers, Does}, Shown.{info_shown}};

use crate::definitions::{bits_taken, defines_name, may_define};
use crate::slots::may_write_slot;
use moo_calls_shared::{Fault, Info, Reason, rights};
use moo_props::{rename, set_info, slot_of};
use moo_rows::{Bits, PropId, Rows};
use moo_tree::valid;
use moo_value::{MooStr, ObjNo, Value};
use moo_world::ZERO;
use std::alloc::{AllocError, Global};

/// Whether the programmer may give a slot this owner: the present owner, or anybody if the programmer is a wizard.
fn may_give<R: Rows>(rows: &R, programmer: ObjNo, owner: ObjNo, present: ObjNo) -> bool
    ensures { result ≡ (same_object owner present || is_wizard (world_in (R.held rows.now)) programmer) }
{
    owner == present || rights::is_wizard(rows, programmer)
}

/// Tests whether the property of a name on x may have the new name: always if no new name is given. E_INVARG if x itself doesn't
/// define the property, then if no new property of x may have the new name.
fn may_rename<R: Rows>(
    rows: &R,
    x: ObjNo,
    name: &MooStr,
    new: Option<&MooStr>,
) -> Result<(), Reason>
    // The rows are good: sound rows of a well formed world, and petitions as they may be beside it.
    requires { IsGood (R.held rows.now).maps }
    // There is an error if and only if the property may not have the new name.
    ensures ok { OnOk result (may_rename (world_in (R.held rows.now)) x name.now (option_map (λ n. n.now) new.entry) ≡ true) }
    ensures err { OnErr result (may_rename (world_in (R.held rows.now)) x name.now (option_map (λ n. n.now) new.entry) ≡ false) }
    // The reason: x doesn't define the property, or why x may not define one of the new name.
    ensures why { IfErr result (λ reason.
        reason ≡ unrenamed_reason (world_in (R.held rows.now)) x name.now (option_map (λ n. n.now) new.entry)) }
{
    let Some(new) = new else {
        return Ok(());
    };
    if !defines_name(rows, x, name) {
        return Err(Reason::NotRenamed(x));
    }
    may_define(rows, x, new)
}

/// A copy of a name, if there is one. The only error is a lack of memory.
fn copy_of(alloc: Global, name: Option<&MooStr>) -> Result<Option<MooStr>, AllocError>
    ensures { IfOk result (λ copy. copy ≡ option_map (λ n. n.now) name.entry) }
{
    match name {
        None => Ok(None),
        Some(name) => Ok(Some(name.copy(alloc)?)),
    }
}

/// Gives a property that x has an owner and rights on x, and another name, if there is one. The only error is a lack of
/// memory, after which the rows may be half changed.
fn change_info<R: Rows>(
    rows: &mut R,
    alloc: Global,
    x: ObjNo,
    id: PropId,
    owner: ObjNo,
    bits: Bits,
    new: Option<MooStr>,
) -> Result<(), AllocError>
    // The rows are good: sound rows of a well formed world, and petitions as they may be beside it.
    requires good { IsGood (R.held rows.old).maps }
    // x has the property.
    requires has { is_some (get (R.held rows.old).maps.slots (x, id)) ≡ true }
    // No new name is given, or x may give the property the new one.
    requires may { may_rename (world_of (R.held rows.old).maps) x (spelling_of (R.held rows.old).maps id) new ≡ true }
    // The slot on x has the owner and the rights, and the property has the new name everywhere, if one is given.
    ensures world { OnOk result (let name = spelling_of (R.held rows.old).maps id in
        world_of (R.held rows.new).maps ≡ renamed_to (info_set (world_of (R.held rows.old).maps) x name owner bits) x name new) }
    // The rows are good ones, what stays keeps its number, and the petitions and the count of batches are as they were.
    ensures kept { OnOk result (Keeps (R.held rows.old) (R.held rows.new)) }
{
    set_info(alloc, rows, x, id, owner, bits)?;
    if let Some(new) = new {
        rename(rows, x, id, new)?;
    }
    Ok(())
}

/// The property of a name on x and the rights that the programmer may give it, or the first error of `set_property_info`.
fn property_to_change<R: Rows>(
    rows: &R,
    programmer: ObjNo,
    x: ObjNo,
    name: &MooStr,
    info: Info<'_>,
    new_name: Option<&MooStr>,
) -> Result<(PropId, Bits), Fault>
    // The rows are good: sound rows of a well formed world, and petitions as they may be beside it.
    requires { IsGood (R.held rows.now).maps }
    // With these rights, `set_property_info` answers 0: the slot has owner and rights, and the property the new name, if one is given.
    ensures ok { IfOk result (λ found. let w = world_in (R.held rows.now) in let new = option_map (λ n. n.now) new_name.entry in
        set_property_info w programmer x name.now (info_shown info.entry) new
        ≡ Done zero (renamed_to (info_set w x name.now info.entry.owner found.1) x name.now new)) }
    // At an error, `set_property_info` ends with it.
    ensures err { IfErr result (λ fault. let new = option_map (λ n. n.now) new_name.entry in
        Answers (set_property_info (world_in (R.held rows.now)) programmer x name.now (info_shown info.entry) new)
        (R.held rows.now) (Err fault)) }
    // x has the property that was found.
    ensures held { IfOk result (λ found. is_some (get (R.held rows.now).maps.slots (x, found.0)) ≡ true) }
    // That property has the name, but for the case of letters.
    ensures named { IfOk result (λ found. name_of (R.held rows.now).maps found.0 ≡ folded name.now) }
    // No new name is given, or x may give the property the new one.
    ensures may { OnOk result (may_rename (world_in (R.held rows.now)) x name.now (option_map (λ n. n.now) new_name.entry) ≡ true) }
{
    if !valid(rows, x) {
        return Err(Fault::Moo(Reason::NoObject(x)));
    }
    let Some(found) = slot_of(rows, x, name) else {
        return Err(Fault::Moo(Reason::NoProperty(x)));
    };
    let bits = bits_taken(rows, info)?;
    if !may_write_slot(rows, programmer, found) {
        return Err(Fault::Moo(Reason::NoPropertyW(x)));
    }
    if !may_give(rows, programmer, info.owner, found.slot.owner) {
        return Err(Fault::Moo(Reason::NotGiven(info.owner)));
    }
    may_rename(rows, x, name, new_name)?;
    Ok((found.id, bits))
}

/// `set_property_info(object, name, {owner, perms})` and `(object, name, {owner, perms, new-name})`: sets the owner and the rights of the
/// property on that object alone, and gives the property the new name everywhere. The answer is 0. E_INVARG if there is no such object;
/// E_PROPNF if it has no property of the name; E_INVARG if the owner isn't an object, then if perms has a letter other than `r`, `w` and
/// `c`; E_PERM if the programmer may not write the object's own slot of it, then if the owner is another one than before and the programmer
/// isn't a wizard; E_INVARG if there is a new name and the object itself doesn't define the property, or no new property of the object may
/// have that name. A new name that differs from the old one in case alone is E_INVARG too: the object defines a property of that name.
/// LambdaMOO Programmer's Manual, 'Operations on Properties'.
pub fn set_property_info<R: Rows>(
    rows: &mut R,
    alloc: Global,
    programmer: ObjNo,
    x: ObjNo,
    name: &MooStr,
    info: Info<'_>,
    new_name: Option<&MooStr>,
) -> Result<Value, Fault>
    // The rows are good: sound rows of a well formed world, and petitions as they may be beside it.
    requires { IsGood (R.held rows.old).maps }
    // It does what the definition `set_property_info` says. If it is done, the rows are good, petitions and the count of batches stay, and
    // what stays keeps its number (`Does`). At its errors nothing changes; out of memory the rows may be half changed.
    ensures { Does (set_property_info (world_in (R.held rows.old)) programmer x name.now (info_shown info.entry)
        (option_map (λ n. n.now) new_name.entry)) (R.held rows.old) (R.held rows.new) result }
{
    let (id, bits) = property_to_change(rows, programmer, x, name, info, new_name)?;
    let new = copy_of(alloc, new_name)?;
    change_info(rows, alloc, x, id, info.owner, bits, new)?;
    Ok(ZERO)
}
