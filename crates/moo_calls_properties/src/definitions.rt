//! Defining properties.

ghost use Rattle.std.specs.Prelude.{◌≡◌, true, is_some, nat_lt, Some, Err, IfSome, IfOk, IfErr, OnOk, OnErr, false};
ghost use Rattle.moo_rows.specs.{Bits.{bits_of}, declared.row.Bits.{Bits}, declared.row.SlotState.TheVariants.{Set}};
ghost use Rattle.moo_value.specs.declared.value.Value.{Value};
ghost use Rattle.moo_world.specs.{Arguments.{fits}, PropertyCalls.{add_property, defines_name, may_define, undefined_reason}};
ghost use Rattle.moo_world.specs.{Rows.{IsGood}, Objects.{folded}, Answers.{zero}, Outcomes.{Outcome, Done, fails}};
ghost use Rattle.moo_world.specs.{Changes.{property_added}, World.{World, is_object, is_property_name}};
ghost use Rattle.moo_props.specs.Names.{defines, name_of};
ghost use Rattle.moo_calls_shared.specs.{Outcomes.{world_in, Answers, Does}, Shown.{info_shown}};
ghost use Rattle.moo_calls_properties.specs.Checks.{taking_property_info};

use moo_calls_shared::{Fault, Info, Reason, rights};
use moo_props::{clashes, define, slot_of};
use moo_rows::{Bits, PropId, Rows};
use moo_tree::valid;
use moo_value::{MooStr, ObjNo, Value};
use moo_world::{BuiltIn, MAX_NAME, ZERO};
use std::alloc::Global;

/// Whether a property may have the name: 1 to 255 bytes, and not built in.
fn is_property_name(name: &MooStr) -> bool
    ensures { result ≡ is_property_name name.now }
{
    let length = name.bytes().len();
    0 < length && length <= MAX_NAME && BuiltIn::of_name(name).is_none()
}

/// Tests whether a new property of x may have the name. E_INVARG if no property may have it, then if x, an ancestor or a descendant defines
/// one of that name.
pub(crate) fn may_define<R: Rows>(rows: &R, x: ObjNo, name: &MooStr) -> Result<(), Reason>
    // The rows are good: sound rows of a well formed world, and petitions as they may be beside it.
    requires { IsGood (R.held rows.now).maps }
    // There is an error if and only if x may not define a property of the name.
    ensures ok { OnOk result (may_define (world_in (R.held rows.now)) x name.now ≡ true) }
    ensures err { OnErr result (may_define (world_in (R.held rows.now)) x name.now ≡ false) }
    // The reason: no property may have the name, or else the object that defines one of that name.
    ensures why { IfErr result (λ reason. reason ≡ undefined_reason (world_in (R.held rows.now)) x name.now) }
{
    if !is_property_name(name) {
        return Err(Reason::NoPropertyName);
    }
    match clashes(rows, x, name) {
        Some(definer) => Err(Reason::NameTaken(definer)),
        None => Ok(()),
    }
}

/// The property of a name that x itself defines; `None` if x defines no property of the name. Names compare without ASCII case.
/// (`slot_of` goes on to the ancestors of x.)
pub(crate) fn own_property<R: Rows>(rows: &R, x: ObjNo, name: &MooStr) -> Option<PropId>
    // The rows are good: sound rows of a well formed world, and petitions as they may be beside it.
    requires { IsGood (R.held rows.now).maps }
    // There is one if and only if x itself defines a property of the name.
    ensures exact { is_some result ≡ defines_name (world_in (R.held rows.now)) x name.now }
    // x defines the property that was found.
    ensures own { IfSome result (λ id. defines (R.held rows.now).maps x id ≡ true) }
    // That property has the name, but for the case of letters.
    ensures named { IfSome result (λ id. name_of (R.held rows.now).maps id ≡ folded name.now) }
{
    let Some(found) = slot_of(rows, x, name) else {
        return None;
    };
    if found.definer == x {
        Some(found.id)
    } else {
        None
    }
}

/// Whether x itself defines a property of the name.
pub(crate) fn defines_name<R: Rows>(rows: &R, x: ObjNo, name: &MooStr) -> bool
    // The rows are good: sound rows of a well formed world, and petitions as they may be beside it.
    requires { IsGood (R.held rows.now).maps }
    ensures { result ≡ defines_name (world_in (R.held rows.now)) x name.now }
{
    own_property(rows, x, name).is_some()
}

/// The rights that a property takes with an owner, or E_INVARG: if the owner isn't an object, then if the rights have a
/// letter other than `r`, `w` and `c`.
pub(crate) fn bits_taken<R: Rows>(rows: &R, info: Info<'_>) -> Result<Bits, Reason>
    // If there is no error, the owner is an object and the rights are those of the letters.
    ensures owner { OnOk result (is_object (world_in (R.held rows.now)) info.entry.owner ≡ true) }
    ensures bits { IfOk result (λ bits. bits_of info.entry.perms.now ≡ Some bits) }
    // At an error, each call that takes this owner and these letters fails for the reason.
    ensures err { IfErr result (λ reason. (then : Bits → Outcome World) →
        taking_property_info (world_in (R.held rows.now)) (info_shown info.entry) then ≡ fails reason) }
{
    if !valid(rows, info.owner) {
        return Err(Reason::NoObject(info.owner));
    }
    let Some(bits) = Bits::read(info.perms) else {
        return Err(Reason::PropertyPerms);
    };
    Ok(bits)
}

/// Whether a number is left for one more property: the last one is 4,294,967,294.
fn has_number_left<R: Rows>(rows: &R) -> bool
    ensures { result ≡ nat_lt (world_in (R.held rows.now)).next_prop 4294967295 }
{
    rows.head().next_prop < u32::MAX
}

/// The rights of the property that the programmer may define on x, or the first error of `add_property`.
fn bits_to_define<R: Rows>(
    rows: &R,
    programmer: ObjNo,
    x: ObjNo,
    name: &MooStr,
    info: Info<'_>,
) -> Result<Bits, Fault>
    // The rows are good: sound rows of a well formed world, and petitions as they may be beside it.
    requires { IsGood (R.held rows.now).maps }
    // With these rights, `add_property` of any value answers 0, and x defines the property: its slot on x has owner, rights and value.
    ensures ok { IfOk result (λ bits. (v : Value) →
        add_property (world_in (R.held rows.now)) programmer x name.now v (info_shown info.entry)
        ≡ Done zero (property_added (world_in (R.held rows.now)) x name.now
        (record { definer = x; owner = info.entry.owner; bits = bits; state = Set v }))) }
    // At an error, `add_property` of any value ends with it.
    ensures err { IfErr result (λ fault. (v : Value) →
        Answers (add_property (world_in (R.held rows.now)) programmer x name.now v (info_shown info.entry))
        (R.held rows.now) (Err fault)) }
    // If there is no error, x is an object that may define a property of the name, and a number is left for it.
    ensures there { OnOk result (is_object (world_in (R.held rows.now)) x ≡ true) }
    ensures free { OnOk result (may_define (world_in (R.held rows.now)) x name.now ≡ true) }
    ensures left { OnOk result (nat_lt (world_in (R.held rows.now)).next_prop 4294967295 ≡ true) }
{
    if !valid(rows, x) {
        return Err(Fault::Moo(Reason::NoObject(x)));
    }
    let bits = bits_taken(rows, info)?;
    if !rights::may_write_object(rows, programmer, x) {
        return Err(Fault::Moo(Reason::NoObjectW(x)));
    }
    if !rights::may_make_owner(rows, programmer, info.owner) {
        return Err(Fault::Moo(Reason::NoOwner(info.owner)));
    }
    may_define(rows, x, name)?;
    if !has_number_left(rows) {
        return Err(Fault::Full);
    }
    Ok(bits)
}

/// `add_property(object, name, value, {owner, perms})`: defines a property on the object, with the value; each descendant
/// gets it clear. The answer is 0. E_INVARG if there is no such object, then if the owner isn't an object, then if perms has
/// a letter other than `r`, `w` and `c`; E_PERM if the programmer may not write the object, then if it is neither the owner
/// nor a wizard; E_INVARG if the name is empty, longer than 255 bytes or built in, or if the object, an ancestor or a
/// descendant defines a property of that name. Full if every number of a property has been given.
/// LambdaMOO Programmer's Manual, 'Operations on Properties'.
pub fn add_property<R: Rows>(
    rows: &mut R,
    alloc: Global,
    programmer: ObjNo,
    x: ObjNo,
    name: &MooStr,
    value: &Value,
    info: Info<'_>,
) -> Result<Value, Fault>
    // The rows are good: sound rows of a well formed world, and petitions as they may be beside it.
    requires good { IsGood (R.held rows.old).maps }
    // The value nests at most 32 deep, and its numbers and texts are within their limits.
    requires fit { fits value.now ≡ true }
    // It does what the definition `add_property` says. If it is done, the rows are good, petitions and the count of batches stay, and what
    // stays keeps its number (`Does`). At its errors nothing changes; out of memory the rows may be half changed.
    ensures { Does (add_property (world_in (R.held rows.old)) programmer x name.now value.now (info_shown info.entry))
        (R.held rows.old) (R.held rows.new) result }
{
    let bits = bits_to_define(rows, programmer, x, name, info)?;
    let name = name.copy(alloc)?;
    let value = value.copy(alloc)?;
    define(alloc, rows, x, name, value, info.owner, bits)?;
    Ok(ZERO)
}
