//! Finding what is wrong with rows.

ghost use Rattle.std.specs.Prelude.{◌≡◌, suc, true, IfOk, IfSome, IfNone};
ghost use Rattle.moo_world.specs.{Rows.{world_of, IsGood}, World.{IsTree}};
ghost use Rattle.moo_damage.specs.Damage.{NumbersGiven, LinksEnd, PropsRight, SlotsRight};
ghost use Rattle.moo_damage.specs.Kinds.{rank, lost_kind, loop_kind, InRows, NoneBefore, IsFirstBefore, IsFirstInRows};
ghost use Rattle.moo_damage.specs.{Limits.{AreWithin}, Local.{SlotsHold}, Plain.{ArePlain}};

use crate::checks::{first_clear, first_past, first_strange_verb, first_undefined};
use crate::kind::{Key, Kind, object_key, petition_key, prop_key, slot_key, verb_key};
use crate::local::{double_name, missing_slot, slots_are_owed, strange_slot};
use crate::plain::{are_plain, looping_object, lost_object, past_object};
use crate::trees::TreeLink;
use moo_rows::{PetitionRow, PropRow, Rows, VerbRow};
use std::alloc::{AllocError, Global};

/// The first row whose number was never given, of objects, properties, verbs and petitions in this order; `None` if each was given. If
/// `are_plain`, objects aren't looked at: it says that they are known to be right.
fn ungiven_number<R: Rows>(rows: &R, are_plain: bool) -> Option<(Kind, Key)>
    // `are_plain` is true only if one look at each object shows that it is right.
    requires { are_plain ≡ true → ArePlain (R.held rows.now).maps }
    // Some damage is the first that is met, with its least key. `None` only if no kind up to `PastHead` is met.
    ensures first { IsFirstBefore (InRows (R.held rows.now).maps) 4 result }
    // If there is no damage, each number was given.
    ensures given { IfNone result (NumbersGiven (R.held rows.now).maps) }
{
    if let Some(x) = past_object(rows, are_plain) {
        return Some((Kind::PastHead, object_key(x)));
    }
    if let Some(id) = first_past::<PropRow, R>(rows) {
        return Some((Kind::PastHead, prop_key(id)));
    }
    if let Some(key) = first_past::<VerbRow, R>(rows) {
        return Some((Kind::PastHead, verb_key(key)));
    }
    if let Some(id) = first_past::<PetitionRow, R>(rows) {
        return Some((Kind::PastHead, petition_key(id)));
    }
    None
}

/// The first object whose link names no object, or else whose chain of links has no end; `None` if there is no such object. If `are_plain`,
/// none is looked for: it says that the objects are known to be right. The only error is a lack of memory.
fn wrong_link<R: Rows>(
    alloc: Global,
    rows: &R,
    link: TreeLink,
    are_plain: bool,
) -> Result<Option<(Kind, Key)>, AllocError>
    // `are_plain` is true only if one look at each object shows that it is right.
    requires plain { are_plain ≡ true → ArePlain (R.held rows.now).maps }
    // Each number was given.
    requires numbers { NumbersGiven (R.held rows.now).maps }
    // No damage of a kind before that of a link that names no object is met.
    requires before { NoneBefore (InRows (R.held rows.now).maps) (rank (lost_kind link)) }
    // Some damage is the first that is met, with its least key. `None` only if no kind up to that of a chain without an end is met.
    ensures first { IfOk result (IsFirstBefore (InRows (R.held rows.now).maps) (suc (rank (loop_kind link)))) }
    // If there is no such object, each object's chain of this link ends.
    ensures ends { IfOk result (λ o. IfNone o (LinksEnd link (R.held rows.now).maps)) }
{
    if let Some(x) = lost_object(rows, link, are_plain) {
        return Ok(Some((link.lost_kind(), object_key(x))));
    }
    match looping_object(alloc, rows, link, are_plain)? {
        Some(x) => Ok(Some((link.loop_kind(), object_key(x)))),
        None => Ok(None),
    }
}

/// The first property whose definer isn't an object, or else whose name one of lesser number has; `None` if there is no such property. If
/// `slots_are_owed`, names aren't looked at: it says that the slots are known to be just those that objects are owed.
fn wrong_property<R: Rows>(rows: &R, slots_are_owed: bool) -> Option<(Kind, Key)>
    // Parents and locations are objects or `#-1`, without loops, and each object's number was given.
    requires tree { IsTree (world_of (R.held rows.now).maps) }
    // `slots_are_owed` is true only if no name is double, no slot is strange and none is missing.
    requires hold { slots_are_owed ≡ true → SlotsHold (R.held rows.now).maps }
    // No kind up to `PlaceLoop` is met.
    requires before { NoneBefore (InRows (R.held rows.now).maps) 8 }
    // Some damage is the first that is met, with its least key. `None` only if no kind up to `DoubleName` is met.
    ensures first { IsFirstBefore (InRows (R.held rows.now).maps) 10 result }
    // If there is no such property, each definer is an object, and no name is double.
    ensures right { IfNone result (PropsRight (R.held rows.now).maps) }
{
    if let Some(id) = first_undefined(rows) {
        return Some((Kind::NoDefiner, prop_key(id)));
    }
    if let Some(id) = double_name(rows, slots_are_owed) {
        return Some((Kind::DoubleName, prop_key(id)));
    }
    None
}

/// The first damage of slots or verbs, with its least key, in this order: a slot that its object isn't owed, a slot that is owed and
/// missing, a slot that is clear on the definer of its property, a verb of no object. `None` if there is no damage. If `slots_are_owed`,
/// the first two aren't looked for: it says that the slots are known to be just those that objects are owed.
fn wrong_slot_or_verb<R: Rows>(rows: &R, slots_are_owed: bool) -> Option<(Kind, Key)>
    // Parents and locations are objects or `#-1`, without loops, and each object's number was given.
    requires tree { IsTree (world_of (R.held rows.now).maps) }
    // `slots_are_owed` is true only if no name is double, no slot is strange and none is missing.
    requires hold { slots_are_owed ≡ true → SlotsHold (R.held rows.now).maps }
    // No kind up to `DoubleName` is met.
    requires before { NoneBefore (InRows (R.held rows.now).maps) 10 }
    // Some damage is the first that is met, with its least key. `None` only if no kind up to `StrangeVerb` is met.
    ensures first { IsFirstBefore (InRows (R.held rows.now).maps) 14 result }
    // If there is no damage, slots are just those that are owed, none is clear on its definer, and each verb is of an object.
    ensures right { IfNone result (SlotsRight (R.held rows.now).maps) }
{
    if let Some(key) = strange_slot(rows, slots_are_owed) {
        return Some((Kind::StrangeSlot, slot_key(key)));
    }
    if let Some(key) = missing_slot(rows, slots_are_owed) {
        return Some((Kind::MissingSlot, slot_key(key)));
    }
    if let Some(key) = first_clear(rows) {
        return Some((Kind::ClearDefiner, slot_key(key)));
    }
    if let Some(key) = first_strange_verb(rows) {
        return Some((Kind::StrangeVerb, verb_key(key)));
    }
    None
}

/// What is wrong with rows: the first of the kinds of damage from `PastHead` to `StrangeVerb` that is met, with its least key: objects
/// come before properties, then slots, verbs and petitions. `None` if no kind is met: the rows then show a well formed world, and
/// petitions as they may be beside it. The only error is a lack of memory.
///
/// Its time is that of going over the rows and of looking up each one's neighbours. With a double name or a wrong slot it takes longer.
pub fn damage_of<R: Rows>(alloc: Global, rows: &R) -> Result<Option<(Kind, Key)>, AllocError>
    // The counters of the head and each row are within the limits of their columns.
    requires { AreWithin (R.held rows.now).maps }
    // If there is no damage, the rows are good ones: sound rows of a well formed world, with petitions as they may be beside it.
    ensures good { IfOk result (λ o. IfNone o (IsGood (R.held rows.now).maps)) }
    // Else the damage is the first kind that is met, with the least key at which it is.
    ensures first { IfOk result (λ o. IfSome o (λ d. IsFirstInRows (R.held rows.now).maps d.0 d.1)) }
{
    let plain = are_plain(rows);
    if let Some(damage) = ungiven_number(rows, plain) {
        return Ok(Some(damage));
    }
    if let Some(damage) = wrong_link(alloc, rows, TreeLink::Parent, plain)? {
        return Ok(Some(damage));
    }
    if let Some(damage) = wrong_link(alloc, rows, TreeLink::Location, plain)? {
        return Ok(Some(damage));
    }
    let are_owed = slots_are_owed(alloc, rows)?;
    if let Some(damage) = wrong_property(rows, are_owed) {
        return Ok(Some(damage));
    }
    Ok(wrong_slot_or_verb(rows, are_owed))
}
