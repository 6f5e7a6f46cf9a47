//! Slots that go and slots that come: their keys, and what fresh slots are made from.

ghost use Rattle.std.specs.Prelude.{◌≡◌, ◌++◌, IfOk, OnOk};
ghost use Rattle.moo_rows.specs.Walk.{slots_of_left};
ghost use Rattle.moo_props.specs.Slots.{fresh_of, ids_for, keys_by, keys_on, origins, origins_among, slots_moved, with_fresh, without_on};

use moo_rows::{Bits, PropId, Rows, SlotRow, SlotState, each_slot_of, go_on};
use moo_value::ObjNo;
use std::alloc::{AllocError, Global};
use std::marker::Model;

/// Keys of slots, in order.
#[derive(Drop)]
pub struct SlotKeys {
    items: Vec<(ObjNo, PropId)>,
}

impl Model for SlotKeys {
    ghost use Rattle.std.specs.Prelude.{List};
    ghost use Rattle.moo_value.specs.declared.value.ObjNo.{ObjNo};
    ghost use Rattle.moo_rows.specs.declared.row.PropId.{PropId};

    ghost Value = { List (ObjNo × PropId) };

    ghost view = { λ a. a.items.items };
}

impl SlotKeys {
    /// The keys, in order.
    pub fn items(&self) -> &[(ObjNo, PropId)]
        ensures { result.now ≡ self.now }
    {
        self.items.as_slice()
    }
}

/// A property with the owner and the bits of the slot that fresh ones are made from.
#[derive(Clone, Copy)]
pub struct Origin {
    pub id: PropId,
    pub owner: ObjNo,
    pub bits: Bits,
}

impl Origin {
    /// The clear slot that is made from the origin on an object of this owner. The slot belongs to this owner if the bit c is set, else to
    /// the owner of the origin.
    pub(crate) fn fresh_slot(&self, owner: ObjNo) -> SlotRow
        ensures { result ≡ fresh_of owner self.now }
    {
        SlotRow {
            owner: if self.bits.c { owner } else { self.owner },
            bits: self.bits,
            state: SlotState::Clear,
        }
    }
}

/// An origin for each property that q has, with the owner and the bits of its slot there, ascending. The only error is a lack of memory.
pub(crate) fn origins_among<R: Rows>(
    alloc: Global,
    rows: &R,
    q: ObjNo,
) -> Result<Vec<Origin>, AllocError>
    // They are those of the slots of q past the number 0, which no property has.
    ensures { IfOk result (λ v. v.items ≡ origins_among (slots_of_left q (record { 0 = 0 }) (R.held rows.now).maps)) }
{
    let mut found = Vec::new(alloc);
    for (key, slot) in each_slot_of(rows, q, PropId(0)) {
        go_on(rows)?;
        found.push(Origin {
            id: key.1,
            owner: slot.owner,
            bits: slot.bits,
        })?;
    }
    Ok(found)
}

/// An origin for each of these properties that q has, with the owner and the bits of its slot there. The only error is a lack of memory.
pub(crate) fn origins<R: Rows>(
    alloc: Global,
    rows: &R,
    q: ObjNo,
    ids: &[PropId],
) -> Result<Vec<Origin>, AllocError>
    ensures { IfOk result (λ v. v.items ≡ origins (R.held rows.now).maps.slots q ids.now) }
{
    let mut found = Vec::new(alloc);
    for id in ids {
        go_on(rows)?;
        if let Some(slot) = rows.slot((q, *id)) {
            found.push(Origin {
                id: *id,
                owner: slot.owner,
                bits: slot.bits,
            })?;
        }
    }
    Ok(found)
}

/// Removes the slots of these properties from y, one after another. The only error is a lack of memory.
fn remove_on<R: Rows>(rows: &mut R, y: ObjNo, ids: &[PropId]) -> Result<(), AllocError>
    ensures { OnOk result (R.held rows.new ≡ without_on y ids.now (R.held rows.old)) }
{
    for id in ids {
        go_on(rows)?;
        rows.remove_slot((y, *id))?;
    }
    Ok(())
}

/// Puts on y, which has this owner, a fresh slot for each origin. The only error is a lack of memory.
pub(crate) fn put_fresh<R: Rows>(
    rows: &mut R,
    y: ObjNo,
    owner: ObjNo,
    origins: &[Origin],
) -> Result<(), AllocError>
    ensures { OnOk result (R.held rows.new ≡ with_fresh y owner origins.now (R.held rows.old)) }
{
    for origin in origins {
        go_on(rows)?;
        rows.put_slot((y, origin.id), origin.fresh_slot(owner))?;
    }
    Ok(())
}

/// Appends the keys of the slots of these properties on y to a list. The only error is a lack of memory.
fn list_on(y: ObjNo, ids: &[PropId], keys: &mut Vec<(ObjNo, PropId)>) -> Result<(), AllocError>
    ensures { OnOk result (keys.new.items ≡ keys.old.items ++ keys_on y ids.now) }
{
    for id in ids {
        keys.push((y, *id))?;
    }
    Ok(())
}

/// The properties whose slots y loses: `all` if y is x itself, and `own`, those that x defines, if it is another object.
#[tactic(auto, unfolding(moo_world::specs::Objects::same_object))]
fn ids_for<'a>(x: ObjNo, all: &'a [PropId], own: &'a [PropId], y: ObjNo) -> &'a [PropId]
    ensures { result.now ≡ ids_for x all.now own.now y }
{
    if x == y { all } else { own }
}

/// Exchanges slots on each of these objects, which come with their owners: slots go, and then a fresh one comes for each origin. From x go
/// those of the properties `all`, and from another object those of `own`. The only error is a lack of memory.
pub(crate) fn exchange_slots<R: Rows>(
    rows: &mut R,
    under: &[(ObjNo, ObjNo)],
    x: ObjNo,
    all: &[PropId],
    own: &[PropId],
    gained: &[Origin],
) -> Result<(), AllocError>
    // On each object the slots of `all` or `own` have gone, and then the fresh slots have come.
    ensures { OnOk result (R.held rows.new ≡ slots_moved (ids_for x all.now own.now) gained.now under.now (R.held rows.old)) }
{
    for (y, owner) in under {
        remove_on(rows, *y, ids_for(x, all, own, *y))?;
        put_fresh(rows, *y, *owner, gained)?;
    }
    Ok(())
}

/// The keys of slots on each of these objects, in order: on x of the properties `all`, and on another object of `own`. An `Err` is a lack
/// of memory.
pub(crate) fn keys_by(
    alloc: Global,
    under: &[(ObjNo, ObjNo)],
    x: ObjNo,
    all: &[PropId],
    own: &[PropId],
) -> Result<SlotKeys, AllocError>
    ensures { IfOk result (λ keys. keys ≡ keys_by (ids_for x all.now own.now) under.now) }
{
    let mut keys = Vec::new(alloc);
    for (y, _owner) in under {
        list_on(*y, ids_for(x, all, own, *y), &mut keys)?;
    }
    Ok(SlotKeys { items: keys })
}
