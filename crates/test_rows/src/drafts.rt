//! Drafts over rows, beside rows that take the same steps.
//!
//! What makes a draft is over any rows if it can, and each such function is called at `Flat` in one place: there a proof takes
//! longer. What rows show by themselves, and what a draft shows of links and of petitions, the clauses say and the scenes of
//! `tests/` run.

ghost use Rattle.std.specs.Prelude.{◌<◌};

use moo_memory::{Changes, Draft, Flat, apply_changes, opening_world};
use moo_rows::{Bits, PropId, Rows, SlotRow, SlotState, each_slot, each_slot_of};
use moo_value::{ObjNo, Value};
use std::alloc::{AllocError, Global};
use std::process::Abort;

/// A slot with this integer, which the object owns and all may read.
fn slot(object: ObjNo, value: i64) -> SlotRow {
    SlotRow {
        owner: object,
        bits: Bits {
            r: true,
            w: false,
            c: false,
        },
        state: SlotState::Set(Value::Int(value)),
    }
}

/// The rows of the opening world, and 100 puts of slots on 23 objects.
fn some_slots(alloc: Global) -> Result<Flat, AllocError> {
    let mut flat = opening_world(alloc)?;
    for i in 0..100u32 {
        let object = ObjNo((i % 23) as i32);
        flat.put_slot((object, PropId(i * 7 % 17 + 1)), slot(object, 0))?;
    }
    Ok(flat)
}

/// Keys of slots that were found in turn; None if none was found.
type Keys = Vec<Option<(ObjNo, PropId)>>;

/// The step `i` of the 1,000 steps of `meet_keys`: it puts a slot, removes one, or finds the key after one.
fn step<R: Rows>(rows: &mut R, i: u32, met: &mut Keys) -> Result<(), AllocError>
    requires { i < 1000 }
{
    let object = ObjNo((i * 37 % 23) as i32);
    let key = (object, PropId(i * 11 % 17 + 1));
    match i % 4 {
        0 => rows.put_slot(key, slot(object, i64::from(i))),
        1 => rows.put_slot((object, PropId(3)), slot(object, 0)),
        2 => rows.remove_slot(key),
        _ => Ok(met.push(rows.next_slot(Some(key)))?),
    }
}

/// Takes 1,000 fixed steps on rows, and lists the keys that these find, and then those of all slots and of a part of the slots of #5.
fn meet_keys<R: Rows>(rows: &mut R, met: &mut Keys) -> Result<(), AllocError> {
    for i in 0..1000 {
        step(rows, i, met)?;
    }
    for (key, _) in each_slot(rows) {
        met.push(Some(key))?;
    }
    for (key, _) in each_slot_of(rows, ObjNo(5), PropId(3)) {
        met.push(Some(key))?;
    }
    Ok(())
}

/// Takes the steps of `meet_keys` on a draft over rows, and hands back the changes of that draft.
fn draft_changes<B: Rows>(alloc: Global, base: &B, met: &mut Keys) -> Result<Changes, AllocError> {
    let mut draft = Draft::new(alloc, base);
    meet_keys(&mut draft, met)?;
    draft.into_changes()
}

/// The keys that `meet_keys` lists on rows, which it changes.
fn met_on(alloc: Global, rows: &mut Flat) -> Result<Keys, AllocError> {
    let mut met = Vec::new(alloc);
    meet_keys(rows, &mut met)?;
    Ok(met)
}

/// `draft_changes` at `Flat`, in the one place that calls it so.
fn changes_over(alloc: Global, base: &Flat, met: &mut Keys) -> Result<Changes, AllocError> {
    draft_changes(alloc, base, met)
}

/// Whether these keys are over 300, and those that `meet_keys` lists on these rows.
fn are_met(alloc: Global, rows: &mut Flat, keys: &Keys) -> Result<bool, AllocError> {
    let met = met_on(alloc, rows)?;
    Ok(met.len() > 300 && met.as_slice() == keys.as_slice())
}

/// Tests that a draft over rows finds the keys that the rows find.
fn step_on_draft(rt: &impl Abort, alloc: Global, rows: &mut Flat) -> Result<(), AllocError> {
    let mut met = Vec::new(alloc);
    changes_over(alloc, rows, &mut met)?;
    assert!(rt; are_met(alloc, rows, &met)?);
    Ok(())
}

#[test]
fn a_draft_steps_as_rows_do(rt: HostRuntime) -> Result<(), AllocError> {
    step_on_draft(&rt, rt.alloc(), &mut some_slots(rt.alloc())?)
}

/// The keys that `meet_keys` lists on a copy of rows, after the changes of a draft were applied to it.
fn met_behind_draft(alloc: Global, base: &Flat) -> Result<Keys, AllocError> {
    let mut copy = base.copy(alloc)?;
    apply_changes(&mut copy, changes_over(alloc, base, &mut Vec::new(alloc))?)?;
    met_on(alloc, &mut copy)
}

/// Tests that the changes of a draft make of a copy what the steps make of the rows themselves. The rows take the steps once before they
/// are compared.
fn step_behind_draft(rt: &impl Abort, alloc: Global, rows: &mut Flat) -> Result<(), AllocError> {
    let met = met_behind_draft(alloc, rows)?;
    met_on(alloc, rows)?;
    assert!(rt; are_met(alloc, rows, &met)?);
    Ok(())
}

#[test]
fn the_changes_of_a_draft_make_the_rows_that_it_showed(rt: HostRuntime) -> Result<(), AllocError> {
    step_behind_draft(&rt, rt.alloc(), &mut some_slots(rt.alloc())?)
}

/// Puts back a slot that it removed, puts a new one, and removes a slot that isn't there and an object that is.
fn change_few<R: Rows>(draft: &mut R) -> Result<(), AllocError> {
    let key = (ObjNo(5), PropId(2));
    draft.remove_slot(key)?;
    draft.put_slot(key, slot(ObjNo(5), 0))?;
    draft.remove_slot((ObjNo(50), PropId(1)))?;
    draft.put_slot((ObjNo(1), PropId(20)), slot(ObjNo(1), 7))?;
    draft.remove_object(ObjNo(2))
}

/// The changes of a draft over rows after `change_few`.
fn few_changes<B: Rows>(alloc: Global, base: &B) -> Result<Changes, AllocError> {
    let mut draft = Draft::new(alloc, base);
    change_few(&mut draft)?;
    draft.into_changes()
}

/// Tests that these are one new slot and one removed object alone.
fn look_at_few_changes(rt: &impl Abort, changes: &Changes) {
    let slots = changes.slots.items();
    assert!(rt; slots.len() == 1);
    assert!(rt; slots[0].0 == (ObjNo(1), PropId(20)) && slots[0].1.is_some());
    let objects = changes.objects.items();
    assert!(rt; objects.len() == 1);
    assert!(rt; objects[0].1.is_none());
    assert!(rt; changes.props.items().is_empty());
    assert!(rt; changes.petitions.items().is_empty());
}

/// Tests that a row which is removed and put back as it was isn't a change of a draft.
fn put_back<B: Rows>(rt: &impl Abort, alloc: Global, base: &B) -> Result<(), AllocError> {
    assert!(rt; base.slot((ObjNo(5), PropId(2))).is_some());
    let changes = few_changes(alloc, base)?;
    look_at_few_changes(rt, &changes);
    Ok(())
}

#[test]
fn a_row_put_back_is_no_change(rt: HostRuntime) -> Result<(), AllocError> {
    put_back(&rt, rt.alloc(), &some_slots(rt.alloc())?)
}
