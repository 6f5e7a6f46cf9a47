//! A change of parent.

ghost use Rattle.std.specs.{Prelude.{◌≡◌, true, ◌+◌, ◌≤◌, IfOk, OnOk}, FinMap.{entries}};
ghost use Rattle.moo_tree.specs.Under.{owners_under};
ghost use Rattle.moo_world.specs.{Objects.{is_among}, World.{chain, reparented}, Rows.{world_of, IsGood}, Laws.{MayReparent}};
ghost use Rattle.moo_world.specs.Keeps.{Keeps};
ghost use Rattle.moo_props.specs.Reparent.{defined_only, is_defined_only, is_key, props_only_of, relinked, relinked_list};
ghost use Rattle.moo_props.specs.{Slots.{keys_over, origins, slots_moved}, Touched.{ListsTouched, LeavesTouched, rows_touched}};

use crate::slots::{SlotKeys, exchange_slots, keys_by, origins};
use moo_rows::{ObjList, ObjRow, PropId, Row, Rows, each_slot_of, go_on, ordered};
use moo_tree::{chain_keys, owners_under};
use moo_value::ObjNo;
use std::alloc::{AllocError, Global};
use std::collections::BTreeMap;

/// What a change of parent touched: the slots that went, those that came, and the objects with another parent.
#[derive(Drop)]
pub struct Touched {
    pub removed: SlotKeys,
    pub added: SlotKeys,
    pub relinked: ObjList,
}

/// Whether an object is a key of a map. Takes no memory.
fn is_key(keys: &BTreeMap<ObjNo, ()>, x: ObjNo) -> bool
    ensures { result ≡ is_key keys.now x }
{
    ordered::get(keys, x).is_some()
}

/// Whether the property is defined by an object that is a key of `these` and not of `others`. Takes no memory.
fn is_defined_only<R: Rows>(
    rows: &R,
    these: &BTreeMap<ObjNo, ()>,
    others: &BTreeMap<ObjNo, ()>,
    id: PropId,
) -> bool
    ensures { result ≡ is_defined_only (is_key these.now) (is_key others.now) (R.held rows.now).maps id }
{
    match rows.prop(id) {
        None => false,
        Some(row) => is_key(these, row.definer) && !is_key(others, row.definer),
    }
}

/// The properties, ascending, that are defined by a key of `these` that isn't a key of `others`. The keys of `these` are y or ancestors of
/// y, so that y has a slot of each such property: it goes over the slots of y alone. The only error is a lack of memory.
fn props_among<R: Rows>(
    alloc: Global,
    rows: &R,
    y: ObjNo,
    these: &BTreeMap<ObjNo, ()>,
    others: &BTreeMap<ObjNo, ()>,
) -> Result<Vec<PropId>, AllocError>
    // The rows are good: sound rows of a well formed world, and petitions as they may be beside it.
    requires good { IsGood (R.held rows.now).maps }
    // Each key of `these` is y or an ancestor of y.
    requires within { (d : ObjNo) → is_key these.now d ≡ true → is_among d (chain (world_of (R.held rows.now).maps) y) ≡ true }
    ensures { IfOk result (λ v. v.items ≡ defined_only (is_key these.now) (is_key others.now) (entries (R.held rows.now).maps.props)) }
{
    let mut found = Vec::new(alloc);
    for (key, _slot) in each_slot_of(rows, y, PropId(0)) {
        go_on(rows)?;
        if is_defined_only(rows, these, others, key.1) {
            found.push(key.1)?;
        }
    }
    Ok(found)
}

/// The properties that x loses when it goes from one parent to another, and those that it gains, each list ascending. An `Err` is a lack
/// of memory.
fn lost_and_gained<R: Rows>(
    alloc: Global,
    rows: &R,
    x: ObjNo,
    parent: ObjNo,
    new: ObjNo,
) -> Result<(Vec<PropId>, Vec<PropId>), AllocError>
    // The rows are good: sound rows of a well formed world, and petitions as they may be beside it.
    requires good { IsGood (R.held rows.now).maps }
    // Each object of the chain of `parent` is in the chain of x.
    requires above { (d : ObjNo) → is_among d (chain (world_of (R.held rows.now).maps) parent) ≡ true →
        is_among d (chain (world_of (R.held rows.now).maps) x) ≡ true }
    // First the properties that `parent` or an ancestor of it defines, and neither `new` nor an ancestor of it.
    ensures lost { IfOk result (λ both. let w = world_of (R.held rows.now).maps in
        both.0.items ≡ props_only_of (chain w parent) (chain w new) (entries (R.held rows.now).maps.props)) }
    // Second the properties that `new` or an ancestor of it defines, and neither `parent` nor an ancestor of it.
    ensures gained { IfOk result (λ both. let w = world_of (R.held rows.now).maps in
        both.1.items ≡ props_only_of (chain w new) (chain w parent) (entries (R.held rows.now).maps.props)) }
{
    let above = chain_keys(alloc, rows, parent)?;
    let ahead = chain_keys(alloc, rows, new)?;
    let lost = props_among(alloc, rows, x, &above, &ahead)?;
    let gained = props_among(alloc, rows, new, &ahead, &above)?;
    Ok((lost, gained))
}

/// Removes from x and from each object under it the slots of the lost properties, and puts fresh slots of those that are gained, made from
/// the slots of the new parent. Answers the keys of the slots that went and of those that came. The only error is a lack of memory.
fn exchange_under<R: Rows>(
    alloc: Global,
    rows: &mut R,
    x: ObjNo,
    new: ObjNo,
    lost: &[PropId],
    gained: &[PropId],
) -> Result<(SlotKeys, SlotKeys), AllocError>
    // The rows are good: sound rows of a well formed world, and petitions as they may be beside it.
    requires { IsGood (R.held rows.old).maps }
    // On x and on each object under it the slots of lost properties have gone, and then fresh ones of gained properties have come.
    ensures rows { OnOk result (let old = (R.held rows.old).maps in
        R.held rows.new ≡ slots_moved (λ y. lost.now) (origins old.slots new gained.now) (owners_under old x) (R.held rows.old)) }
    // First in the answer are the keys of the lost properties on x and the objects under it.
    ensures removed { IfOk result (λ both. both.0 ≡ keys_over lost.now (owners_under (R.held rows.old).maps x)) }
    // Second are the keys of the gained properties on x and the objects under it.
    ensures added { IfOk result (λ both. both.1 ≡ keys_over gained.now (owners_under (R.held rows.old).maps x)) }
{
    let under = owners_under(alloc, rows, x)?;
    let fresh = origins(alloc, rows, new, gained)?;
    exchange_slots(rows, under.as_slice(), x, lost, lost, fresh.as_slice())?;
    let removed = keys_by(alloc, under.as_slice(), x, lost, lost)?;
    let added = keys_by(alloc, under.as_slice(), x, gained, gained)?;
    Ok((removed, added))
}

/// Puts the row of x, which is given, with the new parent, and answers a list of x alone. If that is its parent already, nothing is put
/// and the list is empty. The only error is a lack of memory.
#[tactic(auto, unfolding(moo_world::specs::Objects::same_object))]
fn relink<R: Rows>(
    alloc: Global,
    rows: &mut R,
    x: ObjNo,
    mut row: ObjRow,
    new: ObjNo,
) -> Result<ObjList, AllocError>
    ensures rows { OnOk result (R.held rows.new ≡ relinked x row new (R.held rows.old)) }
    ensures list { IfOk result (λ list. list ≡ relinked_list x row new) }
{
    let mut list = Vec::new(alloc);
    if row.parent == new {
        return Ok(ObjList::from_vec(list));
    }
    row.parent = new;
    rows.put_object(x, row)?;
    list.push(x)?;
    Ok(ObjList::from_vec(list))
}

/// Puts x under another parent. x and all under it lose the slots of definers that they are under no more, and get fresh slots of the
/// definers that they are under now. The answer lists the slots that went, the slots that came, and x if it has another parent; the slots
/// ascend. Under the present parent nothing is written.
///
/// The only error is a lack of memory, after which the rows may be half changed.
///
/// LambdaMOO Programmer's Manual, 'Fundamental Operations on Objects': `chparent`.
pub fn reparent<R: Rows>(
    alloc: Global,
    rows: &mut R,
    x: ObjNo,
    new: ObjNo,
) -> Result<Touched, AllocError>
    // The rows are good: sound rows of a well formed world, and petitions as they may be beside it.
    requires good { IsGood (R.held rows.old).maps }
    // x is an object. The new parent is `#-1`, or an object that is neither x nor under x, and has no property of a name that x or a
    // descendant of x defines.
    requires may { MayReparent (world_of (R.held rows.old).maps) x new }
    // The answer lists the slots that went and those that came, each list ascending, and x if it has another parent.
    ensures lists { IfOk result (ListsTouched (R.held rows.old).maps x new) }
    // Slots that are listed as gone are gone, those listed as new are there, and each row is as the change of parent leaves it.
    ensures leaves { OnOk result (LeavesTouched (R.held rows.old).maps x new (R.held rows.new).maps) }
    // The world is the one that `chparent` leaves: x has the new parent, and all slots are rebuilt.
    ensures world { OnOk result (world_of (R.held rows.new).maps ≡ reparented (world_of (R.held rows.old).maps) x new) }
    // The rows are those of a well formed world; what stays keeps its number; petitions, count of batches and what the rows are over stay.
    ensures kept { OnOk result (Keeps (R.held rows.old) (R.held rows.new)) }
    // At most one row is written for each item that is listed.
    ensures writes { IfOk result (λ touched. (R.held rows.new).writes ≤ (R.held rows.old).writes + rows_touched touched) }
{
    let row = match rows.object(x) {
        None => unreachable!(),
        Some(row) => row.copy(alloc)?,
    };
    let (lost, gained) = lost_and_gained(alloc, rows, x, row.parent, new)?;
    let (removed, added) = exchange_under(alloc, rows, x, new, lost.as_slice(), gained.as_slice())?;
    let relinked = relink(alloc, rows, x, row, new)?;
    Ok(Touched {
        removed,
        added,
        relinked,
    })
}
