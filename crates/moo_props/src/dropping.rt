//! The end of an object.
//! LambdaMOO Programmer's Manual, 'Fundamental Operations on Objects': `recycle`.

ghost use Rattle.std.specs.{Prelude.{◌≡◌, ◌≤◌, ◌+◌, [], ◌∷◌, true, if◌then◌else◌, IfOk, OnOk}, FinMap.{get, entries}};
ghost use Rattle.moo_rows.specs.{Links.{IsFirst}, Maps.{object_cmp, without_object}, Walk.{slots_of_left}};
ghost use Rattle.moo_tree.specs.Under.{owners_under};
ghost use Rattle.moo_world.specs.{Objects.{same_object}, Recycling.{recycled}, Rows.{world_of, IsGood}, World.{is_object}, Keeps.{Keeps}};
ghost use Rattle.moo_props.specs.Dropped.{ListsDropped, LeavesDropped, rows_dropped};
ghost use Rattle.moo_props.specs.Dropping.{row_linked, row_released, rows_released, linked_among, verbs_among, ids_among, props_removed};
ghost use Rattle.moo_props.specs.{Dropping.{verbs_removed}, Slots.{ids_for, keys_by, slots_moved}, Touched.{props_of}};

use crate::slots::{SlotKeys, exchange_slots, keys_by};
use moo_rows::ordered::least;
use moo_rows::{
    Link, ObjList, PropId, Row, Rows, VerbId, each_defined, each_slot_of, each_verb_of, go_on,
};
use moo_tree::owners_under;
use moo_value::ObjNo;
use std::alloc::{AllocError, Global};
use std::marker::Model;

/// Properties, in order.
#[derive(Drop)]
pub struct PropIds {
    items: Vec<PropId>,
}

impl Model for PropIds {
    ghost use Rattle.std.specs.Prelude.{List};
    ghost use Rattle.moo_rows.specs.declared.row.PropId.{PropId};

    ghost Value = { List PropId };

    ghost view = { λ a. a.items.items };
}

impl PropIds {
    /// The properties, in order.
    pub fn items(&self) -> &[PropId]
        ensures { result.now ≡ self.now }
    {
        self.items.as_slice()
    }
}

/// Keys of verbs, in order.
#[derive(Drop)]
pub struct VerbKeys {
    items: Vec<(ObjNo, VerbId)>,
}

impl Model for VerbKeys {
    ghost use Rattle.std.specs.Prelude.{List};
    ghost use Rattle.moo_value.specs.declared.value.ObjNo.{ObjNo};
    ghost use Rattle.moo_rows.specs.declared.row.VerbId.{VerbId};

    ghost Value = { List (ObjNo × VerbId) };

    ghost view = { λ a. a.items.items };
}

impl VerbKeys {
    /// The keys, in order.
    pub fn items(&self) -> &[(ObjNo, VerbId)]
        ensures { result.now ≡ self.now }
    {
        self.items.as_slice()
    }
}

/// What went with an object: the keys of slots, properties and verbs; and the objects whose parent or location it was.
#[derive(Drop)]
pub struct Dropped {
    pub removed: SlotKeys,
    pub props: PropIds,
    pub verbs: VerbKeys,
    pub relinked: ObjList,
}

/// The properties of which x has a slot, ascending. The only error is a lack of memory.
fn property_ids_with_slot<R: Rows>(
    alloc: Global,
    rows: &R,
    x: ObjNo,
) -> Result<Vec<PropId>, AllocError>
    // They are those of the slots of x past the number 0, which no property has.
    ensures { IfOk result (λ v. v.items ≡ ids_among (slots_of_left x (record { 0 = 0 }) (R.held rows.now).maps)) }
{
    let mut found = Vec::new(alloc);
    for (key, _slot) in each_slot_of(rows, x, PropId(0)) {
        go_on(rows)?;
        found.push(key.1)?;
    }
    Ok(found)
}

/// The properties that x itself defines, ascending. The only error is a lack of memory.
fn properties_defined_by<R: Rows>(
    alloc: Global,
    rows: &R,
    x: ObjNo,
) -> Result<Vec<PropId>, AllocError>
    // The rows are good: sound rows of a well formed world, and petitions as they may be beside it.
    requires { IsGood (R.held rows.now).maps }
    ensures { IfOk result (λ v. v.items ≡ props_of (x ∷ []) (R.held rows.now).maps.props) }
{
    let mut found = Vec::new(alloc);
    for (id, _row) in each_defined(rows, x, PropId(0)) {
        go_on(rows)?;
        found.push(id)?;
    }
    Ok(found)
}

/// The keys of the verbs of x, ascending. The only error is a lack of memory.
fn verbs_among<R: Rows>(
    alloc: Global,
    rows: &R,
    x: ObjNo,
) -> Result<Vec<(ObjNo, VerbId)>, AllocError>
    // The rows are good: sound rows of a well formed world, and petitions as they may be beside it.
    requires { IsGood (R.held rows.now).maps }
    ensures { IfOk result (λ v. v.items ≡ verbs_among x (entries (R.held rows.now).maps.verbs)) }
{
    let mut found = Vec::new(alloc);
    for (key, _row) in each_verb_of(rows, x, VerbId(0)) {
        go_on(rows)?;
        found.push(key)?;
    }
    Ok(found)
}

/// The least object past `last` whose parent or location is x, or `None` if there is no such object. Takes no memory.
fn next_linked_to<R: Rows>(rows: &R, x: ObjNo, last: ObjNo) -> Option<ObjNo>
    ensures { IsFirst object_cmp (λ y. row_linked x (get (R.held rows.now).maps.objects y)) last result }
{
    least(
        rows.next_linked(Link::ChildOf(x), last),
        rows.next_linked(Link::Within(x), last),
    )
}

/// The objects whose parent or location is x, ascending. The only error is a lack of memory.
fn linked_among<R: Rows>(alloc: Global, rows: &R, x: ObjNo) -> Result<Vec<ObjNo>, AllocError>
    // The rows are good: sound rows of a well formed world, and petitions as they may be beside it.
    requires { IsGood (R.held rows.now).maps }
    ensures { IfOk result (λ v. v.items ≡ linked_among x (entries (R.held rows.now).maps.objects)) }
{
    let mut found = Vec::new(alloc);
    let mut last = ObjNo(-1);
    while let Some(y) = next_linked_to(rows, x, last) {
        go_on(rows)?;
        found.push(y)?;
        last = y;
    }
    Ok(found)
}

/// Removes all slots of x, and from each object under it the slots of `own`, the properties that x defines. Answers the keys of the slots
/// that went. The only error is a lack of memory.
fn drop_slots_under<R: Rows>(
    alloc: Global,
    rows: &mut R,
    x: ObjNo,
    own: &[PropId],
) -> Result<SlotKeys, AllocError>
    // The rows are good: sound rows of a well formed world, and petitions as they may be beside it.
    requires { IsGood (R.held rows.old).maps }
    // From x the slots of all its properties are gone, and from each object under it those of the properties `own`.
    ensures rows { OnOk result (let old = (R.held rows.old).maps in R.held rows.new
        ≡ slots_moved (ids_for x (ids_among (slots_of_left x (record { 0 = 0 }) old)) own.now) [] (owners_under old x) (R.held rows.old)) }
    // The answer is the keys of the slots that are gone, object by object.
    ensures list { IfOk result (λ keys. let old = (R.held rows.old).maps in keys
        ≡ keys_by (ids_for x (ids_among (slots_of_left x (record { 0 = 0 }) old)) own.now) (owners_under old x)) }
{
    let under = owners_under(alloc, rows, x)?;
    let all = property_ids_with_slot(alloc, rows, x)?;
    exchange_slots(rows, under.as_slice(), x, all.as_slice(), own, &[])?;
    let removed = keys_by(alloc, under.as_slice(), x, all.as_slice(), own)?;
    Ok(removed)
}

/// Removes the rows of these properties, one after another. The only error is a lack of memory.
fn remove_props<R: Rows>(rows: &mut R, ids: &[PropId]) -> Result<(), AllocError>
    ensures { OnOk result (R.held rows.new ≡ props_removed ids.now (R.held rows.old)) }
{
    for id in ids {
        go_on(rows)?;
        rows.remove_prop(*id)?;
    }
    Ok(())
}

/// Removes the rows of these verbs, one after another. The only error is a lack of memory.
fn remove_verbs<R: Rows>(rows: &mut R, keys: &[(ObjNo, VerbId)]) -> Result<(), AllocError>
    ensures { OnOk result (R.held rows.new ≡ verbs_removed keys.now (R.held rows.old)) }
{
    for key in keys {
        go_on(rows)?;
        rows.remove_verb(*key)?;
    }
    Ok(())
}

/// The object that a parent or a location is after x has gone: `to` if `link` was x, and else `link` as before.
#[tactic(auto, unfolding(moo_world::specs::Objects::same_object))]
fn redirect(x: ObjNo, link: ObjNo, to: ObjNo) -> ObjNo
    ensures { result ≡ (if same_object x link then to else link) }
{
    if x == link { to } else { link }
}

/// Puts the row of y without x in it: if its parent was x, it gets `parent`, and if its location was x, it is nowhere. Nothing happens if
/// y isn't an object. The only error is a lack of memory.
fn unlink<R: Rows>(
    alloc: Global,
    rows: &mut R,
    x: ObjNo,
    parent: ObjNo,
    y: ObjNo,
) -> Result<(), AllocError>
    // The row of y, if it has one, is put without x as its parent or location.
    ensures { OnOk result (R.held rows.new ≡ row_released x parent y (R.held rows.old)) }
{
    let mut row = match rows.object(y) {
        None => return Ok(()),
        Some(row) => row.copy(alloc)?,
    };
    row.parent = redirect(x, row.parent, parent);
    row.location = redirect(x, row.location, ObjNo(-1));
    rows.put_object(y, row)?;
    Ok(())
}

/// Releases each of these objects from x, its parent or location, as `unlink` does. The only error is a lack of memory.
fn unlink_all<R: Rows>(
    alloc: Global,
    rows: &mut R,
    x: ObjNo,
    parent: ObjNo,
    objects: &[ObjNo],
) -> Result<(), AllocError>
    // The row of each of the objects is put without x as its parent or location.
    ensures { OnOk result (R.held rows.new ≡ rows_released x parent objects.now (R.held rows.old)) }
{
    for y in objects {
        go_on(rows)?;
        unlink(alloc, rows, x, parent, *y)?;
    }
    Ok(())
}

/// Removes the rows of the properties and the verbs of x, releases the objects whose parent or location it is, and removes its own row. An
/// `Err` is a lack of memory.
fn drop_rows<R: Rows>(
    alloc: Global,
    rows: &mut R,
    x: ObjNo,
    parent: ObjNo,
    own: &[PropId],
    verbs: &[(ObjNo, VerbId)],
    relinked: &[ObjNo],
) -> Result<(), AllocError>
    // The properties `own` go, then the verbs, then the objects `relinked` are released, and last the row of x goes.
    ensures { OnOk result (R.held rows.new
        ≡ without_object (rows_released x parent relinked.now (verbs_removed verbs.now (props_removed own.now (R.held rows.old)))) x) }
{
    remove_props(rows, own)?;
    remove_verbs(rows, verbs)?;
    unlink_all(alloc, rows, x, parent, relinked)?;
    rows.remove_object(x)
}

/// Removes an object with its slots, verbs and properties, and the slots of its properties on its descendants. Its children go to its
/// parent, and what is in it to `#-1`: children and contents are listed as `relinked`, and are still there. Each list is ascending.
///
/// The only error is a lack of memory, after which the rows may be half changed.
pub fn drop_object<R: Rows>(alloc: Global, rows: &mut R, x: ObjNo) -> Result<Dropped, AllocError>
    // The rows are good: sound rows of a well formed world, and petitions as they may be beside it.
    requires good { IsGood (R.held rows.old).maps }
    // x is an object.
    requires object { is_object (world_of (R.held rows.old).maps) x ≡ true }
    // The answer lists what goes with x, and the objects whose parent or location x was, each list ascending.
    ensures lists { IfOk result (ListsDropped (R.held rows.old).maps x) }
    // What goes with x is gone, the objects whose parent or location it was are there, and each row is as the end of x leaves it.
    ensures leaves { OnOk result (LeavesDropped (R.held rows.old).maps x (R.held rows.new).maps) }
    // The world is the one that recycling x leaves.
    ensures world { OnOk result (world_of (R.held rows.new).maps ≡ recycled (world_of (R.held rows.old).maps) x) }
    // The rows are those of a well formed world; what stays keeps its number; petitions, count of batches and what the rows are over stay.
    ensures kept { OnOk result (Keeps (R.held rows.old) (R.held rows.new)) }
    // At most one row is written for each item that is listed, and one for x.
    ensures writes { IfOk result (λ dropped. (R.held rows.new).writes ≤ (R.held rows.old).writes + (rows_dropped dropped + 1)) }
{
    let parent = match rows.object(x) {
        None => unreachable!(),
        Some(row) => row.parent,
    };
    let own = properties_defined_by(alloc, rows, x)?;
    let verbs = verbs_among(alloc, rows, x)?;
    let relinked = linked_among(alloc, rows, x)?;
    let removed = drop_slots_under(alloc, rows, x, own.as_slice())?;
    drop_rows(
        alloc,
        rows,
        x,
        parent,
        own.as_slice(),
        verbs.as_slice(),
        relinked.as_slice(),
    )?;
    Ok(Dropped {
        removed,
        props: PropIds { items: own },
        verbs: VerbKeys { items: verbs },
        relinked: ObjList::from_vec(relinked),
    })
}
