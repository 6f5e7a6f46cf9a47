//! The properties that an object has, by the hashes of their names. Many names are looked up among them in one walk over its slots.

ghost use Rattle.std.specs.{Prelude.{◌≡◌, true, Some, is_some, IfOk, OnOk}, FinMap.{get}};
ghost use Rattle.moo_rows.specs.{declared.row.PropId.{PropId}, declared.row.PropRow.{PropRow}, Links.{IsFirst}, Maps.{prop_cmp}};
ghost use Rattle.moo_rows.specs.{Named.{name_hash}, Ordered.{contents}};
ghost use Rattle.moo_world.specs.{Objects.{folded}, Rows.{world_of, IsGood}, World.{slot_of}};
ghost use Rattle.moo_props.specs.Hashed.{HoldsNames, hashed_cmp, has_under_name};

use moo_rows::{PropId, Rows, each_slot_of, go_on, name_hash, ordered};
use moo_value::{MooStr, ObjNo};
use std::alloc::{AllocError, Global};
use std::collections::BTreeMap;

/// Keeps a property for the hash of its name; nothing is kept if there is no such property. The only error is a lack of memory.
fn keep_name<R: Rows>(
    rows: &R,
    id: PropId,
    names: &mut BTreeMap<(u64, PropId), ()>,
) -> Result<(), AllocError>
    // Each property that was kept for a hash still is.
    ensures kept { OnOk result ((hash : _) (other : PropId) → is_some (get (contents hashed_cmp names.old) (hash, other)) ≡ true →
        is_some (get (contents hashed_cmp names.new) (hash, other)) ≡ true) }
    // The property, if it has a row, is kept for the hash of its name.
    ensures there { OnOk result ((row : PropRow) → get (R.held rows.now).maps.props id ≡ Some row →
        is_some (get (contents hashed_cmp names.new) (name_hash row.name, id)) ≡ true) }
{
    match rows.prop(id) {
        None => Ok(()),
        Some(row) => ordered::put(names, (name_hash(row.name.bytes()), id), ()),
    }
}

/// The properties that x has, by the hashes of their names: m log m steps for m properties. The only error is a lack of memory.
pub(crate) fn names_of<R: Rows>(
    alloc: Global,
    rows: &R,
    x: ObjNo,
) -> Result<BTreeMap<(u64, PropId), ()>, AllocError>
    // The rows are good: sound rows of a well formed world, and petitions as they may be beside it.
    requires { IsGood (R.held rows.now).maps }
    ensures { IfOk result (λ names. HoldsNames (R.held rows.now).maps x (contents hashed_cmp names)) }
{
    let mut names = BTreeMap::new(alloc);
    for (key, _slot) in each_slot_of(rows, x, PropId(0)) {
        go_on(rows)?;
        keep_name(rows, key.1, &mut names)?;
    }
    Ok(names)
}

/// The least property past `after` that is kept for a hash, or `None` if there is no such property. Takes no memory.
fn next_hashed(names: &BTreeMap<(u64, PropId), ()>, hash: u64, after: PropId) -> Option<PropId>
    ensures { IsFirst prop_cmp (λ id. is_some (get (contents hashed_cmp names.now) (hash, id))) after result }
{
    let (of, id) = ordered::next(names, Some((hash, after)))?;
    if of == hash { Some(id) } else { None }
}

/// Whether x has a slot of the property, and the property has the name, ASCII case aside. Takes no memory.
fn has_under_name<R: Rows>(rows: &R, x: ObjNo, name: &[u8], id: PropId) -> bool
    ensures { result ≡ has_under_name (R.held rows.now).maps x name.now id }
{
    match rows.prop(id) {
        None => false,
        Some(row) => { row.name.bytes().eq_ignore_ascii_case(name) && rows.slot((x, id)).is_some() }
    }
}

/// Whether x has a property of the name. It looks only at the properties that `names` keeps for the hash of the name. Takes no memory.
pub(crate) fn has_name<R: Rows>(
    rows: &R,
    x: ObjNo,
    names: &BTreeMap<(u64, PropId), ()>,
    name: &MooStr,
) -> bool
    // The rows are good: sound rows of a well formed world, and petitions as they may be beside it.
    requires good { IsGood (R.held rows.now).maps }
    // `names` holds each property of which x has a slot, by the hash of its name.
    requires names { HoldsNames (R.held rows.now).maps x (contents hashed_cmp names.now) }
    ensures { result ≡ is_some (slot_of (world_of (R.held rows.now).maps) x (folded name.now)) }
{
    let hash = name_hash(name.bytes());
    let mut last = PropId(0);
    while let Some(id) = next_hashed(names, hash, last) {
        if has_under_name(rows, x, name.bytes(), id) {
            return true;
        }
        last = id;
    }
    false
}
