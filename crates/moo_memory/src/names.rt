//! Properties that may have a name, and whose rows are still to be looked at. They are kept by tag: a definer, and the hash of a name.

ghost use Rattle.std.specs.Prelude.{◌≡◌, ◌↔◌, true, Some, option_map, IsTrue, OnOk};
ghost use Rattle.moo_rows.specs.{declared.row.PropId.{PropId}, Links.{IsFirst}, Maps.{prop_cmp, slot_cmp}, Ordered.{contents}};
ghost use Rattle.moo_rows.specs.Named.{is_alike, named_cmp, row_named, tag_of};
ghost use Rattle.moo_memory.specs.Forgotten.{AddsAtMost, ForgetsKey, has_key};

use moo_rows::{PropId, PropRow, name_hash, ordered};
use moo_value::ObjNo;
use std::alloc::AllocError;
use std::collections::BTreeMap;

/// Whether two names are equal but for ASCII case.
fn is_alike(first: &[u8], second: &[u8]) -> bool
    ensures { result ≡ is_alike first.now second.now }
{
    first.eq_ignore_ascii_case(second)
}

/// Whether there is a row of a property, and x defines the property under the name, ASCII case aside.
pub fn row_named(row: Option<&PropRow>, x: ObjNo, name: &[u8]) -> bool
    ensures { result ≡ row_named x name.now (option_map (λ row. row.now) row.entry) }
{
    match row {
        None => false,
        Some(row) => row.definer == x && is_alike(row.name.bytes(), name),
    }
}

/// The tag of a property: its definer and the hash of its name.
pub fn tag_of(row: &PropRow) -> (ObjNo, u64)
    ensures { result ≡ tag_of row.now }
{
    (row.definer, name_hash(row.name.bytes()))
}

/// The tag of the property of a row; `None` if there is no row.
pub fn tag_if(row: Option<&PropRow>) -> Option<(ObjNo, u64)>
    ensures { result ≡ option_map tag_of (option_map (λ row. row.now) row.entry) }
{
    match row {
        None => None,
        Some(row) => Some(tag_of(row)),
    }
}

/// Whether two tags have one definer and one hash.
fn same_tag(one: (ObjNo, u64), other: (ObjNo, u64)) -> bool
    ensures { IsTrue result ↔ (one ≡ other) }
{
    one == other
}

/// The least property past `after` that is kept for a tag, or `None` if there is no such property. Takes no memory.
pub fn next_tagged(
    names: &BTreeMap<((ObjNo, u64), PropId), ()>,
    tag: (ObjNo, u64),
    after: PropId,
) -> Option<PropId>
    ensures { IsFirst prop_cmp (λ q. has_key named_cmp names.now (tag, q)) after result }
{
    let (of, key) = ordered::next(names, Some((tag, after)))?;
    if same_tag(of, tag) { Some(key) } else { None }
}

/// Whether there is a tag that stays, and it is `tag`.
fn is_tag(stays: Option<(ObjNo, u64)>, tag: (ObjNo, u64)) -> bool
    ensures { IsTrue result ↔ (stays ≡ Some tag) }
{
    match stays {
        None => false,
        Some(one) => same_tag(one, tag),
    }
}

/// Keeps a property no longer for the tag that it had, `was`, unless `stays`, its tag after the change, equals it. A tag is a definer
/// with the hash of a name; `None` stands for no tag. Takes no memory.
pub fn forget_tagged(
    names: &mut BTreeMap<((ObjNo, u64), PropId), ()>,
    was: Option<(ObjNo, u64)>,
    stays: Option<(ObjNo, u64)>,
    key: PropId,
)
    ensures { ForgetsKey key was stays (contents named_cmp names.old) (contents named_cmp names.new) }
{
    let was = match was {
        None => return,
        Some(was) => was,
    };
    if is_tag(stays, was) {
        return;
    }
    ordered::remove(names, (was, key));
}

/// Keeps a property for its definer and for its tag, which has the definer too. The only error is a lack of memory, after which it may be
/// kept for its definer alone.
pub fn keep_property(
    definers: &mut BTreeMap<(ObjNo, PropId), ()>,
    names: &mut BTreeMap<((ObjNo, u64), PropId), ()>,
    tag: (ObjNo, u64),
    key: PropId,
) -> Result<(), AllocError>
    // Among the definers nothing is lost, and at most this property is new.
    ensures definers { AddsAtMost (tag.0, key) (contents slot_cmp definers.old) (contents slot_cmp definers.new) }
    // Among the names nothing is lost, and at most this property is new.
    ensures names { AddsAtMost (tag, key) (contents named_cmp names.old) (contents named_cmp names.new) }
    // Without an error, the property is among both.
    ensures both { OnOk result ((has_key slot_cmp definers.new (tag.0, key) ≡ true) × (has_key named_cmp names.new (tag, key) ≡ true)) }
{
    ordered::put(definers, (tag.0, key), ())?;
    ordered::put(names, (tag, key), ())
}
