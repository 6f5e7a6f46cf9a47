//! What may have a link or a definer: rows of the base that have it, and changed ones.

ghost use Rattle.std.specs.Prelude.{◌≡◌, ◌||◌};
ghost use Rattle.std.specs.FinMap as map;
ghost use Rattle.moo_rows.specs.{Links.{IsFirst, is_definer}, Maps.{object_cmp, prop_cmp, slot_cmp}};
ghost use Rattle.moo_rows.specs.{Named.{is_named_by, name_hash, named_cmp}, Ordered.{contents}};
ghost use Rattle.moo_memory.specs.{Either.{is_candidate_of_either}, Forgotten.{has_key}};

use crate::links::next_defined;
use crate::names::next_tagged;
use crate::own_links::OwnLinks;
use moo_rows::{Link, ObjRow, PropId, Rows, ordered};
use moo_value::ObjNo;
use std::collections::BTreeMap;

/// The least object past `after` that has the link in the base, or is changed and to be looked at for the link; `None` if there is no such
/// object. Takes no memory.
pub(crate) fn next_linked_of_either<R: Rows>(
    base: &R,
    changes: &BTreeMap<ObjNo, Option<ObjRow>>,
    links: &OwnLinks,
    link: Link,
    after: ObjNo,
) -> Option<ObjNo>
    ensures { IsFirst object_cmp
        (is_candidate_of_either (map.get (R.held base.now).maps.objects) (contents object_cmp changes.now) links.now link)
        after result }
{
    ordered::least(
        base.next_linked(link, after),
        links.next(changes, link, after),
    )
}

/// The least property past `after` that x defines in the base, or may define among the changes; `None` if there is no such property. Takes
/// no memory.
pub(crate) fn next_defined_of_either<R: Rows>(
    base: &R,
    definers: &BTreeMap<(ObjNo, PropId), ()>,
    x: ObjNo,
    after: PropId,
) -> Option<PropId>
    ensures { IsFirst prop_cmp (λ q. is_definer (R.held base.now).maps x q || has_key slot_cmp definers.now (x, q)) after result }
{
    ordered::least(
        base.next_defined(x, after),
        next_defined(definers, x, after),
    )
}

/// The least property past `after` that x defines under the name in the base, or may define so among the changes, where it is kept for the
/// hash of the name; `None` if there is no such property. Takes no memory.
pub(crate) fn next_named_of_either<R: Rows>(
    base: &R,
    names: &BTreeMap<((ObjNo, u64), PropId), ()>,
    x: ObjNo,
    name: &[u8],
    hash: u64,
    after: PropId,
) -> Option<PropId>
    // The hash is that of the name.
    requires { hash ≡ name_hash name.now }
    ensures { IsFirst prop_cmp
        (λ q. is_named_by (R.held base.now).maps x name.now q || has_key named_cmp names.now ((x, name_hash name.now), q))
        after result }
{
    ordered::least(
        base.next_named(x, name, hash, after),
        next_tagged(names, (x, hash), after),
    )
}
