//! Objects that have a link, listed.

ghost use Rattle.std.specs.Prelude.{◌≡◌, ◌++◌, map as map_list, OnOk};
ghost use Rattle.moo_rows.specs.{declared.row.Link.{Link}, Links.{is_linked, linked_left, tie_cmp}, Maps.{Maps}};
ghost use Rattle.moo_memory.specs.Forgotten.{has_key};

use moo_value::ObjNo;
use std::alloc::AllocError;
use std::collections::BTreeMap;
use std::ops::Bound;

/// Appends to a list the objects past `after` that are paired with x, ascending. One cursor goes over the pairs. An `Err` is a lack of
/// memory, after which some may be listed.
pub(crate) fn list_tied(
    pairs: &BTreeMap<(ObjNo, ObjNo), ()>,
    x: ObjNo,
    after: ObjNo,
    list: &mut Vec<ObjNo>,
) -> Result<(), AllocError>
    // If the objects that are paired with x are those that have a link, the objects past `after` that have the link are appended.
    ensures { (maps : Maps) (link : Link) → ((q : ObjNo) → has_key tie_cmp pairs.now (x, q) ≡ is_linked maps link q) →
        OnOk result (list.new.items ≡ list.old.items ++ map_list (λ e. e.0) (linked_left link after maps)) }
{
    for (pair, _) in pairs.range((Bound::Excluded((x, after)), Bound::Unbounded)) {
        if pair.0 != x {
            break;
        }
        list.push(pair.1)?;
    }
    Ok(())
}
