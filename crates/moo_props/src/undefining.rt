//! The end of a property.

ghost use Rattle.std.specs.{Prelude.{◌≡◌, true, OnOk}, FinMap.{remove}};
ghost use Rattle.moo_world.specs.{Changes.{property_removed}, Rows.{world_of, IsGood}, Keeps.{Keeps}};
ghost use Rattle.moo_props.specs.Names.{defines, spelling_of};

use crate::slots::exchange_slots;
use moo_rows::{PropId, Rows};
use moo_tree::owners_under;
use moo_value::ObjNo;
use std::alloc::{AllocError, Global};

/// Removes a property that x defines, from x and all its descendants. Each other property keeps its number.
///
/// The only error is a lack of memory, after which the rows may be half changed.
///
/// LambdaMOO Programmer's Manual, 'Operations on Properties': `delete_property`.
pub fn undefine<R: Rows>(
    alloc: Global,
    rows: &mut R,
    x: ObjNo,
    id: PropId,
) -> Result<(), AllocError>
    // The rows are good: sound rows of a well formed world, and petitions as they may be beside it.
    requires good { IsGood (R.held rows.old).maps }
    // x defines the property.
    requires own { defines (R.held rows.old).maps x id ≡ true }
    // The world has the property no more, neither on x nor on a descendant.
    ensures world { OnOk result (world_of (R.held rows.new).maps
        ≡ property_removed (world_of (R.held rows.old).maps) x (spelling_of (R.held rows.old).maps id)) }
    // The rows are those of a well formed world; what stays keeps its number; petitions, count of batches and what the rows are over stay.
    ensures kept { OnOk result (Keeps (R.held rows.old) (R.held rows.new)) }
    // Of the rows of properties only that of the property is gone.
    ensures props { OnOk result ((R.held rows.new).maps.props ≡ remove (R.held rows.old).maps.props id) }
{
    let under = owners_under(alloc, rows, x)?;
    exchange_slots(rows, under.as_slice(), x, &[id], &[id], &[])?;
    rows.remove_prop(id)?;
    Ok(())
}
