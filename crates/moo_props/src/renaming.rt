//! Another name for a property.

ghost use Rattle.std.specs.Prelude.{◌≡◌, true, false, OnOk, OnErr};
ghost use Rattle.moo_world.specs.{Changes.{clashes, property_renamed}, Rows.{world_of, IsGood}, World.{is_property_name}, Keeps.{Keeps}};
ghost use Rattle.moo_props.specs.{Names.{defines, spelling_of}, Renaming.{with_name}};

use moo_rows::{PropId, PropRow, Rows};
use moo_value::{MooStr, ObjNo};
use std::alloc::AllocError;

/// Gives a property that x defines another name, which no property that x, an ancestor or a descendant defines may have
/// (so none that differs from the old one in case alone). The name takes the old one's place among those that x defines,
/// and x and its descendants have the property under it. All else stays.
///
/// The only error is a lack of memory, after which the rows are as they were.
///
/// LambdaMOO Programmer's Manual, 'Operations on Properties': `set_property_info`.
pub fn rename<R: Rows>(rows: &mut R, x: ObjNo, id: PropId, name: MooStr) -> Result<(), AllocError>
    // The rows are good: sound rows of a well formed world, and petitions as they may be beside it.
    requires good { IsGood (R.held rows.old).maps }
    // x defines the property.
    requires own { defines (R.held rows.old).maps x id ≡ true }
    // The new name is one that a property may have.
    requires name { is_property_name name ≡ true }
    // Neither x nor an ancestor or a descendant of it defines a property of the new name.
    requires free { clashes (world_of (R.held rows.old).maps) x name ≡ false }
    // Of the rows only that of the property changes: it has the new name, and x as its definer.
    ensures rows { OnOk result (R.held rows.new ≡ with_name x id name (R.held rows.old)) }
    // The world has the property under the new name, on x and on each descendant.
    ensures world { OnOk result (world_of (R.held rows.new).maps
        ≡ property_renamed (world_of (R.held rows.old).maps) x (spelling_of (R.held rows.old).maps id) name) }
    // The rows are those of a well formed world; what stays keeps its number; petitions, count of batches and what the rows are over stay.
    ensures kept { OnOk result (Keeps (R.held rows.old) (R.held rows.new)) }
    // After an error nothing has changed.
    ensures err { OnErr result (R.held rows.new ≡ R.held rows.old) }
{
    rows.put_prop(id, PropRow { definer: x, name })?;
    Ok(())
}
