//! The properties that objects define.

ghost use Rattle.std.specs.Prelude.{◌≡◌, ◌++◌, [], ◌∷◌, OnOk, IfOk, if◌then◌else◌};
ghost use Rattle.moo_dump.specs.Lines.{ListsDefinitions, ids_listed};
ghost use Rattle.moo_world.specs.Objects.{same_object};
ghost use Rattle.moo_value.specs.declared.value.ObjNo.{ObjNo};

use moo_rows::{PropId, Rows, each_prop};
use moo_value::ObjNo;
use std::alloc::{AllocError, Global};
use std::collections::BTreeMap;

/// The properties that each object defines, in the order of definition. An object that defines none needn't be there.
pub(crate) type Definitions = BTreeMap<ObjNo, Vec<PropId>>;

/// The properties that each object defines, by one walk over all properties. The only error is a lack of memory.
pub(crate) fn all_definitions<R: Rows>(alloc: Global, rows: &R) -> Result<Definitions, AllocError>
    ensures { IfOk result (ListsDefinitions (R.held rows.now).maps) }
{
    let mut definitions = BTreeMap::new(alloc);
    for (id, row) in each_prop(rows) {
        add_definition(alloc, &mut definitions, row.definer, id)?;
    }
    Ok(definitions)
}

/// Adds a property that an object defines as the last one of its list. The only error is a lack of memory.
fn add_definition(
    alloc: Global,
    definitions: &mut Definitions,
    definer: ObjNo,
    id: PropId,
) -> Result<(), AllocError>
    // The list of the definer has the property more, as the last, and every other list stays.
    ensures { OnOk result ((d : ObjNo) →
        ids_listed definitions.new d ≡ ids_listed definitions.old d ++ (if same_object definer d then id ∷ [] else [])) }
{
    match definitions.get_mut(&definer) {
        Some(ids) => ids.push(id)?,
        None => {
            definitions.insert(definer, vec![in alloc; id]?)?;
        }
    }
    Ok(())
}

/// The properties that an object defines by these definitions, in the order of definition; none if it isn't in them.
pub(crate) fn ids_listed(definitions: &Definitions, definer: ObjNo) -> &[PropId]
    ensures { result.now ≡ ids_listed definitions.now definer }
{
    match definitions.get(&definer) {
        Some(ids) => ids.as_slice(),
        None => &[],
    }
}
