//! The end of an object of the small tree.

ghost use Rattle.moo_world.specs.Rows.{IsGood};

use super::counting::{Counts, NONE};
use super::steps::{drop_one, read};
use super::tree::new_tree;
use moo_props::Dropped;
use moo_rows::{PropId, Rows};
use moo_tree::valid;
use moo_value::{LiteralFault, ObjNo};
use std::alloc::Global;
use std::process::Abort;

/// Tests which slots, properties, verbs and links go with #5, as the drop of it tells them.
fn look_at_gone(rt: &impl Abort, gone: &Dropped) {
    let removed = [
        (ObjNo(5), PropId(1)),
        (ObjNo(5), PropId(2)),
        (ObjNo(6), PropId(2)),
    ];
    assert!(rt; gone.removed.items() == removed.as_slice());
    assert!(rt; gone.props.items() == [PropId(2)].as_slice());
    assert!(rt; gone.verbs.items().is_empty());
    assert!(rt; gone.relinked.items() == [ObjNo(6)].as_slice());
}

/// Whether an object is there, and has this parent.
fn has_parent<R: Rows>(rows: &R, x: ObjNo, parent: ObjNo) -> bool {
    match rows.object(x) {
        Some(row) => row.parent == parent,
        None => false,
    }
}

/// Drops #5, and tests what is then there of it, of its child #6 and of its property.
fn drop_fifth<R: Rows>(rt: &impl Abort, alloc: Global, rows: &mut R) -> Result<(), LiteralFault>
    requires { IsGood (R.held rows.old).maps }
{
    let gone = drop_one(rt, alloc, rows, 5)?;
    look_at_gone(rt, &gone);
    drop(gone);
    assert!(rt; !valid(rows, ObjNo(5)));
    assert!(rt; valid(rows, ObjNo(6)), "#6 stays");
    assert!(rt; has_parent(rows, ObjNo(6), ObjNo(4)));
    assert!(rt; read(alloc, rows, &[(6, "a", Some(10)), (6, "b", None)])?);
    Ok(())
}

#[test]
fn an_object_goes_with_all_its_slots_and_its_own_on_descendants(
    rt: HostRuntime,
) -> Result<(), LiteralFault> {
    let mut rows = new_tree(&rt, rt.alloc())?;
    drop_fifth(&rt, rt.alloc(), &mut rows)?;
    let counts = Counts {
        objects: (1, 1),
        props: (0, 1),
        slots: (0, 3),
        ..NONE
    };
    assert!(rt; rows.take_counts() == counts);
    Ok(())
}
