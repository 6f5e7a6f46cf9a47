//! Changes of parent in the small tree.
//!
//! What may end early borrows the rows, since each way out of a function is proved with all that it holds.

ghost use Rattle.std.specs.Prelude.{OnOk};
ghost use Rattle.moo_world.specs.Rows.{IsGood};

use super::counting::{Counts, NONE};
use super::steps::{READ, WIZARD, define_integer, give, make_next, move_under, read, set, slot};
use super::tree::new_tree;
use moo_rows::{Bits, PropId, Rows};
use moo_value::{LiteralFault, ObjNo};
use std::alloc::Global;
use std::process::Abort;

/// The slots that a change of parent takes away and brings, and the objects that it gives another parent.
#[derive(Clone, Copy)]
struct Touches<'a> {
    removed: &'a [(ObjNo, PropId)],
    added: &'a [(ObjNo, PropId)],
    relinked: &'a [ObjNo],
}

/// Puts x under another parent, and tests that this touches these slots and objects alone.
fn moved_touching<R: Rows>(
    rt: &impl Abort,
    alloc: Global,
    rows: &mut R,
    x: i32,
    new: i32,
    want: Touches<'_>,
) -> Result<(), LiteralFault>
    requires { IsGood (R.held rows.old).maps }
    ensures { OnOk result (IsGood (R.held rows.new).maps) }
{
    let touched = move_under(rt, alloc, rows, x, new)?;
    assert!(rt; touched.removed.items() == want.removed);
    assert!(rt; touched.added.items() == want.added);
    assert!(rt; touched.relinked.items() == want.relinked);
    Ok(())
}

/// Puts #5 under #7: it and #6 lose the slot of a and get one of c.
fn leave_and_gain<R: Rows>(rt: &impl Abort, alloc: Global, rows: &mut R) -> Result<(), LiteralFault>
    requires { IsGood (R.held rows.old).maps }
{
    let touches = Touches {
        removed: &[(ObjNo(5), PropId(1)), (ObjNo(6), PropId(1))],
        added: &[(ObjNo(5), PropId(3)), (ObjNo(6), PropId(3))],
        relinked: &[ObjNo(5)],
    };
    moved_touching(rt, alloc, rows, 5, 7, touches)?;
    let readings = [
        (6, "b", Some(21)),
        (6, "c", Some(30)),
        (5, "a", None),
        (6, "a", None),
    ];
    assert!(rt; read(alloc, rows, &readings)?);
    assert!(rt; slot(alloc, rows, 6, b"c")? == Some((WIZARD, READ, true)));
    Ok(())
}

#[test]
fn a_subtree_loses_what_it_leaves_and_gains_what_it_comes_under(
    rt: HostRuntime,
) -> Result<(), LiteralFault> {
    let mut rows = new_tree(&rt, rt.alloc())?;
    leave_and_gain(&rt, rt.alloc(), &mut rows)?;
    let counts = Counts {
        objects: (1, 0),
        slots: (2, 2),
        ..NONE
    };
    assert!(rt; rows.take_counts() == counts);
    Ok(())
}

/// Puts #6 under #4, the parent of its parent: it loses the slot of b and keeps that of a.
fn stay_with_grandparent<R: Rows>(
    rt: &impl Abort,
    alloc: Global,
    rows: &mut R,
) -> Result<(), LiteralFault>
    requires { IsGood (R.held rows.old).maps }
{
    let touches = Touches {
        removed: &[(ObjNo(6), PropId(2))],
        added: &[],
        relinked: &[ObjNo(6)],
    };
    moved_touching(rt, alloc, rows, 6, 4, touches)?;
    assert!(rt; read(alloc, rows, &[(6, "a", Some(10))])?);
    Ok(())
}

#[test]
fn what_is_shared_with_a_grandparent_stays(rt: HostRuntime) -> Result<(), LiteralFault> {
    stay_with_grandparent(&rt, rt.alloc(), &mut new_tree(&rt, rt.alloc())?)
}

/// Puts #5 under #4, which is its parent already: nothing is touched.
fn stay<R: Rows>(rt: &impl Abort, alloc: Global, rows: &mut R) -> Result<(), LiteralFault>
    requires { IsGood (R.held rows.old).maps }
{
    let touches = Touches {
        removed: &[],
        added: &[],
        relinked: &[],
    };
    moved_touching(rt, alloc, rows, 5, 4, touches)
}

#[test]
fn nothing_is_written_under_the_present_parent(rt: HostRuntime) -> Result<(), LiteralFault> {
    let mut rows = new_tree(&rt, rt.alloc())?;
    stay(&rt, rt.alloc(), &mut rows)?;
    assert!(rt; rows.take_counts() == NONE);
    Ok(())
}

/// Sets a on #6, and puts #5 under #7 and back under #4: a on #6 is clear after that.
fn there_and_back<R: Rows>(rt: &impl Abort, alloc: Global, rows: &mut R) -> Result<(), LiteralFault>
    requires { IsGood (R.held rows.old).maps }
{
    set(rt, alloc, rows, 6, b"a", 12)?;
    move_under(rt, alloc, rows, 5, 7)?;
    let touches = Touches {
        removed: &[(ObjNo(5), PropId(3)), (ObjNo(6), PropId(3))],
        added: &[(ObjNo(5), PropId(1)), (ObjNo(6), PropId(1))],
        relinked: &[ObjNo(5)],
    };
    moved_touching(rt, alloc, rows, 5, 4, touches)?;
    assert!(rt; slot(alloc, rows, 6, b"a")? == Some((WIZARD, READ, true)));
    assert!(rt; read(alloc, rows, &[(6, "a", Some(10))])?);
    Ok(())
}

#[test]
fn a_value_is_gone_after_the_way_there_and_back(rt: HostRuntime) -> Result<(), LiteralFault> {
    there_and_back(&rt, rt.alloc(), &mut new_tree(&rt, rt.alloc())?)
}

/// Readable, and owned by the owner of the object on descendants.
const CHANGEABLE: Bits = Bits {
    r: true,
    w: false,
    c: true,
};

/// Defines d on #7, with the right c; makes #8 under it, gives d there to #0, without c; and puts #5 under #8.
fn under_the_eighth<R: Rows>(
    rt: &impl Abort,
    alloc: Global,
    rows: &mut R,
) -> Result<(), LiteralFault>
    requires { IsGood (R.held rows.old).maps }
    ensures { OnOk result (IsGood (R.held rows.new).maps) }
{
    define_integer(rt, alloc, rows, 7, b"d", 40, CHANGEABLE)?;
    assert!(rt; make_next(rt, alloc, rows, 7)? == ObjNo(8));
    give(rt, alloc, rows, 8, b"d", ObjNo(0), READ)?;
    move_under(rt, alloc, rows, 5, 8)?;
    Ok(())
}

/// Puts #5 under #8, whose slot of d has another owner and other bits than that of its definer: #5 and #6 get the owner and the bits of #8.
fn come_under_the_eighth<R: Rows>(
    rt: &impl Abort,
    alloc: Global,
    rows: &mut R,
) -> Result<(), LiteralFault>
    requires { IsGood (R.held rows.old).maps }
{
    under_the_eighth(rt, alloc, rows)?;
    for x in [5, 6] {
        assert!(rt;
            slot(alloc, rows, x, b"d")? == Some((ObjNo(0), READ, true)),
            "at {x}"
        );
    }
    assert!(rt; slot(alloc, rows, 5, b"c")? == Some((WIZARD, READ, true)));
    Ok(())
}

#[test]
fn a_fresh_slot_is_like_that_of_the_new_parent(rt: HostRuntime) -> Result<(), LiteralFault> {
    come_under_the_eighth(&rt, rt.alloc(), &mut new_tree(&rt, rt.alloc())?)
}
