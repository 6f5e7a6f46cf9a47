//! A small tree: #4 under #1 defines a = 10; #5 under #4 defines b = 20; #6 under #5 has b set to 21; #7 under #1 defines
//! c = 30. The numbers of a, b and c are 1, 2 and 3.

ghost use Rattle.std.specs.Prelude.{IfOk, OnOk};
ghost use Rattle.moo_world.specs.Rows.{IsGood};

use super::counting::{Counting, NONE};
use super::steps::{READ, define_integer, make_next, set};
use moo_memory::{Flat, opening_world};
use moo_rows::{PropId, Rows};
use moo_value::{LiteralFault, ObjNo};
use moo_world::laws::good_opening;
use std::alloc::{AllocError, Global};
use std::process::Abort;

/// Makes the small tree in rows that hold the opening world. They are borrowed, so that nothing is let go if this ends early.
fn plant<R: Rows>(rt: &impl Abort, alloc: Global, rows: &mut R) -> Result<(), LiteralFault>
    requires { IsGood (R.held rows.old).maps }
    ensures { OnOk result (IsGood (R.held rows.new).maps) }
{
    assert!(rt; make_next(rt, alloc, rows, 1)? == ObjNo(4));
    assert!(rt; make_next(rt, alloc, rows, 4)? == ObjNo(5));
    assert!(rt; make_next(rt, alloc, rows, 5)? == ObjNo(6));
    assert!(rt; make_next(rt, alloc, rows, 1)? == ObjNo(7));
    assert!(rt; define_integer(rt, alloc, rows, 4, b"a", 10, READ)? == PropId(1));
    assert!(rt; define_integer(rt, alloc, rows, 5, b"b", 20, READ)? == PropId(2));
    assert!(rt; define_integer(rt, alloc, rows, 7, b"c", 30, READ)? == PropId(3));
    set(rt, alloc, rows, 6, b"b", 21)
}

/// The rows that a new world begins with, as rows that calls may be run on.
fn opening(alloc: Global) -> Result<Flat, AllocError>
    ensures { IfOk result (λ rows. IsGood rows.maps) }
{
    let rows = opening_world(alloc)?;
    good_opening();
    Ok(rows)
}

/// Rows that hold the opening world with the small tree in it, and that have counted nothing yet.
pub(super) fn new_tree(rt: &impl Abort, alloc: Global) -> Result<Counting, LiteralFault>
    ensures { IfOk result (λ rows. IsGood rows.rows.maps) }
{
    let mut rows = Counting {
        rows: opening(alloc)?,
        counts: NONE,
    };
    plant(rt, alloc, &mut rows)?;
    rows.take_counts();
    Ok(rows)
}
