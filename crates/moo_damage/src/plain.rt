//! One look at each object, by which the numbers and the links of most worlds are known to be right.

ghost use Rattle.std.specs.Prelude.{◌≡◌, IsTrue, IfOk, true};
ghost use Rattle.moo_damage.specs.{Damage.{is_object_past, is_lost, LinksHold}, First.{IsLeastPassing}, Noted.{IsFirstLoop}};
ghost use Rattle.moo_damage.specs.Plain.{ArePlain, is_plain_object};

use crate::checks::{NumberedRow, first_lost, first_past};
use crate::first::first_bad;
use crate::trees::{TreeLink, first_loop, goes_down};
use moo_rows::{ObjRow, Rows};
use moo_value::ObjNo;
use std::alloc::{AllocError, Global};

/// Whether one look shows that an object is right: its number was given, and both of its links go down.
fn is_plain_object<R: Rows>(rows: &R, x: ObjNo, row: &ObjRow) -> bool
    ensures { result ≡ is_plain_object (R.held rows.now).maps x row.now }
{
    if ObjRow::is_past(rows.head(), x) {
        return false;
    }
    if !goes_down(rows, TreeLink::Parent, x, row) {
        return false;
    }
    goes_down(rows, TreeLink::Location, x, row)
}

/// Whether one look at each object shows that it is right. Then none has a number that was never given, a link that names no object, or a
/// chain without an end.
pub(crate) fn are_plain<R: Rows>(rows: &R) -> bool
    ensures { IsTrue result → ArePlain (R.held rows.now).maps }
{
    first_bad::<ObjRow, R, _>(rows, |x, row| !is_plain_object(rows, x, row)).is_none()
}

/// The least object whose number was never given; `None` if there is no such object, as is known without a look if `are_plain`.
pub(crate) fn past_object<R: Rows>(rows: &R, are_plain: bool) -> Option<ObjNo>
    // `are_plain` is true only if one look at each object shows that it is right.
    requires { are_plain ≡ true → ArePlain (R.held rows.now).maps }
    ensures { IsLeastPassing (R.held rows.now).maps.objects (λ x _. is_object_past (R.held rows.now).maps.head x) result }
{
    if are_plain {
        return None;
    }
    first_past::<ObjRow, R>(rows)
}

/// The least object whose link names neither an object nor `#-1`; `None` if there is no such object, as is known without a look if
/// `are_plain`.
pub(crate) fn lost_object<R: Rows>(rows: &R, link: TreeLink, are_plain: bool) -> Option<ObjNo>
    // `are_plain` is true only if one look at each object shows that it is right.
    requires { are_plain ≡ true → ArePlain (R.held rows.now).maps }
    ensures { IsLeastPassing (R.held rows.now).maps.objects (λ _ row. is_lost link (R.held rows.now).maps row) result }
{
    if are_plain {
        return None;
    }
    first_lost(rows, link)
}

/// The least object whose chain of links doesn't end; `None` if there is no such object, as is known if `are_plain`. AllocError: memory ran
/// out.
pub(crate) fn looping_object<R: Rows>(
    alloc: Global,
    rows: &R,
    link: TreeLink,
    are_plain: bool,
) -> Result<Option<ObjNo>, AllocError>
    // Each link names an object or `#-1`.
    requires links { LinksHold link (R.held rows.now).maps }
    // `are_plain` is true only if one look at each object shows that it is right.
    requires plain { are_plain ≡ true → ArePlain (R.held rows.now).maps }
    ensures { IfOk result (IsFirstLoop link (R.held rows.now).maps) }
{
    if are_plain {
        return Ok(None);
    }
    first_loop(alloc, rows, link)
}
