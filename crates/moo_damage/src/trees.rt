//! Finding chains of links that don't end.

ghost use Rattle.std.specs.{Prelude.{◌≡◌, ◌≤◌, IsTrue, IfOk, IfSome, IfNone, OnOk, true, is_some, length}, FinMap.{entries, get}};
ghost use Rattle.moo_rows.specs.{Ordered.{contents}, Maps.{object_cmp}};
ghost use Rattle.moo_damage.specs.{Damage.{link_of, goes_down, HasEnd, Loops, LinksHold, LinksDescend}, Kinds.{lost_kind, loop_kind}};
ghost use Rattle.moo_damage.specs.Noted.{AllEnd, AreEnding, IsFirstLoop, NotesEnding};

use crate::first::first_bad;
use crate::kind::Kind;
use moo_rows::{ObjRow, Rows, each_object, object_count, ordered};
use moo_tree::is_nothing;
use moo_value::ObjNo;
use std::alloc::{AllocError, Global};
use std::collections::BTreeMap;

/// The two links of an object's row: to its parent, and to its location.
#[derive(Clone, Copy)]
pub enum TreeLink {
    Parent,
    Location,
}

impl TreeLink {
    /// The object that the row links to, `#-1` for none.
    pub(crate) fn link_of(self, row: &ObjRow) -> ObjNo
        ensures { result ≡ link_of self row.now }
    {
        match self {
            TreeLink::Parent => row.parent,
            TreeLink::Location => row.location,
        }
    }

    /// The kind of damage of a link that names no object.
    pub(crate) fn lost_kind(self) -> Kind
        ensures { result ≡ lost_kind self }
    {
        match self {
            TreeLink::Parent => Kind::NoParent,
            TreeLink::Location => Kind::NoPlace,
        }
    }

    /// The kind of damage of a chain of links without an end.
    pub(crate) fn loop_kind(self) -> Kind
        ensures { result ≡ loop_kind self }
    {
        match self {
            TreeLink::Parent => Kind::ParentLoop,
            TreeLink::Location => Kind::PlaceLoop,
        }
    }
}

/// Whether an object is linked to nothing, or to an object that has a lesser number or is linked to nothing.
pub(crate) fn goes_down<R: Rows>(rows: &R, link: TreeLink, x: ObjNo, row: &ObjRow) -> bool
    ensures { result ≡ goes_down link (R.held rows.now).maps x row.now }
{
    let next = link.link_of(row);
    if is_nothing(next) {
        return true;
    }
    match rows.object(next) {
        None => false,
        Some(above) => next < x || is_nothing(link.link_of(above)),
    }
}

/// Whether each object is linked to nothing, or to an object that has a lesser number or is linked to nothing. Then each chain ends.
fn links_descend<R: Rows>(rows: &R, link: TreeLink) -> bool
    ensures { IsTrue result → LinksDescend link (R.held rows.now).maps }
{
    first_bad::<ObjRow, R, _>(rows, |x, row| !goes_down(rows, link, x, row)).is_none()
}

/// The objects from x up its chain of links, before the first whose chain is known to end, or up to the end of the chain; `None` if the
/// chain doesn't end: `count` steps, at least as many as there are objects, meet no end then. The only error is a lack of memory.
fn path_to_end<R: Rows>(
    alloc: Global,
    rows: &R,
    link: TreeLink,
    known: &BTreeMap<ObjNo, ()>,
    count: u64,
    x: ObjNo,
) -> Result<Option<Vec<ObjNo>>, AllocError>
    // Each link names an object or `#-1`.
    requires links { LinksHold link (R.held rows.now).maps }
    // The chains of the objects that are known end.
    requires known { AreEnding link (R.held rows.now).maps (contents object_cmp known.now) }
    // x is an object.
    requires object { is_some (get (R.held rows.now).maps.objects x) ≡ true }
    // There are at most `count` objects.
    requires count { length (entries (R.held rows.now).maps.objects) ≤ count }
    // With a path, the chains of its objects and of x end.
    ensures ends { IfOk result (λ o. IfSome o (λ path.
        AllEnd link (R.held rows.now).maps path.items × HasEnd link (R.held rows.now).maps x)) }
    // Without one, the chain of x doesn't end.
    ensures loops { IfOk result (λ o. IfNone o (Loops link (R.held rows.now).maps x)) }
{
    let mut path = Vec::new(alloc);
    let mut at = x;
    for _ in 0..count {
        let row = match rows.object(at) {
            None => return Ok(Some(path)),
            Some(row) => row,
        };
        if ordered::get(known, at).is_some() {
            return Ok(Some(path));
        }
        path.push(at)?;
        at = link.link_of(row);
    }
    match rows.object(at) {
        None => Ok(Some(path)),
        Some(_) => Ok(None),
    }
}

/// Notes the objects of a path as ones whose chains are known to end. The only error is a lack of memory.
fn note_path(known: &mut BTreeMap<ObjNo, ()>, path: &[ObjNo]) -> Result<(), AllocError>
    ensures { OnOk result (NotesEnding path.now (contents object_cmp known.old) (contents object_cmp known.new)) }
{
    for x in path {
        ordered::put(known, *x, ())?;
    }
    Ok(())
}

/// The least object whose chain of links doesn't end; `None` if there is no such object. The only error is a lack of memory.
///
/// In most worlds each object is linked to one of a lesser number, or to a root as a new world's system object is, and that is looked
/// for first, without any memory. Else each object is climbed over once: the objects whose chains are known to end are noted, and the
/// first object whose chain is longer than there are objects is the answer.
pub fn first_loop<R: Rows>(
    alloc: Global,
    rows: &R,
    link: TreeLink,
) -> Result<Option<ObjNo>, AllocError>
    // Each link names an object or `#-1`.
    requires { LinksHold link (R.held rows.now).maps }
    ensures { IfOk result (IsFirstLoop link (R.held rows.now).maps) }
{
    if links_descend(rows, link) {
        return Ok(None);
    }
    let count = object_count(rows);
    let mut known = BTreeMap::new(alloc);
    for (x, _row) in each_object(rows) {
        match path_to_end(alloc, rows, link, &known, count, x)? {
            None => return Ok(Some(x)),
            Some(path) => note_path(&mut known, &path)?,
        }
    }
    Ok(None)
}
