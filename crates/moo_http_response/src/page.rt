//! A page of the list of all objects.

ghost use Rattle.std.specs.Prelude.{◌≡◌, ◌<◌, ◌≤◌, ◌⊎◌, Some, None, IfOk, MatchOption};
ghost use Rattle.moo_http_response.specs.Pages.{before_page, page_of};
ghost use Rattle.moo_rows.specs.Ordered.{IsNext};
ghost use Rattle.moo_world.specs.{Rows.{world_of}, World.{IsTree}};

use crate::entry::{Entries, list_object};
use moo_rows::Rows;
use moo_value::ObjNo;
use std::alloc::{AllocError, Global};

/// How many objects a page has at most.
const MOST: u32 = 1000;

/// Some of the objects, ascending, and the first that follows them.
#[derive(Drop)]
pub struct Page {
    pub objects: Entries,
    pub next: Option<ObjNo>,
}

/// The number before the first one that a page may have: one less than the number that is asked for, and -1 if that is below 0.
fn before_page(from: ObjNo) -> ObjNo
    ensures { result ≡ before_page from }
{
    ObjNo(from.0.max(0) - 1)
}

/// The first object past `last`, for a page on which `count` objects are listed. None if 1,000 are, or no object is past `last`.
fn next_within<R: Rows>(rows: &R, last: ObjNo, count: u32) -> Option<ObjNo>
    ensures { MatchOption result ((1000 ≤ count) ⊎ IsNext (R.held rows.now).maps.objects (Some last) None)
        (λ x. (count < 1000) × IsNext (R.held rows.now).maps.objects (Some last) (Some x)) }
{
    if count < MOST {
        rows.next_object(Some(last))
    } else {
        None
    }
}

/// The objects from a number on, ascending, at most 1,000 of them, and the number of the first that is left out. The only error is a lack
/// of memory.
pub(crate) fn page_of<R: Rows>(alloc: Global, rows: &R, from: ObjNo) -> Result<Page, AllocError>
    // The objects of the rows are a tree of parents.
    requires { IsTree (world_of (R.held rows.now).maps) }
    ensures { IfOk result (λ page. page ≡ page_of (world_of (R.held rows.now).maps) from) }
{
    let mut list = Vec::new(alloc);
    let mut last = before_page(from);
    let mut count = 0;
    while let Some(x) = next_within(rows, last, count) {
        list_object(alloc, rows, x, &mut list)?;
        last = x;
        count += 1;
    }
    Ok(Page {
        objects: Entries::from_vec(list),
        next: rows.next_object(Some(last)),
    })
}
