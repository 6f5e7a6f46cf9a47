//! Changed objects by their links.

ghost use Rattle.std.specs.Prelude.{◌≡◌, true, false, OnOk};
ghost use Rattle.moo_value.specs.declared.value.ObjNo.{ObjNo};
ghost use Rattle.moo_rows.specs.{declared.row.Link.{Link}, Links.{IsFirst, has_link, is_linked}, Maps.{object_cmp}, Ordered.{contents}};
ghost use Rattle.moo_memory.specs.Either.{is_own_candidate, is_that, may_have_own};

use crate::links::{Links, same_ties, ties_of};
use moo_rows::{Link, ObjRow, Rows, Ties, ordered};
use moo_value::ObjNo;
use std::alloc::{AllocError, Global};
use std::cmp::Ordering;
use std::collections::BTreeMap;

/// Which changed objects may have a link. The first one that was changed may have any, and nothing is kept for it: most drafts
/// change one object.
#[derive(Drop)]
pub(crate) struct OwnLinks {
    first: Option<ObjNo>,
    others: Links,
}

/// The object, if there is one and its number is greater than `after`; else `None`.
fn object_past(object: Option<ObjNo>, after: ObjNo) -> Option<ObjNo>
    ensures { IsFirst object_cmp (is_that object) after result }
{
    let object = object?;
    match after.cmp(&object) {
        Ordering::Less => Some(object),
        _ => None,
    }
}

impl OwnLinks {
    /// The links of no changed object.
    pub(crate) fn new(alloc: Global) -> OwnLinks {
        OwnLinks {
            first: None,
            others: Links::new(alloc),
        }
    }

    /// Keeps a changed object for the links that go with these ties. Nothing is kept for the object that was changed first, nor if the ties
    /// are as in the base. The only error is a lack of memory.
    pub(crate) fn add<R: Rows>(
        &mut self,
        base: &R,
        key: ObjNo,
        ties: Ties,
    ) -> Result<(), AllocError>
        // Each object that might have a link still may.
        ensures others { (l : Link) (q : ObjNo) → may_have_own self.new l q ≡ false → may_have_own self.old l q ≡ false }
        // Without an error, the object may have each link that goes with the ties, unless it has that link in the base.
        ensures there { OnOk result ((l : Link) → has_link l ties ≡ true → is_linked (R.held base.now).maps l key ≡ false →
            may_have_own self.new l key ≡ true) }
    {
        let first = match self.first {
            None => {
                self.first = Some(key);
                return Ok(());
            }
            Some(first) => first,
        };
        if key == first || same_ties(ties_of(base.object(key)), ties) {
            return Ok(());
        }
        self.others.add(key, ties)
    }

    /// The least changed object past `after` that is to be looked at for the link, or `None` if there is no such object. Takes no memory.
    pub(crate) fn next(
        &self,
        changes: &BTreeMap<ObjNo, Option<ObjRow>>,
        link: Link,
        after: ObjNo,
    ) -> Option<ObjNo>
        ensures { IsFirst object_cmp (is_own_candidate self.now (contents object_cmp changes.now) link) after result }
    {
        ordered::least(
            object_past(self.first, after),
            self.others.next(changes, link, after),
        )
    }
}
