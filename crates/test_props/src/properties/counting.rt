//! Rows that count what is put and removed, map by map.

ghost use Rattle.std.specs.Prelude.{◌≡◌, OnErr, OnOk};
ghost use Rattle.moo_rows.specs.Maps.{wrote};

use moo_memory::Flat;
use moo_rows::{
    Head, Link, ObjRow, PetitionId, PetitionRow, PropId, PropRow, Rows, SlotRow, VerbId, VerbRow,
};
use moo_value::ObjNo;
use std::alloc::AllocError;

/// How many rows were put and removed, of objects, properties, slots, verbs and petitions.
#[derive(Clone, Copy, PartialEq, Eq)]
pub(super) struct Counts {
    pub(super) objects: (u32, u32),
    pub(super) props: (u32, u32),
    pub(super) slots: (u32, u32),
    pub(super) verbs: (u32, u32),
    pub(super) petitions: (u32, u32),
}

/// No row was put or removed.
pub(super) const NONE: Counts = Counts {
    objects: (0, 0),
    props: (0, 0),
    slots: (0, 0),
    verbs: (0, 0),
    petitions: (0, 0),
};

/// Rows, and what was put and removed since they were counted anew.
#[derive(Drop)]
pub(super) struct Counting {
    pub(super) rows: Flat,
    pub(super) counts: Counts,
}

impl Counting {
    /// Hands back the counts so far, and begins them anew.
    pub(super) fn take_counts(&mut self) -> Counts
        ensures { self.new.rows ≡ self.old.rows }
    {
        let counts = self.counts;
        self.counts = NONE;
        counts
    }
}

/// Adds one to a count, up to 4,294,967,295.
fn one_more(count: &mut u32) {
    *count = count.saturating_add(1);
}

impl Rows for Counting {
    ghost held = { λ c. c.rows };

    fn may_call(&mut self) -> bool {
        self.rows.may_call()
    }

    fn head(&self) -> Head {
        self.rows.head()
    }

    fn set_head(&mut self, head: Head) {
        self.rows.set_head(head);
    }

    fn object(&self, key: ObjNo) -> Option<&ObjRow> {
        self.rows.object(key)
    }

    fn next_object(&self, from: Option<ObjNo>) -> Option<ObjNo> {
        self.rows.next_object(from)
    }

    fn next_linked(&self, link: Link, after: ObjNo) -> Option<ObjNo> {
        self.rows.next_linked(link, after)
    }

    fn put_object(&mut self, key: ObjNo, row: ObjRow) -> Result<(), AllocError> {
        one_more(&mut self.counts.objects.0);
        self.rows.put_object(key, row)
    }

    fn remove_object(&mut self, key: ObjNo) -> Result<(), AllocError> {
        one_more(&mut self.counts.objects.1);
        self.rows.remove_object(key)
    }

    fn prop(&self, key: PropId) -> Option<&PropRow> {
        self.rows.prop(key)
    }

    fn next_prop(&self, from: Option<PropId>) -> Option<PropId> {
        self.rows.next_prop(from)
    }

    fn next_defined(&self, x: ObjNo, after: PropId) -> Option<PropId> {
        self.rows.next_defined(x, after)
    }

    fn next_named(&self, x: ObjNo, name: &[u8], hash: u64, after: PropId) -> Option<PropId> {
        self.rows.next_named(x, name, hash, after)
    }

    fn put_prop(&mut self, key: PropId, row: PropRow) -> Result<(), AllocError> {
        one_more(&mut self.counts.props.0);
        self.rows.put_prop(key, row)
    }

    fn remove_prop(&mut self, key: PropId) -> Result<(), AllocError> {
        one_more(&mut self.counts.props.1);
        self.rows.remove_prop(key)
    }

    fn slot(&self, key: (ObjNo, PropId)) -> Option<&SlotRow> {
        self.rows.slot(key)
    }

    fn next_slot(&self, from: Option<(ObjNo, PropId)>) -> Option<(ObjNo, PropId)> {
        self.rows.next_slot(from)
    }

    fn put_slot(&mut self, key: (ObjNo, PropId), row: SlotRow) -> Result<(), AllocError> {
        one_more(&mut self.counts.slots.0);
        self.rows.put_slot(key, row)
    }

    fn remove_slot(&mut self, key: (ObjNo, PropId)) -> Result<(), AllocError> {
        one_more(&mut self.counts.slots.1);
        self.rows.remove_slot(key)
    }

    fn verb(&self, key: (ObjNo, VerbId)) -> Option<&VerbRow> {
        self.rows.verb(key)
    }

    fn next_verb(&self, from: Option<(ObjNo, VerbId)>) -> Option<(ObjNo, VerbId)> {
        self.rows.next_verb(from)
    }

    fn put_verb(&mut self, key: (ObjNo, VerbId), row: VerbRow) -> Result<(), AllocError> {
        one_more(&mut self.counts.verbs.0);
        self.rows.put_verb(key, row)
    }

    fn remove_verb(&mut self, key: (ObjNo, VerbId)) -> Result<(), AllocError> {
        one_more(&mut self.counts.verbs.1);
        self.rows.remove_verb(key)
    }

    fn petition(&self, key: PetitionId) -> Option<&PetitionRow> {
        self.rows.petition(key)
    }

    fn next_petition(&self, from: Option<PetitionId>) -> Option<PetitionId> {
        self.rows.next_petition(from)
    }

    fn put_petition(&mut self, key: PetitionId, row: PetitionRow) -> Result<(), AllocError> {
        one_more(&mut self.counts.petitions.0);
        self.rows.put_petition(key, row)
    }

    fn remove_petition(&mut self, key: PetitionId) -> Result<(), AllocError> {
        one_more(&mut self.counts.petitions.1);
        self.rows.remove_petition(key)
    }
}
