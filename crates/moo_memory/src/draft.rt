//! Drafts: rows changed over others that stay as they are.

ghost use Rattle.std.specs.Prelude.{◌≡◌, ◌≤◌, ◌+◌, false, IfOk};
ghost use Rattle.moo_memory.specs.Changes.{AreChanges};

use crate::changes::{Changes, changed_rows};
use crate::either::{next_defined_of_either, next_linked_of_either, next_named_of_either};
use crate::links::{definer_of, forget_defined, row_defined, row_has};
use crate::names::{forget_tagged, row_named, tag_if, tag_of};
use crate::overlay;
use crate::own_links::OwnLinks;
use crate::ticks::Ticks;
use moo_rows::{
    Head, Link, ObjRow, PetitionId, PetitionRow, PropId, PropRow, Rows, SlotRow, VerbId, VerbRow,
    ordered,
};
use moo_value::ObjNo;
use std::alloc::{AllocError, Global};
use std::collections::BTreeMap;
use std::marker::Model;

/// Changes over rows that stay as they are: for each changed key a new row, or `None` if it is removed.
///
/// The links, definers and names are those of changed rows. Links, definers and names that a later change took away may be among them.
#[derive(Drop)]
pub struct Draft<'a, R: Rows> {
    alloc: Global,
    base: &'a R,
    head: Head,
    objects: BTreeMap<ObjNo, Option<ObjRow>>,
    props: BTreeMap<PropId, Option<PropRow>>,
    slots: BTreeMap<(ObjNo, PropId), Option<SlotRow>>,
    verbs: BTreeMap<(ObjNo, VerbId), Option<VerbRow>>,
    petitions: BTreeMap<PetitionId, Option<PetitionRow>>,
    links: OwnLinks,
    definers: BTreeMap<(ObjNo, PropId), ()>,
    names: BTreeMap<((ObjNo, u64), PropId), ()>,
    writes: u64,
    ticks: Ticks,
    is_spent: bool,
}

impl<'a, R: Rows> Model for Draft<'a, R> {
    ghost use Rattle.moo_rows.specs.Maps.{Held, coded_held, object_cmp, prop_cmp, slot_cmp, verb_cmp, petition_cmp};
    ghost use Rattle.moo_rows.specs.Ordered.{contents};
    ghost use Rattle.moo_memory.specs.Overlay.{overlaid};

    ghost Value = { Held };

    ghost coded = { coded_held };

    ghost view = { λ d. let below = (R.held d.base.now).maps in record {
      maps = record {
        head = d.head;
        objects = overlaid below.objects (contents object_cmp d.objects);
        props = overlaid below.props (contents prop_cmp d.props);
        slots = overlaid below.slots (contents slot_cmp d.slots);
        verbs = overlaid below.verbs (contents verb_cmp d.verbs);
        petitions = overlaid below.petitions (contents petition_cmp d.petitions);
      };
      writes = d.writes;
      base = record { maps = below; most = d.ticks.most; is_spent = d.is_spent };
    } };

    ghost use Rattle.std.specs.FinMap as map;
    ghost use Rattle.moo_rows.specs.Links.{AreOfDefiners};
    ghost use Rattle.moo_rows.specs.Named.{AreByName, named_cmp};
    ghost use Rattle.moo_memory.specs.Either.{EitherCovers, of_changes};
    ghost use Rattle.std.specs.Prelude.{◌≤◌};

    ghost invariant = { λ d.
        EitherCovers (map.get (R.held d.base.now).maps.objects) (of_changes (contents object_cmp d.objects)) d.links
        × AreOfDefiners (of_changes (contents prop_cmp d.props)) (contents slot_cmp d.definers)
        × AreByName (of_changes (contents prop_cmp d.props)) (contents named_cmp d.names)
        × (d.writes ≤ d.ticks.most) };
}

impl<'a, R: Rows> Draft<'a, R> {
    /// A draft without changes, whose rows may be looked up, put and removed as often as there are ticks. Past that each put and each
    /// removal is refused.
    pub fn within(alloc: Global, base: &'a R, ticks: u64) -> Draft<'a, R>
        // The head and the rows of the draft are those of the base.
        ensures maps { result.maps ≡ (R.held base.now).maps }
        // It is over the rows of the base, has so many ticks, and calls may be made on it.
        ensures base { result.base ≡ record { maps = (R.held base.now).maps; most = ticks; is_spent = false } }
        // No row was put or removed yet.
        ensures writes { result.writes ≡ 0 }
    {
        Draft {
            alloc,
            base,
            head: base.head(),
            objects: BTreeMap::new(alloc),
            props: BTreeMap::new(alloc),
            slots: BTreeMap::new(alloc),
            verbs: BTreeMap::new(alloc),
            petitions: BTreeMap::new(alloc),
            links: OwnLinks::new(alloc),
            definers: BTreeMap::new(alloc),
            names: BTreeMap::new(alloc),
            writes: 0,
            ticks: Ticks::new(ticks),
            is_spent: false,
        }
    }

    /// How many ticks are left, after look-ups, puts and removals; 0 once more are spent than there were.
    pub fn ticks_left(&self) -> u64
        // The ticks left and the puts and removals made are together no more than the ticks that the draft was given.
        ensures { result + self.now.writes ≤ self.now.base.most }
    {
        self.ticks.left_after(self.writes)
    }

    /// The changes that make the base into the draft: a row that is put back isn't a change, nor is the removal of a row
    /// that the base doesn't have. The only error is that memory runs out.
    pub fn into_changes(self) -> Result<Changes, AllocError>
        // They are the changes from the base to the draft.
        ensures { IfOk result (λ changes. AreChanges self.entry.base.maps self.entry.maps changes) }
    {
        Ok(Changes {
            head: self.head,
            objects: changed_rows(self.alloc, self.base, self.objects)?,
            props: changed_rows(self.alloc, self.base, self.props)?,
            slots: changed_rows(self.alloc, self.base, self.slots)?,
            verbs: changed_rows(self.alloc, self.base, self.verbs)?,
            petitions: changed_rows(self.alloc, self.base, self.petitions)?,
        })
    }
}

impl<'a, R: Rows> Rows for Draft<'a, R> {
    ghost held = { λ d. d };

    fn may_go_on(&self) -> bool {
        self.ticks.are_enough()
    }

    fn spend(&self, ticks: u64) {
        self.ticks.spend(ticks);
    }

    fn may_call(&mut self) -> bool {
        if !self.ticks.are_enough() {
            self.is_spent = true;
        }
        !self.is_spent
    }

    fn head(&self) -> Head {
        self.head
    }

    fn set_head(&mut self, head: Head) {
        self.head = head;
    }

    fn object(&self, key: ObjNo) -> Option<&ObjRow> {
        self.ticks.spend(1);
        overlay::get(self.base, &self.objects, key)
    }

    fn next_object(&self, from: Option<ObjNo>) -> Option<ObjNo> {
        self.ticks.spend(1);
        overlay::next(self.base, &self.objects, from)
    }

    fn next_linked(&self, link: Link, after: ObjNo) -> Option<ObjNo> {
        let mut last = after;
        loop {
            self.ticks.spend(1);
            let key = match next_linked_of_either(
                self.base,
                &self.objects,
                &self.links,
                link,
                last,
            ) {
                None => return None,
                Some(key) => key,
            };
            if row_has(overlay::get(self.base, &self.objects, key), link) {
                return Some(key);
            }
            last = key;
        }
    }

    fn list_linked(
        &self,
        link: Link,
        after: ObjNo,
        list: &mut Vec<ObjNo>,
    ) -> Result<(), AllocError> {
        if self.objects.is_empty() {
            self.base.list_linked(link, after, list)?;
            self.ticks.spend(list.len() as u64);
            return Ok(());
        }
        let mut last = after;
        while let Some(y) = self.next_linked(link, last) {
            list.push(y)?;
            last = y;
        }
        Ok(())
    }

    fn put_object(&mut self, key: ObjNo, row: ObjRow) -> Result<(), AllocError> {
        self.links.add(self.base, key, row.ties())?;
        overlay::put(
            &mut self.objects,
            &mut self.writes,
            &self.ticks,
            key,
            Some(row),
        )
    }

    fn remove_object(&mut self, key: ObjNo) -> Result<(), AllocError> {
        overlay::put(&mut self.objects, &mut self.writes, &self.ticks, key, None)
    }

    fn prop(&self, key: PropId) -> Option<&PropRow> {
        self.ticks.spend(1);
        overlay::get(self.base, &self.props, key)
    }

    fn next_prop(&self, from: Option<PropId>) -> Option<PropId> {
        self.ticks.spend(1);
        overlay::next(self.base, &self.props, from)
    }

    fn next_defined(&self, x: ObjNo, after: PropId) -> Option<PropId> {
        let mut last = after;
        loop {
            self.ticks.spend(1);
            let key = match next_defined_of_either(self.base, &self.definers, x, last) {
                None => return None,
                Some(key) => key,
            };
            if row_defined(overlay::get(self.base, &self.props, key), x) {
                return Some(key);
            }
            last = key;
        }
    }

    fn next_named(&self, x: ObjNo, name: &[u8], hash: u64, after: PropId) -> Option<PropId> {
        let mut last = after;
        loop {
            self.ticks.spend(1);
            let key = match next_named_of_either(self.base, &self.names, x, name, hash, last) {
                None => return None,
                Some(key) => key,
            };
            if row_named(overlay::get(self.base, &self.props, key), x, name) {
                return Some(key);
            }
            last = key;
        }
    }

    fn put_prop(&mut self, key: PropId, row: PropRow) -> Result<(), AllocError> {
        ordered::put(&mut self.definers, (row.definer, key), ())?;
        ordered::put(&mut self.names, (tag_of(&row), key), ())?;
        overlay::put(
            &mut self.props,
            &mut self.writes,
            &self.ticks,
            key,
            Some(row),
        )
    }

    fn remove_prop(&mut self, key: PropId) -> Result<(), AllocError> {
        let row = overlay::new_row(&self.props, key);
        let definer = definer_of(row);
        let tag = tag_if(row);
        overlay::put(&mut self.props, &mut self.writes, &self.ticks, key, None)?;
        forget_defined(&mut self.definers, definer, None, key);
        forget_tagged(&mut self.names, tag, None, key);
        Ok(())
    }

    fn slot(&self, key: (ObjNo, PropId)) -> Option<&SlotRow> {
        self.ticks.spend(1);
        overlay::get(self.base, &self.slots, key)
    }

    fn next_slot(&self, from: Option<(ObjNo, PropId)>) -> Option<(ObjNo, PropId)> {
        self.ticks.spend(1);
        overlay::next(self.base, &self.slots, from)
    }

    fn put_slot(&mut self, key: (ObjNo, PropId), row: SlotRow) -> Result<(), AllocError> {
        overlay::put(
            &mut self.slots,
            &mut self.writes,
            &self.ticks,
            key,
            Some(row),
        )
    }

    fn remove_slot(&mut self, key: (ObjNo, PropId)) -> Result<(), AllocError> {
        overlay::put(&mut self.slots, &mut self.writes, &self.ticks, key, None)
    }

    fn verb(&self, key: (ObjNo, VerbId)) -> Option<&VerbRow> {
        self.ticks.spend(1);
        overlay::get(self.base, &self.verbs, key)
    }

    fn next_verb(&self, from: Option<(ObjNo, VerbId)>) -> Option<(ObjNo, VerbId)> {
        self.ticks.spend(1);
        overlay::next(self.base, &self.verbs, from)
    }

    fn put_verb(&mut self, key: (ObjNo, VerbId), row: VerbRow) -> Result<(), AllocError> {
        overlay::put(
            &mut self.verbs,
            &mut self.writes,
            &self.ticks,
            key,
            Some(row),
        )
    }

    fn remove_verb(&mut self, key: (ObjNo, VerbId)) -> Result<(), AllocError> {
        overlay::put(&mut self.verbs, &mut self.writes, &self.ticks, key, None)
    }

    fn petition(&self, key: PetitionId) -> Option<&PetitionRow> {
        self.ticks.spend(1);
        overlay::get(self.base, &self.petitions, key)
    }

    fn next_petition(&self, from: Option<PetitionId>) -> Option<PetitionId> {
        self.ticks.spend(1);
        overlay::next(self.base, &self.petitions, from)
    }

    fn put_petition(&mut self, key: PetitionId, row: PetitionRow) -> Result<(), AllocError> {
        overlay::put(
            &mut self.petitions,
            &mut self.writes,
            &self.ticks,
            key,
            Some(row),
        )
    }

    fn remove_petition(&mut self, key: PetitionId) -> Result<(), AllocError> {
        overlay::put(
            &mut self.petitions,
            &mut self.writes,
            &self.ticks,
            key,
            None,
        )
    }
}
