//! Rows in ordered maps.

ghost use Rattle.std.specs.Prelude.{◌≡◌, IfOk, IsOk};
ghost use Rattle.moo_rows.specs.Maps.{no_maps, without_object, without_prop, without_slot, without_verb, without_petition};

use crate::links::{
    Links, definer_of, forget_defined, next_defined, row_defined, row_has, same_ties, ties_of,
};
use crate::listing::list_tied;
use crate::names::{forget_tagged, keep_property, next_tagged, row_named, tag_if, tag_of};
use moo_rows::{
    Head, Link, ObjRow, PetitionId, PetitionRow, PropId, PropRow, Rows, SlotRow, VerbId, VerbRow,
    Writes, ordered,
};
use moo_value::ObjNo;
use std::alloc::{AllocError, Global};
use std::collections::BTreeMap;
use std::marker::Model;

/// Rows in ordered maps. Its look-ups, next keys and removals take no memory, and its removals never fail.
#[derive(Drop)]
pub struct Flat {
    head: Head,
    objects: BTreeMap<ObjNo, ObjRow>,
    props: BTreeMap<PropId, PropRow>,
    slots: BTreeMap<(ObjNo, PropId), SlotRow>,
    verbs: BTreeMap<(ObjNo, VerbId), VerbRow>,
    petitions: BTreeMap<PetitionId, PetitionRow>,
    links: Links,
    definers: BTreeMap<(ObjNo, PropId), ()>,
    names: BTreeMap<((ObjNo, u64), PropId), ()>,
    writes: Writes,
}

impl Model for Flat {
    ghost use Rattle.moo_rows.specs.Maps.{Held, coded_held, no_base, object_cmp, prop_cmp, slot_cmp, verb_cmp, petition_cmp};
    ghost use Rattle.moo_rows.specs.Ordered.{contents};

    ghost Value = { Held };

    ghost coded = { coded_held };

    ghost view = { λ f. record {
      maps = record {
        head = f.head;
        objects = contents object_cmp f.objects;
        props = contents prop_cmp f.props;
        slots = contents slot_cmp f.slots;
        verbs = contents verb_cmp f.verbs;
        petitions = contents petition_cmp f.petitions;
      };
      writes = f.writes.count;
      base = no_base;
    } };

    ghost use Rattle.std.specs.FinMap as map;
    ghost use Rattle.moo_rows.specs.Links.{AreCovered};
    ghost use Rattle.moo_rows.specs.Named.{named_cmp, tag_of};
    ghost use Rattle.moo_memory.specs.Forgotten.{AreKeysOf, KeepsNoOther};

    ghost invariant = { λ f.
        AreCovered (map.get (contents object_cmp f.objects)) f.links
        × AreKeysOf (λ row. row.definer) (map.get (contents prop_cmp f.props)) (contents slot_cmp f.definers)
        × AreKeysOf tag_of (map.get (contents prop_cmp f.props)) (contents named_cmp f.names)
        × KeepsNoOther (map.get (contents object_cmp f.objects)) f.links };
}

impl Flat {
    /// No rows: the greatest object number is -1, the next property, verb and petition are 1, and no batch was accepted.
    pub fn new(alloc: Global) -> Flat
        // There are no rows, and the head is as said above.
        ensures maps { result.maps ≡ no_maps }
        // No row was put or removed yet.
        ensures writes { result.writes ≡ 0 }
    {
        Flat {
            head: Head {
                top: -1,
                next_prop: 1,
                next_verb: 1,
                next_petition: 1,
                seq: 0,
            },
            objects: BTreeMap::new(alloc),
            props: BTreeMap::new(alloc),
            slots: BTreeMap::new(alloc),
            verbs: BTreeMap::new(alloc),
            petitions: BTreeMap::new(alloc),
            links: Links::new(alloc),
            definers: BTreeMap::new(alloc),
            names: BTreeMap::new(alloc),
            writes: Writes::new(),
        }
    }

    /// Rows that equal these, whose count of writes begins anew. The only error is a lack of memory.
    pub fn copy(&self, _alloc: Global) -> Result<Flat, AllocError>
        ensures { IfOk result (λ copy. copy.maps ≡ self.now.maps) }
    {
        Ok(Flat {
            head: self.head,
            objects: self.objects.clone()?,
            props: self.props.clone()?,
            slots: self.slots.clone()?,
            verbs: self.verbs.clone()?,
            petitions: self.petitions.clone()?,
            links: self.links.copy()?,
            definers: self.definers.clone()?,
            names: self.names.clone()?,
            writes: Writes::new(),
        })
    }
}

impl Rows for Flat {
    ghost held = { λ f. f };

    fn may_call(&mut self) -> bool {
        let _no_ticks = self.head;
        true
    }

    fn head(&self) -> Head {
        self.head
    }

    fn set_head(&mut self, head: Head) {
        self.head = head;
    }

    fn object(&self, key: ObjNo) -> Option<&ObjRow> {
        ordered::get(&self.objects, key)
    }

    fn next_object(&self, from: Option<ObjNo>) -> Option<ObjNo> {
        ordered::next(&self.objects, from)
    }

    fn next_linked(&self, link: Link, after: ObjNo) -> Option<ObjNo> {
        let mut last = after;
        loop {
            let key = match self.links.next(&self.objects, link, last) {
                None => return None,
                Some(key) => key,
            };
            if row_has(ordered::get(&self.objects, key), link) {
                return Some(key);
            }
            last = key;
        }
    }

    fn list_linked(
        &self,
        link: Link,
        after: ObjNo,
        list: &mut Vec<ObjNo>,
    ) -> Result<(), AllocError> {
        match self.links.pairs_of(link) {
            Some((pairs, x)) => list_tied(pairs, x, after, list),
            None => {
                let mut last = after;
                while let Some(y) = self.next_linked(link, last) {
                    list.push(y)?;
                    last = y;
                }
                Ok(())
            }
        }
    }

    fn put_object(&mut self, key: ObjNo, row: ObjRow) -> Result<(), AllocError> {
        let ties = row.ties();
        let old = ordered::replace(&mut self.objects, key, row)?;
        let was = ties_of(old.as_ref());
        if same_ties(was, ties) {
            self.writes.rise();
            return Ok(());
        }
        if let Err(error) = self.links.add(key, ties) {
            self.links.forget(key, Some(ties), was);
            ordered::put_back(&mut self.objects, key, old);
            return Err(error);
        }
        self.links.forget(key, was, Some(ties));
        self.writes.rise();
        Ok(())
    }

    fn remove_object(&mut self, key: ObjNo) -> Result<(), AllocError>
        ensures ok { self.new ≡ without_object self.old key }
        ensures succeeds { IsOk result }
    {
        let old = ties_of(ordered::get(&self.objects, key));
        ordered::remove(&mut self.objects, key);
        self.links.forget(key, old, None);
        self.writes.rise();
        Ok(())
    }

    fn prop(&self, key: PropId) -> Option<&PropRow> {
        ordered::get(&self.props, key)
    }

    fn next_prop(&self, from: Option<PropId>) -> Option<PropId> {
        ordered::next(&self.props, from)
    }

    fn next_defined(&self, x: ObjNo, after: PropId) -> Option<PropId> {
        let mut last = after;
        loop {
            let key = match next_defined(&self.definers, x, last) {
                None => return None,
                Some(key) => key,
            };
            if row_defined(ordered::get(&self.props, key), x) {
                return Some(key);
            }
            last = key;
        }
    }

    fn next_named(&self, x: ObjNo, name: &[u8], hash: u64, after: PropId) -> Option<PropId> {
        let mut last = after;
        loop {
            let key = match next_tagged(&self.names, (x, hash), last) {
                None => return None,
                Some(key) => key,
            };
            if row_named(ordered::get(&self.props, key), x, name) {
                return Some(key);
            }
            last = key;
        }
    }

    fn put_prop(&mut self, key: PropId, row: PropRow) -> Result<(), AllocError> {
        let definer = row.definer;
        let tag = tag_of(&row);
        let old = ordered::replace(&mut self.props, key, row)?;
        let defined = definer_of(old.as_ref());
        let was = tag_if(old.as_ref());
        if let Err(error) = keep_property(&mut self.definers, &mut self.names, tag, key) {
            forget_defined(&mut self.definers, Some(definer), defined, key);
            forget_tagged(&mut self.names, Some(tag), was, key);
            ordered::put_back(&mut self.props, key, old);
            return Err(error);
        }
        forget_defined(&mut self.definers, defined, Some(definer), key);
        forget_tagged(&mut self.names, was, Some(tag), key);
        self.writes.rise();
        Ok(())
    }

    fn remove_prop(&mut self, key: PropId) -> Result<(), AllocError>
        ensures ok { self.new ≡ without_prop self.old key }
        ensures succeeds { IsOk result }
    {
        let row = ordered::get(&self.props, key);
        let definer = definer_of(row);
        let tag = tag_if(row);
        ordered::remove(&mut self.props, key);
        forget_defined(&mut self.definers, definer, None, key);
        forget_tagged(&mut self.names, tag, None, key);
        self.writes.rise();
        Ok(())
    }

    fn slot(&self, key: (ObjNo, PropId)) -> Option<&SlotRow> {
        ordered::get(&self.slots, key)
    }

    fn next_slot(&self, from: Option<(ObjNo, PropId)>) -> Option<(ObjNo, PropId)> {
        ordered::next(&self.slots, from)
    }

    fn put_slot(&mut self, key: (ObjNo, PropId), row: SlotRow) -> Result<(), AllocError> {
        ordered::put(&mut self.slots, key, row)?;
        self.writes.rise();
        Ok(())
    }

    fn remove_slot(&mut self, key: (ObjNo, PropId)) -> Result<(), AllocError>
        ensures ok { self.new ≡ without_slot self.old key }
        ensures succeeds { IsOk result }
    {
        ordered::remove(&mut self.slots, key);
        self.writes.rise();
        Ok(())
    }

    fn verb(&self, key: (ObjNo, VerbId)) -> Option<&VerbRow> {
        ordered::get(&self.verbs, key)
    }

    fn next_verb(&self, from: Option<(ObjNo, VerbId)>) -> Option<(ObjNo, VerbId)> {
        ordered::next(&self.verbs, from)
    }

    fn put_verb(&mut self, key: (ObjNo, VerbId), row: VerbRow) -> Result<(), AllocError> {
        ordered::put(&mut self.verbs, key, row)?;
        self.writes.rise();
        Ok(())
    }

    fn remove_verb(&mut self, key: (ObjNo, VerbId)) -> Result<(), AllocError>
        ensures ok { self.new ≡ without_verb self.old key }
        ensures succeeds { IsOk result }
    {
        ordered::remove(&mut self.verbs, key);
        self.writes.rise();
        Ok(())
    }

    fn petition(&self, key: PetitionId) -> Option<&PetitionRow> {
        ordered::get(&self.petitions, key)
    }

    fn next_petition(&self, from: Option<PetitionId>) -> Option<PetitionId> {
        ordered::next(&self.petitions, from)
    }

    fn put_petition(&mut self, key: PetitionId, row: PetitionRow) -> Result<(), AllocError> {
        ordered::put(&mut self.petitions, key, row)?;
        self.writes.rise();
        Ok(())
    }

    fn remove_petition(&mut self, key: PetitionId) -> Result<(), AllocError>
        ensures ok { self.new ≡ without_petition self.old key }
        ensures succeeds { IsOk result }
    {
        ordered::remove(&mut self.petitions, key);
        self.writes.rise();
        Ok(())
    }
}
