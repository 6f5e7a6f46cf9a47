//! What holds the rows.

ghost use Rattle.std.specs.Prelude.{◌≡◌, ◌++◌, true, false, map as map_list, option_map, OnErr, OnOk};
ghost use Rattle.std.specs.FinMap as map;
ghost use Rattle.moo_rows.specs.{Ordered.{IsNext}, Links.{IsFirst, is_linked, is_definer, linked_left}, Named.{is_named_by, name_hash}};
ghost use Rattle.moo_rows.specs.Maps.{Held, object_cmp, prop_cmp, spent, with_object, without_object, with_prop, without_prop, with_slot};
ghost use Rattle.moo_rows.specs.Maps.{without_slot, with_verb, without_verb, with_petition, without_petition};

use crate::row::{
    Head, Link, ObjRow, PetitionId, PetitionRow, PropId, PropRow, SlotRow, VerbId, VerbRow,
};
use moo_value::ObjNo;
use std::alloc::AllocError;

/// A head and five maps of rows: objects, properties, slots, verbs and petitions.
///
/// A look-up, a next key and the head take no memory. A put or a removal that is refused, for a lack of memory alone, changes nothing.
/// Each other one changes the row of its key and nothing else, and raises the count of writes, which only contracts see, by one.
/// Keys are in the order of their numbers: slots and verbs by the number of the object, and on one object by their own.
///
/// A call of somebody's may look rows up and change them only so often: code that goes over many rows asks between two of them whether it
/// may go on (`go_on`), and answers a lack of memory if not.
pub trait Rows {
    /// The head and what the maps hold, how many rows were put or removed so far, and what the rows are over.
    ghost held: { Self → Held };

    /// Whether more rows may be looked up and changed. A draft answers no once more ticks are spent than it has. No contract says when.
    fn may_go_on(&self) -> bool {
        true
    }

    /// Counts so many look-ups more. A draft counts them as ticks that are spent. No contract sees it.
    fn spend(&self, _ticks: u64) {}

    /// Whether one more call may be made on the rows. Once it is said that none may, that is never taken back.
    fn may_call(&mut self) -> bool
        // If the answer is yes, nothing changes.
        ensures yes { result ≡ true → held self.new ≡ held self.old }
        // After a yes it was never said that no more calls are to be made.
        ensures leave { result ≡ true → (held self.new).base.is_spent ≡ false }
        // If the answer is no, no row changes: it is only kept that no more calls are to be made.
        ensures no { result ≡ false → held self.new ≡ spent (held self.old) };

    /// The head: the greatest object number and the other counters.
    fn head(&self) -> Head
        ensures { result ≡ (held self.now).maps.head };

    /// Sets the head. No row changes, and the count of writes stays.
    fn set_head(&mut self, head: Head)
        ensures { held self.new
            ≡ record (held self.old) { maps = record ((held self.old).maps) { head = head } } };

    /// The row of an object, or `None` if the map doesn't hold it.
    fn object(&self, key: ObjNo) -> Option<&ObjRow>
        ensures { option_map (λ row. row.now) result ≡ map.get (held self.now).maps.objects key };

    /// The least object that is held past `from`, or the least of all if no `from` is given; `None` if there is no such object.
    fn next_object(&self, from: Option<ObjNo>) -> Option<ObjNo>
        ensures { IsNext (held self.now).maps.objects from result };

    /// The least object past `after` that has the link, or `None` if no object past it has it.
    fn next_linked(&self, link: Link, after: ObjNo) -> Option<ObjNo>
        ensures { IsFirst object_cmp (is_linked (held self.now).maps link) after result };

    /// Appends to a list the objects past `after` that have the link, ascending. The only error is a lack of memory, after which some of
    /// them may be listed.
    fn list_linked(&self, link: Link, after: ObjNo, list: &mut Vec<ObjNo>) -> Result<(), AllocError>
        ensures { OnOk result (list.new.items ≡ list.old.items ++ map_list (λ e. e.0) (linked_left link after (held self.now).maps)) }
    {
        let mut last = after;
        while let Some(y) = self.next_linked(link, last) {
            list.push(y)?;
            last = y;
        }
        Ok(())
    }

    /// Sets the row of an object, in place of the one that it has, if any. The only error is a lack of memory.
    fn put_object(&mut self, key: ObjNo, row: ObjRow) -> Result<(), AllocError>
        ensures ok { OnOk result (held self.new ≡ with_object (held self.old) key row) }
        // After an error nothing has changed.
        ensures err { OnErr result (held self.new ≡ held self.old) };

    /// Takes the row of an object away; it need not have one. The only error is a lack of memory.
    fn remove_object(&mut self, key: ObjNo) -> Result<(), AllocError>
        ensures ok { OnOk result (held self.new ≡ without_object (held self.old) key) }
        // After an error nothing has changed.
        ensures err { OnErr result (held self.new ≡ held self.old) };

    /// The row of a property, or `None` if the map doesn't hold it.
    fn prop(&self, key: PropId) -> Option<&PropRow>
        ensures { option_map (λ row. row.now) result ≡ map.get (held self.now).maps.props key };

    /// The least property that is held past `from`, or the least of all if no `from` is given; `None` if there is no such property.
    fn next_prop(&self, from: Option<PropId>) -> Option<PropId>
        ensures { IsNext (held self.now).maps.props from result };

    /// The least property past `after` that x defines, or `None` if it defines no property past it.
    fn next_defined(&self, x: ObjNo, after: PropId) -> Option<PropId>
        ensures { IsFirst prop_cmp (is_definer (held self.now).maps x) after result };

    /// The least property past `after` that x defines under a name, whose hash is given, or `None` if it defines no such property past it.
    /// Names compare without ASCII case.
    fn next_named(&self, x: ObjNo, name: &[u8], hash: u64, after: PropId) -> Option<PropId>
        // The hash is that of the name. Other names may have it too; a property of such a name doesn't count.
        requires { hash ≡ name_hash name.now }
        ensures { IsFirst prop_cmp (is_named_by (held self.now).maps x name.now) after result };

    /// Sets the row of a property, in place of the one that it has, if any. The only error is a lack of memory.
    fn put_prop(&mut self, key: PropId, row: PropRow) -> Result<(), AllocError>
        ensures ok { OnOk result (held self.new ≡ with_prop (held self.old) key row) }
        // After an error nothing has changed.
        ensures err { OnErr result (held self.new ≡ held self.old) };

    /// Takes the row of a property away; it need not have one. The only error is a lack of memory.
    fn remove_prop(&mut self, key: PropId) -> Result<(), AllocError>
        ensures ok { OnOk result (held self.new ≡ without_prop (held self.old) key) }
        // After an error nothing has changed.
        ensures err { OnErr result (held self.new ≡ held self.old) };

    /// The row of a slot, or `None` if the map doesn't hold it.
    fn slot(&self, key: (ObjNo, PropId)) -> Option<&SlotRow>
        ensures { option_map (λ row. row.now) result ≡ map.get (held self.now).maps.slots key };

    /// The least slot that is held past `from`, or the least of all if no `from` is given; `None` if there is no such slot.
    fn next_slot(&self, from: Option<(ObjNo, PropId)>) -> Option<(ObjNo, PropId)>
        ensures { IsNext (held self.now).maps.slots from result };

    /// Sets the row of a slot, in place of the one that it has, if any. The only error is a lack of memory.
    fn put_slot(&mut self, key: (ObjNo, PropId), row: SlotRow) -> Result<(), AllocError>
        ensures ok { OnOk result (held self.new ≡ with_slot (held self.old) key row) }
        // After an error nothing has changed.
        ensures err { OnErr result (held self.new ≡ held self.old) };

    /// Takes the row of a slot away; it need not have one. The only error is a lack of memory.
    fn remove_slot(&mut self, key: (ObjNo, PropId)) -> Result<(), AllocError>
        ensures ok { OnOk result (held self.new ≡ without_slot (held self.old) key) }
        // After an error nothing has changed.
        ensures err { OnErr result (held self.new ≡ held self.old) };

    /// The row of a verb, or `None` if the map doesn't hold it.
    fn verb(&self, key: (ObjNo, VerbId)) -> Option<&VerbRow>
        ensures { option_map (λ row. row.now) result ≡ map.get (held self.now).maps.verbs key };

    /// The least verb that is held past `from`, or the least of all if no `from` is given; `None` if there is no such verb.
    fn next_verb(&self, from: Option<(ObjNo, VerbId)>) -> Option<(ObjNo, VerbId)>
        ensures { IsNext (held self.now).maps.verbs from result };

    /// Sets the row of a verb, in place of the one that it has, if any. The only error is a lack of memory.
    fn put_verb(&mut self, key: (ObjNo, VerbId), row: VerbRow) -> Result<(), AllocError>
        ensures ok { OnOk result (held self.new ≡ with_verb (held self.old) key row) }
        // After an error nothing has changed.
        ensures err { OnErr result (held self.new ≡ held self.old) };

    /// Takes the row of a verb away; it need not have one. The only error is a lack of memory.
    fn remove_verb(&mut self, key: (ObjNo, VerbId)) -> Result<(), AllocError>
        ensures ok { OnOk result (held self.new ≡ without_verb (held self.old) key) }
        // After an error nothing has changed.
        ensures err { OnErr result (held self.new ≡ held self.old) };

    /// The row of a petition, or `None` if the map doesn't hold it.
    fn petition(&self, key: PetitionId) -> Option<&PetitionRow>
        ensures { option_map (λ row. row.now) result ≡ map.get (held self.now).maps.petitions key };

    /// The least petition that is held past `from`, or the least of all if no `from` is given; `None` if there is no such petition.
    fn next_petition(&self, from: Option<PetitionId>) -> Option<PetitionId>
        ensures { IsNext (held self.now).maps.petitions from result };

    /// Sets the row of a petition, in place of the one that it has, if any. The only error is a lack of memory.
    fn put_petition(&mut self, key: PetitionId, row: PetitionRow) -> Result<(), AllocError>
        ensures ok { OnOk result (held self.new ≡ with_petition (held self.old) key row) }
        // After an error nothing has changed.
        ensures err { OnErr result (held self.new ≡ held self.old) };

    /// Takes the row of a petition away; it need not have one. The only error is a lack of memory.
    fn remove_petition(&mut self, key: PetitionId) -> Result<(), AllocError>
        ensures ok { OnOk result (held self.new ≡ without_petition (held self.old) key) }
        // After an error nothing has changed.
        ensures err { OnErr result (held self.new ≡ held self.old) };
}
